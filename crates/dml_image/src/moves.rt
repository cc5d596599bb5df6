//! Moves of bytes inside an image, whatever ranges overlap, with no stage and no allocation.
ghost use Rattle.std.specs.Prelude.{◌≡◌, ◌+◌, ◌<◌, ◌≤◌, IsTrue, ◌&&◌, ◌%◌, false};
ghost use Rattle.dml_types.specs.Memory.{IsMemory, has_all, bytes_at, put, has};
ghost use Rattle.dml_types.specs.Bytewise.{pattern_bytes};
ghost use Rattle.dml_segments.specs.Copied.{copied, IsOneCopy};
ghost use Rattle.dml_image.specs.Copied.{IsCopyIn};
ghost use Rattle.dml_image.specs.Kept.{kept_by};

use crate::images::Pages;
use crate::parts::move_range;
use dml_segments::{at_once, rest_of_page};

impl Pages<'_> {
    /// Copies the bytes of one range to another; where the two overlap, the bytes as they stood.
    pub fn move_within(&mut self, source: u64, target: u64, len: u32)
        requires memory { IsMemory (kept_by self.old) }
        requires source { IsTrue (has_all (kept_by self.old) source len) }
        requires target { IsTrue (has_all (kept_by self.old) target len) }
        ensures { kept_by self.new ≡ put (kept_by self.old) target (bytes_at (kept_by self.old) source len) }
    {
        let bytes = len as usize;
        if bytes > 0 && self.part_behind(source, target, bytes) == bytes {
            self.copy_part(source, target, bytes);
        } else {
            self.move_by_parts(source, target, len);
        }
    }

    /// The same in parts. It stands apart, so that a move of one part has none of its frame, and asks once whose pages
    /// they are.
    #[inline(never)]
    fn move_by_parts(&mut self, source: u64, target: u64, len: u32)
        requires memory { IsMemory (kept_by self.old) }
        requires source { IsTrue (has_all (kept_by self.old) source len) }
        requires target { IsTrue (has_all (kept_by self.old) target len) }
        ensures { kept_by self.new ≡ put (kept_by self.old) target (bytes_at (kept_by self.old) source len) }
    {
        match self {
            Pages::Own(table) => move_range(table, source, target, len),
            Pages::Lent(lent) => move_range(lent, source, target, len),
            Pages::Segments(segments) => move_range(segments, source, target, len),
        }
    }

    /// How many bytes from two addresses on are copied at once, `most` at most; none in segments, which copy by
    /// themselves.
    fn part_behind(&self, from: u64, to: u64, most: usize) -> usize
        requires { 0 < most }
        ensures most { result ≤ most }
        ensures copy { 0 < result → IsCopyIn self.now from to result }
    {
        match self {
            Pages::Own(_) => at_once(from, to, most)
                .min(rest_of_page(from))
                .min(rest_of_page(to)),
            Pages::Lent(_) => at_once(from, to, most),
            Pages::Segments(_) => 0,
        }
    }

    /// Copies so many bytes at once.
    // It stands apart, so that a move is small enough to be put into its caller.
    #[inline(never)]
    fn copy_part(&mut self, from: u64, to: u64, len: usize)
        requires memory { IsMemory (kept_by self.old) }
        requires some { 0 < len }
        requires from { IsTrue (has_all (kept_by self.old) from len) }
        requires to { IsTrue (has_all (kept_by self.old) to len) }
        requires copy { IsCopyIn self.old from to len }
        ensures { kept_by self.new ≡ put (kept_by self.old) to (bytes_at (kept_by self.old) from len) }
    {
        match self {
            Pages::Own(table) => table.copy_part(from, to, len),
            Pages::Lent(lent) => lent.copy_part(from, to, len),
            Pages::Segments(_) => unreachable!(),
        }
    }

    /// Copies `len` bytes of one page to one page at once, where both are present. Returns whether they are.
    // It stands apart, so that what tests the ranges is small enough to be put into its caller.
    #[inline(never)]
    pub fn copy_in_page(&mut self, source: u64, target: u64, len: usize) -> bool
        requires memory { IsMemory (kept_by self.old) }
        requires some { 0 < len }
        requires within { (source % 4096 + len ≤ 4096) × (target % 4096 + len ≤ 4096) }
        requires apart { IsOneCopy source target len }
        ensures present { result ≡ (has (kept_by self.old) source && has (kept_by self.old) target) }
        ensures copied { IsTrue result
            → kept_by self.new ≡ put (kept_by self.old) target (bytes_at (kept_by self.old) source len) }
        ensures kept { result ≡ false → kept_by self.new ≡ kept_by self.old }
    {
        match self {
            Pages::Own(table) => table.copy_in_page(source, target, len),
            Pages::Lent(lent) => lent.copy_in_page(source, target, len),
            Pages::Segments(segments) => segments.copy_in_page(source, target, len),
        }
    }

    /// Copies `len` bytes of one page to one page, and then to another, where all three are present. Returns whether
    /// they are.
    // It stands apart, as `copy_in_page` does.
    #[inline(never)]
    pub fn copy_twice_in_page(&mut self, source: u64, first: u64, second: u64, len: usize) -> bool
        requires memory { IsMemory (kept_by self.old) }
        requires some { 0 < len }
        requires within { (source % 4096 + len ≤ 4096) × (first % 4096 + len ≤ 4096) × (second % 4096 + len ≤ 4096) }
        requires apart { IsOneCopy source first len × IsOneCopy source second len }
        ensures present { result
            ≡ (has (kept_by self.old) second && (has (kept_by self.old) source && has (kept_by self.old) first)) }
        ensures copied { IsTrue result
            → kept_by self.new ≡ copied (copied (kept_by self.old) source first len) source second len }
        ensures kept { result ≡ false → kept_by self.new ≡ kept_by self.old }
    {
        match self {
            Pages::Own(table) => table.copy_twice_in_page(source, first, second, len),
            Pages::Lent(lent) => lent.copy_twice_in_page(source, first, second, len),
            Pages::Segments(segments) => segments.copy_twice_in_page(source, first, second, len),
        }
    }

    /// Repeats the 8 bytes of a pattern, low byte first, over `len` bytes of one page, where it is present. Returns
    /// whether it is.
    // It stands apart, as `copy_in_page` does.
    #[inline(never)]
    pub fn fill_in_page(&mut self, addr: u64, len: u32, pattern: u64) -> bool
        requires memory { IsMemory (kept_by self.old) }
        requires within { addr % 4096 + len ≤ 4096 }
        ensures present { result ≡ has (kept_by self.old) addr }
        ensures filled { IsTrue result
            → kept_by self.new ≡ put (kept_by self.old) addr (pattern_bytes pattern len) }
        ensures kept { result ≡ false → kept_by self.new ≡ kept_by self.old }
    {
        match self {
            Pages::Own(table) => table.fill_in_page(addr, len as usize, pattern),
            Pages::Lent(lent) => lent.fill_in_page(addr, len, pattern),
            Pages::Segments(segments) => segments.fill_in_page(addr, len as usize, pattern),
        }
    }
}
