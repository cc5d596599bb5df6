ghost use Rattle.std.specs.Prelude.{◌≡◌, ◌≢◌, ◌+◌, ◌-◌, ◌%◌, ◌^◌, ◌<◌, ◌≤◌, min, ◌↔◌, ◌⊎◌, false, length, IfOk, OnErr, OnOk, ◌&&◌, true, slice_index_or, EachIndex, IsErr, IsOk, IsSome, IsTrue, MatchOption, if◌then◌else◌};
ghost use Rattle.dml_types.specs.Memory.{IsMemory, has, has_all, byte_at, bytes_at, is_in_segments, is_own, present_bytes, present_toward, put, puts_made};
ghost use Rattle.dml_types.specs.Bytewise.{pattern_bytes};
ghost use Rattle.dml_segments.specs.Blocks.{are_present, block_puts};
ghost use Rattle.dml_segments.specs.Brought.{all_absent, brought, evicted, has_page};
ghost use Rattle.dml_segments.specs.Copied.{copied, IsOneCopy};
ghost use Rattle.dml_image.specs.Kept.{kept_by, loan_memory};
ghost use Rattle.dml_segments.specs.Present.{IsPartOfPage};
ghost use Rattle.dml_segments.specs.Pieces.{AreSegments, pieces_memory, pieces_of};

use crate::errors::ImageError;
use crate::lent::Lent;
use crate::runs::{present_downwards, present_in_page, present_upwards};
use crate::tables::Table;
use crate::{MAX_PAGES, PAGE_SIZE};
use dml_segments::{Segment, Segments, is_one_copy, rest_of_page};
use dml_types::Direction;
use std::alloc::{AllocError, Global};
use std::fmt;
use std::marker::Model;

/// A memory of pages of 4,096 bytes, from address 0 on: 1 to 4,096 pages of its own or that a caller lends, or 1 to
/// 2^32 - 1 that a caller lends in one piece or in segments.
///
/// Each page is present or absent, and no byte past the last page is present.
pub struct Image<'a> {
    pages: Pages<'a>,
}

/// Whose pages they are.
#[derive(Drop)]
pub(crate) enum Pages<'a> {
    Own(Table),
    Lent(Lent<'a>),
    Segments(Segments<'a>),
}

impl Pages<'_> {
    /// Makes a page present with these bytes. A page that is present needs no memory, and lent memory gets no page.
    fn bring(&mut self, page: usize, bytes: &[u8; 4096]) -> Result<(), AllocError>
        requires memory { IsMemory (kept_by self.old) }
        requires page { page < length (kept_by self.old).present }
        ensures ok { OnOk result (kept_by self.new ≡ brought (kept_by self.old) page bytes.now) }
        ensures err { OnErr result (kept_by self.new ≡ kept_by self.old) }
        ensures again { IsTrue (has_page (kept_by self.old) page) → IsOk result }
        ensures no_room { IsSome (kept_by self.old).home → has_page (kept_by self.old) page ≡ false → IsErr result }
        ensures hole { IsTrue (is_in_segments (kept_by self.old)) → has_page (kept_by self.old) page ≡ false
            → IsErr result }
    {
        match self {
            Pages::Own(table) => table.bring(page, bytes),
            Pages::Lent(lent) => lent.bring(page, bytes),
            Pages::Segments(segments) => segments.bring(page, bytes),
        }
    }

    /// Makes a page absent, where it is one of an image's own. Returns whether one was present.
    fn evict(&mut self, page: usize) -> bool
        requires { page < length (kept_by self.old).present }
        ensures page { result ≡ (is_own (kept_by self.old) && has_page (kept_by self.old) page) }
        ensures gone { result ≡ true → kept_by self.new ≡ evicted (kept_by self.old) page }
        ensures kept { result ≡ false → kept_by self.new ≡ kept_by self.old }
    {
        match self {
            Pages::Own(table) => table.evict(page),
            Pages::Lent(_) => false,
            Pages::Segments(segments) => segments.evict(),
        }
    }

    fn write(&mut self, addr: u64, bytes: &[u8])
        requires memory { IsMemory (kept_by self.old) }
        requires present { IsTrue (has_all (kept_by self.old) addr (length bytes.now)) }
        ensures { kept_by self.new ≡ put (kept_by self.old) addr bytes.now }
    {
        match self {
            Pages::Own(table) => table.write(addr, bytes),
            Pages::Lent(lent) => lent.write(addr, bytes),
            Pages::Segments(segments) => segments.write(addr, bytes),
        }
    }

    fn fill(&mut self, addr: u64, len: u32, pattern: u64)
        requires memory { IsMemory (kept_by self.old) }
        requires present { IsTrue (has_all (kept_by self.old) addr len) }
        ensures { kept_by self.new ≡ put (kept_by self.old) addr (pattern_bytes pattern len) }
    {
        match self {
            Pages::Own(table) => table.fill(addr, len as usize, pattern),
            Pages::Lent(lent) => lent.fill(addr, len, pattern),
            Pages::Segments(segments) => segments.fill(addr, len as usize, pattern),
        }
    }

    fn put_blocks(&mut self, target: u64, entries: &[u8])
        requires memory { IsMemory (kept_by self.old) }
        requires present { IsTrue (are_present (kept_by self.old) (block_puts target entries.now)) }
        ensures { kept_by self.new ≡ puts_made (kept_by self.old) (block_puts target entries.now) }
    {
        match self {
            Pages::Own(table) => table.put_blocks(target, entries),
            Pages::Lent(lent) => lent.put_blocks(target, entries),
            Pages::Segments(segments) => segments.put_blocks(target, entries),
        }
    }
}

impl<'a> Model for Image<'a> {
    ghost use Rattle.dml_types.specs.Memory.{Memory, IsMemory};
    ghost use Rattle.dml_image.specs.Kept.{kept_by};

    ghost Value = { Memory };

    ghost view = { λ i. kept_by i.pages };

    ghost invariant = { λ i. IsMemory (kept_by i.pages) };
}

impl Drop for Image<'_> {
    fn drop(self) {
        let Image { pages } = self;
        drop(pages);
    }
}

impl<'a> Image<'a> {
    /// An image over lent memory.
    pub(crate) fn over(lent: Lent<'a>) -> Image<'a>
        requires { IsMemory (loan_memory lent) }
        ensures { result ≡ loan_memory lent.entry }
    {
        Image {
            pages: Pages::Lent(lent),
        }
    }

    /// An image over segments of the caller's memory: a page in none of them is absent, and cannot be brought.
    ///
    /// [`are_segments`](crate::are_segments) is the test of the list.
    pub fn over_segments(list: Vec<Segment<'a>>) -> Image<'a>
        requires { AreSegments (pieces_of list.items) }
        ensures { result ≡ pieces_memory (pieces_of list.entry.items) }
    {
        Image {
            pages: Pages::Segments(Segments::of(list)),
        }
    }

    /// The segments of an image over segments, which hold what the image held.
    pub fn into_segments(self) -> Vec<Segment<'a>>
        requires { IsTrue (is_in_segments self) }
        ensures segments { AreSegments (pieces_of result.items) }
        ensures memory { pieces_memory (pieces_of result.items) ≡ self.entry }
    {
        match self.into_pages() {
            Pages::Segments(segments) => segments.into_list(),
            Pages::Own(_) => unreachable!(),
            Pages::Lent(_) => unreachable!(),
        }
    }

    /// The pages, for good.
    pub(crate) fn into_pages(self) -> Pages<'a>
        ensures pages { kept_by result ≡ self.entry }
        ensures memory { IsMemory self.entry }
    {
        let Image { pages } = self;
        pages
    }
}

impl Image<'_> {
    /// An image of so many pages, all absent.
    ///
    /// # Errors
    /// `BadPages` unless there are 1 to 4,096 pages, and `NoMemory`.
    pub fn new(alloc: Global, pages: u32) -> Result<Image<'static>, ImageError>
        ensures image { IfOk result (λ image. image ≡ all_absent pages) }
        ensures memory { IfOk result IsMemory }
        ensures bad_pages { (result ≡ Err ImageError.BadPages) ↔ ((pages < 1) ⊎ (4096 < pages)) }
        ensures never_no_such_page { result ≢ Err ImageError.NoSuchPage }
    {
        if pages < 1 || pages > MAX_PAGES {
            return Err(ImageError::BadPages);
        }
        let table = Table::new(alloc, pages as usize).map_err(|_| ImageError::NoMemory)?;
        Ok(Image {
            pages: Pages::Own(table),
        })
    }

    /// The number of pages.
    pub fn pages(&self) -> u32
        ensures value { result ≡ length self.now.present }
        ensures memory { IsMemory self.now }
    {
        let pages = match &self.pages {
            Pages::Own(table) => table.pages(),
            Pages::Lent(lent) => lent.pages(),
            Pages::Segments(segments) => segments.pages(),
        };
        pages as u32
    }

    /// Makes a page present with these bytes; a page that is present is overwritten.
    ///
    /// # Errors
    /// `NoSuchPage` where the image has no page of this number, and `NoMemory`, which a page that is present never
    /// meets, and an absent one of lent memory always, one in no segment too, though no allocation is refused. Both
    /// leave the image as it was.
    #[tactic(auto, using(crate::proofs::WriteLemmas::brought_keeps))]
    pub fn bring(&mut self, page: u32, bytes: &[u8; 4096]) -> Result<(), ImageError>
        ensures ok { OnOk result (self.new ≡ brought self.old page bytes.now) }
        ensures err { OnErr result (self.new ≡ self.old) }
        ensures no_such_page { (result ≡ Err ImageError.NoSuchPage) ↔ (length self.old.present ≤ page) }
        ensures never_bad_pages { result ≢ Err ImageError.BadPages }
        ensures again { IsTrue (has_page self.old page) → IsOk result }
        ensures no_room { IsSome self.old.home → page < length self.old.present → has_page self.old page ≡ false →
            result ≡ Err ImageError.NoMemory }
        ensures hole { IsTrue (is_in_segments self.old) → page < length self.old.present
            → has_page self.old page ≡ false → result ≡ Err ImageError.NoMemory }
        ensures memory { IsMemory self.new }
    {
        if page >= self.pages() {
            return Err(ImageError::NoSuchPage);
        }
        self.pages
            .bring(page as usize, bytes)
            .map_err(|_| ImageError::NoMemory)
    }

    /// Makes a page of the image's own absent, its bytes 0, and gives its memory back. Answers whether there was one;
    /// memory that is lent stays as it is.
    ///
    /// # Errors
    /// `NoSuchPage` where the image has no page of this number.
    pub fn evict(&mut self, page: u32) -> Result<bool, ImageError>
        ensures page { page < length self.old.present → result ≡ Ok (is_own self.old && has_page self.old page) }
        ensures no_such_page { length self.old.present ≤ page → result ≡ Err ImageError.NoSuchPage }
        ensures gone { result ≡ Ok true → self.new ≡ evicted self.old page }
        ensures kept { result ≢ Ok true → self.new ≡ self.old }
        ensures memory { IsMemory self.new }
    {
        if page < self.pages() {
            Ok(self.pages.evict(page as usize))
        } else {
            Err(ImageError::NoSuchPage)
        }
    }

    /// Marks which pages from `first` on are present; past the last page none is.
    pub fn mark_present(&self, first: u32, marks: &mut [bool])
        ensures marks { EachIndex marks.new (λ i. slice_index_or marks.new i false ≡ has_page self.now (first + i)) }
        ensures as_many { length marks.new ≡ length marks.old }
        ensures memory { IsMemory self.now }
    {
        let _ = &self.pages; // what is looked at is an image
        let begin = u64::from(first);
        for (i, mark) in marks.iter_mut().enumerate() {
            *mark = self.has_page(begin + i as u64);
        }
    }

    /// Whether a page is present.
    fn has_page(&self, page: u64) -> bool
        ensures { result ≡ has_page self.now page }
    {
        page < u64::from(self.pages()) && self.has(PAGE_SIZE as u64 * page)
    }

    /// Whether the byte at this address is present.
    pub fn has(&self, addr: u64) -> bool
        ensures value { result ≡ has self.now addr }
        ensures memory { IsMemory self.now }
    {
        match &self.pages {
            Pages::Own(table) => table.has(addr),
            Pages::Lent(lent) => lent.has(addr),
            Pages::Segments(segments) => segments.has(addr),
        }
    }

    /// The byte at this address, where it is present.
    pub fn byte(&self, addr: u64) -> Option<u8>
        ensures value { result ≡ (if has self.now addr then Some (byte_at self.now addr) else None) }
        ensures memory { IsMemory self.now }
    {
        if self.has(addr) {
            Some(self.part(addr, 1)[0])
        } else {
            None
        }
    }

    /// The bytes from this address on, `len` of them or as many as there are up to the end of the page.
    pub fn part(&self, addr: u64, len: u32) -> &[u8]
        requires { IsTrue (has self.now addr) }
        ensures bytes { result.now ≡ bytes_at self.now addr (length result.now) }
        ensures length { length result.now ≡ min len (4096 - addr % 4096) }
        ensures memory { IsMemory self.now }
    {
        match &self.pages {
            Pages::Own(table) => table.part(addr, len as usize),
            Pages::Lent(lent) => lent.part(addr, len),
            Pages::Segments(segments) => segments.part(addr, len as usize),
        }
    }

    /// The same, or `None` where the byte there is absent: one choice among the kinds of memory, where
    /// [`has`](Image::has) and [`part`](Image::part) are two.
    #[inline(always)]
    pub fn present_part(&self, addr: u64, len: u32) -> Option<&[u8]>
        ensures part { MatchOption result (has self.now addr ≡ false)
            (λ part. IsPartOfPage self.now addr len part.now) }
        ensures memory { IsMemory self.now }
    {
        match &self.pages {
            Pages::Own(table) => table.present_part(addr, len as usize),
            Pages::Lent(lent) => lent.present_part(addr, len),
            Pages::Segments(segments) => segments.present_part(addr, len as usize),
        }
    }

    /// Reads bytes from this address on into the whole buffer.
    pub fn read_into(&self, addr: u64, buffer: &mut [u8])
        requires { IsTrue (has_all self.now addr (length buffer.old)) }
        ensures bytes { buffer.new ≡ bytes_at self.now addr (length buffer.old) }
        ensures memory { IsMemory self.now }
    {
        match &self.pages {
            Pages::Own(table) => table.read_into(addr, buffer),
            Pages::Lent(lent) => lent.read_into(addr, buffer),
            Pages::Segments(segments) => segments.read_into(addr, buffer),
        }
    }

    /// Writes bytes from this address on.
    #[tactic(auto, using(dml_types::proofs::MemoryLemmas::put_keeps))]
    pub fn write(&mut self, addr: u64, bytes: &[u8])
        requires { IsTrue (has_all self.old addr (length bytes.now)) }
        ensures bytes { self.new ≡ put self.old addr bytes.now }
        ensures memory { IsMemory self.new }
    {
        self.pages.write(addr, bytes);
    }

    /// Repeats the 8 bytes of a pattern, low byte first, over `len` bytes from this address on.
    #[tactic(auto, using(crate::proofs::WriteLemmas::fill_keeps))]
    pub fn fill(&mut self, addr: u64, len: u32, pattern: u64)
        requires { IsTrue (has_all self.old addr len) }
        ensures bytes { self.new ≡ put self.old addr (pattern_bytes pattern len) }
        ensures memory { IsMemory self.new }
    {
        self.pages.fill(addr, len, pattern);
    }

    /// The same where the range lies in one page, and that page is present. Answers whether it was done; else nothing
    /// is changed.
    pub fn fill_in_page(&mut self, addr: u64, len: u32, pattern: u64) -> bool
        ensures target { IsTrue result → IsTrue (has_all self.old addr len) }
        ensures bytes { IsTrue result → self.new ≡ put self.old addr (pattern_bytes pattern len) }
        ensures goes { addr % 4096 + len ≤ 4096 → IsTrue (has self.old addr) → IsTrue result }
        ensures unchanged { result ≡ false → self.new ≡ self.old }
        ensures memory { IsMemory self.new }
    {
        let _ = &self.pages; // what is looked at is an image
        if rest_of_page(addr) < len as usize {
            return false;
        }
        self.pages.fill_in_page(addr, len, pattern)
    }

    /// Puts the 8 bytes of each whole entry of a delta record at the block from `target` on that it numbers, in the
    /// order of the entries.
    pub fn put_blocks(&mut self, target: u64, entries: &[u8])
        requires { IsTrue (are_present self.old (block_puts target entries.now)) }
        ensures bytes { self.new ≡ puts_made self.old (block_puts target entries.now) }
        ensures memory { IsMemory self.new }
    {
        self.pages.put_blocks(target, entries);
    }

    /// Copies `len` bytes from the address `source` on to those from `target` on. The two may overlap; the target then
    /// holds the source's bytes as they stood.
    pub fn move_within(&mut self, source: u64, target: u64, len: u32)
        requires source { IsTrue (has_all self.old source len) }
        requires target { IsTrue (has_all self.old target len) }
        ensures bytes { self.new ≡ put self.old target (bytes_at self.old source len) }
        ensures memory { IsMemory self.new }
    {
        self.pages.move_within(source, target, len);
    }

    /// Copies `len` bytes from the address `source` on to those from `target` on, where that is one copy: each of the
    /// two ranges lies in one page, which is present, and they share no byte, or are at most [`SHORT`](crate::SHORT)
    /// bytes long. Answers whether it is; where it is not, nothing is changed.
    pub fn move_in_page(&mut self, source: u64, target: u64, len: u32) -> bool
        ensures source { IsTrue result → IsTrue (has_all self.old source len) }
        ensures target { IsTrue result → IsTrue (has_all self.old target len) }
        ensures bytes { IsTrue result → self.new ≡ put self.old target (bytes_at self.old source len) }
        ensures goes { 0 < len → source % 4096 + len ≤ 4096 → target % 4096 + len ≤ 4096
            → IsOneCopy source target len → IsTrue (has self.old source) → IsTrue (has self.old target)
            → IsTrue result }
        ensures unchanged { result ≡ false → self.new ≡ self.old }
        ensures memory { IsMemory self.new }
    {
        let _ = &self.pages; // what is looked at is an image
        let bytes = len as usize;
        if bytes == 0 || !is_one_copy(source, target, bytes) {
            return false;
        }
        if rest_of_page(source) < bytes || rest_of_page(target) < bytes {
            return false;
        }
        self.pages.copy_in_page(source, target, bytes)
    }

    /// Copies `len` bytes from the address `source` on to those from `first` on, and then to those from `second` on,
    /// where there is a byte at least, each of the three ranges lies in one page, which is present, and the source
    /// shares no byte with the other two, or is at most [`SHORT`](crate::SHORT) bytes long. Answers whether that was
    /// done; else nothing is changed.
    pub fn copy_twice_in_page(&mut self, source: u64, first: u64, second: u64, len: u32) -> bool
        ensures source { IsTrue result → IsTrue (has_all self.old source len) }
        ensures first { IsTrue result → IsTrue (has_all self.old first len) }
        ensures second { IsTrue result → IsTrue (has_all self.old second len) }
        ensures bytes { IsTrue result → self.new ≡ copied (copied self.old source first len) source second len }
        ensures goes { 0 < len → source % 4096 + len ≤ 4096 → first % 4096 + len ≤ 4096 → second % 4096 + len ≤ 4096
            → IsOneCopy source first len → IsOneCopy source second len → IsTrue (has self.old source)
            → IsTrue (has self.old first) → IsTrue (has self.old second) → IsTrue result }
        ensures unchanged { result ≡ false → self.new ≡ self.old }
        ensures memory { IsMemory self.new }
    {
        let _ = &self.pages; // what is looked at is an image
        let bytes = len as usize;
        if bytes == 0 || !is_one_copy(source, first, bytes) || !is_one_copy(source, second, bytes) {
            return false;
        }
        let most = rest_of_page(source)
            .min(rest_of_page(first))
            .min(rest_of_page(second));
        if most < bytes {
            return false;
        }
        self.pages.copy_twice_in_page(source, first, second, bytes)
    }

    /// How many of `len` bytes from this address on come before the first absent one.
    #[inline(always)]
    pub fn present_bytes(&self, addr: u64, len: u32) -> u32
        requires { addr + len ≤ 2 ^ 64 }
        ensures count { result ≡ present_bytes self.now addr len }
        ensures within { result ≤ len }
        ensures memory { IsMemory self.now }
    {
        let _ = &self.pages; // what is looked at is an image
        self.count_present(addr, len, Direction::Forward)
    }

    /// How many of `len` bytes from this address on come before the first absent one, in the order of `direction`.
    // It is a call, so that what stands around it stays small enough to be put into its own caller.
    #[inline(never)]
    pub fn present_toward(&self, addr: u64, len: u32, direction: Direction) -> u32
        requires { addr + len ≤ 2 ^ 64 }
        ensures count { result ≡ present_toward direction self.now addr len }
        ensures within { result ≤ len }
        ensures memory { IsMemory self.now }
    {
        let _ = &self.pages; // what is looked at is an image
        self.count_present(addr, len, direction)
    }

    /// The same, put into its caller.
    #[inline(always)]
    fn count_present(&self, addr: u64, len: u32, direction: Direction) -> u32
        requires { addr + len ≤ 2 ^ 64 }
        ensures count { result ≡ present_toward direction self.now addr len }
        ensures within { result ≤ len }
    {
        if let Pages::Segments(_) = &self.pages {
            return self.present_over_segments(addr, len, direction);
        }
        if len as usize <= rest_of_page(addr) {
            return present_in_page(self, addr, len);
        }
        self.present_over_pages(addr, len, direction)
    }

    /// The same for bytes that lie in more than one page. It stands apart, so that nothing is saved for it where all
    /// lie in one page.
    #[inline(never)]
    fn present_over_pages(&self, addr: u64, len: u32, direction: Direction) -> u32
        requires { addr + len ≤ 2 ^ 64 }
        ensures count { result ≡ present_toward direction self.now addr len }
        ensures within { result ≤ len }
    {
        if let Pages::Segments(_) = &self.pages {
            return self.present_over_segments(addr, len, direction);
        }
        match direction {
            Direction::Forward => present_upwards(self, addr, len),
            Direction::Backward => present_downwards(self, addr, len),
        }
    }

    /// The same over segments, whose looks are calls. So those at pages need nothing that a call would have to save.
    #[cold]
    #[inline(never)]
    fn present_over_segments(&self, addr: u64, len: u32, direction: Direction) -> u32
        requires { addr + len ≤ 2 ^ 64 }
        ensures count { result ≡ present_toward direction self.now addr len }
        ensures within { result ≤ len }
    {
        match direction {
            Direction::Forward => present_upwards(self, addr, len),
            Direction::Backward => present_downwards(self, addr, len),
        }
    }

    /// How many of `len` bytes from this address on come before the first absent one, in the order of
    /// `direction`; `None` where all are present.
    pub fn first_absent(&self, addr: u64, len: u32, direction: Direction) -> Option<u32>
        requires { addr + len ≤ 2 ^ 64 }
        ensures count { MatchOption result (present_toward direction self.now addr len ≡ len)
            (λ k. (k < len) × (present_toward direction self.now addr len ≡ k)) }
        ensures memory { IsMemory self.now }
    {
        let _ = &self.pages; // what is looked at is an image
        let done = self.count_present(addr, len, direction);
        if done < len { Some(done) } else { None }
    }
}

impl fmt::Debug for Image<'_> {
    fn fmt<W: fmt::Write>(&self, f: &mut fmt::Formatter<W>) -> fmt::Result {
        f.debug_struct("Image")
            .field("pages", &self.pages())
            .finish_non_exhaustive()
    }
}
