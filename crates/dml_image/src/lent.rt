ghost use Rattle.std.specs.Prelude.{◌≡◌, ◌≢◌, ◌+◌, ◌-◌, ◌%◌, ◌<◌, ◌≤◌, ◌↔◌, false, Some, min, length, IsErr, IsOk, IsSome, IsTrue, MatchOption, OnErr, OnOk, ◌&&◌};
ghost use Rattle.dml_types.specs.Memory.{IsMemory, has, has_all, bytes_at, put, puts_made};
ghost use Rattle.dml_types.specs.Bytewise.{pattern_bytes};
ghost use Rattle.dml_segments.specs.Blocks.{are_present, block_puts};
ghost use Rattle.dml_segments.specs.Copied.{copied, IsOneCopy};
ghost use Rattle.dml_segments.specs.Present.{IsPartOfPage};
ghost use Rattle.dml_image.specs.Kept.{lent_memory, loan_memory};
ghost use Rattle.dml_segments.specs.Brought.{brought, has_page};

use crate::images::{Image, Pages};
use crate::{MAX_PAGES, PAGE_SIZE};
use dml_segments::{copy_at, fill_at, is_blank, put_inside, write_at};
use std::alloc::AllocError;

/// Whole pages of the caller's memory that are lent to an image: which of them are present, and their bytes.
///
/// `take` lends them as an image, and `put` takes the image back; afterwards the caller's bytes are those of the image.
// Where an image keeps memory that was lent in one piece, there is no mark in `present`: each page is.
#[derive(Drop)]
pub struct Lent<'a> {
    present: &'a [bool],
    pub(crate) content: &'a mut [u8],
}

impl<'a> Lent<'a> {
    /// The memory to be lent: for each page whether it is present, and the bytes of all pages.
    pub fn new(present: &'a [bool], content: &'a mut [u8]) -> Lent<'a>
        ensures present { result.present.now ≡ present.now }
        ensures content { result.content.now ≡ content.old }
        ensures same_reference { result.content.ghost_name ≡ content.entry.ghost_name }
    {
        Lent { present, content }
    }

    /// Whether it may be taken: 1 to 4,096 pages, as many bytes as they have, and 0 in those that are absent.
    #[tactic(auto, using(crate::proofs::LentLemmas::marked_kept))]
    pub fn is_memory(&self) -> bool
        ensures { IsTrue result ↔ IsMemory (lent_memory self.now) }
    {
        let pages = self.present.len();
        if pages < 1 || pages > MAX_PAGES as usize || self.content.len() != PAGE_SIZE * pages {
            return false;
        }
        for (page, present) in self.present.iter().enumerate() {
            let begin = PAGE_SIZE * page;
            if !*present && !is_blank(&self.content[begin..begin + PAGE_SIZE]) {
                return false;
            }
        }
        true
    }

    /// The memory as an image; until it is put back, nothing is left here.
    pub fn take(&mut self) -> Image<'a>
        requires { IsMemory (lent_memory self.old) }
        ensures { result ≡ lent_memory self.old }
    {
        Image::over(Lent {
            present: self.present,
            content: std::mem::take(&mut self.content),
        })
    }

    /// Takes an image over lent memory back.
    pub fn put(&mut self, image: Image<'a>)
        requires { IsSome image.home }
        ensures present { self.new.present.now ≡ image.entry.present }
        ensures content { self.new.content.now ≡ image.entry.bytes }
        ensures same_reference { Some self.new.content.ghost_name ≡ image.entry.home }
    {
        match image.into_pages() {
            Pages::Lent(lent) => *self = lent,
            Pages::Own(_) => unreachable!(),
            Pages::Segments(_) => unreachable!(),
        }
    }

    /// The number of pages.
    pub(crate) fn pages(&self) -> usize
        requires { IsMemory (loan_memory self.now) }
        ensures { result ≡ length (loan_memory self.now).present }
    {
        self.content.len() / PAGE_SIZE
    }

    /// Writes these bytes over a page that is present; one that is absent has no room here.
    pub(crate) fn bring(&mut self, page: usize, bytes: &[u8; 4096]) -> Result<(), AllocError>
        requires memory { IsMemory (loan_memory self.old) }
        requires page { page < length (loan_memory self.old).present }
        ensures ok { OnOk result (loan_memory self.new ≡ brought (loan_memory self.old) page bytes.now) }
        ensures err { OnErr result (loan_memory self.new ≡ loan_memory self.old) }
        ensures again { IsTrue (has_page (loan_memory self.old) page) → IsOk result }
        ensures no_room { has_page (loan_memory self.old) page ≡ false → IsErr result }
    {
        if !self.has_page(page) {
            return Err(AllocError);
        }
        write_at(self.content, PAGE_SIZE * page, bytes);
        Ok(())
    }

    /// Whether the byte at this address is present.
    pub(crate) fn has(&self, addr: u64) -> bool
        requires { IsMemory (loan_memory self.now) }
        ensures { result ≡ has (loan_memory self.now) addr }
    {
        self.has_page(addr as usize / PAGE_SIZE)
    }

    /// Whether the page is present. A page without a mark is one of memory in one piece, or past the last page.
    fn has_page(&self, page: usize) -> bool
        requires { IsMemory (loan_memory self.now) }
        ensures { result ≡ has_page (loan_memory self.now) page }
    {
        match self.present.get(page) {
            Some(present) => *present,
            None => page < self.content.len() / PAGE_SIZE,
        }
    }

    /// The bytes from this address on, `len` of them or as many as there are up to the end of the page.
    pub(crate) fn part(&self, addr: u64, len: u32) -> &[u8]
        requires memory { IsMemory (loan_memory self.now) }
        requires present { IsTrue (has (loan_memory self.now) addr) }
        ensures bytes { result.now ≡ bytes_at (loan_memory self.now) addr (length result.now) }
        ensures length { length result.now ≡ min len (4096 - addr % 4096) }
    {
        let place = addr as usize;
        let of_page = PAGE_SIZE - place % PAGE_SIZE;
        &self.content[place..place + of_page.min(len as usize)]
    }

    /// The same, or `None` where the byte there is absent.
    #[inline(always)]
    pub(crate) fn present_part(&self, addr: u64, len: u32) -> Option<&[u8]>
        requires { IsMemory (loan_memory self.now) }
        ensures { MatchOption result (has (loan_memory self.now) addr ≡ false)
            (λ part. IsPartOfPage (loan_memory self.now) addr len part.now) }
    {
        if self.has(addr) {
            Some(self.part(addr, len))
        } else {
            None
        }
    }

    /// Reads bytes from this address on into the whole buffer.
    #[tactic(auto, using(crate::proofs::WriteLemmas::range_within, crate::proofs::WriteLemmas::read_behind))]
    pub(crate) fn read_into(&self, addr: u64, buffer: &mut [u8])
        requires memory { IsMemory (loan_memory self.now) }
        requires present { IsTrue (has_all (loan_memory self.now) addr (length buffer.old)) }
        ensures { buffer.new ≡ bytes_at (loan_memory self.now) addr (length buffer.old) }
    {
        let place = addr as usize;
        if place >= self.content.len() {
            return; // no byte there is present, so the range is empty
        }
        buffer.copy_from_slice(&self.content[place..place + buffer.len()]);
    }

    /// Writes bytes from this address on.
    #[tactic(auto, using(crate::proofs::WriteLemmas::range_within, crate::proofs::WriteLemmas::put_behind))]
    pub(crate) fn write(&mut self, addr: u64, bytes: &[u8])
        requires memory { IsMemory (loan_memory self.old) }
        requires present { IsTrue (has_all (loan_memory self.old) addr (length bytes.now)) }
        ensures { loan_memory self.new ≡ put (loan_memory self.old) addr bytes.now }
    {
        let place = addr as usize;
        if place >= self.content.len() {
            return; // no byte there is present, so the range is empty
        }
        write_at(self.content, place, bytes);
    }

    /// Repeats the 8 bytes of a pattern, low byte first, over `len` bytes from this address on.
    #[tactic(auto, using(crate::proofs::WriteLemmas::fill_steps))]
    pub(crate) fn fill(&mut self, addr: u64, len: u32, pattern: u64)
        requires memory { IsMemory (loan_memory self.old) }
        requires present { IsTrue (has_all (loan_memory self.old) addr len) }
        ensures { loan_memory self.new ≡ put (loan_memory self.old) addr (pattern_bytes pattern len) }
    {
        let place = addr as usize;
        if place >= self.content.len() {
            return; // no byte there is present, so the range is empty
        }
        fill_at(self.content, place, len as usize, pattern);
    }

    /// The same within a page, where it is present. Returns whether it is.
    #[tactic(auto, using(crate::proofs::RunLemmas::has_all_of_page))]
    pub(crate) fn fill_in_page(&mut self, addr: u64, len: u32, pattern: u64) -> bool
        requires memory { IsMemory (loan_memory self.old) }
        requires within { addr % 4096 + len ≤ 4096 }
        ensures present { result ≡ has (loan_memory self.old) addr }
        ensures filled { IsTrue result
            → loan_memory self.new ≡ put (loan_memory self.old) addr (pattern_bytes pattern len) }
        ensures kept { result ≡ false → loan_memory self.new ≡ loan_memory self.old }
    {
        if !self.has(addr) {
            return false;
        }
        self.fill(addr, len, pattern);
        true
    }

    /// Puts the blocks of all whole entries of a delta record.
    pub(crate) fn put_blocks(&mut self, target: u64, entries: &[u8])
        requires memory { IsMemory (loan_memory self.old) }
        requires present { IsTrue (are_present (loan_memory self.old) (block_puts target entries.now)) }
        ensures { loan_memory self.new ≡ puts_made (loan_memory self.old) (block_puts target entries.now) }
    {
        if target > self.content.len() as u64 {
            return; // no byte there is present, so there is no entry
        }
        put_inside(self.content, 0, target, entries, 0);
    }

    /// Copies `len` bytes from one address on to another. Ranges that overlap are short.
    #[tactic(auto, using(dml_types::proofs::MemoryLemmas::has_all_within))]
    pub(crate) fn copy_part(&mut self, from: u64, to: u64, len: usize)
        requires memory { IsMemory (loan_memory self.old) }
        requires some { 0 < len }
        requires from { IsTrue (has_all (loan_memory self.old) from len) }
        requires to { IsTrue (has_all (loan_memory self.old) to len) }
        requires apart { IsOneCopy from to len }
        ensures { loan_memory self.new ≡ put (loan_memory self.old) to (bytes_at (loan_memory self.old) from len) }
    {
        copy_at(self.content, from as usize, to as usize, len);
    }

    /// Copies `len` bytes of one page to one page at once, where both are present. Returns whether they are.
    #[tactic(auto, using(crate::proofs::RunLemmas::has_all_of_page))]
    pub(crate) fn copy_in_page(&mut self, from: u64, to: u64, len: usize) -> bool
        requires memory { IsMemory (loan_memory self.old) }
        requires some { 0 < len }
        requires within { (from % 4096 + len ≤ 4096) × (to % 4096 + len ≤ 4096) }
        requires apart { IsOneCopy from to len }
        ensures present { result ≡ (has (loan_memory self.old) from && has (loan_memory self.old) to) }
        ensures copied { IsTrue result
            → loan_memory self.new ≡ put (loan_memory self.old) to (bytes_at (loan_memory self.old) from len) }
        ensures kept { result ≡ false → loan_memory self.new ≡ loan_memory self.old }
    {
        if !self.has(from) || !self.has(to) {
            return false;
        }
        self.copy_part(from, to, len);
        true
    }

    /// Copies `len` bytes of one page to one page, and then to another, where all three are present. Returns whether
    /// they are.
    pub(crate) fn copy_twice_in_page(
        &mut self,
        from: u64,
        first: u64,
        second: u64,
        len: usize,
    ) -> bool
        requires memory { IsMemory (loan_memory self.old) }
        requires some { 0 < len }
        requires within { (from % 4096 + len ≤ 4096) × (first % 4096 + len ≤ 4096) × (second % 4096 + len ≤ 4096) }
        requires apart { IsOneCopy from first len × IsOneCopy from second len }
        ensures present { result ≡ (has (loan_memory self.old) second
            && (has (loan_memory self.old) from && has (loan_memory self.old) first)) }
        ensures copied { IsTrue result
            → loan_memory self.new ≡ copied (copied (loan_memory self.old) from first len) from second len }
        ensures kept { result ≡ false → loan_memory self.new ≡ loan_memory self.old }
    {
        if !self.has(second) || !self.copy_in_page(from, first, len) {
            return false;
        }
        self.copy_part(from, second, len);
        true
    }
}
