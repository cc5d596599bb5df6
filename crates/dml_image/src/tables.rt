ghost use Rattle.std.specs.Prelude.{◌≡◌, ◌≢◌, ◌+◌, ◌-◌, ◌/◌, ◌%◌, ◌<◌, ◌≤◌, None, Some, true, false, ◌&&◌, min, length, IfOk, MatchOption, OnErr, OnOk, IsOk, IsSome, IsTrue, slice_index_or, slice_range, slice_set};
ghost use Rattle.dml_types.specs.Memory.{has, bytes_at, overwrite, is_in_segments, is_own, put, puts_made};
ghost use Rattle.dml_types.specs.Bytewise.{pattern_bytes};
ghost use Rattle.dml_segments.specs.Blocks.{block_puts_from};
ghost use Rattle.dml_segments.specs.Brought.{all_absent, brought, evicted, has_page};
ghost use Rattle.dml_segments.specs.Copied.{copied, IsOneCopy};
ghost use Rattle.dml_segments.specs.Present.{IsPartOfPage};
ghost use Rattle.dml_image.specs.Table.{page_bytes};

use crate::PAGE_SIZE;
use crate::pages::Page;
use std::alloc::{AllocError, Global};
use std::marker::Model;

/// An image's own pages: a table, and memory for each page that is present.
#[derive(Drop)]
pub struct Table {
    alloc: Global,
    pages: Vec<Option<Page>>,
}

impl Model for Table {
    ghost use Rattle.dml_types.specs.Memory.{Memory};
    ghost use Rattle.dml_image.specs.Table.{AreWhole, table_memory};

    ghost Value = { Memory };

    ghost view = { λ t. table_memory t.pages.items };

    ghost invariant = { λ t. AreWhole t.pages.items };
}

impl Table {
    /// A table of so many pages, all absent.
    pub fn new(alloc: Global, pages: usize) -> Result<Table, AllocError>
        requires { pages ≤ 4096 }
        ensures { IfOk result (λ table. table ≡ all_absent pages) }
    {
        let mut table = Vec::with_capacity(alloc, pages)?;
        table.resize_with(pages, || None)?;
        Ok(Table {
            alloc,
            pages: table,
        })
    }

    /// The number of pages.
    pub fn pages(&self) -> usize
        ensures { result ≡ length self.now.present }
    {
        self.pages.len()
    }

    /// Makes a page present with these bytes. A page that is present needs no memory.
    pub fn bring(&mut self, page: usize, bytes: &[u8; 4096]) -> Result<(), AllocError>
        requires { page < length self.old.present }
        ensures ok { OnOk result (self.new ≡ brought self.old page bytes.now) }
        ensures err { OnErr result (self.new ≡ self.old) }
        ensures again { IsTrue (has_page self.old page) → IsOk result }
        ensures own { self.old.home ≡ None }
        ensures no_segments { is_in_segments self.old ≡ false }
    {
        if let Some(present) = &mut self.pages[page] {
            present.write(0, bytes);
            return Ok(());
        }
        let made = Page::new(self.alloc, bytes)?;
        self.pages[page] = Some(made);
        Ok(())
    }

    /// Makes a page absent, and gives its memory back. Returns whether it was present.
    pub fn evict(&mut self, page: usize) -> bool
        requires { page < length self.old.present }
        ensures page { result ≡ has_page self.old page }
        ensures gone { result ≡ true → self.new ≡ evicted self.old page }
        ensures kept { result ≡ false → self.new ≡ self.old }
        ensures own { IsTrue (is_own self.old) }
    {
        if self.pages[page].is_none() {
            return false;
        }
        self.pages[page] = None;
        true
    }

    /// Whether the byte at this address is present.
    pub fn has(&self, addr: u64) -> bool
        ensures { result ≡ has self.now addr }
    {
        self.pages
            .get(addr as usize / PAGE_SIZE)
            .is_some_and(|page| page.is_some())
    }

    /// The bytes from this address on, `len` of them or as many as there are up to the end of the page.
    #[inline(always)]
    pub fn part(&self, addr: u64, len: usize) -> &[u8]
        requires { IsTrue (has self.now addr) }
        ensures bytes { result.now ≡ bytes_at self.now addr (length result.now) }
        ensures length { length result.now ≡ min len (4096 - addr % 4096) }
    {
        let place = addr as usize % PAGE_SIZE;
        match &self.pages[addr as usize / PAGE_SIZE] {
            Some(page) => &page.bytes()[place..place + len.min(PAGE_SIZE - place)],
            None => unreachable!(),
        }
    }

    /// The same, or `None` where the byte there is absent.
    #[inline(always)]
    pub fn present_part(&self, addr: u64, len: usize) -> Option<&[u8]>
        ensures { MatchOption result (has self.now addr ≡ false) (λ part. IsPartOfPage self.now addr len part.now) }
    {
        if self.has(addr) {
            Some(self.part(addr, len))
        } else {
            None
        }
    }

    /// Writes bytes from this address on, up to the end of the page at most.
    pub fn write_part(&mut self, addr: u64, bytes: &[u8])
        requires present { IsTrue (has self.old addr) }
        requires within { addr % 4096 + length bytes.now ≤ 4096 }
        ensures { self.new ≡ put self.old addr bytes.now }
    {
        let place = addr as usize;
        match &mut self.pages[place / PAGE_SIZE] {
            Some(page) => page.write(place % PAGE_SIZE, bytes),
            None => unreachable!(),
        }
    }

    /// Repeats the 8 bytes of a pattern, low byte first, over `len` bytes from this address on, up to the end of the
    /// page at most.
    pub fn fill_part(&mut self, addr: u64, len: usize, pattern: u64)
        requires present { IsTrue (has self.old addr) }
        requires within { addr % 4096 + len ≤ 4096 }
        ensures { self.new ≡ put self.old addr (pattern_bytes pattern len) }
    {
        let place = addr as usize;
        match &mut self.pages[place / PAGE_SIZE] {
            Some(page) => page.fill(place % PAGE_SIZE, len, pattern),
            None => unreachable!(),
        }
    }

    /// The same, where the page is present. Returns whether it is.
    pub fn fill_in_page(&mut self, addr: u64, len: usize, pattern: u64) -> bool
        requires { addr % 4096 + len ≤ 4096 }
        ensures present { result ≡ has self.old addr }
        ensures filled { IsTrue result → self.new ≡ put self.old addr (pattern_bytes pattern len) }
        ensures kept { result ≡ false → self.new ≡ self.old }
    {
        if !self.has(addr) {
            return false;
        }
        self.fill_part(addr, len, pattern);
        true
    }

    /// Puts blocks from entry `first` on into the page of an address, and stops before the first one that is not all in
    /// it. Returns how many entries there are up to there.
    pub fn put_in_page(&mut self, addr: u64, target: u64, entries: &[u8], first: usize) -> usize
        requires present { IsTrue (has self.old addr) }
        requires target { target ≤ 17592186044416 }
        requires first { first ≤ length entries.now / 10 }
        ensures within { (first ≤ result) × (result ≤ length entries.now / 10) }
        ensures made { self.new ≡ puts_made self.old (block_puts_from target entries.now first (result - first)) }
    {
        let page = addr as usize / PAGE_SIZE;
        match &mut self.pages[page] {
            Some(bytes) => bytes.put_blocks((PAGE_SIZE * page) as u64, target, entries, first),
            None => unreachable!(),
        }
    }

    /// Copies `len` bytes from one address on to another, each of them up to the end of the page at most. Ranges that
    /// overlap are short.
    // It is put into each caller: a short copy costs less than a call.
    #[inline(always)]
    pub fn copy_part(&mut self, from: u64, to: u64, len: usize)
        requires present { IsTrue (has self.old from) × IsTrue (has self.old to) }
        requires within { (from % 4096 + len ≤ 4096) × (to % 4096 + len ≤ 4096) }
        requires apart { IsOneCopy from to len }
        ensures { self.new ≡ put self.old to (bytes_at self.old from len) }
    {
        let (from, to) = (from as usize, to as usize);
        let (from_page, from) = (from / PAGE_SIZE, from % PAGE_SIZE);
        let (to_page, to) = (to / PAGE_SIZE, to % PAGE_SIZE);
        if from_page == to_page {
            match &mut self.pages[to_page] {
                Some(page) => page.copy(from, to, len),
                None => unreachable!(),
            }
        } else {
            copy_between(self.pages.as_mut_slice(), from_page, from, to_page, to, len);
        }
    }

    /// Copies `len` bytes of one page to one page at once, where both are present. Returns whether they are.
    pub fn copy_in_page(&mut self, from: u64, to: u64, len: usize) -> bool
        requires within { (from % 4096 + len ≤ 4096) × (to % 4096 + len ≤ 4096) }
        requires apart { IsOneCopy from to len }
        ensures present { result ≡ (has self.old from && has self.old to) }
        ensures copied { IsTrue result → self.new ≡ put self.old to (bytes_at self.old from len) }
        ensures kept { result ≡ false → self.new ≡ self.old }
    {
        if !self.has(from) || !self.has(to) {
            return false;
        }
        self.copy_part(from, to, len);
        true
    }

    /// Copies `len` bytes of one page to one page, and then to another, where all three are present. Returns whether
    /// they are.
    pub fn copy_twice_in_page(&mut self, from: u64, first: u64, second: u64, len: usize) -> bool
        requires within { (from % 4096 + len ≤ 4096) × (first % 4096 + len ≤ 4096) × (second % 4096 + len ≤ 4096) }
        requires apart { IsOneCopy from first len × IsOneCopy from second len }
        ensures present { result ≡ (has self.old second && (has self.old from && has self.old first)) }
        ensures copied { IsTrue result → self.new ≡ copied (copied self.old from first len) from second len }
        ensures kept { result ≡ false → self.new ≡ self.old }
    {
        if !self.has(second) || !self.copy_in_page(from, first, len) {
            return false;
        }
        self.copy_part(from, second, len);
        true
    }
}

/// Copies `len` bytes of one page of a table to another one.
fn copy_between(
    pages: &mut [Option<Page>],
    source: usize,
    from: usize,
    target: usize,
    to: usize,
    len: usize,
)
    requires apart { source ≢ target }
    requires source { (source < length pages.old) × IsSome (slice_index_or pages.old source None) }
    requires target { (target < length pages.old) × IsSome (slice_index_or pages.old target None) }
    requires within { (from + len ≤ 4096) × (to + len ≤ 4096) }
    ensures { pages.new ≡ slice_set pages.old target (Some (overwrite
        (page_bytes (slice_index_or pages.old target None)) to
        (slice_range (page_bytes (slice_index_or pages.old source None)) from (from + len)))) }
{
    if source < target {
        let (front, behind) = pages.split_at_mut(target);
        copy_over(&front[source], from, &mut behind[0], to, len);
    } else {
        let (front, behind) = pages.split_at_mut(source);
        copy_over(&behind[0], from, &mut front[target], to, len);
    }
}

/// Copies `len` bytes of a page over another one.
#[inline(always)]
fn copy_over(source: &Option<Page>, from: usize, target: &mut Option<Page>, to: usize, len: usize)
    requires source { IsSome source.now }
    requires target { IsSome target.old }
    requires within { (from + len ≤ 4096) × (to + len ≤ 4096) }
    ensures { target.new ≡ Some (overwrite (page_bytes target.old) to
        (slice_range (page_bytes source.now) from (from + len))) }
{
    match (source, target) {
        (Some(source), Some(target)) => target.write(to, &source.bytes()[from..from + len]),
        _ => unreachable!(),
    }
}
