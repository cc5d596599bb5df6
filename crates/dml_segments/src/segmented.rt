//! Memory in segments: what an image does over them.
ghost use Rattle.std.specs.Prelude.{◌≡◌, ◌+◌, ◌-◌, ◌/◌, ◌%◌, ◌<◌, ◌≤◌, ◌⊎◌, false, min, length, take, IsErr, IsOk, IsTrue, MatchOption, OnErr, OnOk, ◌&&◌};
ghost use Rattle.dml_types.specs.Memory.{IsMemory, has, has_all, bytes_at, is_own, put, puts_made};
ghost use Rattle.dml_types.specs.Bytewise.{pattern_bytes};
ghost use Rattle.dml_segments.specs.Blocks.{are_present, block_puts, block_puts_from};
ghost use Rattle.dml_segments.specs.Brought.{brought, has_page};
ghost use Rattle.dml_segments.specs.Pieces.{AreInOrder, pieces_memory, pieces_of};
ghost use Rattle.dml_segments.specs.Copied.{copied, IsOneCopy};
ghost use Rattle.dml_segments.specs.Present.{IsPartOfPage};

use crate::PAGE_SIZE;
use crate::blocks::{ENTRY, entry_block, put_inside};
use crate::edges::rest_of_page;
use crate::segments::{Segment, copy_between, find, find_rarely, spot_of};
use crate::slices::{WORD_SIZE, at_once, fill_at, write_at};
use dml_types::block_number;
use std::alloc::AllocError;
use std::marker::Model;

/// Memory in segments.
#[derive(Drop)]
pub struct Segments<'a> {
    list: Vec<Segment<'a>>,
}

impl<'a> Model for Segments<'a> {
    ghost use Rattle.dml_types.specs.Memory.{Memory};
    ghost use Rattle.dml_segments.specs.Pieces.{AreInOrder, pieces_memory, pieces_of};

    ghost Value = { Memory };

    ghost view = { λ s. pieces_memory (pieces_of s.list.items) };

    ghost invariant = { λ s. AreInOrder 0 (pieces_of s.list.items) };
}

impl<'a> Segments<'a> {
    /// The memory of these segments.
    pub fn of(list: Vec<Segment<'a>>) -> Segments<'a>
        requires { AreInOrder 0 (pieces_of list.items) }
        ensures { result ≡ pieces_memory (pieces_of list.entry.items) }
    {
        Segments { list }
    }

    /// The segments, for good.
    pub fn into_list(self) -> Vec<Segment<'a>>
        ensures order { AreInOrder 0 (pieces_of result.items) }
        ensures memory { pieces_memory (pieces_of result.items) ≡ self.entry }
    {
        let Segments { list } = self;
        list
    }
}

// What goes over bytes in segments stands apart, and but for moves is said to be rare: so a call over pages has none of
// its frame, and asks for its own kind first.
impl Segments<'_> {
    /// The number of pages, up to the end of the last segment.
    pub fn pages(&self) -> usize
        requires { IsMemory self.now }
        ensures { result ≡ length self.now.present }
    {
        let count = self.list.len();
        if count == 0 {
            return 0;
        }
        let last = &self.list[count - 1];
        last.first() as usize + last.bytes().len() / PAGE_SIZE
    }

    /// Writes these bytes over a page that is present; one that is in no segment has no room here.
    // A page's bytes are handed to no call, so that those of a new page of an image's own are made where they lie.
    #[inline(always)]
    pub fn bring(&mut self, page: usize, bytes: &[u8; 4096]) -> Result<(), AllocError>
        requires memory { IsMemory self.old }
        requires page { page < length self.old.present }
        ensures ok { OnOk result (self.new ≡ brought self.old page bytes.now) }
        ensures err { OnErr result (self.new ≡ self.old) }
        ensures again { IsTrue (has_page self.old page) → IsOk result }
        ensures hole { has_page self.old page ≡ false → IsErr result }
    {
        let Some(spot) = find_rarely(self.list.as_slice(), (PAGE_SIZE * page) as u64) else {
            return Err(AllocError);
        };
        write_at(self.list[spot.segment].content, spot.place, bytes);
        Ok(())
    }

    /// None of its pages is an image's own, so none is evicted.
    pub fn evict(&self) -> bool
        ensures { (result ≡ false) × (is_own self.now ≡ false) }
    {
        let _ = &self.list; // what is looked at is in segments
        false
    }

    /// Whether the byte at this address is present.
    #[cold]
    #[inline(never)]
    pub fn has(&self, addr: u64) -> bool
        ensures { result ≡ has self.now addr }
    {
        find(self.list.as_slice(), addr).is_some()
    }

    /// The bytes from this address to the end of its segment.
    fn rest(&self, addr: u64) -> &[u8]
        requires { IsTrue (has self.now addr) }
        ensures bytes { result.now ≡ bytes_at self.now addr (length result.now) }
        ensures room { 4096 - addr % 4096 ≤ length result.now }
    {
        let spot = spot_of(self.list.as_slice(), addr);
        &self.list[spot.segment].bytes()[spot.place..]
    }

    /// The bytes from this address on, `len` of them or as many as there are up to the end of the page.
    #[cold]
    #[inline(never)]
    pub fn part(&self, addr: u64, len: usize) -> &[u8]
        requires { IsTrue (has self.now addr) }
        ensures bytes { result.now ≡ bytes_at self.now addr (length result.now) }
        ensures length { length result.now ≡ min len (4096 - addr % 4096) }
    {
        &self.rest(addr)[..len.min(rest_of_page(addr))]
    }

    /// The same, or `None` where the byte there is absent.
    #[cold]
    #[inline(never)]
    pub fn present_part(&self, addr: u64, len: usize) -> Option<&[u8]>
        ensures { MatchOption result (has self.now addr ≡ false) (λ part. IsPartOfPage self.now addr len part.now) }
    {
        let spot = find(self.list.as_slice(), addr)?;
        let rest = &self.list[spot.segment].bytes()[spot.place..];
        Some(&rest[..len.min(rest_of_page(addr))])
    }

    /// Reads bytes from this address on into the whole buffer.
    #[cold]
    #[inline(never)]
    pub fn read_into(&self, addr: u64, buffer: &mut [u8])
        requires memory { IsMemory self.now }
        requires present { IsTrue (has_all self.now addr (length buffer.old)) }
        ensures { buffer.new ≡ bytes_at self.now addr (length buffer.old) }
    {
        let mut done = 0;
        while done < buffer.len() {
            let rest = self.rest(addr + done as u64);
            let count = rest.len().min(buffer.len() - done);
            buffer[done..done + count].copy_from_slice(&rest[..count]);
            done += count;
        }
    }

    /// Writes as many bytes from this address on as its segment has room for. Returns how many.
    fn write_some(&mut self, addr: u64, bytes: &[u8]) -> usize
        requires present { IsTrue (has self.old addr) }
        requires some { 0 < length bytes.now }
        ensures some { 0 < result }
        ensures most { result ≤ length bytes.now }
        ensures written { self.new ≡ put self.old addr (take result bytes.now) }
    {
        let spot = spot_of(self.list.as_slice(), addr);
        let count = spot.room.min(bytes.len());
        write_at(self.list[spot.segment].content, spot.place, &bytes[..count]);
        count
    }

    /// Writes bytes from this address on.
    #[cold]
    #[inline(never)]
    pub fn write(&mut self, addr: u64, bytes: &[u8])
        requires memory { IsMemory self.old }
        requires present { IsTrue (has_all self.old addr (length bytes.now)) }
        ensures { self.new ≡ put self.old addr bytes.now }
    {
        let mut done = 0;
        while done < bytes.len() {
            let count = self.write_some(addr + done as u64, &bytes[done..]);
            done += count;
        }
    }

    /// Repeats the 8 bytes of a pattern, low byte first, over `len` bytes from this address on, or over as many whole
    /// words as its segment has room for. Returns how many bytes that are.
    fn fill_some(&mut self, addr: u64, len: usize, pattern: u64) -> usize
        requires { IsTrue (has self.old addr) }
        ensures most { result ≤ len }
        ensures words { (result % 8 ≡ 0) ⊎ (result ≡ len) }
        ensures filled { self.new ≡ put self.old addr (pattern_bytes pattern result) }
    {
        let spot = spot_of(self.list.as_slice(), addr);
        let count = whole_words(len, spot.room);
        fill_at(self.list[spot.segment].content, spot.place, count, pattern);
        count
    }

    /// Repeats the 8 bytes of a pattern, low byte first, over `len` bytes from this address on.
    #[cold]
    #[inline(never)]
    pub fn fill(&mut self, addr: u64, len: usize, pattern: u64)
        requires memory { IsMemory self.old }
        requires present { IsTrue (has_all self.old addr len) }
        ensures { self.new ≡ put self.old addr (pattern_bytes pattern len) }
    {
        let mut done = 0;
        while done < len {
            let place = addr + done as u64;
            let count = self.fill_some(place, len - done, pattern);
            if count > 0 {
                done += count;
            } else {
                // less than a word is left of the segment
                let over_edge = (len - done).min(WORD_SIZE);
                self.write(place, &pattern.to_le_bytes()[..over_edge]);
                done += over_edge;
            }
        }
    }

    /// The same within a page, where it is present. Returns whether it is.
    #[cold]
    #[inline(never)]
    pub fn fill_in_page(&mut self, addr: u64, len: usize, pattern: u64) -> bool
        requires within { addr % 4096 + len ≤ 4096 }
        ensures present { result ≡ has self.old addr }
        ensures filled { IsTrue result → self.new ≡ put self.old addr (pattern_bytes pattern len) }
        ensures kept { result ≡ false → self.new ≡ self.old }
    {
        let Some(spot) = find(self.list.as_slice(), addr) else {
            return false;
        };
        fill_at(self.list[spot.segment].content, spot.place, len, pattern);
        true
    }

    /// Puts blocks from entry `first` on into the segment of an address, and stops before the first one that is not all
    /// in it. Returns how many entries there are up to there.
    fn put_in_segment(&mut self, addr: u64, target: u64, entries: &[u8], first: usize) -> usize
        requires memory { IsMemory self.old }
        requires present { IsTrue (has self.old addr) }
        requires target { target ≤ 17592186044416 }
        requires first { first ≤ length entries.now / 10 }
        ensures within { (first ≤ result) × (result ≤ length entries.now / 10) }
        ensures made { self.new ≡ puts_made self.old (block_puts_from target entries.now first (result - first)) }
    {
        let spot = spot_of(self.list.as_slice(), addr);
        let begin = addr - spot.place as u64;
        put_inside(
            self.list[spot.segment].content,
            begin,
            target,
            entries,
            first,
        )
    }

    /// Puts blocks from entry `first` on as far as they lie in one segment, or one that lies over the end of a segment.
    /// Returns how many entries there are up to the last one that was put.
    fn put_some(&mut self, target: u64, entries: &[u8], first: usize) -> usize
        requires memory { IsMemory self.old }
        requires present { IsTrue (are_present self.old (block_puts target entries.now)) }
        requires first { first < length entries.now / 10 }
        ensures within { (first < result) × (result ≤ length entries.now / 10) }
        ensures made { self.new ≡ puts_made self.old (block_puts_from target entries.now first (result - first)) }
    {
        let addr = target + 8 * u64::from(block_number(entries, first));
        let end = self.put_in_segment(addr, target, entries, first);
        if end > first {
            return end;
        }
        self.write(addr, &entry_block(entries, first));
        first + 1
    }

    /// Puts the blocks of all whole entries, a segment at a time as long as the next one lies in the same segment.
    #[cold]
    #[inline(never)]
    pub fn put_blocks(&mut self, target: u64, entries: &[u8])
        requires memory { IsMemory self.old }
        requires present { IsTrue (are_present self.old (block_puts target entries.now)) }
        ensures { self.new ≡ puts_made self.old (block_puts target entries.now) }
    {
        let count = entries.len() / ENTRY;
        let mut done = 0;
        while done < count {
            done = self.put_some(target, entries, done);
        }
    }

    /// Copies bytes from one address on to those from another on, as many as go at once and as the segments of both
    /// have there, `most` at most; where all go at once, at least up to the end of a page. Returns how many.
    #[inline(never)]
    pub fn copy_behind(&mut self, from: u64, to: u64, most: usize) -> usize
        requires some { 0 < most }
        requires present { IsTrue (has self.old from) × IsTrue (has self.old to) }
        ensures some { 0 < result }
        ensures most { result ≤ most }
        ensures page { IsOneCopy from to most → min most (min (4096 - from % 4096) (4096 - to % 4096)) ≤ result }
        ensures copied { self.new ≡ put self.old to (bytes_at self.old from result) }
    {
        let source = spot_of(self.list.as_slice(), from);
        let target = spot_of(self.list.as_slice(), to);
        let count = at_once(from, to, most).min(source.room).min(target.room);
        let list = self.list.as_mut_slice();
        copy_between(
            list,
            source.segment,
            source.place,
            target.segment,
            target.place,
            count,
        );
        count
    }

    /// Copies `len` bytes of one page to one page at once, where both are present. Returns whether they are.
    #[inline(never)]
    pub fn copy_in_page(&mut self, from: u64, to: u64, len: usize) -> bool
        requires within { (from % 4096 + len ≤ 4096) × (to % 4096 + len ≤ 4096) }
        requires apart { IsOneCopy from to len }
        ensures present { result ≡ (has self.old from && has self.old to) }
        ensures copied { IsTrue result → self.new ≡ put self.old to (bytes_at self.old from len) }
        ensures kept { result ≡ false → self.new ≡ self.old }
    {
        let Some(source) = find(self.list.as_slice(), from) else {
            return false;
        };
        let Some(target) = find(self.list.as_slice(), to) else {
            return false;
        };
        let list = self.list.as_mut_slice();
        copy_between(
            list,
            source.segment,
            source.place,
            target.segment,
            target.place,
            len,
        );
        true
    }

    /// Copies `len` bytes of one page to one page, and then to another, where all three are present. Returns whether
    /// they are.
    #[inline(never)]
    pub fn copy_twice_in_page(&mut self, from: u64, first: u64, second: u64, len: usize) -> bool
        requires within { (from % 4096 + len ≤ 4096) × (first % 4096 + len ≤ 4096) × (second % 4096 + len ≤ 4096) }
        requires apart { IsOneCopy from first len × IsOneCopy from second len }
        ensures present { result ≡ (has self.old second && (has self.old from && has self.old first)) }
        ensures copied { IsTrue result → self.new ≡ copied (copied self.old from first len) from second len }
        ensures kept { result ≡ false → self.new ≡ self.old }
    {
        let Some(other) = find(self.list.as_slice(), second) else {
            return false;
        };
        let Some(source) = find(self.list.as_slice(), from) else {
            return false;
        };
        let Some(target) = find(self.list.as_slice(), first) else {
            return false;
        };
        let list = self.list.as_mut_slice();
        copy_between(
            list,
            source.segment,
            source.place,
            target.segment,
            target.place,
            len,
        );
        copy_between(
            list,
            source.segment,
            source.place,
            other.segment,
            other.place,
            len,
        );
        true
    }

    /// Copies bytes before one address to those before another, as many as go at once and as the segments of both have
    /// there, `most` at most; where all go at once, at least down to the begin of a page. Returns how many.
    #[inline(never)]
    pub fn copy_before(&mut self, from: u64, to: u64, most: usize) -> usize
        requires some { 0 < most }
        requires within { (most ≤ from) × (most ≤ to) }
        requires present { IsTrue (has self.old (from - 1)) × IsTrue (has self.old (to - 1)) }
        ensures some { 0 < result }
        ensures most { result ≤ most }
        ensures page { IsOneCopy from to most
            → min most (min ((from - 1) % 4096 + 1) ((to - 1) % 4096 + 1)) ≤ result }
        ensures copied { self.new ≡ put self.old (to - result) (bytes_at self.old (from - result) result) }
    {
        let source = spot_of(self.list.as_slice(), from - 1);
        let target = spot_of(self.list.as_slice(), to - 1);
        let count = at_once(from, to, most)
            .min(source.place + 1)
            .min(target.place + 1);
        let (source_place, target_place) = (source.place + 1 - count, target.place + 1 - count);
        let list = self.list.as_mut_slice();
        copy_between(
            list,
            source.segment,
            source_place,
            target.segment,
            target_place,
            count,
        );
        count
    }
}

/// So many bytes, or as many whole words as there is room for.
fn whole_words(len: usize, room: usize) -> usize
    ensures most { result ≤ len }
    ensures room { result ≤ room }
    ensures words { (result % 8 ≡ 0) ⊎ (result ≡ len) }
{
    if len <= room {
        len
    } else {
        room - room % WORD_SIZE
    }
}
