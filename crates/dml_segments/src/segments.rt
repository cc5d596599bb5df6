//! Segments of memory that a caller lends, in lists.
ghost use Rattle.std.specs.Prelude.{◌≡◌, ℕ, ◌+◌, ◌*◌, ◌<◌, ◌≤◌, ◌↔◌, ◌⊎◌, None, [], false, length, slice_range, IfSome, IsTrue};
ghost use Rattle.dml_types.specs.Memory.{has};
ghost use Rattle.dml_segments.specs.Copied.{IsOneCopy};
ghost use Rattle.dml_segments.specs.Pieces.{AreInOrder, AreSegments, IsAt, piece_at, pieces_memory, pieces_of, written};

use crate::slices::{copy_at, write_at};
use crate::{MAX_WHOLE_PAGES, PAGE_SIZE};

/// A segment of memory that a caller lends: its first page, and the bytes of its pages.
#[derive(Drop)]
pub struct Segment<'a> {
    first: u32,
    pub(crate) content: &'a mut [u8],
}

impl<'a> Segment<'a> {
    /// A segment that begins with this page, of these bytes.
    pub fn new(first: u32, content: &'a mut [u8]) -> Segment<'a>
        ensures first { result.first ≡ first }
        ensures content { result.content.now ≡ content.old }
        ensures same_reference { result.content.ghost_name ≡ content.entry.ghost_name }
    {
        Segment { first, content }
    }

    /// The number of its first page.
    pub fn first(&self) -> u32
        ensures { result ≡ self.now.first }
    {
        self.first
    }

    /// Its bytes.
    pub fn bytes(&self) -> &[u8]
        ensures { result.now ≡ self.now.content.now }
    {
        &*self.content
    }

    /// Its bytes, to be changed; none are left here.
    pub fn take(&mut self) -> &'a mut [u8]
        ensures bytes { result.now ≡ self.old.content.now }
        ensures same_reference { result.ghost_name ≡ self.old.content.ghost_name }
        ensures left { self.new.content.now ≡ [] }
        ensures first { self.new.first ≡ self.old.first }
    {
        std::mem::take(&mut self.content)
    }

    /// The address of its first byte.
    fn start(&self) -> u64
        ensures { result ≡ 4096 * self.now.first }
    {
        u64::from(self.first) * PAGE_SIZE as u64
    }
}

/// Whether segments are a memory: whole pages in rising order, none of them in two, and 1 to 2^32 - 1 pages up to the
/// end of the last one.
pub fn are_segments(list: &[Segment<'_>]) -> bool
    ensures { IsTrue result ↔ AreSegments (pieces_of list.now) }
{
    let mut end = 0;
    for segment in list {
        let first = u64::from(segment.first);
        let len = segment.content.len();
        if first < end || len % PAGE_SIZE != 0 {
            return false;
        }
        end = first + (len / PAGE_SIZE) as u64;
    }
    end >= 1 && end <= u64::from(MAX_WHOLE_PAGES)
}

/// Where an address is in a list of segments: in which of them, how many of its bytes come before, and how many there
/// are from there to its end.
#[derive(Clone, Copy)]
pub struct Spot {
    pub segment: usize,
    pub place: usize,
    pub room: usize,
}

/// Where an address is.
#[inline(always)]
pub fn find(list: &[Segment<'_>], addr: u64) -> Option<Spot>
    requires { AreInOrder 0 (pieces_of list.now) }
    ensures found { IfSome result (λ spot. IsAt (pieces_of list.now) spot addr) }
    ensures outside { result ≡ None → has (pieces_memory (pieces_of list.now)) addr ≡ false }
{
    let segment = nearest(list, addr);
    let here = list.get(segment)?;
    let start = here.start();
    if addr < start {
        return None;
    }
    let place = addr - start;
    let len = here.content.len();
    if place >= len as u64 {
        return None;
    }
    Some(Spot {
        segment,
        place: place as usize,
        room: len - place as usize,
    })
}

/// The same by a call, for what is rare: a page that is brought.
#[cold]
#[inline(never)]
pub fn find_rarely(list: &[Segment<'_>], addr: u64) -> Option<Spot>
    requires { AreInOrder 0 (pieces_of list.now) }
    ensures found { IfSome result (λ spot. IsAt (pieces_of list.now) spot addr) }
    ensures outside { result ≡ None → has (pieces_memory (pieces_of list.now)) addr ≡ false }
{
    find(list, addr)
}

/// Where an address is that is present.
#[inline(always)]
pub fn spot_of(list: &[Segment<'_>], addr: u64) -> Spot
    requires order { AreInOrder 0 (pieces_of list.now) }
    requires present { IsTrue (has (pieces_memory (pieces_of list.now)) addr) }
    ensures { IsAt (pieces_of list.now) result addr }
{
    match find(list, addr) {
        Some(spot) => spot,
        None => unreachable!(),
    }
}

/// The last segment that begins at an address or before, or the first one.
#[inline(always)]
fn nearest(list: &[Segment<'_>], addr: u64) -> usize
    requires { AreInOrder 0 (pieces_of list.now) }
    ensures within { (result < length list.now) ⊎ (length list.now ≡ 0) }
    ensures before { (k : ℕ) → k < result → 4096 * (piece_at (pieces_of list.now) k).first ≤ addr }
    ensures begins { 0 < result → 4096 * (piece_at (pieces_of list.now) result).first ≤ addr }
    ensures behind { (k : ℕ) → result < k → k < length list.now
        → addr < 4096 * (piece_at (pieces_of list.now) k).first }
{
    let mut low = 0;
    let mut high = list.len();
    while high - low > 1 {
        let middle = low + (high - low) / 2;
        if list[middle].start() <= addr {
            low = middle;
        } else {
            high = middle;
        }
    }
    low
}

/// Copies `len` bytes from one place of a list's segments to another.
pub fn copy_between(
    list: &mut [Segment<'_>],
    source: usize,
    from: usize,
    target: usize,
    to: usize,
    len: usize,
)
    requires source { (source < length list.old)
        × (from + len ≤ length (piece_at (pieces_of list.old) source).bytes) }
    requires target { (target < length list.old)
        × (to + len ≤ length (piece_at (pieces_of list.old) target).bytes) }
    requires apart { source ≡ target → IsOneCopy from to len }
    ensures { pieces_of list.new ≡ written (pieces_of list.old) target to
        (slice_range (piece_at (pieces_of list.old) source).bytes from (from + len)) }
{
    // the target is taken out for the copy
    let first = list[target].first;
    let bytes = list[target].take();
    if source == target {
        copy_at(bytes, from, to, len);
    } else {
        write_at(bytes, to, &list[source].bytes()[from..from + len]);
    }
    list[target] = Segment::new(first, bytes);
}
