//! The entries of a delta record as an apply reads and judges them.
ghost use Rattle.std.specs.Prelude.{◌≡◌, ◌+◌, ◌/◌, ◌%◌, ◌^◌, ◌<◌, ◌≤◌, true, false, Some, length, IsTrue};
ghost use Rattle.dml_types.specs.declared.operations.Op.TheVariants.{ApplyDelta};
ghost use Rattle.dml_types.specs.Job.{op_of};
ghost use Rattle.dml_types.specs.Memory.{IsMemory, bytes_at, has_all};
ghost use Rattle.dml_delta.specs.Record.{allowed_in, is_allowed, is_block, least_in, AreBlocks, AreRising};

use dml_desc::Checked;
use dml_image::{Image, PAGE_SIZE};
use dml_types::block_number;

/// The bytes of an entry.
const ENTRY: usize = dml_types::ENTRY as usize;

/// How far a run of entries is good.
#[derive(Clone, Copy)]
pub struct Run {
    /// How many entries come before the first bad one.
    pub good: u32,
    /// The least offset that the entry behind them may have.
    pub least: u32,
}

/// Entries from a place on: `left` bytes, or as many whole ones as there are up to the end of the page. An entry
/// that lies over the end of the page is copied to `edge`.
pub fn entries_at<'a>(
    image: &'a Image,
    place: u64,
    left: u32,
    edge: &'a mut [u8; ENTRY],
) -> &'a [u8]
    requires present { IsTrue (has_all image.now place left) }
    requires some { 10 ≤ left }
    requires whole { left % 10 ≡ 0 }
    ensures bytes { result.now ≡ bytes_at image.now place (length result.now) }
    ensures whole { length result.now % 10 ≡ 0 }
    ensures some { 10 ≤ length result.now }
    ensures within { length result.now ≤ left }
    ensures memory { IsMemory image.now }
{
    let part = image.part(place, left);
    if part.len() < ENTRY {
        image.read_into(place, edge);
        return edge;
    }
    &part[..part.len() / ENTRY * ENTRY]
}

/// Judges whole entries, the first of which may have any offset from `least` on.
///
/// It looks at presence once for the blocks of a page: where that of an entry is present, so are those behind it there.
pub fn judge(image: &Image, job: &Checked, least: u32, entries: &[u8]) -> Run
    requires operation { op_of job.now ≡ Some ApplyDelta }
    requires fits { length entries.now < 2 ^ 32 }
    ensures good { result.good ≡ allowed_in image.now job.now least entries.now }
    ensures within { result.good ≤ length entries.now / 10 }
    ensures least { result.least ≡ least_in least entries.now result.good }
{
    let count = entries.len() / ENTRY;
    let mut least = least;
    let mut i = 0;
    while i < count {
        let offset = u32::from(block_number(entries, i));
        let known = known_above(image, job, least, offset);
        if known <= offset {
            let good = i as u32;
            return Run { good, least };
        }
        i = behind_rising(entries, i + 1, known);
        least = u32::from(block_number(entries, i - 1)) + 1;
    }
    let good = count as u32;
    Run { good, least }
}

/// A number such that all blocks from an offset on up to it are present blocks of the destination. It is at most the
/// offset only where that one is not allowed: it is below the least one, or the block of that is none.
#[inline(always)]
fn known_above(image: &Image, job: &Checked, least: u32, offset: u32) -> u32
    requires operation { op_of job.now ≡ Some ApplyDelta }
    ensures known { AreBlocks image.now job.now offset result }
    ensures allowed { offset < result → is_allowed image.now job.now least offset ≡ true }
    ensures stops { result ≤ offset → is_allowed image.now job.now least offset ≡ false }
{
    if offset < least {
        0
    } else {
        known_from(image, job, offset)
    }
}

/// The place behind the entries from one on that rise from the one before them, and whose offsets are below an end. They
/// are passed by fours, and at most three behind these one by one.
#[inline(always)]
fn behind_rising(entries: &[u8], from: usize, end: u32) -> usize
    requires some { 1 ≤ from }
    requires within { from ≤ length entries.now / 10 }
    ensures rising { AreRising entries.now from result end }
    ensures within { (from ≤ result) × (result ≤ length entries.now / 10) }
{
    let count = entries.len() / ENTRY;
    let mut i = from;
    while count - i >= 4 && four_rise(entries, i, end) {
        i += 4;
    }
    while i < count && one_rises(entries, i, end) {
        i += 1;
    }
    i
}

/// Whether four entries do.
#[inline(always)]
fn four_rise(entries: &[u8], i: usize, end: u32) -> bool
    requires some { 1 ≤ i }
    requires within { i + 4 ≤ length entries.now / 10 }
    ensures { IsTrue result → AreRising entries.now i (i + 4) end }
{
    let before = block_number(entries, i - 1);
    let first = block_number(entries, i);
    let second = block_number(entries, i + 1);
    let third = block_number(entries, i + 2);
    let last = block_number(entries, i + 3);
    u32::from(last) < end && before < first && first < second && second < third && third < last
}

/// Whether an entry does.
#[inline(always)]
fn one_rises(entries: &[u8], i: usize, end: u32) -> bool
    requires some { 1 ≤ i }
    requires within { i + 1 ≤ length entries.now / 10 }
    ensures { IsTrue result → AreRising entries.now i (i + 1) end }
{
    let before = block_number(entries, i - 1);
    let last = block_number(entries, i);
    u32::from(last) < end && before < last
}

/// The number behind the last block that lies in one page with that of an offset, if that one is a present block of the
/// destination: so are all from the offset on, then. Else 0.
#[tactic(auto, using(crate::proofs::LimitLemmas::apply_limits, crate::proofs::RecordLemmas::page_blocks))]
#[inline(never)]
fn known_from(image: &Image, job: &Checked, offset: u32) -> u32
    requires operation { op_of job.now ≡ Some ApplyDelta }
    ensures known { AreBlocks image.now job.now offset result }
    ensures stops { result ≤ offset → is_block image.now job.now offset ≡ false }
{
    let job = job.job();
    let blocks = job.size / 8;
    if offset >= blocks {
        return 0;
    }
    let place = job.target + 8 * u64::from(offset);
    if !image.has(place) {
        return 0;
    }
    let of_page = (PAGE_SIZE as u64 - place % PAGE_SIZE as u64) / 8;
    blocks.min(offset + of_page as u32)
}
