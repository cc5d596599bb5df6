ghost use Rattle.std.specs.Prelude.{◌≡◌, ◌+◌, ◌-◌, ◌*◌, ◌/◌, ◌<◌, ◌≤◌, ◌==◌, ◌++◌, None, Some, [], length, option_map, take, if◌then◌else◌, IsTrue};
ghost use Rattle.dml_arena.specs.Piece.{SamePlace};
ghost use Rattle.dml_types.specs.declared.operations.Op.TheVariants.{ApplyDelta};
ghost use Rattle.dml_types.specs.Job.{op_of};
ghost use Rattle.dml_types.specs.Memory.{has_all, bytes_at};
ghost use Rattle.dml_types.specs.Delta.{entry_fault, good_entries};
ghost use Rattle.dml_types.specs.Delta as delta;
ghost use Rattle.dml_types.specs.Chunk.{apply_bad, apply_first, apply_last, apply_staged};
ghost use Rattle.dml_delta.specs.Bad.{bad_of};

use crate::record::{entries_at, judge};
use dml_arena::Region;
use dml_desc::Checked;
use dml_image::Image;
use dml_types::{Job, Status, block_number};

/// The first bad entry of a chunk of an apply.
#[derive(Clone, Copy, PartialEq, Eq, Debug)]
pub struct BadEntry {
    /// Its number in the record.
    pub entry: u32,
    /// Why it is bad: ReadFault, NotRising, OffsetRange or WriteFault.
    pub status: Status,
    /// The address of the absent byte of a read or a write fault, else 0.
    pub place: u64,
}

/// What the scan of one chunk of an apply gives.
#[derive(Drop)]
pub struct ApplyPiece<'a> {
    /// The number of the chunk's first entry.
    pub from: u32,
    /// The number behind its last entry.
    pub to: u32,
    /// The first bad entry, judged without the chunk before this one.
    pub bad: Option<BadEntry>,
    /// The offset, in blocks, of the first entry, good or bad, where all its bytes are present.
    pub first: Option<u16>,
    /// The offset of the last staged entry.
    pub last: Option<u16>,
    /// The entries before the first bad one, or all.
    pub staged: Region<'a>,
}

/// Scans the entries from `from` up to `to` of the record of an apply, and stages those before the first bad one.
///
/// An entry is bad where a byte of it is absent, where its offset is not above that of the entry before it in the
/// chunk or is behind the destination, or where a byte of its destination block is absent. The region is empty, with
/// room for 10 bytes an entry, and keeps its place and its room.
#[tactic(auto, using(crate::proofs::PieceLemmas::apply_staged_is))]
pub fn scan_apply<'a>(
    image: &Image,
    job: &Checked,
    from: u32,
    to: u32,
    room: Region<'a>,
) -> ApplyPiece<'a>
    requires operation { op_of job.now ≡ Some ApplyDelta }
    requires order { from ≤ to }
    requires within { to ≤ job.now.delta_size / 10 }
    requires empty { room.bytes ≡ [] }
    requires fits { 10 * (to - from) ≤ room.room }
    ensures chunk { (result.from ≡ from) × (result.to ≡ to) }
    ensures bad { option_map bad_of result.bad ≡ apply_bad image.now job.now from to }
    ensures first { result.first ≡ apply_first image.now job.now from to }
    ensures last { result.last ≡ apply_last image.now job.now from to }
    ensures staged { result.staged.bytes ≡ apply_staged image.now job.now from to }
    ensures place { SamePlace room.entry result.staged }
{
    let _pages = image.pages(); // says what every image keeps
    let mut staged = room;
    let good = stage_good(image, job, from, to, &mut staged);
    let bad = first_bad(image, job, from, from + good, to);
    let first = first_offset(image, job, from, to, staged.bytes());
    let last = last_offset(staged.bytes());
    ApplyPiece {
        from,
        to,
        bad,
        first,
        last,
        staged,
    }
}

/// The offset of an entry, in blocks.
fn entry_offset(image: &Image, job: &Checked, entry: u32) -> u16
    requires operation { op_of job.now ≡ Some ApplyDelta }
    requires within { entry < job.now.delta_size / 10 }
    requires present { IsTrue (has_all image.now (job.now.source + 10 * entry) 2) }
    ensures { result ≡ delta.entry_offset image.now job.now entry }
{
    let mut bytes = [0; 2];
    image.read_into(job.job().source + 10 * u64::from(entry), &mut bytes);
    u16::from_le_bytes(bytes)
}

/// The offset of a chunk's first entry, where it has one and all bytes of it are present: that of the first good one,
/// if it has any.
fn first_offset(image: &Image, job: &Checked, from: u32, to: u32, good: &[u8]) -> Option<u16>
    requires operation { op_of job.now ≡ Some ApplyDelta }
    requires order { from ≤ to }
    requires within { to ≤ job.now.delta_size / 10 }
    requires good { good.now ≡ apply_staged image.now job.now from to }
    ensures { result ≡ apply_first image.now job.now from to }
{
    let _pages = image.pages(); // says what every image keeps
    if good.len() >= 10 {
        return Some(block_number(good, 0));
    }
    if from == to {
        return None; // its address may be 2^64
    }
    let place = job.job().source + 10 * u64::from(from);
    if image.present_bytes(place, 10) < 10 {
        return None;
    }
    Some(entry_offset(image, job, from))
}

/// The offset of the last one of some entries, if there is one.
fn last_offset(entries: &[u8]) -> Option<u16>
    ensures { result ≡ (if length entries.now / 10 == 0 then None
        else Some (delta.block_number entries.now (length entries.now / 10 - 1))) }
{
    let count = entries.len() / 10;
    if count == 0 {
        return None;
    }
    Some(block_number(entries, count - 1))
}

/// The entry behind a chunk's good ones, with its fault, if the chunk has it.
fn first_bad(image: &Image, job: &Checked, from: u32, entry: u32, to: u32) -> Option<BadEntry>
    requires operation { op_of job.now ≡ Some ApplyDelta }
    requires order { (from ≤ entry) × (entry ≤ to) }
    requires within { to ≤ job.now.delta_size / 10 }
    requires present { IsTrue (has_all image.now (job.now.source + 10 * from) (10 * (entry - from))) }
    ensures { option_map bad_of result
        ≡ (if entry == to then None
        else option_map (λ fault. (entry, fault)) (entry_fault from image.now job.now entry)) }
{
    if entry == to {
        return None;
    }
    bad_entry(image, job, from, entry)
}

/// An entry with its fault, where it is bad: of the causes, the first that holds. The offsets of the entries behind
/// the one named `behind` have to rise.
fn bad_entry(image: &Image, job: &Checked, behind: u32, entry: u32) -> Option<BadEntry>
    requires operation { op_of job.now ≡ Some ApplyDelta }
    requires within { entry < job.now.delta_size / 10 }
    requires present { behind < entry → IsTrue (has_all image.now (job.now.source + 10 * (entry - 1)) 10) }
    ensures { option_map bad_of result
        ≡ option_map (λ fault. (entry, fault)) (entry_fault behind image.now job.now entry) }
{
    let bad = |status, place| {
        Some(BadEntry {
            entry,
            status,
            place,
        })
    };
    let &Job {
        source,
        target,
        size,
        ..
    } = job.job();
    let place = source + 10 * u64::from(entry);
    let readable = image.present_bytes(place, 10);
    if readable < 10 {
        return bad(Status::ReadFault, place + u64::from(readable));
    }
    let offset = entry_offset(image, job, entry);
    if entry > behind && offset <= entry_offset(image, job, entry - 1) {
        return bad(Status::NotRising, 0);
    }
    if u32::from(offset) >= size / 8 {
        return bad(Status::OffsetRange, 0);
    }
    let block = target + 8 * u64::from(offset);
    let writable = image.present_bytes(block, 8);
    if writable < 8 {
        return bad(Status::WriteFault, block + u64::from(writable));
    }
    None
}

/// Stages the entries before the first bad one, and counts them.
fn stage_good(image: &Image, job: &Checked, from: u32, to: u32, room: &mut Region<'_>) -> u32
    requires operation { op_of job.now ≡ Some ApplyDelta }
    requires order { from ≤ to }
    requires within { to ≤ job.now.delta_size / 10 }
    requires fits { length room.old.bytes + 10 * (to - from) ≤ room.old.room }
    ensures value { result ≡ good_entries image.now job.now from to }
    ensures within { result ≤ to - from }
    ensures present { IsTrue (has_all image.now (job.now.source + 10 * from) (10 * result)) }
    ensures place { SamePlace room.old room.new }
    ensures bytes { room.new.bytes ≡ room.old.bytes ++ bytes_at image.now (job.now.source + 10 * from) (10 * result) }
{
    if from == to {
        return 0; // its address may be 2^64
    }
    let source = job.job().source;
    let place = source + 10 * u64::from(from);
    let readable = image.present_bytes(place, 10 * (to - from)) / 10;
    let mut good = 0;
    let mut least = 0;
    while good < readable {
        let place = source + 10 * u64::from(from + good);
        let mut edge = [0; 10];
        let entries = entries_at(&*image, place, 10 * (readable - good), &mut edge);
        let run = judge(image, job, least, entries);
        push_good(entries, run.good, room);
        good += run.good;
        least = run.least;
        if (run.good as usize) < entries.len() / 10 {
            return good;
        }
    }
    good
}

/// Stages the good entries at the front of a run.
fn push_good(entries: &[u8], good: u32, room: &mut Region<'_>)
    requires good { 10 * good ≤ length entries.now }
    requires fits { length room.old.bytes + 10 * good ≤ room.old.room }
    ensures place { SamePlace room.old room.new }
    ensures bytes { room.new.bytes ≡ room.old.bytes ++ take (10 * good) entries.now }
{
    room.push(&entries[..10 * good as usize]);
}
