ghost use Rattle.std.specs.Prelude.{◌≡◌, ◌+◌, ◌-◌, ◌^◌, ◌≤◌, ◌++◌, [], length, IsTrue};
ghost use Rattle.dml_types.specs.declared.operations.Op.TheVariants.{Compare, ComparePattern, Dualcast, Fill, Move};
ghost use Rattle.dml_types.specs.Job.{op_of};
ghost use Rattle.dml_types.specs.Bytewise.{lowest_done, operation_direction};
ghost use Rattle.dml_types.specs.Memory.{bytes_at, has_all};
ghost use Rattle.dml_types.specs.Chunk.{scan_found, scan_staged};
ghost use Rattle.dml_arena.specs.Piece.{SamePlace};
ghost use Rattle.dml_scan.specs.Found.{done_count};

use crate::compares::{compare_found, compare_pattern_found};
use crate::reach::{direction_of, done_count, dualcast_found, fill_found, move_found};
use crate::staging::stage;
use dml_arena::Region;
use dml_desc::Checked;
use dml_image::Image;
use dml_types::{Direction, Found, Job, Op};

/// What the scan of one chunk of a job gives.
#[derive(Drop)]
pub struct ScanPiece<'a> {
    /// The job's offset, in bytes, at which the chunk begins.
    pub from: u32,
    /// The offset behind its last byte.
    pub to: u32,
    /// How far the scan went in the order of work, and why it stopped.
    pub found: Found,
    /// The source bytes of the offsets that were done, in address order; none for a fill.
    pub staged: Region<'a>,
}

/// Scans the offsets from `from` up to `to` of a move, and stages the source bytes of those that were done.
///
/// A backward move is scanned from the chunk's end downwards, so its staged bytes are the chunk's last ones.
/// The region is empty, with room for the whole chunk, and keeps its place and its room.
pub fn scan_move<'a>(
    image: &Image,
    job: &Checked,
    from: u32,
    to: u32,
    room: Region<'a>,
) -> ScanPiece<'a>
    requires operation { op_of job.now ≡ Some Move }
    requires order { from ≤ to }
    requires within { to ≤ job.now.size }
    requires empty { room.bytes ≡ [] }
    requires fits { to - from ≤ room.room }
    ensures chunk { (result.from ≡ from) × (result.to ≡ to) }
    ensures found { result.found ≡ scan_found Move image.now job.now from to }
    ensures staged { result.staged.bytes ≡ scan_staged Move image.now job.now from to }
    ensures place { SamePlace room.entry result.staged }
{
    let mut staged = room;
    let found = move_found(image, job, from, to);
    let (first, done) = done_part(job.job(), from, to, found);
    stage_source(image, job.job(), first, done, &mut staged);
    ScanPiece {
        from,
        to,
        found,
        staged,
    }
}

/// Scans the offsets from `from` up to `to` of a fill, and stages nothing.
///
/// The region is empty, needs no room, and comes back as it was.
#[tactic(auto, unfolding(dml_types::specs::Chunk::scan_staged))]
pub fn scan_fill<'a>(
    image: &Image,
    job: &Checked,
    from: u32,
    to: u32,
    room: Region<'a>,
) -> ScanPiece<'a>
    requires operation { op_of job.now ≡ Some Fill }
    requires order { from ≤ to }
    requires within { to ≤ job.now.size }
    requires empty { room.bytes ≡ [] }
    ensures chunk { (result.from ≡ from) × (result.to ≡ to) }
    ensures found { result.found ≡ scan_found Fill image.now job.now from to }
    ensures staged { result.staged.bytes ≡ scan_staged Fill image.now job.now from to }
    ensures place { SamePlace room.entry result.staged }
{
    ScanPiece {
        from,
        to,
        found: fill_found(image, job, from, to),
        staged: room,
    }
}

/// Scans the offsets from `from` up to `to` of a compare of two ranges, and stages nothing.
///
/// The region is empty, needs no room, and comes back as it was.
#[tactic(auto, unfolding(dml_types::specs::Chunk::scan_staged))]
pub fn scan_compare<'a>(
    image: &Image,
    job: &Checked,
    from: u32,
    to: u32,
    room: Region<'a>,
) -> ScanPiece<'a>
    requires operation { op_of job.now ≡ Some Compare }
    requires order { from ≤ to }
    requires within { to ≤ job.now.size }
    requires empty { room.bytes ≡ [] }
    ensures chunk { (result.from ≡ from) × (result.to ≡ to) }
    ensures found { result.found ≡ scan_found Compare image.now job.now from to }
    ensures staged { result.staged.bytes ≡ scan_staged Compare image.now job.now from to }
    ensures place { SamePlace room.entry result.staged }
{
    ScanPiece {
        from,
        to,
        found: compare_found(image, job, from, to),
        staged: room,
    }
}

/// Scans the offsets from `from` up to `to` of a compare with a pattern, and stages nothing.
///
/// The region is empty, needs no room, and comes back as it was.
#[tactic(auto, unfolding(dml_types::specs::Chunk::scan_staged))]
pub fn scan_compare_pattern<'a>(
    image: &Image,
    job: &Checked,
    from: u32,
    to: u32,
    room: Region<'a>,
) -> ScanPiece<'a>
    requires operation { op_of job.now ≡ Some ComparePattern }
    requires order { from ≤ to }
    requires within { to ≤ job.now.size }
    requires empty { room.bytes ≡ [] }
    ensures chunk { (result.from ≡ from) × (result.to ≡ to) }
    ensures found { result.found ≡ scan_found ComparePattern image.now job.now from to }
    ensures staged { result.staged.bytes ≡ scan_staged ComparePattern image.now job.now from to }
    ensures place { SamePlace room.entry result.staged }
{
    ScanPiece {
        from,
        to,
        found: compare_pattern_found(image, job, from, to),
        staged: room,
    }
}

/// Scans the offsets from `from` up to `to` of a dualcast, and stages the source bytes of those that were done.
///
/// They are staged once, for both destinations. The region is empty, with room for the whole chunk, and keeps
/// its place and its room.
pub fn scan_dualcast<'a>(
    image: &Image,
    job: &Checked,
    from: u32,
    to: u32,
    room: Region<'a>,
) -> ScanPiece<'a>
    requires operation { op_of job.now ≡ Some Dualcast }
    requires order { from ≤ to }
    requires within { to ≤ job.now.size }
    requires empty { room.bytes ≡ [] }
    requires fits { to - from ≤ room.room }
    ensures chunk { (result.from ≡ from) × (result.to ≡ to) }
    ensures found { result.found ≡ scan_found Dualcast image.now job.now from to }
    ensures staged { result.staged.bytes ≡ scan_staged Dualcast image.now job.now from to }
    ensures place { SamePlace room.entry result.staged }
{
    let mut staged = room;
    let found = dualcast_found(image, job, from, to);
    let done = done_count(found, to - from);
    stage_source(image, job.job(), from, done, &mut staged);
    ScanPiece {
        from,
        to,
        found,
        staged,
    }
}

/// The offsets of a chunk of a move that were done, where its scan ended so: the first of them, and their number.
fn done_part(job: &Job, from: u32, to: u32, found: Found) -> (u32, u32)
    requires order { from ≤ to }
    requires within { done_count (to - from) found ≤ to - from }
    ensures first { result.0 ≡ from + lowest_done (operation_direction Move job.now) (to - from) result.1 }
    ensures end { result.0 + result.1 ≤ to }
    ensures count { result.1 ≡ done_count (to - from) found }
{
    let done = done_count(found, to - from);
    let first = from + direction_of(Op::Move, job).lowest_done(to - from, done);
    (first, done)
}

/// Stages `done` bytes of a job's source from the offset `first` on.
fn stage_source(image: &Image, job: &Job, first: u32, done: u32, room: &mut Region<'_>)
    requires source { job.now.source + job.now.size ≤ 2 ^ 64 }
    requires within { first + done ≤ job.now.size }
    requires present { IsTrue (has_all image.now (job.now.source + first) done) }
    requires fits { length room.old.bytes + done ≤ room.old.room }
    ensures place { SamePlace room.old room.new }
    ensures bytes { room.new.bytes ≡ room.old.bytes ++ bytes_at image.now (job.now.source + first) done }
{
    if done == 0 {
        return; // the source may end at 2^64
    }
    stage(image, job.source + u64::from(first), done, room);
}
