ghost use Rattle.std.specs.Prelude.{◌≡◌, ◌+◌, ◌-◌, ◌*◌, ◌/◌, ◌<◌, ◌≤◌, ◌==◌, ◌++◌, false, None, Some, [], length, if◌then◌else◌};
ghost use Rattle.dml_arena.specs.Piece.{SamePlace};
ghost use Rattle.dml_types.specs.declared.operations.Op.TheVariants.{CreateDelta};
ghost use Rattle.dml_types.specs.Job.{op_of};
ghost use Rattle.dml_types.specs.Delta.{block_fault, differs, block_entry, is_readable};
ghost use Rattle.dml_types.specs.Delta as delta;
ghost use Rattle.dml_types.specs.Chunk.{create_fault, create_staged};
ghost use Rattle.dml_delta.specs.Entries.{gathered};

use crate::entries::Entries;
use crate::lanes::add_differing;
use dml_arena::Region;
use dml_desc::Checked;
use dml_image::Image;

/// What the scan of one chunk of a create gives.
#[derive(Drop)]
pub struct CreatePiece<'a> {
    /// The number of the chunk's first block.
    pub from: u32,
    /// The number behind its last block.
    pub to: u32,
    /// The first block with an absent byte in a source, and the address of the first such byte.
    pub fault: Option<(u32, u64)>,
    /// The entries of the differing blocks before that one, or of the whole chunk.
    pub staged: Region<'a>,
}

/// Scans the blocks from `from` up to `to` of a create, and stages the entries of those that differ.
///
/// It stops at the first block with an absent byte in a source. It looks neither at the maximum size of the record
/// nor at the record's pages. The region is empty, with room for 10 bytes a block, and keeps its place and its room.
#[tactic(auto, using(crate::proofs::PieceLemmas::create_steps))]
pub fn scan_create<'a>(
    image: &Image,
    job: &Checked,
    from: u32,
    to: u32,
    room: Region<'a>,
) -> CreatePiece<'a>
    requires operation { op_of job.now ≡ Some CreateDelta }
    requires order { from ≤ to }
    requires within { to ≤ job.now.size / 8 }
    requires empty { room.bytes ≡ [] }
    requires fits { 10 * (to - from) ≤ room.room }
    ensures chunk { (result.from ≡ from) × (result.to ≡ to) }
    ensures fault { result.fault ≡ create_fault image.now job.now from to }
    ensures staged { result.staged.bytes ≡ create_staged image.now job.now from to }
    ensures place { SamePlace room.entry result.staged }
{
    let mut staged = room;
    let readable = stage_differing(image, job, from, to, &mut staged);
    CreatePiece {
        from,
        to,
        fault: fault_at(image, job, from + readable, to),
        staged,
    }
}

/// The block that is not readable, if it is one of those below `to`, with the address of its first absent byte.
fn fault_at(image: &Image, job: &Checked, block: u32, to: u32) -> Option<(u32, u64)>
    requires operation { op_of job.now ≡ Some CreateDelta }
    requires order { block ≤ to }
    requires within { to ≤ job.now.size / 8 }
    requires stops { block < to → is_readable image.now job.now block ≡ false }
    ensures { result ≡ (if block == to then None else Some (block, (block_fault image.now job.now block).address)) }
{
    if block == to {
        return None;
    }
    let job = job.job();
    let first = 8 * u64::from(block);
    let in_source = image.present_bytes(job.source + first, 8);
    if in_source < 8 {
        return Some((block, job.source + first + u64::from(in_source)));
    }
    let in_target = image.present_bytes(job.target + first, 8);
    Some((block, job.target + first + u64::from(in_target)))
}

/// Stages the entries of the blocks whose two contents differ, up to the first block with an absent byte in a source.
/// Returns how many come before that one.
fn stage_differing(image: &Image, job: &Checked, from: u32, to: u32, room: &mut Region<'_>) -> u32
    requires operation { op_of job.now ≡ Some CreateDelta }
    requires order { from ≤ to }
    requires within { to ≤ job.now.size / 8 }
    requires fits { length room.old.bytes + 10 * (to - from) ≤ room.old.room }
    ensures value { result ≡ delta.readable_blocks image.now job.now from to }
    ensures within { result ≤ to - from }
    ensures place { SamePlace room.old room.new }
    ensures bytes { room.new.bytes ≡ room.old.bytes
        ++ gathered (block_entry image.now job.now) (differs image.now job.now) from result }
{
    let mut entries = Entries::new();
    let readable = add_readable(image, job, from, to, &mut entries, room);
    entries.flush(room);
    readable
}

/// Adds the entries of those blocks, up to the next page's end of either source at a time.
fn add_readable(
    image: &Image,
    job: &Checked,
    from: u32,
    to: u32,
    entries: &mut Entries,
    room: &mut Region<'_>,
) -> u32
    requires operation { op_of job.now ≡ Some CreateDelta }
    requires order { from ≤ to }
    requires within { to ≤ job.now.size / 8 }
    requires fits { length room.old.bytes + length entries.old + 10 * (to - from) ≤ room.old.room }
    ensures value { result ≡ delta.readable_blocks image.now job.now from to }
    ensures within { result ≤ to - from }
    ensures place { SamePlace room.old room.new }
    ensures bytes { room.new.bytes ++ entries.new ≡ (room.old.bytes ++ entries.old)
        ++ gathered (block_entry image.now job.now) (differs image.now job.now) from result }
{
    let job = job.job();
    let count = to - from;
    let mut done = 0;
    while done < count {
        let first = 8 * u64::from(from + done);
        let left = 8 * (count - done);
        let Some(one) = image.present_part(job.source + first, left) else {
            return done;
        };
        let Some(other) = image.present_part(job.target + first, left) else {
            return done;
        };
        let len = one.len().min(other.len());
        add_differing(entries, &one[..len], &other[..len], from + done, room);
        done += len as u32 / 8;
    }
    done
}
