//! The pieces of a create's chunks, joined to its effect.
ghost use Rattle.std.specs.Prelude.{◌≡◌, ◌+◌, ◌*◌, ◌/◌, ◌^◌, ◌<◌, ◌≤◌, false, Some, is_some, length, min, IsTrue};
ghost use Rattle.std.specs.Iterator.{IsFinite};
ghost use Rattle.dml_types.specs.declared.operations.Op.TheVariants.{CreateDelta};
ghost use Rattle.dml_types.specs.Job.{op_of};
ghost use Rattle.dml_types.specs.Memory.{has_all, puts_made};
ghost use Rattle.dml_types.specs.Memory as memory;
ghost use Rattle.dml_types.specs.Delta.{created, entry_room};
ghost use Rattle.dml_types.specs.Delta as delta;
ghost use Rattle.dml_types.specs.Chunk.{create_fault, create_staged};
ghost use Rattle.dml_types.specs.Refusal.{need};
ghost use Rattle.dml_types.specs.Step.{effect};
ghost use Rattle.dml_desc.specs.Checked.{checked_effect, checked_step};
ghost use Rattle.dml_effect.specs.Chunks.{IsBehind, IsWholeCreate, YieldsCreates};
ghost use Rattle.dml_effect.specs.Effects.{are_present, puts_of, some_puts};
ghost use Rattle.dml_effect.specs.Joined.{entries_joined, fault_joined};
ghost use Rattle.dml_effect.specs.Joined as joined;

use crate::effects::{Effect, Puts};
use crate::records::{finished_record, full_record};
use dml_arena::Region;
use dml_delta::CreatePiece;
use dml_desc::Checked;
use dml_image::Image;
use dml_types::{Record, Status, block_number};

/// Joins the pieces of all chunks of a create, upwards, to its effect. A create of no byte may have none.
///
/// Only the entries before the first block with an absent byte in a source are put, and of these only those that fit
/// into the maximum and into the present bytes before the record's first absent one.
pub fn join_create<'a, I: Iterator<Item = CreatePiece<'a>> + Drop>(
    image: &Image,
    job: &Checked,
    pieces: I,
) -> Effect<'a>
    requires operation { op_of job.now ≡ Some CreateDelta }
    requires can { I.can_next pieces }
    requires ends { IsFinite (I.remaining pieces) }
    requires chunks { YieldsCreates I.next_gives image.now job.now pieces }
    ensures answer { result.answer ≡ (checked_step image.now job.now).1 }
    ensures puts { result.puts ≡ some_puts (checked_effect image.now job.now).puts }
    ensures image { puts_made image.now result.puts ≡ (checked_step image.now job.now).0 }
    ensures present { IsTrue (are_present image.now result.puts) }
{
    let whole = join_pieces(image, job, pieces);
    effect_of(image, job, whole)
}

/// The pieces of all chunks, joined to one; none where there are none.
fn join_pieces<'a, I: Iterator<Item = CreatePiece<'a>> + Drop>(
    _image: &Image,
    _job: &Checked,
    pieces: I,
) -> Option<CreatePiece<'a>>
    requires can { I.can_next pieces }
    requires ends { IsFinite (I.remaining pieces) }
    requires chunks { YieldsCreates I.next_gives _image.now _job.now pieces }
    ensures whole { IsWholeCreate _image.now _job.now result }
{
    let mut whole = None;
    for piece in pieces {
        whole = Some(match whole {
            None => piece,
            Some(below) => join_neighbours(below, piece),
        });
    }
    whole
}

/// One piece of two neighbouring ones.
fn join_neighbours<'a>(below: CreatePiece<'a>, above: CreatePiece<'a>) -> CreatePiece<'a>
    requires beside { is_some below.fault ≡ false → IsBehind below.staged above.staged }
    ensures chunk { (result.from ≡ below.entry.from) × (result.to ≡ above.entry.to) }
    ensures fault { result.fault ≡ fault_joined below.entry.fault above.entry.fault }
    ensures staged { result.staged.bytes
        ≡ entries_joined below.entry.fault below.entry.staged.bytes above.entry.staged.bytes }
    ensures opening { is_some result.fault ≡ false → result.staged.opening ≡ above.entry.staged.opening }
    ensures end { is_some result.fault ≡ false
        → result.staged.start + result.staged.room ≡ above.entry.staged.start + above.entry.staged.room }
{
    let (from, to) = (below.from, above.to);
    match below.fault {
        Some(fault) => CreatePiece {
            from,
            to,
            fault: Some(fault),
            staged: below.staged,
        },
        None => CreatePiece {
            from,
            to,
            fault: above.fault,
            staged: below.staged.join(above.staged),
        },
    }
}

/// The effect of a create whose pieces are joined to one, or of one that has none.
pub fn effect_of<'a>(image: &Image, job: &Checked, whole: Option<CreatePiece<'a>>) -> Effect<'a>
    requires operation { op_of job.now ≡ Some CreateDelta }
    requires whole { IsWholeCreate image.now job.now whole }
    ensures answer { result.answer ≡ (checked_step image.now job.now).1 }
    ensures puts { result.puts ≡ some_puts (checked_effect image.now job.now).puts }
    ensures image { puts_made image.now result.puts ≡ (checked_step image.now job.now).0 }
    ensures present { IsTrue (are_present image.now result.puts) }
{
    let _pages = image.pages(); // says what every image keeps
    let _checked = job.job(); // says what every checked job keeps
    match whole {
        None => Effect {
            answer: finished(image, job, None, 0),
            puts: Puts::Nothing,
        },
        Some(piece) => {
            let CreatePiece { fault, staged, .. } = piece;
            let entries = staged.bytes().len() as u32 / 10;
            let room = room_for(image, job, entries);
            let answer = created_record(image, job, fault, staged.bytes(), room);
            let puts = record_puts(job, room, staged);
            Effect { answer, puts }
        }
    }
}

/// The completion record of a create, by the entries of all its blocks and how many of them are put.
fn created_record(
    image: &Image,
    job: &Checked,
    fault: Option<(u32, u64)>,
    entries: &[u8],
    room: u32,
) -> Record
    requires operation { op_of job.now ≡ Some CreateDelta }
    requires fault { fault ≡ create_fault image.now job.now 0 (job.now.size / 8) }
    requires entries { entries.now ≡ create_staged image.now job.now 0 (job.now.size / 8) }
    requires room { room ≡ min (length entries.now / 10) (entry_room image.now job.now) }
    ensures { result ≡ (created image.now job.now).answer }
{
    let _pages = image.pages(); // says what every image keeps
    let _checked = job.job(); // says what every checked job keeps
    let count = entries.len() as u32 / 10;
    if room < count {
        crowded(image, job, room, block_number(entries, room as usize))
    } else {
        finished(image, job, fault, count)
    }
}

/// How many of so many entries are put: those that fit into the maximum and into the present bytes before the record's
/// first absent one.
fn room_for(image: &Image, job: &Checked, entries: u32) -> u32
    requires operation { op_of job.now ≡ Some CreateDelta }
    ensures value { result ≡ min entries (entry_room image.now job.now) }
    ensures most { result ≤ job.now.delta_size / 10 }
    ensures present { IsTrue (has_all image.now job.now.extra (10 * result)) }
{
    let job = job.job();
    let most = entries.min(job.delta_size / 10);
    image.present_bytes(job.extra, 10 * most) / 10
}

/// The completion record of a create whose entry for a block has no room: overflow where the maximum is reached, else
/// a write fault.
fn crowded(image: &Image, job: &Checked, room: u32, block: u16) -> Record
    requires operation { op_of job.now ≡ Some CreateDelta }
    requires most { room ≤ job.now.delta_size / 10 }
    requires stops { room < job.now.delta_size / 10 → has_all image.now (job.now.extra + 10 * room) 10 ≡ false }
    ensures { result ≡ delta.crowded image.now job.now room block }
{
    let job = job.job();
    let delta_size = 10 * room;
    if delta_size == job.delta_size {
        return full_record(job, block);
    }
    let place = job.extra + u64::from(delta_size);
    Record {
        status: Status::WriteFault,
        result: 0,
        completed: 8 * u32::from(block),
        fault: place + u64::from(image.present_bytes(place, 10)),
        delta_size,
    }
}

/// The completion record of a create whose entries were all put: a read fault at the first block that is not readable,
/// else the end.
fn finished(_image: &Image, job: &Checked, fault: Option<(u32, u64)>, entries: u32) -> Record
    requires operation { op_of job.now ≡ Some CreateDelta }
    requires most { entries ≤ job.now.delta_size / 10 }
    requires fault { fault ≡ create_fault _image.now job.now 0 (job.now.size / 8) }
    ensures { result ≡ delta.written_out _image.now job.now entries }
{
    let job = job.job();
    let delta_size = 10 * entries;
    match fault {
        Some((block, place)) => Record {
            status: Status::ReadFault,
            result: 0,
            completed: 8 * block,
            fault: place,
            delta_size,
        },
        None => finished_record(job, delta_size),
    }
}

/// The put of the first `room` ones of the staged entries.
fn record_puts<'a>(job: &Checked, room: u32, staged: Region<'a>) -> Puts<'a>
    requires most { room ≤ job.now.delta_size / 10 }
    requires within { 10 * room ≤ length staged.bytes }
    ensures { puts_of result ≡ joined.record_puts job.now room staged.entry.bytes }
{
    if room == 0 {
        return Puts::Nothing;
    }
    let mut bytes = staged;
    bytes.shorten(10 * room);
    Puts::Staged {
        first: job.job().extra,
        second: None,
        bytes,
    }
}
