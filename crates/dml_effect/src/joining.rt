//! The pieces of a job's chunks, joined to its effect.
ghost use Rattle.std.specs.Prelude.{◌≡◌, ◌≢◌, ◌+◌, ◌-◌, ◌^◌, ◌<◌, ◌≤◌, false, Some, IsTrue, MatchOption, ⊤};
ghost use Rattle.std.specs.Iterator.{IsFinite};
ghost use Rattle.dml_types.specs.declared.operations.Op.{Op};
ghost use Rattle.dml_types.specs.declared.operations.Op.TheVariants.{ApplyDelta, CreateDelta};
ghost use Rattle.dml_types.specs.Job.{op_of};
ghost use Rattle.dml_types.specs.Memory.{IsMemory, puts_made};
ghost use Rattle.dml_types.specs.Refusal.{need};
ghost use Rattle.dml_types.specs.Step.{effect};
ghost use Rattle.dml_types.specs.Bytewise.{lowest_done, operation_direction};
ghost use Rattle.dml_scan.specs.Found.{done_count};
ghost use Rattle.dml_scan.specs.Work.{IsWorkDirection};
ghost use Rattle.dml_desc.specs.Checked.{checked_effect, checked_step};
ghost use Rattle.dml_effect.specs.Chunks.{GoesByOffsets, IsWholeScan, IsBehind, YieldsScans};
ghost use Rattle.dml_effect.specs.Effects.{are_present, puts_of, some_puts};
ghost use Rattle.dml_effect.specs.Joined.{found_joined, is_over, staged_joined};
ghost use Rattle.dml_effect.specs.Joined as joined;

use crate::effects::{Effect, Puts};
use crate::records::scanned_record;
use dml_arena::Region;
use dml_desc::Checked;
use dml_image::Image;
use dml_scan::{ScanPiece, work_direction};
use dml_types::{Direction, Found, Job, Op};

/// Joins the pieces of all chunks of a job that is scanned, upwards, to its effect: of a move, a fill, a dualcast
/// or a compare. A no-op has no pieces.
///
/// The first stop in the order of work decides; what lies behind it is not put.
pub fn join_found<'a, I: Iterator<Item = ScanPiece<'a>> + Drop>(
    image: &Image,
    job: &Checked,
    pieces: I,
) -> Effect<'a>
    requires operation { GoesByOffsets job.now }
    requires can { I.can_next pieces }
    requires ends { IsFinite (I.remaining pieces) }
    requires chunks { YieldsScans I.next_gives image.now job.now pieces }
    ensures answer { result.answer ≡ (checked_step image.now job.now).1 }
    ensures puts { result.puts ≡ some_puts (checked_effect image.now job.now).puts }
    ensures image { puts_made image.now result.puts ≡ (checked_step image.now job.now).0 }
    ensures present { IsTrue (are_present image.now result.puts) }
{
    let direction = work_direction(job);
    let whole = join_pieces(image, job, direction, pieces);
    effect_of(image, job, direction, whole)
}

/// The pieces of all chunks, joined to one; none where there are none.
fn join_pieces<'a, I: Iterator<Item = ScanPiece<'a>> + Drop>(
    _image: &Image,
    job: &Checked,
    direction: Direction,
    pieces: I,
) -> Option<ScanPiece<'a>>
    requires direction { IsWorkDirection job.now direction }
    requires can { I.can_next pieces }
    requires ends { IsFinite (I.remaining pieces) }
    requires chunks { YieldsScans I.next_gives _image.now job.now pieces }
    ensures whole { IsWholeScan _image.now job.now result }
{
    let mut whole = None;
    for piece in pieces {
        whole = Some(match whole {
            None => piece,
            Some(below) => join_neighbours(direction, below, piece),
        });
    }
    whole
}

/// One piece of two neighbouring ones.
fn join_neighbours<'a>(
    direction: Direction,
    below: ScanPiece<'a>,
    above: ScanPiece<'a>,
) -> ScanPiece<'a>
    requires beside { is_over direction below.found ≡ false → IsBehind below.staged above.staged }
    requires order { (below.from ≤ below.to) × (above.from ≡ below.to) × (above.from ≤ above.to) }
    requires below_done { done_count 0 below.found ≤ below.to - below.from }
    requires above_done { done_count 0 above.found ≤ above.to - above.from }
    ensures chunk { (result.from ≡ below.entry.from) × (result.to ≡ above.entry.to) }
    ensures found { result.found ≡ found_joined direction (below.entry.to - below.entry.from) below.entry.found
        (above.entry.to - above.entry.from) above.entry.found }
    ensures staged { result.staged.bytes ≡ staged_joined direction below.entry.found below.entry.staged.bytes
        above.entry.found above.entry.staged.bytes }
    ensures opening { is_over direction result.found ≡ false → result.staged.opening ≡ above.entry.staged.opening }
    ensures end { is_over direction result.found ≡ false
        → result.staged.start + result.staged.room ≡ above.entry.staged.start + above.entry.staged.room }
{
    let (from, to) = (below.from, above.to);
    match direction {
        Direction::Forward => ScanPiece {
            from,
            to,
            found: then_found(below.to - below.from, below.found, above.found),
            staged: match below.found {
                Found::All => below.staged.join(above.staged),
                _ => below.staged,
            },
        },
        Direction::Backward => ScanPiece {
            from,
            to,
            found: then_found(above.to - above.from, above.found, below.found),
            staged: match above.found {
                Found::All => below.staged.join(above.staged),
                _ => above.staged,
            },
        },
    }
}

/// How two parts end together, in the order of work; the first has `len` offsets.
fn then_found(len: u32, first: Found, next: Found) -> Found
    requires { len + done_count 0 next < 2 ^ 32 }
    ensures { result ≡ joined.then_found len first next }
{
    match first {
        Found::All => after(len, next),
        stopped => stopped,
    }
}

/// How a part ended, counted from `len` offsets before it.
fn after(len: u32, found: Found) -> Found
    requires { len + done_count 0 found < 2 ^ 32 }
    ensures { result ≡ joined.after len found }
{
    match found {
        Found::All => Found::All,
        Found::Differs { done } => Found::Differs { done: len + done },
        Found::Fault { done, place, write } => Found::Fault {
            done: len + done,
            place,
            write,
        },
    }
}

/// The effect of a job whose pieces are joined to one, or of one that has none.
fn effect_of<'a>(
    image: &Image,
    job: &Checked,
    direction: Direction,
    whole: Option<ScanPiece<'a>>,
) -> Effect<'a>
    requires operation { GoesByOffsets job.now }
    requires direction { IsWorkDirection job.now direction }
    requires whole { IsWholeScan image.now job.now whole }
    ensures answer { result.answer ≡ (checked_step image.now job.now).1 }
    ensures puts { result.puts ≡ some_puts (checked_effect image.now job.now).puts }
    ensures image { puts_made image.now result.puts ≡ (checked_step image.now job.now).0 }
    ensures present { IsTrue (are_present image.now result.puts) }
{
    let _pages = image.pages(); // says what every image keeps
    let op = job.op();
    let job = job.job();
    match whole {
        None => Effect {
            answer: scanned_record(op, job, direction, Found::All),
            puts: Puts::Nothing,
        },
        Some(piece) => {
            let answer = scanned_record(op, job, direction, piece.found);
            let puts = scanned_puts(op, job, direction, answer.completed, piece.staged);
            Effect { answer, puts }
        }
    }
}

/// The puts of a job that did `done` bytes of its range.
fn scanned_puts<'a>(
    op: Op,
    job: &Job,
    direction: Direction,
    done: u32,
    staged: Region<'a>,
) -> Puts<'a>
    requires within { done ≤ job.now.size }
    requires ends { op ≡ Op.Move → job.now.target + job.now.size ≤ 2 ^ 64 }
    ensures { puts_of result ≡ joined.scanned_puts op job.now direction done staged.entry.bytes }
{
    if done == 0 {
        return Puts::Nothing;
    }
    match op {
        Op::Move => Puts::Staged {
            first: job.target + u64::from(direction.lowest_done(job.size, done)),
            second: None,
            bytes: staged,
        },
        Op::Dualcast => Puts::Staged {
            first: job.target,
            second: Some(job.extra),
            bytes: staged,
        },
        Op::Fill => Puts::Pattern {
            addr: job.target,
            len: done,
            pattern: job.source,
        },
        _ => Puts::Nothing,
    }
}
