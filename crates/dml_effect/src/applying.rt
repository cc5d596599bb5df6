//! The pieces of an apply's chunks, joined to its effect.
ghost use Rattle.std.specs.Prelude.{◌≡◌, ◌+◌, ◌*◌, ◌^◌, ◌<◌, ◌≤◌, false, None, Some, IfSome, IsTrue};
ghost use Rattle.std.specs.Prelude.{is_some, option_map, if◌then◌else◌};
ghost use Rattle.std.specs.Iterator.{IsFinite};
ghost use Rattle.std.specs.Option.{option_or};
ghost use Rattle.dml_types.specs.declared.operations.Op.TheVariants.{ApplyDelta};
ghost use Rattle.dml_types.specs.declared.statuses.Status.TheVariants.{NotRising};
ghost use Rattle.dml_types.specs.Job.{op_of};
ghost use Rattle.dml_types.specs.Memory.{puts_made};
ghost use Rattle.dml_types.specs.Refusal.{need};
ghost use Rattle.dml_types.specs.Step.{effect};
ghost use Rattle.dml_delta.specs.Bad.{bad_of};
ghost use Rattle.dml_desc.specs.Checked.{checked_effect, checked_step};
ghost use Rattle.dml_effect.specs.Applies.{applied_record, falls};
ghost use Rattle.dml_effect.specs.Chunks.{IsApplyFrom, IsBehind, IsWholeApply, YieldsApplies};
ghost use Rattle.dml_effect.specs.Effects.{are_present, some_puts};

use crate::effects::{Effect, Puts};
use crate::records::ended;
use dml_delta::{ApplyPiece, BadEntry};
use dml_desc::Checked;
use dml_image::Image;
use dml_types::{Record, Status};

/// Joins the pieces of all chunks of an apply, upwards, to its effect. An apply of an empty record has no pieces.
///
/// The first bad entry decides, and those before it are put. The offsets of the entries have to rise from chunk to
/// chunk too.
pub fn join_apply<'a, I: Iterator<Item = ApplyPiece<'a>> + Drop>(
    image: &Image,
    job: &Checked,
    pieces: I,
) -> Effect<'a>
    requires operation { op_of job.now ≡ Some ApplyDelta }
    requires can { I.can_next pieces }
    requires ends { IsFinite (I.remaining pieces) }
    requires chunks { YieldsApplies I.next_gives image.now job.now pieces }
    ensures answer { result.answer ≡ (checked_step image.now job.now).1 }
    ensures puts { result.puts ≡ some_puts (checked_effect image.now job.now).puts }
    ensures image { puts_made image.now result.puts ≡ (checked_step image.now job.now).0 }
    ensures present { IsTrue (are_present image.now result.puts) }
{
    let whole = join_pieces(image, job, pieces);
    effect_of(image, job, whole)
}

/// The pieces of all chunks, joined to one; none where there are none.
fn join_pieces<'a, I: Iterator<Item = ApplyPiece<'a>> + Drop>(
    image: &Image,
    job: &Checked,
    pieces: I,
) -> Option<ApplyPiece<'a>>
    requires can { I.can_next pieces }
    requires ends { IsFinite (I.remaining pieces) }
    requires chunks { YieldsApplies I.next_gives image.now job.now pieces }
    ensures whole { IsWholeApply image.now job.now result }
{
    let mut whole = None;
    for piece in pieces {
        whole = Some(match whole {
            None => piece,
            Some(below) => join_neighbours(image, job, below, piece),
        });
    }
    whole
}

/// The piece of all entries before a chunk and that of the chunk, joined.
fn join_neighbours<'a>(
    _image: &Image,
    _job: &Checked,
    below: ApplyPiece<'a>,
    above: ApplyPiece<'a>,
) -> ApplyPiece<'a>
    requires below { IsApplyFrom _image.now _job.now 0 below }
    requires above { IsApplyFrom _image.now _job.now below.to above }
    requires beside { is_some below.bad ≡ false → IsBehind below.staged above.staged }
    ensures value { IsApplyFrom _image.now _job.now 0 result }
    ensures to { result.to ≡ above.entry.to }
    ensures opening { is_some result.bad ≡ false → result.staged.opening ≡ above.entry.staged.opening }
    ensures end { is_some result.bad ≡ false
        → result.staged.start + result.staged.room ≡ above.entry.staged.start + above.entry.staged.room }
{
    let (from, to) = (below.from, above.to);
    let stop = stop_before(below.bad, below.last, above.from, above.first);
    if stop.is_some() {
        return ApplyPiece {
            from,
            to,
            bad: stop,
            first: below.first,
            last: below.last,
            staged: below.staged,
        };
    }
    ApplyPiece {
        from,
        to,
        bad: above.bad,
        first: if from == above.from {
            above.first
        } else {
            below.first
        },
        last: above.last.or(below.last),
        staged: below.staged.join(above.staged),
    }
}

/// The bad entry before a chunk, or else the chunk's first one where its offset does not rise above the last good one
/// before it.
fn stop_before(
    bad: Option<BadEntry>,
    last: Option<u16>,
    entry: u32,
    first: Option<u16>,
) -> Option<BadEntry>
    ensures { option_map bad_of result ≡ option_or (option_map bad_of bad)
        (if falls last first then Some (entry, record { status = NotRising; address = 0 }) else None) }
{
    match (bad, last, first) {
        (Some(bad), _, _) => Some(bad),
        (None, Some(last), Some(first)) if first <= last => Some(BadEntry {
            entry,
            status: Status::NotRising,
            place: 0,
        }),
        _ => None,
    }
}

/// The effect of an apply whose pieces are joined to one, or of one that has none.
pub fn effect_of<'a>(image: &Image, job: &Checked, whole: Option<ApplyPiece<'a>>) -> Effect<'a>
    requires operation { op_of job.now ≡ Some ApplyDelta }
    requires whole { IsWholeApply image.now job.now whole }
    ensures answer { result.answer ≡ (checked_step image.now job.now).1 }
    ensures puts { result.puts ≡ some_puts (checked_effect image.now job.now).puts }
    ensures image { puts_made image.now result.puts ≡ (checked_step image.now job.now).0 }
    ensures present { IsTrue (are_present image.now result.puts) }
{
    let _pages = image.pages(); // says what every image keeps
    let target = job.job().target;
    match whole {
        None => Effect {
            answer: ended(Status::Success, 0, 0),
            puts: Puts::Nothing,
        },
        Some(
            ApplyPiece {
                to,
                bad,
                staged,
                ..
            },
        ) => Effect {
            answer: applied_record(to, bad),
            puts: Puts::Entries {
                target,
                entries: staged,
            },
        },
    }
}

/// The completion record of an apply of `count` entries, by its first bad one.
fn applied_record(count: u32, bad: Option<BadEntry>) -> Record
    requires count { 10 * count < 2 ^ 32 }
    requires bad { IfSome bad (λ b. b.entry ≤ count) }
    ensures { result ≡ applied_record count (option_map bad_of bad) }
{
    match bad {
        None => ended(Status::Success, 0, 10 * count),
        Some(
            BadEntry {
                entry,
                status,
                place,
            },
        ) => Record {
            status,
            result: 0,
            completed: 10 * entry,
            fault: place,
            delta_size: 0,
        },
    }
}
