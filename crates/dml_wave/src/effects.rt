//! The effects of a wave's jobs.
ghost use Rattle.std.specs.Prelude.{◌≡◌, ◌<◌, ◌≤◌, [], length, map, vec_capacity};
ghost use Rattle.std.specs.List.{All, AllZip};
ghost use Rattle.dml_levels.specs.Tasks.{IsChunk};
ghost use Rattle.dml_pool.specs.Slots.{behind};
ghost use Rattle.dml_wave.specs.Effects.{HoldJob, HoldWave, IsEffectAt, IsEffectOf};
ghost use Rattle.dml_wave.specs.Effects as word;
ghost use Rattle.dml_wave.specs.Waves.{busy, is_busy};

use dml_delta::{ApplyPiece, CreatePiece};
use dml_desc::Checked;
use dml_effect::{Effect, join_apply, join_create, join_found};
use dml_image::Image;
use dml_levels::task_count;
use dml_pool::{Piece, Slot};
use dml_scan::ScanPiece;
use dml_types::Op;

/// What the job at a place does.
#[derive(Drop)]
pub(crate) struct JobEffect<'a> {
    pub(crate) place: u32,
    pub(crate) effect: Effect<'a>,
}

/// The effects of the jobs at a wave's places on the image as it stands, in the wave's order. A no-op has none.
///
/// The slots refer to the outcomes of the jobs' tasks, job after job. The effects go into a list that has room for them.
pub(crate) fn effects_of<'a>(
    image: &Image,
    jobs: &[Checked],
    wave: &[u32],
    chunk: u32,
    slots: &mut [Slot<'_, 'a>],
    mut effects: Vec<JobEffect<'a>>,
) -> Vec<JobEffect<'a>>
    requires places { All (λ i. i < length jobs.now) wave.now }
    requires chunk { IsChunk chunk }
    requires slots { HoldWave image.now jobs.now chunk wave.now (map behind slots.old) }
    requires empty { effects.items ≡ [] }
    requires room { length wave.now ≤ vec_capacity effects }
    ensures { AllZip (IsEffectAt image.now jobs.now) (busy jobs.now wave.now) result.items }
{
    let mut from = 0;
    for place in wave {
        let job = &jobs[*place as usize];
        let to = from + task_count(job, chunk) as usize;
        if is_busy(job.op()) {
            let effect = effect_of(image, job, &mut slots[from..to]);
            effects.push_reserved(JobEffect {
                place: *place,
                effect,
            });
        }
        from = to;
    }
    effects
}

/// Whether an operation does anything.
pub fn is_busy(op: Op) -> bool
    ensures { result ≡ is_busy op }
{
    match op {
        Op::NoOp => false,
        _ => true,
    }
}

/// The effect of a job, whose tasks' outcomes are taken out of where they lie.
fn effect_of<'a>(image: &Image, job: &Checked, slots: &mut [Slot<'_, 'a>]) -> Effect<'a>
    requires slots { HoldJob image.now job.now (map behind slots.old) }
    ensures { IsEffectOf image.now job.now result }
{
    match job.op() {
        Op::CreateDelta => join_create(image, job, slots.iter_mut().filter_map(take_create)),
        Op::ApplyDelta => join_apply(image, job, slots.iter_mut().filter_map(take_apply)),
        _ => join_found(image, job, slots.iter_mut().filter_map(take_scan)),
    }
}

/// The scan that a slot refers to.
fn take_scan<'a>(slot: &mut Slot<'_, 'a>) -> Option<ScanPiece<'a>>
    ensures { result ≡ word.slot_scan (behind slot.old) }
{
    match slot.take()?.take()?.piece {
        Piece::Scan(piece) => Some(piece),
        _ => None,
    }
}

/// The piece of a create that a slot refers to.
fn take_create<'a>(slot: &mut Slot<'_, 'a>) -> Option<CreatePiece<'a>>
    ensures { result ≡ word.slot_create (behind slot.old) }
{
    match slot.take()?.take()?.piece {
        Piece::Create(piece) => Some(piece),
        _ => None,
    }
}

/// The piece of an apply that a slot refers to.
fn take_apply<'a>(slot: &mut Slot<'_, 'a>) -> Option<ApplyPiece<'a>>
    ensures { result ≡ word.slot_apply (behind slot.old) }
{
    match slot.take()?.take()?.piece {
        Piece::Apply(piece) => Some(piece),
        _ => None,
    }
}
