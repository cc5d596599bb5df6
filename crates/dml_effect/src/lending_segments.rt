//! Jobs over memory that a caller lends in segments.
ghost use Rattle.std.specs.Prelude.{◌≡◌, ◌^◌, ◌<◌, ◌≤◌, IfOk, OnErr, OnOk, length, map};
ghost use Rattle.dml_types.specs.Job.{unfenced};
ghost use Rattle.dml_types.specs.Refusal.{need};
ghost use Rattle.dml_types.specs.Step.{batch, memory_after, records_of, step};
ghost use Rattle.dml_desc.specs.Descriptor.{bytes_of_record, decoded};
ghost use Rattle.dml_image.specs.Pieces.{AreSegments, pieces_memory, pieces_of};
ghost use Rattle.dml_effect.specs.Batches.{HaveRoom};
ghost use Rattle.dml_effect.specs.Straight.{TakesStaging};

use crate::batches::submit_batch_bytes_to;
use crate::carrying::submit_to;
use crate::lists::submit_list_bytes_to;
use dml_arena::Arena;
use dml_image::{Image, Segment, put_back, take_out};
use dml_types::{BatchRecord, Job, Record};
use std::alloc::{AllocError, Global};

/// Checks a job and carries it out over segments of the caller's memory, which hold what the job wrote afterwards; or
/// answers its refusal, and changes nothing then.
///
/// [`are_segments`](dml_image::are_segments) is the test of the segments, and [`takes_staging`](crate::takes_staging)
/// of whether room is asked for.
///
/// # Errors
/// There is no memory for a list of the segments; then all stays as it was.
pub fn submit_over_segments(
    alloc: Global,
    segments: &mut [Segment<'_>],
    arena: &mut Arena,
    job: &Job,
    staging: u32,
) -> Result<Record, AllocError>
    requires segments { AreSegments (pieces_of segments.old) }
    requires staging { TakesStaging job.now staging → need job.now ≤ arena.old.size }
    ensures memory { OnOk result (pieces_memory (pieces_of segments.new)
        ≡ (step (pieces_memory (pieces_of segments.old)) job.now staging).0) }
    ensures answer { IfOk result (λ answer.
        answer ≡ (step (pieces_memory (pieces_of segments.old)) job.now staging).1) }
    ensures unchanged { OnErr result (segments.new ≡ segments.old) }
    ensures segments { AreSegments (pieces_of segments.new) }
    ensures arena { arena.new ≡ arena.old }
{
    let mut image = lend(alloc, segments)?;
    let answer = submit_to(&mut image, arena, job, staging);
    put_back(segments, image.into_segments());
    Ok(answer)
}

/// Carries out the jobs of some descriptors one after another over segments of the caller's memory, as
/// [`submit_list_bytes_to`] does on an image: they are lent once for all of them.
///
/// # Errors
/// There is no memory for a list of the segments; then all stays as it was.
pub fn submit_list_over_segments(
    alloc: Global,
    segments: &mut [Segment<'_>],
    arena: &mut Arena,
    descriptors: &[[u8; 64]],
    staging: u32,
    answers: &mut [[u8; 32]],
) -> Result<(), AllocError>
    requires segments { AreSegments (pieces_of segments.old) }
    requires size { length answers.old ≡ length descriptors.now }
    requires staging { HaveRoom (map decoded descriptors.now) staging arena.old.size }
    ensures memory { OnOk result (pieces_memory (pieces_of segments.new)
        ≡ memory_after (pieces_memory (pieces_of segments.old)) (map decoded descriptors.now) staging) }
    ensures records { OnOk result (answers.new ≡ map bytes_of_record
        (records_of (pieces_memory (pieces_of segments.old)) (map decoded descriptors.now) staging)) }
    ensures unchanged { OnErr result ((segments.new ≡ segments.old) × (answers.new ≡ answers.old)) }
    ensures segments { AreSegments (pieces_of segments.new) }
    ensures arena { arena.new ≡ arena.old }
{
    let mut image = lend(alloc, segments)?;
    submit_list_bytes_to(&mut image, arena, descriptors, staging, answers);
    put_back(segments, image.into_segments());
    Ok(())
}

/// Carries out a batch of descriptors over segments of the caller's memory, as [`submit_batch_bytes_to`] does on an
/// image, and returns the batch's own record.
///
/// # Errors
/// There is no memory for a list of the segments; then all stays as it was.
pub fn submit_batch_over_segments(
    alloc: Global,
    segments: &mut [Segment<'_>],
    arena: &mut Arena,
    descriptors: &[[u8; 64]],
    staging: u32,
    answers: &mut [[u8; 32]],
) -> Result<BatchRecord, AllocError>
    requires segments { AreSegments (pieces_of segments.old) }
    requires few { length descriptors.now < 2 ^ 32 }
    requires size { length answers.old ≡ length descriptors.now }
    requires staging { HaveRoom (map unfenced (map decoded descriptors.now)) staging arena.old.size }
    ensures memory { OnOk result (pieces_memory (pieces_of segments.new)
        ≡ (batch (pieces_memory (pieces_of segments.old)) (map decoded descriptors.now) staging).0) }
    ensures answer { IfOk result (λ answer.
        answer ≡ (batch (pieces_memory (pieces_of segments.old)) (map decoded descriptors.now) staging).1) }
    ensures records { OnOk result (answers.new ≡ map bytes_of_record
        (batch (pieces_memory (pieces_of segments.old)) (map decoded descriptors.now) staging).2) }
    ensures unchanged { OnErr result ((segments.new ≡ segments.old) × (answers.new ≡ answers.old)) }
    ensures segments { AreSegments (pieces_of segments.new) }
    ensures arena { arena.new ≡ arena.old }
{
    let mut image = lend(alloc, segments)?;
    let outcome = submit_batch_bytes_to(&mut image, arena, descriptors, staging, answers);
    put_back(segments, image.into_segments());
    Ok(outcome)
}

/// Segments as an image; until they are put back, they have no bytes in the slice.
fn lend<'a>(alloc: Global, segments: &mut [Segment<'a>]) -> Result<Image<'a>, AllocError>
    requires { AreSegments (pieces_of segments.old) }
    ensures image { IfOk result (λ image. image ≡ pieces_memory (pieces_of segments.old)) }
    ensures as_many { length segments.new ≡ length segments.old }
    ensures unchanged { OnErr result (segments.new ≡ segments.old) }
{
    let Ok(mut list) = Vec::with_capacity(alloc, segments.len()) else {
        return Err(AllocError);
    };
    take_out(segments, &mut list);
    Ok(Image::over_segments(list))
}
