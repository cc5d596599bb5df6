//! Jobs over memory that a caller lends in one piece, of any size.
ghost use Rattle.std.specs.Prelude.{◌≡◌, ◌↔◌, ◌^◌, ◌<◌, ◌≤◌, IsTrue, length, map};
ghost use Rattle.dml_types.specs.Job.{unfenced};
ghost use Rattle.dml_types.specs.Refusal.{need};
ghost use Rattle.dml_types.specs.Step.{batch, memory_after, records_of, step};
ghost use Rattle.dml_desc.specs.Descriptor.{bytes_of_record, decoded};
ghost use Rattle.dml_effect.specs.Batches.{HaveRoom};
ghost use Rattle.dml_effect.specs.Pages.{IsWholePages, all_present};
ghost use Rattle.dml_effect.specs.Straight.{TakesStaging};

use crate::batches::submit_batch_bytes_to;
use crate::carrying::{submit_straight_to, submit_to};
use crate::lists::submit_list_bytes_to;
use dml_arena::Arena;
use dml_image::{Whole, are_whole};
use dml_types::{BatchRecord, Job, Record};

/// Whether these bytes are 1 to 2^32 - 1 whole pages.
pub fn are_whole_pages(content: &[u8]) -> bool
    ensures { IsTrue result ↔ IsWholePages content.now }
{
    are_whole(content.len())
}

/// Checks a job and carries it out over the caller's bytes, which are 1 to 2^32 - 1 whole pages from address 0 on, all
/// present; or answers its refusal, and changes nothing then.
///
/// [`are_whole_pages`] is the test of the pages, and [`takes_staging`](crate::takes_staging) of whether room is asked
/// for.
pub fn submit_over_whole(content: &mut [u8], arena: &mut Arena, job: &Job, staging: u32) -> Record
    requires pages { IsWholePages content.old }
    requires staging { TakesStaging job.now staging → need job.now ≤ arena.old.size }
    ensures content { content.new ≡ (step (all_present content.old) job.now staging).0.bytes }
    ensures answer { result ≡ (step (all_present content.old) job.now staging).1 }
    ensures arena { arena.new ≡ arena.old }
{
    let mut whole = Whole::new(content);
    let mut image = whole.take();
    let answer = submit_to(&mut image, arena, job, staging);
    whole.put(image);
    answer
}

/// The same for a job that takes no staging.
pub fn submit_straight_over_whole(content: &mut [u8], job: &Job, staging: u32) -> Record
    requires pages { IsWholePages content.old }
    requires staging { TakesStaging job.now staging → ⊥ }
    ensures content { content.new ≡ (step (all_present content.old) job.now staging).0.bytes }
    ensures answer { result ≡ (step (all_present content.old) job.now staging).1 }
{
    let mut pages = Whole::new(content);
    let mut image = pages.take();
    let answer = submit_straight_to(&mut image, job, staging);
    pages.put(image);
    answer
}

/// Carries out the jobs of some descriptors one after another over the caller's bytes, as [`submit_list_bytes_to`] does
/// on an image: the bytes are lent once for all of them. They are as in [`submit_over_whole`].
pub fn submit_list_over(
    content: &mut [u8],
    arena: &mut Arena,
    descriptors: &[[u8; 64]],
    staging: u32,
    answers: &mut [[u8; 32]],
)
    requires pages { IsWholePages content.old }
    requires size { length answers.old ≡ length descriptors.now }
    requires staging { HaveRoom (map decoded descriptors.now) staging arena.old.size }
    ensures content { content.new
        ≡ (memory_after (all_present content.old) (map decoded descriptors.now) staging).bytes }
    ensures records { answers.new
        ≡ map bytes_of_record (records_of (all_present content.old) (map decoded descriptors.now) staging) }
    ensures arena { arena.new ≡ arena.old }
{
    let mut pages = Whole::new(content);
    let mut image = pages.take();
    submit_list_bytes_to(&mut image, arena, descriptors, staging, answers);
    pages.put(image);
}

/// Carries out a batch of descriptors over the caller's bytes, as [`submit_batch_bytes_to`] does on an image, and
/// returns the batch's own record. The bytes are as in [`submit_over_whole`].
pub fn submit_batch_over(
    content: &mut [u8],
    arena: &mut Arena,
    descriptors: &[[u8; 64]],
    staging: u32,
    answers: &mut [[u8; 32]],
) -> BatchRecord
    requires pages { IsWholePages content.old }
    requires few { length descriptors.now < 2 ^ 32 }
    requires size { length answers.old ≡ length descriptors.now }
    requires staging { HaveRoom (map unfenced (map decoded descriptors.now)) staging arena.old.size }
    ensures content { content.new
        ≡ (batch (all_present content.old) (map decoded descriptors.now) staging).0.bytes }
    ensures answer { result ≡ (batch (all_present content.old) (map decoded descriptors.now) staging).1 }
    ensures records { answers.new
        ≡ map bytes_of_record (batch (all_present content.old) (map decoded descriptors.now) staging).2 }
    ensures arena { arena.new ≡ arena.old }
{
    let mut pages = Whole::new(content);
    let mut image = pages.take();
    let outcome = submit_batch_bytes_to(&mut image, arena, descriptors, staging, answers);
    pages.put(image);
    outcome
}
