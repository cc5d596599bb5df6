//! Jobs over the caller's own pages, and what they share with those over pages in one piece of any size.
ghost use Rattle.std.specs.Prelude.{◌≡◌, ◌≢◌, ◌↔◌, ◌+◌, ◌<◌, ◌≤◌, ◌⊎◌, IfOk, IfSome, IsErr, IsSome, IsTrue, None, Some};
ghost use Rattle.std.specs.Prelude.{length, map};
ghost use Rattle.dml_types.specs.declared.operations.Op.TheVariants.{Move};
ghost use Rattle.dml_types.specs.Job.{op_of};
ghost use Rattle.dml_types.specs.Refusal.{need};
ghost use Rattle.dml_types.specs.Step.{memory_after, records_of, step};
ghost use Rattle.dml_desc.specs.Descriptor.{bytes_of_record, decoded};
ghost use Rattle.dml_c.specs.Bases as bases;
ghost use Rattle.dml_c.specs.Needs.{IsEnough, IsGreatestNeed, IsOwnNeed, TakesSome, room_of};
ghost use Rattle.dml_effect.specs.Pages.{IsPages, IsWholePages, all_present};
ghost use Rattle.dml_effect.specs.Straight.{TakesStaging};

use crate::bases::{answered_at, counted};
use crate::codes::{DONE, NO_MEMORY, NOT_AS_MANY, NOT_PAGES};
use dml_arena::{Arena, ArenaError};
use dml_direct::move_within;
use dml_effect::{
    are_pages, by_fields, submit_over_whole, submit_straight_over_whole, takes_staging,
};
use dml_types::{Job, Op, Record, Status};
use std::alloc::Global;

/// Carries out the job of a descriptor over the caller's bytes, whose addresses begin at 0 and whose pages are all
/// present, and writes its completion record.
#[unsafe(no_mangle)]
pub extern "C" fn kazovuni_submit_over(
    alloc: Global,
    bytes: &mut [u8],
    descriptor: &[u8; 64],
    staging: u32,
    answer: &mut [u8; 32],
) -> u8
    ensures codes { result ≤ 2 }
    ensures not_pages { (result ≢ 1) ↔ IsPages bytes.old }
    ensures no_memory { result ≡ 2 → TakesStaging (decoded descriptor.now) staging }
    ensures content { result ≡ 0 → bytes.new ≡ (step (all_present bytes.old) (decoded descriptor.now) staging).0.bytes }
    ensures record { result ≡ 0 → answer.new
        ≡ bytes_of_record (step (all_present bytes.old) (decoded descriptor.now) staging).1 }
    ensures unchanged { result ≢ 0 → (bytes.new ≡ bytes.old) × (answer.new ≡ answer.old) }
{
    if !are_pages(bytes) {
        return NOT_PAGES;
    }
    let Some(record) = submit_short(alloc, bytes, &dml_desc::decode(descriptor), staging) else {
        return NO_MEMORY;
    };
    *answer = dml_desc::record_bytes(&record);
    DONE
}

/// Carries out the jobs of some descriptors one after another over the caller's bytes, whose addresses begin at 0 and
/// whose pages are all present, and writes the completion record of each.
#[unsafe(no_mangle)]
pub extern "C" fn kazovuni_submit_list_over(
    alloc: Global,
    bytes: &mut [u8],
    descriptors: &[[u8; 64]],
    staging: u32,
    answers: &mut [[u8; 32]],
) -> u8
    ensures codes { result ≤ 3 }
    ensures not_pages { (result ≢ 1) ↔ IsPages bytes.old }
    ensures not_as_many { IsPages bytes.old → ((result ≢ 3) ↔ (length answers.old ≡ length descriptors.now)) }
    ensures no_memory { result ≡ 2 → TakesSome descriptors.now staging }
    ensures content { result ≡ 0 → bytes.new
        ≡ (memory_after (all_present bytes.old) (map decoded descriptors.now) staging).bytes }
    ensures records { result ≡ 0 → answers.new
        ≡ map bytes_of_record (records_of (all_present bytes.old) (map decoded descriptors.now) staging) }
    ensures unchanged { result ≢ 0 → (bytes.new ≡ bytes.old) × (answers.new ≡ answers.old) }
{
    if !are_pages(bytes) {
        return NOT_PAGES;
    }
    submit_list(alloc, bytes, descriptors, staging, answers)
}

/// Carries out a list behind the test of its pages, and answers the call's code.
pub fn submit_list(
    alloc: Global,
    bytes: &mut [u8],
    descriptors: &[[u8; 64]],
    staging: u32,
    answers: &mut [[u8; 32]],
) -> u8
    requires pages { IsWholePages bytes.old }
    ensures codes { (result ≡ 0) ⊎ (result ≡ 2) ⊎ (result ≡ 3) }
    ensures not_as_many { (result ≢ 3) ↔ (length answers.old ≡ length descriptors.now) }
    ensures no_memory { result ≡ 2 → TakesSome descriptors.now staging }
    ensures content { result ≡ 0 → bytes.new
        ≡ (memory_after (all_present bytes.old) (map decoded descriptors.now) staging).bytes }
    ensures records { result ≡ 0 → answers.new
        ≡ map bytes_of_record (records_of (all_present bytes.old) (map decoded descriptors.now) staging) }
    ensures unchanged { result ≢ 0 → (bytes.new ≡ bytes.old) × (answers.new ≡ answers.old) }
{
    if descriptors.len() != answers.len() {
        return NOT_AS_MANY;
    }
    let Ok(mut arena) = list_arena(alloc, descriptors, staging) else {
        return NO_MEMORY;
    };
    submit_all(bytes, &mut arena, descriptors, staging, answers);
    DONE
}

/// The same behind its tests: with an arena, or none where no job takes staging.
fn submit_all(
    bytes: &mut [u8],
    arena: &mut Option<Arena>,
    descriptors: &[[u8; 64]],
    staging: u32,
    answers: &mut [[u8; 32]],
)
    requires pages { IsWholePages bytes.old }
    requires staging { IsEnough (room_of arena.old) descriptors.now staging }
    requires as_many { length answers.old ≡ length descriptors.now }
    ensures content { bytes.new ≡ (memory_after (all_present bytes.old) (map decoded descriptors.now) staging).bytes }
    ensures records { answers.new
        ≡ map bytes_of_record (records_of (all_present bytes.old) (map decoded descriptors.now) staging) }
{
    for i in 0..descriptors.len() {
        let job = dml_desc::decode(&descriptors[i]);
        answers[i] = dml_desc::record_bytes(&submit_one(bytes, arena, &job, staging));
    }
}

/// The arena of a list, of as many bytes as the job needs that takes most; none where no job takes staging.
///
/// # Errors
/// There is no memory.
fn list_arena(
    alloc: Global,
    descriptors: &[[u8; 64]],
    staging: u32,
) -> Result<Option<Arena>, ArenaError>
    ensures size { IfOk result (λ arena. IsGreatestNeed (room_of arena) descriptors.now staging) }
    ensures no_memory { IsErr result → TakesSome descriptors.now staging }
{
    let most = greatest_need(descriptors, staging);
    if most == 0 {
        return Ok(None);
    }
    Ok(Some(Arena::new(alloc, most)?))
}

/// The greatest need of the jobs that take staging; 0 where none does.
fn greatest_need(descriptors: &[[u8; 64]], staging: u32) -> u32
    ensures { IsGreatestNeed result descriptors.now staging }
{
    let mut most = 0;
    for i in 0..descriptors.len() {
        let job = dml_desc::decode(&descriptors[i]);
        if takes_staging(&job, staging) {
            most = most.max(dml_desc::need(&job) as u32);
        }
    }
    most
}

/// Carries out a job of a list, whose arena has room for it.
#[inline(always)]
fn submit_one(bytes: &mut [u8], arena: &mut Option<Arena>, job: &Job, staging: u32) -> Record
    requires pages { IsWholePages bytes.old }
    requires staging { TakesStaging job.now staging → need job.now ≤ room_of arena.old }
    ensures content { bytes.new ≡ (step (all_present bytes.old) job.now staging).0.bytes }
    ensures answer { result ≡ (step (all_present bytes.old) job.now staging).1 }
    ensures arena { arena.new ≡ arena.old }
{
    if let Some(Op::Move) = job.op() {
        return submit_move(bytes, job, staging);
    }
    let other = *job;
    by_fields(submit_one_other(bytes, arena, &other, staging))
}

/// The same for a job of any operation. The room is asked for again: a descriptor is read twice, and another thread of
/// C's may have written it in between, against the rule. Such a job is refused.
#[inline(never)]
fn submit_one_other(bytes: &mut [u8], arena: &mut Option<Arena>, job: &Job, staging: u32) -> Record
    requires pages { IsWholePages bytes.old }
    requires staging { TakesStaging job.now staging → need job.now ≤ room_of arena.old }
    ensures content { bytes.new ≡ (step (all_present bytes.old) job.now staging).0.bytes }
    ensures answer { result ≡ (step (all_present bytes.old) job.now staging).1 }
    ensures arena { arena.new ≡ arena.old }
{
    if lacks_room(arena, job, staging) {
        return Record::refused(Status::StagingRefused);
    }
    submit_in(bytes, arena, job, staging)
}

/// Whether a job takes more staging than an arena has.
fn lacks_room(arena: &Option<Arena>, job: &Job, staging: u32) -> bool
    ensures { IsTrue result ↔ TakesStaging job.now staging × (room_of arena.now < need job.now) }
{
    let room = match arena {
        Some(arena) => arena.size(),
        None => 0,
    };
    takes_staging(job, staging) && u64::from(room) < dml_desc::need(job)
}

/// Carries out a job, in an arena or, where it takes no staging, without one.
fn submit_in(bytes: &mut [u8], arena: &mut Option<Arena>, job: &Job, staging: u32) -> Record
    requires pages { IsWholePages bytes.old }
    requires staging { TakesStaging job.now staging → need job.now ≤ room_of arena.old }
    ensures content { bytes.new ≡ (step (all_present bytes.old) job.now staging).0.bytes }
    ensures answer { result ≡ (step (all_present bytes.old) job.now staging).1 }
    ensures arena { arena.new ≡ arena.old }
{
    match arena {
        Some(arena) => submit_over_whole(bytes, arena, job, staging),
        None => submit_straight_over_whole(bytes, job, staging),
    }
}

/// Carries out a job in an arena of its own; `None` where there is no memory for it.
fn submit_alone(alloc: Global, bytes: &mut [u8], job: &Job, staging: u32) -> Option<Record>
    requires pages { IsWholePages bytes.old }
    ensures content { IsSome result → bytes.new ≡ (step (all_present bytes.old) job.now staging).0.bytes }
    ensures answer { IfSome result (λ answer. answer ≡ (step (all_present bytes.old) job.now staging).1) }
    ensures no_memory { result ≡ None → TakesStaging job.now staging × (bytes.new ≡ bytes.old) }
{
    let Ok(mut arena) = job_arena(alloc, job, staging) else {
        return None;
    };
    Some(by_fields(submit_in(bytes, &mut arena, job, staging)))
}

/// The same, where a move within the pages goes a shorter way. Any other job is given as a copy: so a move has no frame
/// but its own, and is kept in registers.
#[inline(always)]
pub fn submit_short(alloc: Global, bytes: &mut [u8], job: &Job, staging: u32) -> Option<Record>
    requires pages { IsWholePages bytes.old }
    ensures content { IsSome result → bytes.new ≡ (step (all_present bytes.old) job.now staging).0.bytes }
    ensures answer { IfSome result (λ answer. answer ≡ (step (all_present bytes.old) job.now staging).1) }
    ensures no_memory { result ≡ None → TakesStaging job.now staging × (bytes.new ≡ bytes.old) }
{
    if let Some(Op::Move) = job.op() {
        return Some(submit_move(bytes, job, staging));
    }
    let other = *job;
    submit_alone(alloc, bytes, &other, staging)
}

/// The arena of a single job, of as many bytes as it needs; none where it takes no staging.
///
/// # Errors
/// There is no memory.
fn job_arena(alloc: Global, job: &Job, staging: u32) -> Result<Option<Arena>, ArenaError>
    ensures size { IfOk result (λ arena. IsOwnNeed (room_of arena) job.now staging) }
    ensures no_memory { IsErr result → TakesStaging job.now staging }
{
    if !takes_staging(job, staging) {
        return Ok(None);
    }
    Ok(Some(Arena::new(alloc, dml_desc::need(job) as u32)?))
}

/// Carries out a move, or answers its refusal.
#[inline(always)]
pub fn submit_move(bytes: &mut [u8], job: &Job, staging: u32) -> Record
    requires pages { IsWholePages bytes.old }
    requires operation { op_of job.now ≡ Some Move }
    ensures content { bytes.new ≡ (step (all_present bytes.old) job.now staging).0.bytes }
    ensures answer { result ≡ (step (all_present bytes.old) job.now staging).1 }
{
    match dml_desc::check(job, staging) {
        Ok(checked) => {
            if lies_within(bytes, job.source, job.size)
                && lies_within(bytes, job.target, job.size)
            {
                return move_within(&checked, 0, bytes);
            }
            let past = *job; // a range may end behind the pages
            by_fields(submit_in(bytes, &mut None, &past, staging))
        }
        Err(status) => Record::refused(status),
    }
}

/// Whether a range of so many bytes from an address on lies within a slice.
#[inline(always)]
fn lies_within(bytes: &[u8], address: u64, size: u32) -> bool
    ensures { IsTrue result ↔ (address + size ≤ length bytes.now) }
{
    let len = bytes.len() as u64;
    address <= len && u64::from(size) <= len - address
}

/// As `kazovuni_submit_over`, where the descriptor's addresses are the caller's own, and the pages begin at `base`.
/// A fault is answered with the caller's address. Where `base` and the bytes together are at most 2^64, an address
/// below the base is past the end of the pages (`law_of_bases`).
#[unsafe(no_mangle)]
pub extern "C" fn kazovuni_submit_pointers(
    alloc: Global,
    base: u64,
    bytes: &mut [u8],
    descriptor: &[u8; 64],
    staging: u32,
    answer: &mut [u8; 32],
) -> u8
    ensures codes { result ≤ 2 }
    ensures not_pages { (result ≢ 1) ↔ IsPages bytes.old }
    ensures no_memory { result ≡ 2 → TakesStaging (bases.counted base (decoded descriptor.now)) staging }
    ensures content { result ≡ 0 → bytes.new
        ≡ (step (all_present bytes.old) (bases.counted base (decoded descriptor.now)) staging).0.bytes }
    ensures record { result ≡ 0 → answer.new ≡ bytes_of_record (bases.answered_at base
        (step (all_present bytes.old) (bases.counted base (decoded descriptor.now)) staging).1) }
    ensures unchanged { result ≢ 0 → (bytes.new ≡ bytes.old) × (answer.new ≡ answer.old) }
{
    if !are_pages(bytes) {
        return NOT_PAGES;
    }
    let job = counted(base, &dml_desc::decode(descriptor));
    let Some(record) = submit_alone(alloc, bytes, &job, staging) else {
        return NO_MEMORY;
    };
    *answer = dml_desc::record_bytes(&answered_at(base, &record));
    DONE
}
