//! Batches in list order: a fenced job waits for all jobs before it, and is carried out only where each succeeded.
ghost use Rattle.std.specs.Prelude.{◌≡◌, ◌+◌, ◌-◌, ◌^◌, ◌<◌, ◌≤◌, ◌++◌, ◌&&◌, length, map, nat_eq, not, replicate, take};
ghost use Rattle.dml_types.specs.declared.statuses.Status.TheVariants.{Abandoned};
ghost use Rattle.dml_types.specs.Job.{is_fenced, unfenced};
ghost use Rattle.dml_types.specs.Effect.{code_of, ended};
ghost use Rattle.dml_types.specs.Step.{batch, batch_answer, have_succeeded};
ghost use Rattle.dml_desc.specs.Descriptor.{bytes_of_record, decoded};
ghost use Rattle.dml_effect.specs.Batches.{batch_record_of, EndsAt, HaveRoom, IsCarried, IsCarriedInBytes, free_records};

use crate::carrying::submit_in_batch_to;
use crate::records::by_fields;
use dml_arena::Arena;
use dml_image::Image;
use dml_types::{BatchRecord, Job, Record, Status};

/// Carries out a batch on an image in list order, writes a record for each job, and returns the batch's own. A fenced
/// job, which is any with the fence's bit, refused or not, waits for all jobs before it; where one of them has another
/// status than 0x01, it and all later jobs are abandoned, and their records are zeros.
///
/// Nothing is allocated, and each job is looked at once.
pub fn submit_batch_to(
    image: &mut Image,
    arena: &mut Arena,
    jobs: &[Job],
    staging: u32,
    records: &mut [Record],
) -> BatchRecord
    requires few { length jobs.now < 2 ^ 32 }
    requires size { length records.old ≡ length jobs.now }
    requires staging { HaveRoom (map unfenced jobs.now) staging arena.old.size }
    ensures image { image.new ≡ (batch image.old jobs.now staging).0 }
    ensures answer { result ≡ (batch image.old jobs.now staging).1 }
    ensures records { records.new ≡ (batch image.old jobs.now staging).2 }
    ensures arena { arena.new ≡ arena.old }
{
    let done = carry_out_batch(image, arena, jobs, staging, records);
    abandon(records, done);
    answer_of_batch(&records[..done])
}

/// Carries out the jobs of a batch as far as its fences let them, and answers how many that are. The records of the
/// others are of no account: [`abandon`] writes them, and [`answer_of_batch`] gives the batch's own.
pub fn carry_out_batch(
    image: &mut Image,
    arena: &mut Arena,
    jobs: &[Job],
    staging: u32,
    records: &mut [Record],
) -> usize
    requires size { length records.old ≡ length jobs.now }
    requires staging { HaveRoom (map unfenced jobs.now) staging arena.old.size }
    ensures carried { IsCarried image.old jobs.now staging result image.new records.new }
    ensures ends { EndsAt jobs.now result records.new }
    ensures arena { arena.new ≡ arena.old }
{
    let mut succeeded = true;
    for i in 0..jobs.len() {
        if waits_in_vain(&jobs[i], succeeded) {
            return i;
        }
        let record = by_fields(submit_in_batch_to(image, arena, &jobs[i], staging));
        succeeded = still_succeeded(succeeded, &record);
        records[i] = record;
    }
    jobs.len()
}

/// The same as [`submit_batch_to`] of descriptors, with the bytes of the records.
pub fn submit_batch_bytes_to(
    image: &mut Image,
    arena: &mut Arena,
    descriptors: &[[u8; 64]],
    staging: u32,
    answers: &mut [[u8; 32]],
) -> BatchRecord
    requires few { length descriptors.now < 2 ^ 32 }
    requires size { length answers.old ≡ length descriptors.now }
    requires staging { HaveRoom (map unfenced (map decoded descriptors.now)) staging arena.old.size }
    ensures image { image.new ≡ (batch image.old (map decoded descriptors.now) staging).0 }
    ensures answer { result ≡ (batch image.old (map decoded descriptors.now) staging).1 }
    ensures records { answers.new
        ≡ map bytes_of_record (batch image.old (map decoded descriptors.now) staging).2 }
    ensures arena { arena.new ≡ arena.old }
{
    let (done, succeeded) = carry_out_batch_bytes(image, arena, descriptors, staging, answers);
    abandon_bytes(answers, done);
    batch_record(done, succeeded)
}

/// Carries out the jobs of a batch of descriptors as far as its fences let them, and answers how many that are, and
/// whether each has succeeded. The records of the others are of no account.
fn carry_out_batch_bytes(
    image: &mut Image,
    arena: &mut Arena,
    descriptors: &[[u8; 64]],
    staging: u32,
    answers: &mut [[u8; 32]],
) -> (usize, bool)
    requires size { length answers.old ≡ length descriptors.now }
    requires staging { HaveRoom (map unfenced (map decoded descriptors.now)) staging arena.old.size }
    ensures carried { IsCarriedInBytes image.old (map decoded descriptors.now) staging result.0
        image.new answers.new }
    ensures ends { EndsAt (map decoded descriptors.now) result.0
        (free_records image.old (map decoded descriptors.now) staging) }
    ensures succeeded { result.1 ≡ have_succeeded
        (take result.0 (free_records image.old (map decoded descriptors.now) staging)) }
    ensures arena { arena.new ≡ arena.old }
{
    let mut succeeded = true;
    for i in 0..descriptors.len() {
        let job = dml_desc::decode(&descriptors[i]);
        if waits_in_vain(&job, succeeded) {
            return (i, succeeded);
        }
        let outcome = submit_in_batch_to(image, arena, &job, staging);
        succeeded = still_succeeded(succeeded, &outcome);
        answers[i] = dml_desc::record_bytes(&outcome);
    }
    (descriptors.len(), succeeded)
}

/// Whether a batch ends before a job, by whether all jobs before it have succeeded.
fn waits_in_vain(job: &Job, succeeded: bool) -> bool
    ensures { result ≡ (is_fenced job.now && not succeeded) }
{
    job.is_fenced() && !succeeded
}

/// Whether all jobs have succeeded behind one more.
fn still_succeeded(succeeded: bool, outcome: &Record) -> bool
    ensures { result ≡ (succeeded && nat_eq (code_of outcome.now.status) 0x01) }
{
    succeeded && outcome.status.code() == 0x01
}

/// Writes the records of abandoned jobs from a place on.
pub fn abandon(records: &mut [Record], from: usize)
    requires { from ≤ length records.old }
    ensures { records.new ≡ take from records.old ++ replicate (length records.old - from) (ended Abandoned 0 0 0) }
{
    records[from..].fill(Record::refused(Status::Abandoned));
}

/// The same as bytes.
fn abandon_bytes(answers: &mut [[u8; 32]], from: usize)
    requires { from ≤ length answers.old }
    ensures { answers.new ≡ take from answers.old
        ++ replicate (length answers.old - from) (bytes_of_record (ended Abandoned 0 0 0)) }
{
    let abandoned = dml_desc::record_bytes(&Record::refused(Status::Abandoned));
    for i in from..answers.len() {
        answers[i] = abandoned;
    }
}

/// The record of a batch whose jobs that were carried out have these.
pub fn answer_of_batch(records: &[Record]) -> BatchRecord
    requires { length records.now < 2 ^ 32 }
    ensures { result ≡ batch_answer records.now }
{
    batch_record(records.len(), have_succeeded(records))
}

/// The record of a batch of which so many jobs were carried out.
fn batch_record(done: usize, succeeded: bool) -> BatchRecord
    requires { done < 2 ^ 32 }
    ensures { result ≡ batch_record_of succeeded done }
{
    BatchRecord {
        status: if succeeded {
            Status::Success
        } else {
            Status::BatchFailed
        },
        completed: done as u32,
    }
}

/// Whether each of these has status 0x01.
pub fn have_succeeded(records: &[Record]) -> bool
    ensures { result ≡ have_succeeded records.now }
{
    records.iter().all(|record| record.status.code() == 0x01)
}
