//! Jobs that are checked before any of them is carried out.
ghost use Rattle.std.specs.Prelude.{◌≡◌, ◌≤◌, IfOk, OnOk, length, map};
ghost use Rattle.std.specs.List.{All};
ghost use Rattle.dml_types.specs.Job.{no_op_job, unfenced};
ghost use Rattle.dml_types.specs.Refusal.{need};
ghost use Rattle.dml_levels.specs.Laws.{unless_refused};
ghost use Rattle.dml_levels.specs.Pieces.{fenced_unless_refused};
ghost use Rattle.dml_engine.specs.Lists.{AreOpened, idle_record, judged, opened};

use bitflags::Flags;
use dml_desc::{Checked, check, check_in_batch};
use dml_types::{Job, JobFlags, Record, Status};
use std::alloc::{AllocError, Global};

/// Whether jobs may have the fence: those of a batch may, those of a list may not.
#[derive(Clone, Copy, Debug)]
pub enum Fences {
    Refused,
    Accepted,
}

/// Checks a list of jobs: each as far as it does anything, with the records of those that do nothing at their places.
pub(crate) fn open_all(
    alloc: Global,
    jobs: &[Job],
    fences: Fences,
    staging: u32,
    records: &mut [Record],
) -> Result<Vec<Checked>, AllocError>
    requires size { length records.old ≡ length jobs.now }
    ensures checked { IfOk result (λ list. list.items ≡ map (opened fences staging) jobs.now) }
    ensures needs { IfOk result (λ list. All (λ job. need job ≤ staging) list.items) }
    ensures opened { OnOk result (AreOpened (map (judged fences) jobs.now) staging records.new) }
{
    let mut list = Vec::with_capacity(alloc, jobs.len())?;
    for i in 0..jobs.len() {
        let (checked, record) = open(&jobs[i], fences, staging);
        list.push_reserved(checked);
        records[i] = record;
    }
    Ok(list)
}

/// A job as far as it does anything, and the record that it has if it does nothing.
pub(crate) fn open(job: &Job, fences: Fences, staging: u32) -> (Checked, Record)
    ensures checked { result.0 ≡ opened fences staging job.now }
    ensures need { need result.0 ≤ staging }
    ensures record { result.1 ≡ idle_record staging (judged fences job.now) }
{
    match fences {
        Fences::Refused => open_in_list(job, staging),
        Fences::Accepted => open_in_batch(job, staging),
    }
}

/// The same of a list's job: for a refused one a no-op.
fn open_in_list(job: &Job, staging: u32) -> (Checked, Record)
    ensures checked { result.0 ≡ unless_refused staging job.now }
    ensures need { need result.0 ≤ staging }
    ensures record { result.1 ≡ idle_record staging job.now }
{
    match check(job, staging) {
        Ok(checked) => (checked, Record::refused(Status::Success)),
        Err(status) => (no_op(0), Record::refused(status)),
    }
}

/// The same of a batch's job: for a refused one a no-op that keeps the fence, so that later jobs wait all the same.
fn open_in_batch(job: &Job, staging: u32) -> (Checked, Record)
    ensures checked { result.0 ≡ fenced_unless_refused staging job.now }
    ensures need { need result.0 ≤ staging }
    ensures record { result.1 ≡ idle_record staging (unfenced job.now) }
{
    match check_in_batch(job, staging) {
        Ok(checked) => (checked, Record::refused(Status::Success)),
        Err(status) => (
            no_op(job.flags & JobFlags::FENCE.bits()),
            Record::refused(status),
        ),
    }
}

/// A checked no-op, with the fence or without.
#[tactic(auto, using(crate::proofs::ListLemmas::no_op_accepted))]
fn no_op(flags: u32) -> Checked
    requires { flags ≤ 1 }
    ensures { result ≡ record no_op_job { flags = flags } }
{
    match check_in_batch(&Job::no_op().with_flags(flags), 0) {
        Ok(checked) => checked,
        Err(_) => unreachable!(),
    }
}
