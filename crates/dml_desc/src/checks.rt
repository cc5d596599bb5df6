ghost use Rattle.std.specs.Prelude.{◌≡◌, if◌then◌else◌, IfOk, IfErr, None, Some};
ghost use Rattle.dml_types.specs.Job.{unfenced};
ghost use Rattle.dml_types.specs.Refusal.{refusal, operation_need};
ghost use Rattle.dml_types.specs.Refusal as rule;
ghost use Rattle.dml_desc.specs.Checked.{IsChecked, KeepsRules, Limits};

use crate::rules;
use dml_types::{Job, Op, Status};
use std::marker::Model;

/// A job that breaks no rule where there is as much staging as it needs, with its operation. It is made by `check`, or
/// by `check_in_batch`, where it may have the fence.
#[derive(Clone, Copy, PartialEq, Eq, Debug)]
pub struct Checked {
    job: Job,
    op: Op,
}

impl Model for Checked {
    ghost use Rattle.dml_types.specs.declared.jobs.Job.{Job};
    ghost use Rattle.dml_desc.specs.Checked.{KeepsRules, operation_of};

    ghost Value = { Job };

    ghost view = { λ c. c.job };

    ghost invariant = { λ c. KeepsRules c.op c.job };

    ghost inverse = { λ j. record { job = j; op = operation_of j } };
}

impl Checked {
    /// The job.
    pub fn job(&self) -> &Job
        ensures job { result.now ≡ self.now }
        ensures checked { IsChecked self.now }
    {
        &self.job
    }

    /// Its operation.
    pub fn op(&self) -> Op
        ensures rules { KeepsRules result self.now }
        ensures limits { Limits result self.now }
    {
        self.op
    }
}

/// The bytes of staging that an operation takes for a job.
#[inline(always)]
fn operation_need(op: Op, job: &Job) -> u64
    ensures { result ≡ operation_need op job.now }
{
    match op {
        Op::Move | Op::Dualcast => u64::from(job.size),
        Op::CreateDelta => 10 * u64::from(job.size / 8),
        Op::ApplyDelta => u64::from(job.delta_size),
        Op::NoOp | Op::Fill | Op::Compare | Op::ComparePattern => 0,
    }
}

/// The bytes of staging that a job takes, by its descriptor alone; 0 where its opcode is unsupported.
pub fn need(job: &Job) -> u64
    ensures { result ≡ rule.need job.now }
{
    job.op().map_or(0, |op| operation_need(op, job))
}

/// A rule: the status that answers where it is broken.
fn refuse_if(broken: bool, status: Status) -> Result<(), Status>
    ensures { result ≡ (if broken then Err status else Ok tt) }
{
    if broken { Err(status) } else { Ok(()) }
}

/// The job as a checked one where it breaks no rule, with `staging` bytes of staging, and else the status of the
/// first rule that it breaks: BadOpcode, BadFlags, BadSize, BadDeltaSize, Misaligned, DualcastBits, Overlap,
/// RangePast or StagingRefused, in this order.
#[inline(always)]
#[tactic(auto, using(crate::proofs::CheckedLemmas::unfenced_where_flags))]
pub fn check(job: &Job, staging: u32) -> Result<Checked, Status>
    ensures same { IfOk result (λ checked. checked ≡ job.now) }
    ensures accepted { IfOk result (λ _. refusal job.now staging ≡ None) }
    ensures refused { IfErr result (λ status. refusal job.now staging ≡ Some status) }
{
    let room = u64::from(staging);
    let op = job.op().ok_or(Status::BadOpcode)?;
    refuse_if(rules::has_bad_flags(job), Status::BadFlags)?;
    refuse_if(rules::has_bad_size(op, job), Status::BadSize)?;
    refuse_if(rules::has_bad_delta_size(op, job), Status::BadDeltaSize)?;
    refuse_if(rules::is_misaligned(op, job), Status::Misaligned)?;
    refuse_if(rules::has_dualcast_bits(op, job), Status::DualcastBits)?;
    refuse_if(rules::has_overlap(op, job), Status::Overlap)?;
    refuse_if(rules::has_range_past(op, job), Status::RangePast)?;
    refuse_if(operation_need(op, job) > room, Status::StagingRefused)?;
    Ok(Checked { job: *job, op })
}

/// The same for a job of a batch, where the fence is accepted: it breaks no rule and changes no other.
#[tactic(auto, using(crate::proofs::CheckedLemmas::fenced_rules))]
pub fn check_in_batch(job: &Job, staging: u32) -> Result<Checked, Status>
    ensures same { IfOk result (λ checked. checked ≡ job.now) }
    ensures accepted { IfOk result (λ _. refusal (unfenced job.now) staging ≡ None) }
    ensures refused { IfErr result (λ status. refusal (unfenced job.now) staging ≡ Some status) }
{
    let free = check(&job.unfenced(), staging)?;
    Ok(Checked {
        job: *job,
        op: free.op,
    })
}
