//! Completion records.
ghost use Rattle.std.specs.Prelude.{◌≡◌, ◌<◌};
ghost use Rattle.dml_types.specs.Bytewise.{result_of};
ghost use Rattle.dml_types.specs.Delta as delta;
ghost use Rattle.dml_types.specs.Effect as word;
ghost use Rattle.dml_effect.specs.Joined as joined;

use bitflags::Flags;
use dml_types::{Direction, Found, Job, JobFlags, Op, Record, Status};

/// The same record. It is made of its fields again, since a record that is one of several, or that a call answers, is
/// else copied in parts that overlap, and the read of the last part waits for the writes.
#[inline(always)]
pub fn by_fields(outcome: Record) -> Record
    ensures { result ≡ outcome }
{
    let Record {
        status,
        result,
        completed,
        fault,
        delta_size,
    } = outcome;
    Record {
        status,
        result,
        completed,
        fault,
        delta_size,
    }
}

/// The completion record of a job, by how its scan ended.
pub fn scanned_record(op: Op, job: &Job, direction: Direction, found: Found) -> Record
    ensures { result ≡ joined.scanned_record op job.now direction found }
{
    match op {
        Op::NoOp => ended(Status::Success, 0, 0),
        Op::Compare | Op::ComparePattern => compared_record(job, found),
        _ => copied_record(job.size, direction, found),
    }
}

/// The completion record of a compare: the whole byte of the result is expected.
pub fn compared_record(job: &Job, found: Found) -> Record
    ensures { result ≡ joined.compared_record job.now found }
{
    match found {
        Found::All => ended(judged(job, job.expected == 0), 0, job.size),
        Found::Differs { done } => ended(judged(job, job.expected == 1), 1, done),
        Found::Fault { done, place, write } => faulted(write, place, 0, done),
    }
}

/// The completion record of a copy or a fill of `len` bytes.
pub fn copied_record(len: u32, direction: Direction, found: Found) -> Record
    ensures { result ≡ joined.copied_record len (result_of direction) found }
{
    let outcome = match direction {
        Direction::Forward => 0,
        Direction::Backward => 1,
    };
    match found {
        Found::All => ended(Status::Success, outcome, len),
        Found::Differs { done } => ended(Status::Success, outcome, done),
        Found::Fault { done, place, write } => faulted(write, place, outcome, done),
    }
}

/// The completion record of a create whose record range has its maximum of entries before that of a block: an overflow.
pub fn full_record(job: &Job, block: u16) -> Record
    ensures { result ≡ joined.full_record job.now block }
{
    Record {
        status: judged(job, expects(job, 2)),
        result: 2,
        completed: 8 * u32::from(block),
        fault: 0,
        delta_size: job.delta_size,
    }
}

/// The completion record of a create that came to its end, with so many bytes of entries.
pub fn finished_record(job: &Job, bytes: u32) -> Record
    ensures { result ≡ joined.finished_record job.now bytes }
{
    let outcome = u8::from(bytes != 0);
    Record {
        status: judged(job, expects(job, outcome)),
        result: outcome,
        completed: job.size,
        fault: 0,
        delta_size: bytes,
    }
}

/// Whether a create's result is one of the expected ones.
fn expects(job: &Job, outcome: u8) -> bool
    requires { outcome < 8 }
    ensures { result ≡ delta.expects job.now outcome }
{
    (job.expected >> outcome) % 2 == 1
}

/// The status of a job that ended with a result which is the expected one, or not.
fn judged(job: &Job, is_expected: bool) -> Status
    ensures { result ≡ word.judged job.now is_expected }
{
    let check = JobFlags::CHECK_RESULT.bits();
    if job.flags & check == check && !is_expected {
        Status::FalsePredicate
    } else {
        Status::Success
    }
}

/// The completion record of a job that no fault stopped.
pub fn ended(status: Status, outcome: u8, completed: u32) -> Record
    ensures { result ≡ word.ended status outcome completed 0 }
{
    Record {
        status,
        result: outcome,
        completed,
        fault: 0,
        delta_size: 0,
    }
}

/// The completion record of a job that stopped at an absent byte, which was to be written or else read.
fn faulted(write: bool, place: u64, outcome: u8, completed: u32) -> Record
    ensures { result ≡ word.faulted (joined.fault_by write place) outcome completed 0 }
{
    Record {
        status: if write {
            Status::WriteFault
        } else {
            Status::ReadFault
        },
        result: outcome,
        completed,
        fault: place,
        delta_size: 0,
    }
}
