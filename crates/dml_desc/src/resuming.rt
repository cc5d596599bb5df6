ghost use Rattle.std.specs.Prelude.{◌≡◌, ◌≤◌, ◌+◌, ◌^◌, nat_lt, if◌then◌else◌, None, Some};
ghost use Rattle.dml_types.specs.Step as equation;

use dml_types::{Job, Op, Record, Status};

/// The address `k` bytes further on, or None where it is above 2^64 - 1.
fn advanced(address: u64, k: u32) -> Option<u64>
    ensures { result ≡ (if nat_lt (address + k) (2 ^ 64) then Some (address + k) else None) }
{
    address.checked_add(u64::from(k))
}

/// The pattern whose byte `k mod 8` comes first.
fn turned(pattern: u64, k: u32) -> u64
    ensures { result ≡ equation.turned pattern k }
{
    pattern.rotate_right(8 * (k % 8))
}

/// A job without its first `k` bytes, for the operations that go on behind them; None for the others, and where an
/// address further on would be above 2^64 - 1.
fn without_front(op: Op, job: &Job, k: u32) -> Option<Job>
    requires { k ≤ job.now.size }
    ensures { result ≡ equation.fitting_rest op job.now k }
{
    let size = job.size - k;
    match op {
        Op::Move | Op::Compare => Some(Job {
            source: advanced(job.source, k)?,
            target: advanced(job.target, k)?,
            size,
            ..*job
        }),
        Op::Fill => Some(Job {
            source: turned(job.source, k),
            target: advanced(job.target, k)?,
            size,
            ..*job
        }),
        Op::ComparePattern => Some(Job {
            source: advanced(job.source, k)?,
            target: turned(job.target, k),
            size,
            ..*job
        }),
        Op::Dualcast => Some(Job {
            source: advanced(job.source, k)?,
            target: advanced(job.target, k)?,
            extra: advanced(job.extra, k)?,
            size,
            ..*job
        }),
        Op::NoOp | Op::CreateDelta | Op::ApplyDelta => None,
    }
}

/// The job that is left of `job` after a page fault, by the completion record that answered it: what it has still to
/// do once the page is there. None where the status is another, where all bytes are done, for a no-op, a create, an
/// apply and an unsupported opcode, and where an address further on would be above 2^64 - 1.
///
/// A move with result 1 went backward and keeps its addresses; elsewhere the addresses go on behind the bytes done, and
/// a pattern is turned to its next byte.
pub fn rest(job: &Job, answer: &Record) -> Option<Job>
    ensures { result ≡ equation.rest job.now answer.now }
{
    match answer.status {
        Status::ReadFault | Status::WriteFault => {}
        _ => return None,
    }
    let k = answer.completed;
    if k >= job.size {
        return None;
    }
    match job.op()? {
        Op::Move if answer.result == 1 => Some(Job {
            size: job.size - k,
            ..*job
        }),
        op => without_front(op, job, k),
    }
}
