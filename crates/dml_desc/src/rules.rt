// The rules that a job can break, each as a test.
ghost use Rattle.std.specs.Prelude.{◌≡◌, ◌+◌};
ghost use Rattle.dml_types.specs.Job.{accepted_flags};
ghost use Rattle.dml_types.specs.Job as range;
ghost use Rattle.dml_types.specs.Refusal as rule;

use bitflags::Flags;
use dml_types::{ENTRY, Job, JobFlags, Op, Span};

/// The largest transfer size.
const MOST_BYTES: u32 = 1_048_576;

/// The largest transfer size of a create or an apply: as many blocks as an entry's offset can name.
const MOST_DELTA_BYTES: u32 = 0x8_0000;

/// The most bytes of a delta record: an entry for each block of the largest transfer.
const MOST_RECORD: u32 = 655_360;

/// The flags that a job may have.
fn accepted() -> JobFlags
    ensures { result.0 ≡ accepted_flags }
{
    JobFlags::BLOCK_ON_FAULT
        .union(JobFlags::ADDRESS_VALID)
        .union(JobFlags::REQUEST_RECORD)
        .union(JobFlags::CHECK_RESULT)
        .union(JobFlags::CACHE_CONTROL)
}

/// Whether a flag that is not accepted is set.
#[tactic(auto, using(std::proofs::lemmas::Nat::and_comm))]
#[inline(always)]
pub(crate) fn has_bad_flags(job: &Job) -> bool
    ensures { result ≡ rule.has_bad_flags job.now }
{
    !accepted().contains(JobFlags::from_bits_retain(job.flags))
}

/// Whether the transfer size is too large, or no whole number of blocks where it has to be.
#[inline(always)]
pub(crate) fn has_bad_size(op: Op, job: &Job) -> bool
    ensures { result ≡ rule.has_bad_size op job.now }
{
    match op {
        Op::NoOp => false,
        Op::Move | Op::Fill | Op::Compare | Op::ComparePattern | Op::Dualcast => {
            job.size > MOST_BYTES
        }
        Op::CreateDelta | Op::ApplyDelta => {
            job.size > MOST_DELTA_BYTES || !job.size.is_multiple_of(8)
        }
    }
}

/// Whether the size of the delta record is too small or too large, or no whole number of entries.
#[inline(always)]
pub(crate) fn has_bad_delta_size(op: Op, job: &Job) -> bool
    ensures { result ≡ rule.has_bad_delta_size op job.now }
{
    match op {
        Op::CreateDelta => {
            !(ENTRY..=MOST_RECORD).contains(&job.delta_size)
                || !job.delta_size.is_multiple_of(ENTRY)
        }
        Op::ApplyDelta => job.delta_size > MOST_RECORD || !job.delta_size.is_multiple_of(ENTRY),
        _ => false,
    }
}

/// Whether an address that has to be a multiple of 8 is none.
#[inline(always)]
pub(crate) fn is_misaligned(op: Op, job: &Job) -> bool
    ensures { result ≡ rule.is_misaligned op job.now }
{
    match op {
        Op::CreateDelta => !job.source.is_multiple_of(8) || !job.target.is_multiple_of(8),
        Op::ApplyDelta => !job.target.is_multiple_of(8),
        _ => false,
    }
}

/// Whether the two destinations of a dualcast differ in address bits 11:0.
#[inline(always)]
pub(crate) fn has_dualcast_bits(op: Op, job: &Job) -> bool
    ensures { result ≡ rule.has_dualcast_bits op job.now }
{
    op == Op::Dualcast && job.target % 4096 != job.extra % 4096
}

/// Whether two ranges share a byte that must share none.
#[inline(always)]
pub(crate) fn has_overlap(op: Op, job: &Job) -> bool
    ensures { result ≡ rule.has_overlap op job.now }
{
    match op {
        Op::CreateDelta => {
            let delta = span(job.extra, job.delta_size);
            shares(delta, span(job.source, job.size)) || shares(delta, span(job.target, job.size))
        }
        Op::ApplyDelta => shares(span(job.target, job.size), span(job.source, job.delta_size)),
        Op::Dualcast => {
            let source = span(job.source, job.size);
            let first = span(job.target, job.size);
            let second = span(job.extra, job.size);
            shares(first, source) || shares(second, source) || shares(first, second)
        }
        _ => false,
    }
}

/// Whether a range of the job ends above 2^64.
#[inline(always)]
pub(crate) fn has_range_past(op: Op, job: &Job) -> bool
    ensures { result ≡ rule.has_range_past op job.now }
{
    match op {
        Op::NoOp => false,
        Op::Fill => is_past(job.target, job.size),
        Op::ComparePattern => is_past(job.source, job.size),
        Op::Move | Op::Compare => is_past(job.source, job.size) || is_past(job.target, job.size),
        Op::CreateDelta => {
            is_past(job.source, job.size)
                || is_past(job.target, job.size)
                || is_past(job.extra, job.delta_size)
        }
        Op::ApplyDelta => is_past(job.source, job.delta_size) || is_past(job.target, job.size),
        Op::Dualcast => {
            is_past(job.source, job.size)
                || is_past(job.target, job.size)
                || is_past(job.extra, job.size)
        }
    }
}

/// The range of `len` bytes from `start` on.
#[inline(always)]
fn span(start: u64, len: u32) -> Span
    ensures { result ≡ range.span start len }
{
    Span { start, len }
}

/// The end of a range, which may lie above 2^64.
#[inline(always)]
fn end(a: Span) -> u128
    ensures { result ≡ a.start + a.len }
{
    u128::from(a.start) + u128::from(a.len)
}

/// Whether two ranges share a byte.
#[inline(always)]
fn shares(a: Span, b: Span) -> bool
    ensures { result ≡ range.shares a b }
{
    u128::from(a.start.max(b.start)) < end(a).min(end(b))
}

/// Whether a range ends above 2^64: it has a byte behind the last address.
#[inline(always)]
fn is_past(start: u64, len: u32) -> bool
    ensures { result ≡ range.is_past (range.span start len) }
{
    u64::from(len.saturating_sub(1)) > u64::MAX - start
}
