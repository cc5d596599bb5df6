//! What asks for no memory: a descriptor's fields, its check, its staging.
ghost use Rattle.std.specs.Prelude.{◌≡◌, ◌↔◌, IsTrue, IsSome, unwrap_or};
ghost use Rattle.dml_types.specs.Refusal.{need, refusal};
ghost use Rattle.dml_desc.specs.Descriptor.{decoded};
ghost use Rattle.dml_desc.specs.Encoding.{encoded};
ghost use Rattle.dml_c.specs.Values.{bytes_from_c, code_or_zero, fields_of, job_for_c, job_from_c, rest_of};

use crate::values::{CJob, CRecord};
use dml_types::{Job, Op};

/// The version of the header: the major number in the upper 16 bits, the minor one in the lower.
#[unsafe(no_mangle)]
pub extern "C" fn kazovuni_version() -> u32
    ensures { result ≡ 65540 }
{
    0x0001_0004
}

/// 0 where the job of a descriptor is accepted, else the code of the first rule that it breaks.
#[unsafe(no_mangle)]
pub extern "C" fn kazovuni_check(descriptor: &[u8; 64], staging: u32) -> u8
    ensures { result ≡ code_or_zero (refusal (decoded descriptor.now) staging) }
{
    let job = dml_desc::decode(descriptor);
    match job.op() {
        // the same text three times: each has the rules of its operation alone
        Some(Op::Move) => code_of(&job, staging),
        Some(Op::Fill) => code_of(&job, staging),
        Some(Op::Compare) => code_of(&job, staging),
        _ => check_other(descriptor, staging),
    }
}

/// The same. It stands apart, so that jobs with few rules have none of its frame.
#[inline(never)]
fn check_other(descriptor: &[u8; 64], staging: u32) -> u8
    ensures { result ≡ code_or_zero (refusal (decoded descriptor.now) staging) }
{
    code_of(&dml_desc::decode(descriptor), staging)
}

/// 0 where a job is accepted, else the code of the first rule that it breaks. Where its operation is known, the rules
/// of the others are left out.
#[inline(always)]
fn code_of(job: &Job, staging: u32) -> u8
    ensures { result ≡ code_or_zero (refusal job.now staging) }
{
    match dml_desc::check(job, staging) {
        Ok(_) => 0,
        Err(status) => status.code(),
    }
}

/// The bytes of staging that the job of a descriptor needs.
#[unsafe(no_mangle)]
pub extern "C" fn kazovuni_need(descriptor: &[u8; 64]) -> u64
    ensures { result ≡ need (decoded descriptor.now) }
{
    dml_desc::need(&dml_desc::decode(descriptor))
}

/// The fields of a descriptor; those without meaning for its operation are 0, but for the source, the target and the
/// size, which stand in every descriptor.
#[unsafe(no_mangle)]
pub extern "C" fn kazovuni_decode(descriptor: &[u8; 64]) -> CJob
    ensures { result ≡ job_for_c (decoded descriptor.now) }
{
    CJob::of(&dml_desc::decode(descriptor))
}

/// Writes the descriptor of a job, and answers true; false where its flags do not fit 24 bits, and nothing is written.
#[unsafe(no_mangle)]
pub extern "C" fn kazovuni_encode(job: &CJob, descriptor: &mut [u8; 64]) -> bool
    ensures fits { IsTrue result ↔ IsSome (encoded (job_from_c job.now)) }
    ensures written { descriptor.new ≡ unwrap_or (encoded (job_from_c job.now)) descriptor.old }
{
    let Some(bytes) = dml_desc::encode(&job.job()) else {
        return false;
    };
    *descriptor = bytes;
    true
}

/// Writes the 32 bytes of a completion record, and answers true; false where its status is the code of none, and
/// nothing is written.
#[unsafe(no_mangle)]
pub extern "C" fn kazovuni_record_encode(fields: &CRecord, answer: &mut [u8; 32]) -> bool
    ensures fits { IsTrue result ↔ IsSome (bytes_from_c fields.now) }
    ensures written { answer.new ≡ unwrap_or (bytes_from_c fields.now) answer.old }
{
    let Some(outcome) = fields.record() else {
        return false;
    };
    *answer = dml_desc::record_bytes(&outcome);
    true
}

/// Reads the fields of a completion record, and answers true; false where its first byte is the code of no status, and
/// nothing is written.
#[unsafe(no_mangle)]
pub extern "C" fn kazovuni_record_decode(answer: &[u8; 32], fields: &mut CRecord) -> bool
    ensures fits { IsTrue result ↔ IsSome (fields_of answer.now) }
    ensures written { fields.new ≡ unwrap_or (fields_of answer.now) fields.old }
{
    let Some(outcome) = dml_desc::decode_record(answer) else {
        return false;
    };
    *fields = CRecord::of(&outcome);
    true
}

/// Writes the descriptor of what is left of a job after a page fault, by the completion record that answered it, and
/// answers true; false where nothing is left, and nothing is written.
#[unsafe(no_mangle)]
pub extern "C" fn kazovuni_rest(
    descriptor: &[u8; 64],
    answer: &[u8; 32],
    left: &mut [u8; 64],
) -> bool
    ensures fits { IsTrue result ↔ IsSome (rest_of descriptor.now answer.now) }
    ensures written { left.new ≡ unwrap_or (rest_of descriptor.now answer.now) left.old }
{
    let Some(bytes) = rest_bytes(descriptor, answer) else {
        return false;
    };
    *left = bytes;
    true
}

/// The descriptor of what is left, where something is.
fn rest_bytes(descriptor: &[u8; 64], answer: &[u8; 32]) -> Option<[u8; 64]>
    ensures { result ≡ rest_of descriptor.now answer.now }
{
    let outcome = dml_desc::decode_record(answer)?;
    let left = dml_desc::rest(&dml_desc::decode(descriptor), &outcome)?;
    dml_desc::encode(&left)
}
