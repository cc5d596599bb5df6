//! What the program shows of a descriptor.
ghost use Rattle.std.specs.Prelude.{◌≡◌, IfOk, OnOk, string_bytes, ◌++◌};
ghost use Rattle.dmljob.specs.Description.{accepted_line, description_of, refused_line};
ghost use Rattle.dmljob.specs.Description.{verdict_line};
ghost use Rattle.dml_types.specs.Refusal.{refusal};

use dml_desc::{check, decode, need};
use dml_script::{TextError, job_text, push_byte};
use dml_types::{Job, Status};
use std::alloc::{AllocError, Global};
use std::fmt::Write;

const STAGING: u32 = 1_048_576;

fn push_accepted(text: &mut String, need: u64) -> Result<(), AllocError>
    ensures { OnOk result (string_bytes text.new ≡ string_bytes text.old ++ accepted_line need) }
{
    write!(text, "check accepted need {need}\n")
}

fn push_refused(text: &mut String, status: Status) -> Result<(), AllocError>
    ensures { OnOk result (string_bytes text.new ≡ string_bytes text.old ++ refused_line status) }
{
    text.push_str("check refused ")?;
    push_byte(text, status.code())?;
    text.push('\n')?;
    Ok(())
}

fn push_verdict(text: &mut String, job: &Job) -> Result<(), AllocError>
    ensures { OnOk result (string_bytes text.new
        ≡ string_bytes text.old ++ verdict_line job.now (refusal job.now STAGING)) }
{
    match check(job, STAGING) {
        Ok(_) => push_accepted(text, need(job)),
        Err(status) => push_refused(text, status),
    }
}

/// The two lines on a descriptor: the fields of its job, and whether the job is accepted at a
/// staging of 1,048,576 bytes, with its need, or refused, with its status.
pub fn description(alloc: Global, bytes: &[u8; 64]) -> Result<String, TextError>
    ensures { IfOk result (λ text. string_bytes text ≡ description_of bytes.now) }
{
    let job = decode(bytes);
    let mut text = job_text(alloc, &job)?;
    text.push('\n')?;
    push_verdict(&mut text, &job)?;
    Ok(text)
}
