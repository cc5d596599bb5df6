//! The text of an answer, and of a job.

ghost use Rattle.std.specs.Prelude.{◌≡◌, ◌<◌, ◌++◌, codes, false, OnErr, OnOk, IfOk, string_bytes};
ghost use Rattle.std.specs.Fmt.{digit_glyph};
ghost use Rattle.std.specs.List.{flat_map};
ghost use Rattle.dml_script.specs.Output.{byte_text, shown_text, hexadecimal, job_line, batch_line, show_line, text_of, fields_of};

use crate::items::Item;
use dml_types::{BatchRecord, Job, Record};
use std::alloc::{AllocError, Global};
use thiserror::Error;

/// Why a text was not made.
#[derive(Clone, Copy, PartialEq, Eq, Debug, Error)]
pub enum TextError {
    #[error("out of memory")]
    NoMemory,
}

impl From<AllocError> for TextError {
    ghost use Rattle.std.specs.Prelude.{◌≡◌};
    ghost use Rattle.dml_script.specs.declared.texts.TextError.TheVariants.{NoMemory};

    ghost from_gives = { λ _ e. e ≡ NoMemory };

    fn from(_error: AllocError) -> TextError {
        TextError::NoMemory
    }
}

/// The line of a script's answer for an item, with its line feed.
pub fn out_text(alloc: Global, item: &Item) -> Result<String, TextError>
    ensures { IfOk result (λ text. string_bytes text ≡ text_of item.now) }
{
    let text = match item {
        Item::Job { number, answer } => record_text(alloc, *number, answer)?,
        Item::Batch { answer } => batch_text(alloc, answer)?,
        Item::Show { addr, bytes } => show_text(alloc, *addr, &bytes.list)?,
    };
    Ok(text)
}

/// The fields of a job in one line, without a line feed.
pub fn job_text(alloc: Global, job: &Job) -> Result<String, TextError>
    ensures { IfOk result (λ text. string_bytes text ≡ fields_of job.now) }
{
    Ok(fields_text(alloc, *job)?)
}

fn record_text(alloc: Global, number: u32, answer: &Record) -> Result<String, AllocError>
    ensures { IfOk result (λ text. string_bytes text ≡ job_line number answer.now) }
{
    let Record {
        status,
        result,
        completed,
        fault,
        delta_size,
    } = *answer;
    let mut text = String::with_capacity(alloc, JOB_ROOM)?;
    write!(text, "job {number} status ")?;
    push_byte(&mut text, status.code())?;
    write!(
        text,
        " result {result} completed {completed} fault {fault} delta {delta_size}\n"
    )?;
    Ok(text)
}

/// Room for the longest line of a job's record.
const JOB_ROOM: usize = 112;

fn batch_text(alloc: Global, answer: &BatchRecord) -> Result<String, AllocError>
    ensures { IfOk result (λ text. string_bytes text ≡ batch_line answer.now) }
{
    let BatchRecord { status, completed } = *answer;
    let mut text = String::with_capacity(alloc, BATCH_ROOM)?;
    write!(text, "batch status ")?;
    push_byte(&mut text, status.code())?;
    write!(text, " completed {completed}\n")?;
    Ok(text)
}

/// Room for the longest line of a batch's record.
const BATCH_ROOM: usize = 40;

fn show_text(alloc: Global, address: u64, shown: &[Option<u8>]) -> Result<String, AllocError>
    ensures { IfOk result (λ text. string_bytes text ≡ show_line address shown.now) }
{
    let mut text = format!(in alloc; "show {address} ")?;
    text.reserve(shown.len().saturating_mul(2).saturating_add(1))?;
    push_shown(&mut text, shown)?;
    text.push('\n')?;
    Ok(text)
}

/// Adds two characters for each byte.
fn push_shown(text: &mut String, shown: &[Option<u8>]) -> Result<(), AllocError>
    ensures { OnOk result (string_bytes text.new ≡ string_bytes text.old ++ flat_map shown_text shown.now) }
{
    for byte in shown {
        push_shown_byte(text, *byte)?;
    }
    Ok(())
}

/// Adds two hexadecimal digits, or two dashes for an absent byte.
fn push_shown_byte(text: &mut String, byte: Option<u8>) -> Result<(), AllocError>
    ensures { OnOk result (string_bytes text.new ≡ string_bytes text.old ++ shown_text byte) }
{
    match byte {
        Some(byte) => push_byte(text, byte),
        None => text.push_str("--"),
    }
}

/// Adds a byte as two lower-case hexadecimal digits.
///
/// # Errors
/// Where there is no memory for them; the text is as it was.
pub fn push_byte(text: &mut String, byte: u8) -> Result<(), AllocError>
    ensures digits { OnOk result (string_bytes text.new ≡ string_bytes text.old ++ byte_text byte) }
    ensures unchanged { OnErr result (string_bytes text.new ≡ string_bytes text.old) }
{
    text.reserve(2)?;
    text.push(glyph(byte / 16))?;
    text.push(glyph(byte % 16))
}

/// The lower-case hexadecimal digit.
fn glyph(digit: u8) -> char
    requires { digit < 16 }
    ensures value { result ≡ digit_glyph false digit }
    ensures ascii { result < 128 }
{
    char::from(if digit < 10 {
        b'0' + digit
    } else {
        b'a' + (digit - 10)
    })
}

fn fields_text(alloc: Global, job: Job) -> Result<String, AllocError>
    ensures { IfOk result (λ text. string_bytes text ≡ fields_of job) }
{
    let Job {
        opcode,
        flags,
        source,
        target,
        size,
        extra,
        delta_size,
        expected,
    } = job;
    let mut text = String::with_capacity(alloc, FIELDS_ROOM)?;
    write!(text, "opcode ")?;
    push_byte(&mut text, opcode)?;
    push_flags(&mut text, flags)?;
    write!(
        text,
        " source {source} target {target} size {size} extra {extra} delta {delta_size} expected {expected}"
    )?;
    Ok(text)
}

/// Room for the longest line of a job's fields.
const FIELDS_ROOM: usize = 176;

/// Adds the flags with at least six digits.
#[tactic(auto, using(crate::proofs::TextLemmas::six_digits))]
fn push_flags(text: &mut String, flags: u32) -> Result<(), AllocError>
    ensures { OnOk result (string_bytes text.new ≡ string_bytes text.old ++ (codes " flags " ++ hexadecimal 6 flags)) }
{
    write!(text, " flags {flags:06x}")
}
