//! Writing an answer, and all of some bytes.

ghost use Rattle.std.specs.Prelude.{◌≡◌, ◌≢◌, ◌+◌, ◌^◌, ◌<◌, ◌≤◌, [], false, true, length, take, Err, IfErr, IfOk, OnOk, OnErr};
ghost use Rattle.std.specs.Io.KnownBytes.{Keeps};
ghost use Rattle.dml_script.specs.AnswerLaws.{job_lines};
ghost use Rattle.dml_script.specs.Output.{batch_line, job_line};
ghost use Rattle.dml_script.specs.Watching.{inner_of, has_failed, is_flushed, Writes, WritesFront};

use crate::lines::{RECORD_ROOM, put_batch, put_record};
use crate::running::RunFault;
use crate::watching::Watched;
use dml_engine::{EngineError, SubmitError};
use dml_image::{Image, ImageError};
use dml_types::{BatchRecord, Record};
use std::alloc::AllocError;
use std::io::Write;

/// Why an answer was not written to its end.
#[derive(Clone, Copy, PartialEq, Eq, Debug)]
pub enum AnswerError {
    NoMemory,
    /// A call of the writer failed, or took no byte.
    Write,
}

impl From<AllocError> for AnswerError {
    ghost use Rattle.std.specs.Prelude.{◌≡◌};
    ghost use Rattle.dml_script.specs.declared.writing.AnswerError.TheVariants.{NoMemory};

    ghost from_gives = { λ _ e. e ≡ NoMemory };

    fn from(_error: AllocError) -> AnswerError {
        AnswerError::NoMemory
    }
}

// The image, the engine and the batches of a script without faults, at valid settings, are refused for want of memory
// alone.
impl From<ImageError> for AnswerError {
    ghost use Rattle.std.specs.Prelude.{◌≡◌};
    ghost use Rattle.dml_script.specs.declared.writing.AnswerError.TheVariants.{NoMemory};

    ghost from_gives = { λ _ e. e ≡ NoMemory };

    fn from(_error: ImageError) -> AnswerError {
        AnswerError::NoMemory
    }
}

impl From<(Image<'static>, EngineError)> for AnswerError {
    ghost use Rattle.std.specs.Prelude.{◌≡◌};
    ghost use Rattle.dml_script.specs.declared.writing.AnswerError.TheVariants.{NoMemory};

    ghost from_gives = { λ _ e. e ≡ NoMemory };

    fn from(_error: (Image<'static>, EngineError)) -> AnswerError {
        AnswerError::NoMemory
    }
}

impl From<SubmitError> for AnswerError {
    ghost use Rattle.std.specs.Prelude.{◌≡◌};
    ghost use Rattle.dml_script.specs.declared.writing.AnswerError.TheVariants.{NoMemory};

    ghost from_gives = { λ _ e. e ≡ NoMemory };

    fn from(_error: SubmitError) -> AnswerError {
        AnswerError::NoMemory
    }
}

/// Writes the lines of records, numbered from a number on. They are made one after another in one buffer.
pub fn write_records<W: Write>(
    first: u32,
    records: &[Record],
    writer: &mut Watched<W>,
) -> Result<(), AnswerError>
    requires counted { first + length records.now < 2 ^ 32 }
    requires writer { has_failed writer.old ≡ false }
    ensures ok { OnOk result (Writes W.contents writer.old writer.new (job_lines first records.now)) }
    ensures passed { result ≢ Err AnswerError.Write → has_failed writer.new ≡ false }
    ensures front { OnErr result (WritesFront W.contents writer.old writer.new (job_lines first records.now)) }
    ensures failed { OnErr result (has_failed writer.new ≡ true) }
{
    let mut line = [0; RECORD_ROOM];
    let mut number = first;
    for answer in records {
        let answer = *answer;
        write_record(&mut line, number, &answer, writer)?;
        number += 1;
    }
    Ok(())
}

/// Writes the line of a job's record, which is made in this buffer. The one error is `Write`.
fn write_record<W: Write>(
    line: &mut [u8; RECORD_ROOM],
    number: u32,
    answer: &Record,
    writer: &mut Watched<W>,
) -> Result<(), AnswerError>
    requires { has_failed writer.old ≡ false }
    ensures ok { OnOk result (Writes W.contents writer.old writer.new (job_line number answer.now)) }
    ensures passed { result ≢ Err AnswerError.Write → has_failed writer.new ≡ false }
    ensures front { OnErr result (WritesFront W.contents writer.old writer.new (job_line number answer.now)) }
    ensures failed { OnErr result (has_failed writer.new ≡ true) }
{
    let at = put_record(line, number, answer);
    write_all(writer, &line[at..])
}

/// Writes the line of a batch's record. The one error is `Write`.
pub fn write_batch<W: Write>(
    answer: &BatchRecord,
    writer: &mut Watched<W>,
) -> Result<(), AnswerError>
    requires { has_failed writer.old ≡ false }
    ensures ok { OnOk result (Writes W.contents writer.old writer.new (batch_line answer.now)) }
    ensures passed { result ≢ Err AnswerError.Write → has_failed writer.new ≡ false }
    ensures front { OnErr result (WritesFront W.contents writer.old writer.new (batch_line answer.now)) }
    ensures failed { OnErr result (has_failed writer.new ≡ true) }
{
    let mut line = [0; RECORD_ROOM];
    let start = put_batch(&mut line, answer);
    write_all(writer, &line[start..])
}

/// Writes all of some bytes, and flushes the writer.
///
/// # Errors
/// `Write` where a call of the writer failed, or took no byte; a front of the bytes is written then.
pub fn write_answer<W: Write>(writer: &mut Watched<W>, bytes: &[u8]) -> Result<(), RunFault>
    requires { has_failed writer.old ≡ false }
    ensures written { OnOk result (Writes W.contents writer.old writer.new bytes.now) }
    ensures flushed { OnOk result (is_flushed writer.new ≡ true) }
    ensures front { OnErr result (WritesFront W.contents writer.old writer.new bytes.now) }
    ensures write { IfErr result (λ fault. fault ≡ RunFault.Write) }
    ensures passed { OnOk result (has_failed writer.new ≡ false) }
    ensures failed { OnErr result (has_failed writer.new ≡ true) }
{
    if write_all(writer, bytes).is_err() || flush(writer).is_err() {
        return Err(RunFault::Write);
    }
    Ok(())
}

/// Writes all bytes. The one error is `Write`.
pub fn write_all<W: Write>(writer: &mut Watched<W>, bytes: &[u8]) -> Result<(), AnswerError>
    requires { has_failed writer.old ≡ false }
    ensures ok { OnOk result (Writes W.contents writer.old writer.new bytes.now) }
    ensures passed { result ≢ Err AnswerError.Write → has_failed writer.new ≡ false }
    ensures front { OnErr result (WritesFront W.contents writer.old writer.new bytes.now) }
    ensures failed { OnErr result (has_failed writer.new ≡ true) }
{
    let mut left = bytes;
    while !left.is_empty() {
        let count = write_some(writer, left)?;
        left = left.split_at(count).1;
    }
    Ok(())
}

/// Writes a front of some bytes, and answers how many it wrote. The one error is `Write`.
fn write_some<W: Write>(writer: &mut Watched<W>, bytes: &[u8]) -> Result<usize, AnswerError>
    requires some { 0 < length bytes.now }
    requires writer { has_failed writer.old ≡ false }
    ensures wrote { IfOk result (λ count. Writes W.contents writer.old writer.new (take count bytes.now)) }
    ensures some { IfOk result (λ count. 0 < count) }
    ensures within { IfOk result (λ count. count ≤ length bytes.now) }
    ensures passed { result ≢ Err AnswerError.Write → has_failed writer.new ≡ false }
    ensures none { OnErr result (Writes W.contents writer.old writer.new []) }
    ensures failed { OnErr result (has_failed writer.new ≡ true) }
{
    match writer.write(bytes) {
        Ok(0) | Err(_) => Err(AnswerError::Write),
        Ok(count) => Ok(count),
    }
}

/// Flushes a writer. The one error is `Write`.
pub fn flush<W: Write>(writer: &mut Watched<W>) -> Result<(), AnswerError>
    requires { has_failed writer.old ≡ false }
    ensures same { Keeps (W.contents (inner_of writer.old)) (W.contents (inner_of writer.new)) }
    ensures flushed { OnOk result (is_flushed writer.new ≡ true) }
    ensures passed { result ≢ Err AnswerError.Write → has_failed writer.new ≡ false }
    ensures failed { OnErr result (has_failed writer.new ≡ true) }
{
    match writer.flush() {
        Ok(()) => Ok(()),
        Err(_) => Err(AnswerError::Write),
    }
}
