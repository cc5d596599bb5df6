//! The run of a script from a reader to a writer.

ghost use Rattle.std.specs.Prelude.{◌≡◌, ◌≢◌, ◌+◌, ◌^◌, ◌<◌, ◌≤◌, false, true, length, Err, OnOk, OnErr, IsErrOf, IfErr, IfOk, IfSome};
ghost use Rattle.std.specs.Io.KnownBytes.{IsAtEnd};
ghost use Rattle.dml_types.specs.Limits.{IsValid};
ghost use Rattle.dml_script.specs.Run.{HasFault, IsScript, after_line, answer, session_answer, answer_of, longest_script, opening};
ghost use Rattle.dml_script.specs.Runnable.{IsRunnable, MayCome};
ghost use Rattle.dml_script.specs.Watching.{inner_of, has_failed, is_flushed, Writes, WritesFront};
ghost use Rattle.dml_grammar.specs.declared.faults.ScriptFault.{ScriptFault as TheFault};
ghost use Rattle.dml_script.specs.declared.running.RunFault.TheVariants as faults;

use crate::input::read_all;
use crate::sessions::Session;
use crate::watching::Watched;
use crate::writing::{AnswerError, flush};
use dml_engine::Engine;
use dml_grammar::{
    Line, MAX_SCRIPT, ScriptError, ScriptFault, ScriptLines, fault_text, read_script,
};
use dml_image::Image;
use dml_types::Settings;
use std::alloc::{AllocError, Global};
use std::io::{Read, Write};
use std::sync::Wait;
use std::thread::Threads;
use thiserror::Error;

/// Why a script was not run to its end.
#[derive(Clone, Copy, PartialEq, Eq, Debug, Error)]
pub enum RunFault {
    /// A call of the reader failed. Nothing was written.
    #[error("cannot read the script")]
    Read,
    /// The script has more than 4,194,304 bytes. Nothing was written.
    #[error("the script is too long")]
    TooLong,
    /// The script's first fault. Nothing was written.
    #[error("line {}: {}", .0.line, fault_text(.0.kind))]
    Script(ScriptFault),
    /// Want of memory; a front of the answer may have been written.
    #[error("out of memory")]
    NoMemory,
    /// A call of the writer failed, or took no byte; a front of the answer may have been written.
    #[error("cannot write the answer")]
    Write,
}

impl From<AllocError> for RunFault {
    ghost use Rattle.std.specs.Prelude.{◌≡◌};
    ghost use Rattle.dml_script.specs.declared.running.RunFault.TheVariants.{NoMemory};

    ghost from_gives = { λ _ fault. fault ≡ NoMemory };

    fn from(_error: AllocError) -> RunFault {
        RunFault::NoMemory
    }
}

impl From<ScriptError> for RunFault {
    ghost use Rattle.std.specs.Prelude.{◌≡◌};
    ghost use Rattle.dml_script.specs.Run.{fault_of_script};

    ghost from_gives = { λ error fault. fault ≡ fault_of_script error };

    fn from(error: ScriptError) -> RunFault {
        match error {
            ScriptError::Fault(fault) => RunFault::Script(fault),
            ScriptError::NoMemory => RunFault::NoMemory,
        }
    }
}

impl From<AnswerError> for RunFault {
    ghost use Rattle.std.specs.Prelude.{◌≡◌};
    ghost use Rattle.dml_script.specs.Run.{fault_of_answer};

    ghost from_gives = { λ error fault. fault ≡ fault_of_answer error };

    fn from(error: AnswerError) -> RunFault {
        match error {
            AnswerError::NoMemory => RunFault::NoMemory,
            AnswerError::Write => RunFault::Write,
        }
    }
}

/// Reads a whole script, and then writes its answer and flushes the writer.
///
/// Each line of the answer is one write, so a writer to the outside should be buffered.
pub fn run_script<T: Threads + Wait + Sync, R: Read, W: Write>(
    rt: &T,
    alloc: Global,
    reader: &mut Watched<R>,
    writer: &mut Watched<W>,
    settings: Settings,
) -> Result<(), RunFault>
    requires settings { IsValid settings }
    requires reader { has_failed reader.old ≡ false }
    requires writer { has_failed writer.old ≡ false }

    // The answer of the whole input is written, and nothing else.
    ensures answered { OnOk result (IfSome (R.remaining (inner_of reader.old)) (λ bytes.
        Writes W.contents writer.old writer.new (answer bytes settings.staging))) }
    ensures is_script { OnOk result (IfSome (R.remaining (inner_of reader.old)) IsScript) }
    ensures all_read { OnOk result (IsAtEnd (R.remaining (inner_of reader.new))) }
    ensures flushed { OnOk result (is_flushed writer.new ≡ true) }

    // A failed call of the reader or the writer is always told.
    ensures reader { result ≢ Err faults.Read → has_failed reader.new ≡ false }
    ensures writer { result ≢ Err faults.Write → has_failed writer.new ≡ false }

    // Whatever the error, no more than a front of the answer is written; and nothing before the script is checked. A
    // script with a fault or over the limit has no answer.
    ensures front { OnErr result (IfSome (R.remaining (inner_of reader.old)) (λ bytes.
        WritesFront W.contents writer.old writer.new (answer bytes settings.staging))) }
    ensures script { (fault : TheFault) → IsErrOf result (faults.Script fault) → (writer.new ≡ writer.old)
        × IfSome (R.remaining (inner_of reader.old)) (λ bytes. HasFault bytes fault) }
    ensures too_long { IsErrOf result faults.TooLong → (writer.new ≡ writer.old)
        × IfSome (R.remaining (inner_of reader.old)) (λ bytes. longest_script < length bytes) }
    ensures read { IsErrOf result faults.Read → (writer.new ≡ writer.old) × (has_failed reader.new ≡ true) }
    ensures write { IsErrOf result faults.Write → (has_failed writer.new ≡ true)
        × IfSome (R.remaining (inner_of reader.old)) IsScript }
{
    let bytes = read_all(alloc, reader)?;
    answer_input(rt, alloc, bytes.as_slice(), writer, settings)
}

/// Checks a whole script and writes its answer.
#[tactic(auto, using(crate::proofs::RunLemmas::input_steps))]
fn answer_input<T: Threads + Wait + Sync, W: Write>(
    rt: &T,
    alloc: Global,
    bytes: &[u8],
    writer: &mut Watched<W>,
    settings: Settings,
) -> Result<(), RunFault>
    requires valid { IsValid settings }
    requires within { length bytes.now ≤ MAX_SCRIPT }
    requires writer { has_failed writer.old ≡ false }
    ensures answered { OnOk result (Writes W.contents writer.old writer.new (answer bytes.now settings.staging)) }
    ensures is_script { OnOk result (IsScript bytes.now) }
    ensures passed { result ≢ Err faults.Write → has_failed writer.new ≡ false }
    ensures flushed { OnOk result (is_flushed writer.new ≡ true) }
    ensures front { OnErr result (WritesFront W.contents writer.old writer.new (answer bytes.now settings.staging)) }
    ensures script { (fault : TheFault) → IsErrOf result (faults.Script fault)
        → (writer.new ≡ writer.old) × HasFault bytes.now fault }
    ensures write { IsErrOf result faults.Write → (has_failed writer.new ≡ true) × IsScript bytes.now }
    ensures no_read { result ≢ Err faults.Read }
    ensures no_length { result ≢ Err faults.TooLong }
{
    let script = read_script(alloc, bytes)?;
    answer_script(rt, alloc, script.lines(alloc), writer, settings)?;
    Ok(())
}

/// Writes the answer of a script's lines, and flushes the writer.
fn answer_script<T: Threads + Wait + Sync, W: Write>(
    rt: &T,
    alloc: Global,
    mut lines: ScriptLines<'_>,
    writer: &mut Watched<W>,
    settings: Settings,
) -> Result<(), AnswerError>
    requires valid { IsValid settings }
    requires runnable { IsRunnable settings.staging lines }
    requires writer { has_failed writer.old ≡ false }
    ensures ok { OnOk result (Writes W.contents writer.old writer.new
        (session_answer settings.staging opening lines.entry)) }
    ensures passed { result ≢ Err AnswerError.Write → has_failed writer.new ≡ false }
    ensures flushed { OnOk result (is_flushed writer.new ≡ true) }
    ensures front { OnErr result (WritesFront W.contents writer.old writer.new
        (session_answer settings.staging opening lines.entry)) }
    ensures failed { IsErrOf result AnswerError.Write → has_failed writer.new ≡ true }
{
    let Some(Line::Image { pages }) = lines.next_line(alloc)? else {
        unreachable!()
    };
    let session = begin(alloc, pages, settings)?;
    answer_lines(rt, alloc, session, lines, writer)
}

/// The session behind the first line of a script, which gives the image so many pages.
fn begin(alloc: Global, pages: u32, settings: Settings) -> Result<Session, AnswerError>
    requires valid { IsValid settings }
    ensures session { IfOk result (λ session. session.session
        ≡ after_line settings.staging opening (Line.Image pages)) }
    ensures staging { IfOk result (λ session. session.staging ≡ settings.staging) }
    ensures err { IfErr result (λ e. e ≡ AnswerError.NoMemory) }
{
    let image = Image::new(alloc, pages)?;
    let engine = Engine::new(alloc, image, settings)?;
    Ok(Session::new(alloc, engine))
}

/// Writes what the lines after the first show, and flushes the writer.
fn answer_lines<T: Threads + Wait + Sync, W: Write>(
    rt: &T,
    alloc: Global,
    mut session: Session,
    mut lines: ScriptLines<'_>,
    writer: &mut Watched<W>,
) -> Result<(), AnswerError>
    requires lines { MayCome session lines }
    requires writer { has_failed writer.old ≡ false }
    ensures ok { OnOk result (Writes W.contents writer.old writer.new (answer_of session.entry lines.entry)) }
    ensures passed { result ≢ Err AnswerError.Write → has_failed writer.new ≡ false }
    ensures flushed { OnOk result (is_flushed writer.new ≡ true) }
    ensures front { OnErr result (WritesFront W.contents writer.old writer.new (answer_of session.entry lines.entry)) }
    ensures failed { IsErrOf result AnswerError.Write → has_failed writer.new ≡ true }
{
    let mut ahead = lines.next_line(alloc)?;
    while let Some(line) = ahead {
        ahead = session.answer_line(rt, alloc, line, &mut lines, writer)?;
    }
    flush(writer)
}
