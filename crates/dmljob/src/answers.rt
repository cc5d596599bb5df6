//! The answers to requests, written to any writer.
ghost use Rattle.std.specs.Prelude.{◌≡◌, ◌≢◌, ◌<◌, false, true, length, Err, IfErr, IfSome, IsErrOf, OnErr, OnOk};
ghost use Rattle.std.specs.Io.KnownBytes.{IsAtEnd};
ghost use Rattle.dml_types.specs.Limits.{IsValid};
ghost use Rattle.dml_script.specs.Run.{HasFault, IsScript, answer, longest_script};
ghost use Rattle.dml_script.specs.Watching.{Writes, WritesFront, has_failed, inner_of, is_flushed};
ghost use Rattle.dmljob.specs.Description.{description_of};
ghost use Rattle.dmljob.specs.Answer.{IfDecode, IfRun, answer_to};
ghost use Rattle.dmljob.specs.Refusal.{IfScript, IsOfDescription, IsOfRequest, IsOfRun};
ghost use Rattle.dml_command.specs.Request.{HasValidSettings};
ghost use Rattle.dmljob.specs.declared.refusals.Refusal.TheVariants as refusal;

use crate::descriptions::description;
use crate::refusals::Refusal;
use dml_command::Request;
use dml_script::{Watched, run_script, write_answer};
use dml_types::Settings;
use std::alloc::Global;
use std::io::{Read, Write};
use std::sync::Wait;
use std::thread::Threads;

/// Carries out the script that the reader gives, and writes its answer; each promise is that of `run_script`.
pub fn carried_out<T: Threads + Wait + Sync, R: Read, W: Write>(
    rt: &T,
    alloc: Global,
    reader: &mut Watched<R>,
    writer: &mut Watched<W>,
    settings: Settings,
) -> Result<(), Refusal>
    requires settings { IsValid settings }
    requires reader { has_failed reader.old ≡ false }
    requires writer { has_failed writer.old ≡ false }
    ensures answered { OnOk result (IfSome (R.remaining (inner_of reader.old)) (λ bytes.
        Writes W.contents writer.old writer.new (answer bytes settings.staging))) }
    ensures is_script { OnOk result (IfSome (R.remaining (inner_of reader.old)) IsScript) }
    ensures all_read { OnOk result (IsAtEnd (R.remaining (inner_of reader.new))) }
    ensures flushed { OnOk result (is_flushed writer.new ≡ true) }
    ensures reader { result ≢ Err refusal.Read → has_failed reader.new ≡ false }
    ensures writer { result ≢ Err refusal.Write → has_failed writer.new ≡ false }
    ensures front { OnErr result (IfSome (R.remaining (inner_of reader.old)) (λ bytes.
        WritesFront W.contents writer.old writer.new (answer bytes settings.staging))) }
    ensures script { IfScript result (λ fault. (writer.new ≡ writer.old)
        × IfSome (R.remaining (inner_of reader.old)) (λ bytes. HasFault bytes fault)) }
    ensures too_long { IsErrOf result refusal.TooLong → (writer.new ≡ writer.old)
        × IfSome (R.remaining (inner_of reader.old)) (λ bytes. longest_script < length bytes) }
    ensures read { IsErrOf result refusal.Read → (writer.new ≡ writer.old) × (has_failed reader.new ≡ true) }
    ensures write { IsErrOf result refusal.Write → (has_failed writer.new ≡ true)
        × IfSome (R.remaining (inner_of reader.old)) IsScript }
    ensures refused { IfErr result IsOfRun }
{
    run_script(rt, alloc, reader, writer, settings)?;
    Ok(())
}

/// Writes the two lines on a descriptor of 64 bytes, and flushes the writer. Without memory nothing is written.
pub fn described<W: Write>(
    alloc: Global,
    writer: &mut Watched<W>,
    bytes: &[u8; 64],
) -> Result<(), Refusal>
    requires { has_failed writer.old ≡ false }
    ensures written { OnOk result (Writes W.contents writer.old writer.new (description_of bytes.now)) }
    ensures flushed { OnOk result (is_flushed writer.new ≡ true) }
    ensures writer { result ≢ Err refusal.Write → has_failed writer.new ≡ false }
    ensures memory { IsErrOf result refusal.NoMemory → writer.new ≡ writer.old }
    ensures front { IsErrOf result refusal.Write →
        WritesFront W.contents writer.old writer.new (description_of bytes.now) }
    ensures write { IsErrOf result refusal.Write → has_failed writer.new ≡ true }
    ensures refused { IfErr result IsOfDescription }
{
    let text = description(alloc, bytes)?;
    match write_answer(writer, text.as_bytes()) {
        Ok(()) => Ok(()),
        Err(_) => Err(Refusal::Write),
    }
}

/// Writes the answer to a request, and flushes the writer; the reader is read for a run alone. What `carried_out` and
/// `described` promise, it promises of their requests.
pub fn answer_request<T: Threads + Wait + Sync, R: Read, W: Write>(
    rt: &T,
    alloc: Global,
    reader: &mut Watched<R>,
    writer: &mut Watched<W>,
    request: Request,
) -> Result<(), Refusal>
    requires settings { HasValidSettings request }
    requires reader { has_failed reader.old ≡ false }
    requires writer { has_failed writer.old ≡ false }

    // Of each request.
    ensures answered { OnOk result (IfSome (R.remaining (inner_of reader.old)) (λ bytes.
        Writes W.contents writer.old writer.new (answer_to request bytes))) }
    ensures flushed { OnOk result (is_flushed writer.new ≡ true) }
    ensures reader { result ≢ Err refusal.Read → has_failed reader.new ≡ false }
    ensures writer { result ≢ Err refusal.Write → has_failed writer.new ≡ false }
    ensures read { IsErrOf result refusal.Read → (writer.new ≡ writer.old) × (has_failed reader.new ≡ true) }
    ensures write { IsErrOf result refusal.Write → has_failed writer.new ≡ true }
    ensures refused { IfErr result (IsOfRequest request) }

    // Of a run.
    ensures is_script { IfRun request (λ _. OnOk result (IfSome (R.remaining (inner_of reader.old)) IsScript)) }
    ensures all_read { IfRun request (λ _. OnOk result (IsAtEnd (R.remaining (inner_of reader.new)))) }
    ensures front { IfRun request (λ settings. OnErr result (IfSome (R.remaining (inner_of reader.old)) (λ bytes.
        WritesFront W.contents writer.old writer.new (answer bytes settings.staging)))) }
    ensures script { IfRun request (λ _. IfScript result (λ fault. (writer.new ≡ writer.old)
        × IfSome (R.remaining (inner_of reader.old)) (λ bytes. HasFault bytes fault))) }
    ensures too_long { IfRun request (λ _. IsErrOf result refusal.TooLong → (writer.new ≡ writer.old)
        × IfSome (R.remaining (inner_of reader.old)) (λ bytes. longest_script < length bytes)) }
    ensures checked { IfRun request (λ _. IsErrOf result refusal.Write →
        IfSome (R.remaining (inner_of reader.old)) IsScript) }

    // Of a description.
    ensures written { IfDecode request (λ bytes. OnOk result
        (Writes W.contents writer.old writer.new (description_of bytes))) }
    ensures memory { IfDecode request (λ _. IsErrOf result refusal.NoMemory → writer.new ≡ writer.old) }
    ensures part { IfDecode request (λ bytes. IsErrOf result refusal.Write →
        WritesFront W.contents writer.old writer.new (description_of bytes)) }
    ensures unread { IfDecode request (λ _. reader.new ≡ reader.old) }
{
    match request {
        Request::Run(settings) => carried_out(rt, alloc, reader, writer, settings),
        Request::Decode(bytes) => described(alloc, writer, &bytes),
    }
}
