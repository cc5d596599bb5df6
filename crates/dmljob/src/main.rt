//! The program `dmljob`: carries out scripts of memory jobs, and describes descriptors.
#![tactic(auto)]

ghost use Rattle.std.specs.Prelude.{IfErr};
ghost use Rattle.std.specs.Process.{exit_status};
ghost use Rattle.dml_types.specs.Limits.{IsValid};
ghost use Rattle.dml_command.specs.Request.{HasValidSettings};
ghost use Rattle.dmljob.specs.Refusal.{EndsWith, IsOfRequest, IsShown};

mod answers;
mod descriptions;
mod refusals;

use answers::answer_request;
use dml_command::{LineRefusal, Request, read_request};
use dml_script::Watched;
use refusals::{Refusal, status_of};
use std::io::BufWriter;
use std::process::ExitCode;
use std::sync::Wait;
use std::thread::Threads;
use std::{env, io};

// The program's words; the first is its name.
fn arguments_in(rt: &HostRuntime) -> io::Result<Vec<String>> {
    let arguments = env::args(rt)?.collect(rt.alloc())?;
    Ok(arguments)
}

// Answers a request on the standard input and output: no contract can see those, so what is written is promised by
// `answer_request` alone.
fn answered<T: Threads + Wait + Sync>(
    rt: &HostRuntime,
    threads: &T,
    request: Request,
) -> Result<(), Refusal>
    requires { HasValidSettings request }
    ensures { IfErr result (IsOfRequest request) }
{
    let alloc = rt.alloc();
    let Ok(output) = BufWriter::new(alloc, io::writer(rt)) else {
        return Err(Refusal::NoMemory);
    };
    let (mut reader, mut writer) = (Watched::new(rt.reader()), Watched::new(output));
    answer_request(threads, alloc, &mut reader, &mut writer, request)
}

// Help goes to the standard output, which may fail.
fn with_help_shown(rt: &HostRuntime, refusal: Refusal) -> Refusal
    ensures { IsShown refusal result }
{
    match &refusal {
        Refusal::Line(LineRefusal::Help(_)) if rt.print(&refusal).is_err() => Refusal::Write,
        _ => refusal,
    }
}

// How the program ends: it shows why there is no answer.
fn ended(rt: &HostRuntime, answer: Result<(), Refusal>) -> ExitCode
    ensures { EndsWith answer (exit_status result) }
{
    let Err(refusal) = answer else {
        return ExitCode::from(0);
    };
    let refusal = with_help_shown(rt, refusal);
    if !matches!(refusal, Refusal::Line(LineRefusal::Help(_))) {
        let _ = rt.eprint(&refusal);
    }
    ExitCode::from(status_of(&refusal))
}

fn main(rt: HostRuntime) -> ExitCode {
    let answer = match read_request(rt.alloc(), arguments_in(&rt)) {
        Ok(request) => answered(&rt, &rt, request),
        Err(refusal) => Err(Refusal::Line(refusal)),
    };
    ended(&rt, answer)
}

#[cfg(test)]
mod tests;
