//! What the program is asked for.
ghost use Rattle.std.specs.Prelude.{◌≡◌, Err, IfErr, IfOk, map, string_bytes};
ghost use Rattle.std.specs.IoError.{error_kind};
ghost use Rattle.dml_command.specs.Refusal.{unread_refusal};
ghost use Rattle.dml_command.specs.Request.{WordsAsk, ComesTo, HasValidSettings, Judges};

use crate::refusals::{LineRefusal, refusal_of_words};
use crate::words::{Line, command_of};
use dml_types::Settings;
use hex::FromHex;
use std::alloc::Global;
use std::io;

/// What a command line asks for, once it is judged.
#[derive(Clone, Copy, PartialEq, Debug)]
pub enum Request {
    /// Carry out the script on the standard input, with settings in their range.
    Run(Settings),
    /// Show a descriptor of 64 bytes.
    Decode([u8; 64]),
}

/// Judges the settings or the descriptor's digits of a line, before any input is read.
pub fn request_of(line: Line<'_>) -> Result<Request, LineRefusal>
    ensures judged { Judges line.entry result }
    ensures valid { IfOk result HasValidSettings }
{
    match line {
        Line::Run(settings) if settings.is_valid() => Ok(Request::Run(settings)),
        Line::Run(_) => Err(LineRefusal::Settings),
        Line::Decode(hex) => match <[u8; 64] as FromHex>::from_hex(hex) {
            Ok(bytes) => Ok(Request::Decode(bytes)),
            Err(_) => Err(LineRefusal::NotHex),
        },
    }
}

// Judges the line of clap's answer; its error becomes the case of its kind.
fn judged(answer: Result<Line<'_>, clap::Error>) -> Result<Request, LineRefusal>
    ensures judged { ComesTo answer.entry result }
    ensures valid { IfOk result HasValidSettings }
{
    request_of(answer?)
}

/// What the words of a command line ask for; the first is the program's name. The words are judged
/// first, and then the settings or the descriptor's digits.
pub fn parse_words<'a>(alloc: Global, words: &'a [&'a str]) -> Result<Request, LineRefusal>
    ensures judged { WordsAsk (map (λ word. word.now) words.entry.now) result }
    ensures valid { IfOk result HasValidSettings }
{
    judged(command_of(alloc, words))
}

/// What the arguments of the program ask for.
pub fn parse_arguments(alloc: Global, arguments: &[String]) -> Result<Request, LineRefusal>
    ensures judged { WordsAsk (map string_bytes arguments.now) result }
    ensures valid { IfOk result HasValidSettings }
{
    let mut words = Vec::with_capacity(alloc, arguments.len())?;
    for argument in arguments {
        words.push(argument.as_str())?;
    }
    parse_words(alloc, words.as_slice())
}

/// What the arguments of the program ask for, where they could be read.
pub fn read_request(
    alloc: Global,
    arguments: io::Result<Vec<String>>,
) -> Result<Request, LineRefusal>
    ensures unread { IfErr arguments (λ error. result ≡ Err (unread_refusal (error_kind error))) }
    ensures judged { IfOk arguments (λ words. WordsAsk (map string_bytes words.items) result) }
    ensures valid { IfOk result HasValidSettings }
{
    let words = arguments.map_err(refusal_of_words)?;
    parse_arguments(alloc, &words)
}
