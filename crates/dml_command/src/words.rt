//! The words of the command line.
ghost use Rattle.std.specs.Prelude.{◌≡◌, false, true, is_some, IfOk, map};
ghost use Rattle.clap.specs.Words.{FailsBy, app_of, fault_of, found_of};
ghost use Rattle.clap.specs.Words.{rows_of, rule_of, subcommand_of, subcommand_rows_of};
ghost use Rattle.clap.specs.declared.builder.command.Command.TheViews.{out-Command as fields_of};
ghost use Rattle.dml_command.specs.Line.{HasSettings, IsAsked, IsFound, IsLine, decode_app, dmljob, option_in};
ghost use Rattle.dml_command.specs.Line.{option_rule, run_app};

use crate::help;
use clap::{Arg, ArgMatches, Command, Error, value_parser};
use dml_types::Settings;
use std::alloc::{AllocError, Global};

/// What the words of a command line ask for.
#[derive(Clone, Copy, PartialEq, Debug)]
pub enum Line<'a> {
    /// Carry out the script on the standard input.
    Run(Settings),
    /// Show the descriptor whose hexadecimal digits this word has.
    Decode(&'a str),
}

/// An option `--NAME N`, whose value is a number of 32 bits.
fn number_option<'a>(alloc: Global, name: &'a str, default: &'a str, help: &'a str) -> Arg<'a>
    ensures rule { rule_of result ≡ option_rule name.entry.now default.entry.now }
    ensures local { result.global ≡ false }
{
    Arg::new(alloc, name)
        .long(name)
        .value_name("N")
        .value_parser(value_parser!(u32))
        .default_value(default)
        .help(help)
}

fn run_command<'a>(alloc: Global) -> Result<Command<'a>, AllocError>
    ensures app { IfOk result (λ command. app_of command ≡ run_app) }
    ensures local { IfOk result (λ command. (fields_of command).has_globals ≡ false) }
{
    let workers = number_option(alloc, "workers", "4", help::WORKERS);
    let chunk = number_option(alloc, "chunk", "4096", help::CHUNK);
    let arena = number_option(alloc, "arena", "1048576", help::ARENA);
    Command::new(alloc, "run")
        .about(help::RUN)
        .after_help(help::SCRIPT)
        .arg(workers)?
        .arg(chunk)?
        .arg(arena)
}

fn decode_command<'a>(alloc: Global) -> Result<Command<'a>, AllocError>
    ensures app { IfOk result (λ command. app_of command ≡ decode_app) }
    ensures local { IfOk result (λ command. (fields_of command).has_globals ≡ false) }
{
    let hex = Arg::new(alloc, "HEX").required(true).help(help::HEX);
    Command::new(alloc, "decode")
        .about(help::DECODE)
        .after_help(help::DESCRIPTOR)
        .arg(hex)
}

fn dmljob_command<'a>(alloc: Global) -> Result<Command<'a>, AllocError>
    ensures { IfOk result (λ command. app_of command ≡ dmljob) }
{
    let run = run_command(alloc)?;
    let decode = decode_command(alloc)?;
    Command::new(alloc, "dmljob")
        .about(help::ABOUT)
        .after_help(help::EXAMPLE)
        .subcommand_required(true)
        .subcommand(run)?
        .subcommand(decode)
}

fn number(found: &ArgMatches<'_>, name: &str) -> u32
    requires { is_some (option_in (rows_of (found_of found.now)) name.now) ≡ true }
    ensures { option_in (rows_of (found_of found.now)) name.now ≡ Some result }
{
    found.get_one::<u32>(name).unwrap()
}

fn settings_of(found: &ArgMatches<'_>) -> Settings
    requires { HasSettings (rows_of (found_of found.now)) }
    ensures { IsFound (rows_of (found_of found.now)) result }
{
    Settings {
        staging: number(found, "arena"),
        chunk: number(found, "chunk"),
        workers: number(found, "workers"),
    }
}

fn line_of<'a>(matches: &ArgMatches<'a>) -> Line<'a>
    requires { IsAsked (subcommand_rows_of matches.now) }
    ensures { IsLine (subcommand_rows_of matches.now) result }
{
    match matches.subcommand() {
        Some((name, found)) if name == "run" => Line::Run(settings_of(found)),
        Some((_, found)) => Line::Decode(found.get_str("HEX").unwrap()),
        None => unreachable!(),
    }
}

/// What the words of a command line say; the first is the program's name.
///
/// The settings may be out of their range, and the word of `decode` may be no descriptor. An `Err`
/// is clap's: of the kind `OutOfMemory` for want of memory, `DisplayHelp` where help was asked for,
/// and else of the kind of the first mistake in the words.
pub fn command_of<'a>(alloc: Global, words: &'a [&'a str]) -> Result<Line<'a>, Error>
    ensures line { IfOk result (IsLine (subcommand_of dmljob
        (map (λ word. word.now) words.entry.now))) }
    ensures refused { FailsBy (fault_of dmljob (map (λ word. word.now) words.entry.now)) result }
{
    let matches = dmljob_command(alloc)?.try_get_matches_from(words)?;
    Ok(line_of(&matches))
}
