//! The reader of a script's lines.

ghost use Rattle.std.specs.Prelude.{◌≡◌, ◌+◌, ◌≤◌, ◌∷◌, ◌++◌, [], length, None, Some, IfErr, IfOk, IfSome, IsErrOf, MatchOption, OnOk};
ghost use Rattle.std.specs.Str.Lines.{lines};
ghost use Rattle.dml_grammar.specs.Grammar as grammar;
ghost use Rattle.dml_grammar.specs.Left.{left_from, nothing_but, with_line};
ghost use Rattle.dml_grammar.specs.Reads.{FitsFields, IsNext, values_seen};
ghost use Rattle.dml_grammar.specs.declared.faults.ScriptError.TheVariants as errors;
ghost use Rattle.dml_grammar.specs.declared.faults.ScriptFault.{ScriptFault as TheFault};

use crate::entries::Values;
use crate::faults::{Kind, ReadError, ScriptError, ScriptFault};
use crate::judge::{judge, line_of};
use crate::lines::Line;
use crate::progress::Progress;
use crate::script::MAX_SCRIPT;
use crate::table::Word;
use crate::words::next_line;
use std::alloc::Global;
use std::marker::Model;

/// Reads a text line by line. It keeps the text that is left and what the lines so far say of the image's pages, and
/// no line.
#[derive(Drop)]
pub struct LineReader<'a> {
    rest: &'a [u8],
    number: u32,
    opened: u32,
    progress: Progress,
}

impl<'a> Model for LineReader<'a> {
    ghost use Rattle.std.specs.Prelude.{◌+◌, ◌≤◌, length};
    ghost use Rattle.std.specs.Str.Lines.{lines};
    ghost use Rattle.dml_grammar.specs.Left.{Left, left_from};

    ghost Value = { Left };

    ghost view = { λ reader. left_from reader.number reader.opened reader.progress (lines reader.rest.now) };

    ghost invariant = { λ reader. reader.number + length reader.rest.now ≤ 4194305 };
}

impl<'a> LineReader<'a> {
    ghost use Rattle.std.specs.Prelude.{◌≡◌, ◌≤◌, length, IfOk, IfSome};
    ghost use Rattle.dml_grammar.specs.Left.{Finds, Gives, Passes, all_left};
    ghost use Rattle.dml_grammar.specs.Reads.{FitsFields, values_seen};

    /// Before the first line of a text of at most `MAX_SCRIPT` bytes.
    #[tactic(auto, unfolding(crate::specs::Left::left_from))]
    pub fn new(alloc: Global, text: &'a [u8]) -> LineReader<'a>
        requires { length text.now ≤ MAX_SCRIPT }
        ensures { result ≡ all_left text.now }
    {
        LineReader {
            rest: text,
            number: 1,
            opened: 0,
            progress: Progress::new(alloc),
        }
    }

    /// The next line that is not skipped, None behind the last one, or the text's first fault. Where memory is
    /// refused, the same line is still the next.
    pub fn next(&mut self, alloc: Global) -> Result<Option<Line>, ScriptError>
        ensures { Gives result self.old self.new }
    {
        let mut values = Values::new(alloc);
        let Some(word) = self.step(alloc, &mut values)? else {
            return Ok(None);
        };
        Ok(Some(line_of(alloc, word, &mut values)))
    }

    /// Passes over the next line as `next` gives it; false behind the last one.
    pub fn pass(&mut self, alloc: Global) -> Result<bool, ScriptError>
        ensures { Passes result self.old self.new }
    {
        let mut values = Values::new(alloc);
        let word = self.step(alloc, &mut values)?;
        Ok(word.is_some())
    }

    /// The next line as its first word and its values.
    #[tactic(auto, using(crate::proofs::LeftLemmas::left_alike))]
    #[inline(never)]
    fn step(&mut self, alloc: Global, values: &mut Values) -> Result<Option<Word>, ScriptError>
        ensures gives { Finds result values.new self.old self.new }
        ensures fits { IfOk result (λ word. IfSome word (λ word. FitsFields word (values_seen values.new))) }
    {
        let (rest, number, opened) = (self.rest, self.number, self.opened);
        let Some(found) = find_line(alloc, &self.progress, rest, number, opened, values)? else {
            return Ok(None);
        };
        self.progress.note(alloc, found.word, values)?;
        self.rest = found.rest;
        self.number = found.number;
        self.opened = found.opened;
        Ok(Some(found.word))
    }
}

/// The first word of a line, the text behind the line, the number of that text's first line and that of the last
/// `batch` line before it.
#[derive(Drop)]
struct FoundLine<'a> {
    word: Word,
    rest: &'a [u8],
    number: u32,
    opened: u32,
}

/// The first line of a text that is not skipped, None where there is no more line, or its fault. The text begins at
/// the line of this number, and the last `batch` line before it has the other.
#[tactic(auto, unfolding(crate::specs::Left::left_from))]
fn find_line<'a>(
    alloc: Global,
    progress: &Progress,
    text: &'a [u8],
    number: u32,
    opened: u32,
    values: &mut Values,
) -> Result<Option<FoundLine<'a>>, ScriptError>
    requires { number + length text.now ≤ 4194305 }
    ensures line { IfOk result (λ found. MatchOption found (left_from number opened progress.now (lines text.now) ≡
        nothing_but None)
        (λ f. left_from number opened progress.now (lines text.now)
        ≡ with_line (grammar.line_of f.word (values_seen values.new)) (left_from f.number f.opened
        (progress.now ++ grammar.line_of f.word (values_seen values.new) ∷ []) (lines f.rest.now)))) }
    ensures fits { IfOk result (λ found. IfSome found (λ f. FitsFields f.word (values_seen values.new))) }
    ensures next { IfOk result (λ found. IfSome found (λ f.
        IsNext progress.now (grammar.line_of f.word (values_seen values.new)))) }
    ensures count { IfOk result (λ found. IfSome found (λ f. f.number + length f.rest.now ≤ 4194305)) }
    ensures fault { (fault : TheFault) → IsErrOf result (errors.Fault fault) →
        left_from number opened progress.now (lines text.now) ≡ nothing_but (Some fault) }
{
    let (mut rest, mut number) = (text, number);
    while !rest.is_empty() {
        let (text, after) = next_line(rest);
        number += 1;
        rest = after;
        match judge(alloc, progress, text, values) {
            Ok(None) => {}
            Ok(Some(word)) => {
                return Ok(Some(FoundLine {
                    opened: opening_number(number - 1, word, opened),
                    word,
                    rest,
                    number,
                }));
            }
            Err(ReadError::NoMemory) => return Err(ScriptError::NoMemory),
            Err(ReadError::Fault(kind)) => return Err(fault_at(number - 1, kind)),
        }
    }
    end_of_text(progress, number, opened)?;
    Ok(None)
}

/// The number of the last `batch` line, behind a line of this number with this first word.
fn opening_number(number: u32, word: Word, opened: u32) -> u32
    ensures { (values : grammar.Values) → result ≡ grammar.opening_number number (grammar.line_of word values) opened }
{
    match word {
        Word::Batch => number,
        _ => opened,
    }
}

/// The end of a text, at this number of a line: the `image` line is missing, a batch is open, or all is well.
#[tactic(auto, unfolding(crate::specs::Left::left_from))]
fn end_of_text(progress: &Progress, number: u32, opened: u32) -> Result<(), ScriptError>
    ensures fine { OnOk result (left_from number opened progress.now [] ≡ nothing_but None) }
    ensures fault { IfErr result (λ e. (fault : TheFault) × (e ≡ errors.Fault fault)
        × (left_from number opened progress.now [] ≡ nothing_but (Some fault))) }
{
    if progress.is_empty() {
        return Err(fault_at(number, Kind::MissingImage));
    }
    if progress.open_jobs().is_some() {
        return Err(fault_at(opened, Kind::OpenBatch));
    }
    Ok(())
}

/// The fault of a line.
fn fault_at(line: u32, kind: Kind) -> ScriptError
    ensures { result ≡ errors.Fault (grammar.fault_at line kind) }
{
    ScriptError::Fault(ScriptFault { line, kind })
}
