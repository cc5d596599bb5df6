//! Scripts without faults.

ghost use Rattle.std.specs.Prelude.{◌≤◌, length};
ghost use Rattle.dml_grammar.specs.Grammar.{parse};
ghost use Rattle.dml_grammar.specs.Reads.{Reads};

use crate::faults::ScriptError;
use crate::lines::Line;
use crate::reader::LineReader;
use std::alloc::{AllocError, Global};
use std::marker::Model;

/// The most bytes of a script: 4 MiB.
pub const MAX_SCRIPT: usize = 4_194_304;

/// A script without faults: its lines, in order. It keeps its text alone, in which they are read again one by one.
#[derive(Debug, Drop)]
pub struct Script<'a> {
    text: &'a [u8],
}

impl<'a> Model for Script<'a> {
    ghost use Rattle.std.specs.Prelude.{◌≡◌, ◌≤◌, List, None, length};
    ghost use Rattle.dml_grammar.specs.declared.lines.Line.{Line};
    ghost use Rattle.dml_grammar.specs.Left.{all_left};

    ghost Value = { List Line };

    ghost view = { λ script. (all_left script.text.now).lines };

    ghost invariant = { λ script. (length script.text.now ≤ 4194304) × ((all_left script.text.now).fault ≡ None) };
}

impl<'a> Script<'a> {
    ghost use Rattle.std.specs.Prelude.{◌≡◌};

    /// The lines, from the first one on.
    pub fn lines(&self, alloc: Global) -> ScriptLines<'a>
        ensures { result ≡ self.now }
    {
        ScriptLines {
            reader: LineReader::new(alloc, self.text),
        }
    }
}

/// The lines of a script that are still to be read.
#[derive(Drop)]
pub struct ScriptLines<'a> {
    reader: LineReader<'a>,
}

impl<'a> Model for ScriptLines<'a> {
    ghost use Rattle.std.specs.Prelude.{◌≡◌, List, None};
    ghost use Rattle.dml_grammar.specs.declared.lines.Line.{Line};

    ghost Value = { List Line };

    ghost view = { λ lines. lines.reader.lines };

    ghost invariant = { λ lines. lines.reader.fault ≡ None };
}

impl<'a> ScriptLines<'a> {
    ghost use Rattle.std.specs.Prelude.{◌≡◌, ◌∷◌, [], IfOk, MatchOption, OnErr};

    /// The next line; None behind the last one. Where memory is refused, the same line is still the next.
    pub fn next_line(&mut self, alloc: Global) -> Result<Option<Line>, AllocError>
        ensures line { IfOk result (λ line. MatchOption line ((self.old ≡ []) × (self.new ≡ []))
            (λ line. self.old ≡ line ∷ self.new)) }
        ensures unchanged { OnErr result (self.new ≡ self.old) }
    {
        match self.reader.next(alloc) {
            Ok(Some(line)) => Ok(Some(line)),
            Ok(None) => Ok(None),
            Err(ScriptError::NoMemory) => Err(AllocError),
            Err(ScriptError::Fault(_)) => unreachable!(),
        }
    }
}

/// Reads a script of at most `MAX_SCRIPT` bytes: its lines, or its first fault. Beside the bytes it takes memory for a
/// mark of each page and for the bytes of one line.
#[tactic(auto, using(crate::proofs::LeftLemmas::parse_is))]
pub fn read_script<'a>(alloc: Global, bytes: &'a [u8]) -> Result<Script<'a>, ScriptError>
    requires { length bytes.now ≤ MAX_SCRIPT }
    ensures { Reads result (parse bytes.now) }
{
    let mut lines = LineReader::new(alloc, bytes);
    while lines.pass(alloc)? {}
    Ok(Script { text: bytes })
}
