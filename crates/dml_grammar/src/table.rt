//! The table of lines: which words may come after a first word, and what each of them is.

ghost use Rattle.std.specs.Prelude.{◌≡◌, ◌≤◌, length};
ghost use Rattle.dml_grammar.specs.Table.{word_named, job_parts, parts_of, suffix_text};

use dml_types::Op;

/// The first word of a line.
#[derive(Clone, Copy, PartialEq, Eq, Debug)]
pub enum Word {
    Image,
    Page,
    Poke,
    /// A job of this operation, its fields in words of their own.
    Job(Op),
    /// A job given by its descriptor.
    Raw,
    Batch,
    End,
    Show,
}

/// What a word of a line has to be.
#[derive(Clone, Copy, PartialEq, Eq, Debug)]
pub enum Slot {
    /// A number up to this largest.
    Number(u64),
    /// Hexadecimal digits, two a byte: the least and the most of them.
    Digits(usize, usize),
}

impl Default for Slot {
    fn default() -> Slot {
        Slot::Number(0)
    }
}

/// A name with a value that may follow a line's own words.
#[derive(Clone, Copy, PartialEq, Eq, Debug)]
pub enum Suffix {
    Check,
    Flags,
}

/// A part of a line, after its first word.
#[derive(Clone, Copy, PartialEq, Eq, Debug)]
pub enum Part {
    /// A word that has to stand there.
    One(Slot),
    /// A word that may be left out.
    Maybe(Slot),
    /// A suffix's name and its value, which may be left out together.
    Named(Suffix, Slot),
}

/// The most parts of a line.
pub const MOST_PARTS: usize = 7;

const LONG: Part = Part::One(Slot::Number(0xffff_ffff_ffff_ffff));

const SHORT: Part = Part::One(Slot::Number(0xffff_ffff));

const CHECK: Part = Part::Named(Suffix::Check, Slot::Number(0xff));

const FLAGS: Part = Part::Named(Suffix::Flags, Slot::Number(0xff_ffff));

/// The first word with this text, if it is one.
pub fn word_named(text: &[u8]) -> Option<Word>
    ensures { result ≡ word_named text.now }
{
    match text {
        b"move" => Some(Word::Job(Op::Move)),
        b"fill" => Some(Word::Job(Op::Fill)),
        b"page" => Some(Word::Page),
        b"poke" => Some(Word::Poke),
        b"noop" => Some(Word::Job(Op::NoOp)),
        b"show" => Some(Word::Show),
        b"raw" => Some(Word::Raw),
        b"end" => Some(Word::End),
        b"apply" => Some(Word::Job(Op::ApplyDelta)),
        b"batch" => Some(Word::Batch),
        b"image" => Some(Word::Image),
        b"create" => Some(Word::Job(Op::CreateDelta)),
        b"compare" => Some(Word::Job(Op::Compare)),
        b"dualcast" => Some(Word::Job(Op::Dualcast)),
        b"compare-pattern" => Some(Word::Job(Op::ComparePattern)),
        _ => None,
    }
}

/// The parts of a job's line.
fn job_parts(op: Op) -> &'static [Part]
    ensures parts { result.now ≡ job_parts op }
    ensures few { length result.now ≤ MOST_PARTS }
{
    match op {
        Op::NoOp => &[FLAGS],
        Op::Move | Op::Fill => &[LONG, LONG, SHORT, FLAGS],
        Op::Compare | Op::ComparePattern => &[LONG, LONG, SHORT, CHECK, FLAGS],
        Op::CreateDelta => &[LONG, LONG, SHORT, LONG, SHORT, CHECK, FLAGS],
        Op::ApplyDelta => &[LONG, SHORT, LONG, SHORT, FLAGS],
        Op::Dualcast => &[LONG, LONG, LONG, SHORT, FLAGS],
    }
}

/// The parts of a line with this first word.
pub fn parts_of(word: Word) -> &'static [Part]
    ensures parts { result.now ≡ parts_of word }
    ensures few { length result.now ≤ MOST_PARTS }
{
    match word {
        Word::Image => &[LONG],
        Word::Page => &[LONG, Part::Maybe(Slot::Digits(2, 8192))],
        Word::Poke => &[LONG, Part::One(Slot::Digits(2, 8192))],
        Word::Job(op) => job_parts(op),
        Word::Raw => &[Part::One(Slot::Digits(128, 128))],
        Word::Batch | Word::End => &[],
        Word::Show => &[LONG, LONG],
    }
}

/// The word that a suffix begins with.
pub fn name_of(suffix: Suffix) -> &'static [u8]
    ensures { result.now ≡ suffix_text suffix }
{
    match suffix {
        Suffix::Check => b"check",
        Suffix::Flags => b"flags",
    }
}
