//! What can be wrong with a script.

ghost use Rattle.std.specs.Prelude.{◌≡◌};
ghost use Rattle.dml_grammar.specs.Faults.{text_of};

use std::alloc::AllocError;
use thiserror::Error;

/// What is wrong with a line, in the order in which faults are looked for.
#[derive(Clone, Copy, PartialEq, Eq, Debug)]
pub enum Kind {
    /// It has over 16,384 bytes.
    LongLine,
    /// It has a byte that is neither a tab nor one from the space to the tilde.
    NotAscii,
    /// Its first word is none of the known ones.
    UnknownWord,
    /// It is the first line, and no `image` line.
    MissingImage,
    /// It is an `image` line, and not the first line.
    SecondImage,
    /// It is a `page`, `poke`, `show` or `batch` line, and a batch is open.
    InBatch,
    /// It is an `end` line, and no batch is open.
    StrayEnd,
    /// It is a job, and the open batch has 1,024 of them.
    TooManyJobs,
    /// Words are missing, left over, or not the suffixes that may stand there.
    WrongWords,
    /// A word is no number, or above its field's largest value.
    BadNumber,
    /// A word is no hexadecimal text, or of another length than its field has.
    BadHex,
    /// A number is out of range, or a byte to be written is absent.
    BadRange,
    /// It is the `batch` line of a batch that is open at the script's end.
    OpenBatch,
}

/// The first fault of a script.
#[derive(Clone, Copy, PartialEq, Eq, Debug)]
pub struct ScriptFault {
    /// The number of the line, from 1 on; skipped lines count.
    pub line: u32,
    pub kind: Kind,
}

/// Why a script was not read.
#[derive(Clone, Copy, PartialEq, Eq, Debug, Error)]
pub enum ScriptError {
    /// The script's first fault.
    #[error("line {}: {}", .0.line, fault_text(.0.kind))]
    Fault(ScriptFault),
    /// Want of memory.
    #[error("out of memory")]
    NoMemory,
}

impl From<AllocError> for ScriptError {
    ghost use Rattle.std.specs.Prelude.{◌≡◌};
    ghost use Rattle.dml_grammar.specs.declared.faults.ScriptError.TheVariants.{NoMemory};

    ghost from_gives = { λ _ e. e ≡ NoMemory };

    fn from(_error: AllocError) -> ScriptError {
        ScriptError::NoMemory
    }
}

/// What a kind of fault is called.
pub fn fault_text(kind: Kind) -> &'static str
    ensures { result.now ≡ text_of kind }
{
    match kind {
        Kind::LongLine => "the line is too long",
        Kind::NotAscii => "the line is not ASCII text",
        Kind::UnknownWord => "unknown word",
        Kind::MissingImage => "the script must begin with an image line",
        Kind::SecondImage => "a second image line",
        Kind::InBatch => "this line may not stand in a batch",
        Kind::StrayEnd => "no batch is open",
        Kind::TooManyJobs => "the batch has too many jobs",
        Kind::WrongWords => "wrong number or kind of words",
        Kind::BadNumber => "not a number of the right size",
        Kind::BadHex => "not hexadecimal text of the right length",
        Kind::BadRange => "out of range",
        Kind::OpenBatch => "the batch has no end",
    }
}

/// Why a line was not read.
#[derive(Clone, Copy, PartialEq, Eq, Debug)]
pub(crate) enum ReadError {
    /// The line's first fault.
    Fault(Kind),
    /// Want of memory.
    NoMemory,
}

impl From<AllocError> for ReadError {
    ghost use Rattle.std.specs.Prelude.{◌≡◌};
    ghost use Rattle.dml_grammar.specs.declared.faults.ReadError.TheVariants.{NoMemory};

    ghost from_gives = { λ _ e. e ≡ NoMemory };

    fn from(_error: AllocError) -> ReadError {
        ReadError::NoMemory
    }
}
