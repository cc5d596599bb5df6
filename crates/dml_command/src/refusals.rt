//! Why a command line is refused.
ghost use Rattle.std.specs.Prelude.{◌≡◌};
ghost use Rattle.dml_command.specs.Refusal.{refusal_of, line_refusal_text, unread_refusal};
ghost use Rattle.dml_command.specs.declared.refusals.LineRefusal.TheVariants.{NoMemory};
ghost use Rattle.std.specs.IoError.{error_kind};

use clap::error::ErrorKind;
use std::alloc::{AllocError, AllocFailed};
use std::{fmt, io};

/// Why a command line is refused. Its `Display` is the text for the user, with its line feed.
#[derive(Debug, Drop)]
pub enum LineRefusal {
    /// Help was asked for: no mistake, and its text goes to the standard output.
    Help(clap::Error),
    /// The words of the command line are refused by `clap`.
    Words(clap::Error),
    /// A word of the command line is not UTF-8.
    NotText,
    /// A setting is out of its range.
    Settings,
    /// The word of `decode` is not 128 hexadecimal digits.
    NotHex,
    /// There was no memory left.
    NoMemory,
}

impl fmt::Display for LineRefusal {
    ghost output = { line_refusal_text };

    fn fmt<W: fmt::Write>(&self, f: &mut fmt::Formatter<W>) -> fmt::Result {
        match self {
            LineRefusal::Help(error) | LineRefusal::Words(error) => write!(f, "{error}"),
            LineRefusal::NotText => f.write_str("dmljob: an argument is not UTF-8 text\n"),
            LineRefusal::Settings => f.write_str("dmljob: the settings are out of range\n"),
            LineRefusal::NotHex => f.write_str("dmljob: not 64 bytes of hex\n"),
            LineRefusal::NoMemory => f.write_str("dmljob: out of memory\n"),
        }
    }
}

impl From<clap::Error> for LineRefusal {
    ghost from_gives = { λ error refusal. refusal ≡ refusal_of error };

    fn from(error: clap::Error) -> LineRefusal {
        match error.kind() {
            ErrorKind::OutOfMemory => LineRefusal::NoMemory,
            ErrorKind::DisplayHelp | ErrorKind::DisplayVersion => LineRefusal::Help(error),
            _ => LineRefusal::Words(error),
        }
    }
}

impl From<AllocError> for LineRefusal {
    ghost from_gives = { λ _ refusal. refusal ≡ NoMemory };

    fn from(_error: AllocError) -> LineRefusal {
        LineRefusal::NoMemory
    }
}

impl<T: Drop> From<AllocFailed<T>> for LineRefusal {
    ghost from_gives = { λ _ refusal. refusal ≡ NoMemory };

    fn from(_error: AllocFailed<T>) -> LineRefusal {
        LineRefusal::NoMemory
    }
}

/// Why the words of the command line could not be had: one is no text, or there was no memory.
pub fn refusal_of_words(error: io::Error) -> LineRefusal
    ensures { result ≡ unread_refusal (error_kind error) }
{
    match error.kind() {
        io::ErrorKind::InvalidData => LineRefusal::NotText,
        _ => LineRefusal::NoMemory,
    }
}
