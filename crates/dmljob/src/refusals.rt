//! How the program ends without an answer.
ghost use Rattle.std.specs.Prelude.{◌≡◌};
ghost use Rattle.dmljob.specs.Refusal.{ending_text, exit_code, refusal_of_run};
ghost use Rattle.dmljob.specs.declared.refusals.Refusal.TheVariants.{NoMemory};

use dml_command::LineRefusal;
use dml_script::{RunFault, ScriptFault, TextError, fault_text};
use std::alloc::AllocError;
use std::fmt;

/// Why the program ends without an answer. Its `Display` is the text for the user, with its line
/// feed.
#[derive(Debug, Drop)]
pub enum Refusal {
    /// The command line is refused, or help was asked for.
    Line(LineRefusal),
    /// A line of the script has a fault.
    Script(ScriptFault),
    /// The script has more bytes than its limit.
    TooLong,
    /// There was no memory left.
    NoMemory,
    /// The standard input could not be read.
    Read,
    /// The standard output could not be written.
    Write,
}

impl fmt::Display for Refusal {
    ghost output = { ending_text };

    fn fmt<W: fmt::Write>(&self, f: &mut fmt::Formatter<W>) -> fmt::Result {
        match self {
            Refusal::Line(refusal) => write!(f, "{refusal}"),
            Refusal::Script(ScriptFault { line, kind }) => {
                let text = fault_text(*kind);
                write!(f, "dmljob: line {line}: {text}\n")
            }
            Refusal::TooLong => f.write_str("dmljob: the script is too long\n"),
            Refusal::NoMemory => f.write_str("dmljob: out of memory\n"),
            Refusal::Read => f.write_str("dmljob: cannot read the script\n"),
            Refusal::Write => f.write_str("dmljob: cannot write the answer\n"),
        }
    }
}

/// The exit status of the program: 0 where help was asked for, 2 for the script, 3 for the words
/// of the command line, 4 for want of memory and for what cannot be read or written.
pub fn status_of(refusal: &Refusal) -> u8
    ensures { result ≡ exit_code refusal.now }
{
    match refusal {
        Refusal::Line(LineRefusal::Help(_)) => 0,
        Refusal::Line(LineRefusal::NoMemory) => 4,
        Refusal::Line(_) => 3,
        Refusal::Script(_) | Refusal::TooLong => 2,
        Refusal::NoMemory | Refusal::Read | Refusal::Write => 4,
    }
}

impl From<AllocError> for Refusal {
    ghost from_gives = { λ _ refusal. refusal ≡ NoMemory };

    fn from(_error: AllocError) -> Refusal {
        Refusal::NoMemory
    }
}

impl From<TextError> for Refusal {
    ghost from_gives = { λ _ refusal. refusal ≡ NoMemory };

    fn from(_error: TextError) -> Refusal {
        Refusal::NoMemory
    }
}

impl From<RunFault> for Refusal {
    ghost from_gives = { λ fault refusal. refusal ≡ refusal_of_run fault };

    fn from(fault: RunFault) -> Refusal {
        match fault {
            RunFault::Read => Refusal::Read,
            RunFault::TooLong => Refusal::TooLong,
            RunFault::Script(fault) => Refusal::Script(fault),
            RunFault::NoMemory => Refusal::NoMemory,
            RunFault::Write => Refusal::Write,
        }
    }
}
