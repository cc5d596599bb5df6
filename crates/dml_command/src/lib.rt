//! The command line of the program `dmljob`: what its words ask for, judged before any input is read, and what a
//! refused command line is.
#![tactic(auto)]

mod help;
mod refusals;
mod requests;
mod words;

pub use refusals::LineRefusal;
pub use requests::{Request, parse_arguments, parse_words, read_request, request_of};
pub use words::{Line, command_of};
