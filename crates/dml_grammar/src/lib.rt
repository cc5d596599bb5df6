//! Scripts of data mover jobs: the grammar of their text, and its reader.
#![tactic(auto)]

mod digits;
mod entries;
mod faults;
mod hexadecimal;
mod judge;
mod laws;
mod leading;
mod lines;
mod numbers;
mod progress;
mod reader;
mod script;
mod table;
mod text;
mod words;

pub use faults::{Kind, ScriptError, ScriptFault, fault_text};
pub use laws::law_of_first_fault;
pub use lines::{Bytes, Line};
pub use script::{MAX_SCRIPT, Script, ScriptLines, read_script};
