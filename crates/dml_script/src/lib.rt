//! Scripts of data mover jobs: the text of their answer, and their run over a reader and a writer. Their reader is
//! `dml_grammar`, whose names are handed on.
#![tactic(auto)]

mod digits;
mod input;
mod items;
mod laws;
mod lines;
mod lists;
mod running;
mod sessions;
mod shows;
mod texts;
mod watching;
mod writing;

pub use dml_grammar::{
    Bytes, Kind, Line, MAX_SCRIPT, Script, ScriptError, ScriptFault, ScriptLines, fault_text,
    law_of_first_fault, read_script,
};
pub use items::{Item, Shown};
pub use laws::law_of_answers;
pub use running::{RunFault, run_script};
pub use texts::{TextError, job_text, out_text, push_byte};
pub use watching::Watched;
pub use writing::write_answer;
