//! The engine: a memory image, the staging arena through which jobs are carried out on it, and the workers that carry
//! out lists of them.
#![tactic(auto)]

mod batches;
mod engines;
mod errors;
mod lending;
mod lists;
mod loads;
mod opening;
mod resuming;
mod submitting;

pub use dml_resume::law_resume;
pub use engines::{Engine, EngineOver};
pub use errors::{EngineError, RunError, SubmitError};
pub use lending::{run_batch_over, run_list_over};
