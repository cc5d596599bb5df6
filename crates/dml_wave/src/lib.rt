//! A wave of jobs on workers: its jobs are cut in tasks, the workers carry the tasks out, and their outcomes are joined
//! to the effects of the jobs, which are committed one after another.
#![tactic(auto)]

mod carrying;
mod committing;
mod cutting;
mod effects;
mod errors;
mod units;

pub use carrying::carry_out_wave;
pub use effects::is_busy;
pub use errors::WaveError;
