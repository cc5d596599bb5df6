//! The core: what clients send and workers carry out, one step at a time, with what each list of steps leaves.
#![tactic(auto)]

mod carrying;
mod counts;
mod errors;
mod gathering;
mod laws;
mod lists;
mod planning;
mod rooms;
mod stepping;
mod tasks;
mod values;
mod worlds;

pub use errors::{StepFault, WorldError};
pub use laws::{law_of_core, law_of_rounds};
pub use values::{Fetched, Step, Task};
pub use worlds::World;
