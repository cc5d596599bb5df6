//! The workers of a wave: they carry out its tasks, each once, and answer their outcomes in order.
//!
//! A task is one chunk of a job. All tasks of a wave wait on one deque from which each worker steals one at a
//! time, so no worker rests while there is a task left. Tasks only read the image.
#![tactic(auto)]

mod crew;
mod gate;
mod kernels;
mod order;
mod posts;
mod queue;
mod rule;
mod tasks;
mod wave;
mod worker;

pub use gate::{Free, Gate};
pub use order::{Outcomes, Slot, empty_slots, in_order};
pub use queue::Queue;
pub use tasks::{Outcome, Piece, Task};
pub use wave::{PoolError, run_wave, run_wave_into_lists};
