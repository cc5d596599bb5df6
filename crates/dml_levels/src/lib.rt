//! Which jobs of a list have to wait for earlier ones: what a job touches, conflicts, levels, and waves of jobs that
//! may be carried out together.
#![tactic(auto)]

mod cells;
mod clashing;
mod covers;
mod errors;
mod fencing;
mod filling;
mod heights;
mod hulls;
mod laws;
mod leveling;
mod links;
mod ranges;
mod rooms;
mod starts;
mod tasks;
mod touched;
mod touching;
mod waving;

pub use clashing::conflict;
pub use dml_types::Span;
pub use errors::LevelError;
pub use fencing::levels;
pub use filling::Wave;
pub use laws::{law_of_conflicts, law_of_fences, law_of_order, law_of_waves};
pub use ranges::Spans;
pub use tasks::task_count;
pub use touched::Touches;
pub use touching::touches;
pub use waving::{depth, waves};
