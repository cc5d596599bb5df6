//! The values of data mover jobs: a job and its operation, flags, statuses, completion records, settings and ranges.
//!
//! The numbers and layouts are those of Intel's DSA and of `linux/idxd.h`. The definitions of `specs/` say
//! what a job does; the contracts of every crate above cite them.
#![tactic(auto)]

mod entries;
mod findings;
mod flags;
mod jobs;
mod laws;
mod limits;
mod operations;
mod records;
mod spans;
mod statuses;

pub use entries::{ENTRY, block_number};
pub use findings::Found;
pub use flags::JobFlags;
pub use jobs::Job;
pub use laws::{
    law_of_batches, law_of_first, law_of_folds, law_of_homes, law_of_loans, law_of_moves,
    law_of_puts, law_of_steps,
};
pub use limits::{MOST_JOBS, Settings};
pub use operations::{Direction, Op};
pub use records::{BatchRecord, Record};
pub use spans::Span;
pub use statuses::Status;

#[cfg(test)]
mod tests;
