//! What a job does, as a value: its completion record and the bytes that it puts.
//!
//! The pieces of a job's chunks are joined to an [`Effect`] while the image is only read, and [`commit`]
//! makes its puts. [`carry_out`] is a whole job as one chunk, and [`submit_to`] its check before. Jobs that stage
//! nothing need no arena: [`carry_out_straight`] and [`submit_straight_to`]. Lists and batches in list order are
//! [`submit_list_to`] and [`submit_batch_to`].
#![tactic(auto)]

mod applying;
mod batches;
mod carrying;
mod creating;
mod effects;
mod joining;
mod lending;
mod lending_segments;
mod lending_whole;
mod lists;
mod records;

pub use applying::join_apply;
pub use batches::{
    abandon, answer_of_batch, carry_out_batch, have_succeeded, submit_batch_bytes_to,
    submit_batch_to,
};
pub use carrying::{
    carry_out, carry_out_straight, submit_in_batch_to, submit_straight_to, submit_to, takes_staging,
};
pub use creating::join_create;
pub use effects::{Effect, commit};
pub use joining::join_found;
pub use lending::{are_pages, submit_over, submit_straight_over};
pub use lending_segments::{
    submit_batch_over_segments, submit_list_over_segments, submit_over_segments,
};
pub use lending_whole::{
    are_whole_pages, submit_batch_over, submit_list_over, submit_over_whole,
    submit_straight_over_whole,
};
pub use lists::{submit_list_bytes_to, submit_list_to};
pub use records::{by_fields, compared_record, copied_record, ended, finished_record, full_record};
