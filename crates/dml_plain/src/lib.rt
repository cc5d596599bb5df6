//! The worked rows, evaluated on the definitions. A row stands for itself: each function does nothing, and its clauses
//! are the rows.
#![tactic(auto)]

mod rows;

pub use rows::{
    rows_of_applies, rows_of_compares, rows_of_creates, rows_of_fences, rows_of_fills,
    rows_of_lists, rows_of_moves, rows_of_refusals, rows_of_rests,
};
