//! What one chunk of a move, a fill, a dualcast or a compare gives: how far it goes, why it stops, and the bytes that
//! it stages.
//!
//! Scans only read the image. They look up each page once for each range, and stage whole page parts. A piece
//! says nothing of the other chunks of its job: of several stops, the first in the order of work is the job's.
#![tactic(auto)]

mod compares;
mod lanes;
mod reach;
mod scans;
mod staging;

pub use compares::{compare_found, compare_pattern_found};
pub use dml_types::Found;
pub use lanes::{first_difference, first_unlike, first_unlike_long};
pub use reach::{dualcast_found, fill_found, move_found, work_direction};
pub use scans::{
    ScanPiece, scan_compare, scan_compare_pattern, scan_dualcast, scan_fill, scan_move,
};
