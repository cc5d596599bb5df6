//! The memory image of data mover jobs: pages of 4,096 bytes from address 0 on, each present or absent.
//!
//! Contracts see an image as the `Memory` of `dml_types`: which pages are present, and all bytes, with those
//! of absent pages as 0.
#![tactic(auto)]

mod errors;
mod images;
mod lent;
mod moves;
mod pages;
mod parts;
mod ranges;
mod runs;
mod tables;
mod two;
mod whole;

pub use dml_segments::{
    MAX_WHOLE_PAGES, PAGE_SIZE, SHORT, Segment, are_segments, copy_at, entry_block, fill_at,
    law_of_segments, put_back, take_out, write_at,
};
pub use errors::ImageError;
pub use images::Image;
pub use lent::Lent;
pub use two::Two;
pub use whole::{Whole, are_whole};

/// The most pages of an image, but where memory is lent in one piece or in segments.
pub const MAX_PAGES: u32 = 4096;
