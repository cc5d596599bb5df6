//! Memory of pages of 4,096 bytes that a caller lends in segments, and the loops over slices that an image shares with it.
//!
//! Contracts see segments as the `Memory` of `dml_types`; a page in none of them is absent.
#![tactic(auto)]

mod arrays;
mod blocks;
mod edges;
mod laws;
mod segmented;
mod segments;
mod slices;

pub use arrays::{put_back, take_out};
pub use blocks::{ENTRY, entry_block, put_inside};
pub use edges::{begin_of_page, rest_of_page};
pub use laws::law_of_segments;
pub use segmented::Segments;
pub use segments::{Segment, are_segments};
pub use slices::{SHORT, WORD_SIZE, at_once, copy_at, fill_at, is_blank, is_one_copy, write_at};

/// The bytes of a page.
pub const PAGE_SIZE: usize = 4096;

/// The most pages of memory that is lent in one piece, and up to the end of the last segment.
pub const MAX_WHOLE_PAGES: u32 = u32::MAX;
