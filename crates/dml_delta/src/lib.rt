//! What one chunk of a create or an apply gives: how far it goes, why it stops, and the entries that it stages.
//!
//! A delta record has an entry of 10 bytes for each block of 8: the block's number, low byte first, and its bytes.
//! Both scans only read the image. A piece says nothing of the other chunks of its job, nor of what is judged
//! where they are joined: the room in the record of a create, and the rise from chunk to chunk of an apply.
#![tactic(auto)]

mod applies;
mod creates;
mod entries;
mod lanes;
mod record;

pub use applies::{ApplyPiece, BadEntry, scan_apply};
pub use creates::{CreatePiece, scan_create};
pub use entries::Entries;
pub use lanes::add_blocks;
