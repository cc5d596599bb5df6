//! A staging arena: one block of raw memory, and regions of it that share no byte.
//!
//! An [`Arena`] takes its block once. [`Arena::open`] lends the whole block as one [`Region`], which is
//! cut into regions side by side. Each is filled by its holder, on any thread, and neighbours are joined
//! again. Sizes, rooms and places are counted in bytes.
#![tactic(auto)]

mod arena;
mod memory;
mod region;
mod span;
#[cfg(test)]
mod tests;
#[cfg(test)]
mod uses;

pub use arena::{Arena, ArenaError};
pub use region::Region;
