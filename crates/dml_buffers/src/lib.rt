//! What a memory holds: the words in which jobs straight over buffers are stated, and their law.
#![tactic(auto)]

mod laws;

pub use laws::law_of_buffers;
