//! The data mover for programs in C: descriptors and the caller's own buffers in, completion records out.
//!
//! The exports are those of `include/kazovuni.h`. None has a condition but what its types say: pointers are valid, and
//! what is written is not passed a second time. Each tests what it needs, and answers a code.
#![tactic(auto)]

mod bases;
mod codes;
mod direct;
mod engines;
mod handles;
mod holding;
mod lending;
mod looking;
mod paging;
mod parts;
mod regions;
mod room;
mod staged;
mod tables;
mod touching;
mod values;
mod whole;

pub use bases::law_of_bases;
pub use direct::{
    kazovuni_apply_delta, kazovuni_compare, kazovuni_compare_pattern, kazovuni_create_delta,
    kazovuni_dualcast, kazovuni_fill, kazovuni_move, kazovuni_move_within, law_of_staging,
};
pub use handles::{CEngine, handed_over};
pub use holding::{
    kazovuni_bring, kazovuni_create, kazovuni_free, kazovuni_read, kazovuni_submit,
    kazovuni_submit_batch, kazovuni_submit_list, kazovuni_write,
};
pub use lending::{kazovuni_submit_list_over, kazovuni_submit_over, kazovuni_submit_pointers};
pub use looking::{
    kazovuni_check, kazovuni_decode, kazovuni_encode, kazovuni_need, kazovuni_record_decode,
    kazovuni_record_encode, kazovuni_rest, kazovuni_version,
};
pub use paging::{kazovuni_evict, kazovuni_present};
pub use regions::CRegion;
pub use staged::{
    kazovuni_create_staging, kazovuni_submit_batch_in, kazovuni_submit_in, kazovuni_submit_list_in,
};
pub use tables::{kazovuni_submit_at, kazovuni_submit_batch_at, kazovuni_submit_list_at};
pub use touching::{CRange, kazovuni_completion, kazovuni_ranges};
pub use values::{CJob, CRecord};
pub use whole::{kazovuni_submit_list_whole, kazovuni_submit_whole};
