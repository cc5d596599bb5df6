//! Descriptors, completion records and the checks of a job.
//!
//! `decode` reads the 64 bytes of a descriptor, `record_bytes` and `batch_bytes` write the 32 of a completion
//! record, both as `linux/idxd.h` lays them out; `encode` and `decode_record` go the other way. `check` answers a
//! malformed job with the status of the first rule that it breaks. `rest` is the job that is left after a page fault.
#![tactic(auto)]

mod checks;
mod completions;
mod descriptors;
mod encoding;
mod laws;
mod refusal_laws;
mod resuming;
mod rules;

pub use checks::{Checked, check, check_in_batch, need};
pub use completions::{batch_bytes, record_bytes};
pub use descriptors::decode;
pub use encoding::{decode_record, encode, law_of_encoding};
pub use laws::{law_of_checked_jobs, law_of_descriptors, law_of_records};
pub use refusal_laws::law_of_refusals;
pub use resuming::rest;
