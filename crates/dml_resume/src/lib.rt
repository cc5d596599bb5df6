//! The law on resuming: a job that a page fault stopped, and then its rest with the page brought, end as the whole job
//! does where the page was there from the start.
#![tactic(auto)]

mod laws;

pub use laws::law_resume;
