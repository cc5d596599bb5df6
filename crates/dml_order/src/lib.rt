//! The law of orders: which orders of steps, named by their places in a list, end as the list does.
//!
//! A step may be anything. Of two places it is only known whether they clash; steps that do not may change places.
#![tactic(auto)]

mod laws;

pub use laws::{law_of_orders, law_of_waves};
