//! A portal that is easy to use: its server, and seats that are known to be of it by their type; and bells, by which
//! threads sleep and are woken.
#![tactic(auto)]

mod bells;
mod berths;
mod endings;
mod images;
mod logs;
mod rounds;
mod seats;
mod servers;

pub use bells::Bell;
pub use berths::Berths;
pub use seats::{OwnDone, OwnSeat};
pub use servers::{OwnServer, OwnServerOver};
