//! The portal: each client submits jobs on a queue of its own, a server carries them out in rounds and keeps the log of
//! them, and the client polls its completion records meanwhile.
#![tactic(auto)]

mod answering;
mod carrying;
mod ending;
mod errors;
mod fetching;
mod histories;
mod images;
mod lanes;
mod lates;
mod logs;
mod long;
mod long_images;
mod long_settling;
mod looking;
mod opening;
mod parts;
mod rooms;
mod seats;
mod servers;
mod settling;
mod taking;

pub use errors::{Full, PortalError, SettleFault};
pub use histories::law_of_histories;
pub use logs::{Log, LogEntry};
pub use long::{LongServer, LongServerOver};
pub use opening::Portal;
pub use seats::{Done, Seat};
pub use servers::{Server, ServerOver};
pub use settling::{Settled, SettledOver};
