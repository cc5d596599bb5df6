//! Portals whose seats are known by type, their rounds, and bells.
ghost use Rattle.std.specs.List.{All};
ghost use Rattle.dml_portal.specs.Lanes.{IsSeatOf};
ghost use Rattle.dml_portal.specs.Servers.{lanes_of};

mod bells;
mod endings;
mod growths;
mod parts;
mod segments;
mod sleeps;
mod some;
mod waits;

use dml_engine::Engine;
use dml_image::Image;
use dml_portal::{Portal, Seat, Server};
use dml_types::Settings;
use std::alloc::Global;

/// A server and the seats of its portal.
#[derive(Drop)]
struct Opened {
    server: Server,
    seats: Vec<Seat>,
    ghost own: { All (IsSeatOf (lanes_of server)) seats.items },
}

/// A portal over a page of zeros for so many clients, whose rings have room for this many items.
fn portal_of(alloc: Global, clients: u32, capacity: u32) -> Option<Opened> {
    let mut image = Image::new(alloc, 1).ok()?;
    image.bring(0, &[0; 4096]).ok()?;
    let settings = Settings {
        staging: 1 << 20,
        chunk: 4096,
        workers: 1,
    };
    let engine = Engine::new(alloc, image, settings).ok()?;
    let Ok((server, seats)) = Portal::open(alloc, engine, clients, capacity) else {
        return None;
    };
    Some(Opened { server, seats })
}
