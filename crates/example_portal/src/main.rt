//! Two clients submit jobs and poll their records on threads of their own, while this thread serves rounds.
#![tactic(auto)]

ghost use Rattle.std.specs.Prelude.{◌≡◌};
ghost use Rattle.std.specs.List.{All};
ghost use Rattle.dml_portal.specs.Lanes.{IsSeatOf};
ghost use Rattle.dml_portal.specs.Servers.{lanes_of};

use dml_engine::Engine;
use dml_image::Image;
use dml_portal::{Portal, Seat, Server, Settled};
use dml_seats::{Berths, OwnDone, OwnSeat, OwnServer};
use dml_types::{Job, Settings};
use std::alloc::Global;
use std::marker::Brand;
use std::sync::Wait;
use std::thread;
use std::thread::Threads;

/// Submits a fill, looks for its record for a while, and submits a compare with what was filled.
fn client<B: Berths>(mut seat: OwnSeat<B>) -> OwnDone<B> {
    let start = 64 * u64::from(seat.client());
    let _ = seat.try_submit(Job::fill(7, start, 64));
    for _ in 0..1000 {
        if seat.poll().is_some() {
            break;
        }
        thread::yield_now();
    }
    let _ = seat.try_submit(Job::compare_pattern(start, 7, 64));
    seat.finish()
}

/// Runs the clients and serves rounds, and what the portal leaves.
fn run<B: Berths + Send + 'static, R: Threads + Wait + Sync>(
    rt: &R,
    alloc: Global,
    server: Server,
    seats: Vec<Seat>,
) -> anyhow::Result<Settled>
    requires server { lanes_of server ≡ B.lanes }
    requires seats { All (IsSeatOf B.lanes) seats.items }
{
    let long = server.stay_up(64).map_err(|(_, error)| error)?;
    let mut server = OwnServer::<B>::new(alloc, long);
    let mut threads = Vec::new(alloc);
    for seat in seats {
        let own = OwnSeat::<B>::new(seat);
        threads.push(thread::spawn(rt, move || client(own))?)?;
    }
    for _ in 0..1000 {
        let _ = server.serve_round(rt, alloc);
    }
    for thread in threads {
        let done = thread.join(rt);
        server.hand_in(done).map_err(|(_, error)| error)?;
    }
    Ok(server.settle(rt, alloc).map_err(|(_, fault)| fault)?)
}

fn main(rt: HostRuntime) -> anyhow::Result<()> {
    let alloc = rt.alloc();
    let mut image = Image::new(alloc, 1)?;
    image.bring(0, &[0; 4096])?;
    let settings = Settings {
        staging: 65_536,
        chunk: 4096,
        workers: 2,
    };
    let engine = Engine::new(alloc, image, settings).map_err(|(_, error)| error)?;
    let (server, seats) = Portal::open(alloc, engine, 2, 4).map_err(|(_, error)| error)?;
    let settled = run::<Brand, HostRuntime>(&rt, alloc, server, seats)?;
    for client in 0..2 {
        for entry in &settled.log.list {
            if entry.client == client {
                println!(rt; "client {client}: {:?}", entry.answer)?;
            }
        }
    }
    Ok(())
}
