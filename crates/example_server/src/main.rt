//! Four clients on threads of their own, and a server that sleeps, writes its log out and brings the pages that miss.
#![tactic(auto)]

ghost use Rattle.std.specs.Prelude.{◌≡◌};
ghost use Rattle.std.specs.List.{All};
ghost use Rattle.dml_portal.specs.Lanes.{IsSeatOf};
ghost use Rattle.dml_portal.specs.Servers.{lanes_of};

use dml_desc::rest;
use dml_engine::Engine;
use dml_image::Image;
use dml_portal::{Portal, Seat, Server, Settled};
use dml_seats::{Bell, Berths, OwnSeat, OwnServer};
use dml_types::{Job, Settings, Status};
use std::alloc::Global;
use std::sync::atomic::{AtomicU64, Ordering};
use std::sync::{Arc, Wait};
use std::thread::{self, Threads};

/// Submits a fill, and its rest where it faults; rings the server, and sleeps until a record is there.
fn client<B: Berths, R: Wait>(rt: &R, seat: &mut OwnSeat<B>, bell: &Bell, server: &Bell) {
    let mut job = Job::fill(7, 4096 * u64::from(seat.client()), 64);
    let _ = seat.try_submit(job);
    server.ring();
    for _ in rt.forever() {
        match seat.poll().map(|record| rest(&job, &record)) {
            None => bell.wait(rt),
            Some(None) => return,
            Some(Some(left)) => {
                job = left;
                let _ = seat.try_submit(job);
                server.ring();
            }
        }
    }
}

/// Serves rounds, and sleeps behind one that finds no job, until the flag was down before it: no client runs.
fn serve<B: Berths, R: Threads + Wait + Eprint + Sync>(
    rt: &R,
    alloc: Global,
    server: &mut OwnServer<B>,
    bell: &Bell,
    clients: &[Bell],
    flag: &AtomicU64,
) {
    for _ in rt.forever() {
        let is_last = flag.load(Ordering::SeqCst) == 0;
        let jobs = server.serve_round(rt, alloc);
        let mut log = Vec::new(alloc);
        if server.take_log(&mut log).is_err() {
            server.drop_log();
        }
        for entry in &log {
            let _ = eprintln!(rt; "client {}: {:?}", entry.client, entry.answer);
            if let Status::ReadFault | Status::WriteFault = entry.answer.status {
                let page = u32::try_from(entry.answer.fault / 4096).unwrap_or(u32::MAX);
                let _ = server.bring(page, &[0; 4096]);
            }
        }
        for client in clients {
            client.ring();
        }
        match jobs {
            Ok(0) | Err(_) if is_last => return,
            Ok(0) => bell.wait(rt),
            _ => {}
        }
    }
}

/// Runs the clients and the server, and what the portal leaves.
fn run<B: Berths + Send + 'static, R: Threads + Wait + Eprint + Sync + Copy + Send + 'static>(
    rt: R,
    alloc: Global,
    server: Server,
    seats: Vec<Seat>,
) -> anyhow::Result<Settled>
    requires server { lanes_of server ≡ B.lanes }
    requires seats { All (IsSeatOf B.lanes) seats.items }
{
    let mut server = OwnServer::<B>::new(alloc, server.stay_up(64).map_err(|(_, error)| error)?);
    let left = Arc::new(alloc, AtomicU64::new(seats.len() as u64))?;
    let (bell, mut bells, mut threads) = (Bell::new(alloc)?, Vec::new(alloc), Vec::new(alloc));
    for seat in seats {
        let mut seat = OwnSeat::<B>::new(seat);
        let (own, to, flag) = (Bell::new(alloc)?, bell.another()?, Arc::try_clone(&left)?);
        bells.push(own.another()?)?;
        let job = move || {
            client(&rt, &mut seat, &own, &to);
            flag.fetch_sub(1, Ordering::SeqCst);
            to.ring();
            seat.finish()
        };
        threads.push(thread::spawn(&rt, job)?)?;
    }
    serve(&rt, alloc, &mut server, &bell, bells.as_slice(), &left);
    for thread in threads {
        let done = thread.join(&rt);
        server.hand_in(done).map_err(|(_, error)| error)?;
    }
    Ok(server.settle(&rt, alloc).map_err(|(_, fault)| fault)?)
}

fn main(rt: HostRuntime) -> anyhow::Result<()> {
    let settings = Settings {
        staging: 65_536,
        chunk: 4096,
        workers: 2,
    };
    let image = Image::new(rt.alloc(), 4)?;
    let engine = Engine::new(rt.alloc(), image, settings).map_err(|(_, error)| error)?;
    let (server, seats) = Portal::open(rt.alloc(), engine, 4, 4).map_err(|(_, error)| error)?;
    let settled = run::<std::marker::Brand, HostRuntime>(rt, rt.alloc(), server, seats)?;
    for page in 0..4 {
        println!(rt; "{page}: {:?}", settled.image.byte(4096 * page))?;
    }
    Ok(())
}
