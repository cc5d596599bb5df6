//! Rings, and sleeps that they end.
ghost use Rattle.std.specs.Prelude.{◌≡◌};
ghost use Rattle.std.specs.List.{All};
ghost use Rattle.dml_portal.specs.Lanes.{IsSeatOf};
ghost use Rattle.dml_portal.specs.Servers.{lanes_of};

use super::{Opened, portal_of};
use dml_portal::{Seat, Server};
use dml_seats::{Bell, Berths, OwnDone, OwnSeat, OwnServer};
use dml_types::Job;
use std::alloc::Global;
use std::env::Env;
use std::marker::Brand;
use std::sync::atomic::{AtomicBool, Ordering};
use std::sync::{Arc, Wait};
use std::test::Fail;
use std::thread::{self, Threads};
use std::time::Duration;

/// How often all clients of a portal together submit a job, ring, and sleep until its record is there, where RINGS in
/// the environment has no other number.
const ROUNDS: u32 = 12_500;

/// A ring before the sleep is not lost, by whichever handle, and two before it end one.
#[test]
fn rung_before_sleep(rt: HostRuntime) -> Result<(), Fail> {
    let bell = Bell::new(rt.alloc())?;
    let other = bell.another()?;
    for _ in 0..1000 {
        bell.ring();
        other.ring();
        bell.wait(&rt);
        other.ring();
        other.wait(&rt);
    }
    Ok(())
}

/// A sleep takes the ring: the next one lasts until the next ring.
#[test]
fn one_ring_ends_one_sleep(rt: HostRuntime) -> Result<(), Fail> {
    let bell = Bell::new(rt.alloc())?;
    let other = bell.another()?;
    let is_late = Arc::new(rt.alloc(), AtomicBool::new(false))?;
    let flag = Arc::try_clone(&is_late)?;
    bell.ring();
    bell.wait(&rt);
    let ring = move || {
        thread::sleep(&rt, Duration::from_millis(200));
        flag.store(true, Ordering::SeqCst);
        other.ring();
    };
    let thread = thread::spawn(&rt, ring)?;
    bell.wait(&rt);
    let was_late = is_late.load(Ordering::SeqCst);
    thread.join(&rt);
    assert!(rt; was_late);
    Ok(())
}

/// Submits a job so many times, rings the server, and sleeps until the record is there.
fn client<B: Berths, R: Wait>(
    rt: &R,
    mut seat: OwnSeat<B>,
    own: &Bell,
    server: &Bell,
    rounds: u32,
) -> OwnDone<B> {
    for _ in 0..rounds {
        let _ = seat.try_submit(Job::no_op());
        server.ring();
        for _ in rt.forever() {
            if seat.poll().is_some() {
                break;
            }
            own.wait(rt);
        }
    }
    seat.finish()
}

/// Serves rounds until so many jobs were carried out; sleeps behind one that finds none, and rings the clients behind
/// each.
fn serve<B: Berths, R: Threads + Wait + Sync>(
    rt: &R,
    alloc: Global,
    server: &mut OwnServer<B>,
    own: &Bell,
    clients: &[Bell],
    jobs: usize,
) {
    let mut left = jobs;
    for _ in rt.forever() {
        let round = server.serve_round(rt, alloc);
        server.drop_log();
        for client in clients {
            client.ring();
        }
        match round {
            Ok(0) => own.wait(rt),
            Ok(served) => left = left.saturating_sub(served),
            Err(_) => {}
        }
        if left == 0 {
            break;
        }
    }
}

/// Runs clients on threads of their own beside a server on this one, each of them for so many rounds; whether the
/// portal is settled.
fn rung<B: Berths + Send + 'static, R: Threads + Wait + Sync + Copy + Send + 'static>(
    rt: R,
    alloc: Global,
    server: Server,
    seats: Vec<Seat>,
    rounds: u32,
) -> Result<bool, Fail>
    requires server { lanes_of server ≡ B.lanes }
    requires seats { All (IsSeatOf B.lanes) seats.items }
{
    let jobs = seats.len().saturating_mul(rounds as usize);
    let long = server.stay_up(64).map_err(|_| "no memory")?;
    let mut server = OwnServer::<B>::new(alloc, long);
    let own = Bell::new(alloc)?;
    let (mut bells, mut threads) = (Vec::new(alloc), Vec::new(alloc));
    for seat in seats {
        let seat = OwnSeat::<B>::new(seat);
        let (theirs, ours) = (Bell::new(alloc)?, own.another()?);
        bells.push(theirs.another()?)?;
        let run = move || client(&rt, seat, &theirs, &ours, rounds);
        threads.push(thread::spawn(&rt, run)?)?;
    }
    serve(&rt, alloc, &mut server, &own, bells.as_slice(), jobs);
    for thread in threads {
        let done = thread.join(&rt);
        if server.hand_in(done).is_err() {
            return Err("no memory".into());
        }
    }
    Ok(server.settle(&rt, alloc).is_ok())
}

/// The number in the environment, or the one above.
fn rounds_of_all(rt: &HostRuntime) -> Result<u32, Fail> {
    let mut word = [0; 16];
    let Ok(len) = rt.var("RINGS", &mut word) else {
        return Ok(ROUNDS);
    };
    let text = std::str::from_utf8(&word[..len])?;
    Ok(text.parse::<u32>().map_err(|_| "no number of rings")?)
}

/// Many rounds of ring and sleep, of one to eight clients, end by themselves.
#[test]
fn rings_wake(rt: HostRuntime) -> Result<(), Fail> {
    let all = rounds_of_all(&rt)?;
    for clients in 1..=8 {
        let Opened { server, seats, .. } = portal_of(rt.alloc(), clients, 2).ok_or("no memory")?;
        let rounds = all.div_ceil(clients);
        assert!(rt; rung::<Brand, HostRuntime>(rt, rt.alloc(), server, seats, rounds)?);
    }
    Ok(())
}
