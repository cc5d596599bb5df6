//! How much of a processor a server takes that sleeps.
ghost use Rattle.std.specs.Prelude.{◌≡◌};
ghost use Rattle.std.specs.List.{All};
ghost use Rattle.dml_portal.specs.Lanes.{IsSeatOf};
ghost use Rattle.dml_portal.specs.Servers.{lanes_of};

use super::{Opened, portal_of};
use dml_portal::{Seat, Server};
use dml_seats::{Bell, Berths, OwnSeat, OwnServer};
use dml_types::Job;
use std::alloc::Global;
use std::fs;
use std::marker::Brand;
use std::rt::Files;
use std::sync::atomic::{AtomicBool, Ordering};
use std::sync::{Arc, Wait};
use std::test::Fail;
use std::thread::{self, Threads};
use std::time::{Clock, Duration};

/// How many seconds a server is left alone.
const IDLE: u64 = 10;

/// How many nanoseconds of a processor this thread has taken.
fn taken<R: Files + Alloc>(rt: &R) -> Option<u64> {
    let text = fs::read_to_string(rt, "/proc/thread-self/schedstat").ok()?;
    text.as_str().split(' ').next()?.parse::<u64>().ok()
}

/// Serves rounds, and sleeps behind one that finds no job, until the flag was set before it: how many jobs were carried
/// out, and how many nanoseconds of a processor that took.
fn serve<B: Berths, R: Threads + Wait + Files + Alloc + Sync>(
    rt: &R,
    alloc: Global,
    server: &mut OwnServer<B>,
    bell: &Bell,
    stop: &AtomicBool,
) -> Option<(usize, u64)> {
    let start = taken(rt)?;
    let mut jobs = 0usize;
    for _ in rt.forever() {
        let is_last = stop.load(Ordering::SeqCst);
        match server.serve_round(rt, alloc) {
            Ok(0) if is_last => break,
            Ok(0) => bell.wait(rt),
            Ok(served) => jobs = jobs.saturating_add(served),
            Err(_) => {}
        }
    }
    Some((jobs, taken(rt)?.saturating_sub(start)))
}

/// Leaves the server alone, wakes it by a job and a ring, and then by the flag and a ring: whether the job's record came.
fn wake<B: Berths, R: Clock>(
    rt: &R,
    mut seat: OwnSeat<B>,
    server: &Bell,
    stop: &AtomicBool,
) -> bool {
    thread::sleep(rt, Duration::from_secs(IDLE));
    let _ = seat.try_submit(Job::no_op());
    server.ring();
    let mut is_there = false;
    for _ in 0..10_000 {
        is_there = seat.poll().is_some();
        if is_there {
            break;
        }
        thread::sleep(rt, Duration::from_millis(1));
    }
    stop.store(true, Ordering::SeqCst);
    server.ring();
    is_there
}

/// A server that is left alone, and a thread that wakes it: what `serve` answers, and whether the record came.
fn left_alone<
    B: Berths + Send + 'static,
    R: Threads + Wait + Files + Alloc + Clock + Sync + Copy + Send + 'static,
>(
    rt: R,
    alloc: Global,
    server: Server,
    seats: Vec<Seat>,
) -> Result<(Option<(usize, u64)>, bool), Fail>
    requires server { lanes_of server ≡ B.lanes }
    requires seats { All (IsSeatOf B.lanes) seats.items }
{
    let long = server.stay_up(64).map_err(|_| "no memory")?;
    let mut server = OwnServer::<B>::new(alloc, long);
    let bell = Bell::new(alloc)?;
    let stop = Arc::new(alloc, AtomicBool::new(false))?;
    let mut threads = Vec::new(alloc);
    for seat in seats {
        let seat = OwnSeat::<B>::new(seat);
        let (ours, flag) = (bell.another()?, Arc::try_clone(&stop)?);
        let job = move || wake(&rt, seat, &ours, &flag);
        threads.push(thread::spawn(&rt, job)?)?;
    }
    let served = serve(&rt, alloc, &mut server, &bell, &stop);
    let mut is_there = false;
    for thread in threads {
        is_there = thread.join(&rt);
    }
    Ok((served, is_there))
}

/// A server that sleeps takes less than 1 percent of a processor, and a job behind a ring wakes it.
#[test]
fn sleeps_and_wakes(rt: HostRuntime) -> Result<(), Fail> {
    let Opened { server, seats, .. } = portal_of(rt.alloc(), 1, 2).ok_or("no memory")?;
    let (served, is_there) = left_alone::<Brand, HostRuntime>(rt, rt.alloc(), server, seats)?;
    let (jobs, taken) = served.ok_or("no times")?;
    assert_eq!(rt; (jobs, is_there), (1, true));
    assert!(rt; taken < 100_000_000, "{taken}");
    Ok(())
}
