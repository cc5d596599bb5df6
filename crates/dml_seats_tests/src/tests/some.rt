//! Rounds that are held short.
ghost use Rattle.std.specs.Prelude.{◌≡◌};
ghost use Rattle.std.specs.List.{All};
ghost use Rattle.dml_portal.specs.Lanes.{IsSeatOf};
ghost use Rattle.dml_portal.specs.Servers.{lanes_of};

use super::{Opened, portal_of};
use dml_portal::{LogEntry, Seat, Server};
use dml_seats::{Berths, OwnSeat, OwnServer};
use dml_types::{Job, Record, Status};
use std::alloc::Global;
use std::marker::Brand;
use std::process::Abort;
use std::sync::Wait;
use std::test::Fail;
use std::thread::Threads;

/// A round that fetches at most so many jobs of each client fetches so many, and its log has these clients' jobs.
fn expect_some<B: Berths, R: Abort + Threads + Wait + Sync>(
    rt: &R,
    alloc: Global,
    server: &mut OwnServer<B>,
    jobs: usize,
    clients: &[u32],
) -> Result<(), Fail> {
    let mut log = Vec::new(alloc);
    assert_eq!(rt;
        server.serve_some(rt, alloc, jobs),
        Ok(clients.len()),
        "{jobs}"
    );
    assert_eq!(rt; server.take_log(&mut log), Ok(()));
    assert_eq!(rt; log.len(), clients.len(), "{jobs}");
    for (entry, client) in log.iter().zip(clients) {
        assert_eq!(rt; entry.client, *client, "{jobs}");
    }
    Ok(())
}

/// Three clients submit 170, 3 and no jobs; rounds of them that are held short.
fn short_rounds<B: Berths, R: Abort + Threads + Wait + Sync>(
    rt: &R,
    alloc: Global,
    server: Server,
    seats: Vec<Seat>,
) -> Result<(), Fail>
    requires server { lanes_of server ≡ B.lanes }
    requires seats { All (IsSeatOf B.lanes) seats.items }
{
    let long = server.stay_up(200).map_err(|_| "no memory")?;
    let mut server = OwnServer::<B>::new(alloc, long);
    let mut own = Vec::new(alloc);
    for seat in seats {
        let mut seat = OwnSeat::<B>::new(seat);
        let jobs = match seat.client() {
            0 => 170,
            1 => 3,
            _ => 0,
        };
        for _ in 0..jobs {
            assert!(rt; seat.try_submit(Job::no_op()).is_ok());
        }
        own.push(seat)?;
    }
    expect_some(rt, alloc, &mut server, 0, &[])?;
    expect_some(rt, alloc, &mut server, 1, &[0, 1])?;
    expect_some(rt, alloc, &mut server, 4, &[0, 0, 0, 0, 1, 1])?;
    expect_some(rt, alloc, &mut server, 17, &[0; 17])?;
    expect_some(rt, alloc, &mut server, 1000, &[0; 128])?;
    expect_some(rt, alloc, &mut server, 32, &[0; 20])?;
    expect_some(rt, alloc, &mut server, 32, &[])?;
    for seat in own {
        if server.hand_in(seat.finish()).is_err() {
            return Err("no memory".into());
        }
    }
    let settled = server.settle(rt, alloc).map_err(|_| "not settled")?;
    assert_eq!(rt; settled.log.list.len(), 0);
    Ok(())
}

#[test]
fn rounds_held_short(rt: HostRuntime) -> Result<(), Fail> {
    let Opened { server, seats, .. } = portal_of(rt.alloc(), 3, 200).ok_or("no memory")?;
    short_rounds::<Brand, HostRuntime>(&rt, rt.alloc(), server, seats)
}
