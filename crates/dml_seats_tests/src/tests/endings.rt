//! Seats that are handed in, and portals that end.
ghost use Rattle.std.specs.Prelude.{◌≡◌};
ghost use Rattle.std.specs.List.{All};
ghost use Rattle.dml_portal.specs.Lanes.{IsSeatOf};
ghost use Rattle.dml_portal.specs.Servers.{lanes_of};

use super::{Opened, portal_of};
use dml_portal::{Seat, Server, SettleFault};
use dml_seats::{Berths, OwnDone, OwnSeat, OwnServer};
use dml_types::Job;
use std::alloc::Global;
use std::marker::Brand;
use std::process::Abort;
use std::sync::Wait;
use std::test::Fail;
use std::thread::Threads;

/// The server of a portal, and its seats, each of which has submitted a job.
fn own_of<B: Berths>(
    alloc: Global,
    server: Server,
    seats: Vec<Seat>,
) -> Result<(OwnServer<B>, Vec<OwnSeat<B>>), Fail>
    requires server { lanes_of server ≡ B.lanes }
    requires seats { All (IsSeatOf B.lanes) seats.items }
{
    let long = server.stay_up(8).map_err(|_| "no memory")?;
    let mut own = Vec::new(alloc);
    for seat in seats {
        let mut seat = OwnSeat::<B>::new(seat);
        let start = 8 * u64::from(seat.client());
        seat.try_submit(Job::fill(1, start, 8)).map_err(|_| "full")?;
        own.push(seat)?;
    }
    Ok((OwnServer::<B>::new(alloc, long), own))
}

/// Where a client has not finished, nothing is settled, and the same server is settled once its seat is handed in.
fn strangers<B: Berths, R: Abort + Threads + Wait + Sync>(
    rt: &R,
    alloc: Global,
    server: Server,
    seats: Vec<Seat>,
) -> Result<(), Fail>
    requires server { lanes_of server ≡ B.lanes }
    requires seats { All (IsSeatOf B.lanes) seats.items }
{
    let (mut server, mut own) = own_of::<B>(alloc, server, seats)?;
    let last = own.pop().ok_or("no seat")?;
    for seat in own {
        server.hand_in(seat.finish()).map_err(|_| "no memory")?;
    }
    let Err((mut server, fault)) = server.settle(rt, alloc) else {
        return Err("settled".into());
    };
    assert_eq!(rt; fault, SettleFault::Strangers);
    assert!(rt; !server.is_seat_gone(2));
    server.hand_in(last.finish()).map_err(|_| "no memory")?;
    let settled = server.settle(rt, alloc).map_err(|_| "not settled")?;
    assert_eq!(rt; settled.log.list.len(), 3);
    assert_eq!(rt; settled.image.byte(16), Some(1));
    Ok(())
}

#[test]
fn strangers_and_then_settled(rt: HostRuntime) -> Result<(), Fail> {
    let Opened { server, seats, .. } = portal_of(rt.alloc(), 3, 4).ok_or("no memory")?;
    strangers::<Brand, HostRuntime>(&rt, rt.alloc(), server, seats)
}

/// A finished seat is looked at while the server goes on, and used again; one that is dropped is told of.
fn used_again<B: Berths, R: Abort + Threads + Wait + Sync>(
    rt: &R,
    alloc: Global,
    server: Server,
    seats: Vec<Seat>,
) -> Result<(), Fail>
    requires server { lanes_of server ≡ B.lanes }
    requires seats { All (IsSeatOf B.lanes) seats.items }
{
    let (mut server, mut own) = own_of::<B>(alloc, server, seats)?;
    let mut done: OwnDone<B> = own.pop().ok_or("no seat")?.finish();
    assert!(rt; !server.is_served(&mut done));
    assert_eq!(rt; server.serve_round(rt, alloc), Ok(2));
    assert!(rt; server.is_served(&mut done));
    let mut seat = done.again();
    assert!(rt; seat.poll().is_some() && seat.poll().is_none());
    assert!(rt; seat.try_submit(Job::no_op()).is_ok() && !seat.is_server_gone());
    drop(own);
    assert!(rt; server.is_seat_gone(0) && !server.is_seat_gone(1));
    let settled = server.give_up();
    assert_eq!(rt; settled.log.list.len(), 2);
    assert!(rt; seat.is_server_gone());
    Ok(())
}

#[test]
fn seats_used_again(rt: HostRuntime) -> Result<(), Fail> {
    let Opened { server, seats, .. } = portal_of(rt.alloc(), 2, 4).ok_or("no memory")?;
    used_again::<Brand, HostRuntime>(&rt, rt.alloc(), server, seats)
}
