//! Calls whose growths of memory are refused.
ghost use Rattle.std.specs.Prelude.{◌≡◌};
ghost use Rattle.std.specs.List.{All};
ghost use Rattle.dml_portal.specs.Lanes.{IsSeatOf};
ghost use Rattle.dml_portal.specs.Servers.{lanes_of};

use super::{Opened, portal_of};
use dml_portal::{PortalError, Seat, Server, SettleFault, Settled};
use dml_seats::{Bell, Berths, OwnSeat, OwnServer};
use dml_types::Job;
use std::alloc::Global;
use std::marker::Brand;
use std::process::Abort;
use std::sync::Wait;
use std::test::Fail;
use std::thread::Threads;

// The refused_* below hold whichever growth is refused: they are also run with each refused in turn, from the first one
// behind those that their set-up takes.

/// A bell is made at once, or when it is asked for again; another handle to it takes no memory.
#[test]
fn refused_bell(rt: HostRuntime) -> Result<(), Fail> {
    let bell = match Bell::new(rt.alloc()) {
        Ok(bell) => bell,
        Err(_) => Bell::new(rt.alloc())?,
    };
    let other = bell.another()?;
    other.ring();
    bell.wait(&rt);
    Ok(())
}

/// The server of a portal that stays up, to which its seats were handed in, each at once or when it is asked again; each
/// has submitted a fill of 8 bytes.
fn handed_in<B: Berths, R: Abort>(
    rt: &R,
    alloc: Global,
    server: Server,
    seats: Vec<Seat>,
) -> Result<OwnServer<B>, Fail>
    requires server { lanes_of server ≡ B.lanes }
    requires seats { All (IsSeatOf B.lanes) seats.items }
{
    let long = server.stay_up(8).map_err(|_| "no memory")?;
    let mut server = OwnServer::<B>::new(alloc, long);
    for seat in seats {
        let mut seat = OwnSeat::<B>::new(seat);
        let job = Job::fill(3, 8 * u64::from(seat.client()), 8);
        seat.try_submit(job).map_err(|_| "full")?;
        if let Err((done, error)) = server.hand_in(seat.finish()) {
            assert_eq!(rt; error, PortalError::NoMemory);
            server.hand_in(done).map_err(|_| "no memory")?;
        }
    }
    Ok(server)
}

/// Hands the seats in, and gives the portal up.
fn given_up<B: Berths, R: Abort>(
    rt: &R,
    alloc: Global,
    server: Server,
    seats: Vec<Seat>,
) -> Result<(), Fail>
    requires server { lanes_of server ≡ B.lanes }
    requires seats { All (IsSeatOf B.lanes) seats.items }
{
    let server = handed_in::<B, R>(rt, alloc, server, seats)?;
    assert!(rt; server.give_up().log.list.is_empty());
    Ok(())
}

/// What a portal leaves, or leaves when it is settled again at once.
fn settled_at_once<B: Berths, R: Abort + Threads + Wait + Sync>(
    rt: &R,
    alloc: Global,
    server: OwnServer<B>,
) -> Result<Settled, Fail> {
    match server.settle(rt, alloc) {
        Ok(settled) => Ok(settled),
        Err((server, fault)) => {
            assert_eq!(rt; fault, SettleFault::NoMemory);
            server
                .settle(rt, alloc)
                .map_err(|_| "not settled at last".into())
        }
    }
}

/// Hands the seats in, and settles the portal: no job and no seat is lost by a refusal.
fn settled<B: Berths, R: Abort + Threads + Wait + Sync>(
    rt: &R,
    alloc: Global,
    server: Server,
    seats: Vec<Seat>,
) -> Result<(), Fail>
    requires server { lanes_of server ≡ B.lanes }
    requires seats { All (IsSeatOf B.lanes) seats.items }
{
    let server = handed_in::<B, R>(rt, alloc, server, seats)?;
    let settled = settled_at_once(rt, alloc, server)?;
    assert_eq!(rt; settled.log.list.len(), 5);
    for addr in [0, 8, 16, 24, 32] {
        assert_eq!(rt; settled.image.byte(addr), Some(3), "{addr}");
    }
    Ok(())
}

/// What `refused_hand_in` does before its calls.
#[test]
fn set_up_of_hand_in(rt: HostRuntime) -> Result<(), Fail> {
    let Opened { server, seats, .. } = portal_of(rt.alloc(), 5, 2).ok_or("no memory")?;
    assert_eq!(rt; seats.len(), 5);
    assert!(rt; server.stay_up(8).is_ok());
    Ok(())
}

/// Five seats are handed in: a refused one is handed back, and the next call takes it.
#[test]
fn refused_hand_in(rt: HostRuntime) -> Result<(), Fail> {
    let Opened { server, seats, .. } = portal_of(rt.alloc(), 5, 2).ok_or("no memory")?;
    given_up::<Brand, HostRuntime>(&rt, rt.alloc(), server, seats)
}

/// What `refused_settle` does before its call.
#[test]
fn set_up_of_settle(rt: HostRuntime) -> Result<(), Fail> {
    let Opened { server, seats, .. } = portal_of(rt.alloc(), 5, 2).ok_or("no memory")?;
    given_up::<Brand, HostRuntime>(&rt, rt.alloc(), server, seats)
}

/// The whole log, or the server with the seats that were handed in, which gives the whole log when it is settled again.
#[test]
fn refused_settle(rt: HostRuntime) -> Result<(), Fail> {
    let Opened { server, seats, .. } = portal_of(rt.alloc(), 5, 2).ok_or("no memory")?;
    settled::<Brand, HostRuntime>(&rt, rt.alloc(), server, seats)
}
