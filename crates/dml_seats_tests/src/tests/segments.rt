//! A server over memory that a caller lends in two segments.
ghost use Rattle.std.specs.Prelude.{◌≡◌};
ghost use Rattle.std.specs.List.{All};
ghost use Rattle.dml_portal.specs.Lanes.{IsSeatOf};
ghost use Rattle.dml_portal.specs.Servers.{lanes_of};

use dml_engine::EngineOver;
use dml_image::{Image, Segment, are_segments};
use dml_portal::{Portal, Seat, ServerOver};
use dml_seats::{Berths, OwnSeat, OwnServerOver};
use dml_types::{Job, Record, Settings, Status};
use std::alloc::Global;
use std::marker::Brand;
use std::process::Abort;
use std::sync::Wait;
use std::test::Fail;
use std::thread::Threads;

/// A mebibyte of staging, tasks of a page, one worker.
const SETTINGS: Settings = Settings {
    staging: 1 << 20,
    chunk: 4096,
    workers: 1,
};

/// Moves over pages 1 and 3, of 300 bytes from the one to the other, and of 8 bytes back, for 4 of which there is no
/// room before the hole between them; and their records.
fn moves() -> [(Job, Record); 2] {
    [
        (
            Job::move_bytes(4196, 12_488, 300),
            Record {
                completed: 300,
                ..Record::refused(Status::Success)
            },
        ),
        (
            Job::move_bytes(12_288, 8188, 8),
            Record {
                completed: 4,
                fault: 8192,
                ..Record::refused(Status::WriteFault)
            },
        ),
    ]
}

/// A client submits the moves, polls their records behind a round, and is handed in.
fn expect_moves<B: Berths, R: Abort + Threads + Wait + Sync>(
    rt: &R,
    alloc: Global,
    server: &mut OwnServerOver<'_, B>,
    seat: OwnSeat<B>,
) {
    let mut seat = seat;
    for (job, _) in moves() {
        assert!(rt; seat.try_submit(job).is_ok());
    }
    assert_eq!(rt; server.serve_round(rt, alloc), Ok(2));
    for (job, record) in moves() {
        assert_eq!(rt; seat.poll(), Some(record), "{job:?}");
    }
    assert!(rt; server.hand_in(seat.finish()).is_ok());
}

/// The client of a portal moves bytes, and the portal is settled.
fn moved<B: Berths, R: Abort + Threads + Wait + Sync>(
    rt: &R,
    alloc: Global,
    server: ServerOver<'_>,
    seats: Vec<Seat>,
) -> Result<(), Fail>
    requires server { lanes_of server ≡ B.lanes }
    requires seats { All (IsSeatOf B.lanes) seats.items }
{
    let long = server.stay_up(8).map_err(|_| "no memory")?;
    let mut server = OwnServerOver::<B>::new(alloc, long);
    for seat in seats {
        expect_moves(rt, alloc, &mut server, OwnSeat::<B>::new(seat));
    }
    let settled = server.settle(rt, alloc).map_err(|_| "not settled")?;
    assert_eq!(rt; settled.log.list.len(), 2);
    Ok(())
}

/// What the moves leave stands in the caller's memory.
#[test]
fn server_over_two_segments(rt: HostRuntime) -> Result<(), Fail> {
    let (mut low, mut high) = ([1; 4096], [2; 4096]);
    let mut list = Vec::with_capacity(rt.alloc(), 2)?;
    list.push(Segment::new(1, &mut low))?;
    list.push(Segment::new(3, &mut high))?;
    assert!(rt; are_segments(&list));
    let image = Image::over_segments(list);
    let Ok(engine) = EngineOver::new(rt.alloc(), image, SETTINGS) else {
        return Err("no memory".into());
    };
    let Ok((server, seats)) = Portal::open(rt.alloc(), engine, 1, 4) else {
        return Err("no memory".into());
    };
    moved::<Brand, HostRuntime>(&rt, rt.alloc(), server, seats)?;
    let (mut left, mut right) = ([1; 4096], [2; 4096]);
    left[4092..].fill(2);
    right[200..500].fill(1);
    assert!(rt; low == left && high == right);
    Ok(())
}
