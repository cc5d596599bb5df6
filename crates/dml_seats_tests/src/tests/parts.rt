//! Rounds that are carried out part by part.

use dml_engine::Engine;
use dml_image::Image;
use dml_pool::Gate;
use dml_portal::{LongServer, Portal, PortalError, Seat};
use dml_types::{Job, Settings, Status};
use std::alloc::Global;
use std::sync::Wait;
use std::sync::atomic::{AtomicU64, Ordering};
use std::test::Fail;
use std::thread::{self, Threads};
use std::time::{Clock, Duration};

/// The bytes of a move.
const MEBIBYTE: u32 = 1 << 20;

/// How many moves the client submits.
const MOVES: u32 = 128;

/// How many tasks the moves of the first part have.
const FIRST: u64 = 128;

/// The turns after which a gate and a client give up.
const TURNS: u32 = 10_000;

/// How many tasks entered, how many records the client has polled, and whether a task was let go before it had one.
#[derive(Drop)]
struct Counts {
    entered: AtomicU64,
    polled: AtomicU64,
    given_up: AtomicU64,
}

/// A gate that holds each task behind those of the first part until the client has polled a record.
#[derive(Drop)]
struct Second<'c, C> {
    clock: &'c C,
    counts: &'c Counts,
}

impl<'c, C: Clock> Gate for Second<'c, C> {
    fn enter(&self, _task: usize) {
        if self.counts.entered.fetch_add(1, Ordering::SeqCst) < FIRST {
            return;
        }
        for _ in 0..TURNS {
            let given_up = self.counts.given_up.load(Ordering::SeqCst);
            if self.counts.polled.load(Ordering::SeqCst) > 0 || given_up > 0 {
                return;
            }
            thread::sleep(self.clock, Duration::from_millis(1));
        }
        self.counts.given_up.fetch_add(1, Ordering::SeqCst);
    }
}

/// The server of a portal whose lists all go through this gate, over two mebibytes, and the seat of its one client.
fn gated<G: Gate + Drop>(alloc: Global, gate: G) -> Option<(LongServer<G>, Seat)> {
    let mut image = Image::new(alloc, 512).ok()?;
    for page in 0..512 {
        image.bring(page, &[7; 4096]).ok()?;
    }
    let settings = Settings {
        staging: 1 << 20,
        chunk: 65_536,
        workers: 2,
    };
    let engine = Engine::new(alloc, image, settings).ok()?.with_gate(gate);
    let Ok((server, mut seats)) = Portal::open(alloc, engine, 1, MOVES) else {
        return None;
    };
    let seat = seats.pop()?;
    let server = server.stay_up(0).ok()?;
    Some((server, seat))
}

/// Polls until as many records were there as there are moves: how many of them are successes.
fn polled<C: Clock>(clock: &C, seat: Seat, counts: &Counts) -> u32 {
    let mut seat = seat;
    let (mut all, mut successes) = (0u32, 0u32);
    for _ in 0..TURNS {
        for _ in 0..MOVES {
            let Some(record) = seat.poll() else {
                break;
            };
            counts.polled.fetch_add(1, Ordering::SeqCst);
            all = all.saturating_add(1);
            successes = successes.saturating_add(u32::from(record.status == Status::Success));
        }
        if all >= MOVES {
            break;
        }
        thread::sleep(clock, Duration::from_millis(1));
    }
    successes
}

/// Serves a round.
fn served<R: Threads + Wait + Sync, G: Gate + Sync + Drop>(
    rt: &R,
    alloc: Global,
    server: LongServer<G>,
) -> Result<usize, PortalError> {
    let mut server = server;
    server.serve_round(rt, alloc)
}

/// The client submits its moves, and polls on a thread of its own, while the server serves a round on this one.
fn polled_while_served<R: Threads + Wait + Sync + Clock, G: Gate + Sync + Drop>(
    rt: &R,
    alloc: Global,
    server: LongServer<G>,
    seat: Seat,
    counts: &Counts,
) -> (u32, Result<usize, PortalError>) {
    let mut seat = seat;
    for _ in 0..MOVES {
        let _ = seat.try_submit(Job::move_bytes(0, u64::from(MEBIBYTE), MEBIBYTE));
    }
    thread::join(
        rt,
        || -> u32 { polled(rt, seat, counts) },
        || -> Result<usize, PortalError> { served(rt, alloc, server) },
    )
}

/// Of 128 moves of a mebibyte the first record is out before the second part begins.
#[test]
fn first_record_comes_early(rt: HostRuntime) -> Result<(), Fail> {
    let counts = Counts {
        entered: AtomicU64::new(0),
        polled: AtomicU64::new(0),
        given_up: AtomicU64::new(0),
    };
    let gate = Second {
        clock: &rt,
        counts: &counts,
    };
    let (server, seat) = gated(rt.alloc(), gate).ok_or("no memory")?;
    let (successes, jobs) = polled_while_served(&rt, rt.alloc(), server, seat, &counts);
    assert_eq!(rt; (successes, jobs), (MOVES, Ok(128)));
    assert_eq!(rt; counts.given_up.load(Ordering::SeqCst), 0);
    assert_eq!(rt; counts.entered.load(Ordering::SeqCst), FIRST * 16);
    Ok(())
}
