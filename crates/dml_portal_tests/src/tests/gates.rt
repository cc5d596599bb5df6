//! Rounds whose tasks are held.

use super::done;
use super::kinds::Kind;
use super::steps::{expect_polled, expect_served, submit_all};
use dml_engine::EngineOver;
use dml_image::Image;
use dml_pool::Gate;
use dml_portal::{Portal, PortalError, Seat, ServerOver};
use dml_types::{Job, Record, Settings};
use std::alloc::Global;
use std::process::Abort;
use std::sync::Wait;
use std::sync::atomic::{AtomicU64, Ordering};
use std::thread::{self, Threads};
use std::time::{Clock, Duration};

/// The turns after which a gate gives up.
const TURNS: u32 = 10_000;

/// What is counted for each of three tasks: a byte of a word.
const MARKS: [u64; 3] = [0x1, 0x100, 0x1_0000];

/// Each of three tasks once.
const ALL_ONCE: u64 = 0x1_0101;

/// How often each task entered, and how often a task was let go before all had.
#[derive(Drop)]
struct Counts {
    entered: AtomicU64,
    given_up: AtomicU64,
}

impl Counts {
    fn new() -> Counts {
        Counts {
            entered: AtomicU64::new(0),
            given_up: AtomicU64::new(0),
        }
    }

    fn both(&self) -> (u64, u64) {
        (
            self.entered.load(Ordering::SeqCst),
            self.given_up.load(Ordering::SeqCst),
        )
    }
}

/// A gate that holds each of three tasks until all have entered.
#[derive(Drop)]
struct Meeting<'c, C> {
    clock: &'c C,
    counts: &'c Counts,
}

impl<'c, C: Clock> Gate for Meeting<'c, C> {
    fn enter(&self, task: usize) {
        let Some(mark) = MARKS.get(task) else {
            return;
        };
        self.counts.entered.fetch_add(*mark, Ordering::SeqCst);
        for _ in 0..TURNS {
            if self.counts.entered.load(Ordering::SeqCst) & ALL_ONCE == ALL_ONCE {
                return;
            }
            thread::sleep(self.clock, Duration::from_millis(1));
        }
        self.counts.given_up.fetch_add(1, Ordering::SeqCst);
    }
}

/// An engine over an image whose jobs are cut in chunks of 8 bytes.
fn engine_of_eight<'a>(alloc: Global, image: Image<'a>, workers: u32) -> Option<EngineOver<'a>> {
    let settings = Settings {
        staging: 1 << 20,
        chunk: 8,
        workers,
    };
    EngineOver::new(alloc, image, settings).ok()
}

/// The server of a portal over an image, whose lists all go through this gate, and the seat of its one client, with
/// rings for so many items.
pub(super) fn gated<'a, G: Gate + Drop>(
    alloc: Global,
    image: Image<'a>,
    workers: u32,
    gate: G,
    capacity: u32,
) -> Option<(ServerOver<'a, G>, Seat)> {
    let engine = engine_of_eight(alloc, image, workers)?.with_gate(gate);
    let Ok((server, mut seats)) = Portal::open(alloc, engine, 1, capacity) else {
        return None;
    };
    let seat = seats.pop()?;
    Some((server, seat))
}

/// Two jobs of three chunks in all.
fn two_fills() -> [Job; 2] {
    [Job::fill(1, 0, 16), Job::fill(2, 64, 8)]
}

/// What they leave at the front of a page of zeros.
fn filled() -> [u8; 65] {
    let mut filled = [0; 65];
    filled[0] = 1;
    filled[8] = 1;
    filled[64] = 2;
    filled
}

/// A round carries out two jobs of the client.
fn expect_fills<R: Abort + Threads + Wait + Sync, G: Gate + Sync + Drop>(
    rt: &R,
    alloc: Global,
    server: ServerOver<'_, G>,
    seat: Seat,
) {
    let mut server = server;
    let mut seat = seat;
    submit_all(rt, &mut seat, &two_fills());
    expect_served(rt, alloc, &mut server, 2);
    expect_polled(rt, &mut seat, &[done(16), done(8)]);
}

/// Expects a round over memory of a kind, whose tasks enter at once.
fn expect_at_once<R: Abort + Clock + Threads + Wait + Sync>(
    rt: &R,
    alloc: Global,
    kind: Kind,
    turn: u32,
) {
    let counts = Counts::new();
    let gate = Meeting {
        clock: rt,
        counts: &counts,
    };
    let mut content = [0; 8192];
    let image = kind.image(rt, alloc, &mut content);
    let (server, seat) = gated(alloc, image, 3, gate, 2).expect(rt, "no memory");
    expect_fills(rt, alloc, server, seat);
    assert_eq!(rt; counts.both(), (ALL_ONCE, 0), "turn {turn}: {kind:?}");
    kind.expect_left(rt, &content, &filled());
}

/// The tasks of a round enter at once.
#[test]
fn every_submit_runs_at_once(rt: HostRuntime) {
    for turn in 0..10 {
        for kind in Kind::ALL {
            expect_at_once(&rt, rt.alloc(), kind, turn);
        }
    }
}

/// A gate that holds each task until something has entered.
#[derive(Drop)]
struct Held<'c, C> {
    clock: &'c C,
    counts: &'c Counts,
}

impl<'c, C: Clock> Gate for Held<'c, C> {
    fn enter(&self, _task: usize) {
        for _ in 0..TURNS {
            if self.counts.entered.load(Ordering::SeqCst) > 0 {
                return;
            }
            thread::sleep(self.clock, Duration::from_millis(1));
        }
        self.counts.given_up.fetch_add(1, Ordering::SeqCst);
    }
}

/// Polls until a record is there, which is then counted as one that has entered.
fn polled_once<C: Clock>(clock: &C, seat: Seat, counts: &Counts) -> Option<Record> {
    let mut seat = seat;
    for _ in 0..TURNS {
        if let Some(record) = seat.poll() {
            counts.entered.fetch_add(1, Ordering::SeqCst);
            return Some(record);
        }
        thread::sleep(clock, Duration::from_millis(1));
    }
    None
}

/// Serves a round.
fn served_once<R: Threads + Wait + Sync, G: Gate + Sync + Drop>(
    rt: &R,
    alloc: Global,
    server: ServerOver<'_, G>,
) -> Result<usize, PortalError> {
    let mut server = server;
    server.serve_round(rt, alloc)
}

/// A client polls on a thread of its own, while the server serves a round on this one.
fn polled_while_served<R: Threads + Wait + Sync + Clock, G: Gate + Sync + Drop>(
    rt: &R,
    alloc: Global,
    server: ServerOver<'_, G>,
    seat: Seat,
    counts: &Counts,
) -> (Option<Record>, Result<usize, PortalError>) {
    thread::join(
        rt,
        || -> Option<Record> { polled_once(rt, seat, counts) },
        || -> Result<usize, PortalError> { served_once(rt, alloc, server) },
    )
}

/// Two rounds of two jobs each, of which the first two records are polled, and then two jobs more.
fn fill_rings<R: Abort + Threads + Wait + Sync, G: Gate + Sync>(
    rt: &R,
    alloc: Global,
    server: &mut ServerOver<'_, G>,
    seat: &mut Seat,
) {
    for _ in 0..2 {
        submit_all(rt, seat, &[Job::no_op(), Job::no_op()]);
        expect_served(rt, alloc, server, 2);
    }
    expect_polled(rt, seat, &[done(0), done(0)]);
    submit_all(rt, seat, &two_fills());
}

/// Expects a round over memory of a kind, whose tasks are held until a record that waited is polled.
fn expect_pushed<R: Abort + Clock + Threads + Wait + Sync>(
    rt: &R,
    alloc: Global,
    kind: Kind,
    turn: u32,
) {
    let counts = Counts::new();
    let gate = Held {
        clock: rt,
        counts: &counts,
    };
    let mut content = [0; 8192];
    let image = kind.image(rt, alloc, &mut content);
    let (mut server, mut seat) = gated(alloc, image, 3, gate, 2).expect(rt, "no memory");
    fill_rings(rt, alloc, &mut server, &mut seat);
    let answers = polled_while_served(rt, alloc, server, seat, &counts);
    let wanted = ((Some(done(0)), Ok(2)), (1, 0));
    assert_eq!(rt; (answers, counts.both()), wanted, "turn {turn}: {kind:?}");
    kind.expect_left(rt, &content, &filled());
}

/// A round pushes the records that wait before its own jobs are carried out.
#[test]
fn pushed_before_tasks(rt: HostRuntime) {
    for turn in 0..10 {
        for kind in Kind::ALL {
            expect_pushed(&rt, rt.alloc(), kind, turn);
        }
    }
}
