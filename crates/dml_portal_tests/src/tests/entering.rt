//! A gate that was given is entered once for each task of a round, with however many workers.

use super::done;
use super::gates::gated;
use super::kinds::Kind;
use super::steps::{expect_polled, expect_served, submit_all};
use dml_pool::Gate;
use dml_portal::{Seat, ServerOver};
use dml_types::Job;
use std::alloc::Global;
use std::process::Abort;
use std::sync::Wait;
use std::sync::atomic::{AtomicU64, Ordering};
use std::thread::Threads;

/// How often each of the first tasks of a wave entered, four bits of a word for each, and how often another one did.
#[derive(Drop)]
struct Counts {
    entered: AtomicU64,
    others: AtomicU64,
}

impl Counts {
    fn new() -> Counts {
        Counts {
            entered: AtomicU64::new(0),
            others: AtomicU64::new(0),
        }
    }

    fn both(&self) -> (u64, u64) {
        (
            self.entered.load(Ordering::SeqCst),
            self.others.load(Ordering::SeqCst),
        )
    }
}

/// A gate that counts who enters.
#[derive(Drop)]
struct Counting<'c> {
    counts: &'c Counts,
}

impl<'c> Gate for Counting<'c> {
    fn enter(&self, task: usize) {
        if task < 16 {
            self.counts
                .entered
                .fetch_add(1 << (4 * task), Ordering::SeqCst);
        } else {
            self.counts.others.fetch_add(1, Ordering::SeqCst);
        }
    }
}

/// Rounds of no job, of one task, of a wave of three, of two waves of two tasks, and of one of 128.
fn expect_rounds<R: Abort + Threads + Wait + Sync, G: Gate + Sync + Drop>(
    rt: &R,
    alloc: Global,
    server: ServerOver<'_, G>,
    seat: Seat,
) {
    let mut server = server;
    let mut seat = seat;
    expect_served(rt, alloc, &mut server, 0);
    for (jobs, records) in [
        ([Job::fill(1, 0, 8), Job::no_op()], [done(8), done(0)]),
        (
            [Job::fill(1, 0, 16), Job::fill(2, 64, 8)],
            [done(16), done(8)],
        ),
        (
            [Job::fill(1, 0, 16), Job::move_bytes(0, 128, 16)],
            [done(16), done(16)],
        ),
    ] {
        submit_all(rt, &mut seat, &jobs);
        expect_served(rt, alloc, &mut server, 2);
        expect_polled(rt, &mut seat, &records);
    }
    submit_all(rt, &mut seat, &[Job::compare(0, 8, 8); 128]);
    expect_served(rt, alloc, &mut server, 128);
}

/// What they leave at the front of a page of zeros.
fn left() -> [u8; 137] {
    let mut left = [0; 137];
    left[0] = 1;
    left[8] = 1;
    left[64] = 2;
    left[128] = 1;
    left[136] = 1;
    left
}

/// Expects the rounds over memory of a kind, with so many workers.
fn expect_entered<R: Abort + Threads + Wait + Sync>(
    rt: &R,
    alloc: Global,
    kind: Kind,
    workers: u32,
) {
    let counts = Counts::new();
    let gate = Counting { counts: &counts };
    let mut content = [0; 8192];
    let image = kind.image(rt, alloc, &mut content);
    let (server, seat) = gated(alloc, image, workers, gate, 128).expect(rt, "no memory");
    expect_rounds(rt, alloc, server, seat);
    assert_eq!(rt;
        counts.both(),
        (0x1111_1111_1111_1245, 112),
        "{workers} workers: {kind:?}"
    );
    kind.expect_left(rt, &content, &left());
}

/// The first task of a wave entered in five waves, the second in four, the third in two, and each other one of the first
/// sixteen in one, in which there are 112 more.
#[test]
fn tasks_of_rounds_enter_once(rt: HostRuntime) {
    for workers in [1, 2, 16] {
        for kind in Kind::ALL {
            expect_entered(&rt, rt.alloc(), kind, workers);
        }
    }
}
