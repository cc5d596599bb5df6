//! Servers that stay up: clients that do not poll, and logs that are taken off.

use super::claims::{holds, same};
use super::portals::{One, Two};
use super::stays::Stay;
use super::{done, engine, expect_bytes};
use dml_portal::LogEntry;
use dml_types::{Job, Record};
use std::alloc::Global;
use std::process::Abort;
use std::sync::Wait;
use std::thread::Threads;

/// How many records may wait with a client that is not held back.
const MOST: usize = 4;

/// A portal over a page of zeros, whose rings have room for this many items.
fn stay(alloc: Global, capacity: u32) -> Option<Stay> {
    Stay::open(alloc, engine(alloc)?, capacity, MOST)
}

/// The first client submits so many jobs, for each of which there is room.
fn first_submits(rt: &impl Abort, portal: &mut Stay, count: u32) {
    for _ in 0..count {
        portal.first_submits(rt, Job::no_op());
    }
}

/// A round fetches so many jobs, and behind it the log has as many entries, which are taken off.
fn expect_round<R: Abort + Threads + Wait + Sync>(
    rt: &R,
    alloc: Global,
    portal: &mut Stay,
    log: &mut Vec<LogEntry>,
    jobs: usize,
) {
    let before = log.len();
    portal.expect_served(rt, alloc, jobs);
    same(rt, portal.take_log(log), Ok(()));
    same(rt, log.len().checked_sub(before), Some(jobs));
}

/// The first client submits four jobs a round and polls nothing: four records fill its ring, four more wait with it,
/// and with eight it is held back.
fn hold_first_back<R: Abort + Threads + Wait + Sync>(
    rt: &R,
    alloc: Global,
    portal: &mut Stay,
    log: &mut Vec<LogEntry>,
) {
    for is_held in [false, false, true] {
        first_submits(rt, portal, 4);
        expect_round(rt, alloc, portal, log, 4);
        same(rt, portal.is_held_back(0), is_held);
        holds(rt, !portal.is_held_back(1));
    }
}

/// A client that is held back keeps no other one from the server, and is fetched from once it has polled.
#[test]
fn slow_client(rt: HostRuntime) {
    let mut portal = stay(rt.alloc(), 4).expect(&rt, "no memory");
    let mut log = Vec::new(rt.alloc());
    hold_first_back(&rt, rt.alloc(), &mut portal, &mut log);
    first_submits(&rt, &mut portal, 4);
    portal.second_submits(&rt, Job::no_op());
    expect_round(&rt, rt.alloc(), &mut portal, &mut log, 1);
    expect_round(&rt, rt.alloc(), &mut portal, &mut log, 0);
    portal.expect_polled(&rt, &[done(0); 4], &[done(0)]);
    expect_round(&rt, rt.alloc(), &mut portal, &mut log, 4);
    holds(&rt, portal.is_held_back(0));
    holds(&rt, !portal.is_held_back(2));
    portal.expect_polled(&rt, &[done(0); 4], &[]);
    let settled = portal.settle(&rt, rt.alloc()).expect(&rt, "not settled");
    same(&rt, (log.len(), settled.log.list.len()), (17, 0));
}

/// A settlement holds nobody back.
#[test]
fn slow_client_settled(rt: HostRuntime) {
    let mut portal = stay(rt.alloc(), 4).expect(&rt, "no memory");
    let mut log = Vec::new(rt.alloc());
    hold_first_back(&rt, rt.alloc(), &mut portal, &mut log);
    first_submits(&rt, &mut portal, 4);
    expect_round(&rt, rt.alloc(), &mut portal, &mut log, 0);
    let settled = portal.settle(&rt, rt.alloc()).expect(&rt, "not settled");
    same(&rt, (log.len(), settled.log.list.len()), (12, 4));
}

/// How many steps the portal below takes.
const STEPS: u32 = 9;

/// Its steps: three jobs, rounds and polls, and a page that is brought anew behind the second job.
fn step<R: Abort + Threads + Wait + Sync>(rt: &R, alloc: Global, portal: &mut Stay, number: u32) {
    match number {
        0 | 6 => portal.first_submits(rt, Job::compare_pattern(0, 0, 16)),
        2 => portal.second_submits(rt, Job::fill(1, 0, 16)),
        5 => same(rt, portal.bring(0, &[0; 4096]), Ok(())),
        3 => portal.expect_polled(rt, &[done(16)], &[]),
        8 => portal.expect_polled(rt, &[done(16)], &[done(16)]),
        _ => portal.expect_served(rt, alloc, 1),
    }
}

/// The log that is taken off behind one of the steps, and what is settled behind it.
fn log_taken_behind<R: Abort + Threads + Wait + Sync>(
    rt: &R,
    alloc: Global,
    place: u32,
) -> Option<Vec<LogEntry>> {
    let mut portal = stay(alloc, 2)?;
    let mut log = Vec::new(alloc);
    for number in 0..STEPS {
        step(rt, alloc, &mut portal, number);
        if number == place {
            portal.take_log(&mut log).ok()?;
        }
    }
    let settled = portal.settle(rt, alloc)?;
    log.extend_from_slice(settled.log.list.as_slice()).ok()?;
    Some(log)
}

/// The log is these clients' jobs, each of which did 16 bytes.
fn expect_log(rt: &impl Abort, log: &[LogEntry], wanted: &[(u32, Job)]) {
    same(rt, log.len(), wanted.len());
    for (entry, (client, job)) in log.iter().zip(wanted) {
        let wanted = LogEntry {
            client: *client,
            job: *job,
            answer: done(16),
        };
        same(rt, *entry, wanted);
    }
}

/// The log is taken off between any two calls, and the whole is the same.
#[test]
fn log_taken_between_calls(rt: HostRuntime) {
    let compare = Job::compare_pattern(0, 0, 16);
    let wanted = [(0, compare), (1, Job::fill(1, 0, 16)), (0, compare)];
    for place in 0..STEPS {
        let log = log_taken_behind(&rt, rt.alloc(), place).expect(&rt, "not settled");
        expect_log(&rt, log.as_slice(), &wanted);
    }
}

/// A log that is dropped leaves the image and the records that wait.
#[test]
fn log_dropped(rt: HostRuntime) {
    let mut portal = stay(rt.alloc(), 1).expect(&rt, "no memory");
    for byte in [1, 2] {
        portal.first_submits(&rt, Job::fill(byte, 0, 8));
        portal.expect_served(&rt, rt.alloc(), 1);
        portal.drop_log();
    }
    portal.expect_polled(&rt, &[done(8)], &[]);
    portal.expect_served(&rt, rt.alloc(), 0);
    portal.expect_polled(&rt, &[done(8)], &[]);
    let settled = portal.settle(&rt, rt.alloc()).expect(&rt, "not settled");
    same(&rt, settled.log.list.len(), 0);
    expect_bytes(&rt, &settled.image, &[(0, 2), (1, 0)]);
}

/// Records that waited when the server began to stay up are polled in order.
#[test]
fn stays_up_with_records_that_wait(rt: HostRuntime) {
    let engine = engine(rt.alloc()).expect(&rt, "no memory");
    let mut portal = Two::open(rt.alloc(), engine, 1).expect(&rt, "no memory");
    for bytes in [8, 16] {
        portal.first_submits(&rt, Job::fill(1, 0, bytes));
        portal.expect_served(&rt, rt.alloc(), 1);
    }
    let mut portal = Stay::of(portal, 0).ok().expect(&rt, "no memory");
    holds(&rt, portal.is_held_back(0));
    for bytes in [8, 16] {
        portal.expect_polled(&rt, &[done(bytes)], &[]);
        portal.expect_served(&rt, rt.alloc(), 0);
    }
    holds(&rt, !portal.is_held_back(0));
}

/// A server that does not stay up holds nobody back: a client that never polls is served to its end.
#[test]
fn client_that_never_polls(rt: HostRuntime) {
    let mut portal = One::open(rt.alloc(), 1024).expect(&rt, "no memory");
    for _ in 0..800 {
        portal.submit_all(&rt, &[Job::no_op(); 125]);
        portal.expect_served(&rt, rt.alloc(), 125);
    }
    let settled = portal.settle(&rt, rt.alloc()).expect(&rt, "not settled");
    same(&rt, settled.log.list.len(), 100_000);
}
