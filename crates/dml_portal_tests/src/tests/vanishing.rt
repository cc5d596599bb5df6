//! Clients that vanish between any two of their steps, in rings of one place.

use super::claims::{holds, same};
use super::portals::Two;
use super::stays::Stay;
use super::{done, engine, expect_bytes};
use dml_portal::{LongServer, Seat, Server, Settled};
use dml_types::Job;
use std::alloc::Global;
use std::process::Abort;
use std::sync::Wait;
use std::thread::Threads;

/// A step of the first client or, between two of them, a round.
#[derive(Clone, Copy)]
enum Step {
    Submit,
    Round,
    Poll,
}

/// The first client's steps, behind which it finishes. Behind the second round one of its records waits, so a server
/// that stays up holds it back in the third.
const STEPS: [Step; 9] = [
    Step::Submit,
    Step::Round,
    Step::Submit,
    Step::Round,
    Step::Submit,
    Step::Round,
    Step::Poll,
    Step::Round,
    Step::Poll,
];

/// How many of the first client's jobs are carried out in the end, where it vanishes behind so many of its steps and
/// its finish.
const OF_A_LOG_THAT_GROWS: [usize; 11] = [0, 1, 1, 2, 2, 3, 3, 3, 3, 3, 3];

const OF_A_LOG_THAT_IS_TAKEN: [usize; 11] = [0, 1, 1, 2, 2, 2, 2, 3, 3, 3, 3];

/// The first client takes a step of its own.
fn take_step(rt: &impl Abort, first: &mut Seat, step: Step) {
    match step {
        Step::Submit => same(rt, first.try_submit(Job::no_op()), Ok(())),
        Step::Poll => same(rt, first.poll(), Some(done(0))),
        Step::Round => {}
    }
}

/// The first client vanishes, with its seat finished or not.
fn vanish(first: Seat, is_finished: bool) {
    if is_finished {
        drop(first.finish());
    } else {
        drop(first);
    }
}

/// The second client submits a job.
fn second_submits(rt: &impl Abort, second: &mut Seat) {
    same(rt, second.try_submit(Job::fill(1, 0, 8)), Ok(()));
}

/// It polls that job's record.
fn second_polls(rt: &impl Abort, second: &mut Seat) {
    same(rt, second.poll(), Some(done(8)));
}

/// A round is served.
fn serve<R: Abort + Threads + Wait + Sync>(rt: &R, alloc: Global, server: &mut Server) {
    holds(rt, server.serve_round(rt, alloc).is_ok());
}

/// The first client's seat is gone, and the second one's is not.
fn expect_first_gone(rt: &impl Abort, server: &mut Server) {
    holds(rt, server.is_seat_gone(0));
    holds(rt, !server.is_seat_gone(1));
}

/// A portal whose first client vanishes behind so many steps: what its server leaves once the second client's job is
/// carried out.
fn left_by_a_server<R: Abort + Threads + Wait + Sync>(
    rt: &R,
    alloc: Global,
    steps: usize,
) -> Option<Settled> {
    let Two {
        mut server,
        mut first,
        mut second,
    } = Two::open(alloc, engine(alloc)?, 1)?;
    for step in STEPS.iter().take(steps) {
        take_step(rt, &mut first, *step);
        if let Step::Round = step {
            serve(rt, alloc, &mut server);
        }
    }
    vanish(first, steps > STEPS.len());
    expect_first_gone(rt, &mut server);
    second_submits(rt, &mut second);
    serve(rt, alloc, &mut server);
    second_polls(rt, &mut second);
    Some(server.into_settled())
}

/// A round of a server that stays up is served.
fn serve_long<R: Abort + Threads + Wait + Sync>(rt: &R, alloc: Global, server: &mut LongServer) {
    holds(rt, server.serve_round(rt, alloc).is_ok());
}

/// The first client's seat is gone from it, and the second one's is not.
fn expect_first_gone_from_long(rt: &impl Abort, server: &mut LongServer) {
    holds(rt, server.is_seat_gone(0));
    holds(rt, !server.is_seat_gone(1));
}

/// The same of a server that stays up and holds a client back for whom one record waits.
fn left_by_a_long_server<R: Abort + Threads + Wait + Sync>(
    rt: &R,
    alloc: Global,
    steps: usize,
) -> Option<Settled> {
    let Stay {
        mut server,
        mut first,
        mut second,
    } = Stay::open(alloc, engine(alloc)?, 1, 0)?;
    for step in STEPS.iter().take(steps) {
        take_step(rt, &mut first, *step);
        if let Step::Round = step {
            serve_long(rt, alloc, &mut server);
        }
    }
    same(rt, server.is_held_back(0), steps > 3);
    vanish(first, steps > STEPS.len());
    expect_first_gone_from_long(rt, &mut server);
    second_submits(rt, &mut second);
    serve_long(rt, alloc, &mut server);
    second_polls(rt, &mut second);
    Some(server.give_up())
}

/// The log has so many entries of the first client, and the one of the second, whose bytes are written.
fn expect_left(rt: &impl Abort, settled: &Settled, of_first: usize) {
    let log = settled.log.list.as_slice();
    same(
        rt,
        log.iter().filter(|entry| entry.client == 0).count(),
        of_first,
    );
    same(rt, log.iter().filter(|entry| entry.client == 1).count(), 1);
    expect_bytes(rt, &settled.image, &[(0, 1), (8, 0)]);
}

/// A client vanishes behind each of its steps. The other one is served.
#[test]
fn client_vanishes(rt: HostRuntime) {
    for (steps, of_first) in OF_A_LOG_THAT_IS_TAKEN.iter().enumerate() {
        let settled = left_by_a_long_server(&rt, rt.alloc(), steps).expect(&rt, "no memory");
        expect_left(&rt, &settled, *of_first);
    }
}

/// The same of a server that keeps its log.
#[test]
fn client_vanishes_from_a_kept_log(rt: HostRuntime) {
    for (steps, of_first) in OF_A_LOG_THAT_GROWS.iter().enumerate() {
        let settled = left_by_a_server(&rt, rt.alloc(), steps).expect(&rt, "no memory");
        expect_left(&rt, &settled, *of_first);
    }
}
