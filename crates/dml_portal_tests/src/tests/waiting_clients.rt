//! Clients on threads of their own whose rings have one place, so that records wait and the clients are held back, while
//! a server that stays up serves rounds and its log is taken off.
ghost use Rattle.dml_portal.specs.Lanes.{AreSameLanes};
ghost use Rattle.dml_portal.specs.Seats.{IsSameSeat};

use super::claims::{holds, same};
use super::clients::TURNS;
use super::staying_clients::{Up, served, settle_behind};
use super::stays::Stay;
use super::{done, engine};
use dml_pool::Free;
use dml_portal::{LogEntry, LongServerOver, Seat};
use dml_types::{Job, Record};
use std::alloc::Global;
use std::process::Abort;
use std::sync::Wait;
use std::thread::{self, Threads};

/// How many jobs a client has.
const JOBS: u32 = 64;

/// What a client has done so far.
#[derive(Drop)]
struct Work {
    /// How many jobs it submitted.
    submitted: u32,
    /// The records that it polled.
    records: Vec<Record>,
}

/// A client's job of this number, whose record tells it from the client's others.
fn job_of(client: u32, number: u32) -> Job {
    Job::fill(1, 2048 * u64::from(client), number)
}

/// The client submits its next job if there is room, and polls a record in each second turn.
fn take_turn(rt: &impl Abort, seat: &mut Seat, work: &mut Work, turn: u32)
    ensures { IsSameSeat seat.old seat.new }
{
    let number = work.submitted;
    if number < JOBS && seat.try_submit(job_of(seat.client(), number)).is_ok() {
        work.submitted = number + 1;
    }
    if turn % 2 == 1 {
        if let Some(record) = seat.poll() {
            work.records.push(record).expect(rt, "memory");
        }
    }
}

/// The client takes its turns.
fn worked(rt: &impl Abort, alloc: Global, seat: Seat) -> (Seat, Work)
    ensures { IsSameSeat seat result.0 }
{
    let mut seat = seat;
    let mut work = Work {
        submitted: 0,
        records: Vec::new(alloc),
    };
    for turn in 0..TURNS {
        take_turn(rt, &mut seat, &mut work, turn);
        thread::yield_now();
    }
    (seat, work)
}

/// The second client works on a thread of its own, while the server serves rounds on this one.
fn worked_and_served<'a, R: Abort + Threads + Wait + Sync>(
    rt: &R,
    alloc: Global,
    server: LongServerOver<'a, Free>,
    second: Seat,
) -> ((Seat, Work), Up<'a>)
    ensures seat { IsSameSeat second result.0.0 }
    ensures lanes { AreSameLanes server.entry.lanes.items result.1.server.lanes.items }
{
    thread::join(
        rt,
        || -> (Seat, Work)
            ensures { IsSameSeat second result.0 }
        { worked(rt, alloc, second) },
        || -> Up<'_>
            ensures { AreSameLanes server.entry.lanes.items result.server.lanes.items }
        { served(rt, alloc, server) },
    )
}

/// What the server and its clients have done in the end.
#[derive(Drop)]
struct Outcome {
    portal: Stay,
    /// What was taken off the log.
    log: Vec<LogEntry>,
    first: Work,
    second: Work,
}

/// Both clients work on threads of their own, while the server serves rounds on this one.
fn worked_while_served<R: Abort + Threads + Wait + Sync>(
    rt: &R,
    alloc: Global,
    portal: Stay,
) -> Outcome {
    let Stay {
        server,
        first,
        second,
    } = portal;
    let ((first, of_first), ((second, of_second), up)) = thread::join(
        rt,
        || -> (Seat, Work)
            ensures { IsSameSeat first result.0 }
        { worked(rt, alloc, first) },
        || -> ((Seat, Work), Up<'_>)
            ensures { AreSameLanes server.entry.lanes.items result.1.server.lanes.items × IsSameSeat second result.0.0 }
        { worked_and_served(rt, alloc, server, second) },
    );
    let Up { server, log } = up;
    Outcome {
        portal: Stay {
            server,
            first,
            second,
        },
        log,
        first: of_first,
        second: of_second,
    }
}

/// The client's part of the log is what it submitted, and it has polled a front of that part's records.
fn expect_work(rt: &impl Abort, log: &[LogEntry], client: u32, work: &Work) {
    let mut part = log.iter().filter(|entry| entry.client == client);
    for number in 0..work.submitted {
        let wanted = LogEntry {
            client,
            job: job_of(client, number),
            answer: done(number),
        };
        same(rt, part.next().copied(), Some(wanted));
    }
    holds(rt, part.next().is_none());
    let mut numbers = 0..work.submitted;
    for record in &work.records {
        same(rt, numbers.next().map(done), Some(*record));
    }
}

/// Records wait with their clients, who are held back, while the log is taken off.
#[test]
fn records_wait_while_the_log_is_taken(rt: HostRuntime) {
    for _ in 0..10 {
        let engine = engine(rt.alloc()).expect(&rt, "no memory");
        let portal = Stay::open(rt.alloc(), engine, 1, 0).expect(&rt, "no memory");
        let Outcome {
            portal,
            mut log,
            first,
            second,
        } = worked_while_served(&rt, rt.alloc(), portal);
        settle_behind(&rt, rt.alloc(), portal, &mut log);
        expect_work(&rt, log.as_slice(), 0, &first);
        expect_work(&rt, log.as_slice(), 1, &second);
    }
}
