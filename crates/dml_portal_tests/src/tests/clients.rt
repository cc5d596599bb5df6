//! Clients on threads of their own.
ghost use Rattle.dml_portal.specs.Lanes.{AreSameLanes};
ghost use Rattle.dml_portal.specs.Seats.{IsSameSeat};

use super::claims::{holds, same};
use super::portals::Two;
use super::steps::serve;
use super::{done, engine, expect_bytes};
use dml_pool::Free;
use dml_portal::{LogEntry, Seat, ServerOver, SettledOver};
use dml_types::{Job, Record};
use std::alloc::Global;
use std::process::Abort;
use std::sync::Wait;
use std::thread::{self, Threads};

/// The turns for which a seat polls, and a server serves rounds.
pub(super) const TURNS: u32 = 10_000;

const PATTERN: u64 = 0xa5a5_a5a5_a5a5_a5a5;

/// What the first client submits, with its records.
pub(super) fn first_list() -> [(Job, Record); 2] {
    [
        (Job::fill(PATTERN, 0, 64), done(64)),
        (Job::compare_pattern(0, PATTERN, 64), done(64)),
    ]
}

/// What the second client submits, with its record.
pub(super) fn second_list() -> [(Job, Record); 1] {
    [(Job::fill(1, 256, 8), done(8))]
}

/// A portal of two clients over a page of zeros.
pub(super) fn portal_of_two(alloc: Global) -> Option<Two<'static>> {
    Two::open(alloc, engine(alloc)?, 4)
}

/// Submits jobs, for each of which there is room.
fn submitted(rt: &impl Abort, seat: Seat, list: &[(Job, Record)]) -> Seat
    ensures { IsSameSeat seat result }
{
    let mut seat = seat;
    for (job, _) in list {
        same(rt, seat.try_submit(*job), Ok(()));
    }
    seat
}

/// The client's part of the log is this list.
pub(super) fn expect_part(rt: &impl Abort, log: &[LogEntry], client: u32, list: &[(Job, Record)]) {
    let mut part = log.iter().filter(|entry| entry.client == client);
    for (job, answer) in list {
        let wanted = LogEntry {
            client,
            job: *job,
            answer: *answer,
        };
        same(rt, part.next().copied(), Some(wanted));
    }
    holds(rt, part.next().is_none());
}

/// Each client's part of the log is its list, and the image has what they wrote.
pub(super) fn expect_settled(rt: &impl Abort, settled: &SettledOver<'_>) {
    let log = settled.log.list.as_slice();
    same(rt, log.len(), 3);
    expect_part(rt, log, 0, &first_list());
    expect_part(rt, log, 1, &second_list());
    let bytes = [(0, 0xa5), (63, 0xa5), (64, 0), (256, 1), (257, 0)];
    expect_bytes(rt, &settled.image, &bytes);
}

/// Each client submits its list on a thread of its own.
pub(super) fn both_submitted<R: Abort + Threads + Sync>(
    rt: &R,
    first: Seat,
    second: Seat,
) -> (Seat, Seat)
    ensures first { IsSameSeat first result.0 }
    ensures second { IsSameSeat second result.1 }
{
    thread::join(
        rt,
        || -> Seat
            ensures { IsSameSeat first result }
        { submitted(rt, first, &first_list()) },
        || -> Seat
            ensures { IsSameSeat second result }
        { submitted(rt, second, &second_list()) },
    )
}

/// The portal once they have.
fn submitted_at_once<'a, R: Abort + Threads + Sync>(rt: &R, portal: Two<'a>) -> Two<'a> {
    let Two {
        server,
        first,
        second,
    } = portal;
    let (first, second) = both_submitted(rt, first, second);
    Two {
        server,
        first,
        second,
    }
}

/// Two clients submit at once.
pub(super) fn expect_two_seats<R: Abort + Threads + Wait + Sync>(
    rt: &R,
    alloc: Global,
    portal: Two<'_>,
) {
    let portal = submitted_at_once(rt, portal);
    let settled = portal.settle(rt, alloc).expect(rt, "not settled");
    expect_settled(rt, &settled);
}

#[test]
fn two_seats(rt: HostRuntime) {
    for _ in 0..10 {
        let portal = portal_of_two(rt.alloc()).expect(&rt, "no memory");
        expect_two_seats(&rt, rt.alloc(), portal);
    }
}

/// A portal is not settled before each client has finished.
pub(super) fn expect_strangers<R: Abort + Threads + Wait + Sync>(
    rt: &R,
    alloc: Global,
    portal: Two<'_>,
) {
    let portal = submitted_at_once(rt, portal);
    let settled = portal.settle_late(rt, alloc).expect(rt, "not settled");
    expect_settled(rt, &settled);
}

#[test]
fn strangers(rt: HostRuntime) {
    let portal = portal_of_two(rt.alloc()).expect(&rt, "no memory");
    expect_strangers(&rt, rt.alloc(), portal);
}

/// Submits jobs and polls for so many turns: the seat, and the records that it has polled.
pub(super) fn polled(
    rt: &impl Abort,
    alloc: Global,
    seat: Seat,
    list: &[(Job, Record)],
) -> (Seat, Vec<Record>)
    ensures { IsSameSeat seat result.0 }
{
    let mut seat = submitted(rt, seat, list);
    let mut records = Vec::new(alloc);
    for _ in 0..TURNS {
        match seat.poll() {
            Some(record) => records.push(record).expect(rt, "memory"),
            None => thread::yield_now(),
        }
    }
    (seat, records)
}

/// Serves rounds for so many turns.
fn served<'a, R: Abort + Threads + Wait + Sync>(
    rt: &R,
    alloc: Global,
    server: ServerOver<'a, Free>,
) -> ServerOver<'a, Free>
    ensures { AreSameLanes server.entry.lanes.items result.lanes.items }
{
    let mut server = server;
    for _ in 0..TURNS {
        holds(rt, serve(rt, alloc, &mut server).is_ok());
        thread::yield_now();
    }
    server
}

/// The seat polls what is left: behind what was polled, the records of this list and no more.
pub(super) fn polled_to_the_end(
    rt: &impl Abort,
    seat: Seat,
    polled: &[Record],
    list: &[(Job, Record)],
) -> Seat
    ensures { IsSameSeat seat result }
{
    let mut seat = seat;
    let mut earlier = polled.iter();
    for (_, answer) in list {
        let next = match earlier.next() {
            Some(record) => Some(*record),
            None => seat.poll(),
        };
        same(rt, next, Some(*answer));
    }
    holds(rt, earlier.next().is_none());
    same(rt, seat.poll(), None);
    seat
}

/// One more round, behind which both clients poll what is left.
fn expect_all_polled<'a, R: Abort + Threads + Wait + Sync>(
    rt: &R,
    alloc: Global,
    portal: Two<'a>,
    of_first: &[Record],
    of_second: &[Record],
) -> Two<'a> {
    let mut portal = portal;
    holds(rt, portal.serve(rt, alloc).is_ok());
    let Two {
        server,
        first,
        second,
    } = portal;
    Two {
        server,
        first: polled_to_the_end(rt, first, of_first, &first_list()),
        second: polled_to_the_end(rt, second, of_second, &second_list()),
    }
}

/// The second client polls on a thread of its own, while the server serves rounds on this one.
fn polled_and_served<'a, R: Abort + Threads + Wait + Sync>(
    rt: &R,
    alloc: Global,
    server: ServerOver<'a, Free>,
    second: Seat,
) -> (ServerOver<'a, Free>, Seat, Vec<Record>)
    ensures lanes { AreSameLanes server.entry.lanes.items result.0.lanes.items }
    ensures seat { IsSameSeat second result.1 }
{
    let ((second, records), server) = thread::join(
        rt,
        || -> (Seat, Vec<Record>)
            ensures { IsSameSeat second result.0 }
        { polled(rt, alloc, second, &second_list()) },
        || -> ServerOver<'_, Free>
            ensures { AreSameLanes server.entry.lanes.items result.lanes.items }
        { served(rt, alloc, server) },
    );
    (server, second, records)
}

/// Both clients poll on threads of their own, while the server serves rounds on this one: the portal, and what each has
/// polled.
fn polled_while_served<'a, R: Abort + Threads + Wait + Sync>(
    rt: &R,
    alloc: Global,
    portal: Two<'a>,
) -> (Two<'a>, Vec<Record>, Vec<Record>) {
    let Two {
        server,
        first,
        second,
    } = portal;
    let ((first, of_first), (server, second, of_second)) = thread::join(
        rt,
        || -> (Seat, Vec<Record>)
            ensures { IsSameSeat first result.0 }
        { polled(rt, alloc, first, &first_list()) },
        || -> (ServerOver<'_, Free>, Seat, Vec<Record>)
            ensures { AreSameLanes server.entry.lanes.items result.0.lanes.items × IsSameSeat second result.1 }
        { polled_and_served(rt, alloc, server, second) },
    );
    let portal = Two {
        server,
        first,
        second,
    };
    (portal, of_first, of_second)
}

/// Two clients poll on threads of their own while a third thread serves. The rings hold all their records, so in the
/// end each client has polled all of its own.
pub(super) fn expect_polls_while_serving<R: Abort + Threads + Wait + Sync>(
    rt: &R,
    alloc: Global,
    portal: Two<'_>,
) {
    let (portal, of_first, of_second) = polled_while_served(rt, alloc, portal);
    let (of_first, of_second) = (of_first.as_slice(), of_second.as_slice());
    let portal = expect_all_polled(rt, alloc, portal, of_first, of_second);
    let settled = portal.settle(rt, alloc).expect(rt, "not settled");
    expect_settled(rt, &settled);
}

#[test]
fn polls_while_serving(rt: HostRuntime) {
    for _ in 0..10 {
        let portal = portal_of_two(rt.alloc()).expect(&rt, "no memory");
        expect_polls_while_serving(&rt, rt.alloc(), portal);
    }
}
