//! Clients on threads of their own, while a server that stays up serves rounds and its log is taken off behind each.
ghost use Rattle.dml_portal.specs.Lanes.{AreSameLanes};
ghost use Rattle.dml_portal.specs.Seats.{IsSameSeat};

use super::claims::holds;
use super::clients::{
    TURNS, both_submitted, expect_part, expect_settled, first_list, polled, polled_to_the_end,
    portal_of_two, second_list,
};
use super::stays::Stay;
use super::steps::serve_long;
use dml_pool::Free;
use dml_portal::{LogEntry, LongServerOver, Seat};
use dml_types::Record;
use std::alloc::Global;
use std::process::Abort;
use std::sync::Wait;
use std::thread::{self, Threads};

/// What a thread that serves rounds gives back: the server, and what was taken off its log.
#[derive(Drop)]
pub(super) struct Up<'a> {
    pub(super) server: LongServerOver<'a, Free>,
    pub(super) log: Vec<LogEntry>,
}

/// The same, with the second client's seat and what it has polled.
#[derive(Drop)]
struct UpWith<'a> {
    up: Up<'a>,
    second: Seat,
    records: Vec<Record>,
}

/// Serves rounds for so many turns, and takes the log off behind each.
pub(super) fn served<'a, R: Abort + Threads + Wait + Sync>(
    rt: &R,
    alloc: Global,
    server: LongServerOver<'a, Free>,
) -> Up<'a>
    ensures { AreSameLanes server.entry.lanes.items result.server.lanes.items }
{
    let mut server = server;
    let mut log = Vec::new(alloc);
    for _ in 0..TURNS {
        holds(rt, serve_long(rt, alloc, &mut server).is_ok());
        holds(rt, server.take_log(&mut log).is_ok());
        thread::yield_now();
    }
    Up { server, log }
}

/// The second client submits and polls on a thread of its own, while the server serves rounds on this one.
fn polled_and_served<'a, R: Abort + Threads + Wait + Sync>(
    rt: &R,
    alloc: Global,
    server: LongServerOver<'a, Free>,
    second: Seat,
) -> UpWith<'a>
    ensures lanes { AreSameLanes server.entry.lanes.items result.up.server.lanes.items }
    ensures seat { IsSameSeat second result.second }
{
    let ((second, records), up) = thread::join(
        rt,
        || -> (Seat, Vec<Record>)
            ensures { IsSameSeat second result.0 }
        { polled(rt, alloc, second, &second_list()) },
        || -> Up<'_>
            ensures { AreSameLanes server.entry.lanes.items result.server.lanes.items }
        { served(rt, alloc, server) },
    );
    UpWith {
        up,
        second,
        records,
    }
}

/// Both clients submit and poll on threads of their own, while the server serves rounds on this one. Behind one more
/// round they poll what is left. The portal, and what was taken off its log.
fn polled_while_served<R: Abort + Threads + Wait + Sync>(
    rt: &R,
    alloc: Global,
    portal: Stay,
) -> (Stay, Vec<LogEntry>) {
    let Stay {
        server,
        first,
        second,
    } = portal;
    let ((first, of_first), with) = thread::join(
        rt,
        || -> (Seat, Vec<Record>)
            ensures { IsSameSeat first result.0 }
        { polled(rt, alloc, first, &first_list()) },
        || -> UpWith<'_>
            ensures { AreSameLanes server.entry.lanes.items result.up.server.lanes.items × IsSameSeat second result.second }
        { polled_and_served(rt, alloc, server, second) },
    );
    let UpWith {
        up: Up { mut server, log },
        second,
        records: of_second,
    } = with;
    holds(rt, serve_long(rt, alloc, &mut server).is_ok());
    let portal = Stay {
        server,
        first: polled_to_the_end(rt, first, of_first.as_slice(), &first_list()),
        second: polled_to_the_end(rt, second, of_second.as_slice(), &second_list()),
    };
    (portal, log)
}

/// A portal of two clients whose server stays up, and holds a client back for whom more records wait than `most`.
fn stay(rt: &impl Abort, alloc: Global, most: usize) -> Stay {
    let portal = portal_of_two(alloc).expect(rt, "no memory");
    Stay::of(portal, most).ok().expect(rt, "no memory")
}

/// A portal is settled, and its log goes behind what was taken off it.
pub(super) fn settle_behind<R: Abort + Threads + Wait + Sync>(
    rt: &R,
    alloc: Global,
    portal: Stay,
    log: &mut Vec<LogEntry>,
) {
    let settled = portal.settle(rt, alloc).expect(rt, "not settled");
    let left = settled.log.list.as_slice();
    log.extend_from_slice(left).expect(rt, "no memory");
}

/// Each client's part of what was taken off the log, followed by what was left of it, is its list, and it has polled
/// all its records.
#[test]
fn polls_while_the_log_is_taken(rt: HostRuntime) {
    for _ in 0..10 {
        let portal = stay(&rt, rt.alloc(), 2);
        let (portal, mut log) = polled_while_served(&rt, rt.alloc(), portal);
        settle_behind(&rt, rt.alloc(), portal, &mut log);
        expect_part(&rt, log.as_slice(), 0, &first_list());
        expect_part(&rt, log.as_slice(), 1, &second_list());
    }
}

/// The portal once both clients have submitted at once.
fn submitted_at_once<R: Abort + Threads + Sync>(rt: &R, portal: Stay) -> Stay {
    let Stay {
        server,
        first,
        second,
    } = portal;
    let (first, second) = both_submitted(rt, first, second);
    Stay {
        server,
        first,
        second,
    }
}

/// Two clients submit at once to a server that stays up.
#[test]
fn two_seats_while_up(rt: HostRuntime) {
    for _ in 0..10 {
        let portal = submitted_at_once(&rt, stay(&rt, rt.alloc(), 0));
        let settled = portal.settle(&rt, rt.alloc()).expect(&rt, "not settled");
        expect_settled(&rt, &settled);
    }
}
