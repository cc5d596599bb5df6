//! Seats that go while their server stays, and portals that are given up.

use super::claims::{holds, same};
use super::portals::Two;
use super::stays::Stay;
use super::steps::{serve, serve_long};
use super::{done, engine, expect_bytes};
use dml_portal::{LongServer, Seat, Server, Settled};
use dml_types::Job;
use std::alloc::Global;
use std::process::Abort;

/// A portal over a page of zeros.
fn portal_of_two(alloc: Global) -> Option<Two<'static>> {
    Two::open(alloc, engine(alloc)?, 4)
}

/// The same with a server that stays up.
fn stay(alloc: Global) -> Option<Stay> {
    Stay::of(portal_of_two(alloc)?, 4).ok()
}

/// All that a client submitted is carried out, and its seat is the next client's, who polls what it left first.
#[test]
fn seat_used_again(rt: HostRuntime) {
    let mut portal = stay(rt.alloc()).expect(&rt, "no memory");
    portal.second_submits(&rt, Job::no_op());
    let Stay {
        mut server,
        first,
        second,
    } = portal;
    let mut finished = second.finish();
    holds(&rt, !server.is_served(&mut finished));
    same(&rt, serve_long(&rt, rt.alloc(), &mut server), Ok(1));
    holds(&rt, server.is_served(&mut finished));
    let mut portal = Stay {
        server,
        first,
        second: finished.again(),
    };
    portal.second_submits(&rt, Job::fill(1, 0, 8));
    portal.expect_served(&rt, rt.alloc(), 1);
    portal.expect_polled(&rt, &[], &[done(0), done(8)]);
    let settled = portal.settle(&rt, rt.alloc()).expect(&rt, "not settled");
    same(&rt, settled.log.list.len(), 2);
}

/// The same of a server that keeps its log.
#[test]
fn seat_served(rt: HostRuntime) {
    let mut portal = portal_of_two(rt.alloc()).expect(&rt, "no memory");
    portal.second_submits(&rt, Job::no_op());
    let Two {
        mut server,
        second,
        ..
    } = portal;
    let mut finished = second.finish();
    holds(&rt, !server.is_served(&mut finished));
    same(&rt, serve(&rt, rt.alloc(), &mut server), Ok(1));
    holds(&rt, server.is_served(&mut finished));
}

/// Whether the seats of these clients are gone from a server that stays up.
fn expect_gone(rt: &impl Abort, server: &mut LongServer, wanted: &[(u32, bool)]) {
    for (client, is_gone) in wanted {
        same(rt, server.is_seat_gone(*client), *is_gone);
    }
}

/// The same of a server that keeps its log.
fn expect_gone_from_a_kept_log(rt: &impl Abort, server: &mut Server, wanted: &[(u32, bool)]) {
    for (client, is_gone) in wanted {
        same(rt, server.is_seat_gone(*client), *is_gone);
    }
}

/// A fill was carried out, and the second seat's server is gone.
fn expect_filled(rt: &impl Abort, settled: &Settled, second: &mut Seat) {
    holds(rt, second.is_server_gone());
    same(rt, settled.log.list.len(), 1);
    expect_bytes(rt, &settled.image, &[(0, 1), (1, 0)]);
}

/// A portal whose first seat was dropped is given up: its image and its log are left.
#[test]
fn given_up(rt: HostRuntime) {
    let mut portal = stay(rt.alloc()).expect(&rt, "no memory");
    portal.first_submits(&rt, Job::fill(1, 0, 8));
    portal.expect_served(&rt, rt.alloc(), 1);
    let Stay {
        mut server,
        first,
        mut second,
    } = portal;
    expect_gone(&rt, &mut server, &[(0, false)]);
    holds(&rt, !second.is_server_gone());
    drop(first);
    expect_gone(&rt, &mut server, &[(0, true), (1, false), (2, false)]);
    let settled = server.give_up();
    expect_filled(&rt, &settled, &mut second);
}

/// The same of a server that keeps its log.
#[test]
fn given_up_with_its_log(rt: HostRuntime) {
    let mut portal = portal_of_two(rt.alloc()).expect(&rt, "no memory");
    portal.first_submits(&rt, Job::fill(1, 0, 8));
    portal.expect_served(&rt, rt.alloc(), 1);
    let Two {
        mut server,
        first,
        mut second,
    } = portal;
    drop(first);
    expect_gone_from_a_kept_log(&rt, &mut server, &[(0, true), (1, false)]);
    let settled = server.into_settled();
    expect_filled(&rt, &settled, &mut second);
}
