//! A log that is taken off in parts, with what is promised of the parts together.
ghost use Rattle.std.specs.Prelude.{◌++◌, IfSome};
ghost use Rattle.dml_portal.specs.LongServers.{lanes_of, log_of};
ghost use Rattle.dml_portal.specs.Settled.{AreSeatsOf, EachDone, IsSettled};
ghost use Rattle.dml_portal.specs.Whole.{AreWhole};

use super::claims::same;
use super::engine;
use super::portals::Two;
use super::stays::Stay;
use super::steps::submit_all;
use dml_portal::{Done, LogEntry, LongServer, Settled};
use dml_types::Job;
use std::alloc::Global;
use std::process::Abort;
use std::sync::Wait;
use std::thread::Threads;

/// Serves a round, takes its log off behind what was taken before, and settles. Of each seat, the client's part of all
/// that was taken off, followed by what is left, is what it submitted.
fn taken_and_settled<R: Threads + Wait + Sync>(
    rt: &R,
    alloc: Global,
    server: LongServer,
    into: &mut Vec<LogEntry>,
    dones: Vec<Done>,
) -> Option<Settled>
    requires seats { AreSeatsOf (lanes_of server) dones.items }
    requires whole { AreWhole (lanes_of server) (into.old.items ++ log_of server) }
    ensures settled { IfSome result (λ settled. EachDone (IsSettled (into.new.items ++ settled.log)) dones.items) }
{
    let mut server = server;
    let Ok(_) = server.serve_round(rt, alloc) else {
        return None;
    };
    let Ok(()) = server.take_log(into) else {
        return None;
    };
    server.settle(rt, alloc, dones).ok()
}

/// The first client's jobs are more than a round's, so a part of the log is taken off and a part is left.
#[test]
fn parts_are_whole(rt: HostRuntime) {
    let engine = engine(rt.alloc()).expect(&rt, "no memory");
    let portal = Two::open(rt.alloc(), engine, 200).expect(&rt, "no memory");
    let Ok(
        Stay {
            server,
            mut first,
            second,
        },
    ) = Stay::of(portal, 200)
    else {
        rt.panic("no memory");
    };
    submit_all(&rt, &mut first, &[Job::no_op(); 130]);
    let mut log = Vec::new(rt.alloc());
    let Ok(dones) = vec![in rt.alloc(); first.finish(), second.finish()] else {
        rt.panic("no memory");
    };
    let settled = taken_and_settled(&rt, rt.alloc(), server, &mut log, dones);
    let settled = settled.expect(&rt, "not settled");
    same(&rt, (log.len(), settled.log.list.len()), (128, 2));
}
