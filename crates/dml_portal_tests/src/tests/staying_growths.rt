//! Calls of a server that stays up, and of one between its rounds, whose growths of memory are refused.
ghost use Rattle.std.specs.Prelude.{IfSome};
ghost use Rattle.dml_portal.specs.Settled.{AreSeatsOf};

use super::claims::same;
use super::portals::{One, Two};
use super::stays::Stay;
use super::{done, engine, expect_bytes};
use dml_engine::Engine;
use dml_image::{Image, ImageError};
use dml_pool::Free;
use dml_portal::{Done, LongServer, PortalError, SettleFault, Settled};
use dml_types::{Job, Settings};
use std::alloc::Global;
use std::process::Abort;
use std::sync::Wait;
use std::thread::Threads;

// The refused_* below hold whichever growth is refused: they are also run with each refused in turn, from the first one
// behind those that their set-up takes.

/// A portal of two clients, with a record of each that waits.
fn with_records_that_wait(
    rt: &(impl Threads + Wait + Sync),
    alloc: Global,
) -> Option<Two<'static>> {
    let mut portal = Two::open(alloc, engine(alloc)?, 1)?;
    for bytes in [8, 16] {
        portal.submit_first(Job::fill(1, 0, bytes)).ok()?;
        portal.submit_second(Job::fill(2, 64, bytes)).ok()?;
        portal.serve(rt, alloc).ok()?;
    }
    Some(portal)
}

/// What `refused_stay_up` does before its call.
#[test]
fn set_up_of_stay_up(rt: HostRuntime) {
    let mut portal = with_records_that_wait(&rt, rt.alloc()).expect(&rt, "no memory");
    portal.expect_polled(&rt, &[done(8)], &[done(8)]);
}

/// The same portal with a server that stays up, at once, or as it was and then when it is asked again.
fn stays_at_last(rt: &impl Abort, portal: Two<'static>) -> Option<Stay> {
    match Stay::of(portal, 4) {
        Ok(portal) => Some(portal),
        Err((portal, error)) => {
            same(rt, error, PortalError::NoMemory);
            Stay::of(portal, 4).ok()
        }
    }
}

/// A round of no job is served, at once or when it is asked again.
fn serve_none_at_last<R: Abort + Threads + Wait + Sync>(rt: &R, alloc: Global, portal: &mut Stay) {
    match portal.serve(rt, alloc) {
        Ok(jobs) => same(rt, jobs, 0),
        Err(error) => {
            same(rt, error, PortalError::NoMemory);
            portal.expect_served(rt, alloc, 0);
        }
    }
}

/// It stays up, and the round behind that makes room for the records of both clients.
#[test]
fn refused_stay_up(rt: HostRuntime) {
    let portal = with_records_that_wait(&rt, rt.alloc()).expect(&rt, "no memory");
    let mut portal = stays_at_last(&rt, portal).expect(&rt, "does not stay up");
    portal.expect_polled(&rt, &[done(8)], &[done(8)]);
    serve_none_at_last(&rt, rt.alloc(), &mut portal);
    portal.expect_polled(&rt, &[done(16)], &[done(16)]);
}

/// A portal of two clients whose server stays up, whose lists all go to workers, and which have submitted three jobs.
fn submitted(alloc: Global) -> Option<Stay> {
    let mut portal = Stay::open(alloc, engine(alloc)?.with_gate(Free), 4, 4)?;
    let ones = 0x0101_0101_0101_0101;
    let taken = portal.submit_first(Job::compare_pattern(0, 0, 16))
        && portal.submit_first(Job::fill(ones, 0, 16))
        && portal.submit_second(Job::fill(2 * ones, 64, 8));
    taken.then_some(portal)
}

/// What these jobs leave of the page.
const BYTES: [(u64, u8); 6] = [(0, 1), (15, 1), (16, 0), (64, 2), (71, 2), (72, 0)];

/// A round is served; where it is refused nothing was fetched, and the next one is served.
fn serve_at_last<R: Abort + Threads + Wait + Sync>(rt: &R, alloc: Global, portal: &mut Stay) {
    if let Err(error) = portal.serve(rt, alloc) {
        same(rt, error, PortalError::NoMemory);
        portal.expect_polled(rt, &[], &[]);
        portal.expect_served(rt, alloc, 3);
    }
}

/// The three jobs are carried out, and their records are polled.
fn expect_carried_out(rt: &impl Abort, portal: &mut Stay) {
    portal.expect_polled(rt, &[done(16), done(16)], &[done(8)]);
    expect_bytes(rt, portal.image(), &BYTES);
}

/// What `refused_first_round_of_stay` does before its call.
#[test]
fn set_up_of_first_round_of_stay(rt: HostRuntime) {
    let mut portal = submitted(rt.alloc()).expect(&rt, "no memory");
    portal.expect_polled(&rt, &[], &[]);
}

/// A first round takes the memory of its lists, and of the records that may have to wait.
#[test]
fn refused_first_round_of_stay(rt: HostRuntime) {
    let mut portal = submitted(rt.alloc()).expect(&rt, "no memory");
    serve_at_last(&rt, rt.alloc(), &mut portal);
    expect_carried_out(&rt, &mut portal);
}

/// The same portal behind a round, whose log was dropped.
fn submitted_behind_a_round(rt: &(impl Threads + Wait + Sync), alloc: Global) -> Option<Stay> {
    let mut portal = Stay::open(alloc, engine(alloc)?.with_gate(Free), 4, 4)?;
    portal.serve(rt, alloc).ok()?;
    portal.drop_log();
    let ones = 0x0101_0101_0101_0101;
    let taken = portal.submit_first(Job::compare_pattern(0, 0, 16))
        && portal.submit_first(Job::fill(ones, 0, 16))
        && portal.submit_second(Job::fill(2 * ones, 64, 8));
    taken.then_some(portal)
}

/// What `refused_round_of_stay` does before its call.
#[test]
fn set_up_of_round_of_stay(rt: HostRuntime) {
    let mut portal = submitted_behind_a_round(&rt, rt.alloc()).expect(&rt, "no memory");
    portal.expect_polled(&rt, &[], &[]);
}

/// A later round takes no memory of the server's own, so it is served whichever growth of its workers is refused.
#[test]
fn refused_round_of_stay(rt: HostRuntime) {
    let mut portal = submitted_behind_a_round(&rt, rt.alloc()).expect(&rt, "no memory");
    portal.expect_served(&rt, rt.alloc(), 3);
    expect_carried_out(&rt, &mut portal);
}

/// The same portal with the three jobs carried out.
fn carried_out(rt: &(impl Threads + Wait + Sync), alloc: Global) -> Option<Stay> {
    let mut portal = submitted(alloc)?;
    portal.serve(rt, alloc).ok()?;
    Some(portal)
}

/// What `refused_take_log` does before its call.
#[test]
fn set_up_of_take_log(rt: HostRuntime) {
    let mut portal = carried_out(&rt, rt.alloc()).expect(&rt, "no memory");
    portal.drop_log();
}

/// The log is taken off at once, or nothing is changed and it is taken off when it is asked again.
#[test]
fn refused_take_log(rt: HostRuntime) {
    let mut portal = carried_out(&rt, rt.alloc()).expect(&rt, "no memory");
    let mut log = Vec::new(rt.alloc());
    if let Err(error) = portal.take_log(&mut log) {
        same(&rt, (error, log.len()), (PortalError::NoMemory, 0));
        same(&rt, portal.take_log(&mut log), Ok(()));
    }
    same(&rt, log.len(), 3);
    same(&rt, portal.take_log(&mut log), Ok(()));
    same(&rt, log.len(), 3);
}

/// A portal whose server stays up, with the three jobs submitted and both clients finished.
fn finished(alloc: Global) -> Option<(LongServer<Free>, Vec<Done>)>
    ensures { IfSome result (λ portal. AreSeatsOf portal.0.lanes.items portal.1.items) }
{
    let Stay {
        server,
        first,
        second,
    } = submitted(alloc)?;
    let dones = vec![in alloc; first.finish(), second.finish()].ok()?;
    Some((server, dones))
}

/// What `refused_settle_of_stay` does before its call.
#[test]
fn set_up_of_settle_of_stay(rt: HostRuntime) {
    let (_server, dones) = finished(rt.alloc()).expect(&rt, "no memory");
    same(&rt, dones.len(), 2);
}

/// What a portal leaves, or leaves when it is settled again at once, with the same seats and its jobs left.
fn settled_at_once<R: Abort + Threads + Wait + Sync>(
    rt: &R,
    alloc: Global,
    server: LongServer<Free>,
    dones: Vec<Done>,
) -> Option<Settled>
    requires { AreSeatsOf server.lanes.items dones.items }
{
    let seats = dones.len();
    match server.settle(rt, alloc, dones) {
        Ok(settled) => Some(settled),
        Err((server, dones, fault)) => {
            same(rt, (fault, dones.len()), (SettleFault::NoMemory, seats));
            server.settle(rt, alloc, dones).ok()
        }
    }
}

/// The whole log, or the portal as it was, which gives the whole log when it is settled again.
#[test]
fn refused_settle_of_stay(rt: HostRuntime) {
    let Some((server, dones)) = finished(rt.alloc()) else {
        rt.panic("no memory");
    };
    let settled = settled_at_once(&rt, rt.alloc(), server, dones).expect(&rt, "not settled");
    same(&rt, settled.log.list.len(), 3);
    expect_bytes(&rt, &settled.image, &BYTES);
}

/// An engine over an image of one page, which is absent.
fn engine_of_none(alloc: Global) -> Option<Engine> {
    let image = Image::new(alloc, 1).ok()?;
    let settings = Settings {
        staging: 4096,
        chunk: 4096,
        workers: 1,
    };
    Engine::new(alloc, image, settings).ok()
}

/// The page is there.
fn expect_brought(rt: &impl Abort, image: &Image) {
    expect_bytes(rt, image, &[(0, 7), (4095, 7)]);
}

/// What `refused_bring_between_rounds` does before its call.
#[test]
fn set_up_of_bring_between_rounds(rt: HostRuntime) {
    let engine = engine_of_none(rt.alloc()).expect(&rt, "no memory");
    let portal = One::over(rt.alloc(), engine, 1).expect(&rt, "no memory");
    same(&rt, portal.image().byte(0), None);
}

/// A page is brought between rounds, or stays absent and is brought when it is asked again.
#[test]
fn refused_bring_between_rounds(rt: HostRuntime) {
    let engine = engine_of_none(rt.alloc()).expect(&rt, "no memory");
    let mut portal = One::over(rt.alloc(), engine, 1).expect(&rt, "no memory");
    if let Err(error) = portal.bring(0, &[7; 4096]) {
        same(&rt, error, ImageError::NoMemory);
        same(&rt, portal.image().byte(0), None);
        same(&rt, portal.bring(0, &[7; 4096]), Ok(()));
    }
    expect_brought(&rt, portal.image());
}

/// A portal whose server stays up over that image.
fn stay_over_none(alloc: Global) -> Option<Stay> {
    Stay::open(alloc, engine_of_none(alloc)?, 1, 4)
}

/// What `refused_bring_while_up` does before its call.
#[test]
fn set_up_of_bring_while_up(rt: HostRuntime) {
    let portal = stay_over_none(rt.alloc()).expect(&rt, "no memory");
    same(&rt, portal.image().byte(0), None);
}

/// The same of a server that stays up.
#[test]
fn refused_bring_while_up(rt: HostRuntime) {
    let mut portal = stay_over_none(rt.alloc()).expect(&rt, "no memory");
    if let Err(error) = portal.bring(0, &[7; 4096]) {
        same(&rt, error, ImageError::NoMemory);
        same(&rt, portal.image().byte(0), None);
        same(&rt, portal.bring(0, &[7; 4096]), Ok(()));
    }
    expect_brought(&rt, portal.image());
}

/// How many rounds the portal below serves.
const ROUNDS: u32 = 400;

/// A round of 128 jobs, whose records are polled: how many it fetched, or none where there is no memory.
fn round_of_128<R: Abort + Threads + Wait + Sync>(
    rt: &R,
    alloc: Global,
    portal: &mut Stay,
) -> Option<usize> {
    for _ in 0..128 {
        portal.submit_first(Job::no_op());
    }
    let served = portal.serve(rt, alloc).ok();
    for _ in 0..128 {
        let _ = portal.first.poll();
    }
    served
}

/// A portal whose server stays up, behind a round of 128 jobs.
fn behind_a_round_of_128<R: Abort + Threads + Wait + Sync>(rt: &R, alloc: Global) -> Option<Stay> {
    let mut portal = Stay::open(alloc, engine(alloc)?, 128, 4)?;
    round_of_128(rt, alloc, &mut portal)?;
    Some(portal)
}

/// What `log_dropped_under_a_limit` makes before the limit holds.
#[test]
fn set_up_of_log_dropped_under_a_limit(rt: HostRuntime) {
    let mut portal = behind_a_round_of_128(&rt, rt.alloc()).expect(&rt, "no memory");
    portal.expect_polled(&rt, &[], &[]);
}

/// Whenever there is no memory for the log, it is dropped, and the next round is served. With ample memory it is never
/// dropped; `tests/refusals.sh` sets limits, and looks at how often it is.
#[test]
fn log_dropped_under_a_limit(rt: HostRuntime) {
    let mut portal = behind_a_round_of_128(&rt, rt.alloc()).expect(&rt, "no memory");
    let mut dropped = 0u32;
    for _ in 0..ROUNDS {
        if round_of_128(&rt, rt.alloc(), &mut portal) != Some(128) {
            portal.drop_log();
            dropped = dropped.saturating_add(1);
            same(&rt, round_of_128(&rt, rt.alloc(), &mut portal), Some(128));
        }
    }
    println!(rt; "dropped {dropped} times").expect(&rt, "not written");
}
