//! Calls whose growths of memory are refused.
ghost use Rattle.std.specs.Prelude.{◌≡◌, ◌≤◌, [], IfSome, vec_capacity};
ghost use Rattle.dml_portal.specs.Settled.{AreSeatsOf};

use super::claims::{holds, same};
use super::lent::SETTINGS;
use super::portals::{One, Two};
use super::{done, engine, expect_bytes};
use dml_engine::{Engine, EngineOver};
use dml_image::{Image, Whole};
use dml_pool::Free;
use dml_portal::{Done, LogEntry, Portal, PortalError, Seat, Server, SettleFault, Settled};
use dml_types::{Job, Record, Settings};
use std::alloc::Global;
use std::process::Abort;
use std::sync::Wait;
use std::thread::Threads;

/// What the jobs of a portal below leave of its page.
const BYTES: [(u64, u8); 6] = [(0, 1), (15, 1), (16, 0), (64, 2), (71, 2), (72, 0)];

// The refused_* below hold whichever growth is refused: they are also run with each refused in turn, from the first one
// behind those that their set-up takes.

/// An engine over an image of one page of sevens.
fn engine_of_sevens(alloc: Global) -> Option<Engine> {
    let mut engine = engine(alloc)?;
    engine.bring(0, &[7; 4096]).ok()?;
    Some(engine)
}

/// An empty list with room for two seats.
fn room_for_two(rt: &impl Abort, alloc: Global) -> Vec<Done>
    ensures empty { result.items ≡ [] }
    ensures room { 2 ≤ vec_capacity result }
{
    match Vec::with_capacity(alloc, 2) {
        Ok(dones) => dones,
        Err(_) => rt.panic("no memory"),
    }
}

/// What `refused_open` does before its call.
#[test]
fn set_up_of_open(rt: HostRuntime) {
    let engine = engine_of_sevens(rt.alloc()).expect(&rt, "no memory");
    holds(&rt, room_for_two(&rt, rt.alloc()).is_empty());
    same(&rt, engine.image().byte(4095), Some(7));
}

/// These are the seats of the first two clients.
fn expect_two_seats(rt: &impl Abort, seats: &[Seat]) {
    same(rt, seats.len(), 2);
    for (i, seat) in seats.iter().enumerate() {
        same(rt, seat.client() as usize, i);
    }
}

/// The image of one page of sevens, as it was.
fn expect_sevens(rt: &impl Abort, image: &Image) {
    same(rt, (image.pages(), image.byte(4095)), (1, Some(7)));
}

/// A portal is settled as it was opened.
fn expect_settled_at_once<R: Abort + Threads + Wait + Sync>(
    rt: &R,
    alloc: Global,
    portal: Two<'_>,
    dones: Vec<Done>,
)
    requires empty { dones.items ≡ [] }
    requires room { 2 ≤ vec_capacity dones }
{
    let settled = portal.settle_into(rt, alloc, dones);
    let settled = settled.expect(rt, "not settled");
    same(rt, settled.log.list.len(), 0);
    expect_sevens(rt, &settled.image);
}

/// An engine was handed back as it was, for want of memory.
fn expect_handed_back(
    rt: &impl Abort,
    engine: &EngineOver<'_>,
    settings: Settings,
    error: PortalError,
) {
    same(rt, error, PortalError::NoMemory);
    same(rt, engine.settings(), settings);
    expect_sevens(rt, engine.image());
}

/// A server and a seat for each client, or the engine as it was.
fn expect_opened<R: Abort + Threads + Wait + Sync>(
    rt: &R,
    alloc: Global,
    engine: EngineOver<'_>,
    dones: Vec<Done>,
)
    requires empty { dones.items ≡ [] }
    requires room { 2 ≤ vec_capacity dones }
{
    let settings = engine.settings();
    match Portal::open(alloc, engine, 2, 4) {
        Ok((server, seats)) => {
            expect_two_seats(rt, seats.as_slice());
            let portal = Two::of(server, seats).expect(rt, "no seats");
            expect_settled_at_once(rt, alloc, portal, dones);
        }
        Err((engine, error)) => expect_handed_back(rt, &engine, settings, error),
    }
}

#[test]
fn refused_open(rt: HostRuntime) {
    let engine = engine_of_sevens(rt.alloc()).expect(&rt, "no memory");
    let dones = room_for_two(&rt, rt.alloc());
    expect_opened(&rt, rt.alloc(), engine, dones);
}

/// An engine over a page that is lent in one piece.
fn engine_over<'a>(rt: &impl Abort, alloc: Global, content: &'a mut [u8]) -> EngineOver<'a> {
    let mut whole = Whole::new(content);
    assert!(rt; whole.is_memory());
    let engine = EngineOver::new(alloc, whole.take(), SETTINGS).ok();
    engine.expect(rt, "no memory")
}

/// What `refused_open_over_one_piece` does before its call.
#[test]
fn set_up_of_open_over_one_piece(rt: HostRuntime) {
    let mut content = [7; 4096];
    let engine = engine_over(&rt, rt.alloc(), &mut content);
    holds(&rt, room_for_two(&rt, rt.alloc()).is_empty());
    expect_sevens(&rt, engine.image());
}

/// What `refused_open` asks, over a page of sevens that is lent in one piece, and that stays as it was.
#[test]
fn refused_open_over_one_piece(rt: HostRuntime) {
    let mut content = [7; 4096];
    let engine = engine_over(&rt, rt.alloc(), &mut content);
    let dones = room_for_two(&rt, rt.alloc());
    expect_opened(&rt, rt.alloc(), engine, dones);
    holds(&rt, content == [7; 4096]);
}

/// Two clients of a portal submit: the first two jobs, the second one. The first job looks at the bytes that the next
/// one writes, so its record tells whether they were written before.
fn three_submitted(portal: Two<'static>) -> Option<Two<'static>> {
    let mut portal = portal;
    portal.submit_first(Job::compare_pattern(0, 0, 16)).ok()?;
    portal
        .submit_first(Job::fill(0x0101_0101_0101_0101, 0, 16))
        .ok()?;
    portal
        .submit_second(Job::fill(0x0202_0202_0202_0202, 64, 8))
        .ok()?;
    Some(portal)
}

/// A portal of two clients whose lists all go to workers, which have submitted three jobs.
fn submitted_first(alloc: Global) -> Option<Two<'static>> {
    three_submitted(Two::open(alloc, engine(alloc)?.with_gate(Free), 4)?)
}

/// The same behind a round, from which an entry stands in the log.
fn submitted(rt: &(impl Threads + Wait + Sync), alloc: Global) -> Option<Two<'static>> {
    let mut portal = Two::open(alloc, engine(alloc)?.with_gate(Free), 4)?;
    portal.submit_second(Job::no_op()).ok()?;
    if portal.serve(rt, alloc).ok()? != 1 {
        return None;
    }
    three_submitted(portal)
}

/// What `refused_serve_round` does before its call.
#[test]
fn set_up_of_serve_round(rt: HostRuntime) {
    let mut portal = submitted(&rt, rt.alloc()).expect(&rt, "no memory");
    holds(&rt, room_for_two(&rt, rt.alloc()).is_empty());
    portal.expect_polled(&rt, &[], &[done(0)]);
}

/// A round is served; where it is refused nothing was fetched, and the next one is served.
fn serve_at_last<R: Abort + Threads + Wait + Sync>(rt: &R, alloc: Global, portal: &mut Two<'_>) {
    if let Err(error) = portal.serve(rt, alloc) {
        same(rt, error, PortalError::NoMemory);
        portal.expect_polled(rt, &[], &[]);
        same(rt, portal.serve(rt, alloc), Ok(3));
    }
}

/// The log has the three jobs of a round behind so many entries, and the image what they wrote.
fn expect_carried_out(rt: &impl Abort, settled: &Settled, earlier: usize) {
    let log = settled.log.list.as_slice();
    same(rt, log.len().checked_sub(earlier), Some(3));
    for (entry, client) in log.iter().skip(earlier).zip([0, 0, 1]) {
        same(rt, entry.client, client);
    }
    expect_bytes(rt, &settled.image, &BYTES);
}

/// A round behind these records of the second client: each client's jobs are carried out, or nothing was fetched, and
/// the next round does it. The portal is then settled with a list that has room for both seats.
fn expect_round<R: Abort + Threads + Wait + Sync>(
    rt: &R,
    alloc: Global,
    portal: Two<'static>,
    earlier: &[Record],
    dones: Vec<Done>,
)
    requires empty { dones.items ≡ [] }
    requires room { 2 ≤ vec_capacity dones }
{
    let mut portal = portal;
    portal.expect_polled(rt, &[], earlier);
    serve_at_last(rt, alloc, &mut portal);
    portal.expect_polled(rt, &[done(16), done(16)], &[done(8)]);
    let settled = portal
        .settle_into(rt, alloc, dones)
        .expect(rt, "not settled");
    expect_carried_out(rt, &settled, earlier.len());
}

#[test]
fn refused_serve_round(rt: HostRuntime) {
    let portal = submitted(&rt, rt.alloc()).expect(&rt, "no memory");
    let dones = room_for_two(&rt, rt.alloc());
    expect_round(&rt, rt.alloc(), portal, &[done(0)], dones);
}

/// What `refused_first_round` does before its call.
#[test]
fn set_up_of_first_round(rt: HostRuntime) {
    let mut portal = submitted_first(rt.alloc()).expect(&rt, "no memory");
    holds(&rt, room_for_two(&rt, rt.alloc()).is_empty());
    portal.expect_polled(&rt, &[], &[]);
}

/// A portal's first round takes the memory of its lists too.
#[test]
fn refused_first_round(rt: HostRuntime) {
    let portal = submitted_first(rt.alloc()).expect(&rt, "no memory");
    let dones = room_for_two(&rt, rt.alloc());
    expect_round(&rt, rt.alloc(), portal, &[], dones);
}

/// The same portal with all its clients finished.
fn finished(rt: &(impl Threads + Wait + Sync), alloc: Global) -> Option<(Server<Free>, Vec<Done>)>
    ensures { IfSome result (λ portal. AreSeatsOf portal.0.lanes.items portal.1.items) }
{
    let Two {
        server,
        first,
        second,
    } = submitted(rt, alloc)?;
    let dones = vec![in alloc; first.finish(), second.finish()].ok()?;
    Some((server, dones))
}

/// What `refused_settle` does before its call.
#[test]
fn set_up_of_settle(rt: HostRuntime) {
    let (_server, dones) = finished(&rt, rt.alloc()).expect(&rt, "no memory");
    same(&rt, dones.len(), 2);
}

/// What a portal leaves that was not settled before, and whose next round serves one of these numbers of jobs.
fn settled_again<R: Abort + Threads + Wait + Sync>(
    rt: &R,
    alloc: Global,
    server: Server<Free>,
    dones: Vec<Done>,
    numbers: &[usize],
) -> Option<Settled>
    requires { AreSeatsOf server.lanes.items dones.items }
{
    let mut server = server;
    let served = server.serve_round(rt, alloc).ok()?;
    assert!(rt; numbers.contains(&served), "{served} jobs");
    server.settle(rt, alloc, dones).ok()
}

/// What a portal leaves, or leaves when it is settled again with so many seats behind a round of one of these numbers of
/// jobs.
fn settled_at_last<R: Abort + Threads + Wait + Sync>(
    rt: &R,
    alloc: Global,
    server: Server<Free>,
    dones: Vec<Done>,
    numbers: &[usize],
) -> Option<Settled>
    requires { AreSeatsOf server.lanes.items dones.items }
{
    let seats = dones.len();
    match server.settle(rt, alloc, dones) {
        Ok(settled) => Some(settled),
        Err((server, dones, fault)) => {
            same(rt, (fault, dones.len()), (SettleFault::NoMemory, seats));
            settled_again(rt, alloc, server, dones, numbers)
        }
    }
}

/// What a portal leaves, or leaves when it is settled again at once, with the same seats and its jobs left.
fn settled_at_once<R: Abort + Threads + Wait + Sync>(
    rt: &R,
    alloc: Global,
    server: Server<Free>,
    dones: Vec<Done>,
) -> Option<Settled>
    requires { AreSeatsOf server.lanes.items dones.items }
{
    let seats = dones.len();
    match server.settle(rt, alloc, dones) {
        Ok(settled) => Some(settled),
        Err((server, dones, fault)) => {
            same(rt, (fault, dones.len()), (SettleFault::NoMemory, seats));
            server.settle(rt, alloc, dones).ok()
        }
    }
}

/// These are the clients and the completed bytes of the log.
fn expect_completed(rt: &impl Abort, log: &[LogEntry], wanted: &[(u32, u32)]) {
    same(rt, log.len(), wanted.len());
    for (entry, (client, completed)) in log.iter().zip(wanted) {
        same(
            rt,
            (entry.client, entry.answer),
            (*client, done(*completed)),
        );
    }
}

/// The whole log, or the portal as it was, which gives the whole log when it is settled again.
#[test]
fn refused_settle(rt: HostRuntime) {
    let Some((server, dones)) = finished(&rt, rt.alloc()) else {
        rt.panic("no memory");
    };
    let settled = settled_at_once(&rt, rt.alloc(), server, dones).expect(&rt, "not settled");
    let wanted = [(1, 0), (0, 16), (0, 16), (1, 8)];
    expect_completed(&rt, settled.log.list.as_slice(), &wanted);
    expect_bytes(&rt, &settled.image, &BYTES);
}

/// A portal whose one client has submitted 130 jobs, more than a round fetches, and has finished.
fn finished_with_more(alloc: Global) -> Option<(Server<Free>, Vec<Done>)>
    ensures { IfSome result (λ portal. AreSeatsOf portal.0.lanes.items portal.1.items) }
{
    let mut portal = One::open(alloc, 200)?;
    for _ in 0..130 {
        portal.submit(Job::no_op()).ok()?;
    }
    let One { server, seat } = portal;
    let dones = vec![in alloc; seat.finish()].ok()?;
    Some((server, dones))
}

/// What `refused_second_round_of_settle` does before its call.
#[test]
fn set_up_of_second_round_of_settle(rt: HostRuntime) {
    let (_server, dones) = finished_with_more(rt.alloc()).expect(&rt, "no memory");
    same(&rt, dones.len(), 1);
}

/// The log is of 130 jobs that do nothing.
fn expect_no_ops(rt: &impl Abort, log: &[LogEntry]) {
    same(rt, log.len(), 130);
    let wanted = LogEntry {
        client: 0,
        job: Job::no_op(),
        answer: done(0),
    };
    for entry in log {
        same(rt, *entry, wanted);
    }
}

/// The whole log, or the portal behind the rounds that were served, which gives the whole log when it is settled again.
#[test]
fn refused_second_round_of_settle(rt: HostRuntime) {
    let Some((server, dones)) = finished_with_more(rt.alloc()) else {
        rt.panic("no memory");
    };
    let settled = settled_at_last(&rt, rt.alloc(), server, dones, &[128, 2]).expect(
        &rt,
        "not settled",
    );
    expect_no_ops(&rt, settled.log.list.as_slice());
}
