//! The worked rows of portals, and their refusals.

mod between;
mod claims;
mod clients;
mod endings;
mod entering;
mod gates;
mod given_back;
mod growths;
mod kinds;
mod lent;
mod parts;
mod portals;
mod rounds;
mod segments;
mod short_growths;
mod staying;
mod staying_clients;
mod staying_growths;
mod stays;
mod steps;
mod vanishing;
mod waiting_clients;

use claims::same;
use dml_engine::Engine;
use dml_image::Image;
use dml_portal::{Full, Portal, PortalError};
use dml_types::{Job, Record, Settings, Status};
use portals::One;
use std::alloc::Global;
use std::process::Abort;
use std::sync::Wait;
use std::thread::Threads;

/// An image of one page of zeros, which is present.
fn page_of_zeros(alloc: Global) -> Option<Image<'static>> {
    let mut image = Image::new(alloc, 1).ok()?;
    image.bring(0, &[0; 4096]).ok()?;
    Some(image)
}

/// An engine over it.
fn engine(alloc: Global) -> Option<Engine> {
    let image = page_of_zeros(alloc)?;
    let settings = Settings {
        staging: 1 << 20,
        chunk: 4096,
        workers: 4,
    };
    Engine::new(alloc, image, settings).ok()
}

/// A success that did so many bytes.
fn done(completed: u32) -> Record {
    Record {
        completed,
        ..Record::refused(Status::Success)
    }
}

/// The image has these bytes.
fn expect_bytes(rt: &impl Abort, image: &Image, bytes: &[(u64, u8)]) {
    for (addr, byte) in bytes {
        assert_eq!(rt; image.byte(*addr), Some(*byte), "{addr}");
    }
}

/// What `fence_in_a_queue` submits.
fn fenced_jobs() -> [Job; 4] {
    [
        Job::fill(1, 4096, 8),
        Job::no_op().with_flags(1),
        Job::fill(2, 0, 8).with_flags(1),
        Job::fill(3, 8, 8),
    ]
}

/// The records of these jobs.
fn fenced_records() -> [Record; 4] {
    let fault = Record {
        fault: 4096,
        ..Record::refused(Status::WriteFault)
    };
    let refused = Record::refused(Status::BadFlags);
    [fault, refused, refused, done(8)]
}

/// A row of a portal of one client over a page of zeros.
#[derive(Clone, Copy, Debug)]
enum Row {
    FullRing,
    RoundOf128,
    PolledInOrder,
    PollWithOneSlot,
    FenceInAQueue,
}

impl Row {
    /// All of them.
    const ALL: [Row; 5] = [
        Row::FullRing,
        Row::RoundOf128,
        Row::PolledInOrder,
        Row::PollWithOneSlot,
        Row::FenceInAQueue,
    ];

    /// The room of the client's rings.
    fn capacity(self) -> u32 {
        match self {
            Row::FullRing => 2,
            Row::RoundOf128 => 200,
            Row::PolledInOrder | Row::FenceInAQueue => 4,
            Row::PollWithOneSlot => 1,
        }
    }

    /// The bytes that it leaves at the front of the page, behind which all are 0.
    fn left(self) -> [u8; 9] {
        match self {
            Row::FullRing | Row::RoundOf128 => [0; 9],
            Row::PolledInOrder | Row::PollWithOneSlot => [1, 0, 0, 0, 0, 0, 0, 0, 0],
            Row::FenceInAQueue => [0, 0, 0, 0, 0, 0, 0, 0, 3],
        }
    }

    /// Expects it of a portal.
    fn expect<R: Abort + Threads + Wait + Sync>(self, rt: &R, alloc: Global, portal: One<'_>) {
        match self {
            Row::FullRing => expect_full_ring(rt, alloc, portal),
            Row::RoundOf128 => expect_round_of_128(rt, alloc, portal),
            Row::PolledInOrder => expect_polled_in_order(rt, alloc, portal),
            Row::PollWithOneSlot => expect_poll_with_one_slot(rt, alloc, portal),
            Row::FenceInAQueue => expect_fence_in_a_queue(rt, alloc, portal),
        }
    }

    /// Expects it over an image's own page.
    fn expect_of_own<R: Abort + Threads + Wait + Sync>(self, rt: &R, alloc: Global) {
        let portal = One::open(alloc, self.capacity()).expect(rt, "no memory");
        self.expect(rt, alloc, portal);
    }
}

/// A ring that has room for two jobs hands the third back, and takes it once a round is served.
fn expect_full_ring<R: Abort + Threads + Wait + Sync>(rt: &R, alloc: Global, portal: One<'_>) {
    let mut portal = portal;
    let job = Job::no_op();
    portal.submit_all(rt, &[job, job]);
    same(rt, portal.submit(job), Err(Full { job }));
    portal.expect_served(rt, alloc, 2);
    portal.submit_all(rt, &[job]);
    let settled = portal.settle(rt, alloc).expect(rt, "not settled");
    same(rt, settled.log.list.len(), 3);
}

/// A round fetches at most 128 jobs of a client.
fn expect_round_of_128<R: Abort + Threads + Wait + Sync>(rt: &R, alloc: Global, portal: One<'_>) {
    let mut portal = portal;
    portal.submit_all(rt, &[Job::no_op(); 130]);
    portal.expect_served(rt, alloc, 128);
    portal.expect_served(rt, alloc, 2);
    let settled = portal.settle(rt, alloc).expect(rt, "not settled");
    same(rt, settled.log.list.len(), 130);
}

/// Records are polled in the order of the jobs.
fn expect_polled_in_order<R: Abort + Threads + Wait + Sync>(
    rt: &R,
    alloc: Global,
    portal: One<'_>,
) {
    let mut portal = portal;
    portal.submit_all(rt, &[Job::fill(1, 0, 8), Job::no_op()]);
    portal.expect_polled(rt, &[]);
    portal.expect_served(rt, alloc, 2);
    portal.expect_polled(rt, &[done(8), done(0)]);
    let settled = portal.settle(rt, alloc).expect(rt, "not settled");
    same(rt, settled.log.list.len(), 2);
}

/// A record for which there is no room waits in the log.
fn expect_poll_with_one_slot<R: Abort + Threads + Wait + Sync>(
    rt: &R,
    alloc: Global,
    portal: One<'_>,
) {
    let mut portal = portal;
    portal.submit_all(rt, &[Job::fill(1, 0, 8)]);
    portal.expect_served(rt, alloc, 1);
    portal.submit_all(rt, &[Job::no_op()]);
    portal.expect_served(rt, alloc, 1);
    portal.expect_polled(rt, &[done(8)]);
    portal.expect_served(rt, alloc, 0);
    portal.expect_polled(rt, &[done(0)]);
}

/// In a client's queue a fence is refused and holds nothing back: each other job is carried out.
fn expect_fence_in_a_queue<R: Abort + Threads + Wait + Sync>(
    rt: &R,
    alloc: Global,
    portal: One<'_>,
) {
    let mut portal = portal;
    portal.submit_all(rt, &fenced_jobs());
    portal.expect_served(rt, alloc, 4);
    portal.expect_polled(rt, &fenced_records());
    let settled = portal.settle(rt, alloc).expect(rt, "not settled");
    expect_bytes(rt, &settled.image, &[(0, 0), (7, 0), (8, 3), (9, 0)]);
}

#[test]
fn full_ring(rt: HostRuntime) {
    Row::FullRing.expect_of_own(&rt, rt.alloc());
}

#[test]
fn round_of_128(rt: HostRuntime) {
    Row::RoundOf128.expect_of_own(&rt, rt.alloc());
}

#[test]
fn polled_in_order(rt: HostRuntime) {
    Row::PolledInOrder.expect_of_own(&rt, rt.alloc());
}

#[test]
fn poll_with_one_slot(rt: HostRuntime) {
    Row::PollWithOneSlot.expect_of_own(&rt, rt.alloc());
}

#[test]
fn fence_in_a_queue(rt: HostRuntime) {
    Row::FenceInAQueue.expect_of_own(&rt, rt.alloc());
}

/// A portal of these arguments is refused: why, and the pages of the engine that is handed back.
fn refusal(alloc: Global, clients: u32, capacity: u32) -> Option<(PortalError, u32)> {
    match Portal::open(alloc, engine(alloc)?, clients, capacity) {
        Ok(_) => None,
        Err((engine, error)) => Some((error, engine.image().pages())),
    }
}

/// Arguments out of their limits are refused.
#[test]
fn arguments_refused(rt: HostRuntime) {
    for (clients, capacity, error) in [
        (0, 1, PortalError::BadClients),
        (9, 1, PortalError::BadClients),
        (9, 0, PortalError::BadClients),
        (1, 0, PortalError::BadCapacity),
        (8, 1025, PortalError::BadCapacity),
    ] {
        same(
            &rt,
            refusal(rt.alloc(), clients, capacity),
            Some((error, 1)),
        );
    }
}
