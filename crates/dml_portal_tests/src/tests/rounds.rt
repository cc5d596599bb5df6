//! Rounds of two and of three clients: in each, clients in order of their numbers, at most 128 jobs of each.
ghost use Rattle.dml_portal.specs.Seats.{IsSameSeat};

use super::claims::{holds, same};
use super::portals::{One, Three, Two};
use super::{done, engine, expect_bytes};
use dml_engine::Engine;
use dml_image::Image;
use dml_portal::{LogEntry, Seat};
use dml_types::{Job, Settings};
use std::alloc::Global;
use std::process::Abort;
use std::sync::Wait;
use std::thread::{self, Threads};

/// How many jobs each of three clients submits.
const COUNTS: [u32; 3] = [130, 3, 129];

/// What rounds fetch of them: a client, the number of its first job, and the one behind its last.
const FETCHED: [(u32, u32, u32); 5] = [
    (0, 0, 128),
    (1, 0, 3),
    (2, 0, 128),
    (0, 128, 130),
    (2, 128, 129),
];

/// A job of a client by its number, which is written to 8 bytes of the client's own.
fn job(client: u32, number: u32) -> Job {
    Job::fill(u64::from(number), u64::from(client) * 8, 8)
}

/// The log is these clients' jobs, each with its record.
fn expect_log(rt: &impl Abort, log: &[LogEntry], fetched: &[(u32, u32, u32)]) {
    let mut entries = log.iter();
    for (client, from, to) in fetched {
        for number in *from..*to {
            let wanted = LogEntry {
                client: *client,
                job: job(*client, number),
                answer: done(8),
            };
            same(rt, entries.next().copied(), Some(wanted));
        }
    }
    holds(rt, entries.next().is_none());
}

/// Three clients submit all their jobs in turn, the last one first.
fn submit_in_turn(rt: &impl Abort, portal: &mut Three<'_>) {
    for number in 0..130 {
        for (client, count) in [(2, COUNTS[2]), (1, COUNTS[1]), (0, COUNTS[0])] {
            if number < count {
                same(rt, portal.submit(client, job(client, number)), Ok(()));
            }
        }
    }
}

/// Each client polls the records of all its jobs, and no more.
fn expect_all_polled(rt: &impl Abort, portal: &mut Three<'_>) {
    for (client, count) in [(1, COUNTS[1]), (0, COUNTS[0]), (2, COUNTS[2])] {
        for _ in 0..count {
            same(rt, portal.poll(client), Some(done(8)));
        }
        same(rt, portal.poll(client), None);
    }
}

/// What the jobs of three clients leave of the page.
const BYTES: [(u64, u8); 4] = [(0, 129), (8, 2), (16, 128), (24, 0)];

/// The same at the front of the page, behind which all are 0.
pub(super) const LEFT: [u8; 17] = [129, 0, 0, 0, 0, 0, 0, 0, 2, 0, 0, 0, 0, 0, 0, 0, 128];

/// Three clients submit in turn, and are fetched by two rounds.
pub(super) fn expect_fetched_in_turn<R: Abort + Threads + Wait + Sync>(
    rt: &R,
    alloc: Global,
    portal: Three<'_>,
) {
    let mut portal = portal;
    submit_in_turn(rt, &mut portal);
    portal.expect_served(rt, alloc, 259);
    portal.expect_served(rt, alloc, 3);
    portal.expect_served(rt, alloc, 0);
    expect_all_polled(rt, &mut portal);
    let settled = portal.settle(rt, alloc).expect(rt, "not settled");
    expect_log(rt, settled.log.list.as_slice(), &FETCHED);
    expect_bytes(rt, &settled.image, &BYTES);
}

#[test]
fn three_clients_fetched_in_turn(rt: HostRuntime) {
    let portal = Three::open(rt.alloc(), 200).expect(&rt, "no memory");
    expect_fetched_in_turn(&rt, rt.alloc(), portal)
}

/// Each of three clients submits all its jobs before the next one does, the first one last.
fn submit_one_by_one(rt: &impl Abort, portal: &mut Three<'_>) {
    for (client, count) in [(1, COUNTS[1]), (2, COUNTS[2]), (0, COUNTS[0])] {
        for number in 0..count {
            same(rt, portal.submit(client, job(client, number)), Ok(()));
        }
    }
}

/// A settlement fetches the same by the same rounds.
pub(super) fn expect_settled_in_turn<R: Abort + Threads + Wait + Sync>(
    rt: &R,
    alloc: Global,
    portal: Three<'_>,
) {
    let mut portal = portal;
    submit_one_by_one(rt, &mut portal);
    let settled = portal.settle(rt, alloc).expect(rt, "not settled");
    expect_log(rt, settled.log.list.as_slice(), &FETCHED);
    expect_bytes(rt, &settled.image, &BYTES);
}

#[test]
fn three_clients_settled_in_turn(rt: HostRuntime) {
    let portal = Three::open(rt.alloc(), 130).expect(&rt, "no memory");
    expect_settled_in_turn(&rt, rt.alloc(), portal)
}

/// What two clients submit: three jobs, three more, and one.
fn submitted_by_two() -> [(u32, Job); 7] {
    [
        (1, Job::fill(2, 0, 8)),
        (0, Job::compare_pattern(0, 0, 8)),
        (0, Job::fill(1, 0, 8)),
        (1, Job::compare_pattern(0, 3, 8)),
        (0, Job::compare_pattern(0, 2, 8)),
        (0, Job::fill(3, 0, 8)),
        (1, Job::fill(4, 0, 8)),
    ]
}

/// The same as rounds fetch them.
fn fetched_of_two() -> [(u32, Job); 7] {
    [
        (0, Job::compare_pattern(0, 0, 8)),
        (0, Job::fill(1, 0, 8)),
        (1, Job::fill(2, 0, 8)),
        (0, Job::compare_pattern(0, 2, 8)),
        (0, Job::fill(3, 0, 8)),
        (1, Job::compare_pattern(0, 3, 8)),
        (1, Job::fill(4, 0, 8)),
    ]
}

/// Two clients submit these jobs, which the next round fetches.
fn expect_fetched<R: Abort + Threads + Wait + Sync>(
    rt: &R,
    alloc: Global,
    portal: &mut Two<'_>,
    jobs: &[(u32, Job)],
) {
    for (client, job) in jobs {
        let taken = match client {
            0 => portal.submit_first(*job),
            _ => portal.submit_second(*job),
        };
        same(rt, taken, Ok(()));
    }
    portal.expect_served(rt, alloc, jobs.len());
}

/// The log is these clients' jobs, each of which was done.
fn expect_done(rt: &impl Abort, log: &[LogEntry], jobs: &[(u32, Job)]) {
    same(rt, log.len(), jobs.len());
    for (entry, (client, job)) in log.iter().zip(jobs) {
        let wanted = LogEntry {
            client: *client,
            job: *job,
            answer: done(8),
        };
        same(rt, *entry, wanted);
    }
}

/// Two clients write the same bytes, and each round looks at what the one before has left.
pub(super) fn expect_two_fetched_in_turn<R: Abort + Threads + Wait + Sync>(
    rt: &R,
    alloc: Global,
    portal: Two<'_>,
) {
    let mut portal = portal;
    let submitted = submitted_by_two();
    expect_fetched(rt, alloc, &mut portal, &submitted[..3]);
    expect_fetched(rt, alloc, &mut portal, &submitted[3..6]);
    expect_fetched(rt, alloc, &mut portal, &submitted[6..]);
    expect_fetched(rt, alloc, &mut portal, &[]);
    let settled = portal.settle(rt, alloc).expect(rt, "not settled");
    expect_done(rt, settled.log.list.as_slice(), &fetched_of_two());
    same(rt, settled.image.byte(0), Some(4));
}

#[test]
fn two_clients_fetched_in_turn(rt: HostRuntime) {
    let engine = engine(rt.alloc()).expect(&rt, "no memory");
    let portal = Two::open(rt.alloc(), engine, 4).expect(&rt, "no memory");
    expect_two_fetched_in_turn(&rt, rt.alloc(), portal);
}

/// Submits jobs of a client by their numbers, below 200, for each of which there is room.
fn all_submitted(rt: &impl Abort, seat: Seat, count: u32) -> Seat
    ensures { IsSameSeat seat result }
{
    let mut seat = seat;
    for number in 0..count {
        let next = job(seat.client(), number);
        same(rt, seat.try_submit(next), Ok(()));
    }
    seat
}

/// The second and the third client submit on threads of their own.
fn last_two_submitted<R: Abort + Threads + Sync>(rt: &R, second: Seat, third: Seat) -> (Seat, Seat)
    ensures { IsSameSeat second result.0 × IsSameSeat third result.1 }
{
    thread::join(
        rt,
        || -> Seat
            ensures { IsSameSeat second result }
        { all_submitted(rt, second, COUNTS[1]) },
        || -> Seat
            ensures { IsSameSeat third result }
        { all_submitted(rt, third, COUNTS[2]) },
    )
}

/// Each of three clients submits on a thread of its own.
fn submitted_at_once<'a, R: Abort + Threads + Sync>(rt: &R, portal: Three<'a>) -> Three<'a> {
    let Three {
        server,
        first,
        second,
        third,
    } = portal;
    let (first, (second, third)) = thread::join(
        rt,
        || -> Seat
            ensures { IsSameSeat first result }
        { all_submitted(rt, first, COUNTS[0]) },
        || -> (Seat, Seat)
            ensures { IsSameSeat second result.0 × IsSameSeat third result.1 }
        { last_two_submitted(rt, second, third) },
    );
    Three {
        server,
        first,
        second,
        third,
    }
}

/// Three clients submit at once.
pub(super) fn expect_three_seats<R: Abort + Threads + Wait + Sync>(
    rt: &R,
    alloc: Global,
    portal: Three<'_>,
) {
    let portal = submitted_at_once(rt, portal);
    let settled = portal.settle(rt, alloc).expect(rt, "not settled");
    expect_log(rt, settled.log.list.as_slice(), &FETCHED);
    expect_bytes(rt, &settled.image, &BYTES);
}

#[test]
fn three_seats(rt: HostRuntime) {
    for _ in 0..10 {
        let portal = Three::open(rt.alloc(), 200).expect(&rt, "no memory");
        expect_three_seats(&rt, rt.alloc(), portal);
    }
}

/// Chunks of 64 KiB, for four workers.
pub(super) const FOUR_WORKERS: Settings = Settings {
    staging: 0,
    chunk: 65_536,
    workers: 4,
};

/// An engine with no gate given over 512 pages of zeros, for four workers.
fn engine_of_two_mebibytes(alloc: Global) -> Option<Engine> {
    let mut image = Image::new(alloc, 512).ok()?;
    for page in 0..512 {
        image.bring(page, &[0; 4096]).ok()?;
    }
    Engine::new(alloc, image, FOUR_WORKERS).ok()
}

/// Four compares of a mebibyte, which pay for four workers; how many threads the round starts is counted from outside
/// (tests/starts.sh).
pub(super) fn expect_worth_four_workers<R: Abort + Threads + Wait + Sync>(
    rt: &R,
    alloc: Global,
    portal: One<'_>,
) {
    let mut portal = portal;
    portal.submit_all(rt, &[Job::compare(0, 1_048_576, 1_048_576); 4]);
    portal.expect_served(rt, alloc, 4);
    portal.expect_polled(rt, &[done(1_048_576); 4]);
}

#[test]
fn round_worth_four_workers(rt: HostRuntime) {
    let engine = engine_of_two_mebibytes(rt.alloc()).expect(&rt, "no memory");
    let portal = One::over(rt.alloc(), engine, 4).expect(&rt, "no memory");
    expect_worth_four_workers(&rt, rt.alloc(), portal);
}
