//! The fetching of a round: at most so many jobs of each client, clients in order of their numbers.
ghost use Rattle.std.specs.Prelude.{◌≡◌, ◌+◌, ◌*◌, ◌<◌, ◌≤◌, ◌^◌, ◌↔◌, List, [], ◌++◌, IsTrue, length, map, vec_capacity};
ghost use Rattle.rtrb.specs.Ring.{received};
ghost use Rattle.dml_portal.specs.Types.{Job as Jobs, LogEntry as Entries};
ghost use Rattle.dml_portal.specs.Log.{jobs_in, sent_for};
ghost use Rattle.dml_portal.specs.Lanes.{ArePopped, ArePushed, AreSameLanes, EachLane, IsSameLane, IsTakenUpTo, waiting};
ghost use Rattle.dml_portal.specs.Held.{AreTakenOrHeldUpTo, HasRoomOrIsHeld, HaveRoomOrAreHeld, IsOver, IsTakenOrHeld};
ghost use Rattle.dml_portal.specs.Whole.{HasRoom, HaveReceived, HaveRoom, HaveSentMore, kept_by, late_of, room_by};
ghost use Rattle.dml_portal.specs.Served.{IsFetchedUpTo};
ghost use Rattle.dml_portal.specs.Blank as word;
ghost use Rattle.dml_portal.specs.Blocks.{AreBlocks};

use crate::lanes::Lane;
use crate::logs::LogEntry;
use dml_types::{Job, Record, Status};

/// The most jobs of a client that a round fetches.
pub(crate) const MOST_OF_A_CLIENT: usize = 128;

/// How many jobs are popped of a ring at once.
const BATCH: usize = 16;

/// A fetched job with a record that stands for its own. The job is made anew of its fields, since a copy of what was
/// written in other parts just before waits for the writes.
fn blank(client: u32, job: &Job) -> LogEntry
    ensures { result ≡ word.blank client job.now }
{
    LogEntry {
        client,
        job: Job {
            opcode: job.opcode,
            flags: job.flags,
            source: job.source,
            target: job.target,
            size: job.size,
            extra: job.extra,
            delta_size: job.delta_size,
            expected: job.expected,
        },
        answer: Record::refused(Status::Success),
    }
}

/// Adds popped jobs of one client to the log and to the list of jobs.
fn add_batch(client: u32, batch: &[Job], log: &mut Vec<LogEntry>, jobs: &mut Vec<Job>)
    requires log_room { length log.old.items + length batch.now ≤ vec_capacity log.old }
    requires jobs_room { length jobs.old.items + length batch.now ≤ vec_capacity jobs.old }
    ensures log { log.new.items ≡ log.old.items ++ map (word.blank client) batch.now }
    ensures jobs { jobs.new.items ≡ jobs.old.items ++ batch.now }
    ensures log_capacity { vec_capacity log.new ≡ vec_capacity log.old }
    ensures jobs_capacity { vec_capacity jobs.new ≡ vec_capacity jobs.old }
{
    for i in 0..batch.len() {
        jobs.push_reserved(batch[i]);
        log.push_reserved(blank(client, &batch[i]));
    }
}

/// Fetches at most so many jobs of one client, into the log with a record that stands for their own, and into the list
/// of jobs.
fn fetch_batches(
    client: u32,
    lane: &mut Lane,
    number: usize,
    log: &mut Vec<LogEntry>,
    jobs: &mut Vec<Job>,
)
    requires number { number ≤ 128 }
    requires log_room { length log.old.items + 128 ≤ vec_capacity log.old }
    requires jobs_room { length jobs.old.items + 128 ≤ vec_capacity jobs.old }
    ensures fetched { (fetched : List Jobs) × (received lane.new.jobs ≡ received lane.old.jobs ++ fetched) × (log.new.items ≡ log.old.items ++ map (word.blank client) fetched) × (jobs.new.items ≡ jobs.old.items ++ fetched) × (length fetched ≤ number) × IsTakenUpTo number (waiting lane.old) fetched (waiting lane.new) }
    ensures answered { lane.new.answered ≡ lane.old.answered }
    ensures late { lane.new.late ≡ lane.old.late }
    ensures records { lane.new.records ≡ lane.old.records }
    ensures before { lane.new.before ≡ length jobs.old.items }
    ensures number { lane.new.before + lane.new.fetched ≡ length jobs.new.items }
    ensures same { IsSameLane lane.old lane.new }
    ensures log_room { vec_capacity log.new ≡ vec_capacity log.old }
    ensures jobs_room { vec_capacity jobs.new ≡ vec_capacity jobs.old }
{
    lane.before = jobs.len();
    lane.fetched = 0;
    let mut batch = [Job::no_op(); BATCH];
    let mut left = number;
    while left > 0 {
        let most = left.min(BATCH);
        let count = lane.jobs.pop_partial_slice(&mut batch[..most]);
        add_batch(client, &batch[..count], log, jobs);
        lane.fetched += count;
        if count < most {
            return;
        }
        left -= count;
    }
}

/// Whether more records wait with a client than the bound allows, if there is one.
pub(crate) fn is_held_back(lane: &Lane, most: Option<usize>) -> bool
    ensures { IsTrue result ↔ IsOver most (length (late_of lane.now)) }
{
    match most {
        Some(most) => lane.late.len() > most,
        None => false,
    }
}

/// Fetches at most so many jobs of one client, if it is not held back.
fn fetch_client(
    client: u32,
    lane: &mut Lane,
    number: usize,
    most: Option<usize>,
    log: &mut Vec<LogEntry>,
    jobs: &mut Vec<Job>,
)
    requires number { number ≤ 128 }
    requires log_room { length log.old.items + 128 ≤ vec_capacity log.old }
    requires jobs_room { length jobs.old.items + 128 ≤ vec_capacity jobs.old }
    ensures fetched { (fetched : List Jobs) × (received lane.new.jobs ≡ received lane.old.jobs ++ fetched) × (log.new.items ≡ log.old.items ++ map (word.blank client) fetched) × (jobs.new.items ≡ jobs.old.items ++ fetched) × (length fetched ≤ number) × IsTakenOrHeld number most lane.old lane.new fetched }
    ensures answered { lane.new.answered ≡ lane.old.answered }
    ensures late { lane.new.late ≡ lane.old.late }
    ensures records { lane.new.records ≡ lane.old.records }
    ensures before { lane.new.before ≡ length jobs.old.items }
    ensures number { lane.new.before + lane.new.fetched ≡ length jobs.new.items }
    ensures room { HasRoomOrIsHeld most lane.old → HasRoom lane.new }
    ensures same { IsSameLane lane.old lane.new }
    ensures log_room { vec_capacity log.new ≡ vec_capacity log.old }
    ensures jobs_room { vec_capacity jobs.new ≡ vec_capacity jobs.old }
{
    if is_held_back(lane, most) {
        lane.before = jobs.len();
        lane.fetched = 0;
        return;
    }
    fetch_batches(client, lane, number, log, jobs);
}

/// Fetches at most so many jobs of each client that is not held back.
pub(crate) fn fetch_round(
    lanes: &mut Vec<Lane>,
    number: usize,
    most: Option<usize>,
    log: &mut Vec<LogEntry>,
    jobs: &mut Vec<Job>,
)
    requires clients { length lanes.old.items ≤ 8 }
    requires number { number ≤ 128 }
    requires empty { jobs.old.items ≡ [] }
    requires log_room { length log.old.items + 128 * length lanes.old.items ≤ vec_capacity log.old }
    requires jobs_room { 128 * length lanes.old.items ≤ vec_capacity jobs.old }
    ensures fetched { (entries : List Entries) × (log.new.items ≡ log.old.items ++ entries) × (jobs.new.items ≡ jobs_in entries) × (length entries ≤ 128 * length lanes.old.items) × IsFetchedUpTo number (length lanes.old.items) (map sent_for entries) × AreTakenOrHeldUpTo number most lanes.old.items entries lanes.new.items × AreBlocks lanes.new.items entries × HaveReceived lanes.old.items entries lanes.new.items }
    ensures popped { ArePopped lanes.old.items log.old.items → ArePopped lanes.new.items log.new.items }
    ensures pushed { ArePushed lanes.old.items log.old.items → ArePushed lanes.new.items log.old.items }
    ensures kept { map kept_by lanes.new.items ≡ map kept_by lanes.old.items }
    ensures sent { HaveSentMore lanes.old.items lanes.new.items }
    ensures room { HaveRoomOrAreHeld most lanes.old.items → HaveRoom lanes.new.items }
    ensures late_room { map room_by lanes.new.items ≡ map room_by lanes.old.items }
    ensures same { AreSameLanes lanes.old.items lanes.new.items }
{
    for client in 0..lanes.len() {
        fetch_client(client as u32, &mut lanes[client], number, most, log, jobs);
    }
}
