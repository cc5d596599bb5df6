//! The pool and its replica: what the database changes, and the jobs that bring the replica to the same bytes.
ghost use Rattle.std.specs.Prelude.{◌≤◌, length};

use dml_types::{Job, Record, Settings};
use std::alloc::{AllocError, Global};

/// Staging of 16 MiB, a task for each page, at most four threads.
pub const SETTINGS: Settings = Settings {
    staging: 16_777_216,
    chunk: 65_536,
    workers: 4,
};

/// The bytes of a page of the pool. It has 1,024 of them, as many as a list has jobs at most.
const PAGE: usize = 65_536;

const MIB: u64 = 1_048_576;

/// Where the replica begins, and behind it the room for delta records: 1 KiB for each page.
const REPLICA: u64 = 64 * MIB;

const RECORDS: u64 = 128 * MIB;

/// What the database writes: some bytes of three pages, and all of a fourth.
pub(crate) fn change(pool: &mut [u8])
    requires { 67108864 ≤ length pool.old }
{
    pool[3 * PAGE + 17] = 0x61;
    pool[1024 * PAGE - 1] = 0x61;
    pool[500 * PAGE..500 * PAGE + 200].fill(0x61);
    pool[700 * PAGE..701 * PAGE].fill(0x61);
}

/// For each page the job that finds how the pool's differs from the replica's, in a record of at most 1,020 bytes.
pub(crate) fn creates(alloc: Global) -> Result<Vec<Job>, AllocError> {
    let mut jobs = Vec::with_capacity(alloc, 1024)?;
    for page in 0..1024_u64 {
        let (ours, theirs) = (65_536 * page, REPLICA + 65_536 * page);
        let room = RECORDS + 1024 * page;
        jobs.push(Job::create_delta(theirs, ours, 65_536, room, 1020))?;
    }
    Ok(jobs)
}

/// The job that brings a page of the replica to the pool's, by what the create of that page found: none where they are
/// equal, the delta where it fits its room, else a move of the whole page.
fn repair(create: &Job, found: &Record) -> Option<Job> {
    let (theirs, ours, size) = (create.source, create.target, create.size);
    match found.result {
        0 => None,
        1 => Some(Job::apply_delta(create.extra, found.delta_size, theirs, size)),
        _ => Some(Job::move_bytes(ours, theirs, size)),
    }
}

/// The repairs of all pages that differ.
pub(crate) fn repairs(
    alloc: Global,
    creates: &[Job],
    found: &[Record],
) -> Result<Vec<Job>, AllocError> {
    let mut jobs = Vec::new(alloc);
    for (create, answer) in creates.iter().zip(found) {
        if let Some(job) = repair(create, answer) {
            jobs.push(job)?;
        }
    }
    Ok(jobs)
}

/// For each page the job that compares the replica's with the pool's. One that finds a difference has another status
/// than success.
pub(crate) fn compares(alloc: Global, creates: &[Job]) -> Result<Vec<Job>, AllocError> {
    let mut jobs = Vec::with_capacity(alloc, 1024)?;
    for create in creates {
        jobs.push(Job::compare(create.source, create.target, create.size).with_check(0))?;
    }
    Ok(jobs)
}

/// How many creates had this result.
pub(crate) fn count(found: &[Record], wanted: u8) -> usize {
    found
        .iter()
        .filter(|answer| answer.result == wanted)
        .count()
}

/// How many bytes of deltas are applied; a move has none.
pub(crate) fn delta_bytes(repairs: &[Job]) -> u32 {
    repairs
        .iter()
        .fold(0, |bytes: u32, job| bytes.saturating_add(job.delta_size))
}
