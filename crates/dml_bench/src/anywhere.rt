//! Moves of a page to another one, both anywhere in one piece of the caller's, by jobs and by copies of slices.

use dml_arena::Arena;
use dml_effect::{are_whole_pages, submit_over_whole};
use dml_types::{Job, Status};
use std::alloc::AllocError;
use std::io;
use std::time::Instant;

const MEBIBYTE: u32 = 1_048_576;

/// The bytes of a page, as many as a job moves.
const PAGE: u32 = 4096;

/// How many moves are timed together.
const PLACES: u32 = 256;

/// The generator's first state.
const SEED: u64 = 20_261_128;

/// The next state of a xorshift generator.
fn next(state: u64) -> u64 {
    let first = state ^ (state << 13);
    let second = first ^ (first >> 7);
    second ^ (second << 17)
}

/// Moves between pages up to the last one, whose number is a mask, drawn from a state of the generator on, in place of
/// those of a list. Answers the state behind them.
fn draw(jobs: &mut Vec<Job>, state: u64, last: u64) -> Result<u64, AllocError> {
    let mut state = state;
    jobs.clear();
    for _ in 0..PLACES {
        let source = next(state);
        state = next(source);
        let job = Job::move_bytes((source & last) << 12, (state & last) << 12, PAGE);
        jobs.push(job)?;
    }
    Ok(state)
}

/// Submits a job, by a call that the compiler keeps. Answers whether it was done: the bytes are whole pages, and the
/// arena is large enough.
#[inline(never)]
fn submitted(content: &mut [u8], arena: &mut Arena, job: &Job) -> bool {
    if !are_whole_pages(content) || arena.size() < MEBIBYTE {
        return false;
    }
    submit_over_whole(content, arena, job, MEBIBYTE).status == Status::Success
}

/// Copies a job's page from slice to slice, by a call that the compiler keeps. Answers whether its ranges are there; a
/// page that is moved to its own place stays.
#[inline(never)]
fn copied(content: &mut [u8], job: &Job) -> bool {
    let (source, target) = (job.source as usize, job.target as usize);
    if source == target {
        return true;
    }
    let (low, high) = (source.min(target), source.max(target));
    let Some((front, back)) = content.split_at_mut_checked(high) else {
        return false;
    };
    let (Some((_, lower)), Some((upper, _))) = (
        front.split_at_mut_checked(low),
        back.split_at_mut_checked(PAGE as usize),
    ) else {
        return false;
    };
    let Some((lower, _)) = lower.split_at_mut_checked(PAGE as usize) else {
        return false;
    };
    if source < target {
        upper.copy_from_slice(lower);
    } else {
        lower.copy_from_slice(upper);
    }
    true
}

/// The nanoseconds of these moves by jobs.
fn time_jobs(
    rt: &HostRuntime,
    content: &mut [u8],
    arena: &mut Arena,
    jobs: &[Job],
) -> io::Result<u128> {
    let start = Instant::now(rt)?;
    for job in jobs {
        if !submitted(content, arena, job) {
            return Err(io::ErrorKind::InvalidData.into());
        }
    }
    Ok(start.elapsed(rt)?.as_nanos())
}

/// The nanoseconds of the same by copies.
fn time_copies(rt: &HostRuntime, content: &mut [u8], jobs: &[Job]) -> io::Result<u128> {
    let start = Instant::now(rt)?;
    for job in jobs {
        if !copied(content, job) {
            return Err(io::ErrorKind::InvalidData.into());
        }
    }
    Ok(start.elapsed(rt)?.as_nanos())
}

/// Prints the median of some sets' times, for one move.
fn print(rt: &HostRuntime, name: &str, times: Vec<u128>) -> io::Result<()> {
    let mut times = times;
    times.sort()?;
    let median = times.get(times.len() / 2).copied().unwrap_or(0);
    let nanoseconds = median / u128::from(PLACES);
    eprintln!(rt; "{name} {PAGE} {nanoseconds}")
}

/// Times moves anywhere in a gibibyte, by jobs and by copies in turn, each way over sets of its own.
pub(crate) fn time_anywhere(rt: &HostRuntime, measures: bool) -> io::Result<()> {
    let (bytes, last, sets) = if measures {
        (1_073_741_824, 0x3_ffff, 400_u32)
    } else {
        (2_097_152, 0x1ff, 1)
    };
    let Ok(mut arena) = Arena::new(rt.alloc(), MEBIBYTE) else {
        return Err(io::ErrorKind::OutOfMemory.into());
    };
    let mut content = Vec::from_elem(rt.alloc(), 0x5a, bytes)?;
    let mut jobs = Vec::new(rt.alloc());
    let (mut by_jobs, mut by_copies) = (Vec::new(rt.alloc()), Vec::new(rt.alloc()));
    let mut state = SEED;
    for _ in 0..sets {
        state = draw(&mut jobs, state, last)?;
        by_jobs.push(time_jobs(rt, content.as_mut_slice(), &mut arena, &jobs)?)?;
        state = draw(&mut jobs, state, last)?;
        by_copies.push(time_copies(rt, content.as_mut_slice(), &jobs)?)?;
    }
    print(rt, "whole_move", by_jobs)?;
    print(rt, "page_copy", by_copies)
}
