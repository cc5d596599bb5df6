//! Awkward inputs: lists in which all jobs wait for others, large ranges over hundreds of small ones, records in which
//! every block differs, jobs across the ends of pages of which every third is absent; and schedules with many jobs
//! open at once.

use crate::Size;
use crate::content::{engine_of, image_of};
use crate::digests::Digest;
use crate::lists::{Call, carried_out};
use crate::random::Random;
use dml_core::{Step, World};
use dml_types::{Job, Settings};
use std::alloc::{AllocError, Global};
use std::io;
use std::sync::Wait;
use std::thread::Threads;

/// The pages of an image: 8 MiB.
const PAGES: u32 = 2048;

/// The pages of an area of a schedule: the jobs of one area wait for one another, those of two do not.
const AREA: u32 = 6;

/// A job of 8 to 64 bytes across the end of a page.
fn across(random: &mut Random) -> Job {
    let size = 8 + random.below(57);
    let from = (1 + random.below(PAGES - 2)) * 4096 - random.below(8);
    let to = (1 + random.below(PAGES - 2)) * 4096 - random.below(8);
    let (source, target) = (u64::from(from), u64::from(to));
    match random.below(4) {
        0 => Job::fill(random.word(), target, size),
        1 => Job::compare(source, target, size),
        2 => Job::dualcast(source, target, target % 4096 + 4096, size),
        _ => Job::move_bytes(source, target, size),
    }
}

/// A list of small jobs across page ends, and of compares of a mebibyte over them, so that it is given workers.
fn wide_over_small(alloc: Global, random: &mut Random, wide: u32) -> Result<Vec<Job>, AllocError> {
    let mut jobs = Vec::with_capacity(alloc, 1024)?;
    for _ in 0..1024 - wide.min(64) {
        jobs.push(across(random))?;
    }
    for nth in 0..wide.min(64) {
        let addr = u64::from(nth % 7) << 20;
        jobs.push(Job::compare(addr, addr + 8 * u64::from(random.below(4)), 1 << 20))?;
    }
    Ok(jobs)
}

/// A list of moves of which each reads what the one before it wrote, with large compares behind them.
fn chained(alloc: Global, random: &mut Random) -> Result<Vec<Job>, AllocError> {
    let mut jobs = Vec::with_capacity(alloc, 1024)?;
    let mut addr = u64::from(random.below(4096));
    for _ in 0..1020 {
        let step = 8 + u64::from(random.below(4096));
        jobs.push(Job::move_bytes(addr, addr % 6_000_000 + step, 64))?;
        addr = addr % 6_000_000 + step;
    }
    for nth in 0..4 {
        jobs.push(Job::compare(nth << 20, nth << 20, 1 << 20))?;
    }
    Ok(jobs)
}

/// Creates of records in which every block differs, and applies of them.
fn all_differ(alloc: Global, random: &mut Random) -> Result<Vec<Job>, AllocError> {
    let mut jobs = Vec::with_capacity(alloc, 1024)?;
    for nth in 0..16 {
        let addr = nth << 16;
        let (pattern, other) = (random.word(), random.word());
        jobs.push(Job::fill(pattern, addr, 4096))?;
        jobs.push(Job::fill(pattern ^ (other | 1), 2_097_152 + addr, 4096))?;
        jobs.push(Job::create_delta(addr, 2_097_152 + addr, 4096, 4_194_304 + addr, 5120))?;
        jobs.push(Job::apply_delta(4_194_304 + addr, 5120, addr, 4096))?;
        jobs.push(Job::compare(addr, 2_097_152 + addr, 4096))?;
    }
    Ok(jobs)
}

/// Lists over an image of which every third page is absent, and over one with all pages.
fn lists<T: Threads + Wait + Sync>(
    rt: &T,
    alloc: Global,
    random: &mut Random,
    turns: u32,
    digest: &mut Digest,
) -> io::Result<()> {
    let image = image_of(alloc, random, PAGES, 0)?;
    let mut whole = engine_of(alloc, image, 65_536, 4)?;
    let image = image_of(alloc, random, PAGES, 3)?;
    let mut torn = engine_of(alloc, image, 8, 4)?;
    for turn in 0..turns {
        let call = Call::of_round(turn);
        let wide = wide_over_small(alloc, random, 8)?;
        carried_out(rt, alloc, &mut whole, call, wide.as_slice(), digest)?;
        carried_out(rt, alloc, &mut torn, call, wide.as_slice(), digest)?;
        let chained = chained(alloc, random)?;
        carried_out(rt, alloc, &mut whole, call, chained.as_slice(), digest)?;
        let differing = all_differ(alloc, random)?;
        carried_out(rt, alloc, &mut whole, call, differing.as_slice(), digest)?;
    }
    digest.image(whole.image());
    digest.image(torn.image());
    Ok(())
}

/// The job of an area at a depth: it waits for the one before it in the area.
fn area_job(random: &mut Random, area: u32, depth: u32, size: u32) -> Job {
    let addr = u64::from(area) * u64::from(AREA) * 4096;
    match depth % 3 {
        0 => Job::fill(random.word(), addr, size),
        1 => Job::move_bytes(addr, addr + 8192, size),
        _ => Job::dualcast(addr + 8192, addr, addr + 16_384, size),
    }
}

/// Adds the steps that carry out a wave of so many tasks by two workers in turn.
fn push_wave(steps: &mut Vec<Step>, tasks: u32) -> Result<(), AllocError> {
    for task in 0..tasks {
        let worker = task % 2;
        steps.push(Step::Take { worker })?;
        steps.push(Step::Finish { worker })?;
    }
    steps.push(Step::Commit).map_err(AllocError::from)
}

/// A schedule: so many areas with a chain of jobs each, of a few chunks each. Clients send them in turn, all are
/// fetched, a wave of all areas is committed, more jobs are sent and fetched, and all that is open is committed.
fn schedule(
    alloc: Global,
    random: &mut Random,
    areas: u32,
    depth: u32,
    size: u32,
) -> Result<Vec<Step>, AllocError> {
    let mut steps = Vec::with_capacity(alloc, 16_384)?;
    let chunks = size.div_ceil(4096);
    for level in 0..depth {
        for area in 0..areas {
            let client = random.below(4);
            let job = area_job(random, area, level, size);
            steps.push(Step::Submit { client, job })?;
            steps.push(Step::Fetch { client })?;
        }
    }
    for _ in 0..depth / 2 {
        push_wave(&mut steps, areas.saturating_mul(chunks))?;
    }
    for area in 0..areas {
        let client = random.below(4);
        let job = area_job(random, area, depth, size);
        steps.push(Step::Submit { client, job })?;
        steps.push(Step::Fetch { client })?;
    }
    for _ in depth / 2..depth {
        push_wave(&mut steps, areas.saturating_mul(chunks))?;
    }
    push_wave(&mut steps, areas.saturating_mul(chunks))?;
    Ok(steps)
}

/// Replays a schedule in a world of its own.
fn replayed(
    alloc: Global,
    random: &mut Random,
    areas: u32,
    depth: u32,
    size: u32,
    digest: &mut Digest,
) -> io::Result<()> {
    let settings = Settings {
        staging: 1_048_576,
        chunk: 4096,
        workers: 2,
    };
    let steps = schedule(alloc, random, areas, depth, size)?;
    let image = image_of(alloc, random, areas.saturating_mul(AREA), 0)?;
    let Ok(world) = World::new(alloc, image, settings, 4) else {
        return Err(io::ErrorKind::OutOfMemory.into());
    };
    let Ok(world) = world.replay(alloc, steps.as_slice()) else {
        return Err(io::ErrorKind::InvalidData.into());
    };
    for fetched in world.fetched() {
        digest.word(u64::from(fetched.client));
        if let Some(answer) = fetched.answer {
            digest.record(&answer);
        }
    }
    digest.image(world.image());
    Ok(())
}

/// Lists and schedules.
pub(crate) fn awkward<T: Threads + Wait + Sync>(
    rt: &T,
    alloc: Global,
    seed: u32,
    size: Size,
) -> io::Result<Digest> {
    let mut digest = Digest::new();
    for round in 0..size.rounds {
        let mut random = Random::new(seed, round);
        if size.small {
            lists(rt, alloc, &mut random, 1, &mut digest)?;
            replayed(alloc, &mut random, 3, 4, 8192, &mut digest)?;
            continue;
        }
        lists(rt, alloc, &mut random, 30, &mut digest)?;
        replayed(alloc, &mut random, 250, 3, 512, &mut digest)?;
        replayed(alloc, &mut random, 32, 14, 64, &mut digest)?;
        replayed(alloc, &mut random, 48, 6, 8192, &mut digest)?;
    }
    Ok(digest)
}
