//! A hypervisor that scans its guest's memory for zero pages, writes to a mirror as well, and moves memory of which
//! pages are absent: over an image of its own, and over its own memory as it lies.

use crate::Size;
use crate::content::{content_of, engine_of, image_of, touched};
use crate::digests::Digest;
use crate::lists::{Call, carried_out};
use crate::random::Random;
use dml_arena::Arena;
use dml_desc::rest;
use dml_effect::{are_pages, submit_over};
use dml_engine::Engine;
use dml_types::{Job, Record};
use std::alloc::{AllocError, Global};
use std::io;
use std::sync::Wait;
use std::thread::Threads;

/// The pages of a guest, of its mirror, and of the room for what is moved.
const PAGES: u32 = 1024;

const BYTES: u64 = 4_194_304;

const STAGING: u32 = 1_048_576;

/// A look at each page of the guest: whether it is all zero.
fn scans(alloc: Global) -> Result<Vec<Job>, AllocError> {
    let mut jobs = Vec::with_capacity(alloc, PAGES as usize)?;
    for page in 0..PAGES {
        jobs.push(Job::compare_pattern(u64::from(page) * 4096, 0, 4096))?;
    }
    Ok(jobs)
}

/// What a device writes: from its buffers to the guest and to the mirror.
fn dualcasts(alloc: Global, random: &mut Random, count: u32) -> Result<Vec<Job>, AllocError> {
    let mut jobs = Vec::with_capacity(alloc, count as usize)?;
    for _ in 0..count {
        let sizes = [64, 512, 1500, 4096, 4096, 4096, 9000, 32_768];
        let nth = random.below(8) as usize;
        let size = sizes[nth];
        let place = u64::from(random.below(PAGES - 16) * 4096 + random.below(4096));
        let buffer = u64::from(random.below(PAGES - 16) * 4096);
        jobs.push(Job::dualcast(2 * BYTES + buffer, place, BYTES + place, size))?;
    }
    Ok(jobs)
}

/// Moves of 64 bytes to 32 KiB inside the guest.
fn moves(alloc: Global, random: &mut Random, count: u32) -> Result<Vec<Job>, AllocError> {
    let mut jobs = Vec::with_capacity(alloc, count as usize)?;
    for _ in 0..count {
        let sizes = [64, 64, 256, 1024, 4096, 4096, 16_384, 32_768];
        let nth = random.below(8) as usize;
        let from = random.below(PAGES - 16) * 4096 + random.below(4096);
        let to = random.below(PAGES - 16) * 4096 + random.below(4096);
        jobs.push(Job::move_bytes(u64::from(from), u64::from(to), sizes[nth]))?;
    }
    Ok(jobs)
}

/// Brings a page, by a call that the compiler keeps, so that no other one has room for the page in its frame.
#[inline(never)]
fn brought(engine: &mut Engine, random: &mut Random, page: u32) -> bool {
    engine.bring(page, &content_of(random, page)).is_ok()
}

/// Submits a job, and after each page fault brings the page and submits what is left.
fn resumed<T: Threads + Wait + Sync>(
    rt: &T,
    alloc: Global,
    engine: &mut Engine,
    random: &mut Random,
    job: Job,
    digest: &mut Digest,
) {
    let mut next = Some(job);
    for _ in 0..32 {
        let Some(job) = next else {
            return;
        };
        let record = engine.submit(rt, alloc, job);
        digest.record(&record);
        next = rest(&job, &record);
        if next.is_some() {
            let page = (record.fault / 4096 % u64::from(3 * PAGES)) as u32;
            if !brought(engine, random, page) {
                digest.word(1);
            }
        }
    }
}

/// A turn over the image of an engine.
fn turn<T: Threads + Wait + Sync>(
    rt: &T,
    alloc: Global,
    engine: &mut Engine,
    random: &mut Random,
    number: u32,
    digest: &mut Digest,
) -> io::Result<()> {
    let call = Call::of_round(number);
    for page in 0..PAGES {
        if random.one_in(64) {
            touched(engine, random, page, 100)?;
        }
    }
    let moves = moves(alloc, random, 256)?;
    for job in &moves {
        resumed(rt, alloc, engine, random, *job, digest);
    }
    let dualcasts = dualcasts(alloc, random, 256)?;
    carried_out(rt, alloc, engine, call, dualcasts.as_slice(), digest)?;
    let scans = scans(alloc)?;
    carried_out(rt, alloc, engine, call, scans.as_slice(), digest)?;
    Ok(())
}

/// A job over the caller's memory; none where the bytes are no pages or the arena is too small.
fn over(content: &mut [u8], arena: &mut Arena, job: &Job) -> Option<Record> {
    if !are_pages(content) || arena.size() < STAGING {
        return None;
    }
    Some(submit_over(content, arena, job, STAGING))
}

/// Turns over the caller's own memory.
fn turns_over(
    alloc: Global,
    random: &mut Random,
    turns: u32,
    digest: &mut Digest,
) -> io::Result<()> {
    let Ok(mut arena) = Arena::new(alloc, STAGING) else {
        return Err(io::ErrorKind::OutOfMemory.into());
    };
    let mut content = Vec::with_capacity(alloc, 3 * PAGES as usize * 4096)?;
    for page in 0..3 * PAGES {
        content.extend_from_slice(&content_of(random, page))?;
    }
    for _ in 0..turns {
        let lists = [
            moves(alloc, random, 256)?,
            dualcasts(alloc, random, 256)?,
            scans(alloc)?,
        ];
        for jobs in &lists {
            for job in jobs {
                match over(content.as_mut_slice(), &mut arena, job) {
                    Some(record) => digest.record(&record),
                    None => return Err(io::ErrorKind::InvalidData.into()),
                }
            }
        }
    }
    digest.bytes(content.as_slice());
    Ok(())
}

/// Mirrors guests.
pub(crate) fn mirrors<T: Threads + Wait + Sync>(
    rt: &T,
    alloc: Global,
    seed: u32,
    size: Size,
) -> io::Result<Digest> {
    let mut digest = Digest::new();
    for round in 0..size.rounds {
        let mut random = Random::new(seed, round);
        let turns = if size.small { 1 } else { 150 };
        let image = image_of(alloc, &mut random, 3 * PAGES, 3)?;
        let mut engine = engine_of(alloc, image, 4096, 1)?;
        for number in 0..turns {
            turn(rt, alloc, &mut engine, &mut random, number, &mut digest)?;
        }
        digest.image(engine.image());
        turns_over(alloc, &mut random, turns, &mut digest)?;
    }
    Ok(digest)
}
