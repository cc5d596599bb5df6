//! A storage engine that keeps a replica: each interval it finds what changed and brings it over by delta records.

use crate::Size;
use crate::content::{engine_of, image_of, touched};
use crate::digests::Digest;
use crate::lists::{Call, carried_out};
use crate::random::Random;
use dml_engine::Engine;
use dml_types::{Job, Record, Status};
use std::alloc::{AllocError, Global};
use std::io;
use std::sync::Wait;
use std::thread::Threads;

/// The bytes of the store: first the store itself, then its replica, then room for the records of four.
const STORE: u32 = 2_097_152;

const PAGES: u32 = STORE / 4096;

/// The blocks of an interval: how many, and the bytes of each.
#[derive(Clone, Copy)]
struct Cut {
    blocks: u32,
    bytes: u32,
}

impl Cut {
    /// From blocks of a page to blocks of 512 KiB.
    fn of_round(round: u32) -> Cut {
        match round % 8 {
            0 => Cut {
                blocks: 512,
                bytes: 4096,
            },
            1 => Cut {
                blocks: 256,
                bytes: 8192,
            },
            2 => Cut {
                blocks: 128,
                bytes: 16_384,
            },
            3 => Cut {
                blocks: 64,
                bytes: 32_768,
            },
            4 => Cut {
                blocks: 32,
                bytes: 65_536,
            },
            5 => Cut {
                blocks: 16,
                bytes: 131_072,
            },
            6 => Cut {
                blocks: 8,
                bytes: 262_144,
            },
            _ => Cut {
                blocks: 4,
                bytes: 524_288,
            },
        }
    }

    /// Where a block begins in the store.
    fn place(self, block: u32) -> u64 {
        u64::from(block) * u64::from(self.bytes)
    }

    /// Where the record of a block stands.
    fn record(self, block: u32) -> u64 {
        (2 * u64::from(STORE)).wrapping_add(self.place(block).wrapping_mul(2))
    }
}

/// How one of the store's pages changed: about one word of so many.
fn density(random: &mut Random) -> u32 {
    match random.below(4) {
        0 => 2,
        1 => 8,
        2 => 30,
        _ => 100,
    }
}

/// What the programs over the store did: pages were written, moved and filled.
fn moves(alloc: Global, random: &mut Random) -> Result<Vec<Job>, AllocError> {
    let mut jobs = Vec::with_capacity(alloc, 256)?;
    for _ in 0..256 {
        let (from, to) = (random.below(PAGES), random.below(PAGES));
        let job = if random.one_in(4) {
            let addr = to * 4096 + random.below(4000);
            Job::fill(random.word(), u64::from(addr), 8 + random.below(57))
        } else {
            Job::move_bytes(u64::from(from) * 4096, u64::from(to) * 4096, 4096)
        };
        jobs.push(job)?;
    }
    Ok(jobs)
}

/// A create for each block: how the store differs from the replica.
fn creates(alloc: Global, cut: Cut) -> Result<Vec<Job>, AllocError> {
    let mut jobs = Vec::with_capacity(alloc, cut.blocks as usize)?;
    for block in 0..cut.blocks {
        let (store, most) = (cut.place(block), (cut.bytes / 8).wrapping_mul(10));
        let replica = store.wrapping_add(u64::from(STORE));
        jobs.push(Job::create_delta(replica, store, cut.bytes, cut.record(block), most))?;
    }
    Ok(jobs)
}

/// An apply for each block that differs.
fn applies(alloc: Global, cut: Cut, records: &[Record]) -> Result<Vec<Job>, AllocError> {
    let mut jobs = Vec::with_capacity(alloc, cut.blocks as usize)?;
    for (block, record) in (0..cut.blocks).zip(records) {
        if record.status == Status::Success && record.result == 1 {
            let replica = cut.place(block).wrapping_add(u64::from(STORE));
            jobs.push(Job::apply_delta(cut.record(block), record.delta_size, replica, cut.bytes))?;
        }
    }
    Ok(jobs)
}

/// A compare of each block with its replica.
fn compares(alloc: Global, cut: Cut) -> Result<Vec<Job>, AllocError> {
    let mut jobs = Vec::with_capacity(alloc, cut.blocks as usize)?;
    for block in 0..cut.blocks {
        let store = cut.place(block);
        let replica = store.wrapping_add(u64::from(STORE));
        jobs.push(Job::compare(store, replica, cut.bytes))?;
    }
    Ok(jobs)
}

/// One interval.
fn interval<T: Threads + Wait + Sync>(
    rt: &T,
    alloc: Global,
    engine: &mut Engine,
    random: &mut Random,
    round: u32,
    digest: &mut Digest,
) -> io::Result<()> {
    let (cut, call) = (Cut::of_round(round), Call::of_round(round));
    for page in 0..PAGES {
        if random.one_in(3) {
            let apart = density(random);
            touched(engine, random, page, apart)?;
        }
    }
    let moves = moves(alloc, random)?;
    carried_out(rt, alloc, engine, call, moves.as_slice(), digest)?;
    let creates = creates(alloc, cut)?;
    let records = carried_out(rt, alloc, engine, call, creates.as_slice(), digest)?;
    let applies = applies(alloc, cut, records.as_slice())?;
    carried_out(rt, alloc, engine, call, applies.as_slice(), digest)?;
    let compares = compares(alloc, cut)?;
    carried_out(rt, alloc, engine, call, compares.as_slice(), digest)?;
    Ok(())
}

/// Keeps replicas over intervals, with one worker, two and four.
pub(crate) fn replicas<T: Threads + Wait + Sync>(
    rt: &T,
    alloc: Global,
    seed: u32,
    size: Size,
) -> io::Result<Digest> {
    let mut digest = Digest::new();
    for round in 0..size.rounds {
        let mut random = Random::new(seed, round);
        let workers = [1, 2, 4];
        let image = image_of(alloc, &mut random, 6 * PAGES, 0)?;
        let mut engine = engine_of(alloc, image, 65_536, workers[round as usize % 3])?;
        for turn in 0..if size.small { 2 } else { 24 } {
            let nth = turn + round % 8;
            interval(rt, alloc, &mut engine, &mut random, nth, &mut digest)?;
        }
        digest.image(engine.image());
    }
    Ok(digest)
}
