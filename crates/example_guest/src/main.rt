//! A monitor's loop: a guest's memory lies in two segments of 64 MiB, 64 GiB apart, and its jobs in a ring there. A
//! page fault is answered by a segment that is added, and the rest of the job is submitted; then comes a batch with a
//! fence.
#![tactic(auto)]

mod guest;

use anyhow::bail;
use dml_desc::encode;
use dml_image::Segment;
use dml_types::{Job, Record};
use guest::{Guest, Spare};
use std::alloc::Global;
use std::io;
use std::sync::Wait;
use std::thread::Threads;

/// The bytes of each segment.
const SEGMENT: usize = 67_108_864;

/// Where the second one begins: at 64 GiB.
const HIGH: u64 = 68_719_476_736;

const MIB: u64 = 1_048_576;

const SIZE: u32 = 1_048_576;

/// The guest's jobs: four by themselves, of which the second goes on behind the first segment's last page, and four as
/// a batch, whose third (flag 0x01) waits for the two before it, which two threads share.
fn jobs() -> [Job; 8] {
    let sixes = 0x6666_6666_6666_6666;
    let last_page = SEGMENT as u64 - 4096;
    [
        Job::fill(sixes, HIGH, SIZE),
        Job::move_bytes(HIGH, last_page, 12_288),
        Job::compare(HIGH, last_page, 12_288),
        Job::move_bytes(HIGH, MIB, SIZE),
        Job::compare_pattern(HIGH, sixes, SIZE),
        Job::compare(HIGH, MIB, SIZE),
        Job::fill(0, HIGH, SIZE).with_flags(0x01),
        Job::compare_pattern(HIGH, 0, SIZE),
    ]
}

/// What the guest's driver does: it writes the jobs' descriptors into the ring, which begins with the second page.
fn enqueue(memory: &mut [u8], jobs: &[Job]) -> anyhow::Result<()> {
    let (descriptors, _) = memory.as_chunks_mut::<64>();
    for (place, job) in descriptors.iter_mut().skip(64).zip(jobs) {
        match encode(job) {
            Some(descriptor) => *place = descriptor,
            None => bail!("the flags have more than 24 bits"),
        }
    }
    Ok(())
}

fn print(rt: &impl Print, record: &Record) -> io::Result<()> {
    let (code, result, done) = (record.status.code(), record.result, record.completed);
    println!(rt; "status {code:02x} result {result} completed {done}")
}

/// Carries out a job. Each page fault is answered by a spare page, which becomes a segment, and the rest is submitted.
fn serve<'a, R: Threads + Wait + Sync + Print>(
    rt: &R,
    alloc: Global,
    guest: Guest<'a>,
    job: Job,
    spare: &mut Spare<'a>,
) -> anyhow::Result<Guest<'a>> {
    let mut guest = guest;
    let mut next = Some(job);
    // Each turn but the last takes a spare page.
    for _ in 0..=spare.pages() {
        let Some(job) = next else { break };
        let (record, left) = guest.submit(rt, alloc, job);
        print(rt, &record)?;
        if left.is_some() {
            let Some(bytes) = spare.page() else {
                bail!("no page is left");
            };
            let page = u32::try_from(record.fault / 4096)?;
            println!(rt; "page fault at {}: page {page} is a segment", record.fault)?;
            guest = guest.with(alloc, Segment::new(page, bytes))?;
        }
        next = left;
    }
    Ok(guest)
}

/// Carries out what is in the ring: four jobs by themselves, and four as a batch.
fn run<'a, R: Threads + Wait + Sync + Print>(
    rt: &R,
    alloc: Global,
    guest: Guest<'a>,
    spare: Spare<'a>,
) -> anyhow::Result<()> {
    let mut guest = guest;
    let mut spare = spare;
    for number in 0..4 {
        let job = guest.fetch(number)?;
        guest = serve(rt, alloc, guest, job, &mut spare)?;
    }
    let mut batch = Vec::new(alloc);
    for number in 4..8 {
        batch.push(guest.fetch(number)?)?;
    }
    let (answer, records) = guest.submit_batch(rt, alloc, &batch)?;
    for record in &records {
        print(rt, record)?;
    }
    let (code, done) = (answer.status.code(), answer.completed);
    println!(rt; "batch status {code:02x} completed {done}")?;
    Ok(())
}

/// The same over the two pieces of the guest's memory, with spare memory.
fn monitor<'a, R: Threads + Wait + Sync + Print>(
    rt: &R,
    alloc: Global,
    low: &'a mut [u8],
    high: &'a mut [u8],
    more: &'a mut [u8],
) -> anyhow::Result<()> {
    let mut segments = Vec::with_capacity(alloc, 2)?;
    let low = Segment::new(0, low);
    let high = Segment::new((HIGH / 4096) as u32, high);
    segments.push_reserved(low);
    segments.push_reserved(high);
    run(rt, alloc, Guest::over(alloc, segments)?, Spare::new(more))
}

fn main(rt: HostRuntime) -> anyhow::Result<()> {
    let mut low = vec![in rt.alloc(); 0_u8; SEGMENT]?;
    let mut high = vec![in rt.alloc(); 0_u8; SEGMENT]?;
    enqueue(&mut low, &jobs())?;
    monitor(&rt, rt.alloc(), &mut low, &mut high, &mut [0; 8192])
}
