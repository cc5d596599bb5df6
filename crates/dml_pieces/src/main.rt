//! Random scripts over memory in segments: each job is carried out over random segments with holes between them, and
//! over an image of its own pages, the same ones. The two have to answer the same record and to leave the same bytes.
//! The jobs of every fourth script go as one batch too, over the memory that the script began with.
//!
//! Its words are how many jobs, 200 without one, and a number below 2^32, the seed. With words it also prints how many
//! batches there were and how many answers had each status.
#![tactic(auto)]

mod batches;
mod jobs;
mod layouts;
mod random;

use anyhow::ensure;
use batches::compare_batch;
use dml_arena::Arena;
use dml_effect::submit_to;
use dml_image::Image;
use dml_types::{Job, Record};
use jobs::Jobs;
use layouts::{Place, are_alike, content_of, lent_image, own_image, pages_of, places};
use random::Random;
use std::alloc::Global;
use std::env;
use std::sync::Wait;
use std::thread::Threads;

/// How many jobs a script has at most.
const SCRIPT: u32 = 16;

/// A script, whose memory and jobs are the same for the same seed and number.
#[derive(Clone, Copy, Debug)]
pub(crate) struct Script {
    pub seed: u32,
    pub number: u32,
    pub jobs: u32,
}

/// How many answers had each status, by its code, and how many batches there were.
#[derive(Clone, Copy)]
struct Counts {
    of: [u64; 256],
    batches: u64,
}

/// Carries out a job with all the staging of an arena.
fn submitted(image: &mut Image, arena: &mut Arena, job: &Job) -> Record {
    let staging = arena.size();
    submit_to(image, arena, job, staging)
}

/// Carries out a script's jobs one by one over both memories, and answers them.
fn compare_jobs(
    alloc: Global,
    script: Script,
    random: Random,
    places: &[Place],
    content: &mut [u8],
    counts: &mut Counts,
) -> anyhow::Result<Vec<Job>> {
    let mut random = random;
    let mut own = own_image(alloc, places, content)?;
    let mut lent = lent_image(alloc, places, content)?;
    let room = if random.one_in(4) { 4096 } else { 65_536 };
    let mut arena = Arena::new(alloc, room)?;
    let mut source = Jobs::new(random, pages_of(places));
    let mut jobs = Vec::new(alloc);
    for _ in 0..script.jobs {
        let job = source.next_job();
        let answer = submitted(&mut own, &mut arena, &job);
        let other = submitted(&mut lent, &mut arena, &job);
        ensure!(
            answer == other && are_alike(&own, &lent),
            "{script:?}: {job:?} answers {answer:?}, and over segments {other:?}"
        );
        let count = &mut counts.of[usize::from(answer.status.code())];
        *count = count.saturating_add(1);
        source.keep(&job, &answer);
        jobs.push(job)?;
    }
    Ok(jobs)
}

/// Carries out a script over both memories, job by job, and every fourth one as a batch too.
fn compare<R: Threads + Wait + Sync>(
    rt: &R,
    alloc: Global,
    script: Script,
    counts: &mut Counts,
) -> anyhow::Result<()> {
    let mut random = Random::new(script.seed, script.number);
    let places = places(alloc, &mut random)?;
    let mut content = content_of(alloc, &mut random, &places)?;
    let mut again = content.clone()?;
    let jobs = compare_jobs(alloc, script, random, &places, &mut content, counts)?;
    if script.number % 4 == 3 {
        compare_batch(rt, alloc, script, &places, &mut again, &jobs)?;
        counts.batches = counts.batches.saturating_add(1);
    }
    Ok(())
}

/// The number that a word writes.
fn word(rt: &HostRuntime, place: usize, without: u32) -> anyhow::Result<u32> {
    match env::args(rt)?.nth(place) {
        None => Ok(without),
        Some(word) => Ok(word.parse::<u32>()?),
    }
}

fn main(rt: HostRuntime) -> anyhow::Result<()> {
    let (wanted, seed) = (word(&rt, 1, 200)?, word(&rt, 2, 1)?);
    let mut counts = Counts {
        of: [0; 256],
        batches: 0,
    };
    for number in 0..wanted.div_ceil(SCRIPT) {
        let before = number.saturating_mul(SCRIPT);
        let jobs = wanted.saturating_sub(before).min(SCRIPT);
        let script = Script { seed, number, jobs };
        compare(&rt, rt.alloc(), script, &mut counts)?;
    }
    println!(rt; "{wanted} jobs over segments end as over own pages")?;
    if env::args(&rt)?.nth(1).is_some() {
        let batches = counts.batches;
        println!(rt; "{batches} batches of them too")?;
        for (code, count) in counts.of.iter().enumerate() {
            if *count > 0 {
                println!(rt; "status {code:02x} {count}")?;
            }
        }
    }
    Ok(())
}
