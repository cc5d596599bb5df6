//! Replays of jobs that go one by one.
use dml_core::{Step, World};
use dml_image::Image;
use dml_types::{Job, Settings};
use std::alloc::Global;
use std::io;
use std::time::Instant;

const SETTINGS: Settings = Settings {
    staging: 4096,
    chunk: 4096,
    workers: 1,
};

/// How many jobs the replays of one sample have together, of whichever size these are.
const JOBS: u32 = 100_000;

/// How many samples of each size are taken, of which the shortest counts.
const SAMPLES: u32 = 20;

/// A world of one client over one page.
fn world(alloc: Global) -> io::Result<World> {
    let Ok(mut image) = Image::new(alloc, 1) else {
        return Err(io::ErrorKind::OutOfMemory.into());
    };
    if image.bring(0, &[0; 4096]).is_err() {
        return Err(io::ErrorKind::OutOfMemory.into());
    }
    match World::new(alloc, image, SETTINGS, 1) {
        Ok(world) => Ok(world),
        Err(_) => Err(io::ErrorKind::OutOfMemory.into()),
    }
}

/// The steps of so many fills, each of which is committed before the next is sent.
fn steps_of(alloc: Global, jobs: u32) -> io::Result<Vec<Step>> {
    let mut steps = Vec::new(alloc);
    for k in 0..jobs {
        steps.push(Step::Submit {
            client: 0,
            job: Job::fill(u64::from(k), 0, 8),
        })?;
        steps.push(Step::Fetch { client: 0 })?;
        steps.push(Step::Take { worker: 0 })?;
        steps.push(Step::Finish { worker: 0 })?;
        steps.push(Step::Commit)?;
    }
    Ok(steps)
}

/// The world behind all steps, by a call that the compiler keeps; none where it stops before.
#[inline(never)]
fn replayed(alloc: Global, world: World, steps: &[Step]) -> Option<World> {
    world.replay(alloc, steps).ok()
}

/// The nanoseconds that so many replays of some steps take together, each in a new world.
fn time_sample(rt: &HostRuntime, steps: &[Step], replays: u32) -> io::Result<u128> {
    let mut time: u128 = 0;
    for _ in 0..replays {
        let new = world(rt.alloc())?;
        let start = Instant::now(rt)?;
        let end = replayed(rt.alloc(), new, steps);
        time = time.saturating_add(start.elapsed(rt)?.as_nanos());
        if end.is_none() {
            return Err(io::ErrorKind::InvalidData.into());
        }
    }
    Ok(time)
}

/// Times replays of 1,000, 10,000 and 100,000 jobs: the nanoseconds of one job. The samples of the three go by turns,
/// and each has as many jobs, so that what a host takes away meets all of them alike.
pub(crate) fn time_replays(rt: &HostRuntime, measures: bool) -> io::Result<()> {
    let (most, samples) = if measures { (JOBS, SAMPLES) } else { (1, 1) };
    let small = steps_of(rt.alloc(), most.min(1000))?;
    let middle = steps_of(rt.alloc(), most.min(10_000))?;
    let large = steps_of(rt.alloc(), most)?;
    let (mut of_small, mut of_middle, mut of_large) = (u128::MAX, u128::MAX, u128::MAX);
    for _ in 0..samples {
        of_small = of_small.min(time_sample(rt, small.as_slice(), (most / 1000).max(1))?);
        of_middle = of_middle.min(time_sample(rt, middle.as_slice(), (most / 10_000).max(1))?);
        of_large = of_large.min(time_sample(rt, large.as_slice(), 1)?);
    }
    let jobs = u128::from(JOBS);
    eprintln!(rt; "replay 1000 {}", of_small / jobs)?;
    eprintln!(rt; "replay 10000 {}", of_middle / jobs)?;
    eprintln!(rt; "replay 100000 {}", of_large / jobs)
}
