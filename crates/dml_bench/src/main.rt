//! Times `Engine::submit` with one worker: moves, fills, dualcasts, compares, creates and applies; the calls of an
//! image that they stand on; jobs over the caller's own pages; looks and moves over segments; scans of creates and
//! applies; levels and waves of lists; replays of jobs one by one; `Engine::submit_list` with 1, 2 and 4 workers; the
//! seats and rounds of a portal; and rings that wake.
//!
//! Each row of the standard error is a name, a number (a size in bytes, or the number of jobs, tasks or workers), and
//! the nanoseconds of one call. Without arguments each job is timed once, and each list is one of two jobs, which shows
//! only that they are carried out. One argument, a number of mebibytes, measures: the row of a job is then the mean of
//! as many jobs as cover that much, at most 200,000. A row `replay` is what one job takes of the shortest of some
//! replays of so many jobs.
#![tactic(auto)]

ghost use Rattle.std.specs.Prelude.{◌≡◌, ◌<◌, ◌≤◌};
ghost use Rattle.dml_types.specs.Step.{step};

mod anywhere;
mod bells;
mod clients;
mod deltas;
mod lent;
mod lists;
mod replays;
mod segments;
mod shapes;
mod staying;
mod waves;

use dml_engine::Engine;
use dml_image::Image;
use dml_types::{Direction, Job, Record, Settings, Status};
use std::alloc::Global;
use std::rt::Clock;
use std::sync::Wait;
use std::thread::Threads;
use std::time::Instant;
use std::{env, io};

const PAGES: u32 = 1024;

const MEBIBYTE: u32 = 1_048_576;

const SIZES: [u32; 4] = [64, 4096, 65_536, MEBIBYTE];

const SETTINGS: Settings = Settings {
    staging: MEBIBYTE,
    chunk: 4096,
    workers: 1,
};

const MOST_JOBS: u64 = 200_000;

/// Calls of an image begin at this address at most.
const LAST_START: u64 = 3 * 1_048_576;

/// The number of mebibytes that the first argument asks for, 0 without one.
fn mebibytes_in(rt: &HostRuntime) -> io::Result<u32> {
    match env::args(rt)?.nth(1) {
        None => Ok(0),
        Some(word) => word.parse().map_err(|_| io::ErrorKind::InvalidInput.into()),
    }
}

/// How many jobs of a size cover so many mebibytes, at least one.
fn jobs_of(mebibytes: u32, size: u32) -> u64
    requires { 0 < size }
    ensures some { 0 < result }
    ensures most { result ≤ 200000 }
{
    let jobs = u64::from(mebibytes) * u64::from(MEBIBYTE) / u64::from(size);
    jobs.clamp(1, MOST_JOBS)
}

/// An image of 4 MiB, all present.
fn full_image(alloc: Global) -> io::Result<Image<'static>> {
    let Ok(mut image) = Image::new(alloc, PAGES) else {
        return Err(io::ErrorKind::OutOfMemory.into());
    };
    for page in 0..PAGES {
        if image.bring(page, &[0x5a; 4096]).is_err() {
            return Err(io::ErrorKind::OutOfMemory.into());
        }
    }
    Ok(image)
}

/// Submits a job, by a call that the compiler keeps, so that nothing of it is done once for many.
#[inline(never)]
fn submitted<T: Threads + Wait + Sync>(
    rt: &T,
    alloc: Global,
    engine: &mut Engine,
    job: Job,
) -> Record
    ensures { result ≡ (step engine.old.image job engine.old.settings.staging).1 }
{
    engine.submit(rt, alloc, job)
}

/// Submits a job by such a call, and answers its status alone.
#[inline(never)]
fn ended<T: Threads + Wait + Sync>(rt: &T, alloc: Global, engine: &mut Engine, job: Job) -> Status
    ensures { result ≡ (step engine.old.image job engine.old.settings.staging).1.status }
{
    engine.submit(rt, alloc, job).status
}

/// Carries out a job once, and then times so many more of it.
fn time<T: Threads + Wait + Sync + Clock + Eprint>(
    rt: &T,
    alloc: Global,
    engine: &mut Engine,
    name: &str,
    job: Job,
    jobs: u64,
) -> io::Result<()>
    requires some { 0 < jobs }
{
    ended(rt, alloc, engine, job);
    let start = Instant::now(rt)?;
    for _ in 0..jobs {
        if ended(rt, alloc, engine, job) != Status::Success {
            return Err(io::ErrorKind::InvalidData.into());
        }
    }
    let nanoseconds = start.elapsed(rt)?.as_nanos() / u128::from(jobs);
    eprintln!(rt; "{name} {} {nanoseconds}", job.size)
}

/// Times each kind of job at one size.
fn time_jobs<T: Threads + Wait + Sync + Clock + Eprint>(
    rt: &T,
    alloc: Global,
    engine: &mut Engine,
    size: u32,
    jobs: u64,
) -> io::Result<()>
    requires size { size ≤ 1048576 }
    requires some { 0 < jobs }
{
    let mebibyte = u64::from(MEBIBYTE);
    let (middle, half) = (2 * mebibyte, u64::from(size / 2));
    let (pattern, equal) = (0x0807_0605_0403_0201, 0x5a5a_5a5a_5a5a_5a5a);
    let rows = [
        ("move", Job::move_bytes(0, mebibyte, size)),
        ("compare", Job::compare(0, mebibyte, size)),
        ("compare_pattern", Job::compare_pattern(0, equal, size)),
        ("move_down", Job::move_bytes(middle, middle - half, size)),
        ("move_up", Job::move_bytes(middle, middle + half, size)),
        ("fill", Job::fill(pattern, mebibyte, size)),
        ("dualcast", Job::dualcast(0, mebibyte, middle, size)),
    ];
    for (name, job) in rows {
        time(rt, alloc, engine, name, job, jobs)?;
    }
    Ok(())
}

/// A call of an image, on present bytes.
#[derive(Clone, Copy)]
enum Call {
    Move { source: u64, target: u64 },
    Fill { target: u64 },
}

/// Carries out a call, by one that the compiler keeps, and says whether the bytes were present.
#[inline(never)]
fn called(image: &mut Image, call: Call, size: u32) -> bool
    requires { size ≤ 1048576 }
{
    let (source, target) = match call {
        Call::Move { source, target } => (source, target),
        Call::Fill { target } => (target, target),
    };
    if source.max(target) > LAST_START
        || image
            .first_absent(source, size, Direction::Forward)
            .is_some()
        || image
            .first_absent(target, size, Direction::Forward)
            .is_some()
    {
        return false;
    }
    match call {
        Call::Move { .. } => image.move_within(source, target, size),
        Call::Fill { .. } => image.fill(target, size, 0x0807_0605_0403_0201),
    }
    true
}

/// Makes a call once, and then times so many more of it.
fn time_call(
    rt: &HostRuntime,
    image: &mut Image,
    name: &str,
    call: Call,
    size: u32,
    calls: u64,
) -> io::Result<()>
    requires size { size ≤ 1048576 }
    requires some { 0 < calls }
{
    called(image, call, size);
    let start = Instant::now(rt)?;
    for _ in 0..calls {
        if !called(image, call, size) {
            return Err(io::ErrorKind::InvalidData.into());
        }
    }
    let nanoseconds = start.elapsed(rt)?.as_nanos() / u128::from(calls);
    eprintln!(rt; "{name} {size} {nanoseconds}")
}

/// Times the calls of an image at one size: disjoint, overlapping by half, and from addresses of no round number.
fn time_calls_at(rt: &HostRuntime, image: &mut Image, size: u32, calls: u64) -> io::Result<()>
    requires size { size ≤ 1048576 }
    requires some { 0 < calls }
{
    let mebibyte = u64::from(MEBIBYTE);
    let half = u64::from(size / 2);
    let rows = [
        ("image_move", 0, mebibyte),
        ("image_move_unaligned", 5, mebibyte + 77),
        ("image_move_up", mebibyte, mebibyte + half),
        ("image_move_down", mebibyte + half, mebibyte),
        (
            "image_move_up_unaligned",
            mebibyte + 3,
            mebibyte + half + 64,
        ),
    ];
    for (name, source, target) in rows {
        time_call(rt, image, name, Call::Move { source, target }, size, calls)?;
    }
    time_call(
        rt,
        image,
        "image_fill",
        Call::Fill { target: mebibyte },
        size,
        calls,
    )
}

/// How many of so many bytes, 64 apart and over again, are present.
#[inline(never)]
fn present_of(image: &Image, looks: u32) -> u32 {
    let mut present = 0u32;
    for k in 0..looks {
        if image.has(u64::from(k % 65_536) * 64) {
            present = present.wrapping_add(1); // at most `looks`
        }
    }
    present
}

/// Times a look at a byte's presence, and the making and dropping of an image of 4,096 absent pages.
fn time_smaller(rt: &HostRuntime, image: &Image, looks: u32) -> io::Result<()>
    requires { 0 < looks }
{
    let start = Instant::now(rt)?;
    let present = present_of(image, looks);
    let picoseconds = start.elapsed(rt)?.as_nanos() * 1000 / u128::from(looks);
    eprintln!(rt; "has_ps {present} {picoseconds}")?;
    let start = Instant::now(rt)?;
    for _ in 0..64 {
        if Image::new(rt.alloc(), 4096).is_err() {
            return Err(io::ErrorKind::OutOfMemory.into());
        }
    }
    let nanoseconds = start.elapsed(rt)?.as_nanos() / 64;
    eprintln!(rt; "image_new 4096 {nanoseconds}")
}

fn main(rt: HostRuntime) -> io::Result<()> {
    let mebibytes = mebibytes_in(&rt)?;
    let (alloc, measures) = (rt.alloc(), mebibytes > 0);
    let mut image = full_image(alloc)?;
    for size in SIZES {
        time_calls_at(&rt, &mut image, size, jobs_of(mebibytes, size))?;
    }
    time_smaller(&rt, &image, if measures { 1 << 24 } else { 1 })?;
    lent::time_lent(&rt, if measures { 200_000 } else { 1 })?;
    lent::time_own(&rt, &mut image, if measures { 200_000 } else { 1 })?;
    anywhere::time_anywhere(&rt, measures)?;
    segments::time_segments(&rt, measures)?;
    deltas::time_deltas(&rt, alloc, if measures { 50 } else { 1 })?;
    lists::time_levels(&rt, if measures { 20 } else { 1 })?;
    replays::time_replays(&rt, measures)?;
    let Ok(mut engine) = Engine::new(alloc, image, SETTINGS) else {
        return Err(io::ErrorKind::OutOfMemory.into());
    };
    for size in SIZES {
        time_jobs(&rt, alloc, &mut engine, size, jobs_of(mebibytes, size))?;
    }
    waves::time_waves(&rt, alloc, engine.image(), if measures { 10 } else { 1 })?;
    let large = shapes::time_shapes(&rt, alloc, shapes::large_image(alloc)?, measures)?;
    let large = shapes::time_pays(&rt, alloc, large, if measures { 20 } else { 1 })?;
    clients::time_portals(&rt, alloc, large, if measures { 50 } else { 1 })?;
    staying::time_logs(&rt, alloc, if measures { 50 } else { 1 })?;
    bells::time_bells(&rt, alloc, if measures { 20_000 } else { 1 })?;
    println!(rt; "{} sizes", SIZES.len())
}
