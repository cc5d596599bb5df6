//! Creates and applies: chunks of them as large as a whole job, and whole jobs.
ghost use Rattle.std.specs.Prelude.{◌<◌, ◌≤◌};

use dml_arena::Arena;
use dml_delta::{scan_apply, scan_create};
use dml_desc::{Checked, check};
use dml_engine::Engine;
use dml_image::Image;
use dml_types::{ENTRY, Job, Op, Status};
use std::alloc::Global;
use std::io;
use std::rt::Clock;
use std::sync::Wait;
use std::thread::Threads;
use std::time::Instant;

const HALF_MEBIBYTE: u32 = 524_288;

const STAGING: u32 = 1_048_576;

const SOURCE_PAGES: u32 = 128;

const ENTRIES: u32 = 4096;

/// Where the record lies that an apply reads.
const RECORD: u64 = 3 * 524_288;

/// Where a create writes its record, and the most bytes of it.
const CREATED: u64 = RECORD + 81_920;

const MOST_CREATED: u32 = 655_360;

/// The pages up to the end of the record that a create writes.
const PAGES: u32 = 3 * SOURCE_PAGES + 20 + 160;

/// The byte at a place of the record: entries of the blocks 0, 1, 2 and so on, each of eight bytes 0x11.
fn record_byte(place: u32) -> u8 {
    let block = place / ENTRY;
    match place % ENTRY {
        0 => (block % 256) as u8,
        1 => (block / 256 % 256) as u8,
        _ => 0x11,
    }
}

/// Three sources of 512 KiB, of which the second equals the first, and the third differs from it in one block of
/// sixteen; behind them a record of 4,096 entries, and room for one that a create writes.
fn image_of_sources(alloc: Global) -> io::Result<Image<'static>> {
    let Ok(mut image) = Image::new(alloc, PAGES) else {
        return Err(io::ErrorKind::OutOfMemory.into());
    };
    for page in 0..PAGES {
        let mut bytes = [0x5a; 4096];
        if page >= 3 * SOURCE_PAGES {
            for at in 0..4096u32 {
                bytes[at as usize] = record_byte((page - 3 * SOURCE_PAGES) * 4096 + at);
            }
        } else if page >= 2 * SOURCE_PAGES {
            for block in 0..32usize {
                bytes[block * 128] = 0;
            }
        }
        if image.bring(page, &bytes).is_err() {
            return Err(io::ErrorKind::OutOfMemory.into());
        }
    }
    Ok(image)
}

/// How many bytes a create, or an apply, stages, by a call that the compiler keeps; none for other jobs.
#[inline(never)]
fn staged(image: &Image, arena: &mut Arena, job: &Checked) -> Option<usize> {
    let (op, fields) = (job.op(), *job.job());
    if arena.size() < STAGING || fields.size > HALF_MEBIBYTE {
        return None;
    }
    match op {
        Op::CreateDelta => {
            let piece = scan_create(image, job, 0, fields.size / 8, arena.open());
            Some(piece.staged.bytes().len())
        }
        Op::ApplyDelta if fields.delta_size / ENTRY <= ENTRIES => {
            let piece = scan_apply(image, job, 0, fields.delta_size / ENTRY, arena.open());
            Some(piece.staged.bytes().len())
        }
        _ => None,
    }
}

/// A job to time: its name, itself, how many bytes it stages, and the bytes of a record that it writes.
type Row = (&'static str, Job, usize, u32);

/// Creates of 512 KiB, where no block differs and where one of sixteen does, and behind them an apply of 4,096 entries,
/// which changes a source.
fn rows() -> [Row; 3] {
    let half = u64::from(HALF_MEBIBYTE);
    [
        (
            "create_equal",
            Job::create_delta(0, half, HALF_MEBIBYTE, CREATED, MOST_CREATED),
            0,
            0,
        ),
        (
            "create_sixteenth",
            Job::create_delta(0, 2 * half, HALF_MEBIBYTE, CREATED, MOST_CREATED),
            40_960,
            40_960,
        ),
        (
            "apply_entries",
            Job::apply_delta(RECORD, ENTRIES * ENTRY, 0, 32_768),
            40_960,
            0,
        ),
    ]
}

/// Times the scans of these jobs, and then the jobs by `Engine::submit` with one worker.
pub(crate) fn time_deltas<T: Threads + Wait + Sync + Clock + Eprint>(
    rt: &T,
    alloc: Global,
    calls: u32,
) -> io::Result<()>
    requires { 0 < calls }
{
    let image = image_of_sources(alloc)?;
    let Ok(mut arena) = Arena::new(alloc, STAGING) else {
        return Err(io::ErrorKind::OutOfMemory.into());
    };
    for (name, job, staged, _) in rows() {
        time_scan(rt, &image, &mut arena, name, job, staged, calls)?;
    }
    let Ok(mut engine) = Engine::new(alloc, image, crate::SETTINGS) else {
        return Err(io::ErrorKind::OutOfMemory.into());
    };
    for (name, job, _, written) in rows() {
        time_submit(rt, alloc, &mut engine, name, job, written, calls)?;
    }
    Ok(())
}

/// Times one job by `Engine::submit`, which is to write a record of so many bytes.
fn time_submit<T: Threads + Wait + Sync + Clock + Eprint>(
    rt: &T,
    alloc: Global,
    engine: &mut Engine,
    name: &str,
    job: Job,
    written: u32,
    calls: u32,
) -> io::Result<()>
    requires { 0 < calls }
{
    crate::submitted(rt, alloc, engine, job);
    let start = Instant::now(rt)?;
    for _ in 0..calls {
        let record = crate::submitted(rt, alloc, engine, job);
        if record.status != Status::Success || record.delta_size != written {
            return Err(io::ErrorKind::InvalidData.into());
        }
    }
    let nanoseconds = start.elapsed(rt)?.as_nanos() / u128::from(calls);
    eprintln!(rt; "submit_{name} {} {nanoseconds}", job.size)
}

/// Times one job, which is to stage so many bytes.
fn time_scan<T: Clock + Eprint>(
    rt: &T,
    image: &Image,
    arena: &mut Arena,
    name: &str,
    job: Job,
    want: usize,
    calls: u32,
) -> io::Result<()>
    requires { 0 < calls }
{
    let Ok(checked) = check(&job, STAGING) else {
        return Err(io::ErrorKind::InvalidData.into());
    };
    let start = Instant::now(rt)?;
    for _ in 0..calls {
        if staged(image, arena, &checked) != Some(want) {
            return Err(io::ErrorKind::InvalidData.into());
        }
    }
    let nanoseconds = start.elapsed(rt)?.as_nanos() / u128::from(calls);
    eprintln!(rt; "{name} {} {nanoseconds}", job.size)
}
