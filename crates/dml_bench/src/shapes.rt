//! Lists of jobs that are submitted whole, to engines with one worker and with several.
ghost use Rattle.std.specs.Prelude.{◌<◌, ◌≤◌};

use dml_engine::Engine;
use dml_image::Image;
use dml_pool::Free;
use dml_types::{Job, Settings, Status};
use std::alloc::Global;
use std::io;
use std::rt::Clock;
use std::sync::Wait;
use std::thread::Threads;
use std::time::Instant;

const PAGE: u64 = 4096;

const PART: u64 = 65_536;

const MEBIBYTE: u64 = 1_048_576;

/// The pages of the image that lists work on: 16 MiB.
const PAGES: u32 = 4096;

/// The bytes of each 8 of the image, before and after all lists.
const PATTERN: u64 = 0x5a5a_5a5a_5a5a_5a5a;

/// What the jobs of a list are.
#[derive(Clone, Copy)]
enum Shape {
    /// Compares of 1 MiB, each of two mebibytes side by side; eight of them cover the image.
    Compares,
    /// No-ops.
    NoOps,
    /// Moves of a page to the page beside it; none conflict.
    PageMoves,
    /// Moves of 1 MiB to the mebibyte beside it; eight of them do not conflict.
    LargeMoves,
    /// Moves of 256 bytes, each inside a page of its own.
    SmallMoves,
    /// Moves of 256 KiB, each of what the one before it wrote.
    Chain,
    /// By turns a compare and a move of 128 KiB, a fill of a page and a no-op, each in 256 KiB of its own.
    Mixed,
    /// By turns a compare of 64 KiB and a fill of 8 bytes inside it, all at one place: a chain as long as the list.
    CompareChain,
    /// The same of 8 KiB.
    ShortChain,
    /// Compares of 64 KiB, each of two parts side by side; none conflict.
    PartCompares,
    /// Moves of 64 KiB to the part beside it; none conflict.
    PartMoves,
    /// Fills of 64 KiB; none conflict.
    PartFills,
}

/// The job at a place of a list.
fn job_of(shape: Shape, place: u32) -> Job
    requires { place < 1024 }
{
    let nth = u64::from(place);
    let (page, part) = (nth * 2 * PAGE, nth * 2 * PART);
    let pair = nth % 8 * 2 * MEBIBYTE;
    match shape {
        Shape::Compares => Job::compare(pair, pair + MEBIBYTE, 1_048_576),
        Shape::NoOps => Job::no_op(),
        Shape::PageMoves => Job::move_bytes(page, page + PAGE, 4096),
        Shape::LargeMoves => Job::move_bytes(pair, pair + MEBIBYTE, 1_048_576),
        Shape::SmallMoves => Job::move_bytes(nth * PAGE, nth * PAGE + 2048, 256),
        Shape::Chain => Job::move_bytes(nth * 4 * PART, nth * 4 * PART + 4 * PART, 262_144),
        Shape::Mixed => mixed_job(place, nth * 4 * PART),
        Shape::CompareChain => chained_job(place, 65_536),
        Shape::ShortChain => chained_job(place, 8192),
        Shape::PartCompares => Job::compare(part, part + PART, 65_536),
        Shape::PartMoves => Job::move_bytes(part, part + PART, 65_536),
        Shape::PartFills => Job::fill(PATTERN, part, 65_536),
    }
}

/// The job at a place of a mixed list, in 256 KiB from an address on.
fn mixed_job(place: u32, addr: u64) -> Job
    requires { addr < 4294967296 }
{
    match place % 4 {
        0 => Job::compare(addr, addr + 2 * PART, 131_072),
        1 => Job::move_bytes(addr, addr + 2 * PART, 131_072),
        2 => Job::fill(PATTERN, addr, 4096),
        _ => Job::no_op(),
    }
}

/// The job at a place of a chain of compares of a size.
fn chained_job(place: u32, size: u32) -> Job {
    match place % 2 {
        0 => Job::compare(0, PART, size),
        _ => Job::fill(PATTERN, 0, 8),
    }
}

/// A list of so many jobs.
fn list_of(alloc: Global, shape: Shape, jobs: u32) -> io::Result<Vec<Job>>
    requires { jobs ≤ 1024 }
{
    let mut list = Vec::new(alloc);
    for place in 0..jobs {
        list.push(job_of(shape, place))?;
    }
    Ok(list)
}

/// An image of 16 MiB, all present and all alike.
pub(crate) fn large_image(alloc: Global) -> io::Result<Image<'static>> {
    let Ok(mut image) = Image::new(alloc, PAGES) else {
        return Err(io::ErrorKind::OutOfMemory.into());
    };
    for page in 0..PAGES {
        if image.bring(page, &[0x5a; 4096]).is_err() {
            return Err(io::ErrorKind::OutOfMemory.into());
        }
    }
    Ok(image)
}

/// An engine over an image, with chunks of 64 KiB; by a gate it has its workers begin however little work there is.
pub(crate) fn engine_of(
    alloc: Global,
    image: Image<'static>,
    workers: u32,
    gated: bool,
) -> io::Result<Engine> {
    let settings = Settings {
        staging: 8_388_608,
        chunk: 65_536,
        workers,
    };
    match Engine::new(alloc, image, settings) {
        Ok(engine) if gated => Ok(engine.with_gate(Free)),
        Ok(engine) => Ok(engine),
        Err(_) => Err(io::ErrorKind::OutOfMemory.into()),
    }
}

/// Submits a list, by a call that the compiler keeps.
#[inline(never)]
pub(crate) fn listed<T: Threads + Wait + Sync>(
    rt: &T,
    alloc: Global,
    engine: &mut Engine,
    jobs: &[Job],
) -> io::Result<()> {
    match engine.submit_list(rt, alloc, jobs) {
        Ok(records)
            if records
                .iter()
                .all(|record| record.status == Status::Success) => Ok(()),
        _ => Err(io::ErrorKind::InvalidData.into()),
    }
}

/// Submits the jobs of a list, one at a time.
#[inline(never)]
fn each_submitted<T: Threads + Wait + Sync>(
    rt: &T,
    alloc: Global,
    engine: &mut Engine,
    jobs: &[Job],
) -> io::Result<()> {
    for job in jobs {
        if engine.submit(rt, alloc, *job).status != Status::Success {
            return Err(io::ErrorKind::InvalidData.into());
        }
    }
    Ok(())
}

/// Submits a list some times, a tenth of the calls and one, and then times so many more of it: the nanoseconds of one.
fn time_of<T: Threads + Wait + Sync + Clock>(
    rt: &T,
    alloc: Global,
    engine: &mut Engine,
    jobs: &[Job],
    calls: u32,
) -> io::Result<u128>
    requires { 0 < calls }
{
    for _ in 0..calls / 10 + 1 {
        listed(rt, alloc, engine, jobs)?;
    }
    let start = Instant::now(rt)?;
    for _ in 0..calls {
        listed(rt, alloc, engine, jobs)?;
    }
    Ok(start.elapsed(rt)?.as_nanos() / u128::from(calls))
}

/// Times a list with 1, 2 and 4 workers: rows of a name, a number of workers, and the nanoseconds of the whole list.
fn time_shape<T: Threads + Wait + Sync + Clock + Eprint>(
    rt: &T,
    alloc: Global,
    image: Image<'static>,
    name: &str,
    jobs: &[Job],
    calls: u32,
) -> io::Result<Image<'static>>
    requires { 0 < calls }
{
    let mut image = image;
    for workers in [1, 2, 4] {
        let mut engine = engine_of(alloc, image, workers, false)?;
        let nanoseconds = time_of(rt, alloc, &mut engine, jobs, calls)?;
        eprintln!(rt; "{name} {workers} {nanoseconds}")?;
        image = engine.into_image();
    }
    Ok(image)
}

/// Times lists of many shapes with 1, 2 and 4 workers. Without `measures` each list has two jobs, and is submitted
/// twice.
pub(crate) fn time_shapes<T: Threads + Wait + Sync + Clock + Eprint>(
    rt: &T,
    alloc: Global,
    image: Image<'static>,
    measures: bool,
) -> io::Result<Image<'static>> {
    let rows = [
        ("list_compares_64", Shape::Compares, 64, 16),
        ("list_compares_4", Shape::Compares, 4, 200),
        ("list_no_ops", Shape::NoOps, 1024, 100),
        ("list_page_moves", Shape::PageMoves, 1024, 20),
        ("list_large_moves", Shape::LargeMoves, 8, 10),
        ("list_small_moves", Shape::SmallMoves, 1024, 20),
        ("list_chain", Shape::Chain, 32, 10),
        ("list_mixed", Shape::Mixed, 64, 20),
        ("list_compare_chain", Shape::CompareChain, 1024, 5),
        ("list_short_chain", Shape::ShortChain, 1024, 20),
    ];
    let mut image = image;
    for (name, shape, jobs, calls) in rows {
        let (jobs, calls) = if measures { (jobs, calls) } else { (2, 1) };
        let list = list_of(alloc, shape, jobs)?;
        image = time_shape(rt, alloc, image, name, list.as_slice(), calls)?;
    }
    time_each(rt, alloc, image, if measures { 20 } else { 1 })
}

/// Times the moves of pages, submitted one at a time with one worker.
fn time_each<T: Threads + Wait + Sync + Clock + Eprint>(
    rt: &T,
    alloc: Global,
    image: Image<'static>,
    calls: u32,
) -> io::Result<Image<'static>>
    requires { 0 < calls }
{
    let list = list_of(alloc, Shape::PageMoves, 1024)?;
    let mut engine = engine_of(alloc, image, 1, false)?;
    for _ in 0..calls / 10 + 1 {
        each_submitted(rt, alloc, &mut engine, list.as_slice())?;
    }
    let start = Instant::now(rt)?;
    for _ in 0..calls {
        each_submitted(rt, alloc, &mut engine, list.as_slice())?;
    }
    let nanoseconds = start.elapsed(rt)?.as_nanos() / u128::from(calls);
    eprintln!(rt; "each_page_moves 1 {nanoseconds}")?;
    Ok(engine.into_image())
}

/// Times lists of jobs of 64 KiB with one worker, and with two and four that begin however little work there is: rows
/// of a name with the number of workers, the bytes of the whole list, and its nanoseconds.
pub(crate) fn time_pays<T: Threads + Wait + Sync + Clock + Eprint>(
    rt: &T,
    alloc: Global,
    image: Image<'static>,
    calls: u32,
) -> io::Result<Image<'static>>
    requires { 0 < calls }
{
    let rows = [
        ("pays_compare", Shape::PartCompares),
        ("pays_move", Shape::PartMoves),
        ("pays_fill", Shape::PartFills),
    ];
    let mut image = image;
    for (name, shape) in rows {
        for workers in [1, 2, 4] {
            let mut engine = engine_of(alloc, image, workers, workers > 1)?;
            for parts in [4, 8, 16, 32, 64] {
                let list = list_of(alloc, shape, parts)?;
                let nanoseconds = time_of(rt, alloc, &mut engine, list.as_slice(), calls)?;
                let bytes = parts * 65_536;
                eprintln!(rt; "{name}_{workers} {bytes} {nanoseconds}")?;
            }
            image = engine.into_image();
        }
    }
    Ok(image)
}
