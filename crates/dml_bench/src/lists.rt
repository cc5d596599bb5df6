//! Levels and waves of lists of jobs.
ghost use Rattle.std.specs.Prelude.{◌≡◌, ◌<◌, ◌≤◌, length};
ghost use Rattle.std.specs.List.{All};
ghost use Rattle.dml_types.specs.Refusal.{need};
ghost use Rattle.dml_types.specs.Conflict.{fenced_levels};

use dml_desc::{Checked, check, need};
use dml_levels::{levels, waves};
use dml_types::Job;
use std::alloc::Global;
use std::io;
use std::time::Instant;

const PAGE: u64 = 4096;

/// The staging that each job of a list has.
const STAGING: u32 = 1_048_576;

/// How the jobs of a list lie.
#[derive(Clone, Copy)]
enum Kind {
    /// Moves of a page, each beside the one before it; none conflict.
    InOrder,
    /// The same moves in another order.
    Shuffled,
    /// Dualcasts of 64 bytes, whose two targets lie far apart; none conflict.
    Dualcasts,
    /// Moves from one page to pages of their own; none conflict.
    OneSource,
    /// Moves of a page from addresses 8 bytes apart to pages of their own, over some 400,000 cells; none conflict.
    ManyCells,
    /// Fills of one page: each conflicts with all before it.
    Chain,
}

/// The job at a place of a list of so many.
fn job_of(kind: Kind, place: u32, jobs: u32) -> Job
    requires some { 0 < jobs }
    requires most { jobs ≤ 1024 }
    requires place { place < jobs }
{
    let mixed = u64::from(place * 389 % jobs);
    match kind {
        Kind::InOrder => {
            let start = u64::from(place) * 2 * PAGE;
            Job::move_bytes(start, start + PAGE, 4096)
        }
        Kind::Shuffled => Job::move_bytes(mixed * 2 * PAGE, mixed * 2 * PAGE + PAGE, 4096),
        Kind::Dualcasts => Job::dualcast(
            mixed * 64,
            256 * PAGE + mixed * 64,
            512 * PAGE + mixed * 64,
            64,
        ),
        Kind::OneSource => Job::move_bytes(0, PAGE + mixed * PAGE, 4096),
        Kind::ManyCells => Job::move_bytes(mixed * 8, 4 * PAGE + mixed * PAGE, 4096),
        Kind::Chain => Job::fill(u64::from(place), 0, 4096),
    }
}

/// A list of so many jobs, checked.
fn list_of(alloc: Global, kind: Kind, jobs: u32) -> io::Result<Vec<Checked>>
    requires some { 0 < jobs }
    requires most { jobs ≤ 1024 }
{
    let mut list = Vec::new(alloc);
    for place in 0..jobs {
        let Ok(job) = check(&job_of(kind, place, jobs), STAGING) else {
            return Err(io::ErrorKind::InvalidData.into());
        };
        list.push(job)?;
    }
    Ok(list)
}

/// The greatest level of a list, by a call that the compiler keeps; none where memory is wanting.
#[inline(never)]
fn greatest_level(alloc: Global, jobs: &[Checked]) -> Option<u32> {
    if jobs.len() > 1024 {
        return None;
    }
    levels(alloc, jobs).ok()?.iter().copied().max()
}

/// Times the levels of lists of 64 to 1,024 jobs, and the waves of 1,024.
pub(crate) fn time_levels(rt: &HostRuntime, calls: u32) -> io::Result<()>
    requires { 0 < calls }
{
    let rows = [
        ("levels_in_order", Kind::InOrder, 64),
        ("levels_in_order", Kind::InOrder, 1024),
        ("levels_shuffled", Kind::Shuffled, 64),
        ("levels_shuffled", Kind::Shuffled, 128),
        ("levels_shuffled", Kind::Shuffled, 256),
        ("levels_shuffled", Kind::Shuffled, 512),
        ("levels_shuffled", Kind::Shuffled, 1024),
        ("levels_dualcasts", Kind::Dualcasts, 64),
        ("levels_dualcasts", Kind::Dualcasts, 1024),
        ("levels_one_source", Kind::OneSource, 1024),
        ("levels_many_cells", Kind::ManyCells, 1024),
        ("levels_chain", Kind::Chain, 1024),
    ];
    for (name, kind, jobs) in rows {
        time_list(rt, name, kind, jobs, calls)?;
    }
    for (name, kind) in [
        ("waves_in_order", Kind::InOrder),
        ("waves_chain", Kind::Chain),
    ] {
        let list = list_of(rt.alloc(), kind, 1024)?;
        time_cut(rt, name, list.as_slice(), calls)?;
    }
    Ok(())
}

/// How many waves a list has, by a call that the compiler keeps; none where memory is wanting.
#[inline(never)]
fn wave_count(alloc: Global, jobs: &[Checked], levels: &[u32]) -> Option<usize>
    requires few { length jobs.now ≤ 1024 }
    requires needs { All (λ job. need job ≤ 1048576) jobs.now }
    requires levels { levels.now ≡ fenced_levels jobs.now }
{
    Some(waves(alloc, jobs, levels, STAGING, 4096).ok()?.len())
}

/// Times the cut of a list into waves, its levels being known.
fn time_cut(rt: &HostRuntime, name: &str, jobs: &[Checked], calls: u32) -> io::Result<()>
    requires { 0 < calls }
{
    if jobs.len() > 1024 || !jobs.iter().all(|job| need(job.job()) <= 1_048_576) {
        return Err(io::ErrorKind::InvalidData.into());
    }
    let Ok(found) = levels(rt.alloc(), jobs) else {
        return Err(io::ErrorKind::OutOfMemory.into());
    };
    let start = Instant::now(rt)?;
    for _ in 0..calls {
        if wave_count(rt.alloc(), jobs, found.as_slice()).is_none() {
            return Err(io::ErrorKind::OutOfMemory.into());
        }
    }
    let nanoseconds = start.elapsed(rt)?.as_nanos() / u128::from(calls);
    eprintln!(rt; "{name} {} {nanoseconds}", jobs.len())
}

/// Times the levels of one list.
fn time_list(rt: &HostRuntime, name: &str, kind: Kind, jobs: u32, calls: u32) -> io::Result<()>
    requires some { 0 < jobs }
    requires most { jobs ≤ 1024 }
    requires calls { 0 < calls }
{
    let list = list_of(rt.alloc(), kind, jobs)?;
    let start = Instant::now(rt)?;
    for _ in 0..calls {
        if greatest_level(rt.alloc(), list.as_slice()).is_none() {
            return Err(io::ErrorKind::OutOfMemory.into());
        }
    }
    let nanoseconds = start.elapsed(rt)?.as_nanos() / u128::from(calls);
    eprintln!(rt; "{name} {jobs} {nanoseconds}")
}
