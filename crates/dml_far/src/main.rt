//! Jobs on both sides of a line in memory that this program lends in one piece: by a list, by a batch with a fence, and
//! by a portal whose engine hands each task to its workers. It prints the records and the bytes that the jobs leave.
//!
//! Its word is the page at which the line lies, 16 without one. `tests/far.sh` has it at 4 GiB, and that much memory.
#![tactic(auto)]

ghost use Rattle.std.specs.Prelude.{◌≤◌, ◌^◌};

use anyhow::ensure;
use dml_effect::are_whole_pages;
use dml_engine::{EngineOver, run_batch_over, run_list_over};
use dml_image::Whole;
use dml_pool::Free;
use dml_portal::Portal;
use dml_types::{Job, Record, Settings, Status};
use std::alloc::Global;
use std::env;
use std::sync::Wait;
use std::thread::Threads;

/// Staging of 64 KiB, and tasks of as much, on two workers.
const SETTINGS: Settings = Settings {
    staging: 65_536,
    chunk: 65_536,
    workers: 2,
};

/// The bytes behind the line.
const BEHIND: usize = 65_536;

/// A fill over the line, a move of what it wrote to the front, and a compare of both; a create of how bytes at the line
/// differ from zeros, and an apply of that to zeros at the front; and a fill past the end.
fn jobs_at(line: u64) -> [Job; 6]
    requires least { 4096 ≤ line }
    requires most { line ≤ 2 ^ 44 }
{
    [
        Job::fill(0x0807_0605_0403_0201, line - 4, 16),
        Job::move_bytes(line - 4, 64, 16),
        Job::compare(line - 4, 64, 16),
        Job::create_delta(128, line - 8, 24, line + 4096, 80),
        Job::apply_delta(line + 4096, 30, 128, 24),
        Job::fill(0xff, line + 65_528, 16),
    ]
}

/// The records of the jobs as a list.
fn by_list<R: Threads + Wait + Sync>(
    rt: &R,
    alloc: Global,
    memory: &mut [u8],
    jobs: &[Job],
) -> anyhow::Result<Vec<Record>> {
    ensure!(are_whole_pages(memory), "these are no whole pages");
    Ok(run_list_over(rt, alloc, memory, SETTINGS, jobs)?)
}

/// The same of a batch, whose third job waits for those before it.
fn by_batch<R: Threads + Wait + Sync>(
    rt: &R,
    alloc: Global,
    memory: &mut [u8],
    jobs: &[Job; 6],
) -> anyhow::Result<Vec<Record>> {
    let mut fenced = *jobs;
    fenced[2] = fenced[2].with_flags(0x01);
    ensure!(are_whole_pages(memory), "these are no whole pages");
    let (own, records) = run_batch_over(rt, alloc, memory, SETTINGS, &fenced)?;
    ensure!(
        own.status == Status::BatchFailed && own.completed == 6,
        "the batch answers {own:?}"
    );
    Ok(records)
}

/// The same of a portal's client.
fn by_portal<R: Threads + Wait + Sync>(
    rt: &R,
    alloc: Global,
    memory: &mut [u8],
    jobs: &[Job],
) -> anyhow::Result<Vec<Record>> {
    let mut whole = Whole::new(memory);
    ensure!(whole.is_memory(), "these are no whole pages");
    let engine = EngineOver::new(alloc, whole.take(), SETTINGS).map_err(|(_, error)| error)?;
    let engine = engine.with_gate(Free);
    let (mut server, mut seats) = Portal::open(alloc, engine, 1, 8).map_err(|(_, error)| error)?;
    let mut records = Vec::new(alloc);
    for seat in seats.iter_mut() {
        for job in jobs {
            seat.try_submit(*job)?;
        }
        server.serve_round(rt, alloc)?;
        for _ in jobs {
            if let Some(record) = seat.poll() {
                records.push(record)?;
            }
        }
    }
    Ok(records)
}

/// The 32 bytes from a place on, as far as they are there.
fn part(memory: &[u8], place: usize) -> &[u8] {
    let from = place.min(memory.len());
    let count = (memory.len() - from).min(32);
    &memory[from..from + count]
}

/// Prints the records of the jobs, and the bytes where they write.
fn show(rt: &HostRuntime, records: &[Record], memory: &[u8], line: usize) -> anyhow::Result<()>
    requires least { 4096 ≤ line }
    requires most { line ≤ 2 ^ 44 }
{
    for record in records {
        println!(rt; "{record:?}")?;
    }
    for place in [56, 120, line - 16, line + 4096, line + 65_504] {
        println!(rt; "{place}: {:?}", part(memory, place))?;
    }
    Ok(())
}

/// The bytes where the jobs write are 0 again.
fn clear(memory: &mut [u8], line: usize)
    requires { 4096 ≤ line }
{
    let all = memory.len();
    memory[..all.min(4096)].fill(0);
    memory[all.min(line - 4096)..].fill(0);
}

/// The page that the first word names, or the one without a word.
fn page(rt: &HostRuntime) -> anyhow::Result<u32> {
    match env::args(rt)?.nth(1) {
        None => Ok(16),
        Some(word) => Ok(word.parse::<u32>()?),
    }
}

fn main(rt: HostRuntime) -> anyhow::Result<()> {
    let page = page(&rt)?;
    ensure!(page > 0, "the line is the memory's front");
    let line = 4096 * page as usize;
    let jobs = jobs_at(line as u64);
    let mut memory = vec![in rt.alloc(); 0_u8; line + BEHIND]?;
    println!(rt; "a list:")?;
    let records = by_list(&rt, rt.alloc(), &mut memory, &jobs)?;
    show(&rt, &records, &memory, line)?;
    clear(&mut memory, line);
    println!(rt; "a batch:")?;
    let records = by_batch(&rt, rt.alloc(), &mut memory, &jobs)?;
    show(&rt, &records, &memory, line)?;
    clear(&mut memory, line);
    println!(rt; "a portal:")?;
    let records = by_portal(&rt, rt.alloc(), &mut memory, &jobs)?;
    show(&rt, &records, &memory, line)?;
    Ok(())
}
