//! A database's pool, its replica and room for delta records, in one piece of memory that this program lends to lists
//! of jobs: they find what changed in the pool, and bring the replica to the same bytes.
#![tactic(auto)]

mod pool;

ghost use Rattle.std.specs.Prelude.{◌≡◌, OnOk};
ghost use Rattle.dml_types.specs.Step.{memory_after};
ghost use Rattle.dml_effect.specs.Pages.{all_present};

use anyhow::ensure;
use dml_effect::are_whole_pages;
use dml_engine::run_list_over;
use dml_types::{Job, Record};
use pool::{SETTINGS, change, compares, count, creates, delta_bytes, repairs};
use std::alloc::Global;
use std::sync::Wait;
use std::thread::Threads;

/// Carries a list out over the memory, on workers where they pay. Each of its jobs is to succeed.
fn carried_out<R: Threads + Wait + Sync>(
    rt: &R,
    alloc: Global,
    memory: &mut [u8],
    jobs: &[Job],
) -> anyhow::Result<Vec<Record>>
    ensures { OnOk result (memory.new ≡ (memory_after (all_present memory.old) jobs.now 16777216).bytes) }
{
    ensure!(are_whole_pages(memory), "these are no whole pages");
    let records = run_list_over(rt, alloc, memory, SETTINGS, jobs)?;
    ensure!(
        records.iter().all(|answer| answer.is_success()),
        "a job failed"
    );
    Ok(records)
}

fn main(rt: HostRuntime) -> anyhow::Result<()> {
    let alloc = rt.alloc();
    // The pool, its replica and the records; all of it is 0, so the replica is the pool at first.
    let mut memory = vec![in alloc; 0_u8; 129 * 1_048_576]?;
    change(&mut memory);

    let creates = creates(alloc)?;
    let found = carried_out(&rt, alloc, &mut memory, &creates)?;
    let (equal, deltas, whole) = (count(&found, 0), count(&found, 1), count(&found, 2));
    let repairs = repairs(alloc, &creates, &found)?;
    let bytes = delta_bytes(&repairs);
    println!(rt;
        "{equal} pages are equal, {deltas} deltas have {bytes} bytes, {whole} page is moved whole"
    )?;
    carried_out(&rt, alloc, &mut memory, &repairs)?;

    let same = carried_out(&rt, alloc, &mut memory, &compares(alloc, &creates)?)?;
    let pages = same.len();
    println!(rt; "the replica is the pool again: {pages} pages are equal")?;
    Ok(())
}
