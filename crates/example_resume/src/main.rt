//! A move over pages that are absent: each page fault brings one, and what is left of the move is submitted.
#![tactic(auto)]

ghost use Rattle.std.specs.Prelude.{◌≡◌};
ghost use Rattle.dml_types.specs.Step as equation;
ghost use Rattle.dml_types.specs.Step.{step};

use dml_desc::rest;
use dml_engine::Engine;
use dml_image::Image;
use dml_types::{Job, Record, Settings};
use std::alloc::Global;
use std::sync::Wait;
use std::thread::Threads;

/// Staging of 64 KiB, tasks of 4 KiB, at most two threads.
const SETTINGS: Settings = Settings {
    staging: 65_536,
    chunk: 4096,
    workers: 2,
};

/// Submits a job, and answers its record and what is left of it after a page fault.
fn submitted<T: Threads + Wait + Sync>(
    rt: &T,
    alloc: Global,
    engine: &mut Engine,
    job: Job,
) -> (Record, Option<Job>)
    ensures answer { result.0 ≡ (step engine.old.image job engine.old.settings.staging).1 }
    ensures left { result.1 ≡ equation.rest job result.0 }
{
    let record = engine.submit(rt, alloc, job);
    (record, rest(&job, &record))
}

fn main(rt: HostRuntime) -> anyhow::Result<()> {
    let alloc = rt.alloc();
    let image = Image::new(alloc, 4)?;
    let mut engine = Engine::new(alloc, image, SETTINGS).map_err(|(_, error)| error)?;

    // Each turn but the last brings a page, so five are enough.
    let mut next = Some(Job::move_bytes(100, 8292, 6000));
    for _ in 0..5 {
        let Some(job) = next else { break };
        let (record, left) = submitted(&rt, alloc, &mut engine, job);
        let (code, done, fault) = (record.status.code(), record.completed, record.fault);
        println!(rt; "status {code:02x} completed {done} fault {fault}")?;
        if left.is_some() {
            let page = u32::try_from(fault / 4096)?;
            engine.bring(page, &[0x61; 4096])?; // as a pager would, from its file
            println!(rt; "brought page {page}")?;
        }
        next = left;
    }
    Ok(())
}
