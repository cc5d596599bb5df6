//! The jobs of a script as one batch, whose waves all go to the workers of an engine.

use crate::Script;
use crate::layouts::{Place, are_alike, lent_image, own_image};
use anyhow::ensure;
use dml_engine::EngineOver;
use dml_image::Image;
use dml_pool::Free;
use dml_types::{Job, Settings};
use std::alloc::Global;
use std::sync::Wait;
use std::thread::Threads;

/// Settings that another batch has otherwise: tasks of 8 bytes to 64 KiB, and one to four workers.
fn settings_of(script: Script) -> Settings {
    let batch = script.number / 4;
    Settings {
        staging: 65_536,
        chunk: [8, 64, 4096, 65_536][(batch % 4) as usize],
        workers: 1 + batch / 4 % 4,
    }
}

/// An engine that hands each task to its workers.
fn engine_over<'a>(
    alloc: Global,
    script: Script,
    image: Image<'a>,
) -> anyhow::Result<EngineOver<'a>> {
    let engine = EngineOver::new(alloc, image, settings_of(script)).map_err(|(_, error)| error)?;
    Ok(engine.with_gate(Free))
}

/// Carries out a script's jobs as a batch over both memories: the records have to be the same, and the bytes that are
/// left.
pub(crate) fn compare_batch<R: Threads + Wait + Sync>(
    rt: &R,
    alloc: Global,
    script: Script,
    places: &[Place],
    content: &mut [u8],
    jobs: &[Job],
) -> anyhow::Result<()> {
    let mut own = engine_over(alloc, script, own_image(alloc, places, content)?)?;
    let mut lent = engine_over(alloc, script, lent_image(alloc, places, content)?)?;
    let (answer, records) = own.submit_batch(rt, alloc, jobs)?;
    let (other, others) = lent.submit_batch(rt, alloc, jobs)?;
    ensure!(
        answer == other && records.as_slice() == others.as_slice(),
        "{script:?} as a batch answers {answer:?}, {records:?}, and over segments {other:?}, {others:?}"
    );
    ensure!(
        are_alike(own.image(), lent.image()),
        "{script:?} as a batch leaves other bytes over segments"
    );
    Ok(())
}
