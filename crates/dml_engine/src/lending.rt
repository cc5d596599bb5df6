//! Lists and batches over memory that a caller lends, for who has no engine.
ghost use Rattle.std.specs.Prelude.{◌≡◌, ◌↔◌, ◌<◌, ◌≤◌, IfOk, IsErrOf, OnErr, OnOk, length};
ghost use Rattle.dml_types.specs.Limits.{IsValid};
ghost use Rattle.dml_types.specs.Step.{batch, memory_after, records_of};
ghost use Rattle.dml_effect.specs.Pages.{IsWholePages, all_present};

use crate::batches::abandoned;
use crate::engines::EngineOver;
use crate::errors::RunError;
use crate::submitting::MOST_JOBS;
use dml_image::Whole;
use dml_types::{BatchRecord, Job, Record, Settings};
use std::alloc::Global;
use std::sync::Wait;
use std::thread::Threads;

/// Carries out a list of at most 1,024 jobs over the caller's bytes, which are 1 to 2^32 - 1 whole pages from address 0
/// on, all present, and returns their completion records: as `submit_list` of an engine over them does. The bytes are
/// this call's alone until it returns.
///
/// [`are_whole_pages`](dml_effect::are_whole_pages) is the test of the pages.
///
/// # Errors
/// `BadSettings` where a setting is out of its limits, else `TooMany` where there are more jobs, and `NoMemory` where
/// there is no room for the records or the staging arena. Nothing is changed then.
pub fn run_list_over<R: Threads + Wait + Sync>(
    rt: &R,
    alloc: Global,
    content: &mut [u8],
    settings: Settings,
    jobs: &[Job],
) -> Result<Vec<Record>, RunError>
    requires pages { IsWholePages content.old }
    ensures content { OnOk result (content.new ≡ (memory_after (all_present content.old) jobs.now settings.staging).bytes) }
    ensures records { IfOk result (λ records. records.items ≡ records_of (all_present content.old) jobs.now settings.staging) }
    ensures valid { OnOk result (IsValid settings) }
    ensures bad_settings { IsErrOf result RunError.BadSettings ↔ (IsValid settings → ⊥) }
    ensures few { OnOk result (length jobs.now ≤ 1024) }
    ensures too_many { IsErrOf result RunError.TooMany ↔ (IsValid settings) × (1024 < length jobs.now) }
    ensures unchanged { OnErr result (content.new ≡ content.old) }
{
    may_run(&settings, jobs)?;
    let Ok(mut records) = Vec::with_capacity(alloc, jobs.len()) else {
        return Err(RunError::NoMemory);
    };
    let mut whole = Whole::new(content);
    let image = whole.take();
    match EngineOver::of_valid(alloc, image, settings) {
        Ok(mut engine) => {
            engine.submit_into(rt, alloc, jobs, &mut records);
            whole.put(engine.into_image());
            Ok(records)
        }
        Err(image) => {
            whole.put(image);
            Err(RunError::NoMemory)
        }
    }
}

/// Carries out a batch of at most 1,024 jobs over the caller's bytes, which are 1 to 2^32 - 1 whole pages from address
/// 0 on, all present, and returns its own completion record and theirs: as `submit_batch` of an engine over them does.
/// The bytes are this call's alone until it returns.
///
/// # Errors
/// Those of [`run_list_over`]. Nothing is changed then.
pub fn run_batch_over<R: Threads + Wait + Sync>(
    rt: &R,
    alloc: Global,
    content: &mut [u8],
    settings: Settings,
    jobs: &[Job],
) -> Result<(BatchRecord, Vec<Record>), RunError>
    requires pages { IsWholePages content.old }
    ensures content { OnOk result (content.new ≡ (batch (all_present content.old) jobs.now settings.staging).0.bytes) }
    ensures answer { IfOk result (λ done. done.0 ≡ (batch (all_present content.old) jobs.now settings.staging).1) }
    ensures records { IfOk result (λ done. done.1.items ≡ (batch (all_present content.old) jobs.now settings.staging).2) }
    ensures valid { OnOk result (IsValid settings) }
    ensures bad_settings { IsErrOf result RunError.BadSettings ↔ (IsValid settings → ⊥) }
    ensures few { OnOk result (length jobs.now ≤ 1024) }
    ensures too_many { IsErrOf result RunError.TooMany ↔ (IsValid settings) × (1024 < length jobs.now) }
    ensures unchanged { OnErr result (content.new ≡ content.old) }
{
    may_run(&settings, jobs)?;
    let Ok(mut records) = abandoned(alloc, jobs) else {
        return Err(RunError::NoMemory);
    };
    let mut whole = Whole::new(content);
    let image = whole.take();
    match EngineOver::of_valid(alloc, image, settings) {
        Ok(mut engine) => {
            let answer = engine.batch_into(rt, alloc, jobs, records.as_mut_slice());
            whole.put(engine.into_image());
            Ok((answer, records))
        }
        Err(kept) => {
            whole.put(kept);
            Err(RunError::NoMemory)
        }
    }
}

/// Whether jobs may be run with these settings.
fn may_run(settings: &Settings, jobs: &[Job]) -> Result<(), RunError>
    ensures valid { OnOk result (IsValid settings.now) }
    ensures bad_settings { IsErrOf result RunError.BadSettings ↔ (IsValid settings.now → ⊥) }
    ensures few { OnOk result (length jobs.now ≤ 1024) }
    ensures too_many { IsErrOf result RunError.TooMany ↔ (IsValid settings.now) × (1024 < length jobs.now) }
    ensures memory { IsErrOf result RunError.NoMemory → ⊥ }
{
    if !settings.is_valid() {
        return Err(RunError::BadSettings);
    }
    if jobs.len() > MOST_JOBS {
        return Err(RunError::TooMany);
    }
    Ok(())
}
