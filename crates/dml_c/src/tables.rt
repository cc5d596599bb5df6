//! Jobs over regions of the caller's memory, in tables.
ghost use Rattle.std.specs.Prelude.{◌≡◌, ◌≢◌, ◌↔◌, ◌^◌, ◌<◌, ◌≤◌, ◌⊎◌, None, IfSome, IsSome, length, map};
ghost use Rattle.dml_types.specs.Step.{batch, memory_after, records_of, step};
ghost use Rattle.dml_desc.specs.Descriptor.{bytes_of_batch, bytes_of_record, decoded};
ghost use Rattle.dml_c.specs.Regions as table;

use crate::codes::{DONE, NO_ENGINE, NO_MEMORY, NOT_AS_MANY, TOO_MANY_JOBS};
use crate::handles::CEngine;
use crate::regions::{CRegion, judged};
use std::alloc::Global;

/// Carries out the job of a descriptor over the regions of a table, and writes its completion record. A page in none of
/// the regions is absent.
#[unsafe(no_mangle)]
pub extern "C" fn kazovuni_submit_at(
    alloc: Global,
    engine: &mut CEngine,
    regions: &mut [CRegion<'_>],
    descriptor: &[u8; 64],
    answer: &mut [u8; 32],
) -> u8
    ensures codes { (result ≡ 0) ⊎ (result ≡ 2) ⊎ (result ≡ 4) ⊎ ((12 ≤ result) × (result ≤ 17)) }
    ensures no_engine { (result ≡ 4) ↔ (engine.old.handle.state ≡ None) }
    ensures fault { IsSome engine.old.handle.state → (result ≡ table.table_fault regions.old)
        ⊎ ((result ≡ 2) × (table.table_fault regions.old ≡ 0)) }
    ensures engine { engine.new.handle.state ≡ engine.old.handle.state }
    ensures memory { IfSome engine.old.handle.state (λ s. result ≡ 0 → table.memory_of_regions regions.new
        ≡ (step (table.memory_of_regions regions.old) (decoded descriptor.now) s.staging).0) }
    ensures record { IfSome engine.old.handle.state (λ s. result ≡ 0 → answer.new
        ≡ bytes_of_record (step (table.memory_of_regions regions.old) (decoded descriptor.now) s.staging).1) }
    ensures addresses { table.addresses_of regions.new ≡ table.addresses_of regions.old }
    ensures unchanged { result ≢ 0 → (regions.new ≡ regions.old) × (answer.new ≡ answer.old) }
{
    if !engine.is_open() {
        return NO_ENGINE;
    }
    let code = judged(regions);
    if code != DONE {
        return code;
    }
    let Some(mut inner) = engine.take(alloc) else {
        return NO_ENGINE;
    };
    let code = match inner.submit_at(alloc, regions, descriptor) {
        Some(outcome) => {
            *answer = dml_desc::record_bytes(&outcome);
            DONE
        }
        None => NO_MEMORY,
    };
    engine.put(inner);
    code
}

/// Carries out the jobs of some descriptors one after another over the regions of a table, and writes the completion
/// record of each.
#[unsafe(no_mangle)]
pub extern "C" fn kazovuni_submit_list_at(
    alloc: Global,
    engine: &mut CEngine,
    regions: &mut [CRegion<'_>],
    descriptors: &[[u8; 64]],
    answers: &mut [[u8; 32]],
) -> u8
    ensures codes { (result ≡ 0) ⊎ ((2 ≤ result) × (result ≤ 4)) ⊎ ((12 ≤ result) × (result ≤ 17)) }
    ensures no_engine { (result ≡ 4) ↔ (engine.old.handle.state ≡ None) }
    ensures fault { IsSome engine.old.handle.state → (result ≡ table.table_fault regions.old)
        ⊎ ((table.table_fault regions.old ≡ 0) × ((2 ≤ result) × (result ≤ 3))) }
    ensures not_as_many { IsSome engine.old.handle.state → table.table_fault regions.old ≡ 0
        → ((result ≢ 3) ↔ (length answers.old ≡ length descriptors.now)) }
    ensures engine { engine.new.handle.state ≡ engine.old.handle.state }
    ensures memory { IfSome engine.old.handle.state (λ s. result ≡ 0 → table.memory_of_regions regions.new
        ≡ memory_after (table.memory_of_regions regions.old) (map decoded descriptors.now) s.staging) }
    ensures records { IfSome engine.old.handle.state (λ s. result ≡ 0 → answers.new ≡ map bytes_of_record
        (records_of (table.memory_of_regions regions.old) (map decoded descriptors.now) s.staging)) }
    ensures addresses { table.addresses_of regions.new ≡ table.addresses_of regions.old }
    ensures unchanged { result ≢ 0 → (regions.new ≡ regions.old) × (answers.new ≡ answers.old) }
{
    if !engine.is_open() {
        return NO_ENGINE;
    }
    let code = judged(regions);
    if code != DONE {
        return code;
    }
    if descriptors.len() != answers.len() {
        return NOT_AS_MANY;
    }
    let Some(mut inner) = engine.take(alloc) else {
        return NO_ENGINE;
    };
    let code = if inner.submit_all_at(alloc, regions, descriptors, answers) {
        DONE
    } else {
        NO_MEMORY
    };
    engine.put(inner);
    code
}

/// Carries out the jobs of some descriptors as a batch over the regions of a table, and writes the completion record of
/// each and the batch's own.
#[unsafe(no_mangle)]
pub extern "C" fn kazovuni_submit_batch_at(
    alloc: Global,
    engine: &mut CEngine,
    regions: &mut [CRegion<'_>],
    descriptors: &[[u8; 64]],
    answers: &mut [[u8; 32]],
    answer: &mut [u8; 32],
) -> u8
    ensures codes { (result ≡ 0) ⊎ ((2 ≤ result) × (result ≤ 4)) ⊎ ((12 ≤ result) × (result ≤ 18)) }
    ensures no_engine { (result ≡ 4) ↔ (engine.old.handle.state ≡ None) }
    ensures fault { IsSome engine.old.handle.state → (result ≡ table.table_fault regions.old)
        ⊎ ((table.table_fault regions.old ≡ 0) × (((2 ≤ result) × (result ≤ 3)) ⊎ (result ≡ 18))) }
    ensures not_as_many { IsSome engine.old.handle.state → table.table_fault regions.old ≡ 0
        → ((result ≢ 3) ↔ (length answers.old ≡ length descriptors.now)) }
    ensures too_many { result ≡ 18 → 2 ^ 32 ≤ length descriptors.now }
    ensures few { (result ≡ 0) ⊎ (result ≡ 2) → length descriptors.now < 2 ^ 32 }
    ensures engine { engine.new.handle.state ≡ engine.old.handle.state }
    ensures memory { IfSome engine.old.handle.state (λ s. result ≡ 0 → table.memory_of_regions regions.new
        ≡ (batch (table.memory_of_regions regions.old) (map decoded descriptors.now) s.staging).0) }
    ensures records { IfSome engine.old.handle.state (λ s. result ≡ 0 → answers.new ≡ map bytes_of_record
        (batch (table.memory_of_regions regions.old) (map decoded descriptors.now) s.staging).2) }
    ensures answer { IfSome engine.old.handle.state (λ s. result ≡ 0 → answer.new ≡ bytes_of_batch
        (batch (table.memory_of_regions regions.old) (map decoded descriptors.now) s.staging).1) }
    ensures addresses { table.addresses_of regions.new ≡ table.addresses_of regions.old }
    ensures unchanged { result ≢ 0 → (regions.new ≡ regions.old) × (answers.new ≡ answers.old)
        × (answer.new ≡ answer.old) }
{
    if !engine.is_open() {
        return NO_ENGINE;
    }
    let code = judged(regions);
    if code != DONE {
        return code;
    }
    if descriptors.len() != answers.len() {
        return NOT_AS_MANY;
    }
    if u32::try_from(descriptors.len()).is_err() {
        return TOO_MANY_JOBS;
    }
    let Some(mut inner) = engine.take(alloc) else {
        return NO_ENGINE;
    };
    let code = match inner.submit_batch_at(alloc, regions, descriptors, answers) {
        Some(outcome) => {
            *answer = dml_desc::batch_bytes(&outcome);
            DONE
        }
        None => NO_MEMORY,
    };
    engine.put(inner);
    code
}
