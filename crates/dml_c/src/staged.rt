//! Jobs over the caller's own pages, with the staging of an engine.
ghost use Rattle.std.specs.Prelude.{◌≡◌, ◌≢◌, ◌↔◌, ◌^◌, ◌<◌, ◌≤◌, ◌⊎◌, None, Some, IfSome, IsSome, length, map};
ghost use Rattle.dml_types.specs.Step.{batch, memory_after, records_of, step};
ghost use Rattle.dml_desc.specs.Descriptor.{bytes_of_batch, bytes_of_record, decoded};
ghost use Rattle.dml_effect.specs.Pages.{IsWholePages, all_present};
ghost use Rattle.dml_c.specs.State.{opened};

use crate::codes::{DONE, NO_ENGINE, NOT_AS_MANY, NOT_PAGES, TOO_MANY_JOBS};
use crate::handles::CEngine;
use crate::holding::kazovuni_create;
use dml_effect::are_whole_pages;
use std::alloc::Global;

/// Makes an engine for its staging alone: its image is one absent page.
#[unsafe(no_mangle)]
pub extern "C" fn kazovuni_create_staging(alloc: Global, engine: &mut CEngine, staging: u32) -> u8
    ensures codes { (result ≡ 0) ⊎ (result ≡ 2) ⊎ (result ≡ 5) ⊎ (result ≡ 7) }
    ensures has_engine { (result ≡ 5) ↔ IsSome engine.old.handle.state }
    ensures bad_settings { engine.old.handle.state ≡ None → ((result ≡ 7) ↔ (16777216 < staging)) }
    ensures made { result ≡ 0 → engine.new.handle.state ≡ Some (opened 1 staging) }
    ensures unchanged { result ≢ 0 → engine.new.handle.state ≡ engine.old.handle.state }
{
    kazovuni_create(alloc, engine, 1, staging)
}

/// Carries out the job of a descriptor over the caller's bytes in one piece, whose addresses begin at 0 and whose pages
/// are all present, with the staging of an engine, and writes its completion record.
#[unsafe(no_mangle)]
pub extern "C" fn kazovuni_submit_in(
    alloc: Global,
    engine: &mut CEngine,
    bytes: &mut [u8],
    descriptor: &[u8; 64],
    answer: &mut [u8; 32],
) -> u8
    ensures codes { (result ≡ 0) ⊎ (result ≡ 1) ⊎ (result ≡ 4) }
    ensures no_engine { (result ≡ 4) ↔ (engine.old.handle.state ≡ None) }
    ensures not_pages { IsSome engine.old.handle.state → ((result ≢ 1) ↔ IsWholePages bytes.old) }
    ensures engine { engine.new.handle.state ≡ engine.old.handle.state }
    ensures content { IfSome engine.old.handle.state (λ s. result ≡ 0 → bytes.new
        ≡ (step (all_present bytes.old) (decoded descriptor.now) s.staging).0.bytes) }
    ensures record { IfSome engine.old.handle.state (λ s. result ≡ 0 → answer.new
        ≡ bytes_of_record (step (all_present bytes.old) (decoded descriptor.now) s.staging).1) }
    ensures unchanged { result ≢ 0 → (bytes.new ≡ bytes.old) × (answer.new ≡ answer.old) }
{
    if !engine.is_open() {
        return NO_ENGINE;
    }
    if !are_whole_pages(bytes) {
        return NOT_PAGES;
    }
    let Some(mut inner) = engine.take(alloc) else {
        return NO_ENGINE;
    };
    *answer = dml_desc::record_bytes(&inner.submit_over(bytes, descriptor));
    engine.put(inner);
    DONE
}

/// Carries out the jobs of some descriptors one after another, over the same and with the same staging, and writes the
/// completion record of each.
#[unsafe(no_mangle)]
pub extern "C" fn kazovuni_submit_list_in(
    alloc: Global,
    engine: &mut CEngine,
    bytes: &mut [u8],
    descriptors: &[[u8; 64]],
    answers: &mut [[u8; 32]],
) -> u8
    ensures codes { (result ≡ 0) ⊎ (result ≡ 1) ⊎ (result ≡ 3) ⊎ (result ≡ 4) }
    ensures no_engine { (result ≡ 4) ↔ (engine.old.handle.state ≡ None) }
    ensures not_pages { IsSome engine.old.handle.state → ((result ≢ 1) ↔ IsWholePages bytes.old) }
    ensures not_as_many { IsSome engine.old.handle.state → IsWholePages bytes.old
        → ((result ≢ 3) ↔ (length answers.old ≡ length descriptors.now)) }
    ensures engine { engine.new.handle.state ≡ engine.old.handle.state }
    ensures content { IfSome engine.old.handle.state (λ s. result ≡ 0 → bytes.new
        ≡ (memory_after (all_present bytes.old) (map decoded descriptors.now) s.staging).bytes) }
    ensures records { IfSome engine.old.handle.state (λ s. result ≡ 0 → answers.new
        ≡ map bytes_of_record (records_of (all_present bytes.old) (map decoded descriptors.now) s.staging)) }
    ensures unchanged { result ≢ 0 → (bytes.new ≡ bytes.old) × (answers.new ≡ answers.old) }
{
    if !engine.is_open() {
        return NO_ENGINE;
    }
    if !are_whole_pages(bytes) {
        return NOT_PAGES;
    }
    if descriptors.len() != answers.len() {
        return NOT_AS_MANY;
    }
    let Some(mut inner) = engine.take(alloc) else {
        return NO_ENGINE;
    };
    inner.submit_all_over(bytes, descriptors, answers);
    engine.put(inner);
    DONE
}

/// Carries out the jobs of some descriptors as a batch, over the same and with the same staging, and writes the
/// completion record of each and the batch's own.
#[unsafe(no_mangle)]
pub extern "C" fn kazovuni_submit_batch_in(
    alloc: Global,
    engine: &mut CEngine,
    bytes: &mut [u8],
    descriptors: &[[u8; 64]],
    answers: &mut [[u8; 32]],
    answer: &mut [u8; 32],
) -> u8
    ensures codes { (result ≡ 0) ⊎ (result ≡ 1) ⊎ (result ≡ 3) ⊎ (result ≡ 4) ⊎ (result ≡ 18) }
    ensures no_engine { (result ≡ 4) ↔ (engine.old.handle.state ≡ None) }
    ensures not_pages { IsSome engine.old.handle.state → ((result ≢ 1) ↔ IsWholePages bytes.old) }
    ensures not_as_many { IsSome engine.old.handle.state → IsWholePages bytes.old
        → ((result ≢ 3) ↔ (length answers.old ≡ length descriptors.now)) }
    ensures too_many { result ≡ 18 → 2 ^ 32 ≤ length descriptors.now }
    ensures few { result ≡ 0 → length descriptors.now < 2 ^ 32 }
    ensures engine { engine.new.handle.state ≡ engine.old.handle.state }
    ensures content { IfSome engine.old.handle.state (λ s. result ≡ 0 → bytes.new
        ≡ (batch (all_present bytes.old) (map decoded descriptors.now) s.staging).0.bytes) }
    ensures records { IfSome engine.old.handle.state (λ s. result ≡ 0 → answers.new
        ≡ map bytes_of_record (batch (all_present bytes.old) (map decoded descriptors.now) s.staging).2) }
    ensures answer { IfSome engine.old.handle.state (λ s. result ≡ 0 → answer.new
        ≡ bytes_of_batch (batch (all_present bytes.old) (map decoded descriptors.now) s.staging).1) }
    ensures unchanged { result ≢ 0 → (bytes.new ≡ bytes.old) × (answers.new ≡ answers.old)
        × (answer.new ≡ answer.old) }
{
    if !engine.is_open() {
        return NO_ENGINE;
    }
    if !are_whole_pages(bytes) {
        return NOT_PAGES;
    }
    if descriptors.len() != answers.len() {
        return NOT_AS_MANY;
    }
    if u32::try_from(descriptors.len()).is_err() {
        return TOO_MANY_JOBS;
    }
    let Some(mut inner) = engine.take(alloc) else {
        return NO_ENGINE;
    };
    *answer = dml_desc::batch_bytes(&inner.submit_batch_over(bytes, descriptors, answers));
    engine.put(inner);
    DONE
}
