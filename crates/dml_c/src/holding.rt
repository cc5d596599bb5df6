//! Jobs over an image of the library's own, behind a handle.
ghost use Rattle.std.specs.Prelude.{◌≡◌, ◌≢◌, ◌↔◌, ◌^◌, ◌+◌, ◌<◌, ◌≤◌, ◌⊎◌, None, Some, IfSome, IsSome, IsTrue, false};
ghost use Rattle.std.specs.Prelude.{length, map, option_map};
ghost use Rattle.dml_types.specs.Memory.{bytes_at, has_all, put};
ghost use Rattle.dml_desc.specs.Descriptor.{decoded};
ghost use Rattle.dml_image.specs.Brought.{brought, has_page};
ghost use Rattle.dml_c.specs.State.{answered, answered_all, opened, submitted, submitted_all, with_image};
ghost use Rattle.dml_c.specs.State.{batch_answered, batch_records, batched};

use crate::codes::{
    ABSENT, BAD_PAGES, BAD_SETTINGS, DONE, HAS_ENGINE, NO_ENGINE, NO_MEMORY, NO_SUCH_PAGE,
    NOT_AS_MANY, TOO_MANY_JOBS,
};
use crate::engines::Engine;
use crate::handles::CEngine;
use dml_image::{ImageError, MAX_PAGES};
use std::alloc::Global;

/// The most bytes of staging.
const MOST_STAGING: u32 = 16_777_216;

/// Makes an engine of so many pages, all absent, with so many bytes of staging.
#[unsafe(no_mangle)]
pub extern "C" fn kazovuni_create(
    alloc: Global,
    engine: &mut CEngine,
    pages: u32,
    staging: u32,
) -> u8
    ensures codes { (result ≡ 0) ⊎ (result ≡ 2) ⊎ ((5 ≤ result) × (result ≤ 7)) }
    ensures has_engine { (result ≡ 5) ↔ IsSome engine.old.handle.state }
    ensures bad_pages { engine.old.handle.state ≡ None → ((result ≡ 6) ↔ ((pages < 1) ⊎ (4096 < pages))) }
    ensures bad_settings { engine.old.handle.state ≡ None → 1 ≤ pages → pages ≤ 4096
        → ((result ≡ 7) ↔ (16777216 < staging)) }
    ensures made { result ≡ 0 → engine.new.handle.state ≡ Some (opened pages staging) }
    ensures unchanged { result ≢ 0 → engine.new.handle.state ≡ engine.old.handle.state }
{
    if engine.is_open() {
        return HAS_ENGINE;
    }
    if pages < 1 || pages > MAX_PAGES {
        return BAD_PAGES;
    }
    if staging > MOST_STAGING {
        return BAD_SETTINGS;
    }
    let Ok(made) = Engine::new(alloc, pages, staging) else {
        return NO_MEMORY;
    };
    engine.put(made);
    DONE
}

/// Frees the engine, where there is one, and leaves the handle as a zeroed one.
#[unsafe(no_mangle)]
pub extern "C" fn kazovuni_free(alloc: Global, engine: &mut CEngine)
    ensures { engine.new.handle.state ≡ None }
{
    engine.close(alloc);
}

/// Makes a page present with these bytes; a page that is present is overwritten, and needs no memory.
#[unsafe(no_mangle)]
pub extern "C" fn kazovuni_bring(
    alloc: Global,
    engine: &mut CEngine,
    page: u32,
    bytes: &[u8; 4096],
) -> u8
    ensures codes { (result ≡ 0) ⊎ (result ≡ 2) ⊎ (result ≡ 4) ⊎ (result ≡ 8) }
    ensures no_engine { (result ≡ 4) ↔ (engine.old.handle.state ≡ None) }
    ensures no_such_page { IfSome engine.old.handle.state (λ s. (result ≡ 8) ↔ (length s.image.present ≤ page)) }
    ensures again { IfSome engine.old.handle.state (λ s. IsTrue (has_page s.image page) → result ≡ 0) }
    ensures brought { result ≡ 0 → engine.new.handle.state
        ≡ option_map (λ s. with_image s (brought s.image page bytes.now)) engine.old.handle.state }
    ensures unchanged { result ≢ 0 → engine.new.handle.state ≡ engine.old.handle.state }
{
    let Some(mut inner) = engine.take(alloc) else {
        return NO_ENGINE;
    };
    let code = match inner.bring(page, bytes) {
        Ok(()) => DONE,
        Err(ImageError::NoSuchPage) => NO_SUCH_PAGE,
        Err(_) => NO_MEMORY,
    };
    engine.put(inner);
    code
}

/// Writes bytes into the image, from an address on.
#[unsafe(no_mangle)]
pub extern "C" fn kazovuni_write(
    alloc: Global,
    engine: &mut CEngine,
    address: u64,
    bytes: &[u8],
) -> u8
    ensures codes { (result ≡ 0) ⊎ (result ≡ 4) ⊎ (result ≡ 9) }
    ensures no_engine { (result ≡ 4) ↔ (engine.old.handle.state ≡ None) }
    ensures absent { IfSome engine.old.handle.state
        (λ s. (result ≡ 9) ↔ (has_all s.image address (length bytes.now) ≡ false)) }
    ensures written { result ≡ 0 → engine.new.handle.state
        ≡ option_map (λ s. with_image s (put s.image address bytes.now)) engine.old.handle.state }
    ensures unchanged { result ≢ 0 → engine.new.handle.state ≡ engine.old.handle.state }
{
    let Some(mut inner) = engine.take(alloc) else {
        return NO_ENGINE;
    };
    let code = if inner.write(address, bytes) {
        DONE
    } else {
        ABSENT
    };
    engine.put(inner);
    code
}

/// Reads bytes of the image, from an address on.
#[unsafe(no_mangle)]
pub extern "C" fn kazovuni_read(
    alloc: Global,
    engine: &mut CEngine,
    address: u64,
    bytes: &mut [u8],
) -> u8
    ensures codes { (result ≡ 0) ⊎ (result ≡ 4) ⊎ (result ≡ 9) }
    ensures no_engine { (result ≡ 4) ↔ (engine.old.handle.state ≡ None) }
    ensures absent { IfSome engine.old.handle.state
        (λ s. (result ≡ 9) ↔ (has_all s.image address (length bytes.old) ≡ false)) }
    ensures read { IfSome engine.old.handle.state
        (λ s. result ≡ 0 → bytes.new ≡ bytes_at s.image address (length bytes.old)) }
    ensures unread { result ≢ 0 → bytes.new ≡ bytes.old }
    ensures unchanged { engine.new.handle.state ≡ engine.old.handle.state }
{
    let Some(inner) = engine.take(alloc) else {
        return NO_ENGINE;
    };
    let code = if inner.read(address, bytes) {
        DONE
    } else {
        ABSENT
    };
    engine.put(inner);
    code
}

/// Carries out the job of a descriptor on the image, and writes its completion record.
#[unsafe(no_mangle)]
pub extern "C" fn kazovuni_submit(
    alloc: Global,
    engine: &mut CEngine,
    descriptor: &[u8; 64],
    answer: &mut [u8; 32],
) -> u8
    ensures codes { (result ≡ 0) ⊎ (result ≡ 4) }
    ensures no_engine { (result ≡ 4) ↔ (engine.old.handle.state ≡ None) }
    ensures image { engine.new.handle.state ≡ submitted engine.old.handle.state (decoded descriptor.now) }
    ensures record { answer.new ≡ answered engine.old.handle.state (decoded descriptor.now) answer.old }
{
    let Some(mut inner) = engine.take(alloc) else {
        return NO_ENGINE;
    };
    *answer = dml_desc::record_bytes(&inner.submit(descriptor));
    engine.put(inner);
    DONE
}

/// Carries out the jobs of some descriptors one after another on the image, and writes the completion record of each.
#[unsafe(no_mangle)]
pub extern "C" fn kazovuni_submit_list(
    alloc: Global,
    engine: &mut CEngine,
    descriptors: &[[u8; 64]],
    answers: &mut [[u8; 32]],
) -> u8
    ensures codes { (result ≡ 0) ⊎ (result ≡ 3) ⊎ (result ≡ 4) }
    ensures no_engine { (result ≡ 4) ↔ (engine.old.handle.state ≡ None) }
    ensures not_as_many { IsSome engine.old.handle.state
        → ((result ≢ 3) ↔ (length answers.old ≡ length descriptors.now)) }
    ensures image { result ≡ 0 → engine.new.handle.state
        ≡ submitted_all engine.old.handle.state (map decoded descriptors.now) }
    ensures records { result ≡ 0 → answers.new
        ≡ answered_all engine.old.handle.state (map decoded descriptors.now) answers.old }
    ensures unchanged { result ≢ 0 → (engine.new.handle.state ≡ engine.old.handle.state) × (answers.new ≡ answers.old) }
{
    if !engine.is_open() {
        return NO_ENGINE;
    }
    if descriptors.len() != answers.len() {
        return NOT_AS_MANY;
    }
    let Some(mut inner) = engine.take(alloc) else {
        return NO_ENGINE;
    };
    inner.submit_all(descriptors, answers);
    engine.put(inner);
    DONE
}

/// Carries out the jobs of some descriptors as a batch on the image, and writes the completion record of each and the
/// batch's own.
#[unsafe(no_mangle)]
pub extern "C" fn kazovuni_submit_batch(
    alloc: Global,
    engine: &mut CEngine,
    descriptors: &[[u8; 64]],
    answers: &mut [[u8; 32]],
    answer: &mut [u8; 32],
) -> u8
    ensures codes { (result ≡ 0) ⊎ (result ≡ 3) ⊎ (result ≡ 4) ⊎ (result ≡ 18) }
    ensures no_engine { (result ≡ 4) ↔ (engine.old.handle.state ≡ None) }
    ensures not_as_many { IsSome engine.old.handle.state
        → ((result ≢ 3) ↔ (length answers.old ≡ length descriptors.now)) }
    ensures too_many { result ≡ 18 → 2 ^ 32 ≤ length descriptors.now }
    ensures few { result ≡ 0 → length descriptors.now < 2 ^ 32 }
    ensures image { result ≡ 0 → engine.new.handle.state
        ≡ batched engine.old.handle.state (map decoded descriptors.now) }
    ensures records { result ≡ 0 → answers.new
        ≡ batch_records engine.old.handle.state (map decoded descriptors.now) answers.old }
    ensures answer { result ≡ 0 → answer.new
        ≡ batch_answered engine.old.handle.state (map decoded descriptors.now) answer.old }
    ensures unchanged { result ≢ 0 → (engine.new.handle.state ≡ engine.old.handle.state)
        × (answers.new ≡ answers.old) × (answer.new ≡ answer.old) }
{
    if !engine.is_open() {
        return NO_ENGINE;
    }
    if descriptors.len() != answers.len() {
        return NOT_AS_MANY;
    }
    if u32::try_from(descriptors.len()).is_err() {
        return TOO_MANY_JOBS;
    }
    let Some(mut inner) = engine.take(alloc) else {
        return NO_ENGINE;
    };
    *answer = dml_desc::batch_bytes(&inner.submit_batch(descriptors, answers));
    engine.put(inner);
    DONE
}
