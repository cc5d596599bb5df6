//! Jobs over the caller's own pages in one piece, of any size.
ghost use Rattle.std.specs.Prelude.{◌≡◌, ◌≢◌, ◌↔◌, ◌≤◌, length, map};
ghost use Rattle.dml_types.specs.Step.{memory_after, records_of, step};
ghost use Rattle.dml_desc.specs.Descriptor.{bytes_of_record, decoded};
ghost use Rattle.dml_c.specs.Needs.{TakesSome};
ghost use Rattle.dml_effect.specs.Pages.{IsWholePages, all_present};
ghost use Rattle.dml_effect.specs.Straight.{TakesStaging};

use crate::codes::{DONE, NO_MEMORY, NOT_PAGES};
use crate::lending::{submit_list, submit_short};
use dml_effect::are_whole_pages;
use std::alloc::Global;

/// Carries out the job of a descriptor over the caller's bytes, whose addresses begin at 0 and whose pages are all
/// present, and writes its completion record.
#[unsafe(no_mangle)]
pub extern "C" fn kazovuni_submit_whole(
    alloc: Global,
    bytes: &mut [u8],
    descriptor: &[u8; 64],
    staging: u32,
    answer: &mut [u8; 32],
) -> u8
    ensures codes { result ≤ 2 }
    ensures not_pages { (result ≢ 1) ↔ IsWholePages bytes.old }
    ensures no_memory { result ≡ 2 → TakesStaging (decoded descriptor.now) staging }
    ensures content { result ≡ 0 → bytes.new ≡ (step (all_present bytes.old) (decoded descriptor.now) staging).0.bytes }
    ensures record { result ≡ 0 → answer.new
        ≡ bytes_of_record (step (all_present bytes.old) (decoded descriptor.now) staging).1 }
    ensures unchanged { result ≢ 0 → (bytes.new ≡ bytes.old) × (answer.new ≡ answer.old) }
{
    if !are_whole_pages(bytes) {
        return NOT_PAGES;
    }
    let Some(record) = submit_short(alloc, bytes, &dml_desc::decode(descriptor), staging) else {
        return NO_MEMORY;
    };
    *answer = dml_desc::record_bytes(&record);
    DONE
}

/// Carries out the jobs of some descriptors one after another over the caller's bytes, whose addresses begin at 0 and
/// whose pages are all present, and writes the completion record of each.
#[unsafe(no_mangle)]
pub extern "C" fn kazovuni_submit_list_whole(
    alloc: Global,
    bytes: &mut [u8],
    descriptors: &[[u8; 64]],
    staging: u32,
    answers: &mut [[u8; 32]],
) -> u8
    ensures codes { result ≤ 3 }
    ensures not_pages { (result ≢ 1) ↔ IsWholePages bytes.old }
    ensures not_as_many { IsWholePages bytes.old → ((result ≢ 3) ↔ (length answers.old ≡ length descriptors.now)) }
    ensures no_memory { result ≡ 2 → TakesSome descriptors.now staging }
    ensures content { result ≡ 0 → bytes.new
        ≡ (memory_after (all_present bytes.old) (map decoded descriptors.now) staging).bytes }
    ensures records { result ≡ 0 → answers.new
        ≡ map bytes_of_record (records_of (all_present bytes.old) (map decoded descriptors.now) staging) }
    ensures unchanged { result ≢ 0 → (bytes.new ≡ bytes.old) × (answers.new ≡ answers.old) }
{
    if !are_whole_pages(bytes) {
        return NOT_PAGES;
    }
    submit_list(alloc, bytes, descriptors, staging, answers)
}
