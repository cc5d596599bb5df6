//! Pages of an image that are looked at, and that are given up.
ghost use Rattle.std.specs.Prelude.{◌≡◌, ◌≢◌, ◌↔◌, ◌^◌, ◌+◌, ◌<◌, ◌≤◌, ◌⊎◌, None, Some, IfSome, IsTrue, length, option_map};
ghost use Rattle.dml_types.specs.Memory.{present_bytes};
ghost use Rattle.dml_image.specs.Brought.{evicted, has_page};
ghost use Rattle.dml_c.specs.State.{with_image};

use crate::codes::{ABSENT, DONE, NO_ENGINE, NO_SUCH_PAGE};
use crate::handles::CEngine;
use std::alloc::Global;

/// Gives a page of the image up, with its memory; it is absent from then on.
#[unsafe(no_mangle)]
pub extern "C" fn kazovuni_evict(alloc: Global, engine: &mut CEngine, page: u32) -> u8
    ensures codes { (result ≡ 0) ⊎ (result ≡ 4) ⊎ (result ≡ 8) ⊎ (result ≡ 9) }
    ensures no_engine { (result ≡ 4) ↔ (engine.old.handle.state ≡ None) }
    ensures no_such_page { IfSome engine.old.handle.state (λ s. (result ≡ 8) ↔ (length s.image.present ≤ page)) }
    ensures present { IfSome engine.old.handle.state (λ s. (result ≡ 0) ↔ IsTrue (has_page s.image page)) }
    ensures evicted { result ≡ 0 → engine.new.handle.state
        ≡ option_map (λ s. with_image s (evicted s.image page)) engine.old.handle.state }
    ensures unchanged { result ≢ 0 → engine.new.handle.state ≡ engine.old.handle.state }
{
    let Some(mut inner) = engine.take(alloc) else {
        return NO_ENGINE;
    };
    let code = match inner.evict(page) {
        Ok(true) => DONE,
        Ok(false) => ABSENT,
        Err(_) => NO_SUCH_PAGE,
    };
    engine.put(inner);
    code
}

/// Writes how many bytes of a range of the image come before the first absent one.
#[unsafe(no_mangle)]
pub extern "C" fn kazovuni_present(
    alloc: Global,
    engine: &mut CEngine,
    address: u64,
    length: u32,
    present: &mut u32,
) -> u8
    ensures codes { (result ≡ 0) ⊎ (result ≡ 4) ⊎ (result ≡ 9) }
    ensures no_engine { (result ≡ 4) ↔ (engine.old.handle.state ≡ None) }
    ensures past { IfSome engine.old.handle.state (λ _. (result ≡ 9) ↔ (2 ^ 64 < address + length)) }
    ensures present { IfSome engine.old.handle.state (λ s.
        result ≡ 0 → present.new ≡ present_bytes s.image address length) }
    ensures unread { result ≢ 0 → present.new ≡ present.old }
    ensures unchanged { engine.new.handle.state ≡ engine.old.handle.state }
{
    let Some(inner) = engine.take(alloc) else {
        return NO_ENGINE;
    };
    let code = if ends_past(address, length) {
        ABSENT
    } else {
        *present = inner.present(address, length);
        DONE
    };
    engine.put(inner);
    code
}

/// Whether a range ends above 2^64.
fn ends_past(address: u64, length: u32) -> bool
    ensures { IsTrue result ↔ (2 ^ 64 < address + length) }
{
    address > 0 && u64::from(length) > (u64::MAX - address) + 1
}
