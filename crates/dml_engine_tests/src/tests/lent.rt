//! Engines over memory that a caller lends.
ghost use Rattle.dml_types.specs.Memory.{IsMemory};
ghost use Rattle.dml_image.specs.Kept.{lent_memory};

use super::claims::same;
use super::{USUAL, answer};
use dml_engine::EngineOver;
use dml_image::{Lent, Whole};
use dml_types::{Job, Status, law_of_homes, law_of_loans};
use std::alloc::Global;
use std::process::Abort;

/// So many pages, of which these are present, and their bytes, all of them 0.
pub(super) fn blank_pages(
    alloc: Global,
    pages: u32,
    present: &[u32],
) -> Option<(Vec<bool>, Vec<u8>)> {
    let mut marks = Vec::with_capacity(alloc, pages as usize).ok()?;
    for page in 0..pages {
        marks.push(present.contains(&page)).ok()?;
    }
    let content = vec![in alloc; 0; 4096 * pages as usize].ok()?;
    Some((marks, content))
}

/// Memory that may be lent.
pub(super) fn lent<'a>(rt: &impl Abort, present: &'a [bool], content: &'a mut [u8]) -> Lent<'a>
    ensures memory { IsMemory (lent_memory result) }
{
    let lent = Lent::new(present, content);
    assert!(rt; lent.is_memory());
    lent
}

/// What an engine gives back goes back to the caller.
#[test]
fn lent_image_comes_back(rt: HostRuntime) {
    let (present, mut content) = blank_pages(rt.alloc(), 2, &[0]).expect(&rt, "no memory");
    let mut lent = lent(&rt, present.as_slice(), content.as_mut_slice());
    let Ok(mut engine) = EngineOver::new(rt.alloc(), lent.take(), USUAL) else {
        rt.panic("no memory");
    };
    law_of_homes();
    let moved = engine.submit(&rt, rt.alloc(), Job::fill(0x0807_0605_0403_0201, 4090, 12));
    same(&rt, moved, answer(Status::WriteFault, 0, 6, 4096));
    lent.put(engine.into_image());
    drop(lent);
    for (place, byte) in [(4089, 0), (4090, 1), (4095, 6), (4096, 0)] {
        same(&rt, content.get(place), Some(&byte));
    }
}

/// The same of memory in one piece.
#[test]
fn memory_in_one_piece_comes_back(rt: HostRuntime) {
    let mut content = [0; 8192];
    let mut whole = Whole::new(&mut content);
    assert!(rt; whole.is_memory());
    let Ok(mut engine) = EngineOver::new(rt.alloc(), whole.take(), USUAL) else {
        rt.panic("no memory");
    };
    law_of_loans();
    let filled = engine.submit(&rt, rt.alloc(), Job::fill(0x0807_0605_0403_0201, 4090, 12));
    same(&rt, filled, answer(Status::Success, 0, 12, 0));
    whole.put(engine.into_image());
    drop(whole);
    for (place, byte) in [(4089, 0), (4090, 1), (4096, 7), (4101, 4), (4102, 0)] {
        same(&rt, content[place], byte);
    }
}
