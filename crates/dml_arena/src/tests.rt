//! Worked cases, each with the values that a caller sees.
use super::uses::Engine;
use super::{Arena, ArenaError};
use std::thread;

#[test]
fn cut_push_join(rt: HostRuntime) -> Result<(), ArenaError> {
    let mut arena = Arena::new(rt.alloc(), 30)?;
    let region = arena.open();
    let (mut front, mut back) = region.cut(20);
    assert_eq!(rt; (front.start(), front.room()), (0, 20));
    assert_eq!(rt; (back.start(), back.room()), (20, 10));
    front.push(&[1, 2, 3]);
    back.push(&[4, 5]);
    front.shorten(2);
    let whole = front.join(back);
    assert_eq!(rt; (whole.start(), whole.room()), (0, 30));
    assert_eq!(rt; whole.bytes(), [1, 2, 4, 5].as_slice());
    Ok(())
}

#[test]
fn empty_arena(rt: HostRuntime) -> Result<(), ArenaError> {
    let mut arena = Arena::new(rt.alloc(), 0)?;
    assert_eq!(rt; arena.size(), 0);
    let region = arena.open();
    let (front, back) = region.cut(0);
    let whole = front.join(back);
    assert_eq!(rt; (whole.start(), whole.room()), (0, 0));
    assert!(rt; whole.bytes().is_empty());
    Ok(())
}

#[test]
fn two_threads_two_regions(rt: HostRuntime) -> Result<(), ArenaError> {
    let mut arena = Arena::new(rt.alloc(), 20)?;
    let region = arena.open();
    let (mut front, mut back) = region.cut(10);
    let (front, back) = thread::join(
        &rt,
        move || {
            front.push(&[0xaa; 10]);
            front
        },
        move || {
            back.push(&[0xbb; 4]);
            back
        },
    );
    let mut whole = front.join(back);
    whole.shorten(11);
    assert_eq!(rt; whole.room(), 20);
    let mut wanted = [0xaa; 11];
    wanted[10] = 0xbb;
    assert_eq!(rt; whole.bytes(), wanted.as_slice());
    Ok(())
}

#[test]
fn reopened_arena(rt: HostRuntime) -> Result<(), ArenaError> {
    let mut arena = Arena::new(rt.alloc(), 8)?;
    {
        let mut region = arena.open();
        region.push(&[1, 2, 3, 4, 5, 6, 7, 8]);
        assert_eq!(rt; region.bytes().len(), 8);
    }
    let region = arena.open();
    assert_eq!(rt; (region.start(), region.room()), (0, 8));
    assert!(rt; region.bytes().is_empty());
    Ok(())
}

// The first of two full neighbours is joined as it stands, and so is one beside an empty neighbour.
#[test]
fn touching_neighbours(rt: HostRuntime) -> Result<(), ArenaError> {
    let mut arena = Arena::new(rt.alloc(), 6)?;
    let region = arena.open();
    let (mut first, rest) = region.cut(2);
    let (mut second, third) = rest.cut(3);
    first.push(&[1, 2]);
    second.push(&[3]);
    let mut whole = first.join(second).join(third);
    assert_eq!(rt; (whole.start(), whole.room()), (0, 6));
    assert_eq!(rt; whole.bytes(), [1, 2, 3].as_slice());
    whole.push(&[4, 5, 6]);
    assert_eq!(rt; whole.bytes(), [1, 2, 3, 4, 5, 6].as_slice());
    Ok(())
}

// The gap between two neighbours is shorter than what moves over it.
#[test]
fn moved_over_a_gap(rt: HostRuntime) -> Result<(), ArenaError> {
    let mut arena = Arena::new(rt.alloc(), 16)?;
    let region = arena.open();
    let (mut front, mut back) = region.cut(4);
    front.push(&[1, 2, 3]);
    back.push(&[4, 5, 6, 7, 8]);
    let whole = front.join(back);
    assert_eq!(rt; whole.bytes(), [1, 2, 3, 4, 5, 6, 7, 8].as_slice());
    Ok(())
}

#[test]
fn moved_over_a_long_gap(rt: HostRuntime) -> Result<(), ArenaError> {
    let mut arena = Arena::new(rt.alloc(), 16)?;
    let region = arena.open();
    let (front, mut back) = region.cut(12);
    back.push(&[9, 10]);
    let whole = front.join(back);
    assert_eq!(rt; whole.bytes(), [9, 10].as_slice());
    Ok(())
}

#[test]
fn arena_of_an_owner(rt: HostRuntime) -> Result<(), ArenaError> {
    let mut engine = Engine::new(Arena::new(rt.alloc(), 4)?, Vec::new(rt.alloc()));
    assert_eq!(rt; engine.round(&[1, 2, 3]), 3);
    assert_eq!(rt; engine.round(&[4, 5, 6, 7]), 4);
    assert!(rt; engine.doubled());
    Ok(())
}

// Either answer of `Arena::new` is right here: a script refuses its growth, and wants no failure.
#[test]
fn refused_new(rt: HostRuntime) {
    match Arena::new(rt.alloc(), 4096) {
        Ok(mut arena) => {
            assert_eq!(rt; arena.size(), 4096);
            let region = arena.open();
            assert_eq!(rt; (region.start(), region.room()), (0, 4096));
        }
        Err(ArenaError::NoMemory) => (),
    }
}

#[test]
fn text_of_no_memory(rt: HostRuntime) {
    let text = format!(in rt.alloc(); "{}", ArenaError::NoMemory);
    assert!(rt; text.is_ok_and(|text| text.as_str() == "out of memory"));
}

// A script counts how often this block is taken and given back.
#[test]
fn released_once(rt: HostRuntime) -> Result<(), ArenaError> {
    let mut arena = Arena::new(rt.alloc(), 12_345)?;
    let region = arena.open();
    let (mut front, back) = region.cut(100);
    front.push(&[1, 2, 3]);
    let whole = front.join(back);
    assert_eq!(rt; whole.bytes(), [1, 2, 3].as_slice());
    Ok(())
}
