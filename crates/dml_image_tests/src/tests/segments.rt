//! Memory in segments: two that touch, a hole and one far behind, in both directions; and pages that go.
use super::{
    bring_full, expect_bring, expect_byte, expect_bytes, expect_first_absent, expect_pages,
};
use dml_image::{Image, ImageError, Segment, are_segments};
use dml_types::Direction;
use std::alloc::Global;
use std::process::Abort;
use std::test::Fail;

/// Where the far segment begins.
const FAR: u32 = 4_000_000_000;

const FAR_BYTES: u64 = 4096 * FAR as u64;

/// Checks whether segments at these pages, of one page each, are a memory.
fn expect_segments(
    rt: &impl Abort,
    alloc: Global,
    firsts: (u32, u32),
    taken: bool,
) -> Result<(), Fail> {
    let (mut low, mut high) = ([1; 4096], [2; 4096]);
    let mut list = Vec::with_capacity(alloc, 2)?;
    list.push(Segment::new(firsts.0, &mut low))?;
    list.push(Segment::new(firsts.1, &mut high))?;
    assert_eq!(rt;
        are_segments(&list),
        taken,
        "segments at {} and {}",
        firsts.0,
        firsts.1
    );
    Ok(())
}

/// The same of one segment of these bytes, at page 0.
fn expect_one(rt: &impl Abort, alloc: Global, content: &mut [u8], taken: bool) -> Result<(), Fail> {
    let mut list = Vec::with_capacity(alloc, 1)?;
    list.push(Segment::new(0, content))?;
    assert_eq!(rt; are_segments(&list), taken, "one segment");
    Ok(())
}

#[test]
fn segments_that_are_a_memory(rt: HostRuntime) -> Result<(), Fail> {
    expect_segments(&rt, rt.alloc(), (0, 1), true)?;
    expect_segments(&rt, rt.alloc(), (7, 4_294_967_294), true)?;
    expect_segments(&rt, rt.alloc(), (7, 4_294_967_295), false)?;
    expect_segments(&rt, rt.alloc(), (1, 1), false)?;
    expect_segments(&rt, rt.alloc(), (2, 1), false)?;
    expect_one(&rt, rt.alloc(), &mut [], false)?;
    expect_one(&rt, rt.alloc(), &mut [0; 2048], false)?;
    expect_one(&rt, rt.alloc(), &mut [0; 8192], true)?;
    Ok(())
}

/// Checks what an image over pages 1 to 3 and one far behind says of presence.
fn expect_presence(rt: &impl Abort, image: &Image) {
    for (addr, present) in [
        (0, false),
        (4095, false),
        (4096, true),
        (16_383, true),
        (16_384, false),
    ] {
        assert_eq!(rt; image.has(addr), present, "byte {addr}");
    }
    for (range, forward, backward) in [
        ((4096, 20_000), Some(12_288), Some(0)),
        ((4090, 20), Some(0), Some(14)),
        ((4096, 12_288), None, None),
        ((12_280, 16), None, None),
        ((FAR_BYTES - 1, 2), Some(0), Some(1)),
        ((FAR_BYTES, 4096), None, None),
    ] {
        expect_first_absent(rt, image, range, Direction::Forward, forward);
        expect_first_absent(rt, image, range, Direction::Backward, backward);
    }
}

/// Moves bytes that are present, to where bytes are present.
fn move_present(rt: &impl Abort, image: &mut Image, source: u64, target: u64, len: u32) {
    assert!(rt; source < 1 << 60 && target < 1 << 60 && len < 1 << 20);
    assert!(rt;
        image
            .first_absent(source, len, Direction::Forward)
            .is_none()
    );
    assert!(rt;
        image
            .first_absent(target, len, Direction::Forward)
            .is_none()
    );
    image.move_within(source, target, len);
}

/// Fills and writes over the edge of the two segments that touch, and moves over it and to the far one.
fn change(rt: &impl Abort, image: &mut Image) {
    assert!(rt; image.first_absent(12_280, 16, Direction::Forward).is_none());
    image.fill(12_280, 16, 0x0807_0605_0403_0201);
    move_present(rt, image, 12_284, FAR_BYTES + 2, 8);
    move_present(rt, image, 12_280, 12_282, 10);
    assert!(rt; image.first_absent(12_290, 4, Direction::Forward).is_none());
    image.write(12_290, &[9, 9, 9, 9]);
}

#[test]
fn jobs_over_three_segments(rt: HostRuntime) -> Result<(), Fail> {
    let (mut low, mut high, mut far) = ([1; 8192], [2; 4096], [3; 4096]);
    let mut list = Vec::with_capacity(rt.alloc(), 3)?;
    list.push(Segment::new(1, &mut low))?;
    list.push(Segment::new(3, &mut high))?;
    list.push(Segment::new(FAR, &mut far))?;
    assert!(rt; are_segments(&list));
    let mut image = Image::over_segments(list);
    expect_pages(&rt, &image, FAR + 1);
    expect_presence(&rt, &image);
    change(&rt, &mut image);
    let mut seen = [0; 16];
    assert!(rt; image.first_absent(12_279, 16, Direction::Forward).is_none());
    image.read_into(12_279, &mut seen);
    expect_bytes(
        &rt,
        &seen,
        &[1, 1, 2, 1, 2, 3, 4, 5, 6, 7, 8, 9, 9, 9, 9, 7],
    );
    assert!(rt; image.has(FAR_BYTES));
    expect_bytes(
        &rt,
        image.part(FAR_BYTES, 11),
        &[3, 3, 5, 6, 7, 8, 1, 2, 3, 4, 3],
    );
    expect_bring(&rt, &mut image, 0, 7, Err(ImageError::NoMemory));
    expect_bring(&rt, &mut image, FAR + 1, 7, Err(ImageError::NoSuchPage));
    expect_bring(&rt, &mut image, 1, 7, Ok(()));
    expect_byte(&rt, &image, 4096, Some(7));
    Ok(())
}

#[test]
fn pages_that_go(rt: HostRuntime) -> Result<(), Fail> {
    let mut image = Image::new(rt.alloc(), 3)?;
    bring_full(&mut image, 1, 7)?;
    let mut marks = [false; 3];
    assert_eq!(rt; image.pages(), 3);
    image.mark_present(0, &mut marks);
    assert_eq!(rt; marks, [false, true, false]);
    assert_eq!(rt; image.evict(1), Ok(true));
    assert_eq!(rt; image.evict(1), Ok(false));
    assert_eq!(rt; image.evict(3), Err(ImageError::NoSuchPage));
    expect_byte(&rt, &image, 4096, None);
    bring_full(&mut image, 1, 0)?;
    expect_byte(&rt, &image, 4096, Some(0));
    Ok(())
}
