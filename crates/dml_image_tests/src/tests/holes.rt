//! Segments that touch, holes between them, and empty ones: moves, fills, reads and looks at presence over their edges;
//! what does not go of lent memory; and segments that stand in a caller's slice.
ghost use Rattle.std.specs.Prelude.{◌≡◌};
ghost use Rattle.dml_image.specs.Pieces.{AreSegments};
ghost use Rattle.dml_image.specs.Two.{pieces_of_two};

use super::{
    MOVES, bring_full, expect_bring, expect_byte, expect_bytes, expect_filled, expect_first_absent,
    expect_pages, move_inside, moved, some_bytes,
};
use dml_image::{Image, ImageError, Lent, Segment, Two, Whole, are_segments, put_back, take_out};
use dml_types::Direction;
use std::alloc::Global;
use std::mem;
use std::process::Abort;
use std::test::Fail;

/// Pages cut into segments in front of each page of `cuts`, none left out.
fn cut<'a>(alloc: Global, content: &'a mut [u8], cuts: &[u32]) -> Result<Vec<Segment<'a>>, Fail> {
    let mut segments = Vec::new(alloc);
    let (mut rest, mut first) = (content, 0_u32);
    for page in cuts {
        let len = page.saturating_sub(first) as usize * 4096;
        let (front, back) = mem::take(&mut rest)
            .split_at_mut_checked(len)
            .ok_or("no such page")?;
        segments.push(Segment::new(first, front))?;
        rest = back;
        first = *page;
    }
    segments.push(Segment::new(first, rest))?;
    Ok(segments)
}

/// Where three pages are cut: nowhere, in one place and in two; the last leaves an empty segment at each page.
const CUTS: [&[u32]; 5] = [&[], &[1], &[2], &[1, 2], &[0, 1, 1, 2, 2, 3]];

/// Moves bytes inside three pages that are cut so, and checks all bytes.
fn expect_moved_over(
    rt: &impl Abort,
    alloc: Global,
    cuts: &[u32],
    row: (u64, u64, u32),
) -> Result<(), Fail> {
    let mut content = some_bytes();
    let segments = cut(alloc, &mut content, cuts)?;
    let count = segments.len();
    assert!(rt; are_segments(&segments));
    let mut image = Image::over_segments(segments);
    move_inside(rt, &mut image, row);
    assert_eq!(rt; image.into_segments().len(), count);
    assert!(rt;
        content == moved(rt, &some_bytes(), row),
        "{row:?}, cut at {cuts:?}"
    );
    Ok(())
}

#[test]
fn moves_over_segments(rt: HostRuntime) -> Result<(), Fail> {
    for cuts in CUTS {
        for row in MOVES {
            expect_moved_over(&rt, rt.alloc(), cuts, row)?;
        }
    }
    Ok(())
}

#[test]
fn fills_over_a_segments_edge(rt: HostRuntime) -> Result<(), Fail> {
    let mut content = [0; 8192];
    let segments = cut(rt.alloc(), &mut content, &[1])?;
    assert!(rt; are_segments(&segments));
    let mut image = Image::over_segments(segments);
    for addr in 4072..4080 {
        for len in 0..40 {
            bring_full(&mut image, 0, 0xee)?;
            bring_full(&mut image, 1, 0xee)?;
            expect_filled(&rt, &mut image, addr, len);
        }
    }
    Ok(())
}

/// Ranges, and how many bytes come before the first absent one, forward and backward, where pages 1 to 3, 5 and 7 of 8
/// are present.
const RANGES: [(u64, u32, Option<u32>, Option<u32>); 18] = [
    // up to an edge: of a hole, of two segments that touch, of the memory
    (4096, 12_288, None, None),
    (4096, 12_289, Some(12_288), Some(0)),
    (4095, 12_289, Some(0), Some(12_288)),
    (4096, 8192, None, None),
    (8192, 4096, None, None),
    (28_672, 4096, None, None),
    (28_672, 4097, Some(4096), Some(0)),
    // over the edge of two that touch
    (12_287, 2, None, None),
    (4096, 8193, None, None),
    (12_287, 4097, None, None),
    // into a hole, out of one, and over it
    (16_383, 2, Some(1), Some(0)),
    (20_479, 2, Some(0), Some(1)),
    (12_288, 12_288, Some(4096), Some(4096)),
    (16_380, 4104, Some(4), Some(4)),
    (16_384, 4096, Some(0), Some(0)),
    (16_384, 1, Some(0), Some(0)),
    (0, 32_768, Some(0), Some(4096)),
    (16_384, 0, None, None),
];

/// A memory of eight pages, of which 1 to 3, 5 and 7 are present, with empty segments at pages 4 and 5.
fn with_holes<'a>(alloc: Global, content: &'a mut [u8; 20_480]) -> Result<Vec<Segment<'a>>, Fail> {
    let (low, rest) = content.split_at_mut(8192);
    let (middle, rest) = rest.split_at_mut(4096);
    let (high, last) = rest.split_at_mut(4096);
    let mut segments = Vec::with_capacity(alloc, 6)?;
    segments.push(Segment::new(1, low))?;
    segments.push(Segment::new(3, middle))?;
    segments.push(Segment::new(4, &mut []))?;
    segments.push(Segment::new(5, &mut []))?;
    segments.push(Segment::new(5, high))?;
    segments.push(Segment::new(7, last))?;
    Ok(segments)
}

#[test]
fn ranges_over_holes(rt: HostRuntime) -> Result<(), Fail> {
    let mut content = [1; 20_480];
    let segments = with_holes(rt.alloc(), &mut content)?;
    assert!(rt; are_segments(&segments));
    let image = Image::over_segments(segments);
    for (addr, len, forward, backward) in RANGES {
        let range = (addr, len);
        expect_first_absent(&rt, &image, range, Direction::Forward, forward);
        expect_first_absent(&rt, &image, range, Direction::Backward, backward);
    }
    let mut marks = [false; 7];
    image.mark_present(1, &mut marks);
    assert_eq!(rt; marks, [true, true, true, false, true, false, true]);
    let mut last = [true; 3]; // the last two are past the end
    image.mark_present(7, &mut last);
    assert_eq!(rt; last, [true, false, false]);
    Ok(())
}

/// Brings a page in each segment and one in each hole, and one past the end.
fn bring_all(rt: &impl Abort, image: &mut Image)
    ensures loan { image.new.loan ≡ image.old.loan }
{
    expect_bring(rt, image, 4, 7, Err(ImageError::NoMemory));
    expect_bring(rt, image, 0, 7, Err(ImageError::NoMemory));
    expect_bring(rt, image, 6, 7, Err(ImageError::NoMemory));
    expect_bring(rt, image, 8, 7, Err(ImageError::NoSuchPage));
    expect_bring(rt, image, 3, 7, Ok(()));
    expect_bring(rt, image, 7, 8, Ok(()));
}

#[test]
fn pages_brought_over_holes(rt: HostRuntime) -> Result<(), Fail> {
    let mut content = [1; 20_480];
    let segments = with_holes(rt.alloc(), &mut content)?;
    assert!(rt; are_segments(&segments));
    let mut image = Image::over_segments(segments);
    bring_all(&rt, &mut image);
    for (addr, value) in [
        (12_287, Some(1)),
        (12_288, Some(7)),
        (16_383, Some(7)),
        (16_384, None),
        (28_671, None),
        (28_672, Some(8)),
    ] {
        expect_byte(&rt, &image, addr, value);
    }
    let first: Option<u32> = image.into_segments().first().map(|segment| segment.first());
    assert_eq!(rt; first, Some(1));
    for (place, byte) in [
        (8191, 1),
        (8192, 7),
        (12_287, 7),
        (12_288, 1),
        (16_383, 1),
        (16_384, 8),
    ] {
        assert_eq!(rt; content[place], byte, "byte {place}");
    }
    Ok(())
}

#[test]
fn reads_over_a_segments_edge(rt: HostRuntime) -> Result<(), Fail> {
    let mut content = some_bytes();
    let wanted = some_bytes();
    let segments = cut(rt.alloc(), &mut content, &[1, 2])?;
    assert!(rt; are_segments(&segments));
    let image = Image::over_segments(segments);
    expect_pages(&rt, &image, 3);
    let mut read = [0; 5000];
    assert!(rt; image.first_absent(4000, 5000, Direction::Forward).is_none());
    image.read_into(4000, &mut read);
    expect_bytes(&rt, &read, &wanted[4000..9000]);
    assert!(rt; image.has(4093));
    expect_bytes(&rt, image.part(4093, 5), &wanted[4093..4096]);
    expect_bytes(&rt, image.part(4093, 2), &wanted[4093..4095]);
    Ok(())
}

/// Evicts a page, and expects that none was the image's own.
fn expect_none_evicted(rt: &impl Abort, image: &mut Image, page: u32) {
    assert_eq!(rt; image.evict(page), Ok(false), "page {page}");
}

#[test]
fn lent_pages_stay(rt: HostRuntime) -> Result<(), Fail> {
    let mut content = [1; 20_480];
    let segments = with_holes(rt.alloc(), &mut content)?;
    assert!(rt; are_segments(&segments));
    let mut image = Image::over_segments(segments);
    expect_none_evicted(&rt, &mut image, 1);
    expect_none_evicted(&rt, &mut image, 4);
    assert_eq!(rt; image.evict(8), Err(ImageError::NoSuchPage));
    expect_byte(&rt, &image, 4096, Some(1));

    let mut piece = [1; 4096];
    let mut whole = Whole::new(&mut piece);
    assert!(rt; whole.is_memory());
    let mut image = whole.take();
    expect_none_evicted(&rt, &mut image, 0);
    expect_byte(&rt, &image, 4095, Some(1));

    let mut pages = [0; 8192];
    let mut lent = Lent::new(&[true, false], &mut pages);
    assert!(rt; lent.is_memory());
    let mut image = lent.take();
    expect_none_evicted(&rt, &mut image, 0);
    expect_none_evicted(&rt, &mut image, 1);
    expect_byte(&rt, &image, 0, Some(0));
    Ok(())
}

/// Takes the segments of a slice out, brings a page that lies in the second one, and puts them back.
fn bring_in_slice(
    rt: &impl Abort,
    alloc: Global,
    segments: &mut [Segment<'_>],
) -> Result<(), Fail> {
    let mut list = Vec::with_capacity(alloc, segments.len())?;
    take_out(segments, &mut list);
    assert!(rt; segments.iter().all(|segment| segment.bytes().is_empty()));
    assert!(rt; are_segments(&list));
    let mut image = Image::over_segments(list);
    expect_bring(rt, &mut image, 3, 7, Ok(()));
    let list = image.into_segments();
    assert_eq!(rt; list.len(), segments.len());
    put_back(segments, list);
    Ok(())
}

#[test]
fn segments_of_a_slice(rt: HostRuntime) -> Result<(), Fail> {
    let (mut low, mut high) = ([1; 8192], [2; 4096]);
    let mut segments = [Segment::new(0, &mut low), Segment::new(3, &mut high)];
    bring_in_slice(&rt, rt.alloc(), &mut segments)?;
    assert_eq!(rt; (segments[0].first(), segments[1].first()), (0, 3));
    expect_bytes(&rt, segments[0].bytes(), &[1; 8192]);
    expect_bytes(&rt, segments[1].bytes(), &[7; 4096]);
    Ok(())
}

/// What `refused_evict` does before its call.
#[test]
fn set_up_of_evict(rt: HostRuntime) -> Result<(), Fail> {
    let mut image = Image::new(rt.alloc(), 3)?;
    bring_full(&mut image, 0, 0x5a)?;
    expect_byte(&rt, &image, 0, Some(0x5a));
    Ok(())
}

/// A page that goes takes no memory.
#[test]
fn refused_evict(rt: HostRuntime) -> Result<(), Fail> {
    let mut image = Image::new(rt.alloc(), 3)?;
    bring_full(&mut image, 0, 0x5a)?;
    assert_eq!(rt; image.evict(0), Ok(true));
    expect_byte(&rt, &image, 0, None);
    Ok(())
}

/// Two segments that are a memory, at page 0 and at page 3.
fn two<'a>(low: &'a mut [u8; 8192], high: &'a mut [u8; 4096]) -> Two<'a>
    ensures { AreSegments (pieces_of_two result) }
{
    Two::new(Segment::new(0, low), Segment::new(3, high))
}

/// Two segments are an image until they are put back, or there is no memory for a list of them.
#[test]
fn refused_take(rt: HostRuntime) {
    let (mut low, mut high) = ([1; 8192], [2; 4096]);
    let mut two = two(&mut low, &mut high);
    assert!(rt; two.is_memory());
    let brought = match two.take(rt.alloc()) {
        Ok(image) => {
            let mut image = image;
            expect_bring(&rt, &mut image, 3, 7, Ok(()));
            two.put(image);
            7
        }
        Err(_) => 2,
    };
    drop(two);
    assert!(rt; low == [1; 8192] && high == [brought; 4096]);
}

/// Where there is memory for a list of them, two segments are an image, and come back.
#[test]
fn two_segments_come_back(rt: HostRuntime) -> Result<(), Fail> {
    let (mut low, mut high) = ([1; 8192], [2; 4096]);
    let mut two = two(&mut low, &mut high);
    assert!(rt; two.is_memory());
    let mut image = match two.take(rt.alloc()) {
        Ok(image) => image,
        Err(_) => return Err("no memory".into()),
    };
    expect_bring(&rt, &mut image, 3, 7, Ok(()));
    two.put(image);
    drop(two);
    assert!(rt; low == [1; 8192] && high == [7; 4096]);
    Ok(())
}
