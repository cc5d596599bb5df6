//! Pieces of chunks: those of worked jobs, and those of many others against what each byte alone says.
use dml_arena::Arena;
use dml_delta::{ApplyPiece, BadEntry, CreatePiece, scan_apply, scan_create};
use dml_desc::check;
use dml_image::{Image, ImageError};
use dml_types::{Job, Op, Status};
use std::alloc::Global;
use std::process::Abort;
use std::test::Fail;

/// The staging size, in bytes.
const STAGING: u32 = 16_384;

/// No bytes.
const NONE: [u8; 0] = [];

/// An image in which these pages are present, with bytes put over zeros.
fn image_of(
    alloc: Global,
    pages: u32,
    present: &[u32],
    pokes: &[(u64, &[u8])],
) -> Result<Image<'static>, ImageError> {
    let mut image = Image::new(alloc, pages)?;
    for page in present {
        let mut bytes = [0; 4096];
        for (addr, poke) in pokes {
            for (i, byte) in poke.iter().enumerate() {
                let place = addr.wrapping_add(i as u64);
                if place / 4096 == u64::from(*page) {
                    if let Some(slot) = bytes.get_mut((place % 4096) as usize) {
                        *slot = *byte;
                    }
                }
            }
        }
        image.bring(*page, &bytes)?;
    }
    Ok(image)
}

/// The piece of a chunk of a create.
fn created<'a>(
    rt: &impl Abort,
    image: &Image,
    job: &Job,
    chunk: (u32, u32),
    arena: &'a mut Arena,
) -> CreatePiece<'a> {
    let job = check(job, STAGING).expect(rt, "an accepted job");
    let room = arena.open();
    let (from, to) = chunk;
    assert!(rt; from <= to && to <= job.job().size / 8);
    assert!(rt; room.bytes().is_empty() && to - from <= room.room() / 10);
    match job.op() {
        Op::CreateDelta => scan_create(image, &job, from, to, room),
        op => panic!(rt; "{op:?} is no create"),
    }
}

/// The piece of a chunk of an apply.
fn applied<'a>(
    rt: &impl Abort,
    image: &Image,
    job: &Job,
    chunk: (u32, u32),
    arena: &'a mut Arena,
) -> ApplyPiece<'a> {
    let job = check(job, STAGING).expect(rt, "an accepted job");
    let room = arena.open();
    let (from, to) = chunk;
    assert!(rt; from <= to && to <= job.job().delta_size / 10);
    assert!(rt; room.bytes().is_empty() && to - from <= room.room() / 10);
    match job.op() {
        Op::ApplyDelta => scan_apply(image, &job, from, to, room),
        op => panic!(rt; "{op:?} is no apply"),
    }
}

/// Whether these bytes are staged.
fn holds(staged: &[u8], want: &[u8]) -> bool {
    staged == want
}

/// A chunk of a create, with its fault and the bytes that it stages.
type Created<'a> = ((u32, u32), Option<(u32, u64)>, &'a [u8]);

fn expect_created(rt: &impl Abort, image: &Image, arena: &mut Arena, job: &Job, wants: &[Created]) {
    for (chunk, fault, staged) in wants {
        let piece = created(rt, image, job, *chunk, arena);
        assert_eq!(rt;
            ((piece.from, piece.to), piece.fault),
            (*chunk, *fault),
            "{chunk:?}"
        );
        assert!(rt; holds(piece.staged.bytes(), staged), "{chunk:?}");
    }
}

/// A chunk of an apply, with its bad entry, its first and last offsets and the bytes that it stages.
type Applied<'a> = (
    (u32, u32),
    Option<BadEntry>,
    (Option<u16>, Option<u16>),
    &'a [u8],
);

fn expect_applied(rt: &impl Abort, image: &Image, arena: &mut Arena, job: &Job, wants: &[Applied]) {
    for (chunk, bad, offsets, staged) in wants {
        let piece = applied(rt, image, job, *chunk, arena);
        assert_eq!(rt;
            ((piece.from, piece.to), piece.bad),
            (*chunk, *bad),
            "{chunk:?}"
        );
        assert_eq!(rt; (piece.first, piece.last), *offsets, "{chunk:?}");
        assert!(rt; holds(piece.staged.bytes(), staged), "{chunk:?}");
    }
}

fn bad(entry: u32, status: Status, place: u64) -> Option<BadEntry> {
    Some(BadEntry {
        entry,
        status,
        place,
    })
}

// Chunks of 8, 16 and 32 bytes, and the whole.
#[test]
fn delta_record_and_overflow(rt: HostRuntime) -> Result<(), Fail> {
    let one = [1, 0, 1, 2, 3, 4, 5, 6, 7, 8];
    let three = [3, 0, 17, 18, 19, 20, 21, 22, 23, 24];
    let both = [
        1, 0, 1, 2, 3, 4, 5, 6, 7, 8, 3, 0, 17, 18, 19, 20, 21, 22, 23, 24,
    ];
    let two_blocks: [(u64, &[u8]); 2] = [(72, &one[2..]), (88, &three[2..])];
    let image = image_of(rt.alloc(), 1, &[0], &two_blocks)?;
    let mut arena = Arena::new(rt.alloc(), STAGING)?;
    let job = Job::create_delta(0, 64, 32, 128, 20);
    let wants: [Created; 8] = [
        ((0, 4), None, both.as_slice()),
        ((0, 2), None, one.as_slice()),
        ((2, 4), None, three.as_slice()),
        ((0, 1), None, NONE.as_slice()),
        ((1, 2), None, one.as_slice()),
        ((2, 3), None, NONE.as_slice()),
        ((3, 4), None, three.as_slice()),
        ((4, 4), None, NONE.as_slice()),
    ];
    expect_created(&rt, &image, &mut arena, &job, &wants);
    let zero = [0, 0, 255, 0, 0, 0, 0, 0, 0, 0];
    let front = [0, 0, 255, 0, 0, 0, 0, 0, 0, 0, 1, 0, 1, 2, 3, 4, 5, 6, 7, 8];
    let three_blocks: [(u64, &[u8]); 3] = [
        (64, [255].as_slice()),
        (72, &one[2..]),
        (88, &three[2..]),
    ];
    let image = image_of(rt.alloc(), 1, &[0], &three_blocks)?;
    let wants: [Created; 3] = [
        ((0, 1), None, zero.as_slice()),
        ((0, 2), None, front.as_slice()),
        ((2, 4), None, three.as_slice()),
    ];
    expect_created(&rt, &image, &mut arena, &job, &wants);
    Ok(())
}

// Chunks of 8, 16, 32 and 64 bytes. The second source leaves the only page behind block 4.
#[test]
fn delta_stops_at_absent_source(rt: HostRuntime) -> Result<(), Fail> {
    let pokes: [(u64, &[u8]); 3] = [
        (4056, [1].as_slice()),
        (4072, [2].as_slice()),
        (4088, [3].as_slice()),
    ];
    let image = image_of(rt.alloc(), 2, &[0], &pokes)?;
    let mut arena = Arena::new(rt.alloc(), STAGING)?;
    let record = [
        0, 0, 1, 0, 0, 0, 0, 0, 0, 0, 2, 0, 2, 0, 0, 0, 0, 0, 0, 0, 4, 0, 3, 0, 0, 0, 0, 0, 0, 0,
    ];
    let job = Job::create_delta(0, 4056, 64, 128, 80);
    let wants: [Created; 12] = [
        ((0, 8), Some((5, 4096)), record.as_slice()),
        ((0, 4), None, &record[..20]),
        ((4, 8), Some((5, 4096)), &record[20..]),
        ((0, 2), None, &record[..10]),
        ((2, 4), None, &record[10..20]),
        ((4, 6), Some((5, 4096)), &record[20..]),
        ((6, 8), Some((6, 4104)), NONE.as_slice()),
        ((1, 2), None, NONE.as_slice()),
        ((4, 5), None, &record[20..]),
        ((5, 6), Some((5, 4096)), NONE.as_slice()),
        ((7, 8), Some((7, 4112)), NONE.as_slice()),
        ((8, 8), None, NONE.as_slice()),
    ];
    expect_created(&rt, &image, &mut arena, &job, &wants);
    Ok(())
}

// Chunks of 8, 16 and 32 bytes, so of 1, 2 and 4 entries. Only a chunk with entries 1 and 2 sees that the last one
// does not rise.
#[test]
fn apply_not_rising(rt: HostRuntime) -> Result<(), Fail> {
    let record = [
        0, 0, 17, 17, 17, 17, 17, 17, 17, 17, 2, 0, 34, 34, 34, 34, 34, 34, 34, 34, 2, 0, 51, 51,
        51, 51, 51, 51, 51, 51,
    ];
    let pokes: [(u64, &[u8]); 1] = [(0, record.as_slice())];
    let image = image_of(rt.alloc(), 1, &[0], &pokes)?;
    let mut arena = Arena::new(rt.alloc(), STAGING)?;
    let job = Job::apply_delta(0, 30, 256, 32);
    let not_rising = bad(2, Status::NotRising, 0);
    let wants: [Applied; 7] = [
        ((0, 3), not_rising, (Some(0), Some(2)), &record[..20]),
        ((0, 2), None, (Some(0), Some(2)), &record[..20]),
        ((2, 3), None, (Some(2), Some(2)), &record[20..]),
        ((0, 1), None, (Some(0), Some(0)), &record[..10]),
        ((1, 2), None, (Some(2), Some(2)), &record[10..20]),
        ((1, 3), not_rising, (Some(2), Some(2)), &record[10..20]),
        ((3, 3), None, (None, None), NONE.as_slice()),
    ];
    expect_applied(&rt, &image, &mut arena, &job, &wants);
    Ok(())
}

#[test]
fn apply_offset_range(rt: HostRuntime) -> Result<(), Fail> {
    let last = [255, 255, 170, 170, 170, 170, 170, 170, 170, 170];
    let four = [4, 0, 187, 187, 187, 187, 187, 187, 187, 187];
    let pokes: [(u64, &[u8]); 2] = [(0, last.as_slice()), (16, four.as_slice())];
    let image = image_of(rt.alloc(), 129, &[0, 128], &pokes)?;
    let mut arena = Arena::new(rt.alloc(), STAGING)?;
    let behind: [Applied; 1] = [(
        (0, 1),
        bad(0, Status::OffsetRange, 0),
        (Some(4), None),
        NONE.as_slice(),
    )];
    let job = Job::apply_delta(16, 10, 256, 32);
    expect_applied(&rt, &image, &mut arena, &job, &behind);
    let inside: [Applied; 1] = [((0, 1), None, (Some(0xffff), Some(0xffff)), last.as_slice())];
    let job = Job::apply_delta(0, 10, 4096, 0x8_0000);
    expect_applied(&rt, &image, &mut arena, &job, &inside);
    Ok(())
}

// Chunks of 8 and 16 bytes. Alone, the second entry is bad for its absent block.
#[test]
fn not_rising_before_fault(rt: HostRuntime) -> Result<(), Fail> {
    let two = [2, 0, 170, 170, 170, 170, 170, 170, 170, 170];
    let zero = [0, 0, 187, 187, 187, 187, 187, 187, 187, 187];
    let pokes: [(u64, &[u8]); 2] = [(0, two.as_slice()), (10, zero.as_slice())];
    let image = image_of(rt.alloc(), 3, &[0, 2], &pokes)?;
    let mut arena = Arena::new(rt.alloc(), STAGING)?;
    let job = Job::apply_delta(0, 20, 8176, 32);
    let wants: [Applied; 3] = [
        (
            (0, 2),
            bad(1, Status::NotRising, 0),
            (Some(2), Some(2)),
            two.as_slice(),
        ),
        ((0, 1), None, (Some(2), Some(2)), two.as_slice()),
        (
            (1, 2),
            bad(1, Status::WriteFault, 8176),
            (Some(0), None),
            NONE.as_slice(),
        ),
    ];
    expect_applied(&rt, &image, &mut arena, &job, &wants);
    Ok(())
}

#[test]
fn empty_ranges(rt: HostRuntime) -> Result<(), Fail> {
    let image = image_of(rt.alloc(), 1, &[0], &[])?;
    let mut arena = Arena::new(rt.alloc(), STAGING)?;
    let past: [Applied; 1] = [(
        (0, 1),
        bad(0, Status::OffsetRange, 0),
        (Some(0), None),
        NONE.as_slice(),
    )];
    expect_applied(
        &rt,
        &image,
        &mut arena,
        &Job::apply_delta(0, 10, 256, 0),
        &past,
    );
    let none: [Applied; 1] = [((0, 0), None, (None, None), NONE.as_slice())];
    expect_applied(
        &rt,
        &image,
        &mut arena,
        &Job::apply_delta(0, 0, 256, 32),
        &none,
    );
    let end = Job::apply_delta(u64::MAX, 0, 256, 32);
    expect_applied(&rt, &image, &mut arena, &end, &none);
    let none: [Created; 1] = [((0, 0), None, NONE.as_slice())];
    expect_created(
        &rt,
        &image,
        &mut arena,
        &Job::create_delta(0, 64, 0, 128, 10),
        &none,
    );
    Ok(())
}

/// The first absent byte of a range.
fn absent_in(image: &Image, addr: u64, len: u64) -> Option<u64> {
    (0..len)
        .map(|i| addr.wrapping_add(i))
        .find(|place| !image.has(*place))
}

/// What a chunk of a create gives, byte by byte.
fn slow_create(
    alloc: Global,
    image: &Image,
    job: &Job,
    chunk: (u32, u32),
) -> Result<(Option<(u32, u64)>, Vec<u8>), Fail> {
    let (from, to) = chunk;
    let mut staged = Vec::new(alloc);
    for block in from..to {
        let offset = u64::from(block).wrapping_mul(8);
        let source = job.source.wrapping_add(offset);
        let target = job.target.wrapping_add(offset);
        let absent = absent_in(image, source, 8).or_else(|| absent_in(image, target, 8));
        if let Some(place) = absent {
            return Ok((Some((block, place)), staged));
        }
        let differs = (0..8).any(|i| image.byte(source.wrapping_add(i))
            != image.byte(target.wrapping_add(i)));
        if differs {
            staged.push((block % 256) as u8)?;
            staged.push((block / 256 % 256) as u8)?;
            for i in 0..8 {
                staged.push(image.byte(target.wrapping_add(i)).unwrap_or(0))?;
            }
        }
    }
    Ok((None, staged))
}

/// Eight-byte blocks from a place in the first of two pages on, which go on in the second. The marked ones have one
/// byte that is not as in the others.
fn blocks_at(place: u64, marks: u32) -> [[u8; 4096]; 2] {
    let mut pages = [[0; 4096]; 2];
    for i in 0..168u32 {
        let block = i / 8;
        let marked = block < 32 && (marks >> block) % 2 == 1 && i % 8 == block * 3 % 8;
        let byte = ((i * 7 + 3) % 251) as u8 ^ if marked { 0xff } else { 0 };
        let at = place.wrapping_add(u64::from(i));
        if let Some(page) = pages.get_mut((at / 4096) as usize) {
            if let Some(slot) = page.get_mut((at % 4096) as usize) {
                *slot = byte;
            }
        }
    }
    pages
}

/// Brings two pages, the second one only where it is to be present.
fn bring_two(
    image: &mut Image,
    page: u32,
    bytes: &[[u8; 4096]; 2],
    second: bool,
) -> Result<(), ImageError> {
    image.bring(page, &bytes[0])?;
    if second {
        image.bring(page.saturating_add(1), &bytes[1])?;
    }
    Ok(())
}

/// Scans a chunk of a create, and compares the piece with what each byte alone says.
fn expect_blocks(
    rt: &impl Abort,
    alloc: Global,
    image: &Image,
    arena: &mut Arena,
    job: &Job,
    chunk: (u32, u32),
) -> Result<(), Fail> {
    let (fault, staged) = slow_create(alloc, image, job, chunk)?;
    let want: [Created; 1] = [(chunk, fault, staged.as_slice())];
    expect_created(rt, image, arena, job, &want);
    Ok(())
}

// Every number of blocks up to 20, and every place of the one that differs, or several that do; the sources begin at
// several distances from a page's end, and the page behind it is present or absent.
#[test]
fn differing_blocks_by_lanes(rt: HostRuntime) -> Result<(), Fail> {
    let mut arena = Arena::new(rt.alloc(), STAGING)?;
    for (second, fourth) in [(true, true), (false, true), (true, false), (false, false)] {
        for (source, target) in [(4096u64, 4096u64), (4088, 4032), (4024, 4088), (3936, 4016)] {
            let mut image = Image::new(rt.alloc(), 4)?;
            bring_two(&mut image, 0, &blocks_at(source, 0), second)?;
            let job = Job::create_delta(source, target.wrapping_add(8192), 160, 20_000, 200);
            for place in 0..20 {
                bring_two(&mut image, 2, &blocks_at(target, 1 << place), fourth)?;
                for to in place..21 {
                    let chunk = (place / 4, to);
                    expect_blocks(&rt, rt.alloc(), &image, &mut arena, &job, chunk)?;
                }
            }
            for marks in [0, 0xf_ffff, 0x5_5555, 0xa_aaaa, 0x1_8181] {
                bring_two(&mut image, 2, &blocks_at(target, marks), fourth)?;
                for chunk in [(0, 7), (0, 8), (0, 9), (1, 17), (0, 20), (20, 20)] {
                    expect_blocks(&rt, rt.alloc(), &image, &mut arena, &job, chunk)?;
                }
            }
        }
    }
    Ok(())
}

/// What a chunk of an apply gives.
type SlowApply = (Option<BadEntry>, (Option<u16>, Option<u16>), Vec<u8>);

/// What a chunk of an apply gives, byte by byte.
fn slow_apply(
    alloc: Global,
    image: &Image,
    job: &Job,
    chunk: (u32, u32),
) -> Result<SlowApply, Fail> {
    let (from, to) = chunk;
    let mut staged = Vec::new(alloc);
    let (mut first, mut last): (Option<u16>, Option<u16>) = (None, None);
    for entry in from..to {
        let place = job.source.wrapping_add(u64::from(entry).wrapping_mul(10));
        let low = image.byte(place).unwrap_or(0);
        let high = image.byte(place.wrapping_add(1)).unwrap_or(0);
        let offset = u16::from(low) + 256 * u16::from(high);
        let absent = absent_in(image, place, 10);
        if entry == from && absent.is_none() {
            first = Some(offset);
        }
        let block = job.target.wrapping_add(8 * u64::from(offset));
        let fault = if let Some(place) = absent {
            Some((Status::ReadFault, place))
        } else if last.is_some_and(|before| offset <= before) {
            Some((Status::NotRising, 0))
        } else if u32::from(offset) >= job.size / 8 {
            Some((Status::OffsetRange, 0))
        } else {
            absent_in(image, block, 8).map(|place| (Status::WriteFault, place))
        };
        if let Some((status, place)) = fault {
            return Ok((bad(entry, status, place), (first, last), staged));
        }
        last = Some(offset);
        for i in 0..10 {
            staged.push(image.byte(place.wrapping_add(i)).unwrap_or(0))?;
        }
    }
    Ok((None, (first, last), staged))
}

/// The bytes of seven entries, with the offsets 1, 3, 5 and so on but for one.
fn record_with(place: u16, odd: u16) -> [u8; 70] {
    let mut record = [7; 70];
    for i in 0..7 {
        let offset: u16 = if i == place { odd } else { 2 * i + 1 };
        let [low, high] = offset.to_le_bytes();
        record[10 * i as usize] = low;
        record[10 * i as usize + 1] = high;
    }
    record
}

// Every place of the record round a page's end, the page behind it present or absent, and an entry that does not
// rise, that is out of range or whose block is absent, at every place among seven.
#[test]
fn entries_at_page_ends(rt: HostRuntime) -> Result<(), Fail> {
    let mut arena = Arena::new(rt.alloc(), STAGING)?;
    for second in [1, 2] {
        for start in 4056..4098 {
            for odd in [1, 6, 20, 300] {
                for place in [0, 1, 3, 6] {
                    let record = record_with(place, odd);
                    let pokes: [(u64, &[u8]); 1] = [(start, record.as_slice())];
                    let image = image_of(rt.alloc(), 4, &[0, second, 2], &pokes)?;
                    let job = Job::apply_delta(start, 70, 12_208, 800);
                    for chunk in [(0, 7), (0, 3), (2, 7), (3, 4)] {
                        let (fault, offsets, staged) = slow_apply(rt.alloc(), &image, &job, chunk)?;
                        let want: [Applied; 1] = [(chunk, fault, offsets, staged.as_slice())];
                        expect_applied(&rt, &image, &mut arena, &job, &want);
                    }
                }
            }
        }
    }
    Ok(())
}
