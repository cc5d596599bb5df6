//! Pieces of many chunks against what each byte alone says, and the stops of worked jobs.
use dml_arena::{Arena, Region};
use dml_desc::{Checked, check};
use dml_image::{Image, ImageError};
use dml_scan::{
    Found, ScanPiece, scan_compare, scan_compare_pattern, scan_dualcast, scan_fill, scan_move,
    work_direction,
};
use dml_types::{Direction, Job, Op};
use std::alloc::Global;
use std::process::Abort;
use std::test::Fail;

mod compares;
mod lanes;

/// The staging size, in bytes.
const STAGING: u32 = 16_384;

/// An image whose present pages hold bytes that differ from place to place.
fn image_with(alloc: Global, pages: u32, brought: &[u32]) -> Result<Image<'static>, ImageError> {
    let mut image = Image::new(alloc, pages)?;
    for page in brought {
        let mut bytes = [0; 4096];
        for (i, byte) in bytes.iter_mut().enumerate() {
            *byte = ((i % 251) as u8) ^ ((*page % 256) as u8);
        }
        image.bring(*page, &bytes)?;
    }
    Ok(image)
}

/// The piece of a chunk of a job that a scan takes, in a region.
fn piece_of<'a>(
    rt: &impl Abort,
    image: &Image,
    job: &Checked,
    chunk: (u32, u32),
    room: Region<'a>,
) -> ScanPiece<'a> {
    let (from, to) = chunk;
    assert!(rt; from <= to && to <= job.job().size);
    assert!(rt; room.bytes().is_empty() && to - from <= room.room());
    match job.op() {
        Op::Move => scan_move(image, job, from, to, room),
        Op::Fill => scan_fill(image, job, from, to, room),
        Op::Compare => scan_compare(image, job, from, to, room),
        Op::ComparePattern => scan_compare_pattern(image, job, from, to, room),
        Op::Dualcast => scan_dualcast(image, job, from, to, room),
        op => panic!(rt; "{op:?} has no scan"),
    }
}

/// Whether a job works downwards: a move whose destination lies inside its source, behind the first byte.
fn is_downward(job: &Job) -> bool {
    job.opcode == 0x03 && (1..job.size).any(|i| job.source.wrapping_add(u64::from(i)) == job.target)
}

/// The first absent byte of those that a job touches at an offset, and whether it is written.
fn absent_at(image: &Image, job: &Job, offset: u32) -> Option<(u64, bool)> {
    let offset = u64::from(offset);
    let source = (job.source.wrapping_add(offset), false);
    let compared = (job.target.wrapping_add(offset), false);
    let target = (job.target.wrapping_add(offset), true);
    let extra = (job.extra.wrapping_add(offset), true);
    let touched = match job.op() {
        Some(Op::Fill) => [target, target, target],
        Some(Op::Compare) => [source, compared, compared],
        Some(Op::ComparePattern) => [source, source, source],
        Some(Op::Dualcast) => [source, target, extra],
        _ => [source, target, target],
    };
    touched.into_iter().find(|(place, _)| !image.has(*place))
}

/// Whether a compare's byte at an offset differs from the one that it is compared with.
fn differs_at(image: &Image, job: &Job, offset: u32) -> bool {
    let byte = image.byte(job.source.wrapping_add(u64::from(offset)));
    match job.op() {
        Some(Op::Compare) => byte != image.byte(job.target.wrapping_add(u64::from(offset))),
        Some(Op::ComparePattern) => byte != Some(job.target.to_le_bytes()[offset as usize % 8]),
        _ => false,
    }
}

/// How the scan of a chunk ends, byte by byte.
fn slow_found(image: &Image, job: &Job, from: u32, to: u32) -> Found {
    let len = to.saturating_sub(from);
    let downward = is_downward(job);
    for done in 0..len {
        let offset = if downward {
            to.saturating_sub(1).saturating_sub(done)
        } else {
            from.saturating_add(done)
        };
        if let Some((place, write)) = absent_at(image, job, offset) {
            return Found::Fault { done, place, write };
        }
        if differs_at(image, job, offset) {
            return Found::Differs { done };
        }
    }
    Found::All
}

/// Scans a chunk of a job, and compares the piece with what each byte alone says.
fn expect_piece(rt: &impl Abort, image: &Image, arena: &mut Arena, job: &Job, chunk: (u32, u32)) {
    let (from, to) = chunk;
    let checked = check(job, STAGING).expect(rt, "an accepted job");
    let piece = piece_of(rt, image, &checked, chunk, arena.open());
    let found = slow_found(image, job, from, to);
    assert_eq!(rt;
        (piece.from, piece.to, piece.found),
        (from, to, found),
        "{job:?} {chunk:?}"
    );
    let done = match found {
        Found::Fault { done, .. } => done,
        _ => to.saturating_sub(from),
    };
    let (first, len) = match checked.op() {
        Op::Fill | Op::Compare | Op::ComparePattern => (from, 0),
        _ if is_downward(job) => (to.saturating_sub(done), done),
        _ => (from, done),
    };
    let staged = piece.staged.bytes();
    assert_eq!(rt; staged.len() as u32, len, "{job:?} {chunk:?}");
    for (i, byte) in staged.iter().enumerate() {
        let place = job
            .source
            .wrapping_add(u64::from(first))
            .wrapping_add(i as u64);
        assert_eq!(rt; image.byte(place), Some(*byte), "{job:?} {chunk:?} at {i}");
    }
}

/// Scans a job whole, and in chunks of several sizes, the last one shorter.
fn expect_pieces(rt: &impl Abort, image: &Image, arena: &mut Arena, job: &Job) {
    for chunk in [8, 16, 4096, 8192] {
        assert!(rt; chunk > 0);
        for from in 0..job.size {
            if from % chunk == 0 {
                let to = from.saturating_add(chunk).min(job.size);
                expect_piece(rt, image, arena, job, (from, to));
            }
        }
    }
    expect_piece(rt, image, arena, job, (0, job.size));
    expect_piece(rt, image, arena, job, (job.size, job.size));
}

/// Addresses whose ranges end, begin or cross at the edges of pages, of which 0, 1 and 3 of 5 are present.
const PLACES: [u64; 9] = [0, 5, 4085, 4096, 8176, 8192, 12280, 16370, 20470];

#[test]
fn moves_by_bytes(rt: HostRuntime) -> Result<(), Fail> {
    let image = image_with(rt.alloc(), 5, &[0, 1, 3])?;
    let mut arena = Arena::new(rt.alloc(), STAGING)?;
    for source in PLACES {
        for target in PLACES {
            for size in [0, 1, 11, 12, 37] {
                let job = Job::move_bytes(source, target, size);
                expect_pieces(&rt, &image, &mut arena, &job);
            }
        }
    }
    Ok(())
}

// Destinations before, at and behind the first byte of the source, and at its end, over several pages.
#[test]
fn overlapping_moves_by_bytes(rt: HostRuntime) -> Result<(), Fail> {
    let image = image_with(rt.alloc(), 4, &[0, 1, 3])?;
    let mut arena = Arena::new(rt.alloc(), STAGING)?;
    for (source, target, size) in [
        (4000, 3990, 300),
        (4000, 4000, 300),
        (4000, 4001, 300),
        (4000, 4299, 300),
        (4000, 4300, 300),
        (0, 9, 8183),
        (0, 9, 8184),
        (9, 0, 8190),
        (8190, 8200, 4100),
        (8200, 8190, 4100),
        (12285, 12288, 40),
    ] {
        let job = Job::move_bytes(source, target, size);
        for chunk in [
            (0, size),
            (0, 24.min(size)),
            (size.saturating_sub(17), size),
            (3, size.saturating_sub(2)),
        ] {
            expect_piece(&rt, &image, &mut arena, &job, chunk);
        }
    }
    Ok(())
}

#[test]
fn dualcasts_by_bytes(rt: HostRuntime) -> Result<(), Fail> {
    let image = image_with(rt.alloc(), 10, &[0, 1, 3, 5, 6, 9])?;
    let mut arena = Arena::new(rt.alloc(), STAGING)?;
    for source in [0, 4090, 8180, 36850] {
        for (target, extra) in [
            (100, 4196),
            (108, 8300),
            (8300, 108),
            (12280, 20472),
            (16380, 24572),
            (24572, 16380),
            (16380, 40956),
        ] {
            for size in [0, 1, 7, 10, 33] {
                let job = Job::dualcast(source, target, extra, size);
                expect_pieces(&rt, &image, &mut arena, &job);
            }
        }
    }
    Ok(())
}

#[test]
fn fills_by_bytes(rt: HostRuntime) -> Result<(), Fail> {
    let image = image_with(rt.alloc(), 5, &[0, 1, 3])?;
    let mut arena = Arena::new(rt.alloc(), STAGING)?;
    for target in PLACES {
        for size in [0, 1, 11, 12, 37, 8200] {
            let job = Job::fill(0x0807_0605_0403_0201, target, size);
            expect_pieces(&rt, &image, &mut arena, &job);
        }
    }
    Ok(())
}

/// How the scan of a whole job ends.
fn found_of(rt: &impl Abort, image: &Image, arena: &mut Arena, job: &Job) -> Found {
    let checked = check(job, STAGING).expect(rt, "an accepted job");
    piece_of(rt, image, &checked, (0, job.size), arena.open()).found
}

fn read_fault(done: u32, place: u64) -> Found {
    Found::Fault {
        done,
        place,
        write: false,
    }
}

fn write_fault(done: u32, place: u64) -> Found {
    Found::Fault {
        done,
        place,
        write: true,
    }
}

#[test]
fn stops_of_moves(rt: HostRuntime) -> Result<(), Fail> {
    let first = image_with(rt.alloc(), 2, &[0])?;
    let ends = image_with(rt.alloc(), 3, &[0, 2])?;
    let mut arena = Arena::new(rt.alloc(), STAGING)?;
    let end_of_addresses = 0xffff_ffff_ffff_fff0;
    for (name, job, want) in [
        (
            "backward_move_into_absent_page",
            Job::move_bytes(0, 4, 4096),
            write_fault(0, 4099),
        ),
        (
            "end_of_address_space",
            Job::move_bytes(end_of_addresses, 0, 16),
            read_fault(0, end_of_addresses),
        ),
    ] {
        assert_eq!(rt; found_of(&rt, &first, &mut arena, &job), want, "{name}");
    }
    let stops_at_the_edge = Job::move_bytes(0, 8, 12272);
    assert_eq!(rt;
        found_of(&rt, &ends, &mut arena, &stops_at_the_edge),
        read_fault(4080, 8191),
        "backward_move_stops_at_page_edge"
    );
    let over_itself = Job::move_bytes(4, 0, 100);
    assert_eq!(rt; found_of(&rt, &first, &mut arena, &over_itself), Found::All);
    let empty_at_the_end = Job::move_bytes(u64::MAX, u64::MAX, 0);
    assert_eq!(rt;
        found_of(&rt, &first, &mut arena, &empty_at_the_end),
        Found::All
    );
    Ok(())
}

#[test]
fn stops_of_fills_and_dualcasts(rt: HostRuntime) -> Result<(), Fail> {
    let first = image_with(rt.alloc(), 2, &[0])?;
    let three = image_with(rt.alloc(), 4, &[0, 1, 3])?;
    let mut arena = Arena::new(rt.alloc(), STAGING)?;
    let pattern = 0x0807_0605_0403_0201;
    for (name, job, want) in [
        (
            "fill_into_absent_page",
            Job::fill(pattern, 4090, 12),
            write_fault(6, 4096),
        ),
        (
            "resume_a_fill",
            Job::fill(pattern, 4091, 9),
            write_fault(5, 4096),
        ),
        (
            "dualcast_refusals",
            Job::dualcast(0, 4096, 8192, 4),
            write_fault(0, 4096),
        ),
    ] {
        assert_eq!(rt; found_of(&rt, &first, &mut arena, &job), want, "{name}");
    }
    let stops_at_the_second = Job::dualcast(0, 8190, 16382, 5);
    assert_eq!(rt;
        found_of(&rt, &three, &mut arena, &stops_at_the_second),
        write_fault(2, 8192),
        "dualcast_write_fault"
    );
    Ok(())
}

#[test]
fn directions_of_work(rt: HostRuntime) -> Result<(), Fail> {
    for (job, want) in [
        (Job::move_bytes(100, 101, 8), Direction::Backward),
        (Job::move_bytes(100, 107, 8), Direction::Backward),
        (Job::move_bytes(100, 108, 8), Direction::Forward),
        (Job::move_bytes(100, 100, 8), Direction::Forward),
        (Job::move_bytes(101, 100, 8), Direction::Forward),
        (Job::compare(100, 101, 8), Direction::Forward),
        (Job::fill(100, 101, 8), Direction::Forward),
    ] {
        let checked = check(&job, STAGING).expect(&rt, "an accepted job");
        assert_eq!(rt; work_direction(&checked), want, "{job:?}");
    }
    Ok(())
}
