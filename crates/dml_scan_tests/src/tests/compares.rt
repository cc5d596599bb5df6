//! Compares against what each byte alone says, and worked rows at chunks of several sizes.
use super::{PLACES, STAGING, expect_piece, expect_pieces, found_of, piece_of, read_fault};
use dml_arena::Arena;
use dml_desc::check;
use dml_image::{Image, ImageError};
use dml_scan::Found;
use dml_types::Job;
use std::alloc::Global;
use std::process::Abort;
use std::test::Fail;

const PATTERN: u64 = 0x0807_0605_0403_0201;

/// An image whose present pages hold one byte everywhere, but another one at some places.
fn image_but(
    alloc: Global,
    pages: &[u32],
    byte: u8,
    unlike: &[u64],
) -> Result<Image<'static>, ImageError> {
    let mut image = Image::new(alloc, 5)?;
    for page in pages {
        let mut bytes = [byte; 4096];
        for place in unlike {
            if *place / 4096 == u64::from(*page) {
                bytes[*place as usize % 4096] = !byte;
            }
        }
        image.bring(*page, &bytes)?;
    }
    Ok(image)
}

#[test]
fn compares_by_bytes(rt: HostRuntime) -> Result<(), Fail> {
    let image = image_but(rt.alloc(), &[0, 1, 3], 0x5a, &[40, 4095, 12_300, 16_383])?;
    let mut arena = Arena::new(rt.alloc(), STAGING)?;
    for source in PLACES {
        for target in PLACES {
            for size in [0, 1, 11, 37, 300] {
                let job = Job::compare(source, target, size);
                expect_pieces(&rt, &image, &mut arena, &job);
            }
        }
    }
    Ok(())
}

#[test]
fn pattern_compares_by_bytes(rt: HostRuntime) -> Result<(), Fail> {
    let image = image_but(rt.alloc(), &[0, 1, 3], 0x5a, &[40, 4095, 12_300, 16_383])?;
    let mut arena = Arena::new(rt.alloc(), STAGING)?;
    for source in PLACES {
        for size in [0, 1, 11, 37, 300, 8200] {
            for pattern in [0x5a5a_5a5a_5a5a_5a5a, 0x5a5a_5aa5_5a5a_5a5a] {
                let job = Job::compare_pattern(source, pattern, size);
                expect_pieces(&rt, &image, &mut arena, &job);
            }
        }
    }
    Ok(())
}

/// Chunks that begin at no multiple of 8.
#[test]
fn compares_from_any_offset(rt: HostRuntime) -> Result<(), Fail> {
    let image = image_but(rt.alloc(), &[0, 1, 3], 0x5a, &[40, 4095, 12_300, 16_383])?;
    let mut arena = Arena::new(rt.alloc(), STAGING)?;
    for source in PLACES {
        for job in [
            Job::compare(source, 5, 300),
            Job::compare(5, source, 300),
            Job::compare_pattern(source, 0x5a5a_5a5a_5a5a_5a5a, 300),
            Job::compare_pattern(source, 0x5aa5_5a5a_5a5a_5a5a, 300),
        ] {
            for chunk in [(3, 100), (1, 300), (37, 45), (299, 300)] {
                expect_piece(&rt, &image, &mut arena, &job, chunk);
            }
        }
    }
    Ok(())
}

/// A difference in each step of two blocks of four, and behind them: of two ranges, and of a range and a pattern in the
/// second page of the range.
#[test]
fn compares_of_blocks(rt: HostRuntime) -> Result<(), Fail> {
    let mut arena = Arena::new(rt.alloc(), STAGING)?;
    for place in [
        0, 127, 128, 300, 383, 384, 511, 512, 639, 640, 900, 1023, 1024, 1151, 1152, 1160, 1199,
    ] {
        let image = image_but(rt.alloc(), &[0, 1], 0x5a, &[4096 + u64::from(place)])?;
        for len in [1200, 1199, 1152, 1024, 640, 512, 384, 383, 128] {
            let job = Job::compare(100, 4096, len);
            let want = if place < len {
                Found::Differs { done: place }
            } else {
                Found::All
            };
            let found = found_of(&rt, &image, &mut arena, &job);
            assert_eq!(rt; found, want, "{len} with another byte at {place}");
            let job = Job::compare_pattern(3996, 0x5a5a_5a5a_5a5a_5a5a, 100 + len);
            let want = if place < len {
                Found::Differs { done: 100 + place }
            } else {
                Found::All
            };
            let found = found_of(&rt, &image, &mut arena, &job);
            assert_eq!(rt;
                found,
                want,
                "a pattern: {len} with another byte at {place}"
            );
        }
    }
    Ok(())
}

/// A difference before, at and behind the place from which on a long chunk is compared with a pattern in blocks, 1,024
/// bytes from its beginning: where the page ends far behind it, there, and a byte beside.
#[test]
fn pattern_compares_behind_a_kibibyte(rt: HostRuntime) -> Result<(), Fail> {
    let mut arena = Arena::new(rt.alloc(), STAGING)?;
    for source in [0_u32, 5, 3071, 3072, 3073] {
        for place in [1022_u32, 1023, 1024, 1025, 1535, 1536, 2047, 2048] {
            let unlike = u64::from(source) + u64::from(place);
            let image = image_but(rt.alloc(), &[0, 1], 0x5a, &[unlike])?;
            for len in [2047_u32, 2048, 2049, 4096] {
                let job = Job::compare_pattern(source.into(), 0x5a5a_5a5a_5a5a_5a5a, len);
                let want = if place < len {
                    Found::Differs { done: place }
                } else {
                    Found::All
                };
                let found = found_of(&rt, &image, &mut arena, &job);
                assert_eq!(rt;
                    found,
                    want,
                    "{len} from {source} with another byte at {place}"
                );
            }
        }
    }
    Ok(())
}

/// How a job ends that is cut in chunks of one size: the first stop of a chunk, counted from the job's start.
fn stop_of_chunks(
    rt: &impl Abort,
    image: &Image,
    arena: &mut Arena,
    job: &Job,
    chunk: u32,
) -> Found {
    assert!(rt; chunk > 0);
    let checked = check(job, STAGING).expect(rt, "an accepted job");
    for from in 0..job.size {
        if from % chunk == 0 {
            let to = from.saturating_add(chunk).min(job.size);
            match piece_of(rt, image, &checked, (from, to), arena.open()).found {
                Found::All => (),
                Found::Differs { done } => {
                    return Found::Differs {
                        done: from.saturating_add(done),
                    };
                }
                Found::Fault { done, place, write } => {
                    return Found::Fault {
                        done: from.saturating_add(done),
                        place,
                        write,
                    };
                }
            }
        }
    }
    Found::All
}

fn expect_stop(rt: &impl Abort, image: &Image, arena: &mut Arena, job: &Job, want: Found) {
    for chunk in [8, 16, 32, 4096, 8192, 16_384] {
        let found = stop_of_chunks(rt, image, arena, job, chunk);
        assert_eq!(rt; found, want, "{job:?} in chunks of {chunk}");
    }
}

#[test]
fn mismatch_before_fault(rt: HostRuntime) -> Result<(), Fail> {
    let image = image_but(rt.alloc(), &[0, 2], 0, &[4095])?;
    let mut arena = Arena::new(rt.alloc(), STAGING)?;
    let job = Job::compare(0, 8192, 8192);
    expect_stop(&rt, &image, &mut arena, &job, Found::Differs { done: 4095 });
    Ok(())
}

#[test]
fn compare_stops_at_page_edge(rt: HostRuntime) -> Result<(), Fail> {
    let image = image_but(rt.alloc(), &[0, 2, 3], 0, &[13_192])?;
    let mut arena = Arena::new(rt.alloc(), STAGING)?;
    let job = Job::compare(0, 8192, 8192);
    expect_stop(&rt, &image, &mut arena, &job, read_fault(4096, 4096));
    let job = Job::compare(8192, 0, 8192);
    expect_stop(&rt, &image, &mut arena, &job, read_fault(4096, 4096));
    Ok(())
}

#[test]
fn first_range_is_read_first(rt: HostRuntime) -> Result<(), Fail> {
    let image = image_but(rt.alloc(), &[0, 2], 0, &[])?;
    let mut arena = Arena::new(rt.alloc(), STAGING)?;
    let job = Job::compare(8192, 0, 8192);
    expect_stop(&rt, &image, &mut arena, &job, read_fault(4096, 12_288));
    Ok(())
}

#[test]
fn pattern_expected(rt: HostRuntime) -> Result<(), Fail> {
    let mut image = Image::new(rt.alloc(), 1)?;
    let mut page = [0; 4096];
    page[..11].copy_from_slice(&[1, 2, 3, 4, 5, 6, 7, 8, 1, 2, 3]);
    image.bring(0, &page)?;
    let mut arena = Arena::new(rt.alloc(), STAGING)?;
    let equal = Job::compare_pattern(0, PATTERN, 11);
    expect_stop(&rt, &image, &mut arena, &equal, Found::All);
    let unequal = Job::compare_pattern(0, PATTERN, 12);
    expect_stop(
        &rt,
        &image,
        &mut arena,
        &unequal,
        Found::Differs { done: 11 },
    );
    Ok(())
}
