//! Each kernel at every length up to 130 and every place of the first difference, at the edge of a page.
use super::{STAGING, found_of, read_fault};
use dml_arena::Arena;
use dml_image::{Image, ImageError};
use dml_scan::Found;
use dml_types::Job;
use std::alloc::Global;
use std::test::Fail;

/// The longest range.
const MOST: u32 = 130;

/// Where the range that crosses no edge begins, on the third page.
const ASIDE: u64 = 8192;

const PATTERN: u64 = 0x8877_6655_4433_2211;

/// A page whose bytes count up, so that an address has 0.
fn counting(page: u64, from: u64) -> [u8; 4096] {
    let mut bytes = [0; 4096];
    for (i, byte) in bytes.iter_mut().enumerate() {
        let place = page.wrapping_mul(4096).wrapping_add(i as u64);
        *byte = (place.wrapping_sub(from) % 251) as u8;
    }
    bytes
}

/// A page that repeats the pattern, so that an address has its first byte.
fn patterned(page: u64, from: u64) -> [u8; 4096] {
    let mut bytes = counting(page, 0);
    for (i, byte) in bytes.iter_mut().enumerate() {
        let place = page.wrapping_mul(4096).wrapping_add(i as u64);
        *byte = PATTERN.to_le_bytes()[(place.wrapping_sub(from) % 8) as usize];
    }
    bytes
}

/// An image of three pages, the second of which may be absent.
fn image_of(
    alloc: Global,
    pages: &[[u8; 4096]; 3],
    second: bool,
) -> Result<Image<'static>, ImageError> {
    let mut image = Image::new(alloc, 3)?;
    image.bring(0, &pages[0])?;
    if second {
        image.bring(1, &pages[1])?;
    }
    image.bring(2, &pages[2])?;
    Ok(image)
}

/// How a compare of `len` bytes ends whose one range begins at `edge`, with the first difference at `place`.
fn wanted(edge: u64, second: bool, len: u32, place: u32) -> Found {
    let end = 4096_u64.saturating_sub(edge) as u32;
    let there = if second { len } else { len.min(end) };
    if place < there {
        Found::Differs { done: place }
    } else if there == len {
        Found::All
    } else {
        read_fault(there, 4096)
    }
}

#[test]
fn compares_at_page_edges(rt: HostRuntime) -> Result<(), Fail> {
    let mut arena = Arena::new(rt.alloc(), STAGING)?;
    for edge in 4088..4097 {
        let mut pages = [counting(0, edge), counting(1, edge), counting(2, ASIDE)];
        for place in 0..MOST + 1 {
            pages[2][place as usize] ^= 0x80;
            for second in [true, false] {
                let image = image_of(rt.alloc(), &pages, second)?;
                for len in 0..MOST + 1 {
                    let want = wanted(edge, second, len, place);
                    for job in [
                        Job::compare(edge, ASIDE, len),
                        Job::compare(ASIDE, edge, len),
                    ] {
                        assert_eq!(rt;
                            found_of(&rt, &image, &mut arena, &job),
                            want,
                            "{job:?} {place}"
                        );
                    }
                }
            }
            pages[2][place as usize] ^= 0x80;
        }
    }
    Ok(())
}

#[test]
fn pattern_compares_at_page_edges(rt: HostRuntime) -> Result<(), Fail> {
    let mut arena = Arena::new(rt.alloc(), STAGING)?;
    for edge in 4088..4097 {
        for place in 0..MOST + 1 {
            let mut pages = [patterned(0, edge), patterned(1, edge), [0; 4096]];
            let address = edge as usize + place as usize;
            pages[address / 4096][address % 4096] ^= 0x80;
            for second in [true, false] {
                let image = image_of(rt.alloc(), &pages, second)?;
                for len in 0..MOST + 1 {
                    let job = Job::compare_pattern(edge, PATTERN, len);
                    let want = wanted(edge, second, len, place);
                    assert_eq!(rt;
                        found_of(&rt, &image, &mut arena, &job),
                        want,
                        "{job:?} {place}"
                    );
                }
            }
        }
    }
    Ok(())
}
