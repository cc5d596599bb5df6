//! Pages that are present, in random segments, and the same pages as an image's own.

use crate::random::Random;
use anyhow::{bail, ensure};
use dml_image::{Image, Segment, are_segments};
use std::alloc::{AllocError, Global};
use std::mem;

/// Where a segment lies: its first page, and the page behind it.
#[derive(Clone, Copy)]
pub(crate) struct Place {
    first: u32,
    end: u32,
}

/// One to eight segments of up to three pages, and one of a single page: each behind a hole of up to three pages, or
/// right behind the one before.
pub(crate) fn places(alloc: Global, random: &mut Random) -> Result<Vec<Place>, AllocError> {
    let mut places = Vec::new(alloc);
    let mut end = 0_u32;
    for _ in 0..1 + random.below(8) {
        let hole = if random.one_in(3) { random.below(4) } else { 0 };
        let first = end.wrapping_add(hole);
        end = first.wrapping_add(random.below(4));
        places.push(Place { first, end })?;
    }
    let first = end;
    places.push(Place {
        first,
        end: first.wrapping_add(1),
    })?;
    Ok(places)
}

/// The pages up to the end of the last segment.
pub(crate) fn pages_of(places: &[Place]) -> u32 {
    places.last().map_or(0, |place| place.end)
}

/// The bytes of all segments, one behind the other: those of a page mostly alike, so that compares come far and creates
/// find few blocks that differ.
pub(crate) fn content_of(
    alloc: Global,
    random: &mut Random,
    places: &[Place],
) -> Result<Vec<u8>, AllocError> {
    let mut content = Vec::new(alloc);
    for place in places {
        for _ in place.first..place.end {
            let mut page = [random.below(3) as u8; 4096];
            for _ in 0..random.below(6) {
                page[random.below(4096) as usize] = random.below(256) as u8;
            }
            content.extend_from_slice(&page)?;
        }
    }
    Ok(content)
}

/// An image of its own pages with those bytes.
pub(crate) fn own_image(
    alloc: Global,
    places: &[Place],
    content: &[u8],
) -> anyhow::Result<Image<'static>> {
    let mut image = Image::new(alloc, pages_of(places))?;
    let (pages, _) = content.as_chunks::<4096>();
    let mut pages = pages.iter();
    for place in places {
        for (number, page) in (place.first..place.end).zip(pages.by_ref()) {
            image.bring(number, page)?;
        }
    }
    Ok(image)
}

/// Those bytes in segments.
fn segments_of<'a>(
    alloc: Global,
    places: &[Place],
    content: &'a mut [u8],
) -> anyhow::Result<Vec<Segment<'a>>> {
    let mut segments = Vec::with_capacity(alloc, places.len())?;
    let mut rest = content;
    for place in places {
        let len = 4096 * place.end.saturating_sub(place.first) as usize;
        let Some((bytes, behind)) = mem::take(&mut rest).split_at_mut_checked(len) else {
            bail!("there are too few bytes");
        };
        if segments.push(Segment::new(place.first, bytes)).is_err() {
            bail!("no memory");
        }
        rest = behind;
    }
    Ok(segments)
}

/// An image over those bytes in segments.
pub(crate) fn lent_image<'a>(
    alloc: Global,
    places: &[Place],
    content: &'a mut [u8],
) -> anyhow::Result<Image<'a>> {
    let segments = segments_of(alloc, places, content)?;
    ensure!(are_segments(&segments), "these segments are no memory");
    Ok(Image::over_segments(segments))
}

/// Whether two images have the same pages with the same bytes.
pub(crate) fn are_alike(one: &Image, other: &Image) -> bool {
    one.pages() == other.pages()
        && (0..one.pages()).all(|page| {
            let addr = 4096 * u64::from(page);
            match (one.has(addr), other.has(addr)) {
                (true, true) => one.part(addr, 4096) == other.part(addr, 4096),
                (here, there) => here == there,
            }
        })
}
