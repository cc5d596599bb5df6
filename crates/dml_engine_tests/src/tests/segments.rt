//! Lists and batches over memory in segments: the rows, cut at each choice of their pages into two to eight segments,
//! of which some are empty, and jobs over eight segments with holes between them, with workers and without.
ghost use Rattle.dml_image.specs.Pieces.{AreSegments, pieces_of};

use super::claims::{holds, same};
use super::kinds::{expect_same, over_image};
use super::rows::{Row, Way, delta_answer, page_of};
use super::{USUAL, answer, put};
use dml_engine::EngineOver;
use dml_image::{Image, Segment, are_segments};
use dml_types::{Job, Record, Settings, Status, law_of_loans};
use std::alloc::Global;
use std::mem;
use std::process::Abort;
use std::sync::Wait;
use std::thread::Threads;

/// Bytes of a row's pages, one behind the other, those of absent pages 0.
fn content_of(alloc: Global, row: &Row) -> Option<Vec<u8>> {
    let mut content = vec![in alloc; 0; 4096 * row.pages as usize].ok()?;
    for (page, bytes) in content.chunks_exact_mut(4096).enumerate() {
        let number = u32::try_from(page).ok()?;
        if row.present.contains(&number) {
            put(bytes, &page_of(row, number));
        }
    }
    Some(content)
}

/// Whether a segment ends in front of a page: the last one's end, where presence changes, and where the bit of the page
/// is set in `cuts`.
fn ends_at(row: &Row, page: u32, cuts: u32) -> bool {
    page >= row.pages
        || row.present.contains(&page) != row.present.contains(&page.saturating_sub(1))
        || (page < 32 && cuts & (1 << page) != 0)
}

/// The segments of a row's pages that are present, cut so, and an empty one behind the last page, so that there are as
/// many pages where that is absent. Where these are fewer than `least`, more empty ones stand in front of others, at
/// the pages where those begin, in holes, and behind.
fn segments_of<'a>(
    alloc: Global,
    row: &Row,
    content: &'a mut [u8],
    cuts: u32,
    least: usize,
) -> Option<Vec<Segment<'a>>> {
    let mut segments = Vec::new(alloc);
    let (mut rest, mut first) = (content, 0_u32);
    for page in 1..=row.pages {
        if ends_at(row, page, cuts) {
            let len = page.saturating_sub(first) as usize * 4096;
            let (front, back) = mem::take(&mut rest).split_at_mut_checked(len)?;
            if segments.len() < least / 2 {
                segments.push(Segment::new(first, &mut [])).ok()?;
            }
            if row.present.contains(&first) {
                segments.push(Segment::new(first, front)).ok()?;
            }
            rest = back;
            first = page;
        }
    }
    segments.push(Segment::new(row.pages, rest)).ok()?;
    for _ in segments.len()..least {
        segments.push(Segment::new(row.pages, &mut [])).ok()?;
    }
    Some(segments)
}

/// How many segments a row has at least, by the bytes of a task: with the ones that its pages alone give, two to eight.
fn least(chunk: u32) -> usize {
    match chunk {
        8 => 8,
        16 => 7,
        32 => 6,
        _ => 0,
    }
}

/// A row's answers over its pages in segments, cut so, with the engine's own gate or with one given.
fn expect_cut<R: Abort + Threads + Wait + Sync>(
    rt: &R,
    alloc: Global,
    row: &Row,
    way: Way,
    settings: Settings,
    given: bool,
    cuts: u32,
) -> Vec<u8> {
    let mut content = content_of(alloc, row).expect(rt, "no memory");
    let least = least(settings.chunk);
    let segments = segments_of(alloc, row, content.as_mut_slice(), cuts, least);
    let segments = segments.expect(rt, "no segments");
    assert!(rt; are_segments(&segments));
    let image = Image::over_segments(segments);
    over_image(rt, alloc, row, way, settings, given, image);
    content
}

/// How many choices there are of pages in front of which a row is cut: of those behind the first, of three at most.
fn choices(row: &Row) -> u32 {
    match row.pages {
        0 | 1 => 1,
        2 => 2,
        3 => 4,
        _ => 8,
    }
}

/// A row's answers over its pages in segments that are cut in front of each choice of its pages, and what it leaves as
/// over an image's own pages. With a gate that is given it is cut in front of all.
pub(super) fn over_segments<R: Abort + Threads + Wait + Sync>(
    rt: &R,
    alloc: Global,
    row: &Row,
    way: Way,
    settings: Settings,
    given: bool,
    own: &Image,
) {
    let choices = choices(row);
    for choice in 0..choices {
        if !given || choice + 1 == choices {
            let content = expect_cut(rt, alloc, row, way, settings, given, choice << 1);
            expect_same(rt, row, own, content.as_slice());
        }
    }
}

/// How many segments there are.
const SEGMENTS: usize = 8;

/// Where a byte of a segment of two pages lies: behind each segment is a hole of two pages.
fn small(segment: u64, byte: u64) -> u64 {
    segment.wrapping_mul(16_384).wrapping_add(byte)
}

/// Where a segment of a mebibyte begins: behind each is a hole of a mebibyte.
fn large(segment: u64) -> u64 {
    segment.wrapping_mul(2_097_152)
}

/// The segments of a memory that is cut in eight, so many pages apart.
fn eight<'a>(rt: &impl Abort, alloc: Global, content: &'a mut [u8], apart: u32) -> Vec<Segment<'a>>
    ensures { AreSegments (pieces_of result.items) }
{
    let mut segments = Vec::with_capacity(alloc, SEGMENTS).expect(rt, "no memory");
    let len = content.len() / SEGMENTS;
    let mut rest = content;
    for number in 0..8_u32 {
        let (front, back) = mem::take(&mut rest)
            .split_at_mut_checked(len)
            .expect(rt, "too few bytes");
        let segment = Segment::new(number.wrapping_mul(apart), front);
        holds(rt, segments.push(segment).is_ok());
        rest = back;
    }
    assert!(rt; are_segments(&segments));
    segments
}

/// A pattern of sevens.
const SEVENS: u64 = 0x0707_0707_0707_0707;

/// Jobs from one segment of two pages to another, over both pages, and into holes.
fn small_jobs() -> [Job; 8] {
    [
        Job::fill(SEVENS, small(7, 0), 8192),
        Job::move_bytes(small(7, 0), small(0, 0), 8192),
        Job::dualcast(small(0, 100), small(1, 0), small(2, 4096), 4096),
        Job::compare(small(0, 0), small(1, 0), 8192),
        Job::create_delta(small(3, 0), small(2, 4088), 16, small(4, 4090), 20),
        Job::apply_delta(small(4, 4090), 10, small(5, 4088), 16),
        Job::move_bytes(small(0, 0), small(6, 8000), 400),
        Job::compare_pattern(small(7, 8184), SEVENS, 16),
    ]
}

/// What they answer, one after another.
fn small_records() -> [Record; 8] {
    [
        answer(Status::Success, 0, 8192, 0),
        answer(Status::Success, 0, 8192, 0),
        answer(Status::Success, 0, 4096, 0),
        answer(Status::Success, 1, 4096, 0),
        delta_answer(Status::Success, 1, 16, 0, 10),
        answer(Status::Success, 0, 10, 0),
        answer(Status::WriteFault, 0, 192, small(6, 8192)),
        answer(Status::ReadFault, 0, 8, small(7, 8192)),
    ]
}

/// What they leave of the segments, one behind the other, in which all is 0 at first.
fn small_left() -> [u8; 65_536] {
    let mut left = [0; 65_536];
    fill_with_sevens(&mut left, 0, 12_288); // segment 0 and the first page of segment 1
    fill_with_sevens(&mut left, 20_480, 24_576); // the second page of segment 2
    fill_with_sevens(&mut left, 36_860, 36_868); // in segment 4, an entry of the second block
    fill_with_sevens(&mut left, 45_056, 45_064); // in segment 5, that block
    fill_with_sevens(&mut left, 57_152, 65_536); // the end of segment 6, and segment 7
    if let Some(number) = left.get_mut(36_858) {
        *number = 1; // of that entry's block
    }
    left
}

/// Sets the bytes from one place up to another.
fn fill_with_sevens(bytes: &mut [u8], from: usize, to: usize) {
    if let Some(part) = bytes.get_mut(from..to) {
        part.fill(7);
    }
}

/// A list over eight segments, which are taken back from the engine.
fn expect_small_list<R: Abort + Threads + Wait + Sync>(rt: &R, alloc: Global, settings: Settings) {
    let mut content = [0; 65_536];
    let image = Image::over_segments(eight(rt, alloc, &mut content, 4));
    let Ok(mut engine) = EngineOver::new(alloc, image, settings) else {
        rt.panic("no memory");
    };
    law_of_loans();
    let Ok(records) = engine.submit_list(rt, alloc, &small_jobs()) else {
        rt.panic("refused");
    };
    same(rt, records.as_slice(), small_records().as_slice());
    same(rt, engine.into_image().into_segments().len(), SEGMENTS);
    holds(rt, content == small_left());
}

/// The same of a batch. Its apply waits for the create, and the last job, behind a job that faults, is abandoned.
fn expect_small_batch<R: Abort + Threads + Wait + Sync>(rt: &R, alloc: Global, settings: Settings) {
    let mut content = [0; 65_536];
    let image = Image::over_segments(eight(rt, alloc, &mut content, 4));
    let Ok(mut engine) = EngineOver::new(alloc, image, settings) else {
        rt.panic("no memory");
    };
    let (mut jobs, mut want) = (small_jobs(), small_records());
    jobs[5] = jobs[5].with_flags(0x01);
    jobs[7] = jobs[7].with_flags(0x01);
    want[7] = Record::refused(Status::Abandoned);
    law_of_loans();
    let Ok((own, records)) = engine.submit_batch(rt, alloc, &jobs) else {
        rt.panic("refused");
    };
    same(rt, (own.status, own.completed), (Status::BatchFailed, 7));
    same(rt, records.as_slice(), want.as_slice());
    same(rt, engine.into_image().into_segments().len(), SEGMENTS);
    holds(rt, content == small_left());
}

/// With 1, 2 and 16 workers, and tasks of 8 bytes and of a page: all alike.
#[test]
fn jobs_over_eight_segments(rt: HostRuntime) {
    for workers in [1, 2, 16] {
        for chunk in [8, 4096] {
            let settings = Settings {
                workers,
                chunk,
                ..USUAL
            };
            expect_small_list(&rt, rt.alloc(), settings);
            expect_small_batch(&rt, rt.alloc(), settings);
        }
    }
}

/// Jobs of a mebibyte each, of two levels and worth several workers.
fn large_jobs() -> [Job; 7] {
    [
        Job::fill(SEVENS, large(0), 1_048_576),
        Job::compare_pattern(large(1), 0, 1_048_576),
        Job::compare(large(2), large(3), 1_048_576),
        Job::move_bytes(large(0), large(4), 1_048_576),
        Job::compare_pattern(large(4), SEVENS, 1_048_576),
        Job::compare(large(0), large(4), 1_048_576),
        Job::compare(large(5), large(6), 1_048_576),
    ]
}

/// A list of work enough for several workers.
fn expect_large_list<R: Abort + Threads + Wait + Sync>(rt: &R, alloc: Global, settings: Settings) {
    let content = vec![in alloc; 0; SEGMENTS * 1_048_576];
    let mut content = content.expect(rt, "no memory");
    let image = Image::over_segments(eight(rt, alloc, content.as_mut_slice(), 512));
    let Ok(mut engine) = EngineOver::new(alloc, image, settings) else {
        rt.panic("no memory");
    };
    let records = engine.submit_list(rt, alloc, &large_jobs());
    let records = records.expect(rt, "refused");
    let want = [answer(Status::Success, 0, 1_048_576, 0); 7];
    same(rt, records.as_slice(), want.as_slice());
    drop(engine);
    for (segment, bytes) in content.chunks_exact(1_048_576).enumerate() {
        let byte = if segment == 0 || segment == 4 { 7 } else { 0 };
        assert!(rt; bytes.iter().all(|there| *there == byte), "{segment}");
    }
}

/// With 1, 2 and 16 workers: all alike. How many of them are started is counted beside the tests.
#[test]
fn list_on_workers_over_eight_segments(rt: HostRuntime) {
    for workers in [1, 2, 16] {
        let settings = Settings {
            workers,
            chunk: 65_536,
            ..USUAL
        };
        expect_large_list(&rt, rt.alloc(), settings);
    }
}
