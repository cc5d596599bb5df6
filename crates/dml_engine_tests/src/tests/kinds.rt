//! Rows over each kind of memory: an image's own pages, pages that a caller lends, and memory lent in one piece or in
//! segments.

use super::lent::{blank_pages, lent};
use super::rows::{
    Row, Way, bring_pages, engine_of, expect_from, expect_own, expect_records, page_of, settings,
    with_given,
};
use super::segments::over_segments;
use dml_effect::are_whole_pages;
use dml_engine::{EngineOver, run_batch_over, run_list_over};
use dml_image::{Image, Whole};
use dml_types::Settings;
use std::alloc::Global;
use std::process::Abort;
use std::sync::Wait;
use std::thread::Threads;

/// Expects what a row answers at all settings, with the engine's own gate and with one given, over each kind of memory,
/// and without an engine.
pub(super) fn everywhere<R: Abort + Threads + Wait + Sync>(
    rt: &R,
    alloc: Global,
    row: &Row,
    way: Way,
) {
    for settings in settings(row.staging) {
        for given in [false, true] {
            over_each(rt, alloc, row, way, settings, given);
        }
    }
}

/// The same at these settings.
fn over_each<R: Abort + Threads + Wait + Sync>(
    rt: &R,
    alloc: Global,
    row: &Row,
    way: Way,
    settings: Settings,
    given: bool,
) {
    let mut engine = engine_of(alloc, row, settings, given).expect(rt, "no memory");
    expect_from(rt, alloc, row, way, &mut engine);
    let own = engine.image();
    over_lent(rt, alloc, row, way, settings, given, own);
    in_one_piece(rt, alloc, row, way, settings, given, own);
    over_segments(rt, alloc, row, way, settings, given, own);
    // No gate can be given where there is no engine.
    if !given {
        without_engine(rt, alloc, row, way, settings, own);
    }
}

/// Expects what a row answers over an image, with the engine's own gate or with one given.
pub(super) fn over_image<R: Abort + Threads + Wait + Sync>(
    rt: &R,
    alloc: Global,
    row: &Row,
    way: Way,
    settings: Settings,
    given: bool,
    image: Image<'_>,
) {
    let engine = EngineOver::new(alloc, image, settings).ok();
    let mut engine = with_given(engine.expect(rt, "no memory"), given);
    expect_from(rt, alloc, row, way, &mut engine);
}

/// The caller's memory has the bytes of the first pages of an image of its own, and 0 where a page is absent.
pub(super) fn expect_same(rt: &impl Abort, row: &Row, own: &Image, content: &[u8]) {
    let absent = [0; 4096];
    for (page, bytes) in content.chunks_exact(4096).enumerate() {
        let begin = (page as u64).saturating_mul(4096);
        let there = if own.has(begin) {
            own.part(begin, 4096)
        } else {
            absent.as_slice()
        };
        assert!(rt; bytes == there, "{}: page {page}", row.name);
    }
}

/// The same over pages that are lent to the engine, which leaves the same bytes.
fn over_lent<R: Abort + Threads + Wait + Sync>(
    rt: &R,
    alloc: Global,
    row: &Row,
    way: Way,
    settings: Settings,
    given: bool,
    own: &Image,
) {
    let blank = blank_pages(alloc, row.pages, row.present);
    let (present, mut content) = blank.expect(rt, "no memory");
    let mut lent = lent(rt, present.as_slice(), content.as_mut_slice());
    let image = bring_pages(lent.take(), row).expect(rt, "no page");
    over_image(rt, alloc, row, way, settings, given, image);
    drop(lent);
    expect_same(rt, row, own, content.as_slice());
}

/// The pages of a row that are present, one behind the other.
fn piece_of(alloc: Global, row: &Row) -> Option<Vec<u8>> {
    let mut content = Vec::new(alloc);
    for page in 0..row.pages {
        if row.present.contains(&page) {
            content.extend_from_slice(&page_of(row, page)).ok()?;
        }
    }
    Some(content)
}

/// Whether a row's memory is one piece: the pages that are present are the first ones, at least one.
fn is_one_piece(row: &Row) -> bool {
    for (place, page) in (0..row.pages).zip(row.present) {
        if place != *page {
            return false;
        }
    }
    !row.present.is_empty()
}

/// The same over memory that is lent to the engine in one piece.
fn in_one_piece<R: Abort + Threads + Wait + Sync>(
    rt: &R,
    alloc: Global,
    row: &Row,
    way: Way,
    settings: Settings,
    given: bool,
    own: &Image,
) {
    if !is_one_piece(row) {
        return;
    }
    let mut content = piece_of(alloc, row).expect(rt, "no memory");
    let mut whole = Whole::new(content.as_mut_slice());
    assert!(rt; whole.is_memory());
    over_image(rt, alloc, row, way, settings, given, whole.take());
    drop(whole);
    expect_same(rt, row, own, content.as_slice());
}

/// Carries out a row's jobs without an engine, and expects its answers.
fn expect_run<R: Abort + Threads + Wait + Sync>(
    rt: &R,
    alloc: Global,
    row: &Row,
    way: Way,
    settings: Settings,
    content: &mut [u8],
) {
    assert!(rt; are_whole_pages(content));
    let records = match way {
        Way::List => run_list_over(rt, alloc, content, settings, row.jobs).expect(rt, row.name),
        Way::Batch => {
            let batch = run_batch_over(rt, alloc, content, settings, row.jobs);
            let (own, records) = batch.expect(rt, row.name);
            expect_own(rt, row.name, own, row.status, row.jobs.len());
            records
        }
    };
    expect_records(rt, row.name, &records, row.records);
}

/// The same without an engine.
fn without_engine<R: Abort + Threads + Wait + Sync>(
    rt: &R,
    alloc: Global,
    row: &Row,
    way: Way,
    settings: Settings,
    own: &Image,
) {
    if !is_one_piece(row) {
        return;
    }
    let mut content = piece_of(alloc, row).expect(rt, "no memory");
    expect_run(rt, alloc, row, way, settings, content.as_mut_slice());
    expect_same(rt, row, own, content.as_slice());
}
