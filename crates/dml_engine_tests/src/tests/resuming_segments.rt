//! Jobs that a page fault stops, over memory in segments: each page that is present is a segment of the caller's, and
//! all others are holes. The segments are taken back from the engine, the page of the fault becomes one more of them,
//! and an engine made anew over them all carries out the rest.

use super::claims::{holds, same_for};
use super::put;
use super::resuming::Row;
use super::rows::with_given;
use dml_desc::rest;
use dml_engine::{Engine, EngineOver};
use dml_image::{Image, Segment, are_segments};
use dml_types::{Job, Record, Settings, law_of_loans};
use std::alloc::Global;
use std::mem;
use std::process::Abort;
use std::sync::Wait;
use std::thread::Threads;

/// The pages of the caller's memory: those that are lent, in rising order, and all of them by their numbers, of which
/// those that were lent have no more bytes.
#[derive(Drop)]
struct Pages<'a> {
    lent: Vec<Segment<'a>>,
    spare: Vec<Segment<'a>>,
}

impl<'a> Pages<'a> {
    /// So many pages, of which none is lent, and an empty segment behind the last, so that there are as many.
    fn of(alloc: Global, pages: u32, content: &'a mut [u8]) -> Option<Pages<'a>> {
        let mut spare = Vec::new(alloc);
        let mut rest = content;
        for page in 0..pages {
            let (front, back) = mem::take(&mut rest).split_at_mut_checked(4096)?;
            spare.push(Segment::new(page, front)).ok()?;
            rest = back;
        }
        let mut lent = Vec::new(alloc);
        lent.push(Segment::new(pages, rest)).ok()?;
        Some(Pages { lent, spare })
    }

    /// Lends one more page, which begins with these bytes.
    fn lend(&mut self, page: u32, opening: &[u8]) -> Option<()> {
        let bytes = self.spare.get_mut(page as usize)?.take();
        put(bytes, opening);
        self.lent.push(Segment::new(page, bytes)).ok()?;
        self.lent.sort_unstable_by_key(|segment| segment.first());
        Some(())
    }
}

/// The pages of a row, of which those that are present are lent.
fn pages_of<'a>(alloc: Global, row: &Row, content: &'a mut [u8]) -> Option<Pages<'a>> {
    let mut pages = Pages::of(alloc, row.pages, content)?;
    for (page, opening) in row.present {
        pages.lend(*page, opening)?;
    }
    Some(pages)
}

/// Submits a job to an engine over the pages that are lent, and takes them back.
fn submit<R: Abort + Threads + Wait + Sync>(
    rt: &R,
    alloc: Global,
    pages: &mut Pages<'_>,
    settings: Settings,
    given: bool,
    job: Job,
) -> Record {
    let lent = mem::replace(&mut pages.lent, Vec::new(alloc));
    assert!(rt; are_segments(&lent));
    let Ok(engine) = EngineOver::new(alloc, Image::over_segments(lent), settings) else {
        rt.panic("no memory");
    };
    let mut engine = with_given(engine, given);
    law_of_loans();
    let record = engine.submit(rt, alloc, job);
    pages.lent = engine.into_image().into_segments();
    record
}

/// Submits a row's job, lends the page that is brought, and submits the rest. Answers the caller's bytes.
pub(super) fn go_on_over_segments<R: Abort + Threads + Wait + Sync>(
    rt: &R,
    alloc: Global,
    row: &Row,
    settings: Settings,
    given: bool,
) -> Vec<u8> {
    let content = vec![in alloc; 0; 4096 * row.pages as usize];
    let mut content = content.expect(rt, "no memory");
    let pages = pages_of(alloc, row, content.as_mut_slice());
    let mut pages = pages.expect(rt, "no memory");
    let stopped = submit(rt, alloc, &mut pages, settings, given, row.job);
    same_for(rt, row.job, stopped, row.stopped);
    let left = rest(&row.job, &stopped);
    same_for(rt, row.job, left, Some(row.left));
    let (page, opening) = row.brought;
    pages.lend(page, opening).expect(rt, "not lent");
    let resumed = submit(rt, alloc, &mut pages, settings, given, row.left);
    same_for(rt, row.left, resumed, row.resumed);
    drop(pages);
    content
}

/// Submits a job, and lends the page of its fault, full of `Z`. Answers what is left.
fn next_part<R: Abort + Threads + Wait + Sync>(
    rt: &R,
    alloc: Global,
    pages: &mut Pages<'_>,
    settings: Settings,
    given: bool,
    now: Job,
    want: &Record,
) -> Option<Job> {
    let answer = submit(rt, alloc, pages, settings, given, now);
    same_for(rt, now, answer, *want);
    let left = rest(&now, &answer);
    if left.is_some() {
        let page = u32::try_from(answer.fault / 4096).expect(rt, "no such page");
        pages.lend(page, &[0x5a; 4096]).expect(rt, "not lent");
    }
    left
}

/// Submits a job on four holes, and then what is left of it, each time with the page of the fault lent. Answers the
/// caller's bytes.
pub(super) fn on_demand_over_segments<R: Abort + Threads + Wait + Sync>(
    rt: &R,
    alloc: Global,
    job: Job,
    records: &[Record],
    settings: Settings,
    given: bool,
) -> Vec<u8> {
    let content = vec![in alloc; 0; 16_384];
    let mut content = content.expect(rt, "no memory");
    let pages = Pages::of(alloc, 4, content.as_mut_slice());
    let mut pages = pages.expect(rt, "no memory");
    let mut next = Some(job);
    for want in records {
        let now = next.expect(rt, "nothing is left");
        next = next_part(rt, alloc, &mut pages, settings, given, now, want);
    }
    same_for(rt, job, next, None);
    drop(pages);
    content
}

/// An engine over so many pages that are all holes: an empty segment stands behind them.
pub(super) fn engine_of_holes(
    rt: &impl Abort,
    alloc: Global,
    pages: u32,
    settings: Settings,
) -> Engine {
    let mut list = Vec::with_capacity(alloc, 1).expect(rt, "no memory");
    holds(rt, list.push(Segment::new(pages, &mut [])).is_ok());
    assert!(rt; are_segments(&list));
    let engine = EngineOver::new(alloc, Image::over_segments(list), settings).ok();
    engine.expect(rt, "no memory")
}
