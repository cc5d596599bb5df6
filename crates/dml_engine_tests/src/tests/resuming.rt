//! Jobs that a page fault stops: submitted, the page brought, and the rest submitted, at many settings with the same
//! answers. Beside each goes the whole job with the page there from the start, and the same over memory in segments. The
//! expected values are the profile's.

use super::claims::{same, same_for};
use super::pieces::expect_content;
use super::resuming_segments::{engine_of_holes, go_on_over_segments, on_demand_over_segments};
use super::rows::{expect_bytes, settings, with_given};
use super::{USUAL, answer, engine_with, expect_at, full_image, page_of};
use dml_desc::rest;
use dml_engine::Engine;
use dml_image::Image;
use dml_types::{Job, Record, Settings, Status};
use std::alloc::Global;
use std::process::Abort;
use std::sync::Wait;
use std::thread::Threads;

/// A job that a page fault stops, and what is left of it once the page is there.
#[derive(Clone, Copy)]
pub(super) struct Row<'a> {
    pub pages: u32,
    /// The pages that are present, with the bytes that each begins with; all others are 0.
    pub present: &'a [(u32, &'a [u8])],
    pub job: Job,
    pub stopped: Record,
    /// The page that is brought then, with the bytes that it begins with.
    pub brought: (u32, &'a [u8]),
    pub left: Job,
    pub resumed: Record,
    /// The record of the whole job where the page was there from the start.
    pub whole: Record,
    /// Bytes that both leave, from an address on.
    pub shown: (u64, &'a [u8]),
}

/// An engine over an image of so many pages, with those that are present.
fn engine_of(
    alloc: Global,
    pages: u32,
    present: &[(u32, &[u8])],
    settings: Settings,
) -> Option<Engine> {
    let mut image = Image::new(alloc, pages).ok()?;
    for (page, opening) in present {
        image.bring(*page, &page_of(opening)).ok()?;
    }
    Engine::new(alloc, image, settings).ok()
}

/// Brings the row's page.
fn bring(rt: &impl Abort, row: &Row, engine: &mut Engine) {
    let (page, opening) = row.brought;
    let brought = engine.bring(page, &page_of(opening));
    brought.expect(rt, "not brought");
}

/// Submits the row's job, brings the page, and submits the rest.
fn go_on<R: Abort + Threads + Wait + Sync>(rt: &R, alloc: Global, row: &Row, engine: &mut Engine) {
    let stopped = engine.submit(rt, alloc, row.job);
    same_for(rt, row.job, stopped, row.stopped);
    let left = rest(&row.job, &stopped);
    same_for(rt, row.job, left, Some(row.left));
    bring(rt, row, engine);
    let resumed = engine.submit(rt, alloc, row.left);
    same_for(rt, row.left, resumed, row.resumed);
}

/// Brings the page first, and submits the whole job.
fn go_at_once<R: Abort + Threads + Wait + Sync>(
    rt: &R,
    alloc: Global,
    row: &Row,
    engine: &mut Engine,
) {
    bring(rt, row, engine);
    let whole = engine.submit(rt, alloc, row.job);
    same_for(rt, row.job, whole, row.whole);
}

/// Both images are the same, and the row's bytes stand there.
fn expect_left(rt: &impl Abort, row: &Row, parts: &Image, whole: &Image) {
    for addr in 0..4096 * u64::from(row.pages) {
        let (left, want) = (parts.byte(addr), whole.byte(addr));
        assert_eq!(rt; left, want, "{:?} at {addr}", row.job);
    }
    expect_bytes(rt, "what both leave", parts, row.shown.0, row.shown.1);
}

/// The caller's memory has the bytes of an image of its own, and 0 where a page is absent.
fn expect_as_own(rt: &impl Abort, job: Job, own: &Image, content: &[u8]) {
    for (addr, byte) in (0..u64::MAX).zip(content) {
        let there = own.byte(addr).unwrap_or(0);
        assert_eq!(rt; *byte, there, "{job:?} at {addr} over segments");
    }
}

/// Cites the law on resuming, which says what the row's job and its rest do; it does nothing.
fn cite_law(engine: &Engine, row: &Row) {
    engine.law_resume(&row.job, row.brought.0, &page_of(row.brought.1));
}

/// Expects a row's answers with these settings.
fn expect_with<R: Abort + Threads + Wait + Sync>(
    rt: &R,
    alloc: Global,
    row: &Row,
    settings: Settings,
    given: bool,
) {
    let parts = engine_of(alloc, row.pages, row.present, settings);
    let mut parts = with_given(parts.expect(rt, "no memory"), given);
    let whole = engine_of(alloc, row.pages, row.present, settings);
    let mut whole = with_given(whole.expect(rt, "no memory"), given);
    cite_law(&parts, row);
    go_on(rt, alloc, row, &mut parts);
    go_at_once(rt, alloc, row, &mut whole);
    expect_left(rt, row, parts.image(), whole.image());
    let content = go_on_over_segments(rt, alloc, row, settings, given);
    expect_as_own(rt, row.job, parts.image(), &content);
    expect_content(rt, &content, &[row.shown]);
}

/// Expects a row's answers at all settings, with the engine's own gate and with one given.
fn expect<R: Abort + Threads + Wait + Sync>(rt: &R, alloc: Global, row: &Row) {
    for settings in settings(USUAL.staging) {
        expect_with(rt, alloc, row, settings, false);
        expect_with(rt, alloc, row, settings, true);
    }
}

#[test]
fn resume_a_fill(rt: HostRuntime) {
    let row = Row {
        pages: 2,
        present: &[(0, &[])],
        job: Job::fill(0x0807_0605_0403_0201, 4091, 9),
        stopped: answer(Status::WriteFault, 0, 5, 4096),
        brought: (1, &[]),
        left: Job::fill(0x0504_0302_0108_0706, 4096, 4),
        resumed: answer(Status::Success, 0, 4, 0),
        whole: answer(Status::Success, 0, 9, 0),
        shown: (4091, &[1, 2, 3, 4, 5, 6, 7, 8, 1, 0]),
    };
    expect(&rt, rt.alloc(), &row);
}

#[test]
fn resume_a_compare(rt: HostRuntime) {
    let row = Row {
        pages: 2,
        present: &[(0, &[])],
        job: Job::compare(0, 4092, 8),
        stopped: answer(Status::ReadFault, 0, 4, 4096),
        brought: (1, &[0, 7]),
        left: Job::compare(4, 4096, 4),
        resumed: answer(Status::Success, 1, 1, 0),
        whole: answer(Status::Success, 1, 5, 0),
        shown: (4096, &[0, 7]),
    };
    expect(&rt, rt.alloc(), &row);
}

#[test]
fn resume_a_backward_move(rt: HostRuntime) {
    let row = Row {
        pages: 3,
        present: &[(0, &[]), (2, &[1, 2])],
        job: Job::move_bytes(0, 8, 12_272),
        stopped: answer(Status::ReadFault, 1, 4080, 8191),
        brought: (1, &[]),
        left: Job::move_bytes(0, 8, 8192),
        resumed: answer(Status::Success, 1, 8192, 0),
        whole: answer(Status::Success, 1, 12_272, 0),
        shown: (8192, &[0, 0, 0, 0, 0, 0, 0, 0, 1, 2]),
    };
    expect(&rt, rt.alloc(), &row);
}

/// What is left of a backward move keeps its addresses, and what is left of a forward one goes on.
#[test]
fn rest_of_moves(rt: HostRuntime) {
    let backward = Row {
        pages: 4,
        present: &[(0, &[1, 2, 3]), (1, &[]), (3, &[])],
        job: Job::move_bytes(0, 4100, 8192),
        stopped: answer(Status::WriteFault, 1, 4, 12_287),
        brought: (2, &[]),
        left: Job::move_bytes(0, 4100, 8188),
        resumed: answer(Status::Success, 1, 8188, 0),
        whole: answer(Status::Success, 1, 8192, 0),
        shown: (4100, &[1, 2, 3, 0]),
    };
    expect(&rt, rt.alloc(), &backward);
    let forward = Row {
        pages: 2,
        present: &[(0, &[])],
        job: Job::move_bytes(4088, 0, 50),
        stopped: answer(Status::ReadFault, 0, 8, 4096),
        brought: (1, &[4, 5]),
        left: Job::move_bytes(4096, 8, 42),
        resumed: answer(Status::Success, 0, 42, 0),
        whole: answer(Status::Success, 0, 50, 0),
        shown: (8, &[4, 5, 0]),
    };
    expect(&rt, rt.alloc(), &forward);
}

/// Nothing is left of a create, whose differing blocks are no more known, nor of a job that was done or refused.
fn table_of_nothing_left() -> [(Job, Record); 4] {
    [
        (
            Job::create_delta(0, 4088, 64, 128, 80),
            answer(Status::ReadFault, 0, 8, 4096),
        ),
        (
            Job::apply_delta(4096, 10, 0, 8),
            answer(Status::ReadFault, 0, 0, 4096),
        ),
        (
            Job::move_bytes(0, 64, 50),
            answer(Status::Success, 0, 50, 0),
        ),
        (
            Job::move_bytes(0, 64, 50).with_flags(0x10),
            answer(Status::BadFlags, 0, 0, 0),
        ),
    ]
}

/// Submits a job, and expects its record and what is left of it.
fn expect_rest<R: Abort + Threads + Wait + Sync>(
    rt: &R,
    alloc: Global,
    engine: &mut Engine,
    job: Job,
    want: Record,
    left: Option<Job>,
) {
    let answer = engine.submit(rt, alloc, job);
    same_for(rt, job, (answer, rest(&job, &answer)), (want, left));
}

#[test]
fn nothing_is_left(rt: HostRuntime) {
    for settings in settings(USUAL.staging) {
        let mut engine = engine_with(rt.alloc(), 2, settings).expect(&rt, "no memory");
        for (job, want) in table_of_nothing_left() {
            expect_rest(&rt, rt.alloc(), &mut engine, job, want, None);
        }
    }
}

/// Jobs on an image of 4,096 pages that are all absent, and whether the whole job is left of each.
fn absent_table() -> [(Job, Record, bool); 7] {
    let read = answer(Status::ReadFault, 0, 0, 0);
    [
        (
            Job::move_bytes(0, 8, 16),
            answer(Status::ReadFault, 1, 0, 15),
            true,
        ),
        (
            Job::fill(1, 0, 8),
            answer(Status::WriteFault, 0, 0, 0),
            true,
        ),
        (Job::compare(0, 8, 8), read, true),
        (Job::create_delta(0, 64, 8, 128, 10), read, false),
        (Job::apply_delta(0, 10, 256, 8), read, false),
        (Job::dualcast(0, 4096, 8192, 8), read, true),
        (Job::no_op(), answer(Status::Success, 0, 0, 0), false),
    ]
}

/// Submits them one by one.
fn expect_absent<R: Abort + Threads + Wait + Sync>(rt: &R, alloc: Global, engine: &mut Engine) {
    for (job, want, goes_on) in absent_table() {
        expect_rest(rt, alloc, engine, job, want, goes_on.then_some(job));
    }
    for addr in [0, 1, 16_777_215] {
        same(rt, engine.image().byte(addr), None);
    }
}

#[test]
fn every_page_absent(rt: HostRuntime) {
    for settings in settings(USUAL.staging) {
        for given in [false, true] {
            let engine = engine_of(rt.alloc(), 4096, &[], settings).expect(&rt, "no memory");
            expect_absent(&rt, rt.alloc(), &mut with_given(engine, given));
            let holes = engine_of_holes(&rt, rt.alloc(), 4096, settings);
            expect_absent(&rt, rt.alloc(), &mut with_given(holes, given));
        }
    }
}

/// Brings the page of an address, full of `Z`.
fn bring_at(rt: &impl Abort, engine: &mut Engine, addr: u64) {
    let page = u32::try_from(addr / 4096).expect(rt, "no such page");
    engine.bring(page, &[0x5a; 4096]).expect(rt, "not brought");
}

/// Submits a job, and brings the page of its fault, full of `Z`. Answers what is left.
fn next_part<R: Abort + Threads + Wait + Sync>(
    rt: &R,
    alloc: Global,
    engine: &mut Engine,
    now: Job,
    want: &Record,
) -> Option<Job> {
    let answer = engine.submit(rt, alloc, now);
    same_for(rt, now, answer, *want);
    let left = rest(&now, &answer);
    if left.is_some() {
        bring_at(rt, engine, answer.fault);
    }
    left
}

/// Submits a job on four absent pages, and then what is left of it, each time with the page of the fault brought.
/// Answers the sum of the bytes done.
fn on_demand<R: Abort + Threads + Wait + Sync>(
    rt: &R,
    alloc: Global,
    engine: &mut Engine,
    job: Job,
    records: &[Record],
) -> u64 {
    let mut next = Some(job);
    let mut done = 0_u64;
    for want in records {
        let now = next.expect(rt, "nothing is left");
        next = next_part(rt, alloc, engine, now, want);
        done = done.saturating_add(u64::from(want.completed));
    }
    same_for(rt, job, next, None);
    done
}

/// Carries out the whole job on the engine that has all pages: its record is that of the last part, but for the bytes
/// done, which are those of all parts.
fn expect_whole<R: Abort + Threads + Wait + Sync>(
    rt: &R,
    alloc: Global,
    whole: &mut Engine,
    job: Job,
    last: &Record,
    done: u64,
) {
    let answer = whole.submit(rt, alloc, job);
    same_for(rt, job, done, u64::from(answer.completed));
    let want = Record {
        completed: job.size,
        ..*last
    };
    same_for(rt, job, answer, want);
}

/// Both leave the same bytes, and no page that was not brought is touched.
fn expect_same(rt: &impl Abort, parts: &Image, whole: &Image) {
    for addr in 0..16_384 {
        let left = parts.byte(addr).unwrap_or(0x5a);
        assert_eq!(rt; whole.byte(addr), Some(left), "{addr}");
    }
}

/// A driver's loop: the page of each fault is brought, until the job is done. Beside it the other engine, which has all
/// pages, carries out the whole job.
fn expect_parts<R: Abort + Threads + Wait + Sync>(
    rt: &R,
    alloc: Global,
    parts: &mut Engine,
    whole: &mut Engine,
    job: Job,
    records: &[Record],
) {
    let done = on_demand(rt, alloc, parts, job, records);
    let last = records.last().expect(rt, "no record");
    expect_whole(rt, alloc, whole, job, last, done);
    expect_same(rt, parts.image(), whole.image());
}

/// An engine with four pages, all absent or all full of `Z`.
fn engine_of_four(alloc: Global, settings: Settings, full: bool, given: bool) -> Option<Engine> {
    let image = if full {
        full_image(alloc, 4, 0x5a)?
    } else {
        Image::new(alloc, 4).ok()?
    };
    let engine = Engine::new(alloc, image, settings).ok()?;
    Some(with_given(engine, given))
}

/// The same with these settings.
fn expect_on_demand_with<R: Abort + Threads + Wait + Sync>(
    rt: &R,
    alloc: Global,
    job: Job,
    records: &[Record],
    shown: &[(u64, u8)],
    settings: Settings,
    given: bool,
) {
    let mut parts = engine_of_four(alloc, settings, false, given).expect(rt, "no memory");
    let mut whole = engine_of_four(alloc, settings, true, given).expect(rt, "no memory");
    expect_parts(rt, alloc, &mut parts, &mut whole, job, records);
    expect_at(rt, &parts, shown);
    let content = on_demand_over_segments(rt, alloc, job, records, settings, given);
    expect_as_own(rt, job, parts.image(), &content);
    for (addr, byte) in shown {
        same_for(rt, job, content.get(*addr as usize), Some(byte));
    }
}

/// The same at all settings, with the engine's own gate and with one given.
fn expect_on_demand<R: Abort + Threads + Wait + Sync>(
    rt: &R,
    alloc: Global,
    job: Job,
    records: &[Record],
    shown: &[(u64, u8)],
) {
    for settings in settings(USUAL.staging) {
        for given in [false, true] {
            expect_on_demand_with(rt, alloc, job, records, shown, settings, given);
        }
    }
}

/// A read fault, and the record of a job that is done.
fn reads(completed: u32, fault: u64) -> Record {
    answer(Status::ReadFault, 0, completed, fault)
}

fn writes(completed: u32, fault: u64) -> Record {
    answer(Status::WriteFault, 0, completed, fault)
}

fn ends(completed: u32) -> Record {
    answer(Status::Success, 0, completed, 0)
}

#[test]
fn pages_of_a_fill_on_demand(rt: HostRuntime) {
    let job = Job::fill(0x0807_0605_0403_0201, 4090, 4200);
    let records = [
        writes(0, 4090),
        writes(6, 4096),
        writes(4096, 8192),
        ends(98),
    ];
    let shown = [
        (4089, 0x5a),
        (4090, 1),
        (4095, 6),
        (4096, 7),
        (8191, 6),
        (8192, 7),
        (8289, 8),
        (8290, 0x5a),
    ];
    expect_on_demand(&rt, rt.alloc(), job, &records, &shown);
}

#[test]
fn pages_of_moves_on_demand(rt: HostRuntime) {
    let forward = [
        reads(0, 0),
        writes(0, 8192),
        reads(4096, 4096),
        writes(0, 12_288),
        ends(4096),
    ];
    expect_on_demand(
        &rt,
        rt.alloc(),
        Job::move_bytes(0, 8192, 8192),
        &forward,
        &[(8192, 0x5a), (16_383, 0x5a)],
    );
    let backward = [
        answer(Status::ReadFault, 1, 0, 8191),
        answer(Status::WriteFault, 1, 0, 8195),
        answer(Status::ReadFault, 1, 4096, 4095),
        answer(Status::Success, 1, 4096, 0),
    ];
    expect_on_demand(
        &rt,
        rt.alloc(),
        Job::move_bytes(0, 4, 8192),
        &backward,
        &[(0, 0x5a), (8195, 0x5a)],
    );
}

#[test]
fn pages_of_compares_on_demand(rt: HostRuntime) {
    let both = [
        reads(0, 4090),
        reads(0, 12_282),
        reads(6, 4096),
        reads(0, 12_288),
        ends(6),
    ];
    expect_on_demand(&rt, rt.alloc(), Job::compare(4090, 12_282, 12), &both, &[]);
    let pattern = Job::compare_pattern(4090, 0x5a5a_5a5a_5a5a_5a5a, 12);
    expect_on_demand(
        &rt,
        rt.alloc(),
        pattern,
        &[reads(0, 4090), reads(6, 4096), ends(6)],
        &[],
    );
}

#[test]
fn pages_of_a_dualcast_on_demand(rt: HostRuntime) {
    let job = Job::dualcast(4088, 8184, 12_280, 16);
    let records = [
        reads(0, 4088),
        writes(0, 8184),
        writes(0, 12_280),
        writes(8, 12_288),
        ends(8),
    ];
    expect_on_demand(
        &rt,
        rt.alloc(),
        job,
        &records,
        &[(8184, 0x5a), (12_295, 0x5a)],
    );
}
