//! Fences in batches, at many settings with the same answers. In a list, and in a job by itself, a fence is refused.

use super::claims::{holds, same};
use super::rows::{
    self, expect_as_list, expect_bytes, expect_own, expect_records, plain_row, settings, with_given,
};
use super::{USUAL, answer, engine_with, page_of};
use dml_effect::are_whole_pages;
use dml_engine::{Engine, EngineOver, run_batch_over};
use dml_image::{Image, Lent, Segment, Whole, are_segments};
use dml_pool::Free;
use dml_types::{Job, Record, Settings, Status};
use std::alloc::Global;
use std::process::Abort;
use std::sync::Wait;
use std::thread::Threads;

/// A batch on a page of zeros, what its jobs answer, its own status, how many jobs are carried out, and the first bytes
/// that it leaves.
#[derive(Clone, Copy)]
struct Row<'a> {
    name: &'a str,
    jobs: &'a [Job],
    records: &'a [Record],
    status: Status,
    completed: usize,
    left: &'a [u8],
}

/// An unsupported opcode with the fence.
const FENCED_STRANGER: Job = Job {
    opcode: 0x10,
    flags: 1,
    source: 0,
    target: 0,
    size: 0,
    extra: 0,
    delta_size: 0,
    expected: 0,
};

/// The record of an abandoned job.
fn abandoned() -> Record {
    answer(Status::Abandoned, 0, 0, 0)
}

/// Submits a row's batch to an engine.
fn expect_row<R: Abort + Threads + Wait + Sync>(
    rt: &R,
    alloc: Global,
    row: &Row,
    engine: &mut EngineOver<'_>,
) {
    let batch = engine.submit_batch(rt, alloc, row.jobs);
    let (own, records) = batch.expect(rt, row.name);
    expect_records(rt, row.name, &records, row.records);
    expect_own(rt, row.name, own, row.status, row.completed);
    expect_bytes(rt, row.name, engine.image(), 0, row.left);
}

/// Expects a row's answers at all settings, with the engine's own gate and with one given.
fn expect<R: Abort + Threads + Wait + Sync>(rt: &R, alloc: Global, row: &Row) {
    for settings in settings(USUAL.staging) {
        for given in [false, true] {
            let engine = engine_with(alloc, 1, settings).expect(rt, "no memory");
            expect_row(rt, alloc, row, &mut with_given(engine, given));
            expect_lent(rt, alloc, row, settings, given);
        }
    }
}

/// Submits a row's batch to an engine over an image, with its own gate or with one given.
fn expect_over<R: Abort + Threads + Wait + Sync>(
    rt: &R,
    alloc: Global,
    row: &Row,
    settings: Settings,
    given: bool,
    image: Image<'_>,
) {
    let engine = EngineOver::new(alloc, image, settings).ok();
    let engine = engine.expect(rt, "no memory");
    expect_row(rt, alloc, row, &mut with_given(engine, given));
}

/// The caller's page begins with the bytes that a row leaves, and the others are 0.
fn expect_content(rt: &impl Abort, row: &Row, content: &[u8]) {
    let page = page_of(row.left);
    assert!(rt; content == page.as_slice(), "{}", row.name);
}

/// The same over a page that is lent with its mark.
fn over_mark<R: Abort + Threads + Wait + Sync>(
    rt: &R,
    alloc: Global,
    row: &Row,
    settings: Settings,
    given: bool,
) {
    let mut content = [0; 4096];
    let mut lent = Lent::new(&[true], &mut content);
    assert!(rt; lent.is_memory());
    expect_over(rt, alloc, row, settings, given, lent.take());
    drop(lent);
    expect_content(rt, row, &content);
}

/// The same in one piece.
fn in_one_piece<R: Abort + Threads + Wait + Sync>(
    rt: &R,
    alloc: Global,
    row: &Row,
    settings: Settings,
    given: bool,
) {
    let mut content = [0; 4096];
    let mut whole = Whole::new(&mut content);
    assert!(rt; whole.is_memory());
    expect_over(rt, alloc, row, settings, given, whole.take());
    drop(whole);
    expect_content(rt, row, &content);
}

/// Pages 0 and 2, which are lent as two segments with a hole between them.
fn beside_hole<'a>(
    rt: &impl Abort,
    alloc: Global,
    low: &'a mut [u8],
    high: &'a mut [u8],
) -> Image<'a> {
    let mut list = Vec::with_capacity(alloc, 2).expect(rt, "no memory");
    holds(rt, list.push(Segment::new(0, low)).is_ok());
    holds(rt, list.push(Segment::new(2, high)).is_ok());
    assert!(rt; are_segments(&list));
    Image::over_segments(list)
}

/// The same over two segments. What a row's jobs fault on is the hole behind its page.
fn over_segments<R: Abort + Threads + Wait + Sync>(
    rt: &R,
    alloc: Global,
    row: &Row,
    settings: Settings,
    given: bool,
) {
    let (mut low, mut high) = ([0; 4096], [0; 4096]);
    let image = beside_hole(rt, alloc, &mut low, &mut high);
    expect_over(rt, alloc, row, settings, given, image);
    expect_content(rt, row, &low);
    holds(rt, high == [0; 4096]);
}

/// The same without an engine, and so without a gate.
fn without_engine<R: Abort + Threads + Wait + Sync>(
    rt: &R,
    alloc: Global,
    row: &Row,
    settings: Settings,
) {
    let mut content = [0; 4096];
    assert!(rt; are_whole_pages(&content));
    let batch = run_batch_over(rt, alloc, &mut content, settings, row.jobs);
    let (own, records) = batch.expect(rt, row.name);
    expect_records(rt, row.name, &records, row.records);
    expect_own(rt, row.name, own, row.status, row.completed);
    expect_content(rt, row, &content);
}

/// The same over memory of the caller's, with what it leaves there.
fn expect_lent<R: Abort + Threads + Wait + Sync>(
    rt: &R,
    alloc: Global,
    row: &Row,
    settings: Settings,
    given: bool,
) {
    over_mark(rt, alloc, row, settings, given);
    in_one_piece(rt, alloc, row, settings, given);
    over_segments(rt, alloc, row, settings, given);
    if !given {
        without_engine(rt, alloc, row, settings);
    }
}

#[test]
fn fence_in_batch(rt: HostRuntime) {
    let row = Row {
        name: "fence_in_batch",
        jobs: &[Job::no_op().with_flags(1)],
        records: &[answer(Status::Success, 0, 0, 0)],
        status: Status::Success,
        completed: 1,
        left: &[0],
    };
    expect(&rt, rt.alloc(), &row);
}

#[test]
fn fence_orders(rt: HostRuntime) {
    let row = Row {
        name: "fence_orders",
        jobs: &[Job::fill(1, 0, 8), Job::fill(2, 0, 8).with_flags(1)],
        records: &[answer(Status::Success, 0, 8, 0); 2],
        status: Status::Success,
        completed: 2,
        left: &[2, 0, 0, 0, 0, 0, 0, 0],
    };
    expect(&rt, rt.alloc(), &row);
}

#[test]
fn fence_abandons(rt: HostRuntime) {
    let mut left = [0; 24];
    left[0] = 1;
    let row = Row {
        name: "fence_abandons",
        jobs: &[
            Job::fill(1, 0, 8),
            Job::fill(1, 4096, 8),
            Job::fill(2, 8, 8).with_flags(1),
            Job::fill(3, 16, 8),
        ],
        records: &[
            answer(Status::Success, 0, 8, 0),
            answer(Status::WriteFault, 0, 0, 4096),
            abandoned(),
            abandoned(),
        ],
        status: Status::BatchFailed,
        completed: 2,
        left: &left,
    };
    expect(&rt, rt.alloc(), &row);
}

#[test]
fn fence_after_false_predicate(rt: HostRuntime) {
    let row = Row {
        name: "fence_after_false_predicate",
        jobs: &[
            Job::compare(0, 0, 8).with_check(1),
            Job::no_op().with_flags(1),
        ],
        records: &[answer(Status::FalsePredicate, 0, 8, 0), abandoned()],
        status: Status::BatchFailed,
        completed: 1,
        left: &[0],
    };
    expect(&rt, rt.alloc(), &row);
}

/// The row refused_fenced_job; tests whose names begin so are those of growths that are refused.
#[test]
fn fence_of_a_bad_job(rt: HostRuntime) {
    let row = Row {
        name: "refused_fenced_job",
        jobs: &[Job::fill(1, 0, 8), FENCED_STRANGER, Job::fill(2, 8, 8)],
        records: &[
            answer(Status::Success, 0, 8, 0),
            answer(Status::BadOpcode, 0, 0, 0),
            answer(Status::Success, 0, 8, 0),
        ],
        status: Status::BatchFailed,
        completed: 3,
        left: &[1, 0, 0, 0, 0, 0, 0, 0, 2],
    };
    expect(&rt, rt.alloc(), &row);
}

/// The row refused_fenced_job_after_fault.
#[test]
fn fence_of_a_bad_job_after_a_fault(rt: HostRuntime) {
    let row = Row {
        name: "refused_fenced_job_after_fault",
        jobs: &[Job::fill(1, 4096, 8), FENCED_STRANGER, Job::fill(2, 8, 8)],
        records: &[
            answer(Status::WriteFault, 0, 0, 4096),
            abandoned(),
            abandoned(),
        ],
        status: Status::BatchFailed,
        completed: 1,
        left: &[0; 16],
    };
    expect(&rt, rt.alloc(), &row);
}

/// The last job before the fence stands in a later wave than the one that faults, and succeeds.
#[test]
fn fault_in_an_earlier_wave(rt: HostRuntime) {
    let mut left = [0; 72];
    (left[0], left[64]) = (1, 1);
    let row = Row {
        name: "fault_in_an_earlier_wave",
        jobs: &[
            Job::fill(1, 4096, 8),
            Job::fill(1, 0, 8),
            Job::move_bytes(0, 64, 8),
            Job::fill(2, 8, 8).with_flags(1),
        ],
        records: &[
            answer(Status::WriteFault, 0, 0, 4096),
            answer(Status::Success, 0, 8, 0),
            answer(Status::Success, 0, 8, 0),
            abandoned(),
        ],
        status: Status::BatchFailed,
        completed: 3,
        left: &left,
    };
    expect(&rt, rt.alloc(), &row);
}

/// Each fence waits for the jobs before it, and a fault behind the last fence ends nothing.
#[test]
fn fences_one_after_another(rt: HostRuntime) {
    let row = Row {
        name: "fences_one_after_another",
        jobs: &[
            Job::fill(1, 0, 8).with_flags(1),
            Job::fill(2, 0, 8).with_flags(1),
            Job::fill(3, 4096, 8),
            Job::fill(4, 8, 8),
        ],
        records: &[
            answer(Status::Success, 0, 8, 0),
            answer(Status::Success, 0, 8, 0),
            answer(Status::WriteFault, 0, 0, 4096),
            answer(Status::Success, 0, 8, 0),
        ],
        status: Status::BatchFailed,
        completed: 4,
        left: &[2, 0, 0, 0, 0, 0, 0, 0, 4],
    };
    expect(&rt, rt.alloc(), &row);
}

/// A job with the fence, which is refused outside a batch.
const FENCED_FILL: Job = Job {
    opcode: 0x04,
    flags: 1,
    source: 1,
    target: 0,
    size: 8,
    extra: 0,
    delta_size: 0,
    expected: 0,
};

/// A list is carried out without it.
#[test]
fn fence_in_list(rt: HostRuntime) {
    let row = rows::Row {
        jobs: &[FENCED_FILL, Job::fill(2, 8, 8)],
        records: &[
            answer(Status::BadFlags, 0, 0, 0),
            answer(Status::Success, 0, 8, 0),
        ],
        left: &[(0, &[0; 8]), (8, &[2, 0, 0, 0, 0, 0, 0, 0])],
        ..plain_row("fence_in_list")
    };
    expect_as_list(&rt, rt.alloc(), &row);
}

/// Submits it by itself, and expects that it is refused and leaves the image as it was.
fn expect_refused<R: Abort + Threads + Wait + Sync>(rt: &R, alloc: Global, engine: &mut Engine) {
    let refused = engine.submit(rt, alloc, FENCED_FILL);
    same(rt, refused, answer(Status::BadFlags, 0, 0, 0));
    same(rt, engine.image().byte(0), Some(0));
}

#[test]
fn fence_in_a_job(rt: HostRuntime) {
    for settings in settings(USUAL.staging) {
        let mut own = engine_with(rt.alloc(), 1, settings).expect(&rt, "no memory");
        expect_refused(&rt, rt.alloc(), &mut own);
        expect_refused(&rt, rt.alloc(), &mut own.with_gate(Free));
    }
}
