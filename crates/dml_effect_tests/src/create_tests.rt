use crate::tests::{expect_chunked, image_with, poke, shows};
use crate::uses::created_in_chunks;
use dml_arena::Arena;
use dml_desc::check;
use dml_effect::{commit, submit_to};
use dml_image::Image;
use dml_types::{Job, Op, Record, Status};
use std::alloc::Global;
use std::process::Abort;
use std::test::Fail;

/// The staging size, in bytes.
const STAGING: u32 = 16_384;

/// The two blocks of the second source that differ from the first source, which is full of 0.
const TWO_BLOCKS: [(u64, &[u8]); 2] = [
    (72, &[1, 2, 3, 4, 5, 6, 7, 8]),
    (88, &[17, 18, 19, 20, 21, 22, 23, 24]),
];

/// And one before them.
const THREE_BLOCKS: [(u64, &[u8]); 3] = [
    (64, &[255]),
    (72, &[1, 2, 3, 4, 5, 6, 7, 8]),
    (88, &[17, 18, 19, 20, 21, 22, 23, 24]),
];

/// Three bytes of the second source, which leaves the page behind the last one's block.
const THREE_BYTES: [(u64, &[u8]); 3] = [(4056, &[1]), (4072, &[2]), (4088, &[3])];

/// The entries of the first two of the three blocks, and zeros behind them.
const FRONT: [u8; 30] = [
    0, 0, 255, 0, 0, 0, 0, 0, 0, 0, 1, 0, 1, 2, 3, 4, 5, 6, 7, 8, 0, 0, 0, 0, 0, 0, 0, 0, 0, 0,
];

/// A create over an image whose first page alone is present, its record, and bytes that stand in the image then.
#[derive(Drop)]
struct Row<'a> {
    pokes: &'a [(u64, &'a [u8])],
    job: Job,
    answer: Record,
    shown: (u64, &'a [u8]),
}

/// The record of a create.
fn record(status: Status, outcome: u8, completed: u32, fault: u64, delta_size: u32) -> Record {
    Record {
        status,
        result: outcome,
        completed,
        fault,
        delta_size,
    }
}

/// Carries out a create that is scanned in chunks of so many blocks.
#[tactic(auto, using(dml_desc::proofs::CheckedLemmas::need_within))]
fn carried_in_chunks(
    rt: &impl Abort,
    alloc: Global,
    image: &mut Image,
    arena: &mut Arena,
    job: &Job,
    chunk: u32,
) -> Result<Record, Fail> {
    let Ok(checked) = check(job, arena.size()) else {
        panic!(rt; "{job:?} is refused");
    };
    assert!(rt; checked.op() == Op::CreateDelta && chunk > 0);
    let room = arena.open();
    let effect = created_in_chunks(alloc, image, &checked, chunk, room)?;
    let answer = *effect.answer();
    assert_eq!(rt; commit(image, effect), answer);
    Ok(answer)
}

/// Carries out a create as one chunk.
fn carried_whole(rt: &impl Abort, image: &mut Image, arena: &mut Arena, job: &Job) -> Record {
    assert!(rt; job.op() == Some(Op::CreateDelta));
    let staging = arena.size();
    submit_to(image, arena, job, staging)
}

/// Carries out a row in chunks of so many blocks, or whole where that is 0.
fn expect_row(
    rt: &impl Abort,
    alloc: Global,
    pages: u32,
    row: &Row,
    chunk: u32,
) -> Result<(), Fail> {
    let mut arena = Arena::new(alloc, STAGING)?;
    let mut image = image_with(alloc, pages, &[0])?;
    for (addr, poked) in row.pokes {
        poke(rt, &mut image, *addr, poked);
    }
    let answer = if chunk == 0 {
        carried_whole(rt, &mut image, &mut arena, &row.job)
    } else {
        carried_in_chunks(rt, alloc, &mut image, &mut arena, &row.job, chunk)?
    };
    expect_chunked(rt, &row.job, chunk, answer, row.answer);
    let (at, bytes) = row.shown;
    assert!(rt; shows(&image, at, bytes), "in chunks of {chunk} blocks");
    Ok(())
}

/// Carries out each row whole, and in chunks of 8, 16, 32 and 4,096 bytes.
fn expect_rows(rt: &impl Abort, alloc: Global, pages: u32, rows: &[Row]) -> Result<(), Fail> {
    for row in rows {
        for chunk in [0, 1, 2, 4, 512] {
            expect_row(rt, alloc, pages, row, chunk)?;
        }
    }
    Ok(())
}

#[test]
fn delta_record_and_overflow(rt: HostRuntime) -> Result<(), Fail> {
    let both = [
        1, 0, 1, 2, 3, 4, 5, 6, 7, 8, 3, 0, 17, 18, 19, 20, 21, 22, 23, 24,
    ];
    let job = Job::create_delta(0, 64, 32, 128, 20);
    let rows = [
        Row {
            pokes: TWO_BLOCKS.as_slice(),
            job,
            answer: record(Status::Success, 1, 32, 0, 20),
            shown: (128, both.as_slice()),
        },
        Row {
            pokes: THREE_BLOCKS.as_slice(),
            job,
            answer: record(Status::Success, 2, 24, 0, 20),
            shown: (128, FRONT.as_slice()),
        },
    ];
    expect_rows(&rt, rt.alloc(), 1, &rows)
}

#[test]
fn overflow_before_write_fault(rt: HostRuntime) -> Result<(), Fail> {
    let rows = [
        Row {
            pokes: THREE_BLOCKS.as_slice(),
            job: Job::create_delta(0, 64, 32, 4076, 20),
            answer: record(Status::Success, 2, 24, 0, 20),
            shown: (4076, &FRONT[..20]),
        },
        Row {
            pokes: THREE_BLOCKS.as_slice(),
            job: Job::create_delta(0, 64, 32, 4076, 30),
            answer: record(Status::WriteFault, 0, 24, 4096, 20),
            shown: (4076, &FRONT[..20]),
        },
        Row {
            pokes: THREE_BLOCKS.as_slice(),
            job: Job::create_delta(0, 64, 32, 4080, 20),
            answer: record(Status::WriteFault, 0, 8, 4096, 10),
            shown: (4080, &[0, 0, 255, 0, 0, 0, 0, 0, 0, 0, 0, 0, 0, 0, 0, 0]),
        },
    ];
    expect_rows(&rt, rt.alloc(), 2, &rows)
}

#[test]
fn delta_stops_at_absent_source(rt: HostRuntime) -> Result<(), Fail> {
    let all = [
        0, 0, 1, 0, 0, 0, 0, 0, 0, 0, 2, 0, 2, 0, 0, 0, 0, 0, 0, 0, 4, 0, 3, 0, 0, 0, 0, 0, 0, 0,
    ];
    let rows = [
        Row {
            pokes: THREE_BYTES.as_slice(),
            job: Job::create_delta(0, 4056, 64, 128, 80),
            answer: record(Status::ReadFault, 0, 40, 4096, 30),
            shown: (128, all.as_slice()),
        },
        Row {
            pokes: THREE_BYTES.as_slice(),
            job: Job::create_delta(0, 4056, 64, 256, 20),
            answer: record(Status::Success, 2, 32, 0, 20),
            shown: (276, &[0, 0, 0]),
        },
    ];
    expect_rows(&rt, rt.alloc(), 2, &rows)
}

#[test]
fn expected_results(rt: HostRuntime) -> Result<(), Fail> {
    let pokes: [(u64, &[u8]); 2] = [(64, &[255]), (72, &[255])];
    let job = Job::create_delta(0, 64, 16, 128, 10);
    let rows = [
        Row {
            pokes: pokes.as_slice(),
            job: job.with_check(3),
            answer: record(Status::FalsePredicate, 2, 8, 0, 10),
            shown: (128, &FRONT[..10]),
        },
        Row {
            pokes: pokes.as_slice(),
            job: job.with_check(4),
            answer: record(Status::Success, 2, 8, 0, 10),
            shown: (128, &FRONT[..10]),
        },
    ];
    expect_rows(&rt, rt.alloc(), 1, &rows)
}

#[test]
fn empty_ranges(rt: HostRuntime) -> Result<(), Fail> {
    let rows = [Row {
        pokes: &[],
        job: Job::create_delta(0, 64, 0, 128, 10),
        answer: record(Status::Success, 0, 0, 0, 0),
        shown: (128, &FRONT[20..]),
    }];
    expect_rows(&rt, rt.alloc(), 1, &rows)
}
