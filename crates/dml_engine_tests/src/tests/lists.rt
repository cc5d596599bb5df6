//! Lists and batches at many settings, all with the same answers.

use super::claims::{holds, same};
use super::rows::{Row, expect, expect_as_list, plain_row};
use super::{USUAL, answer, engine, full_image};
use dml_engine::{Engine, SubmitError};
use dml_image::Image;
use dml_types::{Job, Record, Settings, Status};
use std::alloc::Global;
use std::process::Abort;
use std::sync::Wait;
use std::thread::Threads;

/// An opcode that no job has.
const BAD_OPCODE: Job = Job {
    opcode: 0x10,
    flags: 0,
    source: 0,
    target: 0,
    size: 0,
    extra: 0,
    delta_size: 0,
    expected: 0,
};

#[test]
fn batch_with_bad_opcode(rt: HostRuntime) {
    let row = Row {
        jobs: &[Job::fill(1, 0, 8), BAD_OPCODE, Job::fill(2, 8, 8)],
        records: &[
            answer(Status::Success, 0, 8, 0),
            answer(Status::BadOpcode, 0, 0, 0),
            answer(Status::Success, 0, 8, 0),
        ],
        status: Status::BatchFailed,
        left: &[(0, &[1, 0, 0, 0, 0, 0, 0, 0, 2, 0, 0, 0, 0, 0, 0, 0])],
        ..plain_row("batch_with_bad_opcode")
    };
    expect(&rt, rt.alloc(), &row);
}

#[test]
fn staging_refusal_and_two_waves(rt: HostRuntime) {
    let row = Row {
        staging: 64,
        bytes: &[(0, &[9])],
        jobs: &[
            Job::move_bytes(0, 256, 64),
            Job::move_bytes(0, 512, 65),
            Job::move_bytes(0, 1024, 64),
        ],
        records: &[
            answer(Status::Success, 0, 64, 0),
            answer(Status::StagingRefused, 0, 0, 0),
            answer(Status::Success, 0, 64, 0),
        ],
        status: Status::BatchFailed,
        left: &[(256, &[9, 0]), (512, &[0]), (1024, &[9, 0])],
        ..plain_row("staging_refusal_and_two_waves")
    };
    expect(&rt, rt.alloc(), &row);
}

#[test]
fn conflict_chain(rt: HostRuntime) {
    let row = Row {
        bytes: &[(0, &[1, 2, 3, 4, 5, 6, 7, 8])],
        jobs: &[
            Job::move_bytes(0, 64, 16),
            Job::move_bytes(64, 128, 16),
            Job::fill(0xffff_ffff_ffff_ffff, 0, 16),
        ],
        records: &[answer(Status::Success, 0, 16, 0); 3],
        left: &[
            (0, &[0xff; 8]),
            (64, &[1, 2, 3, 4, 5, 6, 7, 8]),
            (128, &[1, 2, 3, 4, 5, 6, 7, 8]),
        ],
        ..plain_row("conflict_chain")
    };
    expect(&rt, rt.alloc(), &row);
}

/// The fence of the fourth job is refused in a list. A batch accepts it, so that its row has the first three.
#[test]
fn flags_before_size(rt: HostRuntime) {
    let jobs = [
        Job::move_bytes(0, 0, 1_048_577).with_flags(0x10),
        Job::move_bytes(0, 0, 1_048_577),
        Job::move_bytes(0, 0, 0),
        Job::no_op().with_flags(1),
    ];
    let records = [
        answer(Status::BadFlags, 0, 0, 0),
        answer(Status::BadSize, 0, 0, 0),
        answer(Status::Success, 0, 0, 0),
        answer(Status::BadFlags, 0, 0, 0),
    ];
    let row = Row {
        present: &[],
        jobs: &jobs,
        records: &records,
        status: Status::BatchFailed,
        ..plain_row("flags_before_size")
    };
    expect_as_list(&rt, rt.alloc(), &row);
    let without_fence = Row {
        jobs: &jobs[..3],
        records: &records[..3],
        ..row
    };
    expect(&rt, rt.alloc(), &without_fence);
    let empty = Row {
        name: "empty batch",
        jobs: &[],
        records: &[],
        status: Status::Success,
        ..row
    };
    expect(&rt, rt.alloc(), &empty);
}

/// A chunk stops inside each of these: a fill at an absent page, a move with its source there, and a compare at the
/// first byte that differs. What comes after them in list order sees what they left.
#[test]
fn stopped_jobs(rt: HostRuntime) {
    let row = Row {
        jobs: &[
            Job::fill(0x0101_0101_0101_0101, 4080, 40),
            Job::move_bytes(4084, 0, 40),
            Job::compare(0, 4084, 24),
            Job::compare(0, 100, 24),
            Job::dualcast(0, 256, 4352, 24),
        ],
        records: &[
            answer(Status::WriteFault, 0, 16, 4096),
            answer(Status::ReadFault, 0, 12, 4096),
            answer(Status::ReadFault, 0, 12, 4096),
            answer(Status::Success, 1, 0, 0),
            answer(Status::WriteFault, 0, 0, 4352),
        ],
        status: Status::BatchFailed,
        left: &[
            (0, &[1; 12]),
            (12, &[0]),
            (4079, &[0, 1]),
            (4095, &[1]),
            (256, &[0]),
        ],
        ..plain_row("stopped_jobs")
    };
    expect(&rt, rt.alloc(), &row);
}

/// A list and a batch that are refused, and leave the image as it was.
fn expect_too_many<R: Abort + Threads + Wait + Sync>(
    rt: &R,
    alloc: Global,
    engine: &mut Engine,
    jobs: &[Job],
) {
    let list = engine.submit_list(rt, alloc, jobs).err();
    same(rt, list, Some(SubmitError::TooMany));
    let batch = engine.submit_batch(rt, alloc, jobs).err();
    same(rt, batch, Some(SubmitError::TooMany));
    same(rt, engine.image().byte(0), Some(7));
}

#[test]
fn too_many_jobs(rt: HostRuntime) {
    let jobs = [Job::fill(1, 0, 8); 1025];
    let mut engine = engine(rt.alloc()).expect(&rt, "no memory");
    same(&rt, engine.bring(0, &[7; 4096]), Ok(()));
    expect_too_many(&rt, rt.alloc(), &mut engine, &jobs);
    let records = engine.submit_list(&rt, rt.alloc(), &jobs[1..]);
    let records = records.expect(&rt, "refused");
    same(&rt, records.len(), 1024);
    same(&rt, engine.image().byte(0), Some(1));
}

const MEBIBYTE: u32 = 1_048_576;

/// An engine over four mebibytes, each page full of the last byte of its number.
fn engine_of_numbers(alloc: Global) -> Option<Engine> {
    let mut image = Image::new(alloc, 1024).ok()?;
    for page in 0..1024 {
        image.bring(page, &[(page % 256) as u8; 4096]).ok()?;
    }
    Engine::new(alloc, image, USUAL).ok()
}

/// Moves of a mebibyte, and a compare of what they left.
fn moves_of_a_mebibyte() -> [Job; 3] {
    let mebibyte = u64::from(MEBIBYTE);
    [
        Job::move_bytes(0, 2 * mebibyte, MEBIBYTE),
        Job::move_bytes(mebibyte, 3 * mebibyte, MEBIBYTE),
        Job::compare(0, 2 * mebibyte, MEBIBYTE),
    ]
}

/// The moves were carried out.
fn expect_moved(rt: &impl Abort, engine: &Engine, records: &[Record]) {
    let want = [answer(Status::Success, 0, MEBIBYTE, 0); 3];
    same(rt, records, want.as_slice());
    for page in 0..512 {
        let byte = engine.image().byte(4096 * (512 + page));
        same(rt, byte, Some((page % 256) as u8));
    }
}

#[test]
fn large_moves(rt: HostRuntime) {
    let mut engine = engine_of_numbers(rt.alloc()).expect(&rt, "no memory");
    let records = engine.submit_list(&rt, rt.alloc(), &moves_of_a_mebibyte());
    let records = records.expect(&rt, "refused");
    expect_moved(&rt, &engine, &records);
}

/// An engine over two mebibytes full of 5, but for one page.
fn engine_of_fives(alloc: Global) -> Option<Engine> {
    let mut image = full_image(alloc, 512, 5)?;
    image.bring(300, &[6; 4096]).ok()?;
    let settings = Settings {
        chunk: 65_536,
        ..USUAL
    };
    Engine::new(alloc, image, settings).ok()
}

/// Compares of more than four mebibytes in all. Half of them meet a byte that differs.
fn expect_compares<R: Abort + Threads + Wait + Sync>(rt: &R, alloc: Global, engine: &mut Engine) {
    let equal = Job::compare(0, 0, MEBIBYTE);
    let other = Job::compare(0, u64::from(MEBIBYTE), MEBIBYTE);
    let jobs = [equal, other, other, equal, equal, other, equal, other];
    let records = engine.submit_list(rt, alloc, &jobs).expect(rt, "refused");
    let alike = answer(Status::Success, 0, MEBIBYTE, 0);
    let differs = answer(Status::Success, 1, 44 * 4096, 0);
    let want = [
        alike, differs, differs, alike, alike, differs, alike, differs,
    ];
    same(rt, records.as_slice(), want.as_slice());
}

/// They go to several workers without a gate that was given.
#[test]
fn large_compares(rt: HostRuntime) {
    let mut engine = engine_of_fives(rt.alloc()).expect(&rt, "no memory");
    for _ in 0..10 {
        expect_compares(&rt, rt.alloc(), &mut engine);
    }
}

/// Four jobs of three levels: a fill, a move of it, a fill elsewhere, and a move of that over the first.
#[test]
fn levels_of_four_jobs(rt: HostRuntime) {
    let row = Row {
        jobs: &[
            Job::fill(1, 0, 8),
            Job::move_bytes(0, 64, 8),
            Job::fill(2, 512, 8),
            Job::move_bytes(512, 0, 8),
        ],
        records: &[answer(Status::Success, 0, 8, 0); 4],
        left: &[(0, &[2, 0]), (64, &[1, 0]), (512, &[2, 0])],
        ..plain_row("levels_of_four_jobs")
    };
    expect(&rt, rt.alloc(), &row);
}

#[test]
fn texts_of_errors(rt: HostRuntime) {
    for (error, words) in [
        (SubmitError::TooMany, "too many jobs"),
        (SubmitError::NoMemory, "out of memory"),
    ] {
        let text = format!(in rt.alloc(); "{error}");
        holds(&rt, text.is_ok_and(|text| text.as_str() == words));
    }
}
