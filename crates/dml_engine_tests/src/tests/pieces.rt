//! Lists and batches over memory that a caller lends in one piece.

use super::claims::{holds, same};
use super::rows::delta_answer;
use super::{USUAL, answer};
use dml_effect::are_whole_pages;
use dml_engine::{RunError, run_batch_over, run_list_over};
use dml_types::{Job, Record, Settings, Status};
use std::alloc::Global;
use std::process::Abort;
use std::sync::Wait;
use std::thread::Threads;

/// More pages than an image has of its own, of 0.
const PAGES: usize = 4100;

/// Behind the last of them.
const END: u64 = 16_793_600;

/// Where the pages begin that an image of its own does not have.
const FAR: u64 = 16_777_216;

/// Jobs whose ranges lie on both sides of that line, and one that ends past the last page.
fn far_jobs() -> [Job; 6] {
    [
        Job::fill(0x0807_0605_0403_0201, FAR - 4, 16),
        Job::move_bytes(FAR - 4, 64, 16),
        Job::compare(FAR - 4, 64, 16),
        Job::create_delta(128, FAR - 8, 24, FAR + 4096, 80),
        Job::apply_delta(FAR + 4096, 30, 128, 24),
        Job::fill(0xff, END - 8, 16),
    ]
}

/// What they answer, one after another.
fn far_records() -> [Record; 6] {
    [
        answer(Status::Success, 0, 16, 0),
        answer(Status::Success, 0, 16, 0),
        answer(Status::Success, 0, 16, 0),
        delta_answer(Status::Success, 1, 24, 0, 30),
        answer(Status::Success, 0, 30, 0),
        answer(Status::WriteFault, 0, 8, END),
    ]
}

/// What they leave.
const LEFT: [(u64, &[u8]); 6] = [
    (
        FAR - 5,
        &[0, 1, 2, 3, 4, 5, 6, 7, 8, 1, 2, 3, 4, 5, 6, 7, 8, 0],
    ),
    (63, &[0, 1, 2, 3, 4, 5, 6, 7, 8, 1, 2, 3, 4, 5, 6, 7, 8, 0]),
    (
        FAR + 4096,
        &[0, 0, 0, 0, 0, 0, 1, 2, 3, 4, 1, 0, 5, 6, 7, 8, 1, 2, 3, 4],
    ),
    (FAR + 4116, &[2, 0, 5, 6, 7, 8, 0, 0, 0, 0, 0]),
    (
        128,
        &[
            0, 0, 0, 0, 1, 2, 3, 4, 5, 6, 7, 8, 1, 2, 3, 4, 5, 6, 7, 8, 0, 0, 0, 0, 0,
        ],
    ),
    (END - 9, &[0, 0xff, 0, 0, 0, 0, 0, 0, 0]),
];

/// Expects bytes of the caller's memory.
pub(super) fn expect_content(rt: &impl Abort, content: &[u8], left: &[(u64, &[u8])]) {
    for (addr, bytes) in left {
        for (at, byte) in (*addr..u64::MAX).zip(*bytes) {
            assert_eq!(rt; content.get(at as usize), Some(byte), "byte {at}");
        }
    }
}

/// Pages of 0.
fn far_content(rt: &impl Abort, alloc: Global) -> Vec<u8> {
    vec![in alloc; 0; 4096 * PAGES].expect(rt, "no memory")
}

/// A list on pages that no image has of its own.
fn expect_far_list<R: Abort + Threads + Wait + Sync>(rt: &R, alloc: Global, settings: Settings) {
    let mut content = far_content(rt, alloc);
    assert!(rt; are_whole_pages(&content));
    let records = run_list_over(rt, alloc, &mut content, settings, &far_jobs());
    let records = records.expect(rt, "refused");
    same(rt, records.as_slice(), far_records().as_slice());
    expect_content(rt, &content, &LEFT);
}

/// The same of a batch.
fn expect_far_batch<R: Abort + Threads + Wait + Sync>(rt: &R, alloc: Global, settings: Settings) {
    let mut content = far_content(rt, alloc);
    assert!(rt; are_whole_pages(&content));
    let batch = run_batch_over(rt, alloc, &mut content, settings, &far_jobs());
    let (own, records) = batch.expect(rt, "refused");
    same(rt, (own.status, own.completed), (Status::BatchFailed, 6));
    same(rt, records.as_slice(), far_records().as_slice());
    expect_content(rt, &content, &LEFT);
}

/// With 1, 2 and 16 workers: all alike.
#[test]
fn pages_beyond_own_ones(rt: HostRuntime) {
    for workers in [1, 2, 16] {
        let settings = Settings { workers, ..USUAL };
        expect_far_list(&rt, rt.alloc(), settings);
        expect_far_batch(&rt, rt.alloc(), settings);
    }
}

/// The bytes of a mebibyte.
const MIB: usize = 1_048_576;

/// A pattern of sevens.
const SEVENS: u64 = 0x0707_0707_0707_0707;

/// Chunks of 64 KiB, so that few tasks are taken off what workers share.
const SHARED: Settings = Settings {
    chunk: 65_536,
    ..USUAL
};

/// Jobs of a mebibyte each, of two levels. In chunks of 64 KiB a compare shares 999,424 bytes: the five are worth five
/// workers, the one beside the writes a single one, and the four behind these are worth four.
fn shared_jobs() -> [Job; 7] {
    [
        Job::move_bytes(0, 4_194_304, 1_048_576),
        Job::fill(SEVENS, 5_242_880, 1_048_576),
        Job::compare_pattern(1_048_576, 0, 1_048_576),
        Job::compare(0, 4_194_304, 1_048_576),
        Job::compare(0, 5_242_880, 1_048_576),
        Job::compare_pattern(4_194_304, SEVENS, 1_048_576),
        Job::compare_pattern(5_242_880, SEVENS, 1_048_576),
    ]
}

/// Eight mebibytes, the first of them full of sevens.
fn shared_content(rt: &impl Abort, alloc: Global) -> Vec<u8> {
    let mut content = vec![in alloc; 0; 8 * MIB].expect(rt, "no memory");
    for byte in content.iter_mut().take(MIB) {
        *byte = 7;
    }
    content
}

/// These mebibytes are full of sevens, and the others of zeros.
fn expect_sevens(rt: &impl Abort, content: &[u8], full: &[usize]) {
    for (mebibyte, bytes) in content.chunks_exact(MIB).enumerate() {
        let byte = if full.contains(&mebibyte) { 7 } else { 0 };
        assert!(rt; bytes.iter().all(|there| *there == byte), "{mebibyte}");
    }
}

/// All of the jobs were done.
fn expect_shared(rt: &impl Abort, content: &[u8], records: &[Record]) {
    let want = [answer(Status::Success, 0, 1_048_576, 0); 7];
    same(rt, records, want.as_slice());
    expect_sevens(rt, content, &[0, 4, 5]);
}

/// A list of work enough for several workers.
fn expect_shared_list<R: Abort + Threads + Wait + Sync>(rt: &R, alloc: Global, workers: u32) {
    let mut content = shared_content(rt, alloc);
    let settings = Settings { workers, ..SHARED };
    assert!(rt; are_whole_pages(&content));
    let records = run_list_over(rt, alloc, &mut content, settings, &shared_jobs());
    let records = records.expect(rt, "refused");
    expect_shared(rt, &content, &records);
}

/// With 1, 2 and 16 workers: all alike. How many of them are started is counted beside the tests.
#[test]
fn list_on_workers_over_one_piece(rt: HostRuntime) {
    for workers in [1, 2, 16] {
        expect_shared_list(&rt, rt.alloc(), workers);
    }
}

/// A batch of work enough for several workers.
fn expect_shared_batch<R: Abort + Threads + Wait + Sync>(rt: &R, alloc: Global, workers: u32) {
    let mut content = shared_content(rt, alloc);
    let settings = Settings { workers, ..SHARED };
    assert!(rt; are_whole_pages(&content));
    let batch = run_batch_over(rt, alloc, &mut content, settings, &shared_jobs());
    let (own, records) = batch.expect(rt, "refused");
    same(rt, (own.status, own.completed), (Status::Success, 7));
    expect_shared(rt, &content, &records);
}

/// With 1, 2 and 16 workers: all alike. How many of them are started is counted beside the tests.
#[test]
fn batch_on_workers_over_one_piece(rt: HostRuntime) {
    for workers in [1, 2, 16] {
        expect_shared_batch(&rt, rt.alloc(), workers);
    }
}

/// A list and a batch over a piece are refused so, and leave it as it was.
fn expect_refusal<R: Abort + Threads + Wait + Sync>(
    rt: &R,
    alloc: Global,
    settings: Settings,
    jobs: &[Job],
    error: RunError,
) {
    let mut content = [0; 8192];
    assert!(rt; are_whole_pages(&content));
    let list = run_list_over(rt, alloc, &mut content, settings, jobs);
    same(rt, list.err(), Some(error));
    assert!(rt; are_whole_pages(&content));
    let batch = run_batch_over(rt, alloc, &mut content, settings, jobs);
    same(rt, batch.err(), Some(error));
    same(rt, content[0], 0);
}

/// Nothing is carried out where the settings, or else the number of jobs, are out of their limits.
#[test]
fn refusals_over_one_piece(rt: HostRuntime) {
    let bad = Settings { chunk: 12, ..USUAL };
    let fill = [Job::fill(1, 0, 8)];
    let many = [Job::fill(1, 0, 8); 1025];
    expect_refusal(&rt, rt.alloc(), bad, &fill, RunError::BadSettings);
    expect_refusal(&rt, rt.alloc(), bad, &many, RunError::BadSettings);
    expect_refusal(&rt, rt.alloc(), USUAL, &many, RunError::TooMany);
    for (error, text) in [
        (RunError::BadSettings, "the settings are out of range"),
        (RunError::TooMany, "too many jobs"),
        (RunError::NoMemory, "out of memory"),
    ] {
        expect_text(&rt, rt.alloc(), error, text);
    }
}

/// An error has this text.
fn expect_text(rt: &impl Abort, alloc: Global, error: RunError, text: &str) {
    let shown = format!(in alloc; "{error}").expect(rt, "no memory");
    same(rt, shown.as_str(), text);
}

/// The right records, or want of memory with nothing changed.
#[test]
fn refused_run_list_over(rt: HostRuntime) {
    let mut content = [0; 8192];
    let jobs = [Job::fill(1, 0, 16), Job::move_bytes(0, 4090, 12)];
    match run_list_over(&rt, rt.alloc(), &mut content, USUAL, &jobs) {
        Ok(records) => {
            let want = [
                answer(Status::Success, 0, 16, 0),
                answer(Status::Success, 0, 12, 0),
            ];
            same(&rt, records.as_slice(), want.as_slice());
            same(&rt, (content[8], content[4098]), (1, 1));
        }
        Err(error) => {
            same(&rt, error, RunError::NoMemory);
            same(&rt, content, [0; 8192]);
        }
    }
}

/// The right records, or want of memory with nothing changed.
#[test]
fn refused_run_batch_over(rt: HostRuntime) {
    let mut content = [0; 8192];
    let jobs = [
        Job::fill(1, 0, 16),
        Job::fill(1, 8190, 4),
        Job::move_bytes(0, 4090, 12).with_flags(0x01),
    ];
    match run_batch_over(&rt, rt.alloc(), &mut content, USUAL, &jobs) {
        Ok((own, records)) => {
            let want = [
                answer(Status::Success, 0, 16, 0),
                answer(Status::WriteFault, 0, 2, 8192),
                answer(Status::Abandoned, 0, 0, 0),
            ];
            same(&rt, (own.status, own.completed), (Status::BatchFailed, 2));
            same(&rt, records.as_slice(), want.as_slice());
            same(&rt, (content[8], content[4098]), (1, 0));
        }
        Err(error) => {
            same(&rt, error, RunError::NoMemory);
            same(&rt, content, [0; 8192]);
        }
    }
}

/// What the calls on workers do before.
#[test]
fn set_up_of_run_list_over_on_workers(rt: HostRuntime) {
    let content = shared_content(&rt, rt.alloc());
    expect_sevens(&rt, &content, &[0]);
}

/// Nothing was done for want of memory.
fn expect_refused(rt: &impl Abort, content: &[u8], error: RunError) {
    same(rt, error, RunError::NoMemory);
    expect_sevens(rt, content, &[0]);
}

/// The right records, with workers or without, or want of memory with nothing changed.
#[test]
fn refused_run_list_over_on_workers(rt: HostRuntime) {
    let mut content = shared_content(&rt, rt.alloc());
    assert!(rt; are_whole_pages(&content));
    match run_list_over(&rt, rt.alloc(), &mut content, SHARED, &shared_jobs()) {
        Ok(records) => expect_shared(&rt, &content, &records),
        Err(error) => expect_refused(&rt, &content, error),
    }
}

/// The right records, with workers or without, or want of memory with nothing changed.
#[test]
fn refused_run_batch_over_on_workers(rt: HostRuntime) {
    let mut content = shared_content(&rt, rt.alloc());
    assert!(rt; are_whole_pages(&content));
    match run_batch_over(&rt, rt.alloc(), &mut content, SHARED, &shared_jobs()) {
        Ok((own, records)) => {
            same(&rt, (own.status, own.completed), (Status::Success, 7));
            expect_shared(&rt, &content, &records);
        }
        Err(error) => expect_refused(&rt, &content, error),
    }
}
