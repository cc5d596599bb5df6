use crate::tests::{expect_chunked, expect_submitted, image_with, poke, record};
use crate::uses::compared_in_chunks;
use dml_arena::Arena;
use dml_desc::check;
use dml_effect::commit;
use dml_image::Image;
use dml_types::{Job, Op, Record, Status};
use std::alloc::Global;
use std::process::Abort;
use std::test::Fail;

/// The pattern whose bytes are 01 to 08.
const PATTERN: u64 = 0x0807_0605_0403_0201;

/// The bytes of a page that hold the pattern, and then 3 bytes of it.
const PATTERNED: [u8; 11] = [1, 2, 3, 4, 5, 6, 7, 8, 1, 2, 3];

/// Carries out a compare that is scanned in chunks of so many bytes.
fn carried_in_chunks(
    rt: &impl Abort,
    alloc: Global,
    image: &mut Image,
    arena: &mut Arena,
    job: &Job,
    chunk: u32,
) -> Result<Record, Fail> {
    let Ok(checked) = check(job, arena.size()) else {
        panic!(rt; "{job:?} is refused");
    };
    let op = checked.op();
    assert!(rt; op == Op::Compare || op == Op::ComparePattern);
    assert!(rt; chunk > 0);
    let room = arena.open();
    let effect = compared_in_chunks(alloc, image, &checked, chunk, room)?;
    let answer = *effect.answer();
    assert_eq!(rt; commit(image, effect), answer);
    Ok(answer)
}

/// Carries out a compare whole, and in chunks of 8, 16, 32 and 4,096 bytes, with one answer.
fn expect_answer(
    rt: &impl Abort,
    alloc: Global,
    image: &mut Image,
    job: &Job,
    answer: Record,
) -> Result<(), Fail> {
    let mut arena = Arena::new(alloc, 0)?;
    expect_submitted(rt, image, &mut arena, job, answer);
    for chunk in [8, 16, 32, 4096] {
        let chunked = carried_in_chunks(rt, alloc, image, &mut arena, job, chunk)?;
        expect_chunked(rt, job, chunk, chunked, answer);
    }
    Ok(())
}

#[test]
fn mismatch_before_fault(rt: HostRuntime) -> Result<(), Fail> {
    let mut image = image_with(rt.alloc(), 4, &[0, 2])?;
    poke(&rt, &mut image, 4095, &[1]);
    let job = Job::compare(0, 8192, 8192);
    let answer = record(Status::Success, 1, 4095, 0);
    expect_answer(&rt, rt.alloc(), &mut image, &job, answer)
}

#[test]
fn compare_stops_at_page_edge(rt: HostRuntime) -> Result<(), Fail> {
    let mut image = image_with(rt.alloc(), 4, &[0, 2, 3])?;
    poke(&rt, &mut image, 13_192, &[1]);
    let job = Job::compare(0, 8192, 8192);
    let answer = record(Status::ReadFault, 0, 4096, 4096);
    expect_answer(&rt, rt.alloc(), &mut image, &job, answer)
}

#[test]
fn expected_results(rt: HostRuntime) -> Result<(), Fail> {
    let mut image = image_with(rt.alloc(), 1, &[0])?;
    let job = Job::compare(0, 8, 8);
    for (expected, status) in [(1, Status::FalsePredicate), (0, Status::Success)] {
        let checking = job.with_check(expected);
        let answer = record(status, 0, 8, 0);
        expect_answer(&rt, rt.alloc(), &mut image, &checking, answer)?;
    }
    Ok(())
}

#[test]
fn pattern_expected(rt: HostRuntime) -> Result<(), Fail> {
    let mut image = image_with(rt.alloc(), 1, &[0])?;
    poke(&rt, &mut image, 0, &PATTERNED);
    for (size, expected, answer) in [
        (11, 0, record(Status::Success, 0, 11, 0)),
        (12, 2, record(Status::FalsePredicate, 1, 11, 0)),
    ] {
        let job = Job::compare_pattern(0, PATTERN, size).with_check(expected);
        expect_answer(&rt, rt.alloc(), &mut image, &job, answer)?;
    }
    Ok(())
}

/// Compares where pages 0 and 2 are present, page 0 begins with the pattern and its last byte is 01.
fn compared_rows() -> [(Job, Record); 6] {
    [
        (
            Job::compare(8, 8200, 4096),
            record(Status::Success, 1, 0, 0),
        ),
        (
            Job::compare(16, 8208, 8192),
            record(Status::Success, 1, 4079, 0),
        ),
        (
            Job::compare(8192, 8208, 8192),
            record(Status::ReadFault, 0, 4080, 12_288),
        ),
        (
            Job::compare(16, 8208, 16).with_check(0),
            record(Status::Success, 0, 16, 0),
        ),
        (
            Job::compare(16, 8208, 16).with_check(1),
            record(Status::FalsePredicate, 0, 16, 0),
        ),
        (
            Job::compare(0, 8208, 16).with_check(1),
            record(Status::Success, 1, 0, 0),
        ),
    ]
}

#[test]
fn compares(rt: HostRuntime) -> Result<(), Fail> {
    let mut image = image_with(rt.alloc(), 4, &[0, 2])?;
    poke(&rt, &mut image, 4095, &[1]);
    poke(&rt, &mut image, 0, &PATTERNED);
    for (job, answer) in compared_rows() {
        expect_answer(&rt, rt.alloc(), &mut image, &job, answer)?;
    }
    Ok(())
}

#[test]
fn compares_with_a_pattern(rt: HostRuntime) -> Result<(), Fail> {
    let mut image = image_with(rt.alloc(), 1, &[0])?;
    poke(&rt, &mut image, 0, &PATTERNED);
    for (size, outcome) in [(11, 0), (12, 1)] {
        let job = Job::compare_pattern(0, PATTERN, size);
        let answer = record(Status::Success, outcome, 11, 0);
        expect_answer(&rt, rt.alloc(), &mut image, &job, answer)?;
    }
    Ok(())
}
