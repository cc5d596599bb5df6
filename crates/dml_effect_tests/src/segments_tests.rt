//! Jobs over memory in two segments far apart: from one to the other, and into the holes.
use crate::tests::{expect_record, record, write_over};
use crate::uses::submitted_over_two;
use dml_arena::Arena;
use dml_effect::submit_over_segments;
use dml_image::{Segment, Two, are_segments};
use dml_types::{Job, Record, Status};
use std::alloc::Global;
use std::process::Abort;
use std::test::Fail;

/// Carries out a job over segments that are a memory.
fn carried_over(
    rt: &impl Abort,
    alloc: Global,
    segments: &mut [Segment<'_>],
    arena: &mut Arena,
    job: &Job,
) -> Result<Record, Fail> {
    let staging = arena.size();
    assert!(rt; are_segments(segments));
    Ok(submit_over_segments(alloc, segments, arena, job, staging)?)
}

/// Where the second of two segments begins: page 2^24, at 64 GiB.
const FAR: u32 = 16_777_216;

const FAR_BYTES: u64 = 4096 * FAR as u64;

/// A job over a page full of 1 at page 1 and one full of 2 at page 2^24; its answer, bytes that it leaves in the first
/// page from a place on, and the places of the second page that it fills with 1.
#[derive(Clone, Copy)]
struct FarRow<'a> {
    job: Job,
    answer: Record,
    low: (usize, &'a [u8]),
    ones: (usize, usize),
}

/// A job that changes nothing.
fn unchanged(job: Job, answer: Record) -> FarRow<'static> {
    FarRow {
        job,
        answer,
        low: (0, &[]),
        ones: (0, 0),
    }
}

impl FarRow<'_> {
    /// Carries out the job, and compares its answer and all bytes.
    fn expect(&self, rt: &impl Abort, alloc: Global, arena: &mut Arena) -> Result<(), Fail> {
        let (mut low, mut high) = ([1; 4096], [2; 4096]);
        let mut list = Vec::with_capacity(alloc, 2)?;
        list.push(Segment::new(1, &mut low))?;
        list.push(Segment::new(FAR, &mut high))?;
        let answer = carried_over(rt, alloc, &mut list, arena, &self.job)?;
        drop(list);
        expect_record(rt, &self.job, answer, self.answer);
        let (mut left, mut right) = ([1; 4096], [2; 4096]);
        write_over(rt, &mut left, self.low.0, self.low.1);
        assert!(rt; self.ones.0 <= self.ones.1 && self.ones.1 <= 4096);
        right[self.ones.0..self.ones.1].fill(1);
        assert!(rt; low == left && high == right, "{:?}", self.job);
        Ok(())
    }
}

/// Moves from one segment to the other, into the hole behind it too, and fills.
fn far_writes() -> [FarRow<'static>; 5] {
    [
        FarRow {
            ones: (0, 4096),
            ..unchanged(
                Job::move_bytes(4096, FAR_BYTES, 4096),
                record(Status::Success, 0, 4096, 0),
            )
        },
        FarRow {
            ones: (0, 4096),
            ..unchanged(
                Job::move_bytes(4096, FAR_BYTES, 4097),
                record(Status::ReadFault, 0, 4096, 8192),
            )
        },
        FarRow {
            ones: (2, 4096),
            ..unchanged(
                Job::move_bytes(4097, FAR_BYTES + 2, 4095),
                record(Status::WriteFault, 0, 4094, FAR_BYTES + 4096),
            )
        },
        FarRow {
            low: (4088, &[7, 0, 0, 0, 0, 0, 0, 0]),
            ..unchanged(
                Job::fill(7, 8184, 16),
                record(Status::WriteFault, 0, 8, 8192),
            )
        },
        unchanged(Job::fill(7, 0, 16), record(Status::WriteFault, 0, 0, 0)),
    ]
}

#[test]
fn faults_at_holes(rt: HostRuntime) -> Result<(), Fail> {
    let mut arena = Arena::new(rt.alloc(), 4099)?;
    for row in far_writes() {
        row.expect(&rt, rt.alloc(), &mut arena)?;
    }
    for (job, answer) in [
        (
            Job::compare(4096, FAR_BYTES, 64),
            record(Status::Success, 1, 0, 0),
        ),
        (
            Job::compare(FAR_BYTES - 8, 4096, 16),
            record(Status::ReadFault, 0, 0, FAR_BYTES - 8),
        ),
    ] {
        unchanged(job, answer).expect(&rt, rt.alloc(), &mut arena)?;
    }
    Ok(())
}

/// The record of a job over two slices that are lent together, the one from page 0 on and the other at 64 GiB.
fn carried_over_two(
    rt: &impl Abort,
    alloc: Global,
    low: &mut [u8],
    high: &mut [u8],
    job: &Job,
) -> Result<Record, Fail> {
    let mut arena = Arena::new(alloc, 4099)?;
    let staging = arena.size();
    let mut two = Two::new(Segment::new(0, low), Segment::new(FAR, high));
    assert!(rt; two.is_memory());
    Ok(submitted_over_two(alloc, &mut two, &mut arena, job, staging)?)
}

/// Two slices hold what a move from one to the other leaves.
#[test]
fn move_over_two_slices(rt: HostRuntime) -> Result<(), Fail> {
    let (mut low, mut high) = ([1; 4096], [2; 8192]);
    let job = Job::move_bytes(100, FAR_BYTES + 4090, 12);
    let answer = carried_over_two(&rt, rt.alloc(), &mut low, &mut high, &job)?;
    expect_record(&rt, &job, answer, record(Status::Success, 0, 12, 0));
    let mut right = [2; 8192];
    right[4090..4102].fill(1);
    assert!(rt; low == [1; 4096] && high == right);
    Ok(())
}
