//! Jobs over segments that touch and over holes: creates and applies whose ranges lie in two segments, the rows of lent
//! pages cut at each choice of their pages, and want of memory.
use crate::tests::{LentRow, expect_record, fills, moves, other_jobs, record, unaligned_moves};
use dml_arena::Arena;
use dml_desc::{decode_record, encode};
use dml_effect::{submit_batch_over_segments, submit_list_over_segments, submit_over_segments};
use dml_image::{Segment, are_segments};
use dml_types::{Job, Record, Status};
use std::alloc::Global;
use std::mem;
use std::process::Abort;
use std::test::Fail;

/// Bytes cut into segments that touch, in front of each page whose bit of `cuts` is set: an empty one where it is the
/// first.
fn cut<'a>(alloc: Global, content: &'a mut [u8], cuts: u32) -> Result<Vec<Segment<'a>>, Fail> {
    let mut segments = Vec::new(alloc);
    let (mut rest, mut first) = (content, 0_u32);
    for page in 0..32_u32 {
        if cuts & (1 << page) == 0 {
            continue;
        }
        let len = page.saturating_sub(first) as usize * 4096;
        let (front, back) = mem::take(&mut rest)
            .split_at_mut_checked(len)
            .ok_or("no such page")?;
        segments.push(Segment::new(first, front))?;
        rest = back;
        first = page;
    }
    segments.push(Segment::new(first, rest))?;
    Ok(segments)
}

/// Carries out a row's job over its bytes, cut so.
fn expect_cut(
    rt: &impl Abort,
    alloc: Global,
    arena: &mut Arena,
    row: LentRow,
    cuts: u32,
) -> Result<(), Fail> {
    let mut bytes = row.before(rt, alloc)?;
    let staging = arena.size();
    let mut segments = cut(alloc, bytes.as_mut_slice(), cuts)?;
    assert!(rt; are_segments(&segments));
    let answer = submit_over_segments(alloc, &mut segments, arena, &row.job, staging)?;
    drop(segments);
    row.expect_left(rt, alloc, &bytes, answer)
}

/// The same, cut in front of each choice of the pages.
fn expect_all_cuts(
    rt: &impl Abort,
    alloc: Global,
    arena: &mut Arena,
    rows: &[LentRow],
) -> Result<(), Fail> {
    for row in rows {
        assert!(rt; row.pages < 8);
        for cuts in 0..1_u32 << u32::from(row.pages) {
            expect_cut(rt, alloc, arena, *row, cuts)?;
        }
    }
    Ok(())
}

#[test]
fn rows_over_segments(rt: HostRuntime) -> Result<(), Fail> {
    let mut arena = Arena::new(rt.alloc(), 4096)?;
    expect_all_cuts(&rt, rt.alloc(), &mut arena, &fills())?;
    expect_all_cuts(&rt, rt.alloc(), &mut arena, &moves())?;
    expect_all_cuts(&rt, rt.alloc(), &mut arena, &other_jobs())?;
    let mut arena = Arena::new(rt.alloc(), 4099)?;
    expect_all_cuts(&rt, rt.alloc(), &mut arena, &unaligned_moves())?;
    Ok(())
}

/// Where the last of four segments begins: page 2^24, at 64 GiB.
const FAR: u32 = 16_777_216;

const FAR_BYTES: u64 = 4096 * FAR as u64;

/// The record of a create.
fn created(status: Status, outcome: u8, completed: u32, fault: u64, delta_size: u32) -> Record {
    Record {
        delta_size,
        ..record(status, outcome, completed, fault)
    }
}

/// Jobs over pages 0 to 2, a segment each, full of 1, 2 and 0, and a page far behind full of 3, with their records.
fn far_rows() -> [(Job, Record); 7] {
    [
        // the second block of the far source is in the hole
        (
            Job::create_delta(4088, FAR_BYTES + 4088, 16, 8187, 20),
            created(Status::ReadFault, 0, 8, FAR_BYTES + 4096, 10),
        ),
        // a source in two segments, the record too
        (
            Job::create_delta(4088, FAR_BYTES, 16, 8187, 20),
            created(Status::Success, 1, 16, 0, 20),
        ),
        (
            Job::apply_delta(8187, 20, 4088, 16),
            record(Status::Success, 0, 20, 0),
        ),
        (
            Job::compare(4088, FAR_BYTES, 16),
            record(Status::Success, 0, 16, 0),
        ),
        // the second entry goes into the hole
        (
            Job::create_delta(4104, FAR_BYTES, 16, 12_278, 20),
            created(Status::WriteFault, 0, 8, 12_288, 10),
        ),
        // an apply whose second entry lies in the hole
        (
            Job::apply_delta(12_278, 20, 8208, 16),
            record(Status::ReadFault, 0, 10, 12_288),
        ),
        // the first destination lies in two segments, the second goes into the hole
        (
            Job::dualcast(4100, 8188, FAR_BYTES + 4092, 8),
            record(Status::WriteFault, 0, 4, FAR_BYTES + 4096),
        ),
    ]
}

/// What they leave of the three pages.
fn far_left() -> [u8; 12_288] {
    let mut left = [0; 12_288];
    fill(&mut left, 0, 4088, 1);
    fill(&mut left, 4088, 4104, 3);
    fill(&mut left, 4104, 8187, 2);
    fill(&mut left, 8188, 8197, 3);
    fill(&mut left, 8197, 8198, 1);
    fill(&mut left, 8199, 8207, 3);
    fill(&mut left, 8208, 8216, 3);
    fill(&mut left, 12_280, 12_288, 3);
    left
}

/// Sets the bytes from one place up to another.
fn fill(bytes: &mut [u8], from: usize, to: usize, byte: u8) {
    if let Some(part) = bytes.get_mut(from..to) {
        part.fill(byte);
    }
}

#[test]
fn ranges_in_two_segments(rt: HostRuntime) -> Result<(), Fail> {
    let mut arena = Arena::new(rt.alloc(), 4096)?;
    let (mut near, mut far) = ([0; 12_288], [3; 4096]);
    near[..4096].fill(1);
    near[4096..8192].fill(2);
    let mut segments = cut(rt.alloc(), &mut near, 0b110)?;
    segments.push(Segment::new(FAR, &mut far))?;
    for (job, want) in far_rows() {
        assert!(rt; are_segments(&segments));
        let staging = arena.size();
        let answer = submit_over_segments(rt.alloc(), &mut segments, &mut arena, &job, staging)?;
        expect_record(&rt, &job, answer, want);
    }
    drop(segments);
    assert!(rt; near == far_left());
    assert!(rt; far == [3; 4096]);
    Ok(())
}

/// Two segments, with a hole between them.
fn two<'a>(
    alloc: Global,
    low: &'a mut [u8; 4096],
    high: &'a mut [u8; 4096],
) -> Result<Vec<Segment<'a>>, Fail> {
    let mut segments = Vec::with_capacity(alloc, 2)?;
    segments.push(Segment::new(0, low))?;
    segments.push(Segment::new(2, high))?;
    Ok(segments)
}

/// What `refused_submit_over_segments` does before its call.
#[test]
fn set_up_of_submit_over_segments(rt: HostRuntime) -> Result<(), Fail> {
    let arena = Arena::new(rt.alloc(), 4096)?;
    let (mut low, mut high) = ([1; 4096], [2; 4096]);
    let segments = two(rt.alloc(), &mut low, &mut high)?;
    assert!(rt; arena.size() == 4096 && are_segments(&segments));
    Ok(())
}

/// The right answer, or want of memory with nothing changed.
#[test]
fn refused_submit_over_segments(rt: HostRuntime) -> Result<(), Fail> {
    let mut arena = Arena::new(rt.alloc(), 4096)?;
    let (mut low, mut high) = ([1; 4096], [2; 4096]);
    let mut segments = two(rt.alloc(), &mut low, &mut high)?;
    assert!(rt; are_segments(&segments));
    let job = Job::move_bytes(0, 8192, 8);
    let moved = match submit_over_segments(rt.alloc(), &mut segments, &mut arena, &job, 4096) {
        Ok(answer) => {
            expect_record(&rt, &job, answer, record(Status::Success, 0, 8, 0));
            1
        }
        Err(_) => 2,
    };
    drop(segments);
    assert_eq!(rt; (high[0], high[7], high[8]), (moved, moved, 2));
    Ok(())
}

/// The same of a list and of a batch behind it.
#[test]
#[tactic(auto, using(dml_effect::proofs::BatchLemmas::room_of_limit))]
fn refused_lists_over_segments(rt: HostRuntime) -> Result<(), Fail> {
    let mut arena = Arena::new(rt.alloc(), 4096)?;
    let (mut low, mut high) = ([1; 4096], [2; 4096]);
    let mut segments = two(rt.alloc(), &mut low, &mut high)?;
    let list = [encode(&Job::move_bytes(0, 8192, 8)).ok_or("no descriptor")?];
    let mut told = [[0xff; 32]];
    assert!(rt; are_segments(&segments));
    let answer = submit_list_over_segments(
        rt.alloc(),
        &mut segments,
        &mut arena,
        &list,
        4096,
        &mut told,
    );
    let listed = told_by(&rt, answer.is_ok(), &told[0]);
    let batch = [encode(&Job::move_bytes(0, 8200, 8)).ok_or("no descriptor")?];
    let mut told = [[0xff; 32]];
    assert!(rt; are_segments(&segments));
    let own = submit_batch_over_segments(
        rt.alloc(),
        &mut segments,
        &mut arena,
        &batch,
        4096,
        &mut told,
    );
    let batched = told_by(&rt, own.is_ok(), &told[0]);
    drop(segments);
    assert_eq!(rt; (high[0], high[7]), (listed, listed));
    assert_eq!(rt; (high[8], high[15], high[16]), (batched, batched, 2));
    Ok(())
}

/// Expects the record of a move of 8 bytes, or none where memory was wanting, and answers what stands at its target.
fn told_by(rt: &impl Abort, is_done: bool, told: &[u8; 32]) -> u8 {
    if is_done {
        assert_eq!(rt; decode_record(told), Some(record(Status::Success, 0, 8, 0)));
        1
    } else {
        assert_eq!(rt; *told, [0xff; 32]);
        2
    }
}
