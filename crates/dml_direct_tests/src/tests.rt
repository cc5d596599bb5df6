ghost use Rattle.std.specs.Prelude.{◌≡◌, ◌+◌, ◌≤◌, ◌⊎◌, Some, length};
ghost use Rattle.dml_types.specs.declared.operations.Op.TheVariants.{Compare, Move};
ghost use Rattle.dml_types.specs.Job.{op_of};
ghost use Rattle.dml_types.specs.Memory.{Memory, put};
ghost use Rattle.dml_buffers.specs.Holds.{Holds};
ghost use Rattle.dml_desc.specs.Checked.{checked_step};

use dml_desc::{Checked, check};
use dml_direct::{
    apply_delta, compare, compare_pattern, create_delta, dualcast, fill, law_of_buffers,
    move_bytes, move_within,
};
use dml_types::{Job, Op, Record, Status};
use std::process::Abort;

/// The pattern whose bytes are 01 to 08.
const PATTERN: u64 = 0x0807_0605_0403_0201;

/// The job of an operation, checked with staging enough for every job; a job that is refused fails the test.
fn checked(rt: &impl Abort, job: &Job, op: Op) -> Checked
    ensures same { result ≡ job.now }
    ensures operation { op_of job.now ≡ Some op }
{
    match check(job, 1_048_576) {
        Ok(checked) => {
            assert!(rt; checked.op() == op);
            checked
        }
        Err(status) => panic!(rt; "{job:?} is refused: {status:?}"),
    }
}

/// A record without a delta size.
fn record(status: Status, outcome: u8, completed: u32) -> Record {
    Record {
        status,
        result: outcome,
        completed,
        fault: 0,
        delta_size: 0,
    }
}

#[test]
fn compares(rt: HostRuntime) {
    let (one, other) = (*b"kazovuni", *b"kazoVuni");
    let job = checked(&rt, &Job::compare(0x1003, 0x2001, 8), Op::Compare);
    assert_eq!(rt; compare(&job, &one, &other), record(Status::Success, 1, 4));
    assert_eq!(rt; compare(&job, &one, &one), record(Status::Success, 0, 8));
    let expecting = Job::compare(0x1003, 0x2001, 8).with_check(0);
    let job = checked(&rt, &expecting, Op::Compare);
    let answer = compare(&job, &one, &other);
    assert_eq!(rt; answer, record(Status::FalsePredicate, 1, 4));
}

#[test]
fn compares_with_a_pattern(rt: HostRuntime) {
    let bytes = [1, 2, 3, 4, 5, 6, 7, 8, 1, 2, 9];
    let job = Job::compare_pattern(0x1003, PATTERN, 11);
    let job = checked(&rt, &job, Op::ComparePattern);
    let answer = compare_pattern(&job, &bytes);
    assert_eq!(rt; answer, record(Status::Success, 1, 10));
}

/// A buffer of more than a page, which goes by blocks: its last byte, and one in its ninth block, is another one.
#[test]
fn compares_a_long_buffer_with_a_pattern(rt: HostRuntime) {
    let mut bytes = [0x5a; 4737];
    let job = Job::compare_pattern(0x1003, 0x5a5a_5a5a_5a5a_5a5a, 4737);
    let job = checked(&rt, &job, Op::ComparePattern);
    let answer = compare_pattern(&job, &bytes);
    assert_eq!(rt; answer, record(Status::Success, 0, 4737));
    for place in [4736, 4200] {
        bytes[place] = 0;
        let answer = compare_pattern(&job, &bytes);
        assert_eq!(rt; answer, record(Status::Success, 1, place as u32));
    }
}

#[test]
fn fills(rt: HostRuntime) {
    let mut target = [0xee; 11];
    let job = checked(&rt, &Job::fill(PATTERN, 0x1003, 11), Op::Fill);
    assert_eq!(rt; fill(&job, &mut target), record(Status::Success, 0, 11));
    assert_eq!(rt; target, [1, 2, 3, 4, 5, 6, 7, 8, 1, 2, 3]);
}

#[test]
fn moves(rt: HostRuntime) {
    let (source, mut target) = ([1, 2, 3, 4, 5], [0xee; 5]);
    let job = checked(&rt, &Job::move_bytes(0x1003, 0x2001, 5), Op::Move);
    let answer = move_bytes(&job, &source, &mut target);
    assert_eq!(rt; answer, record(Status::Success, 0, 5));
    assert_eq!(rt; target, source);
}

/// A move of a buffer and a compare of the copy with it, as a list of two jobs: the records that they have one after
/// another, on each memory that holds the buffers.
fn move_and_compare(
    moving: &Checked,
    comparing: &Checked,
    source: &[u8],
    target: &mut [u8],
) -> (Record, Record)
    requires moving { op_of moving.now ≡ Some Move }
    requires comparing { op_of comparing.now ≡ Some Compare }
    requires source { length source.now ≡ moving.now.size }
    requires target { length target.old ≡ moving.now.size }
    requires size { comparing.now.size ≡ moving.now.size }
    requires one { comparing.now.source ≡ moving.now.source }
    requires other { comparing.now.target ≡ moving.now.target }
    requires apart { (moving.now.source + moving.now.size ≤ moving.now.target)
        ⊎ (moving.now.target + moving.now.size ≤ moving.now.source) }
    ensures first { (memory : Memory) → Holds memory moving.now.source source.now →
        Holds memory moving.now.target target.old → result.0 ≡ (checked_step memory moving.now).1 }
    ensures second { (memory : Memory) → Holds memory moving.now.source source.now →
        Holds memory moving.now.target target.old →
        result.1 ≡ (checked_step (checked_step memory moving.now).0 comparing.now).1 }
    ensures content { (memory : Memory) → Holds memory moving.now.source source.now →
        Holds memory moving.now.target target.old →
        (checked_step (checked_step memory moving.now).0 comparing.now).0
        ≡ put memory moving.now.target target.new }
{
    law_of_buffers();
    let moved = move_bytes(moving, source, target);
    (moved, compare(comparing, source, target))
}

#[test]
fn moves_and_compares(rt: HostRuntime) {
    let (source, mut target) = ([1, 2, 3, 4, 5], [0xee; 5]);
    let moving = checked(&rt, &Job::move_bytes(0x1003, 0x2001, 5), Op::Move);
    let comparing = checked(&rt, &Job::compare(0x1003, 0x2001, 5), Op::Compare);
    let answers = move_and_compare(&moving, &comparing, &source, &mut target);
    assert_eq!(rt; answers.0, record(Status::Success, 0, 5));
    assert_eq!(rt; answers.1, record(Status::Success, 0, 5));
    assert_eq!(rt; target, source);
}

#[test]
fn moves_over_itself(rt: HostRuntime) {
    let mut bytes = [1, 2, 3, 4, 5, 6, 7, 8, 0, 0, 0, 0];
    let job = checked(&rt, &Job::move_bytes(0x1003, 0x1005, 8), Op::Move);
    let answer = move_within(&job, 0x1003, &mut bytes);
    assert_eq!(rt; answer, record(Status::Success, 1, 8));
    assert_eq!(rt; bytes, [1, 2, 1, 2, 3, 4, 5, 6, 7, 8, 0, 0]);
    let job = checked(&rt, &Job::move_bytes(0x1005, 0x1003, 8), Op::Move);
    let answer = move_within(&job, 0x1003, &mut bytes);
    assert_eq!(rt; answer, record(Status::Success, 0, 8));
    assert_eq!(rt; bytes, [1, 2, 3, 4, 5, 6, 7, 8, 7, 8, 0, 0]);
}

#[test]
fn dualcasts(rt: HostRuntime) {
    let (source, mut target, mut second) = ([1, 2, 3], [0xee; 3], [0xdd; 3]);
    let job = Job::dualcast(0x1003, 0x2010, 0x5010, 3);
    let job = checked(&rt, &job, Op::Dualcast);
    let answer = dualcast(&job, &source, &mut target, &mut second);
    assert_eq!(rt; answer, record(Status::Success, 0, 3));
    assert_eq!(rt; target, source);
    assert_eq!(rt; second, source);
}

/// Three blocks, the second of which differs in its last byte.
#[test]
fn creates_and_applies(rt: HostRuntime) {
    let one = [7; 24];
    let mut other = one;
    other[15] = 9;
    let mut delta = [0xee; 20];
    let job = Job::create_delta(0x1000, 0x2008, 24, 0x3003, 20);
    let job = checked(&rt, &job, Op::CreateDelta);
    let answer = create_delta(&job, &one, &other, &mut delta);
    let want = Record {
        delta_size: 10,
        ..record(Status::Success, 1, 24)
    };
    assert_eq!(rt; answer, want);
    let (entry, behind) = ([1, 0, 7, 7, 7, 7, 7, 7, 7, 9], [0xee; 10]);
    assert_eq!(rt; &delta[..10], entry.as_slice());
    assert_eq!(rt; &delta[10..], behind.as_slice());

    let mut target = one;
    let job = Job::apply_delta(0x3003, 10, 0x1000, 24);
    let job = checked(&rt, &job, Op::ApplyDelta);
    let answer = apply_delta(&job, &delta[..10], &mut target);
    assert_eq!(rt; answer, record(Status::Success, 0, 10));
    assert_eq!(rt; target, other);
}

/// All of three blocks differ, and two entries have room.
#[test]
fn overflows(rt: HostRuntime) {
    let (one, other, mut delta) = ([7; 24], [9; 24], [0xee; 20]);
    let job = Job::create_delta(0x1000, 0x2000, 24, 0x3000, 20);
    let job = checked(&rt, &job, Op::CreateDelta);
    let answer = create_delta(&job, &one, &other, &mut delta);
    let want = Record {
        delta_size: 20,
        ..record(Status::Success, 2, 16)
    };
    assert_eq!(rt; answer, want);
    let entries = [0, 0, 9, 9, 9, 9, 9, 9, 9, 9, 1, 0, 9, 9, 9, 9, 9, 9, 9, 9];
    assert_eq!(rt; delta, entries);
}

/// The second entry does not rise above the first one, and the third is not looked at.
#[test]
fn stops_at_a_bad_entry(rt: HostRuntime) {
    let mut delta = [5; 30];
    for (place, number) in [(0, 1), (10, 1), (20, 0)] {
        delta[place] = number;
        delta[place + 1] = 0;
    }
    let mut target = [7; 16];
    let job = Job::apply_delta(0x3000, 30, 0x1000, 16);
    let job = checked(&rt, &job, Op::ApplyDelta);
    let answer = apply_delta(&job, &delta, &mut target);
    assert_eq!(rt; answer, record(Status::NotRising, 0, 10));
    assert_eq!(rt; target, [7, 7, 7, 7, 7, 7, 7, 7, 5, 5, 5, 5, 5, 5, 5, 5]);
}

/// Buffers that no memory holds at the job's addresses, since these overlap where the bytes differ: the answer is by
/// the bytes all the same.
#[test]
fn buffers_contradict_each_other(rt: HostRuntime) {
    let (one, other) = ([1, 2, 3, 4], [1, 2, 3, 5]);
    let job = checked(&rt, &Job::compare(0x1000, 0x1002, 4), Op::Compare);
    let answer = compare(&job, &one, &other);
    assert_eq!(rt; answer, record(Status::Success, 1, 3));
    let mut target = other;
    let job = checked(&rt, &Job::move_bytes(0x1000, 0x1002, 4), Op::Move);
    let answer = move_bytes(&job, &one, &mut target);
    assert_eq!(rt; answer, record(Status::Success, 1, 4));
    assert_eq!(rt; target, one);
}
