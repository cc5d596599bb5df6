//! Each operation in lists and batches: moves, fills and dualcasts, compares, and deltas.

use super::answer;
use super::rows::{Row, delta_answer, expect, plain_row};
use dml_types::{Job, Status};

/// The pokes of the rows of deltas.
const FIRST: (u64, &[u8]) = (72, &[1, 2, 3, 4, 5, 6, 7, 8]);

const SECOND: (u64, &[u8]) = (88, &[0x11, 0x12, 0x13, 0x14, 0x15, 0x16, 0x17, 0x18]);

const THIRD: (u64, &[u8]) = (64, &[0xff]);

#[test]
fn fill_into_absent_page(rt: HostRuntime) {
    let row = Row {
        pages: 2,
        jobs: &[Job::fill(0x0807_0605_0403_0201, 4090, 12)],
        records: &[answer(Status::WriteFault, 0, 6, 4096)],
        status: Status::BatchFailed,
        left: &[(4088, &[0, 0, 1, 2, 3, 4, 5, 6])],
        ..plain_row("fill_into_absent_page")
    };
    expect(&rt, rt.alloc(), &row);
}

#[test]
fn backward_move_into_absent_page(rt: HostRuntime) {
    let row = Row {
        pages: 2,
        bytes: &[(0, &[1, 2, 3, 4, 5])],
        jobs: &[Job::move_bytes(0, 4, 4096)],
        records: &[answer(Status::WriteFault, 1, 0, 4099)],
        status: Status::BatchFailed,
        left: &[(0, &[1, 2, 3, 4, 5, 0, 0, 0])],
        ..plain_row("backward_move_into_absent_page")
    };
    expect(&rt, rt.alloc(), &row);
}

#[test]
fn forward_move_over_itself(rt: HostRuntime) {
    let row = Row {
        bytes: &[
            (
                0,
                &[
                    0xa0, 0xa1, 0xa2, 0xa3, 0xa4, 0xa5, 0xa6, 0xa7, 0xa8, 0xa9, 0xaa, 0xab,
                ],
            ),
            (100, &[0xd0, 0xd1, 0xd2, 0xd3, 0xd4, 0xd5]),
        ],
        jobs: &[Job::move_bytes(4, 0, 100)],
        records: &[answer(Status::Success, 0, 100, 0)],
        left: &[
            (0, &[0xa4, 0xa5, 0xa6, 0xa7, 0xa8, 0xa9, 0xaa, 0xab, 0, 0]),
            (
                94,
                &[
                    0, 0, 0xd0, 0xd1, 0xd2, 0xd3, 0xd0, 0xd1, 0xd2, 0xd3, 0xd4, 0xd5,
                ],
            ),
        ],
        ..plain_row("forward_move_over_itself")
    };
    expect(&rt, rt.alloc(), &row);
}

#[test]
fn backward_move_stops_at_page_edge(rt: HostRuntime) {
    let row = Row {
        pages: 3,
        present: &[0, 2],
        bytes: &[(8192, &[1, 2])],
        jobs: &[Job::move_bytes(0, 8, 12_272)],
        records: &[answer(Status::ReadFault, 1, 4080, 8191)],
        status: Status::BatchFailed,
        left: &[(8192, &[1, 2, 0, 0, 0, 0, 0, 0, 1, 2, 0, 0])],
        ..plain_row("backward_move_stops_at_page_edge")
    };
    expect(&rt, rt.alloc(), &row);
}

#[test]
fn end_of_address_space(rt: HostRuntime) {
    let last = 0xffff_ffff_ffff_fff0;
    let row = Row {
        present: &[],
        jobs: &[Job::move_bytes(last, 0, 17), Job::move_bytes(last, 0, 16)],
        records: &[
            answer(Status::RangePast, 0, 0, 0),
            answer(Status::ReadFault, 0, 0, 18_446_744_073_709_551_600),
        ],
        status: Status::BatchFailed,
        ..plain_row("end_of_address_space")
    };
    expect(&rt, rt.alloc(), &row);
}

#[test]
fn dualcast_refusals(rt: HostRuntime) {
    let row = Row {
        pages: 4,
        jobs: &[
            Job::dualcast(0, 8, 16, 100),
            Job::dualcast(0, 4096, 8192, 4097),
            Job::dualcast(0, 4096, 8192, 4),
        ],
        records: &[
            answer(Status::DualcastBits, 0, 0, 0),
            answer(Status::Overlap, 0, 0, 0),
            answer(Status::WriteFault, 0, 0, 4096),
        ],
        status: Status::BatchFailed,
        ..plain_row("dualcast_refusals")
    };
    expect(&rt, rt.alloc(), &row);
}

#[test]
fn dualcast_write_fault(rt: HostRuntime) {
    let row = Row {
        pages: 4,
        present: &[0, 1, 3],
        bytes: &[(0, &[1, 2, 3, 4, 5])],
        jobs: &[Job::dualcast(0, 8190, 16_382, 5)],
        records: &[answer(Status::WriteFault, 0, 2, 8192)],
        status: Status::BatchFailed,
        left: &[(8190, &[1, 2]), (16_382, &[1, 2])],
        ..plain_row("dualcast_write_fault")
    };
    expect(&rt, rt.alloc(), &row);
}

#[test]
fn mismatch_before_fault(rt: HostRuntime) {
    let row = Row {
        pages: 4,
        present: &[0, 2],
        bytes: &[(4095, &[1])],
        jobs: &[Job::compare(0, 8192, 8192)],
        records: &[answer(Status::Success, 1, 4095, 0)],
        ..plain_row("mismatch_before_fault")
    };
    expect(&rt, rt.alloc(), &row);
}

#[test]
fn compare_stops_at_page_edge(rt: HostRuntime) {
    let row = Row {
        pages: 4,
        present: &[0, 2, 3],
        bytes: &[(13_192, &[1])],
        jobs: &[Job::compare(0, 8192, 8192)],
        records: &[answer(Status::ReadFault, 0, 4096, 4096)],
        status: Status::BatchFailed,
        ..plain_row("compare_stops_at_page_edge")
    };
    expect(&rt, rt.alloc(), &row);
}

#[test]
fn pattern_expected(rt: HostRuntime) {
    let pattern = 0x0807_0605_0403_0201;
    let row = Row {
        bytes: &[(0, &[1, 2, 3, 4, 5, 6, 7, 8, 1, 2, 3])],
        jobs: &[
            Job::compare_pattern(0, pattern, 11).with_check(0),
            Job::compare_pattern(0, pattern, 12).with_check(2),
        ],
        records: &[
            answer(Status::Success, 0, 11, 0),
            answer(Status::FalsePredicate, 1, 11, 0),
        ],
        status: Status::BatchFailed,
        ..plain_row("pattern_expected")
    };
    expect(&rt, rt.alloc(), &row);
}

#[test]
fn expected_results(rt: HostRuntime) {
    let row = Row {
        bytes: &[(64, &[0xff]), (72, &[0xff])],
        jobs: &[
            Job::compare(0, 8, 8).with_check(1),
            Job::compare(0, 8, 8).with_check(0),
            Job::create_delta(0, 64, 16, 128, 10).with_check(3),
            Job::create_delta(0, 64, 16, 128, 10).with_check(4),
        ],
        records: &[
            answer(Status::FalsePredicate, 0, 8, 0),
            answer(Status::Success, 0, 8, 0),
            delta_answer(Status::FalsePredicate, 2, 8, 0, 10),
            delta_answer(Status::Success, 2, 8, 0, 10),
        ],
        status: Status::BatchFailed,
        ..plain_row("expected_results")
    };
    expect(&rt, rt.alloc(), &row);
}

#[test]
fn delta_record_and_overflow(rt: HostRuntime) {
    let record = Row {
        bytes: &[FIRST, SECOND],
        jobs: &[Job::create_delta(0, 64, 32, 128, 20)],
        records: &[delta_answer(Status::Success, 1, 32, 0, 20)],
        left: &[
            (128, &[1, 0, 1, 2, 3, 4, 5, 6, 7, 8]),
            (138, &[3, 0, 0x11, 0x12, 0x13, 0x14, 0x15, 0x16, 0x17, 0x18]),
        ],
        ..plain_row("delta_record")
    };
    expect(&rt, rt.alloc(), &record);
    let overflow = Row {
        name: "delta_overflow",
        bytes: &[FIRST, SECOND, THIRD],
        records: &[delta_answer(Status::Success, 2, 24, 0, 20)],
        left: &[
            (128, &[0, 0, 0xff, 0, 0, 0, 0, 0, 0, 0]),
            (138, &[1, 0, 1, 2, 3, 4, 5, 6, 7, 8]),
        ],
        ..record
    };
    expect(&rt, rt.alloc(), &overflow);
}

#[test]
fn overflow_before_write_fault(rt: HostRuntime) {
    let row = Row {
        pages: 2,
        bytes: &[FIRST, SECOND, THIRD],
        jobs: &[
            Job::create_delta(0, 64, 32, 4076, 20),
            Job::create_delta(0, 64, 32, 4076, 30),
            Job::create_delta(0, 64, 32, 4080, 20),
        ],
        records: &[
            delta_answer(Status::Success, 2, 24, 0, 20),
            delta_answer(Status::WriteFault, 0, 24, 4096, 20),
            delta_answer(Status::WriteFault, 0, 8, 4096, 10),
        ],
        status: Status::BatchFailed,
        ..plain_row("overflow_before_write_fault")
    };
    expect(&rt, rt.alloc(), &row);
}

#[test]
fn delta_stops_at_absent_source(rt: HostRuntime) {
    let row = Row {
        pages: 2,
        bytes: &[(4056, &[1]), (4072, &[2]), (4088, &[3])],
        jobs: &[
            Job::create_delta(0, 4056, 64, 128, 80),
            Job::create_delta(0, 4056, 64, 256, 20),
        ],
        records: &[
            delta_answer(Status::ReadFault, 0, 40, 4096, 30),
            delta_answer(Status::Success, 2, 32, 0, 20),
        ],
        status: Status::BatchFailed,
        left: &[
            (128, &[0, 0, 1, 0, 0, 0, 0, 0, 0, 0]),
            (138, &[2, 0, 2, 0, 0, 0, 0, 0, 0, 0]),
            (148, &[4, 0, 3, 0, 0, 0, 0, 0, 0, 0]),
            (276, &[0, 0, 0]),
        ],
        ..plain_row("delta_stops_at_absent_source")
    };
    expect(&rt, rt.alloc(), &row);
}

#[test]
fn apply_not_rising(rt: HostRuntime) {
    let row = Row {
        bytes: &[
            (2, &[0x11; 8]),
            (10, &[2, 0]),
            (12, &[0x22; 8]),
            (20, &[2, 0]),
            (22, &[0x33; 8]),
        ],
        jobs: &[Job::apply_delta(0, 30, 256, 32)],
        records: &[answer(Status::NotRising, 0, 20, 0)],
        status: Status::BatchFailed,
        left: &[
            (256, &[0x11; 8]),
            (264, &[0; 8]),
            (272, &[0x22; 8]),
            (280, &[0; 8]),
        ],
        ..plain_row("apply_not_rising")
    };
    expect(&rt, rt.alloc(), &row);
}

#[test]
fn apply_offset_range(rt: HostRuntime) {
    let row = Row {
        pages: 129,
        present: &[0, 128],
        bytes: &[
            (0, &[0xff, 0xff]),
            (2, &[0xaa; 8]),
            (16, &[4, 0]),
            (18, &[0xbb; 8]),
        ],
        jobs: &[
            Job::apply_delta(16, 10, 256, 32),
            Job::apply_delta(0, 10, 4096, 0x8_0000),
        ],
        records: &[
            answer(Status::OffsetRange, 0, 0, 0),
            answer(Status::Success, 0, 10, 0),
        ],
        status: Status::BatchFailed,
        left: &[(528_376, &[0xaa; 8])],
        ..plain_row("apply_offset_range")
    };
    expect(&rt, rt.alloc(), &row);
}

#[test]
fn empty_ranges(rt: HostRuntime) {
    let row = Row {
        jobs: &[
            Job::apply_delta(0, 10, 256, 0),
            Job::apply_delta(0, 0, 256, 32),
            Job::create_delta(0, 64, 0, 128, 10),
        ],
        records: &[
            answer(Status::OffsetRange, 0, 0, 0),
            answer(Status::Success, 0, 0, 0),
            answer(Status::Success, 0, 0, 0),
        ],
        status: Status::BatchFailed,
        ..plain_row("empty_ranges")
    };
    expect(&rt, rt.alloc(), &row);
}

#[test]
fn not_rising_before_fault(rt: HostRuntime) {
    let row = Row {
        pages: 3,
        present: &[0, 2],
        bytes: &[
            (0, &[2, 0]),
            (2, &[0xaa; 8]),
            (10, &[0, 0]),
            (12, &[0xbb; 8]),
        ],
        jobs: &[Job::apply_delta(0, 20, 8176, 32)],
        records: &[answer(Status::NotRising, 0, 10, 0)],
        status: Status::BatchFailed,
        left: &[(8192, &[0xaa; 8])],
        ..plain_row("not_rising_before_fault")
    };
    expect(&rt, rt.alloc(), &row);
}
