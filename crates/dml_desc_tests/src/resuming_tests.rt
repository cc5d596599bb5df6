use dml_desc::rest;
use dml_types::{Job, Record, Status};
use std::process::Abort;

/// A completion record; no job of these has a delta record.
fn record(status: Status, outcome: u8, completed: u32, fault: u64) -> Record {
    Record {
        status,
        result: outcome,
        completed,
        fault,
        delta_size: 0,
    }
}

/// A read fault after some bytes.
fn read(completed: u32, fault: u64) -> Record {
    record(Status::ReadFault, 0, completed, fault)
}

/// A write fault after some bytes.
fn write(completed: u32, fault: u64) -> Record {
    record(Status::WriteFault, 0, completed, fault)
}

/// Compares what is left of each job of a table after its record.
fn expect_rests(rt: &impl Abort, rows: &[(Job, Record, Option<Job>)]) {
    for (job, answer, want) in rows {
        assert_eq!(rt; rest(job, answer), *want, "{job:?} {answer:?}");
    }
}

/// The rests of moves, and what has none.
#[test]
fn rest_of_moves(rt: HostRuntime) {
    let backward = Job::move_bytes(0, 4100, 8192);
    let forward = Job::move_bytes(4088, 0, 50);
    let table = [
        (
            backward,
            record(Status::WriteFault, 1, 4, 12_287),
            Some(Job::move_bytes(0, 4100, 8188)),
        ),
        (forward, read(8, 4096), Some(Job::move_bytes(4096, 8, 42))),
        (Job::create_delta(0, 4096, 64, 128, 80), read(8, 4096), None),
        (forward, record(Status::Success, 0, 50, 0), None),
        (forward, read(50, 4096), None),
        (forward, read(51, 4096), None),
    ];
    expect_rests(&rt, &table);
}

/// What is left of each operation, where there is something left.
#[test]
fn each_operation(rt: HostRuntime) {
    let pattern = 0x0807_0605_0403_0201;
    let unsupported = Job {
        opcode: 0x10,
        ..Job::move_bytes(0, 8, 16)
    };
    let table = [
        (
            Job::fill(pattern, 4091, 9),
            write(5, 4096),
            Some(Job::fill(0x0504_0302_0108_0706, 4096, 4)),
        ),
        (
            Job::compare(0, 4092, 8).with_check(1),
            read(4, 4096),
            Some(Job::compare(4, 4096, 4).with_check(1)),
        ),
        (
            Job::compare_pattern(4085, pattern, 20),
            read(11, 4096),
            Some(Job::compare_pattern(4096, 0x0302_0108_0706_0504, 9)),
        ),
        (
            Job::dualcast(0, 4094, 8190, 8).with_flags(0x0e),
            write(2, 4096),
            Some(Job::dualcast(2, 4096, 8192, 6).with_flags(0x0e)),
        ),
        (
            Job::move_bytes(8, 4096, 16),
            write(0, 4096),
            Some(Job::move_bytes(8, 4096, 16)),
        ),
        (Job::no_op(), read(0, 0), None),
        (Job::apply_delta(4096, 10, 0, 8), read(0, 4096), None),
        (unsupported, read(0, 0), None),
    ];
    expect_rests(&rt, &table);
}

/// Only a move with result exactly 1 keeps its addresses, and no address further on is above 2^64 - 1.
#[test]
fn results_and_addresses(rt: HostRuntime) {
    let two = record(Status::ReadFault, 2, 8, 4096);
    let one = record(Status::ReadFault, 1, 8, 4096);
    let past = read(16, u64::MAX);
    let table = [
        (
            Job::move_bytes(0, 4088, 16),
            two,
            Some(Job::move_bytes(8, 4096, 8)),
        ),
        (
            Job::compare(0, 4088, 16),
            one,
            Some(Job::compare(8, 4096, 8)),
        ),
        (
            Job::compare(u64::MAX - 16, 0, 17),
            past,
            Some(Job::compare(u64::MAX, 16, 1)),
        ),
        (Job::compare(u64::MAX - 15, 0, 17), past, None),
        (Job::move_bytes(0, u64::MAX - 15, 17), past, None),
        (Job::fill(u64::MAX, u64::MAX - 15, 17), past, None),
        (
            Job::fill(u64::MAX, 0, 17),
            past,
            Some(Job::fill(u64::MAX, 16, 1)),
        ),
        (Job::compare_pattern(u64::MAX - 15, 0, 17), past, None),
        (Job::dualcast(0, 0, u64::MAX - 15, 17), past, None),
    ];
    expect_rests(&rt, &table);
}
