use byteorder::{ByteOrder, LittleEndian};
use dml_desc::{batch_bytes, check, check_in_batch, decode, need, record_bytes};
use dml_types::{BatchRecord, Job, Op, Record, Status};
use hex::FromHex;
use std::process::Abort;
use std::test::Fail;

/// The staging size of a run without options.
const STAGING: u32 = 1_048_576;

/// The job of a passed check, or its status.
fn answer(job: &Job, staging: u32) -> Result<Job, Status> {
    check(job, staging).map(|checked| *checked.job())
}

/// Checks each job of a table at a staging size against its status, or None where it is accepted.
fn expect_answers(rt: &impl Abort, staging: u32, rows: &[(Job, Option<Status>)]) {
    for (job, status) in rows {
        let want = match *status {
            Some(status) => Err(status),
            None => Ok(*job),
        };
        assert_eq!(rt; answer(job, staging), want, "{job:?} at {staging}");
    }
}

/// The bytes of a descriptor, field by field.
fn descriptor(job: &Job) -> [u8; 64] {
    let mut bytes = [0; 64];
    LittleEndian::write_u24(&mut bytes[4..7], job.flags & 0xff_ffff);
    bytes[7] = job.opcode;
    LittleEndian::write_u64(&mut bytes[16..24], job.source);
    LittleEndian::write_u64(&mut bytes[24..32], job.target);
    LittleEndian::write_u32(&mut bytes[32..36], job.size);
    match job.op() {
        Some(Op::Compare | Op::ComparePattern) => bytes[40] = job.expected,
        Some(Op::CreateDelta) => {
            LittleEndian::write_u64(&mut bytes[40..48], job.extra);
            LittleEndian::write_u32(&mut bytes[48..52], job.delta_size);
            bytes[56] = job.expected;
        }
        Some(Op::ApplyDelta) => LittleEndian::write_u32(&mut bytes[40..44], job.delta_size),
        Some(Op::Dualcast) => LittleEndian::write_u64(&mut bytes[40..48], job.extra),
        Some(Op::NoOp | Op::Move | Op::Fill) | None => {}
    }
    bytes
}

#[test]
fn move_descriptor(rt: HostRuntime) -> Result<(), Fail> {
    let bytes = <[u8; 64]>::from_hex(
        "000000000c00000300000000000000000010000000000000002000000000000064000000\
         00000000000000000000000000000000000000000000000000000000",
    )?;
    let job = Job::move_bytes(4096, 8192, 100).with_flags(0x0c);
    assert_eq!(rt; decode(&bytes), job);
    assert_eq!(rt; answer(&job, STAGING), Ok(job));
    assert_eq!(rt; need(&job), 100);
    Ok(())
}

#[test]
fn create_descriptor(rt: HostRuntime) -> Result<(), Fail> {
    let bytes = <[u8; 64]>::from_hex(
        "000000008000000700000000000000000000000000000000400000000000000020000000\
         00000000800000000000000014000000000000000200000000000000",
    )?;
    let job = Job::create_delta(0, 64, 32, 128, 20).with_check(2);
    assert_eq!(rt; decode(&bytes), job);
    assert_eq!(rt; answer(&job, STAGING), Ok(job));
    assert_eq!(rt; need(&job), 40);
    Ok(())
}

#[test]
fn bad_opcode_descriptor(rt: HostRuntime) -> Result<(), Fail> {
    let bytes = <[u8; 64]>::from_hex(
        "000000000000001000000000000000000000000000000000000000000000000000000000\
         00000000000000000000000000000000000000000000000000000000",
    )?;
    let job = Job {
        opcode: 0x10,
        ..Job::no_op()
    };
    assert_eq!(rt; decode(&bytes), job);
    assert_eq!(rt; answer(&job, STAGING), Err(Status::BadOpcode));
    assert_eq!(rt; need(&job), 0);
    Ok(())
}

#[test]
fn record_of_write_fault(rt: HostRuntime) -> Result<(), Fail> {
    let outcome = Record {
        status: Status::WriteFault,
        result: 0,
        completed: 6,
        fault: 4096,
        delta_size: 0,
    };
    let want = <[u8; 32]>::from_hex(
        "8300000006000000001000000000000000000000000000000000000000000000",
    )?;
    assert_eq!(rt; record_bytes(&outcome), want);
    Ok(())
}

#[test]
fn record_of_delta_fault(rt: HostRuntime) -> Result<(), Fail> {
    let outcome = Record {
        status: Status::ReadFault,
        result: 0,
        completed: 40,
        fault: 4096,
        delta_size: 30,
    };
    let want = <[u8; 32]>::from_hex(
        "030000002800000000100000000000001e000000000000000000000000000000",
    )?;
    assert_eq!(rt; record_bytes(&outcome), want);
    Ok(())
}

#[test]
fn record_of_failed_batch(rt: HostRuntime) -> Result<(), Fail> {
    let outcome = BatchRecord {
        status: Status::BatchFailed,
        completed: 3,
    };
    let want = <[u8; 32]>::from_hex(
        "0500000003000000000000000000000000000000000000000000000000000000",
    )?;
    assert_eq!(rt; batch_bytes(&outcome), want);
    Ok(())
}

/// The rows of one job, each named after what it shows.
#[test]
fn rows(rt: HostRuntime) {
    let unsupported = Job {
        opcode: 0x10,
        ..Job::no_op()
    };
    let long_no_op = Job {
        size: 4_294_967_295,
        ..Job::no_op()
    };
    let bad_size = Some(Status::BadSize);
    let bad_delta = Some(Status::BadDeltaSize);
    let misaligned = Some(Status::Misaligned);
    let table = [
        // dualcast_bits_refused
        (Job::dualcast(0, 8, 16, 100), Some(Status::DualcastBits)),
        // create_size_refused
        (Job::create_delta(4, 64, 12, 128, 15), bad_size),
        // create_delta_size_refused
        (Job::create_delta(4, 64, 16, 128, 15), bad_delta),
        (Job::create_delta(4, 64, 16, 128, 20), misaligned),
        // apply_overlap_refused
        (Job::apply_delta(0, 20, 16, 32), Some(Status::Overlap)),
        (Job::apply_delta(0, 0, 0, 32), None),
        // create_overlap_refused: the record has 70 to 89, source 2 has 64 to 79
        (Job::create_delta(0, 64, 16, 70, 20), Some(Status::Overlap)),
        // opcode_before_flags
        (unsupported.with_flags(0x10), Some(Status::BadOpcode)),
        (long_no_op, None),
        // flags_before_size
        (
            Job::move_bytes(0, 0, 1_048_577).with_flags(0x10),
            Some(Status::BadFlags),
        ),
        (Job::move_bytes(0, 0, 1_048_577), bad_size),
        (Job::move_bytes(0, 0, 0), None),
        (Job::no_op().with_flags(1), Some(Status::BadFlags)),
    ];
    expect_answers(&rt, STAGING, &table);
}

/// A job that breaks two rules is answered by the first of them. No operation can be misaligned and have two
/// destinations, so these two rules are paired with the next one.
#[test]
fn pairs_of_rules(rt: HostRuntime) {
    let top = u64::MAX - 15;
    let no_op = Job::no_op().with_flags(0x1);
    let bad_opcode = Job {
        opcode: 0x20,
        ..no_op
    };
    let bad_size = Some(Status::BadSize);
    let bad_delta = Some(Status::BadDeltaSize);
    let misaligned = Some(Status::Misaligned);
    let overlap = Some(Status::Overlap);
    let past = Some(Status::RangePast);
    let flagged = Job::fill(0, 0, 1_048_577).with_flags(0x200);
    let table = [
        // opcode, flags
        (bad_opcode, Some(Status::BadOpcode)),
        // flags, size
        (flagged, Some(Status::BadFlags)),
        // size, delta record size
        (Job::create_delta(0, 64, 12, 128, 15), bad_size),
        (Job::apply_delta(0, 15, 256, 0x8_0008), bad_size),
        // delta record size, alignment
        (Job::create_delta(0, 4, 16, 128, 5), bad_delta),
        (Job::apply_delta(0, 5, 252, 16), bad_delta),
        // alignment, overlap
        (Job::create_delta(4, 64, 16, 16, 20), misaligned),
        (Job::apply_delta(0, 20, 12, 16), misaligned),
        // dualcast bits, overlap
        (Job::dualcast(0, 4096, 4100, 8), Some(Status::DualcastBits)),
        // overlap, range past the end
        (Job::create_delta(top + 8, 64, 16, top, 20), overlap),
        (Job::apply_delta(top, 20, top + 8, 16), overlap),
        (Job::dualcast(top, top, top, 17), overlap),
        // range past the end, staging
        (Job::move_bytes(top, 0, 17), past),
        (Job::dualcast(0, 8192, u64::MAX - 4095, 4097), past),
    ];
    expect_answers(&rt, 16, &table);
}

/// Transfer sizes and delta record sizes at, below and above their limits.
#[test]
fn size_limits(rt: HostRuntime) {
    let bad_size = Some(Status::BadSize);
    let bad_delta = Some(Status::BadDeltaSize);
    let table = [
        (Job::move_bytes(0, 0, 1_048_575), None),
        (Job::move_bytes(0, 0, 1_048_576), None),
        (Job::move_bytes(0, 0, 1_048_577), bad_size),
        (Job::fill(0, 0, 1_048_576), None),
        (Job::fill(0, 0, 1_048_577), bad_size),
        (Job::compare(0, 0, 1_048_576), None),
        (Job::compare(0, 0, 1_048_577), bad_size),
        (Job::compare_pattern(0, 0, 1_048_576), None),
        (Job::compare_pattern(0, 0, 1_048_577), bad_size),
        (Job::dualcast(0, 0x20_0000, 0x40_0000, 1_048_576), None),
        (Job::dualcast(0, 0x20_0000, 0x40_0000, 1_048_577), bad_size),
        (Job::create_delta(0, 0, 0x7_fff8, 0x10_0000, 10), None),
        (Job::create_delta(0, 0, 0x8_0000, 0x10_0000, 10), None),
        (Job::create_delta(0, 0, 0x8_0008, 0x10_0000, 10), bad_size),
        (Job::create_delta(0, 0, 0x7_ffff, 0x10_0000, 10), bad_size),
        (Job::apply_delta(0x10_0000, 10, 0, 0x7_fff8), None),
        (Job::apply_delta(0x10_0000, 10, 0, 0x8_0000), None),
        (Job::apply_delta(0x10_0000, 10, 0, 0x8_0008), bad_size),
        (Job::apply_delta(0x10_0000, 10, 0, 0x7_ffff), bad_size),
        (Job::create_delta(0, 0, 16, 128, 0), bad_delta),
        (Job::create_delta(0, 0, 16, 128, 9), bad_delta),
        (Job::create_delta(0, 0, 16, 128, 10), None),
        (Job::create_delta(0, 0, 16, 128, 11), bad_delta),
        (Job::create_delta(0, 0, 16, 128, 655_350), None),
        (Job::create_delta(0, 0, 16, 128, 655_360), None),
        (Job::create_delta(0, 0, 16, 128, 655_370), bad_delta),
        (Job::apply_delta(128, 0, 0, 16), None),
        (Job::apply_delta(128, 9, 0, 16), bad_delta),
        (Job::apply_delta(128, 10, 0, 16), None),
        (Job::apply_delta(128, 655_350, 0, 16), None),
        (Job::apply_delta(128, 655_360, 0, 16), None),
        (Job::apply_delta(128, 655_370, 0, 16), bad_delta),
    ];
    expect_answers(&rt, STAGING, &table);
}

/// Addresses: alignment, the agreement of a dualcast's destinations, and shared bytes.
#[test]
fn addresses_of_one_job(rt: HostRuntime) {
    let misaligned = Some(Status::Misaligned);
    let overlap = Some(Status::Overlap);
    let table = [
        (Job::create_delta(7, 64, 16, 128, 20), misaligned),
        (Job::create_delta(8, 63, 16, 128, 20), misaligned),
        (Job::create_delta(8, 64, 16, 129, 20), None),
        (Job::apply_delta(129, 20, 65, 16), misaligned),
        (Job::apply_delta(129, 20, 64, 16), None),
        (Job::dualcast(0, 4095, 8191, 100), None),
        (
            Job::dualcast(0, 4095, 8192, 100),
            Some(Status::DualcastBits),
        ),
        (Job::dualcast(0, 4096, 8192, 4096), None),
        (Job::dualcast(0, 4096, 8192, 4097), overlap),
        (Job::dualcast(8192, 4096, 4096, 1), overlap),
        (Job::dualcast(4099, 0, 4096, 4), overlap),
        (Job::create_delta(0, 64, 16, 24, 40), None),
        (Job::create_delta(0, 64, 16, 25, 40), overlap),
        (Job::create_delta(0, 64, 16, 15, 40), overlap),
        (Job::create_delta(0, 64, 16, 16, 40), None),
        (Job::create_delta(0, 48, 16, 8, 40), overlap),
        (Job::create_delta(8, 48, 16, 0, 10), overlap),
        (Job::apply_delta(32, 20, 16, 16), None),
        (Job::apply_delta(31, 20, 16, 16), overlap),
    ];
    expect_answers(&rt, STAGING, &table);
}

/// Ranges that end at the end of the address space, and those that go one byte past it.
#[test]
fn end_of_address_space(rt: HostRuntime) {
    let past = Some(Status::RangePast);
    let top = u64::MAX - 15;
    let table = [
        (Job::move_bytes(top, 0, 15), None),
        (Job::move_bytes(top, 0, 16), None),
        (Job::move_bytes(top, 0, 17), past),
        (Job::move_bytes(0, top, 16), None),
        (Job::move_bytes(0, top, 17), past),
        (Job::fill(0, top, 16), None),
        (Job::fill(0, top, 17), past),
        (Job::compare(top, 0, 17), past),
        (Job::compare(0, top, 17), past),
        (Job::compare_pattern(top, u64::MAX, 16), None),
        (Job::compare_pattern(top, 0, 17), past),
        (Job::create_delta(top, 0, 24, 128, 10), past),
        (Job::create_delta(0, top, 24, 128, 10), past),
        (Job::create_delta(0, 64, 16, top + 6, 10), None),
        (Job::create_delta(0, 64, 16, top + 7, 10), past),
        (Job::apply_delta(top + 6, 10, 0, 16), None),
        (Job::apply_delta(top + 7, 10, 0, 16), past),
        (Job::apply_delta(0, 10, top, 24), past),
        (Job::dualcast(top, 4096, 8192, 17), past),
        (Job::dualcast(0, top, top - 4096, 17), past),
        (Job::dualcast(0, top - 4096, top, 17), past),
    ];
    expect_answers(&rt, STAGING, &table);
}

/// A job of size 0 is accepted, and its other fields are judged all the same.
#[test]
fn empty_jobs(rt: HostRuntime) {
    let table = [
        (Job::move_bytes(u64::MAX, u64::MAX, 0), None),
        (Job::fill(1, u64::MAX, 0), None),
        (Job::compare(0, 0, 0), None),
        (Job::compare_pattern(0, 1, 0), None),
        (Job::create_delta(0, 0, 0, 0, 10), None),
        (Job::create_delta(0, 0, 0, 0, 0), Some(Status::BadDeltaSize)),
        (Job::create_delta(4, 0, 0, 0, 10), Some(Status::Misaligned)),
        (
            Job::create_delta(0, 0, 0, u64::MAX - 8, 10),
            Some(Status::RangePast),
        ),
        (Job::apply_delta(0, 0, 0, 0), None),
        (Job::apply_delta(0, 10, 0, 0), None),
        (
            Job::apply_delta(u64::MAX - 8, 10, 0, 0),
            Some(Status::RangePast),
        ),
        (Job::dualcast(0, 0, 0, 0), None),
        (Job::dualcast(0, 0, 1, 0), Some(Status::DualcastBits)),
    ];
    expect_answers(&rt, 0, &table[..9]);
    expect_answers(&rt, STAGING, &table);
}

/// The staging that each operation takes, and the answer with as much and with one byte less.
#[test]
fn staging_needs(rt: HostRuntime) {
    let table = [
        (Job::move_bytes(0, 256, 100), 100),
        (Job::dualcast(0, 4096, 8192, 100), 100),
        (Job::create_delta(0, 64, 32, 128, 20), 40),
        (Job::apply_delta(0, 30, 256, 32), 30),
        (Job::fill(0, 0, 100), 0),
        (Job::compare(0, 256, 100), 0),
        (Job::compare_pattern(0, 256, 100), 0),
        (Job::no_op(), 0),
    ];
    for (job, want) in table {
        assert_eq!(rt; need(&job), u64::from(want), "{job:?}");
        assert_eq!(rt; answer(&job, want), Ok(job), "{job:?}");
        if want > 0 {
            assert_eq!(rt;
                answer(&job, want - 1),
                Err(Status::StagingRefused),
                "{job:?}"
            );
        }
    }
    assert_eq!(rt;
        need(&Job::create_delta(0, 0, u32::MAX, 0, 0)),
        5_368_709_110
    );
    assert_eq!(rt; need(&Job::create_delta(0, 0, 12, 0, 0)), 10);
}

/// Each bit of the flags, alone.
#[test]
fn flag_bits(rt: HostRuntime) {
    for bit in 0..32_u32 {
        let accepted = matches!(bit, 1 | 2 | 3 | 7 | 8);
        let job = Job::no_op().with_flags(1 << bit);
        let want = if accepted {
            Ok(job)
        } else {
            Err(Status::BadFlags)
        };
        assert_eq!(rt; answer(&job, 0), want, "bit {bit}");
    }
    let all = Job::no_op().with_flags(0x18e);
    assert_eq!(rt; answer(&all, 0), Ok(all));
}

/// A job of each operation, written as a descriptor, read back and checked.
#[test]
fn each_operation(rt: HostRuntime) {
    let table = [
        (Job::no_op(), Op::NoOp),
        (Job::move_bytes(1, 2, 3).with_flags(0x10e), Op::Move),
        (Job::fill(0x0807_0605_0403_0201, 4090, 12), Op::Fill),
        (Job::compare(0, 8192, 64).with_check(1), Op::Compare),
        (
            Job::compare_pattern(5, 6, 7).with_check(255),
            Op::ComparePattern,
        ),
        (
            Job::create_delta(0, 64, 32, 4076, 30).with_check(4),
            Op::CreateDelta,
        ),
        (Job::apply_delta(16, 10, 256, 32), Op::ApplyDelta),
        (Job::dualcast(0, 4096, 8192, 4), Op::Dualcast),
    ];
    for (job, op) in table {
        let read = decode(&descriptor(&job));
        assert_eq!(rt; read, job, "{job:?}");
        let checked = check(&read, STAGING).map(|checked| (*checked.job(), checked.op()));
        assert_eq!(rt; checked, Ok((job, op)), "{job:?}");
    }
}

/// The job of a batch's passed check, or its status.
fn answer_in_batch(job: &Job) -> Result<Job, Status> {
    check_in_batch(job, STAGING).map(|checked| *checked.job())
}

/// In a batch the fence is accepted, and takes no other rule's place.
#[test]
fn fences_in_a_batch(rt: HostRuntime) {
    let unsupported = Job {
        opcode: 0x10,
        ..Job::no_op()
    };
    let long_move = Job::move_bytes(0, 0, 1_048_577);
    let table = [
        (Job::no_op(), None),
        (Job::no_op().with_flags(0x01), None),
        (Job::no_op().with_flags(0x18f), None),
        (Job::no_op().with_flags(0x11), Some(Status::BadFlags)),
        (Job::no_op().with_flags(0x10), Some(Status::BadFlags)),
        (unsupported.with_flags(0x01), Some(Status::BadOpcode)),
        (long_move.with_flags(0x01), Some(Status::BadSize)),
        (long_move.with_flags(0x11), Some(Status::BadFlags)),
        (
            Job::dualcast(0, 8, 16, 100).with_flags(0x01),
            Some(Status::DualcastBits),
        ),
    ];
    for (job, status) in table {
        let want = match status {
            Some(status) => Err(status),
            None => Ok(job),
        };
        assert_eq!(rt; answer_in_batch(&job), want, "{job:?}");
    }
}

/// A fenced job of each operation is accepted in a batch, with its fence, and refused alone.
#[test]
fn fenced_operations(rt: HostRuntime) {
    let table = [
        (Job::no_op(), Op::NoOp),
        (Job::move_bytes(1, 2, 3), Op::Move),
        (Job::fill(0x0807_0605_0403_0201, 4090, 12), Op::Fill),
        (Job::compare(0, 8192, 64), Op::Compare),
        (Job::compare_pattern(5, 6, 7), Op::ComparePattern),
        (Job::create_delta(0, 64, 32, 4076, 30), Op::CreateDelta),
        (Job::apply_delta(16, 10, 256, 32), Op::ApplyDelta),
        (Job::dualcast(0, 4096, 8192, 4), Op::Dualcast),
    ];
    for (job, op) in table {
        for flags in [0x01, 0x0f, 0x101] {
            let fenced = job.with_flags(flags);
            let checked = check_in_batch(&fenced, STAGING).map(|checked| (
                *checked.job(),
                checked.op(),
            ));
            assert_eq!(rt; checked, Ok((fenced, op)), "{fenced:?}");
            assert_eq!(rt;
                answer(&fenced, STAGING),
                Err(Status::BadFlags),
                "{fenced:?}"
            );
        }
    }
}

/// Bytes without a meaning are read past.
#[test]
fn bytes_without_meaning(rt: HostRuntime) {
    let table = [
        (Job::no_op(), 40..40, 40..40),
        (Job::move_bytes(1, 2, 3), 40..40, 40..40),
        (Job::compare(0, 8192, 64).with_check(1), 40..41, 40..40),
        (
            Job::create_delta(0, 64, 32, 4076, 30).with_check(4),
            40..52,
            56..57,
        ),
        (Job::apply_delta(16, 10, 256, 32), 40..44, 40..40),
        (Job::dualcast(0, 4096, 8192, 4), 40..48, 40..40),
    ];
    for (job, own, last) in table {
        let mut bytes = descriptor(&job);
        for (place, byte) in bytes.iter_mut().enumerate() {
            let common = (4..8).contains(&place) || (16..36).contains(&place);
            if !common && !own.contains(&place) && !last.contains(&place) {
                *byte = 0xff;
            }
        }
        assert_eq!(rt; decode(&bytes), job, "{job:?}");
    }
}
