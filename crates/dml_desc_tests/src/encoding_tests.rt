use dml_desc::{decode, decode_record, encode, record_bytes};
use dml_types::{Job, Record, Status};
use hex::FromHex;
use std::test::Fail;

/// A descriptor of each kind of fields, byte by byte.
#[test]
fn descriptors(rt: HostRuntime) -> Result<(), Fail> {
    let table = [
        (
            Job::move_bytes(4096, 8192, 100).with_flags(0x0c),
            "000000000c00000300000000000000000010000000000000002000000000000064000000\
             00000000000000000000000000000000000000000000000000000000",
        ),
        (
            Job::create_delta(0, 64, 32, 128, 20).with_check(2),
            "000000008000000700000000000000000000000000000000400000000000000020000000\
             00000000800000000000000014000000000000000200000000000000",
        ),
        (
            Job {
                opcode: 0x10,
                ..Job::no_op()
            },
            "000000000000001000000000000000000000000000000000000000000000000000000000\
             00000000000000000000000000000000000000000000000000000000",
        ),
    ];
    for (job, digits) in table {
        let bytes = <[u8; 64]>::from_hex(digits)?;
        assert_eq!(rt; encode(&job), Some(bytes), "{job:?}");
    }
    Ok(())
}

/// Decoding gives the job back, with 0 in the fields that its operation does not use.
#[test]
fn fields_without_meaning(rt: HostRuntime) {
    let full = |opcode| Job {
        opcode,
        flags: 0xff_ffff,
        source: 0x0102_0304_0506_0708,
        target: 0x1112_1314_1516_1718,
        size: 0x2122_2324,
        extra: 0x3132_3334_3536_3738,
        delta_size: 0x4142_4344,
        expected: 0x51,
    };
    let (extra, delta_size, expected) = (0x3132_3334_3536_3738, 0x4142_4344, 0x51);
    let table = [
        (0x00, 0, 0, 0),
        (0x03, 0, 0, 0),
        (0x04, 0, 0, 0),
        (0x05, 0, 0, expected),
        (0x06, 0, 0, expected),
        (0x07, extra, delta_size, expected),
        (0x08, 0, delta_size, 0),
        (0x09, extra, 0, 0),
        (0x10, 0, 0, 0),
    ];
    for (opcode, extra, delta_size, expected) in table {
        let want = Job {
            extra,
            delta_size,
            expected,
            ..full(opcode)
        };
        let read = encode(&full(opcode)).map(|bytes| decode(&bytes));
        assert_eq!(rt; read, Some(want), "{opcode}");
    }
}

/// Flags that do not fit 24 bits have no descriptor.
#[test]
fn flags_that_fit(rt: HostRuntime) {
    for (flags, fits) in [
        (0xff_ffff, true),
        (0x100_0000, false),
        (0x8000_0000, false),
        (u32::MAX, false),
    ] {
        let bytes = encode(&Job::no_op().with_flags(flags));
        assert_eq!(rt; bytes.is_some(), fits, "{flags}");
    }
}

/// Completion records, and what is none.
#[test]
fn records(rt: HostRuntime) -> Result<(), Fail> {
    let outcome = Record {
        status: Status::ReadFault,
        result: 0,
        completed: 40,
        fault: 4096,
        delta_size: 30,
    };
    let mut bytes = <[u8; 32]>::from_hex(
        "030000002800000000100000000000001e000000000000000000000000000000",
    )?;
    assert_eq!(rt; decode_record(&bytes), Some(outcome));
    assert_eq!(rt; decode_record(&record_bytes(&outcome)), Some(outcome));
    // the bytes without a meaning are read past
    for place in [2, 3, 20, 31] {
        bytes[place] = 0xff;
    }
    assert_eq!(rt; decode_record(&bytes), Some(outcome));
    for code in [0x04, 0x06, 0x80, 0x81, 0xff] {
        bytes[0] = code;
        assert_eq!(rt; decode_record(&bytes), None, "{code}");
    }
    Ok(())
}
