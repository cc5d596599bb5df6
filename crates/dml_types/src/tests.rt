use crate::{JobFlags, Record, Settings, Status};
use bitflags::Flags;

static CODES: [(u8, Status); 17] = [
    (0x00, Status::Abandoned),
    (0x01, Status::Success),
    (0x02, Status::FalsePredicate),
    (0x03, Status::ReadFault),
    (0x05, Status::BatchFailed),
    (0x07, Status::NotRising),
    (0x08, Status::OffsetRange),
    (0x10, Status::BadOpcode),
    (0x11, Status::BadFlags),
    (0x13, Status::BadSize),
    (0x15, Status::BadDeltaSize),
    (0x16, Status::Overlap),
    (0x17, Status::DualcastBits),
    (0x1c, Status::Misaligned),
    (0x7d, Status::RangePast),
    (0x7e, Status::StagingRefused),
    (0x83, Status::WriteFault),
];

#[test]
fn codes_of_statuses(rt: HostRuntime) {
    for (code, status) in &CODES {
        assert_eq!(rt; status.code(), *code);
        assert_eq!(rt; Status::from_code(*code), Some(*status));
    }
    for code in 0..=255 {
        let is_listed = CODES.iter().any(|(listed, _)| *listed == code);
        assert_eq!(rt; Status::from_code(code).is_some(), is_listed, "code {code}");
    }
}

#[test]
fn success_is_one_status(rt: HostRuntime) {
    for (code, status) in &CODES {
        let record = Record {
            status: *status,
            result: 1,
            completed: 2,
            fault: 3,
            delta_size: 4,
        };
        assert_eq!(rt; record.is_success(), *code == 0x01);
    }
}

#[test]
fn bits_of_flags(rt: HostRuntime) {
    for (bit, flag) in [
        (0x01, JobFlags::FENCE),
        (0x02, JobFlags::BLOCK_ON_FAULT),
        (0x04, JobFlags::ADDRESS_VALID),
        (0x08, JobFlags::REQUEST_RECORD),
        (0x80, JobFlags::CHECK_RESULT),
        (0x100, JobFlags::CACHE_CONTROL),
    ] {
        assert_eq!(rt; flag.bits(), bit);
        assert_eq!(rt; JobFlags::from_bits(bit), Some(flag));
    }
    assert_eq!(rt; <JobFlags as Flags>::all().bits(), 0x18f);
    for bit in [0x10, 0x20, 0x40, 0x200, 0x80_0000, 0x100_0000, 0x8000_0000] {
        assert_eq!(rt; JobFlags::from_bits(bit), None);
    }
}

/// Whether settings of these values are valid.
fn are_valid(staging: u32, chunk: u32, workers: u32) -> bool {
    let settings = Settings {
        staging,
        chunk,
        workers,
    };
    settings.is_valid()
}

#[test]
fn limits_of_staging(rt: HostRuntime) {
    for (value, is_within) in [
        (0, true),
        (16_777_216, true),
        (16_777_217, false),
        (u32::MAX, false),
    ] {
        assert_eq!(rt; are_valid(value, 8, 1), is_within, "staging {value}");
    }
}

#[test]
fn limits_of_chunks(rt: HostRuntime) {
    for (value, is_within) in [
        (0, false),
        (7, false),
        (8, true),
        (12, false),
        (16, true),
        (1_048_568, true),
        (1_048_575, false),
        (1_048_576, true),
        (1_048_584, false),
        (u32::MAX, false),
    ] {
        assert_eq!(rt; are_valid(0, value, 1), is_within, "chunk {value}");
    }
}

#[test]
fn limits_of_workers(rt: HostRuntime) {
    for (value, is_within) in [
        (0, false),
        (1, true),
        (16, true),
        (17, false),
        (u32::MAX, false),
    ] {
        assert_eq!(rt; are_valid(0, 8, value), is_within, "workers {value}");
    }
}
