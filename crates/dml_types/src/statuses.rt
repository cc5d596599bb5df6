ghost use Rattle.std.specs.Prelude.{◌≡◌};
ghost use Rattle.dml_types.specs.Effect.{code_of, status_with};

/// The status of a completion record. The codes are those of `linux/idxd.h`; 0x7d and 0x7e are this software's own.
#[derive(Clone, Copy, PartialEq, Eq, Debug)]
pub enum Status {
    /// 0x00: the job of a batch was abandoned at a fence.
    Abandoned,
    /// 0x01: done.
    Success,
    /// 0x02: done, and the result is not the expected one.
    FalsePredicate,
    /// 0x03: a byte to be read is absent.
    ReadFault,
    /// 0x05: some job of the batch has another status than 0x01.
    BatchFailed,
    /// 0x07: the offsets of a delta record do not rise.
    NotRising,
    /// 0x08: an offset of a delta record is out of range.
    OffsetRange,
    /// 0x10: unsupported opcode.
    BadOpcode,
    /// 0x11: invalid flags.
    BadFlags,
    /// 0x13: invalid transfer size.
    BadSize,
    /// 0x15: delta record size out of range.
    BadDeltaSize,
    /// 0x16: ranges overlap.
    Overlap,
    /// 0x17: the two destinations of a dualcast differ in address bits 11:0.
    DualcastBits,
    /// 0x1c: an address is no multiple of 8.
    Misaligned,
    /// 0x7d: a range ends above 2^64.
    RangePast,
    /// 0x7e: the job needs more staging than there is.
    StagingRefused,
    /// 0x83: a byte to be written is absent.
    WriteFault,
}

impl Status {
    /// The code of this status in a completion record.
    pub fn code(self) -> u8
        ensures { result ≡ code_of self }
    {
        match self {
            Status::Abandoned => 0x00,
            Status::Success => 0x01,
            Status::FalsePredicate => 0x02,
            Status::ReadFault => 0x03,
            Status::BatchFailed => 0x05,
            Status::NotRising => 0x07,
            Status::OffsetRange => 0x08,
            Status::BadOpcode => 0x10,
            Status::BadFlags => 0x11,
            Status::BadSize => 0x13,
            Status::BadDeltaSize => 0x15,
            Status::Overlap => 0x16,
            Status::DualcastBits => 0x17,
            Status::Misaligned => 0x1c,
            Status::RangePast => 0x7d,
            Status::StagingRefused => 0x7e,
            Status::WriteFault => 0x83,
        }
    }

    /// The status with this code, or None where no status has it.
    pub fn from_code(code: u8) -> Option<Status>
        ensures { result ≡ status_with code }
    {
        Some(match code {
            0x00 => Status::Abandoned,
            0x01 => Status::Success,
            0x02 => Status::FalsePredicate,
            0x03 => Status::ReadFault,
            0x05 => Status::BatchFailed,
            0x07 => Status::NotRising,
            0x08 => Status::OffsetRange,
            0x10 => Status::BadOpcode,
            0x11 => Status::BadFlags,
            0x13 => Status::BadSize,
            0x15 => Status::BadDeltaSize,
            0x16 => Status::Overlap,
            0x17 => Status::DualcastBits,
            0x1c => Status::Misaligned,
            0x7d => Status::RangePast,
            0x7e => Status::StagingRefused,
            0x83 => Status::WriteFault,
            _ => return None,
        })
    }
}
