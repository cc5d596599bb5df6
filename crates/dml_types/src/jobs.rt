ghost use Rattle.std.specs.Prelude.{◌≡◌, false};
ghost use Rattle.std.specs.Int.RustNames.{bit_or};
ghost use Rattle.dml_types.specs.Job as table;

use crate::flags::JobFlags;
use crate::operations::Op;
use bitflags::Flags;

/// A data mover job, with the fields of a descriptor. What a field means depends on the operation; fields
/// without meaning are read past.
#[derive(Clone, Copy, PartialEq, Eq, Debug)]
pub struct Job {
    pub opcode: u8,
    /// The flags, by the bits of `JobFlags`; 24 of them in a descriptor.
    pub flags: u32,
    /// The source address, or a fill's pattern.
    pub source: u64,
    /// The destination or the second source, or the pattern of a pattern compare.
    pub target: u64,
    /// The transfer size in bytes.
    pub size: u32,
    /// The address of the delta record that a create writes, or a dualcast's second destination.
    pub extra: u64,
    /// A create's maximum, or an apply's record size, in bytes.
    pub delta_size: u32,
    /// The expected result of a compare, or a create's mask of expected results.
    pub expected: u8,
}

impl Job {
    /// The job of an operation with all fields 0.
    fn plain(opcode: u8) -> Job
        ensures { result ≡ table.plain opcode }
    {
        Job {
            opcode,
            flags: 0,
            source: 0,
            target: 0,
            size: 0,
            extra: 0,
            delta_size: 0,
            expected: 0,
        }
    }

    /// A job that does nothing.
    pub fn no_op() -> Job
        ensures { result ≡ table.no_op_job }
    {
        Job::plain(0x00)
    }

    /// Copies `n` bytes from `src` to `dst`; the ranges may overlap.
    pub fn move_bytes(src: u64, dst: u64, n: u32) -> Job
        ensures { result ≡ table.move_job src dst n }
    {
        Job {
            source: src,
            target: dst,
            size: n,
            ..Job::plain(0x03)
        }
    }

    /// Repeats the 8 bytes of `pattern`, low byte first, over `n` bytes from `dst` on.
    pub fn fill(pattern: u64, dst: u64, n: u32) -> Job
        ensures { result ≡ table.fill_job pattern dst n }
    {
        Job {
            source: pattern,
            target: dst,
            size: n,
            ..Job::plain(0x04)
        }
    }

    /// Compares `n` bytes at `src` with those at `src2`.
    pub fn compare(src: u64, src2: u64, n: u32) -> Job
        ensures { result ≡ table.compare_job src src2 n }
    {
        Job {
            source: src,
            target: src2,
            size: n,
            ..Job::plain(0x05)
        }
    }

    /// Compares `n` bytes at `src` with the repeated 8 bytes of `pattern`, low byte first.
    pub fn compare_pattern(src: u64, pattern: u64, n: u32) -> Job
        ensures { result ≡ table.compare_pattern_job src pattern n }
    {
        Job {
            source: src,
            target: pattern,
            size: n,
            ..Job::plain(0x06)
        }
    }

    /// Writes a delta record of at most `max` bytes at `delta`, of the blocks in which the `n` bytes at `src2`
    /// differ from those at `src`.
    pub fn create_delta(src: u64, src2: u64, n: u32, delta: u64, max: u32) -> Job
        ensures { result ≡ table.create_job src src2 n delta max }
    {
        Job {
            source: src,
            target: src2,
            size: n,
            extra: delta,
            delta_size: max,
            ..Job::plain(0x07)
        }
    }

    /// Writes the blocks of the delta record of `delta_size` bytes at `delta` over the `n` bytes at `dst`.
    pub fn apply_delta(delta: u64, delta_size: u32, dst: u64, n: u32) -> Job
        ensures { result ≡ table.apply_job delta delta_size dst n }
    {
        Job {
            source: delta,
            target: dst,
            size: n,
            delta_size,
            ..Job::plain(0x08)
        }
    }

    /// Copies `n` bytes from `src` to both `dst` and `dst2`.
    pub fn dualcast(src: u64, dst: u64, dst2: u64, n: u32) -> Job
        ensures { result ≡ table.dualcast_job src dst dst2 n }
    {
        Job {
            source: src,
            target: dst,
            size: n,
            extra: dst2,
            ..Job::plain(0x09)
        }
    }

    /// The same job with these flags in place of its own.
    pub fn with_flags(self, flags: u32) -> Job
        ensures { result ≡ record self { flags = flags } }
    {
        Job { flags, ..self }
    }

    /// The same job with its result checked against `expected`: the flag CHECK_RESULT is added to its flags.
    pub fn with_check(self, expected: u8) -> Job
        ensures { result ≡ record self { flags = bit_or self.flags 0x80; expected = expected } }
    {
        Job {
            flags: self.flags | JobFlags::CHECK_RESULT.bits(),
            expected,
            ..self
        }
    }

    /// Whether it has the fence.
    pub fn is_fenced(&self) -> bool
        ensures { result ≡ table.is_fenced self.now }
    {
        self.flags & JobFlags::FENCE.bits() == JobFlags::FENCE.bits()
    }

    /// The same job with the fence's bit cleared.
    #[tactic(auto, using(crate::proofs::FenceLemmas::cleared_by_mask, crate::proofs::FenceLemmas::unfenced_same))]
    pub fn unfenced(self) -> Job
        ensures job { result ≡ table.unfenced self }
        ensures same { table.is_fenced self ≡ false → result ≡ self }
    {
        Job {
            flags: self.flags & !JobFlags::FENCE.bits(),
            ..self
        }
    }

    /// The operation of this job's opcode, or None where the opcode is unsupported.
    pub fn op(&self) -> Option<Op>
        ensures { result ≡ table.op_of self.now }
    {
        match self.opcode {
            0x00 => Some(Op::NoOp),
            0x03 => Some(Op::Move),
            0x04 => Some(Op::Fill),
            0x05 => Some(Op::Compare),
            0x06 => Some(Op::ComparePattern),
            0x07 => Some(Op::CreateDelta),
            0x08 => Some(Op::ApplyDelta),
            0x09 => Some(Op::Dualcast),
            _ => None,
        }
    }
}
