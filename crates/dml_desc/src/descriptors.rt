ghost use Rattle.std.specs.Prelude.{◌≡◌, ◌+◌, ◌≤◌};
ghost use Rattle.dml_desc.specs.Descriptor as layout;

use byteorder::{ByteOrder, LittleEndian};
use dml_types::{Job, Op};

/// The little-endian number of 4 bytes from a place of a descriptor on.
fn read_u32(bytes: &[u8; 64], place: usize) -> u32
    requires { place + 4 ≤ 64 }
    ensures { result ≡ layout.u32_at bytes.now place }
{
    LittleEndian::read_u32(&bytes[place..place + 4])
}

/// The little-endian number of 8 bytes from a place of a descriptor on.
fn read_u64(bytes: &[u8; 64], place: usize) -> u64
    requires { place + 8 ≤ 64 }
    ensures { result ≡ layout.u64_at bytes.now place }
{
    LittleEndian::read_u64(&bytes[place..place + 8])
}

/// The job of the fields that stand in every descriptor.
fn common_fields(bytes: &[u8; 64]) -> Job
    ensures { result ≡ layout.common_fields bytes.now }
{
    Job {
        opcode: bytes[7],
        flags: read_u32(bytes, 4) % (1 << 24),
        source: read_u64(bytes, 16),
        target: read_u64(bytes, 24),
        size: read_u32(bytes, 32),
        extra: 0,
        delta_size: 0,
        expected: 0,
    }
}

/// The job of a descriptor's 64 bytes. Bytes that its operation does not use are read past, so that every
/// descriptor has a job; `check` judges it.
#[tactic(auto, unfolding(crate::specs::Descriptor::decoded))]
pub fn decode(bytes: &[u8; 64]) -> Job
    ensures { result ≡ layout.decoded bytes.now }
{
    let job = common_fields(bytes);
    match job.op() {
        Some(Op::Compare | Op::ComparePattern) => Job {
            expected: bytes[40],
            ..job
        },
        Some(Op::CreateDelta) => Job {
            extra: read_u64(bytes, 40),
            delta_size: read_u32(bytes, 48),
            expected: bytes[56],
            ..job
        },
        Some(Op::ApplyDelta) => Job {
            delta_size: read_u32(bytes, 40),
            ..job
        },
        Some(Op::Dualcast) => Job {
            extra: read_u64(bytes, 40),
            ..job
        },
        Some(Op::NoOp | Op::Move | Op::Fill) | None => job,
    }
}
