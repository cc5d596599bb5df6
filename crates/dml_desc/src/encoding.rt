ghost use Rattle.std.specs.Prelude.{◌≡◌};
ghost use Rattle.dml_desc.specs.Encoding.{DescriptorIsWhole, DecodedBack, RecordReadBack};
ghost use Rattle.dml_desc.specs.Encoding as layout;

use byteorder::{ByteOrder, LittleEndian};
use dml_types::{Job, Op, Record, Status};

/// The 64 bytes of a job's descriptor, or None where its flags do not fit the 24 bits that they have there. Fields that
/// its operation does not use are left out, and all bytes without a meaning are 0.
pub fn encode(job: &Job) -> Option<[u8; 64]>
    ensures { result ≡ layout.encoded job.now }
{
    if job.flags >= 1 << 24 {
        return None;
    }
    let mut bytes = [0; 64];
    LittleEndian::write_u24(&mut bytes[4..7], job.flags);
    bytes[7] = job.opcode;
    LittleEndian::write_u64(&mut bytes[16..24], job.source);
    LittleEndian::write_u64(&mut bytes[24..32], job.target);
    LittleEndian::write_u32(&mut bytes[32..36], job.size);
    match job.op() {
        Some(Op::Compare | Op::ComparePattern) => bytes[40] = job.expected,
        Some(Op::CreateDelta) => {
            LittleEndian::write_u64(&mut bytes[40..48], job.extra);
            LittleEndian::write_u32(&mut bytes[48..52], job.delta_size);
            bytes[56] = job.expected;
        }
        Some(Op::ApplyDelta) => LittleEndian::write_u32(&mut bytes[40..44], job.delta_size),
        Some(Op::Dualcast) => LittleEndian::write_u64(&mut bytes[40..48], job.extra),
        Some(Op::NoOp | Op::Move | Op::Fill) | None => {}
    }
    Some(bytes)
}

/// The record of a completion record's 32 bytes, or None where the first of them is the code of no status. Bytes
/// without a meaning are read past.
pub fn decode_record(bytes: &[u8; 32]) -> Option<Record>
    ensures { result ≡ layout.recorded bytes.now }
{
    let status = Status::from_code(bytes[0])?;
    Some(Record {
        status,
        result: bytes[1],
        completed: LittleEndian::read_u32(&bytes[4..8]),
        fault: LittleEndian::read_u64(&bytes[8..16]),
        delta_size: LittleEndian::read_u32(&bytes[16..20]),
    })
}

/// The law of encoding: a descriptor has 64 bytes, decoding it gives the job back with 0 in the fields that its
/// operation does not use, and the bytes of a completion record give the record back.
pub fn law_of_encoding()
    ensures size { DescriptorIsWhole }
    ensures job { DecodedBack }
    ensures answer { RecordReadBack }
{}
