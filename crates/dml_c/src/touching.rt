//! Which bytes a descriptor names: the ranges of its job, and the place of its completion record.
ghost use Rattle.std.specs.Prelude.{◌≡◌, false, length, true, if◌then◌else◌};
ghost use Rattle.dml_desc.specs.Descriptor.{decoded};
ghost use Rattle.dml_c.specs.Completions.{completion_address, has_completion};
ghost use Rattle.dml_c.specs.Ranges.{ranges_of, three_of};

use byteorder::{ByteOrder, LittleEndian};
use dml_types::{Job, Op};

/// The flag that the completion address is one.
const ADDRESS_VALID: u32 = 0x04;

/// A range of bytes that a job touches; `struct kazovuni_range` of C.
#[repr(C)]
#[derive(Clone, Copy, PartialEq, Eq, Debug)]
pub struct CRange {
    pub address: u64,
    pub length: u32,
    pub is_written: bool,
}

/// Writes the ranges that a job reads and then those that it writes, zeros behind them, and answers how many there are.
#[unsafe(no_mangle)]
pub extern "C" fn kazovuni_ranges(descriptor: &[u8; 64], ranges: &mut [CRange; 3]) -> u32
    ensures count { result ≡ length (ranges_of (decoded descriptor.now)) }
    ensures ranges { ranges.new ≡ three_of (decoded descriptor.now) }
{
    let job = dml_desc::decode(descriptor);
    *ranges = three_of(&job);
    match job.op() {
        Some(Op::CreateDelta | Op::Dualcast) => 3,
        Some(Op::Move | Op::Compare | Op::ApplyDelta) => 2,
        Some(Op::Fill | Op::ComparePattern) => 1,
        Some(Op::NoOp) | None => 0,
    }
}

/// Writes the address of a descriptor's completion record, and answers true; false where its flags say that it has
/// none, and nothing is written.
#[unsafe(no_mangle)]
pub extern "C" fn kazovuni_completion(descriptor: &[u8; 64], address: &mut u64) -> bool
    ensures has { result ≡ has_completion descriptor.now }
    ensures written { address.new ≡ (if result then completion_address descriptor.now else address.old) }
{
    if dml_desc::decode(descriptor).flags & ADDRESS_VALID != ADDRESS_VALID {
        return false;
    }
    *address = LittleEndian::read_u64(&descriptor[8..16]);
    true
}

/// The ranges of a job, with zeros behind them.
fn three_of(job: &Job) -> [CRange; 3]
    ensures { result ≡ three_of job.now }
{
    let &Job {
        source,
        target,
        extra,
        size,
        delta_size,
        ..
    } = job;
    let none = read(0, 0);
    match job.op() {
        Some(Op::Move) => [read(source, size), written(target, size), none],
        Some(Op::Fill) => [written(target, size), none, none],
        Some(Op::Compare) => [read(source, size), read(target, size), none],
        Some(Op::ComparePattern) => [read(source, size), none, none],
        Some(Op::CreateDelta) => [
            read(source, size),
            read(target, size),
            written(extra, delta_size),
        ],
        Some(Op::ApplyDelta) => [read(source, delta_size), written(target, size), none],
        Some(Op::Dualcast) => [
            read(source, size),
            written(target, size),
            written(extra, size),
        ],
        Some(Op::NoOp) | None => [none, none, none],
    }
}

fn read(address: u64, length: u32) -> CRange
    ensures { result ≡ record { address = address; length = length; is_written = false } }
{
    CRange {
        address,
        length,
        is_written: false,
    }
}

fn written(address: u64, length: u32) -> CRange
    ensures { result ≡ record { address = address; length = length; is_written = true } }
{
    CRange {
        address,
        length,
        is_written: true,
    }
}
