ghost use Rattle.std.specs.Prelude.{◌≡◌};
ghost use Rattle.dml_desc.specs.Descriptor.{bytes_of_record, bytes_of_batch};

use byteorder::{ByteOrder, LittleEndian};
use dml_types::{BatchRecord, Record};

/// The 32 bytes of a job's completion record.
pub fn record_bytes(outcome: &Record) -> [u8; 32]
    ensures { result ≡ bytes_of_record outcome.now }
{
    let mut bytes = [0; 32];
    bytes[0] = outcome.status.code();
    bytes[1] = outcome.result;
    LittleEndian::write_u32(&mut bytes[4..8], outcome.completed);
    LittleEndian::write_u64(&mut bytes[8..16], outcome.fault);
    LittleEndian::write_u32(&mut bytes[16..20], outcome.delta_size);
    bytes
}

/// The 32 bytes of a batch's completion record.
pub fn batch_bytes(batch: &BatchRecord) -> [u8; 32]
    ensures { result ≡ bytes_of_batch batch.now }
{
    let mut bytes = [0; 32];
    bytes[0] = batch.status.code();
    LittleEndian::write_u32(&mut bytes[4..8], batch.completed);
    bytes
}
