ghost use Rattle.std.specs.Prelude.{◌≡◌, ◌+◌, ◌*◌, ◌≤◌, length};
ghost use Rattle.dml_types.specs.Delta as delta;

/// The bytes of an entry of a delta record: 2 of the number of its block, low byte first, and 8 of the block.
pub const ENTRY: u32 = 10;

/// The number of the block that an entry is for, of whole entries one after another.
#[inline(always)]
pub fn block_number(entries: &[u8], i: usize) -> u16
    requires { 10 * i + 2 ≤ length entries.now }
    ensures { result ≡ delta.block_number entries.now i }
{
    let at = ENTRY as usize * i;
    u16::from_le_bytes([entries[at], entries[at + 1]])
}
