//! The blocks of a delta record's entries, put where they belong.
ghost use Rattle.std.specs.Prelude.{◌≡◌, ◌+◌, ◌-◌, ◌*◌, ◌/◌, ◌^◌, ◌<◌, ◌≤◌, false, true, length, slice_range};
ghost use Rattle.dml_types.specs.Delta as delta;
ghost use Rattle.dml_segments.specs.Blocks.{after_puts, block_puts_from, AreInside, IsInside};

use crate::slices::write_at;
use dml_types::block_number;

/// The bytes of an entry.
pub const ENTRY: usize = dml_types::ENTRY as usize;

/// The bytes of a block.
const BLOCK: usize = 8;

/// How many entries are put at once.
const FOUR: usize = 4;

/// Puts blocks from entry `first` on into the bytes that begin at the address `begin`, and stops before the first one
/// that is not all among them. Returns how many entries there are up to there.
///
/// Four go at once behind one look at where they lie, so that few jumps stand in the loop.
#[inline(always)]
pub fn put_inside(bytes: &mut [u8], begin: u64, target: u64, entries: &[u8], first: usize) -> usize
    requires end { begin + length bytes.old ≤ 2 ^ 64 }
    requires target { target ≤ 17592186044416 }
    requires first { first ≤ length entries.now / 10 }
    ensures within { (first ≤ result) × (result ≤ length entries.now / 10) }
    ensures inside { AreInside begin (length bytes.old)
        (block_puts_from target entries.now first (result - first)) }
    ensures stops { result < length entries.now / 10
        → IsInside begin (length bytes.old) (target + 8 * delta.block_number entries.now result) 8 → ⊥ }
    ensures bytes { bytes.new ≡ after_puts begin bytes.old
        (block_puts_from target entries.now first (result - first)) }
{
    let count = entries.len() / ENTRY;
    let mut done = first;
    while count - done >= FOUR {
        if !put_four(bytes, begin, target, entries, done) {
            break;
        }
        done += FOUR;
    }
    put_singly(bytes, begin, target, entries, done)
}

/// Puts the blocks of four entries from entry `first` on, where all of them lie among the bytes. Returns whether they
/// do.
#[inline(always)]
fn put_four(bytes: &mut [u8], begin: u64, target: u64, entries: &[u8], first: usize) -> bool
    requires end { begin + length bytes.old ≤ 2 ^ 64 }
    requires target { target ≤ 17592186044416 }
    requires four { first + 4 ≤ length entries.now / 10 }
    ensures inside { result ≡ true → AreInside begin (length bytes.old) (block_puts_from target entries.now first 4) }
    ensures bytes { result ≡ true → bytes.new ≡ after_puts begin bytes.old (block_puts_from target entries.now first 4) }
    ensures kept { result ≡ false → bytes.new ≡ bytes.old }
{
    let second = first + 1;
    let third = second + 1;
    let fourth = third + 1;
    let one = place_of(begin, target, entries, first);
    let two = place_of(begin, target, entries, second);
    let three = place_of(begin, target, entries, third);
    let four = place_of(begin, target, entries, fourth);
    let furthest = one.max(two).max(three.max(four));
    if bytes.len() < BLOCK || furthest > (bytes.len() - BLOCK) as u64 {
        return false;
    }
    write_at(bytes, one as usize, &entry_block(entries, first));
    write_at(bytes, two as usize, &entry_block(entries, second));
    write_at(bytes, three as usize, &entry_block(entries, third));
    write_at(bytes, four as usize, &entry_block(entries, fourth));
    true
}

/// How far behind `begin` the block of an entry lies; it wraps where it lies before.
#[inline(always)]
fn place_of(begin: u64, target: u64, entries: &[u8], i: usize) -> u64
    requires target { target ≤ 17592186044416 }
    requires entry { i < length entries.now / 10 }
    ensures behind { begin ≤ target + 8 * delta.block_number entries.now i
        → result ≡ target + 8 * delta.block_number entries.now i - begin }
    ensures before { target + 8 * delta.block_number entries.now i < begin
        → result + begin ≡ target + 8 * delta.block_number entries.now i + 2 ^ 64 }
{
    (target + 8 * u64::from(block_number(entries, i))).wrapping_sub(begin)
}

/// The same one by one.
fn put_singly(bytes: &mut [u8], begin: u64, target: u64, entries: &[u8], first: usize) -> usize
    requires target { target ≤ 17592186044416 }
    requires first { first ≤ length entries.now / 10 }
    ensures within { (first ≤ result) × (result ≤ length entries.now / 10) }
    ensures inside { AreInside begin (length bytes.old)
        (block_puts_from target entries.now first (result - first)) }
    ensures stops { result < length entries.now / 10
        → IsInside begin (length bytes.old) (target + 8 * delta.block_number entries.now result) 8 → ⊥ }
    ensures bytes { bytes.new ≡ after_puts begin bytes.old
        (block_puts_from target entries.now first (result - first)) }
{
    let count = entries.len() / ENTRY;
    for i in first..count {
        let addr = target + 8 * u64::from(block_number(entries, i));
        if addr < begin || addr - begin + 8 > bytes.len() as u64 {
            return i;
        }
        write_at(bytes, (addr - begin) as usize, &entry_block(entries, i));
    }
    count
}

/// The bytes of an entry's block, by value: so they are read and written as one word.
#[inline(always)]
pub fn entry_block(entries: &[u8], i: usize) -> [u8; 8]
    requires { i < length entries.now / 10 }
    ensures bytes { result ≡ slice_range entries.now (10 * i + 2) (10 * i + 10) }
    ensures length { length result ≡ 8 }
{
    let mut block = [0; 8];
    block.copy_from_slice(&entries[ENTRY * i + 2..ENTRY * i + ENTRY]);
    block
}
