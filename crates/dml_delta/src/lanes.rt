//! The blocks in which two slices of whole blocks differ, eight at a time.
ghost use Rattle.std.specs.Prelude.{◌≡◌, ℕ, ◌+◌, ◌-◌, ◌*◌, ◌/◌, ◌%◌, ◌≤◌, true, [], ◌++◌, bit_xor, length, replicate};
ghost use Rattle.dml_arena.specs.Piece.{SamePlace};
ghost use Rattle.dml_delta.specs.Entries.{nth_block, nth_differs, nth_entry, gathered, is_marked};

use crate::entries::Entries;
use dml_arena::Region;
use std::simd::prelude::*;

/// The bytes of eight blocks.
const GROUP: usize = 64;

/// The marks of eight blocks.
const ALL: u64 = 255;

/// Adds the entries of the blocks that differ; the first has a number, and an entry the bytes of the second slice.
pub fn add_differing(
    entries: &mut Entries,
    one: &[u8],
    other: &[u8],
    number: u32,
    room: &mut Region<'_>,
)
    requires lengths { length other.now ≡ length one.now }
    requires whole { length one.now % 8 ≡ 0 }
    requires numbers { number + length one.now / 8 ≤ 65536 }
    requires fits { length room.old.bytes + length entries.old + 10 * (length one.now / 8) ≤ room.old.room }
    ensures place { SamePlace room.old room.new }
    ensures bytes { room.new.bytes ++ entries.new ≡ (room.old.bytes ++ entries.old)
        ++ gathered (nth_entry number other.now) (nth_differs one.now other.now) 0 (length one.now / 8) }
{
    let groups = one.len() / GROUP;
    for k in 0..groups {
        let at = GROUP * k;
        let (one, other) = (&one[at..at + GROUP], &other[at..at + GROUP]);
        let alike = alike_in_group(one, other);
        add_unlike(entries, alike, other, number + 8 * k as u32, room);
    }
    let at = GROUP * groups;
    let (one, other) = (&one[at..], &other[at..]);
    let marks = marks_of_rest(one, other);
    add_marked(entries, marks, other, number + 8 * groups as u32, room);
}

/// Adds the entries of those of up to 64 blocks that differ; the first has a number, and an entry the bytes of the
/// second slice. None is gathered before.
pub fn add_blocks(entries: &mut Entries, one: &[u8], other: &[u8], number: u32)
    requires empty { entries.old ≡ [] }
    requires lengths { length other.now ≡ length one.now }
    requires whole { length one.now % 8 ≡ 0 }
    requires few { length one.now ≤ 512 }
    requires numbers { number + length one.now / 8 ≤ 65536 }
    ensures { entries.new
        ≡ gathered (nth_entry number other.now) (nth_differs one.now other.now) 0 (length one.now / 8) }
{
    let groups = one.len() / GROUP;
    for k in 0..groups {
        let at = GROUP * k;
        let (one, other) = (&one[at..at + GROUP], &other[at..at + GROUP]);
        let marks = marks_of_group(one, other);
        add_some(entries, marks, other, number + 8 * k as u32);
    }
    let at = GROUP * groups;
    if at < one.len() {
        let (one, other) = (&one[at..], &other[at..]);
        let marks = marks_of_rest(one, other);
        add_some(entries, marks, other, number + 8 * groups as u32);
    }
}

/// Which of eight blocks differ: bit i stands for block i.
#[inline(always)]
fn marks_of_group(one: &[u8], other: &[u8]) -> u64
    requires lengths { (length one.now ≡ 64) × (length other.now ≡ 64) }
    ensures { (i : ℕ) → is_marked result i ≡ nth_differs one.now other.now i }
{
    ALL ^ alike_in_group(one, other)
}

/// Which of eight blocks are alike. `add_differing` tests this: marks of those that differ are turned from it, by three
/// instructions a group.
#[inline(always)]
fn alike_in_group(one: &[u8], other: &[u8]) -> u64
    requires lengths { (length one.now ≡ 64) × (length other.now ≡ 64) }
    ensures { (i : ℕ) → is_marked (bit_xor 255 result) i ≡ nth_differs one.now other.now i }
{
    let one = u64x8::from_le_bytes(u8x64::from_slice(one));
    let other = u64x8::from_le_bytes(u8x64::from_slice(other));
    one.simd_eq(other).to_bitmask()
}

/// Which of fewer blocks differ.
fn marks_of_rest(one: &[u8], other: &[u8]) -> u64
    requires lengths { length other.now ≡ length one.now }
    requires whole { length one.now % 8 ≡ 0 }
    requires few { length one.now ≤ 64 }
    ensures { (i : ℕ) → is_marked result i ≡ nth_differs one.now other.now i }
{
    if one.is_empty() {
        return 0;
    }
    marks_of_group(&filled_up(one), &filled_up(other))
}

/// The bytes of blocks, filled up by zeros to those of eight.
fn filled_up(blocks: &[u8]) -> [u8; GROUP]
    requires { length blocks.now ≤ 64 }
    ensures { result ≡ blocks.now ++ replicate (64 - length blocks.now) 0 }
{
    let mut bytes = [0; GROUP];
    bytes[..blocks.len()].copy_from_slice(blocks);
    bytes
}

/// Adds the entries of those of eight blocks that are not marked as alike, the first of which has a number.
#[inline(always)]
fn add_unlike(entries: &mut Entries, alike: u64, blocks: &[u8], number: u32, room: &mut Region<'_>)
    requires few { length blocks.now ≤ 64 }
    requires marks { (i : ℕ) → is_marked (bit_xor 255 alike) i ≡ true → 8 * i + 8 ≤ length blocks.now }
    requires numbers { number + length blocks.now / 8 ≤ 65536 }
    requires fits { length room.old.bytes + length entries.old ≤ room.old.room }
    ensures place { SamePlace room.old room.new }
    ensures bytes { room.new.bytes ++ entries.new ≡ (room.old.bytes ++ entries.old)
        ++ gathered (nth_entry number blocks.now) (is_marked (bit_xor 255 alike)) 0 (length blocks.now / 8) }
{
    if alike != ALL {
        entries.make_room(room);
        add_entries(entries, ALL ^ alike, blocks, number);
    }
}

/// Adds the entries of the marked ones of up to eight blocks, the first of which has a number.
#[inline(always)]
fn add_marked(entries: &mut Entries, marks: u64, blocks: &[u8], number: u32, room: &mut Region<'_>)
    requires few { length blocks.now ≤ 64 }
    requires marks { (i : ℕ) → is_marked marks i ≡ true → 8 * i + 8 ≤ length blocks.now }
    requires numbers { number + length blocks.now / 8 ≤ 65536 }
    requires fits { length room.old.bytes + length entries.old ≤ room.old.room }
    ensures place { SamePlace room.old room.new }
    ensures bytes { room.new.bytes ++ entries.new ≡ (room.old.bytes ++ entries.old)
        ++ gathered (nth_entry number blocks.now) (is_marked marks) 0 (length blocks.now / 8) }
{
    if marks != 0 {
        entries.make_room(room);
        add_entries(entries, marks, blocks, number);
    }
}

/// The same where there is room for the entries of eight blocks.
#[inline(always)]
fn add_some(entries: &mut Entries, marks: u64, blocks: &[u8], number: u32)
    requires few { length blocks.now ≤ 64 }
    requires marks { (i : ℕ) → is_marked marks i ≡ true → 8 * i + 8 ≤ length blocks.now }
    requires numbers { number + length blocks.now / 8 ≤ 65536 }
    requires fits { length entries.old + 80 ≤ 640 }
    ensures { entries.new ≡ entries.old
        ++ gathered (nth_entry number blocks.now) (is_marked marks) 0 (length blocks.now / 8) }
{
    if marks != 0 {
        add_entries(entries, marks, blocks, number);
    }
}

/// Adds the entries of the marked ones of up to eight blocks, for which there is room. A mark is cleared by its place,
/// so that the next one is soon found.
fn add_entries(entries: &mut Entries, marks: u64, blocks: &[u8], number: u32)
    requires few { length blocks.now ≤ 64 }
    requires marks { (i : ℕ) → is_marked marks i ≡ true → 8 * i + 8 ≤ length blocks.now }
    requires numbers { number + length blocks.now / 8 ≤ 65536 }
    requires fits { length entries.old + 80 ≤ 640 }
    ensures { entries.new ≡ entries.old
        ++ gathered (nth_entry number blocks.now) (is_marked marks) 0 (length blocks.now / 8) }
{
    let mut marks = marks;
    while marks != 0 {
        let first = marks.trailing_zeros();
        entries.add((number + first) as u16, block_at(blocks, first));
        marks = marks & !(1 << first);
    }
}

/// The bytes of a block, by value: so they are read and written as one word.
#[inline(always)]
fn block_at(blocks: &[u8], i: u32) -> [u8; 8]
    requires { 8 * i + 8 ≤ length blocks.now }
    ensures { result ≡ nth_block blocks.now i }
{
    let start = 8 * i as usize;
    let mut block = [0; 8];
    block.copy_from_slice(&blocks[start..start + 8]);
    block
}
