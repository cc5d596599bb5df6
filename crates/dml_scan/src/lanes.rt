//! How far bytes are alike from the front, those of two slices or those of a slice and a repeated pattern.
//!
//! Two slices, and a long slice and a pattern, are first compared in blocks of four steps with one test each. What is
//! left, as a slice and a pattern, is compared in steps of four vectors with one test, then a vector at a time, and at
//! the end byte by byte.

ghost use Rattle.std.specs.Prelude.{◌≡◌, ℕ, ◌+◌, ◌*◌, ◌<◌, ◌≤◌, ◌↔◌, IsTrue, length, slice_index, slice_range};
ghost use Rattle.dml_types.specs.Bytewise.{pattern_byte};
ghost use Rattle.dml_types.specs.Step as step;
ghost use Rattle.dml_scan.specs.Lanes.{AreAlike, AreFull, AreRepeated};
ghost use Rattle.dml_scan.specs.Lanes as lanes;

use std::simd::prelude::*;

/// The bytes of a vector.
const LANES: usize = 32;

/// The bytes of a step of four vectors.
const STEP: usize = 128;

/// The bytes of a block of four steps.
const BLOCK: usize = 512;

/// The first place at which two slices of one length differ; their length where they are equal.
pub fn first_difference(a: &[u8], b: &[u8]) -> usize
    requires { length a.now ≡ length b.now }
    ensures value { result ≡ lanes.first_difference a.now b.now }
    ensures within { result ≤ length a.now }
{
    let mut at = 0;
    while a.len() - at >= BLOCK && is_equal_block(a, b, at) {
        at += BLOCK;
    }
    if at == a.len() {
        return at;
    }
    first_difference_from(a, b, at)
}

/// The same, where the bytes before a place are equal. A block that differs is read once more here. It stands apart, so
/// that the loop over blocks keeps nothing of one in memory.
#[inline(never)]
fn first_difference_from(a: &[u8], b: &[u8], from: usize) -> usize
    requires lengths { length a.now ≡ length b.now }
    requires place { from ≤ length a.now }
    requires alike { (i : ℕ) → i < from → slice_index a.now i ≡ slice_index b.now i }
    ensures value { result ≡ lanes.first_difference a.now b.now }
    ensures within { result ≤ length a.now }
{
    let mut at = from;
    while a.len() - at >= STEP && is_equal_step(a, b, at) {
        at += STEP;
    }
    while a.len() - at >= LANES {
        let same = first_lane(load(a, at), load(b, at));
        at += same;
        if same < LANES {
            return at;
        }
    }
    while at < a.len() && a[at] == b[at] {
        at += 1;
    }
    at
}

/// Whether a block of two slices, from a place on, is equal, by one test.
#[inline(always)]
fn is_equal_block(a: &[u8], b: &[u8], at: usize) -> bool
    requires first { at + BLOCK ≤ length a.now }
    requires second { at + BLOCK ≤ length b.now }
    ensures { IsTrue result ↔ AreAlike a.now b.now at 512 }
{
    is_full(both(alike_steps(a, b, at), alike_steps(a, b, at + 2 * STEP)))
}

/// Full lanes where all vectors of two steps of two slices, from a place on, are alike.
#[inline(always)]
fn alike_steps(a: &[u8], b: &[u8], at: usize) -> u8x32
    requires first { at + 2 * STEP ≤ length a.now }
    requires second { at + 2 * STEP ≤ length b.now }
    ensures { AreFull result ↔ AreAlike a.now b.now at 256 }
{
    both(alike_step(a, b, at), alike_step(a, b, at + STEP))
}

/// Whether a step of two slices, from a place on, is equal.
#[inline(always)]
fn is_equal_step(a: &[u8], b: &[u8], at: usize) -> bool
    requires first { at + STEP ≤ length a.now }
    requires second { at + STEP ≤ length b.now }
    ensures { IsTrue result ↔ AreAlike a.now b.now at 128 }
{
    is_full(alike_step(a, b, at))
}

/// Full lanes where all vectors of a step of two slices, from a place on, are alike.
#[inline(always)]
fn alike_step(a: &[u8], b: &[u8], at: usize) -> u8x32
    requires first { at + STEP ≤ length a.now }
    requires second { at + STEP ≤ length b.now }
    ensures { AreFull result ↔ AreAlike a.now b.now at 128 }
{
    let first = alike(load(a, at), load(b, at));
    let second = alike(load(a, at + LANES), load(b, at + LANES));
    let third = alike(load(a, at + 2 * LANES), load(b, at + 2 * LANES));
    let fourth = alike(load(a, at + 3 * LANES), load(b, at + 3 * LANES));
    all_of(first, second, third, fourth)
}

/// Whether a block of a slice, from a place on, repeats a vector, by one test.
#[inline(always)]
fn is_repeated_block(bytes: &[u8], repeated: u8x32, at: usize) -> bool
    requires { at + BLOCK ≤ length bytes.now }
    ensures { IsTrue result ↔ AreRepeated bytes.now repeated at 512 }
{
    is_full(both(
        repeated_steps(bytes, repeated, at),
        repeated_steps(bytes, repeated, at + 2 * STEP),
    ))
}

/// Full lanes where all vectors of two steps of a slice, from a place on, are a vector that is repeated.
#[inline(always)]
fn repeated_steps(bytes: &[u8], repeated: u8x32, at: usize) -> u8x32
    requires { at + 2 * STEP ≤ length bytes.now }
    ensures { AreFull result ↔ AreRepeated bytes.now repeated at 256 }
{
    both(
        repeated_step(bytes, repeated, at),
        repeated_step(bytes, repeated, at + STEP),
    )
}

/// Whether a step of a slice, from a place on, repeats a vector.
#[inline(always)]
fn is_repeated_step(bytes: &[u8], repeated: u8x32, at: usize) -> bool
    requires { at + STEP ≤ length bytes.now }
    ensures { IsTrue result ↔ AreRepeated bytes.now repeated at 128 }
{
    is_full(repeated_step(bytes, repeated, at))
}

/// Full lanes where all vectors of a step of a slice, from a place on, are a vector that is repeated.
#[inline(always)]
fn repeated_step(bytes: &[u8], repeated: u8x32, at: usize) -> u8x32
    requires { at + STEP ≤ length bytes.now }
    ensures { AreFull result ↔ AreRepeated bytes.now repeated at 128 }
{
    let first = alike(load(bytes, at), repeated);
    let second = alike(load(bytes, at + LANES), repeated);
    let third = alike(load(bytes, at + 2 * LANES), repeated);
    let fourth = alike(load(bytes, at + 3 * LANES), repeated);
    all_of(first, second, third, fourth)
}

/// The bytes of a slice from a place on.
#[inline(always)]
fn load(bytes: &[u8], at: usize) -> u8x32
    requires { at + LANES ≤ length bytes.now }
    ensures { result ≡ slice_range bytes.now at (at + 32) }
{
    u8x32::from_slice(&bytes[at..at + LANES])
}

/// Full lanes where two vectors are alike, and 0 where they differ.
#[inline(always)]
fn alike(a: u8x32, b: u8x32) -> u8x32
    ensures { AreFull result ↔ (a ≡ b) }
{
    a.simd_eq(b).select(u8x32::splat(255), u8x32::splat(0))
}

/// The bits that are set in both of two vectors.
#[inline(always)]
fn both(a: u8x32, b: u8x32) -> u8x32
    ensures { AreFull result ↔ (AreFull a × AreFull b) }
{
    a & b
}

/// The bits that are set in all of four vectors.
#[inline(always)]
fn all_of(first: u8x32, second: u8x32, third: u8x32, fourth: u8x32) -> u8x32
    ensures { AreFull result ↔ (AreFull first × AreFull second × AreFull third × AreFull fourth) }
{
    both(both(first, second), both(third, fourth))
}

/// Whether each lane is full.
#[inline(always)]
fn is_full(lanes: u8x32) -> bool
    ensures { IsTrue result ↔ AreFull lanes }
{
    lanes.simd_ne(u8x32::splat(255)).to_bitmask() == 0
}

/// The first lane in which two vectors differ; 32 where they are equal.
#[inline(always)]
fn first_lane(a: u8x32, b: u8x32) -> usize
    ensures value { result ≡ lanes.first_difference a b }
    ensures within { result ≤ 32 }
{
    let unequal = a.simd_ne(b).to_bitmask();
    if unequal == 0 {
        LANES
    } else {
        unequal.trailing_zeros() as usize
    }
}

/// The first place at which a slice differs from the 8 bytes of a pattern, low byte first, repeated from its byte
/// `from` mod 8 on; the slice's length where there is none.
pub fn first_unlike(bytes: &[u8], pattern: u64, from: u32) -> usize
    ensures value { result ≡ lanes.first_unlike bytes.now pattern from }
    ensures within { result ≤ length bytes.now }
{
    let repeated = repeated_from(pattern, from);
    let mut at = 0;
    while bytes.len() - at >= STEP && is_repeated_step(bytes, repeated, at) {
        at += STEP;
    }
    while bytes.len() - at >= LANES {
        let same = first_lane(load(bytes, at), repeated);
        at += same;
        if same < LANES {
            return at;
        }
    }
    let front = repeated.to_array();
    while at < bytes.len() && bytes[at] == front[at % LANES] {
        at += 1;
    }
    at
}

/// The same of a long slice, or of one behind bytes that were alike, so that more are likely to be: in blocks first.
#[inline(never)]
pub fn first_unlike_long(bytes: &[u8], pattern: u64, from: u32) -> usize
    ensures value { result ≡ lanes.first_unlike bytes.now pattern from }
    ensures within { result ≤ length bytes.now }
{
    let repeated = repeated_from(pattern, from);
    let mut at = 0;
    while bytes.len() - at >= BLOCK && is_repeated_block(bytes, repeated, at) {
        at += BLOCK;
    }
    if at == bytes.len() {
        return at;
    }
    at + unlike_behind_blocks(&bytes[at..], pattern, from)
}

/// The first place behind blocks. It stands apart, so that the loop over blocks keeps nothing of one in memory.
#[inline(never)]
fn unlike_behind_blocks(bytes: &[u8], pattern: u64, from: u32) -> usize
    ensures value { result ≡ lanes.first_unlike bytes.now pattern from }
    ensures within { result ≤ length bytes.now }
{
    first_unlike(bytes, pattern, from)
}

/// The bytes of a pattern, low byte first, repeated from its byte `from` mod 8 on.
#[inline(always)]
fn repeated_from(pattern: u64, from: u32) -> u8x32
    ensures { (i : ℕ) → i < 32 → slice_index result i ≡ pattern_byte pattern (from + i) }
{
    u64x4::splat(turned(pattern, from)).to_le_bytes()
}

/// A pattern whose byte `from` mod 8 comes first.
#[inline(always)]
fn turned(pattern: u64, from: u32) -> u64
    ensures { result ≡ step.turned pattern from }
{
    pattern.rotate_right(8 * (from % 8))
}
