//! The bytes that hexadecimal digits write, 16 digits at a time.

ghost use Rattle.std.specs.Prelude.{◌≡◌, ℕ, ◌+◌, ◌*◌, ◌/◌, ◌<◌, length, map, slice_index, true, false, if◌then◌else◌, Some, None};
ghost use Rattle.std.specs.Char.{is_digit};
ghost use Rattle.std.specs.List.{list_all};
ghost use Rattle.std.specs.Result.{result_ok};
ghost use Rattle.hex.specs.Hex.{decode_of};
ghost use Rattle.dml_grammar.specs.Digits.{worth, HasPairs};

use crate::digits::worth;
use std::simd::prelude::*;

/// The digits of one step.
const DIGITS: usize = 16;

/// The bytes of one step.
const BYTES: usize = 8;

/// Whether each of 16 bytes is a digit, in either case.
#[inline(always)]
fn are_digits(bytes: u8x16) -> bool
    requires { length bytes ≡ 16 }
    ensures { result ≡ list_all (λ c. is_digit c 16) bytes }
{
    let from_zero = bytes - u8x16::splat(b'0');
    let from_a = (bytes | u8x16::splat(0x20)) - u8x16::splat(b'a');
    let wrong = from_zero.simd_ge(u8x16::splat(10)) & from_a.simd_ge(u8x16::splat(6));
    wrong.to_bitmask() == 0
}

/// What each of 16 digits is worth.
#[inline(always)]
fn values(digits: u8x16) -> u8x16
    requires long { length digits ≡ 16 }
    requires digits { list_all (λ c. is_digit c 16) digits ≡ true }
    ensures { result ≡ map worth digits }
{
    let from_zero = digits - u8x16::splat(b'0');
    let from_a = (digits | u8x16::splat(0x20)) - u8x16::splat(b'a');
    let decimal = from_zero.simd_lt(u8x16::splat(10));
    decimal.select(from_zero, from_a + u8x16::splat(10))
}

/// The bytes of 16 digits' values, the high four bits of each first.
#[inline(always)]
fn paired(values: u8x16) -> u8x8
    requires long { length values ≡ 16 }
    requires small { (k : ℕ) → slice_index values k < 16 }
    ensures long { length result ≡ 8 }
    ensures pairs { (j : ℕ) → j < 8
        → slice_index result j ≡ slice_index values (2 * j) * 16 + slice_index values (2 * j + 1) }
{
    let high: u8x8 = values.swizzle([0, 2, 4, 6, 8, 10, 12, 14]);
    let low: u8x8 = values.swizzle([1, 3, 5, 7, 9, 11, 13, 15]);
    high * u8x8::splat(16) + low
}

/// Decodes the whole steps of a word; false where a byte of them is no digit.
fn decode_steps(word: &[u8], bytes: &mut [u8]) -> bool
    requires { length word.now ≡ 2 * length bytes.old }
    ensures pairs { result ≡ true → HasPairs word.now bytes.new (8 * (length bytes.old / 8)) }
    ensures fault { result ≡ false → list_all (λ c. is_digit c 16) word.now ≡ false }
{
    for step in 0..bytes.len() / BYTES {
        let digits = u8x16::from_slice(&word[DIGITS * step..]);
        if !are_digits(digits) {
            return false;
        }
        paired(values(digits)).copy_to_slice(&mut bytes[BYTES * step..]);
    }
    true
}

/// Decodes the digits of a word into bytes, half as many; false where one of them is none.
pub fn decode_into(word: &[u8], bytes: &mut [u8]) -> bool
    requires { length word.now ≡ 2 * length bytes.old }
    ensures { result_ok (decode_of word.now) ≡ (if result then Some bytes.new else None) }
{
    if !decode_steps(word, bytes) {
        return false;
    }
    for i in bytes.len() / BYTES * BYTES..bytes.len() {
        let (high, low) = (worth(word[2 * i]), worth(word[2 * i + 1]));
        if high > 15 || low > 15 {
            return false;
        }
        bytes[i] = high * 16 + low;
    }
    true
}
