//! The numbers and the bytes that words write.

ghost use Rattle.std.specs.Prelude.{◌≡◌, length, IfOk};
ghost use Rattle.std.specs.Option.{option_map};
ghost use Rattle.std.specs.Result.{result_ok};
ghost use Rattle.hex.specs.Hex.{decode_of};
ghost use Rattle.dml_grammar.specs.Digits.{number_of};
ghost use Rattle.dml_grammar.specs.Number as spec;

use crate::digits::{short_decimal, short_hexadecimal};
use crate::hexadecimal::decode_into;
use hex::FromHexError;
use std::alloc::{AllocError, Global};

/// The number of 20 decimal digits, if they are such and it has 64 bits at most: any 19 digits are few enough, and the
/// last may be one too many.
#[cold]
fn long_number(digits: &[u8]) -> Option<u64>
    requires { length digits.now ≡ 20 }
    ensures { result ≡ spec.at_most 0xffff_ffff_ffff_ffff (number_of 10 digits.now) }
{
    let (front, last) = digits.split_at(19);
    let front = short_decimal(front)?;
    let last = short_decimal(last)?;
    front.checked_mul(10)?.checked_add(last)
}

/// The number of 1 to 20 decimal digits, if they are such and it has 64 bits at most.
fn decimal_number(digits: &[u8]) -> Option<u64>
    ensures { result ≡ spec.at_most 0xffff_ffff_ffff_ffff (spec.digits_number 10 20 digits.now) }
{
    match digits.len() {
        1..=19 => short_decimal(digits),
        20 => long_number(digits),
        _ => None,
    }
}

/// The number of 1 to 16 hexadecimal digits, if they are such.
fn hexadecimal_number(digits: &[u8]) -> Option<u64>
    ensures { result ≡ spec.at_most 0xffff_ffff_ffff_ffff (spec.digits_number 16 16 digits.now) }
{
    match digits.len() {
        1..=16 => short_hexadecimal(digits),
        _ => None,
    }
}

/// The number that a word writes, of 64 bits at most.
fn word_number(word: &[u8]) -> Option<u64>
    ensures { result ≡ spec.at_most 0xffff_ffff_ffff_ffff (spec.word_number word.now) }
{
    match word.strip_prefix(b"0x".as_slice()) {
        Some(digits) => hexadecimal_number(digits),
        None => decimal_number(word),
    }
}

/// The number, if there is one and it is not above the largest.
#[inline(always)]
pub fn at_most(largest: u64, number: Option<u64>) -> Option<u64>
    ensures { result ≡ spec.at_most largest number }
{
    match number {
        Some(number) if number <= largest => Some(number),
        _ => None,
    }
}

/// The number that a word writes, if it writes one and it is not above the largest.
pub fn bounded_number(largest: u64, word: &[u8]) -> Option<u64>
    ensures { result ≡ spec.at_most largest (spec.word_number word.now) }
{
    at_most(largest, word_number(word))
}

/// The bytes that hexadecimal digits write, if they are such, two digits a byte.
fn few_bytes(alloc: Global, digits: &[u8]) -> Result<Option<Vec<u8>>, AllocError>
    ensures { IfOk result (λ bytes. option_map (λ v. v.items) bytes ≡ result_ok (decode_of digits.now)) }
{
    match hex::decode(alloc, digits) {
        Ok(bytes) => Ok(Some(bytes)),
        Err(FromHexError::OutOfMemory) => Err(AllocError),
        Err(_) => Ok(None),
    }
}

/// The most digits that are decoded one by one, by the crate hex.
const FEW_DIGITS: usize = 15;

/// The bytes that a word of `least` to `most` hexadecimal digits writes, if it is one. Where there are many, they are
/// decoded several at a time.
pub fn word_bytes(
    alloc: Global,
    least: usize,
    most: usize,
    word: &[u8],
) -> Result<Option<Vec<u8>>, AllocError>
    ensures { IfOk result (λ bytes. option_map (λ v. v.items) bytes ≡ spec.word_bytes least most word.now) }
{
    if word.len() < least || word.len() > most {
        return Ok(None);
    }
    if word.len() <= FEW_DIGITS {
        return few_bytes(alloc, word);
    }
    if word.len() % 2 == 1 {
        return Ok(None);
    }
    let mut bytes = vec![in alloc; 0; word.len() / 2]?;
    if !decode_into(word, bytes.as_mut_slice()) {
        return Ok(None);
    }
    Ok(Some(bytes))
}
