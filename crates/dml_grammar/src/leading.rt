//! Numbers at the head of a line, read and cut off in one pass.

ghost use Rattle.std.specs.Prelude.{◌≡◌, ◌<◌, ◌≤◌, length, slice_index, take, IfSome, true};
ghost use Rattle.std.specs.Char.{is_digit};
ghost use Rattle.std.specs.List.{list_all};
ghost use Rattle.std.specs.Str.Parse.{digits_value};
ghost use Rattle.dml_grammar.specs.Leading.{BeginsWith};
ghost use Rattle.dml_grammar.specs.Text.{is_blank};

use crate::digits::{decimal_worth, worth};
use crate::words::is_blank;

/// The most digits that are read in one pass: so few always make a number of 64 bits.
const MOST_DIGITS: usize = 19;

/// The same of hexadecimal digits.
const MOST_HEXADECIMAL: usize = 16;

/// Digits that a text begins with, at most 19 of them: the number that they write, and how many they are.
#[inline(always)]
fn leading_digits(text: &[u8]) -> (u64, usize)
    ensures within { result.1 ≤ length text.now }
    ensures few { result.1 ≤ 19 }
    ensures digits { list_all (λ c. is_digit c 10) (take result.1 text.now) ≡ true }
    ensures number { result.0 ≡ digits_value 10 (take result.1 text.now) }
{
    let most = text.len().min(MOST_DIGITS);
    let mut number = 0;
    let mut n = 0;
    while n < most {
        let value = decimal_worth(text[n]);
        if value >= 10 {
            break;
        }
        number = number * 10 + value;
        n += 1;
    }
    (number, n)
}

/// Hexadecimal digits that a text begins with, at most 16 of them: the number that they write, and how many they are.
#[inline(always)]
fn leading_hexadecimal(text: &[u8]) -> (u64, usize)
    ensures within { result.1 ≤ length text.now }
    ensures few { result.1 ≤ 16 }
    ensures digits { list_all (λ c. is_digit c 16) (take result.1 text.now) ≡ true }
    ensures number { result.0 ≡ digits_value 16 (take result.1 text.now) }
{
    let most = text.len().min(MOST_HEXADECIMAL);
    let mut number = 0;
    let mut n = 0;
    while n < most {
        let value = worth(text[n]);
        if value >= 16 {
            break;
        }
        number = number * 16 + u64::from(value);
        n += 1;
    }
    (number, n)
}

/// Whether a word may end at a place of a text: a blank stands there, or nothing.
#[inline(always)]
fn ends_at(text: &[u8], place: usize) -> bool
    requires { place ≤ length text.now }
    ensures { result ≡ true → place < length text.now → is_blank (slice_index text.now place) ≡ true }
{
    place == text.len() || is_blank(text[place])
}

/// The number of a line's first word, where one space stands before it and `0x` and 1 to 16 hexadecimal digits write
/// it, and what follows the word; None of all other lines.
#[inline(always)]
fn next_hexadecimal(line: &[u8]) -> Option<(u64, &[u8])>
    requires long { 3 ≤ length line.now }
    requires space { slice_index line.now 0 ≡ 32 }
    requires zero { slice_index line.now 1 ≡ 48 }
    requires x { slice_index line.now 2 ≡ 120 }
    ensures { IfSome result (λ r. BeginsWith r.0 r.1.now line.now) }
{
    let (_, text) = line.split_at(3);
    let (number, len) = leading_hexadecimal(text);
    if len == 0 {
        return None;
    }
    if !ends_at(text, len) {
        return None;
    }
    let (_, rest) = text.split_at(len);
    Some((number, rest))
}

/// The number of a line's first word, where one space stands before it and 1 to 19 decimal digits write it, or `0x` and
/// 1 to 16 hexadecimal digits, and what follows the word; None of all other lines.
#[inline(always)]
pub fn next_number(line: &[u8]) -> Option<(u64, &[u8])>
    ensures { IfSome result (λ r. BeginsWith r.0 r.1.now line.now) }
{
    if line.is_empty() || line[0] != b' ' {
        return None;
    }
    if line.len() >= 3 && line[2] == b'x' && line[1] == b'0' {
        return next_hexadecimal(line);
    }
    let (_, text) = line.split_at(1);
    let (number, len) = leading_digits(text);
    if len == 0 {
        return None;
    }
    if !ends_at(text, len) {
        return None;
    }
    let (_, rest) = text.split_at(len);
    Some((number, rest))
}
