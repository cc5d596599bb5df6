//! The lines of a text, and the words of a line.

ghost use Rattle.std.specs.Prelude.{◌≡◌, ◌==◌, ◌<◌, ◌≤◌, ◌∷◌, [], ℕ, MatchOption, length, slice_index, true, false};
ghost use Rattle.std.specs.List.{position_or_len, prefix_len};
ghost use Rattle.std.specs.Str.Lines.{lines, strip_carriage_return};
ghost use Rattle.dml_grammar.specs.Lanes.{lowest_or};
ghost use Rattle.dml_grammar.specs.Text as text_spec;

use memchr::{memchr, memchr2};
use std::simd::prelude::*;

/// The length of the text before its first line feed.
#[tactic(auto, using(crate::proofs::WordLemmas::first_byte_at))]
fn line_len(text: &[u8]) -> usize
    ensures place { result ≡ position_or_len (λ b. b == 10) text.now }
    ensures within { result ≤ length text.now }
{
    memchr(b'\n', text).unwrap_or(text.len())
}

/// A line without the one carriage return at its end, if it has one.
fn without_return(line: &[u8]) -> &[u8]
    ensures { result.now ≡ strip_carriage_return line.now }
{
    match line {
        [front @ .., b'\r'] => front,
        _ => line,
    }
}

/// The first line of a text, and what follows it.
#[tactic(auto, using(crate::proofs::WordLemmas::lines_split, crate::proofs::WordLemmas::lines_last))]
pub fn next_line(text: &[u8]) -> (&[u8], &[u8])
    requires { 0 < length text.now }
    ensures lines { lines text.now ≡ result.0.now ∷ lines result.1.now }
    ensures shorter { length result.1.now < length text.now }
{
    let end = line_len(text);
    let (line, rest) = text.split_at(end);
    if rest.is_empty() {
        return (line, rest);
    }
    let (_, after) = rest.split_at(1);
    (without_return(line), after)
}

/// Whether a byte is a space or a tab.
pub fn is_blank(byte: u8) -> bool
    ensures { result ≡ text_spec.is_blank byte }
{
    byte == b' ' || byte == b'\t'
}

/// How many blanks a text begins with.
#[tactic(auto, using(crate::proofs::WordLemmas::prefix_len_at))]
fn blank_len(text: &[u8]) -> usize
    ensures count { result ≡ prefix_len text_spec.is_blank text.now }
    ensures within { result ≤ length text.now }
{
    let mut n = 0;
    while n < text.len() && is_blank(text[n]) {
        n += 1;
    }
    n
}

/// The bytes of a step.
const STEP: usize = 16;

/// The bytes among which the end of a word is looked for one by one.
const NEAR: usize = 32;

/// The place of the lowest bit that is set; 16 where none is.
#[inline(always)]
fn lowest_bit(bits: u64) -> usize
    ensures { result ≡ lowest_or 16 bits }
{
    if bits == 0 {
        STEP
    } else {
        bits.trailing_zeros() as usize
    }
}

/// How many of a text's first 16 bytes come before the first blank; 16 where none is one.
#[inline(always)]
fn first_blank(text: &[u8]) -> usize
    requires { 16 ≤ length text.now }
    ensures within { result ≤ 16 }
    ensures before { (k : ℕ) → k < result → text_spec.is_blank (slice_index text.now k) ≡ false }
    ensures here { result < 16 → text_spec.is_blank (slice_index text.now result) ≡ true }
{
    let bytes = u8x16::from_slice(text);
    let blanks = bytes.simd_eq(u8x16::splat(b' ')) | bytes.simd_eq(u8x16::splat(b'\t'));
    lowest_bit(blanks.to_bitmask())
}

/// How many bytes a text begins with that are no blanks, where they are many: a search by vectors.
#[tactic(auto, using(crate::proofs::WordLemmas::first_blank_at))]
#[inline(never)]
fn long_word_len(text: &[u8]) -> usize
    ensures count { result ≡ position_or_len text_spec.is_blank text.now }
    ensures within { result ≤ length text.now }
{
    memchr2(b' ', b'\t', text).unwrap_or(text.len())
}

/// How many bytes a text begins with that are no blanks. Most words are short, and end in the first step; those that do
/// not, and those at the end of a line, go byte by byte up to 32 bytes. A word of 32 bytes or more is looked through
/// anew, by vectors.
#[tactic(auto, using(crate::proofs::WordLemmas::position_or_len_at))]
#[inline(always)]
fn word_len(text: &[u8]) -> usize
    ensures count { result ≡ position_or_len text_spec.is_blank text.now }
    ensures within { result ≤ length text.now }
{
    let near = text.len().min(NEAR);
    let mut n = if text.len() < STEP {
        0
    } else {
        first_blank(text)
    };
    while n < near && !is_blank(text[n]) {
        n += 1;
    }
    if n == NEAR { long_word_len(text) } else { n }
}

/// A line from its first word on; nothing where it has no word.
#[tactic(auto, using(crate::proofs::WordLemmas::blanks_skipped, crate::proofs::WordLemmas::no_blank_behind))]
#[inline(always)]
pub fn from_word(line: &[u8]) -> &[u8]
    ensures words { text_spec.words result.now ≡ text_spec.words line.now }
    ensures begins { 0 < length result.now → text_spec.is_blank (slice_index result.now 0) ≡ false }
{
    line.split_at(blank_len(line)).1
}

/// The first word of a text that begins with it, and what follows it.
#[tactic(auto, using(crate::proofs::WordLemmas::words_at_word, crate::proofs::WordLemmas::first_of_word))]
#[inline(always)]
pub fn split_word(text: &[u8]) -> (&[u8], &[u8])
    requires some { 0 < length text.now }
    requires begins { text_spec.is_blank (slice_index text.now 0) ≡ false }
    ensures words { text_spec.words text.now ≡ result.0.now ∷ text_spec.words result.1.now }
    ensures first { slice_index result.0.now 0 ≡ slice_index text.now 0 }
{
    text.split_at(word_len(text))
}

/// The first word of a line, and what follows it; None where the line has no word.
#[tactic(auto, using(crate::proofs::WordLemmas::no_words))]
pub fn next_word(line: &[u8]) -> Option<(&[u8], &[u8])>
    ensures { MatchOption result (text_spec.words line.now ≡ [])
        (λ r. text_spec.words line.now ≡ r.0.now ∷ text_spec.words r.1.now) }
{
    let text = from_word(line);
    if text.is_empty() {
        return None;
    }
    Some(split_word(text))
}
