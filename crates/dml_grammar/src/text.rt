//! Whether bytes are ASCII text, 16 of them at a time.

ghost use Rattle.std.specs.Prelude.{◌≡◌, length};
ghost use Rattle.std.specs.List.{list_all};
ghost use Rattle.dml_grammar.specs.Text.{is_text};

use std::simd::prelude::*;

/// The bytes of one step.
const BYTES: usize = 16;

/// Whether each of 16 bytes is a tab or one from the space to the tilde.
#[inline(always)]
fn are_text(bytes: u8x16) -> bool
    requires { length bytes ≡ 16 }
    ensures { result ≡ list_all is_text bytes }
{
    let control = bytes.simd_lt(u8x16::splat(b' ')) & bytes.simd_ne(u8x16::splat(b'\t'));
    let wrong = control | bytes.simd_gt(u8x16::splat(b'~'));
    wrong.to_bitmask() == 0
}

/// Whether all bytes, which are too few for a step, are text.
#[inline(always)]
fn is_short_text(text: &[u8]) -> bool
    ensures { result ≡ list_all is_text text.now }
{
    text.iter()
        .all(|c| *c == b'\t' || (b' '..=b'~').contains(c))
}

/// Whether all bytes are tabs or from the space to the tilde.
pub fn is_text(text: &[u8]) -> bool
    ensures { result ≡ list_all is_text text.now }
{
    if text.len() < BYTES {
        return is_short_text(text);
    }
    for step in 0..text.len() / BYTES {
        if !are_text(u8x16::from_slice(&text[BYTES * step..])) {
            return false;
        }
    }
    // The bytes behind the last whole step are tested with some of those before.
    are_text(u8x16::from_slice(&text[text.len() - BYTES..]))
}
