//! The words of a script, written fast: the text of an input is to cost little beside its run.
ghost use Rattle.std.specs.Prelude.{◌<◌};

use std::alloc::AllocError;

const GLYPHS: [u8; 16] = *b"0123456789abcdef";

/// Adds a number in decimal digits.
pub(crate) fn push_number(text: &mut Vec<u8>, number: u32) -> Result<(), AllocError> {
    let mut digits = [b'0'; 10];
    let (mut left, mut start) = (number, 9);
    for place in (0..10).rev() {
        digits[place] = b'0' + (left % 10) as u8;
        start = place;
        left /= 10;
        if left == 0 {
            break;
        }
    }
    text.extend_from_slice(digits.get(start..).unwrap_or(&[]))
}

/// Adds a blank and a number.
pub(crate) fn push_field(text: &mut Vec<u8>, number: u32) -> Result<(), AllocError> {
    text.push(b' ')?;
    push_number(text, number)
}

/// Adds a byte as two hexadecimal digits.
pub(crate) fn push_byte(text: &mut Vec<u8>, byte: u8) -> Result<(), AllocError> {
    let digits = [
        GLYPHS[usize::from(byte / 16)],
        GLYPHS[usize::from(byte % 16)],
    ];
    text.extend_from_slice(&digits)
}

/// Adds bytes in hexadecimal.
pub(crate) fn push_bytes(text: &mut Vec<u8>, bytes: &[u8]) -> Result<(), AllocError> {
    for byte in bytes {
        push_byte(text, *byte)?;
    }
    Ok(())
}

/// Adds a blank and a pattern of 8 bytes in hexadecimal.
pub(crate) fn push_pattern(text: &mut Vec<u8>, pattern: u64) -> Result<(), AllocError> {
    text.extend_from_slice(b" 0x")?;
    push_bytes(text, &pattern.to_be_bytes())
}
