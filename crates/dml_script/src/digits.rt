//! Digits in a buffer. A line is written from its end to its front, since the last digit of a number is found first.

ghost use Rattle.std.specs.Prelude.{◌≡◌, ◌+◌, ◌*◌, ◌/◌, ◌%◌, ◌<◌, ◌≤◌, ◌∷◌, ◌++◌, [], false, length, drop};
ghost use Rattle.std.specs.Fmt.{decimal, digit_glyph};
ghost use Rattle.std.specs.List.{flat_map};
ghost use Rattle.dml_script.specs.Lines.{pair_text};
ghost use Rattle.dml_script.specs.Output.{byte_text};

/// The most digits of a number of 64 bits.
pub const MOST_DIGITS: usize = 20;

/// Puts a text before a place of a buffer, and answers where it begins.
#[inline(always)]
pub fn put_text(buffer: &mut [u8], end: usize, text: &[u8]) -> usize
    requires room { length text.now ≤ end }
    requires within { end ≤ length buffer.old }
    ensures place { result + length text.now ≡ end }
    ensures written { drop result buffer.new ≡ text.now ++ drop end buffer.old }
{
    let at = end - text.len();
    buffer[at..end].copy_from_slice(text);
    at
}

/// The two digits of each number below 100.
static PAIRS: [u8; 200] =
    *b"00010203040506070809101112131415161718192021222324252627282930313233343536373839\
4041424344454647484950515253545556575859606162636465666768697071727374757677787980818283848586878889\
90919293949596979899";

/// Puts the decimal digits of a number before a place of a buffer, and answers where they begin. One division finds
/// two digits.
pub fn put_number(buffer: &mut [u8], end: usize, number: u64) -> usize
    requires room { MOST_DIGITS ≤ end }
    requires within { end ≤ length buffer.old }
    ensures place { result + length (decimal number) ≡ end }
    ensures most { end ≤ result + MOST_DIGITS }
    ensures written { drop result buffer.new ≡ decimal number ++ drop end buffer.old }
{
    let mut at = end;
    let mut left = number;
    while left >= 100 {
        at = put_pair(buffer, at, left % 100);
        left /= 100;
    }
    put_last(buffer, at, left)
}

/// Puts the one or two digits of a number below 100 before a place, and answers where they begin.
#[inline(always)]
fn put_last(buffer: &mut [u8], end: usize, number: u64) -> usize
    requires pair { number < 100 }
    requires room { length (decimal number) ≤ end }
    requires within { end ≤ length buffer.old }
    ensures place { result + length (decimal number) ≡ end }
    ensures written { drop result buffer.new ≡ decimal number ++ drop end buffer.old }
{
    if number >= 10 {
        return put_pair(buffer, end, number);
    }
    buffer[end - 1] = b'0' + number as u8;
    end - 1
}

/// Puts the two digits of a number below 100 before a place, and answers where they begin.
#[inline(always)]
fn put_pair(buffer: &mut [u8], end: usize, number: u64) -> usize
    requires pair { number < 100 }
    requires room { 2 ≤ end }
    requires within { end ≤ length buffer.old }
    ensures place { result + 2 ≡ end }
    ensures written { drop result buffer.new ≡ pair_text number ++ drop end buffer.old }
{
    let (tens, ones) = pair_digits(number);
    buffer[end - 2] = tens;
    buffer[end - 1] = ones;
    end - 2
}

/// The two digits of a number below 100.
#[inline(always)]
fn pair_digits(number: u64) -> (u8, u8)
    requires { number < 100 }
    ensures tens { result.0 ≡ 48 + number / 10 }
    ensures ones { result.1 ≡ 48 + number % 10 }
{
    let from = 2 * number as usize;
    (PAIRS[from], PAIRS[from + 1])
}

/// Puts the two hexadecimal digits of a byte before a place of a buffer, and answers where they begin.
#[inline(always)]
pub fn put_byte(buffer: &mut [u8], end: usize, byte: u8) -> usize
    requires room { 2 ≤ end }
    requires within { end ≤ length buffer.old }
    ensures place { result + 2 ≡ end }
    ensures written { drop result buffer.new ≡ byte_text byte ++ drop end buffer.old }
{
    let (high, low) = byte_digits(byte);
    buffer[end - 2] = high;
    buffer[end - 1] = low;
    end - 2
}

/// Puts the two hexadecimal digits of each byte. The loop has no branch, so that it goes by vectors.
pub fn put_bytes(text: &mut [u8], bytes: &[u8])
    requires { length text.old ≡ 2 * length bytes.now }
    ensures { text.new ≡ flat_map byte_text bytes.now }
{
    for i in 0..bytes.len() {
        let (high, low) = byte_digits(bytes[i]);
        text[2 * i] = high;
        text[2 * i + 1] = low;
    }
}

/// The two lower-case hexadecimal digits of a byte.
#[inline(always)]
fn byte_digits(byte: u8) -> (u8, u8)
    ensures { result.0 ∷ result.1 ∷ [] ≡ byte_text byte }
{
    (glyph(byte / 16), glyph(byte % 16))
}

/// The lower-case hexadecimal digit.
#[inline(always)]
fn glyph(digit: u8) -> u8
    requires { digit < 16 }
    ensures { result ≡ digit_glyph false digit }
{
    if digit < 10 {
        b'0' + digit
    } else {
        b'a' + (digit - 10)
    }
}
