//! Digits, and the numbers that few of them write.

ghost use Rattle.std.specs.Prelude.{◌≡◌, ◌<◌, ◌≤◌, length, nat_lt};
ghost use Rattle.std.specs.Char.{digit_value, is_digit};
ghost use Rattle.dml_grammar.specs.Digits as spec;

/// What each byte is worth as a hexadecimal digit, in either case; 255 where it is none.
static WORTH: [u8; 256] = *b"\
    \xff\xff\xff\xff\xff\xff\xff\xff\xff\xff\xff\xff\xff\xff\xff\xff\
    \xff\xff\xff\xff\xff\xff\xff\xff\xff\xff\xff\xff\xff\xff\xff\xff\
    \xff\xff\xff\xff\xff\xff\xff\xff\xff\xff\xff\xff\xff\xff\xff\xff\
    \x00\x01\x02\x03\x04\x05\x06\x07\x08\x09\xff\xff\xff\xff\xff\xff\
    \xff\x0a\x0b\x0c\x0d\x0e\x0f\xff\xff\xff\xff\xff\xff\xff\xff\xff\
    \xff\xff\xff\xff\xff\xff\xff\xff\xff\xff\xff\xff\xff\xff\xff\xff\
    \xff\x0a\x0b\x0c\x0d\x0e\x0f\xff\xff\xff\xff\xff\xff\xff\xff\xff\
    \xff\xff\xff\xff\xff\xff\xff\xff\xff\xff\xff\xff\xff\xff\xff\xff\
    \xff\xff\xff\xff\xff\xff\xff\xff\xff\xff\xff\xff\xff\xff\xff\xff\
    \xff\xff\xff\xff\xff\xff\xff\xff\xff\xff\xff\xff\xff\xff\xff\xff\
    \xff\xff\xff\xff\xff\xff\xff\xff\xff\xff\xff\xff\xff\xff\xff\xff\
    \xff\xff\xff\xff\xff\xff\xff\xff\xff\xff\xff\xff\xff\xff\xff\xff\
    \xff\xff\xff\xff\xff\xff\xff\xff\xff\xff\xff\xff\xff\xff\xff\xff\
    \xff\xff\xff\xff\xff\xff\xff\xff\xff\xff\xff\xff\xff\xff\xff\xff\
    \xff\xff\xff\xff\xff\xff\xff\xff\xff\xff\xff\xff\xff\xff\xff\xff\
    \xff\xff\xff\xff\xff\xff\xff\xff\xff\xff\xff\xff\xff\xff\xff\xff";

/// What a byte is worth as a hexadecimal digit, in either case; 255 where it is none.
#[inline(always)]
pub fn worth(byte: u8) -> u8
    ensures { result ≡ spec.worth byte }
{
    WORTH[byte as usize]
}

/// The number that at most 16 hexadecimal digits write: it always has 64 bits at most, so no step is tested. Each byte
/// costs one look at a table.
#[inline(always)]
pub fn short_hexadecimal(digits: &[u8]) -> Option<u64>
    requires { length digits.now ≤ 16 }
    ensures { result ≡ spec.number_of 16 digits.now }
{
    let mut number = 0;
    for digit in digits {
        let value = worth(*digit);
        if value >= 16 {
            return None;
        }
        number = number * 16 + u64::from(value);
    }
    Some(number)
}

/// What a byte is worth as a decimal digit; 10 or more where it is none.
#[inline(always)]
pub fn decimal_worth(byte: u8) -> u64
    ensures digit { nat_lt result 10 ≡ is_digit byte 10 }
    ensures value { result < 10 → digit_value byte ≡ result }
{
    u64::from(byte).wrapping_sub(u64::from(b'0'))
}

/// The number that at most 19 decimal digits write: it always has 64 bits at most, so no step is tested.
#[inline(always)]
pub fn short_decimal(digits: &[u8]) -> Option<u64>
    requires { length digits.now ≤ 19 }
    ensures { result ≡ spec.number_of 10 digits.now }
{
    let mut number = 0;
    for digit in digits {
        let value = decimal_worth(*digit);
        if value >= 10 {
            return None;
        }
        number = number * 10 + value;
    }
    Some(number)
}
