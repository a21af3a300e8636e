ghost use Rattle.std.specs.Prelude.{◌≡◌, ◌+◌, ◌*◌, ◌^◌, ◌<◌, ◌≤◌, ◌++◌, length, map, codes, IsTrue, Some, SomeIff};
ghost use Rattle.std.specs.List.{list_all};
ghost use Rattle.std.specs.Char.{digit_char, digit_value};
ghost use Rattle.cove_base.specs.Numbers.{decimal_text, is_u64, natural_text, number_of, number_text, shortest_digits, value_of_numeral};

use crate::line_buf::{LINE_LIMIT, LineBuf};

/// Room in a line for every number that `put_number` writes.
pub const NUMBER_ROOM: usize = 18;

/// Room in a line for every number that `put_decimal` writes.
pub const DECIMAL_ROOM: usize = 20;

/// The number that a word writes: `0x` and 1 to 16 hex digits of either case, or 1 to 20 decimal digits of a
/// value below 2^64.
pub fn read_number(word: &[u8]) -> Option<u64>
    ensures { result ≡ number_of word.now }
{
    if word.starts_with(b"0x".as_slice()) {
        read_numeral(&word[2..], 16, 16)
    } else {
        read_numeral(word, 10, 20)
    }
}

// The value of one to `most` digits.
fn read_numeral(digits: &[u8], base: u32, most: usize) -> Option<u64>
    requires lower { 2 ≤ base }
    requires upper { base ≤ 16 }
    ensures { result ≡ value_of_numeral base most digits.now }
{
    if digits.is_empty() || digits.len() > most {
        return None;
    }
    let mut value = 0;
    for digit in digits {
        value = with_digit(value, base, *digit)?;
    }
    Some(value)
}

// A value with one more digit at its end.
fn with_digit(value: u64, base: u32, digit: u8) -> Option<u64>
    requires lower { 2 ≤ base }
    requires upper { base ≤ 16 }
    ensures { SomeIff result
        ((digit_value digit < base) × (value * base + digit_value digit < 2 ^ 64))
        (value * base + digit_value digit) }
{
    let last = char::from(digit).to_digit(base)?;
    value
        .checked_mul(u64::from(base))?
        .checked_add(u64::from(last))
}

/// Appends `0x` and the shortest lower-case hex of a number.
pub fn put_number(out: &mut LineBuf, v: u64)
    requires { length out.old + NUMBER_ROOM ≤ LINE_LIMIT }
    ensures text { out.new ≡ out.old ++ number_text v }
    ensures room { length out.new ≤ length out.old + NUMBER_ROOM }
{
    out.put_bytes(b"0x");
    put_digits(out, 16, v);
}

/// Appends a number in decimal, after `-` below 0.
pub fn put_decimal(out: &mut LineBuf, v: i64)
    requires { length out.old + DECIMAL_ROOM ≤ LINE_LIMIT }
    ensures text { out.new ≡ out.old ++ decimal_text v }
    ensures room { length out.new ≤ length out.old + DECIMAL_ROOM }
{
    if v < 0 {
        out.push(b'-');
    }
    put_digits(out, 10, v.unsigned_abs());
}

// Appends the shortest digits of a number.
fn put_digits(out: &mut LineBuf, base: u64, n: u64)
    requires lower { 2 ≤ base }
    requires upper { base ≤ 16 }
    requires room { length out.old + length (shortest_digits base n) ≤ LINE_LIMIT }
    ensures { out.new ≡ out.old ++ map digit_char (shortest_digits base n) }
{
    if n >= base {
        put_digits(out, base, n / base);
    }
    out.push(digit_char(n % base));
}

// The lower-case digit of a value below 16.
pub(crate) fn digit_char(value: u64) -> u8
    requires { value < 16 }
    ensures { result ≡ digit_char value }
{
    if value < 10 {
        b'0' + value as u8
    } else {
        b'a' + (value - 10) as u8
    }
}

/// What `put_number` writes is read back.
pub fn number_is_read_back(v: u64)
    ensures { number_of (number_text v) ≡ Some v }
{}

/// What `put_decimal` writes of a natural number is read back.
pub fn natural_is_read_back(v: u64)
    ensures { number_of (natural_text v) ≡ Some v }
{}

/// Numbers of 64 bits are below 2^64.
pub fn numbers_fit(numbers: &[u64])
    ensures { IsTrue (list_all is_u64 numbers.now) }
{}
