ghost use Rattle.std.specs.Prelude.{◌≡◌, ◌+◌, ◌*◌, ◌≤◌, ◌++◌, ◌↔◌, ◌&&◌, length, IfOk, IsTrue, IsFalse, Some, SomeIff};
ghost use Rattle.std.specs.List.{list_all};
ghost use Rattle.std.specs.Char.{digit_value};
ghost use Rattle.cove_base.specs.Numbers.{hex_of, hex_text, is_hex_digit, is_odd};

use crate::line_buf::{LINE_LIMIT, LineBuf};
use crate::numbers::digit_char;
use cove_base::Bytes;
use std::alloc::Global;
use thiserror::Error;

/// Why a word of hex digits gives no bytes.
#[derive(Clone, Copy, Debug, PartialEq, Eq, Error)]
pub enum HexError {
    #[error("an odd number of hex digits")]
    Odd,
    #[error("a digit is not hex")]
    BadDigit,
    #[error("out of memory")]
    Memory,
}

/// The bytes that a word of hex digits of either case writes, two digits for each.
pub fn read_hex(alloc: Global, word: &[u8]) -> Result<Bytes, HexError>
    ensures ok { IfOk result (λ bytes. hex_of word.now ≡ Some bytes) }
    ensures odd { (result ≡ Err HexError.Odd) ↔ IsTrue (is_odd word.now) }
    ensures bad_digit { result ≡ Err HexError.BadDigit → IsFalse (list_all is_hex_digit word.now) }
{
    if word.len() % 2 != 0 {
        return Err(HexError::Odd);
    }
    let mut bytes = Bytes::new(alloc);
    for i in 0..word.len() / 2 {
        let byte = read_byte(word[2 * i], word[2 * i + 1]).ok_or(HexError::BadDigit)?;
        bytes.push(byte).map_err(|_| HexError::Memory)?;
    }
    Ok(bytes)
}

// The byte of two hex digits, the high four bits first.
fn read_byte(high: u8, low: u8) -> Option<u8>
    ensures { SomeIff result (IsTrue (is_hex_digit high && is_hex_digit low)) (16 * digit_value high + digit_value low) }
{
    let high = char::from(high).to_digit(16)?;
    let low = char::from(low).to_digit(16)?;
    Some((16 * high + low) as u8)
}

/// Appends two lower-case hex digits for each byte.
pub fn put_hex(out: &mut LineBuf, bytes: &[u8])
    requires { length out.old + 2 * length bytes.now ≤ LINE_LIMIT }
    ensures text { out.new ≡ out.old ++ hex_text bytes.now }
    ensures len { length out.new ≡ length out.old + 2 * length bytes.now }
{
    for byte in bytes {
        out.push(digit_char(u64::from(*byte / 16)));
        out.push(digit_char(u64::from(*byte % 16)));
    }
}

/// What `put_hex` writes is read back.
pub fn hex_is_read_back(bytes: &[u8])
    ensures { hex_of (hex_text bytes.now) ≡ Some bytes.now }
{}
