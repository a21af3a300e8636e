#![tactic(auto)]
//! Text both ways: the lines and words of a script, its numbers and hex digits, and the words of calls. Reading
//! and writing cite one meaning each, in `cove_base/specs` (`Text`, `Numbers`, `CallWords`), and what was written
//! is read back: `number_is_read_back`, `natural_is_read_back`, `hex_is_read_back` and `call_is_read_back`.
//! That numbers have 64 bits by their type is said by `numbers_fit`.
//! Only `read_hex` takes memory.

mod call_words;
mod hex_words;
mod line_buf;
mod lines;
mod numbers;
mod words;

pub use call_words::{CALL_ROOM, call_is_read_back, call_of, is_call_word, put_call};
pub use hex_words::{HexError, hex_is_read_back, put_hex, read_hex};
pub use line_buf::{LINE_LIMIT, LineBuf};
pub use lines::{LineIter, split_lines};
pub use numbers::{
    DECIMAL_ROOM, NUMBER_ROOM, natural_is_read_back, number_is_read_back, numbers_fit, put_decimal,
    put_number, read_number,
};
pub use words::{WordIter, split_words};
