ghost use Rattle.std.specs.Prelude.{◌≡◌, map, length, is_some, unwrap_or, IfOk, OnOk, MatchOption, true, false};
ghost use Rattle.std.specs.List.{list_all};
ghost use Rattle.cove_model.specs.Grammar.{is_number, value, is_hex, bytes_of, is_line_word, line_of as line_meaning};
ghost use Rattle.cove_base.specs.Text.{text_words};
ghost use Rattle.cove_script.specs.Judging.{plain_words};

use cove_base::{Bytes, Line, NoMemory};
use cove_text::{HexError, call_of, is_call_word, read_hex, read_number, split_words};
use std::alloc::{AllocError, Global};

/// Puts the words of a line in place of what the list held.
pub fn put_words<'a>(words: &mut Vec<&'a [u8]>, line: &'a [u8]) -> Result<(), AllocError>
    ensures { OnOk result (plain_words words.new.items ≡ text_words line.now) }
{
    words.clear();
    for word in split_words(line) {
        words.push(word)?;
    }
    Ok(())
}

/// The number that a word is.
#[tactic(auto, unfolding(cove_model::specs::Grammar::is_number, cove_model::specs::Grammar::value))]
pub fn number_in(word: &[u8]) -> Option<u64>
    ensures found { is_some result ≡ is_number word.now }
    ensures number { unwrap_or result 0 ≡ value word.now }
{
    read_number(word)
}

/// Puts the numbers that words are in place of what the list held, and answers whether all words are numbers.
/// A word that is none counts as 0.
pub fn put_numbers(numbers: &mut Vec<u64>, words: &[&[u8]]) -> Result<bool, AllocError>
    ensures values { OnOk result (numbers.new.items ≡ map value (plain_words words.now)) }
    ensures all { IfOk result (λ all. all ≡ list_all is_number (plain_words words.now)) }
{
    numbers.clear();
    let mut all = true;
    for word in words {
        let number = number_in(word);
        all = all && number.is_some();
        numbers.push(number.unwrap_or(0))?;
    }
    Ok(all)
}

/// The bytes that a word spells in hex, where it spells one at least.
#[tactic(auto, unfolding(cove_model::specs::Grammar::bytes_of))]
pub fn hex_bytes(alloc: Global, word: &[u8]) -> Result<Option<Bytes>, NoMemory>
    ensures { IfOk result (λ found. MatchOption found (is_hex word.now ≡ false)
        (λ bytes. (is_hex word.now ≡ true) × (bytes ≡ bytes_of word.now))) }
{
    match read_hex(alloc, word) {
        Ok(bytes) if bytes.len() > 0 => Ok(Some(bytes)),
        Err(HexError::Memory) => Err(NoMemory),
        _ => Ok(None),
    }
}

/// Whether a word begins what a hart does.
#[tactic(auto, unfolding(cove_model::specs::Grammar::is_line_word))]
pub fn is_hart_word(word: &[u8]) -> bool
    ensures { result ≡ is_line_word word.now }
{
    word == b"ld".as_slice() || word == b"sd".as_slice() || is_call_word(word)
}

/// The line of a hart that a word and its arguments make.
#[tactic(auto, unfolding(cove_model::specs::Grammar::line_of))]
pub fn line_of(word: &[u8], arguments: &[u64]) -> Option<Line>
    ensures { result ≡ line_meaning word.now arguments.now }
{
    if word == b"ld".as_slice() {
        return match arguments {
            [addr] => Some(Line::Load { addr: *addr }),
            _ => None,
        };
    }
    if word == b"sd".as_slice() {
        return match arguments {
            [addr, value] => Some(Line::Store {
                addr: *addr,
                value: *value,
            }),
            _ => None,
        };
    }
    match call_of(word, arguments) {
        Some(call) => Some(Line::Call(call)),
        None => None,
    }
}
