ghost use Rattle.std.specs.Prelude.{◌<◌, ◌≡◌, ◌^◌, IsTrue};
ghost use Rattle.cove_model.specs.Grammar.{content_of, is_ascii, is_hart_word, is_remark, is_text_byte, judged, line_read, words_read, Unknown};
ghost use Rattle.cove_script.specs.Judging.{Judged, plain_words};

use crate::faults::LineFault;
use crate::forms::{
    read_board, read_end, read_fill, read_hart_alone, read_hart_line, read_key, read_phase,
    read_turns,
};
use crate::readings::Reading;
use crate::words::put_words;
use cove_base::Kind;
use std::alloc::Global;

// A line with this first word says nothing.
fn is_remark(word: &[u8]) -> bool
    ensures { result ≡ is_remark word.now }
{
    matches!(word, [b'#', ..])
}

// The first word of a hart's line.
fn is_hart_word(word: &[u8]) -> bool
    ensures { result ≡ is_hart_word word.now }
{
    matches!(word, [b'0'..=b'9', ..])
}

// Whether each byte of a line is printable ASCII, a tab or a carriage return. It looks at all of them, since a test that
// leaves at the first other byte takes them one by one.
fn is_ascii(line: &[u8]) -> bool
    ensures { result ≡ is_ascii line.now }
{
    let mut all = true;
    for byte in line {
        all &= is_text_byte(*byte);
    }
    all
}

fn is_text_byte(byte: u8) -> bool
    ensures { result ≡ is_text_byte byte }
{
    byte == b'\t' || byte == b'\r' || (b' ' <= byte && byte < 0x7f)
}

// A first word that begins no line.
#[tactic(auto, unfolding(cove_model::specs::Grammar::judged))]
fn read_unknown(_reading: &Reading) -> Result<(), LineFault>
    requires { IsTrue _reading.now.has_board }
    ensures { Judged result _reading.now (judged _reading.now Unknown) }
{
    Err(LineFault::Refused(Kind::UnknownWord))
}

// A line that says something.
#[tactic(auto, unfolding(cove_model::specs::Grammar::content_of))]
fn read_content(
    alloc: Global,
    reading: &mut Reading,
    first: &[u8],
    words: &[&[u8]],
    numbers: &mut Vec<u64>,
) -> Result<(), LineFault>
    requires pages { reading.old.script.pages < 2 ^ 20 }
    requires phase { reading.old.phase < 2 ^ 20 }
    ensures { Judged result reading.new (judged reading.old (content_of first.now (plain_words words.now))) }
{
    if first == b"board".as_slice() {
        return read_board(reading, words, numbers);
    }
    if !reading.has_board {
        return Err(LineFault::Refused(Kind::BadHeader));
    }
    if first == b"key".as_slice() {
        return read_key(alloc, reading, words, numbers);
    }
    if first == b"fill".as_slice() {
        return read_fill(alloc, reading, words, numbers);
    }
    if first == b"phase".as_slice() {
        return read_phase(reading, words, numbers);
    }
    if first == b"turns".as_slice() {
        return read_turns(reading, words, numbers);
    }
    if first == b"end".as_slice() {
        return read_end(reading, words, numbers);
    }
    if !is_hart_word(first) {
        return read_unknown(reading);
    }
    match words {
        [] => read_hart_alone(reading, first),
        [word, words @ ..] => read_hart_line(reading, first, word, words, numbers),
    }
}

// The words of a line.
#[tactic(auto, unfolding(cove_model::specs::Grammar::words_read))]
fn read_words(
    alloc: Global,
    reading: &mut Reading,
    words: &[&[u8]],
    numbers: &mut Vec<u64>,
) -> Result<(), LineFault>
    requires pages { reading.old.script.pages < 2 ^ 20 }
    requires phase { reading.old.phase < 2 ^ 20 }
    ensures { Judged result reading.new (words_read reading.old (plain_words words.now)) }
{
    match words {
        [] => Ok(()),
        [first, words @ ..] => {
            if is_remark(first) {
                return Ok(());
            }
            read_content(alloc, reading, first, words, numbers)
        }
    }
}

/// Reads a line, and adds what it says. The two lists are used anew for each line.
#[tactic(auto, unfolding(cove_model::specs::Grammar::line_read))]
pub fn read_line<'a>(
    alloc: Global,
    reading: &mut Reading,
    line: &'a [u8],
    words: &mut Vec<&'a [u8]>,
    numbers: &mut Vec<u64>,
) -> Result<(), LineFault>
    requires pages { reading.old.script.pages < 2 ^ 20 }
    requires phase { reading.old.phase < 2 ^ 20 }
    ensures { Judged result reading.new (line_read reading.old line.now) }
{
    if !is_ascii(line) {
        return Err(LineFault::Refused(Kind::NotAscii));
    }
    put_words(words, line)?;
    read_words(alloc, reading, words, numbers)
}
