ghost use Rattle.std.specs.Prelude.{◌<◌, ◌≡◌, ◌+◌, ◌*◌, ◌^◌, ◌∷◌, ◌++◌, All, IsTrue, OnOk, false, nat_le, nat_lt};
ghost use Rattle.std.specs.List.{list_all};
ghost use Rattle.cove_base.specs.Scripts.{is_line_within};
ghost use Rattle.cove_model.specs.Grammar.{judged};
ghost use Rattle.cove_model.specs.Grammar.{BoardLine, KeyLine, FillLine, PhaseLine, TurnsLine, EndLine, HartAlone, HartLine};
ghost use Rattle.cove_script.specs.Judging.{Judged, plain_words};

use crate::faults::LineFault;
use crate::readings::Reading;
use crate::words::{hex_bytes, is_hart_word, line_of, number_in, put_numbers};
use cove_base::{
    FILE_LIMIT, Fill, HART_LIMIT, HartId, KEY_LIMIT, Kind, Line, NoMemory, PAGE_LIMIT, ScriptLine,
    Turns,
};
use std::alloc::Global;

/// `board PAGES HARTS FILES`
#[tactic(auto, unfolding(cove_model::specs::Grammar::judged))]
pub fn read_board(
    reading: &mut Reading,
    words: &[&[u8]],
    numbers: &mut Vec<u64>,
) -> Result<(), LineFault>
    ensures { Judged result reading.new (judged reading.old (BoardLine (plain_words words.now))) }
{
    if reading.has_board {
        return Err(LineFault::Refused(Kind::UnknownWord));
    }
    if !put_numbers(numbers, words)? {
        return Err(LineFault::Refused(Kind::BadNumber));
    }
    let [pages, harts, files] = numbers.as_slice() else {
        return Err(LineFault::Refused(Kind::WrongCount));
    };
    let (pages, harts, files) = (*pages, *harts, *files);
    if pages < 1
        || pages > u64::from(PAGE_LIMIT)
        || harts < 1
        || harts > u64::from(HART_LIMIT)
        || files > u64::from(FILE_LIMIT)
    {
        return Err(LineFault::Refused(Kind::OutOfBoard));
    }
    reading.has_board = true;
    reading.pages = pages as u32;
    reading.harts = harts as u8;
    reading.files = files as u8;
    Ok(())
}

/// `key HEX`
#[tactic(auto, unfolding(cove_model::specs::Grammar::judged))]
pub fn read_key(
    alloc: Global,
    reading: &mut Reading,
    words: &[&[u8]],
    numbers: &mut Vec<u64>,
) -> Result<(), LineFault>
    requires { IsTrue reading.old.has_board }
    ensures { Judged result reading.new (judged reading.old (KeyLine (plain_words words.now))) }
{
    if reading.has_body || reading.has_key {
        return Err(LineFault::Refused(Kind::UnknownWord));
    }
    let Some((hex, more)) = words.split_first() else {
        return Err(LineFault::Refused(Kind::WrongCount));
    };
    let Some(key) = hex_bytes(alloc, hex)? else {
        return Err(LineFault::Refused(Kind::BadNumber));
    };
    if !put_numbers(numbers, more)? {
        return Err(LineFault::Refused(Kind::BadNumber));
    }
    if !more.is_empty() {
        return Err(LineFault::Refused(Kind::WrongCount));
    }
    if key.len() > KEY_LIMIT {
        return Err(LineFault::Refused(Kind::OutOfBoard));
    }
    reading.has_key = true;
    reading.key = key;
    Ok(())
}

// Whether so many bytes at an address end within the memory.
fn ends_within(pages: u32, addr: u64, len: usize) -> bool
    requires { pages < 2 ^ 20 }
    ensures { result ≡ nat_le (addr + len) (4096 * pages) }
{
    let size = 4096 * u64::from(pages);
    addr <= size && len as u64 <= size - addr
}

// The words of a fill.
#[tactic(auto, unfolding(cove_model::specs::Grammar::judged))]
fn read_filled(
    alloc: Global,
    reading: &mut Reading,
    addr: &[u8],
    hex: &[u8],
    more: &[&[u8]],
    numbers: &mut Vec<u64>,
) -> Result<(), LineFault>
    requires board { IsTrue reading.old.has_board }
    requires setup { reading.old.has_body ≡ false }
    requires pages { reading.old.script.pages < 2 ^ 20 }
    ensures { Judged result reading.new (judged reading.old (FillLine (addr.now ∷ hex.now ∷ plain_words more.now))) }
{
    let Some(addr) = number_in(addr) else {
        return Err(LineFault::Refused(Kind::BadNumber));
    };
    let Some(bytes) = hex_bytes(alloc, hex)? else {
        return Err(LineFault::Refused(Kind::BadNumber));
    };
    if !put_numbers(numbers, more)? {
        return Err(LineFault::Refused(Kind::BadNumber));
    }
    if !more.is_empty() {
        return Err(LineFault::Refused(Kind::WrongCount));
    }
    if !ends_within(reading.pages, addr, bytes.len()) {
        return Err(LineFault::Refused(Kind::OutOfBoard));
    }
    reading.fills.push(Fill { addr, bytes })?;
    Ok(())
}

/// `fill ADDR HEX`
#[tactic(auto, unfolding(cove_model::specs::Grammar::judged))]
pub fn read_fill(
    alloc: Global,
    reading: &mut Reading,
    words: &[&[u8]],
    numbers: &mut Vec<u64>,
) -> Result<(), LineFault>
    requires board { IsTrue reading.old.has_board }
    requires pages { reading.old.script.pages < 2 ^ 20 }
    ensures { Judged result reading.new (judged reading.old (FillLine (plain_words words.now))) }
{
    if reading.has_body {
        return Err(LineFault::Refused(Kind::UnknownWord));
    }
    match words {
        [] => Err(LineFault::Refused(Kind::WrongCount)),
        [addr] => Err(LineFault::Refused(match number_in(addr) {
            Some(_) => Kind::WrongCount,
            None => Kind::BadNumber,
        })),
        [addr, hex, more @ ..] => read_filled(alloc, reading, addr, hex, more, numbers),
    }
}

/// `phase`
#[tactic(auto, unfolding(cove_model::specs::Grammar::judged))]
pub fn read_phase(
    reading: &mut Reading,
    words: &[&[u8]],
    numbers: &mut Vec<u64>,
) -> Result<(), LineFault>
    requires board { IsTrue reading.old.has_board }
    requires phase { reading.old.phase < 2 ^ 20 }
    ensures { Judged result reading.new (judged reading.old (PhaseLine (plain_words words.now))) }
{
    if reading.has_end {
        return Err(LineFault::Refused(Kind::UnknownWord));
    }
    if !put_numbers(numbers, words)? {
        return Err(LineFault::Refused(Kind::BadNumber));
    }
    if !words.is_empty() {
        return Err(LineFault::Refused(Kind::WrongCount));
    }
    reading.has_body = true;
    reading.phase += 1;
    Ok(())
}

// Whether each number is a hart's of the board.
fn are_harts(numbers: &[u64], harts: u8) -> bool
    ensures value { result ≡ list_all (λ hart. nat_lt hart harts) numbers.now }
    ensures small { IsTrue result → All (λ hart. hart < 256) numbers.now }
{
    numbers.iter().all(|hart| *hart < u64::from(harts))
}

// Appends the turns of harts of the board.
fn put_turns(turns: &mut Turns, harts: &[u64]) -> Result<(), NoMemory>
    requires { All (λ hart. hart < 256) harts.now }
    ensures { OnOk result (turns.new ≡ turns.old ++ harts.now) }
{
    for hart in harts {
        turns.push(*hart as u32)?;
    }
    Ok(())
}

/// `turns HART HART` and so on
#[tactic(auto, unfolding(cove_model::specs::Grammar::judged))]
pub fn read_turns(
    reading: &mut Reading,
    words: &[&[u8]],
    numbers: &mut Vec<u64>,
) -> Result<(), LineFault>
    requires { IsTrue reading.old.has_board }
    ensures { Judged result reading.new (judged reading.old (TurnsLine (plain_words words.now))) }
{
    if reading.has_end {
        return Err(LineFault::Refused(Kind::UnknownWord));
    }
    if !put_numbers(numbers, words)? {
        return Err(LineFault::Refused(Kind::BadNumber));
    }
    if words.is_empty() {
        return Err(LineFault::Refused(Kind::WrongCount));
    }
    if !are_harts(numbers, reading.harts) {
        return Err(LineFault::Refused(Kind::OutOfBoard));
    }
    reading.has_body = true;
    put_turns(&mut reading.turns, numbers)?;
    Ok(())
}

/// `end`
#[tactic(auto, unfolding(cove_model::specs::Grammar::judged))]
pub fn read_end(
    reading: &mut Reading,
    words: &[&[u8]],
    numbers: &mut Vec<u64>,
) -> Result<(), LineFault>
    requires { IsTrue reading.old.has_board }
    ensures { Judged result reading.new (judged reading.old (EndLine (plain_words words.now))) }
{
    if reading.has_end {
        return Err(LineFault::Refused(Kind::UnknownWord));
    }
    if !put_numbers(numbers, words)? {
        return Err(LineFault::Refused(Kind::BadNumber));
    }
    if !words.is_empty() {
        return Err(LineFault::Refused(Kind::WrongCount));
    }
    reading.has_body = true;
    reading.has_end = true;
    Ok(())
}

/// A hart without a word after it.
#[tactic(auto, unfolding(cove_model::specs::Grammar::judged))]
pub fn read_hart_alone(reading: &mut Reading, hart: &[u8]) -> Result<(), LineFault>
    requires { IsTrue reading.old.has_board }
    ensures { Judged result reading.new (judged reading.old (HartAlone hart.now)) }
{
    if reading.has_end {
        return Err(LineFault::Refused(Kind::UnknownWord));
    }
    if number_in(hart).is_none() {
        return Err(LineFault::Refused(Kind::BadNumber));
    }
    Err(LineFault::Refused(Kind::WrongCount))
}

/// Whether the access of a line is a word of the memory; a call may have any arguments.
fn is_within(pages: u32, line: &Line) -> bool
    requires { pages < 2 ^ 20 }
    ensures { result ≡ is_line_within pages line.now }
{
    match line {
        Line::Call(_) => true,
        Line::Load { addr } | Line::Store { addr, .. } => {
            addr % 8 == 0 && *addr < 4096 * u64::from(pages)
        }
    }
}

/// `HART WORD ARGS`
#[tactic(auto, unfolding(cove_model::specs::Grammar::judged))]
pub fn read_hart_line(
    reading: &mut Reading,
    hart: &[u8],
    word: &[u8],
    words: &[&[u8]],
    numbers: &mut Vec<u64>,
) -> Result<(), LineFault>
    requires board { IsTrue reading.old.has_board }
    requires pages { reading.old.script.pages < 2 ^ 20 }
    ensures { Judged result reading.new (judged reading.old (HartLine hart.now word.now (plain_words words.now))) }
{
    if reading.has_end {
        return Err(LineFault::Refused(Kind::UnknownWord));
    }
    if !is_hart_word(word) {
        return Err(LineFault::Refused(Kind::UnknownWord));
    }
    let Some(hart) = number_in(hart) else {
        return Err(LineFault::Refused(Kind::BadNumber));
    };
    if !put_numbers(numbers, words)? {
        return Err(LineFault::Refused(Kind::BadNumber));
    }
    let Some(line) = line_of(word, numbers) else {
        return Err(LineFault::Refused(Kind::WrongCount));
    };
    if hart >= u64::from(reading.harts) || !is_within(reading.pages, &line) {
        return Err(LineFault::Refused(Kind::OutOfBoard));
    }
    reading.has_body = true;
    reading.lines.push(ScriptLine {
        hart: HartId(hart as u8),
        phase: reading.phase,
        line,
    })?;
    Ok(())
}
