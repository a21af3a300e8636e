ghost use Rattle.std.specs.Prelude.{◌≡◌, ◌<◌, ◌≤◌, ◌^◌, [], length, Ok, Err, IfOk, IfErr, IsTrue};
ghost use Rattle.cove_base.specs.Text.{text_lines};
ghost use Rattle.cove_base.specs.Scripts.{is_within_limits};
ghost use Rattle.cove_model.specs.Fronts.{front_of, front_size, is_end_line};
ghost use Rattle.cove_model.specs.Grammar.{lines_read, opening_reading, script_of};
ghost use Rattle.cove_script.specs.Judging.{IsFaultOf, IsFaultAt};

use crate::faults::{LineFault, ParseError};
use crate::lines::read_line;
use crate::readings::Reading;
use cove_base::{Kind, SCRIPT_LIMIT, Script, ScriptFault};
use cove_text::{split_lines, split_words};
use std::alloc::Global;

// A fault of a line.
fn fault_of_line(number: usize, fault: LineFault) -> ParseError
    requires { number < 2 ^ 32 }
    ensures { IsFaultAt number fault result }
{
    match fault {
        LineFault::Refused(kind) => ParseError::Refused(ScriptFault {
            line: number as u32,
            kind,
        }),
        LineFault::Memory => ParseError::Memory,
    }
}

// How a text ends before the line with the next number.
fn ended(reading: Reading, next: usize) -> Result<Script, ParseError>
    requires number { next < 2 ^ 32 }
    requires within { IsTrue (is_within_limits reading.script) }
    ensures ok { IfOk result (λ script. lines_read reading next [] ≡ Ok script) }
    ensures refused { IfErr result (λ error. IsFaultOf error (lines_read reading next [])) }
{
    if reading.has_end {
        return Ok(reading.finished());
    }
    Err(fault_of_line(next, LineFault::Refused(Kind::NoEnd)))
}

// The script that the lines of a text are.
fn parse_lines(alloc: Global, text: &[u8]) -> Result<Script, ParseError>
    requires { length text.now ≤ SCRIPT_LIMIT }
    ensures ok { IfOk result (λ script. lines_read opening_reading 1 (text_lines text.now) ≡ Ok script) }
    ensures refused { IfErr result (λ error. IsFaultOf error (lines_read opening_reading 1 (text_lines text.now))) }
{
    let mut reading = Reading::opening(alloc)?;
    let mut words = Vec::new(alloc);
    let mut numbers = Vec::new(alloc);
    let mut next = 1;
    for (number, line) in split_lines(text) {
        match read_line(alloc, &mut reading, line, &mut words, &mut numbers) {
            Ok(()) => next = number + 1,
            Err(fault) => return Err(fault_of_line(number, fault)),
        }
    }
    ended(reading, next)
}

/// The script that a text of at most `SCRIPT_LIMIT` bytes is, or its first fault: of the first faulty line, the
/// first kind that applies. It reads the text once.
#[tactic(auto, unfolding(cove_model::specs::Grammar::script_of))]
pub fn parse(alloc: Global, text: &[u8]) -> Result<Script, ParseError>
    ensures ok { IfOk result (λ script. script_of SCRIPT_LIMIT text.now ≡ Ok script) }
    ensures refused { IfErr result (λ error. IsFaultOf error (script_of SCRIPT_LIMIT text.now)) }
{
    if text.len() > SCRIPT_LIMIT {
        return Err(fault_of_line(0, LineFault::Refused(Kind::TooLong)));
    }
    parse_lines(alloc, text)
}

/// A script, and the place in the text after its line `end`.
#[derive(Drop)]
pub struct Front {
    pub script: Script,
    pub rest: usize,
}

// The line `end`.
fn is_end_line(line: &[u8]) -> bool
    ensures { result ≡ is_end_line line.now }
{
    let mut words = split_words(line);
    match words.next() {
        Some(word) => word == b"end".as_slice() && words.next().is_none(),
        None => false,
    }
}

// The place after the first line `end`, or the end of the text.
fn front_size(text: &[u8]) -> usize
    ensures { result ≡ front_size text.now }
{
    let mut place = 0;
    for (_, line) in split_lines(text) {
        place = (place + line.len() + 1).min(text.len());
        if is_end_line(line) {
            return place;
        }
    }
    place
}

/// The script in front of a text of at most `SCRIPT_LIMIT` bytes, up to and with its line `end`, or the first
/// fault before that. It looks at nothing after that line.
#[tactic(auto, unfolding(cove_model::specs::Fronts::front_of, cove_model::specs::Grammar::script_of))]
pub fn parse_front(alloc: Global, text: &[u8]) -> Result<Front, ParseError>
    ensures ok { IfOk result (λ front. front_of SCRIPT_LIMIT text.now ≡ Ok (front.script, front.rest)) }
    ensures refused { IfErr result (λ error. IsFaultOf error (front_of SCRIPT_LIMIT text.now)) }
{
    if text.len() > SCRIPT_LIMIT {
        return Err(fault_of_line(0, LineFault::Refused(Kind::TooLong)));
    }
    let rest = front_size(text);
    Ok(Front {
        script: parse_lines(alloc, &text[..rest])?,
        rest,
    })
}
