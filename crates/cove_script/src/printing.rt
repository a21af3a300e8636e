ghost use Rattle.std.specs.Prelude.{◌≡◌, ◌+◌, ◌-◌, ◌≤◌, replicate, [], ◌∷◌, ◌++◌, length, flat_map, map, IfOk, OnOk, codes};
ghost use Rattle.cove_base.specs.Numbers.{hex_text, natural_text, number_text};
ghost use Rattle.cove_model.specs.ScriptText.{action_words, board_words, body_words, end_words, fill_words, hart_words, key_words, line_text, lines_text, phase_words, script_text, turns_words};

use cove_base::{Bytes, Fill, Line, NoMemory, Script, ScriptLine};
use cove_text::{LINE_LIMIT, LineBuf, put_call, put_decimal, put_hex, put_number};
use std::alloc::Global;

// Appends bytes in hex.
fn put_all_hex(out: &mut Bytes, line: &mut LineBuf, bytes: &[u8]) -> Result<(), NoMemory>
    ensures { OnOk result (out.new ≡ out.old ++ hex_text bytes.now) }
{
    for byte in bytes {
        line.clear();
        put_hex(line, &[*byte]);
        out.extend(line.as_slice())?;
    }
    Ok(())
}

// Appends a space and a number.
fn put_spaced_number(line: &mut LineBuf, number: u64)
    requires { length line.old + 19 ≤ LINE_LIMIT }
    ensures text { line.new ≡ line.old ++ 32 ∷ number_text number }
    ensures room { length line.new ≤ length line.old + 19 }
{
    line.push(b' ');
    put_number(line, number);
}

// Appends a space and a number in decimal.
fn put_spaced_decimal(line: &mut LineBuf, number: u32)
    requires { length line.old + 21 ≤ LINE_LIMIT }
    ensures text { line.new ≡ line.old ++ 32 ∷ natural_text number }
    ensures room { length line.new ≤ length line.old + 21 }
{
    line.push(b' ');
    put_decimal(line, i64::from(number));
}

// The line of the board's sizes.
fn put_board(line: &mut LineBuf, pages: u32, harts: u8, files: u8)
    requires { line.old ≡ [] }
    ensures { line.new ≡ line_text (board_words pages harts files) }
{
    line.put_bytes(b"board");
    put_spaced_decimal(line, pages);
    put_spaced_decimal(line, u32::from(harts));
    put_spaced_decimal(line, u32::from(files));
    line.push(b'\n');
}

// What a hart does, after a space.
fn put_action(line: &mut LineBuf, action: &Line)
    requires { length line.old + 200 ≤ LINE_LIMIT }
    ensures text { line.new ≡ line.old ++ flat_map (λ word. 32 ∷ word) (action_words action.now) }
    ensures room { length line.new ≤ length line.old + 200 }
{
    match action {
        Line::Call(call) => {
            line.push(b' ');
            put_call(line, call);
        }
        Line::Load { addr } => {
            line.put_bytes(b" ld");
            put_spaced_number(line, *addr);
        }
        Line::Store { addr, value } => {
            line.put_bytes(b" sd");
            put_spaced_number(line, *addr);
            put_spaced_number(line, *value);
        }
    }
}

// The line of a hart.
fn put_hart_line(line: &mut LineBuf, script_line: &ScriptLine)
    requires { line.old ≡ [] }
    ensures { line.new ≡ line_text (hart_words script_line.now) }
{
    put_decimal(line, i64::from(script_line.hart.0));
    put_action(line, &script_line.line);
    line.push(b'\n');
}

// The line of the key.
fn put_key(out: &mut Bytes, line: &mut LineBuf, key: &[u8]) -> Result<(), NoMemory>
    ensures { OnOk result (out.new ≡ out.old ++ line_text (key_words key.now)) }
{
    out.extend(b"key ")?;
    put_all_hex(out, line, key)?;
    out.extend(b"\n")
}

// The line of a fill.
fn put_fill(out: &mut Bytes, line: &mut LineBuf, fill: &Fill) -> Result<(), NoMemory>
    ensures { OnOk result (out.new ≡ out.old ++ line_text (fill_words fill.now)) }
{
    line.clear();
    line.put_bytes(b"fill");
    put_spaced_number(line, fill.addr);
    line.push(b' ');
    out.extend(line.as_slice())?;
    put_all_hex(out, line, fill.bytes.as_slice())?;
    out.extend(b"\n")
}

// The lines of the fills.
fn put_fills(out: &mut Bytes, line: &mut LineBuf, fills: &[Fill]) -> Result<(), NoMemory>
    ensures { OnOk result (out.new ≡ out.old ++ lines_text (map fill_words fills.now)) }
{
    for fill in fills {
        put_fill(out, line, fill)?;
    }
    Ok(())
}

// A number of lines `phase`.
fn put_phases(out: &mut Bytes, count: u32) -> Result<(), NoMemory>
    ensures { OnOk result (out.new ≡ out.old ++ lines_text (replicate count phase_words)) }
{
    for _ in 0..count {
        out.extend(b"phase\n")?;
    }
    Ok(())
}

// A line of a hart after one of a phase, with the lines `phase` between them.
fn put_next_line(
    out: &mut Bytes,
    line: &mut LineBuf,
    phase: u32,
    script_line: &ScriptLine,
) -> Result<(), NoMemory>
    ensures { OnOk result (out.new ≡ out.old ++ lines_text (replicate (script_line.now.phase - phase) phase_words ++ hart_words script_line.now ∷ [])) }
{
    put_phases(out, script_line.phase.saturating_sub(phase))?;
    line.clear();
    put_hart_line(line, script_line);
    out.extend(line.as_slice())
}

// The lines of the harts, from phase 0 on.
fn put_lines(out: &mut Bytes, line: &mut LineBuf, lines: &[ScriptLine]) -> Result<(), NoMemory>
    ensures { OnOk result (out.new ≡ out.old ++ lines_text (body_words 0 lines.now)) }
{
    let mut phase = 0;
    for script_line in lines {
        put_next_line(out, line, phase, script_line)?;
        phase = script_line.phase;
    }
    Ok(())
}

// The harts that take turns, each after a space.
fn put_harts(out: &mut Bytes, line: &mut LineBuf, harts: &[u32]) -> Result<(), NoMemory>
    ensures { OnOk result (out.new ≡ out.old ++ flat_map (λ word. 32 ∷ word) (map natural_text harts.now)) }
{
    for hart in harts {
        line.clear();
        put_spaced_decimal(line, *hart);
        out.extend(line.as_slice())?;
    }
    Ok(())
}

// The line of the turns, where there are any.
fn put_turns(out: &mut Bytes, line: &mut LineBuf, turns: &[u32]) -> Result<(), NoMemory>
    ensures { OnOk result (out.new ≡ out.old ++ lines_text (turns_words turns.now)) }
{
    match turns {
        [] => Ok(()),
        [_, ..] => {
            out.extend(b"turns")?;
            put_harts(out, line, turns)?;
            out.extend(b"\n")
        }
    }
}

/// The canonical text of a script.
#[tactic(auto, unfolding(cove_model::specs::ScriptText::script_text))]
pub fn print(alloc: Global, script: &Script) -> Result<Bytes, NoMemory>
    ensures { IfOk result (λ text. text ≡ script_text script.now) }
{
    let mut out = Bytes::new(alloc);
    let mut line = LineBuf::new();
    put_board(&mut line, script.pages, script.harts, script.files);
    out.extend(line.as_slice())?;
    put_key(&mut out, &mut line, script.key.as_slice())?;
    put_fills(&mut out, &mut line, script.fills.as_slice())?;
    put_lines(&mut out, &mut line, script.lines.as_slice())?;
    put_turns(&mut out, &mut line, script.turns.as_slice())?;
    out.extend(b"end\n")?;
    Ok(out)
}
