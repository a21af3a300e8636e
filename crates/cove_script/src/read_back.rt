ghost use Rattle.std.specs.Prelude.{◌≡◌, ◌≤◌, true, length, All, Ok};
ghost use Rattle.std.specs.List.{list_all};
ghost use Rattle.cove_model.specs.Grammar.{script_of};
ghost use Rattle.cove_model.specs.ScriptText.{script_text};
ghost use Rattle.cove_script.specs.MachineNumbers.{AreBytes, HasBytes, HasFittingNumbers, fits, line_numbers};

use cove_base::{Fill, Line, SCRIPT_LIMIT, Script, ScriptLine, call_fits};
use cove_text::numbers_fit;

/// What `print` writes is read back: the canonical text of a script is that script's, where it has at most
/// `SCRIPT_LIMIT` bytes.
pub fn script_is_read_back(script: &Script)
    ensures { length (script_text script.now) ≤ SCRIPT_LIMIT → script_of SCRIPT_LIMIT (script_text script.now) ≡ Ok script.now }
{
    bytes_fit(script.key.as_slice());
    fills_fit(script.fills.as_slice());
    lines_fit(script.lines.as_slice());
}

// Bytes are below 256.
fn bytes_fit(bytes: &[u8])
    ensures { AreBytes bytes.now }
{}

// So are those of fills.
fn fills_fit(fills: &[Fill])
    ensures { All HasBytes fills.now }
{
    for fill in fills {
        bytes_fit(fill.bytes.as_slice());
    }
}

// The numbers of lines are below 2 ^ 64.
fn lines_fit(lines: &[ScriptLine])
    ensures { All HasFittingNumbers lines.now }
{
    for script_line in lines {
        line_fits(&script_line.line);
    }
}

// So are those of a line.
fn line_fits(line: &Line)
    ensures { list_all fits (line_numbers line.now) ≡ true }
{
    match line {
        Line::Call(call) => call_fits(*call),
        Line::Load { addr } => numbers_fit(&[*addr]),
        Line::Store { addr, value } => numbers_fit(&[*addr, *value]),
    }
}
