//! Reading: from the bytes of a source to a script.

ghost use Rattle.std.specs.Prelude.{◌≡◌, ◌≢◌, IfOk, IsErrOf, Ok, Err};
ghost use Rattle.cove_io.specs.Ends.{Rose, TakesAtMost};
ghost use Rattle.cove_model.specs.Grammar.{script_of};
ghost use Rattle.cove_run.specs.TopCall.{Reads};

use cove_base::{Kind, SCRIPT_LIMIT, Script, ScriptFault};
use cove_io::{ReadError, Source, read_all};
use cove_script::{ParseError, parse};
use std::alloc::Global;

/// The fault of an input with more bytes than a script may have.
const TOO_LONG: ScriptFault = ScriptFault {
    line: 0,
    kind: Kind::TooLong,
};

/// Why no script was read.
pub(crate) enum Unread {
    Refused(ScriptFault),
    Fault,
    NoMemory,
}

// Reads a source to its end, or to one byte more than a script may have, for the script that it spells.
pub(crate) fn read_script<S: Source>(alloc: Global, source: &mut S) -> Result<Script, Unread>
    ensures script { IfOk result (λ script. Reads (S.left source.old) (S.left source.new) (Ok script)) }
    ensures refused { (fault : _) → IsErrOf result (Unread.Refused fault)
        → Reads (S.left source.old) (S.left source.new) (Err fault) }
    ensures fault { IsErrOf result Unread.Fault → Rose (S.count source.old) (S.count source.new) }
    ensures clean { ¬ IsErrOf result Unread.Fault → S.count source.new ≡ S.count source.old }
    ensures memory { IsErrOf result Unread.NoMemory → TakesAtMost SCRIPT_LIMIT (S.left source.old) (S.left source.new) }
{
    match read_all(alloc, source, SCRIPT_LIMIT) {
        Ok(text) => script_of_text(alloc, text.as_slice()),
        Err(ReadError::TooLong) => Err(Unread::Refused(TOO_LONG)),
        Err(ReadError::Failed) => Err(Unread::Fault),
        Err(ReadError::Memory) => Err(Unread::NoMemory),
    }
}

// The script of a text.
fn script_of_text(alloc: Global, text: &[u8]) -> Result<Script, Unread>
    ensures script { IfOk result (λ script. script_of SCRIPT_LIMIT text.now ≡ Ok script) }
    ensures refused { (fault : _) → IsErrOf result (Unread.Refused fault) → script_of SCRIPT_LIMIT text.now ≡ Err fault }
    ensures no_fault { result ≢ Err Unread.Fault }
{
    match parse(alloc, text) {
        Ok(script) => Ok(script),
        Err(ParseError::Refused(fault)) => Err(Unread::Refused(fault)),
        Err(ParseError::Memory) => Err(Unread::NoMemory),
    }
}
