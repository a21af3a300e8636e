ghost use Rattle.std.specs.Prelude.{◌≡◌};
ghost use Rattle.cove_script.specs.declared.faults.LineFault.TheVariants.{Memory};
ghost use Rattle.cove_script.specs.declared.faults.ParseError.TheVariants as errors;

use cove_base::{Kind, NoMemory, ScriptFault};
use std::alloc::{AllocError, AllocFailed};
use thiserror::Error;

/// Why a text gives no script.
#[derive(Clone, Copy, Debug, Error)]
pub enum ParseError {
    /// It has a fault.
    #[error("line {line}: {kind:?}", line = .0.line, kind = .0.kind)]
    Refused(ScriptFault),
    /// Memory ran out.
    #[error("out of memory")]
    Memory,
}

impl From<NoMemory> for ParseError {
    ghost from_gives = { λ _ e. e ≡ errors.Memory };

    fn from(_error: NoMemory) -> ParseError {
        ParseError::Memory
    }
}

/// Why a line is not read.
#[derive(Clone, Copy)]
pub enum LineFault {
    Refused(Kind),
    Memory,
}

impl From<AllocError> for LineFault {
    ghost from_gives = { λ _ e. e ≡ Memory };

    fn from(_error: AllocError) -> LineFault {
        LineFault::Memory
    }
}

impl<T: Drop> From<AllocFailed<T>> for LineFault {
    ghost from_gives = { λ _ e. e ≡ Memory };

    fn from(_error: AllocFailed<T>) -> LineFault {
        LineFault::Memory
    }
}

impl From<NoMemory> for LineFault {
    ghost from_gives = { λ _ e. e ≡ Memory };

    fn from(_error: NoMemory) -> LineFault {
        LineFault::Memory
    }
}
