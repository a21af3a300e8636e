#![tactic(auto)]
//! Scripts from text, and text from scripts.
//!
//! `parse` and `parse_front` answer exactly as the grammar in `cove_model/specs/Grammar.antt` says: the script,
//! or the first faulty line with the first kind of fault that applies to it, unless memory runs out. `print`
//! gives the canonical text of `cove_model/specs/ScriptText.antt`, and that text is read back as the script:
//! `script_is_read_back`. The lines, words and numbers are those of `cove_text`.

mod faults;
mod forms;
mod lines;
mod parsing;
mod printing;
mod read_back;
mod readings;
mod words;

pub use cove_base::{Kind, ScriptFault};
pub use faults::ParseError;
pub use parsing::{Front, parse, parse_front};
pub use printing::print;
pub use read_back::script_is_read_back;
