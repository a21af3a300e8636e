#![tactic(auto)]
//! The journal both ways: the line of an entry, the entry of a line, and the last line. A line is
//! `cove_model/specs`' `entry_line`; `line` writes it (`text`), and `parse_line` accepts exactly the lines of entries
//! that have one (`lines`), and finds every such entry (`finds`). `journals_are_read_back` says that a whole journal
//! reads as the history that it was printed of. Nothing here takes memory.

mod journals;
mod parsing;
mod reading;
mod writing;

pub use journals::journals_are_read_back;
pub use parsing::parse_line;
pub use writing::{last_line, line};
