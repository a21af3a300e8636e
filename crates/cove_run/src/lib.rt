#![tactic(auto)]
//! The top calls of the program. `tsm_alone` reads a script, runs it by turns and prints its journal; `tsm_threads` runs
//! each hart on a thread of its own. Their clauses `done` and `limit` are the headline: the printed journal is that of one
//! legal history of the script, in which no page changes hands while a translation of a hart names it. Their other clauses
//! say what each other status means. `printed_journals_are_read_back` says that a printed journal reads as its history.
//! The crate stands on `cove_model`, which has the definitions, on `cove_script` and `cove_journal`, which read the script
//! and write its lines, on `cove_core` and `cove_monitor`, which run it by turns and on threads, and on `cove_io`.

mod endings;
mod gates;
mod journals;
mod laws;
mod printing;
mod reading;
mod statuses;
mod threads;
mod top;
mod workers;

pub use gates::{Gate, Place};
pub use journals::printed_journals_are_read_back;
pub use laws::{worked_commands, worked_endings, worked_journals, worked_texts, worked_threads};
pub use threads::{says_run, tsm_threads};
pub use top::{USAGE, tsm_alone};
