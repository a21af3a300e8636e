#![tactic(auto)]
//! The outside as the monitor sees it: a source of bytes and a sink for them, each with a count of its faults.
//! Proved for every source and sink, by the clauses of [`read_all`] and [`write_all`]: a fault is reported only
//! where that count rose in the call, reading to the end gives what was left, and after a failed write the sink
//! took a front of the piece. It stands on `cove_base` and on std's readers and writers, and the few lines of
//! [`ReadSource`] and [`WriteSink`] are trusted to name what really happened there.

mod ends;
mod laws;
mod memory;
mod outside;
mod whole;

pub use ends::{Failed, Sink, Source};
pub use laws::worked_ends;
pub use memory::{MemSink, MemSource, NullSink, SureSource};
pub use outside::{ReadSource, WriteSink};
pub use whole::{ReadError, read_all, write_all};
