#![tactic(auto)]
//! Interrupt files after the RISC-V Advanced Interrupt Architecture: one file, and those of a board. Proved, by the
//! clauses of [`FileState`] and [`Files`]: the bit masks of the code are the two sets of identities of
//! `cove_base/specs/InterruptFiles`, and each call means what is said there of the sets. It stands on `cove_base`.

mod file_state;
mod files;

pub use file_state::FileState;
pub use files::Files;
