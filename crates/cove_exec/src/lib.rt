#![tactic(auto)]
//! What an instruction does: its plan by the registers and its place, the parts of memory words that loads and
//! stores speak of, and the end of an instruction.
//!
//! `plan_of` answers the meaning that cove_base's definitions give each instruction (`plan`). It needs what
//! `decode` promises of an instruction, and what it answers is what the other calls need.

mod memory;
mod numbers;
mod plans;

pub use cove_decode::decode;
pub use memory::{merge, pick};
pub use plans::{finish, plan_of};
