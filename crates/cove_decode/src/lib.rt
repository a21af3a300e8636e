#![tactic(auto)]
//! The decoder of guests' instructions: RV64I, Zicsr and WFI.
//!
//! `decode` answers the instruction that the table of the ISA manual names for a word (`decoded`), and None
//! exactly for every other word. It stands on the words of cove_base alone.

mod decoder;
mod fields;

pub use decoder::decode;
