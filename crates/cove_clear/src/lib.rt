#![tactic(auto)]
//! The tables of a TVM that is being destroyed: cleared from the leaves up, over the shared words.
//!
//! `clear_tables` makes every word of the tables that a root leads to 0, each entry after what is under it, and gathers what an entry
//! named in the pool: so each page of the TVM's tables and of its memory is found again, once, and none while an entry names it.
//! A page of the host's counts a mapping less right after its leaf is gone. Each store is lawful where it is made, and no other
//! word changes (`proceeds`). It stands on `Words`, on the tables and the pool of `cove_stage2` and on the
//! definitions of `cove_model`, and knows no ground.

mod clearing;
mod examples;

pub use clearing::clear_tables;
pub use examples::{worked_being_cleared, worked_clearing, worked_gathering, worked_going};
