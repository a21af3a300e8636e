#![tactic(auto)]
//! Owners of pages over the shared words: what each page's word says, and how it is changed.
//!
//! Each call that reads leaves the words. Each call that stores names the list of its stores in its contract,
//! needs that the words allow this list, and leaves the words that the list gives. It stands on `cove_base` alone.

mod owners;
mod states;

pub use owners::{all_free, all_host, any_mapped, set_all, set_state, state};
pub use states::{PageState, decode, encode, states_law};
