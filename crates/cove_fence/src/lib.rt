#![tactic(auto)]
//! Fences over the shared words: the global epoch, and the number that each hart has answered; the number of each TVM,
//! and the one that each hart inside entered with.
//!
//! Each call that reads leaves the words. Each call that stores names the list of its stores in its contract,
//! needs that the words allow this list, and leaves the words that the list gives. It stands on `cove_base` alone.

mod epochs;
mod examples;
mod tvm_epochs;

pub use epochs::Epochs;
pub use examples::{worked_seats, worked_tvm_fences};
pub use tvm_epochs::{TvmEpochs, tvm_places_law};
