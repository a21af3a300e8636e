#![tactic(auto)]
//! The monitor's core over the shared words: each call of the host, and each entry of a hart, as the definitions say.
//!
//! A call is generic over the words, and needs of them one thing: that they allow every lawful store. Whatever
//! state words and ground stood for, the answer is that state's, and they stand for the state after it. The one
//! theorem is the contract of [`event_step`]: it keeps a history legal and cached, its words, ground and progress
//! standing for the state after it, and every hart fitting it. Its words are in specs/Kept, specs/Made and
//! specs/Stepped. [`kept_law`] says that every host page which a hart names then is one that the words let it use.
//! [`play`] takes the turns of a script over words of one owner, and its history is the one that the script plays.
//! It stands on the laws of `cove_model` and `cove_tvm`, on the calls of `cove_host`, and on the frames and rings below it.

mod accesses;
mod builds;
mod calls;
mod examples;
mod fills;
mod laws;
mod monitors;
mod plays;
mod rules;
mod seats;
mod steps;
mod walks;

pub use builds::build;
pub use calls::call;
pub use examples::{worked_accesses, worked_endings, worked_turns};
pub use laws::{entries_that_are_made, histories_that_are_kept};
pub use monitors::{Mon, Progress};
pub use plays::{Built, play};
pub use rules::kept_law;
pub use seats::Harts;
pub use steps::{Stepped, event_step};
pub use walks::walk_step;
