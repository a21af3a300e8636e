#![tactic(auto)]
//! One hart beside the monitor: where it stands in its script, the ring of its TLB, and a walk that it has not used
//! yet. Proved, by the clauses of [`HartState`]: `next` answers what the definition says that the hart needs, in
//! constant time, and `note` keeps a walk and puts a page that it found into the ring. It stands on `cove_base`,
//! which has the definitions of a hart's lines, its place and its ring, and on the rings of `cove_tlb`.

mod needs;
mod states;

pub use needs::Need;
pub use states::{HartState, next_place};
