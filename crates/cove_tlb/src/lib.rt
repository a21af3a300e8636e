#![tactic(auto)]
//! The rings of a hart's TLB, each of up to four pages that are found by a key. Proved, by the clauses of [`Ring`]:
//! contracts see a ring as the list of its pairs, oldest first, and a fill puts its pair last and gives up the oldest
//! pair of a full ring; [`Rings`] has one for each kind of target. It stands on `cove_base`, whose definitions say what is found and what a fill leaves, and on the
//! kit's `circular_buffer`.

mod ring;
mod rings;

pub use ring::{RING_ROOM, Ring};
pub use rings::Rings;
