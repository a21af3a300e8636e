#![tactic(auto)]
//! Evidence, both ways: the 360 bytes that tell a TVM's registers, with a nonce and an HMAC under the board's key.
//! Proved, by the clauses of [`make`], [`read`] and [`check`], against `evidence` of `cove_base/specs/Evidence`: what
//! is made is the definition's, exactly its form is read, and the mac that is found right is the definition's; by
//! [`evidence_is_read_back`], what was made is read as the same registers and nonce. It stands on `cove_base` and
//! `cove_measure`, and takes no memory.

mod evidence;
mod pieces;

pub use evidence::{
    Evidence, EvidenceFault, check, evidence_is_read_back, evidence_v1_is_read_back, make, make_v1,
    read,
};
