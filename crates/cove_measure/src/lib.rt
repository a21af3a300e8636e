#![tactic(auto)]
//! The measurement of a TVM: its five registers, and HMAC over SHA-384. Proved, by the clauses of [`Registers`] and
//! [`hmac384`]: after any list of extensions each register is the fold of what extended it (`registers_of` of
//! `cove_base/specs/Measurement`), and the HMAC is that of FIPS 198-1 for keys of every length
//! (`cove_base/specs/Hmac`). It stands on `cove_base` and on the kit's `sha2`, and takes no memory.

mod hmac;
mod registers;

pub use hmac::hmac384;
pub use registers::Registers;
