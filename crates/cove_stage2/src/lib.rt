#![tactic(auto)]
//! Second-stage tables over the shared words: three levels of pages that map the guest pages of a TVM to its leaves.
//!
//! Each call that reads leaves the words, and says what it reads by the definitions of cove_base: `find` gives the
//! leaf of a guest page, `walk` comes to the page of the same leaf and counts at most three loads, and `need` counts the
//! tables that a run of mappings lacks. `map`, `block`, `unblock` and `unmap` give the list of their stores, and change
//! one leaf and no other (`ChangesLeaf`, `NamesWay`, `KeepsLinks`); `clear` makes the table words of a page zeros. None
//! but `Pool::new` takes memory. By `table_stores_law` their stores are lawful. It stands on `Words` and the numbers of
//! `cove_base`, and for that law on the definitions of `cove_model`.

mod entries;
mod laws;
mod pools;
mod tables;

pub use entries::{Leaf, TableEntry, decode, decode_entry, encode};
pub use laws::table_stores_law;
pub use pools::Pool;
pub use tables::Tables;
