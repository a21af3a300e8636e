#![tactic(auto)]
//! Worked examples of the tables and regions of a TVM, which the checker computes: what the definitions in the contracts of
//! `cove_stage2` and `cove_region` say yes to, and what they say no to.
//!
//! Each clause is one example. It stands on the definitions of `cove_stage2` and `cove_region`, and nothing stands on it.

mod regions;
mod tables;

pub use regions::{worked_areas, worked_kinds, worked_rows, worked_standing};
pub use tables::{
    worked_changes, worked_clearing, worked_deep_mapping, worked_entries, worked_links,
    worked_mapping, worked_pools, worked_walks, worked_ways,
};
