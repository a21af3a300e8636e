#![tactic(auto)]
//! Worked examples of what words and ground stand for, and of what calls leave and promise: small boards, states and TVMs by
//! number, which the checker computes. No crate stands on this one; it says of the definitions of `cove_tvm` that they mean
//! what their names say.

mod build_examples;
mod call_examples;
mod examples;
mod life_examples;
mod run_examples;
mod state_examples;

pub use build_examples::{
    worked_beginning, worked_destroying, worked_giving, worked_growing, worked_starting,
};
pub use call_examples::{
    worked_accepting, worked_bounds, worked_meeting, worked_readiness, worked_refusing,
    worked_serving,
};
pub use examples::{
    worked_adding, worked_changes, worked_creation, worked_harts, worked_keeping, worked_leaves,
    worked_leaving, worked_numbers, worked_others, worked_standing, worked_storing,
};
pub use life_examples::{worked_gifts, worked_growth, worked_life};
pub use run_examples::{
    worked_filling, worked_mapping, worked_mappings, worked_next_mapping, worked_pools,
    worked_raising, worked_runs_to_map,
};
pub use state_examples::{
    worked_binding, worked_blocking, worked_living, worked_running, worked_vcpus,
};
