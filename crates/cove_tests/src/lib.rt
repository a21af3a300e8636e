#![tactic(auto)]
//! The tests: of each crate, what none of its clauses says. Values come from standards and worked texts. They stand in a crate
//! of their own, since a crate with tests is proved twice.

#[cfg(test)]
mod base_tests;
#[cfg(test)]
mod evidence_tests;
#[cfg(test)]
mod exec_tests;
#[cfg(test)]
mod fence_tests;
#[cfg(test)]
mod imsic_tests;
#[cfg(test)]
mod io_tests;
#[cfg(test)]
mod journal_tests;
#[cfg(test)]
mod measure_tests;
#[cfg(test)]
mod mem_tests;
#[cfg(test)]
mod owner_tests;
#[cfg(test)]
mod region_tests;
#[cfg(test)]
mod run_tests;
#[cfg(test)]
mod script_tests;
#[cfg(test)]
mod stage2_tests;
#[cfg(test)]
mod text_tests;
#[cfg(test)]
mod tlb_tests;
