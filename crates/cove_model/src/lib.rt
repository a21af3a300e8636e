#![tactic(auto)]
//! The one-thread monitor as definitions: owners, TVMs, states, a rule for each call of hosts and guests, vCPUs,
//! translations, legal histories, the history that a script plays, and the grammar of scripts. They stand in specs/;
//! this crate has their laws, each on a function with an empty body. A call that is not built yet is refused in every
//! state; the laws' proofs are over the rules of all of them.

mod examples;
mod guest_examples;
mod laws;
mod mode_examples;
mod promises;
mod rules;
mod script_examples;
mod script_laws;
mod standing;
mod table_examples;
mod worked_deeds;
mod worked_rows;

pub use examples::{
    worked_fills, worked_lines, worked_plays, worked_quiet, worked_refusals, worked_reports,
    worked_runs, worked_steps, worked_translations, worked_words,
};
pub use guest_examples::{
    worked_bound_files, worked_guest_outcomes, worked_guest_refusals, worked_guests,
};
pub use laws::{
    entries_of_others_leave_a_running_vcpu, harts_keep_fitting, harts_sit_on_vcpus_that_run,
    legal_histories_are_quiet, legal_histories_begin, offers_are_allowed, one_entry_later,
    others_untouched, played_histories_are_legal, private_pages_are_not_host_memory,
    records_are_sealed, rules_answer, states_are_orderly, states_are_sound, steps_are_determined,
    still_rounds_are_last, translations_are_usable, unbuilt_calls_are_refused,
    vcpus_are_bound_apart,
};
pub use mode_examples::{worked_levels, worked_modes};
pub use promises::{first_failing_checks_answer, host_reads_show_host_memory};
pub use rules::{alone_law, boundary_law, store_law, table_law};
pub use script_examples::{refused_lines, worked_scripts};
pub use script_laws::fronts_are_scripts;
pub use standing::{frames_law, lawful_law, telling_law, words_law};
pub use table_examples::worked_tables;
pub use worked_deeds::{
    worked_exits, worked_guest_calls, worked_instructions, worked_offers, worked_shares,
};
pub use worked_rows::{
    worked_bindings, worked_blockings, worked_conversions, worked_lives, worked_mappings,
    worked_run_calls,
};
