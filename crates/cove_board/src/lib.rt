#![tactic(auto)]
//! The shared words of a board, on which harts walk without a lock while others store. Proved, by the clauses of
//! [`Board`] and [`Held`]: one rule holds between any two atomic steps of any number of passes, a walk comes to what
//! one loaded word says, and a held pass is [`cove_base::Words`] that allow exactly the lawful stores. The rule stands in specs/Ruled.antt, on the
//! definitions of `cove_model`; the steps are those of the kit's `atomic_table`.

mod boards;
mod examples;
mod held;
mod passes;
mod views;

pub use boards::{Board, Boarded};
pub use examples::{worked_guards, worked_parts, worked_passes};
pub use held::Held;
pub use passes::{Pass, Passes};
pub use views::{BoardRule, View};
