#![tactic(auto)]
//! What a monitor has beside the shared words, and which state of the one-thread monitor it stands for.
//!
//! [`Tvms`] is every TVM that was created, by its number; all room is taken at the start. The main definition of this crate
//! is `Stands` (specs/Stands): words and ground stand for a state, said by index for each page, each guest page, each slot of
//! a TVM's tables and each vCPU. [`opening_law`] says that it holds at the start, and [`frame_law`] what leaves it. What a
//! call of the host needs and promises over that relation is said here too (specs/Called), and [`HostSide`] is
//! the trait of what answers calls. It stands on the definitions of `cove_model`, on the tables over words of `cove_stage2`,
//! and on regions, registers and interrupt files.

mod destroy_laws;
mod ground;
mod host_side;
mod laws;
mod machines;
mod pool_laws;
mod run_laws;
mod table_laws;
mod tvms;
mod vcpu_laws;
mod vcpus;

pub use destroy_laws::destroy_law;
pub use ground::Ground;
pub use host_side::HostSide;
pub use laws::{building_law, creation_law, frame_law, opening_law};
pub use machines::{Life, Tvm};
pub use pool_laws::tables_law;
pub use run_laws::run_law;
pub use table_laws::missing_law;
pub use tvms::Tvms;
pub use vcpu_laws::vcpu_law;
pub use vcpus::{Bound, RunState, VcpuSlot};
