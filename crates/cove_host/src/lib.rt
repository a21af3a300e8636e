#![tactic(auto)]
//! The host's calls on owners and on TVMs, over shared words and ground. Each is a public function that reads as its rule: the
//! checks in their order, then the stores. [`Covh`] answers every call by these functions.
//!
//! Whatever state words and ground stand for, a call is answered as the definition's rule says in that state, its first check
//! that fails first, and they stand for the state after it; its stores are lawful, and a refused call changes nothing: the
//! clause `called` of each call. It stands on the relation and the laws of `cove_tvm`.

mod checks;
mod counts;
mod covh;
mod creation;
mod destruction;
mod fences;
mod finalization;
mod frames;
mod guest_pages;
mod info;
mod lives;
mod mapping;
mod measured_pages;
mod owners;
mod pages;
mod regions;
mod releasing;
mod runs;
mod shared_pages;
mod table_pages;
mod vcpu_creation;
mod zero_pages;

pub use covh::Covh;
pub use creation::create_tvm;
pub use destruction::destroy_tvm;
pub use fences::{global_fence, local_fence};
pub use finalization::finalize_tvm;
pub use info::get_tsm_info;
pub use measured_pages::add_measured_pages;
pub use owners::{convert_pages, reclaim_pages};
pub use regions::add_memory_region;
pub use shared_pages::add_shared_pages;
pub use table_pages::add_page_table_pages;
pub use vcpu_creation::create_vcpu;
pub use zero_pages::add_zero_pages;
