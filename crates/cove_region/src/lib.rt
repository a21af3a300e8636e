#![tactic(auto)]
//! The guest pages of a TVM: in its regions they are private or shared, elsewhere there are none. Proved, by the
//! clauses of [`Regions`]: what each guest page is after a call, in sets of guest pages; each refusal exactly, in its
//! order, and that a refusal changes nothing. By [`standing_law`] all that agrees with the model where the regions and
//! rows stand for its TVM. It stands on `cove_base`, for numbers and limits, on the definitions of `cove_model`, for that
//! law, and on the kit's `arrayvec`; it takes no memory.

mod areas;
mod kinds;
mod laws;
mod regions;
mod rows;

pub use areas::Area;
pub use kinds::AreaKind;
pub use laws::standing_law;
pub use regions::{RegionFault, Regions, regions_law};
