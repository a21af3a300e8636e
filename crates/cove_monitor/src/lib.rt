#![tactic(auto)]
//! The monitor on threads: a hart walks the board with no lock, and makes its entries under the monitor's, while others
//! walk. Proved, by the clauses of [`Monitor`]: a walk comes to what one loaded word of the page that the hart needs
//! says; an event makes one entry of the hart, or says why none; and the history at the end is one of the script, in which the entries
//! of each hart are those that it made. What a [`Hart`] keeps stands in specs/Seats.antt, what its walks and events leave
//! in specs/Events.antt. It stands on the passes of `cove_board` and on the entries of `cove_core`.

mod closing;
mod events;
mod harts;
mod laws;
mod limits;
mod monitors;
mod opened;
mod rooms;
mod walks;

pub use closing::Closed;
pub use harts::Hart;
pub use laws::{
    entries_of_harts, events_of_harts, histories_of_scripts, looks_of_harts, meetings_of_harts,
    walks_of_harts, worked_misses, worked_seats,
};
pub use monitors::Monitor;
pub use opened::{Opened, Started};
pub use rooms::Room;
