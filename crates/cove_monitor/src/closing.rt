//! The end of a monitor.

ghost use Rattle.std.specs.Prelude.{◌≡◌};
ghost use Rattle.cove_board.specs.Parts.{hart_of};
ghost use Rattle.cove_board.specs.Passes.{IsHartPass};
ghost use Rattle.cove_hart.specs.HartStates.{hart_value};
ghost use Rattle.cove_monitor.specs.Closing.{AreSeats, HasMet, HaveMet, IsHistoryOf};
ghost use Rattle.cove_monitor.specs.Seats.{IsKeeper, IsHartOf, IsSeat, part_of_seat};

use crate::harts::Hart;
use crate::monitors::{Kept, Monitor};
use crate::rooms::Room;
use cove_base::History;
use cove_board::{Board, Pass};
use cove_core::Mon;
use cove_hart::HartState;
use std::marker::Model;

/// The history of a monitor that was closed. Only [`Monitor::close`] makes one.
#[derive(Drop)]
pub struct Closed {
    history: History,
}

impl Model for Closed {
    ghost use Rattle.std.specs.Prelude.{List};
    ghost use Rattle.cove_base.specs.declared.events.Entry.{Entry};

    ghost Value = { List Entry };

    ghost view = { λ c. c.history };
}

impl Closed {
    /// The history.
    pub fn history(&self) -> &History
        ensures { result.now ≡ self.now }
    {
        &self.history
    }
}

impl<B: Room> Monitor<B> {
    /// Ends the monitor, and meets each of its harts. Its history is one of its script, in which the entries of each hart
    /// are those that the hart made.
    pub fn close(self, harts: Vec<Hart>) -> Closed
        requires { AreSeats B.table self harts.items }
        ensures right { IsHistoryOf self result }
        ensures met { HaveMet self result harts.items }
    {
        let Monitor { board, kept } = self;
        let Kept { mon, pass, room: _ } = kept.into_inner();
        let Some(keeper) = pass else { unreachable!() };
        let keeper = meet_all(&board, &mon, harts, keeper);
        board.close(keeper);
        Closed {
            history: mon.history,
        }
    }
}

// Meets each hart.
fn meet_all(board: &Board, mon: &Mon, mut harts: Vec<Hart>, keeper: Pass) -> Pass
    requires keeper { IsKeeper board.now.table mon.now keeper }
    requires harts { AreSeats board.now.table board.now.script harts.items }
    ensures same { result ≡ keeper }
    ensures met { HaveMet board.now.script mon.now.history harts.items }
{
    let mut keeper = keeper;
    while let Some(hart) = harts.pop() {
        keeper = hart.meet(board, mon, keeper);
    }
    keeper
}

// Meets a hart, whose pass is joined with the monitor's for it.
pub(crate) fn held_meeting(
    board: &Board,
    mon: &Mon,
    state: &HartState,
    hart: Pass,
    keeper: Pass,
) -> Pass
    requires hart { IsHartPass board.now hart }
    requires seat { IsSeat (hart_value state.now) hart }
    requires keeper { IsKeeper board.now.table mon.now keeper }
    ensures same { result ≡ keeper }
    ensures met { HasMet board.now.script mon.now.history (hart_value state.now) (hart_of hart.part) }
{
    let held = board.hold(hart, keeper);
    let (_hart, keeper) = held.release();
    keeper
}
