//! An event of a hart, under the monitor's lock.

ghost use Rattle.std.specs.Prelude.{◌≡◌};
ghost use Rattle.cove_board.specs.Parts.{hart_of};
ghost use Rattle.cove_board.specs.Passes.{IsHartPass};
ghost use Rattle.cove_core.specs.Reached.{IsPrepared};
ghost use Rattle.cove_hart.specs.HartStates.{hart_value};
ghost use Rattle.cove_monitor.specs.Events.{HasStepped};
ghost use Rattle.cove_monitor.specs.Seats.{IsKeeper, IsSeat};

use cove_base::Script;
use cove_board::{Board, Pass};
use cove_core::{Mon, Stepped, event_step};
use cove_hart::HartState;

/// Makes the next event of a hart, whose pass is joined with the monitor's for it.
pub(crate) fn held_event(
    mon: &mut Mon,
    board: &Board,
    script: &Script,
    state: &mut HartState,
    hart: Pass,
    keeper: Pass,
) -> (Stepped, Pass, Pass)
    requires script { board.now.script ≡ script.now }
    requires hart { IsHartPass board.now hart }
    requires seat { IsSeat (hart_value state.old) hart }
    requires keeper { IsKeeper board.now.table mon.old keeper }
    requires prepared { IsPrepared script.now (hart_value state.old) }
    ensures hart { IsHartPass board.now result.1 }
    ensures seat { IsSeat (hart_value state.new) result.1 }
    ensures keeper { IsKeeper board.now.table mon.new result.2 }
    ensures stepped { HasStepped script.now result.0 (hart_value state.old) (hart_value state.new) (hart_of hart.part) (hart_of result.1.part) }
{
    let mut held = board.hold(hart, keeper);
    let stepped = event_step(&mut held, mon, script, state);
    let (hart, keeper) = held.release();
    (stepped, hart, keeper)
}
