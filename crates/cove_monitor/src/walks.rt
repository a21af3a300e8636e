//! A walk of a hart, without the lock.

ghost use Rattle.std.specs.Prelude.{◌≡◌, ◌+◌};
ghost use Rattle.cove_base.specs.declared.walks.Target.{Target};
ghost use Rattle.cove_board.specs.Parts.{hart_of};
ghost use Rattle.cove_board.specs.Passes.{IsHartPass};
ghost use Rattle.cove_hart.specs.HartStates.{hart_value};
ghost use Rattle.cove_hart.specs.Needs.{next_need};
ghost use Rattle.cove_hart.specs.declared.needs.Need.TheVariants.{Walk};
ghost use Rattle.cove_monitor.specs.Events.{HasWalked};
ghost use Rattle.cove_monitor.specs.Seats.{IsSeat};

use crate::limits::within_limits;
use cove_base::{Script, Steps, Target};
use cove_board::{Board, Pass};
use cove_hart::{HartState, Need};
use std::sync::ledger::Ledger;

/// Makes the walk that a hart needs, by one load, and notes it in the hart and in its pass.
pub(crate) fn held_walk<L: Ledger>(
    board: &Board,
    script: &Script,
    state: &mut HartState,
    pass: &mut Pass,
    phase: u32,
    steps: &mut Steps<L>,
)
    requires script { board.now.script ≡ script.now }
    requires pass { IsHartPass board.now pass.old }
    requires seat { IsSeat (hart_value state.old) pass.old }
    requires needed { (target : Target) × (next_need script.now (hart_value state.old) phase ≡ Walk target) }
    ensures pass { IsHartPass board.now pass.new }
    ensures seat { IsSeat (hart_value state.new) pass.new }
    ensures walked { HasWalked script.now phase (hart_value state.old) (hart_value state.new) (hart_of pass.old.part) (hart_of pass.new.part) }
    ensures steps { steps.new ≡ steps.old + 1 }
{
    within_limits(script);
    match state.next(script, phase) {
        Need::Walk(Target::Host(page)) => {
            let walked = board.walk_host(pass, page, steps);
            state.note(Target::Host(page), walked);
        }
        Need::Walk(Target::Fetch(_) | Target::Access(_)) | Need::Event | Need::Idle => {
            unreachable!()
        }
    }
}
