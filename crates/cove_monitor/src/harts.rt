//! A hart of a monitor.

ghost use Rattle.std.specs.Prelude.{◌≡◌, ◌↔◌, ◌+◌, IfOk, IsTrue, false, length};
ghost use Rattle.std.specs.Option.{option_map};
ghost use Rattle.cove_base.specs.HartLines.{next_line};
ghost use Rattle.cove_base.specs.declared.walks.Target.{Target};
ghost use Rattle.cove_board.specs.Passes.{AreDealt};
ghost use Rattle.cove_core.specs.Reached.{IsPrepared};
ghost use Rattle.cove_core.specs.Stepped.{IsLimit};
ghost use Rattle.cove_hart.specs.HartStates.{hart_value};
ghost use Rattle.cove_hart.specs.Needs.{next_need};
ghost use Rattle.cove_hart.specs.declared.needs.Need.TheVariants.{Event, Walk};
ghost use Rattle.cove_monitor.specs.Closing.{AreFitting, AreNewSeats, HasMet};
ghost use Rattle.cove_monitor.specs.Events.{HasStepped, HasWalked};
ghost use Rattle.cove_monitor.specs.Seats.{IsFull, IsKeeper, IsHartOf, IsSeat, part_of_seat};

use crate::closing::held_meeting;
use crate::events::held_event;
use crate::walks::held_walk;
use cove_base::{NoMemory, Script, Steps};
use cove_board::{Board, Pass, Passes};
use cove_core::{Mon, Stepped};
use cove_hart::{HartState, Need};
use std::alloc::Global;
use std::marker::Model;
use std::sync::ledger::Ledger;

/// A hart of a monitor, with its pass of the board. What it knows of itself fits the history that it saw last, whatever
/// entries other harts made since.
#[derive(Drop)]
pub struct Hart {
    state: HartState,
    pass: Option<Pass>,
    full: bool,
}

impl Model for Hart {
    ghost use Rattle.std.specs.Prelude.{◌≡◌, true};
    ghost use Rattle.cove_board.specs.Parts.{hart_of};
    ghost use Rattle.cove_hart.specs.HartStates.{hart_value};
    ghost use Rattle.cove_monitor.specs.Seats.{HasSeat, IsFull, SeatValue, pass_of};

    ghost Value = { SeatValue };

    ghost view = { λ h. record { held = hart_value h.state; pass = pass_of h.pass; full = h.full } };

    ghost invariant = { λ h. HasSeat (hart_value h.state) h.pass
        × (h.full ≡ true → IsFull (hart_value h.state) (hart_of (pass_of h.pass).part)) };
}

impl Hart {
    // A hart with its pass.
    fn new(state: HartState, pass: Pass) -> Self
        requires { IsSeat (hart_value state) pass }
        ensures { result ≡ record { held = hart_value state; pass = pass; full = false } }
    {
        Hart {
            state,
            pass: Some(pass),
            full: false,
        }
    }

    /// What the hart holds.
    pub fn state(&self) -> &HartState
        ensures state { hart_value result.now ≡ self.now.held }
        ensures seat { IsSeat self.now.held self.now.pass }
    {
        &self.state
    }

    /// What the hart needs next, while lines up to a phase may be made.
    pub fn next(&self, script: &Script, phase: u32) -> Need
        requires { (part_of_seat self.now).script ≡ script.now }
        ensures need { result ≡ next_need script.now self.now.held phase }
        ensures prepared { result ≡ Event → IsPrepared script.now self.now.held }
    {
        self.state.next(script, phase)
    }

    /// The phase of the hart's next line, where one is left.
    pub fn phase(&self, script: &Script) -> Option<u32>
        requires { (part_of_seat self.now).script ≡ script.now }
        ensures { result ≡ option_map (λ line. line.phase) (next_line script.now self.now.held.hart self.now.held.ended) }
    {
        self.state.phase(script)
    }

    /// Whether the hart came to a full history at its last event, with a line left.
    pub fn is_full(&self) -> bool
        ensures full { result ≡ self.now.full }
        ensures limit { IsTrue result → IsFull self.now.held (part_of_seat self.now) }
    {
        self.full
    }

    // Makes the walk that the hart needs.
    pub(crate) fn walk<L: Ledger>(
        &mut self,
        board: &Board,
        script: &Script,
        phase: u32,
        steps: &mut Steps<L>,
    )
        requires script { board.now.script ≡ script.now }
        requires hart { IsHartOf board.now.table script.now self.old }
        requires needed { (target : Target) × (next_need script.now self.old.held phase ≡ Walk target) }
        ensures hart { IsHartOf board.now.table script.now self.new }
        ensures walked { HasWalked script.now phase self.old.held self.new.held (part_of_seat self.old) (part_of_seat self.new) }
        ensures full { self.new.full ≡ self.old.full }
        ensures steps { steps.new ≡ steps.old + 1 }
    {
        let Some(mut pass) = self.pass.take() else {
            unreachable!()
        };
        held_walk(board, script, &mut self.state, &mut pass, phase, steps);
        self.pass = Some(pass);
    }

    // Makes the hart's next event, with the monitor and its pass.
    pub(crate) fn event(
        &mut self,
        mon: &mut Mon,
        board: &Board,
        script: &Script,
        keeper: Pass,
    ) -> (Stepped, Pass)
        requires script { board.now.script ≡ script.now }
        requires hart { IsHartOf board.now.table script.now self.old }
        requires keeper { IsKeeper board.now.table mon.old keeper }
        requires prepared { IsPrepared script.now self.old.held }
        ensures hart { IsHartOf board.now.table script.now self.new }
        ensures keeper { IsKeeper board.now.table mon.new result.1 }
        ensures stepped { HasStepped script.now result.0 self.old.held self.new.held (part_of_seat self.old) (part_of_seat self.new) }
        ensures full { IsTrue self.new.full ↔ IsLimit result.0 }
    {
        let Some(pass) = self.pass.take() else {
            unreachable!()
        };
        let (stepped, pass, keeper) = held_event(mon, board, script, &mut self.state, pass, keeper);
        self.pass = Some(pass);
        self.full = matches!(stepped, Stepped::Limit);
        (stepped, keeper)
    }

    // Meets the hart, with the monitor's pass, as the monitor ends.
    pub(crate) fn meet(self, board: &Board, mon: &Mon, keeper: Pass) -> Pass
        requires hart { IsHartOf board.now.table board.now.script self }
        requires keeper { IsKeeper board.now.table mon.now keeper }
        ensures same { result ≡ keeper }
        ensures met { HasMet board.now.script mon.now.history self.held (part_of_seat self) }
    {
        let Hart {
            state,
            pass,
            full: _,
        } = self;
        let Some(pass) = pass else { unreachable!() };
        held_meeting(board, mon, &state, pass, keeper)
    }
}

// The harts of a board with their passes, in order.
pub(crate) fn seat_all(
    alloc: Global,
    script: &Script,
    board: &Board,
    mut states: Vec<HartState>,
    mut passes: Passes,
) -> Result<Vec<Hart>, NoMemory>
    requires states { AreFitting script.now (length passes) states.items }
    requires passes { AreDealt script.now board.now.table (length passes) passes }
    requires harts { length passes ≡ script.now.harts }
    ensures { IfOk result (λ harts. AreNewSeats board.now.table script.now harts.items) }
{
    let mut harts = Vec::new(alloc);
    while let Some(state) = states.pop() {
        let Some(pass) = passes.pop() else {
            unreachable!()
        };
        harts.insert(0, Hart::new(state, pass))?;
    }
    Ok(harts)
}
