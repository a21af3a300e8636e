//! The monitor that threads share.

ghost use Rattle.std.specs.Prelude.{◌≡◌, ◌↔◌, ◌+◌, IsTrue};
ghost use Rattle.cove_base.specs.declared.walks.Target.{Target};
ghost use Rattle.cove_core.specs.Reached.{IsPrepared};
ghost use Rattle.cove_core.specs.Stepped.{IsLimit};
ghost use Rattle.cove_hart.specs.Needs.{next_need};
ghost use Rattle.cove_hart.specs.declared.needs.Need.TheVariants.{Walk};
ghost use Rattle.cove_monitor.specs.Events.{HasStepped, HasWalked};
ghost use Rattle.cove_monitor.specs.Seats.{IsKeeper, IsHartOf, part_of_seat};

use crate::harts::Hart;
use crate::rooms::Room;
use cove_base::{Script, Steps};
use cove_board::{Board, Pass};
use cove_core::{Mon, Stepped};
use std::marker::{Model, PhantomData};
use std::sync::ledger::Ledger;
use std::sync::{Mutex, Wait};

// The value behind the lock: the monitor, and its pass of the board.
#[derive(Drop)]
pub(crate) struct Kept<B: Room> {
    pub(crate) mon: Mon,
    pub(crate) pass: Option<Pass>,
    pub(crate) room: PhantomData<B>,
}

impl<B: Room> Model for Kept<B> {
    ghost use Rattle.std.specs.Prelude.{List};
    ghost use Rattle.cove_base.specs.declared.events.Entry.{Entry};
    ghost use Rattle.cove_monitor.specs.Seats.{HasKeeper};

    ghost Value = { List Entry };

    ghost view = { λ k. k.mon.history };

    ghost invariant = { λ k. HasKeeper B.table k.mon k.pass };
}

impl<B: Room> Kept<B> {
    // The monitor with its pass.
    pub(crate) fn new(mon: Mon, pass: Pass) -> Self
        requires { IsKeeper B.table mon pass }
        ensures { result ≡ mon.history }
    {
        Kept {
            mon,
            pass: Some(pass),
            room: PhantomData,
        }
    }

    // Makes the next event of a hart.
    pub(crate) fn event(&mut self, board: &Board, script: &Script, hart: &mut Hart) -> Stepped
        requires board { board.now.table ≡ B.table }
        requires script { board.now.script ≡ script.now }
        requires hart { IsHartOf B.table script.now hart.old }
        requires prepared { IsPrepared script.now hart.old.held }
        ensures hart { IsHartOf B.table script.now hart.new }
        ensures stepped { HasStepped script.now result hart.old.held hart.new.held (part_of_seat hart.old) (part_of_seat hart.new) }
        ensures full { IsTrue hart.new.full ↔ IsLimit result }
    {
        let Some(keeper) = self.pass.take() else {
            unreachable!()
        };
        let (stepped, keeper) = hart.event(&mut self.mon, board, script, keeper);
        self.pass = Some(keeper);
        stepped
    }
}

/// A monitor of one script, which the threads of its harts share: a board, and behind a lock the history and what it
/// leads to.
#[derive(Drop)]
pub struct Monitor<B: Room> {
    pub(crate) board: Board,
    pub(crate) kept: Mutex<Kept<B>>,
}

impl<B: Room> Model for Monitor<B> {
    ghost use Rattle.std.specs.Prelude.{◌≡◌};
    ghost use Rattle.cove_base.specs.Scripts.{ScriptValue};

    ghost Value = { ScriptValue };

    ghost view = { λ m. m.board.script };

    ghost invariant = { λ m. m.board.table ≡ B.table };
}

impl<B: Room> Monitor<B> {
    /// Makes the walk that a hart needs in a phase, by one load of the page's word. It takes no lock and does not wait.
    pub fn walk<L: Ledger>(
        &self,
        script: &Script,
        hart: &mut Hart,
        phase: u32,
        steps: &mut Steps<L>,
    )
        requires script { self.now ≡ script.now }
        requires hart { IsHartOf B.table script.now hart.old }
        requires needed { (target : Target) × (next_need script.now hart.old.held phase ≡ Walk target) }
        ensures hart { IsHartOf B.table script.now hart.new }
        ensures walked { HasWalked script.now phase hart.old.held hart.new.held (part_of_seat hart.old) (part_of_seat hart.new) }
        ensures full { hart.new.full ≡ hart.old.full }
        ensures steps { steps.new ≡ steps.old + 1 }
    {
        hart.walk(&self.board, script, phase, steps);
    }

    /// Makes the next event of a hart under the lock, for which it may wait: an entry, unless the history is full or
    /// another hart has a line of an earlier phase left. The hart has seen the history then.
    pub fn event<R: Wait>(&self, rt: &R, script: &Script, hart: &mut Hart) -> Stepped
        requires script { self.now ≡ script.now }
        requires hart { IsHartOf B.table script.now hart.old }
        requires prepared { IsPrepared script.now hart.old.held }
        ensures hart { IsHartOf B.table script.now hart.new }
        ensures stepped { HasStepped script.now result hart.old.held hart.new.held (part_of_seat hart.old) (part_of_seat hart.new) }
        ensures full { IsTrue hart.new.full ↔ IsLimit result }
    {
        let mut kept = self.kept.lock(rt);
        kept.event(&self.board, script, hart)
    }
}
