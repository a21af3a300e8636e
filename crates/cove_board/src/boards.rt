//! The board and the calls on it.

ghost use Rattle.std.specs.Prelude.{ℕ, ◌≡◌, ◌+◌, ◌<◌, [], IfOk, None, OnOk, false, replicate, true};
ghost use Rattle.cove_base.specs.HostWalks.{walked_to};
ghost use Rattle.cove_board.specs.Parts.{both, dealt_monitor, dealt_part, hart_alone, hart_of, loaded_part, monitor_alone, monitor_of, new_part, walked_part};
ghost use Rattle.cove_base.specs.Places.{all_words};
ghost use Rattle.cove_board.specs.Passes.{AreDealt, IsHartPass, IsMonitorPass};
ghost use Rattle.cove_board.specs.Ruled.{IsMonitor, IsPart};

use crate::held::Held;
use crate::passes::{Pass, Passes};
use crate::views::{BoardRule, Both, Deals, Knows, View, Walks};
use atomic_table::Table;
use cove_base::{Entry, NoMemory, Page, Plain, Script, Steps, Walked, page_word, walked_to};
use std::alloc::Global;
use std::marker::Model;
use std::sync::ledger::Ledger;

/// The shared words of a script's board, under the rule.
#[derive(Drop)]
pub struct Board {
    pub(crate) table: Table<Entry, View, Script, BoardRule, Global>,
}

impl Model for Board {
    ghost use Rattle.std.specs.Prelude.{◌≡◌};
    ghost use Rattle.cove_base.specs.Places.{all_words};
    ghost use Rattle.cove_board.specs.Passes.{BoardValue};

    ghost Value = { BoardValue };

    ghost view = { λ b. record { table = b.table.shared.table_id; script = b.table.shared.key } };

    ghost invariant = { λ b. (b.table.shared.table_id.slots ≡ 0)
        × (b.table.shared.table_id.words ≡ all_words b.table.shared.key.pages b.table.shared.key.harts) };
}

/// A new board, a pass for each of its harts, and the pass of the monitor.
#[derive(Drop)]
pub struct Boarded {
    pub board: Board,
    pub passes: Passes,
    pub monitor: Pass,
}

impl Board {
    /// The board of a script, all of whose words are 0.
    pub fn new(alloc: Global, script: &Script, words: Plain) -> Result<Boarded, NoMemory>
        requires { words ≡ replicate (all_words script.now.pages script.now.harts) 0 }
        ensures board { IfOk result (λ made. made.board.script ≡ script.now) }
        ensures passes { IfOk result (λ made. AreDealt script.now made.board.table script.now.harts made.passes) }
        ensures monitor { IfOk result (λ made. made.monitor
            ≡ record { table = made.board.table; part = monitor_alone (dealt_part script.now script.now.harts) }) }
    {
        let harts = script.harts;
        let (table, seat) = Table::of_words(alloc, words.as_slice(), script)?;
        let board = Board { table };
        let mut monitor = Pass { seat };
        let passes = board.deal_all(alloc, harts, &mut monitor)?;
        Ok(Boarded {
            board,
            passes,
            monitor,
        })
    }

    // A pass for each hart.
    fn deal_all(&self, alloc: Global, harts: u8, monitor: &mut Pass) -> Result<Passes, NoMemory>
        requires monitor { monitor.old ≡ record { table = self.now.table; part = monitor_alone (dealt_part self.now.script 0) } }
        requires harts { harts ≡ self.now.script.harts }
        ensures passes { IfOk result (λ passes. AreDealt self.now.script self.now.table harts passes) }
        ensures monitor { OnOk result (monitor.new
            ≡ record { table = self.now.table; part = monitor_alone (dealt_part self.now.script harts) }) }
    {
        let mut passes = Passes::new(alloc);
        for _k in 0..harts {
            passes.push(self.deal(monitor))?;
        }
        Ok(passes)
    }

    // The pass of the next hart.
    fn deal(&self, monitor: &mut Pass) -> Pass
        requires monitor { IsMonitorPass self.now monitor.old }
        requires opening { (monitor_of monitor.old.part).history ≡ [] }
        requires clean { (monitor_of monitor.old.part).clean ≡ true }
        requires left { (monitor_of monitor.old.part).dealt < self.now.script.harts }
        ensures monitor { monitor.new ≡ record monitor.old { part = monitor_alone (dealt_monitor (monitor_of monitor.old.part)) } }
        ensures pass { result ≡ record {
          table = monitor.old.table;
          part =
              hart_alone (new_part (monitor_of monitor.old.part).script (monitor_of monitor.old.part).dealt);
        } }
    {
        let Pass { seat } = monitor;
        let new = self.table.shared.split_seat::<Deals>(seat);
        Pass { seat: new }
    }

    /// Walks to a host page, by one load of its word. It takes no lock and no memory, and does not wait.
    pub fn walk_host<L: Ledger>(&self, pass: &mut Pass, page: Page, steps: &mut Steps<L>) -> Walked
        requires pass { IsHartPass self.now pass.old }
        requires unused { (hart_of pass.old.part).walked ≡ None }
        requires page { page.0 < self.now.script.pages }
        ensures walked { (word : ℕ) × (result ≡ walked_to page word)
            × (pass.new ≡ record pass.old { part = hart_alone (walked_part page word (hart_of pass.old.part)) }) }
        ensures steps { steps.new ≡ steps.old + 1 }
    {
        steps.tick();
        let place = page_word(page) as usize;
        let Pass { seat } = pass;
        let word = self.table.shared.load::<Walks>(seat, place);
        walked_to(page, word)
    }

    /// Joins the pass of a hart and the monitor's: the hart may store then. Others go on walking.
    pub fn hold(&self, hart: Pass, monitor: Pass) -> Held<'_>
        requires hart { IsHartPass self.now hart }
        requires unmarked { (hart_of hart.part).mark ≡ false }
        requires monitor { IsMonitorPass self.now monitor }
        requires clean { (monitor_of monitor.part).clean ≡ true }
        ensures table { result.table ≡ self.now.table }
        ensures parts { (word : ℕ) × (result.part ≡ both (monitor_of monitor.part) (loaded_part 0 word (hart_of hart.part))) }
        ensures known { IsMonitor self.now.script (monitor_of monitor.part) }
        ensures right { IsPart self.now.script (monitor_of monitor.part).history (monitor_of monitor.part).now (hart_of hart.part) }
    {
        let Pass { mut seat } = hart;
        let Pass { seat: other } = monitor;
        self.table.shared.join_seat::<Both>(&mut seat, other);
        self.table.shared.load::<Knows>(&mut seat, 0);
        Held { board: self, seat }
    }

    /// Ends the board. The monitor's part was right to the last.
    pub fn close(self, monitor: Pass)
        requires { IsMonitorPass self monitor }
        ensures { IsMonitor self.script (monitor_of monitor.part) }
    {
        let Board { table } = self;
        let Pass { seat } = monitor;
        table.close_with(seat).free();
    }
}
