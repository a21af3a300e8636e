ghost use Rattle.std.specs.Prelude.{◌≡◌, ◌<◌, ◌++◌, ◌∷◌, [], length, IfOk, IfSome, IfNone, Some, None, slice_index, slice_set, slice_get, IsTrue};
ghost use Rattle.cove_model.specs.Offers.{is_earlier};
ghost use Rattle.cove_base.specs.Scripts.{is_within_limits};

use cove_base::{HartId, History, NoMemory, Script, ScriptLine};
use cove_hart::next_place;
use cove_tvm::Ground;
use std::alloc::Global;
use std::marker::Model;

/// The monitor: its ground, the entries that were made, and where each hart stands in its lines.
#[derive(Drop)]
pub struct Mon {
    pub ground: Ground,
    pub history: History,
    pub progress: Progress,
}

/// For each hart of a board, the place of its next line among the script's lines.
#[derive(Drop)]
pub struct Progress {
    places: Vec<usize>,
}

impl Model for Progress {
    ghost use Rattle.std.specs.Prelude.{List, ℕ};

    ghost Value = { List ℕ };

    ghost view = { λ a. a.places.items };
}

impl Progress {
    ghost use Rattle.cove_core.specs.Seats.{AtFirstLines};

    /// The places of the harts of a script's board that have ended no line.
    pub fn new(alloc: Global, script: &Script) -> Result<Self, NoMemory>
        ensures { IfOk result (λ places. AtFirstLines script.now script.now.harts places) }
    {
        let count = script.harts;
        let mut places = Vec::with_capacity(alloc, count as usize)?;
        for k in 0..count {
            places.push(next_place(script, HartId(k), 0))?;
        }
        Ok(Progress { places })
    }

    /// The place of a hart's next line.
    pub fn place(&self, hart: HartId) -> usize
        requires { hart.0 < length self.now }
        ensures { result ≡ slice_index self.now hart.0 }
    {
        self.places[hart.0 as usize]
    }

    /// Moves a hart to a place.
    pub fn set_place(&mut self, hart: HartId, place: usize)
        requires { hart.0 < length self.old }
        ensures { self.new ≡ slice_set self.old hart.0 place }
    {
        self.places[hart.0 as usize] = place;
    }
}

/// That a script is within its limits; it runs no code.
pub fn within_limits(script: &Script)
    ensures { IsTrue (is_within_limits script.now) }
{
    let _pages = script.pages;
}

/// The line at a place of a script's lines.
pub fn line_at(script: &Script, place: usize) -> Option<ScriptLine>
    ensures line { result ≡ slice_get script.now.lines place }
    ensures within { IsTrue (is_within_limits script.now) }
{
    script.lines.get(place).copied()
}

impl Mon {
    ghost use Rattle.cove_base.specs.HartLines.{next_line};
    ghost use Rattle.cove_core.specs.Kept.{ProgressStands};
    ghost use Rattle.cove_model.specs.Histories.{after};
    ghost use Rattle.cove_model.specs.Offers.{first_behind};
    ghost use Rattle.cove_model.specs.Played.{IsOver};
    ghost use Rattle.cove_model.specs.States.{ended_by};
    ghost use Rattle.std.specs.Prelude.{◌↔◌};

    /// The first hart that has a line of an earlier phase than this one left.
    pub fn first_behind(&self, script: &Script, phase: u32) -> Option<HartId>
        requires progress { ProgressStands script.now (after script.now self.now.history) self.now.progress }
        ensures some { IfSome result (λ hart. first_behind script.now (after script.now self.now.history) phase ≡ Some hart.0) }
        ensures none { IfNone result (first_behind script.now (after script.now self.now.history) phase ≡ None) }
    {
        for k in 0..script.harts {
            if is_earlier(self.next_line(script, HartId(k)), phase) {
                return Some(HartId(k));
            }
        }
        None
    }

    /// Whether no line is left.
    pub fn is_over(&self, script: &Script) -> bool
        requires progress { ProgressStands script.now (after script.now self.now.history) self.now.progress }
        ensures { IsTrue result ↔ IsOver script.now self.now.history }
    {
        for k in 0..script.harts {
            if self.next_line(script, HartId(k)).is_some() {
                return false;
            }
        }
        true
    }

    // The next line of a hart of the board.
    fn next_line(&self, script: &Script, hart: HartId) -> Option<ScriptLine>
        requires progress { ProgressStands script.now (after script.now self.now.history) self.now.progress }
        requires on_board { hart.0 < script.now.harts }
        ensures { result ≡ next_line script.now hart.0 (ended_by (after script.now self.now.history) hart.0) }
    {
        line_at(script, self.progress.place(hart))
    }
}

// Whether a line is of an earlier phase.
fn is_earlier(line: Option<ScriptLine>, phase: u32) -> bool
    ensures { result ≡ is_earlier phase line }
{
    match line {
        Some(line) => line.phase < phase,
        None => false,
    }
}
