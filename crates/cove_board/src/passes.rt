ghost use Rattle.std.specs.Prelude.{◌≡◌, ◌++◌, ◌∷◌, [], length, IfSome, IfNone, OnOk};

use crate::views::View;
use atomic_table::Seat;
use cove_base::{Entry, NoMemory};
use std::alloc::Global;
use std::marker::Model;

/// What one thread may do with a board: it carries a hart's part, the monitor's, or both. It has no bytes.
#[derive(Drop)]
pub struct Pass {
    pub(crate) seat: Seat<Entry, View>,
}

impl Model for Pass {
    ghost use Rattle.std.specs.Prelude.{◌≡◌, []};
    ghost use Rattle.cove_board.specs.Passes.{PassValue};

    ghost Value = { PassValue };

    ghost view = { λ p. record { table = p.seat.table_id; part = p.seat.me.0 } };

    ghost invariant = { λ p. p.seat.me.1 ≡ [] };
}

/// Passes, in the order of their harts.
#[derive(Drop)]
pub struct Passes {
    passes: Vec<Pass>,
}

impl Model for Passes {
    ghost use Rattle.std.specs.Prelude.{List};
    ghost use Rattle.cove_board.specs.Passes.{PassValue};

    ghost Value = { List PassValue };

    ghost view = { λ a. a.passes.items };
}

impl Passes {
    /// No pass.
    pub(crate) fn new(alloc: Global) -> Self
        ensures { result ≡ [] }
    {
        Passes {
            passes: Vec::new(alloc),
        }
    }

    /// Puts a pass last.
    pub(crate) fn push(&mut self, pass: Pass) -> Result<(), NoMemory>
        ensures { OnOk result (self.new ≡ self.old ++ pass ∷ []) }
    {
        self.passes.push(pass)?;
        Ok(())
    }

    /// The number of passes.
    pub fn len(&self) -> usize
        ensures { result ≡ length self.now }
    {
        self.passes.len()
    }

    /// The last pass.
    pub fn pop(&mut self) -> Option<Pass>
        ensures last { IfSome result (λ pass. self.old ≡ self.new ++ pass ∷ []) }
        ensures none { IfNone result ((self.old ≡ []) × (self.new ≡ [])) }
    {
        self.passes.pop()
    }
}
