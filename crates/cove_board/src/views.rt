//! What passes know, the rule of a board, and what its steps tell.

use atomic_table::{Join, Play, Split, TableRule};
use cove_base::{Entry, Script};
use std::marker::Model;

/// What a pass knows: the monitor's part, a hart's, both or none. No value of it is made.
pub struct View {
    none: (),
}

impl Model for View {
    ghost use Rattle.cove_board.specs.Parts.{Part, spent};

    ghost Value = { Part };

    ghost view = { λ _. spent };
}

/// The rule of a board.
pub struct BoardRule;

impl TableRule<Entry, View, Script> for BoardRule {
    ghost use Rattle.cove_board.specs.Parts.{monitor_alone, opening_part};
    ghost use Rattle.cove_board.specs.Ruled.{Holds};

    ghost holds = { Holds };

    ghost first = { λ script. monitor_alone (opening_part script) };
}

// A walk's load.
pub(crate) struct Walks;

impl Play<Entry, View> for Walks {
    ghost use Rattle.cove_board.specs.Plays as plays;

    ghost then = { plays.Walks };
}

// A load under the lock.
pub(crate) struct Loads;

impl Play<Entry, View> for Loads {
    ghost use Rattle.cove_board.specs.Plays as plays;

    ghost then = { plays.Loads };
}

// The first load under the lock.
pub(crate) struct Knows;

impl Play<Entry, View> for Knows {
    ghost use Rattle.cove_board.specs.Plays as plays;

    ghost then = { plays.Knows };
}

// A lawful store.
pub(crate) struct Stores;

impl Play<Entry, View> for Stores {
    ghost use Rattle.cove_board.specs.Plays as plays;

    ghost then = { plays.Stores };
}

// The store of the count.
pub(crate) struct Counts;

impl Play<Entry, View> for Counts {
    ghost use Rattle.cove_board.specs.Plays as plays;

    ghost then = { plays.Counts };
}

// The monitor's part comes to the hart's, or leaves it.
pub(crate) struct Both;

impl Join<View> for Both {
    ghost use Rattle.cove_board.specs.Parts.{both, hart_of, monitor_of};
    ghost use Rattle.cove_board.specs.Parts as parts;

    ghost both = { λ v w. both (monitor_of w) (hart_of v) };

    ghost spent = { parts.spent };
}

impl Split<View> for Both {
    ghost use Rattle.cove_board.specs.Parts.{hart_alone, hart_of, left_part, monitor_alone, monitor_of};

    ghost left = { λ v. hart_alone (left_part (monitor_of v) (hart_of v)) };

    ghost right = { λ v. monitor_alone (monitor_of v) };
}

// The next hart gets its part.
pub(crate) struct Deals;

impl Split<View> for Deals {
    ghost use Rattle.cove_board.specs.Parts.{dealt_monitor, hart_alone, monitor_alone, monitor_of, new_part};

    ghost left = { λ v. monitor_alone (dealt_monitor (monitor_of v)) };

    ghost right = { λ v. hart_alone (new_part (monitor_of v).script (monitor_of v).dealt) };
}
