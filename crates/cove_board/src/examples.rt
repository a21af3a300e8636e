//! Worked examples, which the checker computes: which passes carry what, and what a held pass allows.

ghost use Rattle.std.specs.Prelude.{◌≡◌, ◌+◌, ℕ, List, [], ◌∷◌, None, Some, true};
ghost use Rattle.atomic_table.specs.Seated.{TableId};
ghost use Rattle.cove_base.specs.Guards.{Guard};
ghost use Rattle.cove_base.specs.Places.{count_word};
ghost use Rattle.cove_base.specs.Scripts.{ScriptValue};
ghost use Rattle.cove_base.specs.declared.events.Entry.{Entry};
ghost use Rattle.cove_board.specs.Parts.{MonitorPart, hart_alone, monitor_alone, new_part, opening_part};
ghost use Rattle.cove_board.specs.Passes.{AllowsEntries, AllowsLawfulStores, AreDealt, AreHeld, IsHartPass, IsHeld, IsMonitorPass};
ghost use Rattle.cove_board.specs.Ruled.{IsPart};
ghost use Rattle.cove_model.specs.Examples.{board, fence};

/// Which passes carry a hart's part alone, which the monitor's, and which are those that are dealt.
pub fn worked_passes()
    ensures a_hart { (table : TableId) (script : ScriptValue) → IsHartPass (record { table = table; script = script })
        (record { table = table; part = hart_alone (new_part script 1) }) }
    ensures another_script { (table : TableId) → IsHartPass (record { table = table; script = board 1 [] [] [] })
        (record { table = table; part = hart_alone (new_part (board 2 [] [] []) 1) }) → ⊥ }
    ensures no_hart { (table : TableId) (script : ScriptValue) (m : MonitorPart) → IsHartPass (record { table = table; script = script })
        (record { table = table; part = monitor_alone m }) → ⊥ }
    ensures the_monitor { (table : TableId) (script : ScriptValue) → IsMonitorPass (record { table = table; script = script })
        (record { table = table; part = monitor_alone (opening_part script) }) }
    ensures no_monitor { (table : TableId) (script : ScriptValue) → IsMonitorPass (record { table = table; script = script })
        (record { table = table; part = hart_alone (new_part script 1) }) → ⊥ }
    ensures not_held { (table : TableId) (script : ScriptValue)
        → IsHeld (record { table = table; part = hart_alone (new_part script 1) }) → ⊥ }
    ensures dealt { (table : TableId) (script : ScriptValue) → AreDealt script table 2
        (record { table = table; part = hart_alone (new_part script 0) } ∷ record { table = table; part = hart_alone (new_part script 1) } ∷ []) }
    ensures one_left_out { (table : TableId) (script : ScriptValue) → AreDealt script table 2
        (record { table = table; part = hart_alone (new_part script 0) } ∷ []) → ⊥ }
    ensures swapped { (table : TableId) (script : ScriptValue) → AreDealt script table 2
        (record { table = table; part = hart_alone (new_part script 1) } ∷ record { table = table; part = hart_alone (new_part script 0) } ∷ []) → ⊥ }
{}

/// What two parts that are carried together keep of each other, and what a hart's part says of a history.
pub fn worked_parts()
    ensures marked { (script : ScriptValue) → AreHeld (opening_part script) (record (new_part script 0) { mark = true }) → ⊥ }
    ensures unmade { (script : ScriptValue) → AreHeld (opening_part script) (record (new_part script 0) { mine = fence ∷ [] }) → ⊥ }
    ensures another_hart { (script : ScriptValue) (words : List ℕ) → IsPart script (fence ∷ []) words (record (new_part script 1) { mine = fence ∷ [] }) → ⊥ }
    ensures not_seen { (script : ScriptValue) (words : List ℕ) → IsPart script [] words (record (new_part script 1) { seen = fence ∷ [] }) → ⊥ }
{}

/// A pass that is not held allows nothing, and an entry is counted at the word of the count alone.
pub fn worked_guards()
    ensures no_store { (words : List ℕ) (place word : ℕ) → AllowsLawfulStores None words place word → ⊥ }
    ensures no_entry { (words : List ℕ) (place : ℕ) (entry : Entry) → AllowsEntries None words place entry → ⊥ }
    ensures another_word { (guard : Guard) (words : List ℕ) (entry : Entry)
        → AllowsEntries (Some guard) words (count_word guard.script.pages guard.script.harts + 1) entry → ⊥ }
{}
