ghost use Rattle.std.specs.Prelude.{◌≡◌, ◌↔◌, ℕ, ◌+◌, ◌≤◌, List, ◌∷◌, ◌++◌, length, Ok, Err};
ghost use Rattle.cove_base.specs.Scripts.{ScriptValue};
ghost use Rattle.cove_base.specs.declared.faults.ScriptFault.{ScriptFault as Fault};
ghost use Rattle.cove_model.specs.Fronts.{IsFront, front_of};
ghost use Rattle.cove_model.specs.Grammar.{script_of};

/// A script in front of other text: it is there with a place exactly where the text up to that place spells it
/// and ends with the first line `end`; no byte after the place matters; and a fault in front is the text's own.
pub fn fronts_are_scripts()
    ensures front { (limit : ℕ) (text : List ℕ) (script : ScriptValue) (place : ℕ)
        → (front_of limit text ≡ Ok (script, place)) ↔ IsFront limit text script place }
    ensures rest_is_not_read { (limit : ℕ) (before rest other : List ℕ) (script : ScriptValue)
        → length (before ++ 10 ∷ other) ≤ limit
        → front_of limit (before ++ 10 ∷ rest) ≡ Ok (script, length before + 1)
        → front_of limit (before ++ 10 ∷ other) ≡ Ok (script, length before + 1) }
    ensures refused { (limit : ℕ) (text : List ℕ) (fault : Fault)
        → front_of limit text ≡ Err fault → script_of limit text ≡ Err fault }
{}
