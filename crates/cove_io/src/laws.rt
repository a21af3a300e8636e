//! Worked cases of the words that the clauses speak in.

ghost use Rattle.std.specs.Prelude.{◌-◌, ◌^◌, Some, None, codes};
ghost use Rattle.cove_io.specs.Ends.{AppendsFront, Rose, TakesAtMost, TakesExactly};

/// What the words of the clauses say of some counts and bytes, and what they do not say.
pub fn worked_ends()
    ensures rose { Rose 0 1 × Rose 4 6 }
    ensures stayed { (Rose 0 0 → ⊥) × (Rose 5 5 → ⊥) × (Rose 5 4 → ⊥) }
    ensures last_value { Rose (2 ^ 64 - 2) (2 ^ 64 - 1) × Rose (2 ^ 64 - 1) (2 ^ 64 - 1)
        × (Rose (2 ^ 64 - 2) (2 ^ 64 - 2) → ⊥) }

    ensures two_taken { TakesExactly 2 (Some (codes "abc")) (Some (codes "c")) }
    ensures not_one_taken { TakesExactly 1 (Some (codes "abc")) (Some (codes "c")) → ⊥ }
    ensures not_these_left { TakesExactly 2 (Some (codes "abc")) (Some (codes "b")) → ⊥ }
    ensures none_told { TakesExactly 2 (Some (codes "abc")) None → ⊥ }
    ensures at_most { TakesAtMost 2 (Some (codes "abc")) (Some (codes "c"))
        × TakesAtMost 3 (Some (codes "abc")) (Some (codes "c"))
        × (TakesAtMost 1 (Some (codes "abc")) (Some (codes "c")) → ⊥) }

    ensures front_appended { AppendsFront (Some (codes "x")) (Some (codes "xab")) (codes "abc") }
    ensures none_appended { AppendsFront (Some (codes "x")) (Some (codes "x")) (codes "abc") }
    ensures all_appended { AppendsFront (Some (codes "x")) (Some (codes "xabc")) (codes "abc") }
    ensures no_front { AppendsFront (Some (codes "x")) (Some (codes "xb")) (codes "abc") → ⊥ }
    ensures more_than_all { AppendsFront (Some (codes "x")) (Some (codes "xabca")) (codes "abc") → ⊥ }
    ensures lost_what_it_had { AppendsFront (Some (codes "x")) (Some (codes "abc")) (codes "abc") → ⊥ }
{}
