//! Worked examples, which the checker computes: of each definition that the crate's contracts speak in, what it says yes
//! to and what it says no to. Each stands on a function with an empty body.

ghost use Rattle.std.specs.Prelude.{◌≡◌, [], ◌∷◌, ℕ, None, Some};
ghost use Rattle.cove_base.specs.HartValues.{no_rings, rings_with};
ghost use Rattle.cove_base.specs.PageWords.{converting, host};
ghost use Rattle.cove_base.specs.declared.events.How.TheVariants.{Hit};
ghost use Rattle.cove_base.specs.declared.events.Walked.TheVariants.{Found, Missing};
ghost use Rattle.cove_base.specs.declared.walks.Target.TheVariants.{Host};
ghost use Rattle.cove_core.specs.Examples.{hart_at, hart_noting, hart_with, page, ring_naming};
ghost use Rattle.cove_core.specs.Made.{IsClear, IsTold};
ghost use Rattle.cove_core.specs.Plays.{AreRounds};
ghost use Rattle.cove_core.specs.Reached.{ComesTo, IsPrepared};
ghost use Rattle.cove_core.specs.Stepped.{IsAhead, IsFirst, IsFirstBehind, IsLimit};
ghost use Rattle.cove_core.specs.Walks.{IsFoundIn};
ghost use Rattle.cove_core.specs.declared.accesses.Reach.TheVariants.{Absent, Fresh, Held, Walked};
ghost use Rattle.cove_core.specs.declared.steps.Stepped.TheVariants.{Ahead, Did, Limit};
ghost use Rattle.cove_model.specs.Examples.{and_back, board, fence, load, there_and_back, to_the_monitor, two_phases};
ghost use Rattle.cove_model.specs.Played.{unplayed};
ghost use Rattle.cove_model.specs.Translations.{Came, Failed};

/// Which harts are prepared for an event, and which have no earlier line before them.
pub fn worked_turns()
    ensures a_call { IsPrepared there_and_back (hart_at 0 0) }
    ensures no_line { IsPrepared there_and_back (hart_at 0 3) → ⊥ }
    ensures in_the_ring { IsPrepared (board 1 [] (load 0 0x4000 ∷ []) []) (hart_with 0 0 (ring_naming 4) None) }
    ensures walked { IsPrepared (board 1 [] (load 0 0x4000 ∷ []) []) (hart_noting 0 0 (Missing 1)) }
    ensures no_walk { IsPrepared (board 1 [] (load 0 0x4000 ∷ []) []) (hart_with 0 0 (ring_naming 5) None) → ⊥ }
    ensures first { IsFirst two_phases [] (hart_at 0 0) }
    ensures not_first { IsFirst two_phases [] (hart_at 1 0) → ⊥ }
    ensures behind { IsFirstBehind two_phases [] (hart_at 1 0) 0 }
    ensures another { IsFirstBehind two_phases [] (hart_at 1 0) 1 → ⊥ }
    ensures none_behind { IsFirstBehind two_phases (to_the_monitor ∷ []) (hart_at 1 0) 0 → ⊥ }
    ensures full { IsLimit Limit × (IsLimit (Did 0) → ⊥) × (IsLimit (Ahead (record { 0 = 0 })) → ⊥) }
    ensures ahead { IsAhead (Ahead (record { 0 = 1 })) 1 × (IsAhead (Ahead (record { 0 = 1 })) 0 → ⊥)
        × (IsAhead Limit 0 → ⊥) × (IsAhead (Did 0) 0 → ⊥) }
{}

/// What an access comes to, what is told of it, and what a walk finds.
pub fn worked_accesses()
    ensures held { ComesTo [] (hart_with 0 0 (ring_naming 4) None) 4 (ring_naming 4) Held }
    ensures not_held { ComesTo [] (hart_noting 0 0 (Found (page 4))) 4 no_rings Held → ⊥ }
    ensures walked { ComesTo [] (hart_noting 0 0 (Found (page 4))) 4 no_rings Walked }
    ensures not_walked { ComesTo [] (hart_noting 0 0 (Missing 1)) 4 no_rings Walked → ⊥ }
    ensures late { ComesTo (host 2 ∷ []) (hart_noting 0 0 (Missing 1)) 0 (rings_with no_rings (Host (page 0)) (page 0)) Fresh }
    ensures still_converting { ComesTo (converting 1 ∷ []) (hart_noting 0 0 (Missing 1)) 0 (rings_with no_rings (Host (page 0)) (page 0)) Fresh → ⊥ }
    ensures absent { ComesTo (converting 1 ∷ []) (hart_noting 0 0 (Missing 1)) 0 no_rings Absent }
    ensures not_absent { ComesTo (host 2 ∷ []) (hart_noting 0 0 (Missing 1)) 0 no_rings Absent → ⊥ }
    ensures told_by_ring { IsTold [] (ring_naming 4) (Some (Host (page 4), Came Hit)) }
    ensures told_by_word { IsTold (host 0 ∷ []) no_rings (Some (Host (page 0), Came Hit)) }
    ensures out_of_reach { IsTold (converting 1 ∷ []) (ring_naming 4) (Some (Host (page 0), Came Hit)) → ⊥ }
    ensures missed { IsTold [] no_rings (Some (Host (page 4), Failed)) }
    ensures named { IsTold [] (ring_naming 4) (Some (Host (page 4), Failed)) → ⊥ }
    ensures found { IsFoundIn (host 1 ∷ []) 0 (Found (page 0)) × (IsFoundIn (converting 1 ∷ []) 0 (Found (page 0)) → ⊥) }
    ensures stopped { IsFoundIn (converting 1 ∷ []) 0 (Missing (converting 1)) × (IsFoundIn (host 1 ∷ []) 0 (Missing (host 1)) → ⊥) }
{}

/// A page that comes back to the host is named by no ring and by no unused walk; and how many rounds a script takes.
pub fn worked_endings()
    ensures clear { IsClear there_and_back (to_the_monitor ∷ fence ∷ []) and_back (hart_at 0 3) }
    ensures in_a_ring { IsClear there_and_back (to_the_monitor ∷ fence ∷ []) and_back (hart_with 0 3 (ring_naming 4) None) → ⊥ }
    ensures in_a_walk { IsClear there_and_back (to_the_monitor ∷ fence ∷ []) and_back (hart_noting 0 3 (Found (page 4))) → ⊥ }
    ensures one_round { AreRounds (board 1 [] [] []) unplayed 1 }
    ensures none { AreRounds (board 1 [] [] []) unplayed 0 → ⊥ }
    ensures a_round_more { AreRounds (board 1 [] [] []) unplayed 2 → ⊥ }
{}
