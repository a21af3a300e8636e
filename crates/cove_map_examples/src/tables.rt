//! What a table's words say, where a walk comes to, and what each call leaves of the tables.

ghost use Rattle.std.specs.Prelude.{◌≡◌, ◌≢◌, ◌-◌, ◌+◌, ◌^◌, ◌<◌, ◌++◌, ℕ, List, [], ◌∷◌, false, true, slice_index};
ghost use Rattle.cove_base.specs.PageWords.{released};
ghost use Rattle.cove_base.specs.Places.{table_word};
ghost use Rattle.cove_base.specs.TableWords.{blocked};
ghost use Rattle.cove_base.specs.Tables.{At, IsSlot, IsTree, Slot, entry_at, leaf_at, next_table, present};
ghost use Rattle.cove_base.specs.declared.events.Walked.TheVariants.{Found, Missing};
ghost use Rattle.cove_map_examples.specs.Examples.{zero_words};
ghost use Rattle.cove_model.specs.LawfulStores.{IsRoot};
ghost use Rattle.cove_stage2.specs.Changes.{ChangesLeaf, ClearsPage, IsBlockedLeaf, IsOnWay, IsPresentLeaf, KeepsLinks, NamesWay, unblocked};
ghost use Rattle.cove_stage2.specs.Entries.{IsBoundedEntry, IsBoundedLeaf, IsEntryWord};
ghost use Rattle.cove_stage2.specs.Lacked.{LacksRest, tables_lacked};
ghost use Rattle.cove_stage2.specs.LawfulTables.{AreGiven};
ghost use Rattle.cove_stage2.specs.MapStores.{pool_left};
ghost use Rattle.cove_stage2.specs.Walks.{WalksTo};
ghost use Rattle.cove_stage2.specs.declared.entries.Leaf.TheVariants.{Blocked, Present};
ghost use Rattle.cove_stage2.specs.declared.entries.TableEntry.TheVariants.{Next};

/// The limits of a leaf's and an entry's numbers, the words that a table may have, and which leaves are present or blocked.
pub fn worked_entries()
    ensures leaf { IsBoundedLeaf (Present (record { 0 = 5 }) true) }
    ensures page_too_large { IsBoundedLeaf (Present (record { 0 = 2 ^ 16 }) true) → ⊥ }
    ensures number_too_large { IsBoundedLeaf (Blocked (record { 0 = 5 }) true (2 ^ 32)) → ⊥ }
    ensures next { IsBoundedEntry (Next (record { 0 = 5 })) }
    ensures next_too_large { IsBoundedEntry (Next (record { 0 = 2 ^ 16 })) → ⊥ }
    ensures leaf_word { IsEntryWord (present 5 true) }
    ensures table_word { IsEntryWord (next_table 5) }
    ensures no_word { IsEntryWord 2 → ⊥ }
    ensures is_present { IsPresentLeaf (present 5 true) }
    ensures absent { IsPresentLeaf 0 → ⊥ }
    ensures is_blocked { IsBlockedLeaf (blocked (present 5 true) 3) }
    ensures not_blocked { IsBlockedLeaf (present 5 true) → ⊥ }
    ensures unblocked { unblocked (blocked (present 5 true) 3) ≡ present 5 true }
{}

/// A walk finds the page of a present leaf, for a fetch only where it is the TVM's own; else it comes to the leaf's word. In four
/// levels the leaf is a table further down than in three.
pub fn worked_walks()
    ensures own { WalksTo true (present 5 false) (Found (record { 0 = 5 })) }
    ensures shared { WalksTo false (present 5 true) (Found (record { 0 = 5 })) }
    ensures fetched { WalksTo true (present 5 true) (Found (record { 0 = 5 })) → ⊥ }
    ensures other_page { WalksTo false (present 5 true) (Found (record { 0 = 6 })) → ⊥ }
    ensures blocked { WalksTo false (blocked (present 5 true) 3) (Found (record { 0 = 5 })) → ⊥ }
    ensures absent { WalksTo false 0 (Missing 0) }
    ensures missed { WalksTo false (present 5 true) (Missing (present 5 true)) → ⊥ }
    ensures four_levels { (words : List ℕ) → entry_at 8 4 words (At 2 0) ≡ next_table 3 → slice_index words (table_word 8 3 9) ≡ present 5 false
        → WalksTo true (leaf_at 8 4 3 words 9) (Found (record { 0 = 5 })) }
    ensures one_level_less { (words : List ℕ) → entry_at 8 4 words (At 2 0) ≡ next_table 3
        → WalksTo true (leaf_at 8 4 2 words 0) (Found (record { 0 = 5 })) → ⊥ }
{}

/// One leaf is as it is said to be, and every other leaf is as it was, in as many words.
pub fn worked_changes()
    ensures same { (words : List ℕ) (g : ℕ) → IsTree 8 4 2 words → ChangesLeaf 8 4 2 words words g (leaf_at 8 4 2 words g) }
    ensures elsewhere { (old new : List ℕ) → leaf_at 8 4 2 new 9 ≡ 0 → ChangesLeaf 8 4 2 old new 9 (present 2 false) → ⊥ }
    ensures another { (old new : List ℕ) → leaf_at 8 4 2 new 8 ≢ leaf_at 8 4 2 old 8
        → ChangesLeaf 8 4 2 old new 9 (present 2 false) → ⊥ }
    ensures beyond_three { (old new : List ℕ) → leaf_at 8 4 3 new (2 ^ 29) ≢ leaf_at 8 4 3 old (2 ^ 29)
        → ChangesLeaf 8 4 3 old new 9 (present 2 false) → ⊥ }
    ensures longer { (words : List ℕ) → ChangesLeaf 8 4 2 words (words ++ 0 ∷ []) 9 (present 2 false) → ⊥ }
{}

/// The slots on the way to a guest page: those of the tables above it, in three levels and in four.
pub fn worked_ways()
    ensures root { IsOnWay 2 (2 ^ 18 + 1030) (At 0 1) }
    ensures last { IsOnWay 2 (2 ^ 18 + 1030) (At 1 514) }
    ensures beside { IsOnWay 2 (2 ^ 18 + 1030) (At 1 515) → ⊥ }
    ensures leaf { IsOnWay 2 (2 ^ 18 + 1030) (At 2 (2 ^ 18 + 1030)) → ⊥ }
    ensures root_of_four { IsOnWay 3 (2 ^ 18 + 1030) (At 0 0) }
    ensures between { IsOnWay 3 (2 ^ 18 + 1030) (At 1 1) }
    ensures last_of_four { IsOnWay 3 (2 ^ 18 + 1030) (At 2 514) }
    ensures as_in_three { IsOnWay 3 (2 ^ 18 + 1030) (At 1 514) → ⊥ }
{}

/// The tables on the way to a guest page are named, and no other slot changes; or no slot of the upper levels changes at all.
pub fn worked_links()
    ensures way { (words : List ℕ) → entry_at 8 4 words (At 0 0) ≡ next_table 2 → entry_at 8 4 words (At 1 0) ≡ next_table 3
        → NamesWay 8 4 2 words words 9 }
    ensures no_way { (old : List ℕ) → NamesWay 8 4 2 old zero_words 9 → ⊥ }
    ensures moved { (old new : List ℕ) → entry_at 8 4 old (At 0 0) ≡ next_table 2 → entry_at 8 4 new (At 0 0) ≡ next_table 3
        → NamesWay 8 4 2 old new 9 → ⊥ }
    ensures beside { (old new : List ℕ) → entry_at 8 4 new (At 1 1) ≢ entry_at 8 4 old (At 1 1) → NamesWay 8 4 2 old new 9 → ⊥ }
    ensures four_levels { (words : List ℕ) → entry_at 8 4 words (At 0 0) ≡ next_table 1 → entry_at 8 4 words (At 1 0) ≡ next_table 2
        → entry_at 8 4 words (At 2 0) ≡ next_table 3 → NamesWay 8 4 3 words words 9 }
    ensures one_level_less { (old new : List ℕ) → entry_at 8 4 new (At 2 0) ≡ 0 → NamesWay 8 4 3 old new 9 → ⊥ }
    ensures kept { (words : List ℕ) → KeepsLinks 8 4 2 words words }
    ensures linked { (new : List ℕ) → entry_at 8 4 new (At 0 0) ≡ next_table 2 → KeepsLinks 8 4 2 zero_words new → ⊥ }
    ensures unlinked { (old : List ℕ) → entry_at 8 4 old (At 0 0) ≡ next_table 2 → KeepsLinks 8 4 2 old zero_words → ⊥ }
{}

/// How many tables a run lacks, what a mapping leaves of the pool, and what the rest of its run lacks then.
pub fn worked_mapping()
    ensures one_page { tables_lacked 8 4 zero_words 2 9 1 ≡ 2 }
    ensures across { tables_lacked 8 4 zero_words 2 511 2 ≡ 3 }
    ensures left { pool_left 8 4 zero_words (1 ∷ 2 ∷ 3 ∷ []) 2 9 ≡ 1 ∷ [] }
    ensures rest { (old new : List ℕ) → NamesWay 8 4 2 old new 9 → LacksRest 8 4 2 old new 9 }
    ensures lacks_still { LacksRest 8 4 2 zero_words zero_words 9 → ⊥ }
{}

/// The same in four levels, where a run also lacks the tables of the level between: its way may have the upper ones alone.
pub fn worked_deep_mapping()
    ensures one_page { tables_lacked 8 4 zero_words 3 9 1 ≡ 3 }
    ensures across { tables_lacked 8 4 zero_words 3 511 2 ≡ 4 }
    ensures between { tables_lacked 8 4 zero_words 3 (2 ^ 18 - 1) 2 ≡ 5 }
    ensures below_root { (words : List ℕ) → entry_at 8 4 words (At 0 0) ≡ next_table 2 → entry_at 8 4 words (At 1 0) ≡ 0
        → tables_lacked 8 4 words 3 9 1 ≡ 2 }
    ensures left { pool_left 8 4 zero_words (1 ∷ 2 ∷ 3 ∷ []) 3 9 ≡ [] }
    ensures rest { (old new : List ℕ) → NamesWay 8 4 3 old new 9 → LacksRest 8 4 3 old new 9 }
    ensures lacks_still { LacksRest 8 4 3 zero_words zero_words 9 → ⊥ }
{}

/// Each table word of a page is 0, and each other word is as it was.
pub fn worked_clearing()
    ensures cleared { ClearsPage 8 zero_words zero_words 4 }
    ensures one_left { (old new : List ℕ) → slice_index new (table_word 8 4 511) ≡ 1 → ClearsPage 8 old new 4 → ⊥ }
    ensures beside { (old new : List ℕ) → slice_index old (table_word 8 5 0) ≡ 1 → slice_index new (table_word 8 5 0) ≡ 0
        → ClearsPage 8 old new 4 → ⊥ }
{}

/// A TVM has the tables that links name, and the pages of its pool, where they are given to it for tables.
pub fn worked_pools()
    ensures no_table { (words : List ℕ) → IsRoot 8 words 1 4 → ((a : Slot) → IsSlot a → entry_at 8 4 words a ≡ 0)
        → AreGiven 8 words 1 4 [] }
    ensures no_root { AreGiven 8 zero_words 1 4 [] → ⊥ }
    ensures not_given { (words : List ℕ) → slice_index words 3 ≡ released → AreGiven 8 words 1 4 (3 ∷ []) → ⊥ }
{}
