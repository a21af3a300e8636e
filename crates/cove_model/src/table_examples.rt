//! Worked examples of tables by their words, and of stores to them.

ghost use Rattle.std.specs.Prelude.{◌≡◌, ◌+◌, ◌^◌, true, false, slice_set};
ghost use Rattle.cove_base.specs.HartValues.{no_rings};
ghost use Rattle.cove_base.specs.PageWords.{converting, host, released};
ghost use Rattle.cove_base.specs.Places.{hart_word, page_word, table_word};
ghost use Rattle.cove_base.specs.TableWords.{blocked, private_leaf, shared_leaf};
ghost use Rattle.cove_model.specs.LawfulStores.{AreOwned, IsInside, IsLawful, IsLeft};
ghost use Rattle.cove_model.specs.TableExamples.{entered_words, fetching, guest, once_shared, rooted};
ghost use Rattle.cove_model.specs.TableLaw.{EntersWithin, IsGuestLive, MayReach, is_shared_leaf, shared_leaves};

/// Tables that are owned, who is inside, what a hart inside relies on, which stores are lawful, and what is counted.
pub fn worked_tables()
    ensures owned { AreOwned 8 rooted 1 4 }
    ensures not_its_root { AreOwned 8 (slice_set rooted 6 (host 0)) 1 4 → ⊥ }
    ensures inside { IsInside 8 1 entered_words 1 0 }
    ensures nobody_inside { IsLeft 8 1 rooted 1 }
    ensures within { EntersWithin 8 1 entered_words }
    ensures not_within { EntersWithin 8 1 (slice_set rooted (hart_word 8 1 0) (2 ^ 32 + 1)) → ⊥ }
    ensures live { IsGuestLive 8 1 entered_words 1 4 2 0 (guest no_rings) }
    ensures not_mapped { IsGuestLive 8 1 entered_words 1 4 2 0 (guest fetching) → ⊥ }
    ensures nor_by_four_levels { IsGuestLive 8 1 entered_words 1 4 3 0 (guest fetching) → ⊥ }
    ensures page_converted { IsLawful 8 1 0 rooted rooted (page_word 0) (converting 0) }
    ensures data_page_converted { IsLawful 8 1 0 rooted rooted (page_word 2) (converting 0) → ⊥ }
    ensures enters { IsLawful 8 1 0 rooted rooted (hart_word 8 1 0) (2 ^ 32) }
    ensures enters_untold { IsLawful 8 1 0 rooted rooted (hart_word 8 1 0) (2 ^ 32 + 1) → ⊥ }
    ensures leaves { IsLawful 8 1 0 entered_words entered_words (hart_word 8 1 0) 0 }
    ensures root_taken_back { IsLawful 8 1 0 entered_words entered_words (page_word 4) released → ⊥ }
    ensures own_page_mapped { IsLawful 8 1 0 entered_words entered_words (table_word 8 4 0) (private_leaf 2) }
    ensures host_page_mapped { IsLawful 8 1 0 entered_words entered_words (table_word 8 4 0) (private_leaf 0) → ⊥ }
    ensures held_yet { MayReach 3 2 false (blocked (private_leaf 2) 4) }
    ensures blocked_before { MayReach 3 2 false (blocked (private_leaf 2) 2) → ⊥ }
    ensures shared_leaf { is_shared_leaf 5 (blocked (shared_leaf 5) 3) ≡ true }
    ensures private_leaf { is_shared_leaf 5 (private_leaf 5) ≡ false }
    ensures counted { shared_leaves 1 once_shared 5 ≡ 1 }
    ensures another_page { shared_leaves 1 once_shared 6 ≡ 0 }
{}
