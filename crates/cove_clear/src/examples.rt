//! Worked examples, which the checker computes: what the definitions in the contract of `clear_tables` say yes to, and what they
//! say no to.

ghost use Rattle.std.specs.Prelude.{◌≡◌, ℕ, List, [], ◌∷◌, slice_set};
ghost use Rattle.cove_base.specs.PageWords.{given, host, released};
ghost use Rattle.cove_base.specs.Places.{epoch_word, table_word};
ghost use Rattle.cove_base.specs.Tables.{IsSlot, Slot, entry_at, next_table};
ghost use Rattle.cove_base.specs.declared.numbers.Role.TheVariants.{Data};
ghost use Rattle.cove_clear.specs.Clearing.{AreGathered, Clears, IsBeingCleared, MayBeCleared, Proceeds};
ghost use Rattle.cove_model.specs.LawfulStores.{IsLawful};
ghost use Rattle.cove_model.specs.TableExamples.{entered_words, rooted};

/// TVM 1, whatever its mode, may be destroyed further where page 2 of its memory, which no leaf names, was gathered; not where a
/// hart is inside, or where page 0 of the host's counts a leaf that is none. Its words must allow every lawful store.
pub fn worked_being_cleared()
    ensures leaving { (leaves : ℕ) → IsBeingCleared 8 1 rooted 1 4 leaves (2 ∷ []) }
    ensures inside { (leaves : ℕ) → IsBeingCleared 8 1 entered_words 1 4 leaves (2 ∷ []) → ⊥ }
    ensures lost { (leaves : ℕ) → IsBeingCleared 8 1 rooted 1 4 leaves [] → ⊥ }
    ensures miscounted { (leaves : ℕ) → IsBeingCleared 8 1 (slice_set rooted 0 (host 1)) 1 4 leaves (2 ∷ []) → ⊥ }
    ensures may { (leaves : ℕ) → MayBeCleared (IsLawful 8 1 0 rooted) 8 4 leaves rooted (2 ∷ []) }
    ensures may_not { (leaves : ℕ) (words pool : List ℕ) → MayBeCleared (λ old place word. ⊥) 8 4 leaves words pool → ⊥ }
{}

/// Each page of the TVM's tables and memory is gathered once, or named by an entry; no other page is.
pub fn worked_gathering()
    ensures gathered { AreGathered 8 rooted 1 4 (2 ∷ []) }
    ensures lost { AreGathered 8 rooted 1 4 [] → ⊥ }
    ensures twice { AreGathered 8 rooted 1 4 (2 ∷ 2 ∷ []) → ⊥ }
    ensures of_the_host { AreGathered 8 rooted 1 4 (2 ∷ 0 ∷ []) → ⊥ }
    ensures named_still { (words : List ℕ) (a : Slot) → IsSlot a → entry_at 8 4 words a ≡ next_table 2
        → AreGathered 8 words 1 4 (2 ∷ []) → ⊥ }
{}

/// Words of the TVM's tables become 0, and counts of the host's pages change; no other word does.
pub fn worked_clearing()
    ensures same { (words : List ℕ) (t : ℕ) → Clears 8 words words t }
    ensures cleared { Clears 8 (slice_set rooted (table_word 8 4 0) (next_table 3)) rooted 1 }
    ensures counted { Clears 8 (slice_set rooted 0 (host 1)) rooted 1 }
    ensures linked { Clears 8 rooted (slice_set rooted (table_word 8 4 0) (next_table 3)) 1 → ⊥ }
    ensures of_another { Clears 8 (slice_set rooted (table_word 8 4 0) (next_table 3)) rooted 2 → ⊥ }
    ensures taken_back { Clears 8 rooted (slice_set rooted 2 released) 1 → ⊥ }
    ensures given_away { Clears 8 rooted (slice_set rooted 3 (given 2 Data)) 1 → ⊥ }
    ensures epoch { Clears 8 rooted (slice_set rooted (epoch_word 8) 1) 1 → ⊥ }
{}

/// A TVM goes on to the same words; no page that was gathered is lost on the way, and no page of its memory is taken back yet.
pub fn worked_going()
    ensures same { (leaves : ℕ) (words pool : List ℕ) → Proceeds 8 4 leaves words pool words pool }
    ensures lost { (leaves : ℕ) → Proceeds 8 4 leaves rooted (2 ∷ []) rooted [] → ⊥ }
    ensures taken_back { (leaves : ℕ) (pool : List ℕ) → Proceeds 8 4 leaves rooted (2 ∷ []) (slice_set rooted 2 released) pool → ⊥ }
{}
