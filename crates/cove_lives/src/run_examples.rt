//! Worked examples of what the calls on runs of pages leave: frames, counts, and guest pages that are mapped.

ghost use Rattle.std.specs.Prelude.{◌+◌, ℕ, List, [], ◌∷◌, false, true};
ghost use Rattle.cove_base.specs.PageWords.{host};
ghost use Rattle.cove_base.specs.Stores.{stored};
ghost use Rattle.cove_base.specs.TableWords.{private_leaf};
ghost use Rattle.cove_base.specs.Tables.{next_table};
ghost use Rattle.cove_model.specs.Tvms.{new_tvm};
ghost use Rattle.cove_lives.specs.Examples.{own_five};
ghost use Rattle.cove_tvm.specs.MappedRuns.{AreMapped, MapsNext, MayMap};
ghost use Rattle.cove_tvm.specs.PrivateRuns.{FillsFrames};
ghost use Rattle.cove_lives.specs.RunExamples.{mappable, nine_linked, nine_mapped};
ghost use Rattle.cove_tvm.specs.SharedRuns.{RaisesCounts};
ghost use Rattle.cove_tvm.specs.TvmStands.{AreMappings, AreTables};

/// Each frame of a run is filled with its own content; no frame before or behind it changes, and none is lost.
pub fn worked_filling()
    ensures two_of_three { (a b c : List ℕ) (content : ℕ → List ℕ)
        → FillsFrames 1 2 content (a ∷ b ∷ c ∷ []) (a ∷ content 0 ∷ content 1 ∷ []) }
    ensures swapped { FillsFrames 1 2 (λ j. j ∷ []) ([] ∷ [] ∷ [] ∷ []) ([] ∷ (1 ∷ []) ∷ (0 ∷ []) ∷ []) → ⊥ }
    ensures before { FillsFrames 1 1 (λ j. 7 ∷ []) ([] ∷ [] ∷ [] ∷ []) ((7 ∷ []) ∷ (7 ∷ []) ∷ [] ∷ []) → ⊥ }
    ensures behind { FillsFrames 1 1 (λ j. 7 ∷ []) ([] ∷ [] ∷ [] ∷ []) ([] ∷ (7 ∷ []) ∷ (7 ∷ []) ∷ []) → ⊥ }
    ensures too_few { FillsFrames 1 1 (λ j. 7 ∷ []) ([] ∷ [] ∷ [] ∷ []) ([] ∷ (7 ∷ []) ∷ []) → ⊥ }
{}

/// The count of page 1 rises by one, whatever it was; it doesn't rise by two, and no other word changes.
pub fn worked_raising()
    ensures by_one { (maps : ℕ) (rest : List ℕ)
        → RaisesCounts 1 1 (host 0 ∷ host maps ∷ rest) (host 0 ∷ host (maps + 1) ∷ rest) }
    ensures by_two { RaisesCounts 1 1 (host 0 ∷ host 4 ∷ []) (host 0 ∷ host 6 ∷ []) → ⊥ }
    ensures left { RaisesCounts 1 1 (host 0 ∷ host 4 ∷ []) (host 0 ∷ host 4 ∷ []) → ⊥ }
    ensures neighbour { RaisesCounts 1 1 (host 0 ∷ host 4 ∷ host 0 ∷ []) (host 0 ∷ host 5 ∷ host 1 ∷ []) → ⊥ }
    ensures longer { RaisesCounts 1 1 (host 0 ∷ host 4 ∷ []) (host 0 ∷ host 5 ∷ 0 ∷ []) → ⊥ }
{}

/// Guest page 9 may be mapped to an own page, or shared at one of the host's, with two spare tables and no leaf yet; tables of one
/// level more lack three.
pub fn worked_runs_to_map()
    ensures own { MayMap 8 1 mappable 1 4 2 (0 ∷ 1 ∷ []) 9 2 1 false }
    ensures shared { MayMap 8 1 mappable 1 4 2 (0 ∷ 1 ∷ []) 9 3 1 true }
    ensures host_page_as_own { MayMap 8 1 mappable 1 4 2 (0 ∷ 1 ∷ []) 9 3 1 false → ⊥ }
    ensures own_page_as_shared { MayMap 8 1 mappable 1 4 2 (0 ∷ 1 ∷ []) 9 2 1 true → ⊥ }
    ensures one_level_more { MayMap 8 1 mappable 1 4 3 (0 ∷ 1 ∷ []) 9 2 1 false → ⊥ }
    ensures no_tables { MayMap 8 1 mappable 1 4 2 [] 9 2 1 false → ⊥ }
    ensures mapped_before { MayMap 8 1 nine_mapped 1 4 2 [] 9 2 1 false → ⊥ }
{}

/// Three stores map guest page 9 and take both spare pages; no other leaf, link or page word changes.
pub fn worked_mapping()
    ensures none_yet { AreMapped 8 1 1 4 2 9 2 1 0 false mappable (0 ∷ 1 ∷ []) mappable (0 ∷ 1 ∷ []) }
    ensures one { AreMapped 8 1 1 4 2 9 2 1 1 false mappable (0 ∷ 1 ∷ []) nine_mapped [] }
    ensures no_leaf { AreMapped 8 1 1 4 2 9 2 1 1 false mappable (0 ∷ 1 ∷ []) nine_linked [] → ⊥ }
    ensures second_leaf { AreMapped 8 1 1 4 2 9 2 1 1 false mappable (0 ∷ 1 ∷ []) (stored nine_mapped ((18, private_leaf 2) ∷ [])) [] → ⊥ }
    ensures second_table { AreMapped 8 1 1 4 2 9 2 1 1 false mappable (0 ∷ 1 ∷ []) (stored nine_mapped ((2057, next_table 3) ∷ [])) [] → ⊥ }
    ensures page_word { AreMapped 8 1 1 4 2 9 2 1 1 false mappable (0 ∷ 1 ∷ []) (stored nine_mapped ((3, host 2) ∷ [])) [] → ⊥ }
    ensures spare_yet { AreMapped 8 1 1 4 2 9 2 1 1 false mappable (0 ∷ 1 ∷ []) nine_mapped (0 ∷ []) → ⊥ }
{}

/// The stores of a mapping link its way, write its leaf and take the pages of the tables from the pool.
pub fn worked_next_mapping()
    ensures next { MapsNext 8 4 2 9 2 0 false mappable (0 ∷ 1 ∷ []) nine_mapped [] }
    ensures no_leaf { MapsNext 8 4 2 9 2 0 false mappable (0 ∷ 1 ∷ []) nine_linked [] → ⊥ }
    ensures spare_yet { MapsNext 8 4 2 9 2 0 false mappable (0 ∷ 1 ∷ []) nine_mapped (0 ∷ []) → ⊥ }
{}

/// A TVM without a mapping has tables without a leaf, and each of its table pages is in use or spare.
pub fn worked_mappings()
    ensures none { AreMappings 8 1 mappable 1 4 2 (0 ∷ 1 ∷ []) (record (new_tvm 1) { tables = 0 ∷ 1 ∷ [] }) }
    ensures no_leaf { AreMappings 8 1 mappable 1 4 2 (0 ∷ 1 ∷ []) (record (new_tvm 1) { tables = 0 ∷ 1 ∷ []; mappings = own_five ∷ [] }) → ⊥ }
    ensures leaf_alone { AreMappings 8 1 nine_mapped 1 4 2 [] (record (new_tvm 1) { tables = 0 ∷ 1 ∷ []; prefixes = λ level. 0 ∷ [] }) → ⊥ }
    ensures unlinked { AreMappings 8 1 mappable 1 4 2 (0 ∷ 1 ∷ []) (record (new_tvm 1) { tables = 0 ∷ 1 ∷ 2 ∷ 3 ∷ []; prefixes = λ level. 0 ∷ [] }) → ⊥ }
    ensures table_lost { AreMappings 8 1 mappable 1 4 2 (0 ∷ []) (record (new_tvm 1) { tables = 0 ∷ 1 ∷ [] }) → ⊥ }
{}

/// The root is the TVM's, and its pool has pages that are given to it for tables, each once, and none that serves a slot.
pub fn worked_pools()
    ensures own { AreTables 8 1 mappable 1 4 2 (0 ∷ 1 ∷ []) }
    ensures another_tvm { AreTables 8 1 mappable 2 4 2 [] → ⊥ }
    ensures twice { AreTables 8 1 mappable 1 4 2 (0 ∷ 0 ∷ []) → ⊥ }
    ensures memory { AreTables 8 1 mappable 1 4 2 (2 ∷ []) → ⊥ }
    ensures in_use { AreTables 8 1 nine_mapped 1 4 2 (0 ∷ []) → ⊥ }
{}
