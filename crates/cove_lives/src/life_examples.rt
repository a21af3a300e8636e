//! A worked life of a TVM: on a board of nine pages all but page 3 are freed, TVM 1 is created of pages 4 to 8, and then it is
//! given pages 0 and 1 for tables. What each call needs is there after those before it.

ghost use Rattle.std.specs.Prelude.{◌≡◌};
ghost use Rattle.cove_base.specs.declared.modes.Mode.TheVariants.{Sv39x4};
ghost use Rattle.cove_model.specs.Tvms.{created};
ghost use Rattle.cove_stage2.specs.declared.tables.Tables.{Tables};
ghost use Rattle.cove_lives.specs.Examples.{begun};
ghost use Rattle.cove_tvm.specs.GivenRuns.{MayGive};
ghost use Rattle.cove_lives.specs.LifeExamples.{created_state, created_ground, created_words, freed_state, freed_words, nine_ground, supplied_state, supplied_ground, supplied_model, supplied_tvm, supplied_words};
ghost use Rattle.cove_tvm.specs.NewTvms.{MayCreate};
ghost use Rattle.cove_tvm.specs.PrivateRuns.{MayGrow};
ghost use Rattle.cove_tvm.specs.SharedRuns.{MayShare};
ghost use Rattle.cove_tvm.specs.Stands.{Stands};

/// Words and ground stand for the state after each call; the words before it do not.
pub fn worked_life()
    ensures freed { Stands freed_words nine_ground freed_state }
    ensures created { (tables : Tables) → tables.root.0 ≡ 4 → tables.pages ≡ 9 → tables.mode ≡ Sv39x4 → Stands created_words (created_ground tables) created_state }
    ensures created_before { (tables : Tables) → Stands freed_words (created_ground tables) created_state → ⊥ }
    ensures supplied { (tables : Tables) → tables.root.0 ≡ 4 → tables.pages ≡ 9 → tables.mode ≡ Sv39x4 → Stands supplied_words (supplied_ground tables) supplied_state }
    ensures supplied_before { (tables : Tables) → Stands created_words (supplied_ground tables) supplied_state → ⊥ }
{}

/// TVM 1 may be created of free pages, and then be given more of them; it may not be given a page of the host's or pages past
/// the board, and nothing is given to TVM 2, which was not created.
pub fn worked_gifts()
    ensures may_create { MayCreate 9 0x4000 0x8000 freed_state }
    ensures free { (tables : Tables) → tables.root.0 ≡ 4 → tables.pages ≡ 9 → tables.mode ≡ Sv39x4
        → MayGive created_words (created_ground tables) created_state 0 0 2 (begun tables) (created 1 Sv39x4 0x10009) }
    ensures host_page { (tables : Tables) → MayGive created_words (created_ground tables) created_state 0 0x3000 1 (begun tables) (created 1 Sv39x4 0x10009) → ⊥ }
    ensures past_the_board { (tables : Tables) → MayGive created_words (created_ground tables) created_state 0 0x9000 1 (begun tables) (created 1 Sv39x4 0x10009) → ⊥ }
    ensures to_none { (tables : Tables) → MayGive created_words (created_ground tables) created_state 1 0 2 (begun tables) (created 1 Sv39x4 0x10009) → ⊥ }
{}

/// With two tables it may have guest page 9 at a free page, or shared at a page of the host's; without tables it may not.
pub fn worked_growth()
    ensures own { (tables : Tables) → tables.root.0 ≡ 4 → tables.pages ≡ 9 → tables.mode ≡ Sv39x4
        → MayGrow supplied_words (supplied_ground tables) supplied_state 0 0x2000 1 0x9000 (supplied_tvm tables) supplied_model }
    ensures shared { (tables : Tables) → tables.root.0 ≡ 4 → tables.pages ≡ 9 → tables.mode ≡ Sv39x4
        → MayShare supplied_words (supplied_ground tables) supplied_state 0 0x3000 1 0x9000 (supplied_tvm tables) supplied_model }
    ensures no_tables { (tables : Tables) → MayGrow created_words (created_ground tables) created_state 0 0x2000 1 0x9000 (begun tables) (created 1 Sv39x4 0x10009) → ⊥ }
    ensures host_page { (tables : Tables)
        → MayGrow supplied_words (supplied_ground tables) supplied_state 0 0x3000 1 0x9000 (supplied_tvm tables) supplied_model → ⊥ }
    ensures free_page { (tables : Tables)
        → MayShare supplied_words (supplied_ground tables) supplied_state 0 0x2000 1 0x9000 (supplied_tvm tables) supplied_model → ⊥ }
{}
