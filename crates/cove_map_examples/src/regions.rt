//! What the guest pages of a TVM are, how many rows its shared ones form, and which TVM of the model they stand for.

ghost use Rattle.std.specs.Prelude.{◌≡◌, [], ◌∷◌, IsFalse, IsTrue, false, true};
ghost use Rattle.cove_map_examples.specs.Examples.{every_other, shared_17, unshared};
ghost use Rattle.cove_model.specs.Tvms.{new_tvm};
ghost use Rattle.cove_region.specs.GuestMaps.{AreAll, AreMade, AreOfOneRegion, FormRows, FormTooManyRows, has_guest, has_shared, has_shared_with, has_shared_without, holds, kind_of, meets, pages_from};
ghost use Rattle.cove_region.specs.Rows.{AreDisjoint};
ghost use Rattle.cove_region.specs.Standing.{StandFor};
ghost use Rattle.cove_region.specs.declared.kinds.AreaKind.TheVariants.{Outside, Private, Shared};

/// Areas by their guest pages.
pub fn worked_areas()
    ensures first { has_guest 16 (pages_from 16 2) ≡ true }
    ensures past { has_guest 18 (pages_from 16 2) ≡ false }
    ensures holds { holds (pages_from 17 1) (pages_from 16 2) ≡ true }
    ensures holds_not { holds (pages_from 17 2) (pages_from 16 2) ≡ false }
    ensures meets { meets (pages_from 17 2) (pages_from 16 2) ≡ true }
    ensures meets_not { meets (pages_from 18 2) (pages_from 16 2) ≡ false }
    ensures disjoint { AreDisjoint (pages_from 16 2) (pages_from 18 2) }
    ensures not_disjoint { AreDisjoint (pages_from 16 2) (pages_from 17 2) → ⊥ }
{}

/// Of two regions side by side, one page is shared: kinds of pages, of all pages of a run, in one region or not; what a call makes.
pub fn worked_kinds()
    ensures outside { kind_of shared_17 15 ≡ Outside }
    ensures private { kind_of shared_17 16 ≡ Private }
    ensures shared { kind_of shared_17 17 ≡ Shared }
    ensures all { AreAll shared_17 Shared (pages_from 17 1) }
    ensures not_all { AreAll shared_17 Private (pages_from 16 2) → ⊥ }
    ensures one_region { AreOfOneRegion shared_17 Shared (pages_from 17 1) }
    ensures two_regions { AreOfOneRegion unshared Private (pages_from 17 2) → ⊥ }
    ensures made { AreMade Shared (pages_from 17 1) unshared shared_17 }
    ensures made_not { AreMade Shared (pages_from 17 1) unshared unshared → ⊥ }
    ensures another { AreMade Shared (pages_from 16 1) unshared shared_17 → ⊥ }
{}

/// The shared pages form rows, of which there may be sixteen.
pub fn worked_rows()
    ensures one { FormRows (has_shared shared_17) 1 }
    ensures none { FormRows (has_shared unshared) 0 }
    ensures not_none { FormRows (has_shared shared_17) 0 → ⊥ }
    ensures with { has_shared_with unshared (pages_from 17 1) 17 ≡ true }
    ensures without { has_shared_without shared_17 (pages_from 17 1) 17 ≡ false }
    ensures seventeen { FormTooManyRows (has_shared (every_other 17)) }
    ensures sixteen { FormTooManyRows (has_shared (every_other 16)) → ⊥ }
{}

/// No region stands for a TVM as it is created; two regions do not.
pub fn worked_standing()
    ensures new { StandFor (record { regions = []; rows = [] }) (new_tvm 1) }
    ensures not_new { StandFor unshared (new_tvm 1) → ⊥ }
{}
