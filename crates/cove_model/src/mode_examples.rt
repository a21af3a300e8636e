//! Worked examples of the modes of tables, which the checker computes.

ghost use Rattle.std.specs.Prelude.{◌≡◌, ◌^◌, ◌∷◌, ◌++◌, [], map, None, replicate, Some};
ghost use Rattle.cove_base.specs.Modes.{guest_limit, leaves_of, mode_of};
ghost use Rattle.cove_base.specs.declared.calls.HostCall.TheVariants.{Create, Measured, Region};
ghost use Rattle.cove_base.specs.declared.events.Event.TheVariants.{Exit};
ghost use Rattle.cove_base.specs.declared.events.Exit.TheVariants.{Fault};
ghost use Rattle.cove_base.specs.declared.modes.Mode.TheVariants.{Sv39x4, Sv48x4};
ghost use Rattle.cove_base.specs.declared.statuses.Status.TheVariants.{Failed, InvalidAddress};
ghost use Rattle.cove_base.specs.declared.walks.Target.TheVariants.{Access, Fetch};
ghost use Rattle.cove_model.specs.Answers.{outcome};
ghost use Rattle.cove_model.specs.Deeds.{Fetches};
ghost use Rattle.cove_model.specs.Fits.{way_in};
ghost use Rattle.cove_model.specs.GuestExamples.{building, running, tenant};
ghost use Rattle.cove_model.specs.GuestPages.{missing_tables, part_of, pool_size};
ghost use Rattle.cove_model.specs.Mappings.{with_mappings};
ghost use Rattle.cove_model.specs.Offers.{Single, target_of};
ghost use Rattle.cove_model.specs.Owners.{AsRoot, AsState, Free, Given};
ghost use Rattle.cove_model.specs.States.{on_tvm};
ghost use Rattle.cove_model.specs.Translations.{Failed as NotFound, touched};
ghost use Rattle.cove_model.specs.Tvms.{created};
ghost use Rattle.cove_model.specs.WorkedDeeds.{offered_in};
ghost use Rattle.cove_model.specs.WorkedRows.{all_free, answer, answers, by_levels, deep, failing, far, tvm_after, with_first_tvm};

/// The mode that a root asks for, and the guest pages that it has.
pub fn worked_modes()
    ensures three_levels { mode_of 0x4000 ≡ Sv39x4 }
    ensures four_levels { mode_of 0x4001 ≡ Sv48x4 }
    ensures depths { map leaves_of (Sv39x4 ∷ Sv48x4 ∷ []) ≡ 2 ∷ 3 ∷ [] }
    ensures guest_pages { map guest_limit (Sv39x4 ∷ Sv48x4 ∷ []) ≡ 2 ^ 29 ∷ 2 ^ 38 ∷ [] }
    ensures creates { (tvm_after all_free (Create 0x4000 0x8000)).mode ≡ Sv39x4 }
    ensures creates_with_four_levels { outcome all_free 1 (Create 0x4001 0x8000) ≡ record {
      state = record all_free {
        pages = replicate 4 Free ++ replicate 4 (Given 1 AsRoot) ++ Given 1 AsState ∷ replicate 7 Free;
        tvms = created 1 Sv48x4 0x20010 ∷ [];
        made = 1;
      };
      value = 1;
    } }
    ensures create_with_another { failing all_free (Create 0x4002 0x8000) ≡ answers (InvalidAddress ∷ []) }
    ensures way { way_in running 0 ≡ Some (record { root = 0; mode = Sv39x4; tables = [] }) }
    ensures way_with_four_levels { way_in (with_first_tvm deep) 0 ≡ Some (record { root = 0; mode = Sv48x4; tables = [] }) }
{}

/// What calls and vCPUs of a TVM with four levels reach, and which table pages they need.
pub fn worked_levels()
    ensures region { failing (on_tvm 1 deep building) (Region 1 0x20000000000 0x1000) ≡ [] }
    ensures region_to_the_limit { failing (on_tvm 1 deep building) (Region 1 0x3fffffffff000 0x1000) ≡ [] }
    ensures region_past_the_limit { failing (on_tvm 1 deep building) (Region 1 0x3fffffffff000 0x2000) ≡ answers (InvalidAddress ∷ []) }
    ensures parts { map (λ level. part_of level 0x8040201) (1 ∷ 2 ∷ 3 ∷ []) ≡ 0x40201 ∷ 0x201 ∷ 1 ∷ [] }
    ensures parts_in_use { (by_levels (with_mappings 0x8000000000 1 [] tenant)).1 ≡ (0 ∷ 0x40000 ∷ []) ∷ (0 ∷ 0x200 ∷ []) ∷ (0 ∷ 1 ∷ []) ∷ [] }
    ensures pool { pool_size (record tenant { tables = 7 ∷ 8 ∷ 9 ∷ [] }) ≡ 1 }
    ensures pool_with_four_levels { pool_size (deep tenant) ≡ 0 }
    ensures missing { missing_tables tenant 0x8000000000 1 ≡ 2 }
    ensures missing_with_four_levels { missing_tables (deep tenant) 0x8000000000 1 ≡ 3 }
    ensures measured_without_a_table { failing (on_tvm 1 (λ tvm. deep (far tvm)) building) (Measured 1 0x8000 0xa000 1 0x200000) ≡ answer Failed 1 ∷ [] }
    ensures fetches { target_of (offered_in (with_first_tvm deep) (Fetches 0x20000000000)) ≡ Some (Fetch (record { 0 = 0x20000000 })) }
    ensures fetches_to_the_limit { target_of (offered_in (with_first_tvm deep) (Fetches 0x3fffffffffffc)) ≡ Some (Fetch (record { 0 = 0x3fffffffff })) }
    ensures fetches_past_the_limit { offered_in (with_first_tvm deep) (Fetches 0x4000000000000) ≡ Single (Exit (Fault 20 (record { 0 = 0x4000000000 }))) }
    ensures misses { touched (with_first_tvm deep) 0 (Exit (Fault 23 (record { 0 = 0x20000000 }))) ≡ Some (Access (record { 0 = 0x20000000 }), NotFound) }
    ensures misses_nothing_past_the_limit { touched (with_first_tvm deep) 0 (Exit (Fault 23 (record { 0 = 0x4000000000 }))) ≡ None }
{}
