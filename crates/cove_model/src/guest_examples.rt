//! Worked examples of the machine with a TVM, which the checker computes; each call by its rule, built or not.

ghost use Rattle.std.specs.Prelude.{◌≡◌, [], ◌∷◌, ◌++◌, map, replicate, Some, None, true, false};
ghost use Rattle.cove_base.specs.Measurement.{BoardRecord, FinalizeRecord, PageRecord, VcpuRecord};
ghost use Rattle.cove_base.specs.declared.calls.GuestAct.TheVariants.{Share};
ghost use Rattle.cove_base.specs.declared.calls.HostCall.TheVariants.{Convert, Destroy, Finalize, Invalidate, Measured, Remove, Run, TvmFence, Validate, Zero};
ghost use Rattle.cove_base.specs.declared.events.Event.TheVariants.{Exit};
ghost use Rattle.cove_base.specs.declared.events.Exit.TheVariants.{Kicked, Wfi};
ghost use Rattle.cove_base.specs.declared.modes.Mode.TheVariants.{Sv39x4};
ghost use Rattle.cove_base.specs.declared.statuses.Status.TheVariants.{AlreadyAvailable, AlreadyStarted, Denied, InvalidAddress};
ghost use Rattle.cove_base.specs.declared.walks.Target.TheVariants.{Access, Fetch};
ghost use Rattle.cove_model.specs.Examples.{board, refused};
ghost use Rattle.cove_model.specs.GuestExamples.{bound_cpus, building, refused_by, running, standing_of, tenant, unbound};
ghost use Rattle.cove_model.specs.GuestCalls.{guest_rule};
ghost use Rattle.cove_model.specs.HostCalls.{ForgetsGuests, rule};
ghost use Rattle.cove_model.specs.Measured.{AreBuilt, AreSealed, IsMeasured};
ghost use Rattle.cove_model.specs.Offers.{Single, is_found, may_succeed, offer, target_of};
ghost use Rattle.cove_model.specs.Orderly.{AreBoundApart, cpus_of, bound_file_of};
ghost use Rattle.cove_model.specs.States.{harts_inside, tvm_at};
ghost use Rattle.cove_model.specs.Owners.{Free, Given, AsRoot, AsState, is_free, page_at};
ghost use Rattle.cove_model.specs.Pages.{root_of};
ghost use Rattle.cove_model.specs.Translations.{forgets_by};
ghost use Rattle.cove_model.specs.Tvms.{Blocked, Present, created};

/// What is refused of a TVM that a hart runs, and what is not.
pub fn worked_guest_refusals()
    ensures convert_of_a_mapped_page { refused_by running 1 (Convert 0x7000 1) ≡ refused Denied }
    ensures convert_beside_it { refused_by running 1 (Convert 0x8000 1) ≡ None }
    ensures zero_of_a_page_of_the_hosts { refused_by running 1 (Zero 1 0x8000 1 0x14000) ≡ refused InvalidAddress }
    ensures zero_of_a_free_page { refused_by running 1 (Zero 1 0xa000 1 0x14000) ≡ None }
    ensures map_of_a_mapped_page { refused_by running 1 (Zero 1 0xa000 1 0x10000) ≡ refused AlreadyAvailable }
    ensures remove_without_a_fence { refused_by running 1 (Remove 1 0x11000 1) ≡ refused Denied }
    ensures remove_after_a_fence { refused_by running 1 (Remove 1 0x12000 1) ≡ None }
    ensures validate_of_another_kind { refused_by running 1 (Validate 1 0x12000 1) ≡ refused Denied }
    ensures validate_of_its_kind { refused_by running 1 (Validate 1 0x11000 1) ≡ None }
    ensures run_of_a_running_vcpu { refused_by running 1 (Run 1 0 5)
        ≡ Some (record { status = AlreadyStarted; value = 0 }) }
    ensures run_of_another { refused_by running 1 (Run 1 1 5) ≡ None }
    ensures destroy_while_a_hart_is_inside { refused_by running 1 (Destroy 1)
        ≡ Some (record { status = Denied; value = 0 }) }
    ensures measured_after_finalize { refused_by running 1 (Measured 1 0 0xa000 1 0x14000) ≡ refused Denied }
{}

/// What a guest's walk finds, what a kick ends, and what a hart forgets as it leaves.
pub fn worked_guests()
    ensures fetch_of_its_own_page { is_found running 0 (Fetch (record { 0 = 16 })) ≡ true }
    ensures fetch_of_a_shared_page { is_found running 0 (Fetch (record { 0 = 19 })) ≡ false }
    ensures access_of_a_shared_page { is_found running 0 (Access (record { 0 = 19 })) ≡ true }
    ensures walk_of_a_blocked_page { is_found running 0 (Access (record { 0 = 17 })) ≡ false }
    ensures held_yet { may_succeed running 0 (Access (record { 0 = 17 })) ≡ true }
    ensures fetches { target_of (offer (board 2 [] [] []) running 0) ≡ Some (Fetch (record { 0 = 16 })) }
    ensures kicked { offer (board 2 [] [] []) (record running { kicked = 0 ∷ [] }) 0 ≡ Single (Exit Kicked) }
    ensures not_kicked { may_succeed running 1 (Fetch (record { 0 = 16 })) ≡ false }
    ensures leaves { forgets_by running 0 (Exit Wfi) ≡ ForgetsGuests }
    ensures root_comes_first { root_of (Free ∷ Given 2 AsRoot ∷ Given 1 AsState ∷ Given 1 AsRoot ∷ Given 1 AsRoot ∷ []) 1 ≡ 3 }
    ensures root_of_another { root_of (Free ∷ Given 2 AsRoot ∷ Given 1 AsState ∷ Given 1 AsRoot ∷ Given 1 AsRoot ∷ []) 2 ≡ 1 }
    ensures shares { (guest_rule running 0 1 0x14000 0x1000 (Share 0x14000 0x1000)).forgets ≡ ForgetsGuests }
{}

/// What calls on a TVM leave: how its mappings stand, and what was measured of it.
pub fn worked_guest_outcomes()
    ensures inside { harts_inside running 1 ≡ 0 ∷ [] }
    ensures invalidated { standing_of (Invalidate 1 0x10000 1) 16 ≡ Some (Blocked (0 ∷ []) None) }
    ensures fenced { standing_of (TvmFence 1) 17 ≡ Some (Blocked (0 ∷ []) (Some (0 ∷ []))) }
    ensures validated { standing_of (Validate 1 0x11000 1) 17 ≡ Some Present }
    ensures removed { standing_of (Remove 1 0x12000 1) 18 ≡ None }
    ensures removed_page_is_free { page_at (rule running 1 (Remove 1 0x12000 1)).outcome.state.pages 6 ≡ Free }
    ensures destroyed { map is_free (rule running 1 (Destroy 1)).outcome.state.pages
        ≡ replicate 4 false ++ replicate 3 true ++ replicate 3 false ++ true ∷ false ∷ [] }
    ensures finalized { (tvm_at (rule building 0 (Finalize 1 0x10000 7)).outcome.state 1).records
        ≡ FinalizeRecord 0x10000 7 ∷ [] }
{}

/// What is measured of a TVM begins with the board's record and ends with its finalize record, and parts stand between them.
pub fn worked_records()
    ensures created { IsMeasured 0x20010 (created 1 Sv39x4 0x20010) }
    ensures of_another_board { IsMeasured 0x20010 (created 1 Sv39x4 0x10010) → ⊥ }
    ensures built { AreBuilt 0x20010 (BoardRecord 0x20010 ∷ PageRecord 0x10000 [] ∷ VcpuRecord 0 ∷ []) }
    ensures without_its_board { AreBuilt 0x20010 (VcpuRecord 0 ∷ []) → ⊥ }
    ensures sealed { AreSealed 0x20010 (BoardRecord 0x20010 ∷ VcpuRecord 0 ∷ FinalizeRecord 0x10000 7 ∷ []) }
    ensures unsealed { AreSealed 0x20010 (BoardRecord 0x20010 ∷ VcpuRecord 0 ∷ []) → ⊥ }
{}

/// Two vCPUs are bound apart where their numbers and their files differ.
pub fn worked_bound_files()
    ensures bound { bound_file_of (bound_cpus 1 1 2) 1 1 ≡ Some (record { hart = 1; file = 2 }) }
    ensures unbound { bound_file_of unbound 1 1 ≡ None }
    ensures numbers { cpus_of tenant ≡ 0 ∷ 1 ∷ [] }
    ensures apart { AreBoundApart (bound_cpus 1 1 2) }
    ensures one_file { AreBoundApart (bound_cpus 1 1 1) → ⊥ }
    ensures one_number { AreBoundApart (bound_cpus 0 1 2) → ⊥ }
{}
