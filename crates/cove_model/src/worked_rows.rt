//! Worked rows of the calls of the host, which the checker computes: each check where it fails alone, the order of those
//! that fail together, and what an accepted call changes and what it leaves. Each call by its rule, built or not.

ghost use Rattle.std.specs.Prelude.{◌≡◌, ◌∷◌, ◌++◌, [], false, map, None, replicate, Some, true};
ghost use Rattle.cove_base.specs.InterruptFiles.{empty_file, raised};
ghost use Rattle.cove_base.specs.Measurement.{BoardRecord, FinalizeRecord, PageRecord, VcpuRecord};
ghost use Rattle.cove_base.specs.declared.calls.HostCall.TheVariants.{Bind, Convert, Create, Destroy, Finalize, GlobalFence, Info, Inject, Invalidate, Kick, LocalFence, Measured, Reclaim, Region, Remove, Run, Shared, Tables, TvmFence, Unbind, Unbound, Validate, Vcpu, Zero};
ghost use Rattle.cove_base.specs.declared.statuses.Status.TheVariants.{AlreadyAvailable, AlreadyStarted, AlreadyStopped, Denied, Failed, InvalidAddress, InvalidParam};
ghost use Rattle.cove_model.specs.Answers.{outcome};
ghost use Rattle.cove_model.specs.GuestExamples.{building, first_cpu, mapped, running, tenant};
ghost use Rattle.cove_model.specs.GuestPages.{is_private, missing_tables};
ghost use Rattle.cove_model.specs.HostCalls.{ForgetsAll, ForgetsGuests, Keeps, rule};
ghost use Rattle.cove_model.specs.Owners.{AsData, AsRoot, AsState, AsTable, AsVcpu, Converting, Free, Given, Host, is_free, zeros};
ghost use Rattle.cove_model.specs.States.{new_cpu, on_tvm};
ghost use Rattle.cove_model.specs.Tvms.{Begun, Blocked, HostPage, new_tvm, NotBegun, OwnPage, Present};
ghost use Rattle.cove_model.specs.WorkedRows.{after_call, all_free, answer, answers, bound, bound_so, by_levels, cpu_after, crowded, failing, far, filed, joined_by, mapped_early, mapping_after, neighbours, page_after, pending_nine, stray, tvm_after, unmapped, waiting_so, with_cpu, with_first_tvm, with_page, worded};

/// Pages that go to the monitor and come back.
pub fn worked_conversions()
    ensures convert_of_no_page { failing running (Convert 0x8000 0) ≡ answers (InvalidParam ∷ []) }
    ensures convert_unaligned { failing running (Convert 0x8001 1) ≡ answers (InvalidAddress ∷ []) }
    ensures convert_past_memory { failing running (Convert 0xb000 2) ≡ answers (InvalidAddress ∷ []) }
    ensures convert_of_a_free_page { failing running (Convert 0xa000 1) ≡ answers (InvalidAddress ∷ []) }
    ensures convert_of_a_mapped_page { failing running (Convert 0x7000 2) ≡ answers (Denied ∷ []) }
    ensures convert_in_order { failing running (Convert 0x7001 17)
        ≡ answers (InvalidParam ∷ InvalidAddress ∷ InvalidAddress ∷ InvalidAddress ∷ Denied ∷ []) }
    ensures converts { page_after running (Convert 0x8000 1) 8 ≡ Converting (0 ∷ 1 ∷ []) None zeros }
    ensures converts_no_other { page_after running (Convert 0x8000 1) 9 ≡ Host zeros }
    ensures fence_during_a_fence { failing (record running { unanswered = 0 ∷ 1 ∷ [] }) GlobalFence ≡ answer AlreadyStarted 0 ∷ [] }
    ensures fence_while_one_waits { failing (record running { unanswered = 1 ∷ [] }) GlobalFence ≡ answer AlreadyStarted 1 ∷ [] }
    ensures fences { page_after (with_page 8 (Converting (0 ∷ 1 ∷ []) None zeros) running) GlobalFence 8 ≡ Converting (0 ∷ []) (Some (0 ∷ [])) zeros }
    ensures fences_no_earlier { page_after (with_page 8 (Converting (0 ∷ 1 ∷ []) (Some (1 ∷ [])) zeros) running) GlobalFence 8
        ≡ Converting (0 ∷ []) (Some (1 ∷ [])) zeros }
    ensures fence_waits { (after_call running GlobalFence).unanswered ≡ 0 ∷ [] }
    ensures fence_forgets { (rule running 1 GlobalFence).forgets ≡ ForgetsAll }
    ensures local_fence { failing (record running { unanswered = 0 ∷ 1 ∷ [] }) LocalFence ≡ [] }
    ensures answers_the_fence { (after_call (record running { unanswered = 0 ∷ 1 ∷ [] }) LocalFence).unanswered ≡ 0 ∷ [] }
    ensures answers_last { page_after (with_page 8 (Converting (1 ∷ []) (Some (1 ∷ [])) zeros) running) LocalFence 8 ≡ Free }
    ensures answers_early { page_after (with_page 8 (Converting (0 ∷ 1 ∷ []) None zeros) running) LocalFence 8 ≡ Converting (0 ∷ []) None zeros }
    ensures local_fence_forgets { (rule running 1 LocalFence).forgets ≡ ForgetsAll }
    ensures reclaim_of_no_page { failing running (Reclaim 0xa000 0) ≡ answers (InvalidParam ∷ []) }
    ensures reclaim_unaligned { failing running (Reclaim 0xa001 1) ≡ answers (InvalidAddress ∷ []) }
    ensures reclaim_past_memory { failing (with_page 11 Free running) (Reclaim 0xb000 2) ≡ answers (InvalidAddress ∷ []) }
    ensures reclaim_of_a_page_on_its_way { failing (with_page 10 (Converting [] (Some (0 ∷ [])) zeros) running) (Reclaim 0xa000 1)
        ≡ answers (InvalidAddress ∷ []) }
    ensures reclaim_in_order { failing running (Reclaim 0xb001 17) ≡ answers (InvalidParam ∷ InvalidAddress ∷ InvalidAddress ∷ InvalidAddress ∷ []) }
    ensures reclaims { page_after running (Reclaim 0xa000 1) 10 ≡ Host zeros }
    ensures reclaims_no_other { page_after running (Reclaim 0xa000 1) 4 ≡ Given 1 (AsData 16) }
    ensures info { outcome running 1 Info ≡ record { state = running; value = 1 } }
    ensures info_is_never_refused { failing running Info ≡ [] }
{}

/// TVMs from their creation to their end.
pub fn worked_lives()
    ensures create_of_the_65th { failing (record all_free { made = 64 }) (Create 0x4000 0x8000) ≡ answers (Failed ∷ []) }
    ensures create_of_the_64th { failing (record all_free { made = 63 }) (Create 0x4000 0x8000) ≡ [] }
    ensures create_with_root_between { failing all_free (Create 0x5000 0x9000) ≡ answers (InvalidAddress ∷ []) }
    ensures create_with_state_unaligned { failing all_free (Create 0x4000 0x8001) ≡ answers (InvalidAddress ∷ []) }
    ensures create_with_root_outside { failing all_free (Create 0x10000 0x8000) ≡ answers (InvalidAddress ∷ []) }
    ensures create_with_state_outside { failing all_free (Create 0x4000 0x10000) ≡ answers (InvalidAddress ∷ []) }
    ensures create_with_one_for_both { failing all_free (Create 0x4000 0x7000) ≡ answers (InvalidAddress ∷ []) }
    ensures create_with_root_taken { failing (with_page 7 (Host zeros) all_free) (Create 0x4000 0x8000) ≡ answers (InvalidAddress ∷ []) }
    ensures create_with_state_taken { failing (with_page 8 (Host zeros) all_free) (Create 0x4000 0x8000) ≡ answers (InvalidAddress ∷ []) }
    ensures create_in_order { failing (record all_free { made = 64 }) (Create 0x11001 0x12001) ≡ answers (Failed ∷ replicate 5 InvalidAddress) }
    ensures creates { outcome all_free 1 (Create 0x4000 0x8000) ≡ record {
      state = record all_free {
        pages = replicate 4 Free ++ replicate 4 (Given 1 AsRoot) ++ Given 1 AsState ∷ replicate 7 Free;
        tvms = record (new_tvm 1) { records = BoardRecord 0x20010 ∷ [] } ∷ [];
        made = 1;
      };
      value = 1;
    } }
    ensures region_of_no_tvm { failing building (Region 9 0x20000 0x1000) ≡ answers (InvalidParam ∷ []) }
    ensures region_after_finalize { failing running (Region 1 0x20000 0x1000) ≡ answers (Denied ∷ []) }
    ensures region_unaligned { failing building (Region 1 0x20001 0x1000) ≡ answers (InvalidAddress ∷ []) }
    ensures region_of_half_pages { failing building (Region 1 0x20000 0x1001) ≡ answers (InvalidAddress ∷ []) }
    ensures region_of_nothing { failing building (Region 1 0x20000 0) ≡ answers (InvalidAddress ∷ []) }
    ensures region_to_the_limit { failing building (Region 1 0x1fffffff000 0x1000) ≡ [] }
    ensures region_past_the_limit { failing building (Region 1 0x1fffffff000 0x2000) ≡ answers (InvalidAddress ∷ []) }
    ensures region_over_another { failing building (Region 1 0xf000 0x2000) ≡ answers (InvalidAddress ∷ []) }
    ensures region_before_another { failing building (Region 1 0xf000 0x1000) ≡ [] }
    ensures region_behind_another { failing building (Region 1 0x15000 0x1000) ≡ [] }
    ensures ninth_region { failing (on_tvm 1 crowded building) (Region 1 0x20000 0x1000) ≡ answers (Failed ∷ []) }
    ensures region_in_order { failing (with_first_tvm crowded) (Region 1 0x14001 0x1001)
        ≡ answers (Denied ∷ InvalidAddress ∷ InvalidAddress ∷ InvalidAddress ∷ Failed ∷ []) }
    ensures adds_a_region { (tvm_after building (Region 1 0x20000 0x3000)).regions
        ≡ record { first = 16; count = 5 } ∷ record { first = 32; count = 3 } ∷ [] }
    ensures its_pages_are_private { map (is_private (tvm_after building (Region 1 0x20000 0x3000))) (31 ∷ 32 ∷ 34 ∷ 35 ∷ [])
        ≡ false ∷ true ∷ true ∷ false ∷ [] }
    ensures tables_of_no_tvm { failing running (Tables 9 0xa000 1) ≡ answers (InvalidParam ∷ []) }
    ensures tables_of_no_page { failing running (Tables 1 0xa000 0) ≡ answers (InvalidParam ∷ []) }
    ensures tables_unaligned { failing running (Tables 1 0xa001 1) ≡ answers (InvalidAddress ∷ []) }
    ensures tables_past_memory { failing (with_page 11 Free running) (Tables 1 0xb000 2) ≡ answers (InvalidAddress ∷ []) }
    ensures tables_of_a_page_of_the_hosts { failing running (Tables 1 0x8000 1) ≡ answers (InvalidAddress ∷ []) }
    ensures tables_in_order { failing running (Tables 9 0x8001 17)
        ≡ answers (InvalidParam ∷ InvalidParam ∷ InvalidAddress ∷ InvalidAddress ∷ InvalidAddress ∷ []) }
    ensures tables_while_building { failing building (Tables 1 0xa000 1) ≡ [] }
    ensures adds_a_table { page_after running (Tables 1 0xa000 1) 10 ≡ Given 1 AsTable }
    ensures adds_to_its_tables { (tvm_after running (Tables 1 0xa000 1)).tables ≡ 8 ∷ 9 ∷ 10 ∷ [] }
    ensures vcpu_of_no_tvm { failing building (Vcpu 9 2 0xa000) ≡ answers (InvalidParam ∷ []) }
    ensures vcpu_after_finalize { failing running (Vcpu 1 2 0xa000) ≡ answers (Denied ∷ []) }
    ensures fifth_vcpu { failing building (Vcpu 1 4 0xa000) ≡ answers (InvalidParam ∷ []) }
    ensures fourth_vcpu { failing building (Vcpu 1 3 0xa000) ≡ [] }
    ensures vcpu_twice { failing building (Vcpu 1 1 0xa000) ≡ answers (AlreadyAvailable ∷ []) }
    ensures vcpu_unaligned { failing building (Vcpu 1 2 0xa001) ≡ answers (InvalidAddress ∷ []) }
    ensures vcpu_past_memory { failing building (Vcpu 1 2 0xc000) ≡ answers (InvalidAddress ∷ []) }
    ensures vcpu_on_a_page_of_the_hosts { failing building (Vcpu 1 2 0x8000) ≡ answers (InvalidAddress ∷ []) }
    ensures vcpu_in_order { failing running (Vcpu 1 1 0x8001) ≡ answers (Denied ∷ AlreadyAvailable ∷ InvalidAddress ∷ InvalidAddress ∷ []) }
    ensures vcpu_in_order_too { failing running (Vcpu 1 4 0xc001) ≡ answers (Denied ∷ InvalidParam ∷ InvalidAddress ∷ InvalidAddress ∷ []) }
    ensures adds_a_vcpu { (tvm_after building (Vcpu 1 2 0xa000)).cpus ≡ first_cpu ∷ new_cpu 1 ∷ new_cpu 2 ∷ [] }
    ensures measures_a_vcpu { (tvm_after building (Vcpu 1 2 0xa000)).records ≡ VcpuRecord 2 ∷ [] }
    ensures vcpu_takes_its_page { page_after building (Vcpu 1 2 0xa000) 10 ≡ Given 1 AsVcpu }
    ensures finalize_of_no_tvm { failing building (Finalize 9 0 0) ≡ answers (InvalidParam ∷ Denied ∷ []) }
    ensures finalize_twice { failing running (Finalize 1 0 0) ≡ answers (Denied ∷ []) }
    ensures finalize_without_a_vcpu { failing (on_tvm 1 (λ tvm. record tvm { cpus = [] }) building) (Finalize 1 0 0) ≡ answers (Denied ∷ []) }
    ensures finalize_between_instructions { failing building (Finalize 1 2 0) ≡ answers (InvalidAddress ∷ []) }
    ensures finalize_at_any_instruction { failing building (Finalize 1 4 0) ≡ [] }
    ensures finalize_in_order { failing running (Finalize 9 2 0) ≡ answers (InvalidParam ∷ Denied ∷ InvalidAddress ∷ []) }
    ensures finalizes { tvm_after building (Finalize 1 0x10000 7) ≡ record tenant {
      mappings = [];
      records = FinalizeRecord 0x10000 7 ∷ [];
      cpus = record first_cpu { x = replicate 11 0 ++ 7 ∷ replicate 20 0 } ∷ record (new_cpu 1) { x = replicate 10 0 ++ 1 ∷ 7 ∷ replicate 20 0; pc = 0x10000 } ∷ [];
    } }
    ensures destroy_of_no_tvm { failing running (Destroy 9) ≡ answers (InvalidParam ∷ []) }
    ensures destroy_with_harts_inside { failing (joined_by 1 running) (Destroy 1) ≡ answer Denied 0 ∷ [] }
    ensures destroy_with_a_later_hart_inside { failing (joined_by 1 neighbours) (Destroy 1) ≡ answer Denied 1 ∷ [] }
    ensures destroy_beside_it { failing (joined_by 1 neighbours) (Destroy 2) ≡ [] }
    ensures destroys { (after_call neighbours (Destroy 1)).tvms ≡ record tenant { number = 2 } ∷ [] }
    ensures destroy_frees { map is_free (after_call neighbours (Destroy 1)).pages
        ≡ replicate 4 false ++ replicate 3 true ++ replicate 3 false ++ true ∷ false ∷ [] }
    ensures destroy_of_another { page_after neighbours (Destroy 2) 4 ≡ Given 1 (AsData 16) }
{}

/// Guest pages that are mapped: measured, of zeros, and shared.
pub fn worked_mappings()
    ensures measured_of_no_tvm { failing building (Measured 9 0x8000 0xa000 0 0x10000) ≡ answers (InvalidParam ∷ InvalidParam ∷ []) }
    ensures measured_after_finalize { failing running (Measured 1 0x8000 0xa000 1 0x14000) ≡ answers (Denied ∷ []) }
    ensures measured_of_no_page { failing building (Measured 1 0x8000 0xa000 0 0x10000) ≡ answers (InvalidParam ∷ []) }
    ensures measured_from_unaligned { failing building (Measured 1 0x8001 0xa000 1 0x10000) ≡ answers (InvalidAddress ∷ []) }
    ensures measured_to_unaligned { failing building (Measured 1 0x8000 0xa001 1 0x10000) ≡ answers (InvalidAddress ∷ []) }
    ensures measured_at_unaligned { failing building (Measured 1 0x8000 0xa000 1 0x10001) ≡ answers (InvalidAddress ∷ []) }
    ensures measured_from_past_memory { failing (with_page 9 Free building) (Measured 1 0xb000 0x9000 2 0x10000) ≡ answers (InvalidAddress ∷ []) }
    ensures measured_to_past_memory { failing (with_page 11 Free building) (Measured 1 0x8000 0xb000 2 0x10000) ≡ answers (InvalidAddress ∷ []) }
    ensures measured_from_a_free_page { failing building (Measured 1 0xa000 0xa000 1 0x10000) ≡ answers (InvalidAddress ∷ []) }
    ensures measured_to_a_page_of_the_hosts { failing building (Measured 1 0x8000 0x9000 1 0x10000) ≡ answers (InvalidAddress ∷ []) }
    ensures measured_at_a_shared_page { failing building (Measured 1 0x8000 0xa000 1 0x12000) ≡ answers (InvalidAddress ∷ []) }
    ensures measured_in_no_region { failing building (Measured 1 0x8000 0xa000 1 0x15000) ≡ answers (InvalidAddress ∷ []) }
    ensures measured_twice { failing mapped_early (Measured 1 0x8000 0xa000 1 0x10000) ≡ answers (AlreadyAvailable ∷ []) }
    ensures measured_at_a_blocked_page { failing mapped_early (Measured 1 0x8000 0xa000 1 0x11000) ≡ answers (AlreadyAvailable ∷ []) }
    ensures measured_without_a_table { failing (on_tvm 1 far building) (Measured 1 0x8000 0xa000 1 0x200000) ≡ answer Failed 1 ∷ [] }
    ensures measured_without_tables { failing (on_tvm 1 (λ tvm. record (new_tvm 1) { regions = tvm.regions }) building) (Measured 1 0x8000 0xa000 1 0x10000)
        ≡ answer Failed 2 ∷ [] }
    ensures measured_in_order { failing (with_first_tvm stray) (Measured 1 0xa001 0xb001 17 0x200001)
        ≡ answers (Denied ∷ InvalidParam ∷ replicate 8 InvalidAddress ++ AlreadyAvailable ∷ []) ++ answer Failed 1 ∷ [] }
    ensures measures { by_levels (tvm_after worded (Measured 1 0x8000 0xa000 2 0x10000)) ≡ by_levels (record tenant {
      runnable = false;
      mappings = mapped 16 (OwnPage 10 (5 ∷ [])) Present ∷ mapped 17 (OwnPage 11 (6 ∷ [])) Present ∷ [];
      records = PageRecord 0x10000 (5 ∷ []) ∷ PageRecord 0x11000 (6 ∷ []) ∷ [];
    }) }
    ensures measured_pages { map (page_after worded (Measured 1 0x8000 0xa000 2 0x10000)) (8 ∷ 9 ∷ 10 ∷ 11 ∷ [])
        ≡ Host (5 ∷ []) ∷ Host (6 ∷ []) ∷ Given 1 (AsData 16) ∷ Given 1 (AsData 17) ∷ [] }
    ensures zero_of_no_tvm { failing running (Zero 9 0xa000 0 0x14000) ≡ answers (InvalidParam ∷ Denied ∷ InvalidParam ∷ []) }
    ensures zero_before_finalize { failing building (Zero 1 0xa000 1 0x14000) ≡ answers (Denied ∷ []) }
    ensures zero_of_no_page { failing running (Zero 1 0xa000 0 0x14000) ≡ answers (InvalidParam ∷ []) }
    ensures zero_unaligned { failing running (Zero 1 0xa001 1 0x14000) ≡ answers (InvalidAddress ∷ []) }
    ensures zero_at_unaligned { failing running (Zero 1 0xa000 1 0x14001) ≡ answers (InvalidAddress ∷ []) }
    ensures zero_past_memory { failing (with_page 11 Free unmapped) (Zero 1 0xb000 2 0x10000) ≡ answers (InvalidAddress ∷ []) }
    ensures zero_of_a_page_of_the_hosts { failing running (Zero 1 0x8000 1 0x14000) ≡ answers (InvalidAddress ∷ []) }
    ensures zero_at_a_shared_page { failing unmapped (Zero 1 0xa000 1 0x12000) ≡ answers (InvalidAddress ∷ []) }
    ensures zero_twice { failing running (Zero 1 0xa000 1 0x10000) ≡ answers (AlreadyAvailable ∷ []) }
    ensures zero_without_a_table { failing (with_first_tvm far) (Zero 1 0xa000 1 0x200000) ≡ answer Failed 1 ∷ [] }
    ensures zero_in_order { failing (on_tvm 1 stray building) (Zero 1 0xb001 17 0x200001)
        ≡ answers (Denied ∷ InvalidParam ∷ replicate 5 InvalidAddress ++ AlreadyAvailable ∷ []) ++ answer Failed 1 ∷ [] }
    ensures zeroes { by_levels (tvm_after running (Zero 1 0xa000 1 0x14000))
        ≡ by_levels (record tenant { mappings = tenant.mappings ++ mapped 20 (OwnPage 10 zeros) Present ∷ [] }) }
    ensures zero_takes_its_page { page_after running (Zero 1 0xa000 1 0x14000) 10 ≡ Given 1 (AsData 20) }
    ensures zero_uses_a_table { missing_tables (tvm_after (on_tvm 1 (λ tvm. record (far tvm) { tables = 8 ∷ 9 ∷ 7 ∷ [] }) running) (Zero 1 0xa000 1 0x200000)) 0x200000 1 ≡ 0 }
    ensures shared_of_no_tvm { failing running (Shared 9 0x8000 0 0x12000) ≡ answers (InvalidParam ∷ Denied ∷ InvalidParam ∷ []) }
    ensures shared_before_finalize { failing building (Shared 1 0x8000 1 0x12000) ≡ answers (Denied ∷ []) }
    ensures shared_of_no_page { failing unmapped (Shared 1 0x8000 0 0x12000) ≡ answers (InvalidParam ∷ []) }
    ensures shared_unaligned { failing unmapped (Shared 1 0x8001 1 0x12000) ≡ answers (InvalidAddress ∷ []) }
    ensures shared_at_unaligned { failing unmapped (Shared 1 0x8000 1 0x12001) ≡ answers (InvalidAddress ∷ []) }
    ensures shared_past_memory { failing unmapped (Shared 1 0xb000 2 0x12000) ≡ answers (InvalidAddress ∷ []) }
    ensures shared_of_a_free_page { failing unmapped (Shared 1 0xa000 1 0x12000) ≡ answers (InvalidAddress ∷ []) }
    ensures shared_at_a_private_page { failing unmapped (Shared 1 0x8000 1 0x10000) ≡ answers (InvalidAddress ∷ []) }
    ensures shared_twice { failing running (Shared 1 0x8000 1 0x13000) ≡ answers (AlreadyAvailable ∷ []) }
    ensures shared_without_a_table { failing (with_first_tvm (λ tvm. record (far tvm) { shared = 512 ∷ [] })) (Shared 1 0x8000 1 0x200000) ≡ answer Failed 1 ∷ [] }
    ensures shared_in_order { failing (on_tvm 1 stray building) (Shared 1 0xa001 17 0x200001)
        ≡ answers (Denied ∷ InvalidParam ∷ replicate 5 InvalidAddress ++ AlreadyAvailable ∷ []) ++ answer Failed 1 ∷ [] }
    ensures shared_of_a_shared_page { failing (with_first_tvm (λ tvm. record tvm { mappings = mapped 19 (HostPage 7) Present ∷ [] })) (Shared 1 0x7000 1 0x12000) ≡ [] }
    ensures shares { by_levels (tvm_after unmapped (Shared 1 0x8000 2 0x12000)) ≡ by_levels (record tenant {
      mappings = mapped 18 (HostPage 8) Present ∷ mapped 19 (HostPage 9) Present ∷ [];
    }) }
    ensures shared_stays_the_hosts { (after_call unmapped (Shared 1 0x8000 2 0x12000)).pages ≡ running.pages }
{}

/// Guest pages that are blocked, fenced, unblocked and removed.
pub fn worked_blockings()
    ensures invalidate_of_no_tvm { failing running (Invalidate 9 0x10000 0) ≡ answers (InvalidParam ∷ Denied ∷ InvalidParam ∷ []) }
    ensures invalidate_before_finalize { failing mapped_early (Invalidate 1 0x10000 1) ≡ answers (Denied ∷ []) }
    ensures invalidate_of_no_page { failing running (Invalidate 1 0x10000 0) ≡ answers (InvalidParam ∷ []) }
    ensures invalidate_unaligned { failing running (Invalidate 1 0x10001 1) ≡ answers (InvalidAddress ∷ []) }
    ensures invalidate_of_a_blocked_page { failing running (Invalidate 1 0x10000 2) ≡ answers (InvalidAddress ∷ []) }
    ensures invalidate_of_nothing_mapped { failing running (Invalidate 1 0x14000 1) ≡ answers (InvalidAddress ∷ []) }
    ensures invalidate_in_order { failing mapped_early (Invalidate 1 0x11001 17) ≡ answers (Denied ∷ InvalidParam ∷ InvalidAddress ∷ InvalidAddress ∷ []) }
    ensures invalidate_of_a_shared_page { failing running (Invalidate 1 0x13000 1) ≡ [] }
    ensures invalidates { mapping_after (joined_by 1 running) (Invalidate 1 0x10000 1) 16
        ≡ Some (mapped 16 (OwnPage 4 zeros) (Blocked (0 ∷ 1 ∷ []) None)) }
    ensures invalidates_no_other { mapping_after running (Invalidate 1 0x10000 1) 19 ≡ Some (mapped 19 (HostPage 7) Present) }
    ensures fence_of_no_tvm { failing running (TvmFence 9) ≡ answers (InvalidParam ∷ Denied ∷ []) }
    ensures fence_before_finalize { failing building (TvmFence 1) ≡ answers (Denied ∷ []) }
    ensures fence_while_two_are_inside { failing (with_first_tvm (λ tvm. record tvm { yet = 0 ∷ 1 ∷ [] })) (TvmFence 1) ≡ answer AlreadyStarted 0 ∷ [] }
    ensures fence_while_one_is_inside { failing (with_first_tvm (λ tvm. record tvm { yet = 1 ∷ [] })) (TvmFence 1) ≡ answer AlreadyStarted 1 ∷ [] }
    ensures fence_in_order { failing (on_tvm 1 (λ tvm. record tvm { yet = 1 ∷ [] }) building) (TvmFence 1)
        ≡ answer Denied 0 ∷ answer AlreadyStarted 1 ∷ [] }
    ensures fence_with_a_hart_inside { failing running (TvmFence 1) ≡ [] }
    ensures fence_waits_for_those_inside { (tvm_after (joined_by 1 running) (TvmFence 1)).yet ≡ 0 ∷ 1 ∷ [] }
    ensures fences { mapping_after running (TvmFence 1) 17 ≡ Some (mapped 17 (OwnPage 5 zeros) (Blocked (0 ∷ []) (Some (0 ∷ [])))) }
    ensures fences_no_earlier { mapping_after running (TvmFence 1) 18 ≡ Some (mapped 18 (OwnPage 6 zeros) (Blocked [] (Some []))) }
    ensures fences_what_is_present { mapping_after running (TvmFence 1) 16 ≡ Some (mapped 16 (OwnPage 4 zeros) Present) }
    ensures fences_unbindings { (cpu_after (bound_so (Begun None)) (TvmFence 1) 1).binding
        ≡ Some (record { hart = 0; file = 1; unbinding = Begun (Some (0 ∷ [])) }) }
    ensures fences_no_earlier_unbinding { cpu_after (bound_so (Begun (Some (1 ∷ [])))) (TvmFence 1) 1 ≡ bound 0 1 (Begun (Some (1 ∷ []))) (new_cpu 1) }
    ensures fences_no_binding { cpu_after (bound_so NotBegun) (TvmFence 1) 1 ≡ bound 0 1 NotBegun (new_cpu 1) }
    ensures validate_of_no_tvm { failing running (Validate 9 0x11000 0) ≡ answers (InvalidParam ∷ Denied ∷ InvalidParam ∷ []) }
    ensures validate_before_finalize { failing mapped_early (Validate 1 0x11000 1) ≡ answers (Denied ∷ []) }
    ensures validate_of_no_page { failing running (Validate 1 0x11000 0) ≡ answers (InvalidParam ∷ []) }
    ensures validate_unaligned { failing running (Validate 1 0x11001 1) ≡ answers (InvalidAddress ∷ []) }
    ensures validate_of_a_present_page { failing running (Validate 1 0x10000 1) ≡ answers (InvalidAddress ∷ []) }
    ensures validate_of_a_private_page_now_shared { failing running (Validate 1 0x12000 1) ≡ answers (Denied ∷ []) }
    ensures validate_of_a_shared_page_now_private { failing (waiting_so (HostPage 7) []) (Validate 1 0x14000 1) ≡ answers (Denied ∷ []) }
    ensures validate_in_order { failing mapped_early (Validate 1 0x12001 17) ≡ answers (Denied ∷ InvalidParam ∷ InvalidAddress ∷ InvalidAddress ∷ Denied ∷ []) }
    ensures validates { mapping_after running (Validate 1 0x11000 1) 17 ≡ Some (mapped 17 (OwnPage 5 zeros) Present) }
    ensures validates_no_other { mapping_after running (Validate 1 0x11000 1) 18 ≡ Some (mapped 18 (OwnPage 6 zeros) (Blocked [] (Some []))) }
    ensures remove_of_no_tvm { failing running (Remove 9 0x12000 0) ≡ answers (InvalidParam ∷ Denied ∷ InvalidParam ∷ []) }
    ensures remove_before_finalize { failing mapped_early (Remove 1 0x12000 1) ≡ answers (Denied ∷ []) }
    ensures remove_of_no_page { failing running (Remove 1 0x12000 0) ≡ answers (InvalidParam ∷ []) }
    ensures remove_unaligned { failing running (Remove 1 0x12001 1) ≡ answers (InvalidAddress ∷ []) }
    ensures remove_of_a_present_page { failing running (Remove 1 0x10000 1) ≡ answers (InvalidAddress ∷ Denied ∷ []) }
    ensures remove_without_a_fence { failing running (Remove 1 0x11000 1) ≡ answers (Denied ∷ []) }
    ensures remove_during_a_fence { failing (waiting_so (OwnPage 10 zeros) (1 ∷ [])) (Remove 1 0x14000 1) ≡ answers (Denied ∷ []) }
    ensures remove_in_order { failing mapped_early (Remove 1 0x11001 17) ≡ answers (Denied ∷ InvalidParam ∷ InvalidAddress ∷ InvalidAddress ∷ Denied ∷ []) }
    ensures removes { tvm_after running (Remove 1 0x12000 1) ≡ record tenant {
      mappings = mapped 16 (OwnPage 4 zeros) Present ∷ mapped 17 (OwnPage 5 zeros) (Blocked (0 ∷ []) None) ∷ mapped 19 (HostPage 7) Present ∷ [];
    } }
    ensures remove_frees { map (page_after running (Remove 1 0x12000 1)) (5 ∷ 6 ∷ 7 ∷ []) ≡ Given 1 (AsData 17) ∷ Free ∷ Host zeros ∷ [] }
    ensures remove_of_a_shared_page { page_after (waiting_so (HostPage 7) []) (Remove 1 0x14000 1) 7 ≡ Host zeros }
{}

/// Runs of vCPUs, and kicks.
pub fn worked_run_calls()
    ensures run_of_no_tvm { failing running (Run 9 1 5) ≡ answers (InvalidParam ∷ Denied ∷ InvalidParam ∷ []) }
    ensures run_before_finalize { failing building (Run 1 1 5) ≡ answers (Denied ∷ []) }
    ensures run_of_no_vcpu { failing running (Run 1 2 5) ≡ answers (InvalidParam ∷ []) }
    ensures run_of_no_instruction { failing running (Run 1 1 0) ≡ answers (InvalidParam ∷ []) }
    ensures run_of_one_instruction { failing running (Run 1 1 1) ≡ [] }
    ensures run_to_the_limit { failing running (Run 1 1 4096) ≡ [] }
    ensures run_past_the_limit { failing running (Run 1 1 4097) ≡ answers (InvalidParam ∷ []) }
    ensures run_of_a_running_vcpu { failing running (Run 1 0 5) ≡ answer AlreadyStarted 0 ∷ [] }
    ensures run_of_a_stopped_vcpu { failing (with_cpu 1 (λ cpu. record cpu { stopped = true })) (Run 1 1 5) ≡ answers (AlreadyStopped ∷ []) }
    ensures run_on_another_hart { failing (bound_so NotBegun) (Run 1 1 5) ≡ answers (Denied ∷ []) }
    ensures run_on_its_hart { failing (filed (with_cpu 1 (bound 1 1 NotBegun))) (Run 1 1 5) ≡ [] }
    ensures run_while_unbinding { failing (filed (with_cpu 1 (bound 1 1 (Begun (Some []))))) (Run 1 1 5) ≡ answers (Denied ∷ []) }
    ensures run_before_its_vcpu_is_there { failing building (Run 1 2 0) ≡ answers (Denied ∷ InvalidParam ∷ InvalidParam ∷ []) }
    ensures run_in_order { failing (with_cpu 0 (λ cpu. record (bound 0 1 (Begun None) cpu) { stopped = true })) (Run 1 0 0)
        ≡ answer InvalidParam 0 ∷ answer AlreadyStarted 0 ∷ answers (AlreadyStopped ∷ Denied ∷ Denied ∷ []) }
    ensures enters { (after_call running (Run 1 1 5)).seats 1 ≡ Some (record { tvm = 1; cpu = 1 }) }
    ensures others_stay { (after_call running (Run 1 1 5)).seats 0 ≡ Some (record { tvm = 1; cpu = 0 }) }
    ensures run_drops_a_kick { (after_call (record running { kicked = 1 ∷ 0 ∷ [] }) (Run 1 1 5)).kicked ≡ 0 ∷ [] }
    ensures run_takes_fuel { cpu_after (with_cpu 1 (λ cpu. record cpu { pc = 8; latched = Some 3 })) (Run 1 1 5) 1 ≡ record (new_cpu 1) { pc = 8; fuel = 5 } }
    ensures run_leaves_another_vcpu { cpu_after running (Run 1 1 5) 0 ≡ first_cpu }
    ensures run_forgets { (rule running 1 (Run 1 1 5)).forgets ≡ ForgetsGuests }
    ensures kick_of_no_hart { failing running (Kick 2) ≡ answers (InvalidParam ∷ []) }
    ensures kick_of_a_hart_outside { failing running (Kick 1) ≡ [] }
    ensures kicks { (after_call running (Kick 0)).kicked ≡ 0 ∷ [] }
    ensures kicks_nobody_outside { (after_call running (Kick 1)).kicked ≡ [] }
    ensures kick_leaves_others { (after_call (record running { kicked = 1 ∷ [] }) (Kick 0)).kicked ≡ 0 ∷ 1 ∷ [] }
    ensures kicks_twice { (after_call (record running { kicked = 0 ∷ [] }) (Kick 0)).kicked ≡ 0 ∷ [] }
    ensures kick_forgets_nothing { (rule running 1 (Kick 0)).forgets ≡ Keeps }
{}

/// Bindings of vCPUs to interrupt files, and interrupts.
pub fn worked_bindings()
    ensures bind_of_no_tvm { failing (filed running) (Bind 9 1 0 1) ≡ answers (InvalidParam ∷ InvalidParam ∷ []) }
    ensures bind_of_no_vcpu { failing (filed running) (Bind 1 2 0 1) ≡ answers (InvalidParam ∷ []) }
    ensures bind_to_no_hart { failing (filed running) (Bind 1 1 2 1) ≡ answers (InvalidParam ∷ []) }
    ensures bind_to_file_zero { failing (filed running) (Bind 1 1 0 0) ≡ answers (InvalidParam ∷ []) }
    ensures bind_past_the_files { failing (filed running) (Bind 1 1 0 3) ≡ answers (InvalidParam ∷ []) }
    ensures bind_to_the_last_file { failing (filed running) (Bind 1 1 1 2) ≡ [] }
    ensures bind_to_a_taken_file { failing (filed (with_cpu 0 (bound 0 1 NotBegun))) (Bind 1 1 0 1) ≡ answers (AlreadyAvailable ∷ []) }
    ensures bind_to_a_file_of_another_tvm { failing (on_tvm 2 (λ tvm. record tvm { cpus = bound 0 1 (Begun None) (new_cpu 0) ∷ [] }) (filed neighbours)) (Bind 1 1 0 1)
        ≡ answers (AlreadyAvailable ∷ []) }
    ensures bind_beside_a_taken_file { failing (filed (with_cpu 0 (bound 0 1 NotBegun))) (Bind 1 1 0 2) ≡ [] }
    ensures bind_to_the_same_file_elsewhere { failing (filed (with_cpu 0 (bound 0 1 NotBegun))) (Bind 1 1 1 1) ≡ [] }
    ensures bind_of_a_bound_vcpu { failing (bound_so NotBegun) (Bind 1 1 0 2) ≡ answers (AlreadyAvailable ∷ []) }
    ensures bind_of_a_running_vcpu { failing (filed running) (Bind 1 0 0 1) ≡ answer AlreadyStarted 0 ∷ [] }
    ensures bind_of_a_vcpu_that_hart_one_runs { failing (filed (joined_by 1 running)) (Bind 1 1 0 1) ≡ answer AlreadyStarted 1 ∷ [] }
    ensures bind_in_order { failing (filed (with_cpu 0 (bound 2 0 NotBegun))) (Bind 1 0 2 0)
        ≡ answers (InvalidParam ∷ InvalidParam ∷ AlreadyAvailable ∷ AlreadyAvailable ∷ AlreadyStarted ∷ []) }
    ensures binds { cpu_after (filed (with_cpu 1 (λ cpu. record cpu { file = pending_nine }))) (Bind 1 1 0 2) 1 ≡ bound 0 2 NotBegun (record (new_cpu 1) { file = pending_nine }) }
    ensures binds_no_other { cpu_after (filed running) (Bind 1 1 0 2) 0 ≡ first_cpu }
    ensures unbind_of_no_tvm { failing (filed running) (Unbind 9 1) ≡ answers (InvalidParam ∷ InvalidParam ∷ AlreadyStopped ∷ []) }
    ensures unbind_of_no_vcpu { failing (filed running) (Unbind 1 2) ≡ answers (InvalidParam ∷ AlreadyStopped ∷ []) }
    ensures unbind_of_what_is_not_bound { failing (filed running) (Unbind 1 1) ≡ answers (AlreadyStopped ∷ []) }
    ensures unbind_of_what_is_bound { failing (bound_so NotBegun) (Unbind 1 1) ≡ [] }
    ensures unbind_twice { failing (bound_so (Begun None)) (Unbind 1 1) ≡ answers (AlreadyStarted ∷ []) }
    ensures begins_to_unbind { cpu_after (bound_so NotBegun) (Unbind 1 1) 1 ≡ bound 0 1 (Begun None) (new_cpu 1) }
    ensures unbound_of_no_tvm { failing (filed running) (Unbound 9 1) ≡ answers (InvalidParam ∷ InvalidParam ∷ AlreadyStopped ∷ Denied ∷ []) }
    ensures unbound_of_no_vcpu { failing (filed running) (Unbound 1 2) ≡ answers (InvalidParam ∷ AlreadyStopped ∷ Denied ∷ []) }
    ensures unbound_of_what_is_not_bound { failing (filed running) (Unbound 1 1) ≡ answers (AlreadyStopped ∷ Denied ∷ []) }
    ensures unbound_before_it_began { failing (bound_so NotBegun) (Unbound 1 1) ≡ answers (AlreadyStopped ∷ Denied ∷ []) }
    ensures unbound_unfenced { failing (bound_so (Begun None)) (Unbound 1 1) ≡ answers (Denied ∷ []) }
    ensures unbound_during_a_fence { failing (bound_so (Begun (Some (0 ∷ [])))) (Unbound 1 1) ≡ answers (Denied ∷ []) }
    ensures unbound_fenced { failing (bound_so (Begun (Some []))) (Unbound 1 1) ≡ [] }
    ensures unbinds { cpu_after (filed (with_cpu 1 (λ cpu. record (bound 0 1 (Begun (Some [])) cpu) { file = pending_nine }))) (Unbound 1 1) 1
        ≡ record (new_cpu 1) { file = pending_nine } }
    ensures its_file_is_not_taken { failing (after_call (bound_so (Begun (Some []))) (Unbound 1 1)) (Bind 1 1 0 1) ≡ [] }
    ensures its_file_is_not_taken_once_destroyed { failing (after_call (on_tvm 1 (λ tvm. record tvm { cpus = bound 0 1 NotBegun (new_cpu 0) ∷ [] }) (filed neighbours)) (Destroy 1)) (Bind 2 1 0 1) ≡ [] }
    ensures inject_into_no_tvm { failing (with_first_tvm (λ tvm. record tvm { allowed = 5 ∷ [] })) (Inject 9 1 5) ≡ answers (InvalidParam ∷ InvalidParam ∷ Denied ∷ []) }
    ensures inject_into_no_vcpu { failing (with_first_tvm (λ tvm. record tvm { allowed = 5 ∷ [] })) (Inject 1 2 5) ≡ answers (InvalidParam ∷ []) }
    ensures inject_of_nothing { failing (with_first_tvm (λ tvm. record tvm { allowed = 0 ∷ [] })) (Inject 1 1 0) ≡ answers (InvalidParam ∷ []) }
    ensures inject_of_identity_64 { failing (with_first_tvm (λ tvm. record tvm { allowed = 64 ∷ [] })) (Inject 1 1 64) ≡ answers (InvalidParam ∷ []) }
    ensures inject_of_the_last_identity { failing (with_first_tvm (λ tvm. record tvm { allowed = 63 ∷ [] })) (Inject 1 1 63) ≡ [] }
    ensures inject_of_what_is_not_allowed { failing (with_first_tvm (λ tvm. record tvm { allowed = 5 ∷ [] })) (Inject 1 1 6) ≡ answers (Denied ∷ []) }
    ensures inject_in_order { failing running (Inject 1 1 64) ≡ answers (InvalidParam ∷ Denied ∷ []) }
    ensures injects { cpu_after (bound_so NotBegun) (Inject 1 1 5) 1 ≡ bound 0 1 NotBegun (record (new_cpu 1) { file = raised empty_file 5 }) }
    ensures injects_unbound { cpu_after running (Inject 1 1 5) 1 ≡ record (new_cpu 1) { file = raised empty_file 5 } }
    ensures injects_into_no_other { cpu_after running (Inject 1 1 5) 0 ≡ first_cpu }
{}
