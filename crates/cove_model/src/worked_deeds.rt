//! Worked rows of guests, which the checker computes: each check and outcome of a guest call, what a vCPU does, offers and
//! leaves by each instruction, and each exit.

ghost use Rattle.std.specs.Prelude.{◌≡◌, ◌-◌, ◌^◌, ◌∷◌, ◌++◌, [], false, map, None, replicate, Some, true};
ghost use Rattle.std.specs.List.{range_with_len};
ghost use Rattle.cove_base.specs.Evidence.{evidence};
ghost use Rattle.cove_base.specs.InterruptFiles.{empty_file};
ghost use Rattle.cove_base.specs.declared.calls.GuestAct.TheVariants.{Allow, Deny, Extend, Other, Share, Unshare};
ghost use Rattle.cove_base.specs.declared.events.Event.TheVariants.{Exec, Exit, Guest};
ghost use Rattle.cove_base.specs.declared.events.Exit.TheVariants.{Fault, Fuel, Kicked, Trap, Wfi};
ghost use Rattle.cove_base.specs.declared.events.How.TheVariants.{Hit, Walk};
ghost use Rattle.cove_base.specs.declared.statuses.Status.TheVariants.{Failed, InvalidAddress, InvalidParam, NotSupported, Success};
ghost use Rattle.cove_base.specs.declared.walks.Target.TheVariants.{Access, Fetch};
ghost use Rattle.cove_model.specs.Deeds.{Asks, asked_act, deed_of, Executes, Fetches, Loads, next_place, Stores, Tires, Traps, Waits};
ghost use Rattle.cove_model.specs.Examples.{board};
ghost use Rattle.cove_model.specs.GuestCalls.{evidence_at, overwritten, words_in};
ghost use Rattle.cove_model.specs.GuestExamples.{first_cpu, mapped, running, tenant};
ghost use Rattle.cove_model.specs.HostCalls.{ForgetsGuests, Keeps};
ghost use Rattle.cove_model.specs.Mappings.{mapping_of};
ghost use Rattle.cove_model.specs.Offers.{Nothing, offer, Single, target_of, Touch};
ghost use Rattle.cove_model.specs.Owners.{has, Host, page_at, zeros};
ghost use Rattle.cove_model.specs.States.{cpu_at, new_cpu, tvm_at};
ghost use Rattle.cove_model.specs.Steps.{after_event, line_ended};
ghost use Rattle.cove_model.specs.Translations.{Came, Failed as NotFound, forgets_by, touched};
ghost use Rattle.cove_model.specs.Tvms.{Begun, Blocked, HostPage, OwnPage, Present};
ghost use Rattle.cove_model.specs.Types.{Event, GuestAct};
ghost use Rattle.cove_model.specs.WorkedDeeds.{as_bytes, asking, cpu_in, cpu_left_with, doing, doing_with, failing_act, failing_with, fetched_vcpu, first_seat, halved, leaving, left_with, offered, on_first, one_long, performing, readable, rule_with, signalled, striped, tvm_after_act, two_instructions, vcpu_after, wide};
ghost use Rattle.cove_model.specs.WorkedRows.{answer, answers, bound, joined_by, with_first_tvm};

/// Guest pages that a guest shares and takes back.
pub fn worked_shares()
    ensures share_unaligned { failing_act running (Share 0x14001 0x1000) ≡ answers (InvalidAddress ∷ []) }
    ensures share_of_half_pages { failing_act running (Share 0x14000 0x1001) ≡ answers (InvalidAddress ∷ []) }
    ensures share_of_nothing { failing_act running (Share 0x14000 0) ≡ answers (InvalidAddress ∷ []) }
    ensures share_of_16_pages { failing_act (with_first_tvm wide) (Share 0x10000 0x10000) ≡ [] }
    ensures share_of_17_pages { failing_act (with_first_tvm wide) (Share 0x10000 0x11000) ≡ answers (InvalidAddress ∷ []) }
    ensures share_of_a_shared_page { failing_act running (Share 0x12000 0x1000) ≡ answers (InvalidAddress ∷ []) }
    ensures share_in_no_region { failing_act running (Share 0x15000 0x1000) ≡ answers (InvalidAddress ∷ []) }
    ensures share_in_the_second_region { failing_act (with_first_tvm halved) (Share 0x14000 0x2000) ≡ [] }
    ensures share_across_two_regions { failing_act (with_first_tvm (λ tvm. record (halved tvm) { shared = [] })) (Share 0x13000 0x2000) ≡ answers (InvalidAddress ∷ []) }
    ensures share_of_the_last_row { failing_act (with_first_tvm (striped 15)) (Share 0x10000 0x1000) ≡ [] }
    ensures share_of_a_row_too_many { failing_act (with_first_tvm (striped 16)) (Share 0x10000 0x1000) ≡ answers (Failed ∷ []) }
    ensures share_that_joins_rows { failing_act (with_first_tvm (striped 16)) (Share 0x15000 0x1000) ≡ [] }
    ensures share_in_order { failing_act (with_first_tvm (striped 16)) (Share 0x100001 0x11001) ≡ answers (replicate 4 InvalidAddress ++ Failed ∷ []) }
    ensures shares { tvm_after_act (joined_by 1 running) (Share 0x10000 0x1000) ≡ record tenant {
      shared = 18 ∷ 19 ∷ 16 ∷ [];
      mappings = mapped 16 (OwnPage 4 zeros) (Blocked (1 ∷ []) None) ∷ mapped 17 (OwnPage 5 zeros) (Blocked (0 ∷ []) None)
          ∷ mapped 18 (OwnPage 6 zeros) (Blocked [] (Some [])) ∷ mapped 19 (HostPage 7) Present ∷ [];
    } }
    ensures share_of_a_blocked_page { (tvm_after_act running (Share 0x11000 0x1000)).mappings ≡ tenant.mappings }
    ensures share_forgets { forgets_by running 0 (Guest (Share 0x14000 0x1000) (answer Success 0)) ≡ ForgetsGuests }
    ensures refused_share_keeps { forgets_by running 0 (Guest (Share 0 0) (answer InvalidAddress 0)) ≡ Keeps }
    ensures unshare_unaligned { failing_act running (Unshare 0x12001 0x1000) ≡ answers (InvalidAddress ∷ []) }
    ensures unshare_of_half_pages { failing_act running (Unshare 0x12000 0x1001) ≡ answers (InvalidAddress ∷ []) }
    ensures unshare_of_nothing { failing_act running (Unshare 0x12000 0) ≡ answers (InvalidAddress ∷ []) }
    ensures unshare_of_16_pages { failing_act (with_first_tvm (λ tvm. record (wide tvm) { shared = range_with_len 16 17 })) (Unshare 0x10000 0x10000) ≡ [] }
    ensures unshare_of_17_pages { failing_act (with_first_tvm (λ tvm. record (wide tvm) { shared = range_with_len 16 17 })) (Unshare 0x10000 0x11000) ≡ answers (InvalidAddress ∷ []) }
    ensures unshare_of_a_private_page { failing_act running (Unshare 0x10000 0x1000) ≡ answers (InvalidAddress ∷ []) }
    ensures unshare_in_no_region { failing_act running (Unshare 0x15000 0x1000) ≡ answers (InvalidAddress ∷ []) }
    ensures unshare_across_two_regions { failing_act (with_first_tvm (λ tvm. record (halved tvm) { shared = 19 ∷ 20 ∷ [] })) (Unshare 0x13000 0x2000) ≡ answers (InvalidAddress ∷ []) }
    ensures unshare_that_splits_a_row { failing_act (with_first_tvm one_long) (Unshare 0x3d000 0x1000) ≡ answers (Failed ∷ []) }
    ensures unshare_that_shortens_a_row { failing_act (with_first_tvm one_long) (Unshare 0x3e000 0x1000) ≡ [] }
    ensures unshare_in_order { failing_act (with_first_tvm one_long) (Unshare 0x3d001 0x1001) ≡ answers (InvalidAddress ∷ InvalidAddress ∷ Failed ∷ []) }
    ensures unshares { tvm_after_act (joined_by 1 running) (Unshare 0x13000 0x1000) ≡ record tenant {
      shared = 18 ∷ [];
      mappings = mapped 16 (OwnPage 4 zeros) Present ∷ mapped 17 (OwnPage 5 zeros) (Blocked (0 ∷ []) None)
          ∷ mapped 18 (OwnPage 6 zeros) (Blocked [] (Some [])) ∷ mapped 19 (HostPage 7) (Blocked (1 ∷ []) None) ∷ [];
    } }
    ensures unshare_forgets { forgets_by running 0 (Guest (Unshare 0x12000 0x1000) (answer Success 0)) ≡ ForgetsGuests }
{}

/// What a guest measures and tells, and which interrupts it allows; and how each call of a guest is answered.
pub fn worked_guest_calls()
    ensures extend_of_register_0 { failing_with readable 0 0x10000 Extend ≡ answers (InvalidParam ∷ []) }
    ensures extend_of_register_4 { failing_with readable 4 0x10000 Extend ≡ [] }
    ensures extend_of_register_5 { failing_with readable 5 0x10000 Extend ≡ answers (InvalidParam ∷ []) }
    ensures extend_unaligned { failing_with readable 1 0x10004 Extend ≡ answers (InvalidAddress ∷ []) }
    ensures extend_by_the_end_of_a_page { failing_with readable 1 0x10fd0 Extend ≡ [] }
    ensures extend_over_two_pages { failing_with readable 1 0x10fd8 Extend ≡ answers (InvalidAddress ∷ []) }
    ensures extend_by_a_blocked_page { failing_with readable 1 0x11000 Extend ≡ answers (InvalidAddress ∷ []) }
    ensures extend_by_a_shared_page { failing_with readable 1 0x13000 Extend ≡ answers (InvalidAddress ∷ []) }
    ensures extend_in_order { failing_with readable 5 0x14004 Extend ≡ answers (InvalidParam ∷ InvalidAddress ∷ []) }
    ensures extends { (tvm_at (rule_with readable 2 0x10008 Extend).outcome.state 1).extensions
        ≡ record { register = 2; value = as_bytes (2 ∷ 3 ∷ 4 ∷ 5 ∷ 6 ∷ 7 ∷ []) } ∷ [] }
    ensures extend_keeps { forgets_by readable 0 (Guest Extend (answer Success 0)) ≡ Keeps }
    ensures nonce_unaligned { failing_with readable 0x10004 0x10000 GuestAct.Evidence ≡ answers (InvalidAddress ∷ []) }
    ensures nonce_at_the_end_of_a_page { failing_with readable 0x10fc0 0x10000 GuestAct.Evidence ≡ [] }
    ensures nonce_over_two_pages { failing_with readable 0x10fc8 0x10000 GuestAct.Evidence ≡ answers (InvalidAddress ∷ []) }
    ensures nonce_in_a_shared_page { failing_with readable 0x13000 0x10000 GuestAct.Evidence ≡ answers (InvalidAddress ∷ []) }
    ensures evidence_unaligned { failing_with readable 0x10000 0x10004 GuestAct.Evidence ≡ answers (InvalidAddress ∷ []) }
    ensures evidence_at_the_end_of_a_page { failing_with readable 0x10000 0x10e98 GuestAct.Evidence ≡ [] }
    ensures evidence_over_two_pages { failing_with readable 0x10000 0x10ea0 GuestAct.Evidence ≡ answers (InvalidAddress ∷ []) }
    ensures evidence_into_a_shared_page { failing_with readable 0x10000 0x13000 GuestAct.Evidence ≡ answers (InvalidAddress ∷ []) }
    ensures evidence_into_a_blocked_page { failing_with readable 0x10000 0x11000 GuestAct.Evidence ≡ answers (InvalidAddress ∷ []) }
    ensures tells { evidence_at readable 1 0x10000 ≡ evidence 2 (replicate 5 (replicate 48 0)) (as_bytes (range_with_len 1 8)) (0 ∷ []) }
    ensures tells_where_it_is_asked { (mapping_of (tvm_at (rule_with readable 0x10000 0x10008 GuestAct.Evidence).outcome.state 1) 16)
        ≡ Some (mapped 16 (OwnPage 4 (overwritten 1 (words_in (evidence_at readable 1 0x10000)) (range_with_len 1 8))) Present) }
    ensures overwrites { overwritten 2 (7 ∷ 8 ∷ []) (range_with_len 1 6) ≡ 1 ∷ 2 ∷ 7 ∷ 8 ∷ 5 ∷ 6 ∷ [] }
    ensures bytes_are_words { words_in (as_bytes (3 ∷ 4 ∷ [])) ≡ 3 ∷ 4 ∷ [] }
    ensures told_evidence { vcpu_after readable 0x10000 0x10000 GuestAct.Evidence ≡ record first_cpu { x = asking 0 360 0 0; pc = 65540; fuel = 2 } }
    ensures allow_of_nothing { failing_act running (Allow 0) ≡ answers (InvalidParam ∷ []) }
    ensures allow_of_identity_63 { failing_act running (Allow 63) ≡ [] }
    ensures allow_of_identity_64 { failing_act running (Allow 64) ≡ answers (InvalidParam ∷ []) }
    ensures allows { map (λ id. has id (tvm_after_act (with_first_tvm (λ tvm. record tvm { allowed = 5 ∷ [] })) (Allow 7)).allowed) (5 ∷ 6 ∷ 7 ∷ [])
        ≡ true ∷ false ∷ true ∷ [] }
    ensures deny_of_nothing { failing_act running (Deny 0) ≡ answers (InvalidParam ∷ []) }
    ensures deny_of_identity_63 { failing_act running (Deny 63) ≡ [] }
    ensures deny_of_identity_64 { failing_act running (Deny 64) ≡ answers (InvalidParam ∷ []) }
    ensures denies { (tvm_after_act (with_first_tvm (λ tvm. record tvm { allowed = 5 ∷ 7 ∷ [] })) (Deny 5)).allowed ≡ 7 ∷ [] }
    ensures allows_none_at_first { tenant.allowed ≡ [] }
    ensures other { failing_act running Other ≡ answers (NotSupported ∷ []) }
    ensures told_not_supported { vcpu_after running 8 9 Other ≡ record first_cpu { x = asking (2 ^ 64 - 2) 0 0 0; pc = 65540; fuel = 2 } }
    ensures told_invalid { vcpu_after running 8 9 Extend ≡ record first_cpu { x = asking (2 ^ 64 - 3) 0 0 0; pc = 65540; fuel = 2 } }
    ensures told_done { vcpu_after running 8 9 (Allow 5) ≡ record first_cpu { x = asking 0 0 0 0; pc = 65540; fuel = 2 } }
    ensures asks_to_share { asked_act (asking 8 9 0 0x434F5647) ≡ Share 8 9 }
    ensures asks_to_unshare { asked_act (asking 8 9 1 0x434F5647) ≡ Unshare 8 9 }
    ensures asks_to_extend { asked_act (asking 8 9 2 0x434F5647) ≡ Extend }
    ensures asks_for_evidence { asked_act (asking 8 9 3 0x434F5647) ≡ GuestAct.Evidence }
    ensures asks_to_allow { asked_act (asking 8 9 4 0x434F5647) ≡ Allow 8 }
    ensures asks_to_deny { asked_act (asking 8 9 5 0x434F5647) ≡ Deny 8 }
    ensures asks_by_another_function { asked_act (asking 8 9 6 0x434F5647) ≡ Other }
    ensures asks_by_another_extension { asked_act (asking 8 9 0 0x434F5648) ≡ Other }
{}

/// What a vCPU does next, by its fuel and the word that it fetched.
pub fn worked_instructions()
    ensures tires { deed_of (record first_cpu { fuel = 0 }) ≡ Tires }
    ensures fetches { deed_of (record first_cpu { fuel = 1 }) ≡ Fetches 0x10000 }
    ensures executes_what_it_fetched { deed_of (record first_cpu { fuel = 0; latched = Some 0x6f }) ≡ Executes 0 0x10004 0x10000 empty_file }
    ensures loads_a_constant { doing 0x000112b7 ≡ Executes 5 0x11000 0x10004 empty_file }
    ensures loads { doing 0x0002b303 ≡ Loads 0x11000 8 false 6 }
    ensures loads_a_byte { doing 0x00128303 ≡ Loads 0x11001 1 true 6 }
    ensures loads_misaligned { doing 0x0042b303 ≡ Traps 4 }
    ensures stores { doing 0x0062b423 ≡ Stores 0x11008 8 7 }
    ensures stores_misaligned { doing 0x0062b223 ≡ Traps 6 }
    ensures jumps_misaligned { doing 0x0020006f ≡ Traps 0 }
    ensures branches_misaligned { doing 0x00000163 ≡ Traps 0 }
    ensures does_not_branch { doing 0x00001163 ≡ Executes 0 0 0x10004 empty_file }
    ensures breaks { doing 0x00100073 ≡ Traps 3 }
    ensures decodes_nothing { doing 0 ≡ Traps 2 }
    ensures asks { doing 0x00000073 ≡ Asks Other }
    ensures waits_unbound { deed_of (record (fetched_vcpu 0x10500073) { file = signalled true }) ≡ Waits }
    ensures waits_without_delivery { doing_with (signalled false) 0x10500073 ≡ Waits }
    ensures wakes { doing_with (signalled true) 0x10500073 ≡ Executes 0 0 0x10004 (signalled true) }
    ensures waits_with_nothing_pending { doing_with (record empty_file { delivery = true }) 0x10500073 ≡ Waits }
    ensures csr_unbound { doing 0x15029373 ≡ Traps 2 }
    ensures csr { doing_with (record empty_file { select = 0x72 }) 0x15029373 ≡ Executes 6 0x72 0x10004 (record empty_file { select = 0x11000 }) }
    ensures csr_that_is_read { doing_with (record empty_file { select = 0x72 }) 0x15002373 ≡ Executes 6 0x72 0x10004 (record empty_file { select = 0x72 }) }
    ensures csr_behind_another { doing_with (record empty_file { select = 0x72; threshold = 3 }) 0x15129373 ≡ Executes 6 3 0x10004 (record empty_file { select = 0x72 }) }
    ensures csr_behind_none { doing_with empty_file 0x15129373 ≡ Traps 2 }
    ensures csr_of_no_register { doing_with empty_file 0x30029373 ≡ Traps 2 }
    ensures next { next_place (2 ^ 63 - 4) ≡ 2 ^ 63 }
    ensures next_wraps { next_place (2 ^ 64 - 4) ≡ 0 }
{}

/// What a hart is offered by a deed of its vCPU, and what the deed leaves.
pub fn worked_offers()
    ensures tires { offered Tires ≡ Single (Exit Fuel) }
    ensures fetches { offered (Fetches 0x1fffffffffc) ≡ Touch (Fetch (record { 0 = 0x1fffffff })) (λ how. Event.Fetch how) (Exit (Fault 20 (record { 0 = 0x1fffffff }))) }
    ensures fetches_past_the_limit { offered (Fetches 0x20000000000) ≡ Single (Exit (Fault 20 (record { 0 = 0x20000000 }))) }
    ensures executes { offered (Executes 5 6 7 empty_file) ≡ Single Exec }
    ensures loads { offered (Loads 0x1fffffffff8 8 false 6) ≡ Touch (Access (record { 0 = 0x1fffffff })) (λ how. Event.Access how) (Exit (Fault 21 (record { 0 = 0x1fffffff }))) }
    ensures loads_past_the_limit { offered (Loads 0x20000000000 8 false 6) ≡ Single (Exit (Fault 21 (record { 0 = 0x20000000 }))) }
    ensures stores { offered (Stores 0x1fffffffff8 8 9) ≡ Touch (Access (record { 0 = 0x1fffffff })) (λ how. Event.Access how) (Exit (Fault 23 (record { 0 = 0x1fffffff }))) }
    ensures stores_past_the_limit { offered (Stores 0x20000000000 8 9) ≡ Single (Exit (Fault 23 (record { 0 = 0x20000000 }))) }
    ensures asks { offered (Asks Other) ≡ Single (Guest Other (answer NotSupported 0)) }
    ensures asks_for_evidence_in_vain { offered (Asks GuestAct.Evidence) ≡ Single (Guest GuestAct.Evidence (answer InvalidAddress 0)) }
    ensures waits { offered Waits ≡ Single (Exit Wfi) }
    ensures traps { offered (Traps 4) ≡ Single (Exit (Trap 4)) }
    ensures kick_comes_before_fuel { offer (board 2 [] [] []) (on_first (λ cpu. record cpu { fuel = 0 }) (record running { kicked = 0 ∷ [] })) 0 ≡ Single (Exit Kicked) }
    ensures kick_of_another { target_of (offer (board 2 [] [] []) (record running { kicked = 1 ∷ [] }) 0) ≡ Some (Fetch (record { 0 = 16 })) }
    ensures kick_outside { offer (board 2 [] [] []) (record running { kicked = 1 ∷ [] }) 1 ≡ Nothing }
    ensures latches_the_low_half { cpu_in (after_event two_instructions 0 (Event.Fetch Walk)) ≡ record first_cpu { latched = Some 0x000112b7 } }
    ensures latches_the_high_half { cpu_in (after_event (on_first (λ cpu. record cpu { pc = 0x10004 }) two_instructions) 0 (Event.Fetch Walk))
        ≡ record first_cpu { pc = 0x10004; latched = Some 0x0002b303 } }
    ensures executed { cpu_in (performing (on_first (λ cpu. record cpu { latched = Some 0x73 }) running) (Executes 1 7 0x10020 (signalled false)))
        ≡ record first_cpu { x = 0 ∷ 7 ∷ replicate 30 0; pc = 0x10020; fuel = 2; file = signalled false } }
    ensures loaded { cpu_in (performing (on_first (λ cpu. record cpu { latched = Some 0x73 }) readable) (Loads 0x10008 8 false 1))
        ≡ record first_cpu { x = 0 ∷ 2 ∷ replicate 30 0; pc = 0x10004; fuel = 2 } }
    ensures loaded_from_a_shared_page { (cpu_in (performing readable (Loads 0x13008 8 false 1))).x ≡ 0 ∷ 12 ∷ replicate 30 0 }
    ensures stored { mapping_of (tvm_at (performing readable (Stores 0x10008 8 9)) 1) 16 ≡ Some (mapped 16 (OwnPage 4 (1 ∷ 9 ∷ range_with_len 3 6)) Present) }
    ensures stored_in_part { mapping_of (tvm_at (performing readable (Stores 0x10009 1 9)) 1) 16 ≡ Some (mapped 16 (OwnPage 4 (1 ∷ 0x902 ∷ range_with_len 3 6)) Present) }
    ensures stored_is_executed { cpu_in (performing (on_first (λ cpu. record cpu { latched = Some 0x73 }) readable) (Stores 0x10008 8 9)) ≡ record first_cpu { pc = 0x10004; fuel = 2 } }
    ensures stored_in_a_shared_page { page_at (performing readable (Stores 0x13009 1 9)).pages 7 ≡ Host (11 ∷ 0x90c ∷ range_with_len 13 6) }
    ensures stored_in_no_page_of_its_own { mapping_of (tvm_at (performing readable (Stores 0x13008 8 9)) 1) 19 ≡ Some (mapped 19 (HostPage 7) Present) }
    ensures fetch_touches { touched running 0 (Event.Fetch Walk) ≡ Some (Fetch (record { 0 = 16 }), Came Walk) }
    ensures access_touches { touched (on_first (λ cpu. record cpu { latched = Some 0x00003083 }) running) 0 (Event.Access Hit) ≡ Some (Access (record { 0 = 0 }), Came Hit) }
    ensures fetch_misses { touched running 0 (Exit (Fault 20 (record { 0 = 16 }))) ≡ Some (Fetch (record { 0 = 16 }), NotFound) }
    ensures load_misses { touched running 0 (Exit (Fault 21 (record { 0 = 16 }))) ≡ Some (Access (record { 0 = 16 }), NotFound) }
    ensures store_misses { touched running 0 (Exit (Fault 23 (record { 0 = 0x1fffffff }))) ≡ Some (Access (record { 0 = 0x1fffffff }), NotFound) }
    ensures misses_nothing_past_the_limit { touched running 0 (Exit (Fault 23 (record { 0 = 0x20000000 }))) ≡ None }
{}

/// Exits: what becomes of the vCPU, and of what waited for its hart.
pub fn worked_exits()
    ensures by_fuel { cpu_left_with Fuel ≡ record first_cpu { fuel = 0 } }
    ensures by_a_kick { cpu_left_with Kicked ≡ record first_cpu { fuel = 0 } }
    ensures by_a_wait { cpu_left_with Wfi ≡ record first_cpu { pc = 0x10004; fuel = 0 } }
    ensures by_a_fault { cpu_left_with (Fault 21 (record { 0 = 16 })) ≡ record first_cpu { fuel = 0 } }
    ensures by_a_trap { cpu_left_with (Trap 3) ≡ record first_cpu { stopped = true; fuel = 0 } }
    ensures is_outside { (left_with Wfi).seats 0 ≡ None }
    ensures another_stays { (left_with Wfi).seats 1 ≡ Some (record { tvm = 1; cpu = 1 }) }
    ensures its_kick_is_gone { (left_with Fuel).kicked ≡ 1 ∷ [] }
    ensures its_line_is_ended { (left_with Kicked).ended ≡ 1 ∷ 0 ∷ [] }
    ensures line_stays_while_inside { line_ended 0 (Some first_seat) leaving ≡ leaving }
    ensures fence_waits_for_the_other { (tvm_at (left_with (Trap 3)) 1).yet ≡ 1 ∷ [] }
    ensures mapping_waits_for_the_other { (tvm_at (left_with (Trap 3)) 1).mappings ≡ mapped 17 (OwnPage 5 zeros) (Blocked (1 ∷ []) (Some (1 ∷ []))) ∷ [] }
    ensures unbinding_waits_for_the_other { cpu_at (tvm_at (left_with (Trap 3)) 1) 1 ≡ bound 0 1 (Begun (Some (1 ∷ []))) (new_cpu 1) }
    ensures trap_forgets { forgets_by running 0 (Exit (Trap 3)) ≡ ForgetsGuests }
{}
