//! Worked examples, which the checker computes: of each definition that the top call promises something by, what it
//! says yes to and what it says no to. Each stands on a function with an empty body.

ghost use Rattle.std.specs.Prelude.{◌≡◌, ℕ, List, [], ◌∷◌, ◌++◌, map, replicate, Some, None, true, false, codes, String, string_bytes};
ghost use Rattle.std.specs.declared.alloc.Global.{Global};
ghost use Rattle.cove_base.specs.declared.calls.HostCall.TheVariants.{Convert, Info, LocalFence, Reclaim, Run};
ghost use Rattle.cove_base.specs.declared.events.How.TheVariants.{Hit, Walk};
ghost use Rattle.cove_base.specs.declared.statuses.Status.TheVariants.{InvalidAddress, InvalidParam, NotSupported, Success};
ghost use Rattle.cove_model.specs.Cached.{IsCached, IsQuiet};
ghost use Rattle.cove_model.specs.Commands.{accepts};
ghost use Rattle.cove_model.specs.Answers.{refusal, reply_to, state_after};
ghost use Rattle.cove_model.specs.Examples.{and_back, board, during_a_fence, during_a_fence_history, early_walk, early_walk_history, ended_hits, ended_hits_history, faulted, fence, first_hart_first, fresh, held_before, held_before_history, last_answer, last_answer_history, late, late_history, load, loaded, local_fence, long_fill, once_free, refused, said, second_hart_first, short_fill, stale, stale_history, text, there_and_back, there_and_back_history, three_converted, three_free, to_the_monitor, two_harts, two_phases, walks};
ghost use Rattle.cove_model.specs.Histories.{Begins, Follows, Legal};
ghost use Rattle.cove_model.specs.Owners.{Host, is_free, is_host, page_at, zeros};
ghost use Rattle.cove_model.specs.Played.{IsOver, played};
ghost use Rattle.cove_model.specs.Reports.{report, report_limit};
ghost use Rattle.cove_model.specs.States.{opening, word_at};
ghost use Rattle.cove_model.specs.Translations.{tlb};

/// The word `sched` alone is accepted.
pub fn worked_words()
    ensures alone { (word : String Global) → string_bytes word ≡ codes "sched" → accepts (word ∷ []) ≡ true }
    ensures other { (word : String Global) → string_bytes word ≡ codes "scheds" → accepts (word ∷ []) ≡ false }
    ensures none { accepts [] ≡ false }
    ensures another { (word more : String Global) → accepts (word ∷ more ∷ []) ≡ false }
{}

/// The words that a fill writes in the opening memory; of two at one place the later one is seen.
pub fn worked_fills()
    ensures later_above { word_at (opening (board 1 (long_fill ∷ short_fill ∷ []) [] [])) 0x4000 ≡ 0x339911 }
    ensures later_hides { word_at (opening (board 1 (short_fill ∷ long_fill ∷ []) [] [])) 0x4000 ≡ 0x332211 }
    ensures elsewhere { word_at (opening (board 1 (long_fill ∷ []) [] [])) 0x4008 ≡ 0 }
{}

/// The check that fails first answers: on a fresh board of 16 pages, and for a page that is converted twice.
pub fn worked_refusals()
    ensures misaligned { refusal fresh 0 (Convert 0x4001 1) ≡ refused InvalidAddress }
    ensures no_pages { refusal fresh 0 (Convert 0x4000 0) ≡ refused InvalidParam }
    ensures count_first { refusal fresh 0 (Convert 0x4001 17) ≡ refused InvalidParam }
    ensures last_page { refusal fresh 0 (Convert 0xf000 1) ≡ None }
    ensures past_memory { refusal fresh 0 (Convert 0x10000 1) ≡ refused InvalidAddress }
    ensures over_the_end { refusal fresh 0 (Convert 0xe000 3) ≡ refused InvalidAddress }
    ensures twice { refusal (state_after fresh 0 (Convert 0x4000 1)) 0 (Convert 0x4000 1) ≡ refused InvalidAddress }
    ensures not_built { refusal fresh 0 (Run 1 0 1) ≡ refused NotSupported }
    ensures info { reply_to fresh 0 Info ≡ record { status = Success; value = 1 } }
{}

/// Calls for several pages change those pages and no other, and want each of them.
pub fn worked_runs()
    ensures converted { map is_host three_converted.pages ≡ replicate 4 true ++ replicate 3 false ++ replicate 9 true }
    ensures none_free { map is_free three_converted.pages ≡ replicate 16 false }
    ensures free { map is_free three_free.pages ≡ replicate 4 false ++ replicate 3 true ++ replicate 9 false }
    ensures back { map is_host (state_after three_free 0 (Reclaim 0x4000 2)).pages
        ≡ replicate 6 true ++ replicate 1 false ++ replicate 9 true }
    ensures zeros { page_at (state_after three_free 0 (Reclaim 0x4000 2)).pages 5 ≡ Host zeros }
    ensures first_is_not { refusal three_converted 0 (Convert 0x6000 2) ≡ refused InvalidAddress }
    ensures last_is_not { refusal three_converted 0 (Convert 0x3000 2) ≡ refused InvalidAddress }
    ensures not_free { refusal three_free 0 (Reclaim 0x6000 2) ≡ refused InvalidAddress }
    ensures all_free { refusal three_free 0 (Reclaim 0x4000 3) ≡ None }
{}

/// Which events may be made: the offered line, with the answer, the word or the fault that the state gives.
pub fn worked_steps()
    ensures legal { Legal there_and_back there_and_back_history }
    ensures other_order { Legal there_and_back (fence ∷ to_the_monitor ∷ and_back ∷ []) → ⊥ }
    ensures other_value { Legal there_and_back (said 0 (Convert 0x4000 1) Success 1 ∷ []) → ⊥ }
    ensures other_status { Legal there_and_back (said 0 (Convert 0x4000 1) InvalidAddress 0 ∷ []) → ⊥ }
    ensures other_word { Legal (board 1 [] (load 0 0x4000 ∷ []) []) (loaded 0 0x4000 Walk 5 ∷ []) → ⊥ }
    ensures no_fault { Legal (board 1 [] (load 0 0x4000 ∷ []) []) (faulted 0 0x4000 ∷ []) → ⊥ }
    ensures no_success { Legal late late_history → ⊥ }
    ensures phases { Legal two_phases (to_the_monitor ∷ local_fence ∷ []) }
    ensures later_phase_first { Legal two_phases (local_fence ∷ to_the_monitor ∷ []) → ⊥ }
{}

/// Which histories make each hart's lines, each once and in order; which make the first of them; which leave none.
pub fn worked_lines()
    ensures follows { Follows two_harts first_hart_first }
    ensures follows_too { Follows two_harts second_hart_first }
    ensures twice { Follows there_and_back (to_the_monitor ∷ to_the_monitor ∷ fence ∷ and_back ∷ []) → ⊥ }
    ensures left_out { Follows there_and_back (to_the_monitor ∷ and_back ∷ []) → ⊥ }
    ensures swapped { Follows there_and_back (fence ∷ to_the_monitor ∷ and_back ∷ []) → ⊥ }
    ensures one_hart_alone { Follows two_harts (to_the_monitor ∷ fence ∷ local_fence ∷ []) → ⊥ }
    ensures a_line_more { Follows two_harts (first_hart_first ++ local_fence ∷ []) → ⊥ }
    ensures begins { Begins two_harts (local_fence ∷ to_the_monitor ∷ []) }
    ensures begins_twice { Begins there_and_back (to_the_monitor ∷ to_the_monitor ∷ []) → ⊥ }
    ensures begins_later { Begins there_and_back (fence ∷ []) → ⊥ }
    ensures begins_with_more { Begins two_harts (first_hart_first ++ local_fence ∷ []) → ⊥ }
    ensures over { IsOver two_harts first_hart_first }
    ensures first_has_a_line { IsOver two_harts (local_fence ∷ local_fence ∷ to_the_monitor ∷ []) → ⊥ }
    ensures second_has_a_line { IsOver two_harts (to_the_monitor ∷ fence ∷ local_fence ∷ []) → ⊥ }
{}

/// The translations that a hart holds, and which hits, walks and faults they give.
pub fn worked_translations()
    ensures held { (tlb stale (stale_history 0x8877665544332211 Hit) 1).pages ≡ 4 ∷ [] }
    ensures not_held { (tlb stale (stale_history 0x8877665544332211 Hit) 0).pages ≡ [] }
    ensures fenced { (tlb held_before held_before_history 1).pages ≡ [] }
    ensures last_four { (tlb (board 1 [] [] []) (walks (0 ∷ 1 ∷ 2 ∷ 3 ∷ 4 ∷ [])) 0).pages ≡ 1 ∷ 2 ∷ 3 ∷ 4 ∷ [] }
    ensures cached { IsCached stale (stale_history 0x8877665544332211 Hit) }
    ensures no_walk { IsCached stale (stale_history 0x8877665544332211 Walk) → ⊥ }
    ensures no_hit { IsCached stale (loaded 1 0x4000 Hit 0x8877665544332211 ∷ []) → ⊥ }
    ensures no_fault { IsCached stale (loaded 1 0x4000 Walk 0x8877665544332211 ∷ faulted 1 0x4000 ∷ []) → ⊥ }
    ensures late_walk { IsCached late late_history → ⊥ }
    ensures given_up { IsCached (board 1 [] [] []) (walks (0 ∷ 1 ∷ 2 ∷ 3 ∷ 4 ∷ []) ++ loaded 0 0 Hit 0 ∷ []) → ⊥ }
{}

/// A page does not change hands while a translation of any hart names it, be it the entry's hart or another one.
pub fn worked_quiet()
    ensures quiet { IsQuiet held_before held_before_history }
    ensures other_hart { IsQuiet two_harts (once_free ++ loaded 1 0x4000 Walk 0 ∷ and_back ∷ []) → ⊥ }
    ensures own_hart { IsQuiet two_harts (once_free ++ loaded 0 0x4000 Walk 0 ∷ and_back ∷ []) → ⊥ }
    ensures leaves { IsQuiet (board 3 [] [] []) (to_the_monitor ∷ fence ∷ said 2 LocalFence Success 0
        ∷ loaded 2 0x4000 Walk 0 ∷ local_fence ∷ []) → ⊥ }
{}

/// The histories that scripts play.
pub fn worked_plays()
    ensures there_and_back { played 5 there_and_back ≡ there_and_back_history }
    ensures at_its_limit { played 2 there_and_back ≡ to_the_monitor ∷ fence ∷ [] }
    ensures during_a_fence { played 8 during_a_fence ≡ during_a_fence_history }
    ensures stale { played 8 stale ≡ stale_history 0x8877665544332211 Hit }
    ensures held_before { played 8 held_before ≡ held_before_history }
    ensures early_walk { played 8 early_walk ≡ early_walk_history }
    ensures ended_hits { played 8 ended_hits ≡ ended_hits_history }
    ensures last_answer { played 8 last_answer ≡ last_answer_history }
    ensures no_lines { played 5 (board 1 [] [] []) ≡ [] }
{}

/// The journals of histories, with each of the last lines.
pub fn worked_reports()
    ensures there_and_back { report there_and_back_history
        ≡ text (codes "0 convert 0x4000 0x1 = 0 0x0" ∷ codes "0 gfence = 0 0x0"
        ∷ codes "0 reclaim 0x4000 0x1 = 0 0x0" ∷ codes "end 3" ∷ []) }
    ensures stale { report (stale_history 0x8877665544332211 Hit)
        ≡ text (codes "1 ld 0x4000 walk 8877665544332211" ∷ codes "0 convert 0x4000 0x1 = 0 0x0"
        ∷ codes "1 ld 0x4000 hit 8877665544332211" ∷ codes "0 ld 0x4000 walk fault" ∷ codes "end 4" ∷ []) }
    ensures limit { report_limit (to_the_monitor ∷ fence ∷ [])
        ≡ text (codes "0 convert 0x4000 0x1 = 0 0x0" ∷ codes "0 gfence = 0 0x0" ∷ codes "limit 2" ∷ []) }
    ensures nothing { report [] ≡ text (codes "end 0" ∷ []) }
{}
