//! Worked examples of what stands for TVMs and vCPUs of the definitions.

ghost use Rattle.std.specs.Prelude.{◌≡◌, ◌≢◌, ℕ, List, [], ◌∷◌, Option, None, Some, false, true, replicate, slice_set};
ghost use Rattle.cove_base.specs.InterruptFiles.{InterruptFile, empty_file};
ghost use Rattle.cove_base.specs.PageWords.{given};
ghost use Rattle.cove_base.specs.Registers.{registers};
ghost use Rattle.cove_base.specs.TableWords.{blocked};
ghost use Rattle.cove_base.specs.Tables.{present};
ghost use Rattle.cove_base.specs.declared.modes.Mode.TheVariants.{Sv39x4, Sv48x4};
ghost use Rattle.cove_base.specs.declared.numbers.Role.TheVariants.{Table};
ghost use Rattle.cove_base.specs.declared.registers.Regs.{Regs};
ghost use Rattle.cove_imsic.specs.FileTables.{FileTable};
ghost use Rattle.cove_model.specs.States.{Seat, new_cpu};
ghost use Rattle.cove_model.specs.Tvms.{Begun, NotBegun, created, new_tvm};
ghost use Rattle.cove_stage2.specs.declared.tables.Tables.{Tables};
ghost use Rattle.cove_lives.specs.Examples.{begun, two_inside};
ghost use Rattle.cove_tvm.specs.LeafStands.{BlockedStands};
ghost use Rattle.cove_tvm.specs.NewVcpus.{IsNewCpu};
ghost use Rattle.cove_lives.specs.StateExamples.{as_second, begun_words, new_slot, nowhere, on_vcpu, to_second, two_files};
ghost use Rattle.cove_tvm.specs.TvmStands.{LiveStands};
ghost use Rattle.cove_tvm.specs.VcpuStands.{BindingStands, RunStands, UnbindingStands};
ghost use Rattle.cove_tvm.specs.declared.vcpus.RunState.TheVariants.{Ready, Running, Stopped};
ghost use Rattle.cove_tvm.specs.declared.vcpus.VcpuSlot.{VcpuSlot};

/// A TVM that was just created stands for a new one, where each page that is given to it is found.
pub fn worked_living()
    ensures new { (seats : ℕ → Option Seat) (files : FileTable) (tables : Tables) → tables.root.0 ≡ 4 → tables.pages ≡ 9
        → LiveStands 9 1 begun_words 1 seats files (begun tables) (created 1 tables.mode 0x10009) }
    ensures another_mode { (files : FileTable) (tables : Tables) → tables.mode ≡ Sv39x4
        → LiveStands 9 1 begun_words 1 nowhere files (begun tables) (created 1 Sv48x4 0x10009) → ⊥ }
    ensures finalized { (files : FileTable) (tables : Tables)
        → LiveStands 9 1 begun_words 1 nowhere files (begun tables) (record (created 1 tables.mode 0x10009) { runnable = true }) → ⊥ }
    ensures injected { (files : FileTable) (tables : Tables)
        → LiveStands 9 1 begun_words 1 nowhere files (begun tables) (record (created 1 tables.mode 0x10009) { allowed = 5 ∷ [] }) → ⊥ }
    ensures has_vcpu { (files : FileTable) (tables : Tables)
        → LiveStands 9 1 begun_words 1 nowhere files (begun tables) (record (created 1 tables.mode 0x10009) { cpus = new_cpu 0 ∷ [] }) → ⊥ }
    ensures lost_page { (files : FileTable) (tables : Tables) → tables.root.0 ≡ 4
        → LiveStands 9 1 (slice_set begun_words 3 (given 1 Table)) 1 nowhere files (begun tables) (created 1 tables.mode 0x10009) → ⊥ }
    ensures another { (files : FileTable) (tables : Tables) → LiveStands 9 1 begun_words 2 nowhere files (begun tables) (new_tvm 2) → ⊥ }
{}

/// A leaf that is blocked since the number 3 of TVM 1 may be used by hart 0, which entered with 3, and waits for it.
pub fn worked_blocking()
    ensures since { BlockedStands 0 2 two_inside 1 (present 5 false) (blocked (present 5 false) 3) (0 ∷ []) (Some (0 ∷ [])) }
    ensures hart_outside { BlockedStands 0 2 two_inside 1 (present 5 false) (blocked (present 5 false) 3) (1 ∷ []) (Some (0 ∷ [])) → ⊥ }
    ensures for_nobody { BlockedStands 0 2 two_inside 1 (present 5 false) (blocked (present 5 false) 3) (0 ∷ []) (Some []) → ⊥ }
    ensures entered_later { BlockedStands 0 2 two_inside 1 (present 5 false) (blocked (present 5 false) 2) (0 ∷ []) (Some []) → ⊥ }
    ensures to_come { BlockedStands 0 2 two_inside 1 (present 5 false) (blocked (present 5 false) 5) [] None → ⊥ }
    ensures another_page { BlockedStands 0 2 two_inside 1 (present 5 false) (blocked (present 6 false) 3) (0 ∷ []) (Some (0 ∷ [])) → ⊥ }
{}

/// A vCPU is new with its page, ready, with nothing pending.
pub fn worked_vcpus()
    ensures new { (regs : Regs) → registers regs ≡ replicate 32 0 → regs.pc ≡ 0 → IsNewCpu 5 (new_slot regs) }
    ensures another_page { (regs : Regs) → IsNewCpu 6 (new_slot regs) → ⊥ }
    ensures stopped { (regs : Regs) → IsNewCpu 5 (record (new_slot regs) { run = Stopped }) → ⊥ }
    ensures pending { (regs : Regs) → IsNewCpu 5 (record (new_slot regs) { saved = record empty_file { pending = 7 ∷ [] } }) → ⊥ }
{}

/// A vCPU rests with its registers while no hart is on it, and runs, whatever they are, where its hart is on it.
pub fn worked_running()
    ensures rests { (regs : Regs) → registers regs ≡ replicate 32 0 → regs.pc ≡ 0 → RunStands 1 nowhere 1 2 Ready regs (new_cpu 2) }
    ensures another_place { (regs : Regs) → regs.pc ≡ 4 → RunStands 1 nowhere 1 2 Ready regs (new_cpu 2) → ⊥ }
    ensures while_run { (regs : Regs) → RunStands 1 (on_vcpu 2) 1 2 Ready regs (new_cpu 2) → ⊥ }
    ensures stopped { (regs : Regs) → RunStands 1 nowhere 1 2 Ready regs (record (new_cpu 2) { stopped = true }) → ⊥ }
    ensures runs { (regs : Regs) → RunStands 1 (on_vcpu 2) 1 2 (Running (record { 0 = 0 })) regs (new_cpu 2) }
    ensures runs_another { (regs : Regs) → RunStands 1 (on_vcpu 3) 1 2 (Running (record { 0 = 0 })) regs (new_cpu 2) → ⊥ }
{}

/// A vCPU that is bound to the file of hart 1 has the interrupts of that file; its unbinding waits as a blocked leaf does.
pub fn worked_binding()
    ensures bound { (first second saved : InterruptFile)
        → BindingStands 0 2 two_inside (two_files first second) 1 (Some (to_second None)) saved (Some (as_second NotBegun)) second }
    ensures other_file { (first second saved : InterruptFile) → second ≢ first
        → BindingStands 0 2 two_inside (two_files first second) 1 (Some (to_second None)) saved (Some (as_second NotBegun)) first → ⊥ }
    ensures not_bound { (files : FileTable) (saved : InterruptFile)
        → BindingStands 0 2 two_inside files 1 (Some (to_second None)) saved None saved → ⊥ }
    ensures unbinding { (files : FileTable) → UnbindingStands 0 2 two_inside files 1 (Some 3) (Begun (Some (0 ∷ []))) }
    ensures not_fenced { (files : FileTable) → UnbindingStands 0 2 two_inside files 1 (Some 3) (Begun None) → ⊥ }
    ensures to_come { (files : FileTable) → UnbindingStands 0 2 two_inside files 1 (Some 5) (Begun None) → ⊥ }
{}
