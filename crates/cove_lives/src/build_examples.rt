//! Worked examples of what the calls that build a TVM and end it leave.

ghost use Rattle.std.specs.Prelude.{◌≡◌, ◌++◌, ℕ, List, [], ◌∷◌, None, Some, replicate, slice_set};
ghost use Rattle.cove_base.specs.PageWords.{given, host, released};
ghost use Rattle.cove_base.specs.Places.{epoch_word};
ghost use Rattle.cove_base.specs.Registers.{registers};
ghost use Rattle.cove_base.specs.TableWords.{shared_leaf};
ghost use Rattle.cove_base.specs.declared.modes.Mode.TheVariants.{Sv39x4, Sv48x4};
ghost use Rattle.cove_base.specs.declared.numbers.Role.TheVariants.{Table};
ghost use Rattle.cove_base.specs.declared.registers.Regs.{Regs};
ghost use Rattle.cove_model.specs.Tvms.{new_tvm};
ghost use Rattle.cove_stage2.specs.declared.tables.Tables.{Tables};
ghost use Rattle.cove_tvm.specs.BuiltTvms.{AreStarted, IsStarted, with_region};
ghost use Rattle.cove_tvm.specs.DestroyedTvms.{Destroys};
ghost use Rattle.cove_lives.specs.Examples.{begun};
ghost use Rattle.cove_tvm.specs.MoreTables.{AddsTables, tables_stores};
ghost use Rattle.cove_tvm.specs.NewVcpus.{vcpu_stores};
ghost use Rattle.cove_tvm.specs.PrivateRuns.{memory_stores};
ghost use Rattle.cove_lives.specs.RunExamples.{three_pages, two_sharing};
ghost use Rattle.cove_tvm.specs.TvmTables.{IsNewTvm};
ghost use Rattle.cove_tvm.specs.declared.machines.Life.TheVariants.{Building, Gone, Runnable};
ghost use Rattle.cove_tvm.specs.declared.machines.Tvm.{Tvm};
ghost use Rattle.cove_tvm.specs.declared.vcpus.RunState.TheVariants.{Ready, Stopped};
ghost use Rattle.cove_tvm.specs.declared.vcpus.VcpuSlot.{VcpuSlot};

/// A TVM begins unfinished, with its root and its state page, and without a vCPU or an interrupt that may be injected.
pub fn worked_beginning()
    ensures begun { (tables : Tables) → tables.root.0 ≡ 4 → tables.pages ≡ 9 → IsNewTvm 9 0x10009 4 tables.mode 8 (begun tables) }
    ensures another_root { (tables : Tables) → tables.root.0 ≡ 5 → IsNewTvm 9 0x10009 4 tables.mode 8 (begun tables) → ⊥ }
    ensures another_mode { (tables : Tables) → tables.mode ≡ Sv39x4 → IsNewTvm 9 0x10009 4 Sv48x4 8 (begun tables) → ⊥ }
    ensures finalized { (tables : Tables) → IsNewTvm 9 0x10009 4 tables.mode 8 (record (begun tables) { life = Runnable }) → ⊥ }
    ensures has_vcpu { (tables : Tables) (slot : VcpuSlot) → IsNewTvm 9 0x10009 4 tables.mode 8 (record (begun tables) { v3 = Some slot }) → ⊥ }
    ensures may_inject { (tables : Tables) → IsNewTvm 9 0x10009 4 tables.mode 8 (record (begun tables) { allowed = 1 }) → ⊥ }
{}

/// The page word of a page that is given says the TVM and what it is for.
pub fn worked_giving()
    ensures tables { tables_stores 1 0x4000 2 ≡ (4, 82) ∷ (5, 82) ∷ [] }
    ensures vcpu { vcpu_stores 1 0x4000 ≡ (4, 90) ∷ [] }
    ensures memory { memory_stores 1 0x4000 2 ≡ (4, 98) ∷ (5, 98) ∷ [] }
{}

/// More table pages stand behind those of the pool, and nothing else of the TVM changes; a region stands behind the others.
pub fn worked_growing()
    ensures pages { (tvm : Tvm)
        → AddsTables 0x4000 2 tvm (record tvm { pool = record { pages = tvm.pool.pages ++ 4 ∷ 5 ∷ []; room = tvm.pool.room } }) }
    ensures one_page { (tvm : Tvm)
        → AddsTables 0x4000 2 tvm (record tvm { pool = record { pages = tvm.pool.pages ++ 4 ∷ []; room = tvm.pool.room } }) → ⊥ }
    ensures less_room { (tvm : Tvm) → tvm.pool.room ≡ 9
        → AddsTables 0x4000 0 tvm (record tvm { pool = record { pages = tvm.pool.pages ++ []; room = 8 } }) → ⊥ }
    ensures gone { (tvm : Tvm) → tvm.life ≡ Building → AddsTables 0x4000 0 tvm (record tvm { life = Gone }) → ⊥ }
    ensures region { (with_region 0x8000 0x1000 (with_region 0x3000 0x2000 (new_tvm 1))).regions
        ≡ record { first = 3; count = 2 } ∷ record { first = 8; count = 1 } ∷ [] }
{}

/// vCPU 2 starts at the place with its number in a0 and the argument in a1, and no vCPU comes or goes.
pub fn worked_starting()
    ensures starts { (old : VcpuSlot) (regs : Regs)
        → registers regs ≡ replicate 10 0 ++ 2 ∷ 7 ∷ replicate 20 0 → regs.pc ≡ 0x1000
        → IsStarted 0x1000 7 2 old (record old { regs = regs }) }
    ensures another_number { (old new : VcpuSlot)
        → registers new.regs ≡ replicate 10 0 ++ 3 ∷ 7 ∷ replicate 20 0 → IsStarted 0x1000 7 2 old new → ⊥ }
    ensures elsewhere { (old new : VcpuSlot) → new.regs.pc ≡ 0 → IsStarted 0x1000 7 2 old new → ⊥ }
    ensures stopped { (old new : VcpuSlot) → old.run ≡ Ready → new.run ≡ Stopped → IsStarted 0x1000 7 2 old new → ⊥ }
    ensures comes { (slot : VcpuSlot) → AreStarted 0x1000 7 2 None (Some slot) → ⊥ }
    ensures goes { (slot : VcpuSlot) → AreStarted 0x1000 7 2 (Some slot) None → ⊥ }
{}

/// TVM 1 is destroyed: its table is cleared and released, and the page that both shared counts the leaf that TVM 2 keeps.
pub fn worked_destroying()
    ensures destroyed { Destroys 3 two_sharing (three_pages released (given 2 Table) (host 1) 0 (shared_leaf 2)) 1 }
    ensures page_left { Destroys 3 two_sharing (three_pages (given 1 Table) (given 2 Table) (host 1) 0 (shared_leaf 2)) 1 → ⊥ }
    ensures leaf_left { Destroys 3 two_sharing (three_pages released (given 2 Table) (host 2) (shared_leaf 2) (shared_leaf 2)) 1 → ⊥ }
    ensures count_left { Destroys 3 two_sharing (three_pages released (given 2 Table) (host 2) 0 (shared_leaf 2)) 1 → ⊥ }
    ensures other_page { Destroys 3 two_sharing (three_pages released released (host 1) 0 (shared_leaf 2)) 1 → ⊥ }
    ensures other_leaf { Destroys 3 two_sharing (three_pages released (given 2 Table) (host 0) 0 0) 1 → ⊥ }
    ensures fence { Destroys 3 two_sharing (slice_set (three_pages released (given 2 Table) (host 1) 0 (shared_leaf 2)) (epoch_word 3) 1) 1 → ⊥ }
{}
