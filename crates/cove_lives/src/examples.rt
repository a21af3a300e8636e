//! Worked examples, which the checker computes, of numbers, leaves, and what words leave of TVMs. The others stand in the files
//! `*_examples`.

ghost use Rattle.std.specs.Prelude.{◌≡◌, ◌+◌, ◌<◌, ℕ, List, [], ◌∷◌, Some, None, false, true, slice_index, slice_set};
ghost use Rattle.cove_base.specs.Measurement.{VcpuRecord, extended_at, record_bytes};
ghost use Rattle.cove_base.specs.PageWords.{given, released};
ghost use Rattle.cove_base.specs.Places.{epoch_word, tvm_word};
ghost use Rattle.cove_base.specs.Tables.{present};
ghost use Rattle.cove_base.specs.declared.numbers.Role.TheVariants.{Root, Table};
ghost use Rattle.cove_model.specs.States.{State};
ghost use Rattle.cove_lives.specs.CallExamples.{small_words};
ghost use Rattle.cove_tvm.specs.Entered.{WaitsSince, entered_below};
ghost use Rattle.cove_lives.specs.Examples.{just, nine_free, own_five, two_inside};
ghost use Rattle.cove_tvm.specs.GroundLaws.{KeepsTvms};
ghost use Rattle.cove_tvm.specs.KeptOwn.{KeepsTvm};
ghost use Rattle.cove_tvm.specs.LeafStands.{LeafStands};
ghost use Rattle.cove_tvm.specs.Leaves.{LeavesEveryTvm, LeavesTvm};
ghost use Rattle.cove_tvm.specs.NewTvms.{MayCreate, create_stores, with_new};
ghost use Rattle.cove_tvm.specs.NewVcpus.{AddsCpu, IsNewCpu};
ghost use Rattle.cove_tvm.specs.OneTvm.{KeepsMappings, LeavesOthers, OwnPartStands};
ghost use Rattle.cove_tvm.specs.Slots.{slot_at};
ghost use Rattle.cove_tvm.specs.Stands.{Stands};
ghost use Rattle.cove_lives.specs.StateExamples.{on_vcpu};
ghost use Rattle.cove_tvm.specs.TvmLends.{with_tvm};
ghost use Rattle.cove_tvm.specs.TvmTables.{live_at};
ghost use Rattle.cove_tvm.specs.declared.ground.Ground.{Ground};
ghost use Rattle.cove_tvm.specs.declared.machines.Life.TheVariants.{Gone, Runnable};
ghost use Rattle.cove_tvm.specs.declared.machines.Tvm.{Tvm};
ghost use Rattle.cove_tvm.specs.declared.vcpus.VcpuSlot.{VcpuSlot};

/// A TVM is live by its number until it is destroyed; no TVM has the number 0.
pub fn worked_numbers()
    ensures live { (tvm : Tvm) → tvm.life ≡ Runnable → live_at (just tvm) 1 ≡ Some tvm }
    ensures gone { (tvm : Tvm) → tvm.life ≡ Gone → live_at (just tvm) 1 ≡ None }
    ensures zero { (tvm : Tvm) → live_at (just tvm) 0 ≡ None }
    ensures other { (tvm : Tvm) → live_at (just tvm) 2 ≡ None }
    ensures added { (tvm new : Tvm) → new.life ≡ Runnable → live_at (with_new (just tvm) new) 2 ≡ Some new }
    ensures written { (tvm new : Tvm) → new.life ≡ Runnable → live_at (with_tvm (just tvm) 0 new) 1 ≡ Some new }
    ensures past { (tvm new : Tvm) → with_tvm (just tvm) 1 new ≡ just tvm }
{}

/// Of two harts inside, the one that is inside TVM 1 entered with the number 3, and what began to wait then waits for it.
pub fn worked_harts()
    ensures inside { entered_below 0 2 two_inside 1 4 ≡ 0 ∷ [] }
    ensures later { entered_below 0 2 two_inside 1 3 ≡ [] }
    ensures waits { WaitsSince 0 2 two_inside 1 3 (Some (0 ∷ [])) }
    ensures for_nobody { WaitsSince 0 2 two_inside 1 3 (Some []) → ⊥ }
    ensures not_known { WaitsSince 0 2 two_inside 1 3 None → ⊥ }
{}

/// A mapping of a page of the TVM's own has its private leaf, and a guest page without a mapping has none.
pub fn worked_leaves()
    ensures own { (words : List ℕ) → LeafStands 9 1 words 1 (present 5 false) (Some own_five) }
    ensures shared { (words : List ℕ) → LeafStands 9 1 words 1 (present 5 true) (Some own_five) → ⊥ }
    ensures past_the_board { (words : List ℕ) → LeafStands 5 1 words 1 (present 5 false) (Some own_five) → ⊥ }
    ensures none { (words : List ℕ) → LeafStands 9 1 words 1 0 None }
    ensures lost { (words : List ℕ) → LeafStands 9 1 words 1 0 (Some own_five) → ⊥ }
{}

/// The same words leave every TVM; words in which its root page was taken back do not.
pub fn worked_leaving()
    ensures same { (words : List ℕ) → LeavesEveryTvm 1 1 words words }
    ensures same_for_one { (words : List ℕ) (t : ℕ) → LeavesTvm 1 1 words words t }
    ensures taken { (old new : List ℕ) → slice_index old 0 ≡ given 1 Root → slice_index new 0 ≡ released
        → LeavesTvm 1 1 old new 1 → ⊥ }
{}

/// A store of the epoch leaves every TVM; one of a TVM's number, or of a word of its tables, leaves every other TVM and not this
/// one.
pub fn worked_storing()
    ensures epoch { (words : List ℕ) (n : ℕ) → LeavesEveryTvm 1 1 words (slice_set words (epoch_word 1) n) }
    ensures a_number { LeavesEveryTvm 1 1 small_words (slice_set small_words (tvm_word 1 1 2) 5) → ⊥ }
    ensures other_number { (words : List ℕ) (n : ℕ) → LeavesTvm 1 1 words (slice_set words (tvm_word 1 1 2) n) 1 }
    ensures other_table { (rest : List ℕ) → LeavesTvm 1 1 (given 2 Table ∷ 0 ∷ rest) (given 2 Table ∷ 5 ∷ rest) 1 }
    ensures own_table { (rest : List ℕ) → LeavesTvm 1 1 (given 1 Table ∷ 0 ∷ rest) (given 1 Table ∷ 5 ∷ rest) 1 → ⊥ }
    ensures own_number { LeavesTvm 1 1 small_words (slice_set small_words (tvm_word 1 1 2) 5) 2 → ⊥ }
{}

/// Words keep a TVM where a free page becomes a table page of its own, but not where it becomes one of its root's.
pub fn worked_keeping()
    ensures same { (words : List ℕ) (t : ℕ) → KeepsTvm 1 1 words words t }
    ensures more { (rest : List ℕ) → KeepsTvm 1 1 (released ∷ rest) (given 1 Table ∷ rest) 1 }
    ensures root { (rest : List ℕ) → KeepsTvm 1 1 (released ∷ rest) (given 1 Root ∷ rest) 1 → ⊥ }
    ensures taken { (rest : List ℕ) → KeepsTvm 1 1 (given 1 Table ∷ rest) (released ∷ rest) 1 → ⊥ }
{}

/// A TVM has a new vCPU by its number, which is measured, and no other one changes.
pub fn worked_adding()
    ensures adds { (tvm : Tvm) (slot : VcpuSlot) → IsNewCpu 5 slot
        → AddsCpu 1 5 tvm (record tvm { registers = extended_at tvm.registers 0 (record_bytes (VcpuRecord 1)); v1 = Some slot }) }
    ensures other { (tvm : Tvm) (slot : VcpuSlot) → tvm.v1 ≡ None → AddsCpu 1 5 tvm (record tvm { v2 = Some slot }) → ⊥ }
    ensures changed { (tvm : Tvm) (slot : VcpuSlot) → tvm.v2 ≡ None
        → AddsCpu 1 5 tvm (record tvm { v1 = Some slot; v2 = Some slot }) → ⊥ }
    ensures fifth { (tvm : Tvm) → slot_at tvm 4 ≡ None }
{}

/// A change of owners leaves all that TVMs are; finalizing a TVM keeps its number and its mappings.
pub fn worked_changes()
    ensures owners { KeepsTvms nine_free (record nine_free { pages = [] }) }
    ensures made { KeepsTvms nine_free (record nine_free { made = 1 }) → ⊥ }
    ensures finalized { KeepsMappings (λ tvm. record tvm { runnable = true }) }
    ensures renumbered { KeepsMappings (λ tvm. record tvm { number = tvm.number + 1 }) → ⊥ }
    ensures unmapped { KeepsMappings (λ tvm. record tvm { mappings = [] }) → ⊥ }
{}

/// A call on TVM 1 that changes nothing leaves the others; one that takes TVM 2 away or moves a hart doesn't. What stands has its
/// part of TVM 1; a ground with a kick stands for no state without one.
pub fn worked_others()
    ensures same { (words : List ℕ) (G : Ground) (S : State) → LeavesOthers 1 words words G G.tvms S S }
    ensures taken { (words : List ℕ) (G : Ground) (S : State) (tvm : Tvm) → live_at G.tvms 2 ≡ Some tvm
        → LeavesOthers 1 words words G (record G.tvms { tvms = [] }) S S → ⊥ }
    ensures moved { (words : List ℕ) (G : Ground)
        → LeavesOthers 1 words words G G.tvms nine_free (record nine_free { seats = on_vcpu 0 }) → ⊥ }
    ensures parts { (words : List ℕ) (G : Ground) (S : State) → Stands words G S → OwnPartStands 1 words G G.memory G.tvms S }
    ensures kicked { (words : List ℕ) (G : Ground)
        → 0 < G.harts → OwnPartStands 1 words (record G { kicked = 1 }) G.memory G.tvms nine_free → ⊥ }
{}

/// A ground with a live TVM stands for no state without one.
pub fn worked_standing()
    ensures live { (words : List ℕ) (G : Ground) (S : State) (tvm : Tvm) → S.tvms ≡ []
        → live_at G.tvms 1 ≡ Some tvm → Stands words G S → ⊥ }
{}

/// A TVM is created of four root pages and a state page that is none of them.
pub fn worked_creation()
    ensures stores { create_stores 1 0x4000 0x8000 ≡ (4, 66) ∷ (5, 66) ∷ (6, 66) ∷ (7, 66) ∷ (8, 74) ∷ [] }
    ensures may { MayCreate 9 0x4000 0x8000 nine_free }
    ensures not_apart { MayCreate 9 0x4000 0x7000 nine_free → ⊥ }
    ensures past_the_board { MayCreate 8 0x4000 0x8000 nine_free → ⊥ }
{}
