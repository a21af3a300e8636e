//! The laws of the definitions: their clauses say what holds of every script, state and history.

ghost use Rattle.std.specs.Prelude.{◌≡◌, ◌<◌, ◌≤◌, ◌↔◌, ℕ, List, [], ◌∷◌, ◌++◌, length, map, slice_index_or, Some, None, true, false, IsTrue};
ghost use Rattle.cove_base.specs.Evidence.{evidence};
ghost use Rattle.cove_base.specs.Measurement.{Extension, Record, board_number, record_bytes, register_of, registers_of};
ghost use Rattle.cove_base.specs.Registers.{register};
ghost use Rattle.cove_base.specs.Scripts.{ScriptValue, is_within_limits};
ghost use Rattle.cove_base.specs.declared.calls.GuestAct.{GuestAct};
ghost use Rattle.cove_base.specs.declared.calls.HostCall.{HostCall};
ghost use Rattle.cove_base.specs.declared.events.Entry.{Entry};
ghost use Rattle.cove_base.specs.declared.events.Event.{Event};
ghost use Rattle.cove_base.specs.declared.events.Event.TheVariants.{Call, Guest};
ghost use Rattle.cove_base.specs.HartPlaces.{IsNextPlace};
ghost use Rattle.cove_base.specs.HartValues.{HartValue, after_walk};
ghost use Rattle.cove_base.specs.declared.events.How.{How};
ghost use Rattle.cove_base.specs.declared.events.Walked.TheVariants.{Found, Missing};
ghost use Rattle.cove_base.specs.declared.numbers.Page.{Page};
ghost use Rattle.cove_base.specs.declared.scripts.Line.{Line};
ghost use Rattle.cove_base.specs.declared.statuses.Reply.{Reply};
ghost use Rattle.cove_base.specs.declared.statuses.Status.TheVariants.{NotSupported};
ghost use Rattle.cove_base.specs.declared.walks.Target.{Target};
ghost use Rattle.cove_model.specs.HostMemory.{seen_words};
ghost use Rattle.cove_model.specs.Owners.{page_at};
ghost use Rattle.cove_model.specs.Answers.{effect, is_built, refusal, reply_by, reply_to};
ghost use Rattle.cove_model.specs.Examples.{refused};
ghost use Rattle.cove_model.specs.Fits.{Fits, InsideFits, IsSought, page_for, rings_of};
ghost use Rattle.cove_model.specs.Cached.{IsCached, IsQuiet, IsQuietAt, IsReached, WasFound};
ghost use Rattle.cove_model.specs.GuestCalls.{evidence_at, guest_bytes, guest_rule};
ghost use Rattle.cove_model.specs.Histories.{Begins, Follows, Legal, after, after_entry, own, told};
ghost use Rattle.cove_model.specs.Mappings.{mapping_of};
ghost use Rattle.cove_model.specs.Measured.{IsMeasured};
ghost use Rattle.cove_model.specs.Offers.{NoneEarlier, Single, Touch, cpu_of, first_behind, is_found, may_succeed, offer};
ghost use Rattle.cove_model.specs.Orderly.{AreBoundApart, IsOrderly};
ghost use Rattle.cove_model.specs.Played.{IsEnded, IsOver, Play, played, round};
ghost use Rattle.cove_model.specs.Seated.{IsSeated, IsStill};
ghost use Rattle.cove_model.specs.Sound.{IsBoardOf, IsSound, IsUsable};
ghost use Rattle.cove_model.specs.States.{Seat, State, ended_by, find_tvm, tvm_at};
ghost use Rattle.cove_model.specs.Steps.{Allows, IsStep, asked};
ghost use Rattle.cove_model.specs.Translations.{held_after, renewed, holds_target, tlb, touched};
ghost use Rattle.cove_model.specs.Tvms.{Mapping, OwnPage, Tvm};

/// What a history gives, one entry later.
pub fn one_entry_later()
    ensures state { (script : ScriptValue) (history : List Entry) (entry : Entry)
        → after script (history ++ entry ∷ []) ≡ after_entry (after script history) entry }
    ensures legal { (script : ScriptValue) (history : List Entry) (entry : Entry)
        → Legal script (history ++ entry ∷ [])
        ↔ (Legal script history × Allows script (after script history) entry.hart.0 entry.event) }
    ensures cached { (script : ScriptValue) (history : List Entry) (entry : Entry)
        → IsCached script (history ++ entry ∷ [])
        ↔ (IsCached script history × IsReached script history entry.hart.0 entry.event) }
    ensures quiet { (script : ScriptValue) (history : List Entry) (entry : Entry)
        → IsQuiet script (history ++ entry ∷ []) ↔ (IsQuiet script history × IsQuietAt script history entry) }
    ensures own { (history : List Entry) (entry : Entry)
        → own (history ++ entry ∷ []) entry.hart.0 ≡ own history entry.hart.0 ++ entry ∷ [] }
    ensures told { (history : List Entry) (entry : Entry) (line : Line)
        → asked entry.event ≡ Some line
        → told (history ++ entry ∷ []) entry.hart.0 ≡ told history entry.hart.0 ++ line ∷ [] }
    ensures translations { (script : ScriptValue) (history : List Entry) (entry : Entry) (hart : ℕ)
        → tlb script (history ++ entry ∷ []) hart ≡ held_after hart (after script history) (tlb script history hart) entry }
{}

/// An entry of another hart leaves a hart's entries, lines, seat and translations as they are.
pub fn others_untouched()
    ensures own { (history : List Entry) (entry : Entry) (hart : ℕ)
        → (entry.hart.0 ≡ hart → ⊥) → own (history ++ entry ∷ []) hart ≡ own history hart }
    ensures told { (history : List Entry) (entry : Entry) (hart : ℕ)
        → (entry.hart.0 ≡ hart → ⊥) → told (history ++ entry ∷ []) hart ≡ told history hart }
    ensures ended { (script : ScriptValue) (history : List Entry) (entry : Entry) (hart : ℕ)
        → (entry.hart.0 ≡ hart → ⊥)
        → ended_by (after script (history ++ entry ∷ [])) hart ≡ ended_by (after script history) hart }
    ensures seat { (script : ScriptValue) (history : List Entry) (entry : Entry) (hart : ℕ)
        → (entry.hart.0 ≡ hart → ⊥)
        → (after script (history ++ entry ∷ [])).seats hart ≡ (after script history).seats hart }
    ensures translations { (script : ScriptValue) (history : List Entry) (entry : Entry) (hart : ℕ)
        → (entry.hart.0 ≡ hart → ⊥) → tlb script (history ++ entry ∷ []) hart ≡ tlb script history hart }
{}

/// A step is determined by the script, the state and the entry; a hart's event, up to how an access ends.
pub fn steps_are_determined()
    ensures state { (script : ScriptValue) (before one other : State) (entry : Entry)
        → IsStep script before entry one → IsStep script before entry other → one ≡ other }
    ensures line { (script : ScriptValue) (S : State) (hart : ℕ) (one other : Event)
        → Allows script S hart one → Allows script S hart other → asked one ≡ asked other }
    ensures event { (script : ScriptValue) (S : State) (hart : ℕ) (one other : Event)
        → Allows script S hart one → Allows script S hart other → touched S hart one ≡ touched S hart other → one ≡ other }
{}

/// What a hart is offered, it may make: one event, or an access, which succeeds where its target is found and faults
/// where it is not. And a line waits for no hart just where no earlier line is left.
pub fn offers_are_allowed()
    ensures single { (script : ScriptValue) (S : State) (hart : ℕ) (event : Event)
        → offer script S hart ≡ Single event → Allows script S hart event }
    ensures found { (script : ScriptValue) (S : State) (hart : ℕ) (target : Target) (success : How → Event) (fault : Event) (how : How)
        → offer script S hart ≡ Touch target success fault → is_found S hart target ≡ true
        → Allows script S hart (success how) }
    ensures missing { (script : ScriptValue) (S : State) (hart : ℕ) (target : Target) (success : How → Event) (fault : Event)
        → offer script S hart ≡ Touch target success fault → is_found S hart target ≡ false
        → Allows script S hart fault }
    ensures earlier { (script : ScriptValue) (S : State) (phase : ℕ)
        → IsTrue (is_within_limits script) → (first_behind script S phase ≡ None) ↔ NoneEarlier script S phase }
{}

/// A call that is not built is not supported, in every state.
pub fn unbuilt_calls_are_refused()
    ensures { (S : State) (hart : ℕ) (call : HostCall)
        → is_built call ≡ false → refusal S hart call ≡ refused NotSupported }
{}

/// Each call of the host, and each of a guest, is answered as its rule says.
pub fn rules_answer()
    ensures host { (script : ScriptValue) (S : State) (hart : ℕ) (call : HostCall) (reply : Reply)
        → S.seats hart ≡ None → Allows script S hart (Call call reply) → reply ≡ reply_to S hart call }
    ensures guest { (script : ScriptValue) (S : State) (hart : ℕ) (seat : Seat) (act : GuestAct) (reply : Reply)
        → S.seats hart ≡ Some seat → Allows script S hart (Guest act reply)
        → reply ≡ reply_by (guest_rule S hart seat.tvm (register (cpu_of S seat).x 10) (register (cpu_of S seat).x 11) act) }
{}

/// After every history, legal or not, pages, mappings and what they wait for are sound, and the board is the script's.
pub fn states_are_sound()
    ensures sound { (script : ScriptValue) (history : List Entry) → IsSound (after script history) }
    ensures board { (script : ScriptValue) (history : List Entry) → IsBoardOf script (after script history) }
{}

/// After every history the numbers of live TVMs differ, and the guest pages of a TVM's mappings; pages are given to live
/// TVMs alone.
pub fn states_are_orderly()
    ensures { (script : ScriptValue) (history : List Entry) → IsOrderly (after script history) }
{}

/// After every history the numbers of a TVM's vCPUs differ, and no two vCPUs are bound to one file of one hart.
pub fn vcpus_are_bound_apart()
    ensures states { (script : ScriptValue) (history : List Entry) → AreBoundApart (after script history) }
    // So it is after each call of the host, whatever state it is made in.
    ensures calls { (S : State) (hart : ℕ) (call : HostCall)
        → refusal S hart call ≡ None → AreBoundApart S → AreBoundApart (effect S hart call) }
{}

/// The words of a TVM's own page stand under its guest page, and host memory has none of them.
pub fn private_pages_are_not_host_memory()
    ensures { (script : ScriptValue) (history : List Entry) (tvm : Tvm) (mapping : Mapping) (t g page : ℕ) (words : List ℕ)
        → find_tvm (after script history) t ≡ Some tvm → mapping_of tvm g ≡ Some mapping
        → mapping.backing ≡ OwnPage page words
        → seen_words (page_at (after script history).pages page) ≡ None }
{}

/// Along a legal history harts that are inside sit on vCPUs that run, no two of them on one.
pub fn harts_sit_on_vcpus_that_run()
    ensures { (script : ScriptValue) (history : List Entry)
        → IsTrue (is_within_limits script) → Legal script history → IsSeated (after script history) }
{}

/// What other harts do leaves the registers, the place, the latched word and the fuel of the vCPU that a hart runs.
pub fn entries_of_others_leave_a_running_vcpu()
    ensures { (script : ScriptValue) (history since : List Entry) (hart : ℕ) (seat : Seat)
        → IsTrue (is_within_limits script) → hart < script.harts → (after script history).seats hart ≡ Some seat
        → Legal script history → Legal script (history ++ since) → own since hart ≡ []
        → IsStill (cpu_of (after script history) seat) (cpu_of (after script (history ++ since)) seat) }
{}

/// A hart may use what it holds translations of, and what a walk found since its last entry.
pub fn translations_are_usable()
    ensures held { (script : ScriptValue) (history : List Entry) (hart : ℕ)
        → IsTrue (is_within_limits script) → Legal script history
        → IsUsable (after script history) hart (tlb script history hart) }
    ensures target { (script : ScriptValue) (history : List Entry) (hart : ℕ) (target : Target)
        → IsTrue (is_within_limits script) → Legal script history → holds_target (tlb script history hart) target ≡ true
        → may_succeed (after script history) hart target ≡ true }
    ensures found { (script : ScriptValue) (history : List Entry) (hart : ℕ) (target : Target)
        → hart < script.harts → WasFound script history hart target
        → may_succeed (after script history) hart target ≡ true }
{}

/// What a hart holds keeps fitting: under each entry of another hart, after a walk of its own for what it looks for next,
/// which finds it where it is, and after an entry of its own.
pub fn harts_keep_fitting()
    ensures others { (script : ScriptValue) (history : List Entry) (entry : Entry) (held : HartValue)
        → IsTrue (is_within_limits script) → Legal script history → Legal script (history ++ entry ∷ [])
        → (entry.hart.0 ≡ held.hart → ⊥) → Fits script history held → Fits script (history ++ entry ∷ []) held }
    ensures found { (script : ScriptValue) (history : List Entry) (held : HartValue) (target : Target) (page : Page)
        → Fits script history held → held.walked ≡ None → IsSought script history held.hart target
        → is_found (after script history) held.hart target ≡ true → page.0 ≡ page_for (after script history) held.hart target
        → Fits script history (after_walk held target (Found page)) }
    ensures missing { (script : ScriptValue) (history : List Entry) (held : HartValue) (target : Target) (word : ℕ)
        → Fits script history held → held.walked ≡ None → IsSought script history held.hart target
        → Fits script history (after_walk held target (Missing word)) }
    ensures entered { (script : ScriptValue) (history : List Entry) (entry : Entry) (left : HartValue)
        → entry.hart.0 ≡ left.hart → left.hart < script.harts
        → left.ended ≡ ended_by (after script (history ++ entry ∷ [])) left.hart
        → IsNextPlace script left.hart left.ended left.place
        → left.rings ≡ rings_of (renewed (after script history) left.hart (tlb script history left.hart) entry.event)
        → left.walked ≡ None → InsideFits (after script (history ++ entry ∷ [])) left.hart left.inside
        → Fits script (history ++ entry ∷ []) left }
{}

/// In a legal history no page changes hands while a translation of any hart names it.
pub fn legal_histories_are_quiet()
    ensures { (script : ScriptValue) (history : List Entry)
        → IsTrue (is_within_limits script) → Legal script history → IsQuiet script history }
{}

/// A legal history begins its script, and follows it, with nobody inside, where no line is left.
pub fn legal_histories_begin()
    ensures begins { (script : ScriptValue) (history : List Entry) → Legal script history → Begins script history }
    ensures follows { (script : ScriptValue) (history : List Entry)
        → Legal script history → IsOver script history → Follows script history }
{}

/// What a script plays is one legal and cached history that begins the script. It ends, with no line left or at its limit.
pub fn played_histories_are_legal()
    ensures legal { (limit : ℕ) (script : ScriptValue)
        → IsTrue (is_within_limits script) → Legal script (played limit script) }
    ensures cached { (limit : ℕ) (script : ScriptValue)
        → IsTrue (is_within_limits script) → IsCached script (played limit script) }
    ensures quiet { (limit : ℕ) (script : ScriptValue)
        → IsTrue (is_within_limits script) → IsQuiet script (played limit script) }
    ensures begins { (limit : ℕ) (script : ScriptValue)
        → IsTrue (is_within_limits script) → Begins script (played limit script) }
    ensures bounded { (limit : ℕ) (script : ScriptValue) → length (played limit script) ≤ limit }
    ensures ends { (limit : ℕ) (script : ScriptValue) → IsEnded limit script (played limit script) }
    ensures follows { (limit : ℕ) (script : ScriptValue)
        → IsTrue (is_within_limits script) → IsOver script (played limit script) → Follows script (played limit script) }
{}

/// A round of turns that changes nothing is the last one.
pub fn still_rounds_are_last()
    ensures { (limit : ℕ) (script : ScriptValue) (play : Play)
        → round limit script play ≡ play → IsEnded limit script play.history }
{}

/// What is measured of a TVM is the board it was created on, its pages and vCPUs while it is built, and its finalize record
/// last; so register 0 of its evidence is the fold of these, whatever came since.
pub fn records_are_sealed()
    ensures measured { (script : ScriptValue) (history : List Entry) (t : ℕ) (tvm : Tvm)
        → find_tvm (after script history) t ≡ Some tvm
        → IsMeasured (board_number script.pages script.harts script.files) tvm }
    ensures sealed { (script : ScriptValue) (history : List Entry) (entry : Entry) (t : ℕ) (tvm now : Tvm)
        → find_tvm (after script history) t ≡ Some tvm → tvm.runnable ≡ true
        → find_tvm (after script (history ++ entry ∷ [])) t ≡ Some now
        → (now.runnable ≡ true) × (now.records ≡ tvm.records) }
    ensures registers { (S : State) (t nonce : ℕ) → evidence_at S t nonce
        ≡ evidence 2 (registers_of (tvm_at S t).records (tvm_at S t).extensions) (guest_bytes S t nonce 64) S.key }
    ensures first { (records : List Record) (extensions : List Extension)
        → slice_index_or (registers_of records extensions) 0 [] ≡ register_of (map record_bytes records) }
{}
