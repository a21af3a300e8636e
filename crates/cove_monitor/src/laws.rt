//! What the records that callers read say, part by part, in the words of the crates below; and worked cases.

ghost use Rattle.std.specs.Prelude.{◌≡◌, ℕ, ◌+◌, ◌++◌, [], ◌∷◌, List, None, Some, length, true};
ghost use Rattle.atomic_table.specs.Seated.{TableId};
ghost use Rattle.cove_base.specs.HartValues.{HartValue, no_rings, rings_after};
ghost use Rattle.cove_base.specs.HostWalks.{walked_to};
ghost use Rattle.cove_base.specs.Places.{page_word};
ghost use Rattle.cove_base.specs.Rings.{found};
ghost use Rattle.cove_base.specs.Scripts.{ScriptValue};
ghost use Rattle.cove_base.specs.declared.events.Entry.{Entry};
ghost use Rattle.cove_base.specs.declared.events.Event.TheVariants.{Load, LoadFault, StoreFault};
ghost use Rattle.cove_base.specs.declared.events.How.TheVariants.{Hit};
ghost use Rattle.cove_base.specs.declared.limits.TheConstants.{ENTRY_LIMIT};
ghost use Rattle.cove_base.specs.declared.numbers.HartId.{HartId};
ghost use Rattle.cove_base.specs.declared.walks.Target.TheVariants.{Host};
ghost use Rattle.cove_board.specs.Parts.{HartPart, new_part};
ghost use Rattle.cove_core.specs.Examples.{hart_at, ring_naming};
ghost use Rattle.cove_core.specs.Stepped.{IsFirstBehind};
ghost use Rattle.cove_core.specs.declared.steps.Stepped.{Stepped};
ghost use Rattle.cove_core.specs.declared.steps.Stepped.TheVariants.{Ahead, Did, Limit};
ghost use Rattle.cove_hart.specs.Needs.{next_need};
ghost use Rattle.cove_hart.specs.declared.needs.Need.TheVariants.{Walk};
ghost use Rattle.cove_model.specs.Cached.{IsCached, IsQuiet};
ghost use Rattle.cove_model.specs.Examples.{fence, there_and_back, to_the_monitor, two_harts};
ghost use Rattle.cove_model.specs.Histories.{Begins, Legal, after, own};
ghost use Rattle.cove_model.specs.States.{ended_by, page_of};
ghost use Rattle.cove_monitor.specs.Closing.{AreSeats, HasMet, IsHistoryOf, IsNewSeat};
ghost use Rattle.cove_monitor.specs.Events.{HasLooked, HasMadeEntry, HasStepped, HasWalked, NamesNone};
ghost use Rattle.cove_monitor.specs.Examples.{seat_at};
ghost use Rattle.cove_monitor.specs.Seats.{HasSeat, IsFull, IsHartOf};

/// What a history of a script is.
pub fn histories_of_scripts()
    ensures legal { (script : ScriptValue) (history : List Entry) → IsHistoryOf script history → Legal script history }
    ensures begins { (script : ScriptValue) (history : List Entry) → IsHistoryOf script history → Begins script history }
    ensures cached { (script : ScriptValue) (history : List Entry) → IsHistoryOf script history → IsCached script history }
    ensures quiet { (script : ScriptValue) (history : List Entry) → IsHistoryOf script history → IsQuiet script history }
{}

/// What a walk leaves in the hart that made it and in its part: one load, and what it found.
pub fn walks_of_harts()
    ensures needed { (script : ScriptValue) (phase : ℕ) (held left : HartValue) (before now : HartPart)
        (made : HasWalked script phase held left before now)
        → next_need script held phase ≡ Walk (Host made.page) }
    ensures noted { (script : ScriptValue) (phase : ℕ) (held left : HartValue) (before now : HartPart)
        (made : HasWalked script phase held left before now)
        → left ≡ record held {
          rings = rings_after held.rings (Host made.page) (walked_to made.page made.word);
          walked = Some (record { target = Host made.page; walked = walked_to made.page made.word });
        } }
    ensures loaded { (script : ScriptValue) (phase : ℕ) (held left : HartValue) (before now : HartPart)
        (made : HasWalked script phase held left before now)
        → now ≡ record before {
          rings = rings_after before.rings (Host made.page) (walked_to made.page made.word);
          walked = Some (record { target = Host made.page; walked = walked_to made.page made.word });
          loads = before.loads + 1;
          place = page_word made.page.0;
          word = made.word;
        } }
{}

/// What an entry leaves in the part of the hart that made it.
pub fn entries_of_harts()
    ensures mine { (held : HartValue) (before now : HartPart) (place : ℕ) (made : HasMadeEntry held before now place)
        → now.mine ≡ before.mine ++ made.entry ∷ [] }
    ensures seen { (held : HartValue) (before now : HartPart) (place : ℕ) (made : HasMadeEntry held before now place)
        → now.seen ≡ (before.seen ++ made.between) ++ made.entry ∷ [] }
    ensures place { (held : HartValue) (before now : HartPart) (place : ℕ) (made : HasMadeEntry held before now place)
        → place ≡ length (before.seen ++ made.between) }
    ensures load_missed { (held : HartValue) (before now : HartPart) (place : ℕ) (made : HasMadeEntry held before now place)
        → (addr : ℕ) → made.entry.event ≡ LoadFault addr → found (page_of addr) held.rings.hosts ≡ None }
    ensures store_missed { (held : HartValue) (before now : HartPart) (place : ℕ) (made : HasMadeEntry held before now place)
        → (addr value : ℕ) → made.entry.event ≡ StoreFault addr value → found (page_of addr) held.rings.hosts ≡ None }
    ensures used { (held : HartValue) (before now : HartPart) (place : ℕ) (made : HasMadeEntry held before now place)
        → now.walked ≡ None }
{}

/// What a hart that made no entry has seen.
pub fn looks_of_harts()
    ensures mine { (before now : HartPart) → HasLooked before now → now.mine ≡ before.mine }
    ensures seen { (before now : HartPart) → HasLooked before now → (more : List Entry) × (now.seen ≡ before.seen ++ more) }
{}

/// What a hart and the history of a monitor that closed know of one another.
pub fn meetings_of_harts()
    ensures mine { (script : ScriptValue) (history : List Entry) (held : HartValue) (part : HartPart) → HasMet script history held part
        → own history held.hart ≡ part.mine }
    ensures seen { (script : ScriptValue) (history : List Entry) (held : HartValue) (part : HartPart) → HasMet script history held part
        → (more : List Entry) × (history ≡ part.seen ++ more) }
    ensures ended { (script : ScriptValue) (history : List Entry) (held : HartValue) (part : HartPart) → HasMet script history held part
        → held.ended ≡ ended_by (after script history) held.hart }
{}

/// What an event of a hart leaves where it made no entry: what the hart holds, and a reason.
pub fn events_of_harts()
    ensures entered { (script : ScriptValue) (place : ℕ) (held left : HartValue) (before now : HartPart)
        → HasStepped script (Did place) held left before now → HasMadeEntry held before now place }
    ensures full { (script : ScriptValue) (held left : HartValue) (before now : HartPart)
        → HasStepped script Limit held left before now
        → HasLooked before now × (left ≡ held) × (length now.seen ≡ ENTRY_LIMIT) }
    ensures behind { (script : ScriptValue) (other : HartId) (held left : HartValue) (before now : HartPart)
        → HasStepped script (Ahead other) held left before now
        → HasLooked before now × (left ≡ held) × IsFirstBehind script now.seen left other.0 }
    ensures same_hart { (script : ScriptValue) (stepped : Stepped) (held left : HartValue) (before now : HartPart)
        → HasStepped script stepped held left before now → left.hart ≡ held.hart }
{}

/// An access that failed had its page in no ring.
pub fn worked_misses()
    ensures load { NamesNone no_rings (LoadFault 0x4000) }
    ensures store { NamesNone (ring_naming 5) (StoreFault 0x4000 7) }
    ensures named_at_load { NamesNone (ring_naming 4) (LoadFault 0x4000) → ⊥ }
    ensures named_at_store { NamesNone (ring_naming 4) (StoreFault 0x4008 7) → ⊥ }
    ensures no_fault { NamesNone (ring_naming 4) (Load 0x4000 Hit 0) }
{}

/// The harts of a monitor, as it opens and in order; one that has not come to a full history; what a hart met.
pub fn worked_seats()
    ensures new { (table : TableId) → IsNewSeat table there_and_back 0 (seat_at table there_and_back 0) }
    ensures full { (table : TableId) → IsNewSeat table there_and_back 0 (record (seat_at table there_and_back 0) { full = true }) → ⊥ }
    ensures another { (table : TableId) → IsNewSeat table there_and_back 1 (seat_at table there_and_back 0) → ⊥ }
    ensures both { (table : TableId) → AreSeats table two_harts (seat_at table two_harts 0 ∷ seat_at table two_harts 1 ∷ []) }
    ensures swapped { (table : TableId) → AreSeats table two_harts (seat_at table two_harts 1 ∷ seat_at table two_harts 0 ∷ []) → ⊥ }
    ensures one_left_out { (table : TableId) → AreSeats table two_harts (seat_at table two_harts 0 ∷ []) → ⊥ }
    ensures another_script { (table : TableId) → IsHartOf table two_harts (seat_at table there_and_back 0) → ⊥ }
    ensures not_full { IsFull (hart_at 0 0) (new_part there_and_back 0) → ⊥ }
    ensures no_pass { HasSeat (hart_at 0 0) None → ⊥ }
    ensures met { HasMet there_and_back [] (hart_at 0 0) (new_part there_and_back 0) }
    ensures not_its_own { HasMet there_and_back (to_the_monitor ∷ []) (hart_at 0 1) (new_part there_and_back 0) → ⊥ }
    ensures not_seen { HasMet there_and_back [] (hart_at 0 0) (record (new_part there_and_back 0) { seen = fence ∷ [] }) → ⊥ }
    ensures not_ended { HasMet there_and_back [] (hart_at 0 1) (new_part there_and_back 0) → ⊥ }
    ensures looked { HasLooked (new_part there_and_back 0) (record (new_part there_and_back 0) { seen = fence ∷ [] }) }
    ensures made { HasLooked (new_part there_and_back 0) (record (new_part there_and_back 0) { mine = fence ∷ [] }) → ⊥ }
{}
