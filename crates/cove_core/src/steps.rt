//! One entry of a hart.

ghost use Rattle.std.specs.Prelude.{ℕ, ◌≡◌, ◌↔◌, ◌+◌, ◌<◌, ◌≤◌, ◌++◌, ◌∷◌, [], IfSome, IsSome, IsTrue, None, true, length, slice_get, slice_set};
ghost use Rattle.cove_base.specs.Guards.{guard_after};
ghost use Rattle.cove_base.specs.Places.{count_word};
ghost use Rattle.cove_base.specs.Scripts.{is_within_limits};
ghost use Rattle.cove_base.specs.Unchanged.{Unchanged};
ghost use Rattle.cove_core.specs.Kept.{IsKept};
ghost use Rattle.cove_core.specs.Made.{IsMade, IsPerformed};
ghost use Rattle.cove_core.specs.Reached.{IsPrepared};
ghost use Rattle.cove_core.specs.Stepped.{IsAhead, IsFirstBehind, IsFirst, IsLimit, IfNoEntry, OnAhead, OnDid};
ghost use Rattle.cove_model.specs.LawfulCounts.{CountsEntries};
ghost use Rattle.cove_model.specs.LawfulStores.{AllowsLawful};
ghost use Rattle.cove_hart.specs.HartStates.{hart_value};
ghost use Rattle.cove_model.specs.Fits.{Fits};

use crate::accesses::perform;
use crate::monitors::{Mon, line_at};
use cove_base::{ENTRY_LIMIT, Entry, Event, HartId, Script, Words, count_word};
use cove_hart::HartState;

/// What came of an event that a hart was about to make.
#[derive(Clone, Copy)]
pub enum Stepped {
    /// The hart made it, and its entry stands at this place of the history.
    Did(usize),
    /// This hart has a line of an earlier phase left.
    Ahead(HartId),
    /// The history has as many entries as it may have.
    Limit,
}

/// Makes a hart's next event and counts its entry, unless its line is of a later phase than one that is left, or
/// the history is full. It answers the place of the entry, which goes into the history.
pub fn event_step<W: Words>(
    w: &mut W,
    mon: &mut Mon,
    script: &Script,
    hart: &mut HartState,
) -> Stepped
    requires kept { IsKept script.now (W.words w.old) mon.old }
    requires fits { Fits script.now mon.old.history (hart_value hart.old) }
    requires prepared { IsPrepared script.now (hart_value hart.old) }
    requires allowed { AllowsLawful (W.allows (W.guard w.old)) script.now.pages script.now.harts hart.old.hart.0 (W.words w.old) }
    requires counted { CountsEntries (W.counts (W.guard w.old)) script.now mon.old.history hart.old.hart.0 }
    ensures made { OnDid result (λ place. IfSome (slice_get mon.new.history place) (λ entry.
        IsMade script.now (W.words w.old) (W.words w.new) mon.old mon.new (hart_value hart.old) (hart_value hart.new) entry)) }
    ensures entry { OnDid result (λ place. (place ≡ length mon.old.history) × IsSome (slice_get mon.new.history place)) }
    ensures guard { OnDid result (λ place. IfSome (slice_get mon.new.history place) (λ entry.
        W.guard w.new ≡ guard_after (W.guard w.old) (W.words w.new) entry)) }
    ensures clean { OnDid result (λ _. W.clean w.new ≡ true) }
    ensures used { OnDid result (λ _. hart.new.walked ≡ None) }
    ensures limit { IsLimit result ↔ (ENTRY_LIMIT ≤ length mon.old.history) }
    ensures ahead { OnAhead result (λ other. IsFirstBehind script.now mon.old.history (hart_value hart.old) other.0) }
    ensures behind { (other : ℕ) → IsAhead result other
        ↔ ((length mon.old.history < ENTRY_LIMIT) × IsFirstBehind script.now mon.old.history (hart_value hart.old) other) }
    ensures due { OnDid result (λ _. IsFirst script.now mon.old.history (hart_value hart.old)) }
    ensures still { IfNoEntry result
        (Unchanged W.words W.clean W.guard w.old w.new × (mon.new ≡ mon.old) × (hart.new ≡ hart.old)) }
{
    let place = mon.history.len();
    if place >= ENTRY_LIMIT as usize {
        return Stepped::Limit;
    }
    let Some(line) = line_at(script, hart.place) else {
        unreachable!()
    };
    if let Some(other) = mon.first_behind(script, line.phase) {
        return Stepped::Ahead(other);
    }
    let event = perform(w, &mut mon.ground, hart, line.line);
    enter(w, mon, script, hart, event);
    Stepped::Did(place)
}

// Counts the entry of an event that a hart has made, by the last store, and ends the hart's line.
fn enter<W: Words>(w: &mut W, mon: &mut Mon, script: &Script, hart: &mut HartState, event: Event)
    requires limits { IsTrue (is_within_limits script.now) }
    requires performed { IsPerformed script.now (W.words w.old) mon.old (hart_value hart.old) event }
    requires room { length mon.old.history < ENTRY_LIMIT }
    requires counted { CountsEntries (W.counts (W.guard w.old)) script.now mon.old.history hart.old.hart.0 }
    ensures kept { IsKept script.now (W.words w.new) mon.new }
    ensures fits { Fits script.now mon.new.history (hart_value hart.new) }
    ensures grown { mon.new.history ≡ mon.old.history ++ (record { hart = hart.old.hart; event = event }) ∷ [] }
    ensures hart { hart.new.hart ≡ hart.old.hart }
    ensures rings { hart.new.rings ≡ hart.old.rings }
    ensures used { hart.new.walked ≡ None }
    ensures words { W.words w.new
        ≡ slice_set (W.words w.old) (count_word script.now.pages script.now.harts) (length mon.old.history + 1) }
    ensures clean { W.clean w.new ≡ true }
    ensures guard { W.guard w.new
        ≡ guard_after (W.guard w.old) (W.words w.new) (record { hart = hart.old.hart; event = event }) }
{
    let entry = Entry {
        hart: hart.hart,
        event,
    };
    w.commit(count_word(mon.ground.pages, mon.ground.harts), &entry);
    hart.walked = None;
    hart.end_line(script);
    mon.progress.set_place(hart.hart, hart.place);
    mon.history.push(entry);
}
