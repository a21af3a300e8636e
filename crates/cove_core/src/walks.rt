//! One walk of a hart.

ghost use Rattle.std.specs.Prelude.{◌≡◌, ◌<◌, ◌^◌, length, slice_index};
ghost use Rattle.cove_base.specs.PageWords.{IsPageWord};
ghost use Rattle.cove_base.specs.HartPlaces.{IsNextPlace};
ghost use Rattle.cove_base.specs.Unchanged.{Unchanged};
ghost use Rattle.cove_core.specs.Walks.{HavePageWords, IsFoundIn, IsWalked};
ghost use Rattle.cove_hart.specs.HartStates.{hart_value};
ghost use Rattle.cove_hart.specs.Needs.{next_need};
ghost use Rattle.cove_hart.specs.declared.needs.Need.TheVariants.{Walk};
ghost use Rattle.cove_base.specs.declared.walks.Target.{Target};

use crate::monitors::within_limits;
use cove_base::{Page, Script, Target, Walked, Words, page_word};
use cove_hart::{HartState, Need};
use cove_owner::{PageState, decode};

// What a walk to a page comes to.
fn walk<W: Words>(w: &mut W, page: Page) -> Walked
    requires place { page.0 < length (W.words w.old) }
    requires limit { page.0 < 2 ^ 16 }
    requires word { IsPageWord (slice_index (W.words w.old) page.0) }
    ensures walked { IsFoundIn (W.words w.old) page.0 result }
    ensures unchanged { Unchanged W.words W.clean W.guard w.old w.new }
{
    let word = w.get(page_word(page));
    match decode(word) {
        PageState::Host { .. } => Walked::Found(page),
        PageState::Converting { .. } | PageState::Given { .. } | PageState::Released => {
            Walked::Missing(word)
        }
    }
}

/// Makes the walk that a hart needs before its next event, and notes it: one load of a page word.
pub fn walk_step<W: Words>(w: &mut W, script: &Script, hart: &mut HartState, phase: u32)
    requires place { IsNextPlace script.now hart.old.hart.0 hart.old.ended hart.old.place }
    requires needed { (target : Target) × (next_need script.now (hart_value hart.old) phase ≡ Walk target) }
    requires words { HavePageWords script.now.pages (W.words w.old) }
    ensures walked { IsWalked script.now (W.words w.old) phase (hart_value hart.old) (hart_value hart.new) }
    ensures unchanged { Unchanged W.words W.clean W.guard w.old w.new }
{
    within_limits(script);
    match hart.next(script, phase) {
        Need::Walk(Target::Host(page)) => {
            let walked = walk(w, page);
            hart.note(Target::Host(page), walked);
        }
        Need::Walk(Target::Fetch(_) | Target::Access(_)) | Need::Event | Need::Idle => {
            unreachable!()
        }
    }
}
