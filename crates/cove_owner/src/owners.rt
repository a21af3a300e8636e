ghost use Rattle.std.specs.Prelude.{◌≡◌, ◌+◌, ◌<◌, ◌≤◌, ◌^◌, ◌↔◌, IsTrue, [], ◌∷◌, length, slice_index};
ghost use Rattle.cove_base.specs.PageWords.{IsPageWord, IsHostWord, IsMappedWord, IsFreeWord};
ghost use Rattle.cove_base.specs.Places.{page_word};
ghost use Rattle.cove_base.specs.Stores.{stored, AllAllowed, fills};
ghost use Rattle.cove_base.specs.Unchanged.{Unchanged};
ghost use Rattle.cove_owner.specs.States.{state_word, IsBoundedState, EveryPage, SomePage};

use crate::states::{PageState, decode, encode};
use cove_base::{Page, PageRange, Words, page_word};

/// The state of a page.
pub fn state<W: Words>(w: &mut W, page: Page) -> PageState
    requires place { page.0 < length (W.words w.old) }
    requires limit { page.0 < 2 ^ 16 }
    requires word { IsPageWord (slice_index (W.words w.old) page.0) }
    ensures state { state_word result ≡ slice_index (W.words w.old) page.0 }
    ensures within { IsBoundedState result }
    ensures unchanged { Unchanged W.words W.clean W.guard w.old w.new }
{
    decode(w.get(page_word(page)))
}

/// Sets the state of a page.
pub fn set_state<W: Words>(w: &mut W, page: Page, s: PageState)
    requires place { page.0 < length (W.words w.old) }
    requires limit { page.0 < 2 ^ 16 }
    requires within { IsBoundedState s }
    requires allowed { AllAllowed (W.allows (W.guard w.old)) (W.words w.old)
        ((page_word page.0, state_word s) ∷ []) }
    ensures words { W.words w.new ≡ stored (W.words w.old) ((page_word page.0, state_word s) ∷ []) }
    ensures guard { W.guard w.new ≡ W.guard w.old }
{
    w.set(page_word(page), encode(s));
}

/// Sets the state of each page of a range, in rising order.
pub fn set_all<W: Words>(w: &mut W, range: PageRange, s: PageState)
    requires places { range.first.0 + range.count ≤ length (W.words w.old) }
    requires limit { range.first.0 + range.count ≤ 2 ^ 16 }
    requires within { IsBoundedState s }
    requires allowed { AllAllowed (W.allows (W.guard w.old)) (W.words w.old)
        (fills (page_word range.first.0) range.count (state_word s)) }
    ensures words { W.words w.new
        ≡ stored (W.words w.old) (fills (page_word range.first.0) range.count (state_word s)) }
    ensures clean { range.count ≡ 0 → W.clean w.new ≡ W.clean w.old }
    ensures guard { W.guard w.new ≡ W.guard w.old }
{
    for i in 0..range.count {
        set_state(w, Page(range.first.0 + i), s);
    }
}

/// Whether every page of a range is the host's and not in conversion.
pub fn all_host<W: Words>(w: &mut W, range: PageRange) -> bool
    requires places { range.first.0 + range.count ≤ length (W.words w.old) }
    requires limit { range.first.0 + range.count ≤ 2 ^ 16 }
    requires page_words { EveryPage IsPageWord (W.words w.old) range.first.0 range.count }
    ensures all { IsTrue result
        ↔ EveryPage IsHostWord (W.words w.old) range.first.0 range.count }
    ensures unchanged { Unchanged W.words W.clean W.guard w.old w.new }
{
    for i in 0..range.count {
        if !is_host(state(w, Page(range.first.0 + i))) {
            return false;
        }
    }
    true
}

/// Whether a page of a range is the host's and mapped shared.
pub fn any_mapped<W: Words>(w: &mut W, range: PageRange) -> bool
    requires places { range.first.0 + range.count ≤ length (W.words w.old) }
    requires limit { range.first.0 + range.count ≤ 2 ^ 16 }
    requires page_words { EveryPage IsPageWord (W.words w.old) range.first.0 range.count }
    ensures any { IsTrue result
        ↔ SomePage IsMappedWord (W.words w.old) range.first.0 range.count }
    ensures unchanged { Unchanged W.words W.clean W.guard w.old w.new }
{
    for i in 0..range.count {
        if is_mapped(state(w, Page(range.first.0 + i))) {
            return true;
        }
    }
    false
}

/// Whether every page of a range may be given away, where each hart has answered at least the floor.
pub fn all_free<W: Words>(w: &mut W, range: PageRange, floor: u64) -> bool
    requires places { range.first.0 + range.count ≤ length (W.words w.old) }
    requires limit { range.first.0 + range.count ≤ 2 ^ 16 }
    requires page_words { EveryPage IsPageWord (W.words w.old) range.first.0 range.count }
    ensures all { IsTrue result
        ↔ EveryPage (IsFreeWord floor) (W.words w.old) range.first.0 range.count }
    ensures unchanged { Unchanged W.words W.clean W.guard w.old w.new }
{
    for i in 0..range.count {
        if !is_free(state(w, Page(range.first.0 + i)), floor) {
            return false;
        }
    }
    true
}

fn is_host(s: PageState) -> bool
    ensures { IsTrue result ↔ IsHostWord (state_word s) }
{
    matches!(s, PageState::Host { .. })
}

fn is_mapped(s: PageState) -> bool
    ensures { IsTrue result ↔ IsMappedWord (state_word s) }
{
    matches!(s, PageState::Host { maps } if maps > 0)
}

fn is_free(s: PageState, floor: u64) -> bool
    ensures { IsTrue result ↔ IsFreeWord floor (state_word s) }
{
    match s {
        PageState::Converting { since } => since < floor,
        PageState::Released => true,
        _ => false,
    }
}
