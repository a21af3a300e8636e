//! The host's calls on the owners of pages.

ghost use Rattle.std.specs.Prelude.{◌≡◌, ◌+◌, ◌/◌, ◌<◌, ◌≤◌, ℕ, OnOk, false, length};
ghost use Rattle.cove_base.specs.PageWords.{host};
ghost use Rattle.cove_base.specs.Places.{page_word};
ghost use Rattle.cove_base.specs.Stores.{AllAllowed, fills, stored};
ghost use Rattle.cove_base.specs.Unchanged.{Unchanged};
ghost use Rattle.cove_base.specs.declared.calls.HostCall.TheVariants.{Convert, Reclaim};
ghost use Rattle.cove_base.specs.declared.limits.TheConstants.{PAGE_LIMIT};
ghost use Rattle.cove_tvm.specs.Called.{Called, IsReady};
ghost use Rattle.cove_host.specs.Checked.{all_checked, checked};
ghost use Rattle.cove_host.specs.Zeros.{AreZeros};
ghost use Rattle.cove_model.specs.Checks.{AllHost, NoneShared};
ghost use Rattle.cove_model.specs.HostCalls.{rule};
ghost use Rattle.cove_model.specs.LawfulStores.{AllowsLawful};
ghost use Rattle.cove_model.specs.States.{State};
ghost use Rattle.cove_tvm.specs.Stands.{Stands};

use crate::checks::{DONE, aligned, check, free, inside};
use crate::fences::epochs;
use crate::frames::zero_all;
use crate::pages::pages_from;
use crate::runs::{all_host, counted};
use cove_base::{HartId, PageRange, Reply, Status, Words};
use cove_mem::Memory;
use cove_owner::{PageState, any_mapped, set_all};
use cove_tvm::Ground;

/// Puts `n` pages of the host's from the byte address `base` on into conversion.
pub fn convert_pages<W: Words>(w: &mut W, g: &mut Ground, h: HartId, base: u64, n: u64) -> Reply
    requires ready { IsReady (W.words w.old) g.old }
    requires on_board { h.0 < g.old.harts }
    requires allowed { AllowsLawful (W.allows (W.guard w.old)) g.old.pages g.old.harts h.0 (W.words w.old) }
    ensures called { Called h.0 (λ S. rule S h.0 (Convert base n)) (W.words w.old) (W.words w.new) g.old g.new result }
    ensures guard { W.guard w.new ≡ W.guard w.old }
{
    match convertible(w, g, base, n) {
        Err(reply) => reply,
        Ok(()) => {
            let since = epochs(g).current(w);
            set_all(w, pages_from(base, n), PageState::Converting { since });
            DONE
        }
    }
}

// The checks of the call, in the order of its rule.
fn convertible<W: Words>(w: &mut W, g: &Ground, base: u64, n: u64) -> Result<(), Reply>
    requires ready { IsReady (W.words w.old) g.now }
    ensures told { (hart : ℕ) (S : State) → Stands (W.words w.old) g.now S
        → result ≡ all_checked (rule S hart (Convert base n)).checks }
    ensures inside { OnOk result (base / 4096 + n ≤ g.now.pages) }
    ensures unchanged { Unchanged W.words W.clean W.guard w.old w.new }
{
    counted(n)?;
    aligned(base)?;
    inside(g, base, n)?;
    all_host(w, g, base, n)?;
    none_shared(w, g, base, n)
}

/// Gives `n` free pages from the byte address `base` on back to the host, filled with zeros.
pub fn reclaim_pages<W: Words>(w: &mut W, g: &mut Ground, h: HartId, base: u64, n: u64) -> Reply
    requires ready { IsReady (W.words w.old) g.old }
    requires on_board { h.0 < g.old.harts }
    requires allowed { AllowsLawful (W.allows (W.guard w.old)) g.old.pages g.old.harts h.0 (W.words w.old) }
    ensures called { Called h.0 (λ S. rule S h.0 (Reclaim base n)) (W.words w.old) (W.words w.new) g.old g.new result }
    ensures guard { W.guard w.new ≡ W.guard w.old }
{
    match reclaimable(w, g, base, n) {
        Err(reply) => reply,
        Ok(()) => {
            let range = pages_from(base, n);
            zero_all(&mut g.memory, range.first, range.count);
            give_back(w, &g.memory, range);
            DONE
        }
    }
}

// The checks of the call, in the order of its rule.
fn reclaimable<W: Words>(w: &mut W, g: &Ground, base: u64, n: u64) -> Result<(), Reply>
    requires ready { IsReady (W.words w.old) g.now }
    ensures told { (hart : ℕ) (S : State) → Stands (W.words w.old) g.now S
        → result ≡ all_checked (rule S hart (Reclaim base n)).checks }
    ensures inside { OnOk result (base / 4096 + n ≤ g.now.pages) }
    ensures unchanged { Unchanged W.words W.clean W.guard w.old w.new }
{
    counted(n)?;
    aligned(base)?;
    inside(g, base, n)?;
    free(w, g, base, n)
}

// No TVM maps any of these pages of the host's.
fn none_shared<W: Words>(w: &mut W, g: &Ground, base: u64, n: u64) -> Result<(), Reply>
    requires ready { IsReady (W.words w.old) g.now }
    requires inside { base / 4096 + n ≤ g.now.pages }
    ensures told { (S : State) → Stands (W.words w.old) g.now S → (AllHost S base n).fails ≡ false
        → result ≡ checked (NoneShared S base n) }
    ensures unchanged { Unchanged W.words W.clean W.guard w.old w.new }
{
    check(any_mapped(w, pages_from(base, n)), Status::Denied)
}

// Gives the pages of a range back to the host, once they are zeros; it takes the memory for this condition alone.
fn give_back<W: Words>(w: &mut W, memory: &Memory, range: PageRange)
    requires zeros { AreZeros memory.now range.first.0 range.count }
    requires places { range.first.0 + range.count ≤ length (W.words w.old) }
    requires limit { range.first.0 + range.count ≤ PAGE_LIMIT }
    requires allowed { AllAllowed (W.allows (W.guard w.old)) (W.words w.old) (fills (page_word range.first.0) range.count (host 0)) }
    ensures words { W.words w.new ≡ stored (W.words w.old) (fills (page_word range.first.0) range.count (host 0)) }
    ensures guard { W.guard w.new ≡ W.guard w.old }
{
    set_all(w, range, PageState::Host { maps: 0 });
}
