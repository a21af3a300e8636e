//! The destruction of TVMs.

ghost use Rattle.std.specs.Prelude.{◌≡◌, ◌<◌, ℕ, OnOk, Some, false};
ghost use Rattle.cove_base.specs.Unchanged.{Unchanged};
ghost use Rattle.cove_base.specs.declared.calls.HostCall.TheVariants.{Destroy};
ghost use Rattle.cove_tvm.specs.Called.{Called, IsReady};
ghost use Rattle.cove_host.specs.Checked.{all_checked, checked};
ghost use Rattle.cove_host.specs.Ended.{HasEnded, MayEnd};
ghost use Rattle.cove_host.specs.FoundTvms.{ChangesTvm};
ghost use Rattle.cove_host.specs.HartsInside.{IsFirstInside, is_inside, is_word_of};
ghost use Rattle.cove_model.specs.Checks.{NobodyInside};
ghost use Rattle.cove_model.specs.HostCalls.{rule};
ghost use Rattle.cove_model.specs.LawfulStores.{AllowsLawful};
ghost use Rattle.cove_model.specs.States.{State};
ghost use Rattle.cove_tvm.specs.Stands.{Stands};
ghost use Rattle.cove_tvm.specs.TvmTables.{live_at};
ghost use Rattle.cove_tvm.specs.declared.machines.Tvm.{Tvm};

use crate::checks::DONE;
use crate::lives::live;
use crate::releasing::release_pages;
use cove_base::{HartId, Reply, Status, Words, hart_word};
use cove_clear::clear_tables;
use cove_tvm::{Ground, Life, Tvm};

/// Destroys a TVM that no hart is inside: clears its tables, lowers the count of each page of the host's that it mapped, and
/// then takes its own pages back.
pub fn destroy_tvm<W: Words>(w: &mut W, g: &mut Ground, h: HartId, t: u64) -> Reply
    requires ready { IsReady (W.words w.old) g.old }
    requires on_board { h.0 < g.old.harts }
    requires allowed { AllowsLawful (W.allows (W.guard w.old)) g.old.pages g.old.harts h.0 (W.words w.old) }
    ensures called { Called h.0 (λ S. rule S h.0 (Destroy t)) (W.words w.old) (W.words w.new) g.old g.new result }
    ensures guard { W.guard w.new ≡ W.guard w.old }
{
    match destroyable(w, g, t) {
        Err(reply) => reply,
        Ok(()) => {
            end(w, g, t);
            DONE
        }
    }
}

// The checks of the call, in the order of its rule.
fn destroyable<W: Words>(w: &mut W, g: &Ground, t: u64) -> Result<(), Reply>
    requires ready { IsReady (W.words w.old) g.now }
    ensures told { (hart : ℕ) (S : State) → Stands (W.words w.old) g.now S
        → result ≡ all_checked (rule S hart (Destroy t)).checks }
    ensures outside { OnOk result ((hart : ℕ) → hart < g.now.harts → is_inside g.now.pages g.now.harts (W.words w.old) t hart ≡ false) }
    ensures unchanged { Unchanged W.words W.clean W.guard w.old w.new }
{
    live(g, t)?;
    nobody_inside(w, g, t)
}

// Ends the live TVM `t`.
fn end<W: Words>(w: &mut W, g: &mut Ground, t: u64)
    requires ending { (tvm : Tvm) → live_at g.old.tvms t ≡ Some tvm → MayEnd (W.allows (W.guard w.old)) (W.words w.old) tvm }
    ensures ended { ChangesTvm t (HasEnded (W.words w.old) (W.words w.new)) g.old g.new }
    ensures guard { W.guard w.new ≡ W.guard w.old }
{
    if let Some(tvm) = g.tvms.live_mut(t) {
        end_tvm(w, tvm);
    }
}

// Ends a TVM: its tables are cleared, its pages are taken back, and it is gone.
fn end_tvm<W: Words>(w: &mut W, tvm: &mut Tvm)
    requires ending { MayEnd (W.allows (W.guard w.old)) (W.words w.old) tvm.old }
    ensures ended { HasEnded (W.words w.old) (W.words w.new) tvm.old tvm.new }
    ensures guard { W.guard w.new ≡ W.guard w.old }
{
    let tables = tvm.tables;
    clear_tables(w, &tables, &mut tvm.pool);
    release_pages(w, tvm);
    tvm.life = Life::Gone;
}

// No hart is inside the TVM; the value of a refusal is the least one that is.
fn nobody_inside<W: Words>(w: &mut W, g: &Ground, t: u64) -> Result<(), Reply>
    requires ready { IsReady (W.words w.old) g.now }
    ensures told { (S : State) → Stands (W.words w.old) g.now S → result ≡ checked (NobodyInside S t) }
    ensures outside { OnOk result ((hart : ℕ) → hart < g.now.harts → is_inside g.now.pages g.now.harts (W.words w.old) t hart ≡ false) }
    ensures unchanged { Unchanged W.words W.clean W.guard w.old w.new }
{
    match first_inside(w, g, t) {
        Some(hart) => Err(Reply {
            status: Status::Denied,
            value: u64::from(hart.0),
        }),
        None => Ok(()),
    }
}

// The least hart that is inside a TVM.
fn first_inside<W: Words>(w: &mut W, g: &Ground, t: u64) -> Option<HartId>
    requires ready { IsReady (W.words w.old) g.now }
    ensures first { IsFirstInside g.now.pages g.now.harts (W.words w.old) t result }
    ensures unchanged { Unchanged W.words W.clean W.guard w.old w.new }
{
    for hart in 0..g.harts {
        let word = w.get(hart_word(g.pages, g.harts, HartId(hart)));
        if is_word_of(word, t) {
            return Some(HartId(hart));
        }
    }
    None
}

// Whether a hart's word says that it is inside a TVM: its upper half is then the TVM's number.
fn is_word_of(word: u64, t: u64) -> bool
    ensures { result ≡ is_word_of word t }
{
    word != 0 && word / 0x1_0000_0000 == t
}
