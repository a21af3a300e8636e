//! More table pages for TVMs.

ghost use Rattle.std.specs.Prelude.{◌≡◌, ◌+◌, ◌/◌, ◌^◌, ◌<◌, ◌≤◌, ◌++◌, ℕ, OnOk, Some, length};
ghost use Rattle.std.specs.List.{range_with_len};
ghost use Rattle.cove_base.specs.Unchanged.{Unchanged};
ghost use Rattle.cove_base.specs.declared.calls.HostCall.TheVariants.{Tables};
ghost use Rattle.cove_tvm.specs.Called.{Called, IsReady};
ghost use Rattle.cove_host.specs.Checked.{all_checked};
ghost use Rattle.cove_host.specs.FoundTvms.{ChangesTvm};
ghost use Rattle.cove_model.specs.HostCalls.{rule};
ghost use Rattle.cove_model.specs.LawfulStores.{AllowsLawful};
ghost use Rattle.cove_model.specs.States.{State};
ghost use Rattle.cove_tvm.specs.MoreTables.{AddsTables};
ghost use Rattle.cove_tvm.specs.Stands.{Stands};
ghost use Rattle.cove_tvm.specs.TvmTables.{live_at};
ghost use Rattle.cove_tvm.specs.declared.machines.Tvm.{Tvm};

use crate::checks::{DONE, aligned, free, inside};
use crate::lives::live;
use crate::pages::{give, page_of};
use crate::runs::counted;
use cove_base::{HartId, Page, Reply, Role, TvmId, Words};
use cove_stage2::Pool;
use cove_tvm::{Ground, Tvm};

/// Gives a TVM `n` more pages for tables, from the byte address `base` on.
pub fn add_page_table_pages<W: Words>(
    w: &mut W,
    g: &mut Ground,
    h: HartId,
    t: u64,
    base: u64,
    n: u64,
) -> Reply
    requires ready { IsReady (W.words w.old) g.old }
    requires on_board { h.0 < g.old.harts }
    requires allowed { AllowsLawful (W.allows (W.guard w.old)) g.old.pages g.old.harts h.0 (W.words w.old) }
    ensures called { Called h.0 (λ S. rule S h.0 (Tables t base n)) (W.words w.old) (W.words w.new) g.old g.new result }
    ensures guard { W.guard w.new ≡ W.guard w.old }
{
    match addable(w, g, t, base, n) {
        Err(reply) => reply,
        Ok(()) => {
            give(w, base, n, TvmId(t as u32), Role::Table);
            add(g, t, base, n as u32);
            DONE
        }
    }
}

// The checks of the call, in the order of its rule.
fn addable<W: Words>(w: &mut W, g: &Ground, t: u64, base: u64, n: u64) -> Result<(), Reply>
    requires ready { IsReady (W.words w.old) g.now }
    ensures told { (hart : ℕ) (S : State) → Stands (W.words w.old) g.now S
        → result ≡ all_checked (rule S hart (Tables t base n)).checks }
    ensures count { OnOk result (n ≤ 16) }
    ensures unchanged { Unchanged W.words W.clean W.guard w.old w.new }
{
    live(g, t)?;
    counted(n)?;
    aligned(base)?;
    inside(g, base, n)?;
    free(w, g, base, n)
}

// Adds pages to the pool of the live TVM `t`.
fn add(g: &mut Ground, t: u64, base: u64, n: u32)
    requires room { (tvm : Tvm) → live_at g.old.tvms t ≡ Some tvm → length tvm.pool.pages + n ≤ tvm.pool.room }
    requires fits { base / 4096 + n < 2 ^ 32 }
    ensures { ChangesTvm t (AddsTables base n) g.old g.new }
{
    if let Some(tvm) = g.tvms.live_mut(t) {
        add_to(tvm, base, n);
    }
}

// Adds pages to the pool of a TVM.
fn add_to(tvm: &mut Tvm, base: u64, n: u32)
    requires room { length tvm.old.pool.pages + n ≤ tvm.old.pool.room }
    requires fits { base / 4096 + n < 2 ^ 32 }
    ensures { AddsTables base n tvm.old tvm.new }
{
    add_all(&mut tvm.pool, page_of(base), n);
}

// Adds pages that follow each other to a pool.
fn add_all(pool: &mut Pool, first: Page, n: u32)
    requires room { length pool.old.pages + n ≤ pool.old.room }
    requires fits { first.0 + n < 2 ^ 32 }
    ensures pages { pool.new.pages ≡ pool.old.pages ++ range_with_len first.0 n }
    ensures room { pool.new.room ≡ pool.old.room }
{
    for i in 0..n {
        pool.add(Page(first.0 + i));
    }
}
