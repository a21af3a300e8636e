//! Runs of guest pages that are mapped.

ghost use Rattle.std.specs.Prelude.{◌≡◌, ◌+◌, ◌/◌, ◌^◌, ◌≤◌, ℕ, OnOk, Some};
ghost use Rattle.cove_base.specs.Modes.{guest_limit, leaves_of};
ghost use Rattle.cove_base.specs.Unchanged.{Unchanged};
ghost use Rattle.cove_base.specs.declared.limits.TheConstants.{RANGE_LIMIT};
ghost use Rattle.cove_tvm.specs.Called.{IsReady};
ghost use Rattle.cove_host.specs.Checked.{all_checked, checked};
ghost use Rattle.cove_host.specs.FoundTvms.{ChangesTvm, IsLiveTvm, IsSomeLiveTvm};
ghost use Rattle.cove_host.specs.GuestRuns.{AllOwned, EndsWithin, mapping_checks, owned_as, run_checks};
ghost use Rattle.cove_host.specs.Mapped.{MapsIn, MapsRun, MayMapBy};
ghost use Rattle.cove_model.specs.States.{State};
ghost use Rattle.cove_tvm.specs.Stands.{Stands};
ghost use Rattle.cove_tvm.specs.TvmTables.{live_at};
ghost use Rattle.cove_tvm.specs.declared.ground.Ground.{Ground};
ghost use Rattle.cove_tvm.specs.declared.machines.Tvm.{Tvm};

use crate::checks::{aligned, free, inside};
use crate::guest_pages::{enough_tables, kinds_fit, unmapped};
use crate::lives::{is_runnable, live};
use crate::runs::{all_host, counted};
use cove_base::{Gpn, Page, RANGE_LIMIT, Reply, Words};
use cove_stage2::{Pool, Tables};
use cove_tvm::{Ground, Tvm};

/// The checks of a call that maps guest pages of a finalized TVM, in the order of its rule: shared to pages of the host's, or as
/// private ones to free pages.
pub(crate) fn mappable<W: Words>(
    w: &mut W,
    g: &Ground,
    t: u64,
    base: u64,
    n: u64,
    gpa: u64,
    shared: bool,
) -> Result<(), Reply>
    requires ready { IsReady (W.words w.old) g.now }
    ensures told { (S : State) → Stands (W.words w.old) g.now S
        → result ≡ all_checked (run_checks (owned_as shared) shared S t base n gpa) }
    ensures within { OnOk result ((1 ≤ n) × (n ≤ RANGE_LIMIT)) }
    ensures inside { OnOk result (base / 4096 + n ≤ g.now.pages) }
    ensures near { OnOk result (EndsWithin g.now t gpa n) }
    ensures unchanged { Unchanged W.words W.clean W.guard w.old w.new }
{
    let tvm = live(g, t)?;
    is_runnable(tvm)?;
    counted(n)?;
    aligned(base)?;
    aligned(gpa)?;
    inside(g, base, n)?;
    owned(w, g, base, n, shared)?;
    may_map(w, tvm, gpa, n, shared)
}

// The pages are the host's, if guest pages are mapped shared to them, or else free.
fn owned<W: Words>(w: &mut W, g: &Ground, base: u64, n: u64, shared: bool) -> Result<(), Reply>
    requires ready { IsReady (W.words w.old) g.now }
    requires inside { base / 4096 + n ≤ g.now.pages }
    ensures told { (S : State) → Stands (W.words w.old) g.now S → result ≡ checked (AllOwned (owned_as shared) S base n) }
    ensures unchanged { Unchanged W.words W.clean W.guard w.old w.new }
{
    if shared {
        all_host(w, g, base, n)
    } else {
        free(w, g, base, n)
    }
}

/// Guest pages are of the kind that they are to be mapped as and not mapped yet, and the TVM has the tables that mappings of
/// them need.
pub(crate) fn may_map<W: Words>(
    w: &mut W,
    tvm: &Tvm,
    gpa: u64,
    n: u64,
    shared: bool,
) -> Result<(), Reply>
    requires live { IsSomeLiveTvm (W.words w.old) tvm.now }
    requires within { (1 ≤ n) × (n ≤ RANGE_LIMIT) }
    ensures told { (S : State) (t : ℕ) → IsLiveTvm (W.words w.old) S t tvm.now
        → result ≡ all_checked (mapping_checks shared S t gpa n) }
    ensures near { OnOk result (gpa / 4096 + n ≤ guest_limit tvm.now.tables.mode) }
    ensures unchanged { Unchanged W.words W.clean W.guard w.old w.new }
{
    kinds_fit(tvm, gpa, n, shared)?;
    unmapped(w, tvm, gpa, n)?;
    enough_tables(w, tvm, gpa, n)
}

/// Maps `n` guest pages of the live TVM with a number, from `first` on, to the pages from `page` on.
pub(crate) fn map_pages<W: Words>(
    w: &mut W,
    g: &mut Ground,
    t: u64,
    first: Gpn,
    page: Page,
    n: u32,
    shared: bool,
)
    requires { (tvm : Tvm) → live_at g.old.tvms t ≡ Some tvm
        → MayMapBy (W.allows (W.guard w.old)) tvm.tables.pages tvm.tables.root.0 (leaves_of tvm.tables.mode) first.0 page.0 n shared (W.words w.old) tvm.pool.pages }
    ensures mapped { ChangesTvm t (MapsIn first.0 page.0 n shared (W.words w.old) (W.words w.new)) g.old g.new }
    ensures guard { W.guard w.new ≡ W.guard w.old }
{
    if let Some(tvm) = g.tvms.live_mut(t) {
        map_into(w, tvm, first, page, n, shared);
    }
}

/// Maps guest pages of a TVM.
pub(crate) fn map_into<W: Words>(
    w: &mut W,
    tvm: &mut Tvm,
    first: Gpn,
    page: Page,
    n: u32,
    shared: bool,
)
    requires { MayMapBy (W.allows (W.guard w.old)) tvm.old.tables.pages tvm.old.tables.root.0 (leaves_of tvm.old.tables.mode) first.0 page.0 n shared (W.words w.old) tvm.old.pool.pages }
    ensures mapped { MapsIn first.0 page.0 n shared (W.words w.old) (W.words w.new) tvm.old tvm.new }
    ensures guard { W.guard w.new ≡ W.guard w.old }
{
    map_run(w, tvm.tables, first, page, n, shared, &mut tvm.pool);
}

// Maps guest pages, one after another, with tables out of the pool.
fn map_run<W: Words>(
    w: &mut W,
    tables: Tables,
    first: Gpn,
    page: Page,
    n: u32,
    shared: bool,
    pool: &mut Pool,
)
    requires { MayMapBy (W.allows (W.guard w.old)) tables.pages tables.root.0 (leaves_of tables.mode) first.0 page.0 n shared (W.words w.old) pool.old.pages }
    ensures mapped { MapsRun tables.pages tables.root.0 (leaves_of tables.mode) first.0 page.0 n n shared (W.words w.old) pool.old.pages (W.words w.new) pool.new.pages }
    ensures room { pool.new.room ≡ pool.old.room }
    ensures guard { W.guard w.new ≡ W.guard w.old }
{
    for i in 0..n {
        let g = Gpn(first.0 + i as u64);
        tables.map(w, g, Page(page.0 + i), shared, pool);
    }
}
