//! Measured pages for a TVM that is being built.

ghost use Rattle.std.specs.Prelude.{◌≡◌, ◌+◌, ◌/◌, ◌^◌, ◌<◌, ◌≤◌, ℕ, OnOk, Some, false, length};
ghost use Rattle.cove_base.specs.Modes.{leaves_of};
ghost use Rattle.cove_base.specs.Unchanged.{Unchanged};
ghost use Rattle.cove_base.specs.declared.calls.HostCall.TheVariants.{Measured};
ghost use Rattle.cove_base.specs.declared.limits.TheConstants.{RANGE_LIMIT};
ghost use Rattle.cove_tvm.specs.Called.{Called, IsReady};
ghost use Rattle.cove_host.specs.Checked.{all_checked};
ghost use Rattle.cove_host.specs.FoundTvms.{ChangesTvm};
ghost use Rattle.cove_host.specs.GuestRuns.{EndsWithin};
ghost use Rattle.cove_host.specs.Mapped.{MayMapBy};
ghost use Rattle.cove_host.specs.MeasuredRuns.{ExtendsBy, MeasuresIn};
ghost use Rattle.cove_model.specs.HostCalls.{rule};
ghost use Rattle.cove_model.specs.LawfulStores.{AllowsLawful};
ghost use Rattle.cove_model.specs.States.{State};
ghost use Rattle.cove_tvm.specs.Stands.{Stands};
ghost use Rattle.cove_tvm.specs.TvmTables.{live_at};
ghost use Rattle.cove_tvm.specs.declared.machines.Tvm.{Tvm};

use crate::checks::{DONE, aligned, free, inside};
use crate::frames::{copy_all, give_copies};
use crate::lives::{is_building, live};
use crate::mapping::{map_into, may_map};
use crate::pages::page_of;
use crate::runs::{all_host, counted};
use cove_base::{Gpn, HartId, Page, RANGE_LIMIT, Reply, TvmId, Words};
use cove_measure::Registers;
use cove_mem::Memory;
use cove_tvm::{Ground, Tvm};

/// Copies `n` pages of the host's from the byte address `src` on to free pages from `dst` on, gives these to a TVM, measures
/// each at its guest address, and maps the guest pages from `gpa` on to them.
pub fn add_measured_pages<W: Words>(
    w: &mut W,
    g: &mut Ground,
    h: HartId,
    t: u64,
    src: u64,
    dst: u64,
    n: u64,
    gpa: u64,
) -> Reply
    requires ready { IsReady (W.words w.old) g.old }
    requires on_board { h.0 < g.old.harts }
    requires allowed { AllowsLawful (W.allows (W.guard w.old)) g.old.pages g.old.harts h.0 (W.words w.old) }
    ensures called { Called h.0 (λ S. rule S h.0 (Measured t src dst n gpa)) (W.words w.old) (W.words w.new) g.old g.new result }
    ensures guard { W.guard w.new ≡ W.guard w.old }
{
    match measurable(w, g, t, src, dst, n, gpa) {
        Err(reply) => reply,
        Ok(()) => {
            let count = n as u32;
            copy_all(&mut g.memory, page_of(src), page_of(dst), count);
            give_copies(w, &g.memory, src, dst, n, TvmId(t as u32));
            map_measured(w, g, t, Gpn(gpa / 4096), page_of(dst), count);
            DONE
        }
    }
}

// The checks of the call, in the order of its rule.
fn measurable<W: Words>(
    w: &mut W,
    g: &Ground,
    t: u64,
    src: u64,
    dst: u64,
    n: u64,
    gpa: u64,
) -> Result<(), Reply>
    requires ready { IsReady (W.words w.old) g.now }
    ensures told { (hart : ℕ) (S : State) → Stands (W.words w.old) g.now S
        → result ≡ all_checked (rule S hart (Measured t src dst n gpa)).checks }
    ensures within { OnOk result ((1 ≤ n) × (n ≤ RANGE_LIMIT)) }
    ensures from { OnOk result (src / 4096 + n ≤ g.now.pages) }
    ensures to { OnOk result (dst / 4096 + n ≤ g.now.pages) }
    ensures near { OnOk result (EndsWithin g.now t gpa n) }
    ensures unchanged { Unchanged W.words W.clean W.guard w.old w.new }
{
    let tvm = live(g, t)?;
    is_building(tvm)?;
    counted(n)?;
    aligned(src)?;
    aligned(dst)?;
    aligned(gpa)?;
    inside(g, src, n)?;
    inside(g, dst, n)?;
    all_host(w, g, src, n)?;
    free(w, g, dst, n)?;
    may_map(w, tvm, gpa, n, false)
}

// Measures `n` pages from `page` on, and maps the guest pages of the live TVM `t` from `first` on to them.
fn map_measured<W: Words>(w: &mut W, g: &mut Ground, t: u64, first: Gpn, page: Page, n: u32)
    requires may { (tvm : Tvm) → live_at g.old.tvms t ≡ Some tvm
        → MayMapBy (W.allows (W.guard w.old)) tvm.tables.pages tvm.tables.root.0 (leaves_of tvm.tables.mode) first.0 page.0 n false (W.words w.old) tvm.pool.pages }
    requires inside { page.0 + n ≤ length g.old.memory }
    requires limit { length g.old.memory < 2 ^ 32 }
    requires near { first.0 + n ≤ 2 ^ 38 }
    ensures mapped { ChangesTvm t (MeasuresIn first.0 page.0 n g.old.memory (W.words w.old) (W.words w.new)) g.old g.new }
    ensures guard { W.guard w.new ≡ W.guard w.old }
{
    if let Some(tvm) = g.tvms.live_mut(t) {
        measure_into(w, tvm, &g.memory, first, page, n);
    }
}

// The same for the TVM itself.
fn measure_into<W: Words>(w: &mut W, tvm: &mut Tvm, memory: &Memory, first: Gpn, page: Page, n: u32)
    requires may { MayMapBy (W.allows (W.guard w.old)) tvm.old.tables.pages tvm.old.tables.root.0 (leaves_of tvm.old.tables.mode) first.0 page.0 n false (W.words w.old) tvm.old.pool.pages }
    requires inside { page.0 + n ≤ length memory.now }
    requires limit { length memory.now < 2 ^ 32 }
    requires near { first.0 + n ≤ 2 ^ 38 }
    ensures mapped { MeasuresIn first.0 page.0 n memory.now (W.words w.old) (W.words w.new) tvm.old tvm.new }
    ensures guard { W.guard w.new ≡ W.guard w.old }
{
    measure_all(&mut tvm.registers, memory, first, page, n);
    map_into(w, tvm, first, page, n, false);
}

// Measures `n` pages from `page` on, in their order, each at the address of its guest page.
fn measure_all(registers: &mut Registers, memory: &Memory, first: Gpn, page: Page, n: u32)
    requires inside { page.0 + n ≤ length memory.now }
    requires limit { length memory.now < 2 ^ 32 }
    requires near { first.0 + n ≤ 2 ^ 38 }
    ensures { ExtendsBy first.0 page.0 n memory.now registers.old registers.new }
{
    for i in 0..n {
        let words = memory.page(Page(page.0 + i));
        registers.extend_page(4096 * (first.0 + i as u64), words);
    }
}
