//! The creation of vCPUs.

ghost use Rattle.std.specs.Prelude.{◌≡◌, ◌<◌, ℕ, OnOk};
ghost use Rattle.cove_base.specs.Unchanged.{Unchanged};
ghost use Rattle.cove_base.specs.declared.calls.HostCall.TheVariants.{Vcpu};
ghost use Rattle.cove_base.specs.declared.limits.TheConstants.{VCPU_LIMIT};
ghost use Rattle.cove_tvm.specs.Called.{Called, IsReady};
ghost use Rattle.cove_host.specs.Checked.{all_checked};
ghost use Rattle.cove_host.specs.FoundTvms.{ChangesTvm};
ghost use Rattle.cove_model.specs.HostCalls.{rule};
ghost use Rattle.cove_model.specs.LawfulStores.{AllowsLawful};
ghost use Rattle.cove_model.specs.States.{State};
ghost use Rattle.cove_tvm.specs.NewVcpus.{AddsCpu, IsNewCpu};
ghost use Rattle.cove_tvm.specs.Stands.{Stands};

use crate::checks::{DONE, aligned, free, inside};
use crate::lives::{cpu_number, is_building, live, no_cpu_yet};
use crate::pages::{give, page_of};
use cove_base::{HartId, Page, Regs, Reply, Role, TvmId, VCPU_LIMIT, Words};
use cove_imsic::FileState;
use cove_tvm::{Ground, RunState, Tvm, VcpuSlot};

/// Creates the vCPU `v` of a TVM, with the page at the byte address `state` as its state page.
pub fn create_vcpu<W: Words>(
    w: &mut W,
    g: &mut Ground,
    h: HartId,
    t: u64,
    v: u64,
    state: u64,
) -> Reply
    requires ready { IsReady (W.words w.old) g.old }
    requires on_board { h.0 < g.old.harts }
    requires allowed { AllowsLawful (W.allows (W.guard w.old)) g.old.pages g.old.harts h.0 (W.words w.old) }
    ensures called { Called h.0 (λ S. rule S h.0 (Vcpu t v state)) (W.words w.old) (W.words w.new) g.old g.new result }
    ensures guard { W.guard w.new ≡ W.guard w.old }
{
    match addable(w, g, t, v, state) {
        Err(reply) => reply,
        Ok(()) => {
            give(w, state, 1, TvmId(t as u32), Role::Vcpu);
            add(g, t, v, page_of(state));
            DONE
        }
    }
}

// The checks of the call, in the order of its rule.
fn addable<W: Words>(w: &mut W, g: &Ground, t: u64, v: u64, state: u64) -> Result<(), Reply>
    requires ready { IsReady (W.words w.old) g.now }
    ensures told { (hart : ℕ) (S : State) → Stands (W.words w.old) g.now S
        → result ≡ all_checked (rule S hart (Vcpu t v state)).checks }
    ensures number { OnOk result (v < VCPU_LIMIT) }
    ensures unchanged { Unchanged W.words W.clean W.guard w.old w.new }
{
    let tvm = live(g, t)?;
    is_building(tvm)?;
    cpu_number(v)?;
    no_cpu_yet(tvm, v)?;
    aligned(state)?;
    inside(g, state, 1)?;
    free(w, g, state, 1)
}

// Adds a vCPU to the live TVM `t`.
fn add(g: &mut Ground, t: u64, v: u64, page: Page)
    requires { v < VCPU_LIMIT }
    ensures { ChangesTvm t (AddsCpu v page.0) g.old g.new }
{
    if let Some(tvm) = g.tvms.live_mut(t) {
        add_to(tvm, v, page);
    }
}

// Adds a vCPU to a TVM, and measures it.
fn add_to(tvm: &mut Tvm, v: u64, page: Page)
    requires { v < VCPU_LIMIT }
    ensures { AddsCpu v page.0 tvm.old tvm.new }
{
    let slot = Some(new_slot(page));
    match v {
        0 => tvm.v0 = slot,
        1 => tvm.v1 = slot,
        2 => tvm.v2 = slot,
        _ => tvm.v3 = slot,
    }
    tvm.registers.extend_vcpu(v as u8);
}

// A vCPU as it is created.
fn new_slot(page: Page) -> VcpuSlot
    ensures { IsNewCpu page.0 result }
{
    VcpuSlot {
        regs: Regs::new(),
        run: RunState::Ready,
        bound: None,
        saved: FileState::new(),
        page,
    }
}
