//! The finalization of TVMs.

ghost use Rattle.std.specs.Prelude.{◌≡◌, ◌++◌, ℕ, List, ◌∷◌, replicate};
ghost use Rattle.cove_base.specs.Registers.{registers};
ghost use Rattle.cove_base.specs.declared.calls.HostCall.TheVariants.{Finalize};
ghost use Rattle.cove_tvm.specs.Called.{Called};
ghost use Rattle.cove_host.specs.Checked.{all_checked};
ghost use Rattle.cove_host.specs.FoundTvms.{ChangesTvm};
ghost use Rattle.cove_host.specs.Finalized.{IsFinalized};
ghost use Rattle.cove_model.specs.HostCalls.{rule};
ghost use Rattle.cove_model.specs.States.{State};
ghost use Rattle.cove_tvm.specs.BuiltTvms.{AreStarted};
ghost use Rattle.cove_tvm.specs.Stands.{Stands};
ghost use Rattle.cove_base.specs.Unchanged.{Unchanged};

use crate::checks::DONE;
use crate::lives::{has_some_cpu, is_building, live, place_aligned};
use cove_base::{HartId, Regs, Reply, Words};
use cove_tvm::{Ground, Life, Tvm, VcpuSlot};

/// Finalizes a TVM: each of its vCPUs begins at the place `pc` with the argument `arg`, both are measured, and from then on it
/// may run.
pub fn finalize_tvm<W: Words>(
    w: &mut W,
    g: &mut Ground,
    h: HartId,
    t: u64,
    pc: u64,
    arg: u64,
) -> Reply
    ensures called { Called h.0 (λ S. rule S h.0 (Finalize t pc arg)) (W.words w.old) (W.words w.new) g.old g.new result }
    ensures unchanged { Unchanged W.words W.clean W.guard w.old w.new }
{
    match finalizable(g, t, pc) {
        Err(reply) => reply,
        Ok(()) => {
            finish(g, t, pc, arg);
            DONE
        }
    }
}

// The checks of the call, in the order of its rule.
fn finalizable(g: &Ground, t: u64, pc: u64) -> Result<(), Reply>
    ensures told { (words : List ℕ) (hart arg : ℕ) (S : State) → Stands words g.now S
        → result ≡ all_checked (rule S hart (Finalize t pc arg)).checks }
{
    let tvm = live(g, t)?;
    is_building(tvm)?;
    has_some_cpu(tvm)?;
    place_aligned(pc)
}

// Finalizes the live TVM `t`.
fn finish(g: &mut Ground, t: u64, pc: u64, arg: u64)
    ensures { ChangesTvm t (IsFinalized pc arg) g.old g.new }
{
    if let Some(tvm) = g.tvms.live_mut(t) {
        finish_tvm(tvm, pc, arg);
    }
}

// Finalizes a TVM.
fn finish_tvm(tvm: &mut Tvm, pc: u64, arg: u64)
    ensures { IsFinalized pc arg tvm.old tvm.new }
{
    tvm.registers.finish(pc, arg);
    start(&mut tvm.v0, 0, pc, arg);
    start(&mut tvm.v1, 1, pc, arg);
    start(&mut tvm.v2, 2, pc, arg);
    start(&mut tvm.v3, 3, pc, arg);
    tvm.life = Life::Runnable;
}

// Gives a vCPU the registers that it begins with, if it was created.
fn start(slot: &mut Option<VcpuSlot>, v: u64, pc: u64, arg: u64)
    ensures { AreStarted pc arg v slot.old slot.new }
{
    if let Some(cpu) = slot {
        cpu.regs = first_registers(v, pc, arg);
    }
}

// The registers that a vCPU begins with: its number in a0, the argument in a1.
fn first_registers(v: u64, pc: u64, arg: u64) -> Regs
    ensures x { registers result ≡ replicate 10 0 ++ v ∷ arg ∷ replicate 20 0 }
    ensures place { result.pc ≡ pc }
{
    let mut regs = Regs::new();
    regs.set(10, v);
    regs.set(11, arg);
    regs.pc = pc;
    regs
}
