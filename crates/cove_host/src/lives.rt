//! The checks of a TVM's life and of its vCPUs that calls share: a live TVM is found once, and then asked.

ghost use Rattle.std.specs.Prelude.{◌≡◌, ◌<◌, ℕ, List, IfOk, OnOk, Some, is_some};
ghost use Rattle.cove_base.specs.declared.limits.TheConstants.{VCPU_LIMIT};
ghost use Rattle.cove_host.specs.Checked.{checked};
ghost use Rattle.cove_host.specs.FoundTvms.{IsLiveTvm, has_no_cpu, without_value};
ghost use Rattle.cove_model.specs.Checks.{CpuNumber, HasSomeCpu, IsBuilding, IsRunnable, Live, NoCpuYet, PlaceAligned};
ghost use Rattle.cove_model.specs.States.{State};
ghost use Rattle.cove_tvm.specs.Slots.{slot_at};
ghost use Rattle.cove_tvm.specs.Stands.{Stands};
ghost use Rattle.cove_tvm.specs.TvmTables.{live_at};
ghost use Rattle.cove_tvm.specs.declared.ground.Ground.{Ground};

use crate::checks::check;
use cove_base::{Reply, Status, VCPU_LIMIT};
use cove_tvm::{Ground, Tvm};

/// The live TVM with a number.
pub(crate) fn live(g: &Ground, t: u64) -> Result<&Tvm, Reply>
    ensures told { (words : List ℕ) (S : State) → Stands words g.now S → without_value result ≡ checked (Live S t) }
    ensures found { (words : List ℕ) (S : State) → Stands words g.now S → IfOk result (λ tvm. IsLiveTvm words S t tvm.now) }
    ensures live { IfOk result (λ tvm. live_at g.now.tvms t ≡ Some tvm.now) }
{
    match g.tvms.live(t) {
        Some(tvm) => Ok(tvm),
        None => Err(Reply {
            status: Status::InvalidParam,
            value: 0,
        }),
    }
}

/// The TVM is not finalized yet.
pub(crate) fn is_building(tvm: &Tvm) -> Result<(), Reply>
    ensures told { (words : List ℕ) (S : State) (t : ℕ) → IsLiveTvm words S t tvm.now
        → result ≡ checked (IsBuilding S t) }
{
    check(tvm.life.is_runnable(), Status::Denied)
}

/// The TVM is finalized.
pub(crate) fn is_runnable(tvm: &Tvm) -> Result<(), Reply>
    ensures told { (words : List ℕ) (S : State) (t : ℕ) → IsLiveTvm words S t tvm.now
        → result ≡ checked (IsRunnable S t) }
{
    check(!tvm.life.is_runnable(), Status::Denied)
}

/// The TVM has a vCPU.
pub(crate) fn has_some_cpu(tvm: &Tvm) -> Result<(), Reply>
    ensures told { (words : List ℕ) (S : State) (t : ℕ) → IsLiveTvm words S t tvm.now
        → result ≡ checked (HasSomeCpu S t) }
{
    check(lacks_cpus(tvm), Status::Denied)
}

/// The number is one that a vCPU may have.
pub(crate) fn cpu_number(v: u64) -> Result<(), Reply>
    ensures told { result ≡ checked (CpuNumber v) }
    ensures within { OnOk result (v < VCPU_LIMIT) }
{
    check(v >= VCPU_LIMIT, Status::InvalidParam)
}

/// The TVM has no such vCPU yet.
pub(crate) fn no_cpu_yet(tvm: &Tvm, v: u64) -> Result<(), Reply>
    ensures told { (words : List ℕ) (S : State) (t : ℕ) → IsLiveTvm words S t tvm.now
        → result ≡ checked (NoCpuYet S t v) }
{
    check(has_cpu(tvm, v), Status::AlreadyAvailable)
}

/// The place is a multiple of 4, as that of an instruction is.
pub(crate) fn place_aligned(pc: u64) -> Result<(), Reply>
    ensures { result ≡ checked (PlaceAligned pc) }
{
    check(pc % 4 != 0, Status::InvalidAddress)
}

// Whether the TVM has no vCPU.
fn lacks_cpus(tvm: &Tvm) -> bool
    ensures { result ≡ has_no_cpu tvm.now }
{
    tvm.v0.is_none() && tvm.v1.is_none() && tvm.v2.is_none() && tvm.v3.is_none()
}

// Whether the TVM has the vCPU.
fn has_cpu(tvm: &Tvm, v: u64) -> bool
    ensures { result ≡ is_some (slot_at tvm.now v) }
{
    tvm.vcpu(v).is_some()
}
