//! The regions of TVMs.

ghost use Rattle.std.specs.Prelude.{◌≡◌, ◌+◌, ◌*◌, ◌/◌, ◌^◌, ◌<◌, ◌≤◌, ℕ, List, OnOk, Some};
ghost use Rattle.cove_base.specs.Modes.{guest_limit};
ghost use Rattle.cove_base.specs.Unchanged.{Unchanged};
ghost use Rattle.cove_base.specs.declared.calls.HostCall.TheVariants.{Region};
ghost use Rattle.cove_tvm.specs.Called.{Called};
ghost use Rattle.cove_host.specs.Checked.{all_checked, checked};
ghost use Rattle.cove_host.specs.FoundTvms.{ChangesTvm, IsLiveTvm};
ghost use Rattle.cove_host.specs.MoreRegions.{AddsRegion};
ghost use Rattle.cove_model.specs.Checks.{IsArea, NoOverlap, RoomForRegion};
ghost use Rattle.cove_model.specs.HostCalls.{rule};
ghost use Rattle.cove_model.specs.States.{State};
ghost use Rattle.cove_tvm.specs.Stands.{Stands};
ghost use Rattle.cove_tvm.specs.TvmTables.{live_at};
ghost use Rattle.cove_tvm.specs.declared.ground.Ground.{Ground};

use crate::checks::{DONE, aligned, check};
use crate::lives::{is_building, live};
use cove_base::{Gpn, HartId, Reply, Status, Words};
use cove_tvm::{Ground, Tvm};

/// Adds a region to a TVM: the `len` bytes of guest addresses from `gpa` on.
pub fn add_memory_region<W: Words>(
    w: &mut W,
    g: &mut Ground,
    h: HartId,
    t: u64,
    gpa: u64,
    len: u64,
) -> Reply
    ensures called { Called h.0 (λ S. rule S h.0 (Region t gpa len)) (W.words w.old) (W.words w.new) g.old g.new result }
    ensures unchanged { Unchanged W.words W.clean W.guard w.old w.new }
{
    match addable(g, t, gpa, len) {
        Err(reply) => reply,
        Ok(()) => {
            add(g, t, Gpn(gpa / 4096), len / 4096);
            DONE
        }
    }
}

// The checks of the call, in the order of its rule.
fn addable(g: &Ground, t: u64, gpa: u64, len: u64) -> Result<(), Reply>
    ensures told { (words : List ℕ) (hart : ℕ) (S : State) → Stands words g.now S
        → result ≡ all_checked (rule S hart (Region t gpa len)).checks }
    ensures some { OnOk result (0 < len / 4096) }
    ensures area { OnOk result ((tvm : Tvm) → live_at g.now.tvms t ≡ Some tvm → gpa + len ≤ 4096 * guest_limit tvm.tables.mode) }
    ensures fits { OnOk result (gpa + len ≤ 2 ^ 50) }
{
    let tvm = live(g, t)?;
    is_building(tvm)?;
    aligned(gpa)?;
    aligned(len)?;
    is_area(tvm, gpa, len)?;
    no_overlap(tvm, gpa, len)?;
    room_for_region(tvm)
}

// The region is not empty and ends within the guest addresses of the TVM's mode.
fn is_area(tvm: &Tvm, gpa: u64, len: u64) -> Result<(), Reply>
    ensures told { (words : List ℕ) (S : State) (t : ℕ) → IsLiveTvm words S t tvm.now
        → result ≡ checked (IsArea S t gpa len) }
    ensures some { OnOk result (0 < len) }
    ensures within { OnOk result (gpa + len ≤ 4096 * guest_limit tvm.now.tables.mode) }
{
    let end = u128::from(gpa) + u128::from(len);
    let limit = 4096 * u128::from(tvm.tables.mode.guest_limit());
    check(len == 0 || end > limit, Status::InvalidAddress)
}

// The region meets none of the TVM's.
fn no_overlap(tvm: &Tvm, gpa: u64, len: u64) -> Result<(), Reply>
    requires { gpa + len ≤ 2 ^ 50 }
    ensures told { (words : List ℕ) (S : State) (t : ℕ) → IsLiveTvm words S t tvm.now
        → result ≡ checked (NoOverlap S t gpa len) }
{
    check(
        tvm.regions.overlaps(Gpn(gpa / 4096), len / 4096),
        Status::InvalidAddress,
    )
}

// The TVM may have another region.
fn room_for_region(tvm: &Tvm) -> Result<(), Reply>
    ensures told { (words : List ℕ) (S : State) (t : ℕ) → IsLiveTvm words S t tvm.now
        → result ≡ checked (RoomForRegion S t) }
{
    check(tvm.regions.is_full(), Status::Failed)
}

// Adds a region to the live TVM `t`.
fn add(g: &mut Ground, t: u64, first: Gpn, count: u64)
    requires some { 0 < count }
    requires fits { first.0 + count ≤ 2 ^ 52 }
    ensures { ChangesTvm t (AddsRegion first.0 count) g.old g.new }
{
    if let Some(tvm) = g.tvms.live_mut(t) {
        add_to(tvm, first, count);
    }
}

// Adds a region to a TVM, where it may be added.
fn add_to(tvm: &mut Tvm, first: Gpn, count: u64)
    requires some { 0 < count }
    requires fits { first.0 + count ≤ 2 ^ 52 }
    ensures { AddsRegion first.0 count tvm.old tvm.new }
{
    let _ = tvm.regions.add(first, count);
}
