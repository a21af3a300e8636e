//! The checks that calls share. Each is one function, whose `Err` is what the call answers where the check fails.
//!
//! Those of a TVM's life stand in `lives`, those of runs of pages in `runs`, and those of guest pages in `guest_pages`.

ghost use Rattle.std.specs.Prelude.{◌≡◌, ◌+◌, ◌/◌, ◌≤◌, ℕ, List, OnOk};
ghost use Rattle.cove_base.specs.Unchanged.{Unchanged};
ghost use Rattle.cove_tvm.specs.Called.{IsReady};
ghost use Rattle.cove_host.specs.Checked.{checked};
ghost use Rattle.cove_model.specs.Checks.{AllFree, RoomForTvm, RootAligned, StateApart, WithinMemory};
ghost use Rattle.cove_model.specs.Refusals.{Aligned, plain};
ghost use Rattle.cove_model.specs.States.{State};
ghost use Rattle.cove_tvm.specs.Stands.{Stands};

use crate::fences::epochs;
use crate::pages::pages_from;
use cove_base::{Reply, Status, TVM_LIMIT, Words};
use cove_owner::all_free;
use cove_tvm::Ground;

/// The answer of a call that was done and has no value to tell.
pub(crate) const DONE: Reply = Reply {
    status: Status::Success,
    value: 0,
};

/// Another TVM may be created.
pub(crate) fn room_for_tvm(g: &Ground) -> Result<(), Reply>
    ensures told { (words : List ℕ) (S : State) → Stands words g.now S → result ≡ checked (RoomForTvm S) }
{
    check(g.tvms.made() >= TVM_LIMIT, Status::Failed)
}

/// The root begins at a multiple of its size, or one past it, which asks for tables of four levels.
pub(crate) fn root_aligned(root: u64) -> Result<(), Reply>
    ensures { result ≡ checked (RootAligned root) }
{
    check(root % 16384 > 1, Status::InvalidAddress)
}

/// The address is a multiple of the page size.
pub(crate) fn aligned(address: u64) -> Result<(), Reply>
    ensures { result ≡ checked (Aligned address) }
{
    check(address % 4096 != 0, Status::InvalidAddress)
}

/// The pages are within the memory.
pub(crate) fn inside(g: &Ground, base: u64, n: u64) -> Result<(), Reply>
    requires { n ≤ 16 }
    ensures told { (words : List ℕ) (S : State) → Stands words g.now S → result ≡ checked (WithinMemory S base n) }
    ensures within { OnOk result (base / 4096 + n ≤ g.now.pages) }
{
    check(base / 4096 + n > u64::from(g.pages), Status::InvalidAddress)
}

/// The state page is none of the root's.
pub(crate) fn state_apart(root: u64, state: u64) -> Result<(), Reply>
    ensures { result ≡ checked (StateApart root state) }
{
    let first = root / 4096;
    let page = state / 4096;
    check(first <= page && page < first + 4, Status::InvalidAddress)
}

/// Every page is free.
pub(crate) fn free<W: Words>(w: &mut W, g: &Ground, base: u64, n: u64) -> Result<(), Reply>
    requires ready { IsReady (W.words w.old) g.now }
    requires inside { base / 4096 + n ≤ g.now.pages }
    ensures told { (S : State) → Stands (W.words w.old) g.now S → result ≡ checked (AllFree S base n) }
    ensures unchanged { Unchanged W.words W.clean W.guard w.old w.new }
{
    let floor = epochs(g).floor(w);
    check(
        !all_free(w, pages_from(base, n), floor),
        Status::InvalidAddress,
    )
}

/// A check, which is answered by its status where it fails.
pub(crate) fn check(fails: bool, status: Status) -> Result<(), Reply>
    ensures { result ≡ checked (plain fails status) }
{
    if fails {
        return Err(Reply { status, value: 0 });
    }
    Ok(())
}
