//! The checks of runs of pages that calls share.

ghost use Rattle.std.specs.Prelude.{◌≡◌, ◌+◌, ◌/◌, ◌≤◌, OnOk};
ghost use Rattle.cove_base.specs.Unchanged.{Unchanged};
ghost use Rattle.cove_base.specs.declared.limits.TheConstants.{RANGE_LIMIT};
ghost use Rattle.cove_tvm.specs.Called.{IsReady};
ghost use Rattle.cove_host.specs.Checked.{checked};
ghost use Rattle.cove_model.specs.Checks.{AllHost};
ghost use Rattle.cove_model.specs.Refusals.{Count};
ghost use Rattle.cove_model.specs.States.{State};
ghost use Rattle.cove_tvm.specs.Stands.{Stands};

use crate::checks::check;
use crate::pages::pages_from;
use cove_base::{RANGE_LIMIT, Reply, Status, Words};
use cove_tvm::Ground;

/// A call may name so many pages.
pub(crate) fn counted(n: u64) -> Result<(), Reply>
    ensures told { result ≡ checked (Count n) }
    ensures within { OnOk result ((1 ≤ n) × (n ≤ RANGE_LIMIT)) }
{
    check(n == 0 || n > RANGE_LIMIT, Status::InvalidParam)
}

/// Every page is the host's.
pub(crate) fn all_host<W: Words>(w: &mut W, g: &Ground, base: u64, n: u64) -> Result<(), Reply>
    requires ready { IsReady (W.words w.old) g.now }
    requires inside { base / 4096 + n ≤ g.now.pages }
    ensures told { (S : State) → Stands (W.words w.old) g.now S → result ≡ checked (AllHost S base n) }
    ensures unchanged { Unchanged W.words W.clean W.guard w.old w.new }
{
    check(
        !cove_owner::all_host(w, pages_from(base, n)),
        Status::InvalidAddress,
    )
}
