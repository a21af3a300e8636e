//! The checks of runs of guest pages of a live TVM, each once for every call that has it.

ghost use Rattle.std.specs.Prelude.{◌≡◌, ◌↔◌, ◌+◌, ◌-◌, ◌/◌, ◌^◌, ◌<◌, ◌≤◌, ℕ, List, OnOk, IsTrue, Some, length};
ghost use Rattle.cove_base.specs.Modes.{guest_limit, leaves_of};
ghost use Rattle.cove_base.specs.Tables.{IsTree, leaf_at};
ghost use Rattle.cove_base.specs.Unchanged.{Unchanged};
ghost use Rattle.cove_base.specs.declared.limits.TheConstants.{RANGE_LIMIT};
ghost use Rattle.cove_host.specs.Checked.{checked};
ghost use Rattle.cove_host.specs.FoundTvms.{IsLiveTvm, IsSomeLiveTvm};
ghost use Rattle.cove_host.specs.GuestRuns.{EachGuest, KindsFit, kind_as};
ghost use Rattle.cove_model.specs.Checks.{EnoughTables, Unmapped};
ghost use Rattle.cove_model.specs.States.{State};
ghost use Rattle.cove_region.specs.GuestMaps.{kind_of};
ghost use Rattle.cove_stage2.specs.Entries.{leaf_word};
ghost use Rattle.cove_stage2.specs.Lacked.{tables_lacked};
ghost use Rattle.cove_tvm.specs.Stands.{Stands};
ghost use Rattle.cove_tvm.specs.TvmTables.{live_at};
ghost use Rattle.cove_tvm.specs.declared.ground.Ground.{Ground};

use crate::checks::check;
use cove_base::{Gpn, RANGE_LIMIT, Reply, Status, Words};
use cove_region::{AreaKind, Regions};
use cove_stage2::{Leaf, Tables};
use cove_tvm::Tvm;

/// Every guest page is of the kind that it is to be mapped as: shared, or private.
pub(crate) fn kinds_fit(tvm: &Tvm, gpa: u64, n: u64, shared: bool) -> Result<(), Reply>
    requires within { (1 ≤ n) × (n ≤ RANGE_LIMIT) }
    ensures told { (words : List ℕ) (S : State) (t : ℕ) → IsLiveTvm words S t tvm.now
        → result ≡ checked (KindsFit shared S t gpa n) }
    ensures near { (words : List ℕ) (S : State) (t : ℕ) → IsLiveTvm words S t tvm.now
        → OnOk result (gpa / 4096 + n ≤ guest_limit tvm.now.tables.mode) }
{
    check(
        !are_of_kind(&tvm.regions, mapped_kind(shared), gpa / 4096, n),
        Status::InvalidAddress,
    )
}

/// No guest page has a mapping.
pub(crate) fn unmapped<W: Words>(w: &mut W, tvm: &Tvm, gpa: u64, n: u64) -> Result<(), Reply>
    requires live { IsSomeLiveTvm (W.words w.old) tvm.now }
    requires near { gpa / 4096 + n ≤ guest_limit tvm.now.tables.mode }
    ensures told { (S : State) (t : ℕ) → IsLiveTvm (W.words w.old) S t tvm.now
        → result ≡ checked (Unmapped S t gpa n) }
    ensures unchanged { Unchanged W.words W.clean W.guard w.old w.new }
{
    check(
        !are_absent(w, tvm.tables, gpa / 4096, n),
        Status::AlreadyAvailable,
    )
}

/// The pool has the table pages that mappings of the guest pages need; the value is how many are missing.
pub(crate) fn enough_tables<W: Words>(w: &mut W, tvm: &Tvm, gpa: u64, n: u64) -> Result<(), Reply>
    requires within { n ≤ RANGE_LIMIT }
    requires live { IsSomeLiveTvm (W.words w.old) tvm.now }
    requires near { gpa / 4096 + n ≤ guest_limit tvm.now.tables.mode }
    ensures told { (S : State) (t : ℕ) → IsLiveTvm (W.words w.old) S t tvm.now
        → result ≡ checked (EnoughTables S t gpa n) }
    ensures unchanged { Unchanged W.words W.clean W.guard w.old w.new }
{
    let missing = missing_tables(w, tvm, gpa / 4096, n);
    if missing > 0 {
        return Err(Reply {
            status: Status::Failed,
            value: u64::from(missing),
        });
    }
    Ok(())
}

// The kind of guest pages that are mapped shared, or as private ones.
fn mapped_kind(shared: bool) -> AreaKind
    ensures { result ≡ kind_as shared }
{
    if shared {
        AreaKind::Shared
    } else {
        AreaKind::Private
    }
}

// Whether guest pages are all of a kind.
fn are_of_kind(regions: &Regions, kind: AreaKind, first: u64, n: u64) -> bool
    requires fits { first + n < 2 ^ 64 }
    ensures { IsTrue result ↔ EachGuest (λ g. kind_of regions.now g ≡ kind) first n }
{
    for i in 0..n {
        if regions.kind(Gpn(first + i)) != kind {
            return false;
        }
    }
    true
}

// Whether no guest page of a run has a leaf in some tables.
fn are_absent<W: Words>(w: &mut W, tables: Tables, first: u64, n: u64) -> bool
    requires near { first + n ≤ guest_limit tables.mode }
    requires tree { IsTree tables.pages tables.root.0 (leaves_of tables.mode) (W.words w.old) }
    ensures none { IsTrue result ↔ EachGuest (λ g. leaf_at tables.pages tables.root.0 (leaves_of tables.mode) (W.words w.old) g ≡ 0) first n }
    ensures unchanged { Unchanged W.words W.clean W.guard w.old w.new }
{
    for i in 0..n {
        if !is_absent(tables.find(w, Gpn(first + i))) {
            return false;
        }
    }
    true
}

// Whether nothing is mapped.
fn is_absent(leaf: Leaf) -> bool
    ensures { IsTrue result ↔ (leaf_word leaf ≡ 0) }
{
    matches!(leaf, Leaf::Absent)
}

// How many tables mappings of a run of guest pages lack beside those of the pool.
fn missing_tables<W: Words>(w: &mut W, tvm: &Tvm, first: u64, n: u64) -> u32
    requires within { n ≤ RANGE_LIMIT }
    requires near { first + n ≤ guest_limit tvm.now.tables.mode }
    requires tree { IsTree tvm.now.tables.pages tvm.now.tables.root.0 (leaves_of tvm.now.tables.mode) (W.words w.old) }
    ensures missing { result ≡ tables_lacked tvm.now.tables.pages tvm.now.tables.root.0 (W.words w.old) (leaves_of tvm.now.tables.mode) first n - length tvm.now.pool.pages }
    ensures unchanged { Unchanged W.words W.clean W.guard w.old w.new }
{
    let lacked = tvm.tables.need(w, Gpn(first), n as u32);
    lacked.saturating_sub(tvm.pool.left())
}
