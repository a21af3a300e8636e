ghost use Rattle.std.specs.Prelude.{◌≡◌, ◌↔◌, ◌+◌, ◌^◌, ◌<◌, ◌≤◌, [], ◌∷◌, ◌++◌, ℕ, true, length, nat_le, OnOk, OnErr, IsTrue, slice_index_or, ◌⊎◌};
ghost use Rattle.std.specs.List.{list_any, AllPairs};
ghost use Rattle.cove_region.specs.GuestMaps.{AreAll, AreMade, AreOfOneRegion, FormRows, FormTooManyRows, has_shared, has_shared_with, has_shared_without, holds, kind_of, meets, pages_from};
ghost use Rattle.cove_region.specs.Rows.{AreDisjoint};

use crate::areas::{Area, any_has, any_holds, any_meets, first_holding};
use crate::kinds::AreaKind;
use crate::rows::{Rows, adjoins, cut, join};
use arrayvec::ArrayVec;
use cove_base::{Gpn, REGION_LIMIT, SHARED_RUN_LIMIT};
use std::marker::Model;

/// Why a call on regions is refused.
#[derive(Clone, Copy, Debug, PartialEq, Eq)]
pub enum RegionFault {
    /// A guest page is in a region already.
    Overlap,
    /// The guest pages are not all of the kind that is wanted and in one region.
    NotInside,
    /// There are as many regions or rows as there may be.
    Full,
}

/// The guest pages of a TVM.
#[derive(Drop)]
pub struct Regions {
    regions: ArrayVec<Area, REGION_LIMIT>,
    rows: Rows,
}

impl Model for Regions {
    ghost use Rattle.cove_region.specs.GuestMaps.{GuestMap};
    ghost use Rattle.cove_region.specs.Rows.{AreKept};

    ghost Value = { GuestMap };

    ghost view = { λ a. record { regions = a.regions.items; rows = a.rows.items } };

    ghost invariant = { λ a. AreKept a.regions.items a.rows.items };
}

impl Regions {
    /// No region, so that every guest page is outside.
    pub fn new() -> Self
        ensures { result ≡ record { regions = []; rows = [] } }
    {
        Regions {
            regions: ArrayVec::new(),
            rows: ArrayVec::new(),
        }
    }

    /// What a guest page is.
    pub fn kind(&self, g: Gpn) -> AreaKind
        ensures { result ≡ kind_of self.now g.0 }
    {
        if any_has(self.rows.as_slice(), g.0) {
            AreaKind::Shared
        } else if any_has(self.regions.as_slice(), g.0) {
            AreaKind::Private
        } else {
            AreaKind::Outside
        }
    }

    /// Whether some guest pages meet a region.
    pub fn overlaps(&self, first: Gpn, count: u64) -> bool
        requires fits { first.0 + count ≤ 2 ^ 52 }
        ensures { result ≡ list_any (meets (pages_from first.0 count)) self.now.regions }
    {
        any_meets(self.regions.as_slice(), area(first, count))
    }

    /// Whether there are as many regions as there may be.
    pub fn is_full(&self) -> bool
        ensures { result ≡ nat_le REGION_LIMIT (length self.now.regions) }
    {
        self.regions.len() >= REGION_LIMIT
    }

    /// Adds a region, whose guest pages are private.
    pub fn add(&mut self, first: Gpn, count: u64) -> Result<(), RegionFault>
        requires some { 0 < count }
        requires fits { first.0 + count ≤ 2 ^ 52 }
        ensures overlap { (result ≡ Err RegionFault.Overlap) ↔ (AreAll self.old AreaKind.Outside (pages_from first.0 count) → ⊥) }
        ensures full { (result ≡ Err RegionFault.Full)
            ↔ (AreAll self.old AreaKind.Outside (pages_from first.0 count) × (REGION_LIMIT ≤ length self.old.regions)) }
        ensures only { (result ≡ Err RegionFault.NotInside) → ⊥ }
        ensures kinds { OnOk result (AreMade AreaKind.Private (pages_from first.0 count) self.old self.new) }
        ensures regions { OnOk result (self.new.regions ≡ self.old.regions ++ pages_from first.0 count ∷ []) }
        ensures refused { OnErr result (self.new ≡ self.old) }
    {
        let pages = area(first, count);
        if any_meets(self.regions.as_slice(), pages) {
            return Err(RegionFault::Overlap);
        }
        if self.regions.len() == REGION_LIMIT {
            return Err(RegionFault::Full);
        }
        self.regions.push(pages);
        Ok(())
    }

    /// Makes private guest pages shared.
    pub fn share(&mut self, first: Gpn, count: u32) -> Result<(), RegionFault>
        requires some { 0 < count }
        requires fits { first.0 + count ≤ 2 ^ 52 }
        ensures not_inside { (result ≡ Err RegionFault.NotInside)
            ↔ (AreOfOneRegion self.old AreaKind.Private (pages_from first.0 count) → ⊥) }
        ensures full { (result ≡ Err RegionFault.Full)
            ↔ (AreOfOneRegion self.old AreaKind.Private (pages_from first.0 count)
            × FormTooManyRows (has_shared_with self.old (pages_from first.0 count))) }
        ensures only { (result ≡ Err RegionFault.Overlap) → ⊥ }
        ensures kinds { OnOk result (AreMade AreaKind.Shared (pages_from first.0 count) self.old self.new) }
        ensures regions { self.new.regions ≡ self.old.regions }
        ensures refused { OnErr result (self.new ≡ self.old) }
    {
        let pages = area(first, u64::from(count));
        if !any_holds(self.regions.as_slice(), pages) || any_meets(self.rows.as_slice(), pages) {
            return Err(RegionFault::NotInside);
        }
        if self.rows.len() == SHARED_RUN_LIMIT && !adjoins(&self.rows, pages) {
            return Err(RegionFault::Full);
        }
        join(&mut self.rows, pages);
        Ok(())
    }

    /// Makes shared guest pages private again.
    pub fn unshare(&mut self, first: Gpn, count: u32) -> Result<(), RegionFault>
        requires some { 0 < count }
        requires fits { first.0 + count ≤ 2 ^ 52 }
        ensures not_inside { (result ≡ Err RegionFault.NotInside)
            ↔ (AreOfOneRegion self.old AreaKind.Shared (pages_from first.0 count) → ⊥) }
        ensures full { (result ≡ Err RegionFault.Full)
            ↔ (AreOfOneRegion self.old AreaKind.Shared (pages_from first.0 count)
            × FormTooManyRows (has_shared_without self.old (pages_from first.0 count))) }
        ensures only { (result ≡ Err RegionFault.Overlap) → ⊥ }
        ensures kinds { OnOk result (AreMade AreaKind.Private (pages_from first.0 count) self.old self.new) }
        ensures regions { self.new.regions ≡ self.old.regions }
        ensures refused { OnErr result (self.new ≡ self.old) }
    {
        let pages = area(first, u64::from(count));
        if !any_holds(self.regions.as_slice(), pages) {
            return Err(RegionFault::NotInside);
        }
        let Some(place) = first_holding(self.rows.as_slice(), pages) else {
            return Err(RegionFault::NotInside);
        };
        let row = self.rows[place];
        if self.rows.len() == SHARED_RUN_LIMIT && row.first < pages.first && pages.end < row.end {
            return Err(RegionFault::Full);
        }
        cut(&mut self.rows, place, pages);
        Ok(())
    }
}

/// The law of the guest pages of a TVM, which runs no code: how many regions and rows there are, and how they stand.
pub fn regions_law(guests: &Regions)
    ensures regions { length guests.now.regions ≤ REGION_LIMIT }
    ensures disjoint { AllPairs AreDisjoint guests.now.regions }
    ensures rows { FormRows (has_shared guests.now) (length guests.now.rows) }
    ensures few { length guests.now.rows ≤ SHARED_RUN_LIMIT }
{
    let _ = &guests.rows;
}

// So many guest pages from one on.
fn area(first: Gpn, count: u64) -> Area
    requires { first.0 + count ≤ 2 ^ 52 }
    ensures { result ≡ pages_from first.0 count }
{
    Area {
        first: first.0,
        end: first.0 + count,
    }
}
