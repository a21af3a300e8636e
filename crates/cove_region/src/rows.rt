//! Rows of shared guest pages, in no order.
ghost use Rattle.std.specs.Prelude.{◌≡◌, ◌<◌, ◌≤◌, ◌||◌, ◌++◌, ◌∷◌, [], ℕ, IsTrue, IsFalse, ◌⊎◌, length, slice_index_or};
ghost use Rattle.std.specs.List.{list_any, All};
ghost use Rattle.cove_region.specs.GuestMaps.{covers, has_guest, meets};
ghost use Rattle.cove_region.specs.Rows.{adjoin, AreApartBefore, AreRows, JoinsAfter, JoinsBefore, rows_cut, rows_with};

use crate::areas::{Area, any_begins_at, any_ends_at, first_beginning, first_ending};
use arrayvec::ArrayVec;
use cove_base::SHARED_RUN_LIMIT;

/// The rows of a TVM.
pub type Rows = ArrayVec<Area, SHARED_RUN_LIMIT>;

/// Whether a row has a neighbour of some guest pages.
pub fn adjoins(rows: &Rows, pages: Area) -> bool
    ensures { result ≡ adjoin rows.now.items pages }
{
    any_ends_at(rows.as_slice(), pages.first) || any_begins_at(rows.as_slice(), pages.end)
}

/// Puts guest pages in that are in no row.
pub fn join(rows: &mut Rows, pages: Area)
    requires rows { AreRows rows.old.items }
    requires some { pages.first < pages.end }
    requires free { IsFalse (list_any (meets pages) rows.old.items) }
    requires few { length rows.old.items ≤ SHARED_RUN_LIMIT }
    requires room { (length rows.old.items < SHARED_RUN_LIMIT) ⊎ IsTrue (adjoin rows.old.items pages) }
    ensures rows { AreRows rows.new.items }
    ensures pages { (g : ℕ) → covers rows.new.items g ≡ (covers rows.old.items g || has_guest g pages) }
    ensures few { length rows.new.items ≤ SHARED_RUN_LIMIT }
{
    let longer = join_before(rows, pages);
    let joined = join_after(rows, longer);
    rows.push(joined);
}

/// Takes guest pages out of the row at a place, which has them all.
pub fn cut(rows: &mut Rows, place: usize, pages: Area)
    requires place { place < length rows.old.items }
    requires room { length (rows_cut rows.old.items place (slice_index_or rows.old.items place pages) pages) ≤ SHARED_RUN_LIMIT }
    ensures rows { rows.new.items ≡ rows_cut rows.old.items place (slice_index_or rows.old.items place pages) pages }
    ensures few { length rows.new.items ≤ SHARED_RUN_LIMIT }
{
    let row = rows.remove(place);
    put(
        rows,
        Area {
            first: row.first,
            end: pages.first,
        },
    );
    put(
        rows,
        Area {
            first: pages.end,
            end: row.end,
        },
    );
}

// Takes out the row that ends where guest pages begin, if there is one, and joins it to them.
fn join_before(rows: &mut Rows, pages: Area) -> Area
    requires rows { AreRows rows.old.items }
    requires some { pages.first < pages.end }
    requires free { IsFalse (list_any (meets pages) rows.old.items) }
    ensures { JoinsBefore rows.old.items pages rows.new.items result }
{
    match first_ending(rows.as_slice(), pages.first) {
        Some(place) => Area {
            first: rows.remove(place).first,
            end: pages.end,
        },
        None => pages,
    }
}

// Takes out the row that begins where guest pages end, if there is one, and joins it to them.
fn join_after(rows: &mut Rows, pages: Area) -> Area
    requires rows { AreRows rows.old.items }
    requires some { pages.first < pages.end }
    requires apart { All (AreApartBefore pages) rows.old.items }
    ensures { JoinsAfter rows.old.items pages rows.new.items result }
{
    match first_beginning(rows.as_slice(), pages.end) {
        Some(place) => Area {
            first: pages.first,
            end: rows.remove(place).end,
        },
        None => pages,
    }
}

// Puts a row in, unless it is empty.
fn put(rows: &mut Rows, row: Area)
    requires { length (rows_with rows.old.items row) ≤ SHARED_RUN_LIMIT }
    ensures { rows.new.items ≡ rows_with rows.old.items row }
{
    if row.first < row.end {
        rows.push(row);
    }
}
