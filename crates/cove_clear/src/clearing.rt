//! The tables of a TVM that is being destroyed.
//!
//! Each entry is cleared after what is under it, and what it named is gathered in the pool, which has room for every page of the
//! board: so each page of the TVM is found again once no entry names it, and none is released while one does.

ghost use Rattle.std.specs.Prelude.{◌≡◌, ◌<◌, ◌≤◌, ℕ, slice_index, slice_set};
ghost use Rattle.cove_base.specs.Modes.{leaves_of};
ghost use Rattle.cove_base.specs.PageWords.{host};
ghost use Rattle.cove_base.specs.Places.{table_word};
ghost use Rattle.cove_base.specs.Tables.{At, IsLeaf, StandsAt, slots_at};
ghost use Rattle.cove_clear.specs.Clearing.{KeepsAbove, LeafStands, MayBeCleared, NamedBy, NamesOwn, NamesShared, Proceeds};
ghost use Rattle.cove_model.specs.TableLaw.{shared_leaves};

use cove_base::{Page, Words, page_word, table_word};
use cove_stage2::{Leaf, Pool, Tables, decode};

/// Clears the tables of a TVM that is being destroyed, and gathers in `pool` the pages of its memory and of its tables, but for
/// the root's.
pub fn clear_tables<W: Words>(w: &mut W, tables: &Tables, pool: &mut Pool)
    requires leaving { MayBeCleared (W.allows (W.guard w.old)) tables.now.pages tables.now.root.0 (leaves_of tables.now.mode) (W.words w.old) pool.old.pages }
    requires room { pool.old.room ≡ tables.now.pages }
    ensures proceeds { Proceeds tables.now.pages tables.now.root.0 (leaves_of tables.now.mode) (W.words w.old) pool.old.pages (W.words w.new) pool.new.pages }
    ensures empty { (n : ℕ) → n < 2048 → slice_index (W.words w.new) (table_word tables.now.pages tables.now.root.0 n) ≡ 0 }
    ensures room { pool.new.room ≡ pool.old.room }
    ensures guard { W.guard w.new ≡ W.guard w.old }
{
    for n in 0..2048 {
        let place = table_word(tables.pages, Page(tables.root.0 + n / 512), n % 512);
        clear_slot(w, tables, pool, 0, u64::from(n), place);
    }
}

// Clears the n-th slot at a depth, which stands at a place: what is under it first, and then the slot.
fn clear_slot<W: Words>(w: &mut W, tables: &Tables, pool: &mut Pool, depth: u32, n: u64, place: u32)
    requires depth { depth ≤ leaves_of tables.now.mode }
    requires slot { n < slots_at depth }
    requires stands { StandsAt tables.now.pages tables.now.root.0 (W.words w.old) (At depth n) place }
    requires leaving { MayBeCleared (W.allows (W.guard w.old)) tables.now.pages tables.now.root.0 (leaves_of tables.now.mode) (W.words w.old) pool.old.pages }
    requires room { pool.old.room ≡ tables.now.pages }
    ensures proceeds { Proceeds tables.now.pages tables.now.root.0 (leaves_of tables.now.mode) (W.words w.old) pool.old.pages (W.words w.new) pool.new.pages }
    ensures empty { slice_index (W.words w.new) place ≡ 0 }
    ensures above { KeepsAbove tables.now.pages tables.now.root.0 depth (W.words w.old) (W.words w.new) }
    ensures room { pool.new.room ≡ pool.old.room }
    ensures guard { W.guard w.new ≡ W.guard w.old }
{
    if depth == tables.mode.leaves() {
        clear_leaf(w, tables, pool, place);
        return;
    }
    let entry = w.get(place);
    if entry != 0 {
        let table = Page((entry / 1024) as u32);
        for i in 0..512 {
            let under = table_word(tables.pages, table, i);
            clear_slot(w, tables, pool, depth + 1, 512 * n + u64::from(i), under);
        }
        gather(w, tables, pool, place, table);
    }
}

// Clears a leaf: its page is gathered where it is the TVM's, and counts a mapping less where it is the host's.
fn clear_leaf<W: Words>(w: &mut W, tables: &Tables, pool: &mut Pool, place: u32)
    requires leaf { LeafStands tables.now.pages tables.now.root.0 (leaves_of tables.now.mode) (W.words w.old) place }
    requires leaving { MayBeCleared (W.allows (W.guard w.old)) tables.now.pages tables.now.root.0 (leaves_of tables.now.mode) (W.words w.old) pool.old.pages }
    requires room { pool.old.room ≡ tables.now.pages }
    ensures proceeds { Proceeds tables.now.pages tables.now.root.0 (leaves_of tables.now.mode) (W.words w.old) pool.old.pages (W.words w.new) pool.new.pages }
    ensures empty { slice_index (W.words w.new) place ≡ 0 }
    ensures above { KeepsAbove tables.now.pages tables.now.root.0 (leaves_of tables.now.mode) (W.words w.old) (W.words w.new) }
    ensures room { pool.new.room ≡ pool.old.room }
    ensures guard { W.guard w.new ≡ W.guard w.old }
{
    match named(w.get(place)) {
        None => {}
        Some((page, shared)) => {
            if shared {
                unmap_shared(w, tables, pool, place, page);
            } else {
                gather(w, tables, pool, place, page);
            }
        }
    }
}

// Clears an entry that names a page of the TVM's, and gathers the page.
fn gather<W: Words>(w: &mut W, tables: &Tables, pool: &mut Pool, place: u32, page: Page)
    requires own { NamesOwn tables.now.pages tables.now.root.0 (W.words w.old) place page.0 }
    requires leaving { MayBeCleared (W.allows (W.guard w.old)) tables.now.pages tables.now.root.0 (leaves_of tables.now.mode) (W.words w.old) pool.old.pages }
    requires room { pool.old.room ≡ tables.now.pages }
    ensures proceeds { Proceeds tables.now.pages tables.now.root.0 (leaves_of tables.now.mode) (W.words w.old) pool.old.pages (W.words w.new) pool.new.pages }
    ensures words { W.words w.new ≡ slice_set (W.words w.old) place 0 }
    ensures room { pool.new.room ≡ pool.old.room }
    ensures guard { W.guard w.new ≡ W.guard w.old }
{
    w.set(place, 0);
    pool.add(page);
}

// Unmaps a page of the host's, which then counts a mapping less.
fn unmap_shared<W: Words>(w: &mut W, tables: &Tables, pool: &mut Pool, place: u32, page: Page)
    requires shared { NamesShared tables.now.pages tables.now.root.0 (W.words w.old) place page.0 }
    requires leaving { MayBeCleared (W.allows (W.guard w.old)) tables.now.pages tables.now.root.0 (leaves_of tables.now.mode) (W.words w.old) pool.old.pages }
    ensures proceeds { Proceeds tables.now.pages tables.now.root.0 (leaves_of tables.now.mode) (W.words w.old) pool.old.pages (W.words w.new) pool.new.pages }
    ensures words { W.words w.new
        ≡ slice_set (slice_set (W.words w.old) place 0) page.0
        (host (shared_leaves tables.now.pages (slice_set (W.words w.old) place 0) page.0)) }
    ensures room { pool.new.room ≡ pool.old.room }
    ensures guard { W.guard w.new ≡ W.guard w.old }
{
    w.set(place, 0);
    let count = w.get(page_word(page));
    w.set(page_word(page), count - 8);
}

// The page that a leaf names, and whether it is the host's.
fn named(leaf: u64) -> Option<(Page, bool)>
    requires { IsLeaf leaf }
    ensures { NamedBy leaf result }
{
    match decode(leaf) {
        Leaf::Absent => None,
        Leaf::Present { page, shared } => Some((page, shared)),
        Leaf::Blocked { page, shared, .. } => Some((page, shared)),
    }
}
