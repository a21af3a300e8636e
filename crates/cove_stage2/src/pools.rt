ghost use Rattle.std.specs.Prelude.{◌≡◌, ◌-◌, ◌<◌, ◌++◌, [], ◌∷◌, IfOk, length, slice_index, take};
ghost use Rattle.cove_stage2.specs.MapStores.{next_page};

use cove_base::{NoMemory, Page};
use std::alloc::Global;
use std::marker::Model;

/// Pages that a TVM was given for tables and that serve none yet.
#[derive(Drop)]
pub struct Pool {
    pages: Vec<u32>,
    left: u32,
}

impl Model for Pool {
    ghost use Rattle.std.specs.Prelude.{◌≤◌, ◌<◌, ◌^◌, length, take};
    ghost use Rattle.cove_stage2.specs.MapStores.{Pages};

    ghost Value = { Pages };

    ghost view = { λ a. record { pages = take a.left a.pages.items; room = length a.pages.items } };

    ghost invariant = { λ a. (a.left ≤ length a.pages.items) × (length a.pages.items < 2 ^ 32) };
}

impl Pool {
    /// A pool without a page, with room for as many.
    pub fn new(alloc: Global, room: u32) -> Result<Self, NoMemory>
        ensures pages { IfOk result (λ pool. pool.pages ≡ []) }
        ensures room { IfOk result (λ pool. pool.room ≡ room) }
    {
        Ok(Pool {
            pages: vec![in alloc; 0; room as usize]?,
            left: 0,
        })
    }

    /// Adds a page.
    pub fn add(&mut self, page: Page)
        requires { length self.old.pages < self.old.room }
        ensures pages { self.new.pages ≡ self.old.pages ++ page.0 ∷ [] }
        ensures room { self.new.room ≡ self.old.room }
    {
        self.pages[self.left as usize] = page.0;
        self.left += 1;
    }

    /// The number of pages that are left.
    pub fn left(&self) -> u32
        ensures { result ≡ length self.now.pages }
    {
        self.left
    }

    /// The page at a place, in the order in which they were added.
    pub fn page(&self, k: u32) -> Page
        requires { k < length self.now.pages }
        ensures { result.0 ≡ slice_index self.now.pages k }
    {
        Page(self.pages[k as usize])
    }

    /// Takes the page that was added last.
    pub(crate) fn take_page(&mut self) -> Page
        requires { 0 < length self.old.pages }
        ensures page { result.0 ≡ next_page self.old.pages }
        ensures pages { self.new.pages ≡ take (length self.old.pages - 1) self.old.pages }
        ensures room { self.new.room ≡ self.old.room }
    {
        self.left -= 1;
        Page(self.pages[self.left as usize])
    }
}
