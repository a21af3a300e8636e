ghost use Rattle.std.specs.Prelude.{◌≡◌, ◌≤◌, [], length, None, IfOk};
ghost use Rattle.cove_base.specs.Rings.{ring_with, found, ring_room};

use circular_buffer::HeapCircularBuffer;
use cove_base::{NoMemory, Page};
use std::alloc::Global;
use std::marker::Model;

/// How many pages a ring has room for.
pub const RING_ROOM: usize = 4;

/// Pages that a hart may use without a walk, each under a key.
#[derive(Drop)]
pub struct Ring {
    pairs: HeapCircularBuffer<(u64, Page)>,
}

impl Model for Ring {
    ghost use Rattle.std.specs.Prelude.{◌≡◌, ◌≤◌, List, ℕ, length};
    ghost use Rattle.cove_base.specs.declared.numbers.Page.{Page};
    ghost use Rattle.cove_base.specs.Rings.{ring_room};

    ghost Value = { List (ℕ × Page) };

    ghost view = { λ a. a.pairs.items };

    ghost invariant = { λ a. (a.pairs.capacity ≡ ring_room) × (length a.pairs.items ≤ ring_room) };
}

impl Ring {
    /// An empty ring, which takes its memory here and no more later.
    pub fn new(alloc: Global) -> Result<Self, NoMemory>
        ensures { IfOk result (λ ring. ring ≡ []) }
    {
        Ok(Ring {
            pairs: HeapCircularBuffer::with_capacity(alloc, RING_ROOM)?,
        })
    }

    /// The page under a key.
    pub fn find(&self, key: u64) -> Option<Page>
        ensures page { result ≡ found key self.now }
        ensures few { length self.now ≤ ring_room }
    {
        self.pairs
            .iter()
            .find(|pair| pair.0 == key)
            .map(|pair| pair.1)
    }

    /// Puts a page in as the newest. The key is not there yet.
    pub fn fill(&mut self, key: u64, page: Page)
        requires { found key self.old ≡ None }
        ensures { self.new ≡ ring_with self.old key page }
    {
        self.pairs.push_back((key, page));
    }

    /// Forgets every page.
    pub fn clear(&mut self)
        ensures { self.new ≡ [] }
    {
        self.pairs.clear();
    }
}
