ghost use Rattle.std.specs.Prelude.{◌≡◌, ◌<◌, ◌+◌, length, replicate, IfOk, slice_index, slice_set, true};
ghost use Rattle.cove_base.specs.Guards.{guard_after};

use crate::events::Entry;
use crate::limits::ENTRY_LIMIT;
use crate::numbers::NoMemory;
use std::alloc::Global;
use std::marker::Model;

/// A list of words that harts share, with a guard: what is known beside them while one hart may store.
///
/// Each type of words fixes which stores it allows, and which entries it allows to be counted.
pub trait Words {
    ghost use Rattle.std.specs.Prelude.{ℕ, List, Option, Bool};
    ghost use Rattle.cove_base.specs.Guards.{Guard};
    ghost use Rattle.cove_base.specs.declared.events.Entry.{Entry};

    ghost words: { Self → List ℕ };

    ghost guard: { Self → Option Guard };

    // no store was made since an entry was counted
    ghost clean: { Self → Bool };

    // the store of a word to a place
    ghost allows: { Option Guard → List ℕ → ℕ → ℕ → Type 0 };

    // one more entry, by the place of the count
    ghost counts: { Option Guard → List ℕ → ℕ → Entry → Type 0 };

    /// The word at a place.
    fn get(&mut self, i: u32) -> u64
        requires { i < length (words self.old) }
        ensures value { result ≡ slice_index (words self.old) i }
        ensures words { words self.new ≡ words self.old }
        ensures clean { clean self.new ≡ clean self.old }
        ensures guard { guard self.new ≡ guard self.old };

    /// Stores a word at a place.
    fn set(&mut self, i: u32, w: u64)
        requires place { i < length (words self.old) }
        requires allowed { allows (guard self.old) (words self.old) i w }
        ensures words { words self.new ≡ slice_set (words self.old) i w }
        ensures guard { guard self.new ≡ guard self.old };

    /// Counts an entry: raises the count, which is the word at a place, by one.
    fn commit(&mut self, i: u32, entry: &Entry)
        requires place { i < length (words self.old) }
        requires room { slice_index (words self.old) i < ENTRY_LIMIT }
        requires allowed { counts (guard self.old) (words self.old) i entry.now }
        ensures words { words self.new
            ≡ slice_set (words self.old) i (slice_index (words self.old) i + 1) }
        ensures clean { clean self.new ≡ true }
        ensures guard { guard self.new ≡ guard_after (guard self.old) (words self.new) entry.now };
}

/// Words of one owner, without a guard, which allow every store.
#[derive(Drop)]
pub struct Plain {
    words: Vec<u64>,
}

impl Model for Plain {
    ghost use Rattle.std.specs.Prelude.{List, ℕ};

    ghost Value = { List ℕ };

    ghost view = { λ a. a.words.items };
}

impl Plain {
    /// As many words, each of them 0.
    pub fn new(alloc: Global, len: u32) -> Result<Self, NoMemory>
        ensures { IfOk result (λ plain. plain ≡ replicate len 0) }
    {
        Ok(Plain {
            words: vec![in alloc; 0; len as usize]?,
        })
    }

    /// The words.
    pub fn as_slice(&self) -> &[u64]
        ensures { result.now ≡ self.now }
    {
        self.words.as_slice()
    }
}

impl Words for Plain {
    ghost use Rattle.std.specs.Prelude.{None, true};

    ghost words = { λ a. a };

    ghost guard = { λ _. None };

    ghost clean = { λ _. true };

    ghost allows = { λ _ _ _ _. Unit {0} };

    ghost counts = { λ _ _ _ _. Unit {0} };

    fn get(&mut self, i: u32) -> u64 {
        self.words[i as usize]
    }

    fn set(&mut self, i: u32, w: u64) {
        self.words[i as usize] = w;
    }

    fn commit(&mut self, i: u32, _entry: &Entry) {
        self.words[i as usize] += 1;
    }
}
