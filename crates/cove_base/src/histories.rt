ghost use Rattle.std.specs.Prelude.{◌≡◌, ◌<◌, ◌≤◌, ◌++◌, [], ◌∷◌, length, IfOk, IsTrue, slice_get};
ghost use Rattle.cove_base.specs.CompactEntries.{event_of, quote_is_among};
ghost use Rattle.cove_base.specs.EventSizes.{are_sized};

use crate::compact::{CompactEntry, CompactEvent, apart, compact};
use crate::events::Entry;
use crate::limits::ENTRY_LIMIT;
use crate::numbers::{HartId, NoMemory};
use crate::quotes::Quote;
use crate::sizes::event_fits;
use std::alloc::Global;
use std::marker::Model;

/// The entries that were made, oldest first. All room is taken by `new`. The bytes of quotes stand in a list of their
/// own, so that an entry without one is small.
#[derive(Drop)]
pub struct History {
    entries: Vec<CompactEntry>,
    quotes: Vec<Quote>,
}

impl Model for History {
    ghost use Rattle.std.specs.Prelude.{List, map};
    ghost use Rattle.std.specs.Vec.{vec_capacity};
    ghost use Rattle.cove_base.specs.declared.events.Entry.{Entry};
    ghost use Rattle.cove_base.specs.CompactEntries.{entry_of, IsCompact};

    ghost Value = { List Entry };

    ghost view = { λ a. map (entry_of a.quotes.items) a.entries.items };

    ghost invariant = { λ a. IsCompact a.entries.items a.quotes.items (vec_capacity a.entries) (vec_capacity a.quotes) };
}

impl History {
    /// An empty history, with room for as many entries as a history may have.
    pub fn new(alloc: Global) -> Result<Self, NoMemory>
        ensures { IfOk result (λ history. history ≡ []) }
    {
        Ok(History {
            entries: Vec::with_capacity(alloc, ENTRY_LIMIT as usize)?,
            quotes: Vec::with_capacity(alloc, ENTRY_LIMIT as usize)?,
        })
    }

    /// The number of entries.
    pub fn len(&self) -> usize
        ensures number { result ≡ length self.now }
        ensures few { result ≤ ENTRY_LIMIT }
    {
        self.entries.len()
    }

    /// The entry at a place, from 0.
    pub fn get(&self, i: usize) -> Option<LentEntry<'_>>
        ensures { result ≡ slice_get self.now i }
    {
        let entry = self.entries.as_slice().get(i)?;
        Some(LentEntry {
            entry: *entry,
            quotes: self.quotes.as_slice(),
        })
    }

    /// The numbers of each entry have the bits of their types.
    pub fn entries_fit(&self)
        ensures { IsTrue (are_sized self.now) }
    {
        let _ = &self.entries;
    }

    /// Appends an entry, and takes no memory.
    pub fn push(&mut self, item: Entry)
        requires { length self.old < ENTRY_LIMIT }
        ensures { self.new ≡ self.old ++ item ∷ [] }
    {
        event_fits(&item.event);
        let event = compact(&mut self.quotes, item.event);
        self.entries.push_reserved(CompactEntry {
            hart: item.hart,
            event,
        });
    }
}

/// An entry that is lent: the bytes of its quote, if it has one, stay where they are.
#[derive(Drop)]
pub struct LentEntry<'a> {
    entry: CompactEntry,
    quotes: &'a [Quote],
}

impl<'a> Model for LentEntry<'a> {
    ghost use Rattle.std.specs.Prelude.{length, IsTrue};
    ghost use Rattle.cove_base.specs.declared.events.Entry.{Entry};
    ghost use Rattle.cove_base.specs.CompactEntries.{entry_of, quote_is_among};

    ghost Value = { Entry };

    ghost view = { λ a. entry_of a.quotes.now a.entry };

    ghost invariant = { λ a. IsTrue (quote_is_among (length a.quotes.now) a.entry.event) };
}

impl<'a> LentEntry<'a> {
    /// An entry, lent.
    pub fn of(entry: &'a Entry) -> Self
        ensures { result ≡ entry.now }
    {
        let (event, quotes) = apart(&entry.event);
        LentEntry {
            entry: CompactEntry {
                hart: entry.hart,
                event,
            },
            quotes,
        }
    }

    /// The hart that made it.
    pub fn hart(&self) -> HartId
        ensures { result ≡ self.now.hart }
    {
        self.entry.hart
    }

    /// Its event without the bytes of its quote, and the quotes among which they stand.
    pub fn event(&self) -> (&CompactEvent, &[Quote])
        ensures event { event_of result.1.now result.0.now ≡ self.now.event }
        ensures among { IsTrue (quote_is_among (length result.1.now) result.0.now) }
    {
        (&self.entry.event, self.quotes)
    }
}
