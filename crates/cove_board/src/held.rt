//! A held pass.

ghost use Rattle.std.specs.Prelude.{◌≡◌, ◌+◌, ◌^◌, ◌<◌, slice_index, true};
ghost use Rattle.cove_base.specs.Places.{all_words, count_word};
ghost use Rattle.cove_board.specs.Parts.{both, counted_monitor, counted_part, hart_alone, hart_of, left_part, monitor_alone, monitor_of, stored_monitor, stored_part};
ghost use Rattle.cove_board.specs.Passes.{IsHeld};
ghost use Rattle.cove_board.specs.Plays.{after_load};
ghost use Rattle.cove_model.specs.LawfulCounts.{IsCountable};
ghost use Rattle.cove_model.specs.LawfulStores.{IsLawful};

use crate::boards::Board;
use crate::passes::Pass;
use crate::views::{Both, Counts, Loads, Stores, View};
use atomic_table::Seat;
use cove_base::{Entry, Words};
use std::marker::Model;

/// A pass of a hart that carries the monitor's part too: its hart may store, while others walk.
pub struct Held<'a> {
    pub(crate) board: &'a Board,
    pub(crate) seat: Seat<Entry, View>,
}

impl<'a> Model for Held<'a> {
    ghost use Rattle.std.specs.Prelude.{◌≡◌, []};
    ghost use Rattle.cove_board.specs.Parts.{hart_of};
    ghost use Rattle.cove_board.specs.Passes.{IsHeld, PassValue};

    ghost Value = { PassValue };

    ghost view = { λ h. record { table = h.seat.table_id; part = h.seat.me.0 } };

    ghost invariant = { λ h. (h.seat.table_id ≡ h.board.now.table) × (h.seat.me.1 ≡ [])
        × ((hart_of h.seat.me.0).script ≡ h.board.now.script)
        × IsHeld (record { table = h.seat.table_id; part = h.seat.me.0 }) };
}

impl<'a> Held<'a> {
    /// Parts the two again, with no store left open. The hart has seen the history then.
    pub fn release(self) -> (Pass, Pass)
        requires { (monitor_of self.part).clean ≡ true }
        ensures kept { IsHeld self.entry }
        ensures hart { result.0 ≡ record { table = self.entry.table; part = hart_alone (left_part (monitor_of self.entry.part) (hart_of self.entry.part)) } }
        ensures monitor { result.1 ≡ record { table = self.entry.table; part = monitor_alone (monitor_of self.entry.part) } }
    {
        let Held { board, mut seat } = self;
        let monitor = board.table.shared.split_seat::<Both>(&mut seat);
        (Pass { seat }, Pass { seat: monitor })
    }
}

impl Board {
    // The word at a place, loaded under the lock.
    pub(crate) fn load(&self, seat: &mut Seat<Entry, View>, place: u32) -> u64
        requires table { seat.old.table_id ≡ self.now.table }
        requires carries { seat.old.me.0 ≡ both (monitor_of seat.old.me.0) (hart_of seat.old.me.0) }
        requires place { place < all_words self.now.script.pages self.now.script.harts }
        ensures word { result ≡ slice_index (monitor_of seat.old.me.0).now place }
        ensures table { seat.new.table_id ≡ seat.old.table_id }
        ensures parts { seat.new.me ≡ (after_load seat.old.me.0 place result, seat.old.me.1) }
    {
        self.table.shared.load::<Loads>(seat, place as usize)
    }

    // A lawful store.
    pub(crate) fn store(&self, seat: &mut Seat<Entry, View>, place: u32, word: u64)
        requires table { seat.old.table_id ≡ self.now.table }
        requires carries { seat.old.me.0 ≡ both (monitor_of seat.old.me.0) (hart_of seat.old.me.0) }
        requires place { place < all_words self.now.script.pages self.now.script.harts }
        requires lawful { IsLawful (monitor_of seat.old.me.0).script.pages (monitor_of seat.old.me.0).script.harts
            (hart_of seat.old.me.0).hart (monitor_of seat.old.me.0).old (monitor_of seat.old.me.0).now place word }
        ensures table { seat.new.table_id ≡ seat.old.table_id }
        ensures parts { seat.new.me
            ≡ (both (stored_monitor place word (monitor_of seat.old.me.0)) (stored_part place (hart_of seat.old.me.0)), seat.old.me.1) }
    {
        self.table
            .shared
            .store::<Stores>(seat, place as usize, word)
    }

    // The store of the count, for an entry.
    pub(crate) fn count(&self, seat: &mut Seat<Entry, View>, place: u32, count: u64, entry: &Entry)
        requires table { seat.old.table_id ≡ self.now.table }
        requires carries { seat.old.me.0 ≡ both (monitor_of seat.old.me.0) (hart_of seat.old.me.0) }
        requires place { place < all_words self.now.script.pages self.now.script.harts }
        requires is_count { place ≡ count_word (monitor_of seat.old.me.0).script.pages (monitor_of seat.old.me.0).script.harts }
        requires found { count ≡ slice_index (monitor_of seat.old.me.0).now place }
        requires room { count + 1 < 2 ^ 64 }
        requires countable { IsCountable (monitor_of seat.old.me.0).script (monitor_of seat.old.me.0).history
            (hart_of seat.old.me.0).hart (monitor_of seat.old.me.0).now entry.now }
        ensures table { seat.new.table_id ≡ seat.old.table_id }
        ensures parts { seat.new.me
            ≡ (
              both (counted_monitor entry.now (monitor_of seat.old.me.0))
                  (counted_part entry.now (monitor_of seat.old.me.0) (hart_of seat.old.me.0)),
              seat.old.me.1,
            ) }
    {
        self.table
            .shared
            .compare_exchange_with::<Counts>(seat, place as usize, count, count + 1, entry);
    }
}

impl<'a> Words for Held<'a> {
    ghost use Rattle.std.specs.Prelude.{Some};
    ghost use Rattle.cove_board.specs.Parts.{monitor_of};
    ghost use Rattle.cove_board.specs.Passes.{AllowsEntries, AllowsLawfulStores, guard_of};

    ghost words = { λ h. (monitor_of h.part).now };

    ghost guard = { λ h. Some (guard_of h) };

    ghost clean = { λ h. (monitor_of h.part).clean };

    ghost allows = { AllowsLawfulStores };

    ghost counts = { AllowsEntries };

    fn get(&mut self, i: u32) -> u64 {
        let board = self.board;
        board.load(&mut self.seat, i)
    }

    fn set(&mut self, i: u32, w: u64) {
        let board = self.board;
        board.store(&mut self.seat, i, w);
    }

    fn commit(&mut self, i: u32, entry: &Entry) {
        let board = self.board;
        let count = board.load(&mut self.seat, i);
        board.count(&mut self.seat, i, count, entry);
    }
}
