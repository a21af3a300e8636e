ghost use Rattle.std.specs.Prelude.{◌≡◌, ◌+◌, ◌<◌, ◌≤◌, ◌^◌, ◌↔◌, OnOk, OnErr, IfOk, IfErr, IfSome, IfNone, IsTrue, length, ℕ};
ghost use Rattle.cove_base.specs.Places.{epoch_word, hart_word, tvm_word};
ghost use Rattle.cove_base.specs.Stores.{stored, AllAllowed};
ghost use Rattle.cove_base.specs.Unchanged.{Unchanged};
ghost use Rattle.cove_fence.specs.TvmFences.{number_place, seat_place, tvm_number, IsInsideBelow, AreInsideFrom, HasPassed, fence_stores};

use cove_base::{ENTRY_LIMIT, HartId, TVM_LIMIT, TvmId, Words};
use std::marker::Model;

/// The places of the TVMs' numbers, and of the words that say where the harts are.
#[derive(Clone, Copy)]
pub struct TvmEpochs {
    first: u32,
    harts: u8,
}

impl Model for TvmEpochs {
    ghost use Rattle.std.specs.Prelude.{◌<◌, ◌^◌};
    ghost use Rattle.cove_fence.specs.Fences.{FenceWords};
    ghost use Rattle.cove_fence.specs.TvmFences.{seat_place};

    ghost Value = { FenceWords };

    ghost view = { λ a. record { first = a.first; harts = a.harts } };

    ghost invariant = { λ a. seat_place (record { first = a.first; harts = a.harts }) a.harts < 2 ^ 32 };

    ghost inverse = { λ a. record { first = a.first; harts = a.harts } };
}

impl TvmEpochs {
    /// The places from that of the global epoch on.
    pub fn new(first: u32, harts: u8) -> Self
        requires places { seat_place (record { first = first; harts = harts }) harts < 2 ^ 32 }
        ensures first { result.first ≡ first }
        ensures harts { result.harts ≡ harts }
    {
        TvmEpochs { first, harts }
    }

    /// Begins a fence of a TVM and gives its new number, or the lowest hart that is still inside since before the
    /// last one.
    pub fn begin<W: Words>(&self, w: &mut W, t: TvmId) -> Result<u64, HartId>
        requires places { seat_place self.now self.now.harts ≤ length (W.words w.old) }
        requires low { 1 ≤ t.0 }
        requires high { t.0 ≤ TVM_LIMIT }
        requires room { tvm_number self.now (W.words w.old) t.0 < ENTRY_LIMIT }
        requires allowed { AreInsideFrom self.now (W.words w.old) t.0 (tvm_number self.now (W.words w.old) t.0) self.now.harts
            → AllAllowed (W.allows (W.guard w.old)) (W.words w.old) (fence_stores self.now (W.words w.old) t.0) }
        ensures late { IfErr result (λ k.
            IsInsideBelow self.now (W.words w.old) t.0 (tvm_number self.now (W.words w.old) t.0) k.0) }
        ensures lowest { IfErr result (λ k.
            AreInsideFrom self.now (W.words w.old) t.0 (tvm_number self.now (W.words w.old) t.0) k.0) }
        ensures left { OnOk result
            (AreInsideFrom self.now (W.words w.old) t.0 (tvm_number self.now (W.words w.old) t.0) self.now.harts) }
        ensures number { IfOk result (λ n. n ≡ tvm_number self.now (W.words w.old) t.0 + 1) }
        ensures stores { OnOk result
            (W.words w.new ≡ stored (W.words w.old) (fence_stores self.now (W.words w.old) t.0)) }
        ensures words { OnErr result (W.words w.new ≡ W.words w.old) }
        ensures clean { OnErr result (W.clean w.new ≡ W.clean w.old) }
        ensures guard { W.guard w.new ≡ W.guard w.old }
    {
        let last = self.current(w, t);
        if let Some(k) = self.inside_below(w, t, last) {
            return Err(k);
        }
        let number = last + 1;
        w.set(self.number_place(t), number);
        Ok(number)
    }

    /// Whether a fence of a TVM began after the TVM had a number, and every hart that was inside then has left.
    pub fn passed<W: Words>(&self, w: &mut W, t: TvmId, since: u64) -> bool
        requires places { seat_place self.now self.now.harts ≤ length (W.words w.old) }
        requires low { 1 ≤ t.0 }
        requires high { t.0 ≤ TVM_LIMIT }
        ensures passed { IsTrue result ↔ HasPassed self.now (W.words w.old) t.0 since }
        ensures unchanged { Unchanged W.words W.clean W.guard w.old w.new }
    {
        if self.current(w, t) <= since {
            return false;
        }
        self.inside_below(w, t, since + 1).is_none()
    }

    /// The number of a TVM: how many fences of it began.
    pub fn current<W: Words>(&self, w: &mut W, t: TvmId) -> u64
        requires places { seat_place self.now self.now.harts ≤ length (W.words w.old) }
        requires low { 1 ≤ t.0 }
        requires high { t.0 ≤ TVM_LIMIT }
        ensures value { result ≡ tvm_number self.now (W.words w.old) t.0 }
        ensures unchanged { Unchanged W.words W.clean W.guard w.old w.new }
    {
        w.get(self.number_place(t))
    }

    fn number_place(&self, t: TvmId) -> u32
        requires { t.0 ≤ TVM_LIMIT }
        ensures { result ≡ number_place self.now t.0 }
    {
        self.first + 1 + self.harts as u32 + t.0
    }

    fn seat_place(&self, h: HartId) -> u32
        requires { h.0 < self.now.harts }
        ensures { result ≡ seat_place self.now h.0 }
    {
        self.first + 2 + TVM_LIMIT + self.harts as u32 + h.0 as u32
    }

    // The lowest hart that is inside a TVM and entered with a lower number.
    fn inside_below<W: Words>(&self, w: &mut W, t: TvmId, below: u64) -> Option<HartId>
        requires { seat_place self.now self.now.harts ≤ length (W.words w.old) }
        ensures inside { IfSome result (λ k. IsInsideBelow self.now (W.words w.old) t.0 below k.0) }
        ensures lowest { IfSome result (λ k. AreInsideFrom self.now (W.words w.old) t.0 below k.0) }
        ensures none { IfNone result (AreInsideFrom self.now (W.words w.old) t.0 below self.now.harts) }
        ensures unchanged { Unchanged W.words W.clean W.guard w.old w.new }
    {
        for k in 0..self.harts {
            let seat = w.get(self.seat_place(HartId(k)));
            if seat / 0x1_0000_0000 == t.0 as u64 && seat % 0x1_0000_0000 < below {
                return Some(HartId(k));
            }
        }
        None
    }
}

/// The law of the places, which runs no code: behind the epoch of a board they are those of the board's TVMs and harts.
pub fn tvm_places_law()
    ensures number { (pages harts t : ℕ)
        → number_place (record { first = epoch_word pages; harts = harts }) t ≡ tvm_word pages harts t }
    ensures seat { (pages harts h : ℕ)
        → seat_place (record { first = epoch_word pages; harts = harts }) h ≡ hart_word pages harts h }
{}
