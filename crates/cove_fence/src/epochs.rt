ghost use Rattle.std.specs.Prelude.{◌≡◌, ◌+◌, ◌<◌, ◌≤◌, OnOk, OnErr, IfOk, IfErr, IfSome, IfNone, ℕ, ◌^◌, length};
ghost use Rattle.cove_base.specs.Stores.{stored, AllAllowed};
ghost use Rattle.cove_base.specs.Unchanged.{Unchanged};
ghost use Rattle.cove_fence.specs.Fences.{epoch, answered, answered_place, IsBehind, HaveAnswered, begin_stores, answer_stores};

use cove_base::{ENTRY_LIMIT, HART_LIMIT, HartId, Words};
use std::marker::Model;

/// The places of the global epoch and of the harts' answered numbers.
#[derive(Clone, Copy)]
pub struct Epochs {
    first: u32,
    harts: u8,
}

impl Model for Epochs {
    ghost use Rattle.std.specs.Prelude.{◌≤◌, ◌<◌, ◌+◌, ◌^◌};
    ghost use Rattle.cove_base.specs.declared.limits.TheConstants.{HART_LIMIT};
    ghost use Rattle.cove_fence.specs.Fences.{FenceWords};

    ghost Value = { FenceWords };

    ghost view = { λ a. record { first = a.first; harts = a.harts } };

    ghost invariant = { λ a. (1 ≤ a.harts) × (a.harts ≤ HART_LIMIT) × (a.first + a.harts < 2 ^ 32) };

    ghost inverse = { λ a. record { first = a.first; harts = a.harts } };
}

impl Epochs {
    /// The places from the first on: the epoch, and then an answered number for each hart.
    pub fn new(first: u32, harts: u8) -> Self
        requires some { 1 ≤ harts }
        requires limit { harts ≤ HART_LIMIT }
        requires places { first + harts < 2 ^ 32 }
        ensures first { result.first ≡ first }
        ensures harts { result.harts ≡ harts }
    {
        Epochs { first, harts }
    }

    /// Begins a global fence of a hart's and gives the new epoch, or the lowest hart that hasn't answered the
    /// last one.
    pub fn begin<W: Words>(&self, w: &mut W, h: HartId) -> Result<u64, HartId>
        requires places { self.now.first + self.now.harts < length (W.words w.old) }
        requires hart { h.0 < self.now.harts }
        requires room { epoch self.now (W.words w.old) < ENTRY_LIMIT }
        requires allowed { HaveAnswered self.now (W.words w.old) self.now.harts
            → AllAllowed (W.allows (W.guard w.old)) (W.words w.old) (begin_stores self.now (W.words w.old) h.0) }
        ensures behind { IfErr result (λ k. IsBehind self.now (W.words w.old) k.0) }
        ensures lowest { IfErr result (λ k. HaveAnswered self.now (W.words w.old) k.0) }
        ensures answered { OnOk result (HaveAnswered self.now (W.words w.old) self.now.harts) }
        ensures epoch { IfOk result (λ e. e ≡ epoch self.now (W.words w.old) + 1) }
        ensures stores { OnOk result
            (W.words w.new ≡ stored (W.words w.old) (begin_stores self.now (W.words w.old) h.0)) }
        ensures words { OnErr result (W.words w.new ≡ W.words w.old) }
        ensures clean { OnErr result (W.clean w.new ≡ W.clean w.old) }
        ensures guard { W.guard w.new ≡ W.guard w.old }
    {
        if let Some(k) = self.behind(w) {
            return Err(k);
        }
        let epoch = w.get(self.first) + 1;
        w.set(self.first, epoch);
        w.set(self.place(h), epoch);
        Ok(epoch)
    }

    /// Answers the last global fence for a hart.
    pub fn answer<W: Words>(&self, w: &mut W, h: HartId)
        requires places { self.now.first + self.now.harts < length (W.words w.old) }
        requires hart { h.0 < self.now.harts }
        requires allowed { AllAllowed (W.allows (W.guard w.old)) (W.words w.old)
            (answer_stores self.now (W.words w.old) h.0) }
        ensures stores { W.words w.new
            ≡ stored (W.words w.old) (answer_stores self.now (W.words w.old) h.0) }
        ensures guard { W.guard w.new ≡ W.guard w.old }
    {
        let epoch = w.get(self.first);
        w.set(self.place(h), epoch);
    }

    /// The least number that a hart has answered.
    pub fn floor<W: Words>(&self, w: &mut W) -> u64
        requires { self.now.first + self.now.harts < length (W.words w.old) }
        ensures least { (k : ℕ) → k < self.now.harts → result ≤ answered self.now (W.words w.old) k }
        ensures answered { (k : ℕ) × (k < self.now.harts) × (result ≡ answered self.now (W.words w.old) k) }
        ensures unchanged { Unchanged W.words W.clean W.guard w.old w.new }
    {
        let harts = self.harts;
        let mut least = w.get(self.place(HartId(0)));
        for k in 1..harts {
            least = least.min(w.get(self.place(HartId(k))));
        }
        least
    }

    /// The epoch: how many global fences began.
    pub fn current<W: Words>(&self, w: &mut W) -> u64
        requires { self.now.first < length (W.words w.old) }
        ensures value { result ≡ epoch self.now (W.words w.old) }
        ensures unchanged { Unchanged W.words W.clean W.guard w.old w.new }
    {
        w.get(self.first)
    }

    fn place(&self, h: HartId) -> u32
        requires { h.0 < self.now.harts }
        ensures { result ≡ answered_place self.now h.0 }
    {
        self.first + 1 + h.0 as u32
    }

    fn behind<W: Words>(&self, w: &mut W) -> Option<HartId>
        requires { self.now.first + self.now.harts < length (W.words w.old) }
        ensures behind { IfSome result (λ k. IsBehind self.now (W.words w.old) k.0) }
        ensures lowest { IfSome result (λ k. HaveAnswered self.now (W.words w.old) k.0) }
        ensures answered { IfNone result (HaveAnswered self.now (W.words w.old) self.now.harts) }
        ensures unchanged { Unchanged W.words W.clean W.guard w.old w.new }
    {
        let epoch = w.get(self.first);
        for k in 0..self.harts {
            if w.get(self.place(HartId(k))) < epoch {
                return Some(HartId(k));
            }
        }
        None
    }
}
