//! The harts of a board, before any entry.

ghost use Rattle.std.specs.Prelude.{◌≡◌, ◌<◌, ◌↔◌, IfOk, IsSome, length, slice_get};
ghost use Rattle.std.specs.Option.{option_copied};
ghost use Rattle.cove_core.specs.Seats.{AreNew};

use cove_base::{HartId, NoMemory, Script};
use cove_hart::HartState;
use std::alloc::Global;
use std::marker::Model;

/// The harts of a board, in the order of their numbers.
#[derive(Drop)]
pub struct Harts {
    pub(crate) harts: Vec<HartState>,
}

impl Model for Harts {
    ghost use Rattle.std.specs.Prelude.{List};
    ghost use Rattle.cove_hart.specs.declared.states.HartState.{HartState};

    ghost Value = { List HartState };

    ghost view = { λ a. a.harts.items };
}

impl Harts {
    /// The harts of a script's board, each of which has ended no line.
    pub fn new(alloc: Global, script: &Script) -> Result<Self, NoMemory>
        ensures { IfOk result (λ harts. AreNew script.now script.now.harts harts) }
    {
        let count = script.harts;
        let mut harts = Vec::with_capacity(alloc, count as usize)?;
        for k in 0..count {
            harts.push(HartState::new(alloc, HartId(k), script)?)?;
        }
        Ok(Harts { harts })
    }

    /// The number of harts.
    pub fn len(&self) -> usize
        ensures { result ≡ length self.now }
    {
        self.harts.len()
    }

    /// The hart with a number.
    pub fn get(&self, hart: usize) -> Option<&HartState>
        ensures hart { option_copied result ≡ slice_get self.now hart }
        ensures found { IsSome result ↔ (hart < length self.now) }
    {
        self.harts.as_slice().get(hart)
    }

    /// The harts as a list.
    pub fn into_vec(self) -> Vec<HartState>
        ensures { result.items ≡ self }
    {
        self.harts
    }
}
