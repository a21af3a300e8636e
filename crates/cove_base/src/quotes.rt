ghost use Rattle.std.specs.Prelude.{◌≡◌, ◌<◌, ◌≤◌, ◌++◌, [], ◌∷◌, length};

use crate::limits::QUOTE_LIMIT;
use std::marker::Model;

/// The bytes of a piece of evidence, in a buffer of fixed size.
#[derive(Drop)]
pub struct Quote {
    bytes: [u8; QUOTE_LIMIT],
    len: usize,
}

impl Model for Quote {
    ghost use Rattle.std.specs.Prelude.{List, ℕ, ◌≤◌, take};
    ghost use Rattle.cove_base.specs.declared.limits.TheConstants.{QUOTE_LIMIT};

    ghost Value = { List ℕ };

    ghost view = { λ a. take a.len a.bytes };

    ghost invariant = { λ a. a.len ≤ QUOTE_LIMIT };
}

impl Quote {
    /// An empty quote.
    pub fn new() -> Self
        ensures { result ≡ [] }
    {
        Quote {
            bytes: [0; QUOTE_LIMIT],
            len: 0,
        }
    }

    /// Appends a byte.
    pub fn push(&mut self, byte: u8)
        requires { length self.old < QUOTE_LIMIT }
        ensures { self.new ≡ self.old ++ byte ∷ [] }
    {
        self.bytes[self.len] = byte;
        self.len += 1;
    }

    /// The bytes.
    pub fn as_slice(&self) -> &[u8]
        ensures bytes { result.now ≡ self.now }
        ensures fits { length result.now ≤ QUOTE_LIMIT }
    {
        &self.bytes[..self.len]
    }
}
