ghost use Rattle.std.specs.Prelude.{◌≡◌, ◌+◌, ◌<◌, ◌≤◌, [], ◌∷◌, ◌++◌, length};

use arrayvec::ArrayVec;
use std::marker::Model;

/// Bytes of a line buffer, at most.
pub const LINE_LIMIT: usize = 2048;

/// A line that is being written, in a buffer of fixed size.
#[derive(Drop)]
pub struct LineBuf {
    bytes: ArrayVec<u8, LINE_LIMIT>,
}

impl Model for LineBuf {
    ghost use Rattle.std.specs.Prelude.{ℕ, List};

    ghost Value = { List ℕ };

    ghost view = { λ a. a.bytes.items };
}

impl LineBuf {
    /// An empty line.
    pub fn new() -> Self
        ensures { result ≡ [] }
    {
        LineBuf {
            bytes: ArrayVec::new(),
        }
    }

    /// Empties the line.
    pub fn clear(&mut self)
        ensures { self.new ≡ [] }
    {
        self.bytes.clear();
    }

    /// The bytes of the line.
    pub fn as_slice(&self) -> &[u8]
        ensures bytes { result.now ≡ self.now }
        ensures fits { length result.now ≤ LINE_LIMIT }
    {
        self.bytes.as_slice()
    }

    /// Appends a byte.
    pub fn push(&mut self, byte: u8)
        requires { length self.old < LINE_LIMIT }
        ensures { self.new ≡ self.old ++ byte ∷ [] }
    {
        self.bytes.push(byte);
    }

    /// Appends bytes.
    pub fn put_bytes(&mut self, bytes: &[u8])
        requires { length self.old + length bytes.now ≤ LINE_LIMIT }
        ensures { self.new ≡ self.old ++ bytes.now }
    {
        match self.bytes.try_extend_from_slice(bytes) {
            Ok(()) => {}
            Err(_) => unreachable!(),
        }
    }
}
