ghost use Rattle.std.specs.Prelude.{◌≡◌, ℕ, ◌<◌, ◌≤◌, List, Option, length, take, IfOk, OnOk, OnErr};
ghost use Rattle.std.specs.Io.KnownBytes.{Appends, Consumes, IsAtEnd, Keeps};
ghost use Rattle.cove_io.specs.Ends.{Rose};

/// A read or a write met a fault.
#[derive(Clone, Copy, Debug, PartialEq, Eq)]
pub struct Failed;

/// Where bytes come from.
pub trait Source {
    /// The bytes that it has left, where it tells them.
    ghost left: { Self → Option (List ℕ) };

    /// How many faults it met. The count stands still at u64's last value.
    ghost count: { Self → ℕ };

    /// Reads into the buffer's front, and answers how many bytes. No byte for a buffer that has room is the end.
    fn read(&mut self, buf: &mut [u8]) -> Result<usize, Failed>
        ensures count { count self.old ≤ count self.new }
        ensures clean { OnOk result (count self.new ≡ count self.old) }
        ensures failed { OnErr result (Rose (count self.old) (count self.new)) }
        ensures nothing_lost { OnErr result (Keeps (left self.old) (left self.new)) }
        ensures within { IfOk result (λ n. n ≤ length buf.new) }
        ensures bytes { IfOk result (λ n. Consumes (left self.old) (left self.new) (take n buf.new)) }
        ensures end { IfOk result (λ n. n ≡ 0 → 0 < length buf.new → IsAtEnd (left self.new)) };
}

/// Where bytes go.
pub trait Sink {
    /// The bytes that it took, where it tells them.
    ghost taken: { Self → Option (List ℕ) };

    /// How many faults it met. The count stands still at u64's last value.
    ghost count: { Self → ℕ };

    /// Takes bytes from the piece's front, and answers how many: of a piece that is not empty, one at least.
    fn write(&mut self, piece: &[u8]) -> Result<usize, Failed>
        ensures count { count self.old ≤ count self.new }
        ensures clean { OnOk result (count self.new ≡ count self.old) }
        ensures failed { OnErr result (Rose (count self.old) (count self.new)) }
        ensures nothing_taken { OnErr result (Keeps (taken self.old) (taken self.new)) }
        ensures within { IfOk result (λ n. n ≤ length piece.now) }
        ensures moves { IfOk result (λ n. 0 < length piece.now → 0 < n) }
        ensures bytes { IfOk result (λ n. Appends (taken self.old) (taken self.new) (take n piece.now)) };
}
