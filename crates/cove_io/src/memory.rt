ghost use Rattle.std.specs.Prelude.{◌≡◌, ◌+◌, ◌<◌, ◌≤◌, ◌^◌, ◌++◌, ◌↔◌, [], length, min, take, drop, Contains, IsTrue, IsOk, IsErr, IfOk, OnErr};
ghost use Rattle.cove_io.specs.Memory.{one_more, fitting, Refuses};

use crate::ends::{Failed, Sink, Source};
use cove_base::{Bytes, NoMemory, Turns};
use std::alloc::Global;
use std::marker::Model;

/// A source that tells its bytes, and fails at the calls that are listed, counted from 0.
#[derive(Drop)]
pub struct MemSource {
    source: SureSource,
    fails: Turns,
    calls: u64,
    faults: u64,
}

/// A source that tells its bytes, and never fails.
#[derive(Drop)]
pub struct SureSource {
    bytes: Bytes,
    at: usize,
}

/// A sink that tells its bytes, of which it takes no more than it has room for. A write of a piece that is not
/// empty fails at the calls that are listed, counted from 0, and where the sink is full.
#[derive(Drop)]
pub struct MemSink {
    bytes: Vec<u8>,
    room: usize,
    fails: Turns,
    calls: u64,
    faults: u64,
}

/// A sink that takes all, tells nothing, and never fails.
#[derive(Clone, Copy, Debug)]
pub struct NullSink;

impl Model for SureSource {
    ghost use Rattle.std.specs.Prelude.{List, ℕ, ◌≤◌, length, drop};

    ghost Value = { List ℕ };

    ghost view = { λ a. drop a.at a.bytes };

    ghost invariant = { λ a. a.at ≤ length a.bytes };
}

impl SureSource {
    /// A source of these bytes.
    pub fn new(bytes: Bytes) -> Self
        ensures { result ≡ bytes }
    {
        SureSource { bytes, at: 0 }
    }

    // Moves bytes to the buffer's front, as many as there are and as fit.
    fn take_into(&mut self, buf: &mut [u8]) -> usize
        ensures number { result ≡ min (length buf.new) (length self.old) }
        ensures bytes { take result buf.new ≡ take result self.old }
        ensures rest { self.new ≡ drop result self.old }
    {
        let rest = &self.bytes.as_slice()[self.at..];
        let n = buf.len().min(rest.len());
        buf[..n].copy_from_slice(&rest[..n]);
        self.at += n;
        n
    }
}

impl Source for SureSource {
    ghost use Rattle.std.specs.Prelude.{Some};

    ghost left = { λ s. Some s };

    ghost count = { λ _. 0 };

    fn read(&mut self, buf: &mut [u8]) -> Result<usize, Failed>
        ensures sure { IsOk result }
        ensures number { IfOk result (λ n. n ≡ min (length buf.new) (length self.old)) }
        ensures bytes { IfOk result (λ n. take n buf.new ≡ take n self.old) }
        ensures rest { IfOk result (λ n. self.new ≡ drop n self.old) }
    {
        Ok(self.take_into(buf))
    }
}

impl Model for MemSource {
    ghost use Rattle.std.specs.Prelude.{◌^◌, ◌≤◌};
    ghost use Rattle.cove_io.specs.Memory.{MemSourceValue};

    ghost Value = { MemSourceValue };

    ghost view = { λ a. record {
      left = a.source;
      fails = a.fails;
      calls = a.calls;
      faults = a.faults;
    } };

    ghost invariant = { λ a. (a.faults ≤ a.calls) × (a.faults ≤ 2 ^ 32) };
}

impl MemSource {
    /// A source of these bytes, which had no call yet.
    pub fn new(bytes: Bytes, fails: Turns) -> Self
        ensures { result ≡ record { left = bytes; fails = fails; calls = 0; faults = 0 } }
    {
        MemSource {
            source: SureSource::new(bytes),
            fails,
            calls: 0,
            faults: 0,
        }
    }
}

impl Source for MemSource {
    ghost use Rattle.std.specs.Prelude.{Some};

    ghost left = { λ s. Some s.left };

    ghost count = { λ s. s.faults };

    fn read(&mut self, buf: &mut [u8]) -> Result<usize, Failed>
        ensures fails { IsErr result ↔ Contains self.old.fails self.old.calls }
        ensures fault { OnErr result (self.new ≡ record self.old {
          calls = one_more self.old.calls;
          faults = self.old.faults + 1;
        }) }
        ensures few_faults { self.new.faults ≤ 2 ^ 32 }

        ensures number { IfOk result (λ n. n ≡ min (length buf.new) (length self.old.left)) }
        ensures bytes { IfOk result (λ n. take n buf.new ≡ take n self.old.left) }
        ensures rest { IfOk result (λ n. self.new ≡ record self.old {
          left = drop n self.old.left;
          calls = one_more self.old.calls;
        }) }
    {
        let fails = is_listed(&self.fails, self.calls);
        self.calls = self.calls.saturating_add(1);
        if fails {
            self.faults += 1;
            return Err(Failed);
        }
        Ok(self.source.take_into(buf))
    }
}

impl Model for MemSink {
    ghost use Rattle.std.specs.Prelude.{◌≤◌, length};
    ghost use Rattle.std.specs.Vec.{vec_capacity};
    ghost use Rattle.cove_io.specs.Memory.{MemSinkValue};

    ghost Value = { MemSinkValue };

    ghost view = { λ a. record {
      taken = a.bytes.items;
      room = a.room;
      fails = a.fails;
      calls = a.calls;
      faults = a.faults;
    } };

    ghost invariant = { λ a. (a.room ≤ vec_capacity a.bytes) × (length a.bytes.items ≤ a.room) };
}

impl MemSink {
    /// An empty sink, which takes the memory for `room` bytes here and no more later.
    pub fn new(alloc: Global, room: usize, fails: Turns) -> Result<Self, NoMemory>
        ensures { IfOk result (λ sink. sink ≡ record { taken = []; room = room; fails = fails; calls = 0; faults = 0 }) }
    {
        Ok(MemSink {
            bytes: Vec::with_capacity(alloc, room)?,
            room,
            fails,
            calls: 0,
            faults: 0,
        })
    }

    /// The bytes that it took.
    pub fn as_slice(&self) -> &[u8]
        ensures { result.now ≡ self.now.taken }
    {
        self.bytes.as_slice()
    }

    // Takes the part of the piece that fits.
    fn put(&mut self, piece: &[u8]) -> usize
        ensures number { result ≡ fitting self.old piece.now }
        ensures after { self.new ≡ record self.old { taken = self.old.taken ++ take result piece.now } }
    {
        let n = piece.len().min(self.room - self.bytes.len());
        match self.bytes.extend_from_slice(&piece[..n]) {
            Ok(()) => n,
            Err(_) => unreachable!(),
        }
    }
}

impl Sink for MemSink {
    ghost use Rattle.std.specs.Prelude.{Some};

    ghost taken = { λ s. Some s.taken };

    ghost count = { λ s. s.faults };

    fn write(&mut self, piece: &[u8]) -> Result<usize, Failed>
        ensures fails { IsErr result ↔ Refuses self.old piece.now }
        ensures fault { OnErr result (self.new ≡ record self.old {
          calls = one_more self.old.calls;
          faults = one_more self.old.faults;
        }) }
        ensures count { self.old.faults ≤ self.new.faults }

        ensures number { IfOk result (λ n. n ≡ fitting self.old piece.now) }
        ensures bytes { IfOk result (λ n. self.new ≡ record self.old {
          taken = self.old.taken ++ take n piece.now;
          calls = one_more self.old.calls;
        }) }
    {
        let fails = is_listed(&self.fails, self.calls) || self.bytes.len() >= self.room;
        self.calls = self.calls.saturating_add(1);
        if fails && !piece.is_empty() {
            self.faults = self.faults.saturating_add(1);
            return Err(Failed);
        }
        Ok(self.put(piece))
    }
}

impl Sink for NullSink {
    ghost use Rattle.std.specs.Prelude.{None};

    ghost taken = { λ _. None };

    ghost count = { λ _. 0 };

    fn write(&mut self, piece: &[u8]) -> Result<usize, Failed>
        ensures all { result ≡ Ok (length piece.now) }
    {
        Ok(piece.len())
    }
}

// Whether the call with this number is one of those that are listed.
fn is_listed(calls: &Turns, call: u64) -> bool
    ensures listed { IsTrue result ↔ Contains calls.now call }
    ensures small { IsTrue result → call < 2 ^ 32 }
{
    calls
        .as_slice()
        .iter()
        .any(|listed| u64::from(*listed) == call)
}
