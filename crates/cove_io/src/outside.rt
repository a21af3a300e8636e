ghost use Rattle.std.specs.Prelude.{◌≡◌, ◌≤◌, OnOk, OnErr};
ghost use Rattle.std.specs.Io.KnownBytes.{Keeps};
ghost use Rattle.cove_io.specs.Ends.{Rose};
ghost use Rattle.cove_io.specs.Memory.{one_more};
ghost use Rattle.cove_io.specs.Outside.{reader_of, writer_of};

use crate::ends::{Failed, Sink, Source};
use std::io::{Read, Write};

/// A reader of std as a source. It tells the bytes that the reader tells: none, for standard input.
#[derive(Drop)]
pub struct ReadSource<R> {
    reader: R,
    faults: u64,
}

/// A writer of std as a sink. It tells the bytes that the writer tells: none, for standard output.
#[derive(Drop)]
pub struct WriteSink<W> {
    writer: W,
    faults: u64,
}

impl<R: Read> ReadSource<R> {
    /// A source that met no fault yet.
    pub fn new(reader: R) -> Self
        ensures reader { reader_of result ≡ reader }
        ensures count { ⟦<ReadSource<R> as Source>⟧.count result ≡ 0 }
    {
        ReadSource { reader, faults: 0 }
    }
}

impl<R: Read> Source for ReadSource<R> {
    ghost left = { λ s. R.remaining s.reader };

    ghost count = { λ s. s.faults };

    fn read(&mut self, buf: &mut [u8]) -> Result<usize, Failed> {
        match self.reader.read(buf) {
            Ok(n) => Ok(n),
            Err(_) => {
                self.faults = self.faults.saturating_add(1);
                Err(Failed)
            }
        }
    }
}

impl<W: Write> WriteSink<W> {
    /// A sink that met no fault yet.
    pub fn new(writer: W) -> Self
        ensures writer { writer_of result ≡ writer }
        ensures count { ⟦<WriteSink<W> as Sink>⟧.count result ≡ 0 }
    {
        WriteSink { writer, faults: 0 }
    }

    /// Hands on what the writer still holds back.
    pub fn flush(&mut self) -> Result<(), Failed>
        ensures count { ⟦<WriteSink<W> as Sink>⟧.count self.old ≤ ⟦<WriteSink<W> as Sink>⟧.count self.new }
        ensures clean { OnOk result
            (⟦<WriteSink<W> as Sink>⟧.count self.new ≡ ⟦<WriteSink<W> as Sink>⟧.count self.old) }
        ensures failed { OnErr result
            (Rose (⟦<WriteSink<W> as Sink>⟧.count self.old) (⟦<WriteSink<W> as Sink>⟧.count self.new)) }
        ensures taken { Keeps (⟦<WriteSink<W> as Sink>⟧.taken self.old) (⟦<WriteSink<W> as Sink>⟧.taken self.new) }
    {
        if self.writer.flush().is_err() {
            return Err(self.fault());
        }
        Ok(())
    }

    // Counts a fault.
    fn fault(&mut self) -> Failed
        ensures one { self.new ≡ record self.old { faults = one_more self.old.faults } }
        ensures risen { self.old.faults ≤ self.new.faults }
    {
        self.faults = self.faults.saturating_add(1);
        Failed
    }
}

impl<W: Write> Sink for WriteSink<W> {
    ghost taken = { λ s. W.contents s.writer };

    ghost count = { λ s. s.faults };

    fn write(&mut self, piece: &[u8]) -> Result<usize, Failed> {
        match self.writer.write(piece) {
            Ok(0) if !piece.is_empty() => Err(self.fault()),
            Ok(n) => Ok(n),
            Err(_) => Err(self.fault()),
        }
    }
}
