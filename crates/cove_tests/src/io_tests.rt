use cove_base::{Bytes, NoMemory, Turns};
use cove_io::{
    Failed, MemSink, MemSource, NullSink, ReadError, ReadSource, Sink, SureSource, WriteSink,
    read_all, write_all,
};
use std::alloc::Global;
use std::io;
use std::io::{ErrorKind, Read, Write};
use std::test::Fail;

// A device that fails so many times, and then works: it gives no byte, and takes all.
#[derive(Drop)]
struct Failing {
    failures: u8,
}

impl Failing {
    fn fault(&mut self) -> io::Result<()> {
        if self.failures == 0 {
            return Ok(());
        }
        self.failures -= 1;
        Err(io::Error::from(ErrorKind::Other))
    }
}

impl Read for Failing {
    fn read(&mut self, _buf: &mut [u8]) -> io::Result<usize> {
        self.fault()?;
        Ok(0)
    }
}

impl Write for Failing {
    fn write(&mut self, buf: &[u8]) -> io::Result<usize> {
        self.fault()?;
        Ok(buf.len())
    }

    fn flush(&mut self) -> io::Result<()> {
        self.fault()
    }
}

fn bytes_of(alloc: Global, items: &[u8]) -> Result<Bytes, NoMemory> {
    let mut bytes = Bytes::new(alloc);
    bytes.extend(items)?;
    Ok(bytes)
}

fn calls_of(alloc: Global, items: &[u32]) -> Result<Turns, NoMemory> {
    let mut calls = Turns::new(alloc);
    calls.extend(items)?;
    Ok(calls)
}

#[test]
fn three_bytes_are_read_up_to_the_limit(rt: HostRuntime) -> Result<(), Fail> {
    let alloc = rt.alloc();
    let table = [
        (0, Err(ReadError::TooLong)),
        (2, Err(ReadError::TooLong)),
        (3, Ok(3)),
        (4, Ok(3)),
    ];
    for (limit, expected) in table {
        let mut source = SureSource::new(bytes_of(alloc, b"abc")?);
        let read = read_all(alloc, &mut source, limit).map(|bytes| bytes.len());
        assert_eq!(rt; read, expected);
    }
    Ok(())
}

#[test]
fn a_source_that_fails_at_its_first_read(rt: HostRuntime) -> Result<(), Fail> {
    let alloc = rt.alloc();
    let mut source = MemSource::new(bytes_of(alloc, b"abc")?, calls_of(alloc, &[0])?);
    let first = read_all(alloc, &mut source, 9).map(|bytes| bytes.len());
    assert_eq!(rt; first, Err(ReadError::Failed));
    let second = read_all(alloc, &mut source, 9)?;
    assert_eq!(rt; second.as_slice(), b"abc".as_slice());
    Ok(())
}

#[test]
fn a_sink_that_fails_at_its_second_write(rt: HostRuntime) -> Result<(), Fail> {
    let alloc = rt.alloc();
    let mut sink = MemSink::new(alloc, 16, calls_of(alloc, &[1])?)?;
    assert_eq!(rt; write_all(&mut sink, b"first"), Ok(()));
    assert_eq!(rt; write_all(&mut sink, b"second"), Err(Failed));
    assert_eq!(rt; sink.as_slice(), b"first".as_slice());
    Ok(())
}

#[test]
fn a_full_sink_holds_a_front(rt: HostRuntime) -> Result<(), Fail> {
    let alloc = rt.alloc();
    let mut sink = MemSink::new(alloc, 4, Turns::new(alloc))?;
    assert_eq!(rt; write_all(&mut sink, b"abcdef"), Err(Failed));
    assert_eq!(rt; sink.as_slice(), b"abcd".as_slice());
    assert_eq!(rt; sink.write(b""), Ok(0));
    assert_eq!(rt; write_all(&mut NullSink, b"abcdef"), Ok(()));
    Ok(())
}

#[test]
fn readers_and_writers_of_std(rt: HostRuntime) -> Result<(), Fail> {
    let alloc = rt.alloc();
    let mut source = ReadSource::new(b"abc".as_slice());
    let read = read_all(alloc, &mut source, 9)?;
    assert_eq!(rt; read.as_slice(), b"abc".as_slice());

    let mut room = [0u8; 4];
    {
        let mut sink = WriteSink::new(room.as_mut_slice());
        assert_eq!(rt; write_all(&mut sink, b"ab"), Ok(()));
        assert_eq!(rt; write_all(&mut sink, b"cde"), Err(Failed));
        assert_eq!(rt; sink.flush(), Ok(()));
    }
    assert_eq!(rt; room, *b"abcd");
    Ok(())
}

#[test]
fn a_fault_shows_and_the_next_call_works(rt: HostRuntime) -> Result<(), Fail> {
    let mut source = ReadSource::new(Failing { failures: 1 });
    for expected in [Err(ReadError::Failed), Ok(0)] {
        let read = read_all(rt.alloc(), &mut source, 9).map(|bytes| bytes.len());
        assert_eq!(rt; read, expected);
    }
    let mut sink = WriteSink::new(Failing { failures: 1 });
    for expected in [Err(Failed), Ok(())] {
        assert_eq!(rt; write_all(&mut sink, b"ab"), expected);
    }
    let mut sink = WriteSink::new(Failing { failures: 1 });
    for expected in [Err(Failed), Ok(())] {
        assert_eq!(rt; sink.flush(), expected);
    }
    Ok(())
}
