//! `tsm`: a TEE Security Manager over modelled harts. It hands its words, standard input and a buffered standard
//! output to the top call of `cove_run` whose command they name, which has the theorem, and ends with the status that it
//! answers.
#![tactic(auto)]

use cove_io::{Failed, ReadSource, WriteSink};
use cove_monitor::Hart;
use cove_run::{Gate, Place, USAGE, says_run, tsm_alone, tsm_threads};
use std::env;
use std::io::{self, BufWriter, ErrorKind};
use std::process::ExitCode;
use std::sync::Wait;
use std::thread::Threads;

/// Memory ran out before the first write.
const NO_MEMORY: u8 = 1;

/// The words name no command.
const BAD_WORDS: u8 = 2;

/// Standard output met a fault.
const SINK_FAULT: u8 = 6;

/// A gate that holds no hart.
#[derive(Drop)]
struct Open;

impl Gate for Open {
    fn pass(&self, _hart: &Hart, _place: Place) {}
}

fn main(rt: HostRuntime) -> ExitCode {
    let status = match run(&rt, &rt) {
        Ok(status) => status,
        Err(error) if error.kind() == ErrorKind::OutOfMemory => NO_MEMORY,
        // A word that is no text is none of the table's.
        Err(_) => BAD_WORDS,
    };
    if status == BAD_WORDS {
        let _ = eprintln!(&rt; "{USAGE}");
    }
    ExitCode::from(status)
}

// `threads` is the runtime too: as a parameter it may start threads and wait.
fn run<T: Threads + Wait + Sync>(rt: &HostRuntime, threads: &T) -> io::Result<u8> {
    let alloc = rt.alloc();
    let words: Vec<String> = env::args(rt)?.skip(1).collect(alloc)?;
    let mut source = ReadSource::new(rt.stdin());
    let mut sink = WriteSink::new(BufWriter::new(alloc, rt.stdout())?);
    let words = words.as_slice();
    let status = if says_run(words) {
        let mut closed = None;
        tsm_threads(
            threads,
            alloc,
            words,
            &mut source,
            &mut sink,
            &Open,
            &mut closed,
        )
    } else {
        tsm_alone(alloc, words, &mut source, &mut sink)
    };
    match sink.flush() {
        Ok(()) => Ok(status),
        Err(Failed) => Ok(SINK_FAULT),
    }
}
