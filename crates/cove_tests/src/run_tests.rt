use cove_base::{Bytes, NoMemory, Turns};
use cove_io::{MemSink, MemSource, NullSink, SureSource};
use cove_monitor::Hart;
use cove_run::{Gate, Place, USAGE, tsm_alone, tsm_threads};
use std::alloc::{AllocError, Global};
use std::sync::atomic::{AtomicBool, Ordering};
use std::test::Fail;

const FIRST: &[u8] =
    b"board 16 1 0\n0 convert 0x4000 1\n0 gfence\n0 reclaim 0x4000 1\n0 ld 0x4000\nend\n";

const FIRST_LINE: &[u8] = b"0 convert 0x4000 0x1 = 0 0x0\n";

const JOURNAL: &[u8] =
    b"0 convert 0x4000 0x1 = 0 0x0\n0 gfence = 0 0x0\n0 reclaim 0x4000 0x1 = 0 0x0\n0 ld 0x4000 walk 0000000000000000\nend 4\n";

const STALE: &[u8] =
    b"board 16 2 0\nfill 0x4000 1122334455667788\n0 convert 0x4000 1\n0 ld 0x4000\n1 ld 0x4000\n1 ld 0x4000\nturns 1 1 0 1 0 0\nend\n";

const STALE_JOURNAL: &[u8] =
    b"1 ld 0x4000 walk 8877665544332211\n0 convert 0x4000 0x1 = 0 0x0\n1 ld 0x4000 hit 8877665544332211\n0 ld 0x4000 walk fault\nend 4\n";

const PHASES: &[u8] = b"board 16 2 0\n0 gfence\nphase\n1 lfence\nphase\n0 gfence\nend\n";

const PHASES_JOURNAL: &[u8] = b"0 gfence = 0 0x0\n1 lfence = 0 0x0\n0 gfence = 0 0x0\nend 3\n";

const LARGEST: &[u8] = b"board 4096 8 7\nfill 0xffffff ff\n7 sd 0xfffff8 1\n7 ld 0xfffff8\nend\n";

const LARGEST_JOURNAL: &[u8] =
    b"7 sd 0xfffff8 0x1 walk ok\n7 ld 0xfffff8 hit 0000000000000001\nend 2\n";

fn bytes_of(alloc: Global, items: &[u8]) -> Result<Bytes, NoMemory> {
    let mut bytes = Bytes::new(alloc);
    bytes.extend(items)?;
    Ok(bytes)
}

fn calls_of(alloc: Global, items: &[u32]) -> Result<Turns, NoMemory> {
    let mut calls = Turns::new(alloc);
    calls.extend(items)?;
    Ok(calls)
}

fn words_of(alloc: Global, texts: &[&str]) -> Result<Vec<String>, AllocError> {
    let mut words = Vec::new(alloc);
    for text in texts {
        words.push(String::from_str(alloc, text)?)?;
    }
    Ok(words)
}

#[test]
fn texts_and_their_journals(rt: HostRuntime) -> Result<(), Fail> {
    let alloc = rt.alloc();
    let words = words_of(alloc, &["sched"])?;
    let table: [(&[u8], (&[u8], u8)); 10] = [
        (FIRST, (JOURNAL, 0)),
        (STALE, (STALE_JOURNAL, 0)),
        (PHASES, (PHASES_JOURNAL, 0)),
        (LARGEST, (LARGEST_JOURNAL, 0)),
        (b"board 16 1 0\nend\n", (b"end 0\n", 0)),
        (
            b"board 16 1 0\n0 info\nend\n",
            (b"0 info = 0 0x1\nend 1\n", 0),
        ),
        (
            b"board 16 1 0\n0 fly\nend\n",
            (b"refused 2 UnknownWord\n", 3),
        ),
        (b"board 16 1 0\n0 gfence\n", (b"refused 3 NoEnd\n", 3)),
        (b"", (b"refused 1 NoEnd\n", 3)),
        (
            b"board 16 1 0\n1 gfence\nend\n",
            (b"refused 2 OutOfBoard\n", 3),
        ),
    ];
    for (text, (journal, status)) in table {
        let mut source = SureSource::new(bytes_of(alloc, text)?);
        let mut sink = MemSink::new(alloc, 1000, Turns::new(alloc))?;
        assert_eq!(rt;
            tsm_alone(alloc, words.as_slice(), &mut source, &mut sink),
            status
        );
        assert_eq!(rt; sink.as_slice(), journal);
    }
    Ok(())
}

#[test]
fn a_sink_that_fails_at_its_second_write(rt: HostRuntime) -> Result<(), Fail> {
    let alloc = rt.alloc();
    let words = words_of(alloc, &["sched"])?;
    let mut source = SureSource::new(bytes_of(alloc, FIRST)?);
    let mut sink = MemSink::new(alloc, 1000, calls_of(alloc, &[1])?)?;
    assert_eq!(rt;
        tsm_alone(alloc, words.as_slice(), &mut source, &mut sink),
        6
    );
    assert_eq!(rt; sink.as_slice(), FIRST_LINE);
    Ok(())
}

#[test]
fn a_source_that_fails_at_its_first_read(rt: HostRuntime) -> Result<(), Fail> {
    let alloc = rt.alloc();
    let words = words_of(alloc, &["sched"])?;
    let mut source = MemSource::new(bytes_of(alloc, FIRST)?, calls_of(alloc, &[0])?);
    let mut sink = MemSink::new(alloc, 1000, Turns::new(alloc))?;
    assert_eq!(rt;
        tsm_alone(alloc, words.as_slice(), &mut source, &mut sink),
        5
    );
    assert!(rt; sink.as_slice().is_empty());
    Ok(())
}

#[test]
fn words_that_name_no_command(rt: HostRuntime) -> Result<(), Fail> {
    let alloc = rt.alloc();
    let table: [&[&str]; 4] = [&[], &["sched", "now"], &["run"], &["--help"]];
    for texts in table {
        let words = words_of(alloc, texts)?;
        let mut source = SureSource::new(bytes_of(alloc, FIRST)?);
        assert_eq!(rt;
            tsm_alone(alloc, words.as_slice(), &mut source, &mut NullSink),
            2
        );
    }
    assert_eq!(rt;
        USAGE,
        "usage: tsm sched | run | gen N | audit | verify | host | pool N W"
    );
    Ok(())
}

// How often a hart looks whether the other one has come, at most.
const LOOKS: u32 = 200_000_000;

// Holds hart 0 right after its walk until hart 1 comes to its event, and hart 1 there until hart 0 was held. Notes that hart
// 0 came to its walk before.
#[derive(Drop)]
struct Meeting {
    walks: AtomicBool,
    walked: AtomicBool,
    comes: AtomicBool,
    missed: AtomicBool,
}

impl Meeting {
    fn new() -> Self {
        Meeting {
            walks: AtomicBool::new(false),
            walked: AtomicBool::new(false),
            comes: AtomicBool::new(false),
            missed: AtomicBool::new(false),
        }
    }

    // Tells that one hart has come, and waits for the other one.
    fn meet(&self, own: &AtomicBool, other: &AtomicBool) {
        own.store(true, Ordering::SeqCst);
        for _ in 0..LOOKS {
            if other.load(Ordering::SeqCst) {
                return;
            }
        }
        self.missed.store(true, Ordering::SeqCst);
    }

    // Whether both harts came to each place, and neither waited in vain.
    fn was_held(&self) -> bool {
        self.walks.load(Ordering::SeqCst)
            && self.walked.load(Ordering::SeqCst)
            && self.comes.load(Ordering::SeqCst)
            && !self.missed.load(Ordering::SeqCst)
    }
}

impl Gate for Meeting {
    fn pass(&self, hart: &Hart, place: Place) {
        match (hart.state().hart.0, place) {
            (0, Place::BeforeWalk) => self.walks.store(true, Ordering::SeqCst),
            (0, Place::AfterWalk) => self.meet(&self.walked, &self.comes),
            (1, Place::BeforeEvent) => self.meet(&self.comes, &self.walked),
            _ => {}
        }
    }
}

#[test]
fn two_harts_are_between_walk_and_event_at_once(rt: HostRuntime) -> Result<(), Fail> {
    let alloc = rt.alloc();
    let words = words_of(alloc, &["run"])?;
    let mut source = SureSource::new(bytes_of(
        alloc,
        b"board 16 2 0\n0 ld 0x4000\n1 ld 0x5000\nend\n",
    )?);
    let mut sink = MemSink::new(alloc, 1000, Turns::new(alloc))?;
    let gate = Meeting::new();
    let mut closed = None;
    assert_eq!(rt;
        tsm_threads(
            &rt,
            alloc,
            words.as_slice(),
            &mut source,
            &mut sink,
            &gate,
            &mut closed
        ),
        0
    );
    assert!(rt; gate.was_held());
    let lines: [&[u8]; 2] = [
        b"0 ld 0x4000 walk 0000000000000000\n1 ld 0x5000 walk 0000000000000000\nend 2\n",
        b"1 ld 0x5000 walk 0000000000000000\n0 ld 0x4000 walk 0000000000000000\nend 2\n",
    ];
    assert!(rt; sink.as_slice() == lines[0] || sink.as_slice() == lines[1]);
    assert!(rt; closed.is_some());
    Ok(())
}

// Holds no hart.
#[derive(Drop)]
struct Open;

impl Gate for Open {
    fn pass(&self, _hart: &Hart, _place: Place) {}
}

#[test]
fn texts_on_threads_and_their_journals(rt: HostRuntime) -> Result<(), Fail> {
    let alloc = rt.alloc();
    let words = words_of(alloc, &["run"])?;
    let table: [(&[u8], (&[u8], u8)); 4] = [
        (FIRST, (JOURNAL, 0)),
        (PHASES, (PHASES_JOURNAL, 0)),
        (
            b"board 16 1 0\n0 gfence\n0 kick 0\nend\n",
            (b"refused 0 NotBuilt\n", 3),
        ),
        (
            b"board 16 1 0\n0 fly\nend\n",
            (b"refused 2 UnknownWord\n", 3),
        ),
    ];
    for (text, (journal, status)) in table {
        let mut source = SureSource::new(bytes_of(alloc, text)?);
        let mut sink = MemSink::new(alloc, 1000, Turns::new(alloc))?;
        let mut closed = None;
        assert_eq!(rt;
            tsm_threads(
                &rt,
                alloc,
                words.as_slice(),
                &mut source,
                &mut sink,
                &Open,
                &mut closed
            ),
            status
        );
        assert_eq!(rt; sink.as_slice(), journal);
        assert_eq!(rt; closed.is_some(), status == 0);
    }
    Ok(())
}
