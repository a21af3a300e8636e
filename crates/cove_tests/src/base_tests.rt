use cove_base::{
    Bytes, CompactEvent, Entry, Event, HartId, History, HostCall, LentEntry, Line, Lines, Quote,
    ScriptLine,
};
use std::test::Fail;

#[test]
fn lists_grow(rt: HostRuntime) -> Result<(), Fail> {
    let mut bytes = Bytes::new(rt.alloc());
    bytes.push(7)?;
    assert_eq!(rt; bytes.len(), 1);
    assert_eq!(rt; bytes.get(0).copied(), Some(7));
    assert!(rt; bytes.get(1).is_none());
    assert_eq!(rt; bytes.as_slice(), [7].as_slice());
    Ok(())
}

// A fence of a hart.
fn fence(hart: u8) -> ScriptLine {
    ScriptLine {
        hart: HartId(hart),
        phase: 0,
        line: Line::Call(HostCall::GlobalFence),
    }
}

#[test]
fn a_line_is_linked_to_the_next_of_its_hart(rt: HostRuntime) -> Result<(), Fail> {
    let mut lines = Lines::new(rt.alloc());
    lines.push(fence(7))?;
    lines.push(fence(255))?;
    lines.push(fence(7))?;
    assert_eq!(rt; lines.following(0), 2);
    assert_eq!(rt; lines.following(1), 3);
    assert_eq!(rt; lines.following(2), 3);
    assert_eq!(rt; lines.get(1).map(|line| line.hart.0), Some(255));
    Ok(())
}

// An entry of hart 1.
fn entry(event: Event) -> Entry {
    Entry {
        hart: HartId(1),
        event,
    }
}

// Whether an entry shows a quote of the byte 7.
fn shows_seven(entry: &LentEntry<'_>) -> bool {
    match entry.event() {
        (CompactEvent::Evidence { place }, quotes) => {
            quotes[*place].as_slice() == [7].as_slice()
        }
        _ => false,
    }
}

#[test]
fn a_history_shows_its_entries(rt: HostRuntime) -> Result<(), Fail> {
    let mut history = History::new(rt.alloc())?;
    assert_eq!(rt; history.len(), 0);
    let mut quote = Quote::new();
    quote.push(7);
    history.push(entry(Event::Exec));
    history.push(entry(Event::Evidence { quote }));
    assert_eq!(rt; history.len(), 2);
    assert_eq!(rt; history.get(0).map(|entry| entry.hart().0), Some(1));
    assert!(rt;
        history.get(1).is_some_and(|entry| shows_seven(&entry)),
        "the quote"
    );
    assert!(rt; history.get(2).is_none());
    Ok(())
}
