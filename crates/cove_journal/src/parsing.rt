ghost use Rattle.std.specs.Prelude.{◌≡◌, IfSome, IsTrue};
ghost use Rattle.cove_base.specs.EventSizes.{is_sized};
ghost use Rattle.cove_base.specs.declared.events.Entry.{Entry};
ghost use Rattle.cove_model.specs.Reports.{entry_line};
ghost use Rattle.cove_journal.specs.Forms.{has_line, is_act_shown, is_event_shown, is_exit_shown, is_fault_cause, is_trap_cause};
ghost use Rattle.cove_journal.specs.Journals.{if_shown_by, line_entry};

use crate::reading::read_entry;
use crate::writing::line;
use cove_base::{Entry, Event, Exit, GuestAct, HART_LIMIT, LentEntry, Status, event_fits};
use cove_text::LineBuf;

/// The entry of a line without its line feed: none where the bytes are not exactly what `line` writes for an
/// entry that has a line.
pub fn parse_line(bytes: &[u8]) -> Option<Entry>
    ensures reads { result ≡ line_entry bytes.now }
    ensures lines { IfSome result (λ entry. IsTrue (has_line entry) × (entry_line entry ≡ bytes.now)) }
    ensures finds { (entry : Entry) → IsTrue (has_line entry) → IsTrue (is_sized entry.event) → entry_line entry ≡ bytes.now → result ≡ Some entry }
{
    let entry = read_entry(bytes)?;
    if_shown_by(bytes, entry)
}

// An entry, where it has a line and this is it.
fn if_shown_by(bytes: &[u8], entry: Entry) -> Option<Entry>
    ensures { result ≡ if_shown_by bytes.now entry }
{
    event_fits(&entry.event);
    if !has_line(&entry) {
        return None;
    }
    let mut out = LineBuf::new();
    line(&LentEntry::of(&entry), &mut out);
    if out.as_slice() == bytes {
        Some(entry)
    } else {
        None
    }
}

// Whether an entry has a line.
fn has_line(entry: &Entry) -> bool
    ensures { result ≡ has_line entry.now }
{
    entry.hart.0 < HART_LIMIT && is_event_shown(&entry.event)
}

fn is_event_shown(event: &Event) -> bool
    ensures { result ≡ is_event_shown event.now }
{
    match event {
        Event::Guest { act, reply } => is_act_shown(*act, reply.status),
        Event::Evidence { quote } => quote.as_slice().len() == 360,
        Event::Exit { exit } => is_exit_shown(*exit),
        _ => true,
    }
}

fn is_act_shown(act: GuestAct, status: Status) -> bool
    ensures { result ≡ is_act_shown act status }
{
    match (act, status) {
        (GuestAct::Evidence, Status::Success) => false,
        _ => true,
    }
}

fn is_exit_shown(exit: Exit) -> bool
    ensures { result ≡ is_exit_shown exit }
{
    match exit {
        Exit::Fuel | Exit::Kicked | Exit::Wfi => true,
        Exit::Fault { cause, page } => is_fault_cause(cause) && page.0 < 1 << 52,
        Exit::Trap { cause } => is_trap_cause(cause),
    }
}

// A guest page fault of an instruction, a load or a store.
fn is_fault_cause(cause: u8) -> bool
    ensures { result ≡ is_fault_cause cause }
{
    cause == 20 || cause == 21 || cause == 23
}

// A misaligned or an illegal instruction, a breakpoint, a misaligned load or a misaligned store.
fn is_trap_cause(cause: u8) -> bool
    ensures { result ≡ is_trap_cause cause }
{
    cause == 0 || cause == 2 || cause == 3 || cause == 4 || cause == 6
}
