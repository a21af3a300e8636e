//! How a history keeps its entries: the bytes of a quote apart from the entry that shows it.

ghost use Rattle.std.specs.Prelude.{◌≡◌, ◌<◌, ◌++◌, [], length, IsTrue};
ghost use Rattle.std.specs.Vec.{vec_capacity};
ghost use Rattle.cove_base.specs.CompactEntries.{event_of, quote_is_among, quotes_of};

use crate::calls::{GuestAct, HostCall};
use crate::events::{Event, Exit, How};
use crate::numbers::HartId;
use crate::quotes::Quote;
use crate::statuses::Reply;
use std::slice::from_ref;

/// An entry without the bytes of its quote.
#[derive(Clone, Copy)]
pub struct CompactEntry {
    pub hart: HartId,
    pub event: CompactEvent,
}

/// An event without the bytes of its quote, which stand in a list of quotes, at this place.
#[derive(Clone, Copy)]
pub enum CompactEvent {
    Call { call: HostCall, reply: Reply },
    Load { addr: u64, how: How, value: u64 },
    LoadFault { addr: u64 },
    Store { addr: u64, value: u64, how: How },
    StoreFault { addr: u64, value: u64 },
    Fetch { how: How },
    Exec,
    Access { how: How },
    Guest { act: GuestAct, reply: Reply },
    Evidence { place: usize },
    Exit { exit: Exit },
}

/// Takes an event apart, into its quote and the rest.
pub(crate) fn compact(quotes: &mut Vec<Quote>, event: Event) -> CompactEvent
    requires { length quotes.old.items < vec_capacity quotes.old }
    ensures quotes { quotes.new.items ≡ quotes.old.items ++ quotes_of event }
    ensures event { event_of quotes.new.items result ≡ event }
    ensures among { IsTrue (quote_is_among (length quotes.new.items) result) }
    ensures room { vec_capacity quotes.new ≡ vec_capacity quotes.old }
{
    match event {
        Event::Call { call, reply } => CompactEvent::Call { call, reply },
        Event::Load { addr, how, value } => CompactEvent::Load { addr, how, value },
        Event::LoadFault { addr } => CompactEvent::LoadFault { addr },
        Event::Store { addr, value, how } => CompactEvent::Store { addr, value, how },
        Event::StoreFault { addr, value } => CompactEvent::StoreFault { addr, value },
        Event::Fetch { how } => CompactEvent::Fetch { how },
        Event::Exec => CompactEvent::Exec,
        Event::Access { how } => CompactEvent::Access { how },
        Event::Guest { act, reply } => CompactEvent::Guest { act, reply },
        Event::Evidence { quote } => {
            let place = quotes.len();
            quotes.push_reserved(quote);
            CompactEvent::Evidence { place }
        }
        Event::Exit { exit } => CompactEvent::Exit { exit },
    }
}

/// Looks at an event as at its quote, if it has one, and the rest.
pub(crate) fn apart(event: &Event) -> (CompactEvent, &[Quote])
    ensures event { event_of result.1.now result.0 ≡ event.now }
    ensures among { IsTrue (quote_is_among (length result.1.now) result.0) }
{
    match event {
        Event::Call { call, reply } => bare(CompactEvent::Call {
            call: *call,
            reply: *reply,
        }),
        Event::Load { addr, how, value } => bare(CompactEvent::Load {
            addr: *addr,
            how: *how,
            value: *value,
        }),
        Event::LoadFault { addr } => bare(CompactEvent::LoadFault { addr: *addr }),
        Event::Store { addr, value, how } => bare(CompactEvent::Store {
            addr: *addr,
            value: *value,
            how: *how,
        }),
        Event::StoreFault { addr, value } => bare(CompactEvent::StoreFault {
            addr: *addr,
            value: *value,
        }),
        Event::Fetch { how } => bare(CompactEvent::Fetch { how: *how }),
        Event::Exec => bare(CompactEvent::Exec),
        Event::Access { how } => bare(CompactEvent::Access { how: *how }),
        Event::Guest { act, reply } => bare(CompactEvent::Guest {
            act: *act,
            reply: *reply,
        }),
        Event::Evidence { quote } => (CompactEvent::Evidence { place: 0 }, from_ref(quote)),
        Event::Exit { exit } => bare(CompactEvent::Exit { exit: *exit }),
    }
}

// An event without a quote.
fn bare<'a>(event: CompactEvent) -> (CompactEvent, &'a [Quote])
    ensures event { result.0 ≡ event }
    ensures none { result.1.now ≡ [] }
{
    (event, &[])
}
