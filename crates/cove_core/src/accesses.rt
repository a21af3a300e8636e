//! What a hart does for its next line, before its entry is counted: a load, a store or a call.

ghost use Rattle.std.specs.Prelude.{◌≡◌, ◌<◌, ◌↔◌, ◌^◌, IsTrue, None, false, length, slice_index};
ghost use Rattle.cove_base.specs.PageWords.{IsHostWord, IsPageWord};
ghost use Rattle.cove_base.specs.Rings.{found};
ghost use Rattle.cove_base.specs.Unchanged.{Unchanged};
ghost use Rattle.cove_core.specs.Reached.{CanDo, HasUnusedWalk, IsAnswered, IsDone, IsLoaded, IsReachable, IsStored, ComesTo, frames_by, load_event, rings_forgotten, store_event};
ghost use Rattle.cove_core.specs.CanCall.{CanCall};
ghost use Rattle.cove_hart.specs.HartStates.{hart_value};
ghost use Rattle.cove_mem.specs.Frames.{frame, with_word};
ghost use Rattle.cove_model.specs.LawfulStores.{AllowsLawful};
ghost use Rattle.cove_model.specs.States.{page_of, word_place};
ghost use Rattle.cove_base.specs.Statuses.{is_success};

use crate::calls::call;
use cove_base::{Event, HostCall, How, Line, Page, Status, Target, Walked, Words};
use cove_hart::HartState;
use cove_mem::Memory;
use cove_owner::{PageState, state};
use cove_tlb::Rings;
use cove_tvm::Ground;

/// How a hart comes to the page of its next line.
#[derive(Clone, Copy)]
pub enum Reach {
    /// Its ring holds the page.
    Held,
    /// A walk that it did not use yet found the page.
    Walked,
    /// That walk found none, and the page is the host's by now.
    Fresh,
    /// The page is not the host's.
    Absent,
}

/// Does for a hart what a line says.
pub fn perform<W: Words>(w: &mut W, g: &mut Ground, hart: &mut HartState, line: Line) -> Event
    requires can { CanDo (W.words w.old) g.old (hart_value hart.old) line }
    requires allowed { AllowsLawful (W.allows (W.guard w.old)) g.old.pages g.old.harts hart.old.hart.0 (W.words w.old) }
    ensures done { IsDone (W.words w.old) (W.words w.new) g.old g.new (hart_value hart.old) hart.new.rings result line }
    ensures hart { hart.new ≡ record hart.old { rings = hart.new.rings } }
    ensures guard { W.guard w.new ≡ W.guard w.old }
{
    match line {
        Line::Call(c) => answer(w, g, hart, c),
        Line::Load { addr } => load(w, &g.memory, hart, addr),
        Line::Store { addr, value } => store(w, &mut g.memory, hart, addr, value),
    }
}

/// Makes a load for a hart.
pub fn load<W: Words>(w: &mut W, memory: &Memory, hart: &mut HartState, addr: u64) -> Event
    requires { IsReachable (W.words w.old) memory.now (hart_value hart.old) (page_of addr) }
    ensures loaded { IsLoaded (W.words w.old) memory.now (hart_value hart.old) addr hart.new.rings result }
    ensures hart { hart.new ≡ record hart.old { rings = hart.new.rings } }
    ensures unchanged { Unchanged W.words W.clean W.guard w.old w.new }
{
    let page = Page((addr / 4096) as u32);
    let reach = look_at(w, hart, page);
    let value = memory.load(page, (addr / 8 % 512) as u16);
    load_event(addr, value, reach)
}

/// Makes a store for a hart.
pub fn store<W: Words>(
    w: &mut W,
    memory: &mut Memory,
    hart: &mut HartState,
    addr: u64,
    value: u64,
) -> Event
    requires { IsReachable (W.words w.old) memory.old (hart_value hart.old) (page_of addr) }
    ensures stored { IsStored (W.words w.old) memory.old memory.new (hart_value hart.old) addr value hart.new.rings result }
    ensures hart { hart.new ≡ record hart.old { rings = hart.new.rings } }
    ensures unchanged { Unchanged W.words W.clean W.guard w.old w.new }
{
    let page = Page((addr / 4096) as u32);
    let reach = look_at(w, hart, page);
    store_where(memory, reach, page, (addr / 8 % 512) as u16, value);
    store_event(addr, value, reach)
}

/// Answers a call for a hart.
pub fn answer<W: Words>(w: &mut W, g: &mut Ground, hart: &mut HartState, c: HostCall) -> Event
    requires can { CanCall (W.words w.old) g.old hart.old.hart.0 }
    requires allowed { AllowsLawful (W.allows (W.guard w.old)) g.old.pages g.old.harts hart.old.hart.0 (W.words w.old) }
    ensures answered { IsAnswered hart.old.hart.0 c
        (W.words w.old) (W.words w.new) g.old g.new hart.old.rings hart.new.rings result }
    ensures hart { hart.new ≡ record hart.old { rings = hart.new.rings } }
    ensures guard { W.guard w.new ≡ W.guard w.old }
{
    let reply = call(w, g, hart.hart, c);
    if is_success(reply.status) {
        forget(&mut hart.rings, c);
    }
    Event::Call { call: c, reply }
}

// How a hart comes to the page of its next line. A page that is the host's by now comes into its ring.
fn look_at<W: Words>(w: &mut W, hart: &mut HartState, page: Page) -> Reach
    requires place { page.0 < length (W.words w.old) }
    requires limit { page.0 < 2 ^ 16 }
    requires word { IsPageWord (slice_index (W.words w.old) page.0) }
    requires absent { HasUnusedWalk hart.old.walked false → found page.0 hart.old.rings.hosts ≡ None }
    ensures reaches { ComesTo (W.words w.old) (hart_value hart.old) page.0 hart.new.rings result }
    ensures hart { hart.new ≡ record hart.old { rings = hart.new.rings } }
    ensures unchanged { Unchanged W.words W.clean W.guard w.old w.new }
{
    let Some(noted) = hart.walked else {
        return Reach::Held;
    };
    if let Walked::Found(_) = noted.walked {
        return Reach::Walked;
    }
    if !is_host(w, page) {
        return Reach::Absent;
    }
    hart.rings.fill(Target::Host(page), page);
    Reach::Fresh
}

/// Whether the words have a page as the host's.
pub fn is_host<W: Words>(w: &mut W, page: Page) -> bool
    requires place { page.0 < length (W.words w.old) }
    requires limit { page.0 < 2 ^ 16 }
    requires word { IsPageWord (slice_index (W.words w.old) page.0) }
    ensures host { IsTrue result ↔ IsHostWord (slice_index (W.words w.old) page.0) }
    ensures unchanged { Unchanged W.words W.clean W.guard w.old w.new }
{
    match state(w, page) {
        PageState::Host { .. } => true,
        PageState::Converting { .. } | PageState::Given { .. } | PageState::Released => false,
    }
}

// The event of a load.
fn load_event(addr: u64, value: u64, reach: Reach) -> Event
    ensures { result ≡ load_event addr value reach }
{
    match reach {
        Reach::Held => Event::Load {
            addr,
            how: How::Hit,
            value,
        },
        Reach::Walked | Reach::Fresh => Event::Load {
            addr,
            how: How::Walk,
            value,
        },
        Reach::Absent => Event::LoadFault { addr },
    }
}

// The event of a store.
fn store_event(addr: u64, value: u64, reach: Reach) -> Event
    ensures { result ≡ store_event addr value reach }
{
    match reach {
        Reach::Held => Event::Store {
            addr,
            value,
            how: How::Hit,
        },
        Reach::Walked | Reach::Fresh => Event::Store {
            addr,
            value,
            how: How::Walk,
        },
        Reach::Absent => Event::StoreFault { addr, value },
    }
}

// Stores a word, where its page was reached.
fn store_where(memory: &mut Memory, reach: Reach, page: Page, word: u16, value: u64)
    requires page { page.0 < length memory.old }
    requires word { word < 512 }
    ensures { memory.new ≡ frames_by reach memory.old (with_word memory.old page.0 word value) }
{
    match reach {
        Reach::Held | Reach::Walked | Reach::Fresh => memory.store(page, word, value),
        Reach::Absent => {}
    }
}

// Empties what an accepted call of a hart empties of its rings.
fn forget(rings: &mut Rings, c: HostCall)
    ensures { rings.new ≡ rings_forgotten c rings.old }
{
    match c {
        HostCall::GlobalFence | HostCall::LocalFence => rings.clear(),
        HostCall::Run { .. } => rings.clear_guests(),
        _ => {}
    }
}

fn is_success(status: Status) -> bool
    ensures { result ≡ is_success status }
{
    matches!(status, Status::Success)
}
