ghost use Rattle.std.specs.Prelude.{◌≡◌, ◌+◌, ◌*◌, ◌^◌, ◌<◌, ◌≤◌, ◌∷◌, [], ◌++◌, length, IsTrue};
ghost use Rattle.cove_base.specs.Numbers.{hex_text, natural_text, number_text};
ghost use Rattle.cove_base.specs.Text.{spaced};
ghost use Rattle.cove_base.specs.declared.events.Event.TheVariants as events;
ghost use Rattle.cove_base.specs.declared.events.Exit.TheVariants as exits;
ghost use Rattle.cove_base.specs.CompactEntries.{event_of, quote_is_among};
ghost use Rattle.cove_base.specs.EventWords.{act_words, event_words, exit_words, how_text, reply_words, word_text};
ghost use Rattle.cove_model.specs.Reports.{entry_line};
ghost use Rattle.cove_journal.specs.Lines.{is_addressable, is_writable, last_line_of, words_after};

use cove_base::{
    CompactEvent, Exit, Gpn, GuestAct, HostCall, How, LentEntry, QUOTE_LIMIT, Quote, Reply,
};
use cove_text::{LINE_LIMIT, LineBuf, put_call, put_decimal, put_hex, put_number};

/// Writes the line of an entry in place of what the buffer held, without a line feed. The page of a fault is one
/// of 2^52.
pub fn line(entry: &LentEntry<'_>, out: &mut LineBuf)
    requires { IsTrue (is_writable entry.now.event) }
    ensures text { out.new ≡ entry_line entry.now }
    ensures room { length out.new < LINE_LIMIT }
{
    out.clear();
    put_natural(out, entry.hart().0);
    let (event, quotes) = entry.event();
    put_event(out, event, quotes);
}

/// Writes the last line of a journal of `n` entries, without a line feed: `end` where every line of the script is
/// ended, and `limit` where the limit of entries came first.
pub fn last_line(n: u32, whole: bool, out: &mut LineBuf)
    ensures text { out.new ≡ last_line_of whole n }
    ensures room { length out.new < LINE_LIMIT }
{
    out.clear();
    if whole {
        out.put_bytes(b"end");
    } else {
        out.put_bytes(b"limit");
    }
    out.push(b' ');
    put_decimal(out, i64::from(n));
}

// Appends the words of an event whose quote is among these, each after a space, as all below.
fn put_event(out: &mut LineBuf, event: &CompactEvent, quotes: &[Quote])
    requires among { IsTrue (quote_is_among (length quotes.now) event.now) }
    requires writable { IsTrue (is_writable (event_of quotes.now event.now)) }
    requires room { length out.old ≤ 20 }
    ensures text { out.new ≡ words_after out.old (event_words (event_of quotes.now event.now)) }
    ensures fits { length out.new < LINE_LIMIT }
{
    match event {
        CompactEvent::Call { call, reply } => put_answered_call(out, call, *reply),
        CompactEvent::Load { addr, how, value } => put_load(out, *addr, *how, *value),
        CompactEvent::LoadFault { addr } => put_load_fault(out, *addr),
        CompactEvent::Store { addr, value, how } => put_store(out, *addr, *value, *how),
        CompactEvent::StoreFault { addr, value } => put_store_fault(out, *addr, *value),
        CompactEvent::Fetch { how } => put_step(out, b"fetch", *how),
        CompactEvent::Exec => put_word(out, b"exec"),
        CompactEvent::Access { how } => put_step(out, b"exec", *how),
        CompactEvent::Guest { act, reply } => put_guest(out, *act, *reply),
        CompactEvent::Evidence { place } => put_evidence(out, quotes[*place].as_slice()),
        CompactEvent::Exit { exit } => put_exit(out, *exit),
    }
}

fn put_answered_call(out: &mut LineBuf, call: &HostCall, reply: Reply)
    requires { length out.old ≤ 20 }
    ensures text { out.new ≡ words_after out.old (event_words (events.Call call.now reply)) }
    ensures fits { length out.new < LINE_LIMIT }
{
    out.push(b' ');
    put_call(out, call);
    put_reply(out, reply);
}

fn put_load(out: &mut LineBuf, addr: u64, how: How, value: u64)
    requires { length out.old ≤ 20 }
    ensures text { out.new ≡ words_after out.old (event_words (events.Load addr how value)) }
    ensures fits { length out.new < LINE_LIMIT }
{
    put_word(out, b"ld");
    put_spaced(out, addr);
    put_how(out, how);
    put_memory_word(out, value);
}

fn put_load_fault(out: &mut LineBuf, addr: u64)
    requires { length out.old ≤ 20 }
    ensures text { out.new ≡ words_after out.old (event_words (events.LoadFault addr)) }
    ensures fits { length out.new < LINE_LIMIT }
{
    put_word(out, b"ld");
    put_spaced(out, addr);
    put_word(out, b"walk");
    put_word(out, b"fault");
}

fn put_store(out: &mut LineBuf, addr: u64, value: u64, how: How)
    requires { length out.old ≤ 20 }
    ensures text { out.new ≡ words_after out.old (event_words (events.Store addr value how)) }
    ensures fits { length out.new < LINE_LIMIT }
{
    put_word(out, b"sd");
    put_spaced(out, addr);
    put_spaced(out, value);
    put_how(out, how);
    put_word(out, b"ok");
}

fn put_store_fault(out: &mut LineBuf, addr: u64, value: u64)
    requires { length out.old ≤ 20 }
    ensures text { out.new ≡ words_after out.old (event_words (events.StoreFault addr value)) }
    ensures fits { length out.new < LINE_LIMIT }
{
    put_word(out, b"sd");
    put_spaced(out, addr);
    put_spaced(out, value);
    put_word(out, b"walk");
    put_word(out, b"fault");
}

// A word, and how its access came to the page.
fn put_step(out: &mut LineBuf, word: &[u8], how: How)
    requires room { length out.old ≤ 20 }
    requires short { length word.now ≤ 8 }
    ensures text { out.new ≡ words_after out.old (word.now ∷ how_text how ∷ []) }
    ensures fits { length out.new < LINE_LIMIT }
{
    put_word(out, word);
    put_how(out, how);
}

fn put_guest(out: &mut LineBuf, act: GuestAct, reply: Reply)
    requires { length out.old ≤ 20 }
    ensures text { out.new ≡ words_after out.old (event_words (events.Guest act reply)) }
    ensures fits { length out.new < LINE_LIMIT }
{
    put_word(out, b"guest");
    put_act(out, act);
    put_reply(out, reply);
}

fn put_evidence(out: &mut LineBuf, quote: &[u8])
    requires room { length out.old ≤ 20 }
    requires short { length quote.now ≤ QUOTE_LIMIT }
    ensures text { out.new ≡ words_after out.old (event_words (events.Evidence quote.now)) }
    ensures fits { length out.new < LINE_LIMIT }
{
    put_word(out, b"guest");
    put_word(out, b"evidence");
    put_word(out, b"=");
    put_word(out, b"0");
    put_word(out, b"0x168");
    put_hex_word(out, quote);
}

fn put_act(out: &mut LineBuf, act: GuestAct)
    requires { length out.old ≤ 30 }
    ensures text { out.new ≡ words_after out.old (act_words act) }
    ensures room { length out.new ≤ length out.old + 60 }
{
    match act {
        GuestAct::Share { gpa, len } => put_range(out, b"share", gpa, len),
        GuestAct::Unshare { gpa, len } => put_range(out, b"unshare", gpa, len),
        GuestAct::Extend => put_word(out, b"extend"),
        GuestAct::Evidence => put_word(out, b"evidence"),
        GuestAct::Allow { id } => put_identity(out, b"allow", id),
        GuestAct::Deny { id } => put_identity(out, b"deny", id),
        GuestAct::Other => put_word(out, b"other"),
    }
}

// A word and two numbers.
fn put_range(out: &mut LineBuf, word: &[u8], gpa: u64, len: u64)
    requires place { length out.old ≤ 30 }
    requires short { length word.now ≤ 8 }
    ensures text { out.new ≡ words_after out.old (word.now ∷ number_text gpa ∷ number_text len ∷ []) }
    ensures room { length out.new ≤ length out.old + 60 }
{
    put_word(out, word);
    put_spaced(out, gpa);
    put_spaced(out, len);
}

// A word and a number.
fn put_identity(out: &mut LineBuf, word: &[u8], id: u64)
    requires place { length out.old ≤ 30 }
    requires short { length word.now ≤ 8 }
    ensures text { out.new ≡ words_after out.old (word.now ∷ number_text id ∷ []) }
    ensures room { length out.new ≤ length out.old + 60 }
{
    put_word(out, word);
    put_spaced(out, id);
}

fn put_exit(out: &mut LineBuf, exit: Exit)
    requires writable { IsTrue (is_addressable exit) }
    requires room { length out.old ≤ 20 }
    ensures text { out.new ≡ words_after out.old (event_words (events.Exit exit)) }
    ensures fits { length out.new < LINE_LIMIT }
{
    put_word(out, b"exit");
    match exit {
        Exit::Fuel => put_word(out, b"fuel"),
        Exit::Kicked => put_word(out, b"kicked"),
        Exit::Wfi => put_word(out, b"wfi"),
        Exit::Fault { cause, page } => put_fault(out, cause, page),
        Exit::Trap { cause } => put_cause(out, b"trap", cause),
    }
}

// A fault's cause and its address.
fn put_fault(out: &mut LineBuf, cause: u8, page: Gpn)
    requires writable { page.0 < 2 ^ 52 }
    requires room { length out.old ≤ 30 }
    ensures text { out.new ≡ words_after out.old (exit_words (exits.Fault cause page)) }
    ensures room { length out.new ≤ length out.old + 60 }
{
    put_cause(out, b"fault", cause);
    put_spaced(out, page.0 * 4096);
}

// A word and a cause.
fn put_cause(out: &mut LineBuf, word: &[u8], cause: u8)
    requires room { length out.old ≤ 30 }
    requires short { length word.now ≤ 8 }
    ensures text { out.new ≡ words_after out.old (word.now ∷ natural_text cause ∷ []) }
    ensures room { length out.new ≤ length out.old + 40 }
{
    put_word(out, word);
    out.push(b' ');
    put_natural(out, cause);
}

// Appends a number in decimal, without a space.
fn put_natural(out: &mut LineBuf, number: u8)
    requires { length out.old ≤ 50 }
    ensures text { out.new ≡ out.old ++ natural_text number }
    ensures room { length out.new ≤ length out.old + 20 }
{
    put_decimal(out, i64::from(number));
}

fn put_reply(out: &mut LineBuf, reply: Reply)
    requires { length out.old ≤ 150 }
    ensures text { out.new ≡ words_after out.old (reply_words reply) }
    ensures room { length out.new ≤ length out.old + 50 }
{
    put_word(out, b"=");
    out.push(b' ');
    put_decimal(out, reply.status.code());
    put_spaced(out, reply.value);
}

fn put_how(out: &mut LineBuf, how: How)
    requires { length out.old ≤ 200 }
    ensures text { out.new ≡ out.old ++ spaced (how_text how) }
    ensures room { length out.new ≤ length out.old + 5 }
{
    match how {
        How::Hit => put_word(out, b"hit"),
        How::Walk => put_word(out, b"walk"),
    }
}

fn put_memory_word(out: &mut LineBuf, value: u64)
    requires { length out.old ≤ 200 }
    ensures text { out.new ≡ out.old ++ spaced (word_text value) }
    ensures room { length out.new ≤ length out.old + 17 }
{
    put_hex_word(out, &value.to_be_bytes());
}

fn put_hex_word(out: &mut LineBuf, bytes: &[u8])
    requires { length out.old + 2 * length bytes.now < LINE_LIMIT }
    ensures text { out.new ≡ out.old ++ spaced (hex_text bytes.now) }
    ensures len { length out.new ≡ length out.old + 1 + 2 * length bytes.now }
{
    out.push(b' ');
    put_hex(out, bytes);
}

fn put_spaced(out: &mut LineBuf, n: u64)
    requires { length out.old ≤ 200 }
    ensures text { out.new ≡ out.old ++ spaced (number_text n) }
    ensures room { length out.new ≤ length out.old + 19 }
{
    out.push(b' ');
    put_number(out, n);
}

fn put_word(out: &mut LineBuf, word: &[u8])
    requires { length out.old + length word.now < LINE_LIMIT }
    ensures text { out.new ≡ out.old ++ spaced word.now }
    ensures len { length out.new ≡ length out.old + 1 + length word.now }
{
    out.push(b' ');
    out.put_bytes(word);
}
