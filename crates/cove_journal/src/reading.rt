ghost use Rattle.std.specs.Prelude.{◌≡◌, ◌∷◌, [], option_map};
ghost use Rattle.cove_journal.specs.Reading.{act_of, acted_of, answer_of, arguments_of, asked_of, call_event_of, entry_named, event_named, exec_of, exit_of, fault_of, fetch_of, guest_of, how_of, load_named, load_with, memory_word_of, quote_of, quoted_of, status_named, store_named, store_with, trap_of};
ghost use Rattle.cove_base.specs.Text.{text_words};

use arrayvec::ArrayVec;
use cove_base::{Entry, Event, Exit, Gpn, GuestAct, HartId, How, Quote, Reply, Status};
use cove_text::{WordIter, call_of, read_number, split_words};
use hex::FromHex;

fn read_how(word: &[u8]) -> Option<How>
    ensures { result ≡ how_of word.now }
{
    if word == b"hit".as_slice() {
        return Some(How::Hit);
    }
    if word == b"walk".as_slice() {
        return Some(How::Walk);
    }
    None
}

fn read_status(word: &[u8]) -> Option<Status>
    ensures { result ≡ status_named word.now }
{
    if word == b"0".as_slice() {
        return Some(Status::Success);
    }
    if word == b"-1".as_slice() {
        return Some(Status::Failed);
    }
    if word == b"-2".as_slice() {
        return Some(Status::NotSupported);
    }
    if word == b"-3".as_slice() {
        return Some(Status::InvalidParam);
    }
    if word == b"-4".as_slice() {
        return Some(Status::Denied);
    }
    if word == b"-5".as_slice() {
        return Some(Status::InvalidAddress);
    }
    if word == b"-6".as_slice() {
        return Some(Status::AlreadyAvailable);
    }
    if word == b"-7".as_slice() {
        return Some(Status::AlreadyStarted);
    }
    if word == b"-8".as_slice() {
        return Some(Status::AlreadyStopped);
    }
    None
}

// A word of memory: 16 hex digits.
fn read_memory_word(word: &[u8]) -> Option<u64>
    ensures { result ≡ memory_word_of word.now }
{
    let bytes = <[u8; 8]>::from_hex(word).ok()?;
    Some(u64::from_be_bytes(bytes))
}

fn read_answer(words: &mut WordIter<'_>) -> Option<Reply>
    ensures { option_map (λ reply. (reply, words.new)) result ≡ answer_of words.old }
{
    let status = words.next()?;
    let value = words.next()?;
    Some(Reply {
        status: read_status(status)?,
        value: read_number(value)?,
    })
}

fn read_load(words: &mut WordIter<'_>) -> Option<Event>
    ensures { result ≡ load_named words.old }
{
    let addr = words.next()?;
    let how = words.next()?;
    let last = words.next()?;
    load_with(read_number(addr)?, how, last)
}

// A load from an address, by its last two words.
fn load_with(addr: u64, how: &[u8], last: &[u8]) -> Option<Event>
    ensures { result ≡ load_with addr how.now last.now }
{
    if last == b"fault".as_slice() {
        return Some(Event::LoadFault { addr });
    }
    Some(Event::Load {
        addr,
        how: read_how(how)?,
        value: read_memory_word(last)?,
    })
}

fn read_store(words: &mut WordIter<'_>) -> Option<Event>
    ensures { result ≡ store_named words.old }
{
    let addr = words.next()?;
    let value = words.next()?;
    let how = words.next()?;
    let last = words.next()?;
    store_with(read_number(addr)?, read_number(value)?, how, last)
}

// A store to an address, by its last two words.
fn store_with(addr: u64, value: u64, how: &[u8], last: &[u8]) -> Option<Event>
    ensures { result ≡ store_with addr value how.now last.now }
{
    if last == b"fault".as_slice() {
        return Some(Event::StoreFault { addr, value });
    }
    Some(Event::Store {
        addr,
        value,
        how: read_how(how)?,
    })
}

fn read_exec(words: &mut WordIter<'_>) -> Option<Event>
    ensures { result ≡ exec_of words.old }
{
    match words.next() {
        None => Some(Event::Exec),
        Some(how) => Some(Event::Access {
            how: read_how(how)?,
        }),
    }
}

fn read_fetch(words: &mut WordIter<'_>) -> Option<Event>
    ensures { result ≡ fetch_of words.old }
{
    let how = read_how(words.next()?)?;
    Some(Event::Fetch { how })
}

// A quote of 360 bytes.
fn read_quote(word: &[u8]) -> Option<Quote>
    ensures { result ≡ quote_of word.now }
{
    let bytes = <[u8; 360]>::from_hex(word).ok()?;
    let mut quote = Quote::new();
    for byte in &bytes {
        quote.push(*byte);
    }
    Some(quote)
}

fn read_quoted(words: &mut WordIter<'_>) -> Option<Event>
    ensures { result ≡ quoted_of words.old }
{
    let quote = read_quote(words.next()?)?;
    Some(Event::Evidence { quote })
}

fn read_guest(words: &mut WordIter<'_>) -> Option<Event>
    ensures { result ≡ guest_of words.old }
{
    let name = words.next()?;
    let mut args = ArrayVec::<u64, 5>::new();
    read_arguments(words, &mut args)?;
    let act = act_of(name, args.as_slice())?;
    read_acted(act, words)
}

// The answer of a guest's act.
fn read_acted(act: GuestAct, words: &mut WordIter<'_>) -> Option<Event>
    ensures { result ≡ acted_of act words.old }
{
    let reply = read_answer(words)?;
    match (act, reply.status) {
        (GuestAct::Evidence, Status::Success) => read_quoted(words),
        _ => Some(Event::Guest { act, reply }),
    }
}

// The act of a word and its arguments.
fn act_of(word: &[u8], args: &[u64]) -> Option<GuestAct>
    ensures { result ≡ act_of word.now args.now }
{
    match args {
        [] => act_of_none(word),
        [id] => act_of_one(word, *id),
        [gpa, len] => act_of_two(word, *gpa, *len),
        _ => None,
    }
}

// The act of a word with no argument.
fn act_of_none(word: &[u8]) -> Option<GuestAct>
    ensures { result ≡ act_of word.now [] }
{
    if word == b"extend".as_slice() {
        return Some(GuestAct::Extend);
    }
    if word == b"evidence".as_slice() {
        return Some(GuestAct::Evidence);
    }
    if word == b"other".as_slice() {
        return Some(GuestAct::Other);
    }
    None
}

// The act of a word with one argument.
fn act_of_one(word: &[u8], id: u64) -> Option<GuestAct>
    ensures { result ≡ act_of word.now (id ∷ []) }
{
    if word == b"allow".as_slice() {
        return Some(GuestAct::Allow { id });
    }
    if word == b"deny".as_slice() {
        return Some(GuestAct::Deny { id });
    }
    None
}

// The act of a word with two arguments.
fn act_of_two(word: &[u8], gpa: u64, len: u64) -> Option<GuestAct>
    ensures { result ≡ act_of word.now (gpa ∷ len ∷ []) }
{
    if word == b"share".as_slice() {
        return Some(GuestAct::Share { gpa, len });
    }
    if word == b"unshare".as_slice() {
        return Some(GuestAct::Unshare { gpa, len });
    }
    None
}

fn read_exit(words: &mut WordIter<'_>) -> Option<Exit>
    ensures { result ≡ exit_of words.old }
{
    let name = words.next()?;
    if name == b"fuel".as_slice() {
        return Some(Exit::Fuel);
    }
    if name == b"kicked".as_slice() {
        return Some(Exit::Kicked);
    }
    if name == b"wfi".as_slice() {
        return Some(Exit::Wfi);
    }
    if name == b"fault".as_slice() {
        return read_fault(words);
    }
    if name == b"trap".as_slice() {
        return read_trap(words);
    }
    None
}

fn read_fault(words: &mut WordIter<'_>) -> Option<Exit>
    ensures { result ≡ fault_of words.old }
{
    let cause = words.next()?;
    let addr = words.next()?;
    let cause = read_number(cause)?;
    let addr = read_number(addr)?;
    if cause >= 256 {
        return None;
    }
    Some(Exit::Fault {
        cause: cause as u8,
        page: Gpn(addr / 4096),
    })
}

fn read_trap(words: &mut WordIter<'_>) -> Option<Exit>
    ensures { result ≡ trap_of words.old }
{
    let cause = read_number(words.next()?)?;
    if cause >= 256 {
        return None;
    }
    Some(Exit::Trap { cause: cause as u8 })
}

// Appends the numbers up to `=`, five at most.
fn read_arguments(words: &mut WordIter<'_>, args: &mut ArrayVec<u64, 5>) -> Option<()>
    ensures { option_map (λ _. (args.new.items, words.new)) result ≡ arguments_of args.old.items words.old }
{
    loop {
        let word = words.next()?;
        if word == b"=".as_slice() {
            return Some(());
        }
        if args.is_full() {
            return None;
        }
        args.push(read_number(word)?);
    }
}

fn read_call(name: &[u8], words: &mut WordIter<'_>) -> Option<Event>
    ensures { result ≡ call_event_of name.now words.old }
{
    let mut args = ArrayVec::<u64, 5>::new();
    read_arguments(words, &mut args)?;
    let call = call_of(name, args.as_slice())?;
    let reply = read_answer(words)?;
    Some(Event::Call { call, reply })
}

fn read_event(words: &mut WordIter<'_>) -> Option<Event>
    ensures { result ≡ event_named words.old }
{
    let name = words.next()?;
    if name == b"ld".as_slice() {
        return read_load(words);
    }
    if name == b"sd".as_slice() {
        return read_store(words);
    }
    if name == b"fetch".as_slice() {
        return read_fetch(words);
    }
    if name == b"exec".as_slice() {
        return read_exec(words);
    }
    read_asked(name, words)
}

// What the monitor was asked for, or why a guest was left.
fn read_asked(name: &[u8], words: &mut WordIter<'_>) -> Option<Event>
    ensures { result ≡ asked_of name.now words.old }
{
    if name == b"guest".as_slice() {
        return read_guest(words);
    }
    if name == b"exit".as_slice() {
        let exit = read_exit(words)?;
        return Some(Event::Exit { exit });
    }
    read_call(name, words)
}

// The entry that the words of a line name, whatever their spelling.
pub(crate) fn read_entry(bytes: &[u8]) -> Option<Entry>
    ensures { result ≡ entry_named (text_words bytes.now) }
{
    let mut words = split_words(bytes);
    let hart = read_number(words.next()?)?;
    if hart >= 256 {
        return None;
    }
    let event = read_event(&mut words)?;
    Some(Entry {
        hart: HartId(hart as u8),
        event,
    })
}
