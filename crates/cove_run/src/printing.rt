//! What the program prints, line by line.

ghost use Rattle.std.specs.Prelude.{◌≡◌, ◌≤◌, OnOk, OnErr, codes, length, IsTrue, if◌then◌else◌};
ghost use Rattle.std.specs.Io.KnownBytes.{Appends};
ghost use Rattle.cove_io.specs.Ends.{AppendsFront, Rose};
ghost use Rattle.cove_journal.specs.Lines.{is_writable, last_line_of};
ghost use Rattle.cove_model.specs.Reports.{ended_line, entry_line, journal};
ghost use Rattle.cove_run.specs.Printing.{AreWritable, kind_text, refused_line};

use cove_base::{History, Kind, LentEntry};
use cove_io::{Failed, Sink, write_all};
use cove_journal::{last_line, line};
use cove_text::{LineBuf, put_decimal};

/// Prints the journal of a history, each line as one piece: its last line begins with `end` where every line of the
/// script is ended, else with `limit`.
pub fn print_journal<K: Sink>(history: &History, is_whole: bool, sink: &mut K) -> Result<(), Failed>
    requires writable { AreWritable history.now }
    ensures count { K.count sink.old ≤ K.count sink.new }
    ensures clean { OnOk result (K.count sink.new ≡ K.count sink.old) }
    ensures ok { OnOk result (Appends (K.taken sink.old) (K.taken sink.new)
        (journal (if is_whole then codes "end" else codes "limit") history.now)) }
    ensures failed { OnErr result (Rose (K.count sink.old) (K.count sink.new)) }
    ensures front { OnErr result (AppendsFront (K.taken sink.old) (K.taken sink.new)
        (journal (if is_whole then codes "end" else codes "limit") history.now)) }
{
    let mut text = LineBuf::new();
    let entries = history.len();
    for i in 0..entries {
        let Some(entry) = history.get(i) else {
            unreachable!()
        };
        put_line(&mut text, &entry);
        write_all(sink, text.as_slice())?;
    }
    put_last(&mut text, entries as u32, is_whole);
    write_all(sink, text.as_slice())
}

// The line of an entry, with its line feed.
fn put_line(text: &mut LineBuf, entry: &LentEntry<'_>)
    requires { IsTrue (is_writable entry.now.event) }
    ensures { text.new ≡ ended_line (entry_line entry.now) }
{
    line(entry, text);
    text.push(b'\n');
}

// The last line of a journal of so many entries, with its line feed.
fn put_last(text: &mut LineBuf, entries: u32, is_whole: bool)
    ensures { text.new ≡ ended_line (last_line_of is_whole entries) }
{
    last_line(entries, is_whole, text);
    text.push(b'\n');
}

/// Prints the one line that refuses an input: the number of a line, and a word for what is wrong there.
pub fn print_refusal<K: Sink>(number: u32, word: &[u8], sink: &mut K) -> Result<(), Failed>
    requires { length word.now ≤ 11 }
    ensures count { K.count sink.old ≤ K.count sink.new }
    ensures clean { OnOk result (K.count sink.new ≡ K.count sink.old) }
    ensures ok { OnOk result (Appends (K.taken sink.old) (K.taken sink.new) (refused_line number word.now)) }
    ensures failed { OnErr result (Rose (K.count sink.old) (K.count sink.new)) }
    ensures front { OnErr result (AppendsFront (K.taken sink.old) (K.taken sink.new) (refused_line number word.now)) }
{
    let mut text = LineBuf::new();
    text.put_bytes(b"refused ");
    put_decimal(&mut text, i64::from(number));
    text.push(b' ');
    text.put_bytes(word);
    text.push(b'\n');
    write_all(sink, text.as_slice())
}

/// The word of a kind of fault.
pub fn kind_word(kind: Kind) -> &'static [u8]
    ensures word { result.now ≡ kind_text kind }
    ensures short { length result.now ≤ 11 }
{
    match kind {
        Kind::TooLong => b"TooLong",
        Kind::NotAscii => b"NotAscii",
        Kind::BadHeader => b"BadHeader",
        Kind::UnknownWord => b"UnknownWord",
        Kind::BadNumber => b"BadNumber",
        Kind::WrongCount => b"WrongCount",
        Kind::OutOfBoard => b"OutOfBoard",
        Kind::NoEnd => b"NoEnd",
    }
}
