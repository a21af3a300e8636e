//! The top call: from the bytes of a script to the bytes of its journal.

ghost use Rattle.std.specs.Prelude.{◌≡◌, ◌<◌, ◌≤◌, ◌≢◌, ◌⊎◌, ◌↔◌, IsTrue, IfOk, true, false, Some, Ok, Err, List, ℕ, length};
ghost use Rattle.std.specs.Io.KnownBytes.{Appends};
ghost use Rattle.cove_base.specs.Scripts.{ScriptValue};
ghost use Rattle.cove_io.specs.Ends.{AppendsFront, Rose, TakesAtMost};
ghost use Rattle.cove_model.specs.Commands.{accepts};
ghost use Rattle.cove_model.specs.Histories.{Follows};
ghost use Rattle.cove_model.specs.Grammar.{script_of};
ghost use Rattle.cove_model.specs.Played.{IsOver};
ghost use Rattle.cove_model.specs.Reports.{report, report_limit};
ghost use Rattle.cove_run.specs.Printing.{AreWritable, refusal_line};
ghost use Rattle.cove_run.specs.TopCall.{IsHistoryOf, IsReadBack, Prints, Reads, history_of};

use crate::endings::{print_history, refuse_fault};
use crate::reading::{Unread, read_script};
use crate::statuses::{BAD_WORDS, NO_MEMORY, SOURCE_FAULT};
use cove_base::{ENTRY_LIMIT, History, NoMemory, SCRIPT_LIMIT, Script};
use cove_core::{build, play};
use cove_io::{Sink, Source};
use std::alloc::Global;

/// What the program prints on standard error where its words name no command.
pub const USAGE: &str = "usage: tsm sched | run | gen N | audit | verify | host | pool N W";

/// Runs a command: `sched` reads a script, runs it by turns, and prints its journal. The words are looked at
/// first; then the input is read to its end, or to one byte more than a script may have; then it is parsed; then
/// all memory is taken; then the steps are made; then the text is written, each line as one piece. It answers the
/// program's exit status.
pub fn tsm_alone<S: Source, K: Sink>(
    alloc: Global,
    words: &[String],
    source: &mut S,
    sink: &mut K,
) -> u8
    // The words come first.
    ensures bad_words { (result ≡ 2) ↔ (accepts words.now ≡ false) }
    ensures untouched { result ≡ 2 → (source.new ≡ source.old) × (sink.new ≡ sink.old) }

    // The printed journal is that of the one history that the script plays, and reads as it. It is legal, makes each
    // hart's lines once and in order, and no page changes hands in it while a translation of a hart names it.
    ensures done { result ≡ 0 → (script : ScriptValue)
        × Reads (S.left source.old) (S.left source.new) (Ok script)
        × Appends (K.taken sink.old) (K.taken sink.new) (report (history_of script))
        × IsHistoryOf script (history_of script) × Follows script (history_of script)
        × IsReadBack (history_of script) }

    // The same where the history came to its limit before a line was made.
    ensures limit { result ≡ 4 → (script : ScriptValue)
        × Reads (S.left source.old) (S.left source.new) (Ok script)
        × Appends (K.taken sink.old) (K.taken sink.new) (report_limit (history_of script))
        × IsHistoryOf script (history_of script)
        × (length (history_of script) ≡ ENTRY_LIMIT) × (IsOver script (history_of script) → ⊥)
        × IsReadBack (history_of script) }

    // What is no script is refused by one line, which names its first fault.
    ensures refused { result ≡ 3 → (fault : _) × Reads (S.left source.old) (S.left source.new) (Err fault)
        × Appends (K.taken sink.old) (K.taken sink.new) (refusal_line fault) }

    // Want of memory comes before the first write, and never where a byte more was taken than a script may have.
    ensures memory { result ≡ 1 → (sink.new ≡ sink.old)
        × TakesAtMost SCRIPT_LIMIT (S.left source.old) (S.left source.new) }

    // Faults come from outside alone, none goes untold, and the sink then holds a front of the text that else stood.
    ensures clean_source { result ≢ 5 → S.count source.new ≡ S.count source.old }
    ensures clean_sink { result ≢ 6 → K.count sink.new ≡ K.count sink.old }
    ensures source_fault { result ≡ 5 → Rose (S.count source.old) (S.count source.new) × (sink.new ≡ sink.old) }
    ensures sink_fault { result ≡ 6 → Rose (K.count sink.old) (K.count sink.new)
        × ((found : _) × ((text : List ℕ) × Reads (S.left source.old) (S.left source.new) found
        × Prints found text × AppendsFront (K.taken sink.old) (K.taken sink.new) text)) }

    // No other status comes, and without faults and with memory it tells what the input is.
    ensures statuses { result < 7 }
    ensures script_ends { (bytes : _) (script : ScriptValue) → S.left source.old ≡ Some bytes
        → accepts words.now ≡ true → script_of SCRIPT_LIMIT bytes ≡ Ok script → IsOver script (history_of script)
        → ¬ Rose (S.count source.old) (S.count source.new) → ¬ Rose (K.count sink.old) (K.count sink.new)
        → (result ≡ 0) ⊎ (result ≡ 1) }
    ensures script_stops { (bytes : _) (script : ScriptValue) → S.left source.old ≡ Some bytes
        → accepts words.now ≡ true → script_of SCRIPT_LIMIT bytes ≡ Ok script
        → (IsOver script (history_of script) → ⊥)
        → ¬ Rose (S.count source.old) (S.count source.new) → ¬ Rose (K.count sink.old) (K.count sink.new)
        → (result ≡ 4) ⊎ (result ≡ 1) }
    ensures other_is_refused { (bytes : _) (fault : _) → S.left source.old ≡ Some bytes
        → accepts words.now ≡ true → script_of SCRIPT_LIMIT bytes ≡ Err fault
        → ¬ Rose (S.count source.old) (S.count source.new) → ¬ Rose (K.count sink.old) (K.count sink.new)
        → (result ≡ 3) ⊎ (result ≡ 1) }
{
    if !accepts(words) {
        return BAD_WORDS;
    }
    match read_script(alloc, source) {
        Ok(script) => run(alloc, &script, sink),
        Err(Unread::Refused(fault)) => refuse_fault(fault, sink),
        Err(Unread::Fault) => SOURCE_FAULT,
        Err(Unread::NoMemory) => NO_MEMORY,
    }
}

// Whether the words name a command.
fn accepts(words: &[String]) -> bool
    ensures { result ≡ accepts words.now }
{
    match words {
        [word] => word.as_str() == "sched",
        _ => false,
    }
}

// Runs a script, and prints its journal.
fn run<K: Sink>(alloc: Global, script: &Script, sink: &mut K) -> u8
    ensures done { result ≡ 0 → IsOver script.now (history_of script.now)
        × Appends (K.taken sink.old) (K.taken sink.new) (report (history_of script.now))
        × IsHistoryOf script.now (history_of script.now) × Follows script.now (history_of script.now)
        × IsReadBack (history_of script.now) }
    ensures limit { result ≡ 4 → (IsOver script.now (history_of script.now) → ⊥)
        × Appends (K.taken sink.old) (K.taken sink.new) (report_limit (history_of script.now))
        × IsHistoryOf script.now (history_of script.now) × (length (history_of script.now) ≡ ENTRY_LIMIT)
        × IsReadBack (history_of script.now) }
    ensures memory { result ≡ 1 → sink.new ≡ sink.old }
    ensures sink_fault { result ≡ 6 → Rose (K.count sink.old) (K.count sink.new)
        × ((text : List ℕ) × Prints (Ok script.now) text × AppendsFront (K.taken sink.old) (K.taken sink.new) text) }
    ensures clean { result ≢ 6 → K.count sink.new ≡ K.count sink.old }
    ensures statuses { (result ≡ 0) ⊎ ((result ≡ 1) ⊎ ((result ≡ 4) ⊎ (result ≡ 6))) }
{
    let Ok((history, is_whole)) = play_out(alloc, script) else {
        return NO_MEMORY;
    };
    print_played(&history, is_whole, script, sink)
}

// Prints the journal of the history that a script plays.
fn print_played<K: Sink>(history: &History, is_whole: bool, script: &Script, sink: &mut K) -> u8
    requires history { history.now ≡ history_of script.now }
    requires whole { IsTrue is_whole ↔ IsOver script.now (history_of script.now) }
    ensures done { result ≡ 0 → IsOver script.now (history_of script.now)
        × Appends (K.taken sink.old) (K.taken sink.new) (report (history_of script.now))
        × IsHistoryOf script.now (history_of script.now) × Follows script.now (history_of script.now)
        × IsReadBack (history_of script.now) }
    ensures limit { result ≡ 4 → (IsOver script.now (history_of script.now) → ⊥)
        × Appends (K.taken sink.old) (K.taken sink.new) (report_limit (history_of script.now))
        × IsHistoryOf script.now (history_of script.now) × (length (history_of script.now) ≡ ENTRY_LIMIT)
        × IsReadBack (history_of script.now) }
    ensures sink_fault { result ≡ 6 → Rose (K.count sink.old) (K.count sink.new)
        × ((text : List ℕ) × Prints (Ok script.now) text × AppendsFront (K.taken sink.old) (K.taken sink.new) text) }
    ensures clean { result ≢ 6 → K.count sink.new ≡ K.count sink.old }
    ensures statuses { (result ≡ 0) ⊎ ((result ≡ 4) ⊎ (result ≡ 6)) }
{
    played_facts(script);
    print_history(history, is_whole, script, sink)
}

// What holds of the history that a script plays.
fn played_facts(script: &Script)
    ensures history { IsHistoryOf script.now (history_of script.now) }
    ensures full { (IsOver script.now (history_of script.now) → ⊥) → ENTRY_LIMIT ≤ length (history_of script.now) }
{
    let _pages = script.pages;
}

// The history that a script plays, and whether every line is ended.
fn play_out(alloc: Global, script: &Script) -> Result<(History, bool), NoMemory>
    ensures history { IfOk result (λ found. found.0 ≡ history_of script.now) }
    ensures whole { IfOk result (λ found. IsTrue found.1 ↔ IsOver script.now (history_of script.now)) }
{
    let mut built = build(alloc, script)?;
    let is_whole = play(&mut built, script);
    Ok((built.mon.history, is_whole))
}
