//! The top call for harts on threads: from the bytes of a script to the bytes of its journal.

ghost use Rattle.std.specs.Prelude.{◌≡◌, ◌<◌, ◌≤◌, ◌≢◌, ◌⊎◌, ◌↔◌, IsTrue, IsFalse, IfOk, true, false, None, Some, Ok, Err, List, ℕ, length};
ghost use Rattle.std.specs.Io.KnownBytes.{Appends};
ghost use Rattle.cove_base.specs.Scripts.{ScriptValue};
ghost use Rattle.cove_base.specs.declared.events.Entry.{Entry};
ghost use Rattle.cove_base.specs.declared.limits.TheConstants.{ENTRY_LIMIT};
ghost use Rattle.cove_io.specs.Ends.{AppendsFront, Rose, TakesAtMost};
ghost use Rattle.cove_model.specs.Grammar.{script_of};
ghost use Rattle.cove_model.specs.Histories.{Follows};
ghost use Rattle.cove_model.specs.Played.{IsOver};
ghost use Rattle.cove_model.specs.Reports.{report, report_limit};
ghost use Rattle.cove_monitor.specs.Closing.{AreSeats};
ghost use Rattle.cove_run.specs.Threads.{PrintsClosed, IsRefusedBy, is_threaded, is_threaded_call, runs_on_threads, says_run};
ghost use Rattle.cove_run.specs.TopCall.{IsHistoryOf, IsReadBack, Reads};

use crate::endings::{print_history, refuse_fault, refuse_not_built};
use crate::gates::Gate;
use crate::reading::{Unread, read_script};
use crate::statuses::{BAD_WORDS, NO_MEMORY, SOURCE_FAULT};
use crate::workers::work_through;
use cove_base::{HostCall, Line, NoMemory, SCRIPT_LIMIT, Script};
use cove_io::{Sink, Source};
use cove_monitor::{Closed, Hart, Opened, Room, Started};
use std::alloc::Global;
use std::marker::Brand;
use std::sync::Wait;
use std::thread::Threads;

/// Runs the command `run`: it reads a script, runs it with each hart on a thread of its own, and prints its journal. The
/// order is that of `tsm_alone`. Where a history was made, `closed` holds it then. It answers the program's exit status, if
/// it returns: it waits for threads.
pub fn tsm_threads<R: Threads + Wait + Sync, S: Source, K: Sink, G: Gate + Sync>(
    rt: &R,
    alloc: Global,
    words: &[String],
    source: &mut S,
    sink: &mut K,
    gate: &G,
    closed: &mut Option<Closed>,
) -> u8
    requires { closed.old ≡ None }

    // The words come first.
    ensures bad_words { (result ≡ 2) ↔ (says_run words.now ≡ false) }
    ensures untouched { result ≡ 2 → (source.new ≡ source.old) × (sink.new ≡ sink.old) }

    // The printed journal is that of the history in `closed`, and reads as it. It is legal, makes each hart's lines once
    // and in order, and no page changes hands in it while a translation of a hart names it.
    ensures done { result ≡ 0 → (script : ScriptValue) × (history : List Entry)
        × Reads (S.left source.old) (S.left source.new) (Ok script) × (runs_on_threads script ≡ true)
        × (closed.new ≡ Some history) × Appends (K.taken sink.old) (K.taken sink.new) (report history)
        × IsHistoryOf script history × Follows script history × IsReadBack history }

    // The same where the history came to its limit before a line was made.
    ensures limit { result ≡ 4 → (script : ScriptValue) × (history : List Entry)
        × Reads (S.left source.old) (S.left source.new) (Ok script) × (runs_on_threads script ≡ true)
        × (closed.new ≡ Some history) × Appends (K.taken sink.old) (K.taken sink.new) (report_limit history)
        × IsHistoryOf script history × (length history ≡ ENTRY_LIMIT) × (IsOver script history → ⊥)
        × IsReadBack history }

    // What is no script is refused by one line, which names its first fault; a script with a line that harts on threads
    // do not make yet is refused as not built.
    ensures refused { result ≡ 3 → (found : _) × ((text : List ℕ) × Reads (S.left source.old) (S.left source.new) found
        × IsRefusedBy found text × Appends (K.taken sink.old) (K.taken sink.new) text) }

    // Where no history was printed, none is in `closed`.
    ensures not_closed { result ≢ 0 → result ≢ 4 → result ≢ 6 → closed.new ≡ None }

    // Want of memory comes before the first write, and never where a byte more was taken than a script may have.
    ensures memory { result ≡ 1 → (sink.new ≡ sink.old)
        × TakesAtMost SCRIPT_LIMIT (S.left source.old) (S.left source.new) }

    // Faults come from outside alone, none goes untold, and the sink then holds a front of the text that else stood: of
    // the journal of the history in `closed`, if one is there.
    ensures clean_source { result ≢ 5 → S.count source.new ≡ S.count source.old }
    ensures clean_sink { result ≢ 6 → K.count sink.new ≡ K.count sink.old }
    ensures source_fault { result ≡ 5 → Rose (S.count source.old) (S.count source.new) × (sink.new ≡ sink.old) }
    ensures sink_fault { result ≡ 6 → Rose (K.count sink.old) (K.count sink.new)
        × ((found : _) × ((text : List ℕ) × Reads (S.left source.old) (S.left source.new) found
        × PrintsClosed found closed.new text × AppendsFront (K.taken sink.old) (K.taken sink.new) text)) }

    // No other status comes, and without faults and with memory it tells what the input is.
    ensures statuses { result < 7 }
    ensures script_runs { (bytes : _) (script : ScriptValue) → S.left source.old ≡ Some bytes
        → says_run words.now ≡ true → script_of SCRIPT_LIMIT bytes ≡ Ok script → runs_on_threads script ≡ true
        → ¬ Rose (S.count source.old) (S.count source.new) → ¬ Rose (K.count sink.old) (K.count sink.new)
        → (result ≡ 0) ⊎ ((result ≡ 4) ⊎ (result ≡ 1)) }
    ensures other_is_not_built { (bytes : _) (script : ScriptValue) → S.left source.old ≡ Some bytes
        → says_run words.now ≡ true → script_of SCRIPT_LIMIT bytes ≡ Ok script → runs_on_threads script ≡ false
        → ¬ Rose (S.count source.old) (S.count source.new) → ¬ Rose (K.count sink.old) (K.count sink.new)
        → (result ≡ 3) ⊎ (result ≡ 1) }
    ensures other_is_refused { (bytes : _) (fault : _) → S.left source.old ≡ Some bytes
        → says_run words.now ≡ true → script_of SCRIPT_LIMIT bytes ≡ Err fault
        → ¬ Rose (S.count source.old) (S.count source.new) → ¬ Rose (K.count sink.old) (K.count sink.new)
        → (result ≡ 3) ⊎ (result ≡ 1) }
{
    if !says_run(words) {
        return BAD_WORDS;
    }
    match read_script(alloc, source) {
        Ok(script) => run(rt, alloc, &script, sink, gate, closed),
        Err(Unread::Refused(fault)) => refuse_fault(fault, sink),
        Err(Unread::Fault) => SOURCE_FAULT,
        Err(Unread::NoMemory) => NO_MEMORY,
    }
}

/// Whether the words name the command of [`tsm_threads`].
pub fn says_run(words: &[String]) -> bool
    ensures { result ≡ says_run words.now }
{
    match words {
        [word] => word.as_str() == "run",
        _ => false,
    }
}

// Runs a script with its harts on threads, and prints its journal; or refuses it.
fn run<R: Threads + Wait + Sync, K: Sink, G: Gate + Sync>(
    rt: &R,
    alloc: Global,
    script: &Script,
    sink: &mut K,
    gate: &G,
    closed: &mut Option<Closed>,
) -> u8
    requires { closed.old ≡ None }
    ensures done { result ≡ 0 → (history : List Entry) × (runs_on_threads script.now ≡ true)
        × (closed.new ≡ Some history) × Appends (K.taken sink.old) (K.taken sink.new) (report history)
        × IsHistoryOf script.now history × Follows script.now history × IsReadBack history }
    ensures limit { result ≡ 4 → (history : List Entry) × (runs_on_threads script.now ≡ true)
        × (closed.new ≡ Some history) × Appends (K.taken sink.old) (K.taken sink.new) (report_limit history)
        × IsHistoryOf script.now history × (length history ≡ ENTRY_LIMIT) × (IsOver script.now history → ⊥)
        × IsReadBack history }
    ensures refused { result ≡ 3 → (text : List ℕ) × IsRefusedBy (Ok script.now) text
        × Appends (K.taken sink.old) (K.taken sink.new) text }
    ensures not_closed { result ≢ 0 → result ≢ 4 → result ≢ 6 → closed.new ≡ None }
    ensures memory { result ≡ 1 → sink.new ≡ sink.old }
    ensures sink_fault { result ≡ 6 → Rose (K.count sink.old) (K.count sink.new)
        × ((text : List ℕ) × PrintsClosed (Ok script.now) closed.new text
        × AppendsFront (K.taken sink.old) (K.taken sink.new) text) }
    ensures clean { result ≢ 6 → K.count sink.new ≡ K.count sink.old }
    ensures threaded { runs_on_threads script.now ≡ true → result ≢ 3 }
    ensures not_built { runs_on_threads script.now ≡ false → (result ≡ 3) ⊎ (result ≡ 6) }
    ensures statuses { (result ≡ 0) ⊎ ((result ≡ 1) ⊎ ((result ≡ 3) ⊎ ((result ≡ 4) ⊎ (result ≡ 6)))) }
{
    if !runs_on_threads(script) {
        return refuse_not_built(sink);
    }
    let Ok((ended, is_whole)) = play_on_threads(rt, alloc, script, gate) else {
        return NO_MEMORY;
    };
    let status = print_history(ended.history(), is_whole, script, sink);
    *closed = Some(ended);
    status
}

// Whether harts on threads make every line of a script.
fn runs_on_threads(script: &Script) -> bool
    ensures { result ≡ runs_on_threads script.now }
{
    script
        .lines
        .as_slice()
        .iter()
        .all(|line| is_threaded(line.line))
}

// Whether harts on threads make a line.
fn is_threaded(line: Line) -> bool
    ensures { result ≡ is_threaded line }
{
    match line {
        Line::Call(call) => is_threaded_call(call),
        Line::Load { .. } | Line::Store { .. } => true,
    }
}

// Whether harts on threads make a call.
fn is_threaded_call(call: HostCall) -> bool
    ensures { result ≡ is_threaded_call call }
{
    matches!(
        call,
        HostCall::Convert { .. }
            | HostCall::GlobalFence
            | HostCall::LocalFence
            | HostCall::Reclaim { .. }
            | HostCall::Info
    )
}

// A history of a script that its harts make on threads, and whether every line is ended.
fn play_on_threads<R: Threads + Wait + Sync, G: Gate + Sync>(
    rt: &R,
    alloc: Global,
    script: &Script,
    gate: &G,
) -> Result<(Closed, bool), NoMemory>
    ensures history { IfOk result (λ ended. IsHistoryOf script.now ended.0) }
    ensures whole { IfOk result (λ ended. IsTrue ended.1 ↔ IsOver script.now ended.0) }
    ensures full { IfOk result (λ ended. (IsOver script.now ended.0 → ⊥) → ENTRY_LIMIT ≤ length ended.0) }
{
    let Started { monitor, harts } = Opened::start(alloc, script)?;
    Ok(play_on_board::<Brand, R, G>(rt, script, gate, monitor, harts))
}

// The same, with a name for the board's table.
fn play_on_board<B: Room + Send + Sync, R: Threads + Wait + Sync, G: Gate + Sync>(
    rt: &R,
    script: &Script,
    gate: &G,
    opened: Opened,
    mut harts: Vec<Hart>,
) -> (Closed, bool)
    requires table { opened.table ≡ B.table }
    requires script { opened.script ≡ script.now }
    requires harts { AreSeats B.table script.now harts.items }
    ensures history { IsHistoryOf script.now result.0 }
    ensures whole { IsTrue result.1 → IsOver script.now result.0 }
    ensures left { IsFalse result.1 → (IsOver script.now result.0 → ⊥) }
    ensures full { IsFalse result.1 → ENTRY_LIMIT ≤ length result.0 }
{
    let monitor = opened.named::<B>();
    let is_whole = work_through(rt, &monitor, script, gate, harts.as_mut_slice());
    (monitor.close(harts), is_whole)
}
