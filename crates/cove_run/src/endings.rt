//! How a command ends: what it prints last, and the status that it answers.

ghost use Rattle.std.specs.Prelude.{◌≡◌, ◌≢◌, ◌≤◌, ◌⊎◌, ◌↔◌, IsTrue, List, ℕ, length};
ghost use Rattle.std.specs.Io.KnownBytes.{Appends};
ghost use Rattle.cove_base.specs.declared.limits.TheConstants.{ENTRY_LIMIT};
ghost use Rattle.cove_io.specs.Ends.{AppendsFront, Rose};
ghost use Rattle.cove_model.specs.Histories.{Follows};
ghost use Rattle.cove_model.specs.Played.{IsOver};
ghost use Rattle.cove_model.specs.Reports.{report, report_limit};
ghost use Rattle.cove_run.specs.Printing.{not_built_line, refusal_line, refused_line};
ghost use Rattle.cove_run.specs.TopCall.{IsHistoryOf, IsReadBack, PrintsHistory};

use crate::journals::history_facts;
use crate::printing::{kind_word, print_journal, print_refusal};
use crate::statuses::{AT_LIMIT, DONE, REFUSED, SINK_FAULT};
use cove_base::{History, Script, ScriptFault};
use cove_io::{Failed, Sink};

/// Refuses an input for its first fault.
pub(crate) fn refuse_fault<K: Sink>(fault: ScriptFault, sink: &mut K) -> u8
    ensures refused { result ≡ 3 → Appends (K.taken sink.old) (K.taken sink.new) (refusal_line fault) }
    ensures sink_fault { result ≡ 6 → Rose (K.count sink.old) (K.count sink.new)
        × AppendsFront (K.taken sink.old) (K.taken sink.new) (refusal_line fault) }
    ensures clean { result ≢ 6 → K.count sink.new ≡ K.count sink.old }
    ensures statuses { (result ≡ 3) ⊎ (result ≡ 6) }
{
    refuse(fault.line, kind_word(fault.kind), sink)
}

/// Refuses a script that harts on threads do not run.
pub(crate) fn refuse_not_built<K: Sink>(sink: &mut K) -> u8
    ensures refused { result ≡ 3 → Appends (K.taken sink.old) (K.taken sink.new) not_built_line }
    ensures sink_fault { result ≡ 6 → Rose (K.count sink.old) (K.count sink.new)
        × AppendsFront (K.taken sink.old) (K.taken sink.new) not_built_line }
    ensures clean { result ≢ 6 → K.count sink.new ≡ K.count sink.old }
    ensures statuses { (result ≡ 3) ⊎ (result ≡ 6) }
{
    refuse(0, b"NotBuilt", sink)
}

// Prints the one line that refuses an input.
fn refuse<K: Sink>(number: u32, word: &[u8], sink: &mut K) -> u8
    requires { length word.now ≤ 11 }
    ensures refused { result ≡ 3 → Appends (K.taken sink.old) (K.taken sink.new) (refused_line number word.now) }
    ensures sink_fault { result ≡ 6 → Rose (K.count sink.old) (K.count sink.new)
        × AppendsFront (K.taken sink.old) (K.taken sink.new) (refused_line number word.now) }
    ensures clean { result ≢ 6 → K.count sink.new ≡ K.count sink.old }
    ensures statuses { (result ≡ 3) ⊎ (result ≡ 6) }
{
    match print_refusal(number, word, sink) {
        Ok(()) => REFUSED,
        Err(Failed) => SINK_FAULT,
    }
}

/// Prints the journal of a history of a script.
pub(crate) fn print_history<K: Sink>(
    history: &History,
    is_whole: bool,
    script: &Script,
    sink: &mut K,
) -> u8
    requires history { IsHistoryOf script.now history.now }
    requires whole { IsTrue is_whole ↔ IsOver script.now history.now }
    requires full { (IsOver script.now history.now → ⊥) → ENTRY_LIMIT ≤ length history.now }
    ensures done { result ≡ 0 → IsOver script.now history.now
        × Appends (K.taken sink.old) (K.taken sink.new) (report history.now)
        × Follows script.now history.now × IsReadBack history.now }
    ensures limit { result ≡ 4 → (IsOver script.now history.now → ⊥)
        × Appends (K.taken sink.old) (K.taken sink.new) (report_limit history.now)
        × (length history.now ≡ ENTRY_LIMIT) × IsReadBack history.now }
    ensures sink_fault { result ≡ 6 → Rose (K.count sink.old) (K.count sink.new)
        × ((text : List ℕ) × PrintsHistory script.now history.now text
        × AppendsFront (K.taken sink.old) (K.taken sink.new) text) }
    ensures clean { result ≢ 6 → K.count sink.new ≡ K.count sink.old }
    ensures statuses { (result ≡ 0) ⊎ ((result ≡ 4) ⊎ (result ≡ 6)) }
{
    history_facts(history, script);
    match print_journal(history, is_whole, sink) {
        Ok(()) if is_whole => DONE,
        Ok(()) => AT_LIMIT,
        Err(Failed) => SINK_FAULT,
    }
}
