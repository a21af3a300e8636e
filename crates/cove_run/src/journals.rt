//! The printed journal, read again.

ghost use Rattle.std.specs.Prelude.{◌≡◌, ◌≤◌, true, false, length, Some, IsTrue};
ghost use Rattle.std.specs.List.{list_all};
ghost use Rattle.cove_base.specs.Scripts.{ScriptValue, is_within_limits};
ghost use Rattle.cove_base.specs.declared.limits.TheConstants.{ENTRY_LIMIT};
ghost use Rattle.cove_journal.specs.Journals.{is_readable, journal_history};
ghost use Rattle.cove_model.specs.Histories.{Follows, Legal};
ghost use Rattle.cove_model.specs.Played.{IsOver};
ghost use Rattle.cove_model.specs.Reports.{report, report_limit};
ghost use Rattle.cove_run.specs.Printing.{AreWritable};
ghost use Rattle.cove_run.specs.TopCall.{IsHistoryOf, IsReadBack};

use cove_base::{History, Script};

/// What `tsm_alone` prints at its statuses 0 and 4 is read back: the journal of every history that the program holds
/// and that is legal for a script within the limits reads as that history, and tells whether every line is ended.
pub fn printed_journals_are_read_back(history: &History)
    // Each entry has a line, and the line names it.
    ensures readable { (script : ScriptValue) → IsTrue (is_within_limits script) → Legal script history.now
        → IsTrue (list_all is_readable history.now) }
    ensures done { (script : ScriptValue) → IsTrue (is_within_limits script) → Legal script history.now
        → journal_history (report history.now) ≡ Some (history.now, true) }
    ensures limit { (script : ScriptValue) → IsTrue (is_within_limits script) → Legal script history.now
        → journal_history (report_limit history.now) ≡ Some (history.now, false) }
{
    history.entries_fit();
}

/// What holds of every history of a script.
pub(crate) fn history_facts(history: &History, script: &Script)
    requires { IsHistoryOf script.now history.now }
    ensures follows { IsOver script.now history.now → Follows script.now history.now }
    ensures writable { AreWritable history.now }
    ensures read_back { IsReadBack history.now }
    ensures few { length history.now ≤ ENTRY_LIMIT }
{
    printed_journals_are_read_back(history);
    let _pages = script.pages;
    let _entries = history.len();
}
