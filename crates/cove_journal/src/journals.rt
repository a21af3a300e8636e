ghost use Rattle.std.specs.Prelude.{◌≡◌, ℕ, Bool, true, false, List, Some, IsTrue, if◌then◌else◌};
ghost use Rattle.std.specs.List.{list_all};
ghost use Rattle.cove_base.specs.declared.events.Entry.{Entry};
ghost use Rattle.cove_model.specs.Reports.{report, report_limit};
ghost use Rattle.cove_journal.specs.Journals.{is_readable, journal_history};

/// A journal that is printed and read again is the history: it reads as the history that it was printed of, and
/// tells whether every line of the script is ended; no other text reads as that; and histories with the same
/// journal are the same.
pub fn journals_are_read_back()
    ensures whole { (history : List Entry) → IsTrue (list_all is_readable history)
        → journal_history (report history) ≡ Some (history, true) }
    ensures limit { (history : List Entry) → IsTrue (list_all is_readable history)
        → journal_history (report_limit history) ≡ Some (history, false) }
    ensures exact { (text : List ℕ) (history : List Entry) (whole : Bool)
        → journal_history text ≡ Some (history, whole)
        → IsTrue (list_all is_readable history) × (text ≡ (if whole then report history else report_limit history)) }
    ensures one { (history other : List Entry)
        → IsTrue (list_all is_readable history) → IsTrue (list_all is_readable other)
        → report history ≡ report other → history ≡ other }
    ensures one_limit { (history other : List Entry)
        → IsTrue (list_all is_readable history) → IsTrue (list_all is_readable other)
        → report_limit history ≡ report_limit other → history ≡ other }
{}
