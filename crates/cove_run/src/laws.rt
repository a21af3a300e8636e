//! Worked cases of the words that the clauses of the top call speak in.

ghost use Rattle.std.specs.Prelude.{◌≡◌, ◌+◌, ◌++◌, [], ◌∷◌, true, false, Some, Ok, Err, List, ℕ, None, String, length, codes, string_bytes};
ghost use Rattle.std.specs.declared.alloc.Global.{Global};
ghost use Rattle.cove_base.specs.Scripts.{ScriptValue};
ghost use Rattle.cove_base.specs.declared.calls.HostCall.TheVariants.{Convert, GlobalFence, LocalFence, Reclaim, Info, Kick};
ghost use Rattle.cove_base.specs.declared.events.Entry.{Entry};
ghost use Rattle.cove_base.specs.declared.faults.Kind.TheVariants.{TooLong, NotAscii, BadHeader, UnknownWord, BadNumber, WrongCount, OutOfBoard, NoEnd};
ghost use Rattle.cove_base.specs.declared.faults.ScriptFault.{ScriptFault};
ghost use Rattle.cove_base.specs.declared.limits.TheConstants.{SCRIPT_LIMIT};
ghost use Rattle.cove_base.specs.declared.scripts.Line.TheVariants.{Call, Load, Store};
ghost use Rattle.cove_base.specs.declared.statuses.Status.TheVariants.{Success};
ghost use Rattle.cove_journal.specs.Journals.{journal_history};
ghost use Rattle.cove_model.specs.Examples.{board, fence, said};
ghost use Rattle.cove_model.specs.Grammar.{fault_at};
ghost use Rattle.cove_model.specs.Played.{IsOver};
ghost use Rattle.cove_model.specs.Reports.{ended_line, report, report_limit};
ghost use Rattle.cove_run.specs.Printing.{not_built_line, refusal_line};
ghost use Rattle.cove_run.specs.Threads.{IsRefusedBy, PrintsClosed, line_of_0, runs_on_threads, says_run};
ghost use Rattle.cove_run.specs.TopCall.{IsHistoryOf, IsReadBack, Prints, Reads, ReadsWhole, history_of};

/// The line of each kind of refusal; what is read whole and what is not; what is printed and what is not.
pub fn worked_texts()
    ensures too_long { refusal_line (fault_at 0 TooLong) ≡ ended_line (codes "refused 0 TooLong") }
    ensures not_ascii { refusal_line (fault_at 1 NotAscii) ≡ ended_line (codes "refused 1 NotAscii") }
    ensures bad_header { refusal_line (fault_at 2 BadHeader) ≡ ended_line (codes "refused 2 BadHeader") }
    ensures unknown_word { refusal_line (fault_at 12 UnknownWord) ≡ ended_line (codes "refused 12 UnknownWord") }
    ensures bad_number { refusal_line (fault_at 30 BadNumber) ≡ ended_line (codes "refused 30 BadNumber") }
    ensures wrong_count { refusal_line (fault_at 404 WrongCount) ≡ ended_line (codes "refused 404 WrongCount") }
    ensures out_of_board { refusal_line (fault_at 5678 OutOfBoard) ≡ ended_line (codes "refused 5678 OutOfBoard") }
    ensures no_end { refusal_line (fault_at 1048577 NoEnd) ≡ ended_line (codes "refused 1048577 NoEnd") }

    ensures whole { ReadsWhole (Some (codes "ab")) (Some []) (codes "ab") }
    ensures one_left { ReadsWhole (Some (codes "ab")) (Some (codes "b")) (codes "a") → ⊥ }
    ensures one_lost { ReadsWhole (Some (codes "ab")) (Some []) (codes "a") → ⊥ }
    ensures nothing_read { Reads (Some []) (Some []) (Err (fault_at 1 NoEnd)) }
    ensures at_another_line { Reads (Some []) (Some []) (Err (fault_at 2 NoEnd)) → ⊥ }
    ensures stopped_early { (found : _) → Reads (Some (codes "ab")) (Some (codes "b")) found → ⊥ }
    ensures one_too_many { (bytes rest : List ℕ) → length bytes ≡ SCRIPT_LIMIT + 1
        → Reads (Some (bytes ++ rest)) (Some rest) (Err (fault_at 0 TooLong)) }

    ensures prints_the_end { (script : ScriptValue) → IsOver script (history_of script)
        → Prints (Ok script) (report (history_of script)) × (Prints (Ok script) (report_limit (history_of script)) → ⊥) }
    ensures prints_the_limit { (script : ScriptValue) → (IsOver script (history_of script) → ⊥)
        → Prints (Ok script) (report_limit (history_of script)) × (Prints (Ok script) (report (history_of script)) → ⊥) }
    ensures prints_the_fault { Prints (Err (fault_at 3 BadNumber)) (ended_line (codes "refused 3 BadNumber"))
        × (Prints (Err (fault_at 3 BadNumber)) (codes "refused 3 BadNumber") → ⊥) }
{}

/// A script that harts on threads run, and one that they do not.
pub fn worked_threads()
    ensures every_line { (script : ScriptValue) → script.lines ≡ line_of_0 (Call (Convert 16384 1)) ∷ line_of_0 (Call GlobalFence)
        ∷ line_of_0 (Call LocalFence) ∷ line_of_0 (Call (Reclaim 16384 1)) ∷ line_of_0 (Call Info)
        ∷ line_of_0 (Load 16384) ∷ line_of_0 (Store 16384 7) ∷ [] → runs_on_threads script ≡ true }
    ensures no_line { (script : ScriptValue) → script.lines ≡ [] → runs_on_threads script ≡ true }
    ensures a_kick { (script : ScriptValue) → script.lines ≡ line_of_0 (Call GlobalFence) ∷ line_of_0 (Call (Kick 0)) ∷ []
        → runs_on_threads script ≡ false }
    ensures its_line { not_built_line ≡ ended_line (codes "refused 0 NotBuilt") }
    ensures not_built { (script : ScriptValue) → runs_on_threads script ≡ false
        → IsRefusedBy (Ok script) (ended_line (codes "refused 0 NotBuilt")) }
    ensures not_refused { (script : ScriptValue) (text : List ℕ) → runs_on_threads script ≡ true
        → IsRefusedBy (Ok script) text → ⊥ }
{}

/// The word `run` alone is the command of harts on threads.
pub fn worked_commands()
    ensures alone { (word : String Global) → string_bytes word ≡ codes "run" → says_run (word ∷ []) ≡ true }
    ensures other { (word : String Global) → string_bytes word ≡ codes "sched" → says_run (word ∷ []) ≡ false }
    ensures longer { (word : String Global) → string_bytes word ≡ codes "runs" → says_run (word ∷ []) ≡ false }
    ensures none { says_run [] ≡ false }
    ensures another { (word more : String Global) → says_run (word ∷ more ∷ []) ≡ false }
{}

/// Histories whose journals read as them, and one whose journal does not: its entry's value has more than 64 bits.
pub fn worked_journals()
    ensures nothing { IsReadBack [] }
    ensures a_fence { IsReadBack (fence ∷ []) }
    ensures too_large { IsReadBack (said 0 GlobalFence Success 0x1_0000_0000_0000_0000 ∷ []) → ⊥ }
    ensures whole { (history : List Entry) → IsReadBack history → journal_history (report history) ≡ Some (history, true) }
    ensures limited { (history : List Entry) → IsReadBack history → journal_history (report_limit history) ≡ Some (history, false) }
{}

/// What is printed of what `run` read, where a history was made and where none was.
pub fn worked_endings()
    ensures the_end { PrintsClosed (Ok (board 1 [] [] [])) (Some []) (ended_line (codes "end 0")) }
    ensures no_limit { PrintsClosed (Ok (board 1 [] [] [])) (Some []) (ended_line (codes "limit 0")) → ⊥ }
    ensures a_line_more { (text : List ℕ) → PrintsClosed (Ok (board 1 [] [] [])) (Some (fence ∷ [])) text → ⊥ }
    ensures not_run { (script : ScriptValue) (history : List Entry) (text : List ℕ) → runs_on_threads script ≡ false
        → PrintsClosed (Ok script) (Some history) text → ⊥ }
    ensures of_the_script { (script : ScriptValue) (history : List Entry) (text : List ℕ)
        → PrintsClosed (Ok script) (Some history) text → IsHistoryOf script history }
    ensures the_fault { PrintsClosed (Err (fault_at 3 BadNumber)) None (ended_line (codes "refused 3 BadNumber")) }
    ensures another_line { PrintsClosed (Err (fault_at 3 BadNumber)) None (ended_line (codes "refused 2 BadNumber")) → ⊥ }
    ensures no_history { (fault : ScriptFault) (history : List Entry) (text : List ℕ)
        → PrintsClosed (Err fault) (Some history) text → ⊥ }
    ensures not_built { PrintsClosed (Ok (board 1 [] (line_of_0 (Call (Kick 0)) ∷ []) [])) None (ended_line (codes "refused 0 NotBuilt")) }
    ensures runs { (text : List ℕ) → PrintsClosed (Ok (board 1 [] [] [])) None text → ⊥ }
{}
