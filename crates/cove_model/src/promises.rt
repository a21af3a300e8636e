//! What the headline promises of each answer and of each load, each on a function with an empty body.

ghost use Rattle.std.specs.Prelude.{◌≡◌, ◌≤◌, ◌↔◌, ◌⊎◌, ℕ, List, ◌∷◌, ◌++◌, length, Some, None, IsSome};
ghost use Rattle.cove_base.specs.Scripts.{ScriptValue};
ghost use Rattle.cove_base.specs.declared.calls.HostCall.{HostCall};
ghost use Rattle.cove_base.specs.declared.events.Entry.{Entry};
ghost use Rattle.cove_base.specs.declared.events.Event.{Event};
ghost use Rattle.cove_base.specs.declared.events.Event.TheVariants.{Call, Load};
ghost use Rattle.cove_base.specs.declared.events.How.{How};
ghost use Rattle.cove_base.specs.declared.statuses.Reply.{Reply};
ghost use Rattle.cove_base.specs.declared.statuses.Status.TheVariants.{Success};
ghost use Rattle.cove_model.specs.Answers.{outcome, reply_to, rule_of, state_after};
ghost use Rattle.cove_model.specs.FirstChecks.{AllPassed, FailsFirst, reply_of};
ghost use Rattle.cove_model.specs.Histories.{Legal, after};
ghost use Rattle.cove_model.specs.HostMemory.{host_memory, host_word};
ghost use Rattle.cove_model.specs.Owners.{TheHost, holder, page_at, zeros};
ghost use Rattle.cove_model.specs.Refusals.{Check};
ghost use Rattle.cove_model.specs.States.{State};
ghost use Rattle.cove_model.specs.Steps.{after_event};

/// Each call is answered by the first of its rule's checks that fails, and by success with its outcome's value where
/// none fails, in every state.
pub fn first_failing_checks_answer()
    // A call that is refused changes nothing.
    ensures refused { (S : State) (hart : ℕ) (call : HostCall) (i : ℕ) (check : Check)
        → FailsFirst ((rule_of S hart call).checks) i check
        → (reply_to S hart call ≡ reply_of check) × (state_after S hart call ≡ S) }
    ensures accepted { (S : State) (hart : ℕ) (call : HostCall) → AllPassed ((rule_of S hart call).checks)
        → (reply_to S hart call ≡ record { status = Success; value = (outcome S hart call).value })
        × (state_after S hart call ≡ (outcome S hart call).state) }

    // One of the two holds, and not both, of one check alone; so success is answered exactly where none fails.
    ensures either { (checks : List Check)
        → ((i : ℕ) × ((check : Check) × FailsFirst checks i check)) ⊎ AllPassed checks }
    ensures not_both { (checks : List Check) (i : ℕ) (check : Check)
        → FailsFirst checks i check → AllPassed checks → ⊥ }
    ensures one { (checks : List Check) (i j : ℕ) (check other : Check)
        → FailsFirst checks i check → FailsFirst checks j other → (i ≡ j) × (check ≡ other) }
    ensures success { (S : State) (hart : ℕ) (call : HostCall)
        → ((reply_to S hart call).status ≡ Success) ↔ AllPassed ((rule_of S hart call).checks) }

    // So is each call of a legal history, in the state after the entries before it.
    ensures entries { (script : ScriptValue) (before rest : List Entry) (entry : Entry) (call : HostCall) (reply : Reply)
        → Legal script (before ++ entry ∷ rest) → entry.event ≡ Call call reply
        → reply ≡ reply_to (after script before) entry.hart.0 call }
{}

/// Host reads show host memory alone.
pub fn host_reads_show_host_memory()
    // The value of each load of a legal history is the word of host memory there, after the entries before it.
    ensures loads { (script : ScriptValue) (before rest : List Entry) (entry : Entry) (addr : ℕ) (how : How) (value : ℕ)
        → Legal script (before ++ entry ∷ rest) → entry.event ≡ Load addr how value
        → host_word (after script before) addr ≡ Some value }

    // Host memory has words for the pages that the host holds, 512 each, and for no other page.
    ensures pages { (S : State) (p : ℕ) → IsSome (host_memory S p) ↔ (holder (page_at S.pages p) ≡ TheHost) }
    ensures words { (script : ScriptValue) (history : List Entry) (p : ℕ) (words : List ℕ)
        → host_memory (after script history) p ≡ Some words → length words ≡ 512 }
    ensures outside { (script : ScriptValue) (history : List Entry) (p : ℕ)
        → script.pages ≤ p → host_memory (after script history) p ≡ None }

    // A page that comes to the host has zeros, whatever it held.
    ensures returned { (S : State) (hart : ℕ) (event : Event) (p : ℕ) (words : List ℕ)
        → host_memory S p ≡ None → host_memory (after_event S hart event) p ≡ Some words → words ≡ zeros }
{}
