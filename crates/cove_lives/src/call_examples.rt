//! Worked examples of what a call of a hart needs, and what it leaves.

ghost use Rattle.std.specs.Prelude.{◌≡◌, ◌≢◌, ◌+◌, ◌<◌, ℕ, List, [], ◌∷◌, false, None, Some, length, slice_index, slice_set};
ghost use Rattle.cove_base.specs.Places.{answered_word, count_word, epoch_word};
ghost use Rattle.cove_base.specs.declared.calls.HostCall.{HostCall};
ghost use Rattle.cove_base.specs.declared.calls.HostCall.TheVariants.{Convert, Create};
ghost use Rattle.cove_base.specs.declared.limits.TheConstants.{ENTRY_LIMIT};
ghost use Rattle.cove_base.specs.declared.statuses.Reply.{Reply};
ghost use Rattle.cove_base.specs.declared.statuses.Status.TheVariants.{Denied, InvalidParam, NotSupported, Success};
ghost use Rattle.cove_model.specs.Answers.{is_built, refusal_by, rule_of};
ghost use Rattle.cove_model.specs.HostCalls.{rule};
ghost use Rattle.cove_model.specs.Owners.{AsState, Given, Host};
ghost use Rattle.cove_model.specs.States.{State, opening};
ghost use Rattle.cove_model.specs.WordsStand.{FencesWithin, epoch_in};
ghost use Rattle.cove_lives.specs.CallExamples.{only, small_ground, small_script, small_words};
ghost use Rattle.cove_tvm.specs.Called.{Called, IsMet, IsReady};
ghost use Rattle.cove_lives.specs.Examples.{nine_free};
ghost use Rattle.cove_tvm.specs.GroundLaws.{IsNewGround};
ghost use Rattle.cove_tvm.specs.Stands.{Stands};
ghost use Rattle.cove_tvm.specs.declared.ground.Ground.{Ground};

/// The state before any call is met; one in which a TVM that isn't live has a page or a hart, or a page lacks words, is not.
pub fn worked_meeting()
    ensures opening { IsMet (opening small_script) }
    ensures page_of_none { IsMet (record nine_free { pages = Given 1 AsState ∷ [] }) → ⊥ }
    ensures hart_in_none { IsMet (record nine_free { seats = λ hart. Some (record { tvm = 1; cpu = 0 }) }) → ⊥ }
    ensures no_words { IsMet (record nine_free { pages = Host [] ∷ [] }) → ⊥ }
{}

/// A new ground, which has no kick, is ready with words of zeros; it isn't without a hart, where its epoch may not rise, or without
/// words.
pub fn worked_readiness()
    ensures ground { IsNewGround small_script small_ground }
    ensures kicked { IsNewGround small_script (record small_ground { kicked = 1 }) → ⊥ }
    ensures stands { Stands small_words small_ground (opening small_script) }
    ensures ready { IsReady small_words small_ground }
    ensures no_hart { IsReady small_words (record small_ground { harts = 0 }) → ⊥ }
    ensures last_epoch { IsReady (slice_set small_words (epoch_word 1) ENTRY_LIMIT) small_ground → ⊥ }
    ensures no_words { IsReady [] small_ground → ⊥ }
{}

/// A convert of no page is refused in every state, and leaves words and ground; no refused call may change either.
pub fn worked_refusing()
    ensures refused { (hart : ℕ) (words : List ℕ) (G : Ground) → Called hart (λ S. rule S hart (Convert 0 0)) words words G G (only InvalidParam) }
    ensures another_status { (hart : ℕ) (words new : List ℕ) (G H : Ground) (S : State) → IsMet S → Stands words G S
        → Called hart (λ S. rule S hart (Convert 0 0)) words new G H (only Success) → ⊥ }
    ensures word_changed { (hart : ℕ) (call : HostCall) (rest : List ℕ) (G H : Ground)
        → Called hart (λ S. rule S hart call) (0 ∷ rest) (1 ∷ rest) G H (only Denied) → ⊥ }
    ensures ground_changed { (hart : ℕ) (call : HostCall) (words new : List ℕ) (G : Ground)
        → Called hart (λ S. rule S hart call) words new G (record G { kicked = G.kicked + 1 }) (only Denied) → ⊥ }
{}

/// A creation that leaves the TVMs is none; no call moves the count, lets a fence rise by two or answers for another hart.
pub fn worked_accepting()
    ensures no_tvm { (hart root state : ℕ) (words new : List ℕ) (G : Ground) (S : State) (reply : Reply) → IsMet S → Stands words G S
        → refusal_by (rule S hart (Create root state)) ≡ None → Called hart (λ S. rule S hart (Create root state)) words new G G reply → ⊥ }
    ensures count { (hart : ℕ) (call : HostCall) (words : List ℕ) (G H : Ground) (reply : Reply)
        → count_word G.pages G.harts < length words
        → Called hart (λ S. rule S hart call) words (slice_set words (count_word G.pages G.harts) (slice_index words (count_word G.pages G.harts) + 1)) G H reply
        → ⊥ }
    ensures fence { (hart : ℕ) (call : HostCall) (words new : List ℕ) (G H : Ground) (reply : Reply)
        → FencesWithin G.pages G.harts words 3 → epoch_in G.pages new ≡ 5 → Called hart (λ S. rule S hart call) words new G H reply → ⊥ }
    ensures other_hart { (hart other : ℕ) (call : HostCall) (words : List ℕ) (G H : Ground) (reply : Reply)
        → other < G.harts → other ≢ hart → answered_word G.pages other < length words
        → Called hart (λ S. rule S hart call) words (slice_set words (answered_word G.pages other) (slice_index words (answered_word G.pages other) + 1)) G H reply
        → ⊥ }
{}

/// A call that is not built is answered that it isn't supported, and leaves words and ground; no other answer serves.
pub fn worked_serving()
    ensures unbuilt { (hart : ℕ) (call : HostCall) (words : List ℕ) (G : Ground)
        → is_built call ≡ false → Called hart (λ S. rule_of S hart call) words words G G (only NotSupported) }
    ensures done { (hart : ℕ) (call : HostCall) (words new : List ℕ) (G H : Ground) (S : State)
        → is_built call ≡ false → IsMet S → Stands words G S → Called hart (λ S. rule_of S hart call) words new G H (only Success) → ⊥ }
    ensures refused { (hart : ℕ) (words : List ℕ) (G : Ground) → Called hart (λ S. rule_of S hart (Convert 0 0)) words words G G (only InvalidParam) }
    ensures word_changed { (hart : ℕ) (call : HostCall) (rest : List ℕ) (G H : Ground)
        → Called hart (λ S. rule_of S hart call) (0 ∷ rest) (1 ∷ rest) G H (only NotSupported) → ⊥ }
{}

/// No call that is served moves the count, lets a fence rise by two or answers for another hart.
pub fn worked_bounds()
    ensures count { (hart : ℕ) (call : HostCall) (words : List ℕ) (G H : Ground) (reply : Reply)
        → count_word G.pages G.harts < length words
        → Called hart (λ S. rule_of S hart call) words (slice_set words (count_word G.pages G.harts) (slice_index words (count_word G.pages G.harts) + 1)) G H reply
        → ⊥ }
    ensures fence { (hart : ℕ) (call : HostCall) (words new : List ℕ) (G H : Ground) (reply : Reply)
        → FencesWithin G.pages G.harts words 3 → epoch_in G.pages new ≡ 5 → Called hart (λ S. rule_of S hart call) words new G H reply → ⊥ }
    ensures other_hart { (hart other : ℕ) (call : HostCall) (words : List ℕ) (G H : Ground) (reply : Reply)
        → other < G.harts → other ≢ hart → answered_word G.pages other < length words
        → Called hart (λ S. rule_of S hart call) words (slice_set words (answered_word G.pages other) (slice_index words (answered_word G.pages other) + 1)) G H reply
        → ⊥ }
{}
