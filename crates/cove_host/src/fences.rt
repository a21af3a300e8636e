//! The fences of the translations that harts hold of the host's pages.

ghost use Rattle.std.specs.Prelude.{◌≡◌, ◌<◌, ◌≤◌};
ghost use Rattle.cove_base.specs.Places.{epoch_word};
ghost use Rattle.cove_base.specs.declared.calls.HostCall.TheVariants.{GlobalFence, LocalFence};
ghost use Rattle.cove_base.specs.declared.limits.TheConstants.{HART_LIMIT, PAGE_LIMIT};
ghost use Rattle.cove_tvm.specs.Called.{Called, IsReady};
ghost use Rattle.cove_model.specs.HostCalls.{rule};
ghost use Rattle.cove_model.specs.LawfulStores.{AllowsLawful};

use crate::checks::DONE;
use cove_base::{HartId, Reply, Status, Words, epoch_word};
use cove_fence::Epochs;
use cove_tvm::Ground;

/// Begins a global fence, which the calling hart answers at once.
pub fn global_fence<W: Words>(w: &mut W, g: &mut Ground, h: HartId) -> Reply
    requires ready { IsReady (W.words w.old) g.old }
    requires on_board { h.0 < g.old.harts }
    requires allowed { AllowsLawful (W.allows (W.guard w.old)) g.old.pages g.old.harts h.0 (W.words w.old) }
    ensures called { Called h.0 (λ S. rule S h.0 GlobalFence) (W.words w.old) (W.words w.new) g.old g.new result }
    ensures guard { W.guard w.new ≡ W.guard w.old }
{
    match epochs(g).begin(w, h) {
        Err(lowest) => Reply {
            status: Status::AlreadyStarted,
            value: u64::from(lowest.0),
        },
        Ok(_) => DONE,
    }
}

/// Answers the last global fence for the calling hart.
pub fn local_fence<W: Words>(w: &mut W, g: &mut Ground, h: HartId) -> Reply
    requires ready { IsReady (W.words w.old) g.old }
    requires on_board { h.0 < g.old.harts }
    requires allowed { AllowsLawful (W.allows (W.guard w.old)) g.old.pages g.old.harts h.0 (W.words w.old) }
    ensures called { Called h.0 (λ S. rule S h.0 LocalFence) (W.words w.old) (W.words w.new) g.old g.new result }
    ensures guard { W.guard w.new ≡ W.guard w.old }
{
    epochs(g).answer(w, h);
    DONE
}

/// The words of the board's epoch and of the epoch that each hart answered last.
pub(crate) fn epochs(g: &Ground) -> Epochs
    requires pages { g.now.pages ≤ PAGE_LIMIT }
    requires some { 1 ≤ g.now.harts }
    requires harts { g.now.harts ≤ HART_LIMIT }
    ensures first { result.first ≡ epoch_word g.now.pages }
    ensures harts { result.harts ≡ g.now.harts }
{
    Epochs::new(epoch_word(g.pages), g.harts)
}
