//! What answers the calls of the host.

ghost use Rattle.std.specs.Prelude.{◌≡◌, ◌<◌};
ghost use Rattle.cove_model.specs.Answers.{rule_of};
ghost use Rattle.cove_model.specs.LawfulStores.{AllowsLawful};
ghost use Rattle.cove_tvm.specs.Called.{Called, IsReady};

use crate::ground::Ground;
use cove_base::{HartId, HostCall, Reply, Words};

/// What answers the calls of the host: `Covh` of cove_host.
pub trait HostSide {
    /// Answers a call of a hart's. A call that is not built is not supported.
    fn covh<W: Words>(&mut self, w: &mut W, g: &mut Ground, h: HartId, c: HostCall) -> Reply
        requires ready { IsReady (W.words w.old) g.old }
        requires on_board { h.0 < g.old.harts }
        requires allowed { AllowsLawful (W.allows (W.guard w.old)) g.old.pages g.old.harts h.0 (W.words w.old) }
        ensures served { Called h.0 (λ S. rule_of S h.0 c) (W.words w.old) (W.words w.new) g.old g.new result }
        ensures guard { W.guard w.new ≡ W.guard w.old };
}
