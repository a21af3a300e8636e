//! The answer to every call of the host.

ghost use Rattle.std.specs.Prelude.{◌≡◌};
ghost use Rattle.cove_core.specs.CanCall.{CanCall};
ghost use Rattle.cove_model.specs.Answers.{rule_of};
ghost use Rattle.cove_model.specs.LawfulStores.{AllowsLawful};
ghost use Rattle.cove_tvm.specs.Called.{Called};

use cove_base::{HartId, HostCall, Reply, Words};
use cove_host::Covh;
use cove_tvm::{Ground, HostSide};

/// Answers a call of a hart's. A call that is not built is not supported.
pub fn call<W: Words>(w: &mut W, g: &mut Ground, h: HartId, c: HostCall) -> Reply
    requires can { CanCall (W.words w.old) g.old h.0 }
    requires allowed { AllowsLawful (W.allows (W.guard w.old)) g.old.pages g.old.harts h.0 (W.words w.old) }
    ensures served { Called h.0 (λ S. rule_of S h.0 c) (W.words w.old) (W.words w.new) g.old g.new result }
    ensures guard { W.guard w.new ≡ W.guard w.old }
{
    Covh.covh(w, g, h, c)
}
