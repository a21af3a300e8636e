//! The call that asks for the monitor's state.

ghost use Rattle.cove_base.specs.Unchanged.{Unchanged};
ghost use Rattle.cove_base.specs.declared.calls.HostCall.TheVariants.{Info};
ghost use Rattle.cove_model.specs.HostCalls.{rule};
ghost use Rattle.cove_tvm.specs.Called.{Called};

use cove_base::{HartId, Reply, Status, Words};
use cove_tvm::Ground;

/// Answers that the monitor is ready, by the value 1.
pub fn get_tsm_info<W: Words>(w: &mut W, g: &mut Ground, h: HartId) -> Reply
    ensures called { Called h.0 (λ S. rule S h.0 Info) (W.words w.old) (W.words w.new) g.old g.new result }
    ensures unchanged { Unchanged W.words W.clean W.guard w.old w.new }
{
    Reply {
        status: Status::Success,
        value: 1,
    }
}
