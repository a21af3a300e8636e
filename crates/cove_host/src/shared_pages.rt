//! Pages of the host's for a TVM that is finalized.

ghost use Rattle.std.specs.Prelude.{◌≡◌, ◌<◌};
ghost use Rattle.cove_base.specs.declared.calls.HostCall.TheVariants.{Shared};
ghost use Rattle.cove_tvm.specs.Called.{Called, IsReady};
ghost use Rattle.cove_model.specs.HostCalls.{rule};
ghost use Rattle.cove_model.specs.LawfulStores.{AllowsLawful};

use crate::checks::DONE;
use crate::counts::raise_counts;
use crate::mapping::{map_pages, mappable};
use crate::pages::page_of;
use cove_base::{Gpn, HartId, Reply, Words};
use cove_tvm::Ground;

/// Maps guest pages of a TVM, from `gpa` on, to `n` pages of the host's from the byte address `base` on.
pub fn add_shared_pages<W: Words>(
    w: &mut W,
    g: &mut Ground,
    h: HartId,
    t: u64,
    base: u64,
    n: u64,
    gpa: u64,
) -> Reply
    requires ready { IsReady (W.words w.old) g.old }
    requires on_board { h.0 < g.old.harts }
    requires allowed { AllowsLawful (W.allows (W.guard w.old)) g.old.pages g.old.harts h.0 (W.words w.old) }
    ensures called { Called h.0 (λ S. rule S h.0 (Shared t base n gpa)) (W.words w.old) (W.words w.new) g.old g.new result }
    ensures guard { W.guard w.new ≡ W.guard w.old }
{
    match mappable(w, g, t, base, n, gpa, true) {
        Err(reply) => reply,
        Ok(()) => {
            let count = n as u32;
            raise_counts(w, page_of(base), count);
            map_pages(w, g, t, Gpn(gpa / 4096), page_of(base), count, true);
            DONE
        }
    }
}
