//! The creation of TVMs.

ghost use Rattle.std.specs.Prelude.{◌≡◌, ◌<◌, ℕ};
ghost use Rattle.cove_base.specs.Measurement.{board_number};
ghost use Rattle.cove_base.specs.Unchanged.{Unchanged};
ghost use Rattle.cove_base.specs.declared.calls.HostCall.TheVariants.{Create};
ghost use Rattle.cove_tvm.specs.Called.{Called, IsReady};
ghost use Rattle.cove_host.specs.Checked.{all_checked};
ghost use Rattle.cove_model.specs.HostCalls.{rule};
ghost use Rattle.cove_model.specs.LawfulStores.{AllowsLawful};
ghost use Rattle.cove_model.specs.States.{State};
ghost use Rattle.cove_tvm.specs.Stands.{Stands};

use crate::checks::{aligned, free, inside, room_for_tvm, root_aligned, state_apart};
use crate::pages::{give, page_of};
use cove_base::{HartId, Reply, Role, Status, Words, mode_of};
use cove_tvm::Ground;

/// Creates a TVM, with the four pages from the byte address `root` on, less its remainder, as the root of its tables, which are
/// Sv39x4 for the remainder 0 and Sv48x4 for 1, and the page at the byte address `state` as its state page; and measures the board.
/// Answers its number.
pub fn create_tvm<W: Words>(w: &mut W, g: &mut Ground, h: HartId, root: u64, state: u64) -> Reply
    requires ready { IsReady (W.words w.old) g.old }
    requires on_board { h.0 < g.old.harts }
    requires allowed { AllowsLawful (W.allows (W.guard w.old)) g.old.pages g.old.harts h.0 (W.words w.old) }
    ensures called { Called h.0 (λ S. rule S h.0 (Create root state)) (W.words w.old) (W.words w.new) g.old g.new result }
    ensures guard { W.guard w.new ≡ W.guard w.old }
{
    match creatable(w, g, root, state) {
        Err(reply) => reply,
        Ok(()) => {
            let board = board_number(g.pages, g.harts, g.filecount);
            let t = g
                .tvms
                .create(page_of(root), mode_of(root), page_of(state), board);
            give(w, root, 4, t, Role::Root);
            give(w, state, 1, t, Role::State);
            Reply {
                status: Status::Success,
                value: u64::from(t.0),
            }
        }
    }
}

// The size of a board, as its record has it.
fn board_number(pages: u32, harts: u8, files: u8) -> u64
    ensures { result ≡ board_number pages harts files }
{
    u64::from(pages) + 65536 * u64::from(harts) + 16777216 * u64::from(files)
}

// The checks of the call, in the order of its rule.
fn creatable<W: Words>(w: &mut W, g: &Ground, root: u64, state: u64) -> Result<(), Reply>
    requires ready { IsReady (W.words w.old) g.now }
    ensures told { (hart : ℕ) (S : State) → Stands (W.words w.old) g.now S
        → result ≡ all_checked (rule S hart (Create root state)).checks }
    ensures unchanged { Unchanged W.words W.clean W.guard w.old w.new }
{
    room_for_tvm(g)?;
    root_aligned(root)?;
    aligned(state)?;
    inside(g, root, 4)?;
    inside(g, state, 1)?;
    state_apart(root, state)?;
    free(w, g, root, 4)?;
    free(w, g, state, 1)
}
