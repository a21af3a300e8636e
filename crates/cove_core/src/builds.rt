//! What a run of a script stands on before any turn.

ghost use Rattle.std.specs.Prelude.{◌≡◌, IfOk, replicate};
ghost use Rattle.cove_base.specs.Places.{all_words};
ghost use Rattle.cove_core.specs.Plays.{IsUnplayed};
ghost use Rattle.cove_tvm.specs.GroundLaws.{IsNewGround};

use crate::fills::opening_memory;
use crate::monitors::{Mon, Progress, within_limits};
use crate::plays::Built;
use crate::seats::Harts;
use cove_base::{Bytes, History, NoMemory, Plain, Script, all_words};
use cove_imsic::Files;
use cove_tvm::{Ground, Tvms};
use std::alloc::Global;

/// Takes all memory of a run of a script, for as many entries as a history may have.
pub fn build(alloc: Global, script: &Script) -> Result<Built, NoMemory>
    ensures fresh { IfOk result (λ built. IsUnplayed script.now built) }
    ensures zeros { IfOk result (λ built. built.words ≡ replicate (all_words script.now.pages script.now.harts) 0) }
{
    within_limits(script);
    let ground = new_ground(alloc, script)?;
    let history = History::new(alloc)?;
    let progress = Progress::new(alloc, script)?;
    let words = Plain::new(alloc, all_words(script.pages, script.harts))?;
    let harts = Harts::new(alloc, script)?;
    Ok(Built {
        mon: Mon {
            ground,
            history,
            progress,
        },
        words,
        harts,
        rounds_made: 0,
    })
}

// The ground of a script's board before any call.
fn new_ground(alloc: Global, script: &Script) -> Result<Ground, NoMemory>
    ensures { IfOk result (λ G. IsNewGround script.now G) }
{
    within_limits(script);
    Ok(Ground {
        memory: opening_memory(alloc, script)?,
        tvms: Tvms::new(alloc, script.pages)?,
        files: Files::new(alloc, script.harts, script.files)?,
        kicked: 0,
        key: copy_of(alloc, &script.key)?,
        pages: script.pages,
        harts: script.harts,
        filecount: script.files,
    })
}

// The same bytes once more.
fn copy_of(alloc: Global, bytes: &Bytes) -> Result<Bytes, NoMemory>
    ensures { IfOk result (λ copy. copy ≡ bytes.now) }
{
    let mut copy = Bytes::new(alloc);
    copy.extend(bytes.as_slice())?;
    Ok(copy)
}
