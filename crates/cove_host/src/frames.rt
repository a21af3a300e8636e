//! Frames that are filled before their pages are given away.
//!
//! No store shows this order, so the functions that give have it as their condition, and take the memory for it alone.

ghost use Rattle.std.specs.Prelude.{◌≡◌, ◌+◌, ◌/◌, ◌≤◌, ◌<◌, ◌⊎◌, ◌^◌, [], length, slice_index_or};
ghost use Rattle.cove_base.specs.PageWords.{given};
ghost use Rattle.cove_base.specs.Places.{page_word};
ghost use Rattle.cove_base.specs.Stores.{AllAllowed, fills, stored};
ghost use Rattle.cove_base.specs.declared.limits.TheConstants.{PAGE_LIMIT, TVM_LIMIT};
ghost use Rattle.cove_base.specs.declared.numbers.Role.TheVariants.{Data};
ghost use Rattle.cove_host.specs.Zeros.{AreCopies, AreZeros};
ghost use Rattle.cove_model.specs.Owners.{zeros};
ghost use Rattle.cove_tvm.specs.PrivateRuns.{FillsFrames};

use crate::pages::give;
use cove_base::{Page, Role, TvmId, Words};
use cove_mem::Memory;

/// Fills the `n` pages from `first` on with zeros.
pub(crate) fn zero_all(memory: &mut Memory, first: Page, n: u32)
    requires inside { first.0 + n ≤ length memory.old }
    requires limit { first.0 + n < 2 ^ 32 }
    ensures { FillsFrames first.0 n (λ j. zeros) memory.old memory.new }
{
    for i in 0..n {
        memory.zero(Page(first.0 + i));
    }
}

/// Copies the `n` pages from `from` on to those from `to` on; the two runs have no page in common.
pub(crate) fn copy_all(memory: &mut Memory, from: Page, to: Page, n: u32)
    requires from { from.0 + n ≤ length memory.old }
    requires to { to.0 + n ≤ length memory.old }
    requires limit { length memory.old < 2 ^ 32 }
    requires apart { (from.0 + n ≤ to.0) ⊎ (to.0 + n ≤ from.0) }
    ensures { FillsFrames to.0 n (λ j. slice_index_or memory.old (from.0 + j) []) memory.old memory.new }
{
    for i in 0..n {
        memory.copy(Page(from.0 + i), Page(to.0 + i));
    }
}

/// Gives the `n` pages from the byte address `base` on to a TVM as memory, once they are zeros.
pub(crate) fn give_zeros<W: Words>(w: &mut W, memory: &Memory, base: u64, n: u64, t: TvmId)
    requires filled { AreZeros memory.now (base / 4096) n }
    requires places { base / 4096 + n ≤ length (W.words w.old) }
    requires limit { base / 4096 + n ≤ PAGE_LIMIT }
    requires low { 1 ≤ t.0 }
    requires high { t.0 ≤ TVM_LIMIT }
    requires allowed { AllAllowed (W.allows (W.guard w.old)) (W.words w.old) (fills (page_word (base / 4096)) n (given t.0 Data)) }
    ensures words { W.words w.new ≡ stored (W.words w.old) (fills (page_word (base / 4096)) n (given t.0 Data)) }
    ensures guard { W.guard w.new ≡ W.guard w.old }
{
    give(w, base, n, t, Role::Data);
}

/// Gives the `n` pages from the byte address `base` on to a TVM as memory, once they are copies of those from `src` on.
pub(crate) fn give_copies<W: Words>(
    w: &mut W,
    memory: &Memory,
    src: u64,
    base: u64,
    n: u64,
    t: TvmId,
)
    requires filled { AreCopies memory.now (src / 4096) (base / 4096) n }
    requires places { base / 4096 + n ≤ length (W.words w.old) }
    requires limit { base / 4096 + n ≤ PAGE_LIMIT }
    requires low { 1 ≤ t.0 }
    requires high { t.0 ≤ TVM_LIMIT }
    requires allowed { AllAllowed (W.allows (W.guard w.old)) (W.words w.old) (fills (page_word (base / 4096)) n (given t.0 Data)) }
    ensures words { W.words w.new ≡ stored (W.words w.old) (fills (page_word (base / 4096)) n (given t.0 Data)) }
    ensures guard { W.guard w.new ≡ W.guard w.old }
{
    give(w, base, n, t, Role::Data);
}
