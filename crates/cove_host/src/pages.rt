//! Pages by their byte addresses, and how a TVM is given them.

ghost use Rattle.std.specs.Prelude.{◌≡◌, ◌+◌, ◌/◌, ◌<◌, ◌≤◌, ◌^◌, length};
ghost use Rattle.cove_base.specs.PageWords.{given};
ghost use Rattle.cove_base.specs.Places.{page_word};
ghost use Rattle.cove_base.specs.Stores.{AllAllowed, fills, stored};
ghost use Rattle.cove_base.specs.declared.limits.TheConstants.{PAGE_LIMIT, TVM_LIMIT};

use cove_base::{Page, PageRange, Role, TvmId, Words};
use cove_owner::{PageState, set_all};

/// The page of a byte address.
pub(crate) fn page_of(address: u64) -> Page
    requires { address / 4096 < 2 ^ 32 }
    ensures { result.0 ≡ address / 4096 }
{
    Page((address / 4096) as u32)
}

/// The `n` pages from a byte address on.
pub(crate) fn pages_from(base: u64, n: u64) -> PageRange
    requires { base / 4096 + n ≤ PAGE_LIMIT }
    ensures first { result.first.0 ≡ base / 4096 }
    ensures count { result.count ≡ n }
{
    PageRange {
        first: page_of(base),
        count: n as u32,
    }
}

/// Gives the `n` pages from a byte address on to a TVM.
pub(crate) fn give<W: Words>(w: &mut W, base: u64, n: u64, t: TvmId, role: Role)
    requires places { base / 4096 + n ≤ length (W.words w.old) }
    requires limit { base / 4096 + n ≤ PAGE_LIMIT }
    requires low { 1 ≤ t.0 }
    requires high { t.0 ≤ TVM_LIMIT }
    requires allowed { AllAllowed (W.allows (W.guard w.old)) (W.words w.old) (fills (page_word (base / 4096)) n (given t.0 role)) }
    ensures words { W.words w.new ≡ stored (W.words w.old) (fills (page_word (base / 4096)) n (given t.0 role)) }
    ensures guard { W.guard w.new ≡ W.guard w.old }
{
    set_all(w, pages_from(base, n), PageState::Given { tvm: t, role });
}
