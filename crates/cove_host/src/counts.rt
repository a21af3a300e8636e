//! The counts of shared mappings, in the words of the host's pages.

ghost use Rattle.std.specs.Prelude.{◌≡◌};
ghost use Rattle.cove_host.specs.Raised.{MayRaise, RaisesBy};

use cove_base::{Page, Words};

/// Counts one mapping more of each of `n` pages of the host's, from `first` on.
pub(crate) fn raise_counts<W: Words>(w: &mut W, first: Page, n: u32)
    requires { MayRaise (W.allows (W.guard w.old)) first.0 n (W.words w.old) }
    ensures raised { RaisesBy first.0 n (W.words w.old) (W.words w.new) }
    ensures guard { W.guard w.new ≡ W.guard w.old }
{
    // The word of a page of the host's is eight times its count.
    for i in 0..n {
        let word = w.get(first.0 + i);
        w.set(first.0 + i, word + 8);
    }
}
