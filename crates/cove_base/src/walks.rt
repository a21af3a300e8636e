ghost use Rattle.std.specs.Prelude.{◌≡◌, ◌↔◌, ℕ, true};
ghost use Rattle.cove_base.specs.HostWalks.{says_host, walked_to};
ghost use Rattle.cove_base.specs.PageWords.{IsHostWord};

use crate::events::Walked;
use crate::numbers::{Gpn, Page};

/// What a hart looks for: a host page, or a guest page for a fetch or for an access to data.
#[derive(Clone, Copy)]
pub enum Target {
    Host(Page),
    Fetch(Gpn),
    Access(Gpn),
}

/// A walk that was made, and what it came to.
#[derive(Clone, Copy)]
pub struct Noted {
    pub target: Target,
    pub walked: Walked,
}

/// What a walk to a host page comes to that loads this word. It asks nothing of the word, which another hart may change.
pub fn walked_to(page: Page, word: u64) -> Walked
    ensures walked { result ≡ walked_to page word }
    ensures host { (says_host word ≡ true) ↔ IsHostWord word }
{
    if word % 8 == 0 {
        Walked::Found(page)
    } else {
        Walked::Missing(word)
    }
}
