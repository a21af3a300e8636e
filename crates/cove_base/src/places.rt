ghost use Rattle.std.specs.Prelude.{◌≡◌, ◌<◌, ◌≤◌};
ghost use Rattle.cove_base.specs.Places.{page_word, table_word, epoch_word, answered_word, tvm_word, hart_word, count_word, all_words, PlacesFit, PlacesDiffer};

use crate::limits::{HART_LIMIT, PAGE_LIMIT, TVM_LIMIT};
use crate::numbers::{HartId, Page, TvmId};

/// The place of a page's word.
pub fn page_word(page: Page) -> u32
    ensures { result ≡ page_word page.0 }
{
    page.0
}

/// The place of one of a page's 512 table words.
pub fn table_word(pages: u32, page: Page, i: u32) -> u32
    requires board { pages ≤ PAGE_LIMIT }
    requires page { page.0 < PAGE_LIMIT }
    requires word { i < 512 }
    ensures { result ≡ table_word pages page.0 i }
{
    pages + 512 * page.0 + i
}

/// The place of the global epoch.
pub fn epoch_word(pages: u32) -> u32
    requires { pages ≤ PAGE_LIMIT }
    ensures { result ≡ epoch_word pages }
{
    513 * pages
}

/// The place of a hart's answered number.
pub fn answered_word(pages: u32, hart: HartId) -> u32
    requires board { pages ≤ PAGE_LIMIT }
    requires hart { hart.0 < HART_LIMIT }
    ensures { result ≡ answered_word pages hart.0 }
{
    513 * pages + 1 + hart.0 as u32
}

/// The place of a TVM's number.
pub fn tvm_word(pages: u32, harts: u8, tvm: TvmId) -> u32
    requires pages { pages ≤ PAGE_LIMIT }
    requires harts { harts ≤ HART_LIMIT }
    requires first { 1 ≤ tvm.0 }
    requires last { tvm.0 ≤ TVM_LIMIT }
    ensures { result ≡ tvm_word pages harts tvm.0 }
{
    513 * pages + 1 + harts as u32 + tvm.0
}

/// The place of the word that says in which TVM a hart is.
pub fn hart_word(pages: u32, harts: u8, hart: HartId) -> u32
    requires pages { pages ≤ PAGE_LIMIT }
    requires harts { harts ≤ HART_LIMIT }
    requires hart { hart.0 < HART_LIMIT }
    ensures { result ≡ hart_word pages harts hart.0 }
{
    513 * pages + 2 + TVM_LIMIT + harts as u32 + hart.0 as u32
}

/// The place of the count of entries.
pub fn count_word(pages: u32, harts: u8) -> u32
    requires pages { pages ≤ PAGE_LIMIT }
    requires harts { harts ≤ HART_LIMIT }
    ensures { result ≡ count_word pages harts }
{
    513 * pages + 2 + TVM_LIMIT + 2 * harts as u32
}

/// The number of shared words of a board.
pub fn all_words(pages: u32, harts: u8) -> u32
    requires pages { pages ≤ PAGE_LIMIT }
    requires harts { harts ≤ HART_LIMIT }
    ensures { result ≡ all_words pages harts }
{
    513 * pages + 3 + TVM_LIMIT + 2 * harts as u32
}

/// The law of the places, which runs no code.
pub fn places_law()
    ensures fit { PlacesFit }
    ensures differ { PlacesDiffer }
{}
