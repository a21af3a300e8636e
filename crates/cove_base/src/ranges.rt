ghost use Rattle.std.specs.Prelude.{◌≡◌};
ghost use Rattle.cove_base.specs.Ranges.{range_at};

use crate::limits::RANGE_LIMIT;
use crate::numbers::Page;

/// Pages that follow each other: `count` of them from `first` on.
#[derive(Clone, Copy)]
pub struct PageRange {
    pub first: Page,
    pub count: u32,
}

/// Why an address and a number name no pages of a board.
#[derive(Clone, Copy)]
pub enum RangeFault {
    BadCount,
    Unaligned,
    Outside,
}

/// The `n` pages from the byte address `base` on, on a board of `pages` pages, or the first fault that applies.
pub fn range_of(base: u64, n: u64, pages: u32) -> Result<PageRange, RangeFault>
    ensures { result ≡ range_at base n pages }
{
    if n == 0 || n > RANGE_LIMIT {
        return Err(RangeFault::BadCount);
    }
    if base % 4096 != 0 {
        return Err(RangeFault::Unaligned);
    }
    let first = base / 4096;
    if first + n > pages as u64 {
        return Err(RangeFault::Outside);
    }
    Ok(PageRange {
        first: Page(first as u32),
        count: n as u32,
    })
}
