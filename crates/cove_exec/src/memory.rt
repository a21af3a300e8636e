ghost use Rattle.std.specs.Prelude.{◌≡◌, ◌%◌};
ghost use Rattle.cove_base.specs.Executions.{picked, merged, IsSize};

use crate::numbers::{extended, low};

/// The part of an aligned word of memory at an address, with its sign extended where it is `signed`.
pub fn pick(word: u64, addr: u64, size: u8, signed: bool) -> u64
    requires size { IsSize size }
    requires aligned { addr % size ≡ 0 }
    ensures { result ≡ picked word addr size signed }
{
    let above = word >> (8 * (addr % 8));
    let width = 8 * size as u32;
    if signed {
        extended(above, width)
    } else {
        low(above, width)
    }
}

/// An aligned word of memory with another part at an address: the low bytes of `value`.
pub fn merge(word: u64, addr: u64, size: u8, value: u64) -> u64
    requires size { IsSize size }
    requires aligned { addr % size ≡ 0 }
    ensures { result ≡ merged word addr size value }
{
    let at = 8 * (addr % 8) as u32;
    let width = 8 * size as u32;
    let above = word - low(word, at + width);
    low(word, at) + (low(value, width) << at) + above
}
