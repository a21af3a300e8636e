//! The opening memory of a script, from its fills.

ghost use Rattle.std.specs.Prelude.{◌≡◌, ℕ, ◌+◌, ◌*◌, ◌<◌, ◌≤◌, IfOk, IsTrue, length, slice_set};
ghost use Rattle.std.specs.Int.{from_le_bytes, to_le_bytes, w64};
ghost use Rattle.cove_base.specs.Scripts.{is_fill};
ghost use Rattle.cove_base.specs.declared.limits.TheConstants.{PAGE_LIMIT};
ghost use Rattle.cove_core.specs.Bytes.{FramesShow, with_byte_at};
ghost use Rattle.cove_model.specs.States.{byte_after, opening};
ghost use Rattle.cove_model.specs.WordsStand.{FramesStand};

use crate::monitors::within_limits;
use cove_base::{Fill, NoMemory, Page, Script};
use cove_mem::Memory;
use std::alloc::Global;

/// The frames of a script's board before any entry.
pub fn opening_memory(alloc: Global, script: &Script) -> Result<Memory, NoMemory>
    ensures { IfOk result (λ memory. FramesStand memory (opening script.now)) }
{
    within_limits(script);
    let mut memory = Memory::new(alloc, script.pages)?;
    for fill in script.fills.as_slice() {
        put_fill(&mut memory, fill);
    }
    Ok(memory)
}

// Puts the bytes of a fill into memory.
fn put_fill(memory: &mut Memory, fill: &Fill)
    requires within { IsTrue (is_fill (length memory.old) fill.now) }
    requires limit { length memory.old ≤ PAGE_LIMIT }
    ensures shows { (byte : ℕ → ℕ) → FramesShow memory.old byte
        → FramesShow memory.new (λ addr. byte_after addr (byte addr) fill.now) }
    ensures size { length memory.new ≡ length memory.old }
{
    for (i, byte) in fill.bytes.as_slice().iter().enumerate() {
        put_byte(memory, fill.addr + i as u64, *byte);
    }
}

// Puts a byte at an address.
fn put_byte(memory: &mut Memory, addr: u64, value: u8)
    requires within { addr < 4096 * length memory.old }
    requires limit { length memory.old ≤ PAGE_LIMIT }
    ensures shows { (byte : ℕ → ℕ) → FramesShow memory.old byte
        → FramesShow memory.new (with_byte_at byte addr value) }
    ensures size { length memory.new ≡ length memory.old }
{
    let page = Page((addr / 4096) as u32);
    let place = (addr / 8 % 512) as u16;
    let word = with_byte(memory.load(page, place), (addr % 8) as usize, value);
    memory.store(page, place, word);
}

// A word with another byte at a place, from 0 for the lowest.
fn with_byte(word: u64, place: usize, value: u8) -> u64
    requires { place < 8 }
    ensures { result ≡ from_le_bytes w64 (slice_set (to_le_bytes w64 word) place value) }
{
    let mut bytes = word.to_le_bytes();
    bytes[place] = value;
    u64::from_le_bytes(bytes)
}
