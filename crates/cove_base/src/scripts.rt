use crate::calls::HostCall;
use crate::lists::{Bytes, Fills, Turns};
use crate::numbers::HartId;
use crate::script_lines::Lines;
use std::marker::Model;

/// What a hart is asked to do next. Addresses are in bytes; a load or a store moves 8 bytes, little-endian.
#[derive(Clone, Copy)]
pub enum Line {
    Call(HostCall),
    Load { addr: u64 },
    Store { addr: u64, value: u64 },
}

/// One line of a hart, and its phase.
#[derive(Clone, Copy)]
pub struct ScriptLine {
    pub hart: HartId,
    pub phase: u32,
    pub line: Line,
}

/// Bytes of the opening memory, at a byte address.
#[derive(Drop)]
pub struct Fill {
    pub addr: u64,
    pub bytes: Bytes,
}

/// A script: the sizes of the board, its key and opening memory, the lines of its harts and the turns that
/// they take. It keeps the limits of its numbers and lists.
#[derive(Drop)]
pub struct Script {
    pub pages: u32,
    pub harts: u8,
    pub files: u8,
    pub key: Bytes,
    pub fills: Fills,
    pub lines: Lines,
    pub turns: Turns,
}

impl Model for Script {
    ghost use Rattle.std.specs.Prelude.{IsTrue};
    ghost use Rattle.cove_base.specs.Scripts.{ScriptValue, is_within_limits};

    ghost Value = { ScriptValue };

    ghost view = { λ a. record {
      pages = a.pages;
      harts = a.harts;
      files = a.files;
      key = a.key;
      fills = a.fills;
      lines = a.lines;
      turns = a.turns;
    } };

    ghost invariant = { λ a. IsTrue (is_within_limits (record {
      pages = a.pages;
      harts = a.harts;
      files = a.files;
      key = a.key;
      fills = a.fills;
      lines = a.lines;
      turns = a.turns;
    })) };
}
