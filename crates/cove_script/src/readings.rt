use cove_base::{Bytes, Fills, Lines, NoMemory, Script, Turns};
use std::alloc::Global;
use std::marker::Model;

/// What the lines of a script have said so far.
#[derive(Drop)]
pub struct Reading {
    pub has_board: bool,
    pub has_key: bool,
    pub has_body: bool,
    pub has_end: bool,
    pub phase: u32,
    pub pages: u32,
    pub harts: u8,
    pub files: u8,
    pub key: Bytes,
    pub fills: Fills,
    pub lines: Lines,
    pub turns: Turns,
}

impl Model for Reading {
    ghost use Rattle.cove_model.specs.Grammar.{Reading as ReadingValue};

    ghost Value = { ReadingValue };

    ghost view = { λ a. record {
      has_board = a.has_board;
      has_key = a.has_key;
      has_body = a.has_body;
      has_end = a.has_end;
      phase = a.phase;
      script = record {
        pages = a.pages;
        harts = a.harts;
        files = a.files;
        key = a.key;
        fills = a.fills;
        lines = a.lines;
        turns = a.turns;
      };
    } };
}

impl Reading {
    ghost use Rattle.std.specs.Prelude.{◌≡◌, IfOk, IsTrue};
    ghost use Rattle.cove_base.specs.Scripts.{is_within_limits};
    ghost use Rattle.cove_model.specs.Grammar.{opening_reading};

    /// What has been read before the first line.
    pub fn opening(alloc: Global) -> Result<Reading, NoMemory>
        ensures { IfOk result (λ reading. reading ≡ opening_reading) }
    {
        let mut key = Bytes::new(alloc);
        key.extend(&[0; 48])?;
        Ok(Reading {
            has_board: false,
            has_key: false,
            has_body: false,
            has_end: false,
            phase: 0,
            pages: 1,
            harts: 1,
            files: 0,
            key,
            fills: Fills::new(alloc),
            lines: Lines::new(alloc),
            turns: Turns::new(alloc),
        })
    }

    /// The script that the lines made.
    pub fn finished(self) -> Script
        requires { IsTrue (is_within_limits self.script) }
        ensures { result ≡ self.script }
    {
        Script {
            pages: self.pages,
            harts: self.harts,
            files: self.files,
            key: self.key,
            fills: self.fills,
            lines: self.lines,
            turns: self.turns,
        }
    }
}
