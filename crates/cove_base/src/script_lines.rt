ghost use Rattle.std.specs.Prelude.{◌≡◌, ◌+◌, ◌<◌, ◌≤◌, ◌++◌, ◌↔◌, [], ◌∷◌, length, drop, filter, IsSome, IfSome, OnOk, OnErr, slice_get};
ghost use Rattle.std.specs.Option.{option_copied};
ghost use Rattle.cove_base.specs.HartPlaces.{is_line_of};
ghost use Rattle.cove_base.specs.LineLinks.{linked};

use crate::lists::Items;
use crate::numbers::NoMemory;
use crate::scripts::ScriptLine;
use std::alloc::Global;
use std::marker::Model;

/// The lines of a script's harts, in order. Each is linked to the next line of its hart: `links` holds that line's
/// place, or 0 where there is none yet, and `ends` the place one after the last line of each hart, or 0.
#[derive(Drop)]
pub struct Lines {
    lines: Items<ScriptLine>,
    links: Vec<usize>,
    ends: [usize; 256],
}

impl Model for Lines {
    ghost use Rattle.std.specs.Prelude.{List};
    ghost use Rattle.cove_base.specs.declared.scripts.ScriptLine.{ScriptLine};
    ghost use Rattle.cove_base.specs.LineLinks.{harts_of, IsLinked};

    ghost Value = { List ScriptLine };

    ghost view = { λ a. a.lines };

    ghost invariant = { λ a. IsLinked (harts_of a.lines) a.links.items a.ends };
}

impl Lines {
    /// No lines, which take no memory yet.
    pub fn new(alloc: Global) -> Self
        ensures { result ≡ [] }
    {
        Lines {
            lines: Items::new(alloc),
            links: Vec::new(alloc),
            ends: [0; 256],
        }
    }

    /// The number of lines.
    pub fn len(&self) -> usize
        ensures { result ≡ length self.now }
    {
        self.lines.len()
    }

    /// The line at a place, from 0.
    pub fn get(&self, i: usize) -> Option<&ScriptLine>
        ensures item { option_copied result ≡ slice_get self.now i }
        ensures found { IsSome result ↔ (i < length self.now) }
    {
        self.lines.get(i)
    }

    /// The lines.
    pub fn as_slice(&self) -> &[ScriptLine]
        ensures { result.now ≡ self.now }
    {
        self.lines.as_slice()
    }

    /// The place of the next line of the hart whose line stands at a place, or the number of lines where there is none.
    pub fn following(&self, place: usize) -> usize
        requires { place < length self.now }
        ensures here { IfSome (slice_get self.now place) (λ own. IfSome (slice_get self.now result) (λ line.
            line.hart.0 ≡ own.hart.0)) }
        ensures rest { IfSome (slice_get self.now place) (λ own.
            filter (is_line_of own.hart.0) (drop result self.now)
            ≡ filter (is_line_of own.hart.0) (drop (place + 1) self.now)) }
        ensures within { result ≤ length self.now }
    {
        let link = self.links[place];
        if link > 0 { link } else { self.lines.len() }
    }

    /// Appends a line, and links the last line of its hart to it.
    pub fn push(&mut self, line: ScriptLine) -> Result<(), NoMemory>
        ensures ok { OnOk result (self.new ≡ self.old ++ line ∷ []) }
        ensures err { OnErr result (self.new ≡ self.old) }
    {
        let place = self.lines.len();
        self.links.push(0)?;
        if self.lines.push(line).is_err() {
            self.links.pop();
            return Err(NoMemory);
        }
        let hart = usize::from(line.hart.0);
        link(&mut self.links, self.ends[hart], place);
        self.ends[hart] = self.lines.len();
        Ok(())
    }
}

// Links the line before an end, where there is one, to the line at a place.
fn link(links: &mut Vec<usize>, end: usize, place: usize)
    requires { end ≤ length links.old.items }
    ensures { links.new.items ≡ linked links.old.items end place }
{
    if end > 0 {
        links[end - 1] = place;
    }
}
