ghost use Rattle.std.specs.Prelude.{◌≡◌, ◌+◌, ◌<◌, ◌≤◌, ◌^◌, [], length, drop, filter, slice_get, Some, None, IsSome, IfSome, IfOk};
ghost use Rattle.std.specs.Option.{option_map};
ghost use Rattle.cove_base.specs.HartLines.{next_line};
ghost use Rattle.cove_base.specs.HartPlaces.{is_line_of, IsNextPlace};
ghost use Rattle.cove_base.specs.HartValues.{accessed_page, after_walk, has_walked_to, no_rings, rings_find};
ghost use Rattle.cove_hart.specs.HartStates.{hart_value};
ghost use Rattle.cove_hart.specs.Needs.{access_need, next_need};

use crate::needs::Need;
use cove_base::{HartId, Line, NoMemory, Noted, Page, Script, ScriptLine, Target, Walked};
use cove_tlb::Rings;
use std::alloc::Global;

/// What one hart holds. `ended` is how many of its lines are ended, and `place` where the next one stands among
/// the script's lines. `walked` is a walk that is not used yet.
#[derive(Drop)]
pub struct HartState {
    pub hart: HartId,
    pub ended: u32,
    pub place: usize,
    pub rings: Rings,
    pub walked: Option<Noted>,
}

impl HartState {
    /// A hart that has ended no line, found no page and made no walk.
    pub fn new(alloc: Global, hart: HartId, script: &Script) -> Result<Self, NoMemory>
        ensures fresh { IfOk result (λ state. hart_value state ≡ record {
          hart = hart.0;
          ended = 0;
          place = state.place;
          rings = no_rings;
          walked = None;
          inside = None;
        }) }
        ensures place { IfOk result (λ state. IsNextPlace script.now hart.0 0 state.place) }
    {
        Ok(HartState {
            hart,
            ended: 0,
            place: next_place(script, hart, 0),
            rings: Rings::new(alloc)?,
            walked: None,
        })
    }

    /// What the hart needs next, while lines up to a phase may be made.
    pub fn next(&self, script: &Script, phase: u32) -> Need
        requires { IsNextPlace script.now self.now.hart.0 self.now.ended self.now.place }
        ensures { result ≡ next_need script.now (hart_value self.now) phase }
    {
        match self.next_line(script) {
            Some(line) if line.phase <= phase => self.need(line.line),
            _ => Need::Idle,
        }
    }

    /// The phase of the hart's next line, where one is left.
    pub fn phase(&self, script: &Script) -> Option<u32>
        requires { IsNextPlace script.now self.now.hart.0 self.now.ended self.now.place }
        ensures { result ≡ option_map (λ line. line.phase) (next_line script.now self.now.hart.0 self.now.ended) }
    {
        self.next_line(script).map(|line| line.phase)
    }

    // The hart's next line, where there is one.
    fn next_line(&self, script: &Script) -> Option<ScriptLine>
        requires { IsNextPlace script.now self.now.hart.0 self.now.ended self.now.place }
        ensures line { result ≡ next_line script.now self.now.hart.0 self.now.ended }
        ensures small { IfSome result (λ line. IfSome (accessed_page line.line) (λ page. page < 2 ^ 32)) }
    {
        script.lines.get(self.place).copied()
    }

    // What a line needs.
    fn need(&self, line: Line) -> Need
        requires { IfSome (accessed_page line) (λ page. page < 2 ^ 32) }
        ensures { result ≡ access_need (hart_value self.now) (accessed_page line) }
    {
        match line {
            Line::Call(_) => Need::Event,
            Line::Load { addr } | Line::Store { addr, .. } => self.access(addr / 4096),
        }
    }

    // What an access of a page needs.
    fn access(&self, page: u64) -> Need
        requires { page < 2 ^ 32 }
        ensures { result ≡ access_need (hart_value self.now) (Some page) }
    {
        let target = Target::Host(Page(page as u32));
        if self.rings.find(target).is_some() || self.has_walked_to(page) {
            return Need::Event;
        }
        Need::Walk(target)
    }

    // Whether the walk that is not used yet looked for this page.
    fn has_walked_to(&self, page: u64) -> bool
        ensures { result ≡ has_walked_to self.now.walked page }
    {
        match self.walked {
            Some(noted) => match noted.target {
                Target::Host(walked) => u64::from(walked.0) == page,
                Target::Fetch(_) | Target::Access(_) => false,
            },
            None => false,
        }
    }

    /// Keeps a walk, and puts the page into its ring where it found one. No ring names the target yet.
    pub fn note(&mut self, target: Target, walked: Walked)
        requires { rings_find self.old.rings target ≡ None }
        ensures { hart_value self.new ≡ after_walk (hart_value self.old) target walked }
    {
        if let Walked::Found(page) = walked {
            self.rings.fill(target, page);
        }
        self.walked = Some(Noted { target, walked });
    }

    /// Ends the hart's next line, and finds the place of the one after it.
    pub fn end_line(&mut self, script: &Script)
        requires place { IsNextPlace script.now self.old.hart.0 self.old.ended self.old.place }
        requires left { IsSome (next_line script.now self.old.hart.0 self.old.ended) }
        requires few { self.old.ended + 1 < 2 ^ 32 }
        ensures place { IsNextPlace script.now self.new.hart.0 self.new.ended self.new.place }
        ensures ended { self.new ≡ record self.old { ended = self.old.ended + 1; place = self.new.place } }
    {
        self.ended += 1;
        self.place = script.lines.following(self.place);
    }
}

/// The place of the first line of a hart, from a place of the script's lines on, or their number where none is left.
pub fn next_place(script: &Script, hart: HartId, from: usize) -> usize
    requires { from ≤ length script.now.lines }
    ensures here { IfSome (slice_get script.now.lines result) (λ line. line.hart.0 ≡ hart.0) }
    ensures rest { filter (is_line_of hart.0) (drop result script.now.lines)
        ≡ filter (is_line_of hart.0) (drop from script.now.lines) }
    ensures within { result ≤ length script.now.lines }
{
    let lines = script.lines.as_slice();
    for place in from..lines.len() {
        if lines[place].hart.0 == hart.0 {
            return place;
        }
    }
    lines.len()
}
