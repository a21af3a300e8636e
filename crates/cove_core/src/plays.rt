//! The play of a script by turns.

ghost use Rattle.std.specs.Prelude.{◌≡◌, ◌+◌, ◌<◌, ◌≤◌, ◌^◌, ◌↔◌, IsTrue, false, fold, length, true};
ghost use Rattle.cove_base.specs.declared.limits.TheConstants.{ENTRY_LIMIT};
ghost use Rattle.cove_core.specs.Kept.{IsKept};
ghost use Rattle.cove_core.specs.Plays.{AreReady, AreRounds, Changes, GoesOn, IsAt, IsUnplayed, IsTurned, Stays, named_play};
ghost use Rattle.cove_hart.specs.HartStates.{hart_value};
ghost use Rattle.cove_model.specs.Fits.{Fits};
ghost use Rattle.cove_model.specs.Played.{IsOver, Play, enough, played, round, rounds, turn};

use crate::monitors::{Mon, line_at, within_limits};
use crate::seats::Harts;
use crate::steps::{Stepped, event_step};
use crate::walks::walk_step;
use cove_base::{ENTRY_LIMIT, Plain, Script};
use cove_hart::{HartState, Need};

/// A monitor, its words and its harts.
#[derive(Drop)]
pub struct Built {
    pub mon: Mon,
    pub words: Plain,
    pub harts: Harts,
    /// How many rounds were made: turns of each hart, after the turns that the script names.
    pub rounds_made: u32,
}

/// Plays a script: the turns that it names, and then a turn of each hart again and again, until a round changes
/// nothing. Says whether no line is left.
pub fn play(built: &mut Built, script: &Script) -> bool
    requires { IsUnplayed script.now built.old }
    ensures history { built.new.mon.history ≡ played ENTRY_LIMIT script.now }
    ensures whole { IsTrue result ↔ IsOver script.now (played ENTRY_LIMIT script.now) }
    ensures rounds { AreRounds script.now (named_play script.now) built.new.rounds_made }
{
    within_limits(script);
    named_turns(&mut built.words, &mut built.mon, script, &mut built.harts);
    all_rounds(
        &mut built.words,
        &mut built.mon,
        script,
        &mut built.harts,
        &mut built.rounds_made,
    );
    built.mon.is_over(script)
}

// The turns that the script names.
fn named_turns(words: &mut Plain, mon: &mut Mon, script: &Script, harts: &mut Harts)
    requires { AreReady script.now words.old mon.old harts.old }
    ensures ready { AreReady script.now words.new mon.new harts.new }
    ensures played { GoesOn mon.old mon.new harts.old harts.new (λ play. fold (turn ENTRY_LIMIT script.now) play script.now.turns) }
{
    within_limits(script);
    let turns = script.turns.as_slice();
    for i in 0..turns.len() {
        turn_of(words, mon, script, harts, turns[i] as usize);
    }
}

// Rounds, until one changes nothing. Counts them.
fn all_rounds(words: &mut Plain, mon: &mut Mon, script: &Script, harts: &mut Harts, made: &mut u32)
    requires ready { AreReady script.now words.old mon.old harts.old }
    requires within { length mon.old.history ≤ ENTRY_LIMIT }
    requires unbegun { made.old ≡ 0 }
    ensures ready { AreReady script.now words.new mon.new harts.new }
    ensures played { GoesOn mon.old mon.new harts.old harts.new (rounds ENTRY_LIMIT script.now (enough ENTRY_LIMIT script.now)) }
    ensures rounds { (play : Play) → IsAt mon.old harts.old play → AreRounds script.now play made.new }
{
    for _ in 0..2 * ENTRY_LIMIT + u32::from(script.harts) + 1 {
        if !one_round(words, mon, script, harts, made) {
            return;
        }
    }
}

// A turn of each hart, which counts as one round. Says whether it changed anything.
fn one_round(
    words: &mut Plain,
    mon: &mut Mon,
    script: &Script,
    harts: &mut Harts,
    made: &mut u32,
) -> bool
    requires ready { AreReady script.now words.old mon.old harts.old }
    requires few { made.old + 1 < 2 ^ 32 }
    ensures ready { AreReady script.now words.new mon.new harts.new }
    ensures played { GoesOn mon.old mon.new harts.old harts.new (round ENTRY_LIMIT script.now) }
    ensures still { result ≡ false → Stays mon.old harts.old (round ENTRY_LIMIT script.now) }
    ensures changed { result ≡ true → Changes mon.old harts.old (round ENTRY_LIMIT script.now) }
    ensures counted { made.new ≡ made.old + 1 }
{
    *made += 1;
    let mut changed = false;
    for k in 0..script.harts {
        if turn_of(words, mon, script, harts, k as usize) {
            changed = true;
        }
    }
    changed
}

// A turn of the hart of a number. Says whether it changed anything.
fn turn_of(words: &mut Plain, mon: &mut Mon, script: &Script, harts: &mut Harts, k: usize) -> bool
    requires ready { AreReady script.now words.old mon.old harts.old }
    requires on_board { k < script.now.harts }
    ensures ready { AreReady script.now words.new mon.new harts.new }
    ensures played { GoesOn mon.old mon.new harts.old harts.new (λ play. turn ENTRY_LIMIT script.now play k) }
    ensures still { result ≡ false → Stays mon.old harts.old (λ play. turn ENTRY_LIMIT script.now play k) }
    ensures changed { result ≡ true → Changes mon.old harts.old (λ play. turn ENTRY_LIMIT script.now play k) }
{
    take_turn(words, mon, script, &mut harts.harts[k])
}

// A turn of a hart: a walk, an entry, or nothing. Says whether it changed anything.
fn take_turn(words: &mut Plain, mon: &mut Mon, script: &Script, hart: &mut HartState) -> bool
    requires kept { IsKept script.now words.old mon.old }
    requires fits { Fits script.now mon.old.history (hart_value hart.old) }
    ensures kept { IsKept script.now words.new mon.new }
    ensures turned { IsTurned script.now mon.old.history mon.new.history (hart_value hart.old) (hart_value hart.new) result }
{
    let Some(line) = line_at(script, hart.place) else {
        return false;
    };
    match hart.next(script, line.phase) {
        Need::Event => match event_step(words, mon, script, hart) {
            Stepped::Did(_) => true,
            Stepped::Ahead(_) | Stepped::Limit => false,
        },
        Need::Walk(_) => {
            if mon.history.len() >= ENTRY_LIMIT as usize {
                return false;
            }
            if mon.first_behind(script, line.phase).is_some() {
                return false;
            }
            walk_step(words, script, hart, line.phase);
            true
        }
        Need::Idle => false,
    }
}
