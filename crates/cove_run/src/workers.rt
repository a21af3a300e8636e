//! The work of harts on threads, phase by phase.

ghost use Rattle.std.specs.Prelude.{◌≡◌, ◌<◌, IsTrue, IsFalse, None};
ghost use Rattle.cove_monitor.specs.Closing.{AreSeats, IsNumber};
ghost use Rattle.cove_monitor.specs.Seats.{IsHartOf};
ghost use Rattle.cove_run.specs.Working.{AreAfter, AreIdle, ComesFirst, HasFull, HaveRoom};

use crate::gates::{Gate, Place};
use cove_base::{Script, Steps};
use cove_core::Stepped;
use cove_hart::Need;
use cove_monitor::{Hart, Monitor, Room};
use std::marker::Brand;
use std::sync::Wait;
use std::sync::ledger::{Blank, Ledger};
use std::thread;
use std::thread::Threads;

/// Works on phase after phase, until no hart has a line left or one came to a full history. Says whether none has.
pub(crate) fn work_through<B: Room + Send + Sync, R: Threads + Wait + Sync, G: Gate + Sync>(
    rt: &R,
    monitor: &Monitor<B>,
    script: &Script,
    gate: &G,
    harts: &mut [Hart],
) -> bool
    requires script { monitor.now ≡ script.now }
    requires harts { AreSeats B.table script.now harts.old }
    ensures harts { AreSeats B.table script.now harts.new }
    ensures idle { IsTrue result → AreIdle script.now harts.new }
    ensures full { IsFalse result → HasFull harts.new }
{
    for _ in rt.forever() {
        if is_any_full(harts) {
            return false;
        }
        let Some(phase) = least_phase::<B>(script, harts) else {
            return true;
        };
        work_on_phase(rt, monitor, script, gate, harts, phase);
    }
    unreachable!()
}

// Whether a hart came to a full history.
fn is_any_full(harts: &[Hart]) -> bool
    ensures full { IsTrue result → HasFull harts.now }
    ensures room { IsFalse result → HaveRoom harts.now }
{
    for hart in harts {
        if hart.is_full() {
            return true;
        }
    }
    false
}

// The least phase of the harts' next lines.
fn least_phase<B: Room>(script: &Script, harts: &[Hart]) -> Option<u32>
    requires { AreSeats B.table script.now harts.now }
    ensures first { AreAfter script.now result harts.now }
    ensures idle { result ≡ None → AreIdle script.now harts.now }
{
    let mut least = None;
    for hart in harts {
        least = earlier(least, hart.phase(script));
    }
    least
}

// The earlier of two phases, or the one that is there.
fn earlier(a: Option<u32>, b: Option<u32>) -> Option<u32>
    ensures first { ComesFirst result a }
    ensures second { ComesFirst result b }
{
    match (a, b) {
        (Some(a), Some(b)) => Some(a.min(b)),
        (Some(phase), None) | (None, Some(phase)) => Some(phase),
        (None, None) => None,
    }
}

// Works on one phase, each hart on a thread of its own, while none met a full history.
fn work_on_phase<B: Room + Send + Sync, R: Threads + Wait + Sync, G: Gate + Sync>(
    rt: &R,
    monitor: &Monitor<B>,
    script: &Script,
    gate: &G,
    harts: &mut [Hart],
    phase: u32,
)
    requires script { monitor.now ≡ script.now }
    requires harts { AreSeats B.table script.now harts.old }
    requires room { HaveRoom harts.old }
    ensures { AreSeats B.table script.now harts.new }
{
    let threads = usize::from(script.harts);
    thread::for_each_mut(
        rt,
        harts,
        threads,
        &|number, hart|
            requires { (monitor.now ≡ script.now) × IsNumber B.table script.now number hart.now }
            ensures { IsNumber B.table script.entry.now number hart.exit.now }
        { work(rt, monitor, script, gate, hart, phase) },
    );
}

// Makes what a hart can in a phase. The count of its loads begins here, and contracts alone see it.
fn work<B: Room, R: Wait, G: Gate>(
    rt: &R,
    monitor: &Monitor<B>,
    script: &Script,
    gate: &G,
    hart: &mut Hart,
    phase: u32,
)
    requires script { monitor.now ≡ script.now }
    requires hart { IsHartOf B.table script.now hart.old }
    ensures hart { IsHartOf B.table script.now hart.new }
    ensures same_hart { hart.new.held.hart ≡ hart.old.held.hart }
{
    take_steps::<B, Brand, R, G>(rt, monitor, script, gate, hart, phase, Blank::new(1));
}

// Takes step after step of a hart, until it has nothing to do in the phase or an event was not made.
fn take_steps<B: Room, L: Ledger, R: Wait, G: Gate>(
    rt: &R,
    monitor: &Monitor<B>,
    script: &Script,
    gate: &G,
    hart: &mut Hart,
    phase: u32,
    blank: Blank,
)
    requires name { blank.name ≡ L.name }
    requires parts { blank.parts ≡ L.parts }
    requires some { 0 < L.parts }
    requires script { monitor.now ≡ script.now }
    requires hart { IsHartOf B.table script.now hart.old }
    ensures hart { IsHartOf B.table script.now hart.new }
    ensures same_hart { hart.new.held.hart ≡ hart.old.held.hart }
{
    let mut steps = Steps::<L>::new(blank);
    for _ in rt.forever() {
        if !take_step(rt, monitor, script, gate, hart, phase, &mut steps) {
            return;
        }
    }
    unreachable!()
}

// Takes the next step of a hart: the walk or the event that it needs. Says whether there was one.
fn take_step<B: Room, L: Ledger, R: Wait, G: Gate>(
    rt: &R,
    monitor: &Monitor<B>,
    script: &Script,
    gate: &G,
    hart: &mut Hart,
    phase: u32,
    steps: &mut Steps<L>,
) -> bool
    requires script { monitor.now ≡ script.now }
    requires hart { IsHartOf B.table script.now hart.old }
    ensures hart { IsHartOf B.table script.now hart.new }
    ensures same_hart { hart.new.held.hart ≡ hart.old.held.hart }
{
    match hart.next(script, phase) {
        Need::Walk(_) => {
            gate.pass(hart, Place::BeforeWalk);
            monitor.walk(script, hart, phase, steps);
            gate.pass(hart, Place::AfterWalk);
            true
        }
        Need::Event => {
            gate.pass(hart, Place::BeforeEvent);
            matches!(monitor.event(rt, script, hart), Stepped::Did(_))
        }
        Need::Idle => false,
    }
}
