//! The start of a monitor.

ghost use Rattle.std.specs.Prelude.{◌≡◌, IfOk};
ghost use Rattle.cove_monitor.specs.Closing.{AreNewSeats};
ghost use Rattle.cove_monitor.specs.Seats.{IsKeeper};

use crate::harts::{Hart, seat_all};
use crate::monitors::{Kept, Monitor};
use crate::rooms::Room;
use cove_base::{NoMemory, Script};
use cove_board::{Board, Boarded, Pass};
use cove_core::{Built, Mon, build};
use std::alloc::Global;
use std::marker::Model;
use std::sync::Mutex;

/// A monitor before its board's table has a name.
#[derive(Drop)]
pub struct Opened {
    board: Board,
    mon: Mon,
    pass: Pass,
}

impl Model for Opened {
    ghost use Rattle.cove_board.specs.Passes.{BoardValue};
    ghost use Rattle.cove_monitor.specs.Seats.{IsKeeper};

    ghost Value = { BoardValue };

    ghost view = { λ o. o.board };

    ghost invariant = { λ o. IsKeeper o.board.table o.mon o.pass };
}

/// A monitor as it opens, and its harts in order.
#[derive(Drop)]
pub struct Started {
    pub monitor: Opened,
    pub harts: Vec<Hart>,
}

impl Opened {
    /// Takes all memory of a run of a script on threads.
    pub fn start(alloc: Global, script: &Script) -> Result<Started, NoMemory>
        ensures script { IfOk result (λ started. started.monitor.script ≡ script.now) }
        ensures harts { IfOk result (λ started. AreNewSeats started.monitor.table script.now started.harts.items) }
    {
        let Built {
            mon,
            words,
            harts,
            rounds_made: _,
        } = build(alloc, script)?;
        let Boarded {
            board,
            passes,
            monitor,
        } = Board::new(alloc, script, words)?;
        let harts = seat_all(alloc, script, &board, harts.into_vec(), passes)?;
        Ok(Started {
            monitor: Opened::new(board, mon, monitor),
            harts,
        })
    }

    // A monitor with its pass.
    fn new(board: Board, mon: Mon, pass: Pass) -> Self
        requires { IsKeeper board.table mon pass }
        ensures { result ≡ board }
    {
        Opened { board, mon, pass }
    }

    /// The monitor that threads share, which has its board's table for a name.
    pub fn named<B: Room>(self) -> Monitor<B>
        requires { self.table ≡ B.table }
        ensures { result ≡ self.script }
    {
        let Opened { board, mon, pass } = self;
        Monitor {
            board,
            kept: Mutex::new(Kept::new(mon, pass)),
        }
    }
}
