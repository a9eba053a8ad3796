//! How a controller is opened and closed.

ghost use Rattle.std.specs.Prelude.{◌≤◌, List, IfOk};
ghost use Rattle.model_base.specs.Controller.{ControllerCall};
ghost use Rattle.engine_controller.specs.Passes.{AreNew, AreAll, IsHistoryOf};

use crate::controller::Controller;
use crate::numbers::Numbers;
use crate::pass::{Others, Pass, Passes};
use crate::rule::{Cell, Closing, Moved, NextClient};
use crate::words::{join, load, split};
use base_devices::Clock;
use engine_board::Board;
use model_base::{MAX_CLIENTS, NoMemory};
use std::alloc::Global;
use std::marker::PhantomData;
use std::sync::Wait;

impl<Time: Clock> Controller<Time> {
    /// A controller for 1 to 64 clients, with a pass for each. No client holds a token.
    pub fn open(alloc: Global, clients: u32) -> Result<(Controller<Time>, Passes), NoMemory>
        requires clients { (1 ≤ clients) × (clients ≤ MAX_CLIENTS) }
        ensures new { IfOk result (λ r. AreNew r.0 clients r.1) }
    {
        let mut passes = Vec::with_capacity(alloc, clients as usize)?;
        let (cell, mut rest) = Cell::ruled(alloc, Numbers::OPENING)?;
        let (board, mut first) = Board::open(alloc)?;
        // Each client so far has a pass, and the seat of the others covers the clients that come next.
        for known in 0..clients {
            let seat = split::<NextClient>(&cell, &mut rest);
            passes.push(Pass {
                seat,
                number: known + 1,
                stopping: false,
                slowing: false,
                shown: 0,
                board: board.client(&mut first),
                said: 0,
                tokens: 0,
            })?;
        }
        let controller = Controller {
            cell,
            board,
            clients,
            clock: PhantomData,
        };
        let passes = Passes {
            clients: passes,
            others: Others {
                seat: rest,
                board: first,
            },
        };
        Ok((controller, passes))
    }

    /// Takes all passes back. There is one history, which is legal. All its calls are the clients', and each pass has
    /// seen a beginning of it, with all calls of its own.
    pub fn close<R: Wait>(self, rt: &R, passes: Passes)
        requires all { AreAll self passes }
        // Each pass has seen a beginning of it, with all its own calls: so the answers that clients had of the
        // controller fit together.
        ensures history { (history : List ControllerCall) × IsHistoryOf passes.clients.items history }
    {
        let Controller {
            cell,
            board,
            clients: _,
            clock: _,
        } = self;
        let Passes { clients, others } = passes;
        let Others {
            seat: mut rest,
            board: mut first,
        } = others;
        // The passes so far are joined into the seat of the others, and what their clients know of the board into that
        // of the board's first client.
        for mut pass in clients {
            let seat = split::<Moved>(&cell, &mut pass.seat);
            join(&cell, &mut rest, seat);
            board.join(&mut first, pass.board);
        }
        // Only a step shows the history. A load is enough for that, with this seat alone.
        load::<Closing, R>(&cell, rt, &mut rest);
        board.close(first);
    }
}
