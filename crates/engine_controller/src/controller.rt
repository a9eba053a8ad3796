//! The controller: eight words that change together, and the step that makes a call.

ghost use Rattle.std.specs.Prelude.{◌≡◌, ◌+◌};
ghost use Rattle.crossbeam_utils.specs.Seq.{cell_view};
ghost use Rattle.engine_controller.specs.declared.numbers.Numbers.{Numbers};
ghost use Rattle.engine_controller.specs.Looks.{look_of, look_at};
ghost use Rattle.engine_controller.specs.Numbers.{numbers_of, action_of, shown_after, token_weight};
ghost use Rattle.engine_controller.specs.Rule.{Makes, IsDelayAt, Asks, MayCall, IsClientView};
ghost use Rattle.engine_controller.specs.Rule.{client_in, seen_in, asked_in, marked_of};

use crate::look::Look;
use crate::numbers::{Action, Numbers};
use crate::rule::{Asking, Cell, Seat, Sight, Unslowed};
use crate::words::{exchange, load};
use base_devices::Clock;
use engine_board::Board;
use std::marker::{Brand, PhantomData};
use std::sync::{Mutex, Wait};

/// A write controller for several clients, which ask a clock of the type `Time`.
#[derive(Drop)]
pub struct Controller<Time> {
    pub(crate) cell: Cell,
    pub(crate) board: Board,
    pub(crate) clients: u32,
    // No clock is kept. `PhantomData` of a lock of it lets threads share the controller, even where only one thread
    // may have the clock.
    pub(crate) clock: PhantomData<Mutex<Time>>,
}

impl<Time: Clock> Controller<Time> {
    // Makes a call of this client's, and returns its answer, and the numbers after it. Between the load and the
    // exchange other clients may have called: then it tries again with the numbers that the exchange found.
    pub(crate) fn call<R: Wait>(
        &self,
        rt: &R,
        seat: &mut Seat,
        client: u32,
        action: Action,
    ) -> (Look, Numbers)
        requires client { client ≡ client_in (cell_view seat.old) }
        requires cell { seat.old.table_id ≡ self.now.cell.table.shared.table_id }
        requires view { IsClientView (cell_view seat.old) }
        requires may { MayCall action (asked_in (client_in (cell_view seat.old)) (seen_in (cell_view seat.old))) }
        requires unsaid { marked_of action ≡ 0 }
        ensures cell { seat.new.table_id ≡ seat.old.table_id }
        ensures made { (found : Numbers) × Makes action (cell_view seat.old) found (cell_view seat.new)
            × (look_of result.0 ≡ look_at (numbers_of found) (action_of action))
            × (result.1.shown ≡ shown_after found.shown (action_of action))
            × (result.1.tokens ≡ found.tokens + token_weight (action_of action)) }
    {
        let mut found = load::<Sight, R>(&self.cell, rt, seat);
        // No call was made so far, and the numbers that were found last are numbers of the history that the seat has
        // seen.
        for _ in rt.forever() {
            if found.tokens < u64::MAX {
                let (new, wait) = found.after(client as u64, action);
                match exchange::<Brand, R>(&self.cell, rt, seat, action, found, new) {
                    Ok(_) => return (Look::new(found.stops, found.delays, wait), new),
                    Err(other) => found = other,
                }
            } else {
                // A token call more would not be counted, and what follows couldn't tell how many there were: so no
                // call is made, and the client waits for ever.
                found = load::<Sight, R>(&self.cell, rt, seat);
            }
        }
        unreachable!()
    }

    // Reads the numbers. Where no client stops or slows writes, this also asks for a delay: there a load is the whole
    // call, and no word is written. The clock isn't asked. It is a parameter for the last moment that it answered,
    // which only the clauses and proofs know.
    pub(crate) fn ask_unslowed<Picked: Asking, R: Wait>(
        &self,
        rt: &R,
        seat: &mut Seat,
        clock: &Time,
        bytes: u64,
    ) -> Numbers
        requires picked { IsDelayAt (Time.last clock.now) bytes Picked.call }
        requires cell { seat.old.table_id ≡ self.now.cell.table.shared.table_id }
        requires view { IsClientView (cell_view seat.old) }
        ensures cell { seat.new.table_id ≡ seat.old.table_id }
        ensures asks { Asks Picked.call (cell_view seat.old) result (cell_view seat.new) }
    {
        load::<Unslowed<Picked>, R>(&self.cell, rt, seat)
    }
}
