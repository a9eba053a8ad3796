//! How a list is closed.
ghost use Rattle.std.specs.Prelude.{◌≡◌, ℕ, ◌+◌, ◌<◌, ◌≤◌, [], ◌++◌, true, false, vec_len, length, reverse};
ghost use Rattle.std.specs.Slots.{slots_items, slots_len, IsFull};
ghost use mathlib.Core.Option.{some};
ghost use lib.ListN.{get_elem?};
ghost use Rattle.line_rule.specs.declared.content.LineSlot.TheVariants.{Empty, TheLog, TheRight};
ghost use Rattle.line_rule.specs.Rule.{given_runs};
ghost use Rattle.line_writers.specs.Seats.{table_of, clients_of, about_of, piped_of, law_of, AllOut, AllThere, Merged, holds_of};
ghost use Rattle.line_writers.specs.Groups.{Handled};

use crate::line_writers::WriterList;
use crate::slots::{log_of, nothing_of, right_of};
use crate::writer::Writer;
use atomic_table::{Closed, Seat};
use line_rule::{GivesRun, HasGroupingItem, JoinClients, LineSlot, LineView, LogOfGroups, STALL};
use std::alloc::Global;

impl<
    Request: HasGroupingItem,
    Reply: GivesRun,
    Log: LogOfGroups<Request, Reply, Right>,
    Right,
> WriterList<Request, Reply, Log, Right> {
    /// Gives the log and the right back. The log covers all that was handled; each client's own part of it is what
    /// that client asked, with the replies that it got, in its order.
    pub fn close(self, mut writers: Vec<Writer<Request, Reply, Log, Right>>) -> (Log, Right)
        requires out { AllOut (table_of self) writers.items × AllThere (clients_of self) writers.items
            × (vec_len writers ≡ length writers.items) }
        // In a list with a second one the right covers what was given runs of all that was handled, and in others
        // nothing.
        ensures { (handled : Handled Request Reply)
            × law_of Reply.run_of Log.LogOfGroups self result.0 handled
            × (piped_of self ≡ false → Log.serves (about_of self) result.1 [])
            × (piped_of self ≡ true → Log.serves (about_of self) result.1 (given_runs Reply.run_of handled))
            × Merged handled writers.items }
    {
        let Some(
            Writer {
                client: _,
                task: _,
                mut seat,
            },
        ) = writers.pop()
        else {
            unreachable!()
        };
        self.join_all(&mut seat, &mut writers);
        let WriterList {
            table,
            clients,
            group_bytes: _,
            bells: _,
        } = self;
        take_all(table.close_with(seat), clients)
    }

    /// Joins the seats of the writers into one.
    fn join_all(
        &self,
        first: &mut Seat<LineSlot<Request, Reply, Log, Right>, LineView<Request, Reply>>,
        writers: &mut Vec<Writer<Request, Reply, Log, Right>>,
    )
        requires first { (first.old.table_id ≡ self.now.table.shared.table_id) × (first.old.me.1 ≡ []) }
        requires writers { AllOut self.now.table.shared.table_id writers.old.items
            × (vec_len writers.old ≡ length writers.old.items) }
        ensures { (first.new.table_id ≡ first.old.table_id)
            × (first.new.me ≡ (first.old.me.0 ++ reverse (holds_of writers.old.items), []))
            × (writers.new.items ≡ []) }
    {
        // The first seat has the clients of the last `i` writers too.
        for i in 0..writers.len() {
            let Some(
                Writer {
                    client: _,
                    task: _,
                    seat,
                },
            ) = writers.pop()
            else {
                unreachable!()
            };
            self.table.shared.join_seat::<JoinClients>(first, seat);
        }
    }
}

/// Takes the log and the right out of the slots of a closed table. All other slots are empty.
fn take_all<Request, Reply, Log, Right>(
    mut closed: Closed<LineSlot<Request, Reply, Log, Right>, Global>,
    clients: u32,
) -> (Log, Right)
    requires full { (slots_len closed.slots ≡ clients + 2) × IsFull closed.slots × (clients < STALL) }
    requires held { (l : Log) × (r : Right) × (get_elem? (slots_items closed.slots) 0 ≡ some (TheLog l))
        × (get_elem? (slots_items closed.slots) (clients + 1) ≡ some (TheRight r))
        × ((i : ℕ) → 0 < i → i ≤ clients → get_elem? (slots_items closed.slots) i ≡ some Empty) }
    ensures { (get_elem? (slots_items closed.slots) 0 ≡ some (TheLog result.0))
        × (get_elem? (slots_items closed.slots) (clients + 1) ≡ some (TheRight result.1)) }
{
    let log = log_of(closed.take(0));
    // The log and the slots of the first `i` clients are taken out.
    for i in 0..clients {
        nothing_of(closed.take(i as usize + 1));
    }
    let right = right_of(closed.take(clients as usize + 1));
    closed.free();
    (log, right)
}
