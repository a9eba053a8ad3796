//! How a list is opened.
ghost use Rattle.std.specs.Prelude.{◌≡◌, ℕ, ◌+◌, ◌<◌, ◌≤◌, [], ◌∷◌, ◌++◌, true, vec_len, vec_capacity, replicate, IfOk, IfErr};
ghost use Rattle.line_rule.specs.declared.content.LineSlot.TheVariants.{Empty, TheLog, TheRight};
ghost use Rattle.line_rule.specs.Rule.{newcomers};
ghost use Rattle.line_writers.specs.Roles.{AreNew};
ghost use Rattle.line_writers.specs.Rooms.{AllReady};
ghost use Rattle.line_writers.specs.Seats.{HasOpened};

use crate::line_writers::WriterList;
use crate::room::Lists;
use crate::slots::{log_of, nothing_of, right_of};
use crate::writer::{Task, Writer};
use atomic_table::{Refused, Seat, Table};
use base_waiting::Bells;
use line_rule::{
    GivesRun, HasGroupingItem, LineSlot, LineView, LogOfGroups, STALL, SplitFirst, Start,
};
use std::alloc::Global;

impl<
    Request: HasGroupingItem + Drop,
    Reply: GivesRun + Drop,
    Log: LogOfGroups<Request, Reply, Right>,
    Right,
> WriterList<Request, Reply, Log, Right> {
    /// A list with a writer for each client, greatest number first, and for each the lists that it needs to lead.
    /// Where there isn't enough memory, the log and the right come back.
    pub fn open(
        alloc: Global,
        start: &Start<Log::About>,
        log: Log,
        right: Right,
    ) -> Result<
        (
            WriterList<Request, Reply, Log, Right>,
            Vec<Writer<Request, Reply, Log, Right>>,
            Vec<Lists<Request, Reply>>,
        ),
        (Log, Right),
    >
        requires clients { (0 < start.now.clients) × (start.now.clients < STALL) }
        requires numbers { (Log.number_of log ≡ start.now.log) × Log.serves start.now.about right [] }
        requires log { Log.stands start.now.about log [] × Log.kept start.now.about [] }
        ensures ok { IfOk result (λ r. HasOpened start.now r.0 r.1.items
            × (vec_len r.1 ≡ start.now.clients) × (vec_len r.2 ≡ start.now.clients)
            × AllReady start.now.clients r.2.items) }
        ensures err { IfErr result (λ e. (e.0 ≡ log) × (e.1 ≡ right)) }
    {
        let clients = start.clients;
        let Ok(mut writers) = Vec::with_capacity(alloc, clients as usize) else {
            return Err((log, right));
        };
        let Ok(lists) = Lists::for_all(alloc, clients) else {
            return Err((log, right));
        };
        let Ok(bells) = Bells::for_clients(alloc, clients) else {
            return Err((log, right));
        };
        // All words are 0: both lists are empty, so the first writer that links leads at once, and the first group of
        // the second list has the right at once. The constructor of `WriteThread` sets `newest_writer_` and
        // `newest_memtable_writer_` to null.
        let Ok(words) = vec![in alloc; 0u64; 2 * clients as usize + 4] else {
            return Err((log, right));
        };
        let slots = match WriterList::slots_for(alloc, clients, log, right) {
            Ok(slots) => slots,
            Err(both) => return Err(both),
        };
        match Table::new(alloc, words.as_slice(), slots, start) {
            Ok((table, seat)) => {
                let list = WriterList {
                    table,
                    clients,
                    group_bytes: start.group_bytes,
                    bells,
                };
                list.seat_all(seat, &mut writers);
                Ok((list, writers, lists))
            }
            Err(Refused { slots }) => Err(WriterList::unmade(slots, clients)),
        }
    }
}

impl<
    Request: HasGroupingItem,
    Reply: GivesRun,
    Log: LogOfGroups<Request, Reply, Right>,
    Right,
> WriterList<Request, Reply, Log, Right> {
    /// The slots as they are at the start.
    fn slots_for(
        alloc: Global,
        clients: u32,
        log: Log,
        right: Right,
    ) -> Result<Vec<LineSlot<Request, Reply, Log, Right>>, (Log, Right)>
        requires { clients < STALL }
        ensures ok { IfOk result (λ v. v.items ≡ TheLog log ∷ (replicate clients Empty ++ TheRight right ∷ [])) }
        ensures err { IfErr result (λ e. (e.0 ≡ log) × (e.1 ≡ right)) }
    {
        let Ok(mut slots) = Vec::with_capacity(alloc, clients as usize + 2) else {
            return Err((log, right));
        };
        slots.push_reserved(LineSlot::TheLog(log));
        // The slot of the log is there, and so are those of the first `made` clients, which are empty.
        for made in 0..clients {
            slots.push_reserved(LineSlot::Empty);
        }
        slots.push_reserved(LineSlot::TheRight(right));
        Ok(slots)
    }

    /// Takes the log and the right out of the slots, where the table could not be made.
    fn unmade(mut slots: Vec<LineSlot<Request, Reply, Log, Right>>, clients: u32) -> (Log, Right)
        requires slots { (l : Log) × (m : Right)
            × (slots.items ≡ TheLog l ∷ (replicate clients Empty ++ TheRight m ∷ [])) }
        requires few { clients < STALL }
        ensures { (l : Log) (m : Right) → slots.items ≡ TheLog l ∷ (replicate clients Empty ++ TheRight m ∷ [])
            → (result.0 ≡ l) × (result.1 ≡ m) }
    {
        let Some(last) = slots.pop() else {
            unreachable!()
        };
        let right = right_of(last);
        // The right and the slots of the last `done` clients are taken out.
        for done in 0..clients {
            let Some(slot) = slots.pop() else {
                unreachable!()
            };
            nothing_of(slot);
        }
        let Some(first) = slots.pop() else {
            unreachable!()
        };
        let log = log_of(first);
        slots.destroy_empty();
        (log, right)
    }

    /// Makes a writer for each client.
    fn seat_all(
        &self,
        mut first: Seat<LineSlot<Request, Reply, Log, Right>, LineView<Request, Reply>>,
        writers: &mut Vec<Writer<Request, Reply, Log, Right>>,
    )
        requires seat { (first.table_id ≡ self.now.table.shared.table_id)
            × (first.me ≡ (newcomers self.now.clients, [])) }
        requires room { (vec_len writers.old ≡ 0) × (writers.old.items ≡ [])
            × (self.now.clients ≤ vec_capacity writers.old) }
        ensures { (vec_len writers.new ≡ self.now.clients)
            × AreNew self.now.table.shared.table_id self.now.clients writers.new.items }
    {
        // The `made` clients with the greatest numbers have their writers, and the first seat has the others.
        for made in 0..self.clients {
            let seat = self.table.shared.split_seat::<SplitFirst>(&mut first);
            writers.push_reserved(Writer {
                client: self.clients - made,
                task: Task::Awaits,
                seat,
            });
        }
    }
}
