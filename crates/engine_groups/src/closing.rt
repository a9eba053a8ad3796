//! The end of an engine.

ghost use Rattle.std.specs.Prelude.{◌≡◌, ◌≤◌, ◌+◌, ◌<◌, ℕ, List, [], ◌++◌, map, Option, IfSome, length, vec_len, vec_capacity};
ghost use mathlib.Core.List.{IsPrefix};
ghost use Rattle.model_base.specs.Controller.{ControllerCall};
ghost use Rattle.model_base.specs.Recovery.{Logged};
ghost use Rattle.engine_controller.specs.Passes.{seen_by_note, AreAll, IsNoteOf, IsHistoryOf};
ghost use Rattle.engine_groups.specs.Clients.{writer_in, seat_in, pass_in};

use crate::engine::{ClosingRoom, EngineClient, GroupEngine};
use crate::laws;
use crate::leader::{Held, Leadership, Right, one_turn};
use base_devices::Clock;
use engine_calls::{Clients, Closed, Gate};
use engine_controller::{Controller, Note, Pass, Passes};
use engine_parts::{LogPath, OpenLog, SealedAnswer, SealedRequest, take_first};
use line_writers::Writer;
use log_writer::GroupLog;
use std::rt;
use std::sync::Wait;
use table_calls::{Seats, Table};
use table_nodes::{Nodes, Parts};

/// Takes the clients apart into their writers, seats and passes.
pub(crate) fn part_all<Log: GroupLog, Versions: Table<Nodes, Parts>, Time>(
    clients: &mut Vec<EngineClient<Log, Versions, Time>>,
    writers: &mut Vec<
        Writer<SealedRequest, SealedAnswer, Leadership<Log, Versions, Time>, Right<Versions>>,
    >,
    seats: &mut Vec<Versions::Seat>,
    passes: &mut Vec<Pass>,
)
    requires empty { (writers.old.items ≡ []) × (seats.old.items ≡ []) × (passes.old.items ≡ []) }
    requires room { (length clients.old.items ≤ vec_capacity writers.old)
        × (length clients.old.items ≤ vec_capacity seats.old)
        × (length clients.old.items ≤ vec_capacity passes.old) }
    ensures writers { writers.new.items ≡ map writer_in clients.old.items }
    ensures seats { seats.new.items ≡ map seat_in clients.old.items }
    ensures passes { passes.new.items ≡ map pass_in clients.old.items }
    ensures parted { clients.new.items ≡ [] }
{
    // The parts that were taken so far, with those of the clients that are left, are the parts of all clients.
    while let Some(client) = take_first(clients) {
        let EngineClient {
            number: _,
            start: _,
            table: _,
            writer,
            seat,
            pass,
            lists: _,
            layout: _,
            envelope: _,
        } = client;
        writers.push_reserved(writer);
        seats.push_reserved(seat);
        passes.push_reserved(pass);
    }
}

/// Ends a controller. Its first pass learns what a note shows, so that the one history begins with that too.
fn end_controller<Time: Clock, R: Wait + rt::Clock>(
    rt: &R,
    controller: Controller<Time>,
    passes: Passes,
    note: Note,
)
    requires all { AreAll controller passes }
    requires some { 0 < length passes.clients.items }
    requires note { IsNoteOf controller note }
    ensures { (history : List ControllerCall) × IsHistoryOf passes.clients.items history
        × IsPrefix (seen_by_note note) history }
{
    let Passes {
        clients: mut passes,
        others,
    } = passes;
    controller.learn(rt, &mut passes[0], note);
    let passes = Passes {
        clients: passes,
        others,
    };
    controller.close(rt, passes);
}

impl<
    Log: GroupLog,
    Versions: Table<Nodes, Parts>,
    Time: Clock + Drop,
    Watch: Gate + Drop,
> GroupEngine<Log, Versions, Time, Watch> {
    ghost use Rattle.engine_parts.specs.Logs.{fault_of, faults_of};
    ghost use Rattle.engine_parts.specs.Logs.{Wrote};
    ghost use Rattle.model_accounts.specs.Closing.{AreOurs, HasOneTrace};
    ghost use Rattle.line_writers.specs.Seats.{clients_of};
    ghost use Rattle.engine_groups.specs.Clients.{IsClientOf, account_in, had_in, settings_of, opened_log, HasRoomToClose};

    /// Closes the engine, and gives its log back. All clients are handed in. There is one trace of all that they wrote
    /// and read, and the log was written by exactly the calls that wrote the trace's history.
    pub fn close<R: Wait + rt::Clock>(
        self,
        rt: &R,
        clients: Clients<EngineClient<Log, Versions, Time>, ClosingRoom<Log, Versions, Time>>,
    ) -> Closed<OpenLog<Log>>
        requires all { AreOurs (IsClientOf Versions.Table self) (account_in Versions.Table)
            (clients_of self.list) clients.clients.items }
        requires room { HasRoomToClose self.controller (clients_of self.list) clients.room }
        // What reads of the log gave is right in it, for whatever the log had kept before.
        ensures { (kept : Option (List Logged)) → IfSome kept (had_in Versions.Table self)
            → HasOneTrace (settings_of Versions.Table self) kept (faults_of result.log)
            (map (account_in Versions.Table) clients.clients.items) result.last (fault_of result.log)
            (λ calls. Wrote (opened_log self) calls result.log) }
    {
        let GroupEngine {
            list,
            table,
            controller,
            gate: _,
            alloc: _,
            families: _,
            batch_bytes: _,
        } = self;
        let Clients {
            mut clients,
            room: ClosingRoom {
                mut writers,
                mut seats,
                mut passes,
                others,
            },
        } = clients;
        part_all(&mut clients, &mut writers, &mut seats, &mut passes);
        clients.destroy_empty();
        let (leadership, right) = list.close(writers);
        let Leadership { held, turn, asked } = leadership;
        let Held { path, clock: _ } = Box::into_inner(held);
        let LogPath {
            log,
            last,
            made: _,
            places: _,
        } = path;
        let Right { turn: apart } = right;
        let turn = one_turn(turn, apart);
        let passes = Passes {
            clients: passes,
            others,
        };
        end_controller(rt, controller, passes, asked);
        table.close(Seats {
            turn,
            clients: seats,
        });
        laws::closings();
        Closed { log, last }
    }
}
