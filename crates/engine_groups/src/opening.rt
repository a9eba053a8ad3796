//! How an engine is opened.

ghost use Rattle.std.specs.Prelude.{true, false, ◌≡◌, ◌⊎◌, ◌≤◌, ◌<◌, ◌+◌, ℕ, [], length, vec_capacity, IfOk, IfErr, None, Some, slice_get};
ghost use Rattle.std.specs.List.{AllByRecursion};
ghost use Rattle.model_base.specs.History.{max_sequence};
ghost use Rattle.log_updates.specs.Places.{first_place};
ghost use Rattle.engine_parts.specs.Logs.{faults_of, fault_of};
ghost use Rattle.table_calls.specs.Account.{IsReady};
ghost use Rattle.line_writers.specs.Roles.{IsNew, AreNew};
ghost use Rattle.line_writers.specs.Rooms.{AreReady, AllReady};
ghost use Rattle.line_writers.specs.Seats.{table_of, clients_of, piped_of};
ghost use Rattle.engine_controller.specs.Passes.{AreNew as AreNewPasses, IsNoteOf, IsOthersOf, seen_by_note};
ghost use Rattle.model_accounts.specs.Accounts.{newcomer};
ghost use Rattle.model_accounts.specs.Closing.{AreOurs};
ghost use Rattle.model_base.specs.Settings.{settings_of as settings_with};
ghost use Rattle.engine_parts.specs.Layout.{IsRoomy, AreRoomy};
ghost use Rattle.engine_groups.specs.Clients.{IsEngine, IsClientOf, HasRoomToClose, map_at_opening, account_in, settings_of, opened_log};
ghost use Rattle.engine_groups.specs.AtStart.{AreSeatsAtStart, ArePassesAtStart, IsPassAtStart, IsNewcomer, AreNewcomers};

use crate::engine::{ClosingRoom, EngineClient, GroupEngine};
use crate::laws;
use crate::leader::{EngineAtOpening, Held, Leadership, Right, one_turn};
use base_devices::Clock;
use engine_calls::{Clients, Gate};
use engine_controller::{Controller, Note, Pass, Passes};
use engine_parts::{Envelope, Layout, LogPath, OpenLog, SealedAnswer, SealedRequest};
use line_rule::Start;
use line_writers::{Lists, Writer, WriterList};
use log_updates::ReadPlaces;
use log_writer::GroupLog;
use model_base::{MAX_CLIENTS, MAX_SIZE, Options};
use std::alloc::{AllocFailed, Global};
use std::snapshot::Snapshot;
use table_calls::{Seats, Table};
use table_nodes::{Nodes, Parts};

/// What an engine should have been opened with, handed back as it was.
pub struct OpenRefused<Log: GroupLog, Versions: Table<Nodes, Parts>, Time, Watch> {
    pub log: OpenLog<Log>,
    pub clock: Time,
    pub table: Versions,
    pub seats: Seats<Versions::Seat, Versions::Turn>,
    pub gate: Watch,
}

impl<Log: GroupLog, Versions: Table<Nodes, Parts>, Time, Watch> OpenRefused<
    Log,
    Versions,
    Time,
    Watch,
> {
    fn of(
        log: OpenLog<Log>,
        clock: Time,
        table: Versions,
        seats: Seats<Versions::Seat, Versions::Turn>,
        gate: Watch,
    ) -> OpenRefused<Log, Versions, Time, Watch>
        ensures { result ≡ record { log = log; clock = clock; table = table; seats = seats; gate = gate } }
    {
        OpenRefused {
            log,
            clock,
            table,
            seats,
            gate,
        }
    }
}

/// A note for the first leader, made from a pass that has seen nothing.
fn first_note<Time: Clock>(controller: &Controller<Time>, passes: &mut Vec<Pass>) -> Note
    requires passes { ArePassesAtStart controller.now 1 passes.old.items × (0 < length passes.old.items) }
    ensures passes { ArePassesAtStart controller.now 1 passes.new.items
        × (length passes.new.items ≡ length passes.old.items) }
    ensures note { IsNoteOf controller.now result × (seen_by_note result ≡ []) }
{
    controller.note(&mut passes[0])
}

/// The right to launch goes with the log where there is one stage, and is apart where there are two.
fn part_turn<Turn>(pipelined: bool, turn: Turn) -> (Option<Turn>, Option<Turn>)
    ensures single { pipelined ≡ false → (result.0 ≡ Some turn) × (result.1 ≡ None) }
    ensures piped { pipelined ≡ true → (result.0 ≡ None) × (result.1 ≡ Some turn) }
{
    if pipelined {
        (None, Some(turn))
    } else {
        (Some(turn), None)
    }
}

/// What the list of writers is made for: this engine, as it is opened.
fn start_with<Log: GroupLog, Versions, Time>(
    table: &Versions,
    controller: &Controller<Time>,
    log: &OpenLog<Log>,
    options: Options,
    clients: u32,
    pipelined: bool,
) -> Start<EngineAtOpening<Log, Versions, Time>>
    ensures list { (result.clients ≡ clients) × (result.log ≡ options.last) × (result.pipelined ≡ pipelined)
        × (result.group_bytes ≡ options.group_bytes) }
    ensures engine { (result.about.table.value ≡ table.now) × (result.about.controller.value ≡ controller.now)
        × (result.about.opened.value ≡ log.now) }
    ensures numbers { (result.about.start ≡ options.last) × (result.about.clients ≡ clients)
        × (result.about.group_bytes ≡ options.group_bytes) × (result.about.pipelined ≡ pipelined) }
{
    Start {
        clients,
        log: options.last,
        pipelined,
        group_bytes: options.group_bytes,
        about: EngineAtOpening {
            table: Snapshot::of(table),
            controller: Snapshot::of(controller),
            opened: Snapshot::of(log),
            start: options.last,
            clients: u64::from(clients),
            group_bytes: options.group_bytes,
            pipelined,
        },
    }
}

/// What the engine should have been opened with, taken back out of the leadership and the right that the list should
/// have begun with.
fn given_back<Log: GroupLog, Versions: Table<Nodes, Parts>, Time: Drop, Watch>(
    leadership: Leadership<Log, Versions, Time>,
    right: Right<Versions>,
    table: Versions,
    seats: Vec<Versions::Seat>,
    gate: Watch,
) -> OpenRefused<Log, Versions, Time, Watch>
    requires turn { ((u : Versions.Turn) × (leadership.turn ≡ Some u) × (right.turn ≡ None))
        ⊎ ((u : Versions.Turn) × (leadership.turn ≡ None) × (right.turn ≡ Some u)) }
    ensures same { (result.log ≡ leadership.held.value.path.log) × (result.clock ≡ leadership.held.value.clock)
        × (result.table ≡ table) × (result.seats.clients ≡ seats) × (result.gate ≡ gate) }
    ensures turn { ((leadership.turn ≡ Some result.seats.turn) × (right.turn ≡ None))
        ⊎ ((leadership.turn ≡ None) × (right.turn ≡ Some result.seats.turn)) }
{
    let Leadership {
        held,
        turn,
        asked: _,
    } = leadership;
    let Held { path, clock } = Box::into_inner(held);
    let LogPath {
        log,
        last: _,
        made: _,
        places: _,
    } = path;
    let Right { turn: apart } = right;
    let turn = one_turn(turn, apart);
    OpenRefused {
        log,
        clock,
        table,
        seats: Seats {
            turn,
            clients: seats,
        },
        gate,
    }
}

impl<
    Log: GroupLog,
    Versions: Table<Nodes, Parts>,
    Time: Clock + Drop,
    Watch: Gate + Drop,
> GroupEngine<Log, Versions, Time, Watch> {
    /// Opens an engine over a log that has no fault and a table in which nothing is published, with a client for each
    /// of the table's seats. Where memory is short, all is handed back. Where the engine is pipelined, a group goes
    /// into the table while later ones are logged, and its members may put in their own parts.
    pub fn open(
        alloc: Global,
        log: OpenLog<Log>,
        clock: Time,
        table: Versions,
        seats: Seats<Versions::Seat, Versions::Turn>,
        gate: Watch,
        options: Options,
        pipelined: bool,
    ) -> Result<
        (
            GroupEngine<Log, Versions, Time, Watch>,
            Clients<EngineClient<Log, Versions, Time>, ClosingRoom<Log, Versions, Time>>,
        ),
        OpenRefused<Log, Versions, Time, Watch>,
    >
        requires options { (options.last ≡ (Versions.opening table).start) × (options.last ≤ max_sequence)
            × (options.batch_bytes ≤ MAX_SIZE) }
        requires clients { (0 < (Versions.opening table).clients) × ((Versions.opening table).clients ≤ MAX_CLIENTS) }
        // It doesn't matter how the log was opened: it may be new, lie over old bytes, or go on.
        requires log { fault_of log ≡ None }
        requires turn { Versions.our_turn table seats.turn × (Versions.history seats.turn ≡ []) }
        requires seats { AreSeatsAtStart Versions.Table table (Versions.opening table).clients seats.clients.items }
        ensures engine { IfOk result (λ r. (r.0.table ≡ table) × (opened_log r.0 ≡ log)
            × (settings_of Versions.Table r.0
            ≡ settings_with options (map_at_opening Versions.Table table) (Versions.opening table).clients
            (faults_of log))) }
        ensures clients { IfOk result (λ r. AreOurs (IsClientOf Versions.Table r.0)
            (account_in Versions.Table) (clients_of r.0.list) r.1.clients.items) }
        ensures new { IfOk result (λ r. (i : ℕ) (c : _) → slice_get r.1.clients.items i ≡ Some c
            → account_in Versions.Table c ≡ newcomer options.last (map_at_opening Versions.Table table) (i + 1)) }
        ensures room { IfOk result (λ r. HasRoomToClose r.0.controller (clients_of r.0.list) r.1.room) }
        // All other clauses are the same for one stage and for two.
        ensures stages { IfOk result (λ r. piped_of r.0.list ≡ pipelined) }
        ensures err { IfErr result (λ e. (e.log ≡ log) × (e.clock ≡ clock) × (e.table ≡ table) × (e.seats ≡ seats)
            × (e.gate ≡ gate)) }
    {
        let count = seats.clients.len() as u32;
        let Ok((controller, passes)) = Controller::open(alloc, count) else {
            return Err(OpenRefused::of(log, clock, table, seats, gate));
        };
        let Ok(layouts) = Layout::for_all(alloc, count) else {
            return Err(OpenRefused::of(log, clock, table, seats, gate));
        };
        let Ok(envelopes) = Envelope::for_all(alloc, count) else {
            return Err(OpenRefused::of(log, clock, table, seats, gate));
        };
        let Ok(places) = ReadPlaces::for_clients(alloc, count) else {
            return Err(OpenRefused::of(log, clock, table, seats, gate));
        };
        let Ok(clients) = Vec::with_capacity(alloc, count as usize) else {
            return Err(OpenRefused::of(log, clock, table, seats, gate));
        };
        let last = options.last;
        let path = LogPath {
            log,
            last,
            made: 0,
            places,
        };
        let held = match Box::new(alloc, Held { path, clock }) {
            Ok(held) => held,
            Err(AllocFailed { value: held }) => {
                clients.destroy_empty();
                let Held { path, clock } = held;
                let LogPath {
                    log,
                    last: _,
                    made: _,
                    places: _,
                } = path;
                return Err(OpenRefused::of(log, clock, table, seats, gate));
            }
        };
        Self::open_with(
            alloc, held, table, seats, gate, options, pipelined, controller, passes, layouts,
            envelopes, clients,
        )
    }

    /// Opens an engine and its clients, where all that it needs is there except the list of writers.
    fn open_with(
        alloc: Global,
        held: Box<Held<Log, Time>>,
        table: Versions,
        seats: Seats<Versions::Seat, Versions::Turn>,
        gate: Watch,
        options: Options,
        pipelined: bool,
        controller: Controller<Time>,
        mut passes: Passes,
        layouts: Vec<Layout>,
        envelopes: Vec<Envelope>,
        clients: Vec<EngineClient<Log, Versions, Time>>,
    ) -> Result<
        (
            GroupEngine<Log, Versions, Time, Watch>,
            Clients<EngineClient<Log, Versions, Time>, ClosingRoom<Log, Versions, Time>>,
        ),
        OpenRefused<Log, Versions, Time, Watch>,
    >
        requires options { (options.last ≡ (Versions.opening table).start) × (options.last ≤ max_sequence)
            × (options.batch_bytes ≤ MAX_SIZE) }
        requires clients { (0 < (Versions.opening table).clients)
            × ((Versions.opening table).clients ≤ MAX_CLIENTS) }
        requires log { (fault_of held.value.path.log ≡ None) × (held.value.path.last ≡ options.last)
            × (held.value.path.made ≡ 0) }
        requires places { AllByRecursion (λ p. p ≡ first_place) held.value.path.places }
        requires turn { Versions.our_turn table seats.turn × (Versions.history seats.turn ≡ []) }
        requires seats { AreSeatsAtStart Versions.Table table (Versions.opening table).clients
            seats.clients.items }
        requires controller { AreNewPasses controller (Versions.opening table).clients passes }
        requires layouts { AreRoomy (Versions.opening table).clients layouts.items
            × (length layouts.items ≡ (Versions.opening table).clients) }
        requires envelopes { length envelopes.items ≡ (Versions.opening table).clients }
        requires room { (clients.items ≡ []) × ((Versions.opening table).clients ≤ vec_capacity clients) }
        ensures engine { IfOk result (λ r. (r.0.table ≡ table) × (opened_log r.0 ≡ held.value.path.log)
            × (settings_of Versions.Table r.0
            ≡ settings_with options (map_at_opening Versions.Table table) (Versions.opening table).clients
            (faults_of held.value.path.log))) }
        ensures clients { IfOk result (λ r. AreOurs (IsClientOf Versions.Table r.0)
            (account_in Versions.Table) (clients_of r.0.list) r.1.clients.items) }
        ensures new { IfOk result (λ r. (i : ℕ) (c : _) → slice_get r.1.clients.items i ≡ Some c
            → account_in Versions.Table c ≡ newcomer options.last (map_at_opening Versions.Table table) (i + 1)) }
        ensures room { IfOk result (λ r. HasRoomToClose r.0.controller (clients_of r.0.list) r.1.room) }
        ensures stages { IfOk result (λ r. piped_of r.0.list ≡ pipelined) }
        ensures err { IfErr result (λ e. (e.log ≡ held.value.path.log) × (e.clock ≡ held.value.clock)
            × (e.table ≡ table) × (e.seats ≡ seats) × (e.gate ≡ gate)) }
    {
        let Seats {
            turn,
            clients: seats,
        } = seats;
        let count = seats.len() as u32;
        let start = start_with(
            &table,
            &controller,
            &held.path.log,
            options,
            count,
            pipelined,
        );
        let (with_log, apart) = part_turn(pipelined, turn);
        let last = options.last;
        let leadership = Leadership {
            held,
            turn: with_log,
            asked: first_note(&controller, &mut passes.clients),
        };
        laws::groups_stay_consistent();
        match WriterList::open(alloc, &start, leadership, Right { turn: apart }) {
            Ok((list, writers, lists)) => {
                let engine = GroupEngine {
                    list,
                    table,
                    controller,
                    gate,
                    alloc,
                    families: options.families,
                    batch_bytes: options.batch_bytes,
                };
                engine.gate.opened(engine.table.locks());
                let clients = engine.seat_all(
                    last, writers, seats, passes, lists, layouts, envelopes, clients,
                );
                Ok((engine, clients))
            }
            Err((leadership, right)) => {
                clients.destroy_empty();
                Err(given_back(leadership, right, table, seats, gate))
            }
        }
    }

    /// Makes a client of each writer, seat and pass. The writers come in falling order of their numbers; seats, passes
    /// and clients are in rising order. The vectors that they were in become the room for closing.
    fn seat_all(
        &self,
        start: u64,
        mut writers: Vec<
            Writer<SealedRequest, SealedAnswer, Leadership<Log, Versions, Time>, Right<Versions>>,
        >,
        mut seats: Vec<Versions::Seat>,
        passes: Passes,
        mut lists: Vec<Lists<SealedRequest, SealedAnswer>>,
        mut layouts: Vec<Layout>,
        mut envelopes: Vec<Envelope>,
        mut clients: Vec<EngineClient<Log, Versions, Time>>,
    ) -> Clients<EngineClient<Log, Versions, Time>, ClosingRoom<Log, Versions, Time>>
        requires engine { IsEngine Versions.Table self.now × (start ≡ (Versions.opening self.now.table).start) }
        requires writers { AreNew (table_of self.now.list) (clients_of self.now.list) writers.items
            × (length writers.items ≡ clients_of self.now.list) }
        requires seats { AreSeatsAtStart Versions.Table self.now.table (clients_of self.now.list) seats.items }
        requires passes { ArePassesAtStart self.now.controller 1 passes.clients.items
            × (length passes.clients.items ≡ clients_of self.now.list) × IsOthersOf self.now.controller passes.others }
        requires lists { AllReady (clients_of self.now.list) lists.items
            × (length lists.items ≡ clients_of self.now.list) }
        requires layouts { AreRoomy (clients_of self.now.list) layouts.items
            × (length layouts.items ≡ clients_of self.now.list) }
        requires envelopes { length envelopes.items ≡ clients_of self.now.list }
        requires clients { (clients.items ≡ []) × (clients_of self.now.list ≤ vec_capacity clients) }
        ensures clients { AreNewcomers Versions.Table self.now 1 result.clients.items
            × (length result.clients.items ≡ clients_of self.now.list) }
        ensures room { HasRoomToClose self.now.controller (clients_of self.now.list) result.room }
    {
        let Passes {
            clients: mut passes,
            others,
        } = passes;
        writers.reverse();
        // The clients that were made so far are newcomers, the greatest number first. Their numbers are above those of
        // the writers that are left.
        while let Some(writer) = writers.pop() {
            let Some(seat) = seats.pop() else {
                unreachable!()
            };
            let Some(pass) = passes.pop() else {
                unreachable!()
            };
            let Some(lists) = lists.pop() else {
                unreachable!()
            };
            let Some(layout) = layouts.pop() else {
                unreachable!()
            };
            let Some(envelope) = envelopes.pop() else {
                unreachable!()
            };
            let number = writers.len() as u32 + 1;
            let client = self.seat_one(number, start, writer, seat, pass, lists, layout, envelope);
            clients.push_reserved(client);
        }
        clients.reverse();
        let room = ClosingRoom {
            writers,
            seats,
            passes,
            others,
        };
        Clients { clients, room }
    }

    /// A client, made of its writer, its seat at the table, its pass, its lists, its layout and its envelope.
    fn seat_one(
        &self,
        number: u32,
        start: u64,
        writer: Writer<
            SealedRequest,
            SealedAnswer,
            Leadership<Log, Versions, Time>,
            Right<Versions>,
        >,
        seat: Versions::Seat,
        pass: Pass,
        lists: Lists<SealedRequest, SealedAnswer>,
        layout: Layout,
        envelope: Envelope,
    ) -> EngineClient<Log, Versions, Time>
        requires engine { IsEngine Versions.Table self.now × (start ≡ (Versions.opening self.now.table).start) }
        requires number { (0 < number) × (number ≤ clients_of self.now.list) }
        requires writer { IsNew (table_of self.now.list) number writer }
        requires seat { Versions.ours self.now.table seat × IsReady (Versions.account seat)
            × ((Versions.account seat).seen ≡ [])
            × ((Versions.account seat).number ≡ number) }
        requires pass { IsPassAtStart self.now.controller number pass }
        requires room { AreReady (clients_of self.now.list) lists × IsRoomy (clients_of self.now.list) layout }
        ensures { IsNewcomer Versions.Table self.now number result }
    {
        EngineClient {
            number,
            start,
            table: Snapshot::of(&self.table),
            writer,
            seat,
            pass,
            lists,
            layout,
            envelope: Some(envelope),
        }
    }
}
