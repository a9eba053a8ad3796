//! How an engine with its table in memory is opened.

ghost use Rattle.std.specs.Prelude.{◌≡◌, ◌≤◌, ◌<◌, ◌+◌, ℕ, [], None, Some, slice_get, IfOk, IfErr};
ghost use Rattle.model_base.specs.History.{max_sequence};
ghost use Rattle.engine_parts.specs.Logs.{faults_of, fault_of};
ghost use Rattle.line_writers.specs.Seats.{clients_of, piped_of};
ghost use Rattle.model_accounts.specs.Accounts.{newcomer};
ghost use Rattle.model_accounts.specs.Closing.{AreOurs};
ghost use Rattle.model_base.specs.Settings.{settings_of as settings_with};
ghost use Rattle.engine_groups.specs.Clients.{IsClientOf, HasRoomToClose, account_in, settings_of, opened_log};
ghost use Rattle.table_memory.specs.Meaning.{memory_table, opening_of};

use base_devices::Clock;
use base_maps::FamilyMap;
use engine_calls::Gate;
use engine_groups::{Clients, ClosingRoom, EngineClient, GroupEngine, OpenRefused};
use engine_parts::OpenLog;
use log_writer::GroupLog;
use model_base::{MAX_CLIENTS, MAX_SIZE, Options};
use std::alloc::Global;
use table_memory::MemoryTable;
use table_rule::maps_as_bases;

/// Opens an engine over a log that has no fault, with a table of `shards` shards, at least one, which holds `map` at
/// the map's last sequence, and with `clients` clients, none of which has done anything. Where memory is short, log,
/// clock and gate are handed back. Where the engine is pipelined, its groups go into the table in a stage of their
/// own.
pub fn open_engine<Log: GroupLog, Time: Clock + Drop, Watch: Gate + Drop>(
    alloc: Global,
    log: OpenLog<Log>,
    clock: Time,
    clients: u32,
    base_last: u64,
    map: &FamilyMap,
    gate: Watch,
    options: Options,
    shards: u32,
    pipelined: bool,
) -> Result<
    (
        GroupEngine<Log, MemoryTable, Time, Watch>,
        Clients<EngineClient<Log, MemoryTable, Time>, ClosingRoom<Log, MemoryTable, Time>>,
    ),
    (OpenLog<Log>, Time, Watch),
>
    requires options { (options.last ≤ max_sequence) × (options.batch_bytes ≤ MAX_SIZE) }
    requires clients { (0 < clients) × (clients ≤ MAX_CLIENTS) }
    requires log { fault_of log ≡ None }
    requires shards { 0 < shards }
    requires map { (base_last ≤ options.last) × (base_last ≡ 0 → map.now ≡ []) }
    ensures engine { IfOk result (λ r. (opened_log r.0 ≡ log)
        × (settings_of memory_table r.0
        ≡ settings_with options map.now clients (faults_of log))) }
    // The table has as many shards as are asked for. All else is the same for each number of shards.
    ensures table { IfOk result (λ r. (opening_of r.0.table).shards ≡ shards) }
    ensures clients { IfOk result (λ r. AreOurs (IsClientOf memory_table r.0)
        (account_in memory_table) (clients_of r.0.list) r.1.clients.items) }
    ensures new { IfOk result (λ r. (i : ℕ) (c : _) → slice_get r.1.clients.items i ≡ Some c
        → account_in memory_table c ≡ newcomer options.last map.now (i + 1)) }
    ensures room { IfOk result (λ r. HasRoomToClose r.0.controller (clients_of r.0.list) r.1.room) }
    ensures stages { IfOk result (λ r. piped_of r.0.list ≡ pipelined) }
    ensures err { IfErr result (λ e. (e.0 ≡ log) × (e.1 ≡ clock) × (e.2 ≡ gate)) }
{
    map.in_order();
    maps_as_bases();
    let Ok((table, seats)) = MemoryTable::open_with(
        alloc,
        clients,
        options.last,
        shards,
        base_last,
        map,
    ) else {
        return Err((log, clock, gate));
    };
    match GroupEngine::open(alloc, log, clock, table, seats, gate, options, pipelined) {
        Ok(opened) => Ok(opened),
        Err(
            OpenRefused {
                log,
                clock,
                table: _,
                seats: _,
                gate,
            },
        ) => Err((log, clock, gate)),
    }
}
