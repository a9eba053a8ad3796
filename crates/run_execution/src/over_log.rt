//! A run of a script over an opened log, whatever the log is made of.

ghost use Rattle.std.specs.Prelude.{◌≡◌, ◌≤◌, ◌<◌, [], None, List, Option, IfSome, length};
ghost use Rattle.model_base.specs.History.{max_sequence};
ghost use Rattle.model_base.specs.Recovery.{Logged};
ghost use Rattle.model_base.specs.Settings.{settings_of, with_kept};
ghost use Rattle.run_scripts.specs.Scripts.{commands_of, FitsBatches};
ghost use Rattle.run_threads.specs.Runs.{ComesTo};
ghost use Rattle.run_execution.specs.Bare.{HasKept, bare_of};

use crate::setup::Host;
use base_devices::Clock;
use base_maps::FamilyMap;
use engine_calls::Gate;
use engine_memory::open_engine;
use engine_parts::OpenLog;
use log_writer::{GroupLog, ReadableLog};
use model_base::{MAX_CLIENTS, MAX_SIZE, Options};
use run_scripts::Script;
use run_threads::{ClientsEnd, run_engine};
use std::rt;
use std::sync::Wait;
use std::thread::Threads;

/// Runs a script over a log that has no fault, and goes on from a map with its last sequence. Both gates hear of what
/// happens.
pub(crate) fn run_on<
    L: ReadableLog + Send,
    C: Clock + Send + Drop,
    H: Gate + Sync + Drop,
    G: Gate + Sync,
    R: Threads + Wait + rt::Clock + Sync,
>(
    host: &Host<'_, R, G>,
    log: L,
    map: FamilyMap,
    last: u64,
    clock: C,
    shared: H,
    script: &Script,
    options: Options,
    shards: u32,
    pipelined: bool,
) -> ClientsEnd<L>
    requires clients { (1 ≤ length script.now.clients.items) × (length script.now.clients.items ≤ MAX_CLIENTS) }
    requires fits { FitsBatches script.now }
    requires options { (options.last ≤ max_sequence) × (options.batch_bytes ≤ MAX_SIZE) }
    requires shards { 0 < shards }
    requires log { L.fault log ≡ None }
    requires map { (last ≤ options.last) × (last ≡ 0 → map ≡ []) }
    // It is said for whatever batches the log had kept, up to the last sequence, where what it holds is known.
    ensures { (kept : Option (List Logged)) → IfSome kept (HasKept L.GroupLog log options.last)
        → ComesTo (with_kept kept (settings_of options map (length (commands_of script.now)) (L.faults log)))
        (commands_of script.now) (L.wrote log) L.fault L.faults result }
{
    let commands = script.clients.as_slice();
    let clients = commands.len() as u32;
    match open_engine(
        host.alloc,
        OpenLog { log },
        clock,
        clients,
        last,
        &map,
        shared,
        options,
        shards,
        pipelined,
    ) {
        Ok((engine, clients)) => bare(run_engine(
            host.rt, host.alloc, engine, clients, map, commands, host.gate,
        )),
        Err((OpenLog { log }, _clock, _gate)) => ClientsEnd::NotRun { log },
    }
}

/// The same end, with the log as it was handed in.
fn bare<L: GroupLog>(ran: ClientsEnd<OpenLog<L>>) -> ClientsEnd<L>
    ensures { result ≡ bare_of ran }
{
    match ran {
        ClientsEnd::NotRun {
            log: OpenLog { log },
        } => ClientsEnd::NotRun { log },
        ClientsEnd::Untold {
            log: OpenLog { log },
            last,
        } => ClientsEnd::Untold { log, last },
        ClientsEnd::Told {
            log: OpenLog { log },
            last,
            transcripts,
            history,
            state,
        } => ClientsEnd::Told {
            log,
            last,
            transcripts,
            history,
            state,
        },
    }
}
