//! The whole run.

ghost use Rattle.std.specs.Prelude.{◌≡◌, ◌≤◌, length, ◌<◌};
ghost use Rattle.model_base.specs.History.{max_sequence};
ghost use Rattle.run_scripts.specs.Scripts.{commands_of, FitsBatches};
ghost use Rattle.log_writer.specs.Words.{disk_of};
ghost use Rattle.run_outcome.specs.Running.{GoesOn};
ghost use Rattle.std.specs.List.{AllZip};
ghost use Rattle.run_execution.specs.Ends.{EndsOn, HasFewFamilies, IsAccepted, IsOpenedFor, Ran};
ghost use Rattle.run_execution.specs.SetEnds.{EndsOnSet};

use crate::end::{RunEnd, end_run, end_set_run};
use crate::laws::{logs_have_batches, runs_leave_safe_logs, runs_leave_safe_sets};
use crate::opening::{Opened, open_log};
use crate::over_log::run_on;
use crate::setup::{Host, Setup};
use crate::shared_gate::SharedGate;
use base_devices::{Clock, Disk};
use base_maps::FamilyMap;
use engine_calls::Gate;
use log_writer::LogSet;
use model_base::{MAX_CLIENTS, MAX_SIZE, Options};
use run_scripts::Script;
use std::rt;
use std::sync::Wait;
use std::thread::Threads;

/// Runs a script over the write path of a disk's log, each client in a thread of its own, and gives the disk back. The
/// log is opened as the setup says. The gate hears of what happens.
pub fn execute<
    D: Disk + Send,
    C: Clock + Send + Drop,
    G: Gate + Sync,
    R: Threads + Wait + rt::Clock + Sync,
>(host: &Host<'_, R, G>, disk: D, clock: C, script: &Script, setup: Setup) -> (D, RunEnd)
    requires clients { (1 ≤ length script.now.clients.items) × (length script.now.clients.items ≤ MAX_CLIENTS) }
    requires fits { FitsBatches script.now }
    requires options { (setup.options.last ≤ max_sequence) × (setup.options.batch_bytes ≤ MAX_SIZE) }
    requires shards { 0 < setup.shards }
    // What comes of it: a legal outcome, and how its log was written; or the same, where there was no memory for the
    // outcome itself; or why the log was not opened, with the disk left alone.
    ensures end { EndsOn ⟦<D as Disk>⟧ setup.options setup.start setup.mode (commands_of script.now) disk result.0
        result.1 }
    // nothing runs over a log whose recovery has an end that the mode doesn't accept
    ensures accepted { Ran result.1 → IsAccepted setup.start setup.mode (D.told disk) }
    // nor over one that recovers a key of a family that no run is set up for
    ensures families { Ran result.1 → HasFewFamilies setup.start (D.told disk) }
    // the disk's count of faults doesn't fall, so it can be compared before and after
    ensures later { D.faults disk ≤ D.faults result.0 }
    // moments don't turn back, and what the disk has forgotten it doesn't tell again
    ensures time { GoesOn D.moment D.from disk result.0 }
{
    match open_log(host.alloc, disk, setup.start, setup.mode) {
        Ok(opened) => {
            let shared = SharedGate { gate: host.gate };
            run_over(host, opened, clock, shared, script, setup)
        }
        Err((disk, end)) => (disk, end),
    }
}

/// Runs a script over an opened log. Both gates hear of what happens.
fn run_over<
    D: Disk + Send,
    C: Clock + Send + Drop,
    H: Gate + Sync + Drop,
    G: Gate + Sync,
    R: Threads + Wait + rt::Clock + Sync,
>(
    host: &Host<'_, R, G>,
    opened: Opened<D>,
    clock: C,
    shared: H,
    script: &Script,
    setup: Setup,
) -> (D, RunEnd)
    requires clients { (1 ≤ length script.now.clients.items) × (length script.now.clients.items ≤ MAX_CLIENTS) }
    requires fits { FitsBatches script.now }
    requires options { (setup.options.last ≤ max_sequence) × (setup.options.batch_bytes ≤ MAX_SIZE) }
    requires shards { 0 < setup.shards }
    requires last { opened.last ≤ max_sequence }
    requires opened { (disk : D) × IsOpenedFor ⟦<D as Disk>⟧ setup.start disk opened }
    ensures end { (disk : D) → IsOpenedFor ⟦<D as Disk>⟧ setup.start disk opened
        → IsAccepted setup.start setup.mode (D.told disk) → HasFewFamilies setup.start (D.told disk)
        → EndsOn ⟦<D as Disk>⟧ setup.options setup.start setup.mode (commands_of script.now) disk result.0 result.1 }
    ensures later { D.faults (disk_of opened.log) ≤ D.faults result.0 }
    ensures time { GoesOn D.moment D.from (disk_of opened.log) result.0 }
{
    let Opened {
        log,
        map,
        last,
        families,
    } = opened;
    let Setup {
        options,
        start: _,
        mode: _,
        shards,
        pipelined,
    } = setup;
    let options = Options {
        last: options.last.max(last),
        families: options.families.max(families),
        ..options
    };
    runs_leave_safe_logs::<D>();
    logs_have_batches::<D>();
    let ran = run_on(
        host, log, map, last, clock, shared, script, options, shards, pipelined,
    );
    end_run(host.alloc, ran)
}

/// Runs a script over a new set of logs, one on each of these disks, and gives the disks back. A log is full once it
/// has as many bytes as the limit. The gate hears of what happens.
pub fn execute_set<
    D: Disk + Send,
    C: Clock + Send + Drop,
    G: Gate + Sync,
    R: Threads + Wait + rt::Clock + Sync,
>(
    host: &Host<'_, R, G>,
    disks: Vec<D>,
    limit: u64,
    clock: C,
    script: &Script,
    setup: Setup,
) -> (Vec<D>, RunEnd)
    requires disks { (0 < length disks.items) × (length disks.items ≤ 16) }
    requires limit { 0 < limit }
    requires clients { (1 ≤ length script.now.clients.items) × (length script.now.clients.items ≤ MAX_CLIENTS) }
    requires fits { FitsBatches script.now }
    requires options { (setup.options.last ≤ max_sequence) × (setup.options.batch_bytes ≤ MAX_SIZE) }
    requires shards { 0 < setup.shards }
    // What comes of it: a legal outcome, and how its logs were written, one after another; or why they were not opened,
    // with the disks left alone.
    ensures end { EndsOnSet ⟦<D as Disk>⟧ setup.options limit (commands_of script.now) disks.items result.0.items
        result.1 }
    // no disk's count of faults falls
    ensures later { AllZip (λ old new. D.faults old ≤ D.faults new) disks.items result.0.items }
    ensures time { AllZip (GoesOn D.moment D.from) disks.items result.0.items }
{
    let Setup {
        options,
        start: _,
        mode: _,
        shards,
        pipelined,
    } = setup;
    match LogSet::open(host.alloc, disks, limit) {
        Ok(set) => {
            let shared = SharedGate { gate: host.gate };
            let map = FamilyMap::new(host.alloc);
            let ran = run_on(
                host, set, map, 0, clock, shared, script, options, shards, pipelined,
            );
            runs_leave_safe_sets::<D>();
            logs_have_batches::<D>();
            end_set_run(ran)
        }
        Err((disks, why)) => (disks, RunEnd::from(why)),
    }
}
