//! The command `gen`: the script that a seed makes is run, and a summary of its outcome is printed.

ghost use Rattle.std.specs.Prelude.{◌≡◌, ◌<◌, ◌≤◌};
ghost use Rattle.program_call.specs.Answers.{RunsGenerated};
ghost use Rattle.program_call.specs.OneLog.{log_of_generated};

use crate::ended::{Ended, end_with};
use crate::report::{Form, Status};
use crate::running::run_and_tell;
use base_devices::{Clock, Disk, Sink};
use engine_calls::Gate;
use log_recovery::Mode;
use model_base::{MAX_CLIENTS, MAX_SIZE, Options};
use run_execution::{Host, Setup};
use run_generator::generate;
use run_laws::summaries_are_one;
use run_outcome::LogStart;
use std::rt;
use std::sync::Wait;
use std::thread::Threads;

/// The options with which a generated script is run, where there is one column family.
const USUAL_OPTIONS: Options = Options {
    last: 0,
    group_bytes: 1_048_576,
    batch_bytes: MAX_SIZE,
    families: 1,
};

/// Runs the script that a seed makes, and prints the summary of its outcome.
pub fn run_generated<
    D: Disk + Send,
    K: Sink,
    C: Clock + Send + Drop,
    G: Gate + Sync,
    R: Threads + Wait + rt::Clock + Sync,
>(
    host: &Host<'_, R, G>,
    seed: u64,
    clients: u64,
    batches: u64,
    families: u32,
    shards: u32,
    pipelined: bool,
    disk: D,
    sink: &mut K,
    clock: C,
) -> Ended<D>
    requires clients { (1 ≤ clients) × (clients ≤ MAX_CLIENTS) }
    requires batches { (1 ≤ batches) × (batches ≤ 100000) }
    requires families { 1 ≤ families }
    requires shards { 0 < shards }
    ensures { RunsGenerated ⟦<K as Sink>⟧ sink.old sink.new
        (log_of_generated ⟦<D as Disk>⟧ families disk result.disk) seed clients batches result.status }
{
    let Ok(script) = generate(host.alloc, seed, clients as u32, batches) else {
        return end_with(Status::Memory, disk);
    };
    summaries_are_one();
    let options = Options {
        families,
        ..USUAL_OPTIONS
    };
    let setup = Setup {
        options,
        start: LogStart::New,
        // The log isn't resumed, so the mode has no effect.
        mode: Mode::Point,
        shards,
        pipelined,
    };
    run_and_tell(host, script, setup, Form::Summary, disk, sink, clock)
}
