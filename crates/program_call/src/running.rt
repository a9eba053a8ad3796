//! The command `run`, and what it has in common with `gen`: a script is run over the log of a disk, or over the logs of
//! several.

ghost use Rattle.std.specs.Prelude.{◌≡◌, ◌<◌, ◌≤◌, length, IfSome, MatchOption};
ghost use Rattle.model_base.specs.History.{max_sequence};
ghost use Rattle.run_scripts.specs.Scripts.{commands_of, FitsBatches};
ghost use Rattle.program_call.specs.Answers.{AnswersRun, RunsScript};
ghost use Rattle.program_call.specs.Carrying.{RunsSeveral};
ghost use Rattle.program_call.specs.OneLog.{log_of_run};
ghost use Rattle.program_call.specs.SeveralLogs.{logs_of_run};
ghost use Rattle.program_call.specs.Outcomes.{observation_of, IsScript};
ghost use Rattle.program_call.specs.Reports.{HasRunStatus};

use crate::ended::{Ended, EndedMany, end_many, end_with};
use crate::parting::{Parts, joined, part};
use crate::reading::read_script;
use crate::report::{Form, Status, tell_end, tell_read_error};
use base_devices::{Clock, Disk, Sink, Source};
use engine_calls::Gate;
use model_base::{MAX_CLIENTS, MAX_SIZE};
use run_execution::{Host, Setup, execute, execute_set};
use run_laws::{commits_are_accepted, updates_are_given};
use run_scripts::Script;
use std::rt;
use std::sync::Wait;
use std::thread::Threads;

/// Reads a script, runs it over the log of a disk, and prints its outcome.
pub fn run_script<
    S: Source,
    D: Disk + Send,
    K: Sink,
    C: Clock + Send + Drop,
    G: Gate + Sync,
    R: Threads + Wait + rt::Clock + Sync,
>(host: &Host<'_, R, G>, setup: Setup, source: &mut S, disk: D, sink: &mut K, clock: C) -> Ended<D>
    requires options { (setup.options.last ≤ max_sequence) × (setup.options.batch_bytes ≤ MAX_SIZE) }
    requires shards { 0 < setup.shards }
    ensures { AnswersRun ⟦<S as Source>⟧ ⟦<K as Sink>⟧ source.old source.new sink.old sink.new
        (log_of_run ⟦<D as Disk>⟧ setup.options setup.start setup.mode disk result.disk) result.status }
{
    match read_script(host.alloc, source) {
        Ok(script) => run_and_tell(host, script, setup, Form::Whole, disk, sink, clock),
        Err(why) => end_with(tell_read_error(host.alloc, sink, why), disk),
    }
}

/// Reads a script, runs it over new logs on the first disks, so many, and prints its outcome. A log is full once it has
/// as many bytes as the limit.
pub fn run_logs<
    S: Source,
    D: Disk + Send,
    K: Sink,
    C: Clock + Send + Drop,
    G: Gate + Sync,
    R: Threads + Wait + rt::Clock + Sync,
>(
    host: &Host<'_, R, G>,
    setup: Setup,
    used: usize,
    limit: u64,
    source: &mut S,
    disks: Vec<D>,
    sink: &mut K,
    clock: C,
) -> EndedMany<D>
    requires used { (0 < used) × (used ≤ length disks.items) × (used ≤ 16) }
    requires limit { 0 < limit }
    requires options { (setup.options.last ≤ max_sequence) × (setup.options.batch_bytes ≤ MAX_SIZE) }
    requires shards { 0 < setup.shards }
    ensures runs { RunsSeveral ⟦<S as Source>⟧ ⟦<D as Disk>⟧ ⟦<K as Sink>⟧ source.old source.new sink.old sink.new
        disks.items result.disks.items result.status setup.options limit used }
    ensures number { length result.disks.items ≡ length disks.items }
{
    let parts = match part(host.alloc, disks, used) {
        Ok(parts) => parts,
        Err(disks) => return end_many(Status::Memory, disks),
    };
    let Parts {
        front,
        others,
        room,
    } = parts;
    let EndedMany { status, disks } = run_over(host, setup, limit, source, front, sink, clock);
    EndedMany {
        status,
        disks: joined(disks, others, room),
    }
}

/// Reads a script, runs it over new logs, one on each of the disks, and prints its outcome.
fn run_over<
    S: Source,
    D: Disk + Send,
    K: Sink,
    C: Clock + Send + Drop,
    G: Gate + Sync,
    R: Threads + Wait + rt::Clock + Sync,
>(
    host: &Host<'_, R, G>,
    setup: Setup,
    limit: u64,
    source: &mut S,
    disks: Vec<D>,
    sink: &mut K,
    clock: C,
) -> EndedMany<D>
    requires disks { (0 < length disks.items) × (length disks.items ≤ 16) }
    requires limit { 0 < limit }
    requires options { (setup.options.last ≤ max_sequence) × (setup.options.batch_bytes ≤ MAX_SIZE) }
    requires shards { 0 < setup.shards }
    ensures runs { AnswersRun ⟦<S as Source>⟧ ⟦<K as Sink>⟧ source.old source.new sink.old sink.new
        (logs_of_run ⟦<D as Disk>⟧ setup.options limit disks.items result.disks.items) result.status }
    ensures number { length result.disks.items ≡ length disks.items }
{
    match read_script(host.alloc, source) {
        Ok(script) => {
            commits_are_accepted();
            updates_are_given();
            let (disks, end) = execute_set(host, disks, limit, clock, &script, setup);
            // The script is no longer needed while the text is made.
            drop(script);
            end_many(tell_end(host.alloc, sink, Form::Whole, &end), disks)
        }
        Err(why) => end_many(tell_read_error(host.alloc, sink, why), disks),
    }
}

/// How many shards the table of a run has: as many as the words ask for, or else one.
pub fn shards_or_one(shards: Option<u64>) -> u32
    requires { IfSome shards (λ n. (1 ≤ n) × (n ≤ 64)) }
    ensures given { MatchOption shards (result ≡ 1) (λ n. result ≡ n) }
    ensures some { 0 < result }
{
    match shards {
        Some(shards) => shards as u32,
        None => 1,
    }
}

/// Runs a script over the log of a disk, and prints the result in a form.
pub fn run_and_tell<
    D: Disk + Send,
    K: Sink,
    C: Clock + Send + Drop,
    G: Gate + Sync,
    R: Threads + Wait + rt::Clock + Sync,
>(
    host: &Host<'_, R, G>,
    script: Script,
    setup: Setup,
    form: Form,
    disk: D,
    sink: &mut K,
    clock: C,
) -> Ended<D>
    requires clients { (1 ≤ length script.clients.items) × (length script.clients.items ≤ MAX_CLIENTS) }
    requires fits { FitsBatches script }
    requires options { (setup.options.last ≤ max_sequence) × (setup.options.batch_bytes ≤ MAX_SIZE) }
    requires shards { 0 < setup.shards }
    ensures status { HasRunStatus result.status }
    ensures runs { RunsScript (observation_of ⟦<K as Sink>⟧ (IsScript (commands_of script)) form
        (log_of_run ⟦<D as Disk>⟧ setup.options setup.start setup.mode disk result.disk) sink.old sink.new)
        result.status }
{
    commits_are_accepted();
    updates_are_given();
    let (disk, end) = execute(host, disk, clock, &script, setup);
    // The script is no longer needed while the text is made.
    drop(script);
    end_with(tell_end(host.alloc, sink, form, &end), disk)
}
