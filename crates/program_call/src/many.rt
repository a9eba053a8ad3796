//! The call over several disks, and what it has in common with that over one.

ghost use Rattle.std.specs.Prelude.{◌≡◌, ◌≢◌, ◌<◌, ◌≤◌, ◌^◌, ℕ, true, false, Option, Err, IfOk, IfSome, MatchOption, length};
ghost use Rattle.model_base.specs.declared.options.Options.{Options as RunOptions};
ghost use Rattle.replay_core.specs.declared.state.CoreOptions.{CoreOptions as ReplayOptions};
ghost use Rattle.log_recovery.specs.declared.modes.Mode.{Mode as Accepting};
ghost use Rattle.program_words.specs.Limits.{KeepsLimits};
ghost use Rattle.run_outcome.specs.declared.log_start.LogStart.{LogStart as Start};
ghost use Rattle.program_call.specs.Answers.{AnswersNothing};
ghost use Rattle.program_call.specs.Asking.{AreAtOdds, AskNothing, AskToRun, AskToRunLogs, AskToGenerate, AskToRecover, AskToRecoverLogs, AskToReplay, IsAsked, start_of};
ghost use Rattle.program_call.specs.Carrying.{AnswersAsked, RunsOne, RunsSeveral, GeneratesOne, RecoversOne, RecoversSeveral, RunsSchedule};

use crate::ended::{Ended, EndedMany, end_many};
use crate::generating::run_generated;
use crate::parting::{first_of, used_of, with_others};
use crate::recovering::{recover_log, recover_logs};
use crate::replaying::replay;
use crate::report::{Status, refuse};
use crate::running::{run_logs, run_script, shards_or_one};
use base_devices::{Clock, Disk, Sink, Source};
use engine_calls::{Gate, OpenGate};
use log_recovery::Mode;
use model_base::{MAX_FAMILIES, Options};
use program_text::usage;
use program_words::{Invocation, WordsError, read_words};
use replay_core::CoreOptions;
use run_execution::{Host, Setup};
use run_outcome::LogStart;
use std::alloc::Global;
use std::rt;
use std::sync::Wait;
use std::thread::Threads;

/// Does what the words ask for, as [`run`] does, over the logs on 1 to 16 disks.
///
/// `run` and `recover` with `--logs N` use the first N disks, or all if there are fewer. `run` writes one log after
/// another, and a new one only once the one before it is full and safe; `recover` reads them in the same order. Every
/// other call uses the first disk alone, and leaves the others as they are. All disks are given back, in their order.
///
/// [`run`]: crate::run
pub fn run_many<
    S: Source,
    D: Disk + Send,
    K: Sink,
    C: Clock + Send + Drop,
    R: Threads + Wait + rt::Clock + Sync,
>(
    rt: &R,
    alloc: Global,
    words: &[String],
    source: &mut S,
    disks: Vec<D>,
    sink: &mut K,
    clock: C,
) -> EndedMany<D>
    requires { (0 < length disks.items) × (length disks.items ≤ 16) }
    ensures status { result.status < 10 }
    ensures words { result.status ≡ 1 → AskNothing words.now }
    // as many disks are handed back
    ensures number { length result.disks.items ≡ length disks.items }
    ensures nothing { AskNothing words.now → AnswersNothing ⟦<S as Source>⟧ ⟦<K as Sink>⟧
        source.old source.new sink.old sink.new disks.items result.disks.items result.status }
    // A run over one log uses the first disk, and one over several logs the first ones. The others are as they were.
    ensures run { (options : RunOptions) (start : Start) (mode : Accepting)
        → AskToRun words.now (length disks.items) options start mode
        → RunsOne ⟦<S as Source>⟧ ⟦<D as Disk>⟧ ⟦<K as Sink>⟧ source.old source.new sink.old sink.new
        disks.items result.disks.items result.status options start mode }
    ensures run_logs { (options : RunOptions) (used limit : ℕ)
        → AskToRunLogs words.now (length disks.items) options used limit
        → RunsSeveral ⟦<S as Source>⟧ ⟦<D as Disk>⟧ ⟦<K as Sink>⟧ source.old source.new sink.old sink.new
        disks.items result.disks.items result.status options limit used }
    ensures generate { (seed clients batches families : ℕ) → AskToGenerate words.now seed clients batches families
        → GeneratesOne ⟦<S as Source>⟧ ⟦<D as Disk>⟧ ⟦<K as Sink>⟧ source.old source.new sink.old sink.new
        disks.items result.disks.items result.status seed clients batches families }
    ensures recover { (number : Option ℕ) (mode : Accepting) → AskToRecover words.now number mode
        → RecoversOne ⟦<S as Source>⟧ ⟦<D as Disk>⟧ ⟦<K as Sink>⟧ source.old source.new sink.old sink.new
        disks.items result.disks.items result.status number mode }
    ensures recover_logs { (mode : Accepting) (used : ℕ)
        → AskToRecoverLogs words.now (length disks.items) mode used
        → RecoversSeveral ⟦<S as Source>⟧ ⟦<D as Disk>⟧ ⟦<K as Sink>⟧ source.old source.new sink.old sink.new
        disks.items result.disks.items result.status mode used }
    ensures replay { (options : ReplayOptions) → AskToReplay words.now options
        → RunsSchedule ⟦<S as Source>⟧ ⟦<D as Disk>⟧ ⟦<K as Sink>⟧ source.old source.new sink.old sink.new
        disks.items result.disks.items result.status options }
{
    run_many_gated(rt, alloc, words, source, disks, sink, clock, &OpenGate)
}

/// Does all that [`run_many`] does, with a gate that hears what the clients do.
pub(crate) fn run_many_gated<
    S: Source,
    D: Disk + Send,
    K: Sink,
    C: Clock + Send + Drop,
    G: Gate + Sync,
    R: Threads + Wait + rt::Clock + Sync,
>(
    rt: &R,
    alloc: Global,
    words: &[String],
    source: &mut S,
    disks: Vec<D>,
    sink: &mut K,
    clock: C,
    gate: &G,
) -> EndedMany<D>
    requires { (0 < length disks.items) × (length disks.items ≤ 16) }
    ensures status { result.status < 10 }
    ensures words { result.status ≡ 1 → AskNothing words.now }
    // as many disks are handed back
    ensures number { length result.disks.items ≡ length disks.items }
    ensures nothing { AskNothing words.now → AnswersNothing ⟦<S as Source>⟧ ⟦<K as Sink>⟧
        source.old source.new sink.old sink.new disks.items result.disks.items result.status }
    // A run over one log uses the first disk, and one over several logs the first ones. The others are as they were.
    ensures run { (options : RunOptions) (start : Start) (mode : Accepting)
        → AskToRun words.now (length disks.items) options start mode
        → RunsOne ⟦<S as Source>⟧ ⟦<D as Disk>⟧ ⟦<K as Sink>⟧ source.old source.new sink.old sink.new
        disks.items result.disks.items result.status options start mode }
    ensures run_logs { (options : RunOptions) (used limit : ℕ)
        → AskToRunLogs words.now (length disks.items) options used limit
        → RunsSeveral ⟦<S as Source>⟧ ⟦<D as Disk>⟧ ⟦<K as Sink>⟧ source.old source.new sink.old sink.new
        disks.items result.disks.items result.status options limit used }
    ensures generate { (seed clients batches families : ℕ) → AskToGenerate words.now seed clients batches families
        → GeneratesOne ⟦<S as Source>⟧ ⟦<D as Disk>⟧ ⟦<K as Sink>⟧ source.old source.new sink.old sink.new
        disks.items result.disks.items result.status seed clients batches families }
    ensures recover { (number : Option ℕ) (mode : Accepting) → AskToRecover words.now number mode
        → RecoversOne ⟦<S as Source>⟧ ⟦<D as Disk>⟧ ⟦<K as Sink>⟧ source.old source.new sink.old sink.new
        disks.items result.disks.items result.status number mode }
    ensures recover_logs { (mode : Accepting) (used : ℕ)
        → AskToRecoverLogs words.now (length disks.items) mode used
        → RecoversSeveral ⟦<S as Source>⟧ ⟦<D as Disk>⟧ ⟦<K as Sink>⟧ source.old source.new sink.old sink.new
        disks.items result.disks.items result.status mode used }
    ensures replay { (options : ReplayOptions) → AskToReplay words.now options
        → RunsSchedule ⟦<S as Source>⟧ ⟦<D as Disk>⟧ ⟦<K as Sink>⟧ source.old source.new sink.old sink.new
        disks.items result.disks.items result.status options }
{
    let host = Host { rt, alloc, gate };
    match read_asked(alloc, words) {
        Ok(asked) => carry_out(&host, asked, source, disks, sink, clock),
        Err(WordsError::Usage) => {
            refuse(sink, usage());
            end_many(Status::Usage, disks)
        }
        Err(WordsError::NoMemory) => end_many(Status::Memory, disks),
    }
}

/// What the words ask for, if they are lawful.
fn read_asked(alloc: Global, words: &[String]) -> Result<Invocation, WordsError>
    ensures ok { IfOk result (IsAsked words.now) }
    ensures usage { result ≡ Err WordsError.Usage → AskNothing words.now }
    ensures limits { IfOk result KeepsLimits }
{
    let asked = read_words(alloc, words)?;
    if are_at_odds(&asked) {
        return Err(WordsError::Usage);
    }
    Ok(asked)
}

/// Whether the number of logs is given together with an option for one log.
fn are_at_odds(asked: &Invocation) -> bool
    ensures yes { result ≡ true → AreAtOdds asked.now }
    ensures no { result ≡ false → AreAtOdds asked.now → ⊥ }
{
    match asked {
        Invocation::Run {
            number,
            resume,
            logs,
            ..
        } => logs.is_some() && (number.is_some() || *resume),
        Invocation::Recover { number, logs, .. } => logs.is_some() && number.is_some(),
        _ => false,
    }
}

/// Does what lawful words ask for.
fn carry_out<
    S: Source,
    D: Disk + Send,
    K: Sink,
    C: Clock + Send + Drop,
    G: Gate + Sync,
    R: Threads + Wait + rt::Clock + Sync,
>(
    host: &Host<'_, R, G>,
    asked: Invocation,
    source: &mut S,
    disks: Vec<D>,
    sink: &mut K,
    clock: C,
) -> EndedMany<D>
    requires limits { KeepsLimits asked }
    requires disks { (0 < length disks.items) × (length disks.items ≤ 16) }
    ensures other { (result.status < 10) × (result.status ≢ 1) }
    ensures number { length result.disks.items ≡ length disks.items }
    ensures answers { AnswersAsked ⟦<S as Source>⟧ ⟦<D as Disk>⟧ ⟦<K as Sink>⟧ source.old source.new
        sink.old sink.new disks.items result.disks.items result.status asked }
{
    match asked {
        Invocation::Run {
            pipelined,
            shards,
            group_bytes,
            batch_bytes,
            last,
            number,
            resume,
            mode,
            logs,
            log_bytes,
            families,
        } => {
            let start = log_start(number, resume);
            let setup = setup_of(
                pipelined,
                shards,
                group_bytes,
                batch_bytes,
                last,
                families_of(families),
                start,
                mode,
            );
            let used = used_of(logs, disks.len());
            if used > 1 {
                return run_logs(host, setup, used, log_bytes, source, disks, sink, clock);
            }
            let (first, others) = first_of(disks);
            with_others(run_script(host, setup, source, first, sink, clock), others)
        }
        Invocation::Generate {
            pipelined,
            shards,
            seed,
            clients,
            batches,
            families,
        } => {
            let shards = shards_or_one(shards);
            let families = families_of(families);
            let (first, others) = first_of(disks);
            let ended = run_generated(
                host, seed, clients, batches, families, shards, pipelined, first, sink, clock,
            );
            with_others(ended, others)
        }
        Invocation::Recover { number, mode, logs } => {
            if logs.unwrap_or(1) > 1 {
                let used = used_of(logs, disks.len());
                return recover_logs(host.alloc, mode, used, disks, sink);
            }
            let (first, others) = first_of(disks);
            let ended = recover_log(host.alloc, log_number(number), mode, first, sink);
            with_others(ended, others)
        }
        Invocation::Replay {
            pipelined,
            group_bytes,
            batch_bytes,
            last,
            families,
        } => {
            let options = CoreOptions {
                pipelined,
                families: families_of(families),
                group_bytes,
                batch_bytes,
                last,
            };
            let Ended {
                status,
                disk: disks,
            } = replay(host.alloc, options, source, disks, sink);
            EndedMany { status, disks }
        }
    }
}

/// The number of a log, as its headers have it.
fn log_number(number: Option<u64>) -> Option<u32>
    requires { IfSome number (λ n. (1 ≤ n) × (n < 2 ^ 32)) }
    ensures { result ≡ number }
{
    match number {
        Some(number) => Some(number as u32),
        None => None,
    }
}

/// How many column families there are, by what the words say about it.
fn families_of(families: u64) -> u32
    requires { families ≤ MAX_FAMILIES }
    ensures { result ≡ families }
{
    families as u32
}

/// How the log of a run is opened, by what the words say about it.
fn log_start(number: Option<u64>, resume: bool) -> LogStart
    requires { IfSome number (λ n. (1 ≤ n) × (n < 2 ^ 32)) }
    ensures { result ≡ start_of number resume }
{
    let number = log_number(number);
    if resume {
        return LogStart::Behind { number };
    }
    match number {
        Some(number) => LogStart::Over { number },
        None => LogStart::New,
    }
}

/// How the write path is set up for `run`, by what the words say about it.
fn setup_of(
    pipelined: bool,
    shards: Option<u64>,
    group_bytes: u64,
    batch_bytes: u64,
    last: u64,
    families: u32,
    start: LogStart,
    mode: Mode,
) -> Setup
    requires { IfSome shards (λ n. (1 ≤ n) × (n ≤ 64)) }
    ensures start { result.start ≡ start }
    ensures mode { result.mode ≡ mode }
    ensures stages { result.pipelined ≡ pipelined }
    ensures shards { MatchOption shards (result.shards ≡ 1) (λ n. result.shards ≡ n) }
    ensures some { 0 < result.shards }
    ensures options { result.options
        ≡ record { last = last; group_bytes = group_bytes; batch_bytes = batch_bytes; families = families } }
{
    let options = Options {
        last,
        group_bytes,
        batch_bytes,
        families,
    };
    Setup {
        options,
        start,
        mode,
        shards: shards_or_one(shards),
        pipelined,
    }
}
