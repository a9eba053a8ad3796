//! The call that the program makes, over one disk.

ghost use Rattle.std.specs.Prelude.{◌≡◌, ◌<◌, ℕ, [], ◌∷◌, Option};
ghost use Rattle.model_base.specs.declared.options.Options.{Options as RunOptions};
ghost use Rattle.replay_core.specs.declared.state.CoreOptions.{CoreOptions as ReplayOptions};
ghost use Rattle.log_recovery.specs.declared.modes.Mode.{Mode as Accepting};
ghost use Rattle.run_outcome.specs.declared.log_start.LogStart.{LogStart as Start};
ghost use Rattle.program_call.specs.Answers.{AnswersNothing, AnswersRun, AnswersGenerate, AnswersRecover, AnswersReplay};
ghost use Rattle.program_call.specs.Asking.{AskNothing, AskToRun, AskToGenerate, AskToRecover, AskToRecoverLogs, AskToReplay};
ghost use Rattle.program_call.specs.OneLog.{log_of_run, log_of_generated, log_to_recover};
ghost use Rattle.program_call.specs.SeveralLogs.{logs_to_recover};

use crate::ended::{Ended, EndedMany, end_with};
use crate::many::run_many_gated;
use crate::report::Status;
use base_devices::{Clock, Disk, Sink, Source};
use engine_calls::{Gate, OpenGate};
use std::alloc::Global;
use std::rt;
use std::sync::Wait;
use std::thread::Threads;

/// Does what the words ask for, over the log on a disk, and prints the result to a sink.
///
/// The words are the program's name, a command, and the command's options. `run` reads a script of 1 to 64 clients
/// from the source to its end, runs each client in a thread of its own over one write path, and prints the outcome;
/// the log must be empty. With `--number` it needn't be: then the log is written over what is on the disk, from its
/// start on, and its fragments have that number in their headers. The number must be one that no log on this disk had,
/// since a reader tells what is old by its number alone. With `--resume` the log goes on, with `--number` as one that
/// has this number: the clients find what the log recovers, and the printed state has it too; what recovery doesn't
/// keep is cut off, and the new batches come after what it keeps, in the log and in their sequences. With `--mode` it
/// goes on only if the mode accepts the end of this recovery; without `--resume` nothing is recovered, and the mode
/// has no effect. There are the column families with the numbers below `--families`, empty at first; where the log goes
/// on, there are more if the keys that it recovers need them, up to 16. A commit is refused for a cause of its own
/// where its batch is empty or larger than `--batch-bytes`, where it asks for a sync without the log, where a record
/// names a family that there isn't, where its client holds a stop token, and where no sequences are left for it; and
/// where it has `noslow` and writes are held up. Otherwise only a fault of the log refuses it. `gen SEED CLIENTS
/// BATCHES` runs the script that a seed makes in the same way as `run`, with the usual limits and over an empty log,
/// and prints a summary of its outcome; it doesn't look at the source. `recover` prints what the log recovers, and
/// changes nothing; with `--number` it reads the log as one whose fragments have that number, as do the logs that `run`
/// writes with it, and those of RocksDB that are written over older ones; with `--mode` it refuses an end that the mode
/// doesn't accept. `replay` reads a script of 1 to 64 clients and a schedule of events after it, runs the schedule on
/// the write path's core, and prints the clients' replies, the history and the published state; it doesn't look at the
/// disk. The disk is given back however the call ends.
///
/// This is the call over several disks ([`run_many`]) where there is one. So `run` with `--logs` has one log, which has
/// no greatest length; `recover` with more than one takes the disk for the first of them, and its text names that log.
///
/// [`run_many`]: crate::run_many
///
/// | Option | Commands | Range | Without it | Meaning |
/// |---|---|---|---|---|
/// | `--batch-bytes` | `run`, `replay` | 12 to 16777216 | 16777216 | the most bytes of a batch |
/// | `--families` | `run`, `gen`, `replay` | 1 to 16 | 1 | how many column families there are, numbered from 0 |
/// | `--group-bytes` | `run`, `replay` | 1 to 16777216 | 1048576 | the most bytes of a write group |
/// | `--last` | `run`, `replay` | 0 to 2^56 - 1 | 0 | the sequence before the first batch, or the recovered last one |
/// | `--log-bytes` | `run` | 1 to 2^40 | 67108864 | with several logs, from which length on a log is full |
/// | `--logs` | `run`, `recover` | 1 to 16 | one log | how many logs; not with `--number` or `--resume` |
/// | `--mode` | `run`, `recover` | `point`, `tail`, `absolute` | `point` | which ends the log's recovery accepts |
/// | `--number` | `run`, `recover` | 1 to 4294967295 | none | the number that the log's headers have |
/// | `--pipelined` | `run`, `gen`, `replay` | no value | a single stage | the log is handed on before an insertion |
/// | `--resume` | `run` | no value | the log begins anew | the log goes on after what it recovers |
/// | `--shards` | `run`, `gen` | 1 to 64 | 16 | with `--table shards`, how many shards the table has |
/// | `--table` | `run`, `gen` | `one`, `shards` | `one` | a tree under one lock, or a tree and a lock for each shard |
///
/// SEED is from 0 to 2147483647, CLIENTS from 1 to 64, and BATCHES from 1 to 100000, for each client. A text has at
/// most 16777216 bytes.
pub fn run<
    S: Source,
    D: Disk + Send,
    K: Sink,
    C: Clock + Send + Drop,
    R: Threads + Wait + rt::Clock + Sync,
>(
    rt: &R,
    alloc: Global,
    words: &[String],
    source: &mut S,
    disk: D,
    sink: &mut K,
    clock: C,
) -> Ended<D>
    // no other status ever comes
    ensures status { result.status < 10 }
    // 1 comes only of unlawful words
    ensures words { result.status ≡ 1 → AskNothing words.now }
    // One clause for unlawful words, and one for the words of each command. The record that it names has what is
    // promised as its fields.
    ensures nothing { AskNothing words.now → AnswersNothing ⟦<S as Source>⟧ ⟦<K as Sink>⟧
        source.old source.new sink.old sink.new disk result.disk result.status }
    ensures run { (options : RunOptions) (start : Start) (mode : Accepting) → AskToRun words.now 1 options start mode
        → AnswersRun ⟦<S as Source>⟧ ⟦<K as Sink>⟧ source.old source.new sink.old sink.new
        (log_of_run ⟦<D as Disk>⟧ options start mode disk result.disk) result.status }
    ensures generate { (seed clients batches families : ℕ) → AskToGenerate words.now seed clients batches families
        → AnswersGenerate ⟦<S as Source>⟧ ⟦<K as Sink>⟧ source.old source.new sink.old sink.new
        (log_of_generated ⟦<D as Disk>⟧ families disk result.disk) seed clients batches result.status }
    ensures recover { (number : Option ℕ) (mode : Accepting) → AskToRecover words.now number mode
        → AnswersRecover ⟦<S as Source>⟧ ⟦<K as Sink>⟧ source.old source.new sink.old sink.new
        (log_to_recover ⟦<D as Disk>⟧ number mode disk result.disk) result.status }
    // Where several logs should be recovered, the disk has the first of them.
    ensures recover_logs { (mode : Accepting) (used : ℕ) → AskToRecoverLogs words.now 1 mode used
        → AnswersRecover ⟦<S as Source>⟧ ⟦<K as Sink>⟧ source.old source.new sink.old sink.new
        (logs_to_recover ⟦<D as Disk>⟧ mode (disk ∷ []) (result.disk ∷ [])) result.status }
    ensures replay { (options : ReplayOptions) → AskToReplay words.now options
        → AnswersReplay ⟦<S as Source>⟧ ⟦<K as Sink>⟧ source.old source.new sink.old sink.new
        disk result.disk options result.status }
{
    run_gated(rt, alloc, words, source, disk, sink, clock, &OpenGate)
}

/// Does all that [`run`] does, with a gate that hears what the clients do.
pub fn run_gated<
    S: Source,
    D: Disk + Send,
    K: Sink,
    C: Clock + Send + Drop,
    G: Gate + Sync,
    R: Threads + Wait + rt::Clock + Sync,
>(
    rt: &R,
    alloc: Global,
    words: &[String],
    source: &mut S,
    disk: D,
    sink: &mut K,
    clock: C,
    gate: &G,
) -> Ended<D>
    // no other status ever comes
    ensures status { result.status < 10 }
    // 1 comes only of unlawful words
    ensures words { result.status ≡ 1 → AskNothing words.now }
    // One clause for unlawful words, and one for the words of each command. The record that it names has what is
    // promised as its fields.
    ensures nothing { AskNothing words.now → AnswersNothing ⟦<S as Source>⟧ ⟦<K as Sink>⟧
        source.old source.new sink.old sink.new disk result.disk result.status }
    ensures run { (options : RunOptions) (start : Start) (mode : Accepting) → AskToRun words.now 1 options start mode
        → AnswersRun ⟦<S as Source>⟧ ⟦<K as Sink>⟧ source.old source.new sink.old sink.new
        (log_of_run ⟦<D as Disk>⟧ options start mode disk result.disk) result.status }
    ensures generate { (seed clients batches families : ℕ) → AskToGenerate words.now seed clients batches families
        → AnswersGenerate ⟦<S as Source>⟧ ⟦<K as Sink>⟧ source.old source.new sink.old sink.new
        (log_of_generated ⟦<D as Disk>⟧ families disk result.disk) seed clients batches result.status }
    ensures recover { (number : Option ℕ) (mode : Accepting) → AskToRecover words.now number mode
        → AnswersRecover ⟦<S as Source>⟧ ⟦<K as Sink>⟧ source.old source.new sink.old sink.new
        (log_to_recover ⟦<D as Disk>⟧ number mode disk result.disk) result.status }
    // Where several logs should be recovered, the disk has the first of them.
    ensures recover_logs { (mode : Accepting) (used : ℕ) → AskToRecoverLogs words.now 1 mode used
        → AnswersRecover ⟦<S as Source>⟧ ⟦<K as Sink>⟧ source.old source.new sink.old sink.new
        (logs_to_recover ⟦<D as Disk>⟧ mode (disk ∷ []) (result.disk ∷ [])) result.status }
    ensures replay { (options : ReplayOptions) → AskToReplay words.now options
        → AnswersReplay ⟦<S as Source>⟧ ⟦<K as Sink>⟧ source.old source.new sink.old sink.new
        disk result.disk options result.status }
{
    let Ok(mut disks) = Vec::with_capacity(alloc, 1) else {
        return end_with(Status::Memory, disk);
    };
    disks.push_reserved(disk);
    let EndedMany { status, mut disks } = run_many_gated(
        rt, alloc, words, source, disks, sink, clock, gate,
    );
    let disk = disks.take_last();
    disks.destroy_empty();
    Ended { status, disk }
}
