//! From the result of a run over an opened log to the end of the whole run.

ghost use Rattle.std.specs.Prelude.{◌≡◌, ◌<◌, ◌≤◌, ◌^◌, ℕ, List, Option, [], IfSome, length};
ghost use Rattle.std.specs.List.{AllZip};
ghost use Rattle.model_base.specs.LogContents.{GroupCall};
ghost use Rattle.model_base.specs.Recovery.{Logged};
ghost use Rattle.model_base.specs.Settings.{settings_of, with_kept};
ghost use Rattle.log_writer.specs.declared.set.LogSet.{LogSet as Set};
ghost use Rattle.log_writer.specs.Sets.{WroteSet, count_in, fault_in, limit_of, logs_of};
ghost use Rattle.log_writer.specs.SetCrashes.{HasOpenedSet};
ghost use Rattle.log_writer.specs.SetWritten.{disks_of};
ghost use Rattle.run_execution.specs.declared.end.RunEnd.{RunEnd as End};
ghost use Rattle.run_execution.specs.SetEnds.{EndsOnSet, IsEndOfSet, nothing_told};
ghost use Rattle.model_base.specs.Calls.{Command};
ghost use Rattle.model_base.specs.Map.{Pairs};
ghost use Rattle.model_base.specs.declared.options.Options.{Options as RunOptions};
ghost use Rattle.log_recovery.specs.declared.modes.Mode.{Mode};
ghost use Rattle.log_writer.specs.declared.writer.LogWriter.{LogWriter as Log};
ghost use Rattle.log_writer.specs.Words.{disk_of};
ghost use Rattle.run_outcome.specs.declared.log_start.LogStart.{LogStart};
ghost use Rattle.run_outcome.specs.Running.{Before, GoesOn, GoesOnFrom, batches_told};
ghost use Rattle.run_threads.specs.declared.run.ClientsEnd.{ClientsEnd as Ended};
ghost use Rattle.run_threads.specs.Runs.{ComesTo, log_of};
ghost use Rattle.run_execution.specs.Bare.{HasKept};
ghost use Rattle.run_execution.specs.Ends.{EndsOn, HasFewFamilies, HasOpenedAs, HasRunOver, IsAccepted};
ghost use Rattle.run_execution.specs.Ends.{IsEndOfRun, options_behind};

use base_devices::Disk;
use log_recovery_laws::{an_image_of_the_file, fronts_recover_prefixes};
use log_writer::{
    GroupLog, LogSet, LogWriter, beginnings, calls_of_each_log, contents_of_sets,
    crashes_between_calls, kept_at_first, one_cut_of_sets, sets_are_filled, synced_in_sets,
    written_by_calls,
};
use model_base::{MAX_CLIENTS, MAX_SIZE};

/// What follows if a log was opened on a disk, and all clients of a script have run over it, or none has.
pub fn runs_leave_safe_logs<D: Disk>()
    // Then the run ends as it should, and the log is left as it should be.
    ensures ends { (disk : D) (opened : Log D ⟦<D as Disk>⟧) (options : RunOptions) (start : LogStart) (mode : Mode)
        (before : Before) (script : List (List Command)) (ran : Ended (Log D ⟦<D as Disk>⟧)) (end : End)
        → GoesOnFrom start (D.told disk) before → IsAccepted start mode (D.told disk)
        → HasFewFamilies start (D.told disk) → HasOpenedAs start before disk opened
        → length script ≤ MAX_CLIENTS → options.batch_bytes ≤ MAX_SIZE
        → (options_behind options before).families < 2 ^ 32
        → HasRunOver opened (options_behind options before) before.map (D.faults disk)
        (batches_told (D.told disk) before) script ran
        → IsEndOfRun ran end
        → EndsOn ⟦<D as Disk>⟧ options start mode script disk (disk_of (log_of ran)) end }
    // The disk's time has gone on, and its count of faults hasn't fallen.
    ensures time { (opened : Log D ⟦<D as Disk>⟧) (options : RunOptions) (map : Pairs) (script : List (List Command))
        (counted : ℕ) (kept : Option (List Logged)) (ran : Ended (Log D ⟦<D as Disk>⟧))
        → HasRunOver opened options map counted kept script ran
        → GoesOn D.moment D.from (disk_of opened) (disk_of (log_of ran))
        × (D.faults (disk_of opened) ≤ D.faults (disk_of (log_of ran))) }
{
    beginnings::<D>();
    written_by_calls::<D>();
    crashes_between_calls::<D>();
    an_image_of_the_file();
}

/// What a log has as it is opened for a run, where that is known: the batches that the run goes on from. A new set of
/// logs has none.
pub fn logs_have_batches<D: Disk>()
    ensures one { (start : LogStart) (before : Before) (disk : D) (opened : Log D ⟦<D as Disk>⟧) (last : ℕ)
        → GoesOnFrom start (D.told disk) before → HasOpenedAs start before disk opened → before.last ≤ last
        → IfSome (batches_told (D.told disk) before) (HasKept ⟦<LogWriter<D> as GroupLog>⟧ opened last) }
    ensures set { (disks : List D) (opened : Set D ⟦<D as Disk>⟧) (last : ℕ) → HasOpenedSet disks opened
        → IfSome (nothing_told ⟦<D as Disk>⟧ disks) (HasKept ⟦<LogSet<D> as GroupLog>⟧ opened last) }
{
    kept_at_first::<D>();
}

/// What follows if a set of logs was opened on disks, and all clients of a script have run over it, or none has.
pub fn runs_leave_safe_sets<D: Disk>()
    ensures ends { (disks : List D) (opened : Set D ⟦<D as Disk>⟧) (options : RunOptions) (limit : ℕ)
        (script : List (List Command)) (ran : Ended (Set D ⟦<D as Disk>⟧)) (end : End)
        → HasOpenedSet disks opened → limit_of opened ≡ limit → length script ≤ MAX_CLIENTS
        → options.batch_bytes ≤ MAX_SIZE → options.families < 2 ^ 32
        → ComesTo (with_kept (nothing_told ⟦<D as Disk>⟧ disks)
        (settings_of options [] (length script) (count_in (logs_of opened)))) script (WroteSet opened) fault_in
        (λ set. count_in (logs_of set)) ran → IsEndOfSet ran end
        → EndsOnSet ⟦<D as Disk>⟧ options limit script disks (disks_of (log_of ran)) end }
    ensures time { (opened : Set D ⟦<D as Disk>⟧) (calls : List GroupCall) (set : Set D ⟦<D as Disk>⟧)
        → WroteSet opened calls set
        → AllZip (λ old new. GoesOn D.moment D.from old new × (D.faults old ≤ D.faults new)) (disks_of opened)
        (disks_of set) }
{
    calls_of_each_log::<D>();
    contents_of_sets::<D>();
    one_cut_of_sets::<D>();
    sets_are_filled::<D>();
    synced_in_sets::<D>();
    fronts_recover_prefixes();
}
