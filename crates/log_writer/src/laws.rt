//! Laws of logs that calls of `add_group` wrote.

ghost use Rattle.std.specs.Prelude.{◌≡◌, ◌+◌, ◌≤◌, ℕ, List, [], ◌∷◌, ◌++◌, length, take, Option, Some, None, IfSome};
ghost use Rattle.base_devices.specs.Disk.{IsImage, LeavesOnly, Told};
ghost use Rattle.model_base.specs.Log.{Beginning, new_log, text_after};
ghost use Rattle.log_laws.specs.Fronts.{records_in};
ghost use Rattle.log_laws.specs.Prefixes.{BeginsWith};
ghost use Rattle.log_writer.specs.declared.writer.LogWriter.{LogWriter as Log};
ghost use Rattle.log_writer.specs.Words.{disk_of};
ghost use Rattle.log_writer.specs.Opening.{HasOpened, HasReused, HasResumed, HasBegun};
ghost use Rattle.log_writer.specs.Adding.{GroupCall, Adds};
ghost use Rattle.log_writer.specs.Reads.{WasRead};
ghost use Rattle.log_writer.specs.ReadableLogs.{AreBatches, IsTextOf, IsTold, KeepsBatches, SetKeepsNone};
ghost use Rattle.std.specs.List.{AllByRecursion};
ghost use Rattle.model_base.specs.Recovery.{Logged};
ghost use Rattle.log_writer.specs.Crashes.{KeepsPrefix};
ghost use Rattle.log_writer.specs.declared.set.LogSet.{LogSet as Set};
ghost use Rattle.log_writer.specs.Sets.{WroteSet, fault_in};
ghost use Rattle.log_writer.specs.SetSplits.{IsSplit};
ghost use Rattle.log_writer.specs.SetCrashes.{HasOpenedSet, AreSafeAfterFirst, LeavesFront};
ghost use Rattle.log_writer.specs.SetContents.{HoldLogs};
ghost use Rattle.log_writer.specs.Written.{Wrote, IsWritten, written_by, begun_by, first_fault, HaveSynced, HoldsCalls, HoldsSynced, IsTextOver, Stands, HasCauseSince};

use base_devices::Disk;

/// A log begins in three ways: on an empty disk, with a number over old bytes, or after bytes that it keeps.
pub fn beginnings<D: Disk>()
    // The three clauses lead from what the calls that open a log promise to one word for all three, which the other
    // laws use.
    ensures opened { (disk : D) (log : Log D ⟦<D as Disk>⟧) → HasOpened disk log → HasBegun new_log disk log }
    ensures reused { (disk : D) (n : ℕ) (log : Log D ⟦<D as Disk>⟧) → HasReused disk n log
        → HasBegun (record { number = Some n; kept = [] }) disk log }
    ensures resumed { (disk : D) (b : Beginning) (log : Log D ⟦<D as Disk>⟧)
        → HasResumed disk (length b.kept) b.number log
        → IfSome (D.told disk) (λ d. take (length b.kept) d.content ≡ b.kept) → HasBegun b disk log }
{}

/// What a log has as it is opened, where its disk tells what it holds: nothing, or the batches of which the bytes that
/// it keeps are the text.
pub fn kept_at_first<D: Disk>()
    ensures opened { (disk : D) (log : Log D ⟦<D as Disk>⟧) → IsTold ⟦<D as Disk>⟧ disk → HasOpened disk log
        → KeepsBatches log [] }
    ensures reused { (disk : D) (n : ℕ) (log : Log D ⟦<D as Disk>⟧) → IsTold ⟦<D as Disk>⟧ disk
        → HasReused disk n log → KeepsBatches log [] }
    ensures resumed { (disk : D) (b : Beginning) (log : Log D ⟦<D as Disk>⟧) (batches : List Logged)
        → IsTold ⟦<D as Disk>⟧ disk → HasResumed disk (length b.kept) b.number log
        → IfSome (D.told disk) (λ d. take (length b.kept) d.content ≡ b.kept)
        → IsTextOf b.number b.kept batches → AreBatches batches → KeepsBatches log batches }
    ensures set { (disks : List D) (set : Set D ⟦<D as Disk>⟧) → AllByRecursion (IsTold ⟦<D as Disk>⟧) disks
        → HasOpenedSet disks set → SetKeepsNone set [] }
{}

/// A log that has begun is written by no calls, and each call after that makes it one that is written by one call
/// more. It may be read in between. What the log has then is what it kept and what the calls wrote.
pub fn written_by_calls<D: Disk>()
    ensures no_call { (b : Beginning) (disk : D) (log : Log D ⟦<D as Disk>⟧)
        → HasBegun b disk log → IsWritten b disk [] log }
    ensures one_more { (b : Beginning) (disk : D) (calls : List GroupCall) (c : GroupCall)
        (now new : Log D ⟦<D as Disk>⟧) → IsWritten b disk calls now → Adds c now new
        → IsWritten b disk (calls ++ c ∷ []) new }
    ensures read { (b : Beginning) (disk : D) (calls : List GroupCall) (now new : Log D ⟦<D as Disk>⟧)
        → IsWritten b disk calls now → WasRead now new → IsWritten b disk calls new }
    // The disk has what the calls wrote after what the log kept, and the log has their first fault.
    ensures stands { (b : Beginning) (disk : D) (calls : List GroupCall) (log : Log D ⟦<D as Disk>⟧)
        → IsWritten b disk calls log → Stands b calls log }
    // Where no call failed, that text is written over what was there, and nothing else has changed.
    ensures content { (b : Beginning) (disk : D) (calls : List GroupCall) (begun log : Log D ⟦<D as Disk>⟧)
        → HasBegun b disk begun → Wrote begun calls log → first_fault calls ≡ None
        → Told (D.told (disk_of begun)) (D.told (disk_of log)) (IsTextOver (text_after b (written_by calls))) }
    // A log has a fault only where the disk has counted one since.
    ensures cause { (b : Beginning) (disk : D) (calls : List GroupCall) (log : Log D ⟦<D as Disk>⟧)
        → IsWritten b disk calls log → HasCauseSince disk log }
{}

/// Unless a checksum matches by chance, what a crash leaves of such a log is a prefix of its records: those that it
/// kept, then those that were written, then the one that was begun. All that was safe is in this prefix.
pub fn crashes_between_calls<D: Disk>()
    // This holds at any moment of later calls, for what earlier calls had made safe.
    ensures any_moment { (b : Beginning) (before after : List GroupCall) (old new : Log D ⟦<D as Disk>⟧)
        → Wrote old after new → IfSome (D.told (disk_of old)) (λ d. (safe : ℕ) → HoldsCalls b d before safe
        → LeavesOnly D.moment D.from D.since (disk_of old) (disk_of new)
        (KeepsPrefix b (begun_by (before ++ after)) safe)) }
    // Then each image begins with the text of the records that were safe.
    ensures begins { (b : Beginning) (before after : List GroupCall) (old new : Log D ⟦<D as Disk>⟧)
        → Wrote old after new → IfSome (D.told (disk_of old)) (λ d. (safe : ℕ) → HoldsCalls b d before safe
        → LeavesOnly D.moment D.from D.since (disk_of old) (disk_of new)
        (BeginsWith (text_after b (take safe (written_by before))))) }
    // And it holds once the calls have returned, for all of them.
    ensures at_end { (b : Beginning) (calls : List GroupCall) (log : Log D ⟦<D as Disk>⟧)
        → IfSome (D.told (disk_of log)) (λ d. (safe : ℕ) → HoldsCalls b d calls safe
        → (image : List ℕ) → IsImage d image → KeepsPrefix b (begun_by calls) safe image) }
    // Where the calls that were to sync are among the first `safe` calls, they are among the first `n`, if that is
    // more.
    ensures synced { (calls : List GroupCall) (safe n : ℕ) → HaveSynced calls safe → safe ≤ n → HaveSynced calls n }
    // At any moment since the log was opened: an image that is longer than the text up to the end of a call that
    // synced, and reaches further than writes could come before the log was opened, begins with that text.
    ensures held { (b : Beginning) (disk : D) (calls : List GroupCall) (log : Log D ⟦<D as Disk>⟧)
        → IsWritten b disk calls log → IfSome (D.told disk) (λ d.
        LeavesOnly D.moment D.from D.since disk (disk_of log) (HoldsSynced b d.reach calls)) }
{}

/// Which calls wrote which log of a set: those that wrote a log come after one another, and before those that wrote the
/// logs after it.
pub fn calls_of_each_log<D: Disk>()
    ensures split { (old new : Set D ⟦<D as Disk>⟧) (calls : List GroupCall) → fault_in old ≡ None
        → WroteSet old calls new → IsSplit old calls new }
{}

/// At any moment of calls of a set, once others had returned, a crash leaves a front of what its logs have.
pub fn crashes_of_sets<D: Disk>()
    ensures front { (disks : List D) (opened between last : Set D ⟦<D as Disk>⟧) (before after : List GroupCall)
        → AreSafeAfterFirst ⟦<D as Disk>⟧ disks → HasOpenedSet disks opened → IsSplit opened before between
        → IsSplit between after last → fault_in between ≡ None
        → (safe : ℕ) × (logs : List (List (List ℕ))) × HaveSynced before safe
        × (records_in logs ≡ begun_by (before ++ after)) × LeavesFront between last safe logs }
{}

/// What the disks hold, once calls have written a set that was opened on them: the logs' texts, and of the record whose
/// call failed a front at most, where that call was to put it. Nothing is in the logs after that one.
pub fn contents_of_sets<D: Disk>()
    ensures hold { (disks : List D) (opened last : Set D ⟦<D as Disk>⟧) (calls : List GroupCall)
        → HasOpenedSet disks opened → IsSplit opened calls last → HoldLogs last calls }
{}
