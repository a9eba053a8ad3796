//! Laws of a set of logs whose records are known log by log.

ghost use Rattle.std.specs.Prelude.{◌≡◌, ◌⊎◌, ℕ, List, [], ◌∷◌, ◌++◌, length, drop, map, IfSome};
ghost use Rattle.std.specs.List.{AllByRecursion, AllZip};
ghost use Rattle.log_laws.specs.Fronts.{AreFilledTo, HaveFront};
ghost use Rattle.log_writer.specs.declared.set.LogSet.{LogSet as Set};
ghost use Rattle.log_writer.specs.Adding.{GroupCall};
ghost use Rattle.log_writer.specs.Written.{HaveSynced, written_by};
ghost use Rattle.log_writer.specs.Sets.{WroteSet, begun_in, later_of, limit_of};
ghost use Rattle.log_writer.specs.SetSplits.{IsSplit};
ghost use Rattle.log_writer.specs.SetCrashes.{AreLeft, AreSafeAfterFirst, IsLeftNow, HasOpenedSet, LeavesFront};
ghost use Rattle.log_writer.specs.SetContents.{HoldLogs};
ghost use Rattle.log_writer.specs.SetWritten.{HoldEach, begun_logs, disks_of};

use base_devices::Disk;

/// The records are cut into logs in one way only, by the lengths of the logs. So what is said of a crash is said of the
/// logs that are there at the end, whichever calls had returned.
pub fn one_cut_of_sets<D: Disk>()
    ensures one { (last : Set D ⟦<D as Disk>⟧) (calls : List GroupCall) (some other : HoldLogs last calls)
        → begun_logs some ≡ begun_logs other }
    // It is the cut by the calls that wrote each log.
    ensures of_calls { (disks : List D) (opened last : Set D ⟦<D as Disk>⟧) (calls : List GroupCall)
        → HasOpenedSet disks opened → (split : IsSplit opened calls last) → (hold : HoldLogs last calls)
        → hold.full ++ hold.written ∷ [] ≡ map written_by split.parts ++ written_by split.own ∷ [] }
    // At any moment since the disks were handed in a crash leaves a front of these logs.
    ensures handed_in { (disks : List D) (opened last : Set D ⟦<D as Disk>⟧) (calls : List GroupCall)
        → AreSafeAfterFirst ⟦<D as Disk>⟧ disks → HasOpenedSet disks opened → WroteSet opened calls last
        → (hold : HoldLogs last calls) → (images : List (List ℕ)) → AreLeft ⟦<D as Disk>⟧ disks (disks_of last) images
        → HaveFront 0 (begun_logs hold) images }
    // Once some calls had returned, those of them that synced are certain to be in it.
    ensures front { (disks : List D) (opened between last : Set D ⟦<D as Disk>⟧) (before after : List GroupCall)
        → AreSafeAfterFirst ⟦<D as Disk>⟧ disks → HasOpenedSet disks opened → WroteSet opened before between
        → WroteSet between after last → (hold : HoldLogs last (before ++ after))
        → (safe : ℕ) × HaveSynced before safe × LeavesFront between last safe (begun_logs hold) }
    // So it is once all calls have returned, whether one failed or not.
    ensures at_end { (disks : List D) (opened last : Set D ⟦<D as Disk>⟧) (calls : List GroupCall)
        → AreSafeAfterFirst ⟦<D as Disk>⟧ disks → HasOpenedSet disks opened → WroteSet opened calls last
        → (hold : HoldLogs last calls) → (safe : ℕ) × HaveSynced calls safe × ((images : List (List ℕ))
        → AllZip (IsLeftNow ⟦<D as Disk>⟧) (disks_of last) images → HaveFront safe (begun_logs hold) images) }
    // A crash leaves nothing of the logs that were not begun.
    ensures unused { (disks : List D) (opened between last : Set D ⟦<D as Disk>⟧) (before after : List GroupCall)
        → AreSafeAfterFirst ⟦<D as Disk>⟧ disks → HasOpenedSet disks opened → WroteSet opened before between
        → WroteSet between after last → (images : List (List ℕ)) → AreLeft ⟦<D as Disk>⟧ disks (disks_of last) images
        ⊎ AreLeft ⟦<D as Disk>⟧ (disks_of between) (disks_of last) images
        ⊎ AllZip (IsLeftNow ⟦<D as Disk>⟧) (disks_of last) images
        → AllByRecursion (λ image. image ≡ []) (drop (length (begun_in last)) images) }
{}

/// Each log but the last one that was begun is full by its last record, and only the last one of all has no limit.
pub fn sets_are_filled<D: Disk>()
    ensures filled { (disks : List D) (opened last : Set D ⟦<D as Disk>⟧) (calls : List GroupCall)
        → HasOpenedSet disks opened → WroteSet opened calls last → (hold : HoldLogs last calls)
        → AreFilledTo (limit_of opened) (length (later_of last)) (hold.full ++ hold.written ∷ []) }
{}

/// At any moment since the set was opened: an image of a log that is longer than the log's text up to the end of a call
/// that synced, and reaches further than writes could come before, begins with that text.
pub fn synced_in_sets<D: Disk>()
    ensures held { (disks : List D) (opened last : Set D ⟦<D as Disk>⟧) (calls : List GroupCall) (reached : List ℕ)
        → AreSafeAfterFirst ⟦<D as Disk>⟧ disks → HasOpenedSet disks opened → (split : IsSplit opened calls last)
        → AllZip (λ disk reach. IfSome (D.told disk) (λ d. d.reach ≡ reach)) disks reached
        → (images : List (List ℕ)) → AreLeft ⟦<D as Disk>⟧ disks (disks_of last) images
        → HoldEach reached (split.parts ++ split.own ∷ []) images }
{}
