//! From a crash to the next call: what the next call goes on from.
//!
//! A crash at any moment of a call of `run` leaves some image of its log. `recover` prints what such an image recovers,
//! and `run --resume` goes on from it. These laws put that together, for one log on a disk that tells its bytes. The
//! next call goes on from whole batches: those that the call had kept, and then the first of those that it added, with
//! all that were safe. So any number of calls, each with a crash after it, make one history. Among what is safe is each
//! batch that a client had asked to be synced, and was answered `ok` for, once those calls that wrote the log have
//! returned that the client knew of by then.
//!
//! If only the process is killed, and the machine goes on, the batches that weren't synced are kept too.
//!
//! A crash in a call is one at a moment of a call that then ended, as that call would have ended, and so is the moment
//! at which a process is killed. Calls that ran no script are left out, since they leave no less (`IsLeftLog` of
//! `program_call`).
//!
//! No call goes on from several logs, since a run over them isn't resumed. What a crash leaves of them is recovered all
//! the same, and the laws in `several` say that this is always one thing.
//!
//! Each law is the contract of a function that does nothing and that nobody calls: it is here so that the law is proved
//! with the crate.
#![tactic(auto)]

mod several;

ghost use Rattle.std.specs.Prelude.{◌≡◌, ◌≢◌, ℕ, ◌+◌, ◌≤◌, List, [], ◌∷◌, length, Option, Some, None, slice_get};
ghost use Rattle.model_base.specs.Attempts.{Attempt};
ghost use Rattle.model_base.specs.Batch.{Record};
ghost use Rattle.model_base.specs.Calls.{Command, Call as Answered};
ghost use Rattle.model_base.specs.History.{Entry};
ghost use Rattle.model_base.specs.Outcomes.{IsLegalTranscript};
ghost use Rattle.model_base.specs.Recovery.{Logged};
ghost use Rattle.model_base.specs.Trace.{Trace, Settings};
ghost use Rattle.model_runs.specs.Crashes.{HasSync};
ghost use Rattle.run_outcome.specs.Running.{Before, RecoversTo, batch_of_group, batches_of_log, nothing};
ghost use Rattle.crash_laws.specs.Answered.{WasAnswered, KnewByThen, IsFoundAgain};
ghost use Rattle.crash_laws.specs.Killed.{WasAccepted, KnewThen, IsKilledAfter, IsAtRest, IsAfterKill};
ghost use Rattle.crash_laws.specs.Killed.{HasNoMore, IsAfterOpening, IsKilledInOpening, OutlivesProcess, text_of_first};
ghost use Rattle.crash_laws.specs.Restarts.{AllStays, AreInTurn, AreOneHistory, Call, Crashed, IsAfterCrash, IsAfterEnd};
ghost use Rattle.crash_laws.specs.Restarts.{IsAlone, IsLeftAfter, NoneByChance, WereLeftSafe, groups_in, kept_in};
ghost use Rattle.crash_laws.specs.Restarts.{Resumes, calls_in, execution_of, number_of};

use base_devices::Disk;
pub use several::{a_later_log_recovers_one_thing, several_logs_recover_one_thing};

/// An image is left, and the next call finds it: it goes on from what that recovers.
pub fn crash_then_go_on<D: Disk>()
    ensures goes_on { (call : Call ⟦<D as Disk>⟧) (image : List ℕ) (next : Before)
        → RecoversTo (number_of call) image next → IsAfterCrash call image next }
    // So it is for a call that resumes over the image.
    ensures resumed { (earlier later : Call ⟦<D as Disk>⟧) (image : List ℕ) → Resumes earlier image later
        → IsAfterCrash earlier image later.ran.before }
    // If no crash came, and no write of the log failed, it finds the whole log.
    ensures ended { (call : Call ⟦<D as Disk>⟧) (next : Before) → call.outcome.fault ≡ None → IsAlone call.start
        → RecoversTo (number_of call) call.left.content next → IsAfterEnd call next }
{}

/// Each batch that a client was answered `ok` for, and had asked to be synced, is acknowledged: the client knew by then
/// that some first calls that wrote the log had returned, and one of these wrote the batch and synced. So the clause
/// `acknowledged` of `IsAfterCrash`, and of what `run` promises of its logs, leaves out no such batch.
pub fn answered_batches_are_acknowledged<D: Disk>()
    // It is so for each client whose calls are right in a trace. If an `ok` shows the client no such call, the calls
    // are right in no trace.
    ensures each { (settings : Settings) (trace : Trace) (fault : Option ℕ) (client : ℕ) (commands : List Command)
        (calls : List Answered) (attempts : List Attempt) (first last : ℕ) (records : List Record)
        → IsLegalTranscript settings trace fault client commands calls attempts → WasAnswered calls first last records
        → KnewByThen settings trace client calls first records }
    // Once these calls have returned, the next call finds the batch. It doesn't go on without it.
    ensures found { (call : Call ⟦<D as Disk>⟧) (i : ℕ) (calls : List Answered) (first last : ℕ)
        (records : List Record)
        → slice_get call.outcome.transcripts i ≡ Some calls → WasAnswered calls first last records
        → IsFoundAgain call i calls first records }
{}

/// A process that is killed while the machine goes on loses nothing of what it had written, synced or not. The next
/// call goes on from all that the log kept, and from one batch for each group that had been written by then. So each
/// batch that goes into the log, and that a client was answered `ok` for, is there once those calls have returned that
/// the client knew of by then.
pub fn killed_process_keeps_all<D: Disk>()
    ensures kept { (call : Call ⟦<D as Disk>⟧) (n : ℕ) (file : List ℕ) (next : Before) → IsKilledAfter call n file
        → RecoversTo (number_of call) file next → IsAfterKill call n file next }
    // So it is for a call that resumes over the file.
    ensures resumed { (earlier later : Call ⟦<D as Disk>⟧) (n : ℕ) (file : List ℕ) → IsKilledAfter earlier n file
        → Resumes earlier file later → IsAfterKill earlier n file later.ran.before }
    // If no call was under way, and the log was opened as `run` opens it, the file of a new or resumed log is exactly
    // the text of what was written. So nothing more is found. That it was opened so is a premise of its own: no clause
    // of a call says it of such a moment.
    ensures rests { (call : Call ⟦<D as Disk>⟧) (n : ℕ) (file : List ℕ) (killed : IsKilledAfter call n file)
        → IsAtRest killed → (file ≡ text_of_first call n) × HasNoMore call n file }
    // Before the log has begun, the file still has what it keeps.
    ensures opening { (call : Call ⟦<D as Disk>⟧) (file : List ℕ) (next : Before) → IsKilledInOpening call file
        → RecoversTo (number_of call) file next → IsAfterOpening call next }
    // No batch of the log is left out that was answered `ok`.
    ensures answered { (call : Call ⟦<D as Disk>⟧) (i : ℕ) (calls : List Answered) (first last : ℕ)
        (records : List Record)
        → slice_get call.outcome.transcripts i ≡ Some calls → WasAccepted calls first last records
        → OutlivesProcess call i calls first records }
    // There is such a moment for each number of calls, with the file as the disk held it.
    ensures moments { (call : Call ⟦<D as Disk>⟧) (n : ℕ) → n ≤ length (calls_in call)
        → (file : List ℕ) × (killed : IsKilledAfter call n file) × (file ≡ killed.held.content) }
{}

/// After any number of crashes there is still one history of whole batches: what the first call left, then what the
/// second left, and so on. Here `last` is the last call, and `earlier` are those before it, in the order from the last
/// to the first.
pub fn crashes_leave_one_history<D: Disk>()
    ensures one { (last : Crashed ⟦<D as Disk>⟧) (earlier : List (Crashed ⟦<D as Disk>⟧)) (next : Before)
        → AreInTurn (last ∷ earlier) → RecoversTo (number_of last.call) last.image next
        → AreOneHistory (last ∷ earlier) next.batches }
    // If what each crash left is safe, what one call goes on from stays for all later ones.
    ensures all_stays { (last : Crashed ⟦<D as Disk>⟧) (earlier : List (Crashed ⟦<D as Disk>⟧)) (next : Before)
        → AreInTurn (last ∷ earlier) → WereLeftSafe (last ∷ earlier)
        → RecoversTo (number_of last.call) last.image next → AllStays (last ∷ earlier) next.batches }
{}

/// Examples of next calls that aren't right after a crash, or after the process was killed.
pub fn wrong_next_calls<D: Disk>()
    // Once the first call that wrote the log has returned, whose group should be synced, the next call doesn't begin
    // with nothing.
    ensures all_lost { (call : Call ⟦<D as Disk>⟧) (image : List ℕ) (group : List Entry) (groups : List (List Entry))
        → groups_in call ≡ group ∷ groups → HasSync group → IsLeftAfter call 1 image
        → RecoversTo (number_of call) image nothing → ⊥ }
    // It doesn't have the second batch of a new log without the first one,
    ensures gap { (call : Call ⟦<D as Disk>⟧) (image : List ℕ) (next : Before) (first second : List Entry)
        (groups : List (List Entry)) → kept_in call ≡ [] → groups_in call ≡ first ∷ second ∷ groups
        → batch_of_group first ≢ batch_of_group second → NoneByChance call image
        → RecoversTo (number_of call) image next → next.batches ≡ batch_of_group second ∷ [] → ⊥ }
    // and it has no batch twice that the log has once.
    ensures twice { (call : Call ⟦<D as Disk>⟧) (image : List ℕ) (next : Before) (group : List Entry)
        → kept_in call ≡ [] → groups_in call ≡ group ∷ [] → call.outcome.fault ≡ None → NoneByChance call image
        → RecoversTo (number_of call) image next
        → next.batches ≡ batch_of_group group ∷ batch_of_group group ∷ [] → ⊥ }
    // After several calls nothing is left out in the middle: a call kept two batches, and the second of them is missing
    // before what it added.
    ensures hole { (last : Crashed ⟦<D as Disk>⟧) (earlier : List (Crashed ⟦<D as Disk>⟧)) (a b c : Logged)
        → kept_in last.call ≡ a ∷ b ∷ [] → b ≢ c → AreOneHistory (last ∷ earlier) (a ∷ c ∷ []) → ⊥ }
    // After the process was killed no batch is lost that a client was answered `ok` for, also without a sync: the next
    // call doesn't go on from just what the log had kept,
    ensures answered_lost { (call : Call ⟦<D as Disk>⟧) (i : ℕ) (calls : List Answered) (first knew : ℕ)
        (records : List Record) (file : List ℕ) (next : Before) → slice_get call.outcome.transcripts i ≡ Some calls
        → KnewThen (execution_of call).settings call.ran.is_outcome.run.trace (i + 1) calls first knew records
        → IsKilledAfter call knew file → RecoversTo (number_of call) file next → next.batches ≡ kept_in call → ⊥ }
    // and where two groups had been written it doesn't go on from the first of them alone.
    ensures unsynced_lost { (call : Call ⟦<D as Disk>⟧) (n : ℕ) (file : List ℕ) (next : Before)
        (first second : List Entry) (groups : List (List Entry)) → groups_in call ≡ first ∷ second ∷ groups → 2 ≤ n
        → IsKilledAfter call n file → RecoversTo (number_of call) file next
        → next.batches ≡ batches_of_log call.ran.before (first ∷ []) → ⊥ }
{}
