//! What follows once a write path is closed.

ghost use Rattle.std.specs.Prelude.{◌≡◌, ◌+◌, ◌<◌, ℕ, true, List, [], ◌∷◌, length, map, take, flat_map, Option, Some, slice_get};
ghost use Rattle.std.specs.List.{AllByRecursion, AllZip};
ghost use Rattle.model_base.specs.declared.group.Item.{Item};
ghost use Rattle.model_base.specs.Batch.{Record, group_record};
ghost use Rattle.model_base.specs.History.{Entry, RunsFollow, logged_entries};
ghost use Rattle.model_base.specs.Grouping.{group_len};
ghost use Rattle.model_base.specs.Controller.{ControllerCall};
ghost use Rattle.model_base.specs.Recovery.{Logged};
ghost use Rattle.model_base.specs.Settings.{with_kept};
ghost use Rattle.model_base.specs.Trace.{Trace, Settings};
ghost use Rattle.model_base.specs.Attempts.{Attempt};
ghost use Rattle.model_base.specs.Groups.{Member, Group, AreGroups};
ghost use Rattle.model_base.specs.Progress.{Progress};
ghost use Rattle.model_base.specs.Runs.{IsTranscript};
ghost use Rattle.model_base.specs.Script.{Script};
ghost use Rattle.model_base.specs.Calls.{Command, Call, Outcome};
ghost use Rattle.model_base.specs.Outcomes.{outcome_of, IsLegalIn};
ghost use Rattle.model_base.specs.LogContents.{GroupCall, AreGroupsOf, records_of, record_of_call};
ghost use Rattle.model_runs.specs.Lost.{IsLost, IsLostGroup, IsFaultedBatch};
ghost use Rattle.model_runs.specs.Crashes.{HasSync};
ghost use Rattle.model_accounts.specs.Accounts.{Account};
ghost use Rattle.model_accounts.specs.Closing.{all_attempts, IsClosing};
ghost use Rattle.model_accounts.specs.ClientRuns.{HaveRun};
ghost use Rattle.model_accounts.specs.Led.{Led, groups_of, AreLed};
ghost use Rattle.model_runs.specs.Written.{WroteEntries, AreLost};
ghost use Rattle.model_accounts.specs.Answered.{IsAmong};

/// If each client has run its part of the script, and the closing says that their accounts are parts of one trace, the
/// outcome is legal, with the closing's groups, whatever the log had kept before: what a client is told doesn't depend
/// on it, only whether its reads of the log are right.
pub fn closed_runs_are_legal()
    ensures legal { (settings : Settings) (kept : Option (List Logged)) (ended : ℕ) (script : Script)
        (calls : List (List Call)) (accounts : List Account) (trace : Trace) (groups : List Group) (last : ℕ)
        (log_lens : List ℕ) (fault : Option ℕ)
        → settings.clients ≡ length script → HaveRun settings script calls accounts
        → IsClosing (with_kept kept settings) ended trace groups accounts last fault
        → (is : IsLegalIn (with_kept kept settings) ended script trace (all_attempts accounts)
        (outcome_of trace calls last log_lens fault)) × (is.groups ≡ groups) }
{}

/// The groups of an outcome, from what the holder of the log knew, one leader after another.
pub fn led_groups()
    // what the rule of grouping takes from a queue is a whole group by itself
    ensures whole { (group_bytes : ℕ) (queue : List Item) → 0 < length queue
        → group_len group_bytes (take (group_len group_bytes queue) queue)
        ≡ length (take (group_len group_bytes queue) queue) }
    ensures groups { (group_bytes : ℕ) (controller_calls : List ControllerCall) (led : List Led)
        (attempts : List (List Attempt))
        → AreLed group_bytes controller_calls led attempts
        → AreGroups group_bytes controller_calls (groups_of led) attempts }
{}

/// Each commit that a leader took into its group is in its client's transcript, with its batch and the reply of its
/// status.
pub fn attempts_are_shown()
    ensures shown { (settings : Settings) (trace : Trace) (client : ℕ) (commands : List Command) (calls : List Call)
        (end : Progress) → IsTranscript settings trace client commands calls end
        → (k : ℕ) (attempt : Attempt) → slice_get end.attempts k ≡ Some attempt → IsAmong [] calls attempt }
    // so each batch of the group whose log write failed is in a transcript as a commit that was answered that fault
    ensures lost { (settings : Settings) (ended : ℕ) (script : List (List Command)) (trace : Trace)
        (attempts : List (List Attempt)) (o : Outcome) → IsLegalIn settings ended script trace attempts o
        → (count : ℕ) (m : Member) (records : List Record) → IsLost attempts count m records
        → IsFaultedBatch o count records }
{}

/// The calls that wrote the closed log wrote the groups of the history, one record for each.
pub fn logs_hold_the_history()
    ensures groups { (entries : List Entry) (parts : List (List Entry)) (calls : List GroupCall)
        → flat_map (λ part. part) parts ≡ logged_entries entries → AllByRecursion RunsFollow parts
        → AllZip WroteEntries parts calls → AreGroupsOf entries parts }
    ensures records { (parts : List (List Entry)) (calls : List GroupCall) → AllZip WroteEntries parts calls
        → map record_of_call calls ≡ records_of parts }
    ensures synced { (part : List Entry) (c : GroupCall) → WroteEntries part c → HasSync part → c.sync ≡ true }
    // if the log has a fault, the call that failed was asked to write the record of the lost group
    ensures lost { (group_bytes : ℕ) (attempts : List (List Attempt)) (count last : ℕ) (lost : List GroupCall)
        → AreLost group_bytes attempts (Some count) last lost
        → (c : GroupCall) × (lost ≡ c ∷ []) × (c.failed ≡ Some count)
        × IsLostGroup group_bytes attempts count last c.batches
        × (record_of_call c ≡ group_record (last + 1) c.batches) }
{}
