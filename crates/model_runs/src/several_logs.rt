//! Images of two logs, each with one group; what their disks may hold; and when a log is left for the next one.

ghost use Rattle.std.specs.Prelude.{◌≡◌, ◌++◌, ℕ, List, [], ◌∷◌, map, Some, None};
ghost use Rattle.model_base.specs.declared.history.Flag.TheVariants.{Sync};
ghost use Rattle.model_base.specs.Attempts.{Attempt};
ghost use Rattle.model_base.specs.Calls.{Outcome};
ghost use Rattle.model_base.specs.LogContents.{records_of};
ghost use Rattle.log_laws.specs.Fronts.{AreFilledTo, HaveFront};
ghost use Rattle.model_runs.specs.SeveralLogs.{AreCrashSafe, Held, HoldLogs, begun_records};
ghost use Rattle.model_runs.specs.Examples.{put_a, entry_of, two_groups, in_two_logs, unsynced_in_two_logs, text_of_first, text_in_second_log, zeros, in_two_records, only_in_second_log, none_at_the_end, held_up_to_its_end};

/// A log may not be written to before those before it are safe.
pub fn safe_before_the_next_log()
    // Until the first log is full and safe, an image may have any bytes in its place, and none in the second one.
    ensures torn_first { HaveFront 0 (begun_records in_two_logs None 0) (zeros 9 ∷ [] ∷ []) }
    // Then it may have any bytes in the place of the second one.
    ensures torn_second { HaveFront 1 (begun_records in_two_logs None 0) (text_of_first ∷ zeros 9 ∷ []) }
    // But if it has bytes there, it has the first log, not that log as it was before, and not a part of it.
    ensures old_first { HaveFront 0 (begun_records in_two_logs None 0) ([] ∷ text_in_second_log ∷ []) → ⊥ }
    ensures part_of_first { HaveFront 0 (begun_records in_two_logs None 0) (zeros 9 ∷ zeros 1 ∷ []) → ⊥ }
    // So a run that may leave such images isn't safe: it began the second log before it had synced the first one. No
    // group was to be synced, and at the end all is there.
    ensures begun_before_the_sync { (group_bytes : ℕ) (attempts : List (List Attempt)) (o : Outcome) (ended : List Held)
        (reached : List ℕ) → AreCrashSafe group_bytes attempts o unsynced_in_two_logs 0 ended reached in_two_records []
        (λ images. images ≡ text_of_first ∷ text_in_second_log ∷ []) only_in_second_log
        (λ images. images ≡ text_of_first ∷ text_in_second_log ∷ []) → ⊥ }
    // Nor is a run safe that may lose a group that was to be synced, once the call that wrote it has returned.
    ensures synced_group_lost { (group_bytes : ℕ) (attempts : List (List Attempt)) (o : Outcome) (ended : List Held)
        (reached : List ℕ) → AreCrashSafe group_bytes attempts o in_two_logs 0 ended reached in_two_records []
        (λ images. ⊥) none_at_the_end (λ images. ⊥) → ⊥ }
{}

/// At the end a full log has its text and nothing else, and a log that wasn't begun has nothing.
pub fn held_by_several_logs()
    ensures both { HoldLogs None in_two_logs
        (held_up_to_its_end text_of_first ∷ held_up_to_its_end text_in_second_log ∷ []) }
    ensures more_in_a_full_log { HoldLogs None in_two_logs
        (held_up_to_its_end (text_of_first ++ zeros 1) ∷ held_up_to_its_end text_in_second_log ∷ []) → ⊥ }
    // The first log was full, and its sync failed, so the second one wasn't begun.
    ensures sync_failed { (x : List ℕ) → HoldLogs (Some x) (((entry_of 1 Sync put_a ∷ []) ∷ []) ∷ [])
        (held_up_to_its_end text_of_first ∷ held_up_to_its_end [] ∷ []) }
    // A run that wrote to it before that sync can't take this back.
    ensures written_before_the_sync { (x : List ℕ) → HoldLogs (Some x) (((entry_of 1 Sync put_a ∷ []) ∷ []) ∷ [])
        (held_up_to_its_end text_of_first ∷ held_up_to_its_end (zeros 1) ∷ []) → ⊥ }
{}

/// A log is left for the next one as the first group comes that finds it full, neither later nor earlier. The log of
/// one group has 24 bytes.
pub fn filled_one_after_another()
    ensures in_two { AreFilledTo 24 0 (map records_of in_two_logs) }
    ensures third_not_begun { AreFilledTo 24 1 (map records_of in_two_logs) }
    // The last log of all has no limit.
    ensures in_the_last { AreFilledTo 24 0 (records_of two_groups ∷ []) }
    ensures left_late { AreFilledTo 24 1 (records_of two_groups ∷ []) → ⊥ }
    ensures left_early { AreFilledTo 25 0 (map records_of in_two_logs) → ⊥ }
{}
