//! Images of a log of two groups, the first of which was to be synced; and calls that may have written a log.

ghost use Rattle.std.specs.Prelude.{◌≡◌, ◌++◌, ℕ, List, [], ◌∷◌, Option, None};
ghost use Rattle.model_base.specs.Trace.{Trace};
ghost use Rattle.model_base.specs.Attempts.{Attempt};
ghost use Rattle.model_base.specs.Groups.{Group};
ghost use Rattle.model_base.specs.Calls.{Outcome};
ghost use Rattle.model_base.specs.Log.{new_log};
ghost use Rattle.model_runs.specs.Crashes.{HoldsSynced, KeepsSynced, IsCrashSafe};
ghost use Rattle.model_runs.specs.Written.{WritesLog};
ghost use Rattle.model_runs.specs.Examples.{two_groups, two_entries, text_of_both, text_of_first, zeros, failed_then_worked, in_one_record, in_two_records, over_old_bytes, nothing_written};
ghost use Rattle.model_runs.specs.GroupExamples.{delays_by, own_commits, own_groups};

/// A run may not put the second group into the log before the first one is safe.
pub fn synced_before_the_next_group()
    // Until the first group is safe, an image may have any bytes in its place.
    ensures torn_before { HoldsSynced new_log two_groups 0 (zeros 24) }
    // Then it may have any bytes in the place of the second group.
    ensures torn_after { HoldsSynced new_log two_groups 0 (text_of_first ++ zeros 9) }
    // But if an image has bytes there, the first group must come before them,
    ensures nothing_before { HoldsSynced new_log two_groups 0 (zeros 25) → ⊥ }
    // unless an image could be as long before the run.
    ensures reached_before { HoldsSynced new_log two_groups 25 (zeros 25) }
    // So a run that may leave such an image isn't safe, even if all is synced at its end: it synced only at its end.
    ensures synced_at_the_end { (group_bytes : ℕ) (attempts : List (List Attempt)) (o : Outcome) (place : ℕ)
        → IsCrashSafe group_bytes attempts o new_log two_groups [] text_of_both place in_two_records [] 0
        (λ image. image ≡ zeros 25) (λ before after image. ⊥) (λ image. image ≡ text_of_both) → ⊥ }
    // Over old bytes an image is as long as they are from the first moment on. There too a run isn't safe if it leaves
    // them as they are after the first call has returned.
    ensures synced_late_over_old_bytes { KeepsSynced over_old_bytes two_groups in_two_records nothing_written → ⊥ }
{}

/// A run writes one record for each group, as the group is accepted, and none after a write that failed.
pub fn written_group_by_group()
    // Client 1 commits `put a 1`, and client 2 `put b 2`. The output is `no logfault 1` and `ok 1 1`: the run went on
    // after the failed write. No log was written so, whatever trace, commits and fault are given for it.
    ensures accepted_after_a_failed_write { (group_bytes : ℕ) (trace : Trace) (attempts : List (List Attempt))
        (groups : List Group) (fault : Option ℕ)
        → WritesLog group_bytes (λ calls. calls ≡ failed_then_worked) trace attempts groups fault → ⊥ }
    // A client commits `put a 1`, to be synced, and then `put b 2`. The output is `ok 1 1` and `ok 2 2`, and both were
    // written as one record: when the first batch was acknowledged the log was still empty.
    ensures one_record_at_the_end { (group_bytes : ℕ) (trace : Trace) (attempts : List (List Attempt))
        (groups : List Group) (fault : Option ℕ) → trace.entries ≡ two_entries
        → WritesLog group_bytes (λ calls. calls ≡ in_one_record) trace attempts groups fault → ⊥ }
    // In two records they are written as they should be.
    ensures a_record_for_each { (group_bytes : ℕ) (trace : Trace) → trace.entries ≡ two_entries
        → trace.logged ≡ two_groups → trace.log_calls ≡ in_two_records
        → trace.controller_calls ≡ delays_by (1 ∷ 1 ∷ [])
        → WritesLog group_bytes (λ calls. calls ≡ in_two_records) trace own_commits own_groups None }
{}
