//! Groups of one or two commits, and calls that may have written a log for them.

ghost use Rattle.std.specs.Prelude.{◌≡◌, ℕ, true, false, List, [], ◌∷◌, Option, Some, None};
ghost use Rattle.model_base.specs.Trace.{Trace};
ghost use Rattle.model_base.specs.Attempts.{Attempt, succeeded, faulted};
ghost use Rattle.model_base.specs.Groups.{Group};
ghost use Rattle.model_base.specs.LogContents.{GroupCall};
ghost use Rattle.model_runs.specs.Written.{WritesLog};
ghost use Rattle.model_runs.specs.Examples.{put_a, put_b};
ghost use Rattle.model_runs.specs.GroupExamples.{delays_by, turned_round, pair_entries, pair_commits, in_one_group, in_two_groups, one_call_for_both, a_call_for_each, three_commits, pair_then_one, one_then_pair, failed_call, fault_ignored, lost_then_kept_out, kept_out_then_lost, kept_out_entry, both_faulted, kept_out_first};

/// Client 1 commits `put a 1`, and client 2 `put b 2`; both succeed. The log has one record for each group.
pub fn one_record_for_each_group()
    // One leader takes both, and they are one record, which isn't synced, since nobody asked for it.
    ensures one_group { (group_bytes : ℕ) (trace : Trace) → trace.entries ≡ pair_entries
        → trace.logged ≡ pair_entries ∷ [] → trace.log_calls ≡ one_call_for_both false
        → trace.controller_calls ≡ delays_by (1 ∷ [])
        → WritesLog group_bytes (λ calls. calls ≡ one_call_for_both false) trace (pair_commits succeeded) in_one_group
        None }
    // So each of them isn't a record of its own,
    ensures each_alone { (group_bytes : ℕ) (trace : Trace) (fault : Option ℕ) → trace.entries ≡ pair_entries
        → WritesLog group_bytes (λ calls. calls ≡ a_call_for_each) trace (pair_commits succeeded) in_one_group fault
        → ⊥ }
    // no call was asked to sync,
    ensures synced_unasked { (group_bytes : ℕ) (trace : Trace) (fault : Option ℕ) → trace.entries ≡ pair_entries
        → WritesLog group_bytes (λ calls. calls ≡ one_call_for_both true) trace (pair_commits succeeded) in_one_group
        fault → ⊥ }
    // and it was client 1, the first member, that asked for the group's delay.
    ensures asked_by_another { (group_bytes : ℕ) (calls : List GroupCall) (trace : Trace) (fault : Option ℕ)
        → trace.controller_calls ≡ delays_by (2 ∷ [])
        → WritesLog group_bytes (λ made. made ≡ calls) trace (pair_commits succeeded) in_one_group fault → ⊥ }
    // Where each is in a group of its own, they aren't one record,
    ensures two_groups_in_one_record { (group_bytes : ℕ) (trace : Trace) (fault : Option ℕ)
        → WritesLog group_bytes (λ calls. calls ≡ one_call_for_both false) trace (pair_commits succeeded)
        (in_two_groups 0 1) fault → ⊥ }
    // and the first delay was asked for the group that was first, however the log was written.
    ensures out_of_order { (group_bytes : ℕ) (calls : List GroupCall) (trace : Trace) (attempts : List (List Attempt))
        (fault : Option ℕ)
        → WritesLog group_bytes (λ made. made ≡ calls) trace attempts (in_two_groups 1 0) fault → ⊥ }
    // Where client 3's commit is in a group after that of the other two, its batch isn't in the record of client 2's.
    ensures member_of_another_group { (group_bytes : ℕ) (trace : Trace) (fault : Option ℕ)
        → WritesLog group_bytes (λ calls. calls ≡ one_then_pair) trace three_commits pair_then_one fault → ⊥ }
    // A client's second commit isn't in a group before that of its first, however they ended.
    ensures out_of_turn { (group_bytes : ℕ) (calls : List GroupCall) (trace : Trace) (attempts : List (List Attempt))
        (fault : Option ℕ)
        → WritesLog group_bytes (λ made. made ≡ calls) trace attempts turned_round fault → ⊥ }
{}

/// The first write of the log fails. Client 1 commits `put a 1`, and client 2 `put b 2`.
pub fn failed_logs_stay_failed()
    // Both commits are answered the fault. The call was made for client 1's, which was first,
    ensures first_lost { (trace : Trace) → trace.start ≡ 0 → trace.entries ≡ [] → trace.logged ≡ []
        → trace.log_calls ≡ failed_call 1 put_a false
        → trace.controller_calls ≡ delays_by (1 ∷ 2 ∷ [])
        → WritesLog 1048576 (λ calls. calls ≡ failed_call 1 put_a false) trace (pair_commits (faulted 1))
        (in_two_groups 0 1) (Some 1) }
    // and not for client 2's. Nor was it asked to sync, or to write a run that begins later.
    ensures second_lost { (group_bytes : ℕ) (trace : Trace) (fault : Option ℕ)
        → WritesLog group_bytes (λ calls. calls ≡ failed_call 1 put_b false) trace (pair_commits (faulted 1))
        (in_two_groups 0 1) fault → ⊥ }
    ensures lost_with_a_sync { (group_bytes : ℕ) (trace : Trace) (fault : Option ℕ)
        → WritesLog group_bytes (λ calls. calls ≡ failed_call 1 put_a true) trace (pair_commits (faulted 1))
        (in_two_groups 0 1) fault → ⊥ }
    ensures lost_later { (group_bytes : ℕ) (trace : Trace) (groups : List Group) (fault : Option ℕ) → trace.start ≡ 0
        → trace.entries ≡ [] → WritesLog group_bytes (λ calls. calls ≡ failed_call 2 put_a false) trace
        (pair_commits (faulted 1)) groups fault → ⊥ }
    // Nor was it made for a group that its leader kept out of the log.
    ensures lost_though_kept_out { (group_bytes : ℕ) (trace : Trace) (fault : Option ℕ)
        → WritesLog group_bytes (λ calls. calls ≡ failed_call 1 put_a false) trace both_faulted kept_out_first fault
        → ⊥ }
    // Client 2's commit has `nolog`, and the output is `no logfault 1` and `ok 1 1`. If client 1's group was led first,
    // client 2's commit succeeded after the fault: no log was written so, whatever calls are named.
    ensures written_after_a_fault { (group_bytes : ℕ) (calls : List GroupCall) (trace : Trace) (fault : Option ℕ)
        → WritesLog group_bytes (λ made. made ≡ calls) trace fault_ignored lost_then_kept_out fault → ⊥ }
    // If client 2's group was led first, its commit came before the fault, and the call failed after it. No reply shows
    // which group was led first.
    ensures kept_out_before_the_fault { (trace : Trace) → trace.start ≡ 0 → trace.entries ≡ kept_out_entry ∷ []
        → trace.logged ≡ [] → trace.log_calls ≡ failed_call 2 put_a false
        → trace.controller_calls ≡ delays_by (2 ∷ 1 ∷ [])
        → WritesLog 1048576 (λ calls. calls ≡ failed_call 2 put_a false) trace fault_ignored kept_out_then_lost
        (Some 1) }
{}
