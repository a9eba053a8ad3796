//! Reads of the log: the records that they may give, and the counts of faults with which they may end.

ghost use Rattle.std.specs.Prelude.{◌≡◌, ◌≤◌, ◌<◌, ◌-◌, ◌^◌, ℕ, List, [], ◌∷◌, map, Some, None};
ghost use Rattle.model_base.specs.Batch.{count_of};
ghost use Rattle.model_base.specs.History.{Entry};
ghost use Rattle.model_base.specs.LogContents.{AreGroupsOf, record_of_entries};
ghost use Rattle.model_base.specs.Outcomes.{AreOwnFaults};
ghost use Rattle.model_base.specs.Recovery.{Logged};
ghost use Rattle.model_base.specs.Replies.{IsLogRead};
ghost use Rattle.model_base.specs.Since.{since, records_in};
ghost use Rattle.model_base.specs.Text.{hex};
ghost use Rattle.model_rows.specs.Examples.{put_b2};
ghost use Rattle.model_rows.specs.Runs.{entry_at};
ghost use Rattle.model_rows.specs.LogReads.{entry_a, entry_b, entry_c, three_commits, two_groups, both_records, hex_a, hex_b, hex_c, over_new_log, read_from, read_up_to, note_alone, kept_a};

/// The log has a record for the first commit and one for the third, and none for the second, which went past it. Both
/// can't be in one record, since their sequences don't follow one another.
pub fn records_of_commits()
    ensures two { AreGroupsOf three_commits two_groups }
    ensures bytes { map (λ e. hex (record_of_entries (e ∷ []))) three_commits ≡ hex_a ∷ hex_b ∷ hex_c ∷ [] }
    ensures not_one { AreGroupsOf three_commits ((entry_a ∷ entry_c ∷ []) ∷ []) → ⊥ }
{}

/// The records from a sequence on: the whole record that has the sequence, even if it begins before, and all behind it.
/// A sequence that isn't in the log asks for those above it.
pub fn records_from_a_sequence()
    ensures all { map hex (since 0 3 both_records) ≡ hex_a ∷ hex_c ∷ [] }
    ensures from_the_first { map hex (since 1 3 both_records) ≡ hex_a ∷ hex_c ∷ [] }
    ensures from_one_not_logged { map hex (since 2 3 both_records) ≡ hex_c ∷ [] }
    ensures from_the_last { map hex (since 3 3 both_records) ≡ hex_c ∷ [] }
    ensures above { since 4 3 both_records ≡ [] }
    ensures inside_a_record { since 2 2 (records_in [] ((entry_a ∷ entry_at 2 2 put_b2 ∷ []) ∷ []))
        ≡ since 0 2 (records_in [] ((entry_a ∷ entry_at 2 2 put_b2 ∷ []) ∷ [])) }
{}

/// A record that can't be read yet isn't given, though the log has it already.
pub fn records_up_to_a_sequence()
    ensures none { since 0 0 both_records ≡ [] }
    ensures first { map hex (since 0 1 both_records) ≡ hex_a ∷ [] }
    ensures first_again { map hex (since 0 2 both_records) ≡ hex_a ∷ [] }
{}

/// The records that the log kept come before those of the run. One that takes no sequence is passed over, whatever
/// sequence is asked for.
pub fn records_kept_before()
    ensures before { map hex (since 0 3 (records_in (kept_a ∷ []) ((entry_c ∷ []) ∷ []))) ≡ hex_a ∷ hex_c ∷ [] }
    ensures note { map hex (since 0 3 (records_in (note_alone ∷ kept_a ∷ []) ((entry_c ∷ []) ∷ [])))
        ≡ hex_a ∷ hex_c ∷ [] }
    ensures none_counted { (s at : ℕ) (b : Logged) (kept : List Logged) (groups : List (List Entry))
        → count_of b.records ≡ 0
        → since s at (records_in (b ∷ kept) groups) ≡ since s at (records_in kept groups) }
{}

/// A read of the log when all three commits could be read gives both records, in order, and nothing else. From a later
/// sequence on it gives those of them that the definition says. None is up to a sequence that wasn't given.
pub fn right_reads()
    ensures both { IsLogRead over_new_log (read_up_to 3 (since 0 3 both_records)) }
    ensures only { (records : List (List ℕ)) → IsLogRead over_new_log (read_up_to 3 records)
        → map hex records ≡ hex_a ∷ hex_c ∷ [] }
    ensures from_any { (s : ℕ) (records : List (List ℕ)) → IsLogRead over_new_log (read_from s 3 records)
        → records ≡ since s 3 both_records }
    ensures not_later { (s at : ℕ) (records : List (List ℕ)) → 3 < at
        → IsLogRead over_new_log (read_from s at records) → ⊥ }
{}

/// So no right read gives a record twice, leaves one out, gives them in another order, or gives one of the commit that
/// went past the log.
pub fn wrong_reads()
    ensures twice { (records : List (List ℕ)) → map hex records ≡ hex_a ∷ hex_a ∷ hex_c ∷ []
        → IsLogRead over_new_log (read_up_to 3 records) → ⊥ }
    ensures left_out { (records : List (List ℕ)) → map hex records ≡ hex_a ∷ []
        → IsLogRead over_new_log (read_up_to 3 records) → ⊥ }
    ensures in_another_order { (records : List (List ℕ)) → map hex records ≡ hex_c ∷ hex_a ∷ []
        → IsLogRead over_new_log (read_up_to 3 records) → ⊥ }
    ensures not_logged { (records : List (List ℕ)) → map hex records ≡ hex_a ∷ hex_b ∷ hex_c ∷ []
        → IsLogRead over_new_log (read_up_to 3 records) → ⊥ }
{}

/// The counts of faults with which reads ended: each is one that the disk reached, no other read's, and not the one
/// with which the log failed.
pub fn faults_of_reads()
    ensures different { AreOwnFaults 3 (Some 2) (1 ∷ 3 ∷ []) }
    ensures without_a_fault_of_the_log { AreOwnFaults 2 None (2 ∷ 1 ∷ []) }
    // where the count can't rise any more
    ensures at_the_greatest { AreOwnFaults (2 ^ 64 - 1) (Some (2 ^ 64 - 1)) ((2 ^ 64 - 1) ∷ (2 ^ 64 - 1) ∷ []) }
    ensures not_of_the_log { AreOwnFaults 2 (Some 2) (2 ∷ []) → ⊥ }
    ensures not_twice { AreOwnFaults 2 None (1 ∷ 1 ∷ []) → ⊥ }
    ensures not_unreached { AreOwnFaults 2 None (3 ∷ []) → ⊥ }
{}
