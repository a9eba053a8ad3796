//! What batches do to a map, and what the history and the log have of them.

ghost use Rattle.std.specs.Prelude.{◌≡◌, ℕ, List, [], ◌∷◌, length, take, codes, true, Some, None};
ghost use Rattle.model_base.specs.declared.history.Flag.TheVariants.{Log, NoLog, Sync};
ghost use Rattle.model_base.specs.Batch.{value, deletion, single_deletion, log_data, batch};
ghost use Rattle.model_base.specs.Map.{after_records, value_at, rows_within};
ghost use Rattle.model_base.specs.Calls.{Outcome};
ghost use Rattle.model_base.specs.History.{Entry, flag_of};
ghost use Rattle.model_base.specs.Log.{Beginning, text, text_after, plain_log, new_log};
ghost use Rattle.model_base.specs.LogContents.{IsLogOf, record_of_entries, records_of};
ghost use Rattle.model_rows.specs.Examples.{put_a1, put_a2, put_b2, put_1a2, del_1a, plain, key_a, key_b, key_1a, default_key};
ghost use Rattle.model_rows.specs.Runs.{one_commit, entry_at};

/// A later record of a key replaces an earlier one. The pairs are in the byte order of their keys.
pub fn maps_of_batches()
    ensures later_value { after_records [] (put_a1 ∷ put_a2 ∷ []) ≡ (key_a, codes "2") ∷ [] }
    ensures deleted { after_records [] (put_a1 ∷ put_a2 ∷ deletion None (codes "a") ∷ []) ≡ [] }
    ensures single_deleted { after_records [] (put_a1 ∷ put_b2 ∷ single_deletion None (codes "a") ∷ [])
        ≡ (key_b, codes "2") ∷ [] }
    ensures noted { after_records [] (log_data (codes "x") ∷ put_a1 ∷ []) ≡ (key_a, codes "1") ∷ [] }
    ensures in_order { after_records [] (put_b2 ∷ put_a1 ∷ value None (codes "ab") (codes "3") ∷ [])
        ≡ (key_a, codes "1") ∷ (default_key (codes "ab"), codes "3") ∷ (key_b, codes "2") ∷ [] }
    ensures there { value_at (after_records [] (put_a1 ∷ put_a2 ∷ [])) key_a ≡ Some (codes "2") }
    ensures not_there { value_at (after_records [] (put_a1 ∷ [])) key_b ≡ None }
{}

/// Each family is a map of its own: a record of a key changes nothing of the same key in another family. The pairs are
/// by family. Where a record names family 0, it is about the default family too.
pub fn maps_of_families()
    ensures apart { after_records [] (put_1a2 ∷ put_a1 ∷ [])
        ≡ (key_a, codes "1") ∷ (key_1a, codes "2") ∷ [] }
    ensures deleted_in_one { after_records [] (put_a1 ∷ put_1a2 ∷ del_1a ∷ [])
        ≡ (key_a, codes "1") ∷ [] }
    ensures default_named { after_records [] (value (Some 0) (codes "a") (codes "1") ∷ [])
        ≡ (key_a, codes "1") ∷ [] }
    ensures rows { rows_within 1 (codes "a") (codes "b") (after_records [] (put_a1 ∷ put_1a2 ∷ []))
        ≡ (codes "a", codes "2") ∷ [] }
{}

/// The flag of a commit in the history, by its options.
pub fn flags_of_commits()
    ensures plain { flag_of plain ≡ Log }
    ensures sync { flag_of (record plain { sync = true }) ≡ Sync }
    ensures no_log { flag_of (record plain { no_log = true }) ≡ NoLog }
{}

/// Two commits of one group make one log record. The log of a run of one commit has its batch.
pub fn logs_of_histories()
    ensures one_group { record_of_entries (entry_at 1 1 put_a1 ∷ entry_at 2 2 put_b2 ∷ [])
        ≡ batch 1 (put_a1 ∷ put_b2 ∷ []) }
    ensures one_commit { IsLogOf new_log one_commit (text plain_log (batch 1 (put_a1 ∷ []) ∷ []))
        ((entry_at 1 1 put_a1 ∷ []) ∷ []) }
{}

/// What the one log holds of an outcome is its content up to the printed length.
pub fn log_up_to_its_length()
    ensures content { (b : Beginning) (o : Outcome) (content : List ℕ) (groups : List (List Entry)) (len : ℕ)
        → o.log_lens ≡ len ∷ [] → IsLogOf b o content groups
        → (take len content ≡ text_after b (records_of groups)) × (len ≡ length (text_after b (records_of groups))) }
{}
