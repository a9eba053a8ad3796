//! Where no record names a family, the definitions say what they would say if there were no families.

ghost use Rattle.std.specs.Prelude.{◌≡◌, ◌≤◌, ℕ, Bool, List, [], ◌∷◌, ◌++◌, length, map, filter, flat_map, codes, decimal};
ghost use Rattle.std.specs.List.{AllByRecursion};
ghost use Rattle.model_base.specs.declared.write.WriteOptions.{WriteOptions};
ghost use Rattle.model_base.specs.Batch.{Record, record_bytes, tag_of, strings_of, varstring};
ghost use Rattle.model_base.specs.Calls.{Reply, get, many, scan};
ghost use Rattle.model_base.specs.Map.{Rows, after_records, is_between, key_at, row_at, rows_within, value_at};
ghost use Rattle.model_base.specs.Progress.{Progress, early_refusal};
ghost use Rattle.model_base.specs.Replies.{Gets, GetsMany, Scans, Replies};
ghost use Rattle.model_base.specs.Text.{line, state_text};
ghost use Rattle.model_base.specs.Trace.{Trace, Settings};
ghost use Rattle.model_rows.specs.OneFamily.{NamesNone, default_pairs, refused_early, rows_after};

/// A record that names no family is its tag and its strings.
pub fn bytes_without_families()
    ensures spelled { (r : Record) → NamesNone r → record_bytes r ≡ tag_of r ∷ flat_map varstring (strings_of r) }
{}

/// Records that name no family do to the default one what they do to the one map, and it is read in the same way.
pub fn maps_without_families()
    ensures after { (rows : Rows) (records : List Record) → AllByRecursion NamesNone records
        → after_records (default_pairs rows) records ≡ default_pairs (rows_after rows records) }
    ensures found { (rows : Rows) (key : List ℕ) → value_at (default_pairs rows) (key_at 0 key) ≡ row_at rows key }
    ensures between { (rows : Rows) (lo hi : List ℕ)
        → rows_within 0 lo hi (default_pairs rows) ≡ filter (λ r. is_between lo hi r.0) rows }
{}

/// A commit of such records is refused as where there are no families, whatever number of them there is.
pub fn checks_without_families()
    ensures refused { (families batch_bytes : ℕ) (stopping : Bool) (records : List Record) (how : WriteOptions)
        → 1 ≤ families → AllByRecursion NamesNone records
        → early_refusal families batch_bytes stopping records how ≡ refused_early batch_bytes stopping records how }
{}

/// A read of keys of the default family is never refused, so its replies are those of a read of the map.
pub fn reads_without_families()
    ensures got { (settings : Settings) (trace : Trace) (client : ℕ) (p q : Progress) (key : List ℕ) (reply : Reply)
        → 1 ≤ settings.families → (Replies settings trace client p (get (key_at 0 key)) reply q
        → Gets trace p (key_at 0 key) reply q)
        × (Gets trace p (key_at 0 key) reply q → Replies settings trace client p (get (key_at 0 key)) reply q) }
    ensures got_many { (settings : Settings) (trace : Trace) (client : ℕ) (p q : Progress) (keys : List (List ℕ))
        (reply : Reply) → 1 ≤ settings.families
        → (Replies settings trace client p (many (map (key_at 0) keys)) reply q
        → GetsMany trace p (map (key_at 0) keys) reply q) × (GetsMany trace p (map (key_at 0) keys) reply q
        → Replies settings trace client p (many (map (key_at 0) keys)) reply q) }
    ensures scanned { (settings : Settings) (trace : Trace) (client : ℕ) (p q : Progress) (lo hi : List ℕ)
        (reply : Reply) → 1 ≤ settings.families
        → (Replies settings trace client p (scan 0 lo hi) reply q → Scans trace p 0 lo hi reply q)
        × (Scans trace p 0 lo hi reply q → Replies settings trace client p (scan 0 lo hi) reply q) }
{}

/// The state is printed as where there are no families.
pub fn texts_without_families()
    ensures state { (word : List ℕ → List ℕ) (last : ℕ) (rows : Rows) → state_text word last (default_pairs rows)
        ≡ line (codes "state" ∷ decimal last ∷ decimal (length rows) ∷ [])
        ++ flat_map (λ r. line (word r.0 ∷ word r.1 ∷ [])) rows }
{}
