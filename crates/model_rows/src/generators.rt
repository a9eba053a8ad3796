//! What a seed draws, and the script that it makes.

ghost use Rattle.std.specs.Prelude.{◌≡◌, [], ◌∷◌, None, codes};
ghost use Rattle.model_base.specs.Batch.{value};
ghost use Rattle.model_base.specs.Calls.{add, commit};
ghost use Rattle.model_base.specs.Generator.{first_state, numbers_from, script_of_seed, summary_text};
ghost use Rattle.model_rows.specs.Examples.{plain};
ghost use Rattle.model_rows.specs.Runs.{two_records};

/// The first draws of client 1 of the seed 1.
pub fn first_draws()
    ensures client_1_of_seed_1 { numbers_from 10 (first_state 1 1) ≡ 908 ∷ 22817 ∷ 10239 ∷ 12914 ∷ 25837 ∷ 27095 ∷ 29976
        ∷ 27865 ∷ 20302 ∷ 32531 ∷ [] }
{}

/// Its first batch has one record, a value: 908 gives the count, 22817 the key, 10239 the kind, and 12914 the value.
pub fn first_batch()
    ensures client_1_of_seed_1 { script_of_seed 1 1 1
        ≡ (add (value None (codes "c1k17") (codes "914")) ∷ commit plain ∷ []) ∷ [] }
{}

/// The summary of a run of one client that wrote two records in one batch.
pub fn summary()
    ensures of_one_batch { summary_text two_records
        ≡ codes "clients 1\nbatches 1\nrecords 2\nlast 2\nkeys 2\nsum 23\n" }
{}
