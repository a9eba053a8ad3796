//! What reads see of a history of whole batches.
//!
//! A read is answered by one map at one sequence, in whichever column families its keys are. So nobody sees a batch in
//! one family and not in another. `specs/WholeBatches` has the words.

ghost use Rattle.std.specs.Prelude.{◌≡◌, ℕ, Bool, IsTrue, List, map, Option};
ghost use Rattle.model_base.specs.declared.key.Key.{Key};
ghost use Rattle.model_base.specs.Map.{Pairs, Rows, value_at, rows_within};
ghost use Rattle.model_base.specs.Calls.{get, many, scan, found, found_each, rows, Outcome};
ghost use Rattle.model_base.specs.Trace.{Settings};
ghost use Rattle.model_base.specs.Outcomes.{IsLegal};
ghost use Rattle.model_base.specs.Script.{Script};
ghost use Rattle.run_laws.specs.WholeBatches.{IsAnswered, IsMapAt, IsKept};

/// In a legal outcome each read sees whole batches: those up to the sequence that it is answered with, in all families.
pub fn reads_see_whole_batches()
    // All values of one read are those of one map.
    ensures many { (settings : Settings) (ended : ℕ) (script : Script) (o : Outcome) (client at : ℕ) (keys : List Key)
        (values : List (Option (List ℕ)))
        → IsLegal settings ended script o → IsAnswered o client (many keys) (found_each at values)
        → (m : Pairs) × IsMapAt settings o at m × (values ≡ map (value_at m) keys) }
    ensures get { (settings : Settings) (ended : ℕ) (script : Script) (o : Outcome) (client at : ℕ) (key : Key)
        (value : Option (List ℕ))
        → IsLegal settings ended script o → IsAnswered o client (get key) (found at value)
        → (m : Pairs) × IsMapAt settings o at m × (value ≡ value_at m key) }
    ensures scan { (settings : Settings) (ended : ℕ) (script : Script) (o : Outcome) (client at family : ℕ)
        (lo hi : List ℕ) (pairs : Rows)
        → IsLegal settings ended script o → IsAnswered o client (scan family lo hi) (rows at pairs)
        → (m : Pairs) × IsMapAt settings o at m × (pairs ≡ rows_within family lo hi m) }
    // Reads that are answered with the same sequence see the same map.
    ensures same { (settings : Settings) (ended : ℕ) (script : Script) (o : Outcome) (at : ℕ) (m n : Pairs)
        → IsLegal settings ended script o → IsMapAt settings o at m → IsMapAt settings o at n → m ≡ n }
    // What each whole batch keeps of the map of all families holds of each map that a read sees.
    ensures kept { (settings : Settings) (o : Outcome) (at : ℕ) (m : Pairs) (holds : Pairs → Bool)
        → IsKept settings o holds → IsMapAt settings o at m → IsTrue (holds m) }
{}
