//! Each kind of call, by what it says of its client, is a step of the client.

ghost use Rattle.std.specs.Prelude.{◌≡◌, ◌+◌, ◌++◌, ℕ, true, false, List, [], ◌∷◌, Option, Some, None, map};
ghost use Rattle.model_base.specs.declared.write.WriteOptions.{WriteOptions};
ghost use Rattle.model_base.specs.declared.write.Refusal.{Refusal};
ghost use Rattle.model_base.specs.declared.write.Refusal.TheVariants.{NoMemory, NoFamily, SelfStop};
ghost use Rattle.model_base.specs.Batch.{Record, count_of};
ghost use Rattle.model_base.specs.declared.key.Key.{Key};
ghost use Rattle.model_base.specs.Map.{Rows, value_at, rows_within};
ghost use Rattle.model_base.specs.Progress.{first_missing};
ghost use Rattle.model_base.specs.Controller as controller;
ghost use Rattle.model_base.specs.Tokens.{holds_stop, holds_slow};
ghost use Rattle.model_base.specs.Trace.{Settings};
ghost use Rattle.model_base.specs.Calls.{add, clear, commit, get, many, scan, updates, stop, unstop, slow, unslow};
ghost use Rattle.model_base.specs.Calls.{quiet, accepted, refused, found, found_each, rows, updates_found, read_failed, done, held, not_held};
ghost use Rattle.model_accounts.specs.Accounts.{Account, KnowsOwnTokens, Keeps, Wrote, Refuses, Reads, ReadsLog, FailsToRead, Asks};
ghost use Rattle.model_accounts.specs.ClientRuns.{Goes, Lacks};

/// A record that is added, a batch that is emptied, and a commit with its answer.
pub fn commits_are_steps()
    ensures added { (settings : Settings) (v : Account) (pending : List Record) (r : Record) → KnowsOwnTokens v
        → Goes settings v pending (add r) quiet v (pending ++ r ∷ []) }
    ensures cleared { (settings : Settings) (v : Account) (pending : List Record) → KnowsOwnTokens v
        → Goes settings v pending clear quiet v [] }
    ensures accepted { (settings : Settings) (v : Account) (pending : List Record) (how : WriteOptions)
        (first last group_last : ℕ) (w : Account)
        → last + 1 ≡ first + count_of pending → Wrote settings v pending how first group_last w
        → Goes settings v pending (commit how) (accepted first last pending) w [] }
    ensures refused { (settings : Settings) (v : Account) (pending : List Record) (how : WriteOptions) (why : Refusal)
        (w : Account)
        → (why ≡ NoMemory → ⊥) → Refuses settings v pending how why w
        → Goes settings v pending (commit how) (refused why) w pending }
    ensures out_of_memory { (settings : Settings) (v : Account) (pending : List Record) (how : WriteOptions)
        (w : Account)
        → Refuses settings v pending how NoMemory w → Lacks settings v pending (commit how) w }
{}

/// A read with its answer, at the last sequence that the client has then seen published. The families that it names are
/// there.
pub fn reads_are_steps()
    ensures get { (settings : Settings) (v : Account) (pending : List Record)
        (key : Key) (at : ℕ) (value : Option (List ℕ)) (w : Account)
        → first_missing settings.families (key.family ∷ []) ≡ None
        → Keeps v w → Reads at (λ m. value ≡ value_at m key) w
        → Goes settings v pending (get key) (found at value) w pending }
    ensures many { (settings : Settings) (v : Account) (pending : List Record)
        (keys : List Key) (at : ℕ) (values : List (Option (List ℕ))) (w : Account)
        → first_missing settings.families (map (λ (k : Key). k.family) keys) ≡ None
        → Keeps v w → Reads at (λ m. values ≡ map (value_at m) keys) w
        → Goes settings v pending (many keys) (found_each at values) w pending }
    ensures scan { (settings : Settings) (v : Account) (pending : List Record)
        (family : ℕ) (lo hi : List ℕ) (at : ℕ) (pairs : Rows) (w : Account)
        → first_missing settings.families (family ∷ []) ≡ None
        → Keeps v w → Reads at (λ m. pairs ≡ rows_within family lo hi m) w
        → Goes settings v pending (scan family lo hi) (rows at pairs) w pending }
{}

/// A read that is refused, since there isn't one of the families that it names: `family` is the first such one.
pub fn refused_reads_are_steps()
    ensures get { (settings : Settings) (v : Account) (pending : List Record) (key : Key) (family : ℕ) (w : Account)
        → first_missing settings.families (key.family ∷ []) ≡ Some family → Keeps v w
        → Goes settings v pending (get key) (refused (NoFamily family)) w pending }
    ensures many { (settings : Settings) (v : Account) (pending : List Record) (keys : List Key) (family : ℕ)
        (w : Account)
        → first_missing settings.families (map (λ (k : Key). k.family) keys) ≡ Some family → Keeps v w
        → Goes settings v pending (many keys) (refused (NoFamily family)) w pending }
    ensures scan { (settings : Settings) (v : Account) (pending : List Record) (named : ℕ) (lo hi : List ℕ)
        (family : ℕ) (w : Account)
        → first_missing settings.families (named ∷ []) ≡ Some family → Keeps v w
        → Goes settings v pending (scan named lo hi) (refused (NoFamily family)) w pending }
{}

/// A read of the log with its records, at the last sequence that the client has then seen published; or it failed, or
/// the client holds a stop token, or there was no memory.
pub fn reads_of_the_log_are_steps()
    ensures found { (settings : Settings) (v : Account) (pending : List Record) (s at : ℕ) (records : List (List ℕ))
        (w : Account) → holds_stop v.asked ≡ false → ReadsLog v s at records w
        → Goes settings v pending (updates s) (updates_found at records) w pending }
    ensures failed { (settings : Settings) (v : Account) (pending : List Record) (s count : ℕ) (w : Account)
        → holds_stop v.asked ≡ false → FailsToRead settings v count w
        → Goes settings v pending (updates s) (read_failed count) w pending }
    ensures refused { (settings : Settings) (v : Account) (pending : List Record) (s : ℕ) (w : Account)
        → holds_stop v.asked ≡ true → Keeps v w → Goes settings v pending (updates s) (refused SelfStop) w pending }
    ensures out_of_memory { (settings : Settings) (v : Account) (pending : List Record) (s : ℕ) (w : Account)
        → holds_stop v.asked ≡ false → Keeps v w → Lacks settings v pending (updates s) w }
{}

/// A stop token is taken or given back, or is already held, or isn't held.
pub fn stops_are_steps()
    ensures taken { (settings : Settings) (v : Account) (pending : List Record) (w : Account) (shown : ℕ)
        → holds_stop v.asked ≡ false → Asks v (controller.stop shown) w
        → Goes settings v pending stop done w pending }
    ensures held { (settings : Settings) (v : Account) (pending : List Record) (w : Account)
        → holds_stop v.asked ≡ true → Keeps v w → Goes settings v pending stop held w pending }
    ensures given_back { (settings : Settings) (v : Account) (pending : List Record) (w : Account) (shown : ℕ)
        → holds_stop v.asked ≡ true → Asks v (controller.unstop shown) w
        → Goes settings v pending unstop done w pending }
    ensures not_held { (settings : Settings) (v : Account) (pending : List Record) (w : Account)
        → holds_stop v.asked ≡ false → Keeps v w → Goes settings v pending unstop not_held w pending }
{}

/// The same for a slow token.
pub fn slowdowns_are_steps()
    ensures taken { (settings : Settings) (v : Account) (pending : List Record) (rate : ℕ) (w : Account) (shown : ℕ)
        → holds_slow v.asked ≡ false → Asks v (controller.slow rate shown) w
        → Goes settings v pending (slow rate) done w pending }
    ensures held { (settings : Settings) (v : Account) (pending : List Record) (rate : ℕ) (w : Account)
        → holds_slow v.asked ≡ true → Keeps v w → Goes settings v pending (slow rate) held w pending }
    ensures given_back { (settings : Settings) (v : Account) (pending : List Record) (w : Account) (shown : ℕ)
        → holds_slow v.asked ≡ true → Asks v (controller.unslow shown) w
        → Goes settings v pending unslow done w pending }
    ensures not_held { (settings : Settings) (v : Account) (pending : List Record) (w : Account)
        → holds_slow v.asked ≡ false → Keeps v w → Goes settings v pending unslow not_held w pending }
{}
