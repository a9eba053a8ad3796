//! What follows from the commits: for each client from its newest answer, and for all clients at the closing.

ghost use mathlib.Core.List.{IsPrefix};
ghost use Rattle.std.specs.Prelude.{◌≡◌, ◌+◌, ◌<◌, ◌≤◌, ℕ, List, [], ◌∷◌, ◌++◌, length, take, Option, None, Some, IfSome, true};
ghost use Rattle.model_base.specs.declared.write.Refusal.TheVariants.{Incomplete, LogFault, SequenceFull};
ghost use Rattle.model_base.specs.declared.write.WriteOptions.{WriteOptions};
ghost use Rattle.model_base.specs.History.{max_sequence};
ghost use Rattle.model_base.specs.Batch.{Record};
ghost use Rattle.model_base.specs.Controller.{ControllerCall, Look, HoldUp, IsLegal, delay, look};
ghost use Rattle.model_base.specs.LogContents.{GroupCall, IsLoggedBy};
ghost use Rattle.model_base.specs.Progress.{early_refusal};
ghost use Rattle.model_base.specs.Replies.{IsLater, MetStall};
ghost use Rattle.model_base.specs.Tokens.{tokens_of, holds_stop, shown_by_tokens, AreHeard};
ghost use Rattle.model_base.specs.Counts.{Rose};
ghost use Rattle.model_base.specs.Recovery.{Logged};
ghost use Rattle.model_base.specs.Since.{LogRead};
ghost use Rattle.model_base.specs.Trace.{Settings};
ghost use Rattle.table_rule.specs.Histories.{Begins, made_by, last_of};
ghost use Rattle.model_accounts.specs.Accounts.{Account, FailsToRead, Keeps, ReadsLog, Wrote};
ghost use Rattle.model_accounts.specs.Closing.{HasOneTrace};
ghost use Rattle.engine_controller.specs.Passes.{EndsWith};
ghost use Rattle.engine_rule.specs.Commits.{Commit, accepted, held_up, failed, no_room, last_after_all, AreAnswered};
ghost use Rattle.engine_rule.specs.Asked.{place_of, decided_of};
ghost use Rattle.engine_rule.specs.Entries.{versions_made, ClientCall, account_before, account_with, account_told, HasSeenMore, IsFree, IsNewest, IsWithin, ShowsBatch, EndsRefused, StaysOutside, AreCallsOf};
ghost use Rattle.engine_rule.specs.Reading.{gave, broke, lacked};
ghost use Rattle.engine_rule.specs.LogSights.{WrittenBatch, LogSight, sights_of, logged_by, worked_in, ShowTheLog};
ghost use Rattle.engine_rule.specs.Consistent.{Standing, IsConsistent, AreAccountsOf, AreReadsRight};

/// From `last` on, as many sequences are given as the commits make versions. Where `last` isn't above the greatest
/// sequence, the sequence that is given last isn't either.
pub fn numbers_of_commits()
    ensures reach { (last : ℕ) (fault : Option ℕ) (commits : List Commit) → AreAnswered last fault commits
        → last + length (made_by versions_made commits) ≡ last_after_all last commits }
    ensures below { (last : ℕ) (fault : Option ℕ) (commits : List Commit) → AreAnswered last fault commits
        → last ≤ max_sequence → last_after_all last commits ≤ max_sequence }
{}

/// Where all answers are right, the newest answer to a client that holds no stop token gives its account an accepted
/// batch, once the client has seen the batch's whole group, or a refusal. It doesn't matter which answers the others
/// got, or what more the client has seen since of what is published and of the controller. A commit that may not wait
/// may also be refused in no group, by a look: because its client holds a stop token, or because it met a stall.
pub fn accounts_of_the_commits()
    // nobody who took a token or gave one back before the leader decided had been shown the batch
    ensures wrote { (settings : Settings) (k : ClientCall) (commits : List Commit) (c : Commit) (first group_last : ℕ)
        → IsNewest k commits c → HasSeenMore k → IsFree k → c.answer ≡ accepted first group_last
        → early_refusal settings.families settings.batch_bytes (holds_stop (tokens_of k.client k.known)) c.records
        c.options ≡ None
        → last_of k.start k.before < first → group_last ≤ last_of k.start k.after
        → (s : LogSight) → IsWithin k c s → ShowsBatch c first s
        → shown_by_tokens (take (decided_of c) k.now) < first
        → Wrote settings (account_before k) c.records c.options first group_last (account_with k c s) }
    // where writes are held up, or the log failed, nothing needs to be known of the other answers
    ensures held_up { (k : ClientCall) (c : Commit) (numbers : Look) (by moment bytes : ℕ)
        → HasSeenMore k → IsFree k → c.answer ≡ held_up numbers → c.options.no_slowdown ≡ true → HoldUp numbers
        → IsLater k.now (length k.known) (place_of c)
        (record { client = by; action = delay moment bytes; told = Some numbers })
        → (s : LogSight) → IsWithin k c s
        → EndsRefused k c s (Incomplete numbers.stops numbers.delays numbers.wait) }
    ensures failed { (k : ClientCall) (c : Commit) (count : ℕ) → HasSeenMore k → IsFree k
        → c.answer ≡ failed count → (s : LogSight) → IsWithin k c s
        → EndsRefused k c s (LogFault count) }
    ensures full { (k : ClientCall) (commits : List Commit) (c : Commit) (last : ℕ) → IsNewest k commits c
        → HasSeenMore k → IsFree k → c.answer ≡ no_room last → last_of k.start k.before ≤ last
        → (s : LogSight) → IsWithin k c s → EndsRefused k c s (SequenceFull last) }
    // a client that holds a stop token looked itself, and its commit is in no group
    ensures looked { (k : ClientCall) (records : List Record) (how : WriteOptions) (numbers : Look)
        → Begins k.before k.after → holds_stop (tokens_of k.client k.known) ≡ true
        → EndsWith k.client k.known look (Some numbers) k.now → how.no_slowdown ≡ true
        → HoldUp numbers → StaysOutside k records how (Incomplete numbers.stops numbers.delays numbers.wait) }
    // a commit that met a stall is in no group either: its client looked itself, or the leader that stalls writes did
    ensures stalled { (k : ClientCall) (records : List Record) (how : WriteOptions) (numbers : Look) (by place : ℕ)
        → HasSeenMore k → IsFree k → how.no_slowdown ≡ true
        → IsLater k.now (length k.known) place (record { client = by; action = look; told = Some numbers })
        → MetStall k.now k.client by place numbers
        → StaysOutside k records how (Incomplete numbers.stops numbers.delays numbers.wait) }
{}

/// What the answer to a read of the log says of the client's account, once the client has seen what is published up to
/// the sequence at which the log was read. Whether the records are right is said at the closing.
pub fn accounts_of_the_reads()
    ensures gave { (k : ClientCall) (r : LogRead) → HasSeenMore k → r.at ≡ last_of k.start k.after
        → ReadsLog (account_before k) r.since r.at r.records (account_told k (gave r)) }
    ensures broke { (settings : Settings) (k : ClientCall) (count : ℕ) → HasSeenMore k → Rose settings.opened count
        → FailsToRead settings (account_before k) count (account_told k (broke count)) }
    ensures lacked { (k : ClientCall) → HasSeenMore k → Keeps (account_before k) (account_told k lacked) }
{}

/// Where the answers to all commits show calls of the log writer that worked, a client's newest answer shows no fewer
/// than those before it. If its batch went into the log, one of the calls wrote it that the client knows of since.
pub fn sights_of_a_client()
    ensures newest { (worked : List GroupCall) (sights : List LogSight) → ShowTheLog worked sights → (client : ℕ)
        (old : List LogSight) (s : LogSight) → sights_of client sights ≡ old ++ s ∷ []
        → (logged_by old ≤ s.made) × (s.made ≤ length worked)
        × IfSome s.batch (λ (b : WrittenBatch). IsLoggedBy worked (logged_by old) s.made b.first b.records b.sync) }
{}

/// Once all clients are at rest, their accounts are parts of one trace: of the commits and of the controller's one
/// history. What the answers to commits show of the log are calls that worked. And the log was written by exactly the
/// calls that wrote its history, one for each group that is in it: so no batch is written twice, or apart from its
/// group. What reads of the log gave is right in that trace, where the log had kept these batches.
pub fn closings()
    ensures closing { (settings : Settings) (kept : Option (List Logged)) (ended : ℕ) (s : Standing)
        (sights : List LogSight) (history : List ControllerCall) (accounts : List Account)
        → IsConsistent settings s → ShowTheLog (worked_in s.calls) sights
        → AreAccountsOf settings s sights history accounts → IsLegal history → AreHeard history
        → AreCallsOf settings.clients history
        → IsPrefix s.asked history → AreReadsRight settings kept ended s
        → HasOneTrace settings kept ended accounts s.last s.fault (λ made. made ≡ s.calls) }
{}
