//! A leader that handles its group keeps history, log, table and answers consistent.

ghost use Rattle.std.specs.Prelude.{◌≡◌, ◌+◌, ℕ, List, [], ◌∷◌, ◌++◌, length, Option, None, Some};
ghost use Rattle.model_base.specs.Controller.{HoldUp};
ghost use Rattle.model_base.specs.LogContents.{GroupCall};
ghost use Rattle.model_base.specs.Recovery.{Logged};
ghost use Rattle.model_base.specs.Since.{LogRead};
ghost use Rattle.model_base.specs.Trace.{Settings};
ghost use Rattle.table_rule.specs.declared.content.MemberVersions.{MemberVersions};
ghost use Rattle.table_rule.specs.Histories.{Runs};
ghost use Rattle.engine_rule.specs.Plans.{CommitRequest, HaveOwnClients, LeadersGroup, IsBuilt, GoesAhead, last_with_all, versions_from, all_held_up, MayNotWait};
ghost use Rattle.engine_rule.specs.LogCalls.{WritesBatches, LogsGroup};
ghost use Rattle.engine_rule.specs.LogSights.{LogSight, sights_with, sights_without, worked_in, ShowTheLog};
ghost use Rattle.engine_rule.specs.Reading.{AreRight, IsRight};
ghost use Rattle.engine_rule.specs.Consistent.{AreConsistent, Standing, IsConsistent, answered, with_runs, with_fault, Publishes};

/// The versions of a group are one run. It begins after `last`, the last sequence given, and ends with the sequence
/// that is given last with the group.
pub fn runs_of_a_group()
    ensures runs { (last : ℕ) (requests : List CommitRequest) → Runs last (versions_from last requests) }
    ensures ends { (last : ℕ) (requests : List CommitRequest)
        → last + length (versions_from last requests) ≡ last_with_all last requests }
{}

/// At the beginning the state is consistent, and each way in which a leader's work may end keeps it so.
pub fn groups_stay_consistent()
    ensures first { (start clients group_bytes : ℕ) → AreConsistent start clients group_bytes [] [] start None [] [] }
    // the members whose runs fit have them, the log has their batches, unless it must stay without them, and they are
    // published
    ensures written { (settings : Settings) (s : Standing) (g : LeadersGroup) (new : List (List MemberVersions))
        (more : List GroupCall) → IsConsistent settings s → s.fault ≡ None → GoesAhead settings s.asked g
        → Publishes (versions_from s.last g.requests) s.published new → LogsGroup s.last g.requests s.calls more
        → IsConsistent settings (with_runs s g new more) }
    // writes are held up, and none of the members may wait
    ensures held_up { (settings : Settings) (s : Standing) (g : LeadersGroup) → IsConsistent settings s
        → IsBuilt settings s.asked g → HoldUp g.numbers → MayNotWait g.requests
        → IsConsistent settings (answered s g.known (all_held_up g.known g.numbers g.requests)) }
    // the call of the log writer failed, and each member got its fault as the answer
    ensures failed { (settings : Settings) (s : Standing) (g : LeadersGroup) (count : ℕ) (c : GroupCall)
        → IsConsistent settings s → s.fault ≡ None → GoesAhead settings s.asked g → WritesBatches s.last g.requests c
        → c.failed ≡ Some count → IsConsistent settings (with_fault s g count (s.calls ++ c ∷ [])) }
    // the log had failed before, and was not called
    ensures dead { (settings : Settings) (s : Standing) (g : LeadersGroup) (count : ℕ) → IsConsistent settings s
        → s.fault ≡ Some count → GoesAhead settings s.asked g → IsConsistent settings (with_fault s g count s.calls) }
{}

/// What the answers to commits show of the log, while groups are answered.
pub fn sights_go_on()
    ensures first { ShowTheLog [] [] }
    // the members whose runs fit have them, and the log has their batches, unless it must stay without them
    ensures written { (last : ℕ) (requests : List CommitRequest) (old new : List GroupCall) (sights : List LogSight)
        → HaveOwnClients requests → LogsGroup last requests old new → ShowTheLog (worked_in old) sights
        → ShowTheLog (worked_in new) (sights ++ sights_with (length (worked_in new)) last requests) }
    // no member got a run
    ensures refused { (calls : List GroupCall) (sights : List LogSight) (requests : List CommitRequest)
        → HaveOwnClients requests → ShowTheLog (worked_in calls) sights
        → ShowTheLog (worked_in calls) (sights ++ sights_without (length (worked_in calls)) requests) }
    // nor where the call of the log failed
    ensures failed { (calls : List GroupCall) (c : GroupCall) (count : ℕ) (sights : List LogSight)
        (requests : List CommitRequest) → c.failed ≡ Some count → HaveOwnClients requests
        → ShowTheLog (worked_in calls) sights
        → ShowTheLog (worked_in (calls ++ c ∷ []))
        (sights ++ sights_without (length (worked_in (calls ++ c ∷ []))) requests) }
    // one more call
    ensures one_more { (calls : List GroupCall) (c : GroupCall) → c.failed ≡ None
        → worked_in (calls ++ c ∷ []) ≡ worked_in calls ++ c ∷ [] }
    ensures no_more { (calls : List GroupCall) (c : GroupCall) (count : ℕ) → c.failed ≡ Some count
        → worked_in (calls ++ c ∷ []) ≡ worked_in calls }
    // the calls that wrote the commits are those that worked
    ensures same { (settings : Settings) (s : Standing) → (is : IsConsistent settings s)
        → worked_in s.calls ≡ is.written.worked }
{}

/// What reads of the log gave stays right while groups are logged, for whatever the log had kept: a later record has
/// later sequences.
pub fn reads_stay_right()
    ensures first { (kept : Option (List Logged)) (start : ℕ) → AreRight (λ batches. kept ≡ Some batches) start [] [] }
    ensures written { (kept : Option (List Logged)) (last : ℕ) (requests : List CommitRequest)
        (calls more : List GroupCall) (reads : List LogRead) → LogsGroup last requests calls more
        → AreRight (λ batches. kept ≡ Some batches) last calls reads
        → AreRight (λ batches. kept ≡ Some batches) (last_with_all last requests) more reads }
    // a call that failed has written no record
    ensures failed { (kept : Option (List Logged)) (last count : ℕ) (calls : List GroupCall) (c : GroupCall)
        (reads : List LogRead) → c.failed ≡ Some count → AreRight (λ batches. kept ≡ Some batches) last calls reads
        → AreRight (λ batches. kept ≡ Some batches) last (calls ++ c ∷ []) reads }
    ensures one_more { (kept : Option (List Logged)) (last : ℕ) (calls : List GroupCall) (reads : List LogRead)
        (r : LogRead) → AreRight (λ batches. kept ≡ Some batches) last calls reads
        → IsRight (λ batches. kept ≡ Some batches) last calls r
        → AreRight (λ batches. kept ≡ Some batches) last calls (reads ++ r ∷ []) }
{}
