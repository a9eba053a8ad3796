//! What the list is at opening and between any two steps, and what each step makes of it.
ghost use Rattle.std.specs.Prelude.{◌≡◌, ◌≢◌, ℕ, ◌<◌, List, [], ◌∷◌, ◌++◌};
ghost use Rattle.atomic_table.specs.Table.{opening, Splits, Joins};
ghost use Rattle.line_rule.specs.declared.content.LineSlot.TheVariants.{Empty, Asked, Told};
ghost use Rattle.line_rule.specs.declared.content.Start.{Start};
ghost use Rattle.line_rule.specs.declared.view.QueuedWriter.{QueuedWriter};
ghost use Rattle.line_rule.specs.declared.view.Handling.{Handling};
ghost use Rattle.line_rule.specs.declared.view.Debt.{Debt};
ghost use Rattle.line_rule.specs.declared.view.Back.TheVariants.{Away};
ghost use Rattle.line_rule.specs.declared.view.LineHold.{LineHold};
ghost use Rattle.line_rule.specs.declared.view.Lead.{Lead};
ghost use Rattle.line_rule.specs.declared.view.LineStage.TheVariants.{Idle, Preparing, Waiting, Helping, Fresh, Leading, Cutting, Settling, Collecting};
ghost use Rattle.line_rule.specs.Chain.{state_at, older_at, pack, newest};
ghost use Rattle.line_rule.specs.Events.{LineEvent};
ghost use Rattle.line_rule.specs.Laws.{laws_for};
ghost use Rattle.model_base.specs.Halves.{all_but_first, first_only};
ghost use Rattle.line_rule.specs.Rule.{Listed, newcomers};
ghost use Rattle.line_rule.specs.Plays.{Sat, queued_writer, in_hand, debt, after_begin, after_read_newest, after_name_older, after_link, after_read_state, after_read_reply, after_return_slot, after_build, after_read_older, after_fetch, after_leave, after_cut_off, after_wake, after_complete, after_retire};
ghost use Rattle.line_rule.specs.Steps.{Lists, now_of, IsNow, Stays, HappensWhere, IsLink, IsElect, IsBuild, IsExit, IsComplete, LoadIs, StoreIs, ExchangeIs};
ghost use Rattle.line_rule.specs.Between.{Between, AreLists};
ghost use Rattle.line_rule.specs.Before.{ListState, NameNobody, slots_at_opening, lists_at_opening, IsClient, IsNextAfter, IsNextOwed, IsAt, HasWholeGroup, HasFirst, HasHandledAnd};

use crate::rule::{GivesRun, HasGroupingItem, LogOfGroups};
use crate::words::{STALL, STATE_DONE, STATE_IN_LIST, STATE_LEADS_LOG};

/// Between any two steps the walk from the newest writer is the queue and then, until it is cut off, the group in
/// hand; it has no more writers than there are clients. The log is at home, or with the leader. The queue, the log's
/// place, what was handled, and for what of it the clients haven't got their replies yet: that is the state after a
/// list of legal events. The client that has the log is the one that leads by these events, and the one that is woken
/// is the oldest of the queue. The events are: a writer links, the oldest writer is elected, a leader builds its group
/// under the list's bound, a group leaves, and a client gets its reply. Events are only added: a client that waits
/// knows those up to its coming, and a leader those up to the building of its group.
///
/// The walk from the second list's newest writer is its groups, and the leader of the oldest one has the right, or
/// will have it. No client is in both lists. From group to group, what was given runs goes on from what the right
/// covers to all that was given runs; only the group of a leader that has yet to give the log on comes after that. What
/// a group adds is what of its own members' requests was given runs. So groups are served in the order in which the log
/// was written.
pub fn between_steps<
    Request: HasGroupingItem,
    Reply: GivesRun,
    Log: LogOfGroups<Request, Reply, Right>,
    Right,
>()
    // Events are only added, so no later step can put others in the place of past ones.
    ensures { (z : Start Log.About) (s : ListState Request Reply Log Right)
        → let law = laws_for Request.item_of Reply.run_of Log.LogOfGroups z in
        (r : Listed law z.clients s) → (between : Between law z.clients s)
        × AreLists law between (now_of law z.clients s r) }
{}

/// At opening nobody has come, the log is free, nothing was handled, and no group is in the second list, or on its way
/// there. Making and joining seats leaves the list as it is.
pub fn opening_and_seats<
    Request: HasGroupingItem,
    Reply: GivesRun,
    Log: LogOfGroups<Request, Reply, Right>,
    Right,
>()
    ensures open { (z : Start Log.About) (words : List ℕ) (l : Log) (right : Right)
        → let law = laws_for Request.item_of Reply.run_of Log.LogOfGroups z in
        z.clients < STALL → NameNobody z.clients words → law.logs l [] → law.rights right []
        → IsNow law z.clients lists_at_opening
        (opening words (slots_at_opening z.clients l right) (newcomers z.clients)) }
    ensures split { (z : Start Log.About) (now : Lists Request Reply) (id k : ℕ) (v : List (LineHold Request Reply))
        → 0 < k → v ≡ newcomers k
        → Splits (IsNow (laws_for Request.item_of Reply.run_of Log.LogOfGroups z) z.clients now)
        id v (all_but_first v) (first_only v) }
    ensures join { (z : Start Log.About) (now : Lists Request Reply) (id other : ℕ)
        (v w : List (LineHold Request Reply))
        → Joins (IsNow (laws_for Request.item_of Reply.run_of Log.LogOfGroups z) z.clients now)
        id v other w (v ++ w) [] }
{}

/// What each step of a list with one stage is, and each load of an older link, for any list that keeps the rule, where
/// the caller may make the step: one of those events, two of them where a link finds nobody before it, or none. The
/// second list stays as it was. A compare-exchange that fails is no event. In each clause `law` says what the log and
/// the right cover in a list that is opened for `z`.
pub fn steps_and_events<
    Request: HasGroupingItem,
    Reply: GivesRun,
    Log: LogOfGroups<Request, Reply, Right>,
    Right,
>()
    ensures begin { (z : Start Log.About) (slots id c : ℕ) (me : Sat Request Reply Log Right)
        → IsAt c Idle me → me.1 ≡ []
        → StoreIs (laws_for Request.item_of Reply.run_of Log.LogOfGroups z) z.clients (λ _. Stays)
        slots id me (state_at c) STATE_IN_LIST after_begin }
    ensures read_newest { (z : Start Log.About) (slots id : ℕ) (me : Sat Request Reply Log Right)
        → LoadIs (laws_for Request.item_of Reply.run_of Log.LogOfGroups z) z.clients (λ _. Stays)
        slots id me 0 after_read_newest }
    ensures name_older { (z : Start Log.About) (slots id c w new : ℕ) (me : Sat Request Reply Log Right)
        → IsAt c (Preparing w) me
        → StoreIs (laws_for Request.item_of Reply.run_of Log.LogOfGroups z) z.clients (λ _. Stays)
        slots id me (older_at c) new after_name_older }
    ensures link { (z : Start Log.About) (slots id c saw code : ℕ) (me : Sat Request Reply Log Right) (q : Request)
        → let law = laws_for Request.item_of Reply.run_of Log.LogOfGroups z in
        IsAt c (Preparing (pack saw code)) me → me.1 ≡ (c, Asked q) ∷ [] → law.asks q code → saw ≢ STALL
        → ExchangeIs law z.clients (IsLink saw (queued_writer c code q)) slots id me 0 saw c (after_link law.logs) }
    ensures read_state { (z : Start Log.About) (slots id c : ℕ) (me : Sat Request Reply Log Right) (q : Request)
        (past : List (LineEvent Request Reply)) → let law = laws_for Request.item_of Reply.run_of Log.LogOfGroups z in
        IsAt c (Waiting q past) me → me.1 ≡ []
        → LoadIs law z.clients (HappensWhere STATE_LEADS_LOG (IsElect c q)) slots id me (state_at c)
        (after_read_state law.logs law.kept law.drops) }
    ensures read_reply { (z : Start Log.About) (slots id c : ℕ) (me : Sat Request Reply Log Right) (q : Request)
        → let law = laws_for Request.item_of Reply.run_of Log.LogOfGroups z in IsAt c (Helping q) me → me.1 ≡ []
        → LoadIs law z.clients (λ _. Stays) slots id me (state_at c) (after_read_reply law.kept) }
    ensures rest { (z : Start Log.About) (slots id word c : ℕ) (me : Sat Request Reply Log Right)
        → IsAt c Collecting me → me.1 ≡ (c, Empty) ∷ []
        → LoadIs (laws_for Request.item_of Reply.run_of Log.LogOfGroups z) z.clients (λ _. Stays)
        slots id me word after_return_slot }
    ensures build { (z : Start Log.About) (slots id c : ℕ) (me : Sat Request Reply Log Right)
        (own : QueuedWriter Request) (seen : List (Handling Request Reply)) → IsAt c (Fresh own seen) me
        → let law = laws_for Request.item_of Reply.run_of Log.LogOfGroups z in
        LoadIs law z.clients (λ _. IsBuild z.group_bytes own) slots id me 0 (after_build law.asks z.group_bytes) }
    ensures read_older { (z : Start Log.About) (slots id word : ℕ) (me : Sat Request Reply Log Right)
        → LoadIs (laws_for Request.item_of Reply.run_of Log.LogOfGroups z) z.clients (λ _. Stays)
        slots id me word after_read_older }
    ensures fetch { (z : Start Log.About) (slots id c : ℕ) (me : Sat Request Reply Log Right)
        (lead : Lead Request Reply) (x : QueuedWriter Request)
        → IsAt c (Leading lead) me → IsNextAfter (in_hand lead) x lead.walk
        → LoadIs (laws_for Request.item_of Reply.run_of Log.LogOfGroups z) z.clients (λ _. Stays)
        slots id me (older_at x.by) after_fetch }
    // A group leaves only with handlings of its own members' clients and requests, the leader's first and then in the
    // order of links.
    ensures leave { (z : Start Log.About) (slots id c member : ℕ) (me : Sat Request Reply Log Right)
        (lead : Lead Request Reply) (gs : List (QueuedWriter Request × Reply)) (p : Reply)
        → let law = laws_for Request.item_of Reply.run_of Log.LogOfGroups z in
        HasWholeGroup c lead me → HasHandledAnd law [] c lead Away gs p me → member ≡ newest (in_hand lead)
        → ExchangeIs law z.clients (HappensWhere member (IsExit lead.own p gs)) slots id me 0 member 0 after_leave }
    ensures cut_off { (z : Start Log.About) (slots id c : ℕ) (me : Sat Request Reply Log Right)
        (lead : Lead Request Reply) (x : QueuedWriter Request)
        → HasWholeGroup c lead me → IsNextAfter (in_hand lead) x lead.walk
        → StoreIs (laws_for Request.item_of Reply.run_of Log.LogOfGroups z) z.clients (λ _. Stays)
        slots id me (older_at x.by) (pack 0 x.code) after_cut_off }
    ensures wake { (z : Start Log.About) (slots id c : ℕ) (me : Sat Request Reply Log Right) (lead : Lead Request Reply)
        (x : QueuedWriter Request) (gs : List (QueuedWriter Request × Reply)) (p : Reply)
        → let law = laws_for Request.item_of Reply.run_of Log.LogOfGroups z in
        IsAt c (Cutting lead x) me → IsClient z.clients x.by → HasHandledAnd law [] c lead Away gs p me
        → StoreIs law z.clients (λ _. IsExit lead.own p gs) slots id me (state_at x.by) STATE_LEADS_LOG after_wake }
    ensures complete { (z : Start Log.About) (slots id c : ℕ) (me : Sat Request Reply Log Right)
        (d : Debt Request Reply) (member : QueuedWriter Request × Reply) → IsAt c (Settling d) me
        → IsNextOwed member d → HasFirst member.0.by (Told member.1) me → IsClient z.clients member.0.by
        → let law = laws_for Request.item_of Reply.run_of Log.LogOfGroups z in StoreIs law z.clients
        (λ _. IsComplete member.0 member.1) slots id me (state_at member.0.by) STATE_DONE after_complete }
    ensures retire { (z : Start Log.About) (slots id c : ℕ) (me : Sat Request Reply Log Right)
        (own : QueuedWriter Request) (p : Reply)
        → IsAt c (Settling (debt [] own p)) me → me.1 ≡ (c, Empty) ∷ []
        → StoreIs (laws_for Request.item_of Reply.run_of Log.LogOfGroups z) z.clients (λ _. IsComplete own p)
        slots id me (state_at c) STATE_DONE after_retire }
{}
