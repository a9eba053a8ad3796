//! The steps that only a list with a second one has, and what each does to the lists.
ghost use Rattle.std.specs.Prelude.{◌≡◌, ℕ, ◌≤◌, ◌⊎◌, true, List, []};
ghost use mathlib.Core.Option.{some};
ghost use Rattle.line_rule.specs.declared.content.Start.{Start};
ghost use Rattle.line_rule.specs.declared.view.Back.{Back};
ghost use Rattle.line_rule.specs.declared.view.Back.TheVariants.{Away, Parting, Queued, Passing};
ghost use Rattle.line_rule.specs.declared.view.Debt.{Debt};
ghost use Rattle.line_rule.specs.declared.view.QueuedWriter.{QueuedWriter};
ghost use Rattle.line_rule.specs.declared.view.Handling.{Handling};
ghost use Rattle.line_rule.specs.declared.view.Lead.{Lead};
ghost use Rattle.line_rule.specs.declared.view.Squad.{Squad};
ghost use Rattle.line_rule.specs.declared.view.LineStage.{LineStage};
ghost use Rattle.line_rule.specs.declared.view.LineStage.TheVariants.{Stalling, Cutting, Marking, Settling};
ghost use Rattle.line_rule.specs.declared.view.Stall.TheVariants.{Owes};
ghost use Rattle.line_rule.specs.Chain.{AllCoded, state_at, older_at, pack, newest};
ghost use Rattle.line_rule.specs.Standing.{line_of};
ghost use Rattle.line_rule.specs.Laws.{laws_for};
ghost use Rattle.line_rule.specs.Plays.{Sat, HandsOn, IsCut, squad_at_cut, in_hand, debt, after_read_newest, after_cut_as, after_mark, after_wake, after_free, after_cut_behind_mark, after_aim_second, after_join_second, after_summon, after_make_parallel, after_leave_second, after_clear_second, after_call_next};
ghost use Rattle.line_rule.specs.Steps.{now_of, Stays, HappensWhere, IsBoundary, IsSecond, IsNext, IsServedOut, LoadIs, StoreIs, ExchangeIs};
ghost use Rattle.line_rule.specs.Handing.{IsWalked, IsOwn, IsNowhere, IsJoined, IsServed, IsNewestGroup, IsOldestGroup};
ghost use Rattle.line_rule.specs.Events.{grouped};
ghost use Rattle.line_rule.specs.Rule.{Listed};
ghost use Rattle.line_rule.specs.Before.{ListState, IsClient, IsNextAfter, IsNextOwed, IsOwed, IsAtWith, HasWholeGroup, HasCut, IsServing, HasReadTo, SeesAt, HasHandled, HasRightFor};

use crate::rule::{GivesRun, HasGroupingItem, LogOfGroups};
use crate::words::{MARK, STATE_LEADS_LOG, STATE_LEADS_TABLE, STATE_PARALLEL};

/// What each step is that only a list with a second one has, for any such list that keeps the rule, where the caller
/// may make the step. A group is cut off from the first list while its leader has the log. It comes into the second
/// list, as the newest one there. It leaves the first list when the log is given on. As the oldest one it leaves the
/// second list. Each of the other steps is no event.
pub fn second_steps_and_events<
    Request: HasGroupingItem,
    Reply: GivesRun,
    Log: LogOfGroups<Request, Reply, Right>,
    Right,
>()
    ensures read_newest { (z : Start Log.About) (slots id : ℕ) (me : Sat Request Reply Log Right)
        → LoadIs (laws_for Request.item_of Reply.run_of Log.LogOfGroups z) z.clients (λ _. Stays)
        slots id me 1 after_read_newest }
    ensures cut_away { (z : Start Log.About) (slots id c : ℕ) (me : Sat Request Reply Log Right)
        (lead : Lead Request Reply) (x : QueuedWriter Request) (from : List (Handling Request Reply))
        → let law = laws_for Request.item_of Reply.run_of Log.LogOfGroups z in HasWholeGroup c lead me
        → IsNextAfter (in_hand lead) x lead.walk → StoreIs law z.clients (λ _. IsBoundary c (squad_at_cut lead from))
        slots id me (older_at x.by) (pack 0 x.code) (after_cut_as (some from)) }
    ensures mark { (z : Start Log.About) (slots id c member : ℕ) (me : Sat Request Reply Log Right)
        (lead : Lead Request Reply) (from : List (Handling Request Reply))
        → HasWholeGroup c lead me → member ≡ newest (in_hand lead)
        → ExchangeIs (laws_for Request.item_of Reply.run_of Log.LogOfGroups z) z.clients
        (HappensWhere member (IsBoundary c (squad_at_cut lead from))) slots id me 0 member MARK (after_mark from) }
    ensures wake { (z : Start Log.About) (slots id c : ℕ) (me : Sat Request Reply Log Right) (lead : Lead Request Reply)
        (x : QueuedWriter Request) (back : Back Request Reply) (gs : List (QueuedWriter Request × Reply)) (p : Reply)
        → let law = laws_for Request.item_of Reply.run_of Log.LogOfGroups z in IsClient z.clients x.by
        → IsAtWith c (Cutting lead x) back me → HasHandled law c lead back gs p me → StoreIs law z.clients
        (λ _. IsNext back lead.own p gs) slots id me (state_at x.by) STATE_LEADS_LOG after_wake }
    ensures free { (z : Start Log.About) (slots id c : ℕ) (me : Sat Request Reply Log Right) (lead : Lead Request Reply)
        (back : Back Request Reply) (gs : List (QueuedWriter Request × Reply)) (p : Reply)
        → let law = laws_for Request.item_of Reply.run_of Log.LogOfGroups z in
        IsAtWith c (Marking lead) back me → HasHandled law c lead back gs p me
        → ExchangeIs law z.clients (HappensWhere MARK (IsNext back lead.own p gs)) slots id me 0 MARK 0 after_free }
    ensures cut_behind_mark { (z : Start Log.About) (slots id c : ℕ) (me : Sat Request Reply Log Right)
        (lead : Lead Request Reply) (back : Back Request Reply) (x : QueuedWriter Request)
        → IsAtWith c (Marking lead) back me → IsNextAfter [] x lead.walk
        → StoreIs (laws_for Request.item_of Reply.run_of Log.LogOfGroups z) z.clients (λ _. Stays)
        slots id me (older_at x.by) (pack 0 x.code) after_cut_behind_mark }
    ensures aim_second { (z : Start Log.About) (slots id c saw named : ℕ) (me : Sat Request Reply Log Right)
        (stage : LineStage Request Reply) (g : Squad Request Reply) → IsAtWith c stage (Parting g named) me
        → StoreIs (laws_for Request.item_of Reply.run_of Log.LogOfGroups z) z.clients (λ _. Stays)
        slots id me (older_at c) (pack saw g.own.code) after_aim_second }
    ensures join_second { (z : Start Log.About) (slots id c saw : ℕ) (me : Sat Request Reply Log Right)
        (lead : Lead Request Reply) (g : Squad Request Reply) (to : List (Handling Request Reply))
        → let law = laws_for Request.item_of Reply.run_of Log.LogOfGroups z in z.pipelined ≡ true
        → HasCut c lead (Parting g saw) me → g.from ≡ law.given lead.seen → ExchangeIs law z.clients
        (HappensWhere saw (IsSecond c g to)) slots id me 1 saw (newest (line_of g)) (after_join_second law.rights to) }
    ensures summon { (z : Start Log.About) (slots id c : ℕ) (me : Sat Request Reply Log Right) (d : Debt Request Reply)
        (g : Squad Request Reply) → z.pipelined ≡ true → IsAtWith c (Settling d) (Queued g) me
        → let law = laws_for Request.item_of Reply.run_of Log.LogOfGroups z in
        LoadIs law z.clients (λ _. Stays) slots id me (state_at c) (after_summon law.rights) }
    ensures make_parallel { (z : Start Log.About) (slots id c : ℕ) (me : Sat Request Reply Log Right)
        (member : QueuedWriter Request × Reply) (d : Debt Request Reply) (g : Squad Request Reply)
        → IsServing c d g me → IsOwed member d → member.0.by ≤ z.clients
        → StoreIs (laws_for Request.item_of Reply.run_of Log.LogOfGroups z) z.clients (λ _. Stays)
        slots id me (state_at member.0.by) STATE_PARALLEL after_make_parallel }
    ensures leave_second { (z : Start Log.About) (slots id c member : ℕ) (me : Sat Request Reply Log Right)
        (d : Debt Request Reply) (g : Squad Request Reply) → z.pipelined ≡ true → IsServing c d g me
        → let law = laws_for Request.item_of Reply.run_of Log.LogOfGroups z in
        HasRightFor law slots g.to me → member ≡ newest (line_of g)
        → ExchangeIs law z.clients (HappensWhere member (IsServedOut c g)) slots id me 1 member 0 after_leave_second }
    ensures clear_second { (z : Start Log.About) (slots id c : ℕ) (me : Sat Request Reply Log Right)
        (d : Debt Request Reply) (g : Squad Request Reply) (x : QueuedWriter Request)
        → z.pipelined ≡ true → HasReadTo x c d g me
        → StoreIs (laws_for Request.item_of Reply.run_of Log.LogOfGroups z) z.clients (λ _. Stays)
        slots id me (older_at x.by) (pack 0 x.code) after_clear_second }
    ensures call_next { (z : Start Log.About) (slots id c : ℕ) (me : Sat Request Reply Log Right)
        (stage : LineStage Request Reply) (g : Squad Request Reply) (x : QueuedWriter Request)
        → let law = laws_for Request.item_of Reply.run_of Log.LogOfGroups z in IsAtWith c stage (Passing g x) me
        → HasRightFor law slots g.to me → StoreIs law z.clients (λ _. IsServedOut c g)
        slots id me (state_at x.by) STATE_LEADS_TABLE after_call_next }
{}

/// What holds in each state in which the rule holds, by what a leader knows. From when a leader has cut its group off
/// until it gives the log on, the log is with that group, so nobody is elected. When a leader gives the log on, in a
/// list with a second one, its group is there, as the newest one and with all that was given runs, or nothing more was
/// given a run. The group of the leader that has the right is the oldest one. A client that gets its reply from a
/// leader that is in neither list, such a leader itself, and a writer that left the queue while writes are stalled is
/// neither in the queue, nor of the group in hand, nor in the second list.
/// The leader that a stage names is the client itself. The walk from the second list's newest writer is its groups,
/// except for an oldest one whose leader has cut it off and still has the right. The codes of the queue are those of
/// its requests.
pub fn handing_on<
    Request: HasGroupingItem,
    Reply: GivesRun,
    Log: LogOfGroups<Request, Reply, Right>,
    Right,
>()
    // Nobody is elected meanwhile, so no second leader can log at the same time.
    ensures cut { (z : Start Log.About) (s : ListState Request Reply Log Right) (id c : ℕ)
        (stage : LineStage Request Reply) (lead : Lead Request Reply) (back : Back Request Reply)
        → let law = laws_for Request.item_of Reply.run_of Log.LogOfGroups z in (r : Listed law z.clients s)
        → SeesAt s id c stage back → IsCut lead stage → (now_of law z.clients s r).0.1 ≡ grouped lead.own lead.taken }
    // So groups come into the second list in the order in which they were logged.
    ensures hands { (last : List (Handling Request Reply) → List (Handling Request Reply)) (back : Back Request Reply)
        (seen now : List (Handling Request Reply))
        → HandsOn true last back seen now
        → (last now ≡ last seen) ⊎ ((g : Squad Request Reply) × IsJoined g back × (g.to ≡ last now)) }
    ensures joined { (z : Start Log.About) (s : ListState Request Reply Log Right) (id c : ℕ)
        (stage : LineStage Request Reply) (back : Back Request Reply) (g : Squad Request Reply)
        → Listed (laws_for Request.item_of Reply.run_of Log.LogOfGroups z) z.clients s
        → SeesAt s id c stage back → z.pipelined ≡ true → IsJoined g back → IsNewestGroup g s.words }
    ensures served { (z : Start Log.About) (s : ListState Request Reply Log Right) (id c : ℕ)
        (stage : LineStage Request Reply) (back : Back Request Reply) (g : Squad Request Reply)
        → Listed (laws_for Request.item_of Reply.run_of Log.LogOfGroups z) z.clients s
        → SeesAt s id c stage back → IsServed g back → IsOldestGroup g s.words }
    ensures told { (z : Start Log.About) (s : ListState Request Reply Log Right) (id c : ℕ) (d : Debt Request Reply)
        (member : QueuedWriter Request × Reply) → let law = laws_for Request.item_of Reply.run_of Log.LogOfGroups z in
        (r : Listed law z.clients s) → SeesAt s id c (Settling d) Away → IsNextOwed member d
        → IsNowhere member.0.by (now_of law z.clients s r) }
    ensures told_last { (z : Start Log.About) (s : ListState Request Reply Log Right) (id c : ℕ)
        (own : QueuedWriter Request) (p : Reply) → let law = laws_for Request.item_of Reply.run_of Log.LogOfGroups z in
        (r : Listed law z.clients s) → SeesAt s id c (Settling (debt [] own p)) Away
        → IsNowhere own.by (now_of law z.clients s r) }
    ensures dropped { (z : Start Log.About) (s : ListState Request Reply Log Right) (id c w : ℕ)
        (lead : Lead Request Reply) (x : QueuedWriter Request) (p : Reply) (back : Back Request Reply)
        → let law = laws_for Request.item_of Reply.run_of Log.LogOfGroups z in
        (r : Listed law z.clients s) → SeesAt s id c (Stalling lead (Owes w x p)) back
        → IsNowhere x.by (now_of law z.clients s r) }
    ensures walked { (z : Start Log.About) (s : ListState Request Reply Log Right)
        (r : Listed (laws_for Request.item_of Reply.run_of Log.LogOfGroups z) z.clients s)
        → IsWalked (now_of (laws_for Request.item_of Reply.run_of Log.LogOfGroups z) z.clients s r) s.words }
    ensures coded { (z : Start Log.About) (s : ListState Request Reply Log Right)
        → let law = laws_for Request.item_of Reply.run_of Log.LogOfGroups z in (r : Listed law z.clients s)
        → AllCoded law.asks (now_of law z.clients s r).0.0 }
    ensures own { (z : Start Log.About) (s : ListState Request Reply Log Right) (id c : ℕ)
        (stage : LineStage Request Reply) (back : Back Request Reply)
        → Listed (laws_for Request.item_of Reply.run_of Log.LogOfGroups z) z.clients s
        → SeesAt s id c stage back → IsOwn c stage }
{}
