//! The steps of a leader that stalls writes, and of a writer that goes back instead of linking.
ghost use Rattle.std.specs.Prelude.{◌≡◌, ℕ, true, false, List, [], ◌∷◌, ◌++◌};
ghost use Rattle.line_rule.specs.declared.content.LineSlot.TheVariants.{Empty, Asked, Told};
ghost use Rattle.line_rule.specs.declared.content.Start.{Start};
ghost use Rattle.line_rule.specs.declared.view.QueuedWriter.{QueuedWriter};
ghost use Rattle.line_rule.specs.declared.view.Lead.{Lead};
ghost use Rattle.line_rule.specs.declared.view.LineStage.TheVariants.{Preparing, Leading, Stalling};
ghost use Rattle.line_rule.specs.declared.view.Stall.TheVariants.{Aimed, Stopped, Holds, Owes};
ghost use Rattle.line_rule.specs.Chain.{state_at, older_at, pack, newest};
ghost use Rattle.line_rule.specs.Events.{is_hasty};
ghost use Rattle.line_rule.specs.Laws.{laws_for};
ghost use Rattle.line_rule.specs.Plays.{Sat, in_hand, after_read_newest};
ghost use Rattle.line_rule.specs.Stalls.{after_withdraw, after_aim_stall, after_stall, after_hold, after_give_back, after_pass_by, after_pass_first, after_dismiss, after_resume};
ghost use Rattle.line_rule.specs.Steps.{Stays, ShowsStall, HappensWhere, IsStall, IsDrop, IsResume, IsComplete, LoadIs, StoreIs, ExchangeIs};
ghost use Rattle.line_rule.specs.Before.{IsClient, IsNextAfter, IsAt, HasFirst};

use crate::rule::{GivesRun, HasGroupingItem, LogOfGroups};
use crate::words::{STALL, STATE_DONE};

/// What each step is by which a leader stalls writes, lets writers of the queue go, and ends the stall, for any list
/// that keeps the rule, where the caller may make the step. The leader has its whole group. A writer leaves the queue
/// at the store that sets a link past it, and gets its reply later. While writes are stalled nobody links, and no group
/// leaves. A writer that is about to link may go back instead, which is no event.
///
/// A load that finds the marker in the place of the newest writer is one by which a leader stalls writes just then.
pub fn stall_steps_and_events<
    Request: HasGroupingItem,
    Reply: GivesRun,
    Log: LogOfGroups<Request, Reply, Right>,
    Right,
>()
    ensures read_newest { (z : Start Log.About) (slots id : ℕ) (me : Sat Request Reply Log Right)
        → LoadIs (laws_for Request.item_of Reply.run_of Log.LogOfGroups z) z.clients ShowsStall
        slots id me 0 after_read_newest }
    ensures withdraw { (z : Start Log.About) (slots id word c w : ℕ) (me : Sat Request Reply Log Right)
        → IsAt c (Preparing w) me → me.1 ≡ (c, Empty) ∷ []
        → LoadIs (laws_for Request.item_of Reply.run_of Log.LogOfGroups z) z.clients (λ _. Stays)
        slots id me word after_withdraw }
    ensures aim { (z : Start Log.About) (slots id c new : ℕ) (me : Sat Request Reply Log Right)
        (lead : Lead Request Reply) → IsAt c (Leading lead) me
        → StoreIs (laws_for Request.item_of Reply.run_of Log.LogOfGroups z) z.clients (λ _. Stays)
        slots id me (older_at 0) new after_aim_stall }
    ensures stall { (z : Start Log.About) (slots id c w : ℕ) (me : Sat Request Reply Log Right)
        (lead : Lead Request Reply)
        → IsAt c (Stalling lead (Aimed w)) me → lead.taken ≡ lead.group → is_hasty lead.own.code ≡ false
        → ExchangeIs (laws_for Request.item_of Reply.run_of Log.LogOfGroups z) z.clients
        (HappensWhere w (IsStall lead)) slots id me 0 w STALL after_stall }
    ensures hold { (z : Start Log.About) (slots id c w : ℕ) (me : Sat Request Reply Log Right)
        (lead : Lead Request Reply) (x : QueuedWriter Request) (older : List (QueuedWriter Request))
        → let law = laws_for Request.item_of Reply.run_of Log.LogOfGroups z in
        IsAt c (Stalling lead (Stopped w)) me → IsNextAfter (older ++ in_hand lead) x lead.walk
        → LoadIs law z.clients (λ _. Stays) slots id me (older_at x.by) (after_hold law.asks) }
    ensures give_back { (z : Start Log.About) (slots id c w : ℕ) (me : Sat Request Reply Log Right)
        (lead : Lead Request Reply) (x : QueuedWriter Request) (older : List (QueuedWriter Request))
        → IsAt c (Stalling lead (Holds w x)) me → HasFirst x.by (Asked x.asked) me → IsNextAfter older x lead.walk
        → StoreIs (laws_for Request.item_of Reply.run_of Log.LogOfGroups z) z.clients (λ _. Stays)
        slots id me (older_at x.by) (pack (newest older) x.code) after_give_back }
    ensures pass_by { (z : Start Log.About) (slots id c w : ℕ) (me : Sat Request Reply Log Right)
        (lead : Lead Request Reply) (y x : QueuedWriter Request) (older : List (QueuedWriter Request)) (p : Reply)
        → let law = laws_for Request.item_of Reply.run_of Log.LogOfGroups z in
        IsAt c (Stalling lead (Holds w x)) me → lead.taken ≡ lead.group → HasFirst x.by (Told p) me
        → law.drops x.asked p → is_hasty x.code ≡ true → IsNextAfter (x ∷ older) y lead.walk
        → StoreIs law z.clients (λ _. IsDrop x p) slots id me (older_at y.by) (pack (newest older) y.code)
        after_pass_by }
    ensures pass_first { (z : Start Log.About) (slots id c w : ℕ) (me : Sat Request Reply Log Right)
        (lead : Lead Request Reply) (x : QueuedWriter Request) (older : List (QueuedWriter Request)) (p : Reply)
        → let law = laws_for Request.item_of Reply.run_of Log.LogOfGroups z in
        IsAt c (Stalling lead (Holds w x)) me → lead.taken ≡ lead.group → HasFirst x.by (Told p) me
        → law.drops x.asked p → is_hasty x.code ≡ true → lead.walk ≡ x ∷ older → x.by ≡ w
        → StoreIs law z.clients (λ _. IsDrop x p) slots id me (older_at 0) (newest older) after_pass_first }
    ensures dismiss { (z : Start Log.About) (slots id c w : ℕ) (me : Sat Request Reply Log Right)
        (lead : Lead Request Reply) (x : QueuedWriter Request) (p : Reply)
        → IsAt c (Stalling lead (Owes w x p)) me → HasFirst x.by (Told p) me → IsClient z.clients x.by
        → StoreIs (laws_for Request.item_of Reply.run_of Log.LogOfGroups z) z.clients (λ _. IsComplete x p)
        slots id me (state_at x.by) STATE_DONE after_dismiss }
    ensures resume { (z : Start Log.About) (slots id c w : ℕ) (me : Sat Request Reply Log Right)
        (lead : Lead Request Reply) → IsAt c (Stalling lead (Stopped w)) me → lead.taken ≡ lead.group
        → ExchangeIs (laws_for Request.item_of Reply.run_of Log.LogOfGroups z) z.clients (λ _. IsResume lead)
        slots id me 0 STALL w after_resume }
{}
