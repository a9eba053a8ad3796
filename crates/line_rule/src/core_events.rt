//! The events of the list, and of the second one, are events of the write path's core.
ghost use Rattle.std.specs.Prelude.{◌≡◌, List, [], ◌∷◌, true, false, ℕ, Some, None, is_some};
ghost use Rattle.std.specs.List.{list_any};
ghost use Rattle.model_base.specs.Calls.{Command, Reply as CoreReply, refused};
ghost use Rattle.model_base.specs.declared.write.Refusal.TheVariants as no;
ghost use Rattle.model_core.specs.declared.event.Event.TheVariants as core;
ghost use Rattle.model_core.specs.Core.{Options, Writer, Client, State, item_of, client_at, built as in_hand, in_log, published, opening_state, first_group, has_run, is_alone, leads, table_group};
ghost use Rattle.model_core.specs.Halves.{list_half_of};
ghost use Rattle.model_core.specs.Step.{step, is_no_slowdown};
ghost use Rattle.line_rule.specs.declared.view.Back.{Back};
ghost use Rattle.line_rule.specs.declared.view.QueuedWriter.{QueuedWriter};
ghost use Rattle.line_rule.specs.declared.view.Handling.{Handling};
ghost use Rattle.line_rule.specs.declared.view.Lead.{Lead};
ghost use Rattle.line_rule.specs.declared.view.Squad.{Squad};
ghost use Rattle.line_rule.specs.Chain.{AllCoded, all_answers};
ghost use Rattle.line_rule.specs.Events.{grouped, comes, elects};
ghost use Rattle.line_rule.specs.Standing.{ahead, line_of};
ghost use Rattle.line_rule.specs.Steps.{Lists, HappensAlone, IsBuild, IsStall, IsStalled, IsDrop, IsResume, IsComplete, IsBoundary, IsSecond, IsNext, IsServedOut};
ghost use Rattle.line_rule.specs.Handing.{IsInNone, IsJoined};
ghost use Rattle.line_rule.specs.CoreEvents.{IsSame, HasItems, HasReplies, LeavesWith, AllLeaveWith, IsGroupOf, IsCoreOf, StandsAs, IsTaken, IsCommit, IsUpdates, IsRefusedAtOnce, HasLeft, IsToLog};
ghost use Rattle.line_rule.specs.Grouping.{code_by};
ghost use Rattle.model_base.specs.declared.group.Item.{Item};
ghost use Rattle.line_rule.specs.Before.{lists_at_opening};

use crate::code::codes_stand_for_items;

/// Where the core's state fits both lists (`IsCoreOf`), each event of the lists may come in the core, and afterwards
/// its state still fits the lists. `ws` are the writers of the group in hand once the core has logged it, with their
/// answers. If the core's writers are made of each entry's client and request, with the items of the requests, a
/// writer has the item of its entry in each queue whose codes are those of the requests.
///
/// A writer comes, the oldest one leads and builds its group, and the groups of the second list stay as they are. The
/// core logs the group in hand, if a member has a run and no append has failed, while the lists stay as they are. A
/// group in hand leaves without being logged: by a log if no member has a run, by a fault, or by a refusal if its
/// leader asks for no slowdown. A client that has left gets its reply.
///
/// A leader that has a group in hand that may be slowed down stalls writes, and ends that. In between nobody comes and
/// the group isn't logged, and writers of the queue that may not be slowed down leave it. A commit that may not be
/// slowed down is refused before it comes, and any other one can't come until the stall is over.
///
/// A leader that reads the log has a group of its own, which isn't logged: it is answered by the core's `since`, and
/// leaves by an exit, in either mode.
///
/// Where there is one stage, a logged group leaves by the core's exit, once it is published. Where groups are handed
/// on, a logged group is cut off from the first list by `boundary`, goes to the end of the second queue by `second`,
/// and its leader gives the log on by `next`, which may come only then. The first group of the second queue leaves it
/// by an exit once it is published, and its members leave with their answers.
pub fn list_and_core<Request, Reply>()
    // The other laws have premises on the core's writers; by this one there are such writers, so these laws speak of
    // something.
    ensures writers { (items : Request → Item) (writer : ℕ → Request → Writer)
        → ((c : ℕ) (q : Request) → ((writer c q).client ≡ c) × (item_of (writer c q) ≡ items q))
        → IsSame {Request = Request} (λ e. writer e.by e.asked)
        × ((queue : List (QueuedWriter Request)) → AllCoded (λ q code. code ≡ code_by items q) queue
        → HasItems (λ e. writer e.by e.asked) queue) }
    ensures open { (writer_of : QueuedWriter Request → Writer) (reply_of : Reply → CoreReply) (o : Options)
        (plans : List (List Command)) → IsCoreOf {Request = Request} {Reply = Reply} writer_of reply_of []
        lists_at_opening (list_half_of (opening_state o plans)) }
    // What the words of the list don't show is a premise here: the client is idle, and its next call is a commit that
    // no check refuses.
    ensures link { (writer_of : QueuedWriter Request → Writer) (reply_of : Reply → CoreReply) (o : Options)
        (s : State) (a b : Lists Request Reply) (ws : List Writer) (e : QueuedWriter Request)
        → IsCoreOf writer_of reply_of ws a (list_half_of s) → HappensAlone (comes e) a b
        → IsCommit o s e.by (writer_of e) → IsTaken writer_of reply_of o (core.Link e.by) s ws b }
    // So does one that is to read the log.
    ensures link_read { (writer_of : QueuedWriter Request → Writer) (reply_of : Reply → CoreReply) (o : Options)
        (s : State) (a b : Lists Request Reply) (ws : List Writer) (e : QueuedWriter Request)
        → IsCoreOf writer_of reply_of ws a (list_half_of s) → HappensAlone (comes e) a b
        → IsUpdates s e.by (writer_of e) → IsTaken writer_of reply_of o (core.Link e.by) s ws b }
    ensures elect { (writer_of : QueuedWriter Request → Writer) (reply_of : Reply → CoreReply) (o : Options)
        (s : State) (a b : Lists Request Reply) (ws : List Writer) (e : QueuedWriter Request)
        → StandsAs writer_of reply_of ws a s → HappensAlone (elects e) a b
        → IsTaken writer_of reply_of o (core.Elect e.by) s [] b }
    ensures build { (writer_of : QueuedWriter Request → Writer) (reply_of : Reply → CoreReply) (o : Options)
        (s : State) (a b : Lists Request Reply) (ws : List Writer) (own : QueuedWriter Request)
        → StandsAs writer_of reply_of ws a s → HasItems writer_of a.0.0 → IsBuild o.group_bytes own a b
        → IsTaken writer_of reply_of o (core.Build own.by) s [] b }
    // No group is logged after a fault: that the log has not failed is a premise.
    ensures log { (writer_of : QueuedWriter Request → Writer) (reply_of : Reply → CoreReply) (o : Options)
        (s : State) (a : Lists Request Reply) (old ws : List Writer) (own : QueuedWriter Request)
        (group : List (QueuedWriter Request)) → StandsAs writer_of reply_of old a s → a.0.1 ≡ grouped own group
        → IsToLog s ws → list_any has_run ws ≡ true → IsTaken writer_of reply_of o (core.Log own.by) s ws a }
    ensures boundary { (writer_of : QueuedWriter Request → Writer) (reply_of : Reply → CoreReply) (o : Options)
        (s : State) (a b : Lists Request Reply) (ws : List Writer) (c : ℕ) (g : Squad Request Reply)
        → o.pipelined ≡ true → StandsAs writer_of reply_of ws a s → s.log ≡ in_log ws → IsBoundary c g a b
        → IsTaken writer_of reply_of o (core.Boundary c) s ws b }
    ensures second { (writer_of : QueuedWriter Request → Writer) (reply_of : Reply → CoreReply) (o : Options)
        (s : State) (a b : Lists Request Reply) (ws : List Writer) (c : ℕ) (g : Squad Request Reply)
        (to : List (Handling Request Reply)) → StandsAs writer_of reply_of ws a s → IsSecond c g to a b
        → IsTaken writer_of reply_of o (core.Second c) s ws b }
    ensures next { (writer_of : QueuedWriter Request → Writer) (reply_of : Reply → CoreReply) (o : Options)
        (s : State) (a b : Lists Request Reply) (ws : List Writer) (back : Back Request Reply) (g : Squad Request Reply)
        (own : QueuedWriter Request) (p : Reply) (gs : List (QueuedWriter Request × Reply)) → IsJoined g back
        → IsCoreOf writer_of reply_of ws a (list_half_of s) → IsNext back own p gs a b
        → HasReplies reply_of (all_answers own p gs) ws → IsTaken writer_of reply_of o (core.Next own.by) s [] b }
    // The core's `next` comes only where the leader's group is in the second list while it has the log.
    ensures next_of_handed { (writer_of : QueuedWriter Request → Writer) (reply_of : Reply → CoreReply)
        (o : Options) (s new : State) (a : Lists Request Reply) (ws : List Writer) (c : ℕ)
        → IsCoreOf writer_of reply_of ws a (list_half_of s) → step o s (core.Next c) ≡ Some new
        → a.1.1 ≡ ahead c }
    ensures exit { (writer_of : QueuedWriter Request → Writer) (reply_of : Reply → CoreReply) (o : Options)
        (s : State) (a b : Lists Request Reply) (ws : List Writer) (own : QueuedWriter Request)
        → o.pipelined ≡ false → StandsAs writer_of reply_of ws a s → s.log ≡ in_log ws → s.table ≡ published
        → LeavesWith reply_of ws own a b → IsTaken writer_of reply_of o (core.Exit own.by) s [] b }
    ensures exit_second { (writer_of : QueuedWriter Request → Writer) (reply_of : Reply → CoreReply) (o : Options)
        (s : State) (a b : Lists Request Reply) (ws : List Writer) (c : ℕ) (g : Squad Request Reply)
        → o.pipelined ≡ true → StandsAs writer_of reply_of ws a s → s.table ≡ published → IsServedOut c g a b
        → IsGroupOf writer_of (line_of g) (first_group s.second)
        × IsTaken writer_of reply_of o (core.Exit c) s ws b }
    ensures log_refused { (writer_of : QueuedWriter Request → Writer) (reply_of : Reply → CoreReply) (o : Options)
        (s : State) (a b : Lists Request Reply) (old ws : List Writer) (own : QueuedWriter Request)
        → StandsAs writer_of reply_of old a s → IsToLog s ws → list_any has_run ws ≡ false
        → LeavesWith reply_of ws own a b → IsTaken writer_of reply_of o (core.Log own.by) s [] b }
    ensures fault { (writer_of : QueuedWriter Request → Writer) (reply_of : Reply → CoreReply) (o : Options)
        (s : State) (a b : Lists Request Reply) (old built : List Writer) (own : QueuedWriter Request)
        → StandsAs writer_of reply_of old a s → s.log ≡ in_hand built → is_alone built ≡ false
        → AllLeaveWith reply_of (refused (no.LogFault 1)) own a b
        → IsTaken writer_of reply_of o (core.Fault own.by) s [] b }
    ensures refuse { (writer_of : QueuedWriter Request → Writer) (reply_of : Reply → CoreReply) (o : Options)
        (s : State) (a b : Lists Request Reply) (old built : List Writer) (own : QueuedWriter Request)
        (stops delays wait : ℕ) → StandsAs writer_of reply_of old a s → s.log ≡ in_hand built
        → is_alone built ≡ false → is_no_slowdown built ≡ true
        → AllLeaveWith reply_of (refused (no.Incomplete stops delays wait)) own a b
        → IsTaken writer_of reply_of o (core.Refuse own.by stops delays wait) s [] b }
    ensures stall { (writer_of : QueuedWriter Request → Writer) (reply_of : Reply → CoreReply) (o : Options)
        (s : State) (a b : Lists Request Reply) (old built : List Writer) (lead : Lead Request Reply)
        → StandsAs writer_of reply_of old a s → s.log ≡ in_hand built → is_alone built ≡ false
        → is_no_slowdown built ≡ false → IsStall lead a b
        → IsTaken writer_of reply_of o (core.Stall lead.own.by) s [] b }
    // A leader that reads the log alone has its answer while the lists stay as they are, and then leaves with it. That
    // its client leads no group of the second list is a premise.
    ensures read { (writer_of : QueuedWriter Request → Writer) (reply_of : Reply → CoreReply) (o : Options)
        (s : State) (a : Lists Request Reply) (ws : List Writer) (own : QueuedWriter Request) (n : ℕ)
        → StandsAs writer_of reply_of ws a s → a.0.1 ≡ grouped own [] → (writer_of own).since ≡ Some n
        → (writer_of own).answer ≡ None → s.log ≡ in_hand (writer_of own ∷ [])
        → IsTaken writer_of reply_of o (core.Since own.by) s ws a }
    ensures exit_of_read { (writer_of : QueuedWriter Request → Writer) (reply_of : Reply → CoreReply) (o : Options)
        (s : State) (a b : Lists Request Reply) (ws : List Writer) (own : QueuedWriter Request) (reply : CoreReply)
        → StandsAs writer_of reply_of ws a s → is_some (writer_of own).since ≡ true
        → s.log ≡ in_hand (record (writer_of own) { answer = Some reply } ∷ [])
        → leads own.by (table_group o s) ≡ false → AllLeaveWith reply_of reply own a b
        → IsTaken writer_of reply_of o (core.Exit own.by) s [] b }
    ensures leave { (writer_of : QueuedWriter Request → Writer) (reply_of : Reply → CoreReply) (o : Options)
        (s : State) (a b : Lists Request Reply) (ws : List Writer) (e : QueuedWriter Request) (p : Reply)
        (stops delays : ℕ) → StandsAs writer_of reply_of ws a s → HasItems writer_of a.0.0
        → reply_of p ≡ refused (no.Incomplete stops delays 0) → IsDrop e p a b
        → IsTaken writer_of reply_of o (core.Leave e.by stops delays) s [] b }
    // While a leader stalls writes, the core's `link` refuses a commit that may not be slowed down, and the lists stay
    // as they are. In the running list this is a load of the newest writer that finds the marker (`ShowsStall`).
    ensures link_refused { (writer_of : QueuedWriter Request → Writer) (reply_of : Reply → CoreReply) (o : Options)
        (s : State) (a : Lists Request Reply) (ws : List Writer) (c : ℕ) (w : Writer)
        → IsCoreOf writer_of reply_of ws a (list_half_of s) → IsStalled a → IsCommit o s c w
        → w.options.no_slowdown ≡ true
        → IsRefusedAtOnce o s c w × IsTaken writer_of reply_of o (core.Link c) s ws a }
    // Any other commit can't be linked then.
    ensures link_barred { (writer_of : QueuedWriter Request → Writer) (reply_of : Reply → CoreReply) (o : Options)
        (s : State) (a : Lists Request Reply) (ws : List Writer) (c : ℕ) (w : Writer)
        → IsCoreOf writer_of reply_of ws a (list_half_of s) → IsStalled a → IsCommit o s c w
        → w.options.no_slowdown ≡ false → step o s (core.Link c) ≡ None }
    // Nor can a read of the log.
    ensures link_read_barred { (writer_of : QueuedWriter Request → Writer) (reply_of : Reply → CoreReply) (o : Options)
        (s : State) (a : Lists Request Reply) (ws : List Writer) (c : ℕ) (w : Writer)
        → IsCoreOf writer_of reply_of ws a (list_half_of s) → IsStalled a → IsUpdates s c w
        → step o s (core.Link c) ≡ None }
    ensures unstall { (writer_of : QueuedWriter Request → Writer) (reply_of : Reply → CoreReply) (o : Options)
        (s : State) (a b : Lists Request Reply) (ws : List Writer) (lead : Lead Request Reply)
        → StandsAs writer_of reply_of ws a s → IsResume lead a b
        → IsTaken writer_of reply_of o (core.Unstall lead.own.by) s [] b }
    ensures complete { (writer_of : QueuedWriter Request → Writer) (reply_of : Reply → CoreReply) (o : Options)
        (s : State) (a b : Lists Request Reply) (ws : List Writer) (e : QueuedWriter Request) (p : Reply)
        (client : Client) → StandsAs writer_of reply_of ws a s → IsComplete e p a b → IsInNone e.by a
        → client_at s e.by ≡ Some client
        → HasLeft s e.by (reply_of p) × IsTaken writer_of reply_of o (core.Complete e.by) s ws b }
{
    codes_stand_for_items();
}
