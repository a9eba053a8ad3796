//! Where a client is in its plan, and the replies that it gets.

ghost use Rattle.std.specs.Prelude.{◌≡◌, ◌<◌, true, false, List, [], length, Some, MatchOption};
ghost use Rattle.model_core.specs.Core as core;
ghost use Rattle.model_core.specs.Step as event;
ghost use Rattle.model_base.specs.Batch.{Record};
ghost use Rattle.model_base.specs.Calls as calls;
ghost use Rattle.replay_plans.specs.declared.plan.ClientPlan.{ClientPlan};
ghost use Rattle.replay_core.specs.Shown.{shown_reply};
ghost use Rattle.replay_core.specs.Mirrors.{IsClient};
ghost use Rattle.replay_plans.specs.Answers.{is_answer};
ghost use Rattle.replay_core.specs.Replies.{IsReply};
ghost use Rattle.replay_plans.specs.Ahead.{IsAhead};

use crate::room::push_within;
use crate::state::Seat;
use crate::writer::{Answer, CoreReply};
use replay_plans::{Ahead, ClientPlan, look_ahead};

/// A client that waits gets its reply.
pub(crate) fn told(seat: &mut Seat, reply: CoreReply)
    ensures { (plan : ClientPlan) (client : core.Client) (command : calls.Command) (r : calls.Reply)
        → IsClient plan seat.old client → client.idle ≡ false → IsReply reply r → is_answer r ≡ Some r
        → IsClient plan seat.new (core.after_reply client command r) }
{
    push_within(&mut seat.replies, reply);
    seat.idle = true;
}

/// Makes a client's batch new and empty.
pub(crate) fn empty_batch(seat: &mut Seat)
    ensures { (plan : ClientPlan) (client : core.Client) → IsClient plan seat.old client
        → IsClient plan seat.new (record client { added = [] }) }
{
    seat.from = seat.next;
}

/// A client gets the answer of its commit, or of its read of the log.
pub(crate) fn settle(seat: &mut Seat, answer: Answer)
    ensures { (s : core.State) (plan : ClientPlan) (client : core.Client) (w : core.Writer) (records : List Record)
        → IsClient plan seat.old client → client.idle ≡ false
        → IsClient plan seat.new (event.after_completion client w
        (core.reply_told s w.since (shown_reply records answer))) }
{
    match answer {
        Answer::Accepted(run) => {
            empty_batch(seat);
            told(seat, CoreReply::Accepted(run));
        }
        Answer::Refused { why } => told(seat, CoreReply::Refused { why }),
        Answer::ReadAt { at } => told(seat, CoreReply::ReadAt { at }),
    }
}

/// Where the next call of a client is, if the client is idle.
pub(crate) fn next_call(plan: &ClientPlan<'_>, seat: &Seat) -> Option<Ahead>
    ensures { (client : core.Client) → IsClient plan.now seat.now client
        → MatchOption result (client.idle ≡ false) (λ a. (client.idle ≡ true)
        × IsAhead plan.now seat.now.next a client.calls client (core.next_call client)) }
{
    if !seat.idle {
        return None;
    }
    Some(look_ahead(plan, seat.next, seat.from))
}

/// An idle client reaches a call and gets its reply at once.
pub(crate) fn answer(seat: &mut Seat, ahead: Ahead, reply: CoreReply)
    ensures { (plan : ClientPlan) (client : core.Client) (command : calls.Command) (r : calls.Reply)
        → IsClient plan seat.old client → client.idle ≡ true
        → IsAhead plan seat.old.next ahead client.calls client (core.next_call client)
        → ahead.call < length plan → IsReply reply r → is_answer r ≡ Some r
        → IsClient plan seat.new (core.after_reply (core.next_call client).client command r) }
{
    seat.next = ahead.next;
    seat.from = ahead.from;
    push_within(&mut seat.replies, reply);
    seat.idle = true;
}

/// An idle client reaches a commit, and waits for its answer.
pub(crate) fn wait(seat: &mut Seat, ahead: Ahead)
    ensures { (plan : ClientPlan) (client : core.Client) → IsClient plan seat.old client → client.idle ≡ true
        → IsAhead plan seat.old.next ahead client.calls client (core.next_call client)
        → ahead.call < length plan
        → IsClient plan seat.new (record (core.next_call client).client { idle = false }) }
{
    seat.next = ahead.next;
    seat.from = ahead.from;
    seat.idle = false;
}
