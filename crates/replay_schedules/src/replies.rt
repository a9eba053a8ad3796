//! The replies that the clients of a script got on the core.

ghost use Rattle.std.specs.Prelude.{◌≡◌, ◌++◌, ◌≤◌, length, drop, slice_get, IfOk, OnOk};
ghost use Rattle.run_command_list.specs.Views.{command_of};
ghost use Rattle.replay_core.specs.Shown.{plans_in};
ghost use Rattle.replay_schedules.specs.Maps.{IsMapOf};
ghost use Rattle.replay_schedules.specs.Replaying.{InEachShown, read_by, reply_by, first_reply, next_reply, replies_by, AreTranscripts};

use crate::reading::MapUpTo;
use crate::records::records_since;
use model_base::{MAX_CLIENTS, NoMemory};
use replay_core::{CoreReply, State};
use replay_plans::ClientPlan;
use run_command_list::{CommandKind, CommandView};
use run_outcome::Reply;
use std::alloc::Global;

/// The replies that each client got.
pub fn transcripts_of(alloc: Global, core: &State<'_>) -> Result<Vec<Vec<Reply>>, NoMemory>
    requires { length (plans_in core.now) ≤ MAX_CLIENTS }
    ensures { InEachShown core.now (λ s. IfOk result (λ t.
        AreTranscripts s (plans_in core.now) (length (plans_in core.now)) t.items)) }
{
    let plans = core.plans();
    let mut transcripts = Vec::with_capacity(alloc, plans.len())?;
    // There is a transcript for each client so far.
    for (before, plan) in plans.iter().enumerate() {
        let told = core.replies(before as u32 + 1);
        transcripts.push(replies_of(alloc, plan, told, core)?)?;
    }
    Ok(transcripts)
}

/// The replies that a client got to its commands: `told` has those to its commits and reads, in order.
fn replies_of(
    alloc: Global,
    plan: &ClientPlan<'_>,
    told: &[CoreReply],
    core: &State<'_>,
) -> Result<Vec<Reply>, NoMemory>
    ensures { InEachShown core.now (λ s. IfOk result (λ replies.
        replies.items ≡ replies_by s plan.now told.now)) }
{
    let mut reads = MapUpTo::new(alloc);
    let mut replies = Vec::with_capacity(alloc, told.len())?;
    // The replies are those to the lines so far.
    for place in 0..plan.len() {
        add_reply(
            alloc,
            &mut replies,
            &mut reads,
            plan.line(place),
            told,
            core,
        )?;
    }
    Ok(replies)
}

/// Adds the reply to a client's next command, if the command has one by now.
fn add_reply(
    alloc: Global,
    replies: &mut Vec<Reply>,
    reads: &mut MapUpTo,
    command: &CommandView<'_>,
    told: &[CoreReply],
    core: &State<'_>,
) -> Result<(), NoMemory>
    ensures reads { InEachShown core.now (λ s. IsMapOf s.entries reads.old → IsMapOf s.entries reads.new) }
    ensures replies { InEachShown core.now (λ s. IsMapOf s.entries reads.old → OnOk result (replies.new.items
        ≡ replies.old.items ++ next_reply s (drop (length replies.old.items) told.now)
        (command_of command.now))) }
{
    match command.kind() {
        CommandKind::Commit | CommandKind::Read => {
            add_next(alloc, replies, reads, command, told, core)
        }
        CommandKind::Addition | CommandKind::Clear => Ok(()),
        // The core knows no write controller, so no script with a schedule has this.
        CommandKind::Token => Ok(()),
    }
}

/// Adds the reply to a commit or a read: the first of the replies that are left.
fn add_next(
    alloc: Global,
    replies: &mut Vec<Reply>,
    reads: &mut MapUpTo,
    command: &CommandView<'_>,
    told: &[CoreReply],
    core: &State<'_>,
) -> Result<(), NoMemory>
    ensures reads { InEachShown core.now (λ s. IsMapOf s.entries reads.old → IsMapOf s.entries reads.new) }
    ensures replies { InEachShown core.now (λ s. IsMapOf s.entries reads.old → OnOk result (replies.new.items
        ≡ replies.old.items ++ first_reply s (command_of command.now)
        (drop (length replies.old.items) told.now))) }
{
    let Some(next) = reply_at(told, replies.len()) else {
        return Ok(());
    };
    if let Some(reply) = reply_of(alloc, reads, command, next, core)? {
        replies.push(reply)?;
    }
    Ok(())
}

fn reply_at(told: &[CoreReply], at: usize) -> Option<CoreReply>
    ensures { result ≡ slice_get told.now at }
{
    if at < told.len() {
        Some(told[at])
    } else {
        None
    }
}

/// The reply to a command. The core says all of it except the values that were read. The result is `None` where the
/// core says that a command was a read which isn't one; the core never says this.
fn reply_of(
    alloc: Global,
    reads: &mut MapUpTo,
    command: &CommandView<'_>,
    told: CoreReply,
    core: &State<'_>,
) -> Result<Option<Reply>, NoMemory>
    ensures reads { InEachShown core.now (λ s. IsMapOf s.entries reads.old → IsMapOf s.entries reads.new) }
    ensures reply { InEachShown core.now (λ s. IsMapOf s.entries reads.old
        → IfOk result (λ reply. reply ≡ reply_by s (command_of command.now) told)) }
{
    match told {
        CoreReply::Accepted(run) => Ok(Some(Reply::Accepted(run))),
        CoreReply::Refused { why } => Ok(Some(Reply::Refused(why))),
        CoreReply::ReadAt { at } => read_of(alloc, reads, command, at, core),
    }
}

/// The reply to a command that was answered by reading at a sequence, if the command is a read.
fn read_of(
    alloc: Global,
    reads: &mut MapUpTo,
    command: &CommandView<'_>,
    at: u64,
    core: &State<'_>,
) -> Result<Option<Reply>, NoMemory>
    ensures reads { InEachShown core.now (λ s. IsMapOf s.entries reads.old → IsMapOf s.entries reads.new) }
    ensures reply { InEachShown core.now (λ s. IsMapOf s.entries reads.old
        → IfOk result (λ reply. reply ≡ read_by s at (command_of command.now))) }
{
    match command {
        CommandView::Get { family, key } => {
            Ok(Some(Reply::found(at, reads.value(core, *family, key, at)?)))
        }
        CommandView::Many { keys } => Ok(Some(Reply::FoundEach {
            at,
            values: reads.values(core, keys.again(), at)?,
        })),
        CommandView::Scan { family, lo, hi } => Ok(Some(Reply::Rows {
            at,
            rows: reads.rows(core, *family, lo, hi, at)?,
        })),
        CommandView::Updates { since } => Ok(Some(Reply::Updates {
            at,
            records: records_since(alloc, core, *since, at)?,
        })),
        _ => Ok(None),
    }
}
