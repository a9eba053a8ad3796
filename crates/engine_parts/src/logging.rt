//! The first stage of a leader's work: the group gets its runs, and is written to the log.

ghost use Rattle.std.specs.Prelude.{◌≡◌, ◌≤◌, ◌<◌, ◌+◌, ◌-◌, ◌^◌, ℕ, List, [], ◌∷◌, ◌++◌, true, false, Ok, MatchOption, IfSome, length, vec_len, vec_capacity};
ghost use Rattle.std.specs.List.{AllByRecursion};
ghost use Rattle.model_base.specs.History.{max_sequence};
ghost use Rattle.engine_parts.specs.declared.log.OpenLog.{OpenLog as Opened};
ghost use Rattle.log_writer.specs.Groups.{counts_of, body_lens_of};
ghost use Rattle.log_writer.specs.Adding.{call_of};
ghost use Rattle.engine_parts.specs.Logs.{Adds};
ghost use Rattle.table_nodes.specs.Parts.{group_of};
ghost use Rattle.engine_parts.specs.Handled.{HandsBack, IsReplyOf, seen_at, went_at, handled_with, InOrder};
ghost use Rattle.engine_parts.specs.Numbering.{AreHelpers, AreEnough, answers, others_in};
ghost use Rattle.engine_parts.specs.Layout.{IsClear};
ghost use Rattle.engine_parts.specs.LogLaw.{Past, StandsForPast, with_group};
ghost use Rattle.engine_parts.specs.Led.{GoesOnWith, IsLedGroup, LeadsBy};
ghost use Rattle.engine_parts.specs.Staged.{IsStaged};

use crate::envelope::{SealedAnswer, SealedRequest};
use crate::layout::Layout;
use crate::log::OpenLog;
use crate::numbering::{GroupFate, answer_all, lay_out, refuse_all};
use crate::requests::Delay;
use log_batch::Batch;
use log_updates::{ReadPlaces, places_stay};
use log_writer::{Fault, GroupLog};
use model_base::WriteOptions;

/// The log, the last sequence given, how many calls of the log have worked, and where the clients' reads of the log may
/// begin. The number of calls is only there for the proofs.
pub struct LogPath<Log: GroupLog> {
    pub log: OpenLog<Log>,
    pub last: u64,
    pub made: u64,
    pub places: ReadPlaces,
    // Each call that worked wrote at least one sequence.
    ghost few: { made ≤ last },
}

/// Writes the batches that got runs after `last` to the log, unless they must stay out of it.
fn log_group<Log: GroupLog>(
    log: &mut OpenLog<Log>,
    last: u64,
    batches: &[Batch],
    options: WriteOptions,
) -> Result<(), Fault>
    requires some { 0 < length batches.now }
    requires counts { counts_of batches.now < 2 ^ 32 }
    requires run { last + 1 + counts_of batches.now - 1 ≤ max_sequence }
    requires lens { body_lens_of batches.now < 2 ^ 63 }
    ensures skipped { options.no_log ≡ true → (result ≡ Ok tt) × (log.new ≡ log.old) }
    ensures adds { options.no_log ≡ false → Adds (call_of (last + 1) batches.now options.sync result) log.old log.new }
{
    if options.no_log {
        return Ok(());
    }
    log.log.add_group(last + 1, batches, options.sync)
}

/// How many calls of the log have worked, once a group with these options is written.
fn made_with(made: u64, options: WriteOptions) -> u64
    requires room { made < 2 ^ 64 - 1 }
    ensures unlogged { options.no_log ≡ true → result ≡ made }
    ensures logged { options.no_log ≡ false → result ≡ made + 1 }
{
    if options.no_log { made } else { made + 1 }
}

/// Writes a group to the log, and answers each member. The delay gets the number of calls of the log that have worked
/// then. Where members have runs, it returns the group's last sequence. Then the layout has what must go into the table
/// (one part for all members; or, if the parts may be apart, perhaps one for each member with a run), and the members
/// that should work in parallel with the leader.
pub fn log_phase<Log: GroupLog>(
    path: &mut LogPath<Log>,
    leader: u32,
    apart: bool,
    delay: &mut Delay,
    requests: &mut Vec<(u32, SealedRequest)>,
    layout: &mut Layout,
    replies: &mut Vec<(u32, SealedAnswer)>,
) -> Option<u64>
    requires last { path.old.last ≤ max_sequence }
    requires few { length requests.old.items < 255 }
    requires group { (group_bytes : ℕ) × IsLedGroup group_bytes layout.old.parts.clients requests.old.items }
    requires leads { LeadsBy leader requests.old.items }
    requires layout { IsClear layout.old.parts.clients layout.old
        × (length requests.old.items ≤ vec_capacity layout.old.numberings)
        × (length requests.old.items ≤ vec_capacity layout.old.batches)
        × (length requests.old.items ≤ vec_capacity layout.old.members) }
    requires replies { (replies.old.items ≡ []) × (length requests.old.items ≤ vec_capacity replies.old) }
    ensures path { (past : Past (Opened Log ⟦<Log as GroupLog>⟧))
        → GoesOnWith past.group_bytes layout.old.parts.clients past.asked requests.old.items (seen_at delay.old)
        (went_at delay.old)
        → StandsForPast layout.old.parts.clients past path.old.log path.old.places path.old.last path.old.made
        → StandsForPast layout.old.parts.clients (with_group past (went_at delay.old) result layout.new.parts.parts
        requests.old.items replies.new.items) path.new.log path.new.places path.new.last path.new.made }
    ensures delay { (delay.new.pass ≡ delay.old.pass) × (delay.new.went ≡ delay.old.went) }
    ensures staged { IsStaged leader layout.old.parts.clients path.old.last path.new.last result
        layout.new.members.items layout.new.parts.parts replies.new.items }
    ensures beside { IfSome result (λ _. AreHelpers apart (others_in requests.old.items) layout.new.members.items) }
    ensures replies { InOrder requests.old.items replies.new.items
        × AllByRecursion HandsBack (handled_with requests.old.items replies.new.items)
        × AllByRecursion (IsReplyOf delay.new) replies.new.items }
    ensures taken { (requests.new.items ≡ []) × (layout.new.numberings.items ≡ []) × (layout.new.batches.items ≡ [])
        × (layout.new.parts.clients ≡ layout.old.parts.clients) }
    ensures room { (vec_capacity requests.new ≡ vec_capacity requests.old)
        × (vec_capacity layout.new.numberings ≡ vec_capacity layout.old.numberings)
        × (vec_capacity layout.new.batches ≡ vec_capacity layout.old.batches)
        × (vec_capacity replies.new ≡ vec_capacity replies.old)
        × (vec_capacity layout.new.members ≡ vec_capacity layout.old.members) }
{
    places_stay();
    let last = path.last;
    delay.made = path.made;
    // Nothing is written after a fault: nobody knows what the log holds there, and recovery may end at it.
    if let Some(count) = path.log.log.fault() {
        refuse_all(count, delay, requests, replies);
        return None;
    }
    let options = requests[0].1.as_request().options;
    let end = lay_out(
        requests,
        leader,
        apart,
        last,
        &mut layout.numberings,
        &mut layout.batches,
        &mut layout.parts,
        &mut layout.members,
    );
    if layout.batches.is_empty() {
        layout.drop_parts();
        answer_layout(
            GroupFate::Written { group_last: end },
            delay,
            layout,
            replies,
        );
        path.last = end;
        return None;
    }
    // All batches are one record, so that recovery keeps all of them or none.
    if let Err(Fault { count }) = log_group(
        &mut path.log,
        last,
        layout.batches.as_slice(),
        options,
    ) {
        layout.drop_parts();
        answer_layout(GroupFate::Faulted { count }, delay, layout, replies);
        return None;
    }
    path.last = end;
    path.made = made_with(path.made, options);
    delay.made = path.made;
    answer_layout(
        GroupFate::Written { group_last: end },
        delay,
        layout,
        replies,
    );
    Some(end)
}

/// Answers the members whose batches are on the layout.
fn answer_layout(
    fate: GroupFate,
    delay: &Delay,
    layout: &mut Layout,
    replies: &mut Vec<(u32, SealedAnswer)>,
)
    requires enough { AreEnough layout.old.numberings.items layout.old.batches.items }
    requires room { length layout.old.numberings.items ≤ vec_capacity replies.old }
    requires empty { replies.old.items ≡ [] }
    ensures replies { replies.new.items ≡ answers fate delay.now layout.old.numberings.items layout.old.batches.items }
    ensures taken { (layout.new.numberings.items ≡ []) × (layout.new.batches.items ≡ [])
        × (layout.new.parts ≡ layout.old.parts) × (layout.new.members ≡ layout.old.members) }
    ensures room { (vec_capacity layout.new.numberings ≡ vec_capacity layout.old.numberings)
        × (vec_capacity layout.new.batches ≡ vec_capacity layout.old.batches)
        × (vec_capacity replies.new ≡ vec_capacity replies.old) }
{
    answer_all(
        fate,
        delay,
        &mut layout.numberings,
        &mut layout.batches,
        replies,
    );
}
