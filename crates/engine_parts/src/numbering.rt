//! How a leader gives its group runs, and answers it.

ghost use Rattle.std.specs.Prelude.{◌≡◌, ◌≤◌, ◌+◌, ◌<◌, ◌^◌, ℕ, List, Err, false, true, [], ◌∷◌, ◌++◌, length, if◌then◌else◌, MatchOption, vec_len, vec_capacity};
ghost use Rattle.model_base.specs.History.{max_sequence};
ghost use Rattle.table_rule.specs.declared.content.Version.{Version};
ghost use Rattle.table_nodes.specs.Parts.{group_of};
ghost use Rattle.engine_rule.specs.Plans.{last_with_all, last_with, versions_at, versions_from, AreLawful, HaveOwnClients};
ghost use Rattle.engine_rule.specs.Parts.{members_of};
ghost use Rattle.engine_stage_laws.specs.Served.{parts_from};
ghost use Rattle.engine_parts.specs.Led.{IsLedGroup, LeadsBy};
ghost use Rattle.engine_parts.specs.declared.requests.Request.{Request};
ghost use Rattle.engine_parts.specs.Handled.{commit_requests_of, reply_with, failures};
ghost use Rattle.engine_parts.specs.Numbering.{numbering_at, numberings_of, batch_at, batches_of, HasVersions, AreHelpers, AreParts, others_in, others_than, parts_with, answers, AreEnough, IsAnswer, HasBatch, run_with, full_with};

use crate::envelope::{Envelope, SealedAnswer, SealedRequest};
use crate::requests::{Answer, Delay, Request};
use engine_calls::{Receipt, Refused};
use log_batch::{Batch, Run, next_run};
use model_base::Refusal;
use std::snapshot::Snapshot;
use table_nodes::Parts;

/// How many records a member must bring, on average, so that it is faster to wake it and let it insert them itself
/// than to let its leader insert them too.
const WORTH_WAKING: u64 = 8;

/// What happens to a member's batch: either it has a run, and is among the batches that are written, with the first
/// sequence of its run; or there is no room. `before` is the sequence that the batch had when it was handed in. The
/// answer goes back in the envelope in which the batch came.
#[derive(Drop)]
pub enum Numbering {
    Given {
        client: u32,
        run: Run,
        before: u64,
        envelope: Envelope,
    },
    SequenceFull {
        client: u32,
        last: u64,
        batch: Batch,
        envelope: Envelope,
    },
}

/// What happened to a group: either its batches were written, and this is its last sequence; or the log has this
/// fault.
#[derive(Clone, Copy)]
pub(crate) enum GroupFate {
    Written { group_last: u64 },
    Faulted { count: u64 },
}

/// Takes the first item out. Answers are in the order of the requests, the leader's first. A group has few members, so
/// moving up the rest costs less than reversing its lists.
pub fn take_first<Element>(items: &mut Vec<Element>) -> Option<Element>
    ensures first { MatchOption result ((items.old.items ≡ [])
        × (items.new.items ≡ [])) (λ x. items.old.items ≡ x ∷ items.new.items) }
    ensures room { vec_capacity items.new ≡ vec_capacity items.old }
{
    if items.is_empty() {
        return None;
    }
    Some(items.remove(0))
}

/// The batch of a request that gets no run, and its envelope.
pub(crate) fn batch_of(request: SealedRequest) -> (Batch, Envelope)
    ensures { result.0 ≡ request.batch }
{
    let (request, envelope) = request.open();
    let Request {
        batch,
        nodes: _,
        options: _,
        note: _,
        since: _,
        shown: _,
    } = request;
    (batch, envelope)
}

/// Gives runs after `last` to the requests whose runs fit. Their versions are all in one part, that of `member`.
/// Returns the last sequence given then.
pub(crate) fn number_all(
    requests: &mut Vec<(u32, SealedRequest)>,
    member: u32,
    last: u64,
    numberings: &mut Vec<Numbering>,
    batches: &mut Vec<Batch>,
    parts: &mut Parts,
) -> u64
    requires last { last ≤ max_sequence }
    requires member { (1 ≤ member) × (member ≤ parts.old.clients) }
    requires room { (length requests.old.items ≤ vec_capacity numberings.old)
        × (length requests.old.items ≤ vec_capacity batches.old) }
    requires empty { (numberings.old.items ≡ []) × (batches.old.items ≡ []) × (parts.old.parts ≡ []) }
    ensures reached { result ≡ last_with_all last (commit_requests_of requests.old.items) }
    ensures numberings { numberings.new.items ≡ numberings_of last requests.old.items }
    ensures batches { batches.new.items ≡ batches_of last requests.old.items }
    ensures parts { HasVersions member (versions_from last (commit_requests_of requests.old.items)) parts.new.parts
        × (parts.new.clients ≡ parts.old.clients) }
    ensures taken { requests.new.items ≡ [] }
    ensures room { (vec_capacity requests.new ≡ vec_capacity requests.old)
        × (vec_capacity numberings.new ≡ vec_capacity numberings.old)
        × (vec_capacity batches.new ≡ vec_capacity batches.old) }
{
    let mut at = last;
    // What is laid out so far, together with what the requests that are left will add, is the whole layout.
    while let Some((client, request)) = take_first(requests) {
        at = number_one(client, request, member, at, numberings, batches, parts);
    }
    at
}

/// Gives runs as `number_all` does, but each member with a run gets its own part. The members that have a part are
/// noted, except the leader.
pub(crate) fn number_apart(
    requests: &mut Vec<(u32, SealedRequest)>,
    leader: u32,
    last: u64,
    numberings: &mut Vec<Numbering>,
    batches: &mut Vec<Batch>,
    parts: &mut Parts,
    members: &mut Vec<u32>,
) -> u64
    requires last { last ≤ max_sequence }
    requires members { AreLawful parts.old.clients (commit_requests_of requests.old.items)
        × HaveOwnClients (commit_requests_of requests.old.items) }
    requires room { (length requests.old.items ≤ vec_capacity numberings.old)
        × (length requests.old.items ≤ vec_capacity batches.old)
        × (length requests.old.items ≤ vec_capacity members.old) }
    requires empty { (numberings.old.items ≡ []) × (batches.old.items ≡ []) × (parts.old.parts ≡ [])
        × (members.old.items ≡ []) }
    ensures reached { result ≡ last_with_all last (commit_requests_of requests.old.items) }
    ensures numberings { numberings.new.items ≡ numberings_of last requests.old.items }
    ensures batches { batches.new.items ≡ batches_of last requests.old.items }
    ensures parts { (group_of parts.new.parts ≡ parts_from last (commit_requests_of requests.old.items))
        × (parts.new.clients ≡ parts.old.clients) }
    ensures members { members.new.items ≡ others_than leader (members_of (group_of parts.new.parts)) }
    ensures taken { requests.new.items ≡ [] }
    ensures room { (vec_capacity requests.new ≡ vec_capacity requests.old)
        × (vec_capacity numberings.new ≡ vec_capacity numberings.old)
        × (vec_capacity batches.new ≡ vec_capacity batches.old)
        × (vec_capacity members.new ≡ vec_capacity members.old) }
{
    let mut at = last;
    // What is laid out so far, together with what the requests that are left will add, is the whole layout. None of
    // these requests has a part yet, and the members that have one are noted, except the leader.
    while let Some((client, request)) = take_first(requests) {
        let before = at;
        at = number_one(client, request, client, at, numberings, batches, parts);
        note_member(client, leader, before < at, members);
    }
    at
}

/// Notes a member that has a part, unless it is the leader.
fn note_member(member: u32, leader: u32, has_part: bool, members: &mut Vec<u32>)
    requires room { vec_len members.old < vec_capacity members.old }
    ensures noted { members.new.items
        ≡ members.old.items ++ others_than leader (if has_part then member ∷ [] else []) }
    ensures room { vec_capacity members.new ≡ vec_capacity members.old }
{
    if has_part && member != leader {
        members.push_reserved(member);
    }
}

/// Whether the members other than the leader bring so many records, on average, that it is worth waking them to let
/// each insert its own part.
fn are_worth_waking(requests: &[(u32, SealedRequest)]) -> bool {
    let mut records: u64 = 0;
    // `records` is the number of records in the members' requests so far.
    for (_, request) in requests.iter().skip(1) {
        records = records.saturating_add(u64::from(request.as_request().batch.count()));
    }
    let members = (requests.len() as u64).saturating_sub(1);
    records >= members.saturating_mul(WORTH_WAKING)
}

/// Whether each member may get its own part, which it inserts itself: only where groups go into the table in a stage
/// of their own, and the table has several locks. With one lock the members would wait for each other.
pub fn may_be_apart(staged: bool, locks: u64) -> bool
    ensures { staged ≡ false → result ≡ false }
{
    staged && locks > 1
}

/// Gives runs after `last` to the requests whose runs fit. Returns the last sequence given then. Where the parts may
/// be apart, each member with a run gets its own part, and all of these but the leader are noted, since they should
/// work in parallel with it. The leader gets everything in three cases: the parts may not be apart, it has no run
/// itself, or it isn't worth waking the members of this group.
pub(crate) fn lay_out(
    requests: &mut Vec<(u32, SealedRequest)>,
    leader: u32,
    apart: bool,
    last: u64,
    numberings: &mut Vec<Numbering>,
    batches: &mut Vec<Batch>,
    parts: &mut Parts,
    members: &mut Vec<u32>,
) -> u64
    requires last { last ≤ max_sequence }
    requires group { (group_bytes : ℕ) × IsLedGroup group_bytes parts.old.clients requests.old.items }
    requires leads { LeadsBy leader requests.old.items }
    requires room { (length requests.old.items ≤ vec_capacity numberings.old)
        × (length requests.old.items ≤ vec_capacity batches.old)
        × (length requests.old.items ≤ vec_capacity members.old) }
    requires empty { (numberings.old.items ≡ []) × (batches.old.items ≡ []) × (parts.old.parts ≡ []) }
    ensures reached { result ≡ last_with_all last (commit_requests_of requests.old.items) }
    ensures numberings { numberings.new.items ≡ numberings_of last requests.old.items }
    ensures batches { batches.new.items ≡ batches_of last requests.old.items }
    ensures parts { AreParts leader parts.old.clients members.new.items
        (versions_from last (commit_requests_of requests.old.items)) (group_of parts.new.parts)
        × (parts.new.clients ≡ parts.old.clients) }
    ensures beside { AreHelpers apart (others_in requests.old.items) members.new.items }
    ensures taken { requests.new.items ≡ [] }
    ensures room { (vec_capacity requests.new ≡ vec_capacity requests.old)
        × (vec_capacity numberings.new ≡ vec_capacity numberings.old)
        × (vec_capacity batches.new ≡ vec_capacity batches.old)
        × (vec_capacity members.new ≡ vec_capacity members.old) }
{
    members.clear();
    let count = u64::from(requests[0].1.as_request().batch.count());
    if apart && next_run(last, count).is_ok() && are_worth_waking(requests.as_slice()) {
        return number_apart(requests, leader, last, numberings, batches, parts, members);
    }
    number_all(requests, leader, last, numberings, batches, parts)
}

/// Gives one request its run, if it fits.
fn number_one(
    client: u32,
    request: SealedRequest,
    member: u32,
    last: u64,
    numberings: &mut Vec<Numbering>,
    batches: &mut Vec<Batch>,
    parts: &mut Parts,
) -> u64
    requires last { last ≤ max_sequence }
    requires member { (1 ≤ member) × (member ≤ parts.old.clients) }
    requires room { (vec_len numberings.old < vec_capacity numberings.old)
        × (vec_len batches.old < vec_capacity batches.old) }
    ensures reached { result ≡ last_with last request.batch.records }
    ensures below { result ≤ max_sequence }
    ensures numberings { numberings.new.items ≡ numberings.old.items ++ numbering_at last (client, request) ∷ [] }
    ensures batches { batches.new.items ≡ batches.old.items ++ batch_at last request }
    ensures parts { (vs : List Version) → HasVersions member vs parts.old.parts
        → HasVersions member (vs ++ versions_at last request.batch.records) parts.new.parts }
    ensures added { parts.new.parts ≡ parts_with member last request.batch.records parts.old.parts }
    ensures clients { parts.new.clients ≡ parts.old.clients }
    ensures room { (vec_capacity numberings.new ≡ vec_capacity numberings.old)
        × (vec_capacity batches.new ≡ vec_capacity batches.old) }
{
    let (request, envelope) = request.open();
    let Request {
        mut batch,
        mut nodes,
        options: _,
        note: _,
        since: _,
        shown: _,
    } = request;
    let count = u64::from(batch.count());
    let run = match next_run(last, count) {
        Ok(run) => run,
        Err(_) => {
            numberings.push_reserved(Numbering::SequenceFull {
                client,
                last,
                batch,
                envelope,
            });
            return last;
        }
    };
    nodes.number(run.first, count);
    parts.add(member, nodes);
    numberings.push_reserved(Numbering::Given {
        client,
        run,
        before: batch.sequence(),
        envelope,
    });
    // The log writes a single batch as it is, so its sequence is set before.
    batch.set_sequence(run.first);
    batches.push_reserved(batch);
    run.last
}

/// Answers each member.
pub(crate) fn answer_all(
    fate: GroupFate,
    delay: &Delay,
    numberings: &mut Vec<Numbering>,
    batches: &mut Vec<Batch>,
    replies: &mut Vec<(u32, SealedAnswer)>,
)
    requires enough { AreEnough numberings.old.items batches.old.items }
    requires room { length numberings.old.items ≤ vec_capacity replies.old }
    requires empty { replies.old.items ≡ [] }
    ensures replies { replies.new.items ≡ answers fate delay.now numberings.old.items batches.old.items }
    ensures taken { (numberings.new.items ≡ []) × (batches.new.items ≡ []) }
    ensures room { (vec_capacity numberings.new ≡ vec_capacity numberings.old)
        × (vec_capacity batches.new ≡ vec_capacity batches.old)
        × (vec_capacity replies.new ≡ vec_capacity replies.old) }
{
    // The answers so far, together with those to the numberings that are left, are all answers.
    while let Some(numbering) = take_first(numberings) {
        replies.push_reserved(answer_one(fate, delay, numbering, batches));
    }
}

/// One member's answer.
fn answer_one(
    fate: GroupFate,
    delay: &Delay,
    numbering: Numbering,
    batches: &mut Vec<Batch>,
) -> (u32, SealedAnswer)
    requires { HasBatch numbering batches.old.items }
    ensures answer { IsAnswer fate delay.now numbering batches.old.items result batches.new.items }
    ensures room { vec_capacity batches.new ≡ vec_capacity batches.old }
{
    match numbering {
        Numbering::Given {
            client,
            run,
            before,
            envelope,
        } => {
            let Some(batch) = take_first(batches) else {
                unreachable!()
            };
            let answer = run_reply(fate, delay, run, before, batch);
            (client, envelope.tell(answer))
        }
        Numbering::SequenceFull {
            client,
            last,
            batch,
            envelope,
        } => {
            let answer = full_reply(fate, delay, last, batch);
            (client, envelope.tell(answer))
        }
    }
}

/// The answer to a batch that has a run. If the batch wasn't written, it goes back with the sequence that it had
/// before.
fn run_reply(fate: GroupFate, delay: &Delay, run: Run, before: u64, mut batch: Batch) -> Answer
    ensures { result ≡ run_with fate delay.now run before batch }
{
    match fate {
        GroupFate::Written { group_last } => {
            let receipt = Receipt {
                run,
                group_last,
                batch,
            };
            reply(delay, Ok(receipt))
        }
        GroupFate::Faulted { count } => {
            batch.set_sequence(before);
            refusal(delay, Refusal::LogFault { count }, batch)
        }
    }
}

fn full_reply(fate: GroupFate, delay: &Delay, last: u64, batch: Batch) -> Answer
    ensures { result ≡ full_with fate delay.now last batch }
{
    match fate {
        GroupFate::Written { group_last: _ } => refusal(
            delay,
            Refusal::SequenceFull { last },
            batch,
        ),
        GroupFate::Faulted { count } => refusal(delay, Refusal::LogFault { count }, batch),
    }
}

fn refusal(delay: &Delay, why: Refusal, batch: Batch) -> Answer
    ensures { result ≡ reply_with delay.now (Err (record { batch = batch; why = why })) }
{
    reply(delay, Err(Refused { batch, why }))
}

/// A reply without a note.
fn reply(delay: &Delay, answer: Result<Receipt, Refused>) -> Answer
    ensures { result ≡ reply_with delay.now answer }
{
    Answer {
        answer,
        delay: Snapshot::of(delay),
        note: None,
        read: None,
    }
}

/// Answers each member with the log's fault.
pub(crate) fn refuse_all(
    count: u64,
    delay: &Delay,
    requests: &mut Vec<(u32, SealedRequest)>,
    replies: &mut Vec<(u32, SealedAnswer)>,
)
    requires room { length requests.old.items ≤ vec_capacity replies.old }
    requires empty { replies.old.items ≡ [] }
    ensures replies { replies.new.items ≡ failures delay.now count requests.old.items }
    ensures taken { requests.new.items ≡ [] }
    ensures room { (vec_capacity requests.new ≡ vec_capacity requests.old)
        × (vec_capacity replies.new ≡ vec_capacity replies.old) }
{
    // The answers so far, together with those to the requests that are left, are all answers.
    while let Some((client, request)) = take_first(requests) {
        let (batch, envelope) = batch_of(request);
        let answer = refusal(delay, Refusal::LogFault { count }, batch);
        replies.push_reserved((client, envelope.tell(answer)));
    }
}
