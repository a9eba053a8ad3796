//! How a leader makes its group, answers it, and serves it. The contract of each step says when it is allowed.

ghost use Rattle.std.specs.Prelude.{◌≡◌, ℕ, ◌≤◌, List, vec_len, vec_capacity};
ghost use Rattle.line_rule.specs.declared.view.QueuedWriter.{QueuedWriter};
ghost use Rattle.line_rule.specs.Chain.{heads, Within};
ghost use Rattle.line_rule.specs.Members.{pays};
ghost use Rattle.line_writers.specs.Roles.{AreMembers};
ghost use Rattle.line_writers.specs.Rooms.{AreReady};
ghost use Rattle.line_writers.specs.Seats.{clients_of};
ghost use Rattle.tests_line_stages.specs.Clients.{IsPipelined, IsIdle, IsLeader, HasRequests, IsSentOn, MayServe, MayWrite};

use super::clients::{Counted, Seat};
use crate::client::StagePlayer;
use crate::counter::CountingRight;
use line_writers::{Lists, PipelinedRole, Replies, members_in_order, replies_in_order};
use std::rt;
use std::sync::Wait;
use tests_line::{CountLog, CountReply, CountRequest, answer_all};

// Takes the requests of the leader's group.
pub(super) fn grouped(
    list: &Counted,
    writer: &mut Seat,
    lists: &mut Lists<CountRequest, CountReply>,
)
    requires leads { IsLeader list.now writer.old }
    requires ready { AreReady (clients_of list.now) lists.old }
    ensures client { writer.new.client ≡ writer.old.client }
    ensures group { HasRequests list.now writer.new lists.new }
{
    list.group(writer, &mut lists.requests, &mut lists.room);
}

// Notes the members of a group, without its leader.
fn note_members(replies: &Replies<CountReply>, members: &mut Vec<u32>)
    requires room { vec_len replies.now.list ≤ vec_capacity members.old }
    ensures room { vec_capacity members.new ≡ vec_capacity members.old }
    ensures members { (n : ℕ) (own : QueuedWriter CountRequest) (p : CountReply)
        (gs : List (QueuedWriter CountRequest × CountReply))
        → replies.now.list.items ≡ pays own p gs → Within n (heads gs) → AreMembers n members.new.items gs }
{
    members_in_order::<CountRequest, CountReply>();
    members.clear();
    // The members before place `i` are noted, without the leader.
    for i in 1..replies.list.len() {
        members.push_reserved(replies.list[i].0);
    }
}

// Answers the group, and sends it on to the second list. Answers the counter's number before the group and after it.
pub(super) fn sent<R: Wait + rt::Clock>(
    rt: &R,
    list: &Counted,
    client: &mut StagePlayer,
    mut counter: CountLog,
) -> (u64, u64)
    requires group { HasRequests list.now client.old.writer client.old.lists }
    requires pipelined { IsPipelined list.now × (clients_of list.now ≤ vec_capacity client.old.members) }
    ensures client { client.new.writer.client ≡ client.old.writer.client }
    ensures sent { IsSentOn list.now client.new }
{
    let first = counter.count;
    answer_all(
        &mut counter,
        &mut client.lists.requests,
        &mut client.lists.replies,
    );
    let next = counter.count;
    note_members(&client.lists.replies, &mut client.members);
    replies_in_order::<CountRequest, CountReply>();
    list.exit_pipelined(
        rt,
        &mut client.writer,
        counter,
        &mut client.lists.replies,
        &mut client.lists.room,
    );
    (first, next)
}

// Answers the group, which is refused, and leaves with a log that doesn't count it.
pub(super) fn refused(
    list: &Counted,
    writer: &mut Seat,
    lists: &mut Lists<CountRequest, CountReply>,
    counter: CountLog,
) -> CountReply
    requires group { HasRequests list.now writer.old lists.old }
    requires pipelined { IsPipelined list.now }
    ensures out { IsIdle list.now writer.old.client writer.new }
    ensures ready { AreReady (clients_of list.now) lists.new }
{
    let mut uncounted = CountLog {
        count: counter.count,
        sum: counter.sum,
    };
    answer_all(&mut uncounted, &mut lists.requests, &mut lists.replies);
    replies_in_order::<CountRequest, CountReply>();
    list.exit(writer, counter, &mut lists.replies, &mut lists.room)
}

// Waits until the client's group, which was sent on, is the oldest of the second list.
pub(super) fn right_for<R: Wait + rt::Clock>(
    rt: &R,
    list: &Counted,
    client: &mut StagePlayer,
) -> CountingRight
    requires sent { IsSentOn list.now client.old }
    requires pipelined { IsPipelined list.now }
    ensures client { client.new.writer.client ≡ client.old.writer.client }
    ensures serves { MayServe list.now client.new }
{
    match list.await_pipelined_role(rt, &mut client.writer) {
        PipelinedRole::MemLeader(right) => right,
        PipelinedRole::LogLeader(_) => unreachable!(),
        PipelinedRole::Parallel => unreachable!(),
        PipelinedRole::Done(_) => unreachable!(),
    }
}

// Asks all other members of the group to work in parallel with their leader.
pub(super) fn launched(list: &Counted, client: &mut StagePlayer)
    requires serves { MayServe list.now client.old }
    ensures client { client.new.writer.client ≡ client.old.writer.client }
    ensures serves { MayServe list.now client.new }
{
    list.launch_roles(&mut client.writer, client.members.as_slice());
}

// Leaves the second list. Answers the client's own reply.
pub(super) fn served(list: &Counted, client: &mut StagePlayer, right: CountingRight) -> CountReply
    requires serves { MayServe list.now client.old }
    requires pipelined { IsPipelined list.now }
    ensures { MayWrite list.now client.old.writer.client client.new }
{
    list.exit_memtable(&mut client.writer, right, &mut client.lists.room)
}

// Notes in the right that a group with these numbers is served, in which `helpers` writers work in parallel with the
// leader.
pub(super) fn note_group(right: &mut CountingRight, (first, next): (u64, u64), helpers: usize) {
    if right.next != first {
        right.wrong = right.wrong.wrapping_add(1);
    }
    right.next = next;
    right.groups = right.groups.wrapping_add(1);
    right.helped = right.helped.wrapping_add(helpers as u64);
}
