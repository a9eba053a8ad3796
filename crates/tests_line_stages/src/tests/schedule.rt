//! Schedules: calls of the list by its clients, in a fixed order on one thread, and what each call answers.

ghost use Rattle.std.specs.Prelude.{◌≡◌, ◌<◌, length};
ghost use Rattle.tests_line_stages.specs.Clients.{IsPipelined, IsSentOn, HasAsked, AllStand, Stands};

use super::clients::{Counted, ask};
use super::leading::{grouped, launched, note_group, refused, right_for, sent, served};
use crate::client::{PlayerStage, StagePlayer};
use line_writers::PipelinedRole;
use std::process::Abort;
use std::sync::Wait;
use std::{mem, rt};
use tests_line::sized;

/// A call of a client.
#[derive(Clone, Copy, Debug)]
pub(super) enum Call {
    Link,
    AwaitRole,
    Group,
    /// Ends a group that is refused: none of its members is counted.
    Exit,
    ExitPipelined,
    LaunchRoles,
    ExitMemtable,
}

/// What a call answers.
#[derive(Clone, Copy, Debug, PartialEq)]
pub(super) enum Seen {
    Nothing,
    /// How many requests the log has counted, and whether a group is in the second list.
    LogLeader(u64, bool),
    /// How many members the group has.
    Group(usize),
    /// The next number to be served.
    MemLeader(u64),
    Parallel,
    /// The client's own number.
    Done(u64),
}

/// The client that makes a call, the call, and what it answers.
pub(super) type Turn = (usize, Call, Seen);

// Makes the calls one after another, and compares what each answers.
pub(super) fn play<R: Wait + rt::Clock + Abort>(
    rt: &R,
    list: &Counted,
    clients: &mut [StagePlayer],
    schedule: &[Turn],
)
    requires stand { AllStand list.now clients.old }
    requires pipelined { IsPipelined list.now }
    ensures { AllStand list.now clients.new × (length clients.new ≡ length clients.old) }
{
    // Between two calls each client is where its stage says.
    for (number, call, seen) in schedule {
        let i = number.wrapping_sub(1);
        assert!(rt; i < clients.len());
        let answer = turn(rt, list, clients, i, *call);
        assert_eq!(rt; answer, *seen, "{call:?} of client {number}");
    }
}

// The client at this place makes the call.
fn turn<R: Wait + rt::Clock + Abort>(
    rt: &R,
    list: &Counted,
    clients: &mut [StagePlayer],
    i: usize,
    call: Call,
) -> Seen
    requires stand { AllStand list.now clients.old }
    requires is_there { i < length clients.old }
    requires pipelined { IsPipelined list.now }
    ensures { AllStand list.now clients.new × (length clients.new ≡ length clients.old) }
{
    called(rt, list, &mut clients[i], call)
}

fn called<R: Wait + rt::Clock + Abort>(
    rt: &R,
    list: &Counted,
    client: &mut StagePlayer,
    call: Call,
) -> Seen
    requires stands { Stands list.now client.old.writer.client client.old }
    requires pipelined { IsPipelined list.now }
    ensures { Stands list.now client.old.writer.client client.new }
{
    match call {
        Call::Link => link(rt, list, client),
        Call::AwaitRole => await_role(rt, list, client),
        Call::Group => group(rt, list, client),
        Call::Exit => exit(rt, list, client),
        Call::ExitPipelined => exit_pipelined(rt, list, client),
        Call::LaunchRoles => launch_roles(rt, list, client),
        Call::ExitMemtable => exit_memtable(rt, list, client),
    }
}

fn link<R: Wait + rt::Clock + Abort>(rt: &R, list: &Counted, client: &mut StagePlayer) -> Seen
    requires stands { Stands list.now client.old.writer.client client.old }
    ensures { Stands list.now client.old.writer.client client.new }
{
    let PlayerStage::Out = mem::replace(&mut client.stage, PlayerStage::Out) else {
        panic!(rt; "it is in a list")
    };
    ask(rt, list, &mut client.writer, sized(1));
    client.stage = PlayerStage::Linked;
    Seen::Nothing
}

fn await_role<R: Wait + rt::Clock + Abort>(rt: &R, list: &Counted, client: &mut StagePlayer) -> Seen
    requires stands { Stands list.now client.old.writer.client client.old }
    requires pipelined { IsPipelined list.now }
    ensures { Stands list.now client.old.writer.client client.new }
{
    match mem::replace(&mut client.stage, PlayerStage::Out) {
        PlayerStage::Linked => await_first(rt, list, client),
        PlayerStage::Waits(first, next) => await_right(rt, list, client, (first, next)),
        _ => panic!(rt; "it has a role"),
    }
}

// Waits in the first list.
fn await_first<R: Wait + rt::Clock>(rt: &R, list: &Counted, client: &mut StagePlayer) -> Seen
    requires asked { HasAsked list.now client.old.writer.client client.old }
    requires pipelined { IsPipelined list.now }
    ensures { Stands list.now client.old.writer.client client.new }
{
    match list.await_pipelined_role(rt, &mut client.writer) {
        PipelinedRole::LogLeader(counter) => {
            let count = counter.count;
            let has_groups = list.has_groups(&mut client.writer);
            client.stage = PlayerStage::Leads(counter);
            Seen::LogLeader(count, has_groups)
        }
        PipelinedRole::Parallel => {
            client.stage = PlayerStage::Linked;
            Seen::Parallel
        }
        PipelinedRole::Done(answer) => {
            client.stage = PlayerStage::Out;
            Seen::Done(answer.number)
        }
        PipelinedRole::MemLeader(_) => unreachable!(),
    }
}

// Waits in the second list.
fn await_right<R: Wait + rt::Clock>(
    rt: &R,
    list: &Counted,
    client: &mut StagePlayer,
    numbers: (u64, u64),
) -> Seen
    requires sent { IsSentOn list.now client.old }
    requires pipelined { IsPipelined list.now }
    ensures { Stands list.now client.old.writer.client client.new }
{
    let mut right = right_for(rt, list, client);
    let next = right.next;
    note_group(&mut right, numbers, 0);
    client.stage = PlayerStage::Serves(right);
    Seen::MemLeader(next)
}

fn group(rt: &impl Abort, list: &Counted, client: &mut StagePlayer) -> Seen
    requires stands { Stands list.now client.old.writer.client client.old }
    ensures { Stands list.now client.old.writer.client client.new }
{
    let PlayerStage::Leads(counter) = mem::replace(&mut client.stage, PlayerStage::Out) else {
        panic!(rt; "it doesn't lead")
    };
    grouped(list, &mut client.writer, &mut client.lists);
    client.stage = PlayerStage::Grouped(counter);
    Seen::Group(client.lists.requests.list.len())
}

fn exit(rt: &impl Abort, list: &Counted, client: &mut StagePlayer) -> Seen
    requires stands { Stands list.now client.old.writer.client client.old }
    requires pipelined { IsPipelined list.now }
    ensures { Stands list.now client.old.writer.client client.new }
{
    let PlayerStage::Grouped(counter) = mem::replace(&mut client.stage, PlayerStage::Out) else {
        panic!(rt; "it has no group")
    };
    let answer = refused(list, &mut client.writer, &mut client.lists, counter);
    client.stage = PlayerStage::Out;
    Seen::Done(answer.number)
}

fn exit_pipelined<R: Wait + rt::Clock + Abort>(
    rt: &R,
    list: &Counted,
    client: &mut StagePlayer,
) -> Seen
    requires stands { Stands list.now client.old.writer.client client.old }
    requires pipelined { IsPipelined list.now }
    ensures { Stands list.now client.old.writer.client client.new }
{
    let PlayerStage::Grouped(counter) = mem::replace(&mut client.stage, PlayerStage::Out) else {
        panic!(rt; "it has no group")
    };
    let (first, next) = sent(rt, list, client, counter);
    client.stage = PlayerStage::Waits(first, next);
    Seen::Nothing
}

fn launch_roles(rt: &impl Abort, list: &Counted, client: &mut StagePlayer) -> Seen
    requires stands { Stands list.now client.old.writer.client client.old }
    ensures { Stands list.now client.old.writer.client client.new }
{
    let PlayerStage::Serves(right) = mem::replace(&mut client.stage, PlayerStage::Out) else {
        panic!(rt; "it hasn't the right")
    };
    launched(list, client);
    client.stage = PlayerStage::Serves(right);
    Seen::Nothing
}

fn exit_memtable(rt: &impl Abort, list: &Counted, client: &mut StagePlayer) -> Seen
    requires stands { Stands list.now client.old.writer.client client.old }
    requires pipelined { IsPipelined list.now }
    ensures { Stands list.now client.old.writer.client client.new }
{
    let PlayerStage::Serves(right) = mem::replace(&mut client.stage, PlayerStage::Out) else {
        panic!(rt; "it hasn't the right")
    };
    let answer = served(list, client, right);
    client.stage = PlayerStage::Out;
    Seen::Done(answer.number)
}
