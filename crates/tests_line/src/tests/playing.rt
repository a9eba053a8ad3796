//! The clients' steps. The contract of each step says when it is allowed.

ghost use Rattle.std.specs.Prelude.{◌≡◌, ℕ, ◌+◌, ◌<◌, ◌≤◌, [], vec_len, vec_capacity, length};
ghost use Rattle.line_writers.specs.Rooms.{AreReady, AllReady};
ghost use Rattle.line_writers.specs.Seats.{clients_of, AllNew, Belongs, IsOut};
ghost use Rattle.tests_line.specs.Players.{IsPlain, IsSat, IsAsking, Leads, HasRequests, MayWrite, HasAsked, AllMayWrite, AllHaveAsked, AreSat};

use crate::counter::{CountLog, CountReply, CountRequest, Nothing, Player, answer_all, note};
use crate::items::sized;
use line_rule::{STALL, Start};
use line_writers::{Lists, Role, Writer, WriterList, replies_in_order};
use model_base::{Item, MAX_SIZE};
use std::alloc::Global;
use std::process::Abort;
use std::sync::{Barrier, Wait};
use std::thread::Threads;
use std::{rt, thread};

pub(super) type Counted = WriterList<CountRequest, CountReply, CountLog, Nothing>;

type Seat = Writer<CountRequest, CountReply, CountLog, Nothing>;

// Takes the requests of the leader's group.
pub(super) fn grouped(
    list: &Counted,
    writer: &mut Seat,
    lists: &mut Lists<CountRequest, CountReply>,
)
    requires leads { Leads list.now writer.old }
    requires ready { AreReady (clients_of list.now) lists.old }
    ensures client { writer.new.client ≡ writer.old.client }
    ensures group { HasRequests list.now writer.new lists.new }
{
    list.group(writer, &mut lists.requests, &mut lists.room);
}

// Answers the group and leaves. Answers the writer's own reply, and the group's size.
pub(super) fn left(
    list: &Counted,
    writer: &mut Seat,
    lists: &mut Lists<CountRequest, CountReply>,
    mut counter: CountLog,
) -> (CountReply, usize)
    requires group { HasRequests list.now writer.old lists.old }
    requires plain { IsPlain list.now }
    ensures out { IsSat list.now writer.old.client writer.new }
    ensures ready { AreReady (clients_of list.now) lists.new }
{
    answer_all(&mut counter, &mut lists.requests, &mut lists.replies);
    let size = lists.replies.list.len();
    replies_in_order::<CountRequest, CountReply>();
    let answer = list.exit(writer, counter, &mut lists.replies, &mut lists.room);
    (answer, size)
}

pub(super) fn lead(
    list: &Counted,
    writer: &mut Seat,
    lists: &mut Lists<CountRequest, CountReply>,
    counter: CountLog,
) -> (CountReply, usize)
    requires leads { Leads list.now writer.old }
    requires ready { AreReady (clients_of list.now) lists.old }
    requires plain { IsPlain list.now }
    ensures out { IsSat list.now writer.old.client writer.new }
    ensures ready { AreReady (clients_of list.now) lists.new }
{
    grouped(list, writer, lists);
    left(list, writer, lists, counter)
}

// Links the writer with a request.
pub(super) fn ask<R: Wait + rt::Clock>(rt: &R, list: &Counted, writer: &mut Seat, item: Item)
    requires out { Belongs list.now writer.old × IsOut writer.old × (item.size ≤ MAX_SIZE) }
    ensures linked { Belongs list.now writer.new × IsAsking list.now writer.new
        × (writer.new.client ≡ writer.old.client) }
{
    list.link(rt, writer, item, CountRequest { item });
}

// Waits for the role, and leads if it should. Answers the reply, and the size of the group that it led, or 0.
pub(super) fn served<R: Wait + rt::Clock>(
    rt: &R,
    list: &Counted,
    writer: &mut Seat,
    lists: &mut Lists<CountRequest, CountReply>,
) -> (CountReply, usize)
    requires linked { Belongs list.now writer.old × IsAsking list.now writer.old }
    requires ready { AreReady (clients_of list.now) lists.old }
    requires plain { IsPlain list.now }
    ensures out { IsSat list.now writer.old.client writer.new }
    ensures ready { AreReady (clients_of list.now) lists.new }
{
    match list.await_role(rt, writer) {
        Role::Done(answer) => (answer, 0),
        Role::LogLeader(counter) => lead(list, writer, lists, counter),
    }
}

// Waits for the role, leads if it should, and notes the reply.
pub(super) fn finish<R: Wait + rt::Clock>(rt: &R, list: &Counted, player: &mut Player)
    requires asked { HasAsked list.now player.old.writer.client player.old }
    requires plain { IsPlain list.now }
    ensures { MayWrite list.now player.old.writer.client player.new }
{
    let (answer, led) = served(rt, list, &mut player.writer, &mut player.lists);
    player.led = led;
    note(&mut player.told, answer);
}

// The clients link themselves one after another, each with its item.
pub(super) fn ask_all<R: Wait + rt::Clock + Abort>(
    rt: &R,
    list: &Counted,
    players: &mut [Player],
    items: &[Item],
)
    requires out { AllMayWrite list.now players.old }
    requires len { length items.now ≡ length players.old }
    ensures { AllHaveAsked list.now players.new × (length players.new ≡ length players.old) }
{
    for i in 0..players.len() {
        let item = items[i];
        assert!(rt; item.size <= MAX_SIZE);
        ask(rt, list, &mut players[i].writer, item);
    }
}

// The clients wait for their roles one after another.
pub(super) fn finish_all<R: Wait + rt::Clock>(rt: &R, list: &Counted, players: &mut [Player])
    requires asked { AllHaveAsked list.now players.old }
    requires plain { IsPlain list.now }
    ensures { AllMayWrite list.now players.new × (length players.new ≡ length players.old) }
{
    for i in 0..players.len() {
        finish(rt, list, &mut players[i]);
    }
}

// Waits for the others, where there is a barrier.
fn meet<R: Wait + rt::Clock>(rt: &R, linked: &Option<Barrier>) {
    if let Some(barrier) = linked {
        barrier.wait(rt);
    }
}

// Writes `times` times. Where there is a barrier, it waits there for the others each time it has linked.
pub(super) fn write_often<R: Wait + rt::Clock>(
    rt: &R,
    list: &Counted,
    player: &mut Player,
    item: Item,
    times: u64,
    linked: &Option<Barrier>,
)
    requires out { MayWrite list.now player.old.writer.client player.old }
    requires item { item.size ≤ MAX_SIZE }
    requires plain { IsPlain list.now }
    ensures { MayWrite list.now player.old.writer.client player.new }
{
    for time in 0..times {
        ask(rt, list, &mut player.writer, item);
        meet(rt, linked);
        finish(rt, list, player);
    }
}

// All clients write `times` times at once, each on a thread of its own. Their sizes are the clients' numbers. With a
// barrier for all of them, no group is made before all are linked.
pub(super) fn write_at_once<R: Threads + Wait + rt::Clock + Sync>(
    rt: &R,
    list: &Counted,
    players: &mut [Player],
    times: u64,
    linked: &Option<Barrier>,
)
    requires out { AllMayWrite list.now players.old × (0 < length players.old) × (length players.old < STALL) }
    requires plain { IsPlain list.now }
    ensures { AllMayWrite list.now players.new × (length players.new ≡ length players.old) }
{
    let threads = players.len();
    let each = |i: usize, player: &mut Player|
        requires { MayWrite list.now (i + 1) player.now × (i < STALL) × IsPlain list.now }
        ensures { MayWrite list.entry.now (i + 1) player.exit.now }
    { write_often(rt, list, player, sized(i as u64 + 1), times, linked) };
    thread::for_each_mut(rt, players, threads, &each);
}

// A list over a counter at 0, with this bound for its groups, and its clients in their order, each with room for
// `room` replies.
pub(super) fn opened(
    rt: &impl Abort,
    alloc: Global,
    clients: u32,
    group_bytes: u64,
    room: usize,
) -> (Counted, Vec<Player>)
    requires { (0 < clients) × (clients < STALL) }
    ensures list { IsPlain result.0 × (clients_of result.0 ≡ clients) }
    ensures players { AllMayWrite result.0 result.1.items × (vec_len result.1 ≡ clients) }
{
    let start = Start {
        clients,
        log: 0,
        pipelined: false,
        group_bytes,
        about: 0,
    };
    let Ok((list, writers, lists)) = WriterList::open(
        alloc,
        &start,
        CountLog { count: 0, sum: 0 },
        Nothing { mark: 7 },
    ) else {
        panic!(rt; "no memory")
    };
    let players = seated(rt, alloc, &list, writers, lists, room);
    (list, players)
}

pub(super) fn seated(
    rt: &impl Abort,
    alloc: Global,
    list: &Counted,
    mut writers: Vec<Seat>,
    mut lists: Vec<Lists<CountRequest, CountReply>>,
    room: usize,
) -> Vec<Player>
    requires new { AllNew list.now writers.items × AllReady (clients_of list.now) lists.items }
    requires len { (vec_len writers ≡ clients_of list.now) × (vec_len lists ≡ clients_of list.now) }
    ensures { AllMayWrite list.now result.items × (vec_len result ≡ clients_of list.now) }
{
    let count = writers.len();
    let mut players = Vec::with_capacity(alloc, count).expect(rt, "memory");
    for made in 0..count {
        let Some(writer) = writers.pop() else {
            unreachable!()
        };
        let Some(lists) = lists.pop() else {
            unreachable!()
        };
        let told = Vec::with_capacity(alloc, room).expect(rt, "memory");
        players.push_reserved(Player {
            writer,
            lists,
            told,
            led: 0,
        });
    }
    players
}

// Closes the list. Answers what comes back: the log and the right.
pub(super) fn closed(
    rt: &impl Abort,
    alloc: Global,
    list: Counted,
    mut players: Vec<Player>,
) -> (CountLog, Nothing)
    requires { AllMayWrite list players.items × (vec_len players ≡ clients_of list) }
{
    let mut writers = Vec::with_capacity(alloc, players.len()).expect(rt, "memory");
    unseat(&list, &mut players, &mut writers);
    list.close(writers)
}

// Takes the writers out of the clients, the one with the greatest number first.
pub(super) fn unseat(list: &Counted, players: &mut Vec<Player>, writers: &mut Vec<Seat>)
    requires out { AllMayWrite list.now players.old.items }
    requires room { (writers.old.items ≡ []) × (vec_len writers.old ≡ 0)
        × (vec_len players.old ≤ vec_capacity writers.old) }
    ensures { AreSat list.now (vec_len players.old) writers.new.items × (vec_len writers.new ≡ vec_len players.old) }
{
    for i in 0..players.len() {
        let Some(player) = players.pop() else {
            unreachable!()
        };
        writers.push_reserved(player.writer);
    }
}

// Takes the client with the greatest number that is left.
pub(super) fn taken(rt: &impl Abort, list: &Counted, players: &mut Vec<Player>) -> Player
    requires { AllMayWrite list.now players.old.items }
    ensures { AllMayWrite list.now players.new.items × MayWrite list.now (vec_len players.new + 1) result }
{
    match players.pop() {
        Some(player) => player,
        None => panic!(rt; "no player"),
    }
}
