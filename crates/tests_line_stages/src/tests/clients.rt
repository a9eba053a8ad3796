//! How clients get to a list, ask and leave it. The contract of each step says when it is allowed.

ghost use Rattle.std.specs.Prelude.{◌≡◌, ◌<◌, ◌≤◌, [], vec_len, vec_capacity};
ghost use Rattle.line_writers.specs.Rooms.{AllReady};
ghost use Rattle.line_writers.specs.Seats.{clients_of, AllNew, Belongs, IsOut};
ghost use Rattle.tests_line_stages.specs.Clients.{IsPipelined, IsAsking, AllMayWrite, AllStand, AreIdle};

use crate::client::{PlayerStage, StagePlayer};
use crate::counter::CountingRight;
use line_rule::{STALL, Start};
use line_writers::{Lists, Writer, WriterList};
use model_base::{Item, MAX_SIZE};
use std::alloc::Global;
use std::process::Abort;
use std::rt;
use std::sync::Wait;
use tests_line::{CountLog, CountReply, CountRequest, MAX};

pub(super) type Counted = WriterList<CountRequest, CountReply, CountLog, CountingRight>;

pub(super) type Seat = Writer<CountRequest, CountReply, CountLog, CountingRight>;

// A list over a counter at 0, and its clients in their order, each with room for `room` replies.
pub(super) fn opened(
    rt: &impl Abort,
    alloc: Global,
    count: u32,
    room: usize,
) -> (Counted, Vec<StagePlayer>)
    requires { (0 < count) × (count < STALL) }
    ensures list { IsPipelined result.0 × (clients_of result.0 ≡ count) }
    ensures out { AllMayWrite result.0 result.1.items × AllStand result.0 result.1.items
        × (vec_len result.1 ≡ count) }
{
    let start = Start {
        clients: count,
        log: 0,
        pipelined: true,
        group_bytes: MAX,
        about: 0,
    };
    let counter = CountLog { count: 0, sum: 0 };
    let right = CountingRight {
        next: 0,
        groups: 0,
        wrong: 0,
        helped: 0,
    };
    let Ok((list, writers, lists)) = WriterList::open(alloc, &start, counter, right) else {
        panic!(rt; "no memory")
    };
    let clients = seated(rt, alloc, &list, writers, lists, room);
    (list, clients)
}

fn room_for(rt: &impl Abort, alloc: Global, count: usize) -> Vec<u32>
    ensures { count ≤ vec_capacity result }
{
    Vec::with_capacity(alloc, count).expect(rt, "memory")
}

fn seated(
    rt: &impl Abort,
    alloc: Global,
    list: &Counted,
    mut writers: Vec<Seat>,
    mut lists: Vec<Lists<CountRequest, CountReply>>,
    room: usize,
) -> Vec<StagePlayer>
    requires new { AllNew list.now writers.items × AllReady (clients_of list.now) lists.items }
    requires len { (vec_len writers ≡ clients_of list.now) × (vec_len lists ≡ clients_of list.now) }
    ensures { AllMayWrite list.now result.items × AllStand list.now result.items
        × (vec_len result ≡ clients_of list.now) }
{
    let count = writers.len();
    let mut clients = Vec::with_capacity(alloc, count).expect(rt, "memory");
    // The clients so far may all write, and the writers that are left are those of the next clients.
    for made in 0..count {
        let Some(writer) = writers.pop() else {
            unreachable!()
        };
        let Some(lists) = lists.pop() else {
            unreachable!()
        };
        let told = Vec::with_capacity(alloc, room).expect(rt, "memory");
        let members = room_for(rt, alloc, count);
        clients.push_reserved(StagePlayer {
            writer,
            lists,
            members,
            told,
            stage: PlayerStage::Out,
        });
    }
    clients
}

// Closes the list. Answers what comes back: the log and the right.
pub(super) fn closed(
    rt: &impl Abort,
    alloc: Global,
    list: Counted,
    mut clients: Vec<StagePlayer>,
) -> (CountLog, CountingRight)
    requires { AllMayWrite list clients.items × (vec_len clients ≡ clients_of list) }
{
    let mut writers = Vec::with_capacity(alloc, clients.len()).expect(rt, "memory");
    unseat(&list, &mut clients, &mut writers);
    list.close(writers)
}

// Takes the writers out of the clients, the one with the greatest number first.
fn unseat(list: &Counted, clients: &mut Vec<StagePlayer>, writers: &mut Vec<Seat>)
    requires out { AllMayWrite list.now clients.old.items }
    requires room { (writers.old.items ≡ []) × (vec_len writers.old ≡ 0)
        × (vec_len clients.old ≤ vec_capacity writers.old) }
    ensures { AreIdle list.now (vec_len clients.old) writers.new.items
        × (vec_len writers.new ≡ vec_len clients.old) }
{
    // The writers so far are those of the clients taken out, and each of them is in no list.
    for i in 0..clients.len() {
        let Some(client) = clients.pop() else {
            unreachable!()
        };
        writers.push_reserved(client.writer);
    }
}

// Links the writer with a request.
pub(super) fn ask<R: Wait + rt::Clock>(rt: &R, list: &Counted, writer: &mut Seat, item: Item)
    requires out { Belongs list.now writer.old × IsOut writer.old × (item.size ≤ MAX_SIZE) }
    ensures linked { Belongs list.now writer.new × IsAsking list.now writer.new
        × (writer.new.client ≡ writer.old.client) }
{
    list.link(rt, writer, item, CountRequest { item });
}
