//! The members of one group put their parts into a table at once, while another client reads.

ghost use Rattle.std.specs.Prelude.{◌≡◌, ◌<◌, All, length};
ghost use Rattle.table_rule.specs.declared.content.MemberVersions.{MemberVersions};
ghost use Rattle.table_rule.specs.Histories.{In, Members, Runs, versions_in};
ghost use Rattle.table_nodes.specs.Parts.{group_of};
ghost use Rattle.table_memory.specs.Meaning.{account_of, IsOurs, IsTurnAtStart};
ghost use Rattle.tests_table.specs.Clients.{IsIdle, IsForFour, MayPlay};

use super::nodes::node_of;
use super::rows::{keys_of, value_of};
use super::tables::{MemSeat, MemTurn, complete, taken};
use base_bytes::{Found, Place};
use std::alloc::Global;
use std::process::Abort;
use std::sync::Wait;
use std::test::Fail;
use std::thread::Threads;
use std::{rt, thread};
use table_calls::Table;
use table_memory::MemoryTable;
use table_nodes::{Nodes, Parts};

// The published sequence when the table is opened, and the last sequence of the group.
const BEFORE: u64 = 7;

const LAST: u64 = 10;

// A client of the table.
#[derive(Drop)]
struct Player {
    seat: MemSeat,
    // The client that has it launches the group.
    turn: Option<MemTurn>,
    // Whether this client was the last to finish, and so published the group.
    published: bool,
}

fn seated(seat: MemSeat, turn: Option<MemTurn>) -> Player
    ensures { (result.seat ≡ seat) × (result.turn ≡ turn) }
{
    Player {
        seat,
        turn,
        published: false,
    }
}

// The parts of three members. Each is a value of one key. In a table of three shards each key has a shard of its own.
fn three_parts(rt: &impl Abort, alloc: Global) -> Parts
    ensures run { Runs 7 (versions_in (group_of result.parts)) × (length (versions_in (group_of result.parts)) ≡ 3) }
    ensures members { Members 4 (group_of result.parts) }
    ensures first { (part : MemberVersions) × In part (group_of result.parts) × (part.member ≡ 1) }
{
    let mut parts = Parts::new(alloc, 4).expect(rt, "memory");
    parts.add(1, node_of(rt, alloc, 0, b"c", Some(b"1"), 8));
    parts.add(2, node_of(rt, alloc, 0, b"b", Some(b"2"), 9));
    parts.add(3, node_of(rt, alloc, 0, b"d", Some(b"3"), 10));
    parts
}

// Launches the group of three, takes its own part and waits until the group is published. Answers whether this client
// published it.
fn lead<R: Wait + rt::Clock + Abort>(
    rt: &R,
    alloc: Global,
    table: &MemoryTable,
    seat: &mut MemSeat,
    turn: MemTurn,
) -> bool
    requires opening { IsForFour table.now }
    requires seat { IsIdle table.now seat.old × ((account_of seat.old).number ≡ 1) }
    requires turn { IsTurnAtStart table.now turn }
{
    let mut parts = three_parts(rt, alloc);
    Table::<Nodes, Parts>::launch(table, seat, turn, &mut parts);
    let published = complete(rt, table, seat);
    Table::<Nodes, Parts>::await_published(table, rt, seat, LAST);
    published
}

// How many of these are values.
fn count_values(found: &[Found]) -> usize {
    let mut values = 0usize;
    for one in found {
        if value_of(one).is_some() {
            values = values.wrapping_add(1);
        }
    }
    values
}

// How many of the keys have a value, all read at one sequence, and that sequence.
fn read_all<R: Wait + rt::Clock + Abort>(
    rt: &R,
    alloc: Global,
    table: &MemoryTable,
    seat: &mut MemSeat,
    keys: &[Place],
) -> (u64, usize)
    requires { IsOurs table.now seat.old }
    ensures { IsOurs table.now seat.new }
{
    let reads = Table::<Nodes, Parts>::read_many_in(table, alloc, rt, seat, keys).expect(
        rt, "memory",
    );
    (reads.at, count_values(reads.values.as_slice()))
}

// How many rows there are, and as of which sequence.
fn scan_all<R: Wait + rt::Clock + Abort>(
    rt: &R,
    alloc: Global,
    table: &MemoryTable,
    seat: &mut MemSeat,
) -> (u64, usize)
    requires { IsOurs table.now seat.old }
    ensures { IsOurs table.now seat.new }
{
    let rows = Table::<Nodes, Parts>::scan_in(table, alloc, rt, seat, 0, b"a", b"z").expect(
        rt, "memory",
    );
    let at = rows.at;
    (at, rows.rows.as_slice().len())
}

// A read is as of the sequence before the group and shows none of its keys, or as of its last one and shows all of
// them.
fn check_whole(rt: &impl Abort, read: (u64, usize)) {
    assert!(rt; read == (BEFORE, 0) || read == (LAST, 3), "{read:?}");
}

// Reads until the group is seen.
fn watch<R: Wait + rt::Clock + Abort>(
    rt: &R,
    alloc: Global,
    table: &MemoryTable,
    seat: &mut MemSeat,
)
    requires { IsOurs table.now seat.old }
{
    let keys = keys_of(rt, alloc, 0, &[b"b", b"c", b"d"]);
    for _ in rt.forever() {
        check_whole(rt, scan_all(rt, alloc, table, seat));
        let read = read_all(rt, alloc, table, seat, keys.as_slice());
        check_whole(rt, read);
        if read.0 == LAST {
            return;
        }
        thread::yield_now();
    }
    unreachable!()
}

// What a client does: the one with the turn leads, the last one reads, and the others take part.
fn play<R: Wait + rt::Clock + Abort>(
    rt: &R,
    alloc: Global,
    table: &MemoryTable,
    player: &mut Player,
)
    requires opening { IsForFour table.now }
    requires player { MayPlay table.now player.old.seat player.old.turn }
{
    if let Some(turn) = player.turn.take() {
        assert!(rt; player.seat.number() == 1);
        player.published = lead(rt, alloc, table, &mut player.seat, turn);
        return;
    }
    if player.seat.number() == 4 {
        watch(rt, alloc, table, &mut player.seat);
        return;
    }
    player.published = complete(rt, table, &mut player.seat);
}

// All play at once, each on a thread of its own.
fn play_at_once<R: Threads + Wait + rt::Clock + Abort + Sync>(
    rt: &R,
    alloc: Global,
    table: &MemoryTable,
    players: &mut [Player],
)
    requires opening { IsForFour table.now }
    requires some { 0 < length players.old }
    requires players { All (λ player. MayPlay table.now player.seat player.turn) players.old }
{
    let threads = players.len();
    let each = |_: usize, player: &mut Player|
        requires { IsForFour table.now × MayPlay table.now player.now.seat player.now.turn }
    { play(rt, alloc, table, player) };
    thread::for_each_mut(rt, players, threads, &each);
}

// Three members and a reader use a table of `shards` shards. Just one member publishes the group.
fn race_over<R: Threads + Wait + rt::Clock + Abort + Sync>(
    rt: &R,
    alloc: Global,
    shards: u32,
) -> Result<(), Fail>
    requires { 0 < shards }
{
    let (table, mut seats) = MemoryTable::open(alloc, 4, BEFORE, shards)?;
    let reader = taken(&table, &mut seats.clients)?;
    let third = taken(&table, &mut seats.clients)?;
    let second = taken(&table, &mut seats.clients)?;
    let first = taken(&table, &mut seats.clients)?;
    let mut players = [
        seated(first, Some(seats.turn)),
        seated(second, None),
        seated(third, None),
        seated(reader, None),
    ];
    play_at_once(rt, alloc, &table, &mut players);
    let published = players.iter().filter(|player| player.published).count();
    assert_eq!(rt; published, 1);
    Ok(())
}

#[test]
fn one_of_three_members_publishes(rt: HostRuntime) -> Result<(), Fail> {
    let alloc = rt.alloc();
    race_over(&rt, alloc, 1)?;
    race_over(&rt, alloc, 3)?;
    race_over(&rt, alloc, 16)
}
