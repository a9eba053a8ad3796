//! A client launches groups through a table over the memtable's tree, and another one publishes them, and reads after
//! each.

ghost use Rattle.std.specs.Prelude.{◌≡◌, ◌+◌, ◌<◌, ◌^◌, length, IfOk};
ghost use Rattle.table_rule.specs.declared.view.Stage.TheVariants.{Idle};
ghost use Rattle.table_rule.specs.Histories.{In, last_of, Runs};
ghost use Rattle.table_rule.specs.Steps.{MayTake};
ghost use Rattle.table_steps.specs.Accounts.{history_of};
ghost use Rattle.table_memory.specs.Meaning.{opening_of, account_of, IsOurs, MayLaunch};
ghost use Rattle.tests_table.specs.Clients.{IsIdle};

use super::nodes::nodes_behind;
use super::rows::{are_found, are_rows, is_found, keys_of, value_of};
use base_bytes::Place;
use std::alloc::Global;
use std::process::Abort;
use std::rt;
use std::sync::Wait;
use std::test::Fail;
use table_calls::{Finished, Seats, Table};
use table_memory::MemoryTable;
use table_nodes::{Nodes, Parts};
use table_steps::{TableSeat, Turn};
use table_tree::Tree;

pub(super) type MemSeat = TableSeat<Tree, Nodes>;

pub(super) type MemTurn = Turn<Tree, Nodes>;

// A group of one client, and what a family has after it.
#[derive(Drop, Clone, Copy)]
pub(super) struct Round {
    pub(super) family: u32,
    // Keys of the family, each with the value that it gets, or none where it is deleted.
    pub(super) writes: &'static [(&'static [u8], Option<&'static [u8]>)],
    // The keys of the family that have a value then, with it, in byte order.
    pub(super) rows: &'static [(&'static [u8], &'static [u8])],
}

// `a` gets two values and is deleted, `b` gets one, and then four keys get one each in one group. In a table of three
// shards, the last two of these four keys share one shard, and the other two have one each. The same keys of another
// family are others: they get values of their own, and none where these keys are deleted.
pub(super) const ROUNDS: [Round; 9] = [
    Round {
        family: 0,
        writes: &[(b"a", Some(b"1"))],
        rows: &[(b"a", b"1")],
    },
    Round {
        family: 0,
        writes: &[(b"a", Some(b"2"))],
        rows: &[(b"a", b"2")],
    },
    Round {
        family: 0,
        writes: &[(b"a", None)],
        rows: &[],
    },
    Round {
        family: 0,
        writes: &[(b"b", Some(b"x"))],
        rows: &[(b"b", b"x")],
    },
    Round {
        family: 0,
        writes: &[
            (b"c", Some(b"1")),
            (b"b", Some(b"2")),
            (b"d", Some(b"3")),
            (b"a", Some(b"4")),
        ],
        rows: &[(b"a", b"4"), (b"b", b"2"), (b"c", b"1"), (b"d", b"3")],
    },
    Round {
        family: 7,
        writes: &[(b"d", Some(b"9")), (b"b", None)],
        rows: &[(b"d", b"9")],
    },
    Round {
        family: 0,
        writes: &[(b"d", None)],
        rows: &[(b"a", b"4"), (b"b", b"2"), (b"c", b"1")],
    },
    Round {
        family: 4_294_967_295,
        writes: &[(b"a", Some(b"z"))],
        rows: &[(b"a", b"z")],
    },
    Round {
        family: 7,
        writes: &[(b"a", Some(b"8"))],
        rows: &[(b"a", b"8"), (b"d", b"9")],
    },
];

// Takes the client's part of a launched group, inserts it and finishes. Answers whether it was the last to finish, and
// so published the group.
pub(super) fn complete<R: Wait + rt::Clock>(rt: &R, table: &MemoryTable, seat: &mut MemSeat) -> bool
    requires ours { IsOurs table.now seat.old }
    requires free { MayTake (account_of seat.old).stage }
    ensures ours { IsOurs table.now seat.new }
    ensures idle { (account_of seat.new).stage ≡ Idle }
    ensures same { ((account_of seat.new).launched ≡ (account_of seat.old).launched)
        × ((account_of seat.new).number ≡ (account_of seat.old).number) }
{
    let part = Table::<Nodes, Parts>::take(table, rt, seat);
    Table::<Nodes, Parts>::insert(table, rt, seat, part);
    match Table::<Nodes, Parts>::finish(table, seat) {
        Finished::Last => {
            Table::<Nodes, Parts>::publish(table, seat);
            true
        }
        Finished::Others => false,
    }
}

// A client that has no part in it launches a group of `count` nodes after the sequence `last`, and waits until it is
// published. The only member is the last to finish: otherwise nobody would publish the group, and this wouldn't
// return.
fn write<R: Wait + rt::Clock + Abort>(
    rt: &R,
    alloc: Global,
    table: &MemoryTable,
    leader: &mut MemSeat,
    member: &mut MemSeat,
    turn: MemTurn,
    last: u64,
    nodes: Nodes,
    count: u64,
) -> MemTurn
    requires clients { (opening_of table.now).clients ≡ 2 }
    requires leader { IsIdle table.now leader.old × ((account_of leader.old).number ≡ 1) }
    requires member { IsIdle table.now member.old }
    requires turn { MayLaunch table.now turn }
    requires last { (last_of (opening_of table.now).start (history_of turn) ≡ last) × (last + count < 2 ^ 56) }
    requires nodes { Runs last nodes × (length nodes ≡ count) × (0 < count) }
    ensures leader { IsIdle table.now leader.new × ((account_of leader.new).number ≡ 1) }
    ensures member { IsIdle table.now member.new }
    ensures turn { MayLaunch table.now result
        × (last_of (opening_of table.now).start (history_of result) ≡ last + count) }
{
    let mut parts = Parts::new(alloc, 2).expect(rt, "memory");
    parts.add(2, nodes);
    Table::<Nodes, Parts>::launch(table, leader, turn, &mut parts);
    complete(rt, table, member);
    Table::<Nodes, Parts>::await_published(table, rt, leader, last + count)
}

// Takes the last seat off a list of seats that have nothing to do.
pub(super) fn taken(table: &MemoryTable, seats: &mut Vec<MemSeat>) -> Result<MemSeat, Fail>
    requires { (seat : _) → In seat seats.old.items → IsIdle table.now seat }
    ensures seat { IfOk result (λ seat. IsIdle table.now seat) }
    ensures others { IfOk result (λ _. (seat : _) → In seat seats.new.items → IsIdle table.now seat) }
{
    let seat = seats.pop().ok_or("a seat")?;
    Ok(seat)
}

// A table of `shards` shards for two clients, with its turn and their seats, client 1's first.
fn open_for_two(
    alloc: Global,
    shards: u32,
) -> Result<(MemoryTable, MemTurn, MemSeat, MemSeat), Fail>
    requires { 0 < shards }
    ensures clients { IfOk result (λ opened. (opening_of opened.0).clients ≡ 2) }
    ensures turn { IfOk result (λ opened. MayLaunch opened.0 opened.1
        × (last_of (opening_of opened.0).start (history_of opened.1) ≡ 0)) }
    ensures first { IfOk result (λ opened. IsIdle opened.0 opened.2) }
    ensures second { IfOk result (λ opened. IsIdle opened.0 opened.3) }
{
    let (table, mut seats) = MemoryTable::open(alloc, 2, 0, shards)?;
    let second = taken(&table, &mut seats.clients)?;
    let first = taken(&table, &mut seats.clients)?;
    Ok((table, seats.turn, first, second))
}

// Closes the table.
pub(super) fn close(
    alloc: Global,
    table: MemoryTable,
    turn: MemTurn,
    first: MemSeat,
    second: MemSeat,
) -> Result<(), Fail>
    requires turn { MayLaunch table turn }
    requires first { IsIdle table first }
    requires second { IsIdle table second }
{
    let clients = vec![in alloc; first, second]?;
    Table::<Nodes, Parts>::close(table, Seats { turn, clients });
    Ok(())
}

// Each key, read alone, has what its row says, as of this sequence.
fn check_each<R: Wait + rt::Clock + Abort>(
    rt: &R,
    alloc: Global,
    table: &MemoryTable,
    seat: &mut MemSeat,
    keys: &[Place],
    rows: &[(&[u8], &[u8])],
    at: u64,
)
    requires { IsIdle table.now seat.old }
    ensures { IsIdle table.now seat.new }
{
    for i in 0..keys.len() {
        let (family, key) = (keys[i].family, keys[i].key.as_slice());
        let read = Table::<Nodes, Parts>::read_in(table, alloc, rt, seat, family, key).expect(
            rt, "memory",
        );
        let same = is_found(rows, key, value_of(&read.value));
        assert_eq!(rt; (read.at, same), (at, true), "key {i} of {family} at {at}");
    }
}

// Whether they are read together, scanned from `a` up to `z`, or read alone, the keys of a family have what their rows
// say, as of this sequence. `e` has no row.
pub(super) fn check<R: Wait + rt::Clock + Abort>(
    rt: &R,
    alloc: Global,
    table: &MemoryTable,
    seat: &mut MemSeat,
    family: u32,
    rows: &[(&[u8], &[u8])],
    at: u64,
)
    requires { IsIdle table.now seat.old }
    ensures { IsIdle table.now seat.new }
{
    let keys = keys_of(rt, alloc, family, &[b"a", b"b", b"c", b"d", b"e"]);
    check_each(rt, alloc, table, seat, keys.as_slice(), rows, at);
    let scanned = Table::<Nodes, Parts>::scan_in(table, alloc, rt, seat, family, b"a", b"z").expect(
        rt, "memory",
    );
    let many = Table::<Nodes, Parts>::read_many_in(table, alloc, rt, seat, keys.as_slice()).expect(
        rt, "memory",
    );
    let last = Table::<Nodes, Parts>::last(table, seat);
    let (scanned_at, many_at) = (scanned.at, many.at);
    let scan_is_right = are_rows(&scanned.rows, rows);
    let reads_are_right = are_found(rows, keys.as_slice(), many.values.as_slice());
    assert_eq!(rt;
        (scanned_at, scan_is_right, many_at, reads_are_right, last),
        (at, true, at, true, at),
        "{family} at {at}"
    );
}

// Client 1 launches the group of each round, the first one after the sequence `start`. The other client publishes it,
// and reads after it.
pub(super) fn play<R: Wait + rt::Clock + Abort>(
    rt: &R,
    alloc: Global,
    table: &MemoryTable,
    leader: &mut MemSeat,
    member: &mut MemSeat,
    mut turn: MemTurn,
    start: u64,
    rounds: &[Round],
) -> MemTurn
    requires clients { (opening_of table.now).clients ≡ 2 }
    requires leader { IsIdle table.now leader.old × ((account_of leader.old).number ≡ 1) }
    requires member { IsIdle table.now member.old }
    requires turn { MayLaunch table.now turn × (last_of (opening_of table.now).start (history_of turn) ≡ start) }
    ensures leader { IsIdle table.now leader.new }
    ensures member { IsIdle table.now member.new }
    ensures turn { MayLaunch table.now result }
{
    let mut last = start;
    for i in 0..rounds.len() {
        let round = rounds[i];
        let (nodes, count) = nodes_behind(rt, alloc, last, round.family, round.writes);
        turn = write(rt, alloc, table, leader, member, turn, last, nodes, count);
        last += count;
        check(rt, alloc, table, member, round.family, round.rows, last);
    }
    turn
}

// All rounds over a table of `shards` shards, which has a lock for each.
fn try_over<R: Wait + rt::Clock + Abort>(rt: &R, alloc: Global, shards: u32) -> Result<(), Fail>
    requires { 0 < shards }
{
    let (table, turn, mut leader, mut member) = open_for_two(alloc, shards)?;
    assert!(rt; leader.number() == 1);
    assert_eq!(rt; Table::<Nodes, Parts>::locks(&table), u64::from(shards));
    let turn = play(
        rt,
        alloc,
        &table,
        &mut leader,
        &mut member,
        turn,
        0,
        &ROUNDS,
    );
    close(alloc, table, turn, leader, member)
}

#[test]
fn reads_what_is_published(rt: HostRuntime) -> Result<(), Fail> {
    let alloc = rt.alloc();
    try_over(&rt, alloc, 1)?;
    try_over(&rt, alloc, 3)?;
    try_over(&rt, alloc, 16)?;
    try_over(&rt, alloc, 64)
}
