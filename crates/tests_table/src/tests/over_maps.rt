//! Tables that are opened over a map: reads answer from its pairs, and from what is published over them.

ghost use Rattle.std.specs.Prelude.{◌≡◌, ◌<◌, ◌≤◌, [], IfOk};
ghost use Rattle.table_rule.specs.Histories.{last_of};
ghost use Rattle.table_steps.specs.Accounts.{history_of};
ghost use Rattle.table_memory.specs.Meaning.{opening_of, account_of, MayLaunch};
ghost use Rattle.tests_table.specs.Clients.{IsIdle};

use super::tables::{MemSeat, MemTurn, ROUNDS, Round, check, close, play, taken};
use base_maps::FamilyMap;
use std::alloc::Global;
use std::process::Abort;
use std::rt;
use std::sync::Wait;
use std::test::Fail;
use table_memory::MemoryTable;

// The number of another family than the default one.
const OTHER: u32 = 300;

// A map of three keys, and of one of another family, and rounds over it: `a` gets another value; then `d` is deleted,
// `c` is added and `b` gets another value; then `a` is deleted, and `d` gets a value again; then the key of the other
// family is deleted, and another one there gets a value.
const PAIRS: [(&[u8], &[u8]); 3] = [
    (b"a", b"1"),
    (b"b", b"a value that is too long to stand in its node"),
    (b"d", b"4"),
];

const OTHER_PAIRS: [(&[u8], &[u8]); 1] = [(b"a", b"7")];

const ROUNDS_OVER: [Round; 4] = [
    Round {
        family: 0,
        writes: &[(b"a", Some(b"x"))],
        rows: &[
            (b"a", b"x"),
            (b"b", b"a value that is too long to stand in its node"),
            (b"d", b"4"),
        ],
    },
    Round {
        family: 0,
        writes: &[(b"d", None), (b"c", Some(b"3")), (b"b", Some(b"2"))],
        rows: &[(b"a", b"x"), (b"b", b"2"), (b"c", b"3")],
    },
    Round {
        family: 0,
        writes: &[(b"a", None), (b"d", Some(b"5"))],
        rows: &[(b"b", b"2"), (b"c", b"3"), (b"d", b"5")],
    },
    Round {
        family: OTHER,
        writes: &[(b"a", None), (b"c", Some(b"6"))],
        rows: &[(b"c", b"6")],
    },
];

// A map of one pair, and a round that adds one key.
const ONE_PAIR: [(&[u8], &[u8]); 1] = [(b"a", b"1")];

const ONE_ROUND: [Round; 1] = [Round {
    family: 0,
    writes: &[(b"b", Some(b"2"))],
    rows: &[(b"a", b"1"), (b"b", b"2")],
}];

// Adds these pairs of a family to a map.
fn fill(rt: &impl Abort, map: &mut FamilyMap, family: u32, pairs: &[(&[u8], &[u8])]) {
    // The map has the pairs so far.
    for i in 0..pairs.len() {
        let (key, value) = pairs[i];
        map.insert(family, key, value).expect(rt, "memory");
    }
}

// A table of `shards` shards for two clients over a map, with its turn and their seats, client 1's first.
fn open_over(
    alloc: Global,
    shards: u32,
    last: u64,
    base_last: u64,
    map: &FamilyMap,
) -> Result<(MemoryTable, MemTurn, MemSeat, MemSeat), Fail>
    requires shards { 0 < shards }
    requires base { (base_last ≤ last) × (base_last ≡ 0 → map.now ≡ []) }
    ensures clients { IfOk result (λ opened. (opening_of opened.0).clients ≡ 2) }
    ensures turn { IfOk result (λ opened. MayLaunch opened.0 opened.1
        × (last_of (opening_of opened.0).start (history_of opened.1) ≡ last)) }
    ensures first { IfOk result (λ opened. IsIdle opened.0 opened.2) }
    ensures second { IfOk result (λ opened. IsIdle opened.0 opened.3) }
{
    let (table, mut seats) = MemoryTable::open_with(alloc, 2, last, shards, base_last, map)?;
    let second = taken(&table, &mut seats.clients)?;
    let first = taken(&table, &mut seats.clients)?;
    Ok((table, seats.turn, first, second))
}

// What a client reads over a map, before these rounds and after each of them. The map has pairs of two families, and
// all have one sequence, `base_last`.
fn try_over<R: Wait + rt::Clock + Abort>(
    rt: &R,
    alloc: Global,
    shards: u32,
    last: u64,
    base_last: u64,
    pairs: &[(&[u8], &[u8])],
    others: &[(&[u8], &[u8])],
    rounds: &[Round],
) -> Result<(), Fail>
    requires { (0 < shards) × (0 < base_last) × (base_last ≤ last) }
{
    let mut map = FamilyMap::new(alloc);
    fill(rt, &mut map, 0, pairs);
    fill(rt, &mut map, OTHER, others);
    let (table, turn, mut leader, mut member) = open_over(alloc, shards, last, base_last, &map)?;
    assert!(rt; leader.number() == 1);
    check(rt, alloc, &table, &mut member, 0, pairs, last);
    check(rt, alloc, &table, &mut member, OTHER, others, last);
    let turn = play(
        rt,
        alloc,
        &table,
        &mut leader,
        &mut member,
        turn,
        last,
        rounds,
    );
    close(alloc, table, turn, leader, member)
}

// A table over an empty map is the same as a table without a base.
fn try_over_none<R: Wait + rt::Clock + Abort>(
    rt: &R,
    alloc: Global,
    shards: u32,
) -> Result<(), Fail>
    requires { 0 < shards }
{
    let map = FamilyMap::new(alloc);
    let (table, turn, mut leader, mut member) = open_over(alloc, shards, 0, 0, &map)?;
    assert!(rt; leader.number() == 1);
    check(rt, alloc, &table, &mut member, 0, &[], 0);
    let turn = play(
        rt,
        alloc,
        &table,
        &mut leader,
        &mut member,
        turn,
        0,
        &ROUNDS,
    );
    close(alloc, table, turn, leader, member)
}

#[test]
fn reads_over_a_map(rt: HostRuntime) -> Result<(), Fail> {
    let alloc = rt.alloc();
    try_over(&rt, alloc, 1, 7, 5, &PAIRS, &OTHER_PAIRS, &ROUNDS_OVER)?;
    try_over(&rt, alloc, 16, 7, 5, &PAIRS, &OTHER_PAIRS, &ROUNDS_OVER)
}

#[test]
fn reads_over_one_pair(rt: HostRuntime) -> Result<(), Fail> {
    let alloc = rt.alloc();
    try_over(&rt, alloc, 1, 1, 1, &ONE_PAIR, &[], &ONE_ROUND)?;
    try_over(&rt, alloc, 16, 1, 1, &ONE_PAIR, &[], &ONE_ROUND)
}

#[test]
fn reads_over_an_empty_map(rt: HostRuntime) -> Result<(), Fail> {
    let alloc = rt.alloc();
    try_over_none(&rt, alloc, 1)?;
    try_over_none(&rt, alloc, 16)
}
