//! The tree, by hand and against a plain list, and a batch's nodes as parts of a group.
//!
//! That the tree is low for the keys in its pages is proved, and has no test. It is proved too which versions wait next
//! to the pages, by what an insertion says of memory. That there is memory for all pages of these trees is seen here.

ghost use Rattle.std.specs.Prelude.{◌+◌, ◌<◌, ◌≤◌, ◌^◌, length};
ghost use Rattle.table_tree.specs.Versions.{AreBelow};
ghost use Rattle.table_tree.specs.Shapes.{versions_in};

use super::nodes::node_of;
use super::rows::{are_rows, is_found};
use base_bytes::Rows;
use log_batch::Batch;
use std::alloc::Global;
use std::process::Abort;
use table_nodes::{MemberNodes, Nodes, Parts};
use table_tree::Tree;

// How many keys the random versions have, and how many versions there are.
const KEYS: u16 = 300;

const VERSIONS: u64 = 3000;

// Inserts a version whose sequence is above those in the tree.
fn put(
    rt: &impl Abort,
    alloc: Global,
    tree: &mut Tree,
    sequence: u64,
    family: u32,
    key: &[u8],
    value: Option<&[u8]>,
)
    requires below { AreBelow sequence (versions_in tree.old) }
    requires sequence { sequence < 2 ^ 56 }
    ensures { AreBelow (sequence + 1) (versions_in tree.new) }
{
    let mut nodes = node_of(rt, alloc, family, key, value, sequence);
    let Some(node) = nodes.pop() else {
        panic!(rt; "no node")
    };
    assert!(rt; tree.insert(node), "a version waits");
}

// A tree of these versions of families' keys, with sequences from 1 on.
fn tree_of(rt: &impl Abort, alloc: Global, versions: &[(u32, &[u8], Option<&[u8]>)]) -> Tree
    requires { length versions.now ≤ 1000 }
{
    let mut tree = Tree::new();
    for i in 0..versions.len() {
        let (family, key, value) = versions[i];
        put(rt, alloc, &mut tree, i as u64 + 1, family, key, value);
    }
    tree
}

// As of this sequence these are the rows of a family from `a` on and below `c`, and look-ups of `a` and `b` find what
// they say.
fn check_tree(
    rt: &impl Abort,
    alloc: Global,
    tree: &Tree,
    at: u64,
    family: u32,
    rows: &[(&[u8], &[u8])],
) {
    let range = tree
        .range(alloc, family, b"a", b"c", at)
        .expect(rt, "memory");
    let range_at = range.at;
    let same = are_rows(&range.rows, rows);
    let a = is_found(rows, b"a", tree.lookup(family, b"a", at));
    let b = is_found(rows, b"b", tree.lookup(family, b"b", at));
    assert_eq!(rt;
        (range_at, same, a, b),
        (at, true, true, true),
        "{family} at {at}"
    );
}

#[test]
fn reads_what_was_there_at_a_sequence(rt: HostRuntime) {
    let alloc = rt.alloc();
    let versions: [(u32, &[u8], Option<&[u8]>); 4] = [
        (0, b"a", Some(b"1")),
        (0, b"a", Some(b"2")),
        (0, b"a", None),
        (0, b"b", Some(b"x")),
    ];
    let tree = tree_of(&rt, alloc, &versions);
    let wanted: [(u64, &[(&[u8], &[u8])]); 6] = [
        (0, &[]),
        (1, &[(b"a", b"1")]),
        (2, &[(b"a", b"2")]),
        (3, &[]),
        (4, &[(b"b", b"x")]),
        (5, &[(b"b", b"x")]),
    ];
    for (at, rows) in wanted {
        check_tree(&rt, alloc, &tree, at, 0, rows);
    }
}

#[test]
fn families_have_keys_of_their_own(rt: HostRuntime) {
    let alloc = rt.alloc();
    let versions: [(u32, &[u8], Option<&[u8]>); 6] = [
        (2, b"a", Some(b"1")),
        (0, b"b", Some(b"2")),
        (1, b"a", Some(b"3")),
        (2, b"a", None),
        (2, b"b", Some(b"5")),
        (1, b"", Some(b"6")),
    ];
    let tree = tree_of(&rt, alloc, &versions);
    let wanted: [(u64, u32, &[(&[u8], &[u8])]); 8] = [
        (1, 2, &[(b"a", b"1")]),
        (1, 0, &[]),
        (3, 0, &[(b"b", b"2")]),
        (3, 1, &[(b"a", b"3")]),
        (4, 2, &[]),
        (6, 0, &[(b"b", b"2")]),
        (6, 1, &[(b"a", b"3")]),
        (6, 2, &[(b"b", b"5")]),
    ];
    for (at, family, rows) in wanted {
        check_tree(&rt, alloc, &tree, at, family, rows);
    }
}

// The next number of a linear congruential generator.
fn next_random(state: u64) -> u64 {
    state
        .wrapping_mul(6_364_136_223_846_793_005)
        .wrapping_add(1_442_695_040_888_963_407)
}

// What the last entry of a key in this history says of it.
fn last_of(history: &[(u16, Option<u8>)], key: u16) -> Option<u8> {
    let mut said = None;
    for (other, value) in history {
        if *other == key {
            said = *value;
        }
    }
    said
}

// Inserts random versions of few keys, and answers them in order.
fn fill(rt: &impl Abort, alloc: Global, tree: &mut Tree) -> Vec<(u16, Option<u8>)>
    requires { AreBelow 0 (versions_in tree.old) }
{
    let mut history = Vec::new(alloc);
    let mut state = 1;
    for sequence in 0..VERSIONS {
        state = next_random(state);
        let key = ((state >> 33) % u64::from(KEYS)) as u16;
        let byte = [((state >> 50) % 256) as u8];
        let value = if byte[0] < 64 { None } else { Some(byte[0]) };
        let bytes = if value.is_some() {
            Some(byte.as_slice())
        } else {
            None
        };
        put(rt, alloc, tree, sequence, 0, &key.to_be_bytes(), bytes);
        history.push((key, value)).expect(rt, "memory");
    }
    history
}

// Whether a look-up of a key finds what the history says of it.
fn finds_last(tree: &Tree, history: &[(u16, Option<u8>)], key: u16, at: u64) -> bool {
    match (
        tree.lookup(0, &key.to_be_bytes(), at),
        last_of(history, key),
    ) {
        (Some(found), Some(value)) => found == [value].as_slice(),
        (None, None) => true,
        _ => false,
    }
}

// Whether these are the keys that have a value by the history, each with its value.
fn are_rows_of(rows: &Rows, history: &[(u16, Option<u8>)]) -> bool {
    let rows = rows.rows.as_slice();
    let mut passed = 0;
    for key in 0..KEYS {
        if let Some(value) = last_of(history, key) {
            let Some((row, said)) = rows.get(passed) else {
                return false;
            };
            if row.as_slice() != key.to_be_bytes().as_slice()
                || said.as_slice() != [value].as_slice()
            {
                return false;
            }
            passed += 1;
        }
    }
    passed == rows.len()
}

#[test]
fn agrees_with_a_plain_list(rt: HostRuntime) {
    let alloc = rt.alloc();
    let mut tree = Tree::new();
    let history = fill(&rt, alloc, &mut tree);
    for at in [0, 1, 700, 1500, 2999] {
        let seen = history.get(..=at).expect(&rt, "that many versions");
        for key in 0..KEYS {
            assert!(rt; finds_last(&tree, seen, key, at as u64), "{key} at {at}");
        }
        let rows = tree
            .range(alloc, 0, &[0, 0], &KEYS.to_be_bytes(), at as u64)
            .expect(&rt, "memory");
        assert!(rt; are_rows_of(&rows, seen), "at {at}");
    }
}

// The nodes of a batch with a record of each kind, with sequences from `first` on. Their versions are those of this
// crate's example.
fn nodes_of_each_kind(rt: &impl Abort, alloc: Global, first: u64) -> Nodes
    requires { first ≤ 1000 }
{
    let mut batch = Batch::new(alloc).expect(rt, "memory");
    batch.log_data(b"note").expect(rt, "room");
    batch.put(b"a", b"1").expect(rt, "room");
    batch.delete_in(7, b"b").expect(rt, "room");
    batch.single_delete(b"c").expect(rt, "room");
    let mut nodes = Nodes::make(alloc, &batch).expect(rt, "memory");
    nodes.number(first, 3);
    nodes
}

// Whether the next node has this key of a family, and, alone in a tree, gives it this value from the sequence on, and
// nothing before.
fn is_next(
    nodes: &mut Nodes,
    family: u32,
    key: &[u8],
    value: Option<&[u8]>,
    sequence: u64,
) -> bool {
    let is_key = nodes.first_key() == Some((family, key));
    let Some(node) = nodes.pop() else {
        return false;
    };
    let mut tree = Tree::new();
    tree.insert(node);
    let before = tree.lookup(family, key, sequence.saturating_sub(1));
    is_key && before.is_none() && tree.lookup(family, key, sequence) == value
}

// The part is this member's, and has the nodes of such batches, with these first sequences, and no others.
fn check_part(rt: &impl Abort, part: Option<MemberNodes>, member: u32, firsts: &[u64]) {
    let part = part.expect(rt, "a part");
    let mut nodes = part.nodes.into_nodes();
    for first in firsts {
        let put = is_next(&mut nodes, 0, b"a", Some(b"1"), *first);
        let deleted = is_next(&mut nodes, 7, b"b", None, first.wrapping_add(1));
        let single = is_next(&mut nodes, 0, b"c", None, first.wrapping_add(2));
        assert_eq!(rt; (put, deleted, single), (true, true, true), "from {first}");
    }
    assert_eq!(rt; (part.member, nodes.first_key()), (member, None));
}

#[test]
fn makes_nodes_and_parts(rt: HostRuntime) {
    let alloc = rt.alloc();
    let mut parts = Parts::new(alloc, 2).expect(&rt, "memory");
    parts.add(2, nodes_of_each_kind(&rt, alloc, 7));
    parts.add(1, nodes_of_each_kind(&rt, alloc, 20));
    parts.add(2, nodes_of_each_kind(&rt, alloc, 30));
    check_part(&rt, parts.pop(), 2, &[7, 30]);
    check_part(&rt, parts.pop(), 1, &[20]);
    assert!(rt; parts.pop().is_none());
}
