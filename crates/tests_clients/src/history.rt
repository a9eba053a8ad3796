//! Two clients' batches, of keys of two families: their history, and the map at its end.

use base_maps::FamilyMap;
use log_batch::Batch;
use model_base::Flag;
use run_batches::BatchList;
use run_outcome::History;
use run_threads::{history_of, state_of};
use std::alloc::Global;
use std::test::Fail;

/// A record: a family's key and its value, or none where the key is deleted.
type Row = (u32, &'static [u8], Option<&'static [u8]>);

/// An accepted batch: its client and its number among that client's batches, its run from the first sequence to the
/// last, and its records.
type Commit = ((u32, u64), (u64, u64), &'static [Row]);

/// The runs of two clients alternate. The key `a` is set by both clients and deleted by the first.
const COMMITS: [Commit; 4] = [
    (
        (1, 1),
        (1, 2),
        &[(0, b"c", Some(b"1")), (0, b"a", Some(b"2"))],
    ),
    ((2, 1), (3, 3), &[(0, b"a", Some(b"3"))]),
    ((1, 2), (4, 5), &[(1, b"a", Some(b"7")), (0, b"a", None)]),
    (
        (2, 2),
        (6, 8),
        &[
            (0, b"b", Some(b"4")),
            (0, b"c", Some(b"5")),
            (1, b"d", None),
        ],
    ),
];

/// The families, keys and values that are left, of the history and of the map before it.
const LEFT: [(u32, &[u8], &[u8]); 4] = [
    (0, b"b", b"4"),
    (0, b"c", b"5"),
    (0, b"d", b"6"),
    (1, b"a", b"7"),
];

fn batch_of(alloc: Global, sequence: u64, rows: &[Row]) -> Result<Batch, Fail> {
    let mut batch = Batch::new(alloc)?;
    for (family, key, value) in rows {
        match value {
            Some(value) => batch.put_in(*family, key, value)?,
            None => batch.delete_in(*family, key)?,
        }
    }
    batch.set_sequence(sequence);
    Ok(batch)
}

/// The accepted batches of a client.
fn accepted(alloc: Global, of: u32) -> Result<BatchList, Fail> {
    let mut list = BatchList::new(alloc);
    for ((client, _), (first, _), rows) in COMMITS {
        if client == of {
            let batch = batch_of(alloc, first, rows)?;
            list.push(Flag::Log, &batch)?;
        }
    }
    Ok(list)
}

/// The history of both clients.
fn whole(alloc: Global) -> Result<History, Fail> {
    let both = vec![in alloc; accepted(alloc, 1)?, accepted(alloc, 2)?]?;
    Ok(history_of(alloc, both)?)
}

#[test]
fn history_is_in_order_of_sequences(rt: HostRuntime) -> Result<(), Fail> {
    let history = whole(rt.alloc())?;
    assert_eq!(rt; history.len(), COMMITS.len());
    for at in 0..history.len() {
        let (owner, run, _) = COMMITS[at];
        let entry = history.entry(at);
        let shown = (
            (entry.client, entry.ordinal),
            (entry.run.first, entry.run.last),
            entry.batch.sequence(),
        );
        assert_eq!(rt; shown, (owner, run, run.0));
    }
    Ok(())
}

/// The map before the history, which deletes its `a`, and the `d` of the other family.
fn before(alloc: Global) -> Result<FamilyMap, Fail> {
    let mut map = FamilyMap::new(alloc);
    map.insert(0, b"a".as_slice(), b"0".as_slice())?;
    map.insert(0, b"d".as_slice(), b"6".as_slice())?;
    map.insert(1, b"d".as_slice(), b"8".as_slice())?;
    Ok(map)
}

#[test]
fn map_is_that_of_the_whole_history(rt: HostRuntime) -> Result<(), Fail> {
    let history = whole(rt.alloc())?;
    let state = state_of(before(rt.alloc())?, &history)?;
    let mut left = Vec::new(rt.alloc());
    // `left` has the keys and values so far, by family and in each in byte order of the keys.
    for row in state.iter() {
        left.push(row)?;
    }
    assert_eq!(rt; left.as_slice(), LEFT.as_slice());
    Ok(())
}
