//! Nodes of versions, as batches make them.

ghost use Rattle.std.specs.Prelude.{◌≡◌, ◌+◌, ◌<◌, ◌^◌, [], ◌∷◌, length};
ghost use Rattle.std.specs.Option.{option_copied};
ghost use Rattle.model_base.specs.Map.{key_in, named};
ghost use Rattle.table_rule.specs.Histories.{Runs};

use log_batch::Batch;
use std::alloc::Global;
use std::process::Abort;
use table_nodes::Nodes;

// A node with this sequence, which gives the family's key a value or deletes it.
pub(super) fn node_of(
    rt: &impl Abort,
    alloc: Global,
    family: u32,
    key: &[u8],
    value: Option<&[u8]>,
    sequence: u64,
) -> Nodes
    requires { sequence < 2 ^ 56 }
    ensures { result ≡ record {
      key = key_in (named family) key.now;
      value = option_copied value.entry;
      sequence = sequence;
    } ∷ [] }
{
    let mut batch = Batch::new(alloc).expect(rt, "memory");
    match value {
        Some(value) => batch.put_in(family, key, value).expect(rt, "room"),
        None => batch.delete_in(family, key).expect(rt, "room"),
    }
    let mut nodes = Nodes::make(alloc, &batch).expect(rt, "memory");
    nodes.number(sequence, 1);
    nodes
}

// A batch that gives each of these keys of a family a value, or deletes it.
fn batch_of(
    rt: &impl Abort,
    alloc: Global,
    family: u32,
    writes: &[(&[u8], Option<&[u8]>)],
) -> Batch {
    let mut batch = Batch::new(alloc).expect(rt, "memory");
    for i in 0..writes.len() {
        let (key, value) = writes[i];
        match value {
            Some(value) => batch.put_in(family, key, value).expect(rt, "room"),
            None => batch.delete_in(family, key).expect(rt, "room"),
        }
    }
    batch
}

// The nodes of such a batch, with sequences from `last + 1` on, and how many they are. `last` is below 1000.
pub(super) fn nodes_behind(
    rt: &impl Abort,
    alloc: Global,
    last: u64,
    family: u32,
    writes: &[(&[u8], Option<&[u8]>)],
) -> (Nodes, u64)
    ensures run { Runs last result.0 × (length result.0 ≡ result.1) }
    ensures few { (0 < result.1) × (last + result.1 < 2 ^ 56) }
{
    let batch = batch_of(rt, alloc, family, writes);
    let records = batch.count();
    assert!(rt; 0 < records && last < 1000);
    let Ok(mut nodes) = Nodes::make(alloc, &batch) else {
        panic!(rt; "no memory")
    };
    nodes.number(last + 1, records as u64);
    (nodes, records as u64)
}
