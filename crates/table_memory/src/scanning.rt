//! The rows of all shards, in byte order.
ghost use Rattle.std.specs.Prelude.{◌≡◌, IfOk};
ghost use Rattle.std.specs.List.Sorted.{IsPermutation};
ghost use Rattle.model_base.specs.Map as map;
ghost use Rattle.model_base.specs.Map.{rows_within};
ghost use Rattle.table_rule.specs.Histories.{IsHistory, last_of, map_after};
ghost use Rattle.table_memory.specs.Meaning.{opening_of, account_of, IsOurs};
ghost use Rattle.table_memory.specs.Rows.{AreRising};

use crate::memory_table::MemoryTable;
use base_bytes::{Bytes, PairList, Rows};
use model_base::NoMemory;
use std::alloc::Global;
use std::rt;
use std::sync::Wait;
use table_nodes::Nodes;
use table_steps::TableSeat;
use table_tree::Tree;

/// Rows of different keys, sorted in the byte order of the keys.
fn in_byte_order(mut rows: Vec<(Bytes, Bytes)>) -> PairList
    ensures { (rising : map.Rows) → AreRising rising → IsPermutation rising rows.items → result ≡ rising }
{
    rows.sort_unstable_by(|a, b| a.0.as_slice().cmp(b.0.as_slice()));
    PairList::from_vec(rows)
}

impl MemoryTable {
    /// The keys of a family from `lo` on and below `hi` with their values, as of `at`, the end of what the seat has
    /// seen. A tree's rows are in byte order, so those of a single shard needn't be sorted.
    pub(crate) fn rows<R: Wait + rt::Clock>(
        &self,
        alloc: Global,
        rt: &R,
        seat: &mut TableSeat<Tree, Nodes>,
        family: u32,
        lo: &[u8],
        hi: &[u8],
        at: u64,
    ) -> Result<Rows, NoMemory>
        requires ours { IsOurs self.now seat.old }
        requires history { IsHistory (opening_of self.now).start (account_of seat.old).seen }
        requires at { at ≡ last_of (opening_of self.now).start (account_of seat.old).seen }
        ensures ours { IsOurs self.now seat.new }
        ensures same { account_of seat.new ≡ account_of seat.old }
        ensures at { IfOk result (λ rows. rows.at ≡ at) }
        ensures rows { IfOk result (λ rows. rows.rows
            ≡ rows_within family lo.now hi.now (map_after (opening_of self.now).base (account_of seat.old).seen)) }
    {
        if self.steps.shards() == 1 {
            return seat.find_rows(&self.steps, alloc, rt, 0, family, lo, hi, at);
        }
        let found = self.gather(alloc, rt, seat, family, lo, hi, at)?;
        let rows = in_byte_order(found);
        Ok(Rows { at, rows })
    }

    // The rows that `rows` sorts, shard after shard.
    fn gather<R: Wait + rt::Clock>(
        &self,
        alloc: Global,
        rt: &R,
        seat: &mut TableSeat<Tree, Nodes>,
        family: u32,
        lo: &[u8],
        hi: &[u8],
        at: u64,
    ) -> Result<Vec<(Bytes, Bytes)>, NoMemory>
        requires ours { IsOurs self.now seat.old }
        requires history { IsHistory (opening_of self.now).start (account_of seat.old).seen }
        requires at { at ≡ last_of (opening_of self.now).start (account_of seat.old).seen }
        ensures ours { IsOurs self.now seat.new }
        ensures same { account_of seat.new ≡ account_of seat.old }
        ensures rows { IfOk result (λ rows. IsPermutation
            (rows_within family lo.now hi.now (map_after (opening_of self.now).base (account_of seat.old).seen))
            rows.items) }
    {
        let mut rows = Vec::new(alloc);
        let shards = self.steps.shards();
        // `rows` has the rows of the shards below `shard`, in any order.
        for shard in 0..shards {
            let found = seat.find_rows(&self.steps, alloc, rt, shard, family, lo, hi, at)?;
            let mut more = found.rows.into_vec();
            rows.append(&mut more)?;
        }
        Ok(rows)
    }
}
