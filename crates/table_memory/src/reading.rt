//! The shard of a key, and reads in it.
ghost use Rattle.std.specs.Prelude.{◌≡◌, ◌<◌, map, IfOk};
ghost use Rattle.model_base.specs.Checksum as checksum;
ghost use Rattle.base_bytes.specs.Answers.{found_value};
ghost use Rattle.base_bytes.specs.declared.answers.Place.{Place};
ghost use Rattle.table_rule.specs.Histories.{IsHistory, last_of, shard_bytes, shard_of_key, value_in};
ghost use Rattle.table_tree.specs.Rows.{at_key};
ghost use Rattle.table_memory.specs.Meaning.{opening_of, account_of, IsOurs};

use crate::memory_table::MemoryTable;
use base_bytes::{Found, FoundList, Place, crc32c, extend};
use model_base::NoMemory;
use std::alloc::Global;
use std::rt;
use std::sync::Wait;
use table_nodes::Nodes;
use table_steps::TableSeat;
use table_tree::Tree;

/// The shard of a family's key among `shards`, by a checksum. If there is only one shard, it is every key's.
pub(crate) fn shard_of(family: u32, key: &[u8], shards: u64) -> u64
    requires { 0 < shards }
    ensures shard { result ≡ shard_of_key shards (at_key family key.now) }
    ensures within { result < shards }
{
    if shards == 1 {
        0
    } else {
        u64::from(checksum_of(family, key)) % shards
    }
}

/// The checksum that says in which shard a family's key is: that of the key, and in another family than the default one
/// that of the family's four bytes, the lowest first, and then the key.
fn checksum_of(family: u32, key: &[u8]) -> u32
    ensures { result ≡ checksum.crc32c (shard_bytes (at_key family key.now)) }
{
    if family == 0 {
        crc32c(key)
    } else {
        extend(crc32c(&family.to_le_bytes()), key)
    }
}

impl MemoryTable {
    /// The shard of a family's key.
    pub(crate) fn shard_of(&self, family: u32, key: &[u8]) -> u64
        ensures shard { result ≡ shard_of_key (opening_of self.now).shards (at_key family key.now) }
        ensures within { result < (opening_of self.now).shards }
    {
        shard_of(family, key, self.steps.shards())
    }

    /// The value of a family's key as of `at`, the end of what the seat has seen.
    pub(crate) fn value<R: Wait + rt::Clock>(
        &self,
        alloc: Global,
        rt: &R,
        seat: &mut TableSeat<Tree, Nodes>,
        family: u32,
        key: &[u8],
        at: u64,
    ) -> Result<Found, NoMemory>
        requires ours { IsOurs self.now seat.old }
        requires history { IsHistory (opening_of self.now).start (account_of seat.old).seen }
        requires at { at ≡ last_of (opening_of self.now).start (account_of seat.old).seen }
        ensures ours { IsOurs self.now seat.new }
        ensures same { account_of seat.new ≡ account_of seat.old }
        ensures value { IfOk result (λ found. found_value found
            ≡ value_in (opening_of self.now).base (at_key family key.now) (account_of seat.old).seen) }
    {
        let shard = self.shard_of(family, key);
        seat.find(&self.steps, alloc, rt, shard, family, key, at)
    }

    /// The values of several keys in families as of `at`, in the order of the places, each looked up in its own shard.
    pub(crate) fn values<R: Wait + rt::Clock>(
        &self,
        alloc: Global,
        rt: &R,
        seat: &mut TableSeat<Tree, Nodes>,
        places: &[Place],
        at: u64,
    ) -> Result<FoundList, NoMemory>
        requires ours { IsOurs self.now seat.old }
        requires history { IsHistory (opening_of self.now).start (account_of seat.old).seen }
        requires at { at ≡ last_of (opening_of self.now).start (account_of seat.old).seen }
        ensures ours { IsOurs self.now seat.new }
        ensures same { account_of seat.new ≡ account_of seat.old }
        ensures values { IfOk result (λ values. values
            ≡ map (λ (p : Place). value_in (opening_of self.now).base (at_key p.family p.key)
            (account_of seat.old).seen) places.now) }
    {
        let mut values = FoundList::new(alloc);
        // `values` has the values of the first `i` places.
        for i in 0..places.len() {
            let place = &places[i];
            let found = self.value(alloc, rt, seat, place.family, place.key.as_slice(), at)?;
            values.push(found)?;
        }
        Ok(values)
    }
}
