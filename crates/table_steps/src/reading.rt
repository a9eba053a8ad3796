//! What a client reads: the published sequence, and a shard's tree as of it.
ghost use Rattle.std.specs.Prelude.{◌≡◌, ◌<◌, ◌≤◌, List, None, IfOk, IfSome};
ghost use Rattle.model_base.specs.Map.{value_at, rows_within};
ghost use Rattle.base_bytes.specs.Answers.{found_value};
ghost use Rattle.table_rule.specs.declared.content.Version.{Version};
ghost use Rattle.table_rule.specs.Histories.{IsHistory, IsOrderUpTo, last_of, standing, of_shard, map_of};
ghost use Rattle.table_calls.specs.Account.{Learns};
ghost use Rattle.table_steps.specs.Accounts.{account, opening_of, IsOurs};

use crate::seat::TableSeat;
use crate::shared::SharedTable;
use base_bytes::{Bytes, Found, Rows};
use model_base::NoMemory;
use std::alloc::Global;
use std::rt;
use std::sync::Wait;
use table_calls::{VersionNode, VersionNodes, VersionTree};
use table_rule::Learn;

/// A copy of the value that a tree has for a family's key as of a sequence.
fn copied<Node: VersionNode, ShardTree: VersionTree<Node>>(
    alloc: Global,
    tree: &ShardTree,
    family: u32,
    key: &[u8],
    at: u64,
) -> Result<Found, NoMemory>
    ensures { IfOk result (λ found. (order : List Version) → IsOrderUpTo at (ShardTree.versions tree.now) order
        → found_value found ≡ value_at (map_of order) (record { family = family; bytes = key.now })) }
{
    match tree.lookup(family, key, at) {
        Some(value) => Ok(Found::Value(Bytes::copy(alloc, value)?)),
        None => Ok(Found::Absent),
    }
}

impl<ShardTree: VersionTree<NodeList::Node> + Drop, NodeList: VersionNodes + Drop> TableSeat<
    ShardTree,
    NodeList,
> {
    /// The published sequence.
    pub fn last(&mut self, table: &SharedTable<ShardTree, NodeList>) -> u64
        requires { IsOurs table.now self.old }
        ensures ours { IsOurs table.now self.new }
        ensures seen { Learns (opening_of table.now).start (account self.old) (account self.new) }
        ensures value { result ≡ last_of (opening_of table.now).start (account self.new).seen }
    {
        table
            .table
            .shared
            .load::<Learn>(&mut self.client.seat, table.sizes.shards as usize)
    }
    /// Waits until the client has seen what is published up to a sequence. It sleeps until a group is published.
    pub fn await_seen<R: Wait + rt::Clock>(
        &mut self,
        table: &SharedTable<ShardTree, NodeList>,
        rt: &R,
        at_least: u64,
    )
        requires { IsOurs table.now self.old }
        ensures ours { IsOurs table.now self.new }
        ensures seen { Learns (opening_of table.now).start (account self.old) (account self.new) }
        ensures reached { at_least ≤ last_of (opening_of table.now).start (account self.new).seen }
    {
        let pauses = table.handed.pauses();
        // If anything has changed, the client has seen more of what is published.
        for _ in rt.forever() {
            let found = self.last(table);
            if at_least <= found {
                return;
            }
            table.published.pause(rt, &pauses);
        }
        unreachable!()
    }

    /// The value of a family's key in a shard, as of `at`, the end of what the seat has seen.
    pub fn find<R: Wait + rt::Clock>(
        &mut self,
        table: &SharedTable<ShardTree, NodeList>,
        alloc: Global,
        rt: &R,
        shard: u64,
        family: u32,
        key: &[u8],
        at: u64,
    ) -> Result<Found, NoMemory>
        requires ours { IsOurs table.now self.old }
        requires shard { shard < (opening_of table.now).shards }
        requires history { IsHistory (opening_of table.now).start (account self.old).seen }
        requires at { at ≡ last_of (opening_of table.now).start (account self.old).seen }
        ensures ours { IsOurs table.now self.new }
        ensures same { account self.new ≡ account self.old }
        ensures value { IfOk result (λ found. found_value found
            ≡ value_at (map_of (of_shard (opening_of table.now).shards shard
            (standing (opening_of table.now).base (account self.old).seen)))
            (record { family = family; bytes = key.now })) }
    {
        let pauses = table.handed.pauses();
        // Somebody had the shard's lock at each try so far, and the seat is as it was.
        for _ in rt.forever() {
            if let Some(found) = self.try_find(table, alloc, shard, family, key, at) {
                return found;
            }
            pauses.retry(rt);
        }
        unreachable!()
    }

    /// Looks the key up as `find` does, if nobody else has the shard's lock. Where somebody has it, the answer is
    /// `None`, and the seat is as it was.
    pub fn try_find(
        &mut self,
        table: &SharedTable<ShardTree, NodeList>,
        alloc: Global,
        shard: u64,
        family: u32,
        key: &[u8],
        at: u64,
    ) -> Option<Result<Found, NoMemory>>
        requires ours { IsOurs table.now self.old }
        requires shard { shard < (opening_of table.now).shards }
        requires history { IsHistory (opening_of table.now).start (account self.old).seen }
        requires at { at ≡ last_of (opening_of table.now).start (account self.old).seen }
        ensures ours { IsOurs table.now self.new }
        ensures none { result ≡ None → self.new ≡ self.old }
        ensures same { account self.new ≡ account self.old }
        ensures value { IfSome result (λ answer. IfOk answer (λ found. found_value found
            ≡ value_at (map_of (of_shard (opening_of table.now).shards shard
            (standing (opening_of table.now).base (account self.old).seen)))
            (record { family = family; bytes = key.now }))) }
    {
        let tree = table.try_lock(&mut self.client, shard)?;
        let found = copied::<NodeList::Node, ShardTree>(alloc, &tree, family, key, at);
        table.unlock(&mut self.client, shard, tree);
        Some(found)
    }

    /// A family's keys of a shard from `lo` on and below `hi` with their values, as of `at`, the end of what the seat
    /// has seen.
    pub fn find_rows<R: Wait + rt::Clock>(
        &mut self,
        table: &SharedTable<ShardTree, NodeList>,
        alloc: Global,
        rt: &R,
        shard: u64,
        family: u32,
        lo: &[u8],
        hi: &[u8],
        at: u64,
    ) -> Result<Rows, NoMemory>
        requires ours { IsOurs table.now self.old }
        requires shard { shard < (opening_of table.now).shards }
        requires history { IsHistory (opening_of table.now).start (account self.old).seen }
        requires at { at ≡ last_of (opening_of table.now).start (account self.old).seen }
        ensures ours { IsOurs table.now self.new }
        ensures same { account self.new ≡ account self.old }
        ensures at { IfOk result (λ rows. rows.at ≡ at) }
        ensures rows { IfOk result (λ rows. rows.rows ≡ rows_within family lo.now hi.now
            (map_of (of_shard (opening_of table.now).shards shard
            (standing (opening_of table.now).base (account self.old).seen)))) }
    {
        let pauses = table.handed.pauses();
        // Somebody had the shard's lock at each try so far, and the seat is as it was.
        for _ in rt.forever() {
            if let Some(rows) = self.try_find_rows(table, alloc, shard, family, lo, hi, at) {
                return rows;
            }
            pauses.retry(rt);
        }
        unreachable!()
    }

    /// Looks the rows up as `find_rows` does, if nobody else has the shard's lock. Where somebody has it, the answer is
    /// `None`, and the seat is as it was.
    pub fn try_find_rows(
        &mut self,
        table: &SharedTable<ShardTree, NodeList>,
        alloc: Global,
        shard: u64,
        family: u32,
        lo: &[u8],
        hi: &[u8],
        at: u64,
    ) -> Option<Result<Rows, NoMemory>>
        requires ours { IsOurs table.now self.old }
        requires shard { shard < (opening_of table.now).shards }
        requires history { IsHistory (opening_of table.now).start (account self.old).seen }
        requires at { at ≡ last_of (opening_of table.now).start (account self.old).seen }
        ensures ours { IsOurs table.now self.new }
        ensures none { result ≡ None → self.new ≡ self.old }
        ensures same { account self.new ≡ account self.old }
        ensures at { IfSome result (λ answer. IfOk answer (λ rows. rows.at ≡ at)) }
        ensures rows { IfSome result (λ answer. IfOk answer (λ rows. rows.rows ≡ rows_within family lo.now hi.now
            (map_of (of_shard (opening_of table.now).shards shard
            (standing (opening_of table.now).base (account self.old).seen))))) }
    {
        let tree = table.try_lock(&mut self.client, shard)?;
        let rows = tree.range(alloc, family, lo, hi, at);
        table.unlock(&mut self.client, shard, tree);
        Some(rows)
    }
}
