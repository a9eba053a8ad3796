//! The table in memory is a table.
ghost use Rattle.std.specs.Prelude.{map};
ghost use Rattle.table_rule.specs.Histories.{In};
ghost use Rattle.table_calls.specs.Account.{IsReady, IsClosing};
ghost use Rattle.table_steps.specs.Accounts.{history_of};
ghost use Rattle.table_memory.specs.Meaning.{opening_of, account_of, IsOurs, MayLaunch};

use crate::memory_table::MemoryTable;
use base_bytes::{Place, Read, Reads, Rows};
use model_base::NoMemory;
use std::alloc::Global;
use std::rt;
use std::sync::Wait;
use table_calls::{Finished, Seats, Table};
use table_nodes::{Nodes, Parts};
use table_steps::{TableSeat, Turn};
use table_tree::Tree;

impl Table<Nodes, Parts> for MemoryTable {
    type Seat = TableSeat<Tree, Nodes>;

    type Turn = Turn<Tree, Nodes>;

    type Part = Nodes;

    ghost use Rattle.table_steps.specs.Accounts.{history_of};
    ghost use Rattle.table_memory.specs.Meaning.{opening_of, account_of, IsOurs, MayLaunch};

    ghost opening = { λ t. opening_of t };

    ghost account = { λ s. account_of s };

    ghost history = { λ u. history_of u };

    ghost versions = { λ nodes. nodes };

    ghost ours = { λ t s. IsOurs t s };

    ghost our_turn = { λ t u. MayLaunch t u };

    fn last(&self, seat: &mut TableSeat<Tree, Nodes>) -> u64 {
        seat.last(&self.steps)
    }

    fn locks(&self) -> u64 {
        self.steps.shards()
    }

    fn read_in<R: Wait + rt::Clock>(
        &self,
        alloc: Global,
        rt: &R,
        seat: &mut TableSeat<Tree, Nodes>,
        family: u32,
        key: &[u8],
    ) -> Result<Read, NoMemory> {
        let at = seat.last(&self.steps);
        let value = self.value(alloc, rt, seat, family, key, at)?;
        Ok(Read { at, value })
    }

    fn read_many_in<R: Wait + rt::Clock>(
        &self,
        alloc: Global,
        rt: &R,
        seat: &mut TableSeat<Tree, Nodes>,
        places: &[Place],
    ) -> Result<Reads, NoMemory> {
        let at = seat.last(&self.steps);
        let values = self.values(alloc, rt, seat, places, at)?;
        Ok(Reads { at, values })
    }

    fn scan_in<R: Wait + rt::Clock>(
        &self,
        alloc: Global,
        rt: &R,
        seat: &mut TableSeat<Tree, Nodes>,
        family: u32,
        lo: &[u8],
        hi: &[u8],
    ) -> Result<Rows, NoMemory> {
        let at = seat.last(&self.steps);
        self.rows(alloc, rt, seat, family, lo, hi, at)
    }

    fn launch(
        &self,
        seat: &mut TableSeat<Tree, Nodes>,
        turn: Turn<Tree, Nodes>,
        parts: &mut Parts,
    ) {
        seat.launch(&self.steps, turn, parts);
    }

    fn take<R: Wait + rt::Clock>(&self, rt: &R, seat: &mut TableSeat<Tree, Nodes>) -> Nodes {
        seat.take(&self.steps, rt)
    }

    fn insert<R: Wait + rt::Clock>(&self, rt: &R, seat: &mut TableSeat<Tree, Nodes>, part: Nodes) {
        self.add_all(rt, seat, part);
        seat.settle(&self.steps);
    }

    fn finish(&self, seat: &mut TableSeat<Tree, Nodes>) -> Finished {
        seat.finish(&self.steps)
    }

    fn publish(&self, seat: &mut TableSeat<Tree, Nodes>) {
        seat.publish(&self.steps);
    }

    fn await_published<R: Wait + rt::Clock>(
        &self,
        rt: &R,
        seat: &mut TableSeat<Tree, Nodes>,
        last: u64,
    ) -> Turn<Tree, Nodes> {
        seat.await_published(&self.steps, rt, last)
    }

    fn await_seen<R: Wait + rt::Clock>(
        &self,
        rt: &R,
        seat: &mut TableSeat<Tree, Nodes>,
        at_least: u64,
    ) {
        seat.await_seen(&self.steps, rt, at_least);
    }

    fn close(self, seats: Seats<TableSeat<Tree, Nodes>, Turn<Tree, Nodes>>)
        requires turn { MayLaunch self seats.turn }
        requires clients { (seat : _) → In seat seats.clients.items → IsOurs self seat × IsReady (account_of seat) }
        ensures { IsClosing (opening_of self).start (history_of seats.turn) (map account_of seats.clients.items) }
    {
        self.steps.close(seats);
    }
}
