//! The engine as any write path that many clients share.

ghost use Rattle.std.specs.Prelude.{List, Option, IfSome, map};
ghost use Rattle.model_base.specs.Recovery.{Logged};

use crate::engine::{ClosingRoom, EngineClient, GroupEngine};
use base_bytes::{Bytes, Place, Read, Reads, Rows};
use base_devices::Clock;
use engine_calls::{
    Clients, Closed, Engine, Gate, Held, NotHeld, Receipt, Refused, Since, SinceRefused,
};
use engine_parts::OpenLog;
use log_batch::Batch;
use log_writer::ReadableLog;
use model_base::{NoMemory, ReadRefused, WriteOptions};
use std::rt;
use std::sync::Wait;
use table_calls::Table;
use table_nodes::{Nodes, Parts};

impl<Log: ReadableLog, Versions: Table<Nodes, Parts>, Time: Clock + Drop, Watch: Gate + Drop> Engine
    for GroupEngine<Log, Versions, Time, Watch> {
    type Client = EngineClient<Log, Versions, Time>;

    type Room = ClosingRoom<Log, Versions, Time>;

    type Log = OpenLog<Log>;

    ghost use Rattle.model_accounts.specs.Closing.{AreOurs, HasOneTrace};
    ghost use Rattle.engine_parts.specs.Logs.{fault_of, faults_of};
    ghost use Rattle.engine_parts.specs.Logs.{Wrote};
    ghost use Rattle.line_writers.specs.Seats.{clients_of};
    ghost use Rattle.engine_groups.specs.Clients.{IsClientOf, HasRoomToClose, account_in, had_in, knows_own, settings_of, opened_log};

    ghost settings = { λ e. settings_of Versions.Table e };

    ghost had = { λ e batches. had_in Versions.Table e batches };

    ghost account = { λ c. account_in Versions.Table c };

    ghost belongs = { λ e c. IsClientOf Versions.Table e c };

    ghost own_tokens = { λ e c is. knows_own Versions.Table c };

    ghost closes = { λ e room. HasRoomToClose e.controller (clients_of e.list) room };

    ghost wrote = { λ e calls log. Wrote (opened_log e) calls log };

    ghost fault = { λ log. fault_of log };

    ghost faults = { λ log. faults_of log };

    fn write<R: Wait + rt::Clock>(
        &self,
        rt: &R,
        client: &mut EngineClient<Log, Versions, Time>,
        batch: Batch,
        options: WriteOptions,
    ) -> Result<Receipt, Refused> {
        self.write(rt, client, batch, options)
    }

    fn get<R: Wait + rt::Clock>(
        &self,
        rt: &R,
        client: &mut EngineClient<Log, Versions, Time>,
        key: &[u8],
    ) -> Result<Read, NoMemory> {
        self.get(rt, client, key)
    }

    fn get_many<R: Wait + rt::Clock>(
        &self,
        rt: &R,
        client: &mut EngineClient<Log, Versions, Time>,
        keys: &[Bytes],
    ) -> Result<Reads, NoMemory> {
        self.get_many(rt, client, keys)
    }

    fn scan<R: Wait + rt::Clock>(
        &self,
        rt: &R,
        client: &mut EngineClient<Log, Versions, Time>,
        lo: &[u8],
        hi: &[u8],
    ) -> Result<Rows, NoMemory> {
        self.scan(rt, client, lo, hi)
    }

    fn families(&self) -> u32 {
        self.families()
    }

    fn get_in<R: Wait + rt::Clock>(
        &self,
        rt: &R,
        client: &mut EngineClient<Log, Versions, Time>,
        family: u32,
        key: &[u8],
    ) -> Result<Read, ReadRefused> {
        self.get_in(rt, client, family, key)
    }

    fn get_many_in<R: Wait + rt::Clock>(
        &self,
        rt: &R,
        client: &mut EngineClient<Log, Versions, Time>,
        places: &[Place],
    ) -> Result<Reads, ReadRefused> {
        self.get_many_in(rt, client, places)
    }

    fn scan_in<R: Wait + rt::Clock>(
        &self,
        rt: &R,
        client: &mut EngineClient<Log, Versions, Time>,
        family: u32,
        lo: &[u8],
        hi: &[u8],
    ) -> Result<Rows, ReadRefused> {
        self.scan_in(rt, client, family, lo, hi)
    }

    fn updates<R: Wait + rt::Clock>(
        &self,
        rt: &R,
        client: &mut EngineClient<Log, Versions, Time>,
        since: u64,
    ) -> Result<Since, SinceRefused> {
        self.updates(rt, client, since)
    }

    fn stop<R: Wait + rt::Clock>(
        &self,
        rt: &R,
        client: &mut EngineClient<Log, Versions, Time>,
    ) -> Result<(), Held> {
        self.stop(rt, client)
    }

    fn unstop<R: Wait + rt::Clock>(
        &self,
        rt: &R,
        client: &mut EngineClient<Log, Versions, Time>,
    ) -> Result<(), NotHeld> {
        self.unstop(rt, client)
    }

    fn slow<R: Wait + rt::Clock>(
        &self,
        rt: &R,
        client: &mut EngineClient<Log, Versions, Time>,
        rate: u64,
    ) -> Result<(), Held> {
        self.slow(rt, client, rate)
    }

    fn unslow<R: Wait + rt::Clock>(
        &self,
        rt: &R,
        client: &mut EngineClient<Log, Versions, Time>,
    ) -> Result<(), NotHeld> {
        self.unslow(rt, client)
    }

    fn end<R: Wait + rt::Clock>(&self, rt: &R, client: &mut EngineClient<Log, Versions, Time>) {
        self.end(rt, client);
    }

    fn close<R: Wait + rt::Clock>(
        self,
        rt: &R,
        clients: Clients<EngineClient<Log, Versions, Time>, ClosingRoom<Log, Versions, Time>>,
    ) -> Closed<OpenLog<Log>>
        requires all { AreOurs (IsClientOf Versions.Table self) (account_in Versions.Table)
            (clients_of self.list) clients.clients.items }
        requires room { HasRoomToClose self.controller (clients_of self.list) clients.room }
        ensures { (kept : Option (List Logged)) → IfSome kept (had_in Versions.Table self)
            → HasOneTrace (settings_of Versions.Table self) kept (faults_of result.log)
            (map (account_in Versions.Table) clients.clients.items) result.last (fault_of result.log)
            (λ calls. Wrote (opened_log self) calls result.log) }
    {
        self.close(rt, clients)
    }
}
