//! A client's reads.

ghost use Rattle.std.specs.Prelude.{◌≡◌, [], ◌∷◌, None, map, IfOk};
ghost use Rattle.base_bytes.specs.declared.answers.Place as place;
ghost use Rattle.model_base.specs.Progress.{first_missing};
ghost use Rattle.model_base.specs.Map.{key_at, key_in, value_at, rows_within};
ghost use Rattle.base_bytes.specs.Answers.{found_value};
ghost use Rattle.engine_calls.specs.Reading.{IsOfFamilies};

use crate::engine::{EngineClient, GroupEngine};
use base_bytes::{Bytes, Place, Read, Reads, Rows};
use base_devices::Clock;
use engine_calls::Gate;
use log_writer::GroupLog;
use model_base::{NoMemory, ReadRefused};
use std::alloc::Global;
use std::rt;
use std::sync::Wait;
use table_calls::Table;
use table_nodes::{Nodes, Parts};

/// The family, if there isn't it.
fn missing(family: u32, families: u32) -> Option<u32>
    ensures { result ≡ first_missing families (family ∷ []) }
{
    if family >= families {
        Some(family)
    } else {
        None
    }
}

/// The first family of these places that there isn't, if there is one.
fn first_missing(places: &[Place], families: u32) -> Option<u32>
    ensures { result ≡ first_missing families (map (λ (p : place.Place). p.family) places.now) }
{
    // The families of the places before this one are there.
    for place in places {
        if place.family >= families {
            return Some(place.family);
        }
    }
    None
}

/// The places of keys in the default family.
fn default_places(alloc: Global, keys: &[Bytes]) -> Result<Vec<Place>, NoMemory>
    ensures { IfOk result (λ places. places.items ≡ map (λ key. record { family = 0; key = key }) keys.now) }
{
    let mut places = Vec::new(alloc);
    // `places` has those of the keys so far.
    for key in keys {
        let key = Bytes::copy(alloc, key.as_slice())?;
        places.push(Place { family: 0, key })?;
    }
    Ok(places)
}

impl<
    Log: GroupLog,
    Versions: Table<Nodes, Parts>,
    Time: Clock + Drop,
    Watch: Gate + Drop,
> GroupEngine<Log, Versions, Time, Watch> {
    ghost use Rattle.model_accounts.specs.Accounts.{Keeps, Reads as ReadsAtEnd};
    ghost use Rattle.engine_groups.specs.Clients.{IsClientOf, account_in, settings_of};

    /// The value of a key in the default family as of the end of what is published.
    pub fn get<R: Wait + rt::Clock>(
        &self,
        rt: &R,
        client: &mut EngineClient<Log, Versions, Time>,
        key: &[u8],
    ) -> Result<Read, NoMemory>
        requires { IsClientOf Versions.Table self.now client.old }
        ensures belongs { IsClientOf Versions.Table self.now client.new }
        ensures keeps { Keeps (account_in Versions.Table client.old) (account_in Versions.Table client.new) }
        ensures ok { IfOk result (λ read. ReadsAtEnd read.at
            (λ m. found_value read.value ≡ value_at m (key_in None key.now)) (account_in Versions.Table client.new)) }
    {
        self.table.read_in(self.alloc, rt, &mut client.seat, 0, key)
    }

    /// The values of keys in the default family, all as of the same end of what is published.
    pub fn get_many<R: Wait + rt::Clock>(
        &self,
        rt: &R,
        client: &mut EngineClient<Log, Versions, Time>,
        keys: &[Bytes],
    ) -> Result<Reads, NoMemory>
        requires { IsClientOf Versions.Table self.now client.old }
        ensures belongs { IsClientOf Versions.Table self.now client.new }
        ensures keeps { Keeps (account_in Versions.Table client.old) (account_in Versions.Table client.new) }
        ensures ok { IfOk result (λ reads. ReadsAtEnd reads.at
            (λ m. reads.values ≡ map (λ key. value_at m (key_in None key)) keys.now)
            (account_in Versions.Table client.new)) }
    {
        let places = default_places(self.alloc, keys)?;
        self.table
            .read_many_in(self.alloc, rt, &mut client.seat, places.as_slice())
    }

    /// The keys of the default family from `lo` on and below `hi` with their values, all as of the same end of what is
    /// published, in byte order.
    pub fn scan<R: Wait + rt::Clock>(
        &self,
        rt: &R,
        client: &mut EngineClient<Log, Versions, Time>,
        lo: &[u8],
        hi: &[u8],
    ) -> Result<Rows, NoMemory>
        requires { IsClientOf Versions.Table self.now client.old }
        ensures belongs { IsClientOf Versions.Table self.now client.new }
        ensures keeps { Keeps (account_in Versions.Table client.old) (account_in Versions.Table client.new) }
        ensures ok { IfOk result (λ rows. ReadsAtEnd rows.at (λ m. rows.rows ≡ rows_within 0 lo.now hi.now m)
            (account_in Versions.Table client.new)) }
    {
        self.table
            .scan_in(self.alloc, rt, &mut client.seat, 0, lo, hi)
    }

    /// There are the column families with the numbers below this one.
    pub fn families(&self) -> u32
        ensures { result ≡ (settings_of Versions.Table self.now).families }
    {
        self.families
    }

    /// The value of a family's key as of the end of what is published. Where there isn't that family, it is refused,
    /// and the client has seen nothing more.
    pub fn get_in<R: Wait + rt::Clock>(
        &self,
        rt: &R,
        client: &mut EngineClient<Log, Versions, Time>,
        family: u32,
        key: &[u8],
    ) -> Result<Read, ReadRefused>
        requires { IsClientOf Versions.Table self.now client.old }
        ensures belongs { IsClientOf Versions.Table self.now client.new }
        ensures keeps { Keeps (account_in Versions.Table client.old) (account_in Versions.Table client.new) }
        ensures ok { IfOk result (λ read. ReadsAtEnd read.at
            (λ m. found_value read.value ≡ value_at m (key_at family key.now))
            (account_in Versions.Table client.new)) }
        ensures family { IsOfFamilies (settings_of Versions.Table self.now) (family ∷ []) result }
    {
        if let Some(family) = missing(family, self.families) {
            return Err(ReadRefused::NoFamily { family });
        }
        let read = self
            .table
            .read_in(self.alloc, rt, &mut client.seat, family, key)?;
        Ok(read)
    }

    /// The values of keys in families, all as of the same end of what is published. Where there isn't one of the
    /// families, the read is refused.
    pub fn get_many_in<R: Wait + rt::Clock>(
        &self,
        rt: &R,
        client: &mut EngineClient<Log, Versions, Time>,
        places: &[Place],
    ) -> Result<Reads, ReadRefused>
        requires { IsClientOf Versions.Table self.now client.old }
        ensures belongs { IsClientOf Versions.Table self.now client.new }
        ensures keeps { Keeps (account_in Versions.Table client.old) (account_in Versions.Table client.new) }
        ensures ok { IfOk result (λ reads. ReadsAtEnd reads.at
            (λ m. reads.values ≡ map (λ (p : place.Place). value_at m (key_at p.family p.key)) places.now)
            (account_in Versions.Table client.new)) }
        ensures family { IsOfFamilies (settings_of Versions.Table self.now)
            (map (λ (p : place.Place). p.family) places.now) result }
    {
        if let Some(family) = first_missing(places, self.families) {
            return Err(ReadRefused::NoFamily { family });
        }
        let reads = self
            .table
            .read_many_in(self.alloc, rt, &mut client.seat, places)?;
        Ok(reads)
    }

    /// The keys of a family from `lo` on and below `hi` with their values, all as of the same end of what is published,
    /// in byte order. Where there isn't that family, the read is refused.
    pub fn scan_in<R: Wait + rt::Clock>(
        &self,
        rt: &R,
        client: &mut EngineClient<Log, Versions, Time>,
        family: u32,
        lo: &[u8],
        hi: &[u8],
    ) -> Result<Rows, ReadRefused>
        requires { IsClientOf Versions.Table self.now client.old }
        ensures belongs { IsClientOf Versions.Table self.now client.new }
        ensures keeps { Keeps (account_in Versions.Table client.old) (account_in Versions.Table client.new) }
        ensures ok { IfOk result (λ rows. ReadsAtEnd rows.at (λ m. rows.rows ≡ rows_within family lo.now hi.now m)
            (account_in Versions.Table client.new)) }
        ensures family { IsOfFamilies (settings_of Versions.Table self.now) (family ∷ []) result }
    {
        if let Some(family) = missing(family, self.families) {
            return Err(ReadRefused::NoFamily { family });
        }
        let rows = self
            .table
            .scan_in(self.alloc, rt, &mut client.seat, family, lo, hi)?;
        Ok(rows)
    }
}
