//! A write path that finds no memory for anything after the checks of a commit, and of the families of a read.

ghost use Rattle.std.specs.Prelude.{◌≡◌, [], ◌∷◌, map, MatchOption};
ghost use Rattle.base_bytes.specs.declared.answers.Place as place;
ghost use Rattle.model_base.specs.Progress.{first_missing};
ghost use Rattle.model_base.specs.declared.write.ReadRefused.TheVariants as no;

use base_bytes::{Bytes, Place, Read, Reads, Rows};
use engine_calls::{Clients, Closed, Engine, Held, NotHeld, Receipt, Refused, Since, SinceRefused};
use log_batch::{Batch, Measure, refusal_at_once};
use model_accounts::earlier_sights;
use model_base::{NoMemory, ReadRefused, Refusal, WriteOptions};
use std::rt;
use std::sync::Wait;
use std::sync::atomic::{AtomicU64, Ordering};

/// It counts how many clients were ended. No client gets a token: a call that asks for one waits forever, and so does
/// the one that closes the write path.
#[derive(Drop)]
pub struct Mute {
    pub clients: u64,
    pub families: u32,
    pub batch_bytes: u64,
    pub ended: AtomicU64,
}

#[derive(Drop)]
pub struct MuteClient {
    pub number: u32,
}

/// The log of a write path that has none.
pub struct NoLog;

/// Why a family isn't read, whose number may be one of a family that there isn't.
fn no_read_of(family: u32, families: u32) -> ReadRefused
    ensures { MatchOption (first_missing families (family ∷ [])) (result ≡ no.NoMemory)
        (λ f. result ≡ no.NoFamily f) }
{
    if family >= families {
        ReadRefused::NoFamily { family }
    } else {
        ReadRefused::NoMemory
    }
}

/// The first family of these places that there isn't, if there is one.
fn first_missing(places: &[Place], families: u32) -> Option<u32>
    ensures { result ≡ first_missing families (map (λ (p : place.Place). p.family) places.now) }
{
    // The families of the places before this one are there.
    for place in places {
        if place.family >= families {
            return Some(place.family);
        }
    }
    None
}

impl Engine for Mute {
    type Client = MuteClient;

    type Room = ();

    type Log = NoLog;

    ghost use Rattle.std.specs.Prelude.{⊤, [], None, refl, List, Option, IfSome, map};
    ghost use Rattle.model_base.specs.Recovery.{Logged};
    ghost use Rattle.model_accounts.specs.Accounts.{newcomer};
    ghost use Rattle.model_accounts.specs.Closing.{AreOurs, HasOneTrace};
    ghost use Rattle.tests_clients.specs.Mute.{settings_for};

    ghost settings = { λ e. settings_for e.clients e.families e.batch_bytes };

    ghost had = { λ e batches. ⊤ };

    ghost account = { λ c. newcomer 0 [] c.number };

    ghost belongs = { λ e c. ⊤ };

    ghost own_tokens = { λ e c is. refl };

    ghost closes = { λ e room. ⊤ };

    ghost wrote = { λ e calls log. ⊤ };

    ghost fault = { λ log. None };

    ghost faults = { λ log. 0 };

    fn write<R: Wait + rt::Clock>(
        &self,
        _rt: &R,
        _client: &mut MuteClient,
        batch: Batch,
        options: WriteOptions,
    ) -> Result<Receipt, Refused> {
        earlier_sights();
        let measure = Measure::of(&batch, self.families);
        match refusal_at_once(measure, options, self.batch_bytes, false) {
            Some(why) => Err(Refused { batch, why }),
            None => Err(Refused {
                batch,
                why: Refusal::NoMemory,
            }),
        }
    }

    fn get<R: Wait + rt::Clock>(
        &self,
        _rt: &R,
        _client: &mut MuteClient,
        _key: &[u8],
    ) -> Result<Read, NoMemory> {
        earlier_sights();
        Err(NoMemory)
    }

    fn get_many<R: Wait + rt::Clock>(
        &self,
        _rt: &R,
        _client: &mut MuteClient,
        _keys: &[Bytes],
    ) -> Result<Reads, NoMemory> {
        earlier_sights();
        Err(NoMemory)
    }

    fn scan<R: Wait + rt::Clock>(
        &self,
        _rt: &R,
        _client: &mut MuteClient,
        _lo: &[u8],
        _hi: &[u8],
    ) -> Result<Rows, NoMemory> {
        earlier_sights();
        Err(NoMemory)
    }

    fn families(&self) -> u32 {
        self.families
    }

    fn get_in<R: Wait + rt::Clock>(
        &self,
        _rt: &R,
        _client: &mut MuteClient,
        family: u32,
        _key: &[u8],
    ) -> Result<Read, ReadRefused> {
        earlier_sights();
        Err(no_read_of(family, self.families))
    }

    fn get_many_in<R: Wait + rt::Clock>(
        &self,
        _rt: &R,
        _client: &mut MuteClient,
        places: &[Place],
    ) -> Result<Reads, ReadRefused> {
        earlier_sights();
        match first_missing(places, self.families) {
            Some(family) => Err(ReadRefused::NoFamily { family }),
            None => Err(ReadRefused::NoMemory),
        }
    }

    fn scan_in<R: Wait + rt::Clock>(
        &self,
        _rt: &R,
        _client: &mut MuteClient,
        family: u32,
        _lo: &[u8],
        _hi: &[u8],
    ) -> Result<Rows, ReadRefused> {
        earlier_sights();
        Err(no_read_of(family, self.families))
    }

    fn updates<R: Wait + rt::Clock>(
        &self,
        _rt: &R,
        _client: &mut MuteClient,
        _since: u64,
    ) -> Result<Since, SinceRefused> {
        earlier_sights();
        Err(SinceRefused::NoMemory)
    }

    fn stop<R: Wait + rt::Clock>(&self, rt: &R, _client: &mut MuteClient) -> Result<(), Held> {
        for _ in rt.forever() {}
        unreachable!()
    }

    fn unstop<R: Wait + rt::Clock>(
        &self,
        _rt: &R,
        _client: &mut MuteClient,
    ) -> Result<(), NotHeld> {
        earlier_sights();
        Err(NotHeld)
    }

    fn slow<R: Wait + rt::Clock>(
        &self,
        rt: &R,
        _client: &mut MuteClient,
        _rate: u64,
    ) -> Result<(), Held> {
        for _ in rt.forever() {}
        unreachable!()
    }

    fn unslow<R: Wait + rt::Clock>(
        &self,
        _rt: &R,
        _client: &mut MuteClient,
    ) -> Result<(), NotHeld> {
        earlier_sights();
        Err(NotHeld)
    }

    fn end<R: Wait + rt::Clock>(&self, _rt: &R, _client: &mut MuteClient) {
        earlier_sights();
        self.ended.fetch_add(1, Ordering::SeqCst);
    }

    fn close<R: Wait + rt::Clock>(self, rt: &R, clients: Clients<MuteClient, ()>) -> Closed<NoLog>
        requires all { AreOurs (λ c. ⊤) (λ c. newcomer 0 [] c.number) self.clients clients.clients.items }
        requires room { ⊤ }
        ensures { (kept : Option (List Logged)) → IfSome kept (λ batches. ⊤)
            → HasOneTrace (settings_for self.clients self.families self.batch_bytes) kept 0
            (map (λ c. newcomer 0 [] c.number) clients.clients.items) result.last None (λ calls. ⊤) }
    {
        let Clients {
            clients: _,
            room: _,
        } = clients;
        for _ in rt.forever() {}
        unreachable!()
    }
}
