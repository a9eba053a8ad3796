//! A client's reads, of the map and of the log. They don't see its batch in the making.

ghost use Rattle.std.specs.Prelude.{◌≡◌, List};
ghost use Rattle.model_base.specs.Batch.{Record};
ghost use Rattle.model_base.specs.Map.{key_at};
ghost use Rattle.model_base.specs.Calls as calls;
ghost use Rattle.run_threads.specs.Answers.{Answers};

use engine_calls::{Engine, Since, SinceRefused};
use model_accounts::{
    earlier_sights, reads_are_steps, reads_of_the_log_are_steps, refused_reads_are_steps,
};
use model_base::{NoMemory, ReadRefused, Refusal};
use run_command_list::Keys;
use run_outcome::Reply;
use std::alloc::Global;
use std::rt;
use std::sync::Wait;

/// Reads a key of a family.
pub fn get<E: Engine, R: Wait + rt::Clock>(
    rt: &R,
    engine: &E,
    client: &mut E::Client,
    family: u32,
    key: &[u8],
) -> Result<Option<Reply>, NoMemory>
    requires { E.belongs engine.now client.old }
    ensures belongs { E.belongs engine.now client.new }
    ensures answers { (pending : List Record) → Answers (E.settings engine.now) (E.account client.old) pending
        (calls.get (key_at family key.now)) result (E.account client.new) pending }
    ensures mine { (E.account client.new).mine ≡ (E.account client.old).mine }
{
    reads_are_steps();
    refused_reads_are_steps();
    match engine.get_in(rt, client, family, key) {
        Ok(read) => Ok(Some(Reply::found(read.at, read.value))),
        Err(ReadRefused::NoMemory) => Err(NoMemory),
        Err(ReadRefused::NoFamily { family }) => Ok(Some(Reply::Refused(Refusal::NoFamily {
            family,
        }))),
    }
}

/// Reads several keys in families, all at one sequence. The families are looked at first, so that a read in a family
/// that there isn't needs no memory.
pub fn get_many<E: Engine, R: Wait + rt::Clock>(
    rt: &R,
    alloc: Global,
    engine: &E,
    client: &mut E::Client,
    keys: Keys<'_>,
) -> Result<Option<Reply>, NoMemory>
    requires { E.belongs engine.now client.old }
    ensures belongs { E.belongs engine.now client.new }
    ensures answers { (pending : List Record) → Answers (E.settings engine.now) (E.account client.old) pending
        (calls.many keys.entry) result (E.account client.new) pending }
    ensures mine { (E.account client.new).mine ≡ (E.account client.old).mine }
{
    reads_are_steps();
    refused_reads_are_steps();
    earlier_sights();
    if let Some(family) = keys.missing_family(engine.families()) {
        return Ok(Some(Reply::Refused(Refusal::NoFamily { family })));
    }
    let places = keys.copies(alloc)?;
    match engine.get_many_in(rt, client, places.as_slice()) {
        Ok(reads) => Ok(Some(Reply::FoundEach {
            at: reads.at,
            values: reads.values,
        })),
        Err(ReadRefused::NoMemory) => Err(NoMemory),
        Err(ReadRefused::NoFamily { family }) => Ok(Some(Reply::Refused(Refusal::NoFamily {
            family,
        }))),
    }
}

/// Reads the keys of a family from `lo` on and below `hi`.
pub fn scan<E: Engine, R: Wait + rt::Clock>(
    rt: &R,
    engine: &E,
    client: &mut E::Client,
    family: u32,
    lo: &[u8],
    hi: &[u8],
) -> Result<Option<Reply>, NoMemory>
    requires { E.belongs engine.now client.old }
    ensures belongs { E.belongs engine.now client.new }
    ensures answers { (pending : List Record) → Answers (E.settings engine.now) (E.account client.old) pending
        (calls.scan family lo.now hi.now) result (E.account client.new) pending }
    ensures mine { (E.account client.new).mine ≡ (E.account client.old).mine }
{
    reads_are_steps();
    refused_reads_are_steps();
    match engine.scan_in(rt, client, family, lo, hi) {
        Ok(rows) => Ok(Some(Reply::Rows {
            at: rows.at,
            rows: rows.rows,
        })),
        Err(ReadRefused::NoMemory) => Err(NoMemory),
        Err(ReadRefused::NoFamily { family }) => Ok(Some(Reply::Refused(Refusal::NoFamily {
            family,
        }))),
    }
}

/// Reads the log's records from a sequence on.
pub fn updates<E: Engine, R: Wait + rt::Clock>(
    rt: &R,
    engine: &E,
    client: &mut E::Client,
    since: u64,
) -> Result<Option<Reply>, NoMemory>
    requires { E.belongs engine.now client.old }
    ensures belongs { E.belongs engine.now client.new }
    ensures answers { (pending : List Record) → Answers (E.settings engine.now) (E.account client.old) pending
        (calls.updates since) result (E.account client.new) pending }
    ensures mine { (E.account client.new).mine ≡ (E.account client.old).mine }
{
    reads_of_the_log_are_steps();
    match engine.updates(rt, client, since) {
        Ok(Since { at, records }) => Ok(Some(Reply::Updates { at, records })),
        Err(SinceRefused::SelfStop) => Ok(Some(Reply::Refused(Refusal::SelfStop))),
        Err(SinceRefused::NoMemory) => Err(NoMemory),
        Err(SinceRefused::ReadFault { count }) => Ok(Some(Reply::ReadFault { count })),
    }
}
