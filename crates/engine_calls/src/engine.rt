//! The calls of a write path.

ghost use Rattle.std.specs.Prelude.{◌≡◌, ℕ, ◌+◌, ◌≤◌, true, false, [], ◌∷◌, None, length, map, List, Option, IfOk, IfErr, IfSome, OnOk, OnErr};
ghost use Rattle.model_base.specs.Batch as model;
ghost use Rattle.model_base.specs.LogContents.{GroupCall, IsLoggedBy};
ghost use Rattle.model_base.specs.Recovery.{Logged};
ghost use Rattle.model_base.specs.Map.{key_at, key_in, rows_within, value_at};
ghost use Rattle.model_base.specs.Controller as controller;
ghost use Rattle.model_base.specs.Tokens.{holds_stop, holds_slow};
ghost use Rattle.base_bytes.specs.Answers.{found_value};
ghost use Rattle.base_bytes.specs.declared.answers.Place as place;
ghost use Rattle.engine_calls.specs.Reading.{IsOfFamilies, FailsFor};
ghost use Rattle.model_accounts.specs.Accounts.{Keeps, Wrote, Refuses, Reads as ReadsAt, ReadsLog, Asks, GivesBack};
ghost use Rattle.model_accounts.specs.Closing.{AreOurs, HasOneTrace};

use crate::answers::{Closed, Receipt, Refused, Since, SinceRefused};
use base_bytes::{Bytes, Place, Read, Reads, Rows};
use engine_controller::{Held, NotHeld};
use log_batch::Batch;
use model_base::{NoMemory, ReadRefused, WriteOptions};
use std::rt;
use std::sync::Wait;

/// All clients of a write path, client 1 first, and the room that is needed to close it.
pub struct Clients<C, R> {
    pub clients: Vec<C>,
    pub room: R,
}

/// A write path that many clients share.
///
/// Each call changes its client's account, and no other account: `Wrote`, `Refuses`, `Reads`, `ReadsLog`, `FailsFor`,
/// `Asks`, `GivesBack` and `Keeps` say how. All accounts are parts of one trace, as the clause of `close` says.
pub trait Engine {
    type Client;

    /// The memory that is needed for closing.
    type Room;

    type Log;

    ghost use Rattle.std.specs.Prelude.{ℕ, List, Option};
    ghost use Rattle.model_base.specs.LogContents.{GroupCall};
    ghost use Rattle.model_base.specs.Recovery.{Logged};
    ghost use Rattle.model_base.specs.Trace.{Settings};
    ghost use Rattle.model_accounts.specs.Accounts.{Account, KnowsOwnTokens};

    /// What the write path was opened for. Which batches its log had kept isn't a part of it: `had` says that.
    ghost settings: { Self → Settings };

    /// As the write path was opened, its log had these batches and no others, and what the log holds is known. Of a log
    /// on a disk that doesn't tell what it holds there are no such batches.
    ghost had: { Self → List Logged → Type 0 };

    /// What a client did and saw.
    ghost account: { Self.Client → Account };

    /// The client is one of the write path's clients.
    ghost belongs: { Self → Self.Client → Type 0 };

    /// The room is enough to close the write path.
    ghost closes: { Self → Self.Room → Type 0 };

    /// These calls of the log writer, and no others, have turned the log that the write path was opened with into this
    /// log.
    ghost wrote: { Self → List GroupCall → Self.Log → Type 0 };

    /// The log's fault, and how many faults its disk has counted.
    ghost fault: { Self.Log → Option ℕ };

    ghost faults: { Self.Log → ℕ };

    /// A client knows of its own calls of the controller that take a token or give one back, and of no others of it.
    ghost own_tokens: { (e : Self) (c : Self.Client) → belongs e c → KnowsOwnTokens (account c) };

    /// Writes a batch under a run of sequences of its own, and waits until reads see it.
    fn write<R: Wait + rt::Clock>(
        &self,
        rt: &R,
        client: &mut Self::Client,
        batch: Batch,
        options: WriteOptions,
    ) -> Result<Receipt, Refused>
        requires { belongs self.now client.old }
        ensures belongs { belongs self.now client.new }
        // The client has seen its whole group published, so its next read has the batch.
        ensures ok { IfOk result (λ r. Wrote (settings self.now) (account client.old) batch.records options r.run.first
            r.group_last (account client.new)) }
        ensures back { IfOk result (λ r. (r.batch ≡ record batch { sequence = r.run.first })
            × (r.run.last + 1 ≡ r.run.first + model.count_of batch.records)) }
        // A batch that goes into the log was written by a call of the log writer that had returned, and that synced
        // where the batch asked for it. The client knows of that call since, and knew less before.
        ensures logged { IfOk result (λ r. options.no_log ≡ false → (calls : List GroupCall) × (log : Self.Log)
            × wrote self.now calls log × ((account client.new).seen.logged ≤ length calls)
            × IsLoggedBy calls (account client.old).seen.logged (account client.new).seen.logged r.run.first
            batch.records options.sync) }
        // The cause holds of the batch, of the client, of the log as the client may know it, or of the controller by
        // the numbers of its group's own delay or of a look. A client that meets want of memory has made no attempt:
        // its commit was never in the line.
        ensures err { IfErr result (λ e. Refuses (settings self.now) (account client.old) batch.records options e.why
            (account client.new)) }
        // So the caller may write the same batch again.
        ensures unchanged { IfErr result (λ e. e.batch ≡ batch) };

    /// The value of a key in the default column family at the end of what is published. For this and the other reads
    /// the clauses say that it is the end of what the client has then seen published; more may be published.
    fn get<R: Wait + rt::Clock>(
        &self,
        rt: &R,
        client: &mut Self::Client,
        key: &[u8],
    ) -> Result<Read, NoMemory>
        requires { belongs self.now client.old }
        ensures belongs { belongs self.now client.new }
        ensures keeps { Keeps (account client.old) (account client.new) }
        // The end is named, and is not below what the client has seen.
        ensures ok { IfOk result (λ read. ReadsAt read.at
            (λ m. found_value read.value ≡ value_at m (key_in None key.now)) (account client.new)) };

    /// The values of several keys in the default family, all at one and the same end of what is published.
    fn get_many<R: Wait + rt::Clock>(
        &self,
        rt: &R,
        client: &mut Self::Client,
        keys: &[Bytes],
    ) -> Result<Reads, NoMemory>
        requires { belongs self.now client.old }
        ensures belongs { belongs self.now client.new }
        ensures keeps { Keeps (account client.old) (account client.new) }
        ensures ok { IfOk result (λ reads. ReadsAt reads.at
            (λ m. reads.values ≡ map (λ key. value_at m (key_in None key)) keys.now) (account client.new)) };

    /// The keys of the default family from `lo` on and below `hi` with their values, in byte order, all at one and the
    /// same end of what is published.
    fn scan<R: Wait + rt::Clock>(
        &self,
        rt: &R,
        client: &mut Self::Client,
        lo: &[u8],
        hi: &[u8],
    ) -> Result<Rows, NoMemory>
        requires { belongs self.now client.old }
        ensures belongs { belongs self.now client.new }
        ensures keeps { Keeps (account client.old) (account client.new) }
        ensures ok { IfOk result (λ rows. ReadsAt rows.at (λ m. rows.rows ≡ rows_within 0 lo.now hi.now m)
            (account client.new)) };

    /// There are the column families with the numbers below this one.
    fn families(&self) -> u32
        ensures { result ≡ (settings self.now).families };

    /// The value of a family's key, as `get` reads it. Where there isn't that family, the read is refused.
    fn get_in<R: Wait + rt::Clock>(
        &self,
        rt: &R,
        client: &mut Self::Client,
        family: u32,
        key: &[u8],
    ) -> Result<Read, ReadRefused>
        requires { belongs self.now client.old }
        ensures belongs { belongs self.now client.new }
        ensures keeps { Keeps (account client.old) (account client.new) }
        ensures ok { IfOk result (λ read. ReadsAt read.at
            (λ m. found_value read.value ≡ value_at m (key_at family key.now)) (account client.new)) }
        ensures family { IsOfFamilies (settings self.now) (family ∷ []) result };

    /// The values of several keys in families, all at one and the same end of what is published: so no read sees a
    /// batch in one family and not in another. Where there isn't one of the families, the read is refused.
    fn get_many_in<R: Wait + rt::Clock>(
        &self,
        rt: &R,
        client: &mut Self::Client,
        places: &[Place],
    ) -> Result<Reads, ReadRefused>
        requires { belongs self.now client.old }
        ensures belongs { belongs self.now client.new }
        ensures keeps { Keeps (account client.old) (account client.new) }
        // All are values of one map.
        ensures ok { IfOk result (λ reads. ReadsAt reads.at
            (λ m. reads.values ≡ map (λ (p : place.Place). value_at m (key_at p.family p.key)) places.now)
            (account client.new)) }
        ensures family { IsOfFamilies (settings self.now) (map (λ (p : place.Place). p.family) places.now) result };

    /// The keys of a family from `lo` on and below `hi`, as `scan` reads them. Where there isn't that family, the read
    /// is refused.
    fn scan_in<R: Wait + rt::Clock>(
        &self,
        rt: &R,
        client: &mut Self::Client,
        family: u32,
        lo: &[u8],
        hi: &[u8],
    ) -> Result<Rows, ReadRefused>
        requires { belongs self.now client.old }
        ensures belongs { belongs self.now client.new }
        ensures keeps { Keeps (account client.old) (account client.new) }
        ensures ok { IfOk result (λ rows. ReadsAt rows.at (λ m. rows.rows ≡ rows_within family lo.now hi.now m)
            (account client.new)) }
        ensures family { IsOfFamilies (settings self.now) (family ∷ []) result };

    /// The log's records that hold the sequence `since` or later ones, up to an end of what is published: those that
    /// the log had kept and those of the groups that were logged, in order, without those that hold no sequence. It
    /// waits until it leads the log alone; while it reads, groups that are in the log already go on into the table.
    fn updates<R: Wait + rt::Clock>(
        &self,
        rt: &R,
        client: &mut Self::Client,
        since: u64,
    ) -> Result<Since, SinceRefused>
        requires { belongs self.now client.old }
        ensures belongs { belongs self.now client.new }
        // The end is that of what the client has then seen published. That the records are right is a part of the
        // clause of `close`, since it speaks of the whole log.
        ensures ok { IfOk result (λ r. (holds_stop (account client.old).asked ≡ false)
            × ReadsLog (account client.old) since r.at r.records (account client.new)) }
        // It is refused exactly where the client holds a stop token. A fault's count was reached by the disk in the
        // run; at the closing no other call was answered it.
        ensures err { IfErr result
            (λ why. FailsFor (settings self.now) (account client.old) why (account client.new)) };

    /// Takes the client's stop token. While any client holds one, leaders let writes wait that may wait, and refuse
    /// those that may not, as far as an outcome shows it. A client that holds one itself doesn't wait: all its writes
    /// are refused. A write that had gone on before isn't stopped. Where the client already holds one, no call is made.
    ///
    /// Where a call was made, by this function or the next three, the client is from then on shown all that other
    /// clients had been shown whose delay or token call comes before it. What was said up to a call, and that it was
    /// heard, is known at the closing.
    fn stop<R: Wait + rt::Clock>(&self, rt: &R, client: &mut Self::Client) -> Result<(), Held>
        requires { belongs self.now client.old }
        ensures belongs { belongs self.now client.new }
        ensures done { OnOk result ((holds_stop (account client.old).asked ≡ false)
            × (shown : ℕ) × Asks (account client.old) (controller.stop shown) (account client.new)) }
        // It is refused exactly where the client itself holds one.
        ensures held { OnErr result ((holds_stop (account client.old).asked ≡ true)
            × Keeps (account client.old) (account client.new)) };

    /// Gives the client's stop token back. Where it holds none, no call is made.
    fn unstop<R: Wait + rt::Clock>(&self, rt: &R, client: &mut Self::Client) -> Result<(), NotHeld>
        requires { belongs self.now client.old }
        ensures belongs { belongs self.now client.new }
        ensures done { OnOk result ((holds_stop (account client.old).asked ≡ true)
            × (shown : ℕ) × Asks (account client.old) (controller.unstop shown) (account client.new)) }
        ensures not_held { OnErr result ((holds_stop (account client.old).asked ≡ false)
            × Keeps (account client.old) (account client.new)) };

    /// Takes the client's slow token, with a rate in bytes a second; a rate of 0 counts as 1. While any client holds
    /// one, a leader lets a group of writes wait whose bytes are more than what the newest rate has let pass, and
    /// refuses it where it may not wait. Where the client already holds one, no call is made.
    fn slow<R: Wait + rt::Clock>(
        &self,
        rt: &R,
        client: &mut Self::Client,
        rate: u64,
    ) -> Result<(), Held>
        requires { belongs self.now client.old }
        ensures belongs { belongs self.now client.new }
        ensures done { OnOk result ((holds_slow (account client.old).asked ≡ false)
            × (shown : ℕ) × Asks (account client.old) (controller.slow rate shown) (account client.new)) }
        ensures held { OnErr result ((holds_slow (account client.old).asked ≡ true)
            × Keeps (account client.old) (account client.new)) };

    /// Gives the client's slow token back. Where it holds none, no call is made.
    fn unslow<R: Wait + rt::Clock>(&self, rt: &R, client: &mut Self::Client) -> Result<(), NotHeld>
        requires { belongs self.now client.old }
        ensures belongs { belongs self.now client.new }
        ensures done { OnOk result ((holds_slow (account client.old).asked ≡ true)
            × (shown : ℕ) × Asks (account client.old) (controller.unslow shown) (account client.new)) }
        ensures not_held { OnErr result ((holds_slow (account client.old).asked ≡ false)
            × Keeps (account client.old) (account client.new)) };

    /// Gives back the tokens that the client holds. It is meant as the client's last call, but no clause demands that.
    fn end<R: Wait + rt::Clock>(&self, rt: &R, client: &mut Self::Client)
        requires { belongs self.now client.old }
        ensures belongs { belongs self.now client.new }
        ensures back { GivesBack (account client.old) (account client.new) };

    /// Takes all clients, and gives the log back. There is one trace of all that they did and saw, in which each
    /// batch's group ended where its receipt said, and the log was written by exactly the calls that wrote its
    /// history. What reads of the log gave is right in it, where it is known what the log had kept. It takes no memory.
    fn close<R: Wait + rt::Clock>(
        self,
        rt: &R,
        clients: Clients<Self::Client, Self::Room>,
    ) -> Closed<Self::Log>
        requires all { AreOurs (belongs self) account (settings self).clients clients.clients.items }
        requires room { closes self clients.room }
        // A receipt that names another end than that of its batch's group fits no closing, and neither does a log that
        // was written in other groups, or a read that gave other records.
        ensures { (kept : Option (List Logged)) → IfSome kept (had self)
            → HasOneTrace (settings self) kept (faults result.log) (map account clients.clients.items) result.last
            (fault result.log) (λ calls. wrote self calls result.log) };
}
