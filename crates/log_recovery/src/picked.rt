//! The records that are picked from a sequence on.

ghost use Rattle.std.specs.Prelude.{◌≡◌, ◌≢◌, ◌==◌, ◌+◌, ◌-◌, ◌≤◌, nat_lt, ℕ, List, [], false, if◌then◌else◌, IfOk, MatchOption};
ghost use Rattle.model_base.specs.History.{max_sequence};
ghost use Rattle.model_base.specs.Since.{is_since};
ghost use Rattle.log_recovery.specs.Following.{PicksWithin, Stops};

use crate::following::Place;
use crate::kept::{end_of, last_after, run_end};
use base_bytes::Bytes;
use log_batch::read_batch;
use model_base::{EndReason, NoMemory};
use std::alloc::Global;

/// What the records that are read so far give.
#[derive(Drop)]
pub struct Picked {
    /// Those of them that are asked for.
    pub records: Vec<Bytes>,
    /// The last sequence before or in them.
    pub last: u64,
    /// The offset after them.
    pub end: u64,
}

impl Picked {
    /// Nothing is read yet, from this place on. This takes no memory.
    pub fn from_place(alloc: Global, from: Place) -> Picked
        ensures records { result.records.items ≡ [] }
        ensures last { result.last ≡ from.last }
        ensures end { result.end ≡ from.at }
    {
        Picked {
            records: Vec::new(alloc),
            last: from.last,
            end: from.at,
        }
    }

    /// Picks the record of these bytes, which ends at the offset `end`, if it is one of those from `since` on and up to
    /// `upto`. Or says why reading stops at it: it goes past `upto`, or recovery wouldn't keep it.
    pub fn pick(
        &mut self,
        alloc: Global,
        since: u64,
        upto: u64,
        bytes: &[u8],
        end: u64,
    ) -> Result<Option<Stop>, NoMemory>
        ensures { IfOk result (λ r. MatchOption r
            (PicksWithin since upto self.old self.new bytes.now end)
            (λ stop. (self.new ≡ self.old) × Stops upto self.old.last bytes.now stop)) }
    {
        let batch = match read_batch(bytes) {
            Ok(batch) => batch,
            Err(error) => return Ok(Some(Stop::Refused(end_of(error)))),
        };
        let first = batch.sequence();
        let count = batch.count();
        if let Some(why) = run_end(self.last, first, count) {
            return Ok(Some(Stop::Refused(why)));
        }
        let last = last_after(self.last, first, count);
        if is_past(first, count, upto) {
            return Ok(Some(Stop::Past));
        }
        if is_picked(first, count, since, upto) {
            let record = Bytes::copy(alloc, bytes)?;
            self.records.push(record)?;
        }
        self.last = last;
        self.end = end;
        Ok(None)
    }
}

/// Why reading stops at a record.
#[derive(Clone, Copy, Debug, PartialEq, Eq)]
pub enum Stop {
    /// It goes past the sequence up to which records are read.
    Past,
    /// Recovery wouldn't keep it, for this reason.
    Refused(EndReason),
}

/// Whether a record of `count` sequences from `first` on goes past `upto`.
fn is_past(first: u64, count: u32, upto: u64) -> bool
    requires { count ≢ 0 → first + count - 1 ≤ max_sequence }
    ensures { result ≡ (if count == 0 then false else nat_lt upto (first + count - 1)) }
{
    if count == 0 {
        return false;
    }
    upto < first + u64::from(count - 1)
}

/// Whether a record of `count` sequences from `first` on is one of those from `since` on and up to `upto`.
fn is_picked(first: u64, count: u32, since: u64, upto: u64) -> bool
    requires { count ≢ 0 → first + count - 1 ≤ max_sequence }
    ensures { (bytes : List ℕ) → result ≡ is_since since upto (record { first = first; count = count; bytes = bytes }) }
{
    if count == 0 {
        return false;
    }
    let last = first + u64::from(count - 1);
    since <= last && last <= upto
}
