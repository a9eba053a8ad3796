//! The records of a batch, in order.

ghost use Rattle.std.specs.Prelude.{◌≡◌, ◌<◌, ◌^◌, ℕ, List, ◌++◌, length, IfOk, IfErr};
ghost use Rattle.std.specs.List.{AllByRecursion};
ghost use Rattle.model_base.specs.Batch as model;
ghost use Rattle.log_batch.specs.Body.{IsBody};
ghost use Rattle.log_batch.specs.Contents.{greatest_named};
ghost use Rattle.log_batch.specs.OneBody.{IsBody-prop};

use crate::RecordView;
use crate::record_view::{greatest_of, sequences_of};
use crate::split::split_record;
use model_base::BatchError;
use std::marker::Model;

/// The records of the bytes after a header, from the first on. Contracts see the records that are left.
///
/// Each record is parsed again when it is reached, and none is copied.
#[derive(Debug, Drop)]
pub struct Records<'a> {
    rest: &'a [u8],
    ghost holds: { IsBody rest.now } by { IsBody-prop rest.now },
}

impl<'a> Model for Records<'a> {
    ghost use Rattle.std.specs.Prelude.{List};
    ghost use Rattle.model_base.specs.Batch.{Record};

    ghost Value = { List Record };

    ghost view = { λ r. r.holds.records };
}

impl<'a> Iterator for Records<'a> {
    type Item = RecordView<'a>;

    ghost use Rattle.std.specs.Iterator.{YieldsFirstBy, item_count};
    ghost use Rattle.log_batch.specs.View.{record_of};

    ghost next_gives = { YieldsFirstBy record_of (λ left. left) };

    ghost remaining = { item_count (λ left. left) };

    fn next(&mut self) -> Option<RecordView<'a>> {
        if self.rest.is_empty() {
            return None;
        }
        match split_record(self.rest) {
            Ok((record, rest)) => {
                self.rest = rest;
                Some(record)
            }
            Err(_) => unreachable!(),
        }
    }
}

impl<'a> Records<'a> {
    /// The records that these bytes spell.
    pub(crate) fn of_body(bytes: &'a [u8]) -> Records<'a>
        requires { IsBody bytes.now }
        ensures spelled { bytes.now ≡ model.body result }
        ensures readable { AllByRecursion model.IsReadable result }
        ensures bound { length result < 2 ^ 64 }
    {
        Records { rest: bytes }
    }

    /// The bytes of the records that are left.
    pub(crate) fn bytes(&self) -> &'a [u8]
        ensures spelled { result.now ≡ model.body self.now }
        ensures readable { AllByRecursion model.IsReadable self.now }
    {
        self.rest
    }

    /// The records that are left, from the same place on.
    pub(crate) fn again(&self) -> Records<'a>
        ensures same { result ≡ self.now }
        ensures bound { length result < 2 ^ 64 }
    {
        Records { rest: self.rest }
    }
}

/// The records that bytes spell, and how many of them count.
pub fn records_of(bytes: &[u8]) -> Result<(Records<'_>, u64), BatchError>
    ensures spelled { IfOk result (λ p. bytes.now ≡ model.body p.0) }
    ensures readable { IfOk result (λ p. AllByRecursion model.IsReadable p.0) }
    ensures counted { IfOk result (λ p. p.1 ≡ model.count_of p.0) }
    ensures err { IfErr result (λ e. (records : List model.Record) × (rest : List ℕ)
        × AllByRecursion model.IsReadable records × (bytes.now ≡ model.body records ++ rest) × model.NoRecord rest e) }
{
    let found = count_records(bytes)?;
    Ok((Records { rest: bytes }, found))
}

/// How many of the records that bytes spell count.
fn count_records(bytes: &[u8]) -> Result<u64, BatchError>
    ensures ok { IfOk result (λ found. (body : IsBody bytes.now) × (found ≡ model.count_of body.records)) }
    ensures err { IfErr result (λ e. (records : List model.Record) × (rest : List ℕ)
        × AllByRecursion model.IsReadable records × (bytes.now ≡ model.body records ++ rest) × model.NoRecord rest e) }
{
    let mut rest = bytes;
    let mut found = 0;
    // The records before `rest` are readable, and `found` is the number of those that count.
    while !rest.is_empty() {
        let (record, behind) = split_record(rest)?;
        found += u64::from(sequences_of(record));
        rest = behind;
    }
    Ok(found)
}

/// The greatest family that records are about, or 0 if they are about none.
pub(crate) fn greatest_in(records: Records<'_>) -> u32
    ensures { result ≡ greatest_named records.entry }
{
    let mut greatest: u32 = 0;
    // It is that of the records before those that are left.
    for view in records {
        greatest = greatest.max(greatest_of(view));
    }
    greatest
}
