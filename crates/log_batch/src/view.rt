//! A batch, read from bytes.

ghost use Rattle.std.specs.Prelude.{◌≡◌, ◌<◌, ◌^◌, ℕ, List, length, IfOk, IfErr};
ghost use Rattle.model_base.specs.Batch as model;

use crate::Records;
use crate::batch_bytes::{COUNT_AT, HEADER_LEN};
use crate::records::records_of;
use base_bytes::{get_fixed32, get_fixed64};
use model_base::BatchError;
use std::marker::Model;

/// A batch that was read from bytes, which it borrows. Contracts see its sequence and its records in order.
#[derive(Debug, Drop)]
pub struct BatchView<'a> {
    sequence: u64,
    count: u32,
    records: Records<'a>,
    ghost counted: { count ≡ model.count_of records },
}

impl<'a> Model for BatchView<'a> {
    ghost use Rattle.log_batch.specs.Contents.{Contents};

    ghost Value = { Contents };

    ghost view = { λ b. record { sequence = b.sequence; records = b.records } };
}

impl<'a> BatchView<'a> {
    /// The sequence of the first record that counts.
    pub fn sequence(&self) -> u64
        ensures { result ≡ self.now.sequence }
    {
        self.sequence
    }

    /// How many records count. Each of these has a sequence.
    pub fn count(&self) -> u32
        ensures { result ≡ model.count_of self.now.records }
    {
        self.count
    }

    /// The records in order.
    pub fn records(&self) -> Records<'a>
        ensures value { result ≡ self.now.records }
        ensures bound { length result < 2 ^ 64 }
    {
        self.records.again()
    }
}

/// Reads bytes as a batch. Nothing is copied.
///
/// The error is the first one from the front: `Short` where there are fewer bytes than a header, a length ends early
/// or a string passes the end; `BadVarint` where a length isn't in its shortest spelling or is too long; `Tag` where a
/// tag isn't one that is read; and after the last record `Count`, where the header has another number than that of the
/// records that count.
pub fn read_batch(bytes: &[u8]) -> Result<BatchView<'_>, BatchError>
    // What it answers is true of the bytes.
    ensures ok { IfOk result (λ view. model.IsBatch bytes.now view.sequence view.records) }
    ensures err { IfErr result (model.IsBatchError bytes.now) }

    // What is true of the bytes is what it answers.
    ensures reads { (sequence : ℕ) (records : List model.Record) → model.IsBatch bytes.now sequence records
        → result ≡ Ok (record { sequence = sequence; records = records }) }
    ensures refuses { (e : BatchError) → model.IsBatchError bytes.now e → result ≡ Err e }
{
    if bytes.len() < HEADER_LEN {
        return Err(BatchError::Short);
    }
    let sequence = get_fixed64(bytes, 0);
    let said = get_fixed32(bytes, COUNT_AT);
    let (records, found) = records_of(&bytes[HEADER_LEN..])?;
    if found != u64::from(said) {
        return Err(BatchError::Count { said, found });
    }
    Ok(BatchView {
        sequence,
        count: said,
        records,
    })
}
