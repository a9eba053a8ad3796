//! A new log that records are added to.

ghost use Rattle.std.specs.Prelude.{◌≡◌, ◌<◌, ◌≤◌, ◌^◌, length, take, vec_len, IfErr, OnOk};
ghost use Rattle.model_base.specs.Log.{record_text};
ghost use Rattle.log_salvage.specs.NewLogs.{Adds, HasAddCause, IsAddError};

use base_devices::{Sink, write_all};
use log_text::{lay_record, text_len};
use model_base::NoMemory;
use std::alloc::Global;
use std::marker::Model;

/// The most bytes that a log has.
const MAX_LEN: u64 = 0x7fff_ffff_ffff_ffff;

/// Why a record wasn't added.
#[derive(Clone, Copy)]
pub enum AddError {
    /// The sink failed, and took a part of the record's text, but not all. The log is of no use then.
    SinkFailed,
    /// With the record the log would have 2^63 bytes or more. It is as it was.
    TooLong,
    /// There was no memory for the record's text. The log is as it was.
    NoMemory,
}

/// A log that is written from its start on, to a sink. A record's text is what a writer of logs makes of it at that
/// place, so that the log's text is that of its records. Contracts see the log's number, if it has one, and how many
/// bytes it has.
#[derive(Drop)]
pub struct NewLog {
    number: Option<u32>,
    len: u64,
    /// Room for the text of a record.
    text: Vec<u8>,
    ghost small: { len < 2 ^ 63 },
}

impl Model for NewLog {
    ghost use Rattle.log_salvage.specs.NewLogs.{NewLogState};

    ghost Value = { NewLogState };

    ghost view = { λ l. record { number = l.number; len = l.len } };
}

impl NewLog {
    /// A log with this number, or with none, which has no record yet. This takes no memory.
    pub fn new(alloc: Global, number: Option<u32>) -> NewLog
        ensures { result ≡ record { number = number; len = 0 } }
    {
        NewLog {
            number,
            len: 0,
            text: Vec::new(alloc),
        }
    }

    /// How many bytes the log has.
    pub fn len(&self) -> u64
        ensures { result ≡ self.now.len }
    {
        self.len
    }

    /// Adds a record at the end: the sink takes its text.
    pub fn add<K: Sink>(&mut self, bytes: &[u8], sink: &mut K) -> Result<(), AddError>
        ensures added { OnOk result (Adds bytes.now self.old self.new (K.taken sink.old) (K.taken sink.new)) }
        ensures error { IfErr result
            (IsAddError bytes.now self.old self.new (K.taken sink.old) (K.taken sink.new)) }
        ensures worked { OnOk result (K.faults sink.new ≡ K.faults sink.old) }
        ensures cause { IfErr result (HasAddCause (K.faults sink.old) (K.faults sink.new)) }
    {
        let len = text_len(self.number, self.len, bytes.len());
        if len > MAX_LEN - self.len {
            return Err(AddError::TooLong);
        }
        let Ok(()) = lay(self.number, self.len, bytes, &mut self.text, len as usize) else {
            return Err(AddError::NoMemory);
        };
        match write_all(sink, &self.text[..len as usize]) {
            Ok(()) => {
                self.len += len;
                Ok(())
            }
            Err(_) => Err(AddError::SinkFailed),
        }
    }
}

/// Lays the text of a record, which has `len` bytes, at the start of the buffer, which grows if it has to.
fn lay(
    number: Option<u32>,
    offset: u64,
    bytes: &[u8],
    buffer: &mut Vec<u8>,
    len: usize,
) -> Result<(), NoMemory>
    requires { len ≡ length (record_text number offset bytes.now) }
    ensures laid { OnOk result (take len buffer.new.items ≡ record_text number offset bytes.now) }
    ensures room { OnOk result (len ≤ vec_len buffer.new) }
{
    if buffer.len() < len {
        buffer.resize(len, 0)?;
    }
    match lay_record(number, offset, bytes, buffer) {
        Some(_) => Ok(()),
        None => unreachable!(),
    }
}
