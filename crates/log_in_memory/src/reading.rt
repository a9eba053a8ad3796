//! A reader of a log in memory.

ghost use Rattle.std.specs.Prelude.{◌≡◌, ◌≢◌, ◌+◌, ◌<◌, ◌≤◌, ℕ, true, false, List, length, None, IfOk};
ghost use Rattle.log_reader.specs.declared.reader.Next.TheVariants.{Fault};
ghost use Rattle.log_reader.specs.Reader.{Follows};
ghost use Rattle.log_in_memory.specs.Faults.{IsUnfailed, IsNoRecord};
ghost use Rattle.log_in_memory.specs.Readings.{number_of, ReadsOn, IsSkipped, ReadsSince, is_record};

use base_devices::SliceDisk;
use log_batch::read_batch;
use log_reader::{LogReader, Next, OpenError};
use model_base::NoMemory;
use std::alloc::Global;

/// A reader that has met no fault: it reads bytes in memory, which have none. It knows whether a record is in hand:
/// the one that the last call of `next` read, if that read one.
#[derive(Drop)]
pub struct Reading {
    pub reader: LogReader,
    pub has_record: bool,
    ghost sound: { IsUnfailed reader.stopped },
    // No record stops it.
    ghost going_on: { IsNoRecord reader.stopped },
}

impl Reading {
    /// A reader at the start of a log with this number, or without one where it is 0.
    pub fn open(alloc: Global, number: u32) -> Result<Reading, NoMemory>
        ensures number { IfOk result (λ r. r.reader.number ≡ number_of number) }
        ensures start { IfOk result (λ r. r.reader.place ≡ 0) }
        ensures going { IfOk result (λ r. r.reader.stopped ≡ None) }
        ensures no_record { IfOk result (λ r. r.has_record ≡ false) }
        ensures follows { IfOk result (λ r. (file : List ℕ) → Follows file r.reader) }
    {
        Ok(Reading {
            reader: LogReader::open(alloc, log_number(number))?,
            has_record: false,
        })
    }

    /// A reader at this place of the log that these bytes are: the end of a record, or the log's start. The log has
    /// this number, or none where it is 0.
    pub fn open_at(alloc: Global, number: u32, place: u64, log: &[u8]) -> Result<Reading, NoMemory>
        requires { place ≤ length log.now }
        ensures number { IfOk result (λ r. r.reader.number ≡ number_of number) }
        ensures there { IfOk result (λ r. r.reader.place ≡ place) }
        ensures going { IfOk result (λ r. r.reader.stopped ≡ None) }
        ensures no_record { IfOk result (λ r. r.has_record ≡ false) }
        ensures follows { IfOk result (λ r. Follows log.now r.reader) }
    {
        let mut disk = SliceDisk::new(log);
        match LogReader::open_at(alloc, log_number(number), place, &mut disk) {
            Ok(reader) => Ok(Reading {
                reader,
                has_record: false,
            }),
            Err(OpenError::NoMemory) => Err(NoMemory),
            Err(OpenError::Fault { .. }) => unreachable!(),
        }
    }

    /// Reads the next record of the log that these bytes are.
    pub fn next(&mut self, log: &[u8]) -> Next
        ensures reads { ReadsOn log.now self.old.reader self.new.reader result }
        ensures in_hand { self.new.has_record ≡ is_record result }
        ensures no_fault { (count : ℕ) → result ≢ Fault count }
    {
        let mut disk = SliceDisk::new(log);
        let answer = self.reader.next(&mut disk);
        self.has_record = matches!(answer, Next::Record { .. });
        answer
    }

    /// Reads on up to the next record of the log that isn't a batch which ends before the sequence `since`.
    pub fn next_since(&mut self, log: &[u8], since: u64) -> Next
        ensures reads { ReadsSince log.now since self.old.reader self.new.reader result }
        ensures in_hand { self.new.has_record ≡ is_record result }
        ensures no_fault { (count : ℕ) → result ≢ Fault count }
    {
        // What is read from here on is what is read from the start on.
        loop {
            let answer = self.next(log);
            if !self.skips(since) {
                return answer;
            }
        }
    }

    /// Whether the record in hand, if there is one, is a batch that ends before the sequence `since`.
    fn skips(&self, since: u64) -> bool
        ensures yes { result ≡ true → (self.now.has_record ≡ true) × IsSkipped since self.now.reader.in_hand }
        ensures no { result ≡ false → self.now.has_record ≡ true → IsSkipped since self.now.reader.in_hand → ⊥ }
    {
        if !self.has_record {
            return false;
        }
        is_skipped(self.reader.record(), since)
    }
}

/// Whether these bytes are a batch that takes no sequence, or whose last one is lower than `since`.
fn is_skipped(bytes: &[u8], since: u64) -> bool
    ensures yes { result ≡ true → IsSkipped since bytes.now }
    ensures no { result ≡ false → IsSkipped since bytes.now → ⊥ }
{
    match read_batch(bytes) {
        Ok(batch) => ends_before(batch.sequence(), batch.count(), since),
        Err(_) => false,
    }
}

/// Whether a run of `count` sequences from `first` on ends before `since`. One with none does.
fn ends_before(first: u64, count: u32, since: u64) -> bool
    ensures yes { result ≡ true → count ≢ 0 → first + count ≤ since }
    ensures no { result ≡ false → (count ≢ 0) × (since < first + count) }
{
    if count == 0 {
        return true;
    }
    if since < first {
        return false;
    }
    u64::from(count) <= since - first
}

/// The number of a log. Where 0 is given it has none.
pub fn log_number(number: u32) -> Option<u32>
    ensures { result ≡ number_of number }
{
    if number == 0 { None } else { Some(number) }
}
