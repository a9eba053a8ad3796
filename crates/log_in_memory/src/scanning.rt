//! A scan of a log in memory.

ghost use Rattle.std.specs.Prelude.{◌≡◌, ◌≢◌, ◌<◌, ◌≤◌, ◌^◌, ℕ, true, length, None, option_map, IfOk};
ghost use Rattle.log_scan.specs.declared.scanner.Found.TheVariants.{Fault};
ghost use Rattle.log_scan.specs.Scanner.{AnswersScan, IsAt, IsGoing, WhereItGoesOn};
ghost use Rattle.log_in_memory.specs.Readings.{number_of};
ghost use Rattle.log_in_memory.specs.ScanAnswers.{AnswersOn, IsUnended, WhereItScansOn, ended_by};

use crate::reading::log_number;
use base_devices::SliceDisk;
use log_reader::OpenError;
use log_scan::{Found, Scanner, Unread};
use model_base::{EndReason, NoMemory};
use std::alloc::Global;

/// What a scan finds next.
#[derive(Clone, Copy)]
pub enum Scanned {
    /// A record, which is now in hand: the offset of its first fragment, and the one after its last. Before it there
    /// may be a stretch that doesn't read.
    Record {
        unread: Option<Unread>,
        start: u64,
        end: u64,
    },
    /// No record follows: where and why reading first ended since the last record.
    End {
        at: u64,
        why: EndReason,
    },
    /// There was no memory for a block or for the record.
    NoMemory,
}

/// A scan of a log in memory: it finds its records, and goes on after damage. It knows what the last call of `next`
/// answered, if there was one.
#[derive(Drop)]
pub struct Scan {
    pub scanner: Scanner,
    pub last: Option<Scanned>,
    // Unless it has ended, it may be asked again.
    ghost going: { IsUnended last → scanner.reader.stopped ≡ None },
}

impl Scan {
    ghost use Rattle.log_in_memory.specs.Scans.{ScansOn, record_of_scan};

    /// A scan from this place on of the log that these bytes are: from the end of a record, or from the log's start.
    /// The log has this number, or none where it is 0.
    pub fn open_at(alloc: Global, number: u32, place: u64, log: &[u8]) -> Result<Scan, NoMemory>
        requires { place ≤ length log.now }
        ensures number { IfOk result (λ s. s.scanner.number ≡ number_of number) }
        ensures goes_on { IfOk result (λ s. s.scanner.goes_on ≡ true) }
        ensures there { IfOk result (λ s. s.scanner.place ≡ place) }
        ensures new { IfOk result (λ s. s.last ≡ None) }
        ensures is_at { IfOk result (λ s. IsAt log.now s.scanner) }
    {
        let mut disk = SliceDisk::new(log);
        match Scanner::open_at(alloc, log_number(number), true, place, &mut disk) {
            Ok(scanner) => Ok(Scan {
                scanner,
                last: None,
            }),
            Err(OpenError::NoMemory) => Err(NoMemory),
            Err(OpenError::Fault { .. }) => unreachable!(),
        }
    }

    /// Finds the next record of the log that these bytes are. Once the scan has ended, the answer comes again.
    pub fn next(&mut self, alloc: Global, log: &[u8]) -> Scanned
        ensures { ScansOn log.now self.old self.new result }
    {
        match self.ended() {
            Some(answer) => answer,
            None => self.find(alloc, log),
        }
    }

    /// The answer with which it has ended, if it has.
    fn ended(&self) -> Option<Scanned>
        ensures { result ≡ ended_by self.now.last }
    {
        match self.last {
            Some(Scanned::End { at, why }) => Some(Scanned::End { at, why }),
            Some(Scanned::NoMemory) => Some(Scanned::NoMemory),
            Some(Scanned::Record { .. }) | None => None,
        }
    }

    /// Finds the next record of the log. The scan hasn't ended.
    fn find(&mut self, alloc: Global, log: &[u8]) -> Scanned
        requires { IsUnended self.old.last }
        ensures { ScansOn log.now self.old self.new result }
    {
        let answer = find_next(alloc, &mut self.scanner, log);
        self.last = Some(answer);
        answer
    }

    /// The record in hand: the one that the last call of `next` found, if it found one.
    pub fn record(&self) -> Option<&[u8]>
        ensures { option_map (λ bytes. bytes.now) result ≡ record_of_scan self.now }
    {
        match self.last {
            Some(Scanned::Record { .. }) => Some(self.scanner.record()),
            Some(Scanned::End { .. } | Scanned::NoMemory) | None => None,
        }
    }
}

/// Finds the next record, after all that doesn't read before it.
fn find_next(alloc: Global, scanner: &mut Scanner, log: &[u8]) -> Scanned
    requires { IsGoing scanner.old }
    ensures found { IsAt log.now scanner.old → AnswersOn log.now scanner.old scanner.new result }
    ensures going { WhereItScansOn result (IsGoing scanner.new) }
    ensures number { scanner.new.number ≡ scanner.old.number }
    ensures goes_on { scanner.new.goes_on ≡ scanner.old.goes_on }
{
    // Between the place at the start and the one from which the scanner reads, no record reads.
    loop {
        match step(alloc, scanner, log) {
            Found::Record { unread, start, end } => return Scanned::Record { unread, start, end },
            Found::Passed => {}
            Found::End { at, why } => return Scanned::End { at, why },
            Found::Fault { .. } => unreachable!(),
            Found::NoMemory => return Scanned::NoMemory,
        }
    }
}

/// The scanner's next step over bytes in memory, of which no read fails.
fn step(alloc: Global, scanner: &mut Scanner, log: &[u8]) -> Found
    requires { IsGoing scanner.old }
    ensures found { IsAt log.now scanner.old → AnswersScan log.now scanner.old scanner.new result }
    ensures is_at { IsAt log.now scanner.old → WhereItGoesOn result (IsAt log.now scanner.new) }
    ensures going { WhereItGoesOn result (IsGoing scanner.new) }
    ensures forward { WhereItGoesOn result ((scanner.old.here < scanner.new.here) × (scanner.new.here < 2 ^ 63)) }
    ensures number { scanner.new.number ≡ scanner.old.number }
    ensures goes_on { scanner.new.goes_on ≡ scanner.old.goes_on }
    ensures no_fault { (count : ℕ) → result ≢ Fault count }
{
    let mut disk = SliceDisk::new(log);
    scanner.next(alloc, &mut disk)
}
