//! The records of a log, one after another, also after damage.

ghost use Rattle.std.specs.Prelude.{◌≡◌, ◌<◌, ◌≤◌, ◌^◌, ℕ, List, None, length, IfOk, IfErr, IfSome, OnOk};
ghost use Rattle.base_devices.specs.Faults.{Rose};
ghost use Rattle.log_reader.specs.Opens.{IsOpenError};
ghost use Rattle.model_base.specs.Reading.{ReadingEnds};
ghost use Rattle.log_scan.specs.declared.scanner.Found.TheVariants.{Record};
ghost use Rattle.log_scan.specs.Scanning as scanning;
ghost use Rattle.log_reader.specs.Reader.{Follows, IsSmallEnd};
ghost use Rattle.log_scan.specs.Scanner.{AnswersScan, HasFault, IsAt, IsGoing, Passes, WhereItGoesOn, unread_before};

use crate::resuming::resume;
use base_devices::ReadAt;
use log_reader::{LogReader, Next, OpenError};
use model_base::{EndReason, NoMemory};
use std::alloc::Global;
use std::marker::Model;

/// Where and why reading first ended since the last record.
#[derive(Clone, Copy)]
pub struct Lost {
    pub at: u64,
    pub why: EndReason,
}

/// A stretch of the log in which no record reads: from the end of a record, or from the log's start, to the start of
/// the next one; and where and why reading first ended there.
#[derive(Clone, Copy)]
pub struct Unread {
    pub from: u64,
    pub to: u64,
    pub at: u64,
    pub why: EndReason,
}

/// What a scanner finds next.
#[derive(Clone, Copy)]
pub enum Found {
    /// A record, which is now in hand: the offset of its first fragment, and the one after its last. Before it there
    /// may be a stretch that doesn't read.
    Record {
        unread: Option<Unread>,
        start: u64,
        end: u64,
    },
    /// Nothing reads here. The next call tries it at a later place.
    Passed,
    /// No record follows: where and why reading first ended since the last record.
    End {
        at: u64,
        why: EndReason,
    },
    /// The disk failed, and this is its count of faults.
    Fault {
        count: u64,
    },
    /// There was no memory for a block or for the record.
    NoMemory,
}

/// Finds the records of a log, from the first on. It holds one block and the record in hand. Contracts see the log's
/// number, whether it reads on after damage, the place after the last record that it found, the one from which it
/// reads, and where and why reading first ended between the two; and its reader, with the record in hand.
#[derive(Drop)]
pub struct Scanner {
    goes_on: bool,
    number: Option<u32>,
    reader: LogReader,
    place: u64,
    here: u64,
    lost: Option<Lost>,
    ghost numbered: { reader.number ≡ number },
}

impl Model for Scanner {
    ghost use Rattle.log_scan.specs.Scanner.{ScannerState};

    ghost Value = { ScannerState };

    ghost view = { λ s. record {
      goes_on = s.goes_on;
      number = s.number;
      place = s.place;
      here = s.here;
      lost = s.lost;
      reader = s.reader;
    } };
}

impl Scanner {
    /// A scanner at the start of a log with this number, if it has one. It has found nothing yet. Where it doesn't go
    /// on after damage, it finds what a reader of records reads.
    pub fn open(alloc: Global, number: Option<u32>, goes_on: bool) -> Result<Scanner, NoMemory>
        ensures goes_on { IfOk result (λ s. s.goes_on ≡ goes_on) }
        ensures number { IfOk result (λ s. s.number ≡ number) }
        ensures start { IfOk result (λ s. s.place ≡ 0) }
        ensures going { IfOk result IsGoing }
        ensures is_at { IfOk result (λ s. (file : List ℕ) → IsAt file s) }
    {
        Ok(Scanner {
            goes_on,
            number,
            reader: LogReader::open(alloc, number)?,
            place: 0,
            here: 0,
            lost: None,
        })
    }

    /// A scanner of a log with this number, if it has one, which begins at an offset: the end of a record that was
    /// found before, or any other place at which a record may begin. It reads the block that has the place.
    pub fn open_at<R: ReadAt>(
        alloc: Global,
        number: Option<u32>,
        goes_on: bool,
        place: u64,
        disk: &mut R,
    ) -> Result<Scanner, OpenError>
        requires small { place < 2 ^ 63 }
        ensures goes_on { IfOk result (λ s. s.goes_on ≡ goes_on) }
        ensures number { IfOk result (λ s. s.number ≡ number) }
        ensures start { IfOk result (λ s. s.place ≡ place) }
        ensures going { IfOk result IsGoing }
        ensures is_at { IfSome (R.held disk.old) (λ file. place ≤ length file → IfOk result (IsAt file)) }
        ensures worked { OnOk result (R.failures disk.new ≡ R.failures disk.old) }
        ensures error { IfErr result (IsOpenError (R.failures disk.old) (R.failures disk.new)) }
        ensures disk { R.only_reads disk.old disk.new }
    {
        let reader = LogReader::open_at(alloc, number, place, disk)?;
        Ok(Scanner {
            goes_on,
            number,
            reader,
            place,
            here: place,
            lost: None,
        })
    }

    /// Finds the next record of the log that the disk holds, which should be the same at each call, or passes over
    /// something that doesn't read. No block is read twice for what doesn't read in it. It may be called again after
    /// `Record` and `Passed`; after another answer nothing is promised of a further call.
    pub fn next<R: ReadAt>(&mut self, alloc: Global, disk: &mut R) -> Found
        // Of a file whose content is known: the next record of the definition, with what doesn't read before it; or the
        // end of the scan.
        ensures found { IfSome (R.held disk.old) (λ file. IsAt file self.old → IsGoing self.old
            → AnswersScan file self.old self.new result) }
        ensures is_at { IfSome (R.held disk.old) (λ file. IsAt file self.old → IsGoing self.old
            → WhereItGoesOn result (IsAt file self.new)) }
        ensures going { IsGoing self.old → WhereItGoesOn result (IsGoing self.new) }
        // A loop over the records ends: each call reads from a later place than the one before, also where the disk
        // tells nothing.
        ensures forward { IsGoing self.old
            → WhereItGoesOn result ((self.old.here < self.new.here) × (self.new.here < 2 ^ 63)) }
        ensures goes_on { self.new.goes_on ≡ self.old.goes_on }
        ensures number { self.new.number ≡ self.old.number }
        // A fault is answered only where the count rose in this call, and any other answer only where it stayed as it
        // was.
        ensures fault { IsGoing self.old → HasFault (R.failures disk.old) (R.failures disk.new) result }
        ensures disk { R.only_reads disk.old disk.new }
    {
        match self.reader.next(disk) {
            // A record ends after the place from which it is read. Where the disk tells nothing no clause says so: its
            // file may have been cut, and have grown anew. Then this is where it ends.
            Next::Record { start, end } if end > self.here => self.find(start, end),
            Next::Record { start, .. } => Found::End {
                at: start,
                why: EndReason::Clean,
            },
            Next::End { at, why } => self.pass(disk, Lost { at, why }),
            Next::Fault { count } => Found::Fault { count },
            Next::NoMemory => Found::NoMemory,
        }
    }

    /// The record in hand: the one that the last call of `next` found, where it answered `Record`.
    pub fn record(&self) -> &[u8]
        ensures { result.now ≡ self.now.reader.in_hand }
    {
        self.reader.record()
    }

    /// The reader has read this record.
    fn find(&mut self, start: u64, end: u64) -> Found
        ensures found { result ≡ Record (unread_before self.old.lost self.old.place start) start end }
        ensures now { self.new ≡ record self.old { place = end; here = end; lost = None } }
    {
        let unread = self.lost.map(|lost| Unread {
            from: self.place,
            to: start,
            at: lost.at,
            why: lost.why,
        });
        self.lost = None;
        self.place = end;
        self.here = end;
        Found::Record { unread, start, end }
    }

    /// The reader has ended like this. It goes on at a later place, if it should.
    fn pass<R: ReadAt>(&mut self, disk: &mut R, end: Lost) -> Found
        requires small { IsSmallEnd end.at end.why }
        ensures found { IfSome (R.held disk.old) (λ file. Follows file self.old.reader
            → ReadingEnds self.old.number file self.old.here end.at end.why
            → Passes file self.old self.new end result) }
        ensures going { WhereItGoesOn result (IsGoing self.new) }
        ensures forward { WhereItGoesOn result ((self.old.here < self.new.here) × (self.new.here < 2 ^ 63)) }
        ensures goes_on { self.new.goes_on ≡ self.old.goes_on }
        ensures number { self.new.number ≡ self.old.number }
        ensures fault { HasFault (R.failures disk.old) (R.failures disk.new) result }
        ensures disk { R.only_reads disk.old disk.new }
    {
        let first = self.lost.unwrap_or(end);
        match self.later_place(disk, end) {
            Ok(Some(place)) if place > self.here => {
                self.here = place;
                self.lost = Some(first);
                Found::Passed
            }
            // The place is always later. Where the disk tells nothing no clause says so.
            Ok(Some(_)) => Found::End {
                at: first.at,
                why: first.why,
            },
            Ok(None) => Found::End {
                at: first.at,
                why: first.why,
            },
            Err(count) => Found::Fault { count },
        }
    }

    /// Where reading is tried again after this end, if it is. The reader goes there.
    fn later_place<R: ReadAt>(&mut self, disk: &mut R, end: Lost) -> Result<Option<u64>, u64>
        requires small { IsSmallEnd end.at end.why }
        ensures place { IfSome (R.held disk.old) (λ file. Follows file self.old.reader → (from : ℕ)
            → ReadingEnds self.old.number file from end.at end.why → IfOk result
            (λ place. place ≡ scanning.later_place self.old.number self.old.goes_on file end.at end.why)) }
        ensures is_there { IfSome (R.held disk.old) (λ file. Follows file self.old.reader → (from : ℕ)
            → ReadingEnds self.old.number file from end.at end.why → IfOk result (λ place.
            IfSome place (λ p. (self.new.reader.place ≡ p) × Follows file self.new.reader))) }
        ensures going { IfOk result (λ place. IfSome place (λ _. IsGoing self.new)) }
        ensures small { IfOk result (λ place. IfSome place (λ p. p < 2 ^ 63)) }
        ensures rest { self.new ≡ record self.old { reader = self.new.reader } }
        ensures worked { OnOk result (R.failures disk.new ≡ R.failures disk.old) }
        ensures fault { IfErr result (λ count. Rose (R.failures disk.old) count × (count ≡ R.failures disk.new)) }
        ensures disk { R.only_reads disk.old disk.new }
    {
        if !self.goes_on {
            return Ok(None);
        }
        resume(&mut self.reader, disk, self.number, end.at, end.why)
    }
}
