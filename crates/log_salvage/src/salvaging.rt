//! One step of a salvage.

ghost use Rattle.std.specs.Prelude.{◌≡◌, ◌<◌, ◌^◌, ℕ, List, None, true, IfOk, IfErr, IfSome, OnOk};
ghost use Rattle.log_scan.specs.Scanner.{IsAt, IsGoing};
ghost use Rattle.log_salvage.specs.Keeping.{HasVerdict};
ghost use Rattle.log_salvage.specs.NewLogs.{HasAddCause, IsAddError};
ghost use Rattle.log_salvage.specs.Steps as steps;
ghost use Rattle.log_salvage.specs.Steps.{AddsUnless, FindsStep, HasCauses, WhereItGoesOn, WritesStep};

use crate::keeping::{LeftOut, Range, verdict_of};
use crate::new_log::{AddError, NewLog};
use base_devices::{ReadAt, Sink};
use log_scan::{Found, Scanner, Unread};
use model_base::{EndReason, NoMemory};
use std::alloc::Global;
use std::marker::Model;

/// What a step of a salvage did.
#[derive(Clone, Copy)]
pub enum Step {
    /// A record was found: the offset of its first fragment, and the one after its last. Before it there may be a
    /// stretch that doesn't read. The record was added to the new log, unless it was left out for a reason.
    Record {
        unread: Option<Unread>,
        start: u64,
        end: u64,
        left_out: Option<LeftOut>,
    },
    /// Nothing reads here. The next step tries it at a later place.
    Passed,
    /// No record follows: where and why reading first ended since the last record.
    End {
        at: u64,
        why: EndReason,
    },
    /// The disk failed, and this is its count of faults.
    Fault {
        count: u64,
    },
    /// The sink failed, and took a part of a record's text, but not all.
    SinkFailed,
    /// With the next record the new log would have 2^63 bytes or more.
    TooLong,
    NoMemory,
}

/// A damaged log that is gone through, from its start on, with reading on after damage. Contracts see the sequences
/// whose records are kept, and the scanner.
#[derive(Drop)]
pub struct Salvaging {
    range: Range,
    scanner: Scanner,
}

impl Model for Salvaging {
    ghost use Rattle.log_salvage.specs.Steps.{SalvageState};

    ghost Value = { SalvageState };

    ghost view = { λ s. record { range = s.range; scanner = s.scanner } };
}

impl Salvaging {
    /// A log with this number, if it has one. Nothing of it is found yet.
    pub fn new(alloc: Global, range: Range, number: Option<u32>) -> Result<Salvaging, NoMemory>
        ensures range { IfOk result (λ s. s.range ≡ range) }
        ensures number { IfOk result (λ s. s.scanner.number ≡ number) }
        ensures goes_on { IfOk result (λ s. s.scanner.goes_on ≡ true) }
        ensures start { IfOk result (λ s. s.scanner.place ≡ 0) }
        ensures going { IfOk result (λ s. IsGoing s.scanner) }
        ensures is_at { IfOk result (λ s. (file : List ℕ) → IsAt file s.scanner) }
    {
        Ok(Salvaging {
            range,
            scanner: Scanner::open(alloc, number, true)?,
        })
    }

    /// Finds the next record of the log that the disk holds, which should be the same at each call, and adds it to the
    /// new log, if it is kept. It may be called again after `Record` and `Passed`.
    pub fn next<R: ReadAt, K: Sink>(
        &mut self,
        alloc: Global,
        disk: &mut R,
        new_log: &mut NewLog,
        sink: &mut K,
    ) -> Step
        // Of a file whose content is known: the next record of the definition, or the end of the scan.
        ensures found { IfSome (R.held disk.old) (λ file. IsAt file self.old.scanner → IsGoing self.old.scanner
            → FindsStep file self.old.scanner self.new.scanner result) }
        // Of any disk: the sink takes exactly the text of the record in hand, if that is kept.
        ensures written { WritesStep self.old.range self.new.scanner.reader.in_hand new_log.old new_log.new
            (K.taken sink.old) (K.taken sink.new) result }
        ensures is_at { IfSome (R.held disk.old) (λ file. IsAt file self.old.scanner → IsGoing self.old.scanner
            → WhereItGoesOn result (IsAt file self.new.scanner)) }
        ensures going { IsGoing self.old.scanner → WhereItGoesOn result (IsGoing self.new.scanner) }
        // A loop over the steps ends.
        ensures forward { IsGoing self.old.scanner → WhereItGoesOn result
            ((self.old.scanner.here < self.new.scanner.here) × (self.new.scanner.here < 2 ^ 63)) }
        ensures range { self.new.range ≡ self.old.range }
        ensures number { self.new.scanner.number ≡ self.old.scanner.number }
        ensures goes_on { self.new.scanner.goes_on ≡ self.old.scanner.goes_on }
        // A fault of the disk, or of the sink, is answered only where its count rose in this call.
        ensures causes { IsGoing self.old.scanner → HasCauses (R.failures disk.old) (R.failures disk.new)
            (K.faults sink.old) (K.faults sink.new) result }
        ensures disk { R.only_reads disk.old disk.new }
    {
        match self.scanner.next(alloc, disk) {
            Found::Record { unread, start, end } => {
                step_with(unread, start, end, self.keep(new_log, sink))
            }
            Found::Passed => Step::Passed,
            Found::End { at, why } => Step::End { at, why },
            Found::Fault { count } => Step::Fault { count },
            Found::NoMemory => Step::NoMemory,
        }
    }

    /// Adds the record in hand to the new log, if it is kept, and answers why it isn't.
    fn keep<K: Sink>(&self, new_log: &mut NewLog, sink: &mut K) -> Result<Option<LeftOut>, AddError>
        ensures kept { IfOk result (λ left_out. HasVerdict self.now.range self.now.scanner.reader.in_hand left_out
            × AddsUnless left_out self.now.scanner.reader.in_hand new_log.old new_log.new (K.taken sink.old)
            (K.taken sink.new)) }
        ensures error { IfErr result (λ error. HasVerdict self.now.range self.now.scanner.reader.in_hand None
            × IsAddError self.now.scanner.reader.in_hand new_log.old new_log.new (K.taken sink.old)
            (K.taken sink.new) error) }
        ensures worked { OnOk result (K.faults sink.new ≡ K.faults sink.old) }
        ensures cause { IfErr result (HasAddCause (K.faults sink.old) (K.faults sink.new)) }
    {
        let bytes = self.scanner.record();
        let left_out = verdict_of(self.range, bytes);
        if left_out.is_some() {
            return Ok(left_out);
        }
        match new_log.add(bytes, sink) {
            Ok(()) => Ok(None),
            Err(error) => Err(error),
        }
    }
}

/// The step that a record makes, by what became of it.
fn step_with(
    unread: Option<Unread>,
    start: u64,
    end: u64,
    kept: Result<Option<LeftOut>, AddError>,
) -> Step
    ensures { result ≡ steps.step_with unread start end kept }
{
    match kept {
        Ok(left_out) => Step::Record {
            unread,
            start,
            end,
            left_out,
        },
        Err(AddError::SinkFailed) => Step::SinkFailed,
        Err(AddError::TooLong) => Step::TooLong,
        Err(AddError::NoMemory) => Step::NoMemory,
    }
}
