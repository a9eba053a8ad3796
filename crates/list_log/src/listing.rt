//! One step of what is shown of a log.

ghost use Rattle.std.specs.Prelude.{◌≡◌, ◌<◌, ◌^◌, ◌++◌, ℕ, List, None, IfOk, IfSome, OnOk};
ghost use Rattle.log_scan.specs.Scanner.{IsAt, IsGoing};
ghost use Rattle.list_text.specs.Lines.{end_line};
ghost use Rattle.list_log.specs.Steps.{
  AnswersStep,
  HasCauses,
  HasLines,
  WhereItGoesOn,
  Writes,
  WritesIfRoom,
  WritesRecord,
  stretch_lines,
};
ghost use Rattle.list_log.specs.Texts.{front_of};
ghost use Rattle.list_log.specs.declared.listing.Listed.TheVariants.{End, More};

use crate::lines::{put_front, put_record};
use crate::settings::Settings;
use base_bytes::Bytes;
use base_devices::{ReadAt, Sink, write_all};
use list_text::{Form, RecordPlace, put_end, put_unread};
use log_scan::{Found, Scanner, Unread};
use model_base::{EndReason, NoMemory};
use std::alloc::Global;
use std::marker::Model;

/// What a step of a listing did.
#[derive(Clone, Copy)]
pub enum Listed {
    /// The lines of a record, or none, were written. There may be more.
    More,
    /// The end was written: where and why reading ended.
    End { at: u64, why: EndReason },
    /// The disk failed, and this is its count of faults.
    Fault { count: u64 },
    /// The sink failed, and took a part of the step's lines, but not all.
    SinkFailed,
    NoMemory,
}

/// A log that is shown, from its start on. Contracts see what is shown, the scanner, the last sequence so far, and the
/// lines of the last step.
#[derive(Drop)]
pub struct Listing<'a> {
    settings: Settings<'a>,
    scanner: Scanner,
    last: Option<u128>,
    /// Room for the lines of a step.
    text: Bytes,
}

impl<'a> Model for Listing<'a> {
    ghost use Rattle.list_log.specs.Steps.{State};

    ghost Value = { State };

    ghost view = { λ l. record { settings = l.settings; scanner = l.scanner; last = l.last; text = l.text } };
}

impl<'a> Listing<'a> {
    /// A listing of a log with this number, if it has one. Nothing is shown yet.
    pub fn new(
        alloc: Global,
        settings: Settings<'a>,
        number: Option<u32>,
    ) -> Result<Listing<'a>, NoMemory>
        ensures settings { IfOk result (λ l. l.settings ≡ settings.entry) }
        ensures number { IfOk result (λ l. l.scanner.number ≡ number) }
        ensures goes_on { IfOk result (λ l. l.scanner.goes_on ≡ settings.entry.scan) }
        ensures start { IfOk result (λ l. (l.scanner.place ≡ 0) × (l.last ≡ None)) }
        ensures going { IfOk result (λ l. IsGoing l.scanner) }
        ensures is_at { IfOk result (λ l. (file : List ℕ) → IsAt file l.scanner) }
    {
        Ok(Listing {
            settings,
            scanner: Scanner::open(alloc, number, settings.scan)?,
            last: None,
            text: Bytes::new(alloc),
        })
    }

    /// Writes the first line, if what is shown has one.
    pub fn begin<K: Sink>(&mut self, sink: &mut K) -> Listed
        ensures written { WritesIfRoom (front_of self.old.settings) More (K.taken sink.old) (K.taken sink.new)
            (K.faults sink.old) (K.faults sink.new) result }
        ensures scanner { self.new.scanner ≡ self.old.scanner }
        ensures settings { self.new.settings ≡ self.old.settings }
        ensures last { self.new.last ≡ self.old.last }
    {
        self.text.truncate(0);
        match put_front(&mut self.text, &self.settings) {
            Ok(()) => self.write(sink, Listed::More),
            Err(NoMemory) => Listed::NoMemory,
        }
    }

    /// Reads the next record of the log that the disk holds, which should be the same at each call, and writes its
    /// lines before it returns; or writes the end. The next record isn't looked for before that. It may be called again
    /// after `More`.
    pub fn next<R: ReadAt, K: Sink>(&mut self, alloc: Global, disk: &mut R, sink: &mut K) -> Listed
        // Of a file whose content is known: the sink gets exactly the lines of what is found between the place before
        // the call and the one after it, and that is a record at most, with the stretch before it.
        ensures shown { IfSome (R.held disk.old) (λ file. IsGoing self.old.scanner → IsAt file self.old.scanner
            → AnswersStep file self.old self.new (K.taken sink.old) (K.taken sink.new) result) }
        ensures going { IsGoing self.old.scanner → WhereItGoesOn result (IsGoing self.new.scanner) }
        ensures is_at { IfSome (R.held disk.old) (λ file. IsGoing self.old.scanner → IsAt file self.old.scanner
            → WhereItGoesOn result (IsAt file self.new.scanner)) }
        ensures forward { IsGoing self.old.scanner → WhereItGoesOn result
            ((self.old.scanner.here < self.new.scanner.here) × (self.new.scanner.here < 2 ^ 63)) }
        ensures settings { self.new.settings ≡ self.old.settings }
        ensures number { self.new.scanner.number ≡ self.old.scanner.number }
        ensures goes_on { self.new.scanner.goes_on ≡ self.old.scanner.goes_on }
        // A fault of the disk, or of the sink, is answered only where its count rose in this call.
        ensures causes { IsGoing self.old.scanner → HasCauses (R.failures disk.old) (R.failures disk.new)
            (K.faults sink.old) (K.faults sink.new) result }
        ensures disk { R.only_reads disk.old disk.new }
    {
        match self.scanner.next(alloc, disk) {
            Found::Record { unread, start, end } => self.write_record(sink, unread, start, end),
            Found::Passed => Listed::More,
            Found::End { at, why } => self.write_end(sink, at, why),
            Found::Fault { count } => Listed::Fault { count },
            Found::NoMemory => Listed::NoMemory,
        }
    }

    /// Writes the lines of the record in hand, with the stretch before it, if there is one.
    fn write_record<K: Sink>(
        &mut self,
        sink: &mut K,
        unread: Option<Unread>,
        start: u64,
        end: u64,
    ) -> Listed
        ensures written { WritesRecord self.old self.new unread start end (K.taken sink.old) (K.taken sink.new)
            (K.faults sink.old) (K.faults sink.new) result }
        ensures scanner { self.new.scanner ≡ self.old.scanner }
        ensures settings { self.new.settings ≡ self.old.settings }
    {
        let Ok(last) = self.put(unread, start, end) else {
            return Listed::NoMemory;
        };
        self.last = last;
        self.write(sink, Listed::More)
    }

    /// Makes the lines of the record in hand, with the stretch before it. It answers the last sequence after it.
    fn put(
        &mut self,
        unread: Option<Unread>,
        start: u64,
        end: u64,
    ) -> Result<Option<u128>, NoMemory>
        ensures lines { IfOk result (λ last. HasLines self.old unread start end last self.new.text) }
        ensures scanner { self.new.scanner ≡ self.old.scanner }
        ensures settings { self.new.settings ≡ self.old.settings }
    {
        self.text.truncate(0);
        put_stretch(&mut self.text, self.settings.form, unread)?;
        let bytes = self.scanner.record();
        let place = RecordPlace {
            start,
            end,
            size: bytes.len() as u64,
        };
        put_record(&mut self.text, &self.settings, self.last, place, bytes)
    }

    /// Writes the end.
    fn write_end<K: Sink>(&mut self, sink: &mut K, at: u64, why: EndReason) -> Listed
        ensures written { WritesIfRoom (end_line self.old.settings.form at why) (End at why) (K.taken sink.old)
            (K.taken sink.new) (K.faults sink.old) (K.faults sink.new) result }
        ensures scanner { self.new.scanner ≡ self.old.scanner }
        ensures settings { self.new.settings ≡ self.old.settings }
    {
        self.text.truncate(0);
        match put_end(&mut self.text, self.settings.form, at, why) {
            Ok(()) => self.write(sink, Listed::End { at, why }),
            Err(NoMemory) => Listed::NoMemory,
        }
    }

    /// Writes the lines of a step in one go, if there are any.
    fn write<K: Sink>(&self, sink: &mut K, done: Listed) -> Listed
        ensures { Writes self.now.text done (K.taken sink.old) (K.taken sink.new) (K.faults sink.old)
            (K.faults sink.new) result }
    {
        match write_all(sink, self.text.as_slice()) {
            Ok(()) => done,
            Err(_) => Listed::SinkFailed,
        }
    }
}

/// Appends the line of a stretch, if there is one.
fn put_stretch(text: &mut Bytes, form: Form, unread: Option<Unread>) -> Result<(), NoMemory>
    ensures { OnOk result (text.new ≡ text.old ++ stretch_lines form unread) }
{
    match unread {
        Some(unread) => put_unread(text, form, unread),
        None => Ok(()),
    }
}
