//! The counts of a log, in place of its records.

ghost use Rattle.std.specs.Prelude.{◌≡◌, ◌++◌, OnOk, IfOk, IfErr, IfSome};
ghost use Rattle.list_log.specs.Totals as counting;
ghost use Rattle.list_log.specs.Totals.{AnswersSummary, CountsAll, IsCountError};
ghost use Rattle.list_log.specs.Showing.{HasShownCauses};

use crate::lines::put_front;
use crate::settings::Settings;
use crate::showing::Shown;
use crate::tallies::Tally;
use crate::totals::Totals;
use base_bytes::Bytes;
use base_devices::{ReadAt, Sink, write_all};
use list_text::{Form, put_count, put_end, put_records, put_sequences, put_stretches};
use log_scan::{Found, Lost, Scanner};
use model_base::{EndReason, NoMemory};
use std::alloc::Global;

/// Why a log wasn't counted.
#[derive(Clone, Copy)]
pub(crate) enum CountError {
    /// The disk failed, and this is its count of faults.
    Fault { count: u64 },
    NoMemory,
}

impl From<NoMemory> for CountError {
    ghost use Rattle.list_log.specs.declared.summary.CountError.TheVariants.{NoMemory};

    ghost from_gives = { λ _ e. e ≡ NoMemory };

    fn from(_: NoMemory) -> CountError {
        CountError::NoMemory
    }
}

/// Writes the counts of the log that a disk holds, read with this number or with none, in place of its records. Nothing
/// is written before the log's end is reached.
pub fn summarize<R: ReadAt, K: Sink>(
    alloc: Global,
    settings: Settings<'_>,
    number: Option<u32>,
    disk: &mut R,
    sink: &mut K,
) -> Shown
    ensures shown { IfSome (R.held disk.old) (λ file.
        AnswersSummary settings.entry number file (K.taken sink.old) (K.taken sink.new) result) }
    ensures causes { HasShownCauses (R.failures disk.old) (R.failures disk.new) (K.faults sink.old) (K.faults sink.new)
        result }
    ensures disk { R.only_reads disk.old disk.new }
{
    let mut totals = Totals::new(alloc);
    match count(alloc, &settings, number, disk, &mut totals) {
        Ok(Lost { at, why }) => write_totals(alloc, sink, &settings, &totals, at, why),
        Err(CountError::Fault { count }) => Shown::Fault { count },
        Err(CountError::NoMemory) => Shown::NoMemory,
    }
}

/// Counts what is found in the log that a disk holds, and answers where and why reading ended.
fn count<R: ReadAt>(
    alloc: Global,
    settings: &Settings<'_>,
    number: Option<u32>,
    disk: &mut R,
    totals: &mut Totals,
) -> Result<Lost, CountError>
    ensures counted { IfSome (R.held disk.old) (λ file.
        IfOk result (CountsAll settings.now number file totals.old totals.new)) }
    ensures worked { OnOk result (R.failures disk.new ≡ R.failures disk.old) }
    ensures error { IfErr result (IsCountError (R.failures disk.old) (R.failures disk.new)) }
    ensures disk { R.only_reads disk.old disk.new }
{
    let mut scanner = Scanner::open(alloc, number, settings.scan)?;
    // What is found before the scanner's place is counted.
    loop {
        let found = scanner.next(alloc, disk);
        if let Some(end) = ended(found) {
            return end;
        }
        totals.add_found(settings, found, scanner.record())?;
    }
}

/// How counting ended with this, if it did.
fn ended(found: Found) -> Option<Result<Lost, CountError>>
    ensures { result ≡ counting.counted_end found }
{
    match found {
        Found::Record { .. } => None,
        Found::Passed => None,
        Found::End { at, why } => Some(Ok(Lost { at, why })),
        Found::Fault { count } => Some(Err(CountError::Fault { count })),
        Found::NoMemory => Some(Err(CountError::NoMemory)),
    }
}

/// Writes the counts and the end, in one go.
fn write_totals<K: Sink>(
    alloc: Global,
    sink: &mut K,
    settings: &Settings<'_>,
    totals: &Totals,
    at: u64,
    why: EndReason,
) -> Shown
    ensures { counting.WritesTotals (counting.totals_text settings.now totals.now at why) at why (K.taken sink.old)
        (K.taken sink.new) (K.faults sink.old) (K.faults sink.new) result }
{
    let mut text = Bytes::new(alloc);
    if put_totals(&mut text, settings, totals, at, why).is_err() {
        return Shown::NoMemory;
    }
    match write_all(sink, text.as_slice()) {
        Ok(()) => Shown::All { at, why },
        Err(_) => Shown::SinkFailed,
    }
}

/// Appends the counts and the end to the text.
fn put_totals(
    text: &mut Bytes,
    settings: &Settings<'_>,
    totals: &Totals,
    at: u64,
    why: EndReason,
) -> Result<(), NoMemory>
    ensures { OnOk result (text.new ≡ text.old ++ counting.totals_text settings.now totals.now at why) }
{
    let form = settings.form;
    put_front(text, settings)?;
    put_records(text, form, totals.records)?;
    put_sequences(text, form, both(totals.first, totals.last))?;
    put_counts(text, form, totals.tallies.as_slice())?;
    put_all_stretches(text, settings, totals)?;
    put_end(text, form, at, why)
}

/// Both, if both are there.
fn both(first: Option<u128>, last: Option<u128>) -> Option<(u128, u128)>
    ensures { result ≡ counting.both first last }
{
    Some((first?, last?))
}

/// Appends the lines of the counts to the text.
fn put_counts(text: &mut Bytes, form: Form, tallies: &[Tally]) -> Result<(), NoMemory>
    ensures { OnOk result (text.new ≡ text.old ++ counting.count_lines form tallies.now) }
{
    // The lines of the counts so far are appended to the text.
    for tally in tallies {
        put_count(text, form, tally.tag, tally.family, tally.count)?;
    }
    Ok(())
}

/// Appends how much doesn't read, in a scan.
fn put_all_stretches(
    text: &mut Bytes,
    settings: &Settings<'_>,
    totals: &Totals,
) -> Result<(), NoMemory>
    ensures { OnOk result (text.new ≡ text.old ++ counting.all_stretches settings.now totals.now) }
{
    if settings.scan {
        put_stretches(text, settings.form, totals.stretches, totals.bytes)
    } else {
        Ok(())
    }
}
