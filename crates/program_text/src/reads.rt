//! The replies to reads of several keys: `many AT N` and a word for each key, `scan AT N` and two words for each pair;
//! and to reads of the log: `updates AT N` and a word for each record.

ghost use Rattle.std.specs.Prelude.{◌≡◌, ◌∷◌, length, map, flat_map, codes, decimal};
ghost use Rattle.model_base.specs.Text.{line, found_word, hex};
ghost use Rattle.base_bytes.specs.Answers.{found_value};
ghost use Rattle.program_printing.specs.Printing.{Puts};
ghost use Rattle.program_text.specs.ShownText.{pair_words};

use crate::lines::{put_hex, put_numbers};
use base_bytes::{Found, FoundList, PairList, RecordList};
use base_devices::Sink;
use program_printing::Printer;

/// Puts what was found for one key, after a space: `=V`, or `-` for no value.
fn put_found<K: Sink>(printer: &mut Printer, sink: &mut K, found: &Found)
    ensures { Puts ⟦<K as Sink>⟧ printer.old sink.old printer.new sink.new
        (32 ∷ found_word (found_value found.now)) }
{
    match found {
        Found::Absent => printer.put(sink, b" -"),
        Found::Value(value) => {
            printer.put(sink, b" =");
            printer.put(sink, value.as_slice());
        }
    }
}

/// Puts the reply to a read of several keys.
pub fn put_found_each<K: Sink>(printer: &mut Printer, sink: &mut K, at: u64, values: &FoundList)
    ensures { Puts ⟦<K as Sink>⟧ printer.old sink.old printer.new sink.new
        (line (codes "many" ∷ decimal at ∷ decimal (length values.now) ∷ map found_word values.now)) }
{
    printer.put(sink, b"many");
    put_numbers(printer, sink, &[at, values.len() as u64]);
    // The values so far are put.
    for found in values.as_slice() {
        put_found(printer, sink, found);
    }
    printer.put(sink, b"\n");
}

/// Puts a key and its value, each after a space.
fn put_row<K: Sink>(printer: &mut Printer, sink: &mut K, key: &[u8], value: &[u8])
    ensures { Puts ⟦<K as Sink>⟧ printer.old sink.old printer.new sink.new
        (flat_map (λ w. 32 ∷ w) (pair_words (key.now, value.now))) }
{
    printer.put(sink, b" ");
    printer.put(sink, key);
    printer.put(sink, b" ");
    printer.put(sink, value);
}

/// Puts the reply to a scan.
pub fn put_rows<K: Sink>(printer: &mut Printer, sink: &mut K, at: u64, rows: &PairList)
    ensures { Puts ⟦<K as Sink>⟧ printer.old sink.old printer.new sink.new
        (line (codes "scan" ∷ decimal at ∷ decimal (length rows.now) ∷ flat_map pair_words rows.now)) }
{
    printer.put(sink, b"scan");
    put_numbers(printer, sink, &[at, rows.len() as u64]);
    // The words of the rows so far are put.
    for (key, value) in rows.as_slice() {
        put_row(printer, sink, key.as_slice(), value.as_slice());
    }
    printer.put(sink, b"\n");
}

/// Puts the reply to a read of the log.
pub fn put_updates<K: Sink>(printer: &mut Printer, sink: &mut K, at: u64, records: &RecordList)
    ensures { Puts ⟦<K as Sink>⟧ printer.old sink.old printer.new sink.new
        (line (codes "updates" ∷ decimal at ∷ decimal (length records.now) ∷ map hex records.now)) }
{
    printer.put(sink, b"updates");
    put_numbers(printer, sink, &[at, records.len() as u64]);
    // The records so far are put.
    for record in records.as_slice() {
        put_record(printer, sink, record.as_slice());
    }
    printer.put(sink, b"\n");
}

/// Puts a record, after a space.
fn put_record<K: Sink>(printer: &mut Printer, sink: &mut K, bytes: &[u8])
    ensures { Puts ⟦<K as Sink>⟧ printer.old sink.old printer.new sink.new (32 ∷ hex bytes.now) }
{
    printer.put(sink, b" ");
    put_hex(printer, sink, bytes);
}
