//! The parts of an outcome's text.

ghost use Rattle.std.specs.Prelude.{◌≡◌, ◌++◌, [], ◌∷◌, codes, decimal};
ghost use Rattle.model_base.specs.Text.{line, refusal_words, flag_word, log_text};
ghost use Rattle.program_printing.specs.Printing.{Puts};
ghost use Rattle.program_text.specs.ShownText.{reply_line, client_lines, clients_lines, line_of, history_lines};

use crate::lines::{put_hex, put_line, put_number, put_numbers};
use crate::reads::{put_found_each, put_rows, put_updates};
use base_devices::Sink;
use log_batch::Batch;
use model_base::{Flag, Refusal};
use program_printing::Printer;
use run_outcome::{History, HistoryEntry, Reply};

fn put_refusal<K: Sink>(printer: &mut Printer, sink: &mut K, why: Refusal)
    ensures { Puts ⟦<K as Sink>⟧ printer.old sink.old printer.new sink.new (line (codes "no" ∷ refusal_words why)) }
{
    match why {
        Refusal::Empty => put_line(printer, sink, b"no empty", &[]),
        Refusal::TooLarge { size } => put_line(printer, sink, b"no large", &[size]),
        Refusal::SyncWithoutLog => put_line(printer, sink, b"no syncwithoutlog", &[]),
        Refusal::NoFamily { family } => {
            put_line(printer, sink, b"no family", &[u64::from(family)]);
        }
        Refusal::SelfStop => put_line(printer, sink, b"no selfstop", &[]),
        Refusal::NoMemory => put_line(printer, sink, b"no memory", &[]),
        Refusal::Incomplete {
            stops,
            delays,
            wait,
        } => put_line(printer, sink, b"no incomplete", &[stops, delays, wait]),
        Refusal::LogFault { count } => put_line(printer, sink, b"no logfault", &[count]),
        Refusal::SequenceFull { last } => put_line(printer, sink, b"no full", &[last]),
    }
}

fn put_value<K: Sink>(printer: &mut Printer, sink: &mut K, at: u64, value: &[u8])
    ensures { Puts ⟦<K as Sink>⟧ printer.old sink.old printer.new sink.new
        (line (codes "val" ∷ decimal at ∷ value.now ∷ [])) }
{
    printer.put(sink, b"val");
    put_numbers(printer, sink, &[at]);
    printer.put(sink, b" ");
    printer.put(sink, value);
    printer.put(sink, b"\n");
}

fn put_reply<K: Sink>(printer: &mut Printer, sink: &mut K, reply: &Reply)
    ensures { Puts ⟦<K as Sink>⟧ printer.old sink.old printer.new sink.new (reply_line reply.now) }
{
    match reply {
        Reply::Accepted(run) => put_line(printer, sink, b"ok", &[run.first, run.last]),
        Reply::Refused(why) => put_refusal(printer, sink, *why),
        Reply::Found { at, value } => put_value(printer, sink, *at, value.as_slice()),
        Reply::Nothing { at } => put_line(printer, sink, b"nil", &[*at]),
        Reply::FoundEach { at, values } => put_found_each(printer, sink, *at, values),
        Reply::Rows { at, rows } => put_rows(printer, sink, *at, rows),
        Reply::Updates { at, records } => put_updates(printer, sink, *at, records),
        Reply::ReadFault { count } => put_line(printer, sink, b"no readfault", &[*count]),
        Reply::Done => put_line(printer, sink, b"done", &[]),
        Reply::Held => put_line(printer, sink, b"held", &[]),
        Reply::NotHeld => put_line(printer, sink, b"notheld", &[]),
        Reply::NoMemory => put_line(printer, sink, b"no memory", &[]),
    }
}

fn put_client<K: Sink>(printer: &mut Printer, sink: &mut K, number: u64, replies: &Vec<Reply>)
    ensures { Puts ⟦<K as Sink>⟧ printer.old sink.old printer.new sink.new (client_lines (number, replies.now)) }
{
    put_line(printer, sink, b"client", &[number]);
    // The lines of the replies so far are put.
    for reply in replies {
        if printer.has_failed() {
            return;
        }
        put_reply(printer, sink, reply);
    }
}

/// Puts each client's number and replies.
pub fn put_clients<K: Sink>(printer: &mut Printer, sink: &mut K, transcripts: &[Vec<Reply>])
    ensures { Puts ⟦<K as Sink>⟧ printer.old sink.old printer.new sink.new (clients_lines transcripts.now) }
{
    // The lines of the clients so far are put.
    for (before, replies) in transcripts.iter().enumerate() {
        put_client(printer, sink, before as u64 + 1, replies);
    }
}

fn flag_word(flag: Flag) -> &'static [u8]
    ensures { result.now ≡ flag_word flag }
{
    match flag {
        Flag::Log => b"log",
        Flag::NoLog => b"nolog",
        Flag::Sync => b"sync",
    }
}

/// Puts a batch's line. `B` is how the entry holds its batch, and `bytes` are the batch's bytes.
fn put_entry<K: Sink, B>(printer: &mut Printer, sink: &mut K, entry: &HistoryEntry<B>, bytes: &[u8])
    ensures { Puts ⟦<K as Sink>⟧ printer.old sink.old printer.new sink.new (line_of entry.now bytes.now) }
{
    put_number(printer, sink, entry.run.first);
    put_numbers(
        printer,
        sink,
        &[entry.run.last, u64::from(entry.client), entry.ordinal],
    );
    printer.put(sink, b" ");
    printer.put(sink, flag_word(entry.flag));
    printer.put(sink, b" ");
    put_hex(printer, sink, bytes);
    printer.put(sink, b"\n");
}

/// Puts the history of a run: how many batches there are, and a line for each.
pub fn put_history<K: Sink>(printer: &mut Printer, sink: &mut K, history: &History)
    ensures { Puts ⟦<K as Sink>⟧ printer.old sink.old printer.new sink.new (history_lines history.now) }
{
    put_line(printer, sink, b"history", &[history.len() as u64]);
    // The lines of the batches so far are put.
    for at in 0..history.len() {
        if printer.has_failed() {
            return;
        }
        let entry = history.entry(at);
        put_entry(printer, sink, &entry, entry.batch.bytes());
    }
}

/// Puts the history of a schedule, in the same form as the history of a run.
pub fn put_entries<K: Sink>(printer: &mut Printer, sink: &mut K, entries: &[HistoryEntry<Batch>])
    ensures { Puts ⟦<K as Sink>⟧ printer.old sink.old printer.new sink.new (history_lines entries.now) }
{
    put_line(printer, sink, b"history", &[entries.len() as u64]);
    // The lines of the entries so far are put.
    for entry in entries {
        if printer.has_failed() {
            return;
        }
        put_entry(printer, sink, entry, entry.batch.bytes());
    }
}

/// Puts the lengths of the full logs and of the last one, and the count of the fault, if there is one.
pub fn put_log<K: Sink>(
    printer: &mut Printer,
    sink: &mut K,
    full_lens: &[u64],
    len: u64,
    fault: Option<u64>,
)
    ensures { Puts ⟦<K as Sink>⟧ printer.old sink.old printer.new sink.new
        (log_text (full_lens.now ++ len ∷ []) fault) }
{
    printer.put(sink, b"log");
    put_numbers(printer, sink, full_lens);
    put_numbers(printer, sink, &[len]);
    match fault {
        None => printer.put(sink, b"\n"),
        Some(count) => put_line(printer, sink, b" fault", &[count]),
    }
}
