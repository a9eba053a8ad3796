//! The text of what a log recovers.

ghost use Rattle.std.specs.Prelude.{[], ◌∷◌, ℕ, List, decimal};
ghost use Rattle.model_base.specs.Text.{line, damage_words, end_words};
ghost use Rattle.program_printing.specs.Printing.{Prints, Puts};
ghost use Rattle.program_text.specs.Refusals as texts;
ghost use Rattle.program_text.specs.Results.{IsTextOf, IsTextOfLogs};
ghost use Rattle.program_text.specs.ShownText.{group_line, groups_lines, end_line};

use crate::lines::{put_line, put_number, put_numbers};
use crate::recovered_state::put_recovered_map;
use base_devices::Sink;
use log_recovery::{GroupNote, Recovered, RecoveredMany};
use model_base::{Damage, EndReason};
use program_printing::{PrintError, Printer};
use std::alloc::Global;

/// Prints what a log recovers: a line for each group, the map at the last sequence in hexadecimal digits, and where and
/// why recovery ended.
pub fn print_recovered<K: Sink>(
    alloc: Global,
    sink: &mut K,
    recovered: &Recovered,
) -> Result<(), PrintError>
    ensures { (text : List ℕ) × IsTextOf recovered.now text
        × Prints ⟦<K as Sink>⟧ sink.old sink.new result text }
{
    let mut printer = Printer::new(alloc)?;
    put_groups(&mut printer, sink, &recovered.groups);
    put_recovered_map(&mut printer, sink, recovered.last, &recovered.map);
    put_end(&mut printer, sink, recovered.end.at, recovered.end.why);
    printer.finish(sink)
}

/// The same of several logs, with the number of the log in which recovery ended.
pub fn print_recovered_logs<K: Sink>(
    alloc: Global,
    sink: &mut K,
    recovered: &RecoveredMany,
) -> Result<(), PrintError>
    ensures { (text : List ℕ) × IsTextOfLogs recovered.now text
        × Prints ⟦<K as Sink>⟧ sink.old sink.new result text }
{
    let mut printer = Printer::new(alloc)?;
    put_groups(&mut printer, sink, &recovered.groups);
    put_recovered_map(&mut printer, sink, recovered.last, &recovered.map);
    put_numbered_end(
        &mut printer,
        sink,
        b"end",
        recovered.log,
        recovered.end.at,
        recovered.end.why,
    );
    printer.finish(sink)
}

/// Prints the refusal of several logs: recovery ends in this one, at this place for this reason, which isn't accepted.
pub fn print_logs_damage<K: Sink>(
    alloc: Global,
    sink: &mut K,
    log: u64,
    at: u64,
    why: EndReason,
) -> Result<(), PrintError>
    ensures { Prints ⟦<K as Sink>⟧ sink.old sink.new result (texts.logs_damage log at why) }
{
    let mut printer = Printer::new(alloc)?;
    put_numbered_end(&mut printer, sink, b"damage", log, at, why);
    printer.finish(sink)
}

/// Puts a word, in which log and where recovery ended, and why.
fn put_numbered_end<K: Sink>(
    printer: &mut Printer,
    sink: &mut K,
    word: &[u8],
    log: u64,
    at: u64,
    why: EndReason,
)
    ensures { Puts ⟦<K as Sink>⟧ printer.old sink.old printer.new sink.new
        (line (word.now ∷ decimal log ∷ decimal at ∷ end_words why)) }
{
    printer.put(sink, word);
    put_numbers(printer, sink, &[log, at]);
    printer.put(sink, b" ");
    put_reason(printer, sink, why);
}

fn put_group<K: Sink>(printer: &mut Printer, sink: &mut K, group: &GroupNote)
    ensures { Puts ⟦<K as Sink>⟧ printer.old sink.old printer.new sink.new (group_line group.now) }
{
    put_number(printer, sink, group.first);
    put_numbers(printer, sink, &[u64::from(group.count), group.size]);
    printer.put(sink, b"\n");
}

/// Puts the groups: how many there are, and a line for each.
fn put_groups<K: Sink>(printer: &mut Printer, sink: &mut K, groups: &[GroupNote])
    ensures { Puts ⟦<K as Sink>⟧ printer.old sink.old printer.new sink.new (groups_lines groups.now) }
{
    put_line(printer, sink, b"groups", &[groups.len() as u64]);
    // The lines of the groups so far are put.
    for group in groups {
        if printer.has_failed() {
            return;
        }
        put_group(printer, sink, group);
    }
}

/// Puts where and why recovery ended.
fn put_end<K: Sink>(printer: &mut Printer, sink: &mut K, at: u64, why: EndReason)
    ensures { Puts ⟦<K as Sink>⟧ printer.old sink.old printer.new sink.new (end_line at why) }
{
    printer.put(sink, b"end");
    put_numbers(printer, sink, &[at]);
    printer.put(sink, b" ");
    put_reason(printer, sink, why);
}

/// Prints the refusal of a log: its recovery ends at this place for this reason, which isn't accepted.
pub fn print_damage<K: Sink>(
    alloc: Global,
    sink: &mut K,
    at: u64,
    why: EndReason,
) -> Result<(), PrintError>
    ensures { Prints ⟦<K as Sink>⟧ sink.old sink.new result (texts.damage at why) }
{
    let mut printer = Printer::new(alloc)?;
    printer.put(sink, b"damage");
    put_numbers(&mut printer, sink, &[at]);
    printer.put(sink, b" ");
    put_reason(&mut printer, sink, why);
    printer.finish(sink)
}

fn put_reason<K: Sink>(printer: &mut Printer, sink: &mut K, why: EndReason)
    ensures { Puts ⟦<K as Sink>⟧ printer.old sink.old printer.new sink.new (line (end_words why)) }
{
    match why {
        EndReason::Clean => put_line(printer, sink, b"clean", &[]),
        EndReason::Broken(damage) => put_damage(printer, sink, damage),
        EndReason::BadOrder => put_line(printer, sink, b"badorder", &[]),
        EndReason::Unfinished => put_line(printer, sink, b"unfinished", &[]),
        EndReason::Short => put_line(printer, sink, b"short", &[]),
        EndReason::BadVarint => put_line(printer, sink, b"badvarint", &[]),
        EndReason::Tag(tag) => put_line(printer, sink, b"tag", &[u64::from(tag)]),
        EndReason::Count { said, found } => {
            put_line(printer, sink, b"count", &[u64::from(said), found]);
        }
        EndReason::Order { first, last } => put_line(printer, sink, b"order", &[first, last]),
        EndReason::High { first, count } => {
            put_line(printer, sink, b"high", &[first, u64::from(count)]);
        }
    }
}

fn put_damage<K: Sink>(printer: &mut Printer, sink: &mut K, damage: Damage)
    ensures { Puts ⟦<K as Sink>⟧ printer.old sink.old printer.new sink.new (line (damage_words damage)) }
{
    match damage {
        Damage::ShortHeader => put_line(printer, sink, b"shortheader", &[]),
        Damage::Zeros => put_line(printer, sink, b"zeros", &[]),
        Damage::BadLength => put_line(printer, sink, b"badlength", &[]),
        Damage::BadType(kind) => put_line(printer, sink, b"badtype", &[u64::from(kind)]),
        Damage::BadChecksum => put_line(printer, sink, b"badchecksum", &[]),
        Damage::BadTrailer => put_line(printer, sink, b"badtrailer", &[]),
        Damage::OldLog(number) => put_line(printer, sink, b"oldlog", &[u64::from(number)]),
    }
}
