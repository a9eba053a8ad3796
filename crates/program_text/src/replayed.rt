//! The text of a schedule that was run on the core.

ghost use Rattle.std.specs.Prelude.{ℕ, List};
ghost use Rattle.program_printing.specs.Printing.{Prints, Puts};
ghost use Rattle.program_text.specs.Results.{IsReplayText};
ghost use Rattle.program_text.specs.ShownText.{counts_line};

use crate::lines::{put_line, put_numbers};
use crate::parts::{put_clients, put_entries};
use crate::states::put_map;
use base_devices::Sink;
use program_printing::{PrintError, Printer};
use replay_core::Counts;
use replay_schedules::Replayed;
use std::alloc::Global;

/// Prints a replayed schedule: how many events were taken and how many skipped, each client's replies, the history, the
/// published state, and how many groups were logged.
pub fn print_replayed<K: Sink>(
    alloc: Global,
    sink: &mut K,
    replayed: &Replayed,
) -> Result<(), PrintError>
    ensures { (text : List ℕ) × IsReplayText replayed.now text
        × Prints ⟦<K as Sink>⟧ sink.old sink.new result text }
{
    let mut printer = Printer::new(alloc)?;
    put_counts(&mut printer, sink, replayed.counts);
    put_clients(&mut printer, sink, &replayed.transcripts);
    put_entries(&mut printer, sink, &replayed.history);
    put_map(&mut printer, sink, replayed.last, &replayed.map);
    put_line(&mut printer, sink, b"groups", &[replayed.groups]);
    printer.finish(sink)
}

/// Puts the line of the events.
fn put_counts<K: Sink>(printer: &mut Printer, sink: &mut K, counts: Counts)
    ensures { Puts ⟦<K as Sink>⟧ printer.old sink.old printer.new sink.new (counts_line counts) }
{
    printer.put(sink, b"events");
    put_numbers(printer, sink, &[counts.taken]);
    put_line(printer, sink, b" skipped", &[counts.skipped]);
}
