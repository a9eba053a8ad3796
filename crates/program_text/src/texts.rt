//! What a call prints: the outcome of a run, or why it refused. Numbers are decimal, and each line ends with a line
//! feed.

ghost use Rattle.std.specs.Prelude.{◌≡◌};
ghost use Rattle.model_base.specs.Calls as calls;
ghost use Rattle.model_base.specs.Text.{outcome_text};
ghost use Rattle.program_printing.specs.Printing.{Prints};
ghost use Rattle.run_outcome.specs.Shows.{ShowsOutcome};
ghost use Rattle.model_base.specs.Script as model;
ghost use Rattle.program_text.specs.Refusals as texts;

use crate::lines::{put_line, put_numbers};
use crate::parts::{put_clients, put_history, put_log};
use crate::states::put_map;
use base_devices::Sink;
use base_maps::FamilyMap;
use model_base::ScriptFault;
use program_printing::{PrintError, Printer};
use run_outcome::Outcome;
use std::alloc::Global;

/// Prints an outcome: each client's replies, the history, the published state, the log.
pub fn print_outcome<K: Sink>(
    alloc: Global,
    sink: &mut K,
    outcome: &Outcome<FamilyMap>,
) -> Result<(), PrintError>
    // The errors are a write that failed and no memory, here and of each other text.
    ensures { (o : calls.Outcome) → ShowsOutcome outcome.now o
        → Prints ⟦<K as Sink>⟧ sink.old sink.new result (outcome_text o) }
{
    let mut printer = Printer::new(alloc)?;
    put_clients(&mut printer, sink, &outcome.transcripts);
    put_history(&mut printer, sink, &outcome.history);
    put_map(&mut printer, sink, outcome.last, &outcome.state);
    put_log(
        &mut printer,
        sink,
        &outcome.full_lens,
        outcome.log_len,
        outcome.fault,
    );
    printer.finish(sink)
}

/// The refusal of words that aren't lawful.
pub fn usage() -> &'static [u8]
    ensures { result.now ≡ texts.usage }
{
    b"usage\n"
}

/// Prints the refusal of a text that isn't a script: its first fault, and the number of the fault's line.
pub fn print_script_fault<K: Sink>(
    alloc: Global,
    sink: &mut K,
    line: u64,
    kind: ScriptFault,
) -> Result<(), PrintError>
    ensures { Prints ⟦<K as Sink>⟧ sink.old sink.new result
        (texts.script_fault (record { line = line; kind = kind })) }
{
    let mut printer = Printer::new(alloc)?;
    printer.put(sink, b"script");
    put_numbers(&mut printer, sink, &[line]);
    printer.put(sink, b" ");
    printer.put(sink, fault_word(kind));
    printer.put(sink, b"\n");
    printer.finish(sink)
}

fn fault_word(kind: ScriptFault) -> &'static [u8]
    ensures { result.now ≡ model.fault_word kind }
{
    match kind {
        ScriptFault::Long => b"long",
        ScriptFault::Byte => b"byte",
        ScriptFault::Word => b"word",
        ScriptFault::Form => b"form",
        ScriptFault::Client => b"client",
        ScriptFault::Clients => b"clients",
        ScriptFault::NoClient => b"none",
        ScriptFault::NoSchedule => b"schedule",
    }
}

/// Prints the refusal of a log that has `len` bytes already.
pub fn print_not_empty<K: Sink>(alloc: Global, sink: &mut K, len: u64) -> Result<(), PrintError>
    ensures { Prints ⟦<K as Sink>⟧ sink.old sink.new result (texts.not_empty len) }
{
    let mut printer = Printer::new(alloc)?;
    put_line(&mut printer, sink, b"log not empty", &[len]);
    printer.finish(sink)
}

/// Prints the refusal of a log that recovers a key in a family that no run is set up for: the greatest such family.
pub fn print_high_family<K: Sink>(
    alloc: Global,
    sink: &mut K,
    family: u32,
) -> Result<(), PrintError>
    ensures { Prints ⟦<K as Sink>⟧ sink.old sink.new result (texts.high_family family) }
{
    let mut printer = Printer::new(alloc)?;
    put_line(&mut printer, sink, b"family", &[u64::from(family)]);
    printer.finish(sink)
}
