//! The summary of a generated script's outcome: six lines, each a word and a number. It is the same for every order of
//! the clients' batches, since no two clients have a key in common.

ghost use Rattle.std.specs.Prelude.{◌≡◌, ℕ, sum_by};
ghost use Rattle.model_base.specs.Batch.{count_of};
ghost use Rattle.model_base.specs.Calls as calls;
ghost use Rattle.model_base.specs.Generator.{number_line};
ghost use Rattle.model_base.specs.Generator as model;
ghost use Rattle.model_base.specs.History.{IsHistory};
ghost use Rattle.model_base.specs.Script.{value_of_digits};
ghost use Rattle.program_printing.specs.Printing.{Prints, Puts};
ghost use Rattle.run_outcome.specs.Shows.{ShowsOutcome};

use base_devices::Sink;
use base_maps::FamilyMap;
use itoa::Buffer;
use program_printing::{PrintError, Printer};
use run_outcome::{History, Outcome};
use std::alloc::Global;

/// Prints the summary of an outcome. `sum` is the sum of its map's values, read as numbers.
pub fn print_summary<K: Sink>(
    alloc: Global,
    sink: &mut K,
    outcome: &Outcome<FamilyMap>,
    sum: u128,
) -> Result<(), PrintError>
    // It is said only of outcomes whose history is one (`IsHistory`), and whose values have the sum that is handed in.
    ensures { (o : calls.Outcome) (start : ℕ) → IsHistory start o.history → ShowsOutcome outcome.now o
        → sum ≡ sum_by (λ p. value_of_digits p.1) o.state
        → Prints ⟦<K as Sink>⟧ sink.old sink.new result (model.summary_text o) }
{
    let mut printer = Printer::new(alloc)?;
    put_number_line(
        &mut printer,
        sink,
        b"clients",
        outcome.transcripts.len() as u128,
    );
    put_number_line(
        &mut printer,
        sink,
        b"batches",
        outcome.history.len() as u128,
    );
    put_number_line(
        &mut printer,
        sink,
        b"records",
        record_count(&outcome.history),
    );
    put_number_line(&mut printer, sink, b"last", u128::from(outcome.last));
    put_number_line(&mut printer, sink, b"keys", outcome.state.len() as u128);
    put_number_line(&mut printer, sink, b"sum", sum);
    printer.finish(sink)
}

/// How many records of a history's batches count, in all.
fn record_count(history: &History) -> u128
    ensures { result ≡ sum_by (λ entry. count_of entry.batch.records) history.now }
{
    let mut count = 0;
    // The count is that of the batches so far.
    for at in 0..history.len() {
        count += u128::from(history.entry(at).batch.count());
    }
    count
}

/// Puts a line: a word and a number.
fn put_number_line<K: Sink>(printer: &mut Printer, sink: &mut K, word: &[u8], number: u128)
    ensures { Puts ⟦<K as Sink>⟧ printer.old sink.old printer.new sink.new (number_line word.now number) }
{
    let mut buffer = Buffer::new();
    printer.put(sink, word);
    printer.put(sink, b" ");
    printer.put(sink, buffer.format(number).as_bytes());
    printer.put(sink, b"\n");
}
