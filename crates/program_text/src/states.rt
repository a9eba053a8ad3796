//! The text of a state: the line `state LAST N`, and a line for each of its N keys with their values. The keys and
//! values of a script are printing characters, and are printed as they are. The number of a key's family comes before
//! the key, unless it is the default family.

ghost use Rattle.model_base.specs.Text.{state_text};
ghost use Rattle.model_base.specs.Map.{key_at};
ghost use Rattle.program_printing.specs.Printing.{Puts};
ghost use Rattle.program_text.specs.ShownText.{plain, row_line, pair_line};

use crate::lines::{put_family, put_line};
use base_devices::Sink;
use base_maps::FamilyMap;
use program_printing::Printer;

fn put_pair<K: Sink>(printer: &mut Printer, sink: &mut K, family: u32, key: &[u8], value: &[u8])
    ensures { Puts ⟦<K as Sink>⟧ printer.old sink.old printer.new sink.new
        (pair_line plain (key_at family key.now, value.now)) }
{
    put_family(printer, sink, family);
    put_row(printer, sink, key, value);
}

fn put_row<K: Sink>(printer: &mut Printer, sink: &mut K, key: &[u8], value: &[u8])
    ensures { Puts ⟦<K as Sink>⟧ printer.old sink.old printer.new sink.new (row_line plain (key.now, value.now)) }
{
    printer.put(sink, key);
    printer.put(sink, b" ");
    printer.put(sink, value);
    printer.put(sink, b"\n");
}

/// Puts the state of a map.
pub fn put_map<K: Sink>(printer: &mut Printer, sink: &mut K, last: u64, map: &FamilyMap)
    ensures { Puts ⟦<K as Sink>⟧ printer.old sink.old printer.new sink.new (state_text plain last map.now) }
{
    put_line(printer, sink, b"state", &[last, map.len() as u64]);
    // With the lines of the pairs that are left those of all pairs would be put.
    for (family, key, value) in map.iter() {
        if printer.has_failed() {
            return;
        }
        put_pair(printer, sink, family, key, value);
    }
}
