//! The text of the state that a log recovers, whose keys and values may be any bytes: they are printed in hexadecimal
//! digits. The number of a key's family comes before the key, unless it is the default family.

ghost use Rattle.model_base.specs.Text.{hex_word, state_text};
ghost use Rattle.model_base.specs.Map.{key_at};
ghost use Rattle.program_printing.specs.Printing.{Puts};
ghost use Rattle.program_text.specs.ShownText.{row_line, pair_line};

use crate::lines::{put_family, put_hex, put_line};
use base_devices::Sink;
use base_maps::FamilyMap;
use program_printing::Printer;

/// Puts bytes in lower-case hexadecimal digits, or `-` if there is none.
fn put_hex_word<K: Sink>(printer: &mut Printer, sink: &mut K, word: &[u8])
    ensures { Puts ⟦<K as Sink>⟧ printer.old sink.old printer.new sink.new (hex_word word.now) }
{
    if word.is_empty() {
        printer.put(sink, b"-");
    } else {
        put_hex(printer, sink, word);
    }
}

fn put_hex_pair<K: Sink>(printer: &mut Printer, sink: &mut K, family: u32, key: &[u8], value: &[u8])
    ensures { Puts ⟦<K as Sink>⟧ printer.old sink.old printer.new sink.new
        (pair_line hex_word (key_at family key.now, value.now)) }
{
    put_family(printer, sink, family);
    put_hex_row(printer, sink, key, value);
}

fn put_hex_row<K: Sink>(printer: &mut Printer, sink: &mut K, key: &[u8], value: &[u8])
    ensures { Puts ⟦<K as Sink>⟧ printer.old sink.old printer.new sink.new (row_line hex_word (key.now, value.now)) }
{
    put_hex_word(printer, sink, key);
    printer.put(sink, b" ");
    put_hex_word(printer, sink, value);
    printer.put(sink, b"\n");
}

/// Puts the state that is recovered.
pub fn put_recovered_map<K: Sink>(printer: &mut Printer, sink: &mut K, last: u64, map: &FamilyMap)
    ensures { Puts ⟦<K as Sink>⟧ printer.old sink.old printer.new sink.new (state_text hex_word last map.now) }
{
    put_line(printer, sink, b"state", &[last, map.len() as u64]);
    // With the lines of the pairs that are left those of all pairs would be put.
    for (family, key, value) in map.iter() {
        if printer.has_failed() {
            return;
        }
        put_hex_pair(printer, sink, family, key, value);
    }
}
