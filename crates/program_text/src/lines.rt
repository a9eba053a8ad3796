//! Lines: words with one space between them, and a line feed after the last.
//!
//! Each call puts bytes of a text into its printer, whose sink is handed in next to it.

ghost use Rattle.std.specs.Prelude.{◌≡◌, ◌≤◌, ◌∷◌, length, map, flat_map, decimal};
ghost use Rattle.model_base.specs.Text.{line, hex};
ghost use Rattle.program_printing.specs.Printing.{Puts};
ghost use Rattle.program_text.specs.ShownText.{family_front};

use base_devices::Sink;
use itoa::Buffer;
use program_printing::Printer;

/// How many bytes are turned into digits at once.
const PIECE: usize = 32;

/// Puts a number, in decimal.
pub fn put_number<K: Sink>(printer: &mut Printer, sink: &mut K, number: u64)
    ensures { Puts ⟦<K as Sink>⟧ printer.old sink.old printer.new sink.new (decimal number) }
{
    let mut buffer = Buffer::new();
    printer.put(sink, buffer.format(number).as_bytes());
}

/// Puts numbers, each after a space.
pub fn put_numbers<K: Sink>(printer: &mut Printer, sink: &mut K, numbers: &[u64])
    ensures { Puts ⟦<K as Sink>⟧ printer.old sink.old printer.new sink.new
        (flat_map (λ n. 32 ∷ decimal n) numbers.now) }
{
    // The numbers so far are put.
    for number in numbers {
        printer.put(sink, b" ");
        put_number(printer, sink, *number);
    }
}

/// Puts the number of a family and a space, unless it is the default family, whose number is 0.
pub fn put_family<K: Sink>(printer: &mut Printer, sink: &mut K, family: u32)
    ensures { Puts ⟦<K as Sink>⟧ printer.old sink.old printer.new sink.new (family_front family) }
{
    if family == 0 {
        return;
    }
    put_number(printer, sink, u64::from(family));
    printer.put(sink, b" ");
}

/// Puts a line: its first words as they are, and then numbers.
pub fn put_line<K: Sink>(printer: &mut Printer, sink: &mut K, words: &[u8], numbers: &[u64])
    ensures { Puts ⟦<K as Sink>⟧ printer.old sink.old printer.new sink.new
        (line (words.now ∷ map decimal numbers.now)) }
{
    printer.put(sink, words);
    put_numbers(printer, sink, numbers);
    printer.put(sink, b"\n");
}

/// Puts bytes, each as two lower-case hexadecimal digits.
pub fn put_hex<K: Sink>(printer: &mut Printer, sink: &mut K, bytes: &[u8])
    ensures { Puts ⟦<K as Sink>⟧ printer.old sink.old printer.new sink.new (hex bytes.now) }
{
    let mut rest = bytes;
    // With the digits of `rest` those of all bytes would be put.
    while rest.len() > PIECE {
        let (piece, behind) = rest.split_at(PIECE);
        put_piece(printer, sink, piece);
        rest = behind;
    }
    put_piece(printer, sink, rest);
}

/// Puts at most `PIECE` bytes, each as two lower-case hexadecimal digits. These are made on the stack.
fn put_piece<K: Sink>(printer: &mut Printer, sink: &mut K, bytes: &[u8])
    requires { length bytes.now ≤ PIECE }
    ensures { Puts ⟦<K as Sink>⟧ printer.old sink.old printer.new sink.new (hex bytes.now) }
{
    let mut room = [0; 2 * PIECE];
    let digits = &mut room[..2 * bytes.len()];
    match hex::encode_to_slice(bytes, digits) {
        Ok(()) => printer.put(sink, digits),
        Err(_) => unreachable!(),
    }
}
