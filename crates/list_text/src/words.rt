//! The bytes of keys, values and notes.

ghost use Rattle.std.specs.Prelude.{◌≡◌, ◌++◌, OnOk};
ghost use Rattle.model_base.specs.Text.{hex, hex_word};
ghost use Rattle.list_text.specs.Words as words;

use crate::digits::put_hex;
use crate::form::Form;
use base_bytes::Bytes;
use model_base::NoMemory;

/// What comes before the two digits of a byte that isn't printed as it is.
const ESCAPE: &[u8] = b"\\x";

/// The same in a string of JSON.
const JSON_ESCAPE: &[u8] = b"\\u00";

/// Appends bytes to the text in this form: digits, and `-` for none; a text in quotes; or a string of JSON with either.
pub fn put_word(text: &mut Bytes, form: Form, bytes: &[u8]) -> Result<(), NoMemory>
    ensures { OnOk result (text.new ≡ text.old ++ words.word form bytes.now) }
{
    match (form.json, form.text) {
        (false, false) => put_hex_word(text, bytes),
        (false, true) => put_quoted(text, ESCAPE, bytes),
        (true, false) => put_hex_string(text, bytes),
        (true, true) => put_quoted(text, JSON_ESCAPE, bytes),
    }
}

fn put_hex_word(text: &mut Bytes, bytes: &[u8]) -> Result<(), NoMemory>
    ensures { OnOk result (text.new ≡ text.old ++ hex_word bytes.now) }
{
    if bytes.is_empty() {
        text.append(b"-")
    } else {
        put_hex(text, bytes)
    }
}

fn put_hex_string(text: &mut Bytes, bytes: &[u8]) -> Result<(), NoMemory>
    ensures { OnOk result (text.new ≡ text.old ++ words.in_quotes (hex bytes.now)) }
{
    text.append(b"\"")?;
    put_hex(text, bytes)?;
    text.append(b"\"")
}

/// Appends bytes to the text in quotes.
fn put_quoted(text: &mut Bytes, escape: &[u8], bytes: &[u8]) -> Result<(), NoMemory>
    ensures { OnOk result (text.new ≡ text.old ++ words.in_quotes (words.escaped escape.now bytes.now)) }
{
    text.append(b"\"")?;
    put_escaped(text, escape, bytes)?;
    text.append(b"\"")
}

/// Appends bytes to the text: printable ones as they are, the backslash twice, and others, and the quote, as two digits
/// after an escape.
pub fn put_escaped(text: &mut Bytes, escape: &[u8], bytes: &[u8]) -> Result<(), NoMemory>
    ensures { OnOk result (text.new ≡ text.old ++ words.escaped escape.now bytes.now) }
{
    // The bytes so far are appended to the text.
    for byte in bytes {
        put_byte(text, escape, *byte)?;
    }
    Ok(())
}

fn put_byte(text: &mut Bytes, escape: &[u8], byte: u8) -> Result<(), NoMemory>
    ensures { OnOk result (text.new ≡ text.old ++ words.escaped_byte escape.now byte) }
{
    match byte {
        b'\\' => text.append(b"\\\\"),
        b' ' | b'!' | b'#'..=b'~' => text.append(&[byte]),
        _ => {
            text.append(escape)?;
            put_hex(text, &[byte])
        }
    }
}
