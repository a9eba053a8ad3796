//! Numbers in decimal, and bytes in hexadecimal digits.

ghost use Rattle.std.specs.Prelude.{◌≡◌, ◌≤◌, ◌∷◌, ◌++◌, length, flat_map, decimal, OnOk};
ghost use Rattle.model_base.specs.Text.{hex};

use base_bytes::Bytes;
use itoa::Buffer;
use model_base::NoMemory;

/// How many bytes are turned into digits at once.
const PIECE: usize = 32;

/// Appends a number to the text, in decimal.
pub fn put_number(text: &mut Bytes, number: u128) -> Result<(), NoMemory>
    ensures { OnOk result (text.new ≡ text.old ++ decimal number) }
{
    let mut buffer = Buffer::new();
    text.append(buffer.format(number).as_bytes())
}

/// Appends numbers to the text, each after a space.
pub fn put_numbers(text: &mut Bytes, numbers: &[u64]) -> Result<(), NoMemory>
    ensures { OnOk result (text.new ≡ text.old ++ flat_map (λ n. 32 ∷ decimal n) numbers.now) }
{
    // The numbers so far are appended to the text.
    for number in numbers {
        text.append(b" ")?;
        put_number(text, u128::from(*number))?;
    }
    Ok(())
}

/// Appends bytes to the text, each as two lower-case hexadecimal digits.
pub fn put_hex(text: &mut Bytes, bytes: &[u8]) -> Result<(), NoMemory>
    ensures { OnOk result (text.new ≡ text.old ++ hex bytes.now) }
{
    let mut rest = bytes;
    // With the digits of `rest` appended the text would be whole.
    while rest.len() > PIECE {
        let (piece, behind) = rest.split_at(PIECE);
        put_piece(text, piece)?;
        rest = behind;
    }
    put_piece(text, rest)
}

/// Appends at most `PIECE` bytes to the text, each as two lower-case hexadecimal digits. These are made on the stack.
fn put_piece(text: &mut Bytes, bytes: &[u8]) -> Result<(), NoMemory>
    requires { length bytes.now ≤ PIECE }
    ensures { OnOk result (text.new ≡ text.old ++ hex bytes.now) }
{
    let mut room = [0; 2 * PIECE];
    let digits = &mut room[..2 * bytes.len()];
    match hex::encode_to_slice(bytes, digits) {
        Ok(()) => text.append(digits),
        Err(_) => unreachable!(),
    }
}
