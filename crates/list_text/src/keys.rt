//! A key as it is given on the command line.

ghost use Rattle.std.specs.Prelude.{◌≡◌, ◌<◌, ◌∷◌, length, Some, None, IfOk, IfErr, option_map};
ghost use Rattle.list_text.specs.Keys as keys;
ghost use Rattle.list_text.specs.Keys.{escaped, key_in};
ghost use Rattle.list_text.specs.declared.keys.KeyError.TheVariants.{NoMemory, NotAKey};

use crate::form::Form;
use base_bytes::Bytes;
use hex::FromHexError;
use model_base::NoMemory as NoRoom;
use std::alloc::Global;
use thiserror::Error;

/// Why a word gives no key.
#[derive(Clone, Copy, Debug, PartialEq, Eq, Error)]
pub enum KeyError {
    /// It isn't spelled as one.
    #[error("not a key")]
    NotAKey,
    #[error("no memory")]
    NoMemory,
}

impl From<NoRoom> for KeyError {
    ghost from_gives = { λ _ e. e ≡ NoMemory };

    fn from(_: NoRoom) -> KeyError {
        KeyError::NoMemory
    }
}

/// The key that a word spells: in hexadecimal digits, and `-` if it is empty; or where keys are shown as text, as a text
/// without quotes. There a backslash comes twice, or `x` and two digits follow it; any other byte is its own.
pub fn key_of(alloc: Global, form: Form, word: &str) -> Result<Bytes, KeyError>
    ensures ok { IfOk result (λ key. key_in form word.now ≡ Some key) }
    ensures err { IfErr result (λ e. e ≡ NotAKey → key_in form word.now ≡ None) }
{
    if form.text {
        text_key(alloc, word.as_bytes())
    } else {
        hex_key(alloc, word)
    }
}

/// The key of hexadecimal digits. As it is shown, an empty one is `-`.
fn hex_key(alloc: Global, word: &str) -> Result<Bytes, KeyError>
    ensures ok { IfOk result (λ key. keys.hex_key word.now ≡ Some key) }
    ensures err { IfErr result (λ e. e ≡ NotAKey → keys.hex_key word.now ≡ None) }
{
    match word {
        "-" => Ok(Bytes::new(alloc)),
        digits => digits_key(alloc, digits.as_bytes()),
    }
}

/// The bytes of these digits.
fn digits_key(alloc: Global, digits: &[u8]) -> Result<Bytes, KeyError>
    ensures ok { IfOk result (λ key. keys.digits_key digits.now ≡ Some key) }
    ensures err { IfErr result (λ e. e ≡ NotAKey → keys.digits_key digits.now ≡ None) }
{
    match hex::decode(alloc, digits) {
        Ok(key) => Ok(Bytes::copy(alloc, &key)?),
        Err(FromHexError::OutOfMemory) => Err(KeyError::NoMemory),
        Err(_) => Err(KeyError::NotAKey),
    }
}

/// The bytes of a text with escapes.
fn text_key(alloc: Global, text: &[u8]) -> Result<Bytes, KeyError>
    ensures ok { IfOk result (λ key. keys.text_key text.now ≡ Some key) }
    ensures err { IfErr result (λ e. e ≡ NotAKey → keys.text_key text.now ≡ None) }
{
    let mut key = Bytes::new(alloc);
    let mut rest = text;
    // The text before `rest` spells `key`.
    while !rest.is_empty() {
        let (byte, behind) = next_byte(rest)?;
        key.append(&[byte])?;
        rest = behind;
    }
    Ok(key)
}

/// The byte that a text spells first, and the text after it. It is none exactly where an escape is wrong.
fn next_byte(text: &[u8]) -> Result<(u8, &[u8]), KeyError>
    requires { 0 < length text.now }
    ensures ok { IfOk result (λ p. keys.text_key text.now ≡ option_map (λ bytes. p.0 ∷ bytes) (keys.text_key p.1.now)) }
    ensures later { IfOk result (λ p. length p.1.now < length text.now) }
    ensures err { IfErr result (λ e. (e ≡ NotAKey) × (keys.text_key text.now ≡ None)) }
{
    let behind = &text[1..];
    match text[0] {
        b'\\' => escaped_byte(behind),
        byte => Ok((byte, behind)),
    }
}

/// The byte that a text spells first after a backslash, and the text after it.
fn escaped_byte(text: &[u8]) -> Result<(u8, &[u8]), KeyError>
    ensures ok { IfOk result (λ p. keys.spelled escaped text.now
        ≡ option_map (λ bytes. p.0 ∷ bytes) (keys.text_key p.1.now)) }
    ensures later { IfOk result (λ p. length p.1.now < length text.now) }
    ensures err { IfErr result (λ e. (e ≡ NotAKey) × (keys.spelled escaped text.now ≡ None)) }
{
    if text.is_empty() {
        return Err(KeyError::NotAKey);
    }
    match text[0] {
        b'\\' => Ok((b'\\', &text[1..])),
        b'x' if text.len() > 2 => Ok((byte_of(text[1], text[2])?, &text[3..])),
        _ => Err(KeyError::NotAKey),
    }
}

/// The byte of two hexadecimal digits.
fn byte_of(high: u8, low: u8) -> Result<u8, KeyError>
    ensures ok { IfOk result (λ byte. keys.byte_of high low ≡ Some byte) }
    ensures err { IfErr result (λ e. (e ≡ NotAKey) × (keys.byte_of high low ≡ None)) }
{
    let mut byte = [0];
    match hex::decode_to_slice([high, low], &mut byte) {
        Ok(()) => Ok(byte[0]),
        Err(_) => Err(KeyError::NotAKey),
    }
}
