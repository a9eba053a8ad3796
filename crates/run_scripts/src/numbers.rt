//! The numbers of a script.

ghost use Rattle.std.specs.Prelude.{◌≡◌, ◌^◌, Some, None, nat_lt, if◌then◌else◌};
ghost use Rattle.model_base.specs.Script as model;

use itoa::Buffer;

/// The number whose decimal digits these are, without a sign or a leading zero.
pub fn number_of(word: &[u8]) -> Option<u64>
    ensures { result ≡ model.number_of word.now }
{
    let value = value_of_digits(word)?;
    let mut buffer = Buffer::new();
    (buffer.format(value).as_bytes() == word).then_some(value)
}

/// The number of a family, which is below `2^32`.
pub fn family_number(word: &[u8]) -> Option<u32>
    ensures { result ≡ model.family_number word.now }
{
    let number = number_of(word)?;
    u32::try_from(number).ok()
}

/// The value of digits, if it is below `2^64`. A byte that isn't a digit is read as some value too: only printing the
/// value again, as `number_of` does, shows that it isn't one.
pub fn value_of_digits(word: &[u8]) -> Option<u64>
    ensures { result ≡ (if nat_lt (model.value_of_digits word.now) (2 ^ 64)
        then Some (model.value_of_digits word.now) else None) }
{
    let mut value: u64 = 0;
    for byte in word {
        let digit = u64::from(byte.saturating_sub(b'0'));
        value = value.checked_mul(10)?.checked_add(digit)?;
    }
    Some(value)
}
