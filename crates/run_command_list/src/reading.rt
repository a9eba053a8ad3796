//! Reads the command at the front of some bytes, and what comes after it.

ghost use Rattle.std.specs.Prelude.{◌≡◌, ◌<◌, ◌^◌, ◌++◌, length, option_map, Some, IfSome};
ghost use Rattle.std.specs.Int.{w32, to_le_bytes};
ghost use Rattle.model_base.specs.Batch.{value, deletion, single_deletion};
ghost use Rattle.model_base.specs.Calls.{add, get, scan};
ghost use Rattle.model_base.specs.Map.{key_at};
ghost use Rattle.run_command_list.specs.Layout.{bytes_of_word, bytes_of_key};
ghost use Rattle.run_command_list.specs.Reading.{read_byte, read_fixed32, read_fixed64, read_word, read_key, one_key, key_and_word, some_flags, many_keys, some_rate, some_sequence, read_behind, read_command};
ghost use Rattle.run_command_list.specs.Views.{command_of};

use crate::layout::{
    CLEAR, COMMIT, DELETE, DELETE_IN, GET, MANY, NOTE, PUT, PUT_IN, SCAN, SINGLE_DELETE,
    SINGLE_DELETE_IN, SLOW, STOP, UNSLOW, UNSTOP, UPDATES,
};
use crate::{CommandView, Keys};
use base_bytes::{get_fixed32, get_fixed64};
use model_base::WriteOptions;

fn split_byte(bytes: &[u8]) -> Option<(u8, &[u8])>
    ensures { option_map (λ p. (p.0, p.1.now)) result ≡ read_byte bytes.now }
{
    let (first, rest) = bytes.split_first()?;
    Some((*first, rest))
}

/// The number whose four bytes are at the front, and the bytes after it.
pub fn split_fixed32(bytes: &[u8]) -> Option<(u32, &[u8])>
    ensures read { option_map (λ p. (p.0, p.1.now)) result ≡ read_fixed32 bytes.now }
    ensures spelled { IfSome result (λ p. bytes.now ≡ to_le_bytes w32 p.0 ++ p.1.now) }
{
    if bytes.len() < 4 {
        return None;
    }
    let (_, rest) = bytes.split_at(4);
    Some((get_fixed32(bytes, 0), rest))
}

/// The number whose eight bytes are at the front, and the bytes after it.
fn split_fixed64(bytes: &[u8]) -> Option<(u64, &[u8])>
    ensures { option_map (λ p. (p.0, p.1.now)) result ≡ read_fixed64 bytes.now }
{
    if bytes.len() < 8 {
        return None;
    }
    let (_, rest) = bytes.split_at(8);
    Some((get_fixed64(bytes, 0), rest))
}

/// The word at the front, which has its length before it, and the bytes after the word.
pub fn split_word(bytes: &[u8]) -> Option<(&[u8], &[u8])>
    ensures read { option_map (λ p. (p.0.now, p.1.now)) result ≡ read_word bytes.now }
    ensures spelled { IfSome result (λ p. bytes.now ≡ bytes_of_word p.0.now ++ p.1.now) }
    ensures short { IfSome result (λ p. length p.0.now < 2 ^ 32) }
{
    let (len, behind) = split_fixed32(bytes)?;
    if behind.len() < len as usize {
        return None;
    }
    Some(behind.split_at(len as usize))
}

/// The number of a family and a key of it at the front, and the bytes after them.
pub fn split_key(bytes: &[u8]) -> Option<(u32, &[u8], &[u8])>
    ensures read { option_map (λ p. (key_at p.0 p.1.now, p.2.now)) result ≡ read_key bytes.now }
    ensures spelled { IfSome result (λ p. bytes.now ≡ bytes_of_key (key_at p.0 p.1.now) ++ p.2.now) }
    ensures small { IfSome result (λ p. p.0 < 2 ^ 32) }
    ensures short { IfSome result (λ p. length p.1.now < 2 ^ 32) }
{
    let (family, behind) = split_fixed32(bytes)?;
    let (key, rest) = split_word(behind)?;
    Some((family, key, rest))
}

fn split_put_in(bytes: &[u8]) -> Option<(CommandView<'_>, &[u8])>
    ensures { option_map (λ p. (command_of p.0, p.1.now)) result
        ≡ key_and_word (λ k v. add (value (Some k.family) k.bytes v)) bytes.now }
{
    let (family, key, behind) = split_key(bytes)?;
    let (value, rest) = split_word(behind)?;
    let family = Some(family);
    Some((CommandView::Put { family, key, value }, rest))
}

fn split_delete_in(bytes: &[u8]) -> Option<(CommandView<'_>, &[u8])>
    ensures { option_map (λ p. (command_of p.0, p.1.now)) result
        ≡ one_key (λ k. add (deletion (Some k.family) k.bytes)) bytes.now }
{
    let (family, key, rest) = split_key(bytes)?;
    let family = Some(family);
    Some((CommandView::Delete { family, key }, rest))
}

fn split_single_delete_in(bytes: &[u8]) -> Option<(CommandView<'_>, &[u8])>
    ensures { option_map (λ p. (command_of p.0, p.1.now)) result
        ≡ one_key (λ k. add (single_deletion (Some k.family) k.bytes)) bytes.now }
{
    let (family, key, rest) = split_key(bytes)?;
    let family = Some(family);
    Some((CommandView::SingleDelete { family, key }, rest))
}

fn split_get(bytes: &[u8]) -> Option<(CommandView<'_>, &[u8])>
    ensures { option_map (λ p. (command_of p.0, p.1.now)) result ≡ one_key get bytes.now }
{
    let (family, key, rest) = split_key(bytes)?;
    Some((CommandView::Get { family, key }, rest))
}

fn split_scan(bytes: &[u8]) -> Option<(CommandView<'_>, &[u8])>
    ensures { option_map (λ p. (command_of p.0, p.1.now)) result
        ≡ key_and_word (λ k hi. scan k.family k.bytes hi) bytes.now }
{
    let (family, lo, behind) = split_key(bytes)?;
    let (hi, rest) = split_word(behind)?;
    Some((CommandView::Scan { family, lo, hi }, rest))
}

fn split_flags(bytes: &[u8]) -> Option<(CommandView<'_>, &[u8])>
    ensures { option_map (λ p. (command_of p.0, p.1.now)) result ≡ some_flags bytes.now }
{
    let (flags, rest) = split_byte(bytes)?;
    let options = WriteOptions::of_bits(u64::from(flags));
    Some((CommandView::Commit { options }, rest))
}

fn split_many(bytes: &[u8]) -> Option<(CommandView<'_>, &[u8])>
    ensures { option_map (λ p. (command_of p.0, p.1.now)) result ≡ many_keys bytes.now }
{
    let (count, behind) = split_fixed32(bytes)?;
    let (keys, rest) = Keys::split(behind, count)?;
    Some((CommandView::Many { keys }, rest))
}

fn split_rate(bytes: &[u8]) -> Option<(CommandView<'_>, &[u8])>
    ensures { option_map (λ p. (command_of p.0, p.1.now)) result ≡ some_rate bytes.now }
{
    let (rate, rest) = split_fixed64(bytes)?;
    Some((CommandView::Slow { rate }, rest))
}

fn split_sequence(bytes: &[u8]) -> Option<(CommandView<'_>, &[u8])>
    ensures { option_map (λ p. (command_of p.0, p.1.now)) result ≡ some_sequence bytes.now }
{
    let (since, rest) = split_fixed64(bytes)?;
    Some((CommandView::Updates { since }, rest))
}

/// The command with this tag, from the bytes after the tag, and the bytes after the command.
fn split_behind(tag: u8, bytes: &[u8]) -> Option<(CommandView<'_>, &[u8])>
    ensures { option_map (λ p. (command_of p.0, p.1.now)) result ≡ read_behind tag bytes.now }
{
    match tag {
        PUT => {
            let (key, behind) = split_word(bytes)?;
            let (value, rest) = split_word(behind)?;
            Some((
                CommandView::Put {
                    family: None,
                    key,
                    value,
                },
                rest,
            ))
        }
        DELETE => {
            let (key, rest) = split_word(bytes)?;
            Some((CommandView::Delete { family: None, key }, rest))
        }
        SINGLE_DELETE => {
            let (key, rest) = split_word(bytes)?;
            Some((CommandView::SingleDelete { family: None, key }, rest))
        }
        NOTE => {
            let (text, rest) = split_word(bytes)?;
            Some((CommandView::Note { text }, rest))
        }
        CLEAR => Some((CommandView::Clear, bytes)),
        COMMIT => split_flags(bytes),
        GET => split_get(bytes),
        MANY => split_many(bytes),
        SCAN => split_scan(bytes),
        STOP => Some((CommandView::Stop, bytes)),
        UNSTOP => Some((CommandView::Unstop, bytes)),
        SLOW => split_rate(bytes),
        UNSLOW => Some((CommandView::Unslow, bytes)),
        PUT_IN => split_put_in(bytes),
        DELETE_IN => split_delete_in(bytes),
        SINGLE_DELETE_IN => split_single_delete_in(bytes),
        UPDATES => split_sequence(bytes),
        _ => None,
    }
}

/// The command at the front of the bytes, and the bytes after it.
pub fn split_command(bytes: &[u8]) -> Option<(CommandView<'_>, &[u8])>
    ensures { option_map (λ p. (command_of p.0, p.1.now)) result ≡ read_command bytes.now }
{
    let (tag, rest) = split_byte(bytes)?;
    split_behind(tag, rest)
}
