//! The lines that name families.

ghost use Rattle.std.specs.Prelude.{◌≡◌, ℕ, ◌+◌, ◌<◌, ◌≤◌, ◌++◌, ◌^◌, ◌==◌, length, drop, decimal, option_map, IfOk, IfSome, option_copied};
ghost use Rattle.std.specs.List.{AllByRecursion, slice_split};
ghost use Rattle.model_base.specs.Batch.{value, deletion, single_deletion};
ghost use Rattle.model_base.specs.Map.{key_at, named};
ghost use Rattle.model_base.specs.Calls as calls;
ghost use Rattle.model_base.specs.Script as model;
ghost use Rattle.run_scripts.specs.Languages.{more_forms};
ghost use Rattle.run_scripts.specs.Scripts.{IsShort};
ghost use Rattle.run_scripts.specs.ScriptWords.{parts_of, len_behind};
ghost use Rattle.run_scripts.specs.ScriptLines.{line_said, said_len, MayBeSaid, Reads, family_keys, family_first, key_first, behind_word};

use crate::language::Language;
use crate::lines::{
    Line, LineError, read_delete, read_get, read_of_log, read_put, read_scan, read_single_delete,
};
use crate::numbers::family_number;
use crate::words::{is_word, split_once};
use log_batch::named;
use run_command_list::KeyList;
use std::alloc::Global;

/// Reads a line that names a family, or one that reads the log, or one that not every language has.
pub fn read_in_family<'a>(
    alloc: Global,
    language: Language,
    word: &[u8],
    rest: Option<&'a [u8]>,
) -> Result<Line<'a>, LineError>
    ensures line { let words = parts_of 32 (option_copied rest.entry) in
        let forms = model.family_forms ++ (model.update_forms ++ more_forms language) in
        Reads line_said (model.by_form forms word.now words) result }
    ensures len { IfOk result (λ l. said_len l ≤ length word.now + len_behind (option_copied rest.entry) + 1) }
    ensures command { IfOk result (MayBeSaid language) }
{
    if word == b"fput".as_slice() {
        return read_put_in(rest);
    }
    if word == b"fdel".as_slice() {
        return read_delete_in(rest);
    }
    if word == b"fsdel".as_slice() {
        return read_single_delete_in(rest);
    }
    read_from_family(alloc, language, word, rest)
}

/// Reads a line that reads in families, or one that reads the log, or one that not every language has.
fn read_from_family<'a>(
    alloc: Global,
    language: Language,
    word: &[u8],
    rest: Option<&'a [u8]>,
) -> Result<Line<'a>, LineError>
    ensures line { let words = parts_of 32 (option_copied rest.entry) in
        let forms = drop 3 model.family_forms ++ (model.update_forms ++ more_forms language) in
        Reads line_said (model.by_form forms word.now words) result }
    ensures len { IfOk result (λ l. said_len l ≡ 0) }
    ensures command { IfOk result (MayBeSaid language) }
{
    if word == b"fget".as_slice() {
        return read_get_in(rest);
    }
    if word == b"fmany".as_slice() {
        return read_many_in(alloc, rest);
    }
    if word == b"fscan".as_slice() {
        return read_scan_in(rest);
    }
    read_of_log(language, word, rest)
}

/// Reads what comes after `fput`.
fn read_put_in(rest: Option<&[u8]>) -> Result<Line<'_>, LineError>
    ensures line { let words = parts_of 32 (option_copied rest.entry) in
        let put = λ (f : ℕ). model.two_words (λ k v. model.command (calls.add (value (named f) k v))) in
        Reads line_said (behind_word (model.in_family put) words) result }
    ensures len { IfOk result (λ l. said_len l ≤ len_behind (option_copied rest.entry) + 5) }
    ensures command { (language : Language) → IfOk result (MayBeSaid language) }
{
    let (family, rest) = take_family(rest).ok_or(LineError::FORM)?;
    read_put(named(family), rest)
}

/// Reads what comes after `fdel`.
fn read_delete_in(rest: Option<&[u8]>) -> Result<Line<'_>, LineError>
    ensures line { let words = parts_of 32 (option_copied rest.entry) in
        let delete = λ (f : ℕ). model.one_word (λ k. model.command (calls.add (deletion (named f) k))) in
        Reads line_said (behind_word (model.in_family delete) words) result }
    ensures len { IfOk result (λ l. said_len l ≤ len_behind (option_copied rest.entry) + 5) }
    ensures command { (language : Language) → IfOk result (MayBeSaid language) }
{
    let (family, rest) = take_family(rest).ok_or(LineError::FORM)?;
    read_delete(named(family), rest)
}

/// Reads what comes after `fsdel`.
fn read_single_delete_in(rest: Option<&[u8]>) -> Result<Line<'_>, LineError>
    ensures line { let words = parts_of 32 (option_copied rest.entry) in
        let single_delete = λ (f : ℕ). model.one_word (λ k. model.command (calls.add (single_deletion (named f) k))) in
        Reads line_said (behind_word (model.in_family single_delete) words) result }
    ensures len { IfOk result (λ l. said_len l ≤ len_behind (option_copied rest.entry) + 6) }
    ensures command { (language : Language) → IfOk result (MayBeSaid language) }
{
    let (family, rest) = take_family(rest).ok_or(LineError::FORM)?;
    read_single_delete(named(family), rest)
}

/// Reads what comes after `fget`.
fn read_get_in(rest: Option<&[u8]>) -> Result<Line<'_>, LineError>
    ensures line { let words = parts_of 32 (option_copied rest.entry) in
        let get = λ (f : ℕ). model.one_word (λ k. model.command (calls.get (key_at f k))) in
        Reads line_said (behind_word (model.in_family get) words) result }
    ensures len { IfOk result (λ l. said_len l ≡ 0) }
    ensures command { (language : Language) → IfOk result (MayBeSaid language) }
{
    let (family, rest) = take_family(rest).ok_or(LineError::FORM)?;
    read_get(family, rest)
}

/// Reads what comes after `fscan`.
fn read_scan_in(rest: Option<&[u8]>) -> Result<Line<'_>, LineError>
    ensures line { let words = parts_of 32 (option_copied rest.entry) in
        let scan = λ (f : ℕ). model.two_words (λ lo hi. model.command (calls.scan f lo hi)) in
        Reads line_said (behind_word (model.in_family scan) words) result }
    ensures len { IfOk result (λ l. said_len l ≡ 0) }
    ensures command { (language : Language) → IfOk result (MayBeSaid language) }
{
    let (family, rest) = take_family(rest).ok_or(LineError::FORM)?;
    read_scan(family, rest)
}

/// Reads what comes after `fmany`.
fn read_many_in(alloc: Global, rest: Option<&[u8]>) -> Result<Line<'_>, LineError>
    ensures line { let words = parts_of 32 (option_copied rest.entry) in
        let many = model.some_keys (λ keys. model.command (calls.many keys)) in
        Reads line_said (behind_word many words) result }
    ensures len { IfOk result (λ l. said_len l ≡ 0) }
    ensures command { (language : Language) → IfOk result (MayBeSaid language) }
{
    if rest.is_none() {
        return Err(LineError::FORM);
    }
    let keys = read_family_keys(alloc, rest)?;
    Ok(Line::Many(keys))
}

/// Reads all words that are left of a line, as keys, each after its family's number.
fn read_family_keys(alloc: Global, rest: Option<&[u8]>) -> Result<KeyList, LineError>
    ensures keys { Reads (λ k. k) (family_keys (parts_of 32 (option_copied rest.entry))) result }
    ensures short { IfOk result (AllByRecursion (λ k. IsShort k.bytes)) }
{
    let mut keys = KeyList::new(alloc);
    let mut left = rest;
    while let Some(text) = left {
        let (family, key, behind) = take_key(text).ok_or(LineError::FORM)?;
        keys.push(family, key)?;
        left = behind;
    }
    Ok(keys)
}

/// The number of the family and the key that come first in a text, and what is left of it after them.
fn take_key(text: &[u8]) -> Option<(u32, &[u8], Option<&[u8]>)>
    ensures key { option_map (λ p. (key_at p.0 p.1.now, parts_of 32 (option_copied p.2))) result
        ≡ key_first (slice_split (λ b. b == 32) text.now) }
    ensures len { IfSome result (λ p. len_behind (option_copied p.2) + length p.1.now < length text.now) }
    ensures short { IfSome result (λ p. IsShort p.1.now) }
{
    let (family, behind) = take_family(Some(text))?;
    let (key, behind) = split_once(behind?, b' ');
    is_word(key).then_some((family, key, behind))
}

/// The number of the family that comes first in what is left of a line, and what is left after it.
fn take_family(rest: Option<&[u8]>) -> Option<(u32, Option<&[u8]>)>
    ensures family { option_map (λ p. (p.0, parts_of 32 (option_copied p.1))) result
        ≡ family_first (parts_of 32 (option_copied rest.entry)) }
    ensures len { IfSome result
        (λ p. length (decimal p.0) + len_behind (option_copied p.1) + 1 ≡ len_behind (option_copied rest.entry)) }
    ensures small { IfSome result (λ p. p.0 < 2 ^ 32) }
{
    let (word, behind) = split_once(rest?, b' ');
    if !is_word(word) {
        return None;
    }
    let family = family_number(word)?;
    Some((family, behind))
}
