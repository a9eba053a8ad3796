//! One line of a script.

ghost use Rattle.std.specs.Prelude.{◌≡◌, ◌+◌, ◌≤◌, ◌++◌, true, length, map, drop, IfOk, option_copied};
ghost use Rattle.std.specs.List.{AllByRecursion};
ghost use Rattle.model_base.specs.Batch.{value, deletion, single_deletion, log_data};
ghost use Rattle.model_base.specs.Map.{key_at};
ghost use Rattle.model_base.specs.Calls as calls;
ghost use Rattle.model_base.specs.Script as model;
ghost use Rattle.run_scripts.specs.Languages.{grammar_of, more_forms, has_tokens, IsCommandOf};
ghost use Rattle.run_scripts.specs.Scripts.{IsShort, NamesSmall, family_len, line_len};
ghost use Rattle.run_command_list.specs.Views.{command_of};
ghost use Rattle.run_scripts.specs.ScriptWords.{parts_of, len_behind, alone};
ghost use Rattle.run_scripts.specs.ScriptLines.{line_said, said_len, MayBeSaid, Reads, default_keys, number_alone, behind_word, error_at};

use crate::family_lines::read_in_family;
use crate::language::Language;
use crate::numbers::number_of;
use crate::script::ScriptError;
use crate::words::{is_word, one_word, split_once, two_words};
use model_base::{NoMemory, ScriptFault, WriteOptions};
use run_command_list::{CommandView, KeyList};
use std::alloc::{AllocFailed, Global};

/// What a line says, unless it is passed over.
#[derive(Drop)]
pub enum Line<'a> {
    /// The section of the client with this number begins.
    Section(u64),
    /// A command of the client whose section it is. Its words are parts of the line.
    Command(CommandView<'a>),
    /// A read of several keys, which are gathered in a list of their own.
    Many(KeyList),
}

/// Why a line is not read.
#[derive(Clone, Copy)]
pub enum LineError {
    Fault(ScriptFault),
    NoMemory,
}

impl LineError {
    /// A command with other words after it than it takes.
    pub const FORM: LineError = LineError::Fault(ScriptFault::Form);

    /// The script's error, where this is the error of its line with this number.
    pub fn at_line(self, line: u64) -> ScriptError
        ensures { result ≡ error_at line self }
    {
        match self {
            LineError::Fault(kind) => ScriptError::Fault { line, kind },
            LineError::NoMemory => ScriptError::NoMemory,
        }
    }
}

impl From<NoMemory> for LineError {
    ghost use Rattle.run_scripts.specs.declared.lines.LineError.TheVariants as variant;

    ghost from_gives = { λ _ e. e ≡ variant.NoMemory };

    fn from(_: NoMemory) -> Self {
        LineError::NoMemory
    }
}

impl<T: Drop> From<AllocFailed<T>> for LineError {
    ghost use Rattle.run_scripts.specs.declared.lines.LineError.TheVariants as variant;

    ghost from_gives = { λ _ e. e ≡ variant.NoMemory };

    fn from(_: AllocFailed<T>) -> Self {
        LineError::NoMemory
    }
}

/// Whether a line is empty or a comment, so that nothing is read from it.
pub fn is_passed_over(line: &[u8]) -> bool
    ensures { result ≡ model.is_passed_over line.now }
{
    matches!(line, [] | [b'#', ..])
}

/// Reads a line that is not passed over.
pub fn read_line(alloc: Global, language: Language, line: &[u8]) -> Result<Line<'_>, LineError>
    ensures line { Reads line_said (model.line_of (grammar_of language).forms line.now) result }
    ensures len { IfOk result (λ l. said_len l ≤ length line.now + 1) }
    ensures command { IfOk result (MayBeSaid language) }
{
    if !are_plain(line) {
        return Err(LineError::Fault(ScriptFault::Byte));
    }
    let (word, rest) = split_once(line, b' ');
    read_words(alloc, language, word, rest)
}

/// Reads a line, given its first word and what comes after it.
fn read_words<'a>(
    alloc: Global,
    language: Language,
    word: &[u8],
    rest: Option<&'a [u8]>,
) -> Result<Line<'a>, LineError>
    ensures line { let words = parts_of 32 (option_copied rest.entry) in
        Reads line_said (model.by_form (grammar_of language).forms word.now words) result }
    ensures len { IfOk result (λ l. said_len l ≤ length word.now + len_behind (option_copied rest.entry) + 1) }
    ensures command { IfOk result (MayBeSaid language) }
{
    if word == b"client".as_slice() {
        return read_section(rest);
    }
    if word == b"put".as_slice() {
        return read_put(None, rest);
    }
    if word == b"del".as_slice() {
        return read_delete(None, rest);
    }
    if word == b"sdel".as_slice() {
        return read_single_delete(None, rest);
    }
    read_second(alloc, language, word, rest)
}

/// Reads a line with any other first word than those that `read_words` knows.
fn read_second<'a>(
    alloc: Global,
    language: Language,
    word: &[u8],
    rest: Option<&'a [u8]>,
) -> Result<Line<'a>, LineError>
    ensures line { let words = parts_of 32 (option_copied rest.entry) in
        Reads line_said (model.by_form (drop 4 (grammar_of language).forms) word.now words) result }
    ensures len { IfOk result (λ l. said_len l ≤ length word.now + len_behind (option_copied rest.entry) + 1) }
    ensures command { IfOk result (MayBeSaid language) }
{
    if word == b"note".as_slice() {
        return read_note(rest);
    }
    if word == b"clear".as_slice() {
        return read_alone(CommandView::Clear, rest);
    }
    if word == b"commit".as_slice() {
        return read_commit(rest);
    }
    if word == b"get".as_slice() {
        return read_get(0, rest);
    }
    read_other(alloc, language, word, rest)
}

/// Reads a line that reads several keys, or one that names a family, or one that reads the log, or one that not every
/// language has.
fn read_other<'a>(
    alloc: Global,
    language: Language,
    word: &[u8],
    rest: Option<&'a [u8]>,
) -> Result<Line<'a>, LineError>
    ensures line { let words = parts_of 32 (option_copied rest.entry) in
        let forms = (model.read_forms ++ (model.family_forms ++ model.update_forms)) ++ more_forms language in
        Reads line_said (model.by_form forms word.now words) result }
    ensures len { IfOk result (λ l. said_len l ≤ length word.now + len_behind (option_copied rest.entry) + 1) }
    ensures command { IfOk result (MayBeSaid language) }
{
    if word == b"many".as_slice() {
        return read_many(alloc, rest);
    }
    if word == b"scan".as_slice() {
        return read_scan(0, rest);
    }
    read_in_family(alloc, language, word, rest)
}

/// Reads a line that reads the log, or one that not every language has.
pub fn read_of_log<'a>(
    language: Language,
    word: &[u8],
    rest: Option<&'a [u8]>,
) -> Result<Line<'a>, LineError>
    ensures line { let words = parts_of 32 (option_copied rest.entry) in
        Reads line_said (model.by_form (model.update_forms ++ more_forms language) word.now words) result }
    ensures len { IfOk result (λ l. said_len l ≡ 0) }
    ensures command { IfOk result (MayBeSaid language) }
{
    if word == b"updates".as_slice() {
        return read_updates(rest);
    }
    read_more(language, word, rest)
}

/// Reads a line with any other first word than those that every language has.
fn read_more<'a>(
    language: Language,
    word: &[u8],
    rest: Option<&'a [u8]>,
) -> Result<Line<'a>, LineError>
    ensures line { let words = parts_of 32 (option_copied rest.entry) in
        Reads line_said (model.by_form (more_forms language) word.now words) result }
    ensures len { IfOk result (λ l. said_len l ≡ 0) }
    ensures command { IfOk result (MayBeSaid language) }
{
    if language.has_tokens() {
        return read_token(word, rest);
    }
    Err(LineError::Fault(ScriptFault::Word))
}

/// Reads a line of the write controller's tokens.
fn read_token<'a>(word: &[u8], rest: Option<&'a [u8]>) -> Result<Line<'a>, LineError>
    ensures line { let words = parts_of 32 (option_copied rest.entry) in
        Reads line_said (model.by_form model.token_forms word.now words) result }
    ensures len { IfOk result (λ l. said_len l ≡ 0) }
    ensures command { (language : Language) → has_tokens language ≡ true → IfOk result (MayBeSaid language) }
{
    if word == b"stop".as_slice() {
        return read_alone(CommandView::Stop, rest);
    }
    if word == b"unstop".as_slice() {
        return read_alone(CommandView::Unstop, rest);
    }
    if word == b"slow".as_slice() {
        return read_slow(rest);
    }
    if word == b"unslow".as_slice() {
        return read_alone(CommandView::Unslow, rest);
    }
    Err(LineError::Fault(ScriptFault::Word))
}

/// Whether these bytes are only spaces and printing characters.
pub fn are_plain(line: &[u8]) -> bool
    ensures { result ≡ model.are_plain line.now }
{
    line.iter().all(|byte| (b' '..=b'~').contains(byte))
}

/// Reads what comes after `client`.
fn read_section(rest: Option<&[u8]>) -> Result<Line<'_>, LineError>
    ensures line { let words = parts_of 32 (option_copied rest.entry) in
        Reads line_said (behind_word (model.one_number model.section) words) result }
    ensures len { IfOk result (λ l. said_len l ≡ 0) }
    ensures command { (language : Language) → IfOk result (MayBeSaid language) }
{
    let number = read_number(rest)?;
    Ok(Line::Section(number))
}

/// Reads what comes after `put`, or after the family of `fput`.
pub fn read_put(family: Option<u32>, rest: Option<&[u8]>) -> Result<Line<'_>, LineError>
    ensures line { let words = parts_of 32 (option_copied rest.entry) in
        let put = model.two_words (λ k v. model.command (calls.add (value family k v))) in
        Reads line_said (behind_word put words) result }
    ensures len { IfOk result (λ l. said_len l ≡ len_behind (option_copied rest.entry) + family_len family + 4) }
    ensures command { (language : Language) → NamesSmall family → IfOk result (MayBeSaid language) }
{
    let (key, value) = two_words(rest).ok_or(LineError::FORM)?;
    Ok(Line::Command(CommandView::Put { family, key, value }))
}

/// Reads what comes after `del`, or after the family of `fdel`.
pub fn read_delete(family: Option<u32>, rest: Option<&[u8]>) -> Result<Line<'_>, LineError>
    ensures line { let words = parts_of 32 (option_copied rest.entry) in
        let delete = model.one_word (λ k. model.command (calls.add (deletion family k))) in
        Reads line_said (behind_word delete words) result }
    ensures len { IfOk result (λ l. said_len l ≡ len_behind (option_copied rest.entry) + family_len family + 4) }
    ensures command { (language : Language) → NamesSmall family → IfOk result (MayBeSaid language) }
{
    let key = read_word(rest)?;
    Ok(Line::Command(CommandView::Delete { family, key }))
}

/// Reads what comes after `sdel`, or after the family of `fsdel`.
pub fn read_single_delete(family: Option<u32>, rest: Option<&[u8]>) -> Result<Line<'_>, LineError>
    ensures line { let words = parts_of 32 (option_copied rest.entry) in
        let single_delete = model.one_word (λ k. model.command (calls.add (single_deletion family k))) in
        Reads line_said (behind_word single_delete words) result }
    ensures len { IfOk result (λ l. said_len l ≡ len_behind (option_copied rest.entry) + family_len family + 5) }
    ensures command { (language : Language) → NamesSmall family → IfOk result (MayBeSaid language) }
{
    let key = read_word(rest)?;
    Ok(Line::Command(CommandView::SingleDelete { family, key }))
}

/// Reads what comes after `note`.
fn read_note(rest: Option<&[u8]>) -> Result<Line<'_>, LineError>
    ensures line { let words = parts_of 32 (option_copied rest.entry) in
        let note = model.one_word (λ t. model.command (calls.add (log_data t))) in
        Reads line_said (behind_word note words) result }
    ensures len { IfOk result (λ l. said_len l ≡ len_behind (option_copied rest.entry) + 5) }
    ensures command { (language : Language) → IfOk result (MayBeSaid language) }
{
    let text = read_word(rest)?;
    Ok(Line::Command(CommandView::Note { text }))
}

/// Reads what comes after the word of a command that has no other word.
fn read_alone<'a>(said: CommandView<'a>, rest: Option<&[u8]>) -> Result<Line<'a>, LineError>
    ensures line { let words = parts_of 32 (option_copied rest.entry) in
        Reads line_said (behind_word (model.no_word (model.command (command_of said.entry))) words) result }
    ensures len { IfOk result (λ l. said_len l ≡ line_len (command_of said.entry)) }
    ensures command { (language : Language) → IsCommandOf language (command_of said.entry)
        → IfOk result (MayBeSaid language) }
{
    if rest.is_some() {
        return Err(LineError::FORM);
    }
    Ok(Line::Command(said))
}

/// Reads what comes after `commit`.
fn read_commit(rest: Option<&[u8]>) -> Result<Line<'_>, LineError>
    ensures line { let words = parts_of 32 (option_copied rest.entry) in
        Reads line_said (behind_word model.commit_flags words) result }
    ensures len { IfOk result (λ l. said_len l ≡ 0) }
    ensures command { (language : Language) → IfOk result (MayBeSaid language) }
{
    let (sync, rest) = take_flag(rest, b"sync");
    let (no_log, rest) = take_flag(rest, b"nolog");
    let (no_slowdown, rest) = take_flag(rest, b"noslow");
    if rest.is_some() {
        return Err(LineError::FORM);
    }
    let options = WriteOptions {
        sync,
        no_log,
        no_slowdown,
    };
    Ok(Line::Command(CommandView::Commit { options }))
}

/// Reads what comes after `get`, or after the family of `fget`.
pub fn read_get(family: u32, rest: Option<&[u8]>) -> Result<Line<'_>, LineError>
    ensures line { let words = parts_of 32 (option_copied rest.entry) in
        let get = model.one_word (λ k. model.command (calls.get (key_at family k))) in
        Reads line_said (behind_word get words) result }
    ensures len { IfOk result (λ l. said_len l ≡ 0) }
    ensures command { (language : Language) → IfOk result (MayBeSaid language) }
{
    let key = read_word(rest)?;
    Ok(Line::Command(CommandView::Get { family, key }))
}

/// Reads what comes after `many`.
fn read_many(alloc: Global, rest: Option<&[u8]>) -> Result<Line<'_>, LineError>
    ensures line { let words = parts_of 32 (option_copied rest.entry) in
        let many = model.some_words (λ keys. model.command (calls.many (map (key_at 0) keys))) in
        Reads line_said (behind_word many words) result }
    ensures len { IfOk result (λ l. said_len l ≡ 0) }
    ensures command { (language : Language) → IfOk result (MayBeSaid language) }
{
    if rest.is_none() {
        return Err(LineError::FORM);
    }
    let keys = read_default_keys(alloc, rest)?;
    Ok(Line::Many(keys))
}

/// Reads what comes after `scan`, or after the family of `fscan`.
pub fn read_scan(family: u32, rest: Option<&[u8]>) -> Result<Line<'_>, LineError>
    ensures line { let words = parts_of 32 (option_copied rest.entry) in
        let scan = model.two_words (λ lo hi. model.command (calls.scan family lo hi)) in
        Reads line_said (behind_word scan words) result }
    ensures len { IfOk result (λ l. said_len l ≡ 0) }
    ensures command { (language : Language) → IfOk result (MayBeSaid language) }
{
    let (lo, hi) = two_words(rest).ok_or(LineError::FORM)?;
    Ok(Line::Command(CommandView::Scan { family, lo, hi }))
}

/// Reads what comes after `slow`.
fn read_slow(rest: Option<&[u8]>) -> Result<Line<'_>, LineError>
    ensures line { let words = parts_of 32 (option_copied rest.entry) in
        let slow = model.one_number (λ rate. model.command (calls.slow rate)) in
        Reads line_said (behind_word slow words) result }
    ensures len { IfOk result (λ l. said_len l ≡ 0) }
    ensures command { (language : Language) → has_tokens language ≡ true → IfOk result (MayBeSaid language) }
{
    let rate = read_number(rest)?;
    Ok(Line::Command(CommandView::Slow { rate }))
}

/// Reads what comes after `updates`.
fn read_updates(rest: Option<&[u8]>) -> Result<Line<'_>, LineError>
    ensures line { let words = parts_of 32 (option_copied rest.entry) in
        let updates = model.one_number (λ since. model.command (calls.updates since)) in
        Reads line_said (behind_word updates words) result }
    ensures len { IfOk result (λ l. said_len l ≡ 0) }
    ensures command { (language : Language) → IfOk result (MayBeSaid language) }
{
    let since = read_number(rest)?;
    Ok(Line::Command(CommandView::Updates { since }))
}

/// Whether a flag comes first in what is left of a line, and what is left without the flag.
fn take_flag<'a>(rest: Option<&'a [u8]>, flag: &[u8]) -> (bool, Option<&'a [u8]>)
    ensures flag { result.0 ≡ model.is_first flag.now (parts_of 32 (option_copied rest.entry)) }
    ensures behind { parts_of 32 (option_copied result.1)
        ≡ model.behind_first result.0 (parts_of 32 (option_copied rest.entry)) }
{
    let Some(text) = rest else {
        return (false, None);
    };
    let (word, behind) = split_once(text, b' ');
    if word == flag {
        (true, behind)
    } else {
        (false, rest)
    }
}

/// Reads the one word that comes after a command's own word.
fn read_word(rest: Option<&[u8]>) -> Result<&[u8], LineError>
    ensures word { Reads (λ w. w.now) (model.or_form (alone (parts_of 32 (option_copied rest.entry)))) result }
    ensures len { IfOk result (λ w. length w.now + 1 ≡ len_behind (option_copied rest.entry)) }
    ensures short { IfOk result (λ w. IsShort w.now) }
{
    one_word(rest).ok_or(LineError::FORM)
}

/// Reads all words that are left of a line, as keys of the default family.
fn read_default_keys(alloc: Global, rest: Option<&[u8]>) -> Result<KeyList, LineError>
    ensures keys { Reads (λ k. k) (default_keys (parts_of 32 (option_copied rest.entry))) result }
    ensures short { IfOk result (AllByRecursion (λ k. IsShort k.bytes)) }
{
    let mut keys = KeyList::new(alloc);
    let mut left = rest;
    while let Some(text) = left {
        let (word, behind) = split_once(text, b' ');
        if !is_word(word) {
            return Err(LineError::FORM);
        }
        keys.push(0, word)?;
        left = behind;
    }
    Ok(keys)
}

/// Reads the one number that comes after a command's word.
fn read_number(rest: Option<&[u8]>) -> Result<u64, LineError>
    ensures { Reads (λ n. n) (number_alone (parts_of 32 (option_copied rest.entry))) result }
{
    let word = one_word(rest).ok_or(LineError::FORM)?;
    number_of(word).ok_or(LineError::FORM)
}
