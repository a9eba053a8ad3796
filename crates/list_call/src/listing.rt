//! `list` and `scan`.

ghost use Rattle.std.specs.Prelude.{◌≡◌, Some, option_map, IfSome};
ghost use Rattle.list_log.specs.Showing.{HasShownCauses};
ghost use Rattle.list_call.specs.Calls as calls;
ghost use Rattle.list_call.specs.Calls.{HasCauses, WritesBy, WritesList, key_asked};

use crate::numbers::number_for;
use crate::sentences::say;
use crate::status::{Answer, LogEnd, Status, ended};
use base_bytes::Bytes;
use base_devices::{ReadAt, Sink};
use list_log::{Settings, Shown, show, summarize};
use list_text::{KeyError, key_of};
use list_words::ListWords;
use log_reader::OpenError;
use std::alloc::Global;

/// Shows the log's records, or counts.
pub fn list_log<R: ReadAt, K: Sink, E: Sink>(
    alloc: Global,
    words: ListWords<'_>,
    file: &mut R,
    sink: &mut K,
    errors: &mut E,
) -> Answer
    ensures written { IfSome (R.held file.old) (λ bytes. WritesList words.entry bytes (K.taken sink.old)
        (K.taken sink.new) result.status) }
    ensures causes { HasCauses (R.failures file.old) (R.failures file.new) (K.faults sink.old) (K.faults sink.new)
        result.status }
    ensures file { R.only_reads file.old file.new }
{
    let key = match asked_key(alloc, words) {
        Ok(key) => key,
        Err(KeyError::NotAKey) => {
            say(
                errors,
                "the key isn't spelled right: hexadecimal digits, `-` if it is empty, or with --text a text",
            );
            return ended(Status::Words);
        }
        Err(KeyError::NoMemory) => return ended(Status::Memory),
    };
    let number = match number_for(alloc, words.number, file, errors) {
        Ok(number) => number,
        Err(OpenError::Fault { count: _ }) => return ended(Status::Disk),
        Err(OpenError::NoMemory) => return ended(Status::Memory),
    };
    let shown = show_by(alloc, words, slice_of(&key), number, file, sink);
    answer_of(shown, number)
}

/// The key that is asked for, if one is.
fn asked_key(alloc: Global, words: ListWords<'_>) -> Result<Option<Bytes>, KeyError>
    ensures { calls.IsKey words.entry result }
{
    match words.key {
        None => Ok(None),
        Some(word) => match key_of(alloc, words.form, word) {
            Ok(key) => Ok(Some(key)),
            Err(error) => Err(error),
        },
    }
}

/// The bytes of a key, if there is one.
fn slice_of(key: &Option<Bytes>) -> Option<&[u8]>
    ensures { option_map (λ k. k.now) result ≡ key.now }
{
    match key {
        Some(key) => Some(key.as_slice()),
        None => None,
    }
}

/// Shows the records of a log that is read with this number or with none, or counts.
fn show_by<R: ReadAt, K: Sink>(
    alloc: Global,
    words: ListWords<'_>,
    key: Option<&[u8]>,
    number: Option<u32>,
    file: &mut R,
    sink: &mut K,
) -> Shown
    ensures written { key_asked words.entry ≡ Some (option_map (λ k. k.now) key.entry) → IfSome (R.held file.old)
        (λ bytes. WritesBy words.entry number bytes (K.taken sink.old) (K.taken sink.new) result) }
    ensures causes { HasShownCauses (R.failures file.old) (R.failures file.new) (K.faults sink.old) (K.faults sink.new)
        result }
    ensures file { R.only_reads file.old file.new }
{
    let settings = Settings {
        form: words.form,
        from: words.from,
        to: words.to,
        key,
        scan: words.scan,
    };
    if words.summary {
        summarize(alloc, settings, number, file, sink)
    } else {
        show(alloc, settings, number, file, sink)
    }
}

/// The answer, by how showing a log ended.
fn answer_of(shown: Shown, number: Option<u32>) -> Answer
    ensures { result.status ≡ calls.status_of shown }
{
    match shown {
        Shown::All { at, why } => Answer {
            status: Status::Done,
            end: Some(LogEnd { number, at, why }),
        },
        Shown::Fault { count: _ } => ended(Status::Disk),
        Shown::SinkFailed => ended(Status::Sink),
        Shown::NoMemory => ended(Status::Memory),
    }
}
