//! What the log recovers.

ghost use Rattle.std.specs.Prelude.{IfSome};
ghost use Rattle.list_call.specs.Calls.{HasCauses, WritesRecovered, WritesState, WritesStateBy};

use crate::numbers::number_for;
use crate::sentences::say;
use crate::state_text::state_text;
use crate::status::{Answer, LogEnd, Status, ended};
use base_devices::{ReadAt, Sink, write_all};
use list_text::Form;
use list_words::StateWords;
use log_reader::OpenError;
use log_recovery::{End, RecoverError, Recovered, recover_mode};
use std::alloc::Global;

/// Shows what `recover` recovers of the log, if the mode accepts its end.
pub fn show_state<R: ReadAt, K: Sink, E: Sink>(
    alloc: Global,
    words: StateWords<'_>,
    file: &mut R,
    sink: &mut K,
    errors: &mut E,
) -> Answer
    ensures written { IfSome (R.held file.old) (λ bytes. WritesState words.entry bytes (K.taken sink.old)
        (K.taken sink.new) result.status) }
    ensures causes { HasCauses (R.failures file.old) (R.failures file.new) (K.faults sink.old) (K.faults sink.new)
        result.status }
    ensures file { R.only_reads file.old file.new }
{
    let number = match number_for(alloc, words.number, file, errors) {
        Ok(number) => number,
        Err(OpenError::Fault { count: _ }) => return ended(Status::Disk),
        Err(OpenError::NoMemory) => return ended(Status::Memory),
    };
    show_state_by(alloc, words, number, file, sink, errors)
}

/// Shows what is recovered of a log that is read with this number or with none.
fn show_state_by<R: ReadAt, K: Sink, E: Sink>(
    alloc: Global,
    words: StateWords<'_>,
    number: Option<u32>,
    file: &mut R,
    sink: &mut K,
    errors: &mut E,
) -> Answer
    ensures written { IfSome (R.held file.old) (λ bytes. WritesStateBy words.entry number bytes (K.taken sink.old)
        (K.taken sink.new) result.status) }
    ensures causes { HasCauses (R.failures file.old) (R.failures file.new) (K.faults sink.old) (K.faults sink.new)
        result.status }
    ensures file { R.only_reads file.old file.new }
{
    match recover_mode(alloc, file, number, words.mode) {
        Ok(recovered) => {
            let End { at, why } = recovered.end;
            Answer {
                status: write_state(alloc, words.form, &recovered, sink),
                end: Some(LogEnd { number, at, why }),
            }
        }
        Err(RecoverError::Fault { count: _ }) => ended(Status::Disk),
        Err(RecoverError::NoMemory) => ended(Status::Memory),
        Err(RecoverError::Damage { log: _, at, why }) => {
            say(errors, "the mode doesn't accept where the log ends");
            Answer {
                status: Status::Damage,
                end: Some(LogEnd { number, at, why }),
            }
        }
    }
}

/// Writes the text of what is recovered, if there was memory to make it.
fn write_state<K: Sink>(alloc: Global, form: Form, recovered: &Recovered, sink: &mut K) -> Status
    ensures { WritesRecovered form recovered.now (K.taken sink.old) (K.taken sink.new) (K.faults sink.old)
        (K.faults sink.new) result }
{
    let Ok(text) = state_text(alloc, form, recovered) else {
        return Status::Memory;
    };
    match write_all(sink, text.as_slice()) {
        Ok(()) => Status::Done,
        Err(_) => Status::Sink,
    }
}
