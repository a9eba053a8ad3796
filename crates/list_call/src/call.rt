//! The call.

ghost use Rattle.std.specs.Prelude.{IfSome};
ghost use Rattle.list_call.specs.Calls.{HasCauses, WritesAsked};

use crate::listing::list_log;
use crate::state::show_state;
use crate::status::Answer;
use base_devices::{ReadAt, Sink};
use list_words::Invocation;
use std::alloc::Global;

/// Shows what the words ask for of the log that a file holds, on a sink. If a number is taken from the log, or the key
/// or the end is refused, a sentence on a second one, `errors`, says so. A fault there changes no status.
pub fn show_log<R: ReadAt, K: Sink, E: Sink>(
    alloc: Global,
    asked: Invocation<'_>,
    file: &mut R,
    sink: &mut K,
    errors: &mut E,
) -> Answer
    // What was written, for each command and status. It is said of any bytes: they needn't be a log that a program
    // wrote.
    ensures written { IfSome (R.held file.old) (λ bytes. WritesAsked asked.entry bytes (K.taken sink.old)
        (K.taken sink.new) result.status) }
    // So no fault is swallowed, and none is answered that didn't come.
    ensures causes { HasCauses (R.failures file.old) (R.failures file.new) (K.faults sink.old) (K.faults sink.new)
        result.status }
    ensures file { R.only_reads file.old file.new }
{
    match asked {
        Invocation::List(words) => list_log(alloc, words, file, sink, errors),
        Invocation::State(words) => show_state(alloc, words, file, sink, errors),
    }
}
