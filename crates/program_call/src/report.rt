//! What a call prints, and the status that it ends with.

ghost use Rattle.std.specs.Prelude.{◌≡◌, ◌≤◌, ℕ, true, false, [], ◌∷◌, ◌++◌, decimal};
ghost use Rattle.base_devices.specs.Faults.{HasCause};
ghost use Rattle.base_devices.specs.Streams.{WritesAll};
ghost use Rattle.model_base.specs.Calls as calls;
ghost use Rattle.model_base.specs.History.{IsHistory};
ghost use Rattle.run_outcome.specs.Shows.{ShowsOutcome};
ghost use Rattle.program_printing.specs.Printing.{Prints};
ghost use Rattle.program_call.specs.Texts.{SaysTo};
ghost use Rattle.program_call.specs.Reports as reports;
ghost use Rattle.program_call.specs.Reports.{TellsReadError, TellsEnd, TellsOutcome, TellsFound, TellsRecoverError, TellsReplay, IsTextOf, IsTextOfLogs, damage_of, print_status, ran_status, refusal_status};

use crate::reading::ReadError;
use base_devices::{Failed, Sink, write_all};
use base_maps::FamilyMap;
use itoa::Buffer;
use log_recovery::{RecoverError, Recovered, RecoveredMany};
use model_base::{EndReason, NoMemory};
use program_printing::PrintError;
use program_text::{
    print_damage, print_high_family, print_logs_damage, print_not_empty, print_outcome,
    print_recovered, print_recovered_logs, print_replayed, print_script_fault, print_summary,
};
use replay_schedules::Replayed;
use run_execution::RunEnd;
use run_generator::sum_of;
use run_outcome::Outcome;
use std::alloc::Global;

/// The exit statuses, in the order in which they are numbered.
#[derive(Clone, Copy)]
pub enum Status {
    Done,
    Usage,
    Script,
    Disk,
    Source,
    Sink,
    Memory,
    NotEmpty,
    Damage,
    Family,
}

/// How an outcome is printed: whole, or as a summary.
#[derive(Clone, Copy)]
pub enum Form {
    Whole,
    Summary,
}

/// Prints a refusal. The call's status stays that of the refusal, even if the sink fails at its text.
pub fn refuse<K: Sink>(sink: &mut K, text: &[u8])
    ensures says { SaysTo (K.taken sink.old) (K.taken sink.new) text.now (K.faults sink.old) (K.faults sink.new) }
    ensures later { K.faults sink.old ≤ K.faults sink.new }
{
    let _ = write_all(sink, text);
}

/// The status of a refusal, by how its text was printed. It stays that of the refusal, even if the sink fails there.
fn refused(printed: Result<(), PrintError>, status: Status) -> Status
    ensures { result ≡ refusal_status status printed }
{
    match printed {
        Ok(()) | Err(PrintError::Failed) => status,
        Err(PrintError::NoMemory) => Status::Memory,
    }
}

/// Prints the refusal of a device's fault: these words, how often the device has failed, and a line feed. This takes no
/// memory, so that no fault is answered as no memory.
fn refuse_fault<K: Sink>(sink: &mut K, words: &[u8], count: u64)
    ensures { SaysTo (K.taken sink.old) (K.taken sink.new) (words.now ++ decimal count ++ 10 ∷ [])
        (K.faults sink.old) (K.faults sink.new) }
{
    let _ = write_line(sink, words, count);
}

/// Writes words, a number in decimal, and a line feed.
fn write_line<K: Sink>(sink: &mut K, words: &[u8], number: u64) -> Result<(), Failed>
    ensures bytes { WritesAll (K.taken sink.old) (K.taken sink.new) result (words.now ++ decimal number ++ 10 ∷ []) }
    ensures cause { HasCause (K.faults sink.old) (K.faults sink.new) result }
{
    let mut digits = Buffer::new();
    write_all(sink, words)?;
    write_all(sink, digits.format(number).as_bytes())?;
    write_all(sink, b"\n")
}

/// Says why no script was read.
pub fn tell_read_error<K: Sink>(alloc: Global, sink: &mut K, why: ReadError) -> Status
    ensures { TellsReadError (K.taken sink.old) (K.taken sink.new) (K.faults sink.old) (K.faults sink.new) why result }
{
    match why {
        ReadError::Fault { count } => {
            refuse_fault(sink, b"source fault ", count);
            Status::Source
        }
        ReadError::Script { line, kind } => {
            let printed = print_script_fault(alloc, sink, line, kind);
            refused(printed, Status::Script)
        }
        ReadError::NoMemory => Status::Memory,
    }
}

/// Says how a run ended.
pub fn tell_end<K: Sink>(alloc: Global, sink: &mut K, form: Form, end: &RunEnd) -> Status
    ensures { TellsEnd form (K.taken sink.old) (K.taken sink.new) (K.faults sink.old) (K.faults sink.new) end.now
        result }
{
    match end {
        RunEnd::DiskFault { count } => {
            refuse_fault(sink, b"disk fault ", *count);
            Status::Disk
        }
        RunEnd::NotEmpty { len } => refused(print_not_empty(alloc, sink, *len), Status::NotEmpty),
        RunEnd::Damage { at, why } => {
            refused(print_damage(alloc, sink, *at, *why), Status::Damage)
        }
        RunEnd::Family { family } => {
            refused(print_high_family(alloc, sink, *family), Status::Family)
        }
        RunEnd::NoMemory | RunEnd::NoOutcome => Status::Memory,
        RunEnd::Ran(outcome) => tell_outcome(alloc, sink, form, outcome),
    }
}

/// Prints an outcome in a form.
fn tell_outcome<K: Sink>(
    alloc: Global,
    sink: &mut K,
    form: Form,
    outcome: &Outcome<FamilyMap>,
) -> Status
    ensures { TellsOutcome form (K.taken sink.old) (K.taken sink.new) (K.faults sink.old)
        (K.faults sink.new) outcome.now result }
{
    match print_in(alloc, sink, form, outcome) {
        Ok(()) => status_of(outcome),
        Err(PrintError::Failed) => Status::Sink,
        Err(PrintError::NoMemory) => Status::Memory,
    }
}

/// Prints the text of an outcome in a form.
fn print_in<K: Sink>(
    alloc: Global,
    sink: &mut K,
    form: Form,
    outcome: &Outcome<FamilyMap>,
) -> Result<(), PrintError>
    ensures { (o : calls.Outcome) (start : ℕ) → IsHistory start o.history → ShowsOutcome outcome.now o
        → Prints ⟦<K as Sink>⟧ sink.old sink.new result (reports.text_of form o) }
{
    match form {
        Form::Whole => print_outcome(alloc, sink, outcome),
        Form::Summary => {
            // All values of a generated script are small numbers, so there is a sum.
            let sum = sum_of(&outcome.state).ok_or(NoMemory)?;
            print_summary(alloc, sink, outcome, sum)
        }
    }
}

/// The status of an outcome that was printed.
fn status_of(outcome: &Outcome<FamilyMap>) -> Status
    ensures { result ≡ ran_status outcome.now }
{
    if outcome.fault.is_some() || outcome.has_read_fault() {
        Status::Disk
    } else if outcome.lacks_memory() {
        Status::Memory
    } else {
        Status::Done
    }
}

/// The status of a text that tells a result, by how it was printed.
fn told(printed: Result<(), PrintError>) -> Status
    ensures { result ≡ print_status printed }
{
    match printed {
        Ok(()) => Status::Done,
        Err(PrintError::Failed) => Status::Sink,
        Err(PrintError::NoMemory) => Status::Memory,
    }
}

/// Prints what a log recovers, whole, or says why nothing was recovered.
pub fn tell_recovery<K: Sink>(
    alloc: Global,
    sink: &mut K,
    found: &Result<Recovered, RecoverError>,
) -> Status
    ensures { TellsFound IsTextOf false (K.taken sink.old) (K.taken sink.new) (K.faults sink.old)
        (K.faults sink.new) found.now result }
{
    match found {
        Ok(recovered) => told(print_recovered(alloc, sink, recovered)),
        Err(why) => tell_recover_error(alloc, sink, *why, false),
    }
}

/// Prints what several logs recover, whole, or says why nothing was recovered.
pub fn tell_logs<K: Sink>(
    alloc: Global,
    sink: &mut K,
    found: &Result<RecoveredMany, RecoverError>,
) -> Status
    ensures { TellsFound IsTextOfLogs true (K.taken sink.old) (K.taken sink.new) (K.faults sink.old)
        (K.faults sink.new) found.now result }
{
    match found {
        Ok(recovered) => told(print_recovered_logs(alloc, sink, recovered)),
        Err(why) => tell_recover_error(alloc, sink, *why, true),
    }
}

/// Says why nothing was recovered, of several logs or of one.
fn tell_recover_error<K: Sink>(
    alloc: Global,
    sink: &mut K,
    why: RecoverError,
    several: bool,
) -> Status
    ensures { TellsRecoverError several (K.taken sink.old) (K.taken sink.new) (K.faults sink.old)
        (K.faults sink.new) why result }
{
    match why {
        RecoverError::Fault { count } => {
            refuse_fault(sink, b"disk fault ", count);
            Status::Disk
        }
        RecoverError::NoMemory => Status::Memory,
        RecoverError::Damage { log, at, why } => {
            let printed = print_damage_of(alloc, sink, several, log, at, why);
            refused(printed, Status::Damage)
        }
    }
}

/// Prints the refusal of an end of recovery that isn't accepted, of several logs or of one.
fn print_damage_of<K: Sink>(
    alloc: Global,
    sink: &mut K,
    several: bool,
    log: u64,
    at: u64,
    why: EndReason,
) -> Result<(), PrintError>
    ensures { Prints ⟦<K as Sink>⟧ sink.old sink.new result (damage_of several log at why) }
{
    if several {
        print_logs_damage(alloc, sink, log, at, why)
    } else {
        print_damage(alloc, sink, at, why)
    }
}

/// Prints the whole result of a schedule.
pub fn tell_replay<K: Sink>(
    alloc: Global,
    sink: &mut K,
    replayed: &Result<Replayed, NoMemory>,
) -> Status
    ensures { TellsReplay (K.taken sink.old) (K.taken sink.new) (K.faults sink.old)
        (K.faults sink.new) replayed.now result }
{
    match replayed {
        Ok(replayed) => told(print_replayed(alloc, sink, replayed)),
        Err(NoMemory) => Status::Memory,
    }
}
