//! The whole of a damaged log, gone through step by step.

ghost use Rattle.std.specs.Prelude.{◌≡◌, IfSome};
ghost use Rattle.log_salvage.specs.Salvaging as salvaging;
ghost use Rattle.log_salvage.specs.Salvaging.{AnswersSalvage, HasSalvageCauses};

use crate::counts::Counts;
use crate::keeping::Range;
use crate::new_log::NewLog;
use crate::salvaging::{Salvaging, Step};
use base_devices::{ReadAt, Sink};
use model_base::EndReason;
use std::alloc::Global;

/// How the salvage of a log ended.
#[derive(Clone, Copy)]
pub enum Salvaged {
    /// All of it was gone through: where and why reading ended.
    All { at: u64, why: EndReason },
    /// The disk failed, and this is its count of faults.
    Fault { count: u64 },
    /// The sink failed. The new log is of no use then.
    SinkFailed,
    /// With the next record the new log would have 2^63 bytes or more.
    TooLong,
    NoMemory,
}

/// Adds each record that is kept of the log that a disk holds, which has this number or none, to a new log, and counts
/// them. So several logs go into one, one after another.
///
/// A record of several fragments that cross the end of a block may be a mixture of two where a block between them is
/// lost. No bytes of the log tell that.
pub fn salvage<R: ReadAt, K: Sink>(
    alloc: Global,
    range: Range,
    number: Option<u32>,
    disk: &mut R,
    new_log: &mut NewLog,
    counts: &mut Counts,
    sink: &mut K,
) -> Salvaged
    // It is said of any bytes: they needn't be a log that a program wrote.
    ensures salvaged { IfSome (R.held disk.old) (λ file.
        AnswersSalvage range (record { number = number; file = file })
        (record { log = new_log.old; counts = counts.old; taken = K.taken sink.old })
        (record { log = new_log.new; counts = counts.new; taken = K.taken sink.new }) result) }
    // So no fault is swallowed.
    ensures causes { HasSalvageCauses (R.failures disk.old) (R.failures disk.new) (K.faults sink.old)
        (K.faults sink.new) result }
    ensures disk { R.only_reads disk.old disk.new }
{
    let Ok(mut salvaging) = Salvaging::new(alloc, range, number) else {
        return Salvaged::NoMemory;
    };
    // The records that are kept of what is found before the scanner's place are in the new log.
    loop {
        let step = salvaging.next(alloc, disk, new_log, sink);
        if let Some(salvaged) = ended(step) {
            return salvaged;
        }
        counts.add(step);
    }
}

/// How a salvage ended with this step, if it did.
fn ended(step: Step) -> Option<Salvaged>
    ensures { result ≡ salvaging.ended step }
{
    match step {
        Step::Record { .. } | Step::Passed => None,
        Step::End { at, why } => Some(Salvaged::All { at, why }),
        Step::Fault { count } => Some(Salvaged::Fault { count }),
        Step::SinkFailed => Some(Salvaged::SinkFailed),
        Step::TooLong => Some(Salvaged::TooLong),
        Step::NoMemory => Some(Salvaged::NoMemory),
    }
}
