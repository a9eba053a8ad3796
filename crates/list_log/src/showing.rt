//! The whole of what is shown of a log.

ghost use Rattle.std.specs.Prelude.{◌≡◌, IfSome};
ghost use Rattle.list_log.specs.Showing as showing;
ghost use Rattle.list_log.specs.Showing.{AnswersShowing, HasShownCauses};

use crate::listing::{Listed, Listing};
use crate::settings::Settings;
use base_devices::{ReadAt, Sink};
use model_base::EndReason;
use std::alloc::Global;

/// How showing a log ended.
#[derive(Clone, Copy)]
pub enum Shown {
    /// All of it was shown: where and why reading ended.
    All { at: u64, why: EndReason },
    /// The disk failed, and this is its count of faults.
    Fault { count: u64 },
    SinkFailed,
    NoMemory,
}

/// Shows the log that a disk holds, read with this number or with none, record by record.
///
/// That it is record by record is said by the clause `shown` of `Listing::next`. What was written when it ends for
/// another reason than the log's end is whole lines of the first records; only a sink that fails may have a part of a
/// line.
pub fn show<R: ReadAt, K: Sink>(
    alloc: Global,
    settings: Settings<'_>,
    number: Option<u32>,
    disk: &mut R,
    sink: &mut K,
) -> Shown
    // It is said of any bytes: they needn't be a log that a program wrote.
    ensures shown { IfSome (R.held disk.old) (λ file.
        AnswersShowing settings.entry number file (K.taken sink.old) (K.taken sink.new) result) }
    // So no fault is swallowed.
    ensures causes { HasShownCauses (R.failures disk.old) (R.failures disk.new) (K.faults sink.old) (K.faults sink.new)
        result }
    ensures disk { R.only_reads disk.old disk.new }
{
    let Ok(mut listing) = Listing::new(alloc, settings, number) else {
        return Shown::NoMemory;
    };
    if let Some(shown) = ended(listing.begin(sink)) {
        return shown;
    }
    // What was written is the first line, and the text of what is found before the listing's place.
    loop {
        if let Some(shown) = ended(listing.next(alloc, disk, sink)) {
            return shown;
        }
    }
}

/// How a listing ended with this step, if it did.
fn ended(step: Listed) -> Option<Shown>
    ensures { result ≡ showing.ended step }
{
    match step {
        Listed::More => None,
        Listed::End { at, why } => Some(Shown::All { at, why }),
        Listed::Fault { count } => Some(Shown::Fault { count }),
        Listed::SinkFailed => Some(Shown::SinkFailed),
        Listed::NoMemory => Some(Shown::NoMemory),
    }
}
