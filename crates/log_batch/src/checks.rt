//! The checks of a commit that need nothing but its batch.

ghost use Rattle.std.specs.Prelude.{◌≡◌, ℕ, List};
ghost use Rattle.model_base.specs.Batch.{Record};
ghost use Rattle.model_base.specs.History as history;
ghost use Rattle.model_base.specs.Progress.{early_refusal, families_in, first_missing};
ghost use Rattle.log_batch.specs.Measures.{measure_of};

use crate::Records;
use crate::batch::Batch;
use model_base::{Flag, MAX_SIZE, Refusal, WriteOptions};

/// What the checks see of a batch: how many bytes it has, how many of its records count, and the first family that they
/// name and that there isn't, if there is one.
#[derive(Clone, Copy, Debug, PartialEq, Eq)]
pub struct Measure {
    pub size: u64,
    pub count: u64,
    pub missing: Option<u32>,
}

impl Measure {
    ghost use Rattle.std.specs.Prelude.{◌≡◌, ◌≤◌};
    ghost use Rattle.log_batch.specs.Measures.{measure_of};

    /// The measure of a batch, where there are the families with the numbers below `families`.
    pub fn of(batch: &Batch, families: u32) -> Measure
        ensures value { result ≡ measure_of families batch.now.records }
        ensures limit { result.size ≤ MAX_SIZE }
    {
        Measure {
            size: batch.size(),
            count: u64::from(batch.count()),
            missing: missing_in(batch, families),
        }
    }
}

/// The refusal of a commit before its batch is queued, if there is one. The checks come in this order: a batch without
/// a record that counts, a batch of more than `batch_bytes` bytes, a commit that asks for a sync and also to stay out
/// of the log, a record of a family that there isn't, and a client that holds the stop token itself and doesn't ask
/// for no slowdown.
pub fn refusal_at_once(
    measure: Measure,
    options: WriteOptions,
    batch_bytes: u64,
    stopping: bool,
) -> Option<Refusal>
    // Only the size, the count and the first missing family of a batch matter: so a caller may ask this of a batch that
    // isn't built.
    ensures { (families : ℕ) (records : List Record) → measure ≡ measure_of families records
        → result ≡ early_refusal families batch_bytes stopping records options }
{
    if measure.count == 0 {
        return Some(Refusal::Empty);
    }
    if measure.size > batch_bytes {
        return Some(Refusal::TooLarge { size: measure.size });
    }
    if options.sync && options.no_log {
        return Some(Refusal::SyncWithoutLog);
    }
    if let Some(family) = measure.missing {
        return Some(Refusal::NoFamily { family });
    }
    if stopping && !options.no_slowdown {
        return Some(Refusal::SelfStop);
    }
    None
}

/// The first family that a batch's records name and that there isn't, if there is one. They are looked at only where
/// the greatest one isn't there.
fn missing_in(batch: &Batch, families: u32) -> Option<u32>
    ensures { result ≡ first_missing families (families_in batch.now.records) }
{
    if batch.greatest_family() < families {
        return None;
    }
    first_missing(batch.records(), families)
}

/// The first family of these records that there isn't, if there is one.
fn first_missing(records: Records<'_>, families: u32) -> Option<u32>
    ensures { result ≡ first_missing families (families_in records.entry) }
{
    // The families of the records before those that are left are there.
    for view in records {
        if let Some(family) = view.key_family() {
            if family >= families {
                return Some(family);
            }
        }
    }
    None
}

/// The flag that the history has for a batch that was committed with these options.
pub fn flag_of(options: WriteOptions) -> Flag
    ensures { result ≡ history.flag_of options }
{
    if options.no_log {
        Flag::NoLog
    } else if options.sync {
        Flag::Sync
    } else {
        Flag::Log
    }
}
