//! Which records of a damaged log are kept.

ghost use Rattle.std.specs.Prelude.{◌≡◌, Some};
ghost use Rattle.list_log.specs.Texts as texts;
ghost use Rattle.list_log.specs.Wanted as wanted;
ghost use Rattle.log_salvage.specs.Keeping as keeping;

use batch_operations::{Head, layout_of, read_head, split_operation};
use model_base::BatchError;

/// The sequences whose records are kept: from the first to the second.
#[derive(Clone, Copy)]
pub struct Range {
    pub from: u64,
    pub to: u64,
}

/// Why a record is left out.
#[derive(Clone, Copy)]
pub enum LeftOut {
    /// It isn't a whole batch of known operations, and this is what is wrong with it.
    NoBatch(BatchError),
    /// It is one, but none of its sequences is in the range.
    OutOfRange,
}

/// Why a record that has these bytes is left out; `None` if it is kept: if the bytes are a whole batch of known
/// operations, as many as its head says, and one of its sequences is in the range.
pub fn verdict_of(range: Range, bytes: &[u8]) -> Option<LeftOut>
    ensures { keeping.HasVerdict range bytes.now result }
{
    match read_head(bytes) {
        Some((head, body)) => verdict_by(range, head, fault_of(head.count, body)),
        None => Some(LeftOut::NoBatch(BatchError::Short)),
    }
}

/// Why a record with this head and this fault is left out.
fn verdict_by(range: Range, head: Head, fault: Option<BatchError>) -> Option<LeftOut>
    ensures { result ≡ keeping.verdict_by range (Some head) fault }
{
    match fault {
        Some(error) => Some(LeftOut::NoBatch(error)),
        None if is_in_range(range, head) => None,
        None => Some(LeftOut::OutOfRange),
    }
}

/// What is wrong with the bytes after a record's head, if something is. The head says how many operations count.
fn fault_of(said: u32, body: &[u8]) -> Option<BatchError>
    ensures { keeping.HasFault said body.now result }
{
    let mut found = 0;
    let mut rest = body;
    // Before `rest` are operations, of which `found` count.
    while !rest.is_empty() {
        match split_operation(rest) {
            Ok((operation, behind)) => {
                found += u64::from(is_counted(operation.tag));
                rest = behind;
            }
            Err(error) => return Some(error),
        }
    }
    count_fault(said, found)
}

/// What is wrong where a head says that `said` operations count, and `found` do.
fn count_fault(said: u32, found: u64) -> Option<BatchError>
    ensures { result ≡ texts.count_fault said found }
{
    if u64::from(said) == found {
        None
    } else {
        Some(BatchError::Count { said, found })
    }
}

/// Whether operations of this tag take a sequence.
fn is_counted(tag: u8) -> bool
    ensures { result ≡ wanted.is_counted tag }
{
    layout_of(tag).is_some_and(|layout| layout.counts)
}

/// Whether one of the sequences of a record is in the range: from the one that its head says, as many as count, or only
/// that one if none count.
fn is_in_range(range: Range, head: Head) -> bool
    ensures { result ≡ wanted.is_in_range range.from range.to (Some head) }
{
    head.sequence <= range.to && u128::from(range.from) <= last_of(head)
}

/// The last sequence of a record; if none of its operations count, the one that its head says.
fn last_of(head: Head) -> u128
    ensures { result ≡ wanted.last_of head }
{
    u128::from(head.sequence) + u128::from(head.count.saturating_sub(1))
}
