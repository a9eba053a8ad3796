//! Which records and operations are shown.

ghost use Rattle.std.specs.Prelude.{◌≡◌, ◌&&◌, not, is_some, Some};
ghost use Rattle.batch_operations.specs.View.{operation_of};
ghost use Rattle.model_base.specs.Map as model;
ghost use Rattle.list_log.specs.Wanted as wanted;

use crate::settings::Settings;
use batch_operations::{Head, OperationView, Strings, layout_of};

/// A range deletion, in a family that it names or without one.
const DELETE_RANGE_IN: u8 = 0x0e;

const DELETE_RANGE: u8 = 0x0f;

/// Whether one of the sequences of a record is in the range: from the one that its head says, as many as count, or only
/// that one if none count.
pub fn is_in_range(settings: &Settings<'_>, head: Head) -> bool
    ensures { result ≡ wanted.is_in_range settings.now.from settings.now.to (Some head) }
{
    head.sequence <= settings.to && u128::from(settings.from) <= last_of(head)
}

/// The last sequence of a record; if none of its operations count, the one that its head says.
pub fn last_of(head: Head) -> u128
    ensures { result ≡ wanted.last_of head }
{
    u128::from(head.sequence) + u128::from(head.count.saturating_sub(1))
}

/// Whether an operation is shown.
pub fn is_wanted(settings: &Settings<'_>, operation: OperationView<'_>) -> bool
    ensures { result ≡ wanted.is_wanted (wanted.key_in settings.now) (operation_of operation.entry) }
{
    match settings.key {
        None => true,
        Some(key) => is_about(key, operation),
    }
}

/// Whether a record is left out, since only operations about a key are shown and `any` says that it has none.
pub fn is_left_out(settings: &Settings<'_>, any: bool) -> bool
    ensures { result ≡ (is_some settings.now.key && not any) }
{
    settings.key.is_some() && !any
}

/// Whether an operation is about this key: its first string is the key, or a range deletion's range has it. Notes and
/// marks are about none.
fn is_about(key: &[u8], operation: OperationView<'_>) -> bool
    ensures { result ≡ wanted.is_about key.now (operation_of operation.entry) }
{
    if !is_counted(operation.tag) {
        return false;
    }
    match (operation.tag, operation.strings) {
        (_, Strings::None) => false,
        (DELETE_RANGE | DELETE_RANGE_IN, Strings::Two(first, end)) => is_between(first, end, key),
        (_, Strings::One(first) | Strings::Two(first, _)) => first == key,
    }
}

/// Whether the key is in a range: at or above `first`, and below `end`.
fn is_between(first: &[u8], end: &[u8], key: &[u8]) -> bool
    ensures { result ≡ model.is_between first.now end.now key.now }
{
    key.cmp(first).is_ge() && key.cmp(end).is_lt()
}

/// Whether operations of this tag take a sequence.
pub fn is_counted(tag: u8) -> bool
    ensures { result ≡ wanted.is_counted tag }
{
    layout_of(tag).is_some_and(|layout| layout.counts)
}
