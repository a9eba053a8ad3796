//! The lines of a record.

ghost use Rattle.std.specs.Prelude.{◌≡◌, ◌<◌, ◌^◌, ◌||◌, ◌++◌, Some, OnOk, IfOk};
ghost use Rattle.batch_operations.specs.Shown.{ShownRecord, Shows};
ghost use Rattle.batch_operations.specs.View.{operation_of};
ghost use Rattle.list_log.specs.Texts as texts;
ghost use Rattle.list_log.specs.Wanted as wanted;

use crate::settings::Settings;
use crate::wanted::{is_counted, is_in_range, is_left_out, is_wanted, last_of};
use base_bytes::Bytes;
use batch_operations::{Head, OperationView, a_record_shows_one_thing, read_head, split_operation};
use list_text::{
    Form, RecordPlace, put_gap, put_operation, put_order, put_record_back, put_record_front,
    put_scan_front,
};
use model_base::{BatchError, NoMemory};

/// What was said of a record's operations.
#[derive(Clone, Copy)]
pub struct Told {
    /// Whether one was shown.
    pub any: bool,
    /// What keeps the bytes from being a batch, if something does.
    pub fault: Option<BatchError>,
}

/// Appends the first line, if what is shown has one.
pub fn put_front(text: &mut Bytes, settings: &Settings<'_>) -> Result<(), NoMemory>
    ensures { OnOk result (text.new ≡ text.old ++ texts.front_of settings.now) }
{
    if settings.scan {
        put_scan_front(text, settings.form)
    } else {
        Ok(())
    }
}

/// Appends the lines of a record, if it is shown: what is between its sequences and the last one before it, if gaps are
/// named; where it is and what its head says; and its operations. It answers the last sequence after it.
pub fn put_record(
    text: &mut Bytes,
    settings: &Settings<'_>,
    last: Option<u128>,
    place: RecordPlace,
    bytes: &[u8],
) -> Result<Option<u128>, NoMemory>
    ensures { IfOk result (λ now. (shown : ShownRecord) × Shows bytes.now shown
        × (now ≡ texts.last_after last shown.head)
        × (text.new ≡ text.old ++ texts.record_lines settings.now last place shown)) }
{
    match read_head(bytes) {
        Some((head, body)) => {
            put_batch(text, settings, last, place, head, body)?;
            Ok(last_after(last, head))
        }
        None => {
            put_short(text, settings, place)?;
            Ok(last)
        }
    }
}

/// Appends the lines of a record of fewer bytes than a head, if it is shown. It has no operation, so it isn't if only
/// those about a key are.
fn put_short(text: &mut Bytes, settings: &Settings<'_>, place: RecordPlace) -> Result<(), NoMemory>
    ensures { OnOk result (text.new ≡ text.old ++ texts.short_lines settings.now place) }
{
    if settings.key.is_some() {
        return Ok(());
    }
    put_record_front(text, settings.form, place, None)?;
    put_record_back(text, settings.form, Some(BatchError::Short))
}

/// Appends the lines of a record with this head and the bytes of operations after it, if it is shown.
fn put_batch(
    text: &mut Bytes,
    settings: &Settings<'_>,
    last: Option<u128>,
    place: RecordPlace,
    head: Head,
    body: &[u8],
) -> Result<(), NoMemory>
    ensures { OnOk result (texts.TellsBatch settings.now last place head body.now text.old text.new) }
{
    if !is_in_range(settings, head) {
        // Its operations needn't be read: they are something.
        a_record_shows_one_thing();
        return Ok(());
    }
    let before = text.len();
    let any = put_whole(text, settings, last, place, head, body)?;
    if is_left_out(settings, any) {
        text.truncate(before);
        return Ok(());
    }
    Ok(())
}

/// Appends all lines of a record with this head and the bytes of operations after it, and answers whether one of its
/// operations is shown.
fn put_whole(
    text: &mut Bytes,
    settings: &Settings<'_>,
    last: Option<u128>,
    place: RecordPlace,
    head: Head,
    body: &[u8],
) -> Result<bool, NoMemory>
    ensures { IfOk result (λ any. texts.TellsWhole settings.now last place head body.now text.old text.new any) }
{
    put_between(text, settings, last, head)?;
    put_record_front(text, settings.form, place, Some(head))?;
    let told = put_operations(text, settings, head.count, body)?;
    put_record_back(text, settings.form, told.fault)?;
    Ok(told.any)
}

/// Appends the operations that are shown, of the bytes after a record's head. The head says how many count.
fn put_operations(
    text: &mut Bytes,
    settings: &Settings<'_>,
    said: u32,
    body: &[u8],
) -> Result<Told, NoMemory>
    ensures { IfOk result (λ told. texts.TellsBody settings.now said body.now text.old text.new told.any told.fault) }
{
    let mut any = false;
    let mut found = 0;
    let mut rest = body;
    // Before `rest` are operations, of which `found` count, and those that are shown are appended to the text.
    while !rest.is_empty() {
        match split_operation(rest) {
            Ok((operation, behind)) => {
                any = put_if_wanted(text, settings, any, operation)?;
                found += u64::from(is_counted(operation.tag));
                rest = behind;
            }
            Err(error) => {
                return Ok(Told {
                    any,
                    fault: Some(error),
                });
            }
        }
    }
    Ok(Told {
        any,
        fault: count_fault(said, found),
    })
}

/// Appends an operation, if it is shown, and answers whether one is shown by now. `any` says whether one was before.
fn put_if_wanted(
    text: &mut Bytes,
    settings: &Settings<'_>,
    any: bool,
    operation: OperationView<'_>,
) -> Result<bool, NoMemory>
    ensures any { IfOk result (λ now. now
        ≡ (any || wanted.is_wanted (wanted.key_in settings.now) (operation_of operation.entry))) }
    ensures text { OnOk result
        (text.new ≡ text.old ++ texts.wanted_text settings.now any (operation_of operation.entry)) }
{
    if !is_wanted(settings, operation) {
        return Ok(any);
    }
    put_operation(text, settings.form, !any, operation)?;
    Ok(true)
}

/// What is wrong where a head says that `said` operations count, and `found` do.
pub fn count_fault(said: u32, found: u64) -> Option<BatchError>
    ensures { result ≡ texts.count_fault said found }
{
    if u64::from(said) == found {
        None
    } else {
        Some(BatchError::Count { said, found })
    }
}

/// Appends what is between the last sequence so far and a record's first one, if gaps are named: a gap, or that the
/// first one isn't above the last one.
fn put_between(
    text: &mut Bytes,
    settings: &Settings<'_>,
    last: Option<u128>,
    head: Head,
) -> Result<(), NoMemory>
    ensures { OnOk result (text.new ≡ text.old ++ texts.gap_lines settings.now last (Some head)) }
{
    if !settings.scan || head.count == 0 {
        return Ok(());
    }
    match last {
        Some(last) => put_step(text, settings.form, last, u128::from(head.sequence)),
        None => Ok(()),
    }
}

/// Appends what is between a last sequence and a first one.
fn put_step(text: &mut Bytes, form: Form, last: u128, first: u128) -> Result<(), NoMemory>
    requires { first < 2 ^ 64 }
    ensures { OnOk result (text.new ≡ text.old ++ texts.step form last first) }
{
    if first <= last {
        put_order(text, form, first, last)
    } else if last + 1 < first {
        put_gap(text, form, last + 1, first - 1)
    } else {
        Ok(())
    }
}

/// The last sequence so far, which is the greatest one, after a record; one of which none counts leaves it as it was.
pub fn last_after(last: Option<u128>, head: Head) -> Option<u128>
    ensures { result ≡ texts.last_after last (Some head) }
{
    if head.count == 0 {
        return last;
    }
    match last {
        Some(last) => Some(last.max(last_of(head))),
        None => Some(last_of(head)),
    }
}
