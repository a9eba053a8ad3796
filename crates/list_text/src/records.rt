//! A record and its operations.

ghost use Rattle.std.specs.Prelude.{◌≡◌, ◌++◌, OnOk};
ghost use Rattle.batch_operations.specs.View.{operation_of, strings_of};
ghost use Rattle.list_text.specs.Lines as lines;

use crate::digits::put_number;
use crate::form::{Form, RecordPlace};
use crate::kinds::kind_word;
use crate::reasons::{put_reason, reason_of};
use crate::words::put_word;
use base_bytes::Bytes;
use batch_operations::{Head, OperationView, Strings};
use model_base::{BatchError, NoMemory};

/// Appends what is said of a record before its operations: where its first fragment begins and its last one ends, how
/// many bytes it has, and the sequence and the count that it says, if it has that many bytes.
pub fn put_record_front(
    text: &mut Bytes,
    form: Form,
    place: RecordPlace,
    head: Option<Head>,
) -> Result<(), NoMemory>
    ensures { OnOk result (text.new ≡ text.old ++ lines.record_front form place head) }
{
    if form.json {
        put_json_front(text, place, head)
    } else {
        put_plain_front(text, place, head)
    }
}

fn put_plain_front(text: &mut Bytes, place: RecordPlace, head: Option<Head>) -> Result<(), NoMemory>
    ensures { OnOk result (text.new ≡ text.old ++ lines.plain_front place head) }
{
    put_place(text, b"record ", b" ", b" size ", place)?;
    put_head(text, b" sequence ", b" count ", head)?;
    text.append(b"\n")
}

fn put_json_front(text: &mut Bytes, place: RecordPlace, head: Option<Head>) -> Result<(), NoMemory>
    ensures { OnOk result (text.new ≡ text.old ++ lines.json_front place head) }
{
    put_place(text, b"{\"record\":", b",\"end\":", b",\"size\":", place)?;
    put_head(text, b",\"sequence\":", b",\"count\":", head)?;
    text.append(b",\"operations\":[")
}

/// Appends where a record is, and how many bytes it has, each after its name.
fn put_place(
    text: &mut Bytes,
    start_name: &[u8],
    end_name: &[u8],
    size_name: &[u8],
    place: RecordPlace,
) -> Result<(), NoMemory>
    ensures { OnOk result
        (text.new ≡ text.old ++ lines.place_fields start_name.now end_name.now size_name.now place) }
{
    put_field(text, start_name, place.start)?;
    put_field(text, end_name, place.end)?;
    put_field(text, size_name, place.size)
}

/// Appends what a record's head says, if it has one.
fn put_head(
    text: &mut Bytes,
    sequence_name: &[u8],
    count_name: &[u8],
    head: Option<Head>,
) -> Result<(), NoMemory>
    ensures { OnOk result (text.new ≡ text.old ++ lines.head_fields sequence_name.now count_name.now head) }
{
    match head {
        Some(head) => {
            put_field(text, sequence_name, head.sequence)?;
            put_field(text, count_name, u64::from(head.count))
        }
        None => Ok(()),
    }
}

/// Appends a name and a number.
pub fn put_field(text: &mut Bytes, name: &[u8], number: u64) -> Result<(), NoMemory>
    ensures { OnOk result (text.new ≡ text.old ++ lines.field name.now number) }
{
    text.append(name)?;
    put_number(text, u128::from(number))
}

/// Appends the family that an operation names, if it names one, after this name.
pub fn put_family(text: &mut Bytes, name: &[u8], family: Option<u32>) -> Result<(), NoMemory>
    ensures { OnOk result (text.new ≡ text.old ++ lines.family_field name.now family) }
{
    match family {
        None => Ok(()),
        Some(family) => put_field(text, name, u64::from(family)),
    }
}

/// Appends an operation. In JSON a comma comes before it, unless it is the record's first one.
pub fn put_operation(
    text: &mut Bytes,
    form: Form,
    is_first: bool,
    operation: OperationView<'_>,
) -> Result<(), NoMemory>
    ensures { OnOk result (text.new ≡ text.old ++ lines.operation_text form is_first (operation_of operation.entry)) }
{
    if form.json {
        put_comma(text, is_first)?;
        put_json_operation(text, form, operation)
    } else {
        put_plain_operation(text, form, operation)
    }
}

fn put_comma(text: &mut Bytes, is_first: bool) -> Result<(), NoMemory>
    ensures { OnOk result (text.new ≡ text.old ++ lines.comma is_first) }
{
    if is_first { Ok(()) } else { text.append(b",") }
}

fn put_plain_operation(
    text: &mut Bytes,
    form: Form,
    operation: OperationView<'_>,
) -> Result<(), NoMemory>
    ensures { OnOk result (text.new ≡ text.old ++ lines.plain_operation form (operation_of operation.entry)) }
{
    text.append(b"  ")?;
    text.append(kind_word(operation.tag))?;
    put_family(text, b" family ", operation.family)?;
    put_strings(text, form, b" ", b" ", operation.strings)?;
    text.append(b"\n")
}

fn put_json_operation(
    text: &mut Bytes,
    form: Form,
    operation: OperationView<'_>,
) -> Result<(), NoMemory>
    ensures { OnOk result (text.new ≡ text.old ++ lines.json_operation form (operation_of operation.entry)) }
{
    put_field(text, b"{\"tag\":", u64::from(operation.tag))?;
    text.append(b",\"kind\":\"")?;
    text.append(kind_word(operation.tag))?;
    text.append(b"\"")?;
    put_family(text, b",\"family\":", operation.family)?;
    put_strings(text, form, b",\"key\":", b",\"value\":", operation.strings)?;
    text.append(b"}")
}

/// Appends the strings of an operation, each after its name.
fn put_strings(
    text: &mut Bytes,
    form: Form,
    first_name: &[u8],
    second_name: &[u8],
    strings: Strings<'_>,
) -> Result<(), NoMemory>
    ensures { OnOk result
        (text.new ≡ text.old ++ lines.named_strings form first_name.now second_name.now (strings_of strings.entry)) }
{
    match strings {
        Strings::None => Ok(()),
        Strings::One(first) => put_string(text, form, first_name, first),
        Strings::Two(first, second) => {
            put_string(text, form, first_name, first)?;
            put_string(text, form, second_name, second)
        }
    }
}

fn put_string(text: &mut Bytes, form: Form, name: &[u8], string: &[u8]) -> Result<(), NoMemory>
    ensures { OnOk result (text.new ≡ text.old ++ lines.named_string form name.now string.now) }
{
    text.append(name)?;
    put_word(text, form, string)
}

/// Appends what is said of a record after its operations: what keeps its bytes from being a batch, if something does.
pub fn put_record_back(
    text: &mut Bytes,
    form: Form,
    fault: Option<BatchError>,
) -> Result<(), NoMemory>
    ensures { OnOk result (text.new ≡ text.old ++ lines.record_back form fault) }
{
    match (form.json, fault) {
        (false, None) => Ok(()),
        (false, Some(error)) => {
            text.append(b"  fault ")?;
            put_reason(text, reason_of(error))?;
            text.append(b"\n")
        }
        (true, None) => text.append(b"]}\n"),
        (true, Some(error)) => {
            text.append(b"],\"fault\":\"")?;
            put_reason(text, reason_of(error))?;
            text.append(b"\"}\n")
        }
    }
}
