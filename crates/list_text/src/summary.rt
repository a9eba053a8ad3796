//! Counts in place of records.

ghost use Rattle.std.specs.Prelude.{◌≡◌, ◌++◌, OnOk};
ghost use Rattle.list_text.specs.Lines as lines;

use crate::digits::put_number;
use crate::form::Form;
use crate::kinds::kind_word;
use crate::records::{put_family, put_field};
use base_bytes::Bytes;
use model_base::NoMemory;

/// Appends how many records there are.
pub fn put_records(text: &mut Bytes, form: Form, count: u64) -> Result<(), NoMemory>
    ensures { OnOk result (text.new ≡ text.old ++ lines.records_line form count) }
{
    if form.json {
        put_field(text, b"{\"records\":", count)?;
        text.append(b"}\n")
    } else {
        put_field(text, b"records ", count)?;
        text.append(b"\n")
    }
}

/// Appends the first sequence and the last one, if there are any.
pub fn put_sequences(
    text: &mut Bytes,
    form: Form,
    sequences: Option<(u128, u128)>,
) -> Result<(), NoMemory>
    ensures { OnOk result (text.new ≡ text.old ++ lines.sequences_line form sequences) }
{
    match (form.json, sequences) {
        (false, None) => text.append(b"sequences none\n"),
        (false, Some((first, last))) => {
            text.append(b"sequences ")?;
            put_number(text, first)?;
            text.append(b" ")?;
            put_number(text, last)?;
            text.append(b"\n")
        }
        (true, None) => text.append(b"{\"sequences\":[]}\n"),
        (true, Some((first, last))) => {
            text.append(b"{\"sequences\":[")?;
            put_number(text, first)?;
            text.append(b",")?;
            put_number(text, last)?;
            text.append(b"]}\n")
        }
    }
}

/// Appends how many operations there are of a kind, in a family that they name or without one.
pub fn put_count(
    text: &mut Bytes,
    form: Form,
    tag: u8,
    family: Option<u32>,
    count: u64,
) -> Result<(), NoMemory>
    ensures { OnOk result (text.new ≡ text.old ++ lines.count_line form tag family count) }
{
    if form.json {
        text.append(b"{\"kind\":\"")?;
        text.append(kind_word(tag))?;
        text.append(b"\"")?;
        put_family(text, b",\"family\":", family)?;
        put_field(text, b",\"count\":", count)?;
        text.append(b"}\n")
    } else {
        text.append(kind_word(tag))?;
        put_family(text, b" family ", family)?;
        put_field(text, b" ", count)?;
        text.append(b"\n")
    }
}

/// Appends in how many stretches no record reads, and how many bytes these have.
pub fn put_stretches(text: &mut Bytes, form: Form, count: u64, bytes: u64) -> Result<(), NoMemory>
    ensures { OnOk result (text.new ≡ text.old ++ lines.stretches_line form count bytes) }
{
    if form.json {
        put_field(text, b"{\"unread\":", count)?;
        put_field(text, b",\"bytes\":", bytes)?;
        text.append(b"}\n")
    } else {
        put_field(text, b"unread ", count)?;
        put_field(text, b" ", bytes)?;
        text.append(b"\n")
    }
}
