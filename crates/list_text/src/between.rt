//! What is said between records, and at the end.

ghost use Rattle.std.specs.Prelude.{◌≡◌, ◌++◌, OnOk};
ghost use Rattle.list_text.specs.Lines as lines;

use crate::digits::put_number;
use crate::form::Form;
use crate::reasons::put_reason;
use crate::records::put_field;
use base_bytes::Bytes;
use log_scan::Unread;
use model_base::{EndReason, NoMemory};

/// Appends the first line of a scan: what follows is shown, and not recovered.
pub fn put_scan_front(text: &mut Bytes, form: Form) -> Result<(), NoMemory>
    ensures { OnOk result (text.new ≡ text.old ++ lines.scan_front form) }
{
    if form.json {
        text.append(b"{\"shown\":\"not recovered\"}\n")
    } else {
        text.append(b"shown, not recovered: what follows damage may be of another history\n")
    }
}

/// Appends that no record before has the sequences from the first to the second.
pub fn put_gap(text: &mut Bytes, form: Form, first: u128, last: u128) -> Result<(), NoMemory>
    ensures { OnOk result (text.new ≡ text.old ++ lines.gap_line form first last) }
{
    if form.json {
        put_two(text, b"{\"gap\":[", first, b",", last)?;
        text.append(b"]}\n")
    } else {
        put_two(text, b"gap ", first, b" ", last)?;
        text.append(b"\n")
    }
}

/// Appends that a record's first sequence isn't above the last one before it.
pub fn put_order(text: &mut Bytes, form: Form, first: u128, last: u128) -> Result<(), NoMemory>
    ensures { OnOk result (text.new ≡ text.old ++ lines.order_line form first last) }
{
    if form.json {
        put_two(text, b"{\"order\":[", first, b",", last)?;
        text.append(b"]}\n")
    } else {
        put_two(text, b"order ", first, b" ", last)?;
        text.append(b"\n")
    }
}

/// Appends two numbers, each after a text.
fn put_two(
    text: &mut Bytes,
    before: &[u8],
    first: u128,
    between: &[u8],
    second: u128,
) -> Result<(), NoMemory>
    ensures { OnOk result (text.new ≡ text.old ++ lines.two before.now first between.now second) }
{
    text.append(before)?;
    put_number(text, first)?;
    text.append(between)?;
    put_number(text, second)
}

/// Appends a stretch in which no record reads.
pub fn put_unread(text: &mut Bytes, form: Form, unread: Unread) -> Result<(), NoMemory>
    ensures { OnOk result (text.new ≡ text.old ++ lines.unread_line form unread) }
{
    if form.json {
        put_json_unread(text, unread)
    } else {
        put_plain_unread(text, unread)
    }
}

fn put_json_unread(text: &mut Bytes, unread: Unread) -> Result<(), NoMemory>
    ensures { OnOk result (text.new ≡ text.old ++ lines.json_unread unread) }
{
    let (from, to) = (u128::from(unread.from), u128::from(unread.to));
    put_two(text, b"{\"unread\":[", from, b",", to)?;
    put_field(text, b"],\"at\":", unread.at)?;
    put_json_why(text, unread.why)
}

fn put_plain_unread(text: &mut Bytes, unread: Unread) -> Result<(), NoMemory>
    ensures { OnOk result (text.new ≡ text.old ++ lines.plain_unread unread) }
{
    let (from, to) = (u128::from(unread.from), u128::from(unread.to));
    put_two(text, b"unread ", from, b" ", to)?;
    put_field(text, b" ", unread.at)?;
    put_plain_why(text, unread.why)
}

/// Appends where and why reading ended.
pub fn put_end(text: &mut Bytes, form: Form, at: u64, why: EndReason) -> Result<(), NoMemory>
    ensures { OnOk result (text.new ≡ text.old ++ lines.end_line form at why) }
{
    if form.json {
        put_field(text, b"{\"end\":", at)?;
        put_json_why(text, why)
    } else {
        put_field(text, b"end ", at)?;
        put_plain_why(text, why)
    }
}

fn put_plain_why(text: &mut Bytes, why: EndReason) -> Result<(), NoMemory>
    ensures { OnOk result (text.new ≡ text.old ++ lines.plain_why why) }
{
    text.append(b" ")?;
    put_reason(text, why)?;
    text.append(b"\n")
}

fn put_json_why(text: &mut Bytes, why: EndReason) -> Result<(), NoMemory>
    ensures { OnOk result (text.new ≡ text.old ++ lines.json_why why) }
{
    text.append(b",\"why\":\"")?;
    put_reason(text, why)?;
    text.append(b"\"}\n")
}
