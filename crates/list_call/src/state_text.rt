//! The text of what a log recovers, in each form.

ghost use Rattle.std.specs.Prelude.{◌≡◌, ◌++◌, IfOk, OnOk};
ghost use Rattle.model_base.specs.Map.{key_at};
ghost use Rattle.model_base.specs.Recovery as recovery;
ghost use Rattle.log_recovery.specs.Recovering.{ShowsRecovered};
ghost use Rattle.list_call.specs.StateTexts as texts;

use base_bytes::Bytes;
use base_maps::FamilyMap;
use list_text::{Form, put_end, put_number, put_word};
use log_recovery::{GroupNote, Recovered};
use model_base::NoMemory;
use std::alloc::Global;

/// The text of what a log recovers: the records that are kept, the map, and the end.
pub fn state_text(alloc: Global, form: Form, recovered: &Recovered) -> Result<Bytes, NoMemory>
    ensures { IfOk result (λ text. (r : recovery.Recovered) → ShowsRecovered recovered.now r
        → text ≡ texts.state_text form r) }
{
    let mut text = Bytes::new(alloc);
    put_groups(&mut text, form, &recovered.groups)?;
    put_map(&mut text, form, recovered.last, &recovered.map)?;
    put_end(&mut text, form, recovered.end.at, recovered.end.why)?;
    Ok(text)
}

/// Appends how many records are kept, and a line for each.
fn put_groups(text: &mut Bytes, form: Form, groups: &[GroupNote]) -> Result<(), NoMemory>
    ensures { OnOk result (text.new ≡ text.old ++ texts.groups_text form groups.now) }
{
    put_count(text, form, groups.len() as u64)?;
    // The lines of the records so far are appended to the text.
    for group in groups {
        put_group(text, form, group)?;
    }
    Ok(())
}

/// Appends the last sequence, how many keys the map has, and a line for each.
fn put_map(text: &mut Bytes, form: Form, last: u64, map: &FamilyMap) -> Result<(), NoMemory>
    ensures { OnOk result (text.new ≡ text.old ++ texts.map_text form last map.now) }
{
    put_state(text, form, last, map.len() as u64)?;
    // With the lines of the pairs that are left, those of all pairs would be appended to the text.
    for (family, key, value) in map.iter() {
        put_pair(text, form, family, key, value)?;
    }
    Ok(())
}

/// Appends one text in JSON, and another one otherwise.
fn put_part(text: &mut Bytes, form: Form, json: &[u8], plain: &[u8]) -> Result<(), NoMemory>
    ensures { OnOk result (text.new ≡ text.old ++ texts.part form json.now plain.now) }
{
    text.append(if form.json { json } else { plain })
}

/// Appends such a text and a number.
fn put_value(
    text: &mut Bytes,
    form: Form,
    json: &[u8],
    plain: &[u8],
    number: u64,
) -> Result<(), NoMemory>
    ensures { OnOk result (text.new ≡ text.old ++ texts.value form json.now plain.now number) }
{
    put_part(text, form, json, plain)?;
    put_number(text, u128::from(number))
}

fn put_count(text: &mut Bytes, form: Form, count: u64) -> Result<(), NoMemory>
    ensures { OnOk result (text.new ≡ text.old ++ texts.count_line form count) }
{
    put_value(text, form, b"{\"groups\":", b"groups ", count)?;
    put_part(text, form, b"}\n", b"\n")
}

fn put_group(text: &mut Bytes, form: Form, group: &GroupNote) -> Result<(), NoMemory>
    ensures { OnOk result (text.new ≡ text.old ++ texts.group_line form group.now) }
{
    put_value(text, form, b"{\"sequence\":", b"", group.first)?;
    put_value(text, form, b",\"count\":", b" ", u64::from(group.count))?;
    put_value(text, form, b",\"size\":", b" ", group.size)?;
    put_part(text, form, b"}\n", b"\n")
}

fn put_state(text: &mut Bytes, form: Form, last: u64, keys: u64) -> Result<(), NoMemory>
    ensures { OnOk result (text.new ≡ text.old ++ texts.state_line form last keys) }
{
    put_value(text, form, b"{\"last\":", b"state ", last)?;
    put_value(text, form, b",\"keys\":", b" ", keys)?;
    put_part(text, form, b"}\n", b"\n")
}

fn put_pair(
    text: &mut Bytes,
    form: Form,
    family: u32,
    key: &[u8],
    value: &[u8],
) -> Result<(), NoMemory>
    ensures { OnOk result (text.new ≡ text.old ++ texts.pair_line form (key_at family key.now, value.now)) }
{
    put_part(text, form, b"{", b"")?;
    put_family(text, form, family)?;
    put_part(text, form, b"\"key\":", b"")?;
    put_word(text, form, key)?;
    put_part(text, form, b",\"value\":", b" ")?;
    put_word(text, form, value)?;
    put_part(text, form, b"}\n", b"\n")
}

/// Appends the number of a key's family, unless it is the default one.
fn put_family(text: &mut Bytes, form: Form, family: u32) -> Result<(), NoMemory>
    ensures { OnOk result (text.new ≡ text.old ++ texts.family_text form family) }
{
    if family == 0 {
        return Ok(());
    }
    put_value(text, form, b"\"family\":", b"", u64::from(family))?;
    put_part(text, form, b",", b" ")
}
