//! The bytes of a command: a tag, and what comes after it.

ghost use Rattle.std.specs.Prelude.{◌≡◌, ◌<◌, ◌^◌, ◌++◌, ◌∷◌, length, take, OnOk, OnErr};
ghost use Rattle.run_command_list.specs.Layout.{bytes_of_word, bytes_of_key, bytes_of};
ghost use Rattle.model_base.specs.Map.{key_at};
ghost use Rattle.run_command_list.specs.Contents.{Fits};
ghost use Rattle.run_command_list.specs.Views.{command_of, HasShortWords};

use crate::CommandView;
use base_bytes::{Bytes, put_fixed32, put_fixed64};
use model_base::{NoMemory, WriteOptions};

pub const PUT: u8 = 1;

pub const DELETE: u8 = 2;

pub const SINGLE_DELETE: u8 = 3;

pub const NOTE: u8 = 4;

pub const CLEAR: u8 = 5;

pub const COMMIT: u8 = 6;

pub const GET: u8 = 7;

pub const MANY: u8 = 8;

pub const SCAN: u8 = 9;

pub const STOP: u8 = 10;

pub const UNSTOP: u8 = 11;

pub const SLOW: u8 = 12;

pub const UNSLOW: u8 = 13;

pub const PUT_IN: u8 = 14;

pub const DELETE_IN: u8 = 15;

pub const SINGLE_DELETE_IN: u8 = 16;

pub const UPDATES: u8 = 17;

/// Appends a word's length and then the word to the bytes. Where memory fails, a part of what was to be appended may
/// be left at the end of the bytes. The same is true of all functions below.
pub fn append_word(bytes: &mut Bytes, word: &[u8]) -> Result<(), NoMemory>
    requires { length word.now < 2 ^ 32 }
    ensures ok { OnOk result (bytes.new ≡ bytes.old ++ bytes_of_word word.now) }
    ensures err { OnErr result (take (length bytes.old) bytes.new ≡ bytes.old) }
{
    put_fixed32(bytes, word.len() as u32)?;
    bytes.append(word)
}

fn append_tagged(bytes: &mut Bytes, tag: u8, word: &[u8]) -> Result<(), NoMemory>
    requires { length word.now < 2 ^ 32 }
    ensures ok { OnOk result (bytes.new ≡ bytes.old ++ (tag ∷ bytes_of_word word.now)) }
    ensures err { OnErr result (take (length bytes.old) bytes.new ≡ bytes.old) }
{
    bytes.append(&[tag])?;
    append_word(bytes, word)
}

/// Appends the number of a key's family and then the key.
pub fn append_key(bytes: &mut Bytes, family: u32, key: &[u8]) -> Result<(), NoMemory>
    requires { length key.now < 2 ^ 32 }
    ensures ok { OnOk result (bytes.new ≡ bytes.old ++ bytes_of_key (key_at family key.now)) }
    ensures err { OnErr result (take (length bytes.old) bytes.new ≡ bytes.old) }
{
    put_fixed32(bytes, family)?;
    append_word(bytes, key)
}

fn append_tagged_key(bytes: &mut Bytes, tag: u8, family: u32, key: &[u8]) -> Result<(), NoMemory>
    requires { length key.now < 2 ^ 32 }
    ensures ok { OnOk result (bytes.new ≡ bytes.old ++ (tag ∷ bytes_of_key (key_at family key.now))) }
    ensures err { OnErr result (take (length bytes.old) bytes.new ≡ bytes.old) }
{
    bytes.append(&[tag])?;
    append_key(bytes, family, key)
}

/// Appends a command to the bytes.
pub fn append_command(bytes: &mut Bytes, command: &CommandView<'_>) -> Result<(), NoMemory>
    requires { HasShortWords command.now }
    ensures ok { OnOk result (bytes.new ≡ bytes.old ++ bytes_of (command_of command.now)) }
    ensures err { OnErr result (take (length bytes.old) bytes.new ≡ bytes.old) }
    ensures fits { OnOk result (Fits (command_of command.now)) }
{
    match command {
        CommandView::Put {
            family: None,
            key,
            value,
        } => {
            append_tagged(bytes, PUT, key)?;
            append_word(bytes, value)
        }
        CommandView::Put {
            family: Some(family),
            key,
            value,
        } => {
            append_tagged_key(bytes, PUT_IN, *family, key)?;
            append_word(bytes, value)
        }
        CommandView::Delete { family: None, key } => append_tagged(bytes, DELETE, key),
        CommandView::Delete {
            family: Some(family),
            key,
        } => append_tagged_key(bytes, DELETE_IN, *family, key),
        CommandView::SingleDelete { family: None, key } => append_tagged(bytes, SINGLE_DELETE, key),
        CommandView::SingleDelete {
            family: Some(family),
            key,
        } => append_tagged_key(bytes, SINGLE_DELETE_IN, *family, key),
        CommandView::Note { text } => append_tagged(bytes, NOTE, text),
        CommandView::Clear => bytes.append(&[CLEAR]),
        CommandView::Commit { options } => bytes.append(&[COMMIT, options.bits()]),
        CommandView::Get { family, key } => append_tagged_key(bytes, GET, *family, key),
        CommandView::Many { keys } => {
            bytes.append(&[MANY])?;
            keys.append_to(bytes)
        }
        CommandView::Scan { family, lo, hi } => {
            append_tagged_key(bytes, SCAN, *family, lo)?;
            append_word(bytes, hi)
        }
        CommandView::Updates { since } => {
            bytes.append(&[UPDATES])?;
            put_fixed64(bytes, *since)
        }
        CommandView::Stop => bytes.append(&[STOP]),
        CommandView::Unstop => bytes.append(&[UNSTOP]),
        CommandView::Slow { rate } => {
            bytes.append(&[SLOW])?;
            put_fixed64(bytes, *rate)
        }
        CommandView::Unslow => bytes.append(&[UNSLOW]),
    }
}
