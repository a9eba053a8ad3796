//! What a version says: a key of a column family, and the value that the key gets, if it gets one.
//!
//! A key's bytes and those of its value are one after the other: in the node itself where they are few, or else in one
//! piece on the heap. So a version is one allocation or two.

ghost use Rattle.std.specs.Prelude.{◌≡◌, ◌≤◌, ◌+◌, ◌++◌, length, take, IfOk};
ghost use Rattle.std.specs.Option.{option_copied};
ghost use Rattle.table_nodes.specs.Nodes.{at_key};

use model_base::NoMemory;
use std::alloc::Global;
use std::marker::Model;
use std::mem::size_of;

/// The most bytes that are in place.
const SHORT_LEN: usize = 32;

// One byte more in place would take eight.
const _: () = prove!(size_of::<Content>() <= 40);

/// A key, and the value that it gets, if it gets one. Contracts see both.
#[derive(Drop)]
pub(crate) struct Content {
    place: Place,
}

/// Where the bytes are: `key_len` of them are the key's, and where there is a value, those after them are the value's.
#[derive(Drop)]
enum Place {
    /// In place: the first `len` of these bytes. What follows them isn't read.
    Short {
        has_value: bool,
        key_len: u8,
        len: u8,
        family: u32,
        bytes: [u8; SHORT_LEN],
    },
    /// On the heap, since they are too many.
    Long {
        has_value: bool,
        family: u32,
        key_len: usize,
        bytes: Vec<u8>,
    },
}

impl Model for Content {
    ghost use Rattle.table_nodes.specs.Content.{KeyValue, content_of, HasBytes};

    ghost Value = { KeyValue };

    ghost view = { λ c. content_of c.place };

    ghost invariant = { λ c. HasBytes c.place };
}

impl Content {
    /// A copy of a family's key and of its value. At most 32 bytes of both take no memory.
    pub(crate) fn copy(
        alloc: Global,
        family: u32,
        key: &[u8],
        value: Option<&[u8]>,
    ) -> Result<Content, NoMemory>
        ensures { IfOk result (λ copy. copy
            ≡ record { key = at_key family key.now; value = option_copied value.entry }) }
    {
        let has_value = value.is_some();
        let value = value.unwrap_or(b"");
        if key.len() > SHORT_LEN || value.len() > SHORT_LEN - key.len() {
            return Ok(Content {
                place: Place::Long {
                    has_value,
                    family,
                    key_len: key.len(),
                    bytes: on_heap(alloc, key, value)?,
                },
            });
        }
        Ok(Content {
            place: Place::Short {
                has_value,
                key_len: key.len() as u8,
                len: (key.len() + value.len()) as u8,
                family,
                bytes: in_place(key, value),
            },
        })
    }

    /// The number of the key's family.
    pub(crate) fn family(&self) -> u32
        ensures { result ≡ self.now.key.family }
    {
        match &self.place {
            Place::Short { family, .. } => *family,
            Place::Long { family, .. } => *family,
        }
    }

    /// The key.
    pub(crate) fn key(&self) -> &[u8]
        ensures { result.now ≡ self.now.key.bytes }
    {
        match &self.place {
            Place::Short { key_len, bytes, .. } => &bytes[..usize::from(*key_len)],
            Place::Long { key_len, bytes, .. } => &bytes[..*key_len],
        }
    }

    /// The value, if there is one.
    pub(crate) fn value(&self) -> Option<&[u8]>
        ensures { option_copied result ≡ self.now.value }
    {
        let (has_value, bytes) = match &self.place {
            Place::Short {
                has_value,
                key_len,
                len,
                bytes,
                ..
            } => (
                *has_value,
                &bytes[..usize::from(*len)][usize::from(*key_len)..],
            ),
            Place::Long {
                has_value,
                key_len,
                bytes,
                ..
            } => (*has_value, &bytes[*key_len..]),
        };
        has_value.then_some(bytes)
    }
}

/// The bytes of a key and of a value that fit in place, and zeros after them.
fn in_place(key: &[u8], value: &[u8]) -> [u8; SHORT_LEN]
    requires { length key.now + length value.now ≤ SHORT_LEN }
    ensures { take (length key.now + length value.now) result ≡ key.now ++ value.now }
{
    let mut bytes = [0; SHORT_LEN];
    bytes[..key.len()].copy_from_slice(key);
    bytes[key.len()..key.len() + value.len()].copy_from_slice(value);
    bytes
}

/// The bytes of a key and of a value on the heap.
fn on_heap(alloc: Global, key: &[u8], value: &[u8]) -> Result<Vec<u8>, NoMemory>
    ensures { IfOk result (λ bytes. bytes.items ≡ key.now ++ value.now) }
{
    let mut bytes = Vec::with_capacity(alloc, key.len().saturating_add(value.len()))?;
    bytes.extend_from_slice(key)?;
    bytes.extend_from_slice(value)?;
    Ok(bytes)
}
