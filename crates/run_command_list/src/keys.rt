//! Keys one after another, each after the number of its family and its length.

ghost use Rattle.std.specs.Prelude.{◌≡◌, ◌<◌, ◌^◌, ◌+◌, ◌++◌, ◌∷◌, [], length, take, map, option_map, IfOk, OnOk, OnErr};
ghost use Rattle.std.specs.Int.{w32, to_le_bytes};
ghost use Rattle.base_bytes.specs.declared.answers.Place as place;
ghost use Rattle.model_base.specs.declared.key.Key as model_key;
ghost use Rattle.model_base.specs.Map.{key_at};
ghost use Rattle.model_base.specs.Progress.{first_missing};
ghost use Rattle.run_command_list.specs.Layout.{bytes_of_keys};
ghost use Rattle.run_command_list.specs.Contents.{AreKeys, AreSmall};
ghost use Rattle.run_command_list.specs.Reading.{read_keys};
ghost use Rattle.run_command_list.specs.OneList.{AreKeys-prop};

use crate::layout::append_key;
use crate::reading::split_key;
use base_bytes::{Bytes, Place, put_fixed32};
use model_base::NoMemory;
use std::alloc::Global;
use std::marker::Model;

/// Keys as parts of bytes, from the first on. Contracts see the keys that are left.
#[derive(Debug, Drop)]
pub struct Keys<'a> {
    bytes: &'a [u8],
    count: u32,
    ghost are: { AreKeys bytes.now count } by { AreKeys-prop bytes.now count },
}

impl<'a> Model for Keys<'a> {
    ghost use Rattle.std.specs.Prelude.{List};
    ghost use Rattle.model_base.specs.declared.key.Key.{Key};

    ghost Value = { List Key };

    ghost view = { λ k. k.are.keys };
}

impl<'a> Iterator for Keys<'a> {
    type Item = (u32, &'a [u8]);

    ghost use Rattle.std.specs.Iterator.{YieldsFirstBy, item_count};
    ghost use Rattle.model_base.specs.Map.{key_at};

    ghost next_gives = { YieldsFirstBy (λ k. key_at k.0 k.1.now) (λ left. left) };

    ghost remaining = { item_count (λ left. left) };

    /// The next key after its family's number, as a part of the list's bytes.
    fn next(&mut self) -> Option<(u32, &'a [u8])> {
        let (family, key, rest) = split_key(self.bytes)?;
        self.bytes = rest;
        self.count -= 1;
        Some((family, key))
    }
}

impl<'a> Keys<'a> {
    /// How many keys are left.
    pub fn len(&self) -> usize
        ensures value { result ≡ length self.now }
        ensures limit { result < 2 ^ 32 }
    {
        self.count as usize
    }

    /// The same keys from the same place on.
    pub fn again(&self) -> Keys<'a>
        ensures { result ≡ self.now }
    {
        Keys {
            bytes: self.bytes,
            count: self.count,
        }
    }

    /// The first family of the keys that isn't below this number, if there is one.
    pub fn missing_family(&self, families: u32) -> Option<u32>
        ensures { result ≡ first_missing families (map (λ (k : model_key.Key). k.family) self.now) }
    {
        // The families of the keys before this one are below it.
        for (family, _) in self.again() {
            if family >= families {
                return Some(family);
            }
        }
        None
    }

    /// Copies of the keys, as strings of their own.
    pub fn copies(self, alloc: Global) -> Result<Vec<Place>, NoMemory>
        ensures { IfOk result (λ copies. map (λ (p : place.Place). key_at p.family p.key) copies.items ≡ self.entry) }
    {
        let mut copies = Vec::with_capacity(alloc, self.len())?;
        for (family, key) in self {
            let key = Bytes::copy(alloc, key)?;
            copies.push(Place { family, key })?;
        }
        Ok(copies)
    }

    /// The `count` keys at the front of bytes, and the bytes after them.
    pub(crate) fn split(bytes: &'a [u8], count: u32) -> Option<(Keys<'a>, &'a [u8])>
        ensures { option_map (λ p. (p.0, p.1.now)) result ≡ read_keys count bytes.now }
    {
        let mut rest = bytes;
        let mut found = 0;
        while found < count {
            let (_, _, behind) = split_key(rest)?;
            rest = behind;
            found += 1;
        }
        let (front, _) = bytes.split_at(bytes.len() - rest.len());
        Some((
            Keys {
                bytes: front,
                count,
            },
            rest,
        ))
    }

    /// Appends the number of keys to bytes, and then the keys. Where memory fails, a part of them may be left there.
    pub(crate) fn append_to(&self, bytes: &mut Bytes) -> Result<(), NoMemory>
        ensures ok { OnOk result
            (bytes.new ≡ bytes.old ++ to_le_bytes w32 (length self.now) ++ bytes_of_keys self.now) }
        ensures err { OnErr result (take (length bytes.old) bytes.new ≡ bytes.old) }
        ensures small { AreSmall self.now }
        ensures few { length self.now < 2 ^ 32 }
    {
        put_fixed32(bytes, self.count)?;
        bytes.append(self.bytes)
    }
}

/// Keys that the list owns, for use as those of `CommandView::Many`. Contracts see the list of them.
#[derive(Debug, Drop)]
pub struct KeyList {
    bytes: Bytes,
    count: u32,
    ghost are: { AreKeys bytes count } by { AreKeys-prop bytes count },
}

impl Model for KeyList {
    ghost use Rattle.std.specs.Prelude.{List};
    ghost use Rattle.model_base.specs.declared.key.Key.{Key};

    ghost Value = { List Key };

    ghost view = { λ k. k.are.keys };
}

impl KeyList {
    /// No keys. This takes no memory.
    pub fn new(alloc: Global) -> KeyList
        ensures { result ≡ [] }
    {
        KeyList {
            bytes: Bytes::new(alloc),
            count: 0,
        }
    }

    /// Appends a key of a family. There is no memory for more than 2^32 - 1 keys.
    pub fn push(&mut self, family: u32, key: &[u8]) -> Result<(), NoMemory>
        requires { length key.now < 2 ^ 32 }
        ensures ok { OnOk result (self.new ≡ self.old ++ key_at family key.now ∷ []) }
        ensures err { OnErr result (self.new ≡ self.old) }
    {
        if self.count == u32::MAX {
            return Err(NoMemory);
        }
        let len = self.bytes.len();
        if append_key(&mut self.bytes, family, key).is_err() {
            self.bytes.truncate(len);
            return Err(NoMemory);
        }
        self.count += 1;
        Ok(())
    }

    /// The keys, from the first on.
    pub fn keys(&self) -> Keys<'_>
        ensures { result ≡ self.now }
    {
        Keys {
            bytes: self.bytes.as_slice(),
            count: self.count,
        }
    }

    /// Takes out all keys, and keeps their memory for others.
    pub fn clear(&mut self)
        ensures { self.new ≡ [] }
    {
        self.bytes.truncate(0);
        self.count = 0;
    }
}
