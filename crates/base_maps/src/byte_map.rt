//! An ordered map of bytes.

ghost use Rattle.std.specs.Prelude.{◌≡◌, [], length, OnOk, OnErr};
ghost use Rattle.std.specs.Option.{option_copied};
ghost use Rattle.std.specs.BTreeMap.{insert_entry, is_at};
ghost use Rattle.std.specs.List.Sorted.{IsStrictlySortedBy};
ghost use Rattle.std.specs.Map.{keys_of, remove_entry};
ghost use Rattle.model_base.specs.Map.{byte_order, row_at};

use crate::part::{get_in, insert_in, remove_in};
use crate::shelf::{Shelf, ShelfPairs};
use model_base::NoMemory;
use std::alloc::Global;
use std::marker::Model;
use std::slice;

/// A map of keys to values, both of bytes. Contracts see the list of its pairs, in the byte order of the keys.
///
/// The pairs are on pages of some five hundred bytes, and the pages on shelves. So short pairs have no allocations of
/// their own, and no look-up and no removal takes memory.
#[derive(Debug, Drop)]
pub struct ByteMap {
    alloc: Global,
    shelves: Vec<Shelf>,
    count: usize,
}

impl Model for ByteMap {
    ghost use Rattle.model_base.specs.Map.{Rows};
    ghost use Rattle.base_maps.specs.Parts.{all_in, AreParts};

    ghost Value = { Rows };

    ghost view = { λ m. all_in m.shelves.items };

    ghost invariant = { λ m. AreParts m.shelves.items m.count };
}

impl ByteMap {
    /// No pairs. This takes no memory.
    pub fn new(alloc: Global) -> ByteMap
        ensures { result ≡ [] }
    {
        ByteMap {
            alloc,
            shelves: Vec::new(alloc),
            count: 0,
        }
    }

    /// Gives a key a value, which replaces the value that it had. A key or a value of 2^32 bytes or more is refused
    /// too as `NoMemory`.
    pub fn insert(&mut self, key: &[u8], value: &[u8]) -> Result<(), NoMemory>
        ensures ok { OnOk result (self.new ≡ insert_entry byte_order self.old key.now value.now) }
        // This is the only call of the map that can fail for want of memory.
        ensures err { OnErr result (self.new ≡ self.old) }
    {
        // No memory has room for so many keys.
        if self.count == usize::MAX {
            return Err(NoMemory);
        }
        if self.shelves.is_empty() {
            let shelf = Shelf::of_pair(self.alloc, key, value)?;
            self.shelves.push(shelf)?;
            self.count = 1;
            return Ok(());
        }
        if insert_in(self.alloc, &mut self.shelves, key, value)? {
            self.count += 1;
        }
        Ok(())
    }

    /// Removes a key, if it is there. This takes no memory.
    pub fn remove(&mut self, key: &[u8])
        ensures { self.new ≡ remove_entry (is_at (byte_order key.now)) self.old }
    {
        if remove_in(&mut self.shelves, key) {
            self.count -= 1;
        }
    }

    /// The value of a key, if it has one. This takes no memory.
    pub fn get(&self, key: &[u8]) -> Option<&[u8]>
        ensures { option_copied result ≡ row_at self.now key.now }
    {
        get_in(&self.shelves, key)
    }

    /// No key occurs twice, and each comes before those above it. At run time this does nothing.
    pub fn in_order(&self)
        ensures { IsStrictlySortedBy byte_order (keys_of self.now) }
    {
        let _ = &self.shelves;
    }

    /// How many keys it has.
    pub fn len(&self) -> usize
        ensures { result ≡ length self.now }
    {
        self.count
    }

    /// The pairs in the byte order of the keys.
    pub fn iter(&self) -> BytePairs<'_>
        ensures { result ≡ self.now }
    {
        BytePairs {
            pairs: ShelfPairs::none(),
            shelves: self.shelves.iter(),
        }
    }
}

/// The pairs of a [`ByteMap`] in order. Contracts see the pairs that are left.
#[derive(Drop)]
pub struct BytePairs<'a> {
    /// The pairs of this shelf that are left.
    pairs: ShelfPairs<'a>,
    /// The shelves after it.
    shelves: slice::Iter<'a, Shelf>,
}

impl<'a> Model for BytePairs<'a> {
    ghost use Rattle.std.specs.Prelude.{◌++◌};
    ghost use Rattle.model_base.specs.Map.{Rows};
    ghost use Rattle.std.specs.Slice.Iter.{iter_rest};
    ghost use Rattle.base_maps.specs.Parts.{all_in};

    ghost Value = { Rows };

    ghost view = { λ i. i.pairs ++ all_in (iter_rest i.shelves) };
}

impl<'a> Iterator for BytePairs<'a> {
    type Item = (&'a [u8], &'a [u8]);

    ghost use Rattle.std.specs.Iterator.{YieldsFirstBy, item_count};

    ghost next_gives = { YieldsFirstBy (λ p. (p.0.now, p.1.now)) (λ left. left) };

    ghost remaining = { item_count (λ left. left) };

    fn next(&mut self) -> Option<(&'a [u8], &'a [u8])> {
        // What is left is the rest of this shelf, and then the shelves after it.
        loop {
            if let Some((key, value)) = self.pairs.next() {
                return Some((key, value));
            }
            let shelf = self.shelves.next()?;
            self.pairs = shelf.pairs();
        }
    }
}
