//! The maps of all column families, each a map of bytes, as one map.

ghost use Rattle.std.specs.Prelude.{◌≡◌, ◌<◌, ◌^◌, [], length, OnOk, OnErr};
ghost use Rattle.std.specs.Option.{option_copied};
ghost use Rattle.std.specs.BTreeMap.{insert_entry, is_at};
ghost use Rattle.std.specs.List.Sorted.{IsStrictlySortedBy};
ghost use Rattle.std.specs.Map.{keys_of, remove_entry};
ghost use Rattle.model_base.specs.Map.{greatest_family, key_order, value_at};

use crate::byte_map::{ByteMap, BytePairs};
use model_base::NoMemory;
use std::alloc::Global;
use std::collections::{BTreeMap, btree_map};
use std::marker::Model;

/// The maps of all column families. Contracts see the list of their pairs, by family and in each family in the byte
/// order of the keys.
///
/// The default family, whose number is 0, has its map in place, so that it costs nothing that there are others.
#[derive(Debug, Drop)]
pub(crate) struct FamilyTrees {
    alloc: Global,
    first: ByteMap,
    /// The maps of the other families. One of them may be empty, where its keys were removed.
    others: BTreeMap<u32, ByteMap>,
}

impl Model for FamilyTrees {
    ghost use Rattle.std.specs.Prelude.{◌∷◌};
    ghost use Rattle.model_base.specs.Map.{Pairs};
    ghost use Rattle.base_maps.specs.Families.{pairs_of, AreFamilies};

    ghost Value = { Pairs };

    ghost view = { λ m. pairs_of ((0, m.first) ∷ m.others.entries) };

    ghost invariant = { λ m. AreFamilies ((0, m.first) ∷ m.others.entries) };
}

impl FamilyTrees {
    /// No pairs. This takes no memory.
    pub(crate) fn new(alloc: Global) -> FamilyTrees
        ensures { result ≡ [] }
    {
        FamilyTrees {
            alloc,
            first: ByteMap::new(alloc),
            others: BTreeMap::new(alloc),
        }
    }

    /// Gives a key of a family a value, which replaces the value that it had.
    pub(crate) fn insert(&mut self, family: u32, key: &[u8], value: &[u8]) -> Result<(), NoMemory>
        ensures ok { OnOk result (self.new ≡ insert_entry key_order self.old
            (record { family = family; bytes = key.now }) value.now) }
        ensures err { OnErr result (self.new ≡ self.old) }
    {
        if family == 0 {
            let result = self.first.insert(key, value);
            self.first.in_order();
            return result;
        }
        if let Some(map) = self.others.get_mut(&family) {
            let result = map.insert(key, value);
            map.in_order();
            return result;
        }
        let mut map = ByteMap::new(self.alloc);
        map.insert(key, value)?;
        map.in_order();
        self.others.insert(family, map)?;
        Ok(())
    }

    /// Removes a key of a family, if it is there. This takes no memory.
    pub(crate) fn remove(&mut self, family: u32, key: &[u8])
        ensures { self.new ≡ remove_entry (is_at (key_order (record { family = family; bytes = key.now }))) self.old }
    {
        if family == 0 {
            self.first.remove(key);
            self.first.in_order();
            return;
        }
        if let Some(map) = self.others.get_mut(&family) {
            map.remove(key);
            map.in_order();
        }
    }

    /// The value of a key of a family, if it has one. This takes no memory.
    pub(crate) fn get(&self, family: u32, key: &[u8]) -> Option<&[u8]>
        ensures { option_copied result ≡ value_at self.now (record { family = family; bytes = key.now }) }
    {
        if family == 0 {
            return self.first.get(key);
        }
        self.others.get(&family)?.get(key)
    }

    /// No key occurs twice, and each comes before those above it. At run time this does nothing.
    pub(crate) fn in_order(&self)
        ensures { IsStrictlySortedBy key_order (keys_of self.now) }
    {
        let (_, _) = (&self.first, &self.others);
    }

    /// How many keys all families have together.
    pub(crate) fn len(&self) -> usize
        requires { length self.now < 2 ^ 64 }
        ensures { result ≡ length self.now }
    {
        let mut count = self.first.len();
        // The maps so far have this many keys.
        for (_, map) in self.others.iter() {
            count += map.len();
        }
        count
    }

    /// The greatest family that has a key, or 0 where there are no keys.
    pub(crate) fn greatest_family(&self) -> u32
        ensures { result ≡ greatest_family self.now }
    {
        let mut greatest: u32 = 0;
        // It is that of the maps so far.
        for (family, map) in self.others.iter() {
            if map.len() > 0 {
                greatest = greatest.max(*family);
            }
        }
        greatest
    }

    /// The pairs, by family and in each family in the byte order of the keys.
    pub(crate) fn iter(&self) -> FamilyPairs<'_>
        ensures { result ≡ self.now }
    {
        FamilyPairs {
            family: 0,
            rows: self.first.iter(),
            others: self.others.iter(),
        }
    }
}

/// The pairs of a [`FamilyMap`] in order, each with the number of its family. Contracts see the pairs that are left.
///
/// [`FamilyMap`]: crate::FamilyMap
#[derive(Drop)]
pub struct FamilyPairs<'a> {
    family: u32,
    /// The pairs of this family that are left.
    rows: BytePairs<'a>,
    /// The families after it.
    others: btree_map::Iter<'a, u32, ByteMap>,
}

impl<'a> Model for FamilyPairs<'a> {
    ghost use Rattle.std.specs.Prelude.{◌∷◌};
    ghost use Rattle.model_base.specs.Map.{Pairs};
    ghost use Rattle.base_maps.specs.Families.{pairs_of};

    ghost Value = { Pairs };

    ghost view = { λ i. pairs_of ((i.family, i.rows) ∷ i.others) };
}

impl<'a> Iterator for FamilyPairs<'a> {
    type Item = (u32, &'a [u8], &'a [u8]);

    ghost use Rattle.std.specs.Iterator.{YieldsFirstBy, item_count};

    ghost next_gives = { YieldsFirstBy (λ p. (record { family = p.0; bytes = p.1.now }, p.2.now)) (λ left. left) };

    ghost remaining = { item_count (λ left. left) };

    fn next(&mut self) -> Option<(u32, &'a [u8], &'a [u8])> {
        // What is left is the rest of this family, and then the families after it.
        loop {
            if let Some((key, value)) = self.rows.next() {
                return Some((self.family, key, value));
            }
            let (family, map) = self.others.next()?;
            self.family = *family;
            self.rows = map.iter();
        }
    }
}
