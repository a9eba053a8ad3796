//! An ordered map of keys in column families.

ghost use Rattle.std.specs.Prelude.{◌≡◌, [], length, OnOk, OnErr};
ghost use Rattle.std.specs.Option.{option_copied};
ghost use Rattle.std.specs.BTreeMap.{insert_entry, is_at};
ghost use Rattle.std.specs.List.Sorted.{IsStrictlySortedBy};
ghost use Rattle.std.specs.Map.{keys_of, remove_entry};
ghost use Rattle.model_base.specs.Map.{greatest_family, key_order, value_at};

use crate::family_trees::{FamilyPairs, FamilyTrees};
use model_base::NoMemory;
use std::alloc::Global;
use std::marker::Model;

/// A map of keys in column families to values. Contracts see the list of its pairs, by family and in each family in the
/// byte order of the keys.
///
/// As long as all keys are in the default family, whose number is 0, it costs no more than a [`ByteMap`].
///
/// [`ByteMap`]: crate::ByteMap
#[derive(Debug, Drop)]
pub struct FamilyMap {
    trees: FamilyTrees,
    /// How often a key was given a value. There are no more keys than that, so that their number fits.
    given: usize,
}

impl Model for FamilyMap {
    ghost use Rattle.model_base.specs.Map.{Pairs};
    ghost use Rattle.base_maps.specs.Families.{AreFew};

    ghost Value = { Pairs };

    ghost view = { λ m. m.trees };

    ghost invariant = { λ m. AreFew m.trees m.given };
}

impl FamilyMap {
    /// No pairs. This takes no memory.
    pub fn new(alloc: Global) -> FamilyMap
        ensures { result ≡ [] }
    {
        FamilyMap {
            trees: FamilyTrees::new(alloc),
            given: 0,
        }
    }

    /// Gives a key of a family a value, which replaces the value that it had. A key or a value of 2^32 bytes or more is
    /// refused too as `NoMemory`.
    pub fn insert(&mut self, family: u32, key: &[u8], value: &[u8]) -> Result<(), NoMemory>
        ensures ok { OnOk result (self.new ≡ insert_entry key_order self.old
            (record { family = family; bytes = key.now }) value.now) }
        ensures err { OnErr result (self.new ≡ self.old) }
    {
        // No memory has room for so many keys.
        if self.given == usize::MAX {
            return Err(NoMemory);
        }
        self.trees.insert(family, key, value)?;
        self.given += 1;
        Ok(())
    }

    /// Removes a key of a family, if it is there. This takes no memory.
    pub fn remove(&mut self, family: u32, key: &[u8])
        ensures { self.new ≡ remove_entry (is_at (key_order (record { family = family; bytes = key.now }))) self.old }
    {
        self.trees.remove(family, key);
    }

    /// The value of a key of a family, if it has one. This takes no memory.
    pub fn get(&self, family: u32, key: &[u8]) -> Option<&[u8]>
        ensures { option_copied result ≡ value_at self.now (record { family = family; bytes = key.now }) }
    {
        self.trees.get(family, key)
    }

    /// No key occurs twice, and each comes before those above it. At run time this does nothing.
    pub fn in_order(&self)
        ensures { IsStrictlySortedBy key_order (keys_of self.now) }
    {
        self.trees.in_order();
    }

    /// How many keys it has, in all families together.
    pub fn len(&self) -> usize
        ensures { result ≡ length self.now }
    {
        self.trees.len()
    }

    /// The greatest family that has a key, or 0 where there are no keys.
    pub fn greatest_family(&self) -> u32
        ensures { result ≡ greatest_family self.now }
    {
        self.trees.greatest_family()
    }

    /// The pairs, by family and in each family in the byte order of the keys.
    pub fn iter(&self) -> FamilyPairs<'_>
        ensures { result ≡ self.now }
    {
        self.trees.iter()
    }
}
