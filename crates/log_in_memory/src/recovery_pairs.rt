//! The pairs that were recovered from logs.

ghost use Rattle.std.specs.Prelude.{◌≡◌, slice_get, IfOk};
ghost use Rattle.std.specs.List.Sorted.{IsStrictlySortedBy};
ghost use Rattle.std.specs.Map.{keys_of};
ghost use Rattle.std.specs.Option.{option_map};
ghost use Rattle.std.specs.Ordering.{is_lt};
ghost use Rattle.std.proofs.Props.{props};
ghost use Rattle.model_base.specs.Map.{key_at, key_order};
ghost use Rattle.log_in_memory.specs.InOrder.{keys_before};

use base_bytes::Bytes;
use base_maps::FamilyMap;
use model_base::NoMemory;
use std::alloc::Global;
use std::cmp::Ordering;
use std::marker::Model;

/// A key of a column family with its value.
#[derive(Drop)]
pub struct FamilyPair {
    family: u32,
    key: Bytes,
    value: Bytes,
}

impl Model for FamilyPair {
    ghost use Rattle.std.specs.Prelude.{List, ℕ};
    ghost use Rattle.model_base.specs.declared.key.Key.{Key};
    ghost use Rattle.model_base.specs.Map.{key_at};

    ghost Value = { Key × List ℕ };

    ghost view = { λ p. (key_at p.family p.key, p.value) };
}

/// The pairs of keys and values that were recovered from logs which were written one after another, by family and in
/// each family in the byte order of the keys; and what a later log goes on from.
#[derive(Drop)]
pub struct RecoveryPairs {
    pub pairs: Vec<FamilyPair>,
    /// The last sequence of these logs, 0 where there is none.
    pub last: u64,
    /// Whether the last one of them is whole, so that recovery goes on in a later log.
    pub goes_on: bool,
    ghost ordered: { IsStrictlySortedBy key_order (keys_of pairs.items) } by { Prim.hlevel props },
}

impl RecoveryPairs {
    /// The pairs of a map, each of which is copied, the last sequence, and whether recovery goes on.
    pub fn of(
        alloc: Global,
        map: &FamilyMap,
        last: u64,
        goes_on: bool,
    ) -> Result<RecoveryPairs, NoMemory>
        ensures pairs { IfOk result (λ r. r.pairs.items ≡ map.now) }
        ensures last { IfOk result (λ r. r.last ≡ last) }
        ensures goes_on { IfOk result (λ r. r.goes_on ≡ goes_on) }
    {
        let pairs = pairs_of(alloc, map)?;
        map.in_order();
        Ok(RecoveryPairs {
            pairs,
            last,
            goes_on,
        })
    }

    /// A map of the pairs. Each is copied.
    pub fn to_map(&self, alloc: Global) -> Result<FamilyMap, NoMemory>
        ensures { IfOk result (λ map. map ≡ self.now.pairs.items) }
    {
        let mut map = FamilyMap::new(alloc);
        // The map has the pairs so far.
        for pair in &self.pairs {
            map.insert(pair.family, pair.key.as_slice(), pair.value.as_slice())?;
        }
        Ok(map)
    }

    /// The family, the key and the value of the pair with this index, if there is one.
    pub fn get(&self, index: usize) -> Option<(u32, &[u8], &[u8])>
        ensures { option_map (λ p. (key_at p.0 p.1.now, p.2.now)) result ≡ slice_get self.now.pairs.items index }
    {
        match self.pairs.as_slice().get(index) {
            Some(pair) => Some((pair.family, pair.key.as_slice(), pair.value.as_slice())),
            None => None,
        }
    }

    /// How many keys come before this one.
    pub fn index_of(&self, family: u32, key: &[u8]) -> usize
        ensures { result ≡ keys_before self.now.pairs.items (key_at family key.now) }
    {
        self.pairs.as_slice().partition_point(
            |pair: &FamilyPair| -> bool
                ensures { result ≡ is_lt (key_order pair.now.0 (key_at family key.entry.now)) }
            { order(pair.family, pair.key.as_slice(), family, key).is_lt() },
        )
    }
}

/// The pairs of a map in their order.
fn pairs_of(alloc: Global, map: &FamilyMap) -> Result<Vec<FamilyPair>, NoMemory>
    ensures { IfOk result (λ pairs. pairs.items ≡ map.now) }
{
    let mut pairs = Vec::new(alloc);
    // The pairs so far, and after them those that are left, are all pairs of the map.
    for (family, key, value) in map.iter() {
        pairs.push(FamilyPair {
            family,
            key: Bytes::copy(alloc, key)?,
            value: Bytes::copy(alloc, value)?,
        })?;
    }
    Ok(pairs)
}

/// How a key compares with another: by family, and in a family in byte order.
pub fn order(family: u32, key: &[u8], other_family: u32, other: &[u8]) -> Ordering
    ensures { result ≡ key_order (key_at family key.now) (key_at other_family other.now) }
{
    let by_family = family.cmp(&other_family);
    if by_family.is_ne() {
        return by_family;
    }
    key.cmp(other)
}
