//! What a map answers to reads.

ghost use Rattle.std.specs.Prelude.{◌≡◌, [], ◌∷◌, ◌++◌, map, IfOk, OnOk};
ghost use Rattle.std.specs.Ordering.{is_lt};
ghost use Rattle.model_base.specs.Map.{byte_order, key_at, rows_within, value_at};
ghost use Rattle.base_bytes.specs.Answers.{found_value};

use base_bytes::{Bytes, Found, FoundList, PairList};
use base_maps::FamilyMap;
use model_base::NoMemory;
use run_command_list::Keys;
use std::alloc::Global;

/// The value of a family's key in the map, if it has one.
pub(crate) fn value_in(
    alloc: Global,
    pairs: &FamilyMap,
    family: u32,
    key: &[u8],
) -> Result<Found, NoMemory>
    ensures { IfOk result (λ found. found_value found ≡ value_at pairs.now (key_at family key.now)) }
{
    match pairs.get(family, key) {
        Some(value) => Ok(Found::Value(Bytes::copy(alloc, value)?)),
        None => Ok(Found::Absent),
    }
}

/// The value of each of these keys in the map, if it has one, in the order of the keys.
pub(crate) fn values_in(
    alloc: Global,
    pairs: &FamilyMap,
    keys: Keys<'_>,
) -> Result<FoundList, NoMemory>
    ensures { IfOk result (λ values. values ≡ map (value_at pairs.now) keys.entry) }
{
    let mut values = FoundList::new(alloc);
    // There is a value, or none, for each key so far.
    for (family, key) in keys {
        values.push(value_in(alloc, pairs, family, key)?)?;
    }
    Ok(values)
}

/// The keys of a family in the map from `lo` on and below `hi`, with their values, in the byte order of the keys.
pub(crate) fn rows_in(
    alloc: Global,
    pairs: &FamilyMap,
    family: u32,
    lo: &[u8],
    hi: &[u8],
) -> Result<PairList, NoMemory>
    ensures { IfOk result (λ rows. rows ≡ rows_within family lo.now hi.now pairs.now) }
{
    let mut rows = PairList::new(alloc);
    // The rows are those of the family's keys so far that are in the range.
    for (own, key, value) in pairs.iter() {
        if own == family && !is_before(key, lo) && is_before(key, hi) {
            rows.push(Bytes::copy(alloc, key)?, Bytes::copy(alloc, value)?)?;
        }
    }
    Ok(rows)
}

/// Whether a key comes before another in byte order.
fn is_before(key: &[u8], other: &[u8]) -> bool
    ensures { result ≡ is_lt (byte_order key.now other.now) }
{
    key.cmp(other).is_lt()
}
