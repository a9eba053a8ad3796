//! Where a key is in a page.

ghost use Rattle.std.specs.Prelude.{◌≡◌, MatchResult};
ghost use Rattle.std.specs.List.{AllByRecursion};
ghost use Rattle.base_keys.specs.Fronts.{front_of};
ghost use Rattle.table_nodes.specs.Chains.{AreSorted};
ghost use Rattle.table_nodes.specs.Nodes.{at_key};
ghost use Rattle.table_tree.specs.Places.{IsOfFamilies, IsEntry, IsPlace};

use crate::entry::{Entry, Families};
use base_keys::Front;
use std::cmp::Ordering;

/// Which entry a family's key has, or else before which one it would have one: there the page below is that has it. The
/// caller gives the key's front too.
pub(crate) fn place_of(
    entries: &[Entry],
    families: Families,
    family: u32,
    key: &[u8],
    front: Front,
) -> Result<usize, usize>
    requires front { front ≡ front_of 16 key.now }
    requires families { AllByRecursion (IsOfFamilies families.lowest families.greatest) entries.now }
    requires sorted { AreSorted entries.now }
    ensures { MatchResult result (IsEntry (at_key family key.now) entries.now)
        (IsPlace (at_key family key.now) entries.now) }
{
    let (mut low, mut high) = (0, entries.len());
    // The entries before `low` are below the key, and those from `high` on are above it.
    while low < high {
        let middle = low + (high - low) / 2;
        match entries[middle].order_of(families, family, key, front) {
            Ordering::Less => high = middle,
            Ordering::Equal => return Ok(middle),
            Ordering::Greater => low = middle + 1,
        }
    }
    Err(low)
}
