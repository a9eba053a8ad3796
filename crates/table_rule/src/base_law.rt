//! A table may be opened over a map.
ghost use Rattle.std.specs.Prelude.{◌≡◌, ℕ, ◌≤◌, []};
ghost use Rattle.std.specs.List.Sorted.{IsStrictlySortedBy};
ghost use Rattle.std.specs.Map.{keys_of};
ghost use Rattle.model_base.specs.Map.{Pairs, key_order};
ghost use Rattle.table_rule.specs.Histories.{versions_at, map_after, IsBase};

/// The versions of a map's pairs make that map. A table may be opened over them at their sequence, or at a later one.
pub fn maps_as_bases()
    ensures map { (n : ℕ) (pairs : Pairs) → IsStrictlySortedBy key_order (keys_of pairs)
        → map_after (versions_at n pairs) [] ≡ pairs }
    ensures base { (start n : ℕ) (pairs : Pairs) → n ≤ start → IsBase start (versions_at n pairs) }
{}
