//! An example: which versions the records of batches become in the parts of a group.

ghost use Rattle.std.specs.Prelude.{◌≡◌, [], ◌∷◌, ◌++◌};
ghost use Rattle.table_nodes.specs.Parts.{with_part, group_of};
ghost use Rattle.tests_table.specs.Examples.{versions_from, three_at, of_member};

/// Each batch has a record of each kind, and one of these names a family. Log data makes no version, and a single
/// deletion makes the same version as a deletion. A member's second batch comes after its first one, not after another
/// member's.
pub fn parts_of_a_group()
    ensures { group_of (with_part (with_part (with_part [] 2 (versions_from 7)) 1 (versions_from 20)) 2
        (versions_from 30))
        ≡ of_member 2 (three_at 7 8 9 ++ three_at 30 31 32) ∷ of_member 1 (three_at 20 21 22) ∷ [] }
{}
