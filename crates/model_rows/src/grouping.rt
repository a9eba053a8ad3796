//! Which writes a leader takes into its group, where a group may have 1 MiB.

ghost use Rattle.std.specs.Prelude.{◌≡◌, [], ◌∷◌, true};
ghost use Rattle.model_base.specs.declared.group.Item.{Item};
ghost use Rattle.model_base.specs.Grouping.{group_len};
ghost use Rattle.model_rows.specs.Examples.{plain, sized, sized_with, lone};

/// A leader that no one follows is its own group, however large it is.
pub fn group_of_one()
    ensures alone { (leader : Item) → group_len 1048576 (leader ∷ []) ≡ 1 }
{}

/// A small leader's group may have 128 KiB more than the leader's own bytes, and no more than that.
pub fn groups_by_size()
    ensures just_fits { group_len 1048576 (sized 100 ∷ sized 131072 ∷ []) ≡ 2 }
    ensures one_byte_more { group_len 1048576 (sized 100 ∷ sized 131073 ∷ []) ≡ 1 }
{}

/// A write that goes alone takes nobody into its group, and joins none.
pub fn groups_of_alone()
    ensures takes_nobody { group_len 1048576 (lone 100 ∷ sized 100 ∷ []) ≡ 1 }
    ensures joins_nobody { group_len 1048576 (sized 100 ∷ lone 100 ∷ []) ≡ 1 }
{}

/// A leader that doesn't sync takes no write that asks for a sync. One that syncs takes both kinds. A plain leader
/// takes no write with `no_log` or `no_slowdown`.
pub fn groups_by_options()
    ensures sync_behind { group_len 1048576 (sized 100 ∷ sized_with 100 (record plain { sync = true }) ∷ []) ≡ 1 }
    ensures sync_ahead { group_len 1048576 (sized_with 100 (record plain { sync = true }) ∷ sized 100 ∷ []) ≡ 2 }
    ensures no_log_behind { group_len 1048576 (sized 100 ∷ sized_with 100 (record plain { no_log = true }) ∷ []) ≡ 1 }
    ensures no_slowdown_behind { group_len 1048576
        (sized 100 ∷ sized_with 100 (record plain { no_slowdown = true }) ∷ []) ≡ 1 }
{}
