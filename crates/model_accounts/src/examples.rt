//! Examples: what can be seen of a batch; a client that commits one; two clients in one group; and which entries
//! groups made.

ghost use Rattle.std.specs.Prelude.{◌≡◌, List, [], ◌∷◌, None};
ghost use Rattle.model_base.specs.Groups.{Group};
ghost use Rattle.model_accounts.specs.Sights.{Saw};
ghost use Rattle.model_accounts.specs.Accounts.{Wrote};
ghost use Rattle.model_accounts.specs.Closing.{IsClosing};
ghost use Rattle.model_accounts.specs.ClientRuns.{HaveRun};
ghost use Rattle.model_accounts.specs.Examples.{settings, two_records, plain, one_batch, one_group, first_version, second_version, sight_of, before, after, commands, calls, pair_settings, pair_trace, pair_group, pair_accounts, three_attempts, group_of_call};
ghost use Rattle.model_runs.specs.Parts.{names_made};

/// A batch is seen whole or not at all.
pub fn whole_batches_alone()
    ensures whole { Saw (sight_of (first_version ∷ second_version ∷ [])) one_batch }
    ensures half { Saw (sight_of (first_version ∷ [])) one_batch → ⊥ }
{}

/// A client that adds two records and commits them: the commit, the client's run, and the closing of a run of this
/// client alone. The commit is a group by itself, for which the controller was asked for a delay.
pub fn one_commit()
    ensures wrote { Wrote settings before two_records plain 1 2 after }
    ensures run { HaveRun settings (commands ∷ []) (calls ∷ []) (after ∷ []) }
    ensures closing { IsClosing settings 0 one_batch (one_group ∷ []) (after ∷ []) 2 None }
{}

/// Two clients whose batches, of one record each, went as one group. Each of them learns the group's end. If the first
/// one learned the end of its own batch instead, this would be no closing, whatever the groups.
pub fn two_in_a_group()
    ensures closing { IsClosing pair_settings 0 pair_trace (pair_group ∷ []) (pair_accounts 2) 2 None }
    ensures own_end { (groups : List Group)
        → IsClosing pair_settings 0 pair_trace groups (pair_accounts 1) 2 None → ⊥ }
{}

/// A group made entries only for those of its members that succeeded. Of a client's commits that were accepted,
/// refused and accepted, the second made no entry, and the third made the client's second entry.
pub fn entries_of_groups()
    ensures none { names_made (three_attempts ∷ []) (group_of_call 1) ≡ [] }
    ensures second { names_made (three_attempts ∷ []) (group_of_call 2) ≡ (1, 2) ∷ [] }
{}
