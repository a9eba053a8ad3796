//! A client's calls, one after another.

ghost use Rattle.std.specs.Prelude.{◌≡◌, ◌++◌, ℕ, List, [], ◌∷◌};
ghost use Rattle.model_base.specs.Batch.{Record};
ghost use Rattle.model_base.specs.Map.{Pairs};
ghost use Rattle.model_base.specs.Trace.{Settings};
ghost use Rattle.model_base.specs.Runs.{commands_of};
ghost use Rattle.model_base.specs.Calls.{Command, Reply, no_memory, Call};
ghost use Rattle.model_accounts.specs.Accounts.{Account, newcomer, GivesBack};
ghost use Rattle.model_accounts.specs.ClientRuns.{Goes, Lacks, Went, HasRun, with_call};

/// A client starts with nothing, and each step takes it on.
pub fn calls_one_after_another()
    ensures no_call { (settings : Settings) (start : ℕ) (opening : Pairs) (number : ℕ)
        → Went settings [] (newcomer start opening number) [] }
    ensures one_more { (settings : Settings) (calls : List Call) (v : Account) (before : List Record) (c : Command)
        (r : Reply)
        (w : Account) (after : List Record)
        → Went settings calls v before → Goes settings v before c r w after
        → Went settings (with_call calls c r) w after }
{}

/// A client's run ends when all its commands were answered, or when one found no memory. By then it has given back the
/// tokens that it held.
pub fn runs_end()
    ensures whole { (settings : Settings) (calls : List Call) (v : Account) (pending : List Record) (w : Account)
        → Went settings calls v pending → GivesBack v w → HasRun settings v.number (commands_of calls) calls w }
    ensures cut_off { (settings : Settings) (calls : List Call) (v : Account) (pending : List Record) (last : Command)
        (rest : List Command) (u w : Account)
        → Went settings calls v pending → Lacks settings v pending last u → GivesBack u w
        → HasRun settings v.number (commands_of (with_call calls last no_memory) ++ rest)
        (with_call calls last no_memory) w }
{}
