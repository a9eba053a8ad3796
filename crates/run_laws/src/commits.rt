//! When a commit is accepted.
//!
//! If the log has no fault, a commit that a client reaches is accepted, or finds no memory, unless one of a few causes
//! holds for it. Each cause can be seen from the script and from what the clients were answered. `specs/Accepting` has
//! the causes.

ghost use Rattle.std.specs.Prelude.{◌≡◌, ◌⊎◌, ℕ, List, None};
ghost use Rattle.model_base.specs.declared.write.WriteOptions.{WriteOptions};
ghost use Rattle.model_base.specs.Calls.{Reply, no_memory, Call, Outcome};
ghost use Rattle.model_base.specs.Trace.{Settings};
ghost use Rattle.model_base.specs.Progress.{batch_after};
ghost use Rattle.model_base.specs.Outcomes.{IsLegal};
ghost use Rattle.model_base.specs.Script.{Script};
ghost use Rattle.run_laws.specs.Accepting.{HasRoom, IsNotHeldUp, ReachesCommit, PassesChecks, IsAccepted};

/// In a legal outcome without a fault of the log, a commit is accepted or finds no memory if three things hold: its
/// batch and its options pass the checks; there are sequences for the batches of all commits that the clients reached;
/// and either the commit may wait, or no client asks for a stop or a slowdown.
pub fn commits_are_accepted()
    // So each refusal has one of these causes, and the script and the replies are enough to see which.
    ensures accepted { (settings : Settings) (ended : ℕ) (script : Script) (o : Outcome) (client : ℕ)
        (before : List Call) (how : WriteOptions) (reply : Reply)
        → IsLegal settings ended script o → o.fault ≡ None → ReachesCommit o client before how reply
        → PassesChecks settings before how → HasRoom settings o → IsNotHeldUp script how
        → IsAccepted (batch_after before) reply ⊎ (reply ≡ no_memory) }
{}
