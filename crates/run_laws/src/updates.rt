//! When a read of the log gives its records.

ghost use Rattle.std.specs.Prelude.{◌≡◌, ◌⊎◌, ℕ, List, [], false};
ghost use Rattle.model_base.specs.Calls.{Reply, no_memory, Call, Outcome};
ghost use Rattle.model_base.specs.Trace.{Settings};
ghost use Rattle.model_base.specs.Outcomes.{IsLegal, read_faults_in};
ghost use Rattle.model_base.specs.Script.{Script};
ghost use Rattle.run_laws.specs.Accepting.{ReachesUpdates, IsGiven, stops_after};

/// In a legal outcome in which no read of the log failed, a read of the log that a client reaches gives its records or
/// finds no memory, unless the client holds a stop token.
pub fn updates_are_given()
    ensures given { (settings : Settings) (ended : ℕ) (script : Script) (o : Outcome) (client : ℕ)
        (before : List Call) (s : ℕ) (reply : Reply)
        → IsLegal settings ended script o → read_faults_in o.transcripts ≡ []
        → ReachesUpdates o client before s reply → stops_after before ≡ false
        → IsGiven reply ⊎ (reply ≡ no_memory) }
{}
