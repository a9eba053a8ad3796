//! Recovery of several logs is a function of their bytes.
//!
//! Of a crash in a run over several logs it is promised that whatever they recover is a prefix of their records
//! (`RecoverPrefix`). If they recovered nothing, that would say nothing. These laws say that there is always something
//! that they recover, and only one thing. `recovery_is_a_function` of `log_recovery_laws` says it of one log; but a log
//! that comes after others is recovered otherwise, since its runs must rise above theirs.

ghost use Rattle.std.specs.Prelude.{◌≡◌, ◌≢◌, ℕ, List, [], map, Option, ⊤};
ghost use Rattle.std.specs.List.{AllByRecursion};
ghost use Rattle.model_base.specs.Log.{plain_log};
ghost use Rattle.model_base.specs.Recovery.{Recovered, logged_bytes};
ghost use Rattle.model_base.specs.RecoveredLogs.{AreRecovered, IsRecoveredAfter, RecoveredLogs};
ghost use Rattle.log_laws.specs.Fronts.{AreFront, NoChances, records_in};
ghost use Rattle.log_laws.specs.Prefixes.{IsPrefix};
ghost use Rattle.log_recovery_laws.specs.Reads.{AreBytes};

/// Recovery of a log whose runs must rise above any sequence has a result, and only one.
pub fn a_later_log_recovers_one_thing()
    ensures some { (last : ℕ) (number : Option ℕ) (file : List ℕ) → AreBytes file
        → (r : Recovered) × IsRecoveredAfter last number file r }
    ensures at_most_one { (last : ℕ) (number : Option ℕ) (file : List ℕ) (one other : Recovered)
        → IsRecoveredAfter last number file one → IsRecoveredAfter last number file other → one ≡ other }
{}

/// So recovery of one log after another has a result, if there is a log at all, and only one.
pub fn several_logs_recover_one_thing()
    // Without this "whatever several logs recover is a prefix" would hold of nothing.
    ensures some { (number : Option ℕ) (files : List (List ℕ)) → files ≢ [] → AllByRecursion AreBytes files
        → (r : RecoveredLogs) × AreRecovered number files r }
    ensures at_most_one { (number : Option ℕ) (files : List (List ℕ)) (one other : RecoveredLogs)
        → AreRecovered number files one → AreRecovered number files other → one ≡ other }
    // Recovery ends in a log, so no logs at all have no result.
    ensures no_logs { (number : Option ℕ) (r : RecoveredLogs) → AreRecovered number [] r → ⊥ }
    // What a crash leaves of several logs is at least one file. So it recovers something, and that is a prefix of all
    // their records, unless a checksum is right by chance. `fronts_recover_prefixes` promises only that whatever it
    // recovers is such a prefix.
    ensures prefix { (safe : ℕ) (logs : List (List (List ℕ))) (images : List (List ℕ)) → AllByRecursion AreBytes images
        → AreFront safe logs images → NoChances logs images
        → (r : RecoveredLogs) × AreRecovered plain_log images r
        × IsPrefix (map logged_bytes r.batches) (records_in logs) (λ n. ⊤) }
{}
