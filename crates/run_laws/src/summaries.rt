//! What all outcomes of one generated script have in common.
//!
//! A generated script has several clients, each of which commits batches with keys of its own. The order of these
//! batches in the one history depends on the schedule; the numbers that are printed of it don't. `specs/Summaries`
//! says what the summary is, by the script alone.

ghost use Rattle.std.specs.Prelude.{◌≡◌, ℕ, ◌<◌, ◌≤◌, [], None};
ghost use Rattle.std.specs.List.{AllByRecursion};
ghost use Rattle.model_base.specs.Calls.{Outcome};
ghost use Rattle.model_base.specs.Trace.{Settings};
ghost use Rattle.model_base.specs.Runs.{NoneWithoutMemory};
ghost use Rattle.model_base.specs.Outcomes.{IsLegal};
ghost use Rattle.model_base.specs.Script.{value_of_digits};
ghost use Rattle.model_base.specs.Generator.{script_of_seed, summary_text};
ghost use Rattle.run_laws.specs.Summaries.{summary_of};

use model_base::{MAX_CLIENTS, MAX_SIZE};

/// All legal outcomes of one generated script, of at most 64 clients and 100000 batches of each, have one summary,
/// whatever the schedule, if they began with nothing, a batch may have `MAX_SIZE` bytes, the default column family is
/// there, and no call failed.
pub fn summaries_are_one()
    // It is reckoned from the script, all batches client by client: so it is the same in each schedule.
    ensures one_summary { (seed clients batches ended : ℕ) (settings : Settings) (o : Outcome)
        → clients ≤ MAX_CLIENTS → batches ≤ 100000 → settings.start ≡ 0 → settings.opening ≡ []
        → settings.batch_bytes ≡ MAX_SIZE → 1 ≤ settings.families
        → IsLegal settings ended (script_of_seed seed clients batches) o → o.fault ≡ None
        → AllByRecursion NoneWithoutMemory o.transcripts
        → summary_text o ≡ summary_of (script_of_seed seed clients batches) }
    // In any legal outcome, even one with a fault, each value of the map is a number below 1000, if it was so before
    // the run.
    ensures small_values { (seed clients batches ended : ℕ) (settings : Settings) (o : Outcome)
        → AllByRecursion (λ p. value_of_digits p.1 < 1000) settings.opening
        → IsLegal settings ended (script_of_seed seed clients batches) o
        → AllByRecursion (λ p. value_of_digits p.1 < 1000) o.state }
{}
