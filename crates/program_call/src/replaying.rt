//! The command `replay`: a schedule is run on the core, and the result is printed.

ghost use Rattle.std.specs.Prelude.{◌≡◌, ◌≢◌, ◌⊎◌, ◌≤◌, [], Ok, Err, IfSome};
ghost use Rattle.model_base.specs.Counts.{Rose};
ghost use Rattle.model_base.specs.History.{max_sequence};
ghost use Rattle.model_base.specs.Script.{Fault};
ghost use Rattle.model_core.specs.Schedule.{Schedule, schedule_of};
ghost use Rattle.run_scripts.specs.ReplayLanguage.{replay_grammar, event_words};
ghost use Rattle.program_text.specs.Refusals.{script_fault, source_fault};
ghost use Rattle.run_outcome.specs.Running.{IsReached};
ghost use Rattle.program_call.specs.Replays.{Replays, ReplaysFront};
ghost use Rattle.program_call.specs.Texts.{NoFault, SaysTo};

use crate::ended::{Ended, end_with};
use crate::reading::read_schedule;
use crate::report::{tell_read_error, tell_replay};
use base_devices::{Sink, Source};
use replay_core::CoreOptions;
use replay_schedules::replay_schedule;
use std::alloc::Global;

/// Reads a script and its schedule, runs the schedule on the core, and prints the result.
pub fn replay<S: Source, D, K: Sink>(
    alloc: Global,
    options: CoreOptions,
    source: &mut S,
    disk: D,
    sink: &mut K,
) -> Ended<D>
    requires last { options.last ≤ max_sequence }
    ensures status { (result.status ≡ 0) ⊎ (result.status ≡ 2) ⊎ (result.status ≡ 4) ⊎ (result.status ≡ 5)
        ⊎ (result.status ≡ 6) }
    ensures disk { result.disk ≡ disk }
    ensures schedule { result.status ≡ 2 → (f : Fault)
        × IfSome (S.left source.old) (λ text. schedule_of replay_grammar event_words text ≡ Err f)
        × SaysTo (K.taken sink.old) (K.taken sink.new) (script_fault f) (K.faults sink.old) (K.faults sink.new) }
    ensures other_schedule { result.status ≢ 6 → NoFault (S.faults source.old) (S.faults source.new)
        → IfSome (S.left source.old) (λ text. (f : Fault) → schedule_of replay_grammar event_words text ≡ Err f
        → result.status ≡ 2) }
    ensures source { result.status ≡ 4 → Rose (S.faults source.old) (S.faults source.new)
        × ((count : _) × IsReached (S.faults source.old) count (S.faults source.new)
        × SaysTo (K.taken sink.old) (K.taken sink.new) (source_fault count) (K.faults sink.old) (K.faults sink.new)) }
    ensures source_fault_is_told { result.status ≢ 4 → S.faults source.new ≡ S.faults source.old }
    ensures no_fault { (result.status ≡ 0) ⊎ (result.status ≡ 6) → K.faults sink.new ≡ K.faults sink.old }
    ensures sink_failed { result.status ≡ 5 → Rose (K.faults sink.old) (K.faults sink.new) }
    ensures read_to_end { (result.status ≡ 0) ⊎ (result.status ≡ 5)
        → IfSome (S.left source.new) (λ left. left ≡ []) }
    ensures replayed { result.status ≡ 0
        → Replays options (S.left source.old) (K.taken sink.old) (K.taken sink.new) }
    ensures replayed_prefix { result.status ≡ 5
        → ReplaysFront options (S.left source.old) (K.taken sink.old) (K.taken sink.new) }
    ensures silent { result.status ≡ 6 → K.taken sink.new ≡ K.taken sink.old }
    ensures completes { NoFault (S.faults source.old) (S.faults source.new)
        → NoFault (K.faults sink.old) (K.faults sink.new)
        → IfSome (S.left source.old) (λ text. (schedule : Schedule)
        → schedule_of replay_grammar event_words text ≡ Ok schedule
        → (result.status ≡ 0) ⊎ (result.status ≡ 6)) }
{
    match read_schedule(alloc, source) {
        Ok(schedule) => {
            let replayed = replay_schedule(alloc, schedule, options);
            end_with(tell_replay(alloc, sink, &replayed), disk)
        }
        Err(error) => end_with(tell_read_error(alloc, sink, error), disk),
    }
}
