//! Runs of sequences.

ghost use Rattle.std.specs.Prelude.{◌≡◌, ◌+◌, ◌<◌, ◌≤◌, IfOk, IfErr};
ghost use Rattle.model_base.specs.History.{max_sequence};

use crate::batch::MAX_SEQUENCE;
use model_base::Refusal;

/// The sequences of a batch, from the first to the last.
#[derive(Clone, Copy, Debug, PartialEq, Eq)]
pub struct Run {
    pub first: u64,
    pub last: u64,
}

/// The next `count` sequences after `last`, the last one given. It is refused if a sequence would be above the
/// greatest.
pub fn next_run(last: u64, count: u64) -> Result<Run, Refusal>
    requires { last ≤ max_sequence }
    ensures first { IfOk result (λ run. run.first ≡ last + 1) }
    ensures last { IfOk result (λ run. run.last ≡ last + count) }
    ensures fits { IfOk result (λ run. run.last ≤ max_sequence) }
    ensures full { IfErr result (λ why. why ≡ Refusal.SequenceFull last) }
    // It is refused only where the run would pass the greatest sequence.
    ensures passed { IfErr result (λ _. max_sequence < last + count) }
{
    if count > MAX_SEQUENCE - last {
        return Err(Refusal::SequenceFull { last });
    }
    Ok(Run {
        first: last + 1,
        last: last + count,
    })
}
