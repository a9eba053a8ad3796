//! Additions to a client's batch.

ghost use Rattle.std.specs.Prelude.{◌≡◌, ◌≤◌, [], ◌∷◌, None, IfOk, OnOk};
ghost use Rattle.model_base.specs.Trace.{Settings};
ghost use Rattle.model_base.specs.Calls as calls;
ghost use Rattle.log_batch.specs.View.{record_of};
ghost use Rattle.model_accounts.specs.Accounts.{Account, KnowsOwnTokens};
ghost use Rattle.run_threads.specs.Answers.{records_in, accepted_in, GoesOn, Answers, HasRoom, IsLeft};
ghost use Rattle.run_threads.specs.declared.batches.CurrentBatch.TheVariants.{Nothing};

use crate::batches::{ClientBatches, CurrentBatch};
use log_batch::{AddError, Batch, RecordView};
use model_accounts::{commits_are_steps, earlier_sights};
use model_base::NoMemory;
use run_batches::AcceptedBatch;
use run_outcome::Reply;
use std::alloc::Global;
use std::mem;

/// Appends a record to the batch in the making, which has room for it.
pub fn add(
    alloc: Global,
    batches: &mut ClientBatches,
    view: RecordView<'_>,
) -> Result<Option<Reply>, NoMemory>
    requires room { HasRoom (records_in batches.old.current) (calls.add (record_of view) ∷ []) }
    ensures answers { (settings : Settings) (a : Account) → KnowsOwnTokens a
        → Answers settings a (records_in batches.old.current) (calls.add (record_of view.entry)) result a
        (records_in batches.new.current) }
    ensures left { OnOk result (IsLeft (records_in batches.old.current) (calls.add (record_of view.entry))
        (records_in batches.new.current)) }
    ensures kept { accepted_in batches.new ≡ accepted_in batches.old }
{
    commits_are_steps();
    earlier_sights();
    let mut batch = begin(alloc, batches)?;
    let outcome = batch.add(view);
    batches.current = CurrentBatch::Pending(batch);
    match outcome {
        Ok(()) => Ok(None),
        Err(AddError::NoMemory) => Err(NoMemory),
        Err(AddError::TooLarge { .. }) => unreachable!(),
    }
}

/// Empties the batch in the making.
pub fn clear(batches: &mut ClientBatches)
    ensures goes { (settings : Settings) (a : Account) → KnowsOwnTokens a
        → GoesOn settings a (records_in batches.old.current) calls.clear None a (records_in batches.new.current) }
    ensures none { records_in batches.new.current ≡ [] }
    ensures kept { accepted_in batches.new ≡ accepted_in batches.old }
{
    commits_are_steps();
    if let CurrentBatch::Pending(batch) = &mut batches.current {
        batch.clear();
    }
}

/// Takes out the batch in the making, or begins one: either with the last accepted batch, which is emptied after a
/// copy of it went into the list, or with a new one.
fn begin(alloc: Global, batches: &mut ClientBatches) -> Result<Batch, NoMemory>
    ensures records { IfOk result (λ batch. batch.records ≡ records_in batches.old.current) }
    ensures out { OnOk result (batches.new.current ≡ Nothing) }
    ensures kept { accepted_in batches.new ≡ accepted_in batches.old }
{
    match mem::replace(&mut batches.current, CurrentBatch::Nothing) {
        CurrentBatch::Nothing => Batch::new(alloc),
        CurrentBatch::Pending(batch) => Ok(batch),
        CurrentBatch::Accepted(AcceptedBatch { flag, mut batch }) => {
            if batches.list.push(flag, &batch).is_err() {
                batches.current = CurrentBatch::Accepted(AcceptedBatch { flag, batch });
                return Err(NoMemory);
            }
            batch.clear();
            Ok(batch)
        }
    }
}
