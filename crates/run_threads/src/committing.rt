//! Commits of a client's batch.

ghost use Rattle.std.specs.Prelude.{◌≡◌, ◌+◌, ◌-◌, ◌<◌, ◌≤◌, ◌^◌};
ghost use Rattle.model_base.specs.Batch.{count_of};
ghost use Rattle.model_base.specs.Calls as calls;
ghost use Rattle.model_base.specs.History as history;
ghost use Rattle.run_threads.specs.Answers.{records_in, accepted_in, Answers, IsLeft, ShowsAccepted};

use crate::batches::{ClientBatches, CurrentBatch};
use engine_calls::Engine;
use log_batch::flag_of;
use model_accounts::{commits_are_steps, earlier_sights};
use model_base::{NoMemory, Refusal, WriteOptions};
use run_batches::AcceptedBatch;
use run_outcome::Reply;
use std::sync::Wait;
use std::{mem, rt};

/// Commits the batch in the making. An accepted one stays at hand, and a refused one is still in the making.
pub fn commit<E: Engine, R: Wait + rt::Clock>(
    rt: &R,
    engine: &E,
    client: &mut E::Client,
    batches: &mut ClientBatches,
    options: WriteOptions,
) -> Result<Option<Reply>, NoMemory>
    requires belongs { E.belongs engine.now client.old }
    requires entries { ShowsAccepted (E.account client.old).number (accepted_in batches.old)
        (E.account client.old).mine }
    ensures belongs { E.belongs engine.now client.new }
    ensures answers { Answers (E.settings engine.now) (E.account client.old) (records_in batches.old.current)
        (calls.commit options) result (E.account client.new) (records_in batches.new.current) }
    ensures left { IsLeft (records_in batches.old.current) (calls.commit options) (records_in batches.new.current) }
    ensures entries { ShowsAccepted (E.account client.old).number (accepted_in batches.new)
        (E.account client.new).mine }
{
    commits_are_steps();
    earlier_sights();
    let batch = match mem::replace(&mut batches.current, CurrentBatch::Nothing) {
        CurrentBatch::Pending(batch) => batch,
        other => {
            batches.current = other;
            return Ok(Some(Reply::Refused(Refusal::Empty)));
        }
    };
    match engine.write(rt, client, batch, options) {
        Ok(receipt) => {
            has_64_bits(receipt.run.last);
            batches.current = CurrentBatch::Accepted(AcceptedBatch {
                flag: flag_of(options),
                batch: receipt.batch,
            });
            Ok(Some(Reply::Accepted(receipt.run)))
        }
        Err(refused) => {
            batches.current = CurrentBatch::Pending(refused.batch);
            match refused.why {
                Refusal::NoMemory => Err(NoMemory),
                why => Ok(Some(Reply::Refused(why))),
            }
        }
    }
}

/// Tells the proof that a sequence is below 2^64. It does nothing.
fn has_64_bits(sequence: u64)
    ensures { sequence < 2 ^ 64 }
{}
