//! A client's commands, one by one.

ghost use Rattle.std.specs.Prelude.{◌≡◌, ◌≤◌, [], ◌∷◌, OnOk};
ghost use Rattle.model_accounts.specs.Accounts.{KnowsOwnTokens};
ghost use Rattle.run_command_list.specs.Views.{command_of};
ghost use Rattle.run_threads.specs.Answers.{records_in, accepted_in, Answers, ShowsAccepted, HasRoom, IsLeft};

use crate::adding::{add, clear};
use crate::batches::ClientBatches;
use crate::committing::commit;
use crate::reading::{get, get_many, scan, updates};
use crate::tokens::{slow, stop, unslow, unstop};
use engine_calls::Engine;
use log_batch::RecordView;
use model_base::NoMemory;
use run_command_list::CommandView;
use run_outcome::Reply;
use std::alloc::Global;
use std::rt;
use std::sync::Wait;

/// Tells the proof that a client knows of its own calls of the write controller that take a token or give one back. It
/// does nothing.
fn own_tokens<E: Engine>(engine: &E, client: &E::Client)
    requires { E.belongs engine.now client.now }
    ensures { KnowsOwnTokens (E.account client.now) }
{}

/// Runs one command of a client, and returns its reply, if it has one.
pub fn answer<E: Engine, R: Wait + rt::Clock>(
    rt: &R,
    alloc: Global,
    engine: &E,
    client: &mut E::Client,
    batches: &mut ClientBatches,
    command: CommandView<'_>,
) -> Result<Option<Reply>, NoMemory>
    requires belongs { E.belongs engine.now client.old }
    requires entries { ShowsAccepted (E.account client.old).number (accepted_in batches.old)
        (E.account client.old).mine }
    requires fits { HasRoom (records_in batches.old.current) (command_of command ∷ []) }
    ensures belongs { E.belongs engine.now client.new }
    ensures answers { Answers (E.settings engine.now) (E.account client.old) (records_in batches.old.current)
        (command_of command.entry) result (E.account client.new) (records_in batches.new.current) }
    ensures left { OnOk result (IsLeft (records_in batches.old.current) (command_of command.entry)
        (records_in batches.new.current)) }
    ensures entries { ShowsAccepted (E.account client.old).number (accepted_in batches.new)
        (E.account client.new).mine }
{
    own_tokens(engine, client);
    match command {
        CommandView::Put { family, key, value } => {
            add(alloc, batches, RecordView::Value { family, key, value })
        }
        CommandView::Delete { family, key } => {
            add(alloc, batches, RecordView::Deletion { family, key })
        }
        CommandView::SingleDelete { family, key } => {
            add(alloc, batches, RecordView::SingleDeletion { family, key })
        }
        CommandView::Note { text } => add(alloc, batches, RecordView::LogData { blob: text }),
        CommandView::Clear => {
            clear(batches);
            Ok(None)
        }
        CommandView::Commit { options } => commit(rt, engine, client, batches, options),
        CommandView::Get { family, key } => get(rt, engine, client, family, key),
        CommandView::Many { keys } => get_many(rt, alloc, engine, client, keys),
        CommandView::Scan { family, lo, hi } => scan(rt, engine, client, family, lo, hi),
        CommandView::Updates { since } => updates(rt, engine, client, since),
        CommandView::Stop => Ok(Some(stop(rt, engine, client))),
        CommandView::Unstop => Ok(Some(unstop(rt, engine, client))),
        CommandView::Slow { rate } => Ok(Some(slow(rt, engine, client, rate))),
        CommandView::Unslow => Ok(Some(unslow(rt, engine, client))),
    }
}
