//! A client: it runs its commands one after another.

ghost use Rattle.std.specs.Prelude.{◌≡◌, ◌+◌, ◌<◌, ◌≤◌, [], ◌++◌, length, option_to_list, vec_len, vec_capacity};
ghost use Rattle.model_base.specs.Batch.{size_of_batch};
ghost use Rattle.run_scripts.specs.Scripts.{additions_of};
ghost use Rattle.model_accounts.specs.Accounts.{newcomer};
ghost use Rattle.run_threads.specs.Answers.{accepted_in, ShowsAccepted};
ghost use Rattle.run_threads.specs.Jobs.{AreNone};
ghost use Rattle.run_threads.specs.Transcripts.{HasReplied};

use crate::answer::answer;
use crate::batches::ClientBatches;
use engine_calls::{Engine, Gate};
use model_accounts::{calls_one_after_another, runs_end};
use model_base::MAX_SIZE;
use run_command_list::CommandList;
use run_outcome::Reply;
use std::alloc::Global;
use std::rt;
use std::sync::Wait;

/// Runs a client's commands, up to the first that finds no memory. Then the client gives back the tokens that it
/// holds. There is room for its replies. All that it adds fits into one batch, so no addition is too large.
pub fn run_client<E: Engine, G: Gate, R: Wait + rt::Clock>(
    rt: &R,
    alloc: Global,
    engine: &E,
    gate: &G,
    client: &mut E::Client,
    number: u32,
    commands: &CommandList,
    replies: &mut Vec<Reply>,
    batches: &mut ClientBatches,
)
    requires belongs { E.belongs engine.now client.old }
    requires new { E.account client.old
        ≡ newcomer (E.settings engine.now).start (E.settings engine.now).opening number }
    requires fits { size_of_batch (additions_of commands.now) ≤ MAX_SIZE }
    requires none { replies.old.items ≡ [] }
    requires empty { vec_len replies.old ≡ 0 }
    requires room { length commands.now ≤ vec_capacity replies.old }
    requires no_batches { AreNone batches.old }
    ensures belongs { E.belongs engine.now client.new }
    // The replies are whole, or end with the first that found no memory. By then the client has given back its tokens.
    ensures told { HasReplied (E.settings engine.now) number commands.now replies.new.items
        (E.account client.new) }
    // Its batches are its entries, numbered in their order. The last one may still be outside the list.
    ensures accepted { ShowsAccepted number (accepted_in batches.new) (E.account client.new).mine }
{
    calls_one_after_another();
    runs_end();
    gate.started(number);
    let mut call = 0;
    // The commands so far are answered, what the others add fits into the batch, and there is room for their replies.
    for command in commands.commands() {
        let Ok(told) = answer(rt, alloc, engine, client, batches, command) else {
            tell(gate, number, call, replies, Some(Reply::NoMemory));
            return engine.end(rt, client);
        };
        tell(gate, number, call, replies, told);
        call += 1;
    }
    engine.end(rt, client);
}

/// Keeps the reply to a call, if it has one, and tells the gate that the call was answered.
fn tell<G: Gate>(gate: &G, number: u32, call: u64, replies: &mut Vec<Reply>, told: Option<Reply>)
    requires { vec_len replies.old < vec_capacity replies.old }
    ensures items { replies.new.items ≡ replies.old.items ++ option_to_list told }
    ensures len { vec_len replies.new ≤ vec_len replies.old + 1 }
    ensures capacity { vec_capacity replies.new ≡ vec_capacity replies.old }
{
    if let Some(reply) = told {
        replies.push_reserved(reply);
    }
    gate.answered(number, call);
}
