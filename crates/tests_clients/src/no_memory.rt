//! Clients of a write path that finds no memory: the replies that they get, and that each client is ended once.

ghost use Rattle.std.specs.Prelude.{◌≡◌, ◌≤◌, ⊤, [], length, IfOk};
ghost use Rattle.model_base.specs.Batch.{size_of_batch};
ghost use Rattle.model_accounts.specs.Accounts.{newcomer};
ghost use Rattle.model_accounts.specs.Closing.{AreOurs};
ghost use Rattle.run_threads.specs.Jobs.{FitBatches, AreNew};
ghost use Rattle.run_scripts.specs.Scripts.{additions_of};

use crate::mute::{Mute, MuteClient};
use engine_calls::Gate;
use model_base::{MAX_SIZE, NoMemory, Refusal, WriteOptions};
use run_command_list::{CommandList, CommandView};
use run_outcome::Reply;
use run_threads::{ClientBatches, CurrentBatch, run_clients};
use std::alloc::Global;
use std::process::Abort;
use std::sync::atomic::AtomicU64;
use std::sync::atomic::Ordering::SeqCst;
use std::test::Fail;

/// A gate that counts how many clients were started, and how many calls were answered.
#[derive(Drop)]
struct Counts {
    started: AtomicU64,
    answered: AtomicU64,
}

impl Gate for Counts {
    fn opened(&self, _locks: u64) {}

    fn started(&self, _client: u32) {
        self.started.fetch_add(1, SeqCst);
    }

    fn linked(&self, _client: u32) {}

    fn launching(&self, _client: u32) {}

    fn answered(&self, _client: u32, _number: u64) {
        self.answered.fetch_add(1, SeqCst);
    }
}

const PLAIN: WriteOptions = WriteOptions {
    sync: false,
    no_log: false,
    no_slowdown: false,
};

fn two_clients(alloc: Global) -> Result<Vec<MuteClient>, NoMemory>
    ensures ours { IfOk result (λ clients. AreOurs (λ c. ⊤) (λ c. newcomer 0 [] c.number) 2 clients.items) }
    ensures new { IfOk result (λ clients. AreNew (λ c. newcomer 0 [] c.number) 0 [] clients.items) }
{
    let clients = vec![in alloc; MuteClient { number: 1 }, MuteClient { number: 2 }]?;
    Ok(clients)
}

fn first_commands(alloc: Global) -> Result<CommandList, NoMemory>
    ensures { IfOk result (λ commands. size_of_batch (additions_of commands) ≤ MAX_SIZE) }
{
    let mut commands = CommandList::new(alloc);
    let (key, value) = (b"a".as_slice(), b"1".as_slice());
    commands.push(CommandView::Commit { options: PLAIN })?;
    commands.push(CommandView::Put {
        family: Some(2),
        key,
        value,
    })?;
    commands.push(CommandView::Commit { options: PLAIN })?;
    commands.push(CommandView::Clear)?;
    Ok(commands)
}

fn second_commands(alloc: Global) -> Result<CommandList, NoMemory>
    ensures { IfOk result (λ commands. size_of_batch (additions_of commands) ≤ MAX_SIZE) }
{
    let mut commands = CommandList::new(alloc);
    let key = b"a".as_slice();
    commands.push(CommandView::Unstop)?;
    commands.push(CommandView::Clear)?;
    commands.push(CommandView::Get { family: 3, key })?;
    commands.push(CommandView::Get { family: 2, key })?;
    commands.push(CommandView::Unslow)?;
    Ok(commands)
}

fn script(alloc: Global) -> Result<Vec<CommandList>, NoMemory>
    ensures two { IfOk result (λ script. length script.items ≡ 2) }
    ensures fits { IfOk result (λ script. FitBatches script.items) }
{
    let both = vec![in alloc; first_commands(alloc)?, second_commands(alloc)?]?;
    Ok(both)
}

/// Each client stopped at its first call that needs memory. What adds to a batch or empties it has no reply.
fn check_replies(rt: &impl Abort, replies: &[Vec<Reply>]) -> Result<(), Fail> {
    let [first, second] = replies else {
        return Err(Fail::new("not two clients"));
    };
    assert!(rt;
        matches!(
            first.as_slice(),
            [Reply::Refused(Refusal::Empty), Reply::NoMemory]
        )
    );
    assert!(rt;
        matches!(
            second.as_slice(),
            [
                Reply::NotHeld,
                Reply::Refused(Refusal::NoFamily { family: 3 }),
                Reply::NoMemory
            ]
        )
    );
    Ok(())
}

/// No batch was accepted, and the first client still has a batch that it hasn't committed.
fn check_batches(rt: &impl Abort, batches: &[ClientBatches]) -> Result<(), Fail> {
    let [first, second] = batches else {
        return Err(Fail::new("not two clients"));
    };
    assert_eq!(rt; (first.list.len(), second.list.len()), (0, 0));
    assert!(rt; matches!(first.current, CurrentBatch::Pending(_)));
    assert!(rt; matches!(second.current, CurrentBatch::Nothing));
    Ok(())
}

#[test]
fn clients_stop_for_want_of_memory_and_are_ended(rt: HostRuntime) -> Result<(), Fail> {
    let engine = Mute {
        clients: 2,
        families: 3,
        batch_bytes: 1000,
        ended: AtomicU64::new(0),
    };
    let gate = Counts {
        started: AtomicU64::new(0),
        answered: AtomicU64::new(0),
    };
    let mut clients = two_clients(rt.alloc())?;
    let script = script(rt.alloc())?;
    let (replies, batches) = run_clients(&rt, rt.alloc(), &engine, &mut clients, &script, &gate)?;
    check_replies(&rt, &replies)?;
    check_batches(&rt, &batches)?;
    let counts = (
        engine.ended.load(SeqCst),
        gate.started.load(SeqCst),
        gate.answered.load(SeqCst),
    );
    assert_eq!(rt; counts, (2, 2, 7));
    Ok(())
}
