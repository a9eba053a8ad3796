//! A read of the log, which a client does as the only one of its group.

use crate::opening::{clients_of, opened};
use model_base::NoMemory;
use model_core::Event;
use model_core::Event::*;
use replay_core::{CoreReply, Counts, replay};
use run_command_list::{CommandList, CommandView};
use std::alloc::Global;
use std::test::Fail;

/// Client 1 writes, and client 2 reads the log behind it. The reader's group is neither stalled nor logged, and the log
/// doesn't fail there. It may leave once it has read, and it reads once.
const EVENTS: [Event; 21] = [
    Link(1),
    Elect(1),
    Build(1),
    Link(2),
    Log(1),
    Launch(1),
    Insert(1),
    Finish(1),
    Publish(1),
    Exit(1),
    Elect(2),
    Build(2),
    Log(2),
    Fault(2),
    Stall(2),
    Exit(2),
    Since(2),
    Since(2),
    Exit(2),
    Complete(1),
    Complete(2),
];

fn reader(alloc: Global) -> Result<CommandList, NoMemory> {
    let mut commands = CommandList::new(alloc);
    commands.push(CommandView::Updates { since: 1 })?;
    Ok(commands)
}

#[test]
fn the_log_is_read_alone(rt: HostRuntime) -> Result<(), Fail> {
    let mut clients = clients_of(&rt, rt.alloc(), &[&[b"a"]])?;
    clients.push(reader(rt.alloc())?)?;
    let mut state = opened(&rt, rt.alloc(), 0, &clients)?;
    let counts = replay(&mut state, &EVENTS);
    let want = Counts {
        taken: 16,
        skipped: 5,
    };
    assert_eq!(rt; counts, want);
    let read = [CoreReply::ReadAt { at: 1 }];
    assert_eq!(rt;
        (state.replies(2), state.logged()),
        (read.as_slice(), [1].as_slice())
    );
    Ok(())
}
