//! How a leader lets other writers link before it closes its group.

ghost use Rattle.line_writers.specs.Seats.{Belongs, IsUnchanged};

use crate::engine::GroupEngine;
use crate::leader::{Leadership, Right};
use base_devices::Clock;
use base_waiting::Pauses;
use engine_calls::Gate;
use engine_parts::{SealedAnswer, SealedRequest};
use line_writers::Writer;
use log_writer::GroupLog;
use std::rt;
use std::sync::Wait;
use table_calls::Table;
use table_nodes::{Nodes, Parts};

/// How many times a leader yields before it closes a group that must be synced.
const YIELDS: u32 = 5;

/// How many times at most a leader pauses while groups before its own are on their way into the table.
const PAUSES_BEHIND: u32 = 30;

/// Spins and yields `YIELDS` times. Where other programs want the processors a yield may take as long as many syncs:
/// then all that wait in the line know of it, and there are no yields for a while.
fn pause_for_sync<R: Wait + rt::Clock>(rt: &R, pauses: &Pauses<'_>) {
    // A pause changes nothing.
    for _ in 0..YIELDS {
        pauses.spin_and_yield(rt);
    }
}

impl<
    Log: GroupLog,
    Versions: Table<Nodes, Parts>,
    Time: Clock + Drop,
    Watch: Gate + Drop,
> GroupEngine<Log, Versions, Time, Watch> {
    /// Lets other writers link before the leader closes its group. Where the leader's batch must be synced, clients
    /// that got their replies a moment ago may come: a sync takes no longer for more batches. Where there are two
    /// stages, the leader also pauses while groups before its own are on their way into the table, since its group
    /// would have to wait for them.
    pub(crate) fn let_others_link<R: Wait + rt::Clock>(
        &self,
        rt: &R,
        writer: &mut Writer<
            SealedRequest,
            SealedAnswer,
            Leadership<Log, Versions, Time>,
            Right<Versions>,
        >,
        sync: bool,
        staged: bool,
    )
        requires { Belongs self.now.list writer.old }
        ensures { IsUnchanged writer.new writer.old }
    {
        if sync {
            let pauses = self.list.pauses();
            pause_for_sync(rt, &pauses);
        }
        if staged {
            self.pause_behind(rt, writer);
        }
    }

    /// Pauses while a group is in the second list, at most `PAUSES_BEHIND` times.
    fn pause_behind<R: Wait + rt::Clock>(
        &self,
        rt: &R,
        writer: &mut Writer<
            SealedRequest,
            SealedAnswer,
            Leadership<Log, Versions, Time>,
            Right<Versions>,
        >,
    )
        requires { Belongs self.now.list writer.old }
        ensures { IsUnchanged writer.new writer.old }
    {
        let pauses = self.list.pauses();
        // A look changes nothing: the writer is where it was.
        for _ in 0..PAUSES_BEHIND {
            if !self.list.has_groups(writer) {
                return;
            }
            pauses.spin_and_yield(rt);
        }
    }
}
