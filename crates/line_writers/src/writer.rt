//! A client's seat, and what it is asked to do.
ghost use Rattle.std.specs.Prelude.{◌≡◌};

use atomic_table::Seat;
use line_rule::{LineSlot, LineView};

/// What a writer must do when it waits for its role the next time: wait, lead with the log that it has taken, wait for
/// its reply only, wait for the right, or serve with the right that it has taken.
#[derive(Clone, Copy)]
pub(crate) enum Task {
    Awaits,
    Leads,
    Helps,
    Queues,
    Serves,
}

/// A client's seat at the list.
#[derive(Drop)]
pub struct Writer<Request, Reply, Log, Right> {
    pub(crate) client: u32,
    pub(crate) task: Task,
    pub(crate) seat: Seat<LineSlot<Request, Reply, Log, Right>, LineView<Request, Reply>>,
}

/// What a writer is asked to do.
pub enum Role<Log, Reply> {
    /// To lead a group, with the log.
    LogLeader(Log),
    /// Nothing more: this is its reply.
    Done(Reply),
}
