//! What a seat knows.
ghost use Rattle.std.specs.Prelude.{ℕ, List};

use std::collections::LinkedList;

/// A writer in the list: its client, its code (flags and size) and its request. No value of it is made.
pub struct QueuedWriter<Request> {
    pub by: u64,
    pub code: u64,
    pub asked: Request,
}

/// A request that was handled, and the reply to it. No value of it is made.
pub struct Handling<Request, Reply> {
    pub by: u64,
    pub asked: Request,
    pub reply: Reply,
}

/// An event of the list: a writer comes; the oldest one leads; it builds its group, under a bound, and the other
/// writers of the queue are left; it stalls writes; a writer of the queue leaves it with a reply, while newer and older
/// ones stay; the stall ends; the log is given back or on, and the group leaves with what was handled; the client of a
/// handling, or one that left the queue, gets its reply. No value of it is made.
pub enum LineEvent<Request, Reply> {
    Comes(QueuedWriter<Request>),
    Elects(QueuedWriter<Request>),
    Builds(
        u64,
        QueuedWriter<Request>,
        LinkedList<QueuedWriter<Request>>,
        LinkedList<QueuedWriter<Request>>,
    ),
    Stalls(QueuedWriter<Request>, LinkedList<QueuedWriter<Request>>),
    Drops(
        LinkedList<QueuedWriter<Request>>,
        QueuedWriter<Request>,
        LinkedList<QueuedWriter<Request>>,
        Reply,
    ),
    Resumes(QueuedWriter<Request>, LinkedList<QueuedWriter<Request>>),
    Exits(LinkedList<Handling<Request, Reply>>),
    Completes(Handling<Request, Reply>),
}

/// What a leader knows, with the events of the list up to the building of its group, the latest first. No value of it
/// is made.
pub struct Lead<Request, Reply> {
    pub own: QueuedWriter<Request>,
    pub walk: LinkedList<QueuedWriter<Request>>,
    pub group: LinkedList<QueuedWriter<Request>>,
    pub taken: LinkedList<QueuedWriter<Request>>,
    pub seen: LinkedList<Handling<Request, Reply>>,
    pub past: LinkedList<LineEvent<Request, Reply>>,
}

/// What a leader knows that no longer has the log: the members that must still get their replies, newest first. No
/// value of it is made.
pub struct Debt<Request, Reply> {
    pub rest: LinkedList<(QueuedWriter<Request>, Reply)>,
    pub own: QueuedWriter<Request>,
    pub reply: Reply,
}

/// How far a leader has come that stalls writes: `older_word(0)` has this number; the list ends at `STALL` besides; the
/// leader has the request of this writer of the queue besides; or that writer has left the queue, and the leader owes
/// it this reply. No value of it is made.
pub enum Stall<Request, Reply> {
    Aimed(u64),
    Stopped(u64),
    Holds(u64, QueuedWriter<Request>),
    Owes(u64, QueuedWriter<Request>, Reply),
}

/// The stage at which a client is. One that waits knows the events of the list up to its own coming, the latest first.
/// No value of it is made.
pub enum LineStage<Request, Reply> {
    Idle,
    Preparing(u64),
    Waiting(Request, LinkedList<LineEvent<Request, Reply>>),
    Helping(Request),
    Fresh(QueuedWriter<Request>, LinkedList<Handling<Request, Reply>>),
    Leading(Lead<Request, Reply>),
    Stalling(Lead<Request, Reply>, Stall<Request, Reply>),
    Cutting(Lead<Request, Reply>, QueuedWriter<Request>),
    Marking(Lead<Request, Reply>),
    Settling(Debt<Request, Reply>),
    Collecting,
}

/// A group of the second list: its leader, its other members, newest first, and what was given runs before it, and with
/// it. No value of it is made.
pub struct Squad<Request, Reply> {
    pub own: QueuedWriter<Request>,
    pub rest: LinkedList<QueuedWriter<Request>>,
    pub from: LinkedList<Handling<Request, Reply>>,
    pub to: LinkedList<Handling<Request, Reply>>,
}

/// Where a leader's group is with respect to the second list. No value of it is made.
pub enum Back<Request, Reply> {
    Away,
    Parting(Squad<Request, Reply>, u64),
    Joining(Squad<Request, Reply>),
    Holding(Squad<Request, Reply>),
    Queued(Squad<Request, Reply>),
    Serving(Squad<Request, Reply>, LinkedList<QueuedWriter<Request>>),
    Passing(Squad<Request, Reply>, QueuedWriter<Request>),
}

/// What a seat knows of one client. No value of it is made.
pub struct LineHold<Request, Reply> {
    pub client: u64,
    pub stage: LineStage<Request, Reply>,
    pub mine: LinkedList<(Request, Reply)>,
    pub back: Back<Request, Reply>,
}

/// What a seat knows. No value of it is made.
pub type LineView<Request, Reply> = LinkedList<LineHold<Request, Reply>>;
