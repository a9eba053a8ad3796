//! The engine and its clients.

use crate::leader::{Leadership, Right};
use engine_controller::{Controller, Others, Pass};
use engine_parts::{Envelope, Layout, SealedAnswer, SealedRequest};
use line_writers::{Lists, Writer, WriterList};
use log_writer::GroupLog;
use std::alloc::Global;
use std::snapshot::Snapshot;
use table_calls::Table;
use table_nodes::{Nodes, Parts};

/// A write path whose clients write in groups.
pub struct GroupEngine<Log: GroupLog, Versions: Table<Nodes, Parts>, Time, Watch> {
    pub(crate) list: WriterList<
        SealedRequest,
        SealedAnswer,
        Leadership<Log, Versions, Time>,
        Right<Versions>,
    >,
    pub(crate) table: Versions,
    pub(crate) controller: Controller<Time>,
    pub(crate) gate: Watch,
    pub(crate) alloc: Global,
    /// There are the column families with the numbers below this one.
    pub(crate) families: u32,
    pub(crate) batch_bytes: u64,
}

/// A client of the engine.
pub struct EngineClient<Log: GroupLog, Versions: Table<Nodes, Parts>, Time> {
    pub(crate) number: u32,
    pub(crate) start: u64,
    /// The table as it was when the client was made. The table's opening says over which map the client reads.
    pub(crate) table: Snapshot<Versions>,
    pub(crate) writer: Writer<
        SealedRequest,
        SealedAnswer,
        Leadership<Log, Versions, Time>,
        Right<Versions>,
    >,
    pub(crate) seat: Versions::Seat,
    pub(crate) pass: Pass,
    pub(crate) lists: Lists<SealedRequest, SealedAnswer>,
    pub(crate) layout: Layout,
    /// It is here between the client's writes. During a write it is away with the request, until the answer comes.
    pub(crate) envelope: Option<Envelope>,
}

/// The room that closing needs, and `others`, which shows there that only the clients called the controller. Seats
/// can't be shared by threads, so the room isn't a part of the engine.
pub struct ClosingRoom<Log: GroupLog, Versions: Table<Nodes, Parts>, Time> {
    pub(crate) writers: Vec<
        Writer<SealedRequest, SealedAnswer, Leadership<Log, Versions, Time>, Right<Versions>>,
    >,
    pub(crate) seats: Vec<Versions::Seat>,
    pub(crate) passes: Vec<Pass>,
    pub(crate) others: Others,
}
