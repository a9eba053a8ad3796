//! What the slots hold, and what a list is made for.

/// What a slot holds: a client's slot holds its request or its reply, the first slot the log, and the last one the
/// right.
#[derive(Drop)]
pub enum LineSlot<Request, Reply, Log, Right> {
    Empty,
    Asked(Request),
    Told(Reply),
    TheLog(Log),
    TheRight(Right),
}

/// What a list of writers is made for: how many clients, the log's number at opening, whether it has the second list,
/// the bound in bytes under which each group is built, and what else the law of log and right is about.
#[derive(Drop)]
pub struct Start<About> {
    pub clients: u32,
    pub log: u64,
    pub pipelined: bool,
    pub group_bytes: u64,
    pub about: About,
}
