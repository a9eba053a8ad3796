//! What a script is run with.

use log_recovery::Mode;
use model_base::Options;
use run_outcome::LogStart;
use std::alloc::Global;

/// Where a script is run: the runtime with its threads, the memory, and the gate, which hears of what the clients do.
#[derive(Drop)]
pub struct Host<'a, R, G> {
    pub rt: &'a R,
    pub alloc: Global,
    pub gate: &'a G,
}

/// How the write path is set up: its limits, how its log is opened, which ends of its recovery are accepted where it is
/// resumed, how many shards its table has, and whether groups go into the table in a stage of their own.
///
/// The last sequence of a run whose log is resumed is that of its options or the recovered one, whichever is greater,
/// and there are as many column families as its options say or as the recovered keys need, whichever are more.
#[derive(Drop)]
pub struct Setup {
    pub options: Options,
    pub start: LogStart,
    pub mode: Mode,
    pub shards: u32,
    pub pipelined: bool,
}
