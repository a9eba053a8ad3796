//! The clients that take part.

use crate::counter::CountingRight;
use line_writers::{Lists, Writer};
use tests_line::{CountLog, CountReply, CountRequest};

/// How far a client is in a schedule, with what it has of the list.
#[derive(Drop)]
pub enum PlayerStage {
    /// In no list.
    Out,
    /// In the first list, and in no group yet.
    Linked,
    /// Leads, and has the log.
    Leads(CountLog),
    /// Leads, has the log, and has made its group.
    Grouped(CountLog),
    /// Its group is in the second list. The two numbers are the first number of the group, and the first of the next
    /// group.
    Waits(u64, u64),
    /// Its group is the oldest in the second list, and it has the right.
    Serves(CountingRight),
}

/// A client: its writer, the lists that it leads with, the other members of its group, the replies that it got, and
/// how far it is in a schedule.
#[derive(Drop)]
pub struct StagePlayer {
    pub writer: Writer<CountRequest, CountReply, CountLog, CountingRight>,
    pub lists: Lists<CountRequest, CountReply>,
    pub members: Vec<u32>,
    pub told: Vec<CountReply>,
    pub stage: PlayerStage,
}
