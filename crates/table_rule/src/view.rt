//! What a seat knows of the table. Of the types here a program makes values of `Opening` only; contracts speak of the
//! others.

use crate::base::Base;
use crate::content::{MemberVersions, Version};
use std::collections::LinkedList;

/// How many clients and shards a table was opened for, the sequence that was published then, and the versions that its
/// trees had.
#[derive(Drop)]
pub struct Opening {
    pub clients: u64,
    pub shards: u64,
    pub start: u64,
    pub base: Base,
}

/// A group that was launched: the groups that were published before it, the oldest first; its members with their
/// versions; and its last sequence.
pub struct Launched {
    pub before: LinkedList<LinkedList<MemberVersions>>,
    pub group: LinkedList<MemberVersions>,
    pub last: u64,
}

/// The part of a group that a member has taken: those of its versions that are in their trees, and those that aren't.
pub struct Work {
    pub launched: Launched,
    pub done: LinkedList<Version>,
    pub rest: LinkedList<Version>,
}

/// The shard that a seat has locked, with the versions of its tree then.
pub enum Lock {
    Free,
    Held(u64, LinkedList<Version>),
}

/// How far a seat is with the launched group. The last three are stages of the turn.
pub enum Stage {
    /// It has no part in hand.
    Idle,
    /// It launched this group, and has yet to take its own part of it.
    Waiting(Launched),
    /// It has taken its part, and is putting it into the trees.
    Holding(Work),
    /// Its part of this group is in the trees.
    Stored(Launched),
    /// It finished last, and must publish this group.
    Publishing(Launched),
    /// No group is launched.
    Resting,
    /// A group is launched, and these parts of it are still to be handed out.
    Handing(LinkedList<MemberVersions>, LinkedList<MemberVersions>),
    /// One part of this group is being put into its slot, and the parts that follow are still to be handed out.
    Filling(LinkedList<MemberVersions>, MemberVersions, LinkedList<MemberVersions>),
}

/// What a seat knows of one client, or of the turn, which is client 0.
pub struct SeatState {
    pub client: u64,
    pub opening: Opening,
    /// The published groups that it has seen, the oldest first.
    pub seen: LinkedList<LinkedList<MemberVersions>>,
    pub lock: Lock,
    pub stage: Stage,
}

/// What a seat knows. A seat has one state, except at opening, at closing and while a client launches a group.
pub type TableView = LinkedList<SeatState>;
