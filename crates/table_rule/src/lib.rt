//! The rule of the published table over atomic words: which words and slots it has, what each seat knows, and what each
//! atomic step does. The table under one lock is the case of one shard.
//!
//! # Words
//!
//! `k` is the number of shards, and clients are numbered from 1.
//!
//! | Word | Name | What it holds |
//! |---|---|---|
//! | `j`, below `k` | lock `j` | 1 while a seat has shard `j`'s tree, else 0 |
//! | `k` | LAST | the published sequence |
//! | `k + 1` | RUNNING | how many parts of the launched group aren't finished |
//! | `k + 1 + i` | RUN `i` | 1 from when client `i`'s part is handed out until its nodes are in their trees |
//!
//! # Slots
//!
//! | Slot | What it holds |
//! |---|---|
//! | `j`, below `k` | shard `j`'s tree |
//! | `k` | nothing: it stays unused, so that client `i`'s slot is `k + i` |
//! | `k + i` | client `i`'s part of the launched group, from when it is handed out until it is taken |
//!
//! # Steps
//!
//! The turn is a seat of its own; a table has one. A client that holds it may launch a group, with or without a part
//! of its own. A reader's seat is a client's seat. [`steps_and_events`] says which event of the write path each step
//! is.
//!
//! | Step | Who makes it | What it does | Event of the write path |
//! |---|---|---|---|
//! | load of LAST ([`Learn`]) | a client | sees the published history | read |
//! | compare-exchange of a lock from 0 to 1 ([`LockShard`]) | a client | takes the tree out of its slot | |
//! | store of 0 to a lock ([`UnlockShard`]) | who locked it | gives the tree back as it was | |
//! | store of 0 to a lock ([`AddVersions`]) | a member | gives the tree back, with versions of its part added | |
//! | store of RUNNING ([`Launch`]) | a client that has the turn, with both seats as one | begins a group, with the number of its parts | launch |
//! | load of RUN `i` ([`Empty`]) | the turn | takes the empty slot of a member | |
//! | store of 1 to RUN `i` ([`Give`]) | the turn | gives that slot back with the member's nodes | |
//! | load of RUN `i` ([`Take`]) | member `i` | takes its nodes out of its slot, where it finds 1 | |
//! | store of 0 to RUN `i` ([`Settle`]) | member `i` | gives the empty slot back; all its nodes are in their trees | insert |
//! | fetch-sub of RUNNING ([`Count`]) | a member | its part is finished; if it finds 1, it may publish | finish |
//! | store of LAST ([`Publish`]) | the member that took RUNNING to 0 | publishes the group | publish |
//! | load of LAST ([`Await`]) | the turn | where it finds the group's last sequence, the group is published | |
//! | load of LAST ([`Close`]) | the turn's seat, joined with the clients' seats | the table's one history is known | |
//!
//! A compare-exchange that fails is a load from which the caller learns nothing. Seats are made at opening and joined
//! at closing. For the store of RUNNING the turn is joined to the seat of the client that launches, and split off
//! again.
#![tactic(auto)]

mod base;
mod base_law;
mod content;
mod core_events;
mod law;
mod rule;
mod steps;
mod view;

pub use base::Base;
pub use base_law::maps_as_bases;
pub use content::{Content, MemberVersions, Version};
pub use core_events::table_and_core;
pub use law::steps_and_events;
pub use rule::{AllButFirst, Both, First, TableLaw, Versioned};
pub use steps::{
    AddVersions, Await, Close, Count, Empty, Give, GroupPlan, Launch, Learn, LockShard, Publish,
    Settle, Take, UnlockShard, VersionPlan,
};
pub use view::{Launched, Lock, Opening, SeatState, Stage, TableView, Work};
