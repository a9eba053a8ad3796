//! A lock-free list of writers with leaders. A writer links itself with a request at the newest end, and waits for its
//! role: either it leads, and then it has the log, or its request is done, and then it has its reply. The oldest
//! writer leads. It takes the requests of its group, which the grouping rule chooses from the queue, handles them, and
//! leaves: the log goes back to the list, or on to the next leader, and each member gets its reply.
//!
//! Where there is a second list, a leader whose group is logged cuts the group off from the first list, puts it into
//! the second, and only then gives the log on. In the second list groups wait for a right, in the order of the log.
//! The leader of the oldest group has the right, may let members work in parallel with it, and then gives the right
//! on.
//!
//! A leader whose group must wait may stall writes: then nobody links, and the leader may let writers of the queue go
//! that may not be slowed down.
//!
//! The words, slots and steps are those of `line_rule`. At each step a comment says how the seat's stage changes
//! (`LineStage`, `Stall` and `Back` there), or what a slot holds before and after, and why it comes where it does.
//! Names such as `LinkOne` are those of RocksDB's db/write_thread.cc.
#![tactic(auto)]

mod closing;
mod grouping;
mod joining;
mod leaving;
mod line_writers;
mod linking;
mod opening;
mod parting;
mod reply_law;
mod room;
mod second;
mod serving;
mod slots;
mod stalling;
mod waiting;
mod writer;

pub use line_writers::WriterList;
pub use linking::Linking;
pub use reply_law::{members_in_order, replies_in_order};
pub use room::{Lists, Replies, Requests, Room};
pub use second::PipelinedRole;
pub use writer::{Role, Writer};
