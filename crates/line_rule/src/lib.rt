//! The rule of a lock-free list of writers with leaders: which words and slots it has, what each seat knows, and what
//! each atomic step does. The oldest writer of the list leads. It takes the requests of a group, handles them while it
//! has the log, and gives the log back, or on to the next leader. A second list, of groups whose leaders wait for a
//! right in the order of the log, is for pipelined writes; lists without it keep the right at home.
//!
//! # Words
//!
//! `n` is the number of clients, and clients are numbered from 1. The words of client `i` begin at `2 i + 2`. What they
//! hold has RocksDB's names.
//!
//! - 0, NEWEST: the newest writer's number, or 0 where there is none; or [`MARK`], a leader's mark; or [`STALL`],
//!   while writes are stalled.
//! - 1, NEWEST of the second list: the newest writer of its newest group, or 0.
//! - 3, OLDER 0: the newest writer's number, while writes are stalled.
//! - [`state_word`] `i`, STATE `i`: [`STATE_IN_LIST`], [`STATE_LEADS_LOG`], [`STATE_LEADS_TABLE`] (it leads in the
//!   second list), [`STATE_PARALLEL`] or [`STATE_DONE`].
//! - [`older_word`] `i`, OLDER `i`: an [`Older`], the number of the next older writer (0 where there is none, or
//!   [`MARK`]), and the code of its own item.
//!
//! # Slots
//!
//! - 0: the log.
//! - `i`: client `i`'s request, and later its reply.
//! - `n + 1`: the right.
//!
//! # Steps
//!
//! A seat is a client's. A leader has the log, and the slots of its group. [`steps_and_events`],
//! [`second_steps_and_events`] and [`stall_steps_and_events`] say which event of the list each step is, or that it is
//! none. [`list_and_core`] says which event of the write path's core each event of the lists is.
//!
//! Each request in the list is lawful for what the list's law is about (`lawful` of [`LogOfGroups`]): the client that
//! links it shows that it is, and the leader then knows it.
//!
//! After each step comes the event of the write path, if it is one.
//!
//! Anybody:
//! - [`ReadNewest`], a load of NEWEST: sees a client's number, or a mark. At `STALL` a leader stalls writes. Link,
//!   where it is `STALL` and the client's commit is refused.
//!
//! Client `i`:
//! - [`Begin`], a store of `STATE_IN_LIST` to STATE `i`: takes its empty slot.
//! - [`NameOlder`], a store of OLDER `i`: names the writer that it saw, and its own code.
//! - [`Link`], a compare-exchange of NEWEST from that writer to `i`: gives its slot with the request. Where it
//!   replaced 0 it takes the log, and leads. Link, and elect where it replaced 0.
//! - [`Withdraw`], a load of any word, where it is about to link: gives its empty slot back.
//! - [`ReadState`], a load of STATE `i`: at `STATE_LEADS_LOG` it takes the log and its own slot, and leads; at
//!   `STATE_PARALLEL` it works in parallel with its leader; at `STATE_DONE` it takes its slot with the reply. Elect,
//!   where it leads.
//! - [`ReadReply`], a load of STATE `i`, where it helps its leader: at `STATE_DONE` it takes its slot with the reply.
//! - [`ReturnSlot`], a load of STATE `i`: gives its empty slot back.
//!
//! The leader:
//! - [`Build`], a load of NEWEST: takes its group by the grouping rule, of the walk from there. Build.
//! - [`ReadOlder`], a load of OLDER `k`: sees a link of its walk. That is one of the queue; or, if it put a mark, of
//!   the writers after the mark; or, if it has the right, of the second list.
//! - [`Fetch`], a load of OLDER `k`: takes the slot of the next member.
//! - [`Leave`], a compare-exchange of NEWEST from its newest member to 0: gives the log back, which covers the
//!   group's handlings too. Exit of the single stage; if it fails, it only reads anew.
//! - [`CutOff`], and [`CutAway`] where the list is pipelined, a store of OLDER `k`: clears the link of the oldest
//!   writer after its group. Boundary, where the list is pipelined.
//! - [`Wake`], a store of `STATE_LEADS_LOG` to STATE `k`: gives the log on to that writer. Exit of the single stage,
//!   or next, where the list is pipelined.
//! - [`Complete`], a store of `STATE_DONE` to STATE `k`: gives a member's slot with its reply. Complete.
//! - [`Retire`], a store of `STATE_DONE` to STATE `i`: gives its own empty slot back. Complete.
//!
//! A leader of a pipelined list:
//! - [`Mark`], a compare-exchange of NEWEST from its newest member to `MARK`: puts its mark in place of its group.
//!   Boundary.
//! - [`AimSecond`], a store of OLDER `i`, once its group is cut off: names the newest writer of the second list.
//! - [`JoinSecond`], a compare-exchange of the second NEWEST: its group comes into the second list. Where it replaced
//!   0 it takes the right. Second.
//! - [`Free`], a compare-exchange of NEWEST from `MARK` to 0, where it put the mark: gives the log back. Next.
//! - [`CutBehindMark`], a store of OLDER `k`, where it put the mark: clears the link of the oldest writer after the
//!   mark.
//! - [`Summon`], a load of STATE `i`, in the second list: takes the right, at `STATE_LEADS_TABLE`.
//!
//! The right's holder:
//! - [`MakeParallel`], a store of `STATE_PARALLEL` to STATE `k`: a member of its group may work in parallel with it.
//! - [`LeaveSecond`], a compare-exchange of the second NEWEST to 0: gives the right back. Exit of the pipelined
//!   stage.
//! - [`ClearSecond`], a store of OLDER `k`: clears the link of the next group's oldest writer.
//! - [`CallNext`], a store of `STATE_LEADS_TABLE` to STATE `k`: gives the right on to that writer. Exit of the
//!   pipelined stage.
//!
//! The leader that stalls writes, once it has its whole group:
//! - [`AimStall`], a store of OLDER 0: names the newest writer that it saw.
//! - [`PutStall`], a compare-exchange of NEWEST from that writer to `STALL`: nobody links from here on. Stall.
//! - [`Hold`], a load of OLDER `k`: takes the slot of a writer of the queue.
//! - [`GiveBack`], a store of OLDER `k`, of the same value: gives that slot back.
//! - [`PassBy`], a store of OLDER of the next newer writer, or [`PassFirst`], one of OLDER 0: the writer whose slot
//!   it has leaves the queue. Leave.
//! - [`Dismiss`], a store of `STATE_DONE` to STATE `k`: gives that slot with the reply. Complete.
//! - [`Resume`], a compare-exchange of NEWEST from `STALL` to what OLDER 0 holds: writers link again. Unstall.
//!
//! A compare-exchange that fails is a load. Seats are made and joined only at opening and closing, which leaves the
//! list as it is ([`opening_and_seats`]).
#![tactic(auto)]

mod code;
mod content;
mod core_events;
mod law;
mod rule;
mod second_law;
mod stall_law;
mod steps;
mod view;
mod words;

pub use code::{code_of, codes_stand_for_items, item_of};
pub use content::{LineSlot, Start};
pub use core_events::list_and_core;
pub use law::{between_steps, opening_and_seats, steps_and_events};
pub use rule::{
    GivesRun, HasGroupingItem, JoinClients, ListRule, LogOfGroups, PickedAbout, PickedGiven,
    PickedRight, SplitFirst,
};
pub use second_law::{handing_on, second_steps_and_events};
pub use stall_law::stall_steps_and_events;
pub use steps::{
    AimSecond, AimStall, Begin, Build, CallNext, ClearSecond, Complete, CutAway, CutBehindMark,
    CutOff, Dismiss, Fetch, Free, GiveBack, Hold, JoinSecond, Leave, LeaveSecond, Link,
    MakeParallel, Mark, NameOlder, PassBy, PassFirst, PutStall, ReadNewest, ReadOlder, ReadReply,
    ReadState, Resume, Retire, ReturnSlot, Summon, Wake, Withdraw,
};
pub use view::{
    Back, Debt, Handling, Lead, LineEvent, LineHold, LineStage, LineView, QueuedWriter, Squad,
    Stall,
};
pub use words::{
    MARK, Older, STALL, STATE_DONE, STATE_IN_LIST, STATE_LEADS_LOG, STATE_LEADS_TABLE,
    STATE_PARALLEL, older_word, state_word,
};
