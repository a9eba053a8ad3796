//! The steps of the list: which words and slots each may change, and what its seat knows then.
ghost use Rattle.std.specs.Prelude.{◌≡◌};
ghost use Rattle.line_rule.specs.Laws.{logs_picked, serves_picked, kept_picked, drops_picked, asks_picked};
ghost use Rattle.line_rule.specs.Plays.{after_begin, after_read_newest, after_name_older, after_link, after_read_state, after_read_reply, after_return_slot, after_build, after_read_older, after_fetch, after_leave, after_complete, after_retire, after_cut_as, after_cut_off, after_wake, after_mark, after_free, after_aim_second, after_join_second, after_summon, after_leave_second, after_clear_second, after_call_next, after_make_parallel, after_cut_behind_mark};
ghost use Rattle.line_rule.specs.Stalls.{after_withdraw, after_aim_stall, after_stall, after_hold, after_give_back, after_pass_by, after_pass_first, after_dismiss, after_resume};
ghost use mathlib.Core.Option.{some};

use crate::content::LineSlot;
use crate::rule::{GivesRun, HasGroupingItem, LogOfGroups, PickedAbout, PickedGiven, PickedRight};
use crate::view::LineView;
use atomic_table::Play;
use std::marker::PhantomData;

/// A writer that is in no list announces itself: it takes its empty slot.
pub struct Begin;

impl<Request, Reply, Log, Right> Play<
    LineSlot<Request, Reply, Log, Right>,
    LineView<Request, Reply>,
> for Begin {
    ghost then = { after_begin };
}

/// The newest writer is read, by one that is about to link, or by anybody.
pub struct ReadNewest;

impl<Request, Reply, Log, Right> Play<
    LineSlot<Request, Reply, Log, Right>,
    LineView<Request, Reply>,
> for ReadNewest {
    ghost then = { after_read_newest };
}

/// A writer that is about to link names the one that it saw as its older one.
pub struct NameOlder;

impl<Request, Reply, Log, Right> Play<
    LineSlot<Request, Reply, Log, Right>,
    LineView<Request, Reply>,
> for NameOlder {
    ghost then = { after_name_older };
}

/// A writer comes into the list at the newest end, with its request, and leads if the list was empty.
pub struct Link<About>(PhantomData<About>);

impl<
    Request,
    Reply: GivesRun,
    Log: LogOfGroups<Request, Reply, Right>,
    Right,
    About: PickedAbout<Log::About>,
> Play<LineSlot<Request, Reply, Log, Right>, LineView<Request, Reply>> for Link<About> {
    ghost then = { after_link (logs_picked Reply.run_of Log.LogOfGroups About.number About.about) };
}

/// A writer in the list reads its state: it leads from here on, or works in parallel with its leader, or it has its
/// reply, or none of these.
pub struct ReadState<About>(PhantomData<About>);

impl<
    Request,
    Reply: GivesRun,
    Log: LogOfGroups<Request, Reply, Right>,
    Right,
    About: PickedAbout<Log::About>,
> Play<LineSlot<Request, Reply, Log, Right>, LineView<Request, Reply>> for ReadState<About> {
    ghost then = { after_read_state (logs_picked Reply.run_of Log.LogOfGroups About.number About.about)
        (kept_picked Log.kept About.about) (drops_picked Log.drops About.about) };
}

/// A writer that works in parallel with its leader reads its state: it has its reply, or not yet.
pub struct ReadReply<About>(PhantomData<About>);

impl<
    Request,
    Reply,
    Log: LogOfGroups<Request, Reply, Right>,
    Right,
    About: PickedAbout<Log::About>,
> Play<LineSlot<Request, Reply, Log, Right>, LineView<Request, Reply>> for ReadReply<About> {
    ghost then = { after_read_reply (kept_picked Log.kept About.about) };
}

/// A writer that took its reply gives its empty slot back.
pub struct ReturnSlot;

impl<Request, Reply, Log, Right> Play<
    LineSlot<Request, Reply, Log, Right>,
    LineView<Request, Reply>,
> for ReturnSlot {
    ghost then = { after_return_slot };
}

/// A leader reads the newest writer, once, and so builds its group, under the bound that the caller picks. What the
/// law asks of each request holds of those of the group.
pub struct Build<About>(PhantomData<About>);

impl<
    Request: HasGroupingItem,
    Reply,
    Log: LogOfGroups<Request, Reply, Right>,
    Right,
    About: PickedAbout<Log::About>,
> Play<LineSlot<Request, Reply, Log, Right>, LineView<Request, Reply>> for Build<About> {
    ghost then = { after_build (asks_picked Request.item_of Log.lawful About.about) About.number };
}

/// A leader reads the older link of a writer of its walk: of the queue, of those that came after its mark, or, with
/// the right, of the second list.
pub struct ReadOlder;

impl<Request, Reply, Log, Right> Play<
    LineSlot<Request, Reply, Log, Right>,
    LineView<Request, Reply>,
> for ReadOlder {
    ghost then = { after_read_older };
}

/// A leader takes the request of the oldest writer of its walk whose request it doesn't have.
pub struct Fetch;

impl<Request, Reply, Log, Right> Play<
    LineSlot<Request, Reply, Log, Right>,
    LineView<Request, Reply>,
> for Fetch {
    ghost then = { after_fetch };
}

/// A leader gives the log back, if nobody came after its group.
pub struct Leave;

impl<Request, Reply, Log, Right> Play<
    LineSlot<Request, Reply, Log, Right>,
    LineView<Request, Reply>,
> for Leave {
    ghost then = { after_leave };
}

/// A member gets its reply, which is in its slot.
pub struct Complete;

impl<Request, Reply, Log, Right> Play<
    LineSlot<Request, Reply, Log, Right>,
    LineView<Request, Reply>,
> for Complete {
    ghost then = { after_complete };
}

/// A leader's last step: it gives its own slot back.
pub struct Retire;

impl<Request, Reply, Log, Right> Play<
    LineSlot<Request, Reply, Log, Right>,
    LineView<Request, Reply>,
> for Retire {
    ghost then = { after_retire };
}

/// A leader clears the older link of the oldest writer after its group.
pub struct CutOff;

impl<Request, Reply, Log, Right> Play<
    LineSlot<Request, Reply, Log, Right>,
    LineView<Request, Reply>,
> for CutOff {
    ghost then = { after_cut_off };
}

/// A leader gives the log on to the oldest writer after its group.
pub struct Wake;

impl<Request, Reply, Log, Right> Play<
    LineSlot<Request, Reply, Log, Right>,
    LineView<Request, Reply>,
> for Wake {
    ghost then = { after_wake };
}

/// A pipelined leader clears the older link of the oldest writer after its group, and so cuts its group off. The
/// caller picks what was given runs before the group.
pub struct CutAway<Given>(PhantomData<Given>);

impl<Request, Reply, Log, Right, Given: PickedGiven<Request, Reply>> Play<
    LineSlot<Request, Reply, Log, Right>,
    LineView<Request, Reply>,
> for CutAway<Given> {
    ghost then = { after_cut_as (some Given.given) };
}

/// A pipelined leader puts its mark in place of its group, after which nobody came. The caller picks what was given
/// runs before the group.
pub struct Mark<Given>(PhantomData<Given>);

impl<Request, Reply, Log, Right, Given: PickedGiven<Request, Reply>> Play<
    LineSlot<Request, Reply, Log, Right>,
    LineView<Request, Reply>,
> for Mark<Given> {
    ghost then = { after_mark Given.given };
}

/// A leader whose group is cut off names the newest writer of the second list.
pub struct AimSecond;

impl<Request, Reply, Log, Right> Play<
    LineSlot<Request, Reply, Log, Right>,
    LineView<Request, Reply>,
> for AimSecond {
    ghost then = { after_aim_second };
}

/// A group that is cut off comes into the second list, and its leader takes the right if that list was empty. The
/// caller picks what was given runs with the group, and what the law of the right is about.
pub struct JoinSecond<ForRight>(PhantomData<ForRight>);

impl<
    Request,
    Reply,
    Log: LogOfGroups<Request, Reply, Right>,
    Right,
    ForRight: PickedRight<Request, Reply, Log::About>,
> Play<LineSlot<Request, Reply, Log, Right>, LineView<Request, Reply>> for JoinSecond<ForRight> {
    ghost then = { after_join_second (serves_picked Log.serves ForRight.about) ForRight.given };
}

/// A leader in the second list reads its state: it has the right from here on, or not yet. The caller picks what the
/// law of the right is about.
pub struct Summon<About>(PhantomData<About>);

impl<
    Request,
    Reply,
    Log: LogOfGroups<Request, Reply, Right>,
    Right,
    About: PickedAbout<Log::About>,
> Play<LineSlot<Request, Reply, Log, Right>, LineView<Request, Reply>> for Summon<About> {
    ghost then = { after_summon (serves_picked Log.serves About.about) };
}

/// A leader gives the right back, if no group came after its own.
pub struct LeaveSecond;

impl<Request, Reply, Log, Right> Play<
    LineSlot<Request, Reply, Log, Right>,
    LineView<Request, Reply>,
> for LeaveSecond {
    ghost then = { after_leave_second };
}

/// A leader with the right clears the older link of the next group's oldest writer.
pub struct ClearSecond;

impl<Request, Reply, Log, Right> Play<
    LineSlot<Request, Reply, Log, Right>,
    LineView<Request, Reply>,
> for ClearSecond {
    ghost then = { after_clear_second };
}

/// A leader gives the right on to the leader of the next group.
pub struct CallNext;

impl<Request, Reply, Log, Right> Play<
    LineSlot<Request, Reply, Log, Right>,
    LineView<Request, Reply>,
> for CallNext {
    ghost then = { after_call_next };
}

/// A leader lets a member work in parallel with it.
pub struct MakeParallel;

impl<Request, Reply, Log, Right> Play<
    LineSlot<Request, Reply, Log, Right>,
    LineView<Request, Reply>,
> for MakeParallel {
    ghost then = { after_make_parallel };
}

/// A leader whose group is cut off gives the log back, if nobody came after its mark.
pub struct Free;

impl<Request, Reply, Log, Right> Play<
    LineSlot<Request, Reply, Log, Right>,
    LineView<Request, Reply>,
> for Free {
    ghost then = { after_free };
}

/// A leader clears the older link of the oldest writer that came after its mark.
pub struct CutBehindMark;

impl<Request, Reply, Log, Right> Play<
    LineSlot<Request, Reply, Log, Right>,
    LineView<Request, Reply>,
> for CutBehindMark {
    ghost then = { after_cut_behind_mark };
}

/// A writer that is about to link goes back instead: it gives its empty slot back.
pub struct Withdraw;

impl<Request, Reply, Log, Right> Play<
    LineSlot<Request, Reply, Log, Right>,
    LineView<Request, Reply>,
> for Withdraw {
    ghost then = { after_withdraw };
}

/// A leader names the newest writer that it saw, to stall writes.
pub struct AimStall;

impl<Request, Reply, Log, Right> Play<
    LineSlot<Request, Reply, Log, Right>,
    LineView<Request, Reply>,
> for AimStall {
    ghost then = { after_aim_stall };
}

/// A leader stalls writes, if nobody came since it named the newest writer.
pub struct PutStall;

impl<Request, Reply, Log, Right> Play<
    LineSlot<Request, Reply, Log, Right>,
    LineView<Request, Reply>,
> for PutStall {
    ghost then = { after_stall };
}

/// A leader that stalls writes takes the request of a writer of the queue. What the law asks of each request holds of
/// it; the caller picks what the law is about.
pub struct Hold<About>(PhantomData<About>);

impl<
    Request: HasGroupingItem,
    Reply,
    Log: LogOfGroups<Request, Reply, Right>,
    Right,
    About: PickedAbout<Log::About>,
> Play<LineSlot<Request, Reply, Log, Right>, LineView<Request, Reply>> for Hold<About> {
    ghost then = { after_hold (asks_picked Request.item_of Log.lawful About.about) };
}

/// It gives that request back.
pub struct GiveBack;

impl<Request, Reply, Log, Right> Play<
    LineSlot<Request, Reply, Log, Right>,
    LineView<Request, Reply>,
> for GiveBack {
    ghost then = { after_give_back };
}

/// It lets that writer go, by the link of the next newer one.
pub struct PassBy;

impl<Request, Reply, Log, Right> Play<
    LineSlot<Request, Reply, Log, Right>,
    LineView<Request, Reply>,
> for PassBy {
    ghost then = { after_pass_by };
}

/// It lets that writer go, which is the newest one.
pub struct PassFirst;

impl<Request, Reply, Log, Right> Play<
    LineSlot<Request, Reply, Log, Right>,
    LineView<Request, Reply>,
> for PassFirst {
    ghost then = { after_pass_first };
}

/// The writer that was let go gets its reply, which is in its slot.
pub struct Dismiss;

impl<Request, Reply, Log, Right> Play<
    LineSlot<Request, Reply, Log, Right>,
    LineView<Request, Reply>,
> for Dismiss {
    ghost then = { after_dismiss };
}

/// A leader ends the stall.
pub struct Resume;

impl<Request, Reply, Log, Right> Play<
    LineSlot<Request, Reply, Log, Right>,
    LineView<Request, Reply>,
> for Resume {
    ghost then = { after_resume };
}
