//! How a leader's group waits, while writes are stalled: nobody links, and writers of the queue that may not wait leave
//! it with a refusal, as long as a look shows that some client stops or slows writes.

ghost use Rattle.std.specs.Prelude.{◌≡◌, ◌⊎◌, ℕ, List, true, false, length};
ghost use Rattle.line_rule.specs.declared.view.QueuedWriter.{QueuedWriter};
ghost use Rattle.line_rule.specs.declared.view.Handling.{Handling};
ghost use Rattle.line_writers.specs.Rooms.{HasRoom};
ghost use Rattle.line_writers.specs.Seats.{about_of, clients_of, Belongs};
ghost use Rattle.base_devices.specs.Clocks.{HasPaused};
ghost use Rattle.model_base.specs.Controller.{HoldUp};
ghost use Rattle.model_base.specs.Replies.{WasHeldUp};
ghost use Rattle.engine_controller.specs.Looks.{look_of};
ghost use Rattle.engine_controller.specs.Passes.{client_of, seen_by, IsPassOf};
ghost use Rattle.engine_rule.specs.Plans.{LetsProceed};
ghost use Rattle.engine_parts.specs.declared.requests.Request.{Request as Asked};
ghost use Rattle.engine_parts.specs.declared.requests.Answer.{Answer as Told};
ghost use Rattle.engine_parts.specs.Asking.{OnlyLooks};
ghost use Rattle.engine_parts.specs.Handled.{EndsInDelay, SawNoTokens};
ghost use Rattle.engine_groups.specs.Stalling.{AreLetGo, IsSame, KeepsGroup, LeadsSome, StallsFor};

use crate::engine::GroupEngine;
use crate::laws;
use crate::leader::{Leadership, Right};
use base_devices::Clock;
use engine_calls::Gate;
use engine_controller::{Look, Pass};
use engine_parts::{
    Delay, SealedAnswer, SealedRequest, drop_if_stalled, holds_writes_up, may_proceed,
};
use line_writers::{Requests, Room, Writer};
use log_writer::GroupLog;
use std::rt;
use std::sync::Wait;
use table_calls::Table;
use table_nodes::{Nodes, Parts};

impl<
    Log: GroupLog,
    Versions: Table<Nodes, Parts>,
    Time: Clock + Drop,
    Watch: Gate + Drop,
> GroupEngine<Log, Versions, Time, Watch> {
    /// Whether a group goes on. A group that may not wait goes on only where writes aren't held up. Any other goes on,
    /// but waits here first, and stalls writes meanwhile. It has its group again when this returns, so the stall has
    /// ended.
    pub(crate) fn may_go_on<R: Wait + rt::Clock>(
        &self,
        rt: &R,
        writer: &mut Writer<
            SealedRequest,
            SealedAnswer,
            Leadership<Log, Versions, Time>,
            Right<Versions>,
        >,
        requests: &Requests<SealedRequest>,
        room: &mut Room,
        pass: &mut Pass,
        clock: &mut Time,
        look: Look,
        delay: &Delay,
        no_slowdown: bool,
    ) -> bool
        requires engine { (about_of self.now.list).controller.value ≡ self.now.controller }
        requires pass { IsPassOf self.now.controller pass.old
            × EndsInDelay (client_of pass.old) (look_of look) (seen_by pass.old) }
        requires leads { LeadsSome self.now.list no_slowdown (length requests.now.list.items) writer.old
            × HasRoom (clients_of self.now.list) room.old }
        ensures pass { IsPassOf self.now.controller pass.new × (client_of pass.new ≡ client_of pass.old) }
        ensures looks { OnlyLooks (client_of pass.old) (seen_by pass.old) (seen_by pass.new) }
        ensures proceeds { result ≡ true
            → LetsProceed (client_of pass.old) (look_of look) (seen_by pass.old) (seen_by pass.new) no_slowdown }
        ensures refused { result ≡ false
            → (no_slowdown ≡ true) × HoldUp (look_of look) × (seen_by pass.new ≡ seen_by pass.old) }
        // It waits at least as long as its delay answered.
        ensures waited { no_slowdown ≡ false
            → HasPaused (Time.paused clock.old) (look_of look).wait (Time.paused clock.new) }
        ensures leads { KeepsGroup self.now.list writer.old writer.new × HasRoom (clients_of self.now.list) room.new }
    {
        if no_slowdown || !holds_writes_up(look) {
            return may_proceed(rt, &self.controller, pass, clock, look, no_slowdown);
        }
        self.list.begin_stall(rt, writer, requests, room);
        self.let_queued_go(rt, writer, room, pass, delay);
        let proceeds = may_proceed(rt, &self.controller, pass, clock, look, no_slowdown);
        self.list.end_stall(writer, room);
        proceeds
    }

    /// Lets each writer of the queue that may not wait go with a refusal, from the newest one on, where a look shows
    /// that some client stops or slows writes. It ends at the first for which the look shows neither: that writer
    /// stays, and so do all that are older.
    fn let_queued_go<R: Wait + rt::Clock>(
        &self,
        rt: &R,
        writer: &mut Writer<
            SealedRequest,
            SealedAnswer,
            Leadership<Log, Versions, Time>,
            Right<Versions>,
        >,
        room: &mut Room,
        pass: &mut Pass,
        delay: &Delay,
    )
        requires engine { (about_of self.now.list).controller.value ≡ self.now.controller }
        requires pass { IsPassOf self.now.controller pass.old
            × WasHeldUp (seen_by pass.old) (client_of pass.old) (length (seen_by pass.old)) }
        requires stalls { Belongs self.now.list writer.old × ((own : QueuedWriter Asked)
            × (group left rest : List (QueuedWriter Asked)) × (seen : List (Handling Asked Told))
            × StallsFor self.now.list own group left seen rest room.old writer.old) }
        ensures pass { IsPassOf self.now.controller pass.new × (client_of pass.new ≡ client_of pass.old) }
        ensures looks { OnlyLooks (client_of pass.old) (seen_by pass.old) (seen_by pass.new) }
        ensures writer { IsSame self.now.list writer.old writer.new }
        ensures stalls { (own : QueuedWriter Asked) (group left rest : List (QueuedWriter Asked))
            (seen : List (Handling Asked Told)) → StallsFor self.now.list own group left seen rest room.old writer.old
            → (after : List (QueuedWriter Asked))
            × StallsFor self.now.list own group left seen after room.new writer.new }
        // Nobody is passed over: it ends early only where nobody stops or slows writes.
        ensures let_go { (own : QueuedWriter Asked) (group left rest : List (QueuedWriter Asked))
            (seen : List (Handling Asked Told)) → StallsFor self.now.list own group left seen rest room.old writer.old
            → SawNoTokens (client_of pass.old) (seen_by pass.old) (seen_by pass.new)
            ⊎ AreLetGo self.now.controller rest }
    {
        laws::codes_stand_for_items();
        // The leader still stalls writes, and has only looked. All that it has looked at have left the queue.
        for _ in rt.forever() {
            let Some(request) = self.list.next_queued(writer, room) else {
                return;
            };
            match drop_if_stalled(rt, &self.controller, pass, delay, request) {
                Ok(answer) => self.list.drop_queued(writer, room, answer),
                Err(request) => {
                    self.list.keep_queued(writer, room, request);
                    return;
                }
            }
        }
        unreachable!()
    }
}
