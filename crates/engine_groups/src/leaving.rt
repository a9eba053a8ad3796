//! How a leader that has answered its group leaves.

ghost use Rattle.std.specs.Prelude.{◌≡◌, [], ◌∷◌, ℕ, List, true};
ghost use Rattle.table_rule.specs.Histories.{Begins};
ghost use Rattle.line_rule.specs.declared.view.QueuedWriter.{QueuedWriter};
ghost use Rattle.line_rule.specs.declared.view.Handling.{Handling};
ghost use Rattle.line_writers.specs.Seats.{piped_of};
ghost use Rattle.engine_parts.specs.declared.requests.Request.{Request as Asked};
ghost use Rattle.engine_parts.specs.declared.requests.Answer.{Answer as Told};
ghost use Rattle.engine_groups.specs.Clients.{IsIdle, told_of, opened_log};
ghost use Rattle.engine_groups.specs.Leaving.{HasAnswered, IsFlat, IsToHandOn, IsToLeave};

use crate::engine::{EngineClient, GroupEngine};
use crate::leader::{Leadership, Right, turn_in};
use base_devices::Clock;
use engine_calls::Gate;
use engine_memtable::lead;
use engine_parts::SealedAnswer;
use log_writer::GroupLog;
use std::rt;
use std::sync::Wait;
use table_calls::Table;
use table_nodes::{Nodes, Parts};

impl<
    Log: GroupLog,
    Versions: Table<Nodes, Parts>,
    Time: Clock + Drop,
    Watch: Gate + Drop,
> GroupEngine<Log, Versions, Time, Watch> {
    /// Gives the log on to the next leader, or back to the list, and gives the members of the group their replies.
    pub(crate) fn leave(
        &self,
        client: &mut EngineClient<Log, Versions, Time>,
        leadership: Leadership<Log, Versions, Time>,
    ) -> SealedAnswer
        requires leaves { (number start : ℕ) × (mine : List (Asked × Told)) × (own : QueuedWriter Asked)
            × (seen : List (Handling Asked Told))
            × (l : IsToLeave Versions.Table self.now number start mine own seen client.old leadership)
            × IsFlat Versions.Table self.now number start mine own seen client.old leadership l }
        requires parts { client.old.layout.parts.parts ≡ [] }
        ensures fits { IsIdle Versions.Table self.now client.new }
        ensures answered { (number start : ℕ) (mine : List (Asked × Told)) (own : QueuedWriter Asked)
            (seen : List (Handling Asked Told))
            → IsToLeave Versions.Table self.now number start mine own seen client.old leadership
            → HasAnswered self.now.controller (opened_log self.now) (Versions.opening self.now.table).start number mine
            own.asked result (told_of client.new) }
        ensures reply { (number start : ℕ) (mine : List (Asked × Told)) (own : QueuedWriter Asked)
            (seen : List (Handling Asked Told))
            → (l : IsToLeave Versions.Table self.now number start mine own seen client.old leadership)
            → result ≡ l.led.p }
        ensures same { (client.new.number ≡ client.old.number) × (client.new.start ≡ client.old.start)
            × (client.new.seat ≡ client.old.seat) × (client.new.pass ≡ client.old.pass)
            × (client.new.table ≡ client.old.table) }
    {
        // Each reply is in its member's slot before the log goes on, so that a member has it as soon as it is
        // notified. The log goes on before any member is notified: the next leader works while they wake.
        self.list.exit(
            &mut client.writer,
            leadership,
            &mut client.lists.replies,
            &mut client.lists.room,
        )
    }

    /// Gives the log on, and puts the group into the table once it is the first of the logged groups. Then it gives
    /// the members of the group their replies.
    pub(crate) fn hand_on<R: Wait + rt::Clock>(
        &self,
        rt: &R,
        client: &mut EngineClient<Log, Versions, Time>,
        leadership: Leadership<Log, Versions, Time>,
        end: u64,
    ) -> SealedAnswer
        requires piped { piped_of self.now.list ≡ true }
        requires leaves { (number start : ℕ) × (mine : List (Asked × Told)) × (own : QueuedWriter Asked)
            × (seen : List (Handling Asked Told))
            × IsToHandOn Versions.Table self.now number start mine own seen client.old leadership end }
        ensures fits { IsIdle Versions.Table self.now client.new }
        ensures answered { (number start : ℕ) (mine : List (Asked × Told)) (own : QueuedWriter Asked)
            (seen : List (Handling Asked Told))
            → IsToHandOn Versions.Table self.now number start mine own seen client.old leadership end
            → HasAnswered self.now.controller (opened_log self.now) (Versions.opening self.now.table).start number mine
            own.asked result (told_of client.new) }
        ensures same { (client.new.number ≡ client.old.number) × (client.new.start ≡ client.old.start)
            × (client.new.pass ≡ client.old.pass) × (client.new.table ≡ client.old.table) }
        ensures seen { Begins (Versions.account client.old.seat).seen (Versions.account client.new.seat).seen }
    {
        // The group is in the second list before the log goes on, so that this list is in the order of the log.
        self.list.exit_pipelined(
            rt,
            &mut client.writer,
            leadership,
            &mut client.lists.replies,
            &mut client.lists.room,
        );
        let turn = turn_in(self.list.await_pipelined_role(rt, &mut client.writer));
        self.gate.launching(client.number);
        let turn = lead(
            rt,
            &self.list,
            &mut client.writer,
            &self.table,
            &mut client.seat,
            turn,
            client.layout.members.as_slice(),
            &mut client.layout.parts,
            end,
        );
        // Members get their replies only once their group is published, so that each sees its own write.
        let right = Right { turn: Some(turn) };
        self.list
            .exit_memtable(&mut client.writer, right, &mut client.lists.room)
    }
}
