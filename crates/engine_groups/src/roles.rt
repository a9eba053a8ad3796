//! How a client waits in the line of writers.

ghost use Rattle.std.specs.Prelude.{◌≡◌};
ghost use Rattle.table_rule.specs.Histories.{Begins};
ghost use Rattle.table_calls.specs.Account.{IsReady};
ghost use Rattle.line_writers.specs.Seats.{Belongs, HasRole, IsIn, client_of, answers_told};
ghost use Rattle.engine_parts.specs.declared.requests.Request.{Request as Asked};
ghost use Rattle.engine_groups.specs.Law.{dropped_in, kept_in, law_in};

use crate::engine::GroupEngine;
use crate::leader::{Leadership, Right};
use base_devices::Clock;
use engine_calls::Gate;
use engine_memtable::work;
use engine_parts::{SealedAnswer, SealedRequest};
use line_writers::{PipelinedRole, Role, Writer};
use log_writer::GroupLog;
use std::rt;
use std::sync::Wait;
use table_calls::Table;
use table_nodes::{Nodes, Parts};

impl<
    Log: GroupLog,
    Versions: Table<Nodes, Parts>,
    Time: Clock + Drop,
    Watch: Gate + Drop,
> GroupEngine<Log, Versions, Time, Watch> {
    /// Waits until the client leads a group, or has its reply, in a group or without one. Until then it puts its own
    /// part into the table, in parallel with its leader, where it is asked to.
    pub(crate) fn await_own_role<R: Wait + rt::Clock>(
        &self,
        rt: &R,
        writer: &mut Writer<
            SealedRequest,
            SealedAnswer,
            Leadership<Log, Versions, Time>,
            Right<Versions>,
        >,
        seat: &mut Versions::Seat,
    ) -> Role<Leadership<Log, Versions, Time>, SealedAnswer>
        requires list { Belongs self.now.list writer.old
            × ((q : Asked) × IsIn (law_in Versions.Table self.now.list) q (answers_told writer.old) writer.old) }
        requires seat { Versions.ours self.now.table seat.old × IsReady (Versions.account seat.old) }
        ensures client { client_of writer.new ≡ client_of writer.old }
        ensures role { Belongs self.now.list writer.new × ((q : Asked)
            → IsIn (law_in Versions.Table self.now.list) q (answers_told writer.old) writer.old
            → HasRole (law_in Versions.Table self.now.list) (kept_in self.now.list)
            (dropped_in self.now.list) q (answers_told writer.old) result writer.new) }
        ensures seat { Versions.ours self.now.table seat.new × IsReady (Versions.account seat.new)
            × ((Versions.account seat.new).number ≡ (Versions.account seat.old).number)
            × Begins (Versions.account seat.old).seen (Versions.account seat.new).seen }
    {
        // The request is in the list, and each part that the client was asked to insert is in the table.
        for _ in rt.forever() {
            match self.list.await_pipelined_role(rt, writer) {
                PipelinedRole::LogLeader(leadership) => return Role::LogLeader(leadership),
                PipelinedRole::Done(reply) => return Role::Done(reply),
                PipelinedRole::Parallel => work::<Nodes, Parts, Versions, R>(rt, &self.table, seat),
                _ => unreachable!(),
            }
        }
        unreachable!()
    }
}
