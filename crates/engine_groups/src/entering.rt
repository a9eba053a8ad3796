//! How a client's request comes into the line of writers.

ghost use Rattle.std.specs.Prelude.{◌≡◌, ◌≤◌, Some, IfOk, IfErr};
ghost use mathlib.Core.List.{IsPrefix};
ghost use Rattle.model_base.specs.declared.limits.TheConstants.{MAX_SIZE};
ghost use Rattle.line_writers.specs.Seats.{client_of, Belongs, IsIn, IsOut, answers_told};
ghost use Rattle.engine_controller.specs.Noted.{Noted};
ghost use Rattle.engine_controller.specs.Passes.{seen_by, seen_by_note, IsPassOf, client_of as pass_client};
ghost use Rattle.engine_parts.specs.Asking.{OnlyLooks};
ghost use Rattle.engine_parts.specs.Handled.{IsTurnedAway};
ghost use Rattle.engine_parts.specs.Items.{item_with};
ghost use Rattle.engine_groups.specs.Clients.{IsIdle};
ghost use Rattle.engine_groups.specs.Law.{law_in};

use crate::engine::{EngineClient, GroupEngine};
use base_devices::Clock;
use engine_calls::Gate;
use engine_parts::{SealedAnswer, SealedRequest, turn_away_if_stalled};
use log_writer::GroupLog;
use model_base::Item;
use std::rt;
use std::sync::Wait;
use table_calls::Table;
use table_nodes::{Nodes, Parts};

impl<
    Log: GroupLog,
    Versions: Table<Nodes, Parts>,
    Time: Clock + Drop,
    Watch: Gate + Drop,
> GroupEngine<Log, Versions, Time, Watch> {
    /// Links a client's request, with a note of what the client has seen. Where writes are stalled, one that may wait
    /// waits, and one that may not is refused, as soon as a look shows why; until then it tries again.
    pub(crate) fn enter<R: Wait + rt::Clock>(
        &self,
        rt: &R,
        client: &mut EngineClient<Log, Versions, Time>,
        item: Item,
        request: SealedRequest,
    ) -> Result<(), SealedAnswer>
        requires client { IsIdle Versions.Table self.now client.old }
        requires item { (item ≡ item_with request.since request.batch.records request.options)
            × (item.size ≤ MAX_SIZE) }
        ensures same { client.new ≡ record client.old { writer = client.new.writer; pass = client.new.pass } }
        ensures pass { IsPassOf self.now.controller client.new.pass
            × (pass_client client.new.pass ≡ pass_client client.old.pass)
            × OnlyLooks client.old.number (seen_by client.old.pass) (seen_by client.new.pass) }
        ensures writer { Belongs self.now.list client.new.writer
            × (client_of client.new.writer ≡ client_of client.old.writer) }
        ensures linked { IfOk result (λ _. (n : Noted) × (seen_by_note n ≡ seen_by client.new.pass)
            × IsIn (law_in Versions.Table self.now.list) (record request { note = Some n })
            (answers_told client.old.writer) client.new.writer) }
        ensures away { IfErr result (λ p. IsOut client.new.writer
            × (answers_told client.new.writer ≡ answers_told client.old.writer)
            × IsTurnedAway client.old.number (seen_by client.old.pass) (seen_by client.new.pass) request p) }
    {
        let mut request = request;
        let list = &self.list;
        let controller = &self.controller;
        request.put_note(controller.note(&mut client.pass));
        if !item.options.no_slowdown {
            list.link(rt, &mut client.writer, item, request);
            return Ok(());
        }
        let pauses = list.pauses();
        // The request is in no list, and its note shows all that the client has seen.
        for _ in rt.forever() {
            let Err(back) = list.try_link(rt, &mut client.writer, item, request) else {
                return Ok(());
            };
            match turn_away_if_stalled(rt, controller, &mut client.pass, client.number, back) {
                Ok(answer) => return Err(answer),
                Err(back) => request = back,
            }
            request.put_note(controller.note(&mut client.pass));
            pauses.retry(rt);
        }
        unreachable!()
    }
}
