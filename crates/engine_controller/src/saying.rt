//! What clients say, and what a client hears after a token call of its own.

ghost use Rattle.std.specs.Prelude.{◌≡◌, ◌≤◌, None};
ghost use Rattle.crossbeam_utils.specs.Seq.{cell_view};
ghost use Rattle.model_base.specs.Controller.{say, hear};
ghost use Rattle.engine_controller.specs.declared.numbers.Action.TheVariants.{Say, Hear};
ghost use Rattle.engine_controller.specs.Rule.{Makes, Says, IsClientView};
ghost use Rattle.engine_controller.specs.Passes.{client_of, seen_by, board_of, IsPassOf, EndsWith, HasAnnounced, HasGathered};

use crate::controller::Controller;
use crate::numbers::Numbers;
use crate::pass::Pass;
use crate::rule::{Asking, Hearing, Saying, Seat};
use crate::words::load;
use base_devices::Clock;
use std::marker::Brand;
use std::sync::Wait;

impl<Time: Clock> Controller<Time> {
    /// Says up to which sequence the client, or those for whose group it asks for a delay next, had been shown what is
    /// published.
    ///
    /// The board comes first: what is raised there before the look at the mark is found by each client whose token call
    /// raises the mark above what the look found. Then the call: where the controller counts fewer token calls than the
    /// mark, it tries again. It never does, since a token call is counted before it raises the mark; but no rule speaks
    /// of the controller and of the board at the same moment.
    pub fn say<R: Wait>(&self, rt: &R, pass: &mut Pass, shown: u64)
        requires own { IsPassOf self.now pass.old }
        ensures own { IsPassOf self.now pass.new × (client_of pass.new ≡ client_of pass.old) }
        ensures said { EndsWith (client_of pass.old) (seen_by pass.old) (say shown) None (seen_by pass.new) }
    {
        let marked = self.announce(pass, shown);
        // No call was made so far.
        for _ in rt.forever() {
            let found = self.say_once::<Brand, R>(rt, &mut pass.seat, shown, marked);
            pass.shown = found.shown;
            if marked <= found.tokens {
                return;
            }
        }
        unreachable!()
    }

    // Says it on the board, and returns the mark that the client finds there then.
    fn announce(&self, pass: &mut Pass, shown: u64) -> u64
        requires own { IsPassOf self.now pass.old }
        ensures own { IsPassOf self.now pass.new × (client_of pass.new ≡ client_of pass.old) }
        ensures same { pass.new.seat ≡ pass.old.seat }
        ensures announced { HasAnnounced pass.new shown result }
    {
        self.raise(pass, shown);
        self.board.announce(&mut pass.board)
    }

    // Says it on the board, where the client has said less so far.
    fn raise(&self, pass: &mut Pass, shown: u64)
        requires own { IsPassOf self.now pass.old }
        ensures own { IsPassOf self.now pass.new × (client_of pass.new ≡ client_of pass.old) }
        ensures same { pass.new.seat ≡ pass.old.seat }
        ensures raised { shown ≤ (board_of pass.new).raised }
    {
        if shown <= pass.said {
            return;
        }
        self.board.raise(&mut pass.board, shown);
        pass.said = shown;
    }

    // Reads the numbers. Where the controller counts as many token calls as the mark, or more, this load is the call.
    fn say_once<Picked: Asking, R: Wait>(
        &self,
        rt: &R,
        seat: &mut Seat,
        shown: u64,
        marked: u64,
    ) -> Numbers
        requires picked { Picked.call ≡ Say shown marked }
        requires cell { seat.old.table_id ≡ self.now.cell.table.shared.table_id }
        requires view { IsClientView (cell_view seat.old) }
        ensures cell { seat.new.table_id ≡ seat.old.table_id }
        ensures says { Says Picked.call (cell_view seat.old) result (cell_view seat.new) }
    {
        load::<Saying<Picked>, R>(&self.cell, rt, seat)
    }

    /// After a token call of the client: a sequence that isn't below any that was said up to that call. That it isn't
    /// is known at closing.
    pub fn gather(&self, pass: &mut Pass) -> u64
        requires own { IsPassOf self.now pass.old }
        ensures own { IsPassOf self.now pass.new × (client_of pass.new ≡ client_of pass.old) }
        ensures same { seen_by pass.new ≡ seen_by pass.old }
        ensures gathered { HasGathered pass.new result }
    {
        self.board.gather(&mut pass.board, pass.tokens)
    }

    /// The client hears a sequence that it has gathered, once it has seen what is published up to there.
    pub fn hear<R: Wait>(&self, rt: &R, pass: &mut Pass, most: u64)
        requires own { IsPassOf self.now pass.old }
        requires gathered { HasGathered pass.old most }
        ensures own { IsPassOf self.now pass.new × (client_of pass.new ≡ client_of pass.old) }
        ensures heard { EndsWith (client_of pass.old) (seen_by pass.old) (hear most) None (seen_by pass.new) }
    {
        let found = self.hear_once::<Brand, R>(rt, &mut pass.seat, most);
        pass.shown = found.shown;
    }

    // Reads the numbers. This load is the call.
    fn hear_once<Picked: Asking, R: Wait>(&self, rt: &R, seat: &mut Seat, most: u64) -> Numbers
        requires picked { Picked.call ≡ Hear most }
        requires cell { seat.old.table_id ≡ self.now.cell.table.shared.table_id }
        requires view { IsClientView (cell_view seat.old) }
        ensures cell { seat.new.table_id ≡ seat.old.table_id }
        ensures hears { Makes Picked.call (cell_view seat.old) result (cell_view seat.new) }
    {
        load::<Hearing<Picked>, R>(&self.cell, rt, seat)
    }
}
