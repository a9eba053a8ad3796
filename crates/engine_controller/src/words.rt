//! What is done with the eight words and the passes, as far as it doesn't depend on the type of the clock: each
//! function is one step of the cell under its rule.

ghost use Rattle.std.specs.Prelude.{◌≡◌, ◌≢◌, ◌+◌, ◌++◌, [], Bool, true, if◌then◌else◌, IfOk, IfErr};
ghost use Rattle.crossbeam_utils.specs.Register.{Turns, Forks};
ghost use Rattle.crossbeam_utils.specs.Seq.{cell_view};
ghost use Rattle.model_base.specs.Controller.{numbers_after};
ghost use Rattle.engine_controller.specs.declared.numbers.Numbers.{Numbers};
ghost use Rattle.engine_controller.specs.Numbers.{numbers_of, action_of, held_up_after, shown_after, token_weight};
ghost use Rattle.engine_controller.specs.Rule.{Kept, Makes, Sees, MayCall, IsClientView};
ghost use Rattle.engine_controller.specs.Rule.{client_in, seen_in, asked_in, marked_of};

use crate::numbers::{Action, Numbers};
use crate::rule::{Asking, Cell, ControllerView, Exchange, Moved, Seat};
use atomic_table::Split;
use crossbeam_utils::rule::Outcome;
use std::sync::Wait;

/// Reads the numbers, with an outcome that the caller picks.
pub fn load<Picked: Outcome<Numbers, ControllerView>, R: Wait>(
    cell: &Cell,
    rt: &R,
    seat: &mut Seat,
) -> Numbers
    requires cell { seat.old.table_id ≡ cell.now.table.shared.table_id }
    requires rule { Turns Kept seat.old.id (cell_view seat.old) (λ x. x) Picked.then }
    ensures cell { seat.new.table_id ≡ seat.old.table_id }
    ensures rule { Picked.then (cell_view seat.old) result result (cell_view seat.new) }
{
    cell.load_as::<Picked, R>(rt, seat)
}

/// One exchange. It makes the call where the numbers are still those that were found before.
pub fn exchange<Picked: Asking, R: Wait>(
    cell: &Cell,
    rt: &R,
    seat: &mut Seat,
    action: Action,
    found: Numbers,
    new: Numbers,
) -> Result<Numbers, Numbers>
    requires picked { (Picked.call ≡ action) × (Picked.found ≡ found) }
    requires cell { seat.old.table_id ≡ cell.now.table.shared.table_id }
    requires view { IsClientView (cell_view seat.old) }
    requires may { MayCall action (asked_in (client_in (cell_view seat.old)) (seen_in (cell_view seat.old))) }
    requires new { numbers_of new ≡ numbers_after (numbers_of found) (action_of action) }
    requires held_up { new.held_up ≡ held_up_after (client_in (cell_view seat.old)) found.held_up
        (numbers_of found) (action_of action) }
    requires shown { new.shown ≡ shown_after found.shown (action_of action) }
    requires tokens { new.tokens ≡ found.tokens + token_weight (action_of action) }
    requires unsaid { marked_of action ≡ 0 }
    ensures cell { seat.new.table_id ≡ seat.old.table_id }
    ensures ok { IfOk result (λ _. Makes action (cell_view seat.old) found (cell_view seat.new)) }
    ensures err { IfErr result (λ x. Sees (cell_view seat.old) x x (cell_view seat.new)) }
{
    exchange_as::<Exchange<Picked>, R>(cell, rt, seat, found, new)
}

// Puts new numbers in place of those that were found before, where they are still the same. The caller picks the
// outcome.
fn exchange_as<Picked: Outcome<Numbers, ControllerView>, R: Wait>(
    cell: &Cell,
    rt: &R,
    seat: &mut Seat,
    found: Numbers,
    new: Numbers,
) -> Result<Numbers, Numbers>
    requires cell { seat.old.table_id ≡ cell.now.table.shared.table_id }
    requires rule { (eq : Numbers → Numbers → Bool) → ((x y : Numbers) → eq x y ≡ true → x ≡ y)
        → ((x y : Numbers) → x ≡ y → eq x y ≡ true)
        → Turns Kept seat.old.id (cell_view seat.old) (λ x. if eq x found then new else x) Picked.then }
    ensures cell { seat.new.table_id ≡ seat.old.table_id }
    ensures ok { IfOk result (λ _. Picked.then (cell_view seat.old) found new (cell_view seat.new)) }
    ensures err { IfErr result (λ x. (x ≢ found) × Picked.then (cell_view seat.old) x x (cell_view seat.new)) }
{
    cell.compare_exchange_as::<Picked, R>(rt, seat, found, new)
}

/// Cuts a pass in two. The caller picks how.
pub fn split<Picked: Split<ControllerView>>(cell: &Cell, seat: &mut Seat) -> Seat
    requires cell { seat.old.table_id ≡ cell.now.table.shared.table_id }
    requires rule { Forks Kept seat.old.id (cell_view seat.old)
        (Picked.left (cell_view seat.old)) (Picked.right (cell_view seat.old)) }
    ensures kept { (seat.new.table_id ≡ seat.old.table_id) × (cell_view seat.new ≡ Picked.left (cell_view seat.old)) }
    ensures given { (result.table_id ≡ seat.old.table_id) × (cell_view result ≡ Picked.right (cell_view seat.old))
        × (result.me.1 ≡ []) }
{
    cell.split_pass::<Picked>(seat)
}

/// A pass takes in the observers of another pass, which has made no call.
pub fn join(cell: &Cell, seat: &mut Seat, other: Seat)
    requires cell { seat.old.table_id ≡ cell.now.table.shared.table_id }
    requires other { (other.table_id ≡ seat.old.table_id) × (other.me.1 ≡ []) }
    ensures cell { seat.new.table_id ≡ seat.old.table_id }
    ensures view { cell_view seat.new ≡ cell_view seat.old ++ cell_view other }
{
    cell.join_pass::<Moved>(seat, other);
}
