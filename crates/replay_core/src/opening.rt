//! The state before the first event.

ghost use Rattle.std.specs.Prelude.{◌≡◌, ◌-◌, ◌^◌, ◌≤◌, length, sum_by, replicate, IfOk, vec_len};
ghost use Rattle.std.specs.List.{AllZip};
ghost use Rattle.replay_plans.specs.declared.plan.ClientPlan.{ClientPlan};
ghost use Rattle.replay_core.specs.Fresh.{IsFresh};

use crate::phases::{LogPhase, Mark, TablePhase};
use crate::state::{CoreOptions, Seat, State};
use model_base::{MAX_CLIENTS, NoMemory};
use replay_plans::ClientPlan;
use std::alloc::Global;

impl<'a> State<'a> {
    ghost use Rattle.model_core.specs.Core as core;
    ghost use Rattle.replay_core.specs.Shows.{Shows};
    ghost use Rattle.replay_core.specs.Shown.{options_of, plans_in};
    ghost use Rattle.std.specs.List.{AllByRecursion};
    ghost use Rattle.replay_plans.specs.Small.{IsSmallPlan};

    /// The state before the first event. The clients run these plans, the first of which is client 1's. Fails where
    /// there is no memory for all that events will need. No commit may have a batch of more than 16 MiB, even if no
    /// commit before it is accepted.
    pub fn new(
        alloc: Global,
        plans: Vec<ClientPlan<'a>>,
        options: CoreOptions,
    ) -> Result<State<'a>, NoMemory>
        requires some { 1 ≤ vec_len plans }
        requires few { vec_len plans ≤ MAX_CLIENTS }
        requires small { AllByRecursion IsSmallPlan plans.items }
        requires last_fits { options.last ≤ 2 ^ 56 - 1 }
        // All room is made here, so that no event asks for memory.
        ensures shows { IfOk result (λ r. Shows r (options_of options)
            (core.opening_state (options_of options) plans.entry.items)) }
        ensures plans { IfOk result (λ r. plans_in r ≡ plans.entry.items) }
    {
        let room = total_lines(&plans)?;
        let seats = new_seats(alloc, &plans)?;
        let marks = repeated(alloc, Mark::Out, plans.len())?;
        let done = repeated(alloc, None, plans.len())?;
        let linked = Vec::with_capacity(alloc, room)?;
        let items = Vec::with_capacity(alloc, room)?;
        let second = Vec::with_capacity(alloc, room)?;
        let groups = Vec::with_capacity(alloc, room)?;
        let entries = Vec::with_capacity(alloc, room)?;
        let accepted = repeated(alloc, 0, plans.len())?;
        Ok(State {
            options,
            plans,
            seats,
            marks,
            done,
            linked,
            items,
            second,
            in_second: 0,
            in_hand: 0,
            log: LogPhase::Free,
            table: TablePhase::Still,
            last_finished: None,
            groups,
            entries,
            accepted,
            assigned: options.last,
            log_failed: false,
            last: options.last,
        })
    }
}

impl Seat {
    /// A client before its first line, with room for this number of replies.
    fn new(alloc: Global, replies: usize) -> Result<Seat, NoMemory>
        ensures { IfOk result (λ seat. (plan : ClientPlan) → length plan ≡ replies → IsFresh plan seat) }
    {
        Ok(Seat {
            next: 0,
            from: 0,
            idle: true,
            replies: Vec::with_capacity(alloc, replies)?,
        })
    }
}

/// How many lines the plans have together. A sum that passes `usize::MAX` is answered with `NoMemory`.
fn total_lines(plans: &[ClientPlan<'_>]) -> Result<usize, NoMemory>
    ensures { IfOk result (λ count. count ≡ sum_by (λ (p : ClientPlan). length p) plans.now) }
{
    let mut count = 0usize;
    // The count is that of the lines of the plans so far.
    for plan in plans {
        count = count.checked_add(plan.len()).ok_or(NoMemory)?;
    }
    Ok(count)
}

/// A seat for each client, with room for a reply to each of its lines.
fn new_seats(alloc: Global, plans: &[ClientPlan<'_>]) -> Result<Vec<Seat>, NoMemory>
    ensures fresh { IfOk result (λ seats. AllZip IsFresh plans.now seats.items) }
    ensures len { IfOk result (λ seats. vec_len seats ≡ length plans.now) }
{
    let mut seats = Vec::new(alloc);
    // Each plan so far has a seat.
    for plan in plans {
        seats.push(Seat::new(alloc, plan.len())?)?;
    }
    Ok(seats)
}

/// A list of `len` copies of an item.
fn repeated<T: Copy>(alloc: Global, item: T, len: usize) -> Result<Vec<T>, NoMemory>
    ensures items { IfOk result (λ list. list.items ≡ replicate len item) }
    ensures len { IfOk result (λ list. vec_len list ≡ len) }
{
    let mut list = Vec::new(alloc);
    // The list has the item as many times as the loop ran.
    for _count in 0..len {
        list.push(item)?;
    }
    Ok(list)
}
