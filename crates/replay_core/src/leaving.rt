//! Writers that leave with their answers.

ghost use Rattle.std.specs.Prelude.{◌≡◌, ◌<◌, ◌≤◌, ◌+◌, ◌-◌, ◌++◌, ◌∷◌, [], ◌==◌, ℕ, List, Some, None, take, drop, map, length, vec_len, vec_capacity, if◌then◌else◌};
ghost use Rattle.std.specs.List.{AllByRecursion};
ghost use Rattle.std.specs.Option.{option_or};
ghost use Rattle.model_core.specs.Core as core;
ghost use Rattle.model_base.specs.Calls.{refused};
ghost use Rattle.replay_plans.specs.declared.plan.ClientPlan.{ClientPlan};
ghost use Rattle.replay_core.specs.Shown.{shown_writer};
ghost use Rattle.replay_core.specs.Mirrors.{AreDone, IsClientOf, done_of};

use crate::writer::{Answer, Writer};
use model_base::Refusal;

/// A client's writer, if it has left and the client doesn't have its answer yet.
pub(crate) fn done_of(done: &[Option<Writer>], client: u32) -> Option<Writer>
    ensures { result ≡ done_of done.now client }
{
    match (client as usize).checked_sub(1) {
        Some(place) if place < done.len() => done[place],
        _ => None,
    }
}

/// Notes a client's writer that has left, or with `None` that the client has its answer.
pub(crate) fn set_done(done: &mut Vec<Option<Writer>>, client: u32, writer: Option<Writer>)
    ensures len { vec_len done.new ≡ vec_len done.old }
    ensures set { 1 ≤ client → client ≤ length done.old.items → (c : ℕ)
        → done_of done.new.items c ≡ (if c == client then writer else done_of done.old.items c) }
{
    let Some(place) = (client as usize).checked_sub(1) else {
        return;
    };
    if place < done.len() {
        done[place] = writer;
    }
}

/// A writer leaves. If an earlier writer of its client is noted here still, that one stays.
pub(crate) fn note_done(done: &mut Vec<Option<Writer>>, writer: Writer)
    ensures len { vec_len done.new ≡ vec_len done.old }
    ensures noted { (plans : List ClientPlan) (leaving : List core.Writer) → AreDone plans done.old.items leaving
        → IsClientOf (length done.old.items) writer
        → AreDone plans done.new.items (leaving ++ shown_writer plans writer ∷ []) }
{
    match done_of(done, writer.client) {
        None => set_done(done, writer.client, Some(writer)),
        Some(_) => {}
    }
}

/// The writers of a group leave, in order.
pub(crate) fn note_group(done: &mut Vec<Option<Writer>>, group: &[Writer])
    ensures len { vec_len done.new ≡ vec_len done.old }
    ensures noted { (plans : List ClientPlan) (leaving : List core.Writer) → AreDone plans done.old.items leaving
        → AllByRecursion (IsClientOf (length done.old.items)) group.now
        → AreDone plans done.new.items (leaving ++ map (shown_writer plans) group.now) }
{
    // The writers so far have left.
    for writer in group {
        note_done(done, *writer);
    }
}

/// The writers of a group leave, in order, each with this refusal.
pub(crate) fn note_refused(done: &mut Vec<Option<Writer>>, group: &[Writer], why: Refusal)
    ensures len { vec_len done.new ≡ vec_len done.old }
    ensures noted { (plans : List ClientPlan) (leaving : List core.Writer) → AreDone plans done.old.items leaving
        → AllByRecursion (IsClientOf (length done.old.items)) group.now
        → AreDone plans done.new.items (leaving ++ core.all_answered (refused why)
        (map (shown_writer plans) group.now)) }
{
    // The writers so far have left, each with the refusal.
    for writer in group {
        note_done(
            done,
            Writer {
                client: writer.client,
                options: writer.options,
                batch: writer.batch,
                count: writer.count,
                since: writer.since,
                answer: Some(Answer::Refused { why }),
            },
        );
    }
}

/// Takes `len` items out, from the place `start` on.
pub(crate) fn remove_range<T: Copy>(items: &mut Vec<T>, start: usize, len: usize)
    requires { start + len ≤ vec_len items.old }
    ensures items { items.new.items ≡ take start items.old.items ++ drop (start + len) items.old.items }
    ensures len { vec_len items.new + len ≡ vec_len items.old }
    ensures capacity { vec_capacity items.old ≤ vec_capacity items.new }
{
    // For each pass of the loop one item from `start` on is gone, and the others are as they were.
    for _ in 0..len {
        items.remove(start);
    }
}
