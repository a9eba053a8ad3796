//! The laws of the write path's core, for both ways of writing: in a single stage, and pipelined. Each is a function
//! without code, whose contract is the law. The definitions are in `model_core`.
#![tactic(auto)]

mod examples;

ghost use Rattle.std.specs.Prelude.{◌≡◌, ℕ, ◌++◌, false, List, Some};
ghost use Rattle.model_core.specs.declared.event.Event.{Event};
ghost use Rattle.model_core.specs.declared.event.Event.TheVariants.{Link, Leave};
ghost use Rattle.model_base.specs.Calls.{Command};
ghost use Rattle.model_core.specs.Core.{Options, Writer, State, stalled, opening_state};
ghost use Rattle.model_core.specs.Step.{step, state_after};
ghost use Rattle.model_core.specs.CoreLaw.{IsCore, Keeps, in_order};
ghost use Rattle.model_core.specs.Halves.{list_half_of, table_half_of, moves_list, moves_table, TableStep, ListStep};
ghost use Rattle.model_core.specs.Replies.{AreRepliesOf, IsLater};
ghost use Rattle.model_core_laws.specs.Stalls.{line_without, HasNoMore};

pub use examples::{one_stall, one_write, wrong_replies, wrong_states};

/// The law of the core: it holds at the opening, and each event keeps it. An event also keeps the order of those in
/// line, and once the log has failed no event gives a run. So the law holds after every list of events.
pub fn law()
    ensures opening { (o : Options) (plans : List (List Command)) → IsCore o (opening_state o plans) }
    // A link adds its own client at the end of the line, if it didn't wait; no other event adds anybody, and nobody
    // passes another.
    ensures kept { (o : Options) (s t : State) (event : Event) → IsCore o s → step o s event ≡ Some t
        → IsCore o t × Keeps event s t }
    ensures every_list { (o : Options) (plans : List (List Command)) (events : List Event)
        → IsCore o (state_after o plans events) }
{}

/// The replies of the core: after every list of events the clients' calls so far, with their replies, are those of a
/// plain map, at points of the one history of batches.
pub fn replies_of_a_map()
    // A client's accepted batches are in the history once each, in order, perhaps with one more that it hasn't heard of
    // yet.
    ensures every_list { (o : Options) (plans : List (List Command)) (events : List Event)
        → AreRepliesOf o plans (state_after o plans events) }
{}

/// What stays as it is while more events come: the history is only added to, the published sequence doesn't fall, and
/// no reply is taken back. A later read of any client is at or above what was published before, and so at or above
/// each accepted commit of which any client had learned before.
pub fn nothing_is_taken_back()
    ensures later { (o : Options) (plans : List (List Command)) (events more : List Event)
        → IsLater (state_after o plans events) (state_after o plans (events ++ more)) }
{}

/// Those that are refused while a leader stalls writes: none of them is in line or in a group, and none has an entry in
/// the history. The others keep their order.
pub fn refused_in_a_stall()
    // A link brings nobody into the line.
    ensures nobody_comes { (o : Options) (s t : State) (ws : List Writer) (c : ℕ) → s.log ≡ stalled ws
        → step o s (Link c) ≡ Some t → in_order t ≡ in_order s }
    // The writer that leaves is neither in line nor in a group any more, and all others are where they were.
    ensures one_leaves { (o : Options) (s t : State) (m stops delays : ℕ) → IsCore o s
        → step o s (Leave m stops delays) ≡ Some t → in_order t ≡ line_without m (in_order s) }
    // All that the history has of a client that is refused was accepted before.
    ensures no_entry_by_link { (o : Options) (plans : List (List Command)) (events : List Event) (t : State)
        (ws : List Writer) (c : ℕ) → (state_after o plans events).log ≡ stalled ws
        → step o (state_after o plans events) (Link c) ≡ Some t → HasNoMore t c }
    ensures no_entry_by_leave { (o : Options) (plans : List (List Command)) (events : List Event) (t : State)
        (m stops delays : ℕ) → step o (state_after o plans events) (Leave m stops delays) ≡ Some t → HasNoMore t m }
{}

/// A state in two halves: where the writers are, and the memtable. Only the events from a group's launch to its exit
/// change the memtable's half, and of these only the exit moves a writer.
pub fn halves()
    ensures list_events_leave_table { (o : Options) (s t : State) (event : Event)
        → moves_table event ≡ false → step o s event ≡ Some t → table_half_of t ≡ table_half_of s }
    ensures table_events_leave_list { (o : Options) (s t : State) (event : Event)
        → moves_list event ≡ false → step o s event ≡ Some t → list_half_of t ≡ list_half_of s }
    ensures table_step { (o : Options) (s t : State) (event : Event)
        → step o s event ≡ Some t → TableStep o event s (table_half_of t) }
    ensures list_step { (o : Options) (s t : State) (event : Event)
        → step o s event ≡ Some t → ListStep o event s (list_half_of t) }
{}
