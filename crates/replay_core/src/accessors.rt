//! What the state shows.

ghost use Rattle.std.specs.Prelude.{◌≡◌, [], map, MatchOption};
ghost use Rattle.std.specs.List.{AllByRecursion};

use crate::state::State;
use crate::writer::CoreReply;
use replay_plans::{ClientPlan, Lines};
use run_outcome::HistoryEntry;

impl<'a> State<'a> {
    ghost use Rattle.model_core.specs.Core as core;
    ghost use Rattle.model_core.specs.CoreLaw.{IsCore};
    ghost use Rattle.replay_core.specs.Within.{IsWithinPlans};
    ghost use Rattle.replay_core.specs.Shown.{plans_in, shown_entry};
    ghost use Rattle.replay_core.specs.Shows.{Shows};
    ghost use Rattle.replay_plans.specs.Answers.{answers_of};
    ghost use Rattle.replay_core.specs.Replies.{AreReplies};

    /// The clients' plans, the first that of client 1.
    pub fn plans(&self) -> &[ClientPlan<'a>]
        ensures { result.now ≡ plans_in self.now }
    {
        &self.plans
    }

    /// The replies that a client got to its commits and reads so far, in order; none for a number that no client has.
    pub fn replies(&self, client: u32) -> &[CoreReply]
        ensures { (o : core.Options) (s : core.State) → Shows self.now o s
            → MatchOption (core.client_at s client) (result.now ≡ [])
            (λ c. AreReplies result.now (answers_of c.calls)) }
    {
        let Some(place) = self.place_of(client) else {
            return &[];
        };
        &self.seats[place].replies
    }

    /// The batches that were given runs, in the order of their runs. Each is of a client that exists, and has at least
    /// one record that takes a sequence.
    pub fn entries(&self) -> &[HistoryEntry<Lines>]
        ensures shown { (o : core.Options) (s : core.State) → Shows self.now o s
            → map (shown_entry (plans_in self.now)) result.now ≡ s.entries }
        ensures within { (o : core.Options) (s : core.State) → IsCore o s → Shows self.now o s
            → AllByRecursion (IsWithinPlans (plans_in self.now)) result.now }
    {
        &self.entries
    }

    /// How many entries each logged group has, in order.
    pub fn logged(&self) -> &[u64]
        ensures { (o : core.Options) (s : core.State) → Shows self.now o s → result.now ≡ s.groups }
    {
        &self.groups
    }

    /// The sequence published last.
    pub fn last(&self) -> u64
        ensures { (o : core.Options) (s : core.State) → Shows self.now o s → result ≡ s.last }
    {
        self.last
    }
}
