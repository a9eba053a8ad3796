//! The state between two events.

ghost use Rattle.std.specs.Prelude.{◌≡◌, ◌+◌, ◌-◌, ◌^◌, ◌<◌, ◌≤◌, ◌⊎◌, MatchOption, vec_len};
ghost use Rattle.replay_core.specs.Ordinals.{AreCounts};

use crate::phases::{LogPhase, Mark, TablePhase};
use crate::writer::{CoreReply, Writer};
use model_base::Item;
use replay_plans::{ClientPlan, Lines};
use run_outcome::HistoryEntry;

/// How the core is set up.
#[derive(Clone, Copy, Debug, PartialEq, Eq)]
pub struct CoreOptions {
    /// Whether the log is handed on before a group is inserted.
    pub pipelined: bool,
    /// There are the column families with the numbers below this one.
    pub families: u32,
    /// The most bytes of a group.
    pub group_bytes: u64,
    /// The most bytes of a batch.
    pub batch_bytes: u64,
    /// The sequence before the first batch.
    pub last: u64,
}

/// Where a client is in its plan, and the replies that it got.
#[derive(Drop)]
pub(crate) struct Seat {
    /// The line that it runs next.
    pub(crate) next: usize,
    /// The line at which its batch begins.
    pub(crate) from: usize,
    /// Whether it waits for no answer.
    pub(crate) idle: bool,
    /// The replies that it got, in order.
    pub(crate) replies: Vec<CoreReply>,
}

/// The write path's state. [`State::new`] reserves all memory that events need.
#[derive(Drop)]
pub struct State<'a> {
    pub(crate) options: CoreOptions,
    pub(crate) plans: Vec<ClientPlan<'a>>,
    pub(crate) seats: Vec<Seat>,
    /// How far each client is with the launched group.
    pub(crate) marks: Vec<Mark>,
    /// Each client's writer, if it has left with its answer and the client doesn't have the answer yet.
    pub(crate) done: Vec<Option<Writer>>,
    /// The linked writers, in order: the groups of the second queue, the group in hand, and the queue.
    pub(crate) linked: Vec<Writer>,
    /// What grouping sees of each linked writer.
    pub(crate) items: Vec<Item>,
    /// How many writers each group of the second queue has; `in_second` is how many all these groups have together.
    pub(crate) second: Vec<usize>,
    pub(crate) in_second: usize,
    /// How many writers the group in hand has.
    pub(crate) in_hand: usize,
    pub(crate) log: LogPhase,
    pub(crate) table: TablePhase,
    /// Who finished last in the launched group.
    pub(crate) last_finished: Option<u32>,
    /// How many entries each logged group has.
    pub(crate) groups: Vec<u64>,
    pub(crate) entries: Vec<HistoryEntry<Lines>>,
    /// How many of the entries each client has.
    pub(crate) accepted: Vec<u64>,
    /// The sequence given last.
    pub(crate) assigned: u64,
    /// Whether the log has failed.
    pub(crate) log_failed: bool,
    /// The sequence published last.
    pub(crate) last: u64,
    ghost one_item_each: { vec_len items ≡ vec_len linked },
    ghost groups_wait: { in_second + in_hand ≤ vec_len linked },
    ghost one_seat_each: { vec_len seats ≡ vec_len plans },
    ghost one_mark_each: { vec_len marks ≡ vec_len plans },
    ghost one_done_each: { vec_len done ≡ vec_len plans },
    ghost assigned_fits: { assigned ≤ 2 ^ 56 - 1 },
    ghost entries_counted: { AreCounts accepted.items entries.items },
}

impl State<'_> {
    /// The index of a client's plan and seat, if there is such a client.
    pub(crate) fn place_of(&self, client: u32) -> Option<usize>
        ensures { MatchOption result ((client ≡ 0) ⊎ (vec_len self.now.plans < client)) (λ place. (client ≡ place + 1)
            × (place < vec_len self.now.plans)) }
    {
        let place = (client as usize).checked_sub(1)?;
        if place < self.plans.len() {
            Some(place)
        } else {
            None
        }
    }
}
