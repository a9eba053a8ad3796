//! The list and its parts.
ghost use Rattle.std.specs.Prelude.{◌≡◌, ℕ, ◌+◌, ◌*◌, ◌<◌};
ghost use Rattle.line_rule.specs.declared.words.TheConstants.{STALL};

use atomic_table::Table;
use base_waiting::Bells;
use line_rule::{GivesRun, HasGroupingItem, LineSlot, LineView, ListRule, LogOfGroups, Start};
use std::alloc::Global;

/// A list of writers, with the log, which the leader takes, and the right, which is for the leaders of a second list.
#[derive(Drop)]
pub struct WriterList<
    Request: HasGroupingItem,
    Reply: GivesRun,
    Log: LogOfGroups<Request, Reply, Right>,
    Right,
> {
    pub(crate) table: Table<
        LineSlot<Request, Reply, Log, Right>,
        LineView<Request, Reply>,
        Start<Log::About>,
        ListRule,
        Global,
    >,
    pub(crate) clients: u32,
    pub(crate) group_bytes: u64,
    pub(crate) bells: Bells,
    ghost sized: { (table.shared.table_id.words ≡ 2 * clients + 4) × (table.shared.table_id.slots ≡ clients + 2)
        × (table.shared.key.clients ≡ clients) × (clients < STALL)
        × (table.shared.key.group_bytes ≡ group_bytes) },
    ghost some: { 0 < clients },
}
