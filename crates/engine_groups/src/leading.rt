//! How a leader alone puts its group into the table, where that isn't a stage of its own.

ghost use Rattle.std.specs.Prelude.{◌≡◌, [], ◌∷◌, ◌++◌};
ghost use Rattle.table_rule.specs.Histories.{last_of, Begins};
ghost use Rattle.table_calls.specs.Account.{IsReady};
ghost use Rattle.table_nodes.specs.Parts.{group_of};
ghost use Rattle.engine_parts.specs.Staged.{MayLaunch};

use engine_calls::Gate;
use engine_memtable::await_group;
use std::rt;
use std::sync::Wait;
use table_calls::Table;
use table_nodes::{Nodes, Parts};

/// Puts the parts of a group into the table, and waits until they are published.
pub(crate) fn publish_alone<Versions: Table<Nodes, Parts>, Watch: Gate, R: Wait + rt::Clock>(
    rt: &R,
    gate: &Watch,
    table: &Versions,
    member: u32,
    seat: &mut Versions::Seat,
    turn: Versions::Turn,
    parts: &mut Parts,
    end: u64,
) -> Versions::Turn
    requires ours { Versions.ours table.now seat.old × Versions.our_turn table.now turn
        × IsReady (Versions.account seat.old) }
    requires may { MayLaunch (Versions.account seat.old).number (Versions.opening table.now).clients
        (last_of (Versions.opening table.now).start (Versions.history turn)) end [] (group_of parts.old.parts) }
    ensures ours { Versions.ours table.now seat.new × Versions.our_turn table.now result
        × IsReady (Versions.account seat.new) }
    ensures history { Versions.history result ≡ Versions.history turn ++ group_of parts.old.parts ∷ [] }
    ensures seen { ((Versions.account seat.new).number ≡ (Versions.account seat.old).number)
        × Begins (Versions.account seat.old).seen (Versions.account seat.new).seen }
    ensures emptied { (parts.new.parts ≡ []) × (parts.new.clients ≡ parts.old.clients) }
{
    gate.launching(member);
    table.launch(seat, turn, parts);
    await_group::<Nodes, Parts, Versions, R>(rt, table, seat, end)
}
