//! What each member of a launched group does.

ghost use Rattle.std.specs.Prelude.{◌≡◌};
ghost use Rattle.table_rule.specs.declared.view.Launched.{Launched};
ghost use Rattle.table_rule.specs.declared.view.Stage.TheVariants.{Stored};
ghost use Rattle.table_rule.specs.Steps.{MayTake};
ghost use Rattle.engine_memtable.specs.Working.{HasFinished, Works};

use std::rt;
use std::sync::Wait;
use table_calls::{Finished, GroupParts, Table};
use table_rule::Versioned;

/// Waits until the member gets its own part of a launched group, puts the part into the table, and finishes. The
/// member that finishes last publishes the group.
pub fn work<
    NodeList: Versioned,
    GroupList: GroupParts<NodeList>,
    Versions: Table<NodeList, GroupList>,
    R: Wait + rt::Clock,
>(rt: &R, table: &Versions, seat: &mut Versions::Seat)
    requires ours { Versions.ours table.now seat.old }
    requires free { MayTake (Versions.account seat.old).stage }
    ensures ours { Versions.ours table.now seat.new }
    // The member that is the last of its group has published it, and has seen it. Each other one has seen what it had.
    ensures works { Works (Versions.opening table.now) (Versions.account seat.old) (Versions.account seat.new) }
{
    let part = table.take(rt, seat);
    table.insert(rt, seat, part);
    finish::<NodeList, GroupList, Versions>(table, seat);
}

/// Finishes the member's part. The member that finishes last publishes the group.
fn finish<
    NodeList: Versioned,
    GroupList: GroupParts<NodeList>,
    Versions: Table<NodeList, GroupList>,
>(table: &Versions, seat: &mut Versions::Seat)
    requires ours { Versions.ours table.now seat.old }
    requires stored { (u : Launched) × ((Versions.account seat.old).stage ≡ Stored u) }
    ensures ours { Versions.ours table.now seat.new }
    ensures finished { (u : Launched) → (Versions.account seat.old).stage ≡ Stored u
        → HasFinished (Versions.opening table.now).start (Versions.account seat.old) u (Versions.account seat.new) }
{
    match table.finish(seat) {
        Finished::Last => table.publish(seat),
        Finished::Others => {}
    }
}
