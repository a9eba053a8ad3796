//! The end of a table.
ghost use Rattle.std.specs.Prelude.{List, map};
ghost use Rattle.table_rule.specs.declared.content.MemberVersions.{MemberVersions};
ghost use Rattle.table_rule.specs.Histories.{In, IsHistory};
ghost use Rattle.table_calls.specs.Account.{IsReady, IsClosing};
ghost use Rattle.table_steps.specs.declared.seat.TableSeat.{TableSeat};
ghost use Rattle.table_steps.specs.Accounts.{account, history_of, opening_of, IsOurs, MayLaunch};
ghost use Rattle.table_steps.specs.Ends.{IsTurnOf, AreIdle, HaveSeen};

use crate::launching::Turn;
use crate::seat::TableSeat;
use crate::shared::SharedTable;
use table_calls::{Seats, VersionNodes, VersionTree};
use table_rule::{Both, Close};

impl<ShardTree: VersionTree<NodeList::Node> + Drop, NodeList: VersionNodes + Drop> SharedTable<
    ShardTree,
    NodeList,
> {
    // Joins all seats. What the turn knows is then what is published, and each client has seen a beginning of it.
    fn gather(
        &self,
        mut turn: Turn<ShardTree, NodeList>,
        mut clients: Vec<TableSeat<ShardTree, NodeList>>,
    )
        requires turn { (history : List (List MemberVersions))
            × IsTurnOf self.now.table.shared.table_id self.now.table.shared.key history turn }
        requires idle { AreIdle self.now.table.shared.table_id self.now.table.shared.key clients.items }
        ensures { (history : List (List MemberVersions))
            → IsTurnOf self.now.table.shared.table_id self.now.table.shared.key history turn
            → IsHistory self.now.table.shared.key.start history
            × HaveSeen self.now.table.shared.key history clients.items }
    {
        // The turn's seat holds what it had, and what each seat joined so far had.
        while let Some(seat) = clients.pop() {
            self.table
                .shared
                .join_seat::<Both>(&mut turn.seat, seat.client.seat);
        }
        clients.destroy_empty();
        self.table
            .shared
            .load::<Close>(&mut turn.seat, self.sizes.shards as usize);
    }

    /// Gives the table up, with all seats. What was published is one history, and each client has seen a beginning of
    /// it.
    pub fn close(self, seats: Seats<TableSeat<ShardTree, NodeList>, Turn<ShardTree, NodeList>>)
        requires turn { MayLaunch self seats.turn }
        requires clients { (seat : TableSeat ShardTree NodeList) → In seat seats.clients.items
            → IsOurs self seat × IsReady (account seat) }
        ensures { IsClosing (opening_of self).start (history_of seats.turn)
            (map (λ (seat : TableSeat ShardTree NodeList). account seat) seats.clients.items) }
    {
        self.gather(seats.turn, seats.clients);
    }
}
