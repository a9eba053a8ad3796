//! How a table is made, with a seat for the turn and one for each client.
ghost use Rattle.std.specs.Prelude.{◌≡◌, ◌<◌, ◌+◌, ◌^◌, [], ◌++◌, ◌∷◌, map, length, replicate, IfOk, OnOk};
ghost use Rattle.std.specs.List.{range_with_len};
ghost use Rattle.table_rule.specs.declared.content.Content.TheVariants.{Blank, Tree};
ghost use Rattle.table_rule.specs.Histories.{IsBase};
ghost use Rattle.table_rule.specs.Rule.{newcomers};
ghost use Rattle.table_steps.specs.Accounts.{opening_of, IsTurnAtStart, AreSeatsAtStart};
ghost use Rattle.table_steps.specs.Ends.{BearBase, IsTurnOf, AreSeatsOf};

use crate::launching::Turn;
use crate::seat::TableSeat;
use crate::shared::{Client, SharedTable};
use crate::sizes::Sizes;
use atomic_table::{Seat, Table};
use base_waiting::{Bell, Bells};
use model_base::NoMemory;
use std::alloc::Global;
use table_calls::{Seats, VersionNodes, VersionTree};
use table_rule::{Base, Content, First, Opening, TableView};

/// The words of a table where no lock is taken and no group is launched.
fn first_words(alloc: Global, sizes: Sizes) -> Result<Vec<u64>, NoMemory>
    requires { (sizes.shards < 2 ^ 32) × (sizes.clients < 2 ^ 32) }
    ensures { IfOk result (λ words. words.items ≡ replicate sizes.shards 0 ++ sizes.start
        ∷ replicate (sizes.clients + 1) 0) }
{
    let mut words = vec![in alloc; 0u64; sizes.shards as usize]?;
    words.push(sizes.start)?;
    let unlaunched = vec![in alloc; 0u64; sizes.clients as usize + 1]?;
    words.extend_from_slice(&unlaunched)?;
    Ok(words)
}

/// Puts each tree into a slot of its own.
fn tree_slots<ShardTree: Drop, NodeList: Drop>(
    alloc: Global,
    trees: Vec<ShardTree>,
) -> Result<Vec<Content<ShardTree, NodeList>>, NoMemory>
    ensures { IfOk result (λ slots. slots.items ≡ map (λ tree. Tree tree) trees.items) }
{
    let mut slots = Vec::new(alloc);
    // The slots have the trees so far.
    for tree in trees {
        slots.push(Content::Tree(tree))?;
    }
    Ok(slots)
}

/// Appends empty slots to others.
fn add_blanks<ShardTree: Drop, NodeList: Drop>(
    slots: &mut Vec<Content<ShardTree, NodeList>>,
    count: u64,
) -> Result<(), NoMemory>
    ensures { OnOk result (slots.new.items ≡ slots.old.items ++ replicate count Blank) }
{
    // The slots are the old ones, and `added` blank ones after them.
    for added in 0..count {
        slots.push(Content::Blank)?;
    }
    Ok(())
}

impl<ShardTree: VersionTree<NodeList::Node> + Drop, NodeList: VersionNodes + Drop> SharedTable<
    ShardTree,
    NodeList,
> {
    // Splits the first seat into the clients' seats and the turn's.
    fn seat_all(
        &self,
        alloc: Global,
        mut seat: Seat<Content<ShardTree, NodeList>, TableView>,
    ) -> Result<Seats<TableSeat<ShardTree, NodeList>, Turn<ShardTree, NodeList>>, NoMemory>
        requires { (seat.table_id ≡ self.now.table.shared.table_id)
            × (seat.me ≡ (newcomers self.now.table.shared.key 1 self.now.table.shared.key.clients, [])) }
        ensures turn { IfOk result (λ seats. IsTurnOf self.now.table.shared.table_id self.now.table.shared.key []
            seats.turn) }
        ensures clients { IfOk result (λ seats. AreSeatsOf self.now.table.shared.table_id self.now.table.shared.key
            self.now.table.shared.key.clients seats.clients.items) }
    {
        let mut clients = Vec::new(alloc);
        // The clients 1 to `seated` have their seats, and `seat` is that of all others and of the turn.
        for seated in 0..self.sizes.clients {
            let own = self.table.shared.split_seat::<First>(&mut seat);
            clients.push(TableSeat {
                client: Client {
                    number: seated + 1,
                    seat: own,
                },
                turn: None,
                last: self.sizes.start,
            })?;
        }
        let last = self.sizes.start;
        Ok(Seats {
            turn: Turn { seat, last },
            clients,
        })
    }

    /// The number of shards.
    pub fn shards(&self) -> u64
        ensures { result ≡ (opening_of self.now).shards }
    {
        self.sizes.shards
    }

    /// Makes a table of trees, one for each shard, with the published sequence `last`, and makes its seats. The trees
    /// have the versions of `base`.
    pub fn open(
        alloc: Global,
        clients: u32,
        last: u64,
        trees: Vec<ShardTree>,
        base: Base,
    ) -> Result<
        (
            SharedTable<ShardTree, NodeList>,
            Seats<TableSeat<ShardTree, NodeList>, Turn<ShardTree, NodeList>>,
        ),
        NoMemory,
    >
        requires count { (0 < length trees.items) × (length trees.items < 2 ^ 32) }
        requires over { IsBase last base × BearBase ShardTree.versions base trees.items }
        ensures table { IfOk result (λ opened. opening_of opened.0
            ≡ record { clients = clients; shards = length trees.items; start = last; base = base }) }
        ensures turn { IfOk result (λ opened. IsTurnAtStart opened.0 opened.1.turn) }
        ensures clients { IfOk result (λ opened. AreSeatsAtStart opened.0 clients opened.1.clients.items) }
    {
        let sizes = Sizes {
            clients: clients as u64,
            shards: trees.len() as u64,
            start: last,
        };
        let handed = Bells::for_clients(alloc, clients)?;
        let words = first_words(alloc, sizes)?;
        let mut slots = tree_slots::<ShardTree, NodeList>(alloc, trees)?;
        add_blanks(&mut slots, sizes.clients + 1)?;
        let opening = Opening {
            clients: sizes.clients,
            shards: sizes.shards,
            start: sizes.start,
            base,
        };
        let Ok((table, seat)) = Table::new(alloc, &words, slots, &opening) else {
            return Err(NoMemory);
        };
        let shared = SharedTable {
            table,
            sizes,
            handed,
            published: Bell::new(),
        };
        let seats = shared.seat_all(alloc, seat)?;
        Ok((shared, seats))
    }
}
