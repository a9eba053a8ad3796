//! How a node is inserted.

ghost use Rattle.std.specs.Prelude.{◌≡◌, ◌<◌, ◌≤◌, ◌+◌, length, true, is_ok, IfErr, IfOk, if◌then◌else◌};
ghost use Rattle.base_keys.specs.Fronts.{front_of};
ghost use Rattle.table_nodes.specs.Chains.{AreSorted, insert_in_chains};
ghost use Rattle.table_nodes.specs.Nodes.{own_key, version_of};
ghost use Rattle.table_tree.specs.Pages.{IsDense, IsPage, woven, height_of};
ghost use Rattle.table_tree.specs.Ways.{IsWay};

use crate::entry::{Entry, Families};
use crate::page::Page;
use crate::places::place_of;
use crate::splitting::{put, split_below};
use base_keys::Front;
use model_base::NoMemory;
use std::alloc::Global;
use table_nodes::Node;

/// Where a node goes in a page that isn't full. If that is into a full page below, this is split, and then the place
/// is sought once more. So whatever is below has room for one more entry, and one pass down is enough (Guibas and
/// Sedgewick, 1978).
fn way_of(
    alloc: Global,
    families: &mut Families,
    entries: &mut Vec<Entry>,
    below: &mut Vec<Page>,
    node: &Node,
    front: Front,
) -> Result<Result<usize, usize>, NoMemory>
    requires front { front ≡ front_of 16 (own_key node.now).bytes }
    requires page { IsPage families.old entries.old below.old }
    requires room { length entries.old.items < 31 }
    requires sorted { AreSorted (woven below.old.items entries.old.items) }
    ensures page { IsPage families.new entries.new below.new }
    ensures same { woven below.new.items entries.new.items ≡ woven below.old.items entries.old.items }
    ensures height { height_of below.new.items ≡ height_of below.old.items }
    ensures grown { (length entries.old.items ≤ length entries.new.items)
        × (length entries.new.items ≤ length entries.old.items + 1) }
    ensures way { IfOk result (IsWay (own_key node.now) entries.new.items below.new.items) }
    ensures at_once { height_of below.old.items ≡ 0 → is_ok result ≡ true }
{
    let at = match place_of(entries, *families, node.family(), node.key(), front) {
        Ok(at) => return Ok(Ok(at)),
        Err(at) => at,
    };
    if at < below.len() && below[at].is_full() {
        split_below(alloc, entries, below, at)?;
        *families = families.with(entries[at].family());
        return Ok(place_of(entries, *families, node.family(), node.key(), front));
    }
    Ok(Err(at))
}

impl Page {
    /// Inserts a node. Where there is no memory for a page that it needs, the node comes back.
    pub(crate) fn insert(
        &mut self,
        alloc: Global,
        node: Box<Node>,
        front: Front,
    ) -> Result<(), Box<Node>>
        requires front { front ≡ front_of 16 (own_key node.value).bytes }
        requires room { self.old.own < 31 }
        requires sorted { AreSorted self.old.chains }
        ensures chains { self.new.chains ≡ (if is_ok result
            then insert_in_chains self.old.chains (version_of node.value)
            else self.old.chains) }
        ensures height { self.new.height ≡ self.old.height }
        ensures own { (self.old.own ≤ self.new.own) × (self.new.own ≤ self.old.own + 1) }
        ensures dense { IsDense self.new }
        ensures back { IfErr result (λ back. back ≡ node) }
        // A leaf that isn't full needs no page.
        ensures at_once { self.old.height ≡ 0 → is_ok result ≡ true }
    {
        let Ok(way) = way_of(
            alloc,
            &mut self.families,
            &mut self.entries,
            &mut self.below,
            &node,
            front,
        ) else {
            return Err(node);
        };
        let at = match way {
            Ok(at) => {
                self.entries[at].add_version(node);
                return Ok(());
            }
            Err(at) => at,
        };
        if at < self.below.len() {
            return self.below[at].insert(alloc, node, front);
        }
        self.families = self.families.with(node.family());
        put(&mut self.entries, at, Entry::of(node));
        Ok(())
    }
}
