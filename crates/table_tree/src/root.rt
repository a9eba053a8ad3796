//! The root of the tree: the page that is above all others, if there is one.

ghost use Rattle.std.specs.Prelude.{◌≡◌, ◌<◌, true, is_ok, IfErr, IfSome, IsSome, OnOk, OnErr, if◌then◌else◌};
ghost use Rattle.table_nodes.specs.Chains.{AreSorted, insert_in_chains};
ghost use Rattle.table_nodes.specs.Nodes.{version_of};
ghost use Rattle.table_tree.specs.Pages.{IsDense};
ghost use Rattle.table_tree.specs.Shapes.{chains_below, height_below, HasDense, IsOpenLeaf};

use crate::entry::Families;
use crate::page::{MOST_BELOW, MOST_ENTRIES, Page};
use base_keys::Front;
use model_base::NoMemory;
use std::alloc::Global;
use std::mem;
use table_nodes::Node;

/// Makes a root that isn't full: a leaf where there is none, or a new page above a full one. Where there is no memory
/// for it, all is as it was.
fn make_room(alloc: Global, root: &mut Option<Page>) -> Result<(), NoMemory>
    requires sorted { AreSorted (chains_below root.old) }
    requires dense { HasDense root.old }
    ensures room { OnOk result (IfSome root.new (λ page. page.own < 31) × IsSome root.new) }
    ensures same { chains_below root.new ≡ chains_below root.old }
    ensures dense { HasDense root.new }
    ensures at_once { IsOpenLeaf (height_below root.old) (chains_below root.old)
        → (is_ok result ≡ true) × (height_below root.new ≡ 0) }
{
    let Some(page) = root else {
        *root = Some(Page::leaf(alloc)?);
        return Ok(());
    };
    if page.is_full() {
        page.raise(alloc)?;
    }
    Ok(())
}

impl Page {
    /// Puts a page above a full one, which is split.
    fn raise(&mut self, alloc: Global) -> Result<(), NoMemory>
        requires full { self.old.own ≡ 31 }
        requires sorted { AreSorted self.old.chains }
        ensures room { OnOk result (self.new.own ≡ 1) }
        ensures same { self.new.chains ≡ self.old.chains }
        ensures dense { IsDense self.new }
        ensures err { OnErr result (self.new ≡ self.old) }
    {
        self.is_dense();
        let mut entries = Vec::with_capacity(alloc, MOST_ENTRIES)?;
        let mut below = Vec::with_capacity(alloc, MOST_BELOW)?;
        let empty = Page::leaf(alloc)?;
        let (middle, high) = self.split(alloc)?;
        let families = Families::none().with(middle.family());
        let low = mem::replace(self, empty);
        low.is_dense();
        high.is_dense();
        entries.push_reserved(middle);
        below.push_reserved(low);
        below.push_reserved(high);
        *self = Page {
            families,
            entries,
            below,
        };
        Ok(())
    }
}

/// Inserts a node below a root. Where there is no memory for a page that it needs, the node comes back.
pub(crate) fn insert_below(root: &mut Option<Page>, node: Box<Node>) -> Result<(), Box<Node>>
    requires sorted { AreSorted (chains_below root.old) }
    requires dense { HasDense root.old }
    ensures chains { chains_below root.new ≡ (if is_ok result
        then insert_in_chains (chains_below root.old) (version_of node.value)
        else chains_below root.old) }
    ensures dense { HasDense root.new }
    ensures back { IfErr result (λ back. back ≡ node) }
    ensures at_once { IsOpenLeaf (height_below root.old) (chains_below root.old) → is_ok result ≡ true }
{
    let alloc = node.alloc();
    if make_room(alloc, root).is_err() {
        return Err(node);
    }
    let Some(page) = root else { unreachable!() };
    let front = Front::of(node.key());
    page.insert(alloc, node, front)
}
