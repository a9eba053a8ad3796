//! How a key is looked up at a sequence.

ghost use Rattle.std.specs.Prelude.{◌≡◌};
ghost use Rattle.std.specs.Option.{option_copied, option_map};
ghost use Rattle.table_nodes.specs.Chains.{AreFalling, AreKeyed, AreSorted, versions_of};
ghost use Rattle.table_nodes.specs.Nodes.{at_key, version_of, chain_of};
ghost use Rattle.table_tree.specs.Newest.{newest_version, chain_at};
ghost use Rattle.table_tree.specs.Shapes.{chains_below};

use crate::page::Page;
use crate::places::place_of;
use base_keys::Front;
use table_nodes::Node;

/// The newest version of a family's key up to a sequence, if there is one below the root.
pub(crate) fn newest_below<'t>(
    root: &'t Option<Page>,
    family: u32,
    key: &[u8],
    at: u64,
) -> Option<&'t Node>
    requires keyed { AreKeyed (chains_below root.now) }
    requires falling { AreFalling (chains_below root.now) }
    ensures { option_map version_of (option_copied result)
        ≡ newest_version (at_key family key.now) at (versions_of (chains_below root.now)) }
{
    let Some(page) = root else {
        return None;
    };
    match page.find(family, key) {
        Some(node) => node.newest_up_to(at),
        None => None,
    }
}

impl Page {
    /// The node of a family's key, if there is one.
    fn find(&self, family: u32, key: &[u8]) -> Option<&Node>
        requires { AreSorted self.now.chains }
        ensures { option_map chain_of (option_copied result) ≡ chain_at (at_key family key.now) self.now.chains }
    {
        let front = Front::of(key);
        let mut page = self;
        // If the key has an entry, it is in `page` or below it.
        loop {
            let at = match place_of(&page.entries, page.families, family, key, front) {
                Ok(at) => return Some(page.entries[at].as_node()),
                Err(at) => at,
            };
            if at >= page.below.len() {
                return None;
            }
            page = &page.below[at];
        }
    }
}
