//! The entries of pages.

ghost use Rattle.std.specs.Prelude.{◌≡◌, ◌+◌, ◌^◌, ◌≤◌};
ghost use Rattle.model_base.specs.Map.{byte_order, key_order};
ghost use Rattle.base_keys.specs.Fronts.{front_of};
ghost use Rattle.table_nodes.specs.Chains.{key_of, alone, with_version};
ghost use Rattle.table_nodes.specs.Nodes.{at_key, own_key, version_of, chain_of};
ghost use Rattle.table_tree.specs.Places.{IsOfFamilies};

use base_keys::Front;
use std::cmp::Ordering;
use std::marker::Model;
use std::mem::size_of;
use table_nodes::Node;

/// A key of a page: the first bytes of the key, so that most comparisons don't read its node, and the node of its
/// newest version. Contracts see the chain of its versions.
#[derive(Drop)]
pub(crate) struct Entry {
    front: Front,
    node: Box<Node>,
}

const _: () = prove!(size_of::<Entry>() <= 24);

impl Model for Entry {
    ghost use Rattle.table_nodes.specs.Chains.{Chain};
    ghost use Rattle.table_nodes.specs.Codes.{chain_code};

    ghost Value = { Chain };

    ghost coded = { chain_code };

    ghost use Rattle.std.specs.Prelude.{◌≡◌};
    ghost use Rattle.base_keys.specs.Fronts.{front_of};
    ghost use Rattle.table_nodes.specs.Nodes.{own_key, chain_of};

    ghost view = { λ e. chain_of e.node.value };

    ghost invariant = { λ e. front_of 16 (own_key e.node.value).bytes ≡ e.front };
}

/// Between which families those of a page's keys are. In most pages all keys are of one family, and then a search
/// doesn't read it in the nodes.
#[derive(Clone, Copy)]
pub(crate) struct Families {
    pub(crate) lowest: u32,
    pub(crate) greatest: u32,
}

impl Families {
    /// Those of no keys.
    pub(crate) fn none() -> Families
        ensures lowest { result.lowest + 1 ≡ 2 ^ 32 }
        ensures greatest { result.greatest ≡ 0 }
    {
        Families {
            lowest: u32::MAX,
            greatest: 0,
        }
    }

    /// These, and one more.
    pub(crate) fn with(self, family: u32) -> Families
        ensures lowest { (result.lowest ≤ self.lowest) × (result.lowest ≤ family) }
        ensures greatest { (self.greatest ≤ result.greatest) × (family ≤ result.greatest) }
    {
        Families {
            lowest: self.lowest.min(family),
            greatest: self.greatest.max(family),
        }
    }
}

impl Entry {
    /// The entry of a node, which is the only version of its key.
    pub(crate) fn of(mut node: Box<Node>) -> Entry
        ensures { result ≡ alone (version_of node.value) }
    {
        node.part();
        let front = Front::of(node.key());
        Entry { front, node }
    }

    /// Its node.
    pub(crate) fn as_node(&self) -> &Node
        ensures { chain_of result.now ≡ self.now }
    {
        &self.node
    }

    /// The number of its key's family.
    pub(crate) fn family(&self) -> u32
        ensures { result ≡ (key_of self.now).family }
    {
        self.node.family()
    }

    /// Puts another version of its key into its chain.
    pub(crate) fn add_version(&mut self, other: Box<Node>)
        requires { own_key other.value ≡ key_of self.old }
        ensures { self.new ≡ with_version self.old (version_of other.value) }
    {
        self.node.add_version(other);
    }

    /// How a family's key compares with its own. The caller gives that key's front too, and between which families
    /// its own is: where that is one, its node isn't read for it.
    pub(crate) fn order_of(
        &self,
        families: Families,
        family: u32,
        key: &[u8],
        front: Front,
    ) -> Ordering
        requires front { front ≡ front_of 16 key.now }
        requires families { IsOfFamilies families.lowest families.greatest self.now }
        ensures { result ≡ key_order (at_key family key.now) (key_of self.now) }
    {
        let own = if families.lowest == families.greatest {
            families.lowest
        } else {
            self.family()
        };
        match family.cmp(&own) {
            Ordering::Less => Ordering::Less,
            Ordering::Equal => self.order_in_family(key, front),
            Ordering::Greater => Ordering::Greater,
        }
    }

    // How the bytes of a key compare with those of its own. Its node is read only where the fronts are the same.
    fn order_in_family(&self, key: &[u8], front: Front) -> Ordering
        requires { front ≡ front_of 16 key.now }
        ensures { result ≡ byte_order key.now (key_of self.now).bytes }
    {
        let order = front.order(&self.front);
        if order.is_ne() {
            return order;
        }
        key.cmp(self.node.key())
    }
}
