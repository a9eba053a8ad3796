//! The versions of one key: its newest one's node has the older ones in its list, as trees that a search passes.

ghost use Rattle.std.specs.Prelude.{◌≡◌, ◌++◌, ◌∷◌, reverse, Some, if◌then◌else◌};
ghost use Rattle.std.specs.Option.{option_copied, option_map};
ghost use Rattle.table_rule.specs.declared.content.Version.{Version};
ghost use Rattle.table_nodes.specs.Chains.{Falls, alone, insert_older, with_version, chain_versions};
ghost use Rattle.table_nodes.specs.Newest.{first_up_to, newest_with, newest_among};
ghost use Rattle.table_nodes.specs.Nodes.{at_key, own_key, version_of, versions_on, chain_of};

use crate::links::Links;
use crate::node::{Node, Nodes};
use std::mem;

impl Node {
    /// Leaves out the nodes after it, so that it is the only version of its key.
    pub fn part(&mut self)
        ensures { chain_of self.new ≡ alone (version_of self.old) }
    {
        self.links = Links::none();
    }

    /// Puts another version of its key into its chain. One that is newer than the newest changes places with it, so
    /// that what holds the node isn't touched.
    pub fn add_version(&mut self, mut other: Box<Node>)
        requires { own_key other.value ≡ own_key self.old }
        ensures { chain_of self.new ≡ with_version (chain_of self.old) (version_of other.value) }
    {
        let mut older = self.links.take_next();
        if other.sequence <= self.sequence {
            older.insert_older(other);
        } else {
            mem::swap(&mut self.content, &mut other.content);
            mem::swap(&mut self.sequence, &mut other.sequence);
            older.push_newest(other);
        }
        self.links.set_next(older);
    }

    /// The newest version in its chain up to a sequence, if there is one.
    pub fn newest_up_to(&self, at: u64) -> Option<&Node>
        requires { Falls (chain_of self.now).older }
        ensures { option_map version_of (option_copied result) ≡ first_up_to at (chain_versions (chain_of self.now)) }
    {
        if self.sequence <= at {
            return Some(self);
        }
        newest_from(self.links.next(), at)
    }
}

impl Node {
    /// Whether it is a version of a family's key that isn't above a sequence, and newer than another such version, if
    /// there is one.
    pub fn is_newer(&self, other: Option<&Node>, family: u32, key: &[u8], at: u64) -> bool
        ensures { newest_with (at_key family key.now) at (option_map version_of (option_copied other.entry))
            (version_of self.now) ≡ (if result then Some (version_of self.now)
            else option_map version_of (option_copied other.entry)) }
    {
        if self.sequence > at || self.family() != family || self.key() != key {
            return false;
        }
        match other {
            Some(other) => other.sequence < self.sequence,
            None => true,
        }
    }
}

/// The first node of the list from a node on that isn't above the sequence, if there is one. Where the list was made by
/// `push_newest`, this takes at most three steps for each binary digit of its length.
fn newest_from(first: Option<&Node>, at: u64) -> Option<&Node>
    // So the children of a node are newer than what comes after it.
    requires { Falls (versions_on (option_copied first)) }
    ensures { option_map version_of (option_copied result)
        ≡ first_up_to at (versions_on (option_copied first.entry)) }
{
    let mut rest = first;
    let mut best: Option<&Node> = None;
    // The answer is the first node from `rest` on that isn't above the sequence, or else `best`.
    while let Some(node) = rest {
        if node.sequence <= at {
            return Some(node);
        }
        match node.links.next() {
            None => rest = node.links.children(),
            Some(next) => {
                // The children are newer than the next one. If it is above the sequence, so are they.
                if next.sequence > at {
                    rest = Some(next);
                } else {
                    best = Some(next);
                    rest = node.links.children();
                }
            }
        }
    }
    best
}

/// The newest version of a family's key up to a sequence, of one that was found and of those of the list from a node
/// on.
fn newest_of<'t>(
    first: Option<&'t Node>,
    found: Option<&'t Node>,
    family: u32,
    key: &[u8],
    at: u64,
) -> Option<&'t Node>
    ensures { option_map version_of (option_copied result)
        ≡ newest_among (at_key family key.now) at (option_map version_of (option_copied found.entry))
        (versions_on (option_copied first.entry)) }
{
    let mut newest = found;
    let mut rest = first;
    // `newest` is that of the version that was found and of those before `rest`.
    while let Some(node) = rest {
        if node.is_newer(newest, family, key, at) {
            newest = Some(node);
        }
        newest = newest_of(node.links.children(), newest, family, key, at);
        rest = node.links.next();
    }
    newest
}

impl Nodes {
    /// The newest version of a family's key up to a sequence, of one that was found and of those of the list.
    pub fn newest_among<'t>(
        &'t self,
        found: Option<&'t Node>,
        family: u32,
        key: &[u8],
        at: u64,
    ) -> Option<&'t Node>
        ensures { option_map version_of (option_copied result)
            ≡ newest_among (at_key family key.now) at (option_map version_of (option_copied found.entry)) self.now }
    {
        newest_of(self.first(), found, family, key, at)
    }

    /// Puts a node in front of a list that is searched.
    fn push_newest(&mut self, mut node: Box<Node>)
        ensures { self.new ≡ version_of node.value ∷ self.old }
    {
        node.links = mem::replace(self, Nodes::new()).into_links();
        self.first = Some(node);
    }

    /// The links of a node that is put in front of a list that is searched. Where the first two trees are equally high,
    /// they become its children, so that the trees are perfect, and at most as many as the binary digits of the list's
    /// length.
    fn into_links(mut self) -> Links
        ensures { result.children ++ result.next ≡ self }
    {
        let Some(mut first) = self.first.take() else {
            return Links::none();
        };
        let mut others = first.links.take_next();
        let Some(mut second) = others.first.take() else {
            return Links::to(Nodes::begun_by(first));
        };
        if first.links.rank() != second.links.rank() {
            first.links.set_next(Nodes::begun_by(second));
            return Links::to(Nodes::begun_by(first));
        }
        let rank = first.links.rank().saturating_add(1);
        let rest = second.links.take_next();
        first.links.set_next(Nodes::begun_by(second));
        Links::of(rank, Nodes::begun_by(first), rest)
    }

    /// Inserts a node after those that are newer.
    fn insert_older(&mut self, node: Box<Node>)
        ensures { self.new ≡ insert_older self.old (version_of node.value) }
    {
        let newer = self.take_newer(node.sequence);
        self.push_newest(node);
        self.push_all_newest(newer);
    }

    /// Puts other nodes before these, in reverse order, in a list that is searched.
    fn push_all_newest(&mut self, mut turned: Nodes)
        ensures { self.new ≡ reverse turned ++ self.old }
    {
        // The nodes popped from `turned` are in front, the last one popped first.
        while let Some(node) = turned.pop() {
            self.push_newest(node);
        }
    }

    /// Takes out the nodes at the front that are newer than a sequence, and returns them with the last one first.
    fn take_newer(&mut self, sequence: u64) -> Nodes
        ensures { (v : Version) → v.sequence ≡ sequence
            → reverse result ++ v ∷ self.new ≡ insert_older self.old v }
    {
        let mut newer = Nodes::new();
        // `newer` has the nodes popped so far, all of them newer, the last one popped first.
        while let Some(node) = self.pop() {
            if node.sequence <= sequence {
                self.push_newest(node);
                return newer;
            }
            newer.push_front(node);
        }
        newer
    }
}
