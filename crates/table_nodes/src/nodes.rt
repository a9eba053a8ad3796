//! The nodes of a batch.

ghost use Rattle.std.specs.Prelude.{◌≡◌, ◌==◌, List, ◌∷◌, ◌++◌, ◌+◌, ◌<◌, ◌≤◌, ◌^◌, [], length, reverse, Some, IfOk, MatchOption};
ghost use Rattle.std.specs.Option.{option_copied, option_map, option_to_list};
ghost use Rattle.log_batch.specs.View.{record_of};
ghost use Rattle.table_nodes.specs.Nodes.{at_key, version_of, versions_on};
ghost use Rattle.table_nodes.specs.Batches.{new_versions, number_from};
ghost use Rattle.table_rule.specs.declared.content.Version.{Version};

use crate::content::Content;
use crate::links::Links;
use crate::node::{Node, Nodes};
use log_batch::{Batch, RecordView};
use model_base::NoMemory;
use std::alloc::Global;
use std::mem;

impl Nodes {
    /// A node for each record of the batch that counts, the last record's node first, as `number` takes them. They
    /// don't have their sequences yet.
    pub fn make(alloc: Global, batch: &Batch) -> Result<Nodes, NoMemory>
        // The last record's node is first, since nodes are put in front one by one; `number` turns them round.
        ensures { IfOk result (λ nodes. nodes ≡ reverse (new_versions batch.now.records)) }
    {
        let mut nodes = Nodes::new();
        // The nodes are those of the records so far, the last one first.
        for view in batch.records() {
            if let Some(node) = Node::of_record(alloc, view)? {
                nodes.push_front(node);
            }
        }
        Ok(nodes)
    }

    /// Reverses the nodes and gives them sequences: `first` to the node that is then the first, and to each other node
    /// the sequence after its predecessor's. `count` is how many nodes there are.
    pub fn number(&mut self, first: u64, count: u64)
        requires count { count ≡ length self.old }
        requires fits { first + count ≤ 2 ^ 56 }
        ensures { self.new ≡ number_from first (reverse self.old) }
    {
        let mut numbered = Nodes::new();
        let mut sequence = first + count;
        // `numbered` has the last nodes in order, from `sequence` on, and `self` those before them, the last one first.
        while let Some(mut node) = self.pop() {
            sequence -= 1;
            node.sequence = sequence;
            numbered.push_front(node);
        }
        *self = numbered;
    }

    /// Takes the first node out.
    pub fn pop(&mut self) -> Option<Box<Node>>
        ensures { MatchOption result ((self.old ≡ []) × (self.new ≡ []))
            (λ node. self.old ≡ version_of node.value ∷ self.new) }
    {
        let mut node = self.first.take()?;
        node.links.move_to(self);
        Some(node)
    }

    /// Moves other nodes to the end of these. It is for a node's children, which are two trees, so that it takes few
    /// steps.
    pub(crate) fn append(&mut self, other: Nodes)
        ensures { self.new ≡ self.old ++ other }
    {
        match &mut self.first {
            None => self.first = other.into_first(),
            Some(node) => {
                let mut next = node.links.take_next();
                next.append(other);
                node.links.set_next(next);
            }
        }
    }

    /// The family and the key of the first node.
    pub fn first_key(&self) -> Option<(u32, &[u8])>
        ensures { MatchOption result (self.now ≡ []) (λ key. (v : Version) × (more : List Version)
            × (self.now ≡ v ∷ more) × (v.key ≡ at_key key.0 key.1.now)) }
    {
        match &self.first {
            Some(node) => Some((node.family(), node.key())),
            None => None,
        }
    }

    /// How many nodes there are.
    pub fn len(&self) -> u64
        requires { length self.now < 2 ^ 64 }
        ensures { result ≡ length self.now }
    {
        count_from(self.first())
    }

    /// Puts other nodes before these, in reverse order. This takes no memory.
    pub(crate) fn push_all_front(&mut self, mut turned: Nodes)
        ensures { self.new ≡ reverse turned ++ self.old }
    {
        // The nodes popped from `turned` are in front, the last one popped first.
        while let Some(node) = turned.pop() {
            self.push_front(node);
        }
    }

    /// No nodes. This takes no memory.
    pub fn new() -> Nodes
        ensures { result ≡ [] }
    {
        Nodes { first: None }
    }

    /// Puts a node in front.
    pub fn push_front(&mut self, mut node: Box<Node>)
        ensures { self.new ≡ version_of node.value ∷ self.old }
    {
        node.links.replace_by(self);
        // What the node had after it is dropped here.
        self.first = Some(node);
    }

    /// Puts a node after the others. This takes no memory, but the longer the more others there are.
    pub fn push_back(&mut self, node: Box<Node>)
        ensures { self.new ≡ self.old ++ version_of node.value ∷ [] }
    {
        let mut turned = mem::replace(self, Nodes::new()).reversed();
        turned.push_front(node);
        *self = turned.reversed();
    }

    /// Whether there are none.
    pub fn is_empty(&self) -> bool
        ensures { result ≡ (length self.now == 0) }
    {
        self.first.is_none()
    }

    /// The nodes in reverse order.
    pub fn reversed(self) -> Nodes
        ensures { result ≡ reverse self }
    {
        let mut turned = Nodes::new();
        turned.push_all_front(self);
        turned
    }
}

/// How many nodes there are from one on.
fn count_from(first: Option<&Node>) -> u64
    requires { length (versions_on (option_copied first)) < 2 ^ 64 }
    ensures { result ≡ length (versions_on (option_copied first.entry)) }
{
    let mut count = 0;
    let mut rest = first;
    // `count` is how many nodes come before `rest`.
    while let Some(node) = rest {
        count += 1 + count_from(node.links.children());
        rest = node.links.next();
    }
    count
}

impl Node {
    /// A node of a family's key, with its value, or none where it is deleted, and with the sequence 0.
    pub(crate) fn new(
        alloc: Global,
        family: u32,
        key: &[u8],
        value: Option<&[u8]>,
    ) -> Result<Box<Node>, NoMemory>
        ensures { IfOk result (λ node. version_of node.value
            ≡ record { key = at_key family key.now; value = option_copied value.entry; sequence = 0 }) }
    {
        Ok(Box::new(
            alloc,
            Node {
                content: Content::copy(alloc, family, key, value)?,
                sequence: 0,
                links: Links::none(),
                alloc,
            },
        )?)
    }

    /// A node of a family's key with its value at a sequence.
    pub fn of_value(
        alloc: Global,
        family: u32,
        key: &[u8],
        value: &[u8],
        sequence: u64,
    ) -> Result<Box<Node>, NoMemory>
        ensures { IfOk result (λ node. version_of node.value
            ≡ record { key = at_key family key.now; value = Some value.now; sequence = sequence }) }
    {
        let mut node = Node::new(alloc, family, key, Some(value))?;
        node.sequence = sequence;
        Ok(node)
    }

    /// The node of a record, if the record counts. A single deletion makes one like a deletion.
    fn of_record(alloc: Global, view: RecordView<'_>) -> Result<Option<Box<Node>>, NoMemory>
        ensures { IfOk result (λ node. option_to_list (option_map (λ n. version_of n.value) node)
            ≡ new_versions (record_of view.entry ∷ [])) }
    {
        match view {
            RecordView::Value { family, key, value } => {
                let family = family.unwrap_or(0);
                Ok(Some(Node::new(alloc, family, key, Some(value))?))
            }
            RecordView::Deletion { family, key } => {
                Ok(Some(Node::new(alloc, family.unwrap_or(0), key, None)?))
            }
            RecordView::SingleDeletion { family, key } => {
                Ok(Some(Node::new(alloc, family.unwrap_or(0), key, None)?))
            }
            RecordView::LogData { .. } => Ok(None),
        }
    }
}
