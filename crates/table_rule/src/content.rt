//! What the slots of a table hold, and what is published.

use model_base::Key;
use std::collections::LinkedList;

/// What lies in a slot. `ShardTree` is a tree of versions, and `NodeList` are a member's nodes.
#[derive(Drop)]
pub enum Content<ShardTree, NodeList> {
    /// Nothing.
    Blank,
    /// A shard's tree.
    Tree(ShardTree),
    /// A member's nodes, and the last sequence of their group.
    Nodes(NodeList, u64),
}

/// The value that a key has from a sequence on, or none where it is deleted. Contracts speak of versions, and no value
/// of this type is made.
pub struct Version {
    pub key: Key,
    pub value: Option<LinkedList<u8>>,
    pub sequence: u64,
}

/// A member's part of a group, in the order of its sequences. A group is a list of parts. No value of this type is
/// made.
pub struct MemberVersions {
    pub member: u64,
    pub versions: LinkedList<Version>,
}
