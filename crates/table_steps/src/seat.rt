//! A client's seat as callers have it.

use crate::launching::Turn;
use crate::shared::Client;

/// A client's seat, with the turn from when the client launches a group until the group is published.
#[derive(Drop)]
pub struct TableSeat<ShardTree, NodeList> {
    pub(crate) client: Client<ShardTree, NodeList>,
    pub(crate) turn: Option<Turn<ShardTree, NodeList>>,
    /// The last sequence of the group of which the client last took a part.
    pub(crate) last: u64,
}
