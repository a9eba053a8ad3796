//! `ByteMap`, a map of bytes by keys, and `FamilyMap`, which has one for each column family.
//!
//! The pairs of a map are on pages of some five hundred bytes, one pair after another, and the pages on shelves. So
//! short pairs have no allocations of their own; two of more than half a page each are on pages of their own. A search
//! goes by the first keys of the shelves, then by those of one shelf's pages, and last from pair to pair on one page.
#![tactic(auto)]

mod byte_map;
mod family_map;
mod family_trees;
mod page;
mod pairs;
mod part;
mod shelf;

pub use byte_map::{ByteMap, BytePairs};
pub use family_map::FamilyMap;
pub use family_trees::FamilyPairs;
