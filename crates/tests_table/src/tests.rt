//! Fronts, the tree and the tables. What several of these tests share is in `nodes` and in `rows`.

mod at_once;
mod fronts;
mod nodes;
mod over_maps;
mod rows;
mod tables;
mod tree;
