//! The laws of lower crates that this crate calls. A law does nothing: code that calls it may rely on what its
//! contract says.

pub(crate) use engine_rule::{accounts_of_the_reads, closings, groups_stay_consistent};
pub(crate) use line_rule::codes_stand_for_items;
