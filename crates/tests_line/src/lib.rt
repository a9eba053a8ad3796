//! Tests of the line of writers, over a plain counter as its log: which writers form a group, which reply each gets,
//! who leads next, and threads that write at once. Also tests of the rule alone by which groups are made, and of the
//! bells that writers sleep on. They are a crate of their own, so that `line_grouping`, `line_writers` and
//! `base_waiting` are proved once, and not again with their tests.
#![tactic(auto)]

#[cfg(test)]
mod bells;
mod counter;
#[cfg(test)]
mod groups;
mod items;
#[cfg(test)]
mod tests;

pub use counter::{
    CountLog, CountReply, CountRequest, Nothing, Player, answer_all, note, note_numbers,
};
pub use items::{
    EIGHTH, HASTY, LONE, MAX, PAST_EIGHTH, PAST_REST, PLAIN, REST, SYNCED, UNFLAGGED, UNLOGGED,
    sized,
};
