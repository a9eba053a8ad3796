//! The write path as a state machine that takes one event after another: its states, its table of events and its law,
//! as definitions in `specs/`. In code it has only the events.
#![tactic(auto)]

mod event;

pub use event::Event;
