//! Tests of the write path's core: the plans of its clients, its machine of events, and the batches and maps that its
//! state represents; and tests of printed texts that no call of the program gives. `tests/texts` tries all other
//! words, scripts and texts on the built program. These tests are a crate of their own, so that `replay_plans`,
//! `replay_core`, `replay_schedules` and `program_text` are proved once, and not again with their tests.
#![tactic(auto)]

#[cfg(test)]
mod events;
#[cfg(test)]
mod opening;
#[cfg(test)]
mod plans;
#[cfg(test)]
mod reads;
#[cfg(test)]
mod texts;
#[cfg(test)]
mod views;
