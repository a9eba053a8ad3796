//! Tests of the log: its fragments and records, batches, the writer and recovery. They are a crate of their own, so
//! that `log_block`, `log_text`, `log_reader`, `log_batch`, `log_writer`, `log_recovery` and `log_updates` are proved
//! once, and not again with their tests.
//!
//! - `checks`: a comparison, for the others
//! - `changes`: changes to logs, for the others
//! - `logs`: logs and batches that several tests make, and what a log recovers, for the others
//! - `blocks`: fragments, and how a record is cut into them
//! - `numbered_fragments`: fragments of a log with a number
//! - `reading`: a log's records one after another
//! - `batches`: batches, made and read
//! - `texts`: the text of a record in a buffer
//! - `writing`: groups on a disk, its faults and its crashes
//! - `reopening`: logs written over old bytes, and logs that go on after what was recovered
//! - `recovery`: what is recovered from whole logs, and from those with another last record
//! - `damage`: what is recovered from logs that were cut or changed
//! - `modes`: what each mode of recovery accepts
//! - `several_logs`: what several logs recover, one after another
//! - `log_sets`: groups on several disks, one after another, their faults and crashes
//! - `since`: what logs have since a sequence, also while they are open
//! - `growing`: what logs have that is new, while they are written
//! - `numbered_logs`: logs with a number, read and recovered
#![tactic(auto)]

#[cfg(test)]
mod batches;
#[cfg(test)]
mod blocks;
#[cfg(test)]
mod changes;
#[cfg(test)]
mod checks;
#[cfg(test)]
mod damage;
#[cfg(test)]
mod growing;
#[cfg(test)]
mod log_sets;
#[cfg(test)]
mod logs;
#[cfg(test)]
mod modes;
#[cfg(test)]
mod numbered_fragments;
#[cfg(test)]
mod numbered_logs;
#[cfg(test)]
mod reading;
#[cfg(test)]
mod recovery;
#[cfg(test)]
mod reopening;
#[cfg(test)]
mod several_logs;
#[cfg(test)]
mod since;
#[cfg(test)]
mod texts;
#[cfg(test)]
mod writing;
