//! What a log that is open has since a sequence, in all the logs that it is made of, and where reading it may begin.
//!
//! Only whole records are read, and of them only those before the first one that goes past a given sequence. Reading
//! changes nothing of the log, and the next group may be written after it.
#![tactic(auto)]

mod places;
mod reading;

pub use places::{LogPlace, ReadPlaces, places_stay};
pub use reading::{LogUpdates, updates_of_logs};
