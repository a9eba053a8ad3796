//! The script that a call is given: lines of words, and the commands that they say. `parser` has the grammar of a
//! script, and `schedule` that of a script with a schedule.
#![tactic(auto)]

mod family_lines;
mod language;
mod lines;
mod numbers;
mod parser;
mod schedule;
mod script;
mod words;

pub use numbers::value_of_digits;
pub use parser::parse_clients;
pub use schedule::{Schedule, parse_schedule};
pub use script::{Script, ScriptError};
