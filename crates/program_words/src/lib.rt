//! The words of a call, read with `clap`: the program's name, a command with its options, and the numbers of `gen`.
#![tactic(auto)]

mod definition;
mod invocation;
mod laws;

pub use invocation::{Invocation, WordsError, read_words};
pub use laws::{lawful_words, words_that_are_lawful, words_that_ask, words_that_do_not_ask};
