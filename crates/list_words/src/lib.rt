//! The words of a call of `wzlog`: the command comes first, then the log's path and options in any order. They are read
//! by `clap`, which has the help too, and the sentences for words that it doesn't take.
#![tactic(auto)]

mod definition;
mod invocation;
mod laws;

pub use invocation::{Invocation, ListWords, StateWords, WordsError, read_words};
pub use laws::{words_that_ask, words_that_clap_answers, words_that_do_not_ask};
