//! What the words of a call ask for.

ghost use Rattle.std.specs.Prelude.{◌≡◌, IfOk, Some, None, Err, option_map};
ghost use Rattle.clap.specs.Words.{first_of, found_of, kind_of, rows_of};
ghost use Rattle.program_words.specs.declared.invocation.WordsError.TheVariants.{NoMemory};
ghost use Rattle.program_words.specs.Limits.{KeepsLimits};
ghost use Rattle.program_words.specs.Commands as commands;
ghost use Rattle.program_words.specs.Meaning as meaning;
ghost use Rattle.program_words.specs.Meaning.{invocation_of, refusal_of, texts_in};

use crate::definition;
use clap::ArgMatches;
use clap::error::ErrorKind;
use log_recovery::Mode;
use std::alloc::{AllocError, Global};
use thiserror::Error;

/// What the words ask for.
#[derive(Clone, Copy)]
pub enum Invocation {
    /// To run a script.
    Run {
        /// Whether the log is handed on before a group is inserted.
        pipelined: bool,
        /// How many shards the table has; `None` if it is one tree under one lock.
        shards: Option<u64>,
        /// The most bytes of a write group.
        group_bytes: u64,
        /// The most bytes of a batch.
        batch_bytes: u64,
        /// The sequence number before that of the first batch.
        last: u64,
        /// The number of the log; `None` if it has none.
        number: Option<u64>,
        /// Whether the log goes on after what it recovers. If not, it is written over if it has a number, and must be
        /// empty if it has none.
        resume: bool,
        /// Which ends of the log its recovery accepts, if the log goes on.
        mode: Mode,
        /// How many logs there may be, if that is said.
        logs: Option<u64>,
        /// From which length on a log is full, if there are several.
        log_bytes: u64,
        /// How many column families there are.
        families: u64,
    },
    /// To say what the log recovers.
    Recover {
        /// The number of the log; `None` if it has none.
        number: Option<u64>,
        /// Which ends of the log its recovery accepts.
        mode: Mode,
        /// How many logs are recovered, if that is said.
        logs: Option<u64>,
    },
    /// To run a schedule on the core.
    Replay {
        /// Whether the log is handed on before a group is inserted.
        pipelined: bool,
        /// The most bytes of a write group.
        group_bytes: u64,
        /// The most bytes of a batch.
        batch_bytes: u64,
        /// The sequence number before that of the first batch.
        last: u64,
        /// How many column families there are.
        families: u64,
    },
    /// To run the script that a seed makes.
    Generate {
        /// Whether the log is handed on before a group is inserted.
        pipelined: bool,
        /// How many shards the table has; `None` if it is one tree under one lock.
        shards: Option<u64>,
        /// The seed from which the script's numbers are drawn.
        seed: u64,
        /// How many clients the script has.
        clients: u64,
        /// How many batches each client commits.
        batches: u64,
        /// How many column families there are.
        families: u64,
    },
}

/// Why the words ask for nothing.
#[derive(Clone, Copy, Debug, PartialEq, Eq, Error)]
pub enum WordsError {
    /// They aren't words that the program takes.
    #[error("usage")]
    Usage,
    /// There was no memory to read them.
    #[error("no memory")]
    NoMemory,
}

impl From<AllocError> for WordsError {
    ghost from_gives = { λ _ e. e ≡ NoMemory };

    fn from(_: AllocError) -> WordsError {
        WordsError::NoMemory
    }
}

impl From<clap::Error> for WordsError {
    ghost from_gives = { λ error e. e ≡ refusal_of (kind_of error) };

    fn from(error: clap::Error) -> WordsError {
        match error.kind() {
            ErrorKind::OutOfMemory => WordsError::NoMemory,
            _ => WordsError::Usage,
        }
    }
}

/// What the words ask for. The first is the program's name, and the command follows it.
pub fn read_words(alloc: Global, words: &[String]) -> Result<Invocation, WordsError>
    // The command, the flags and the numbers are those that clap's own definition finds in the words.
    ensures ok { IfOk result (λ asked. invocation_of words.now ≡ Some asked) }
    // Only words of which clap's definition makes nothing are refused as these. The one other error is want of memory.
    ensures usage { result ≡ Err WordsError.Usage → invocation_of words.now ≡ None }
    // Callers need no check of their own: each number is within its range.
    ensures limits { IfOk result KeepsLimits }
{
    let matches = definition::writepath(alloc)?.try_get_matches_from(words)?;
    let (command, options) = matches.subcommand().ok_or(WordsError::Usage)?;
    invocation_by(command, options).ok_or(WordsError::Usage)
}

fn invocation_by(command: &str, options: &ArgMatches) -> Option<Invocation>
    ensures { result ≡ meaning.invocation_by command.now (rows_of (found_of options.now)) }
{
    match command {
        "run" => run_by(options),
        "recover" => recover_by(options),
        "replay" => replay_by(options),
        "gen" => generate_by(options),
        _ => None,
    }
}

fn run_by(options: &ArgMatches) -> Option<Invocation>
    ensures { result ≡ commands.asked_by (texts_in (rows_of (found_of options.now))) (commands.run).made }
{
    Some(Invocation::Run {
        pipelined: flag_in("pipelined", options)?,
        shards: shards_in(options)?,
        group_bytes: number_in("group-bytes", options)?,
        batch_bytes: number_in("batch-bytes", options)?,
        last: number_in("last", options)?,
        number: number_in("number", options),
        resume: flag_in("resume", options)?,
        mode: mode_in(options)?,
        logs: number_in("logs", options),
        log_bytes: number_in("log-bytes", options)?,
        families: number_in("families", options)?,
    })
}

fn recover_by(options: &ArgMatches) -> Option<Invocation>
    ensures { result ≡ commands.asked_by (texts_in (rows_of (found_of options.now))) (commands.recover).made }
{
    Some(Invocation::Recover {
        number: number_in("number", options),
        mode: mode_in(options)?,
        logs: number_in("logs", options),
    })
}

fn replay_by(options: &ArgMatches) -> Option<Invocation>
    ensures { result ≡ commands.asked_by (texts_in (rows_of (found_of options.now))) (commands.replay).made }
{
    Some(Invocation::Replay {
        pipelined: flag_in("pipelined", options)?,
        group_bytes: number_in("group-bytes", options)?,
        batch_bytes: number_in("batch-bytes", options)?,
        last: number_in("last", options)?,
        families: number_in("families", options)?,
    })
}

fn generate_by(options: &ArgMatches) -> Option<Invocation>
    ensures { result ≡ commands.asked_by (texts_in (rows_of (found_of options.now))) (commands.generate).made }
{
    Some(Invocation::Generate {
        pipelined: flag_in("pipelined", options)?,
        shards: shards_in(options)?,
        seed: number_in("SEED", options)?,
        clients: number_in("CLIENTS", options)?,
        batches: number_in("BATCHES", options)?,
        families: number_in("families", options)?,
    })
}

/// How many shards the table has, by the matches; `Some(None)` if it is one tree.
fn shards_in(options: &ArgMatches) -> Option<Option<u64>>
    ensures { result ≡ commands.shards_in (texts_in (rows_of (found_of options.now))) }
{
    shards_of(text_in("table", options)?, number_in("shards", options))
}

/// How many shards a table of this kind has, where `shards` is the number that the matches have for them.
fn shards_of(kind: &str, shards: Option<u64>) -> Option<Option<u64>>
    ensures { result ≡ commands.shards_of kind.now shards }
{
    match kind {
        "one" => Some(None),
        "shards" => Some(Some(shards?)),
        _ => None,
    }
}

/// Which ends of the log its recovery accepts, by the matches.
fn mode_in(options: &ArgMatches) -> Option<Mode>
    ensures { result ≡ commands.mode_in (texts_in (rows_of (found_of options.now))) }
{
    mode_of(text_in("mode", options)?)
}

/// The mode of this name.
fn mode_of(name: &str) -> Option<Mode>
    ensures { result ≡ commands.mode_of name.now }
{
    match name {
        "point" => Some(Mode::Point),
        "tail" => Some(Mode::Tail),
        "absolute" => Some(Mode::Absolute),
        _ => None,
    }
}

/// The text that the matches have for an option.
fn text_in<'a>(id: &str, options: &ArgMatches<'a>) -> Option<&'a str>
    ensures { option_map (λ s. s.now) result ≡ first_of id.now (rows_of (found_of options.now)) }
{
    options.get_str(id)
}

/// Whether a flag is given, by the matches.
fn flag_in(id: &str, options: &ArgMatches) -> Option<bool>
    ensures { result ≡ commands.flag_in id.now (texts_in (rows_of (found_of options.now))) }
{
    options.get_one::<bool>(id)
}

/// The number that the matches have for an option, or for a word in its place.
fn number_in(id: &str, options: &ArgMatches) -> Option<u64>
    ensures { result ≡ commands.number_in id.now (texts_in (rows_of (found_of options.now))) }
{
    options.get_one::<u64>(id)
}
