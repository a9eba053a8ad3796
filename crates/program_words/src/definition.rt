//! The command of `clap` that reads the words.

ghost use Rattle.std.specs.Prelude.{◌≡◌, IfOk, IsOkAnd, fold, Some, None, [], false};
ghost use Rattle.clap.specs.Words.{AddsSubcommand, app_of, new_app, rule_of, with_rule};
ghost use Rattle.clap.specs.declared.builder.command.Command.TheViews.{out-Command};
ghost use Rattle.program_words.specs.Definition as clap_words;
ghost use Rattle.program_words.specs.Options.{no_value, number_within, word_among};

use clap::builder::ValueParser;
use clap::{Arg, ArgAction, Command};
use model_base::{MAX_CLIENTS, MAX_FAMILIES, MAX_SIZE};
use std::alloc::{AllocError, Global};

/// An option of a command, or a number in a place of its own.
#[derive(Clone, Copy)]
enum Argument {
    /// A flag `--name`.
    Flag(&'static str),
    /// An option `--name`, with the least and the most whole number that it takes.
    Number(&'static str, u64, u64),
    /// The same, with the digits that stand for it unless it is given.
    NumberOr(&'static str, u64, u64, &'static str),
    /// An option `--name` that takes a word, with the one that stands for it unless it is given.
    Word(&'static str, &'static str),
    /// A word in a place of its own, with the least and the most whole number that it may be.
    Placed(&'static str, u64, u64),
}

/// Whether the log is handed on before a group is inserted.
const PIPELINED: Argument = Argument::Flag("pipelined");

/// What the table is made of: `one` tree under one lock, or trees in `shards`.
const TABLE: Argument = Argument::Word("table", "one");

/// How many shards the table has, if it is in shards.
const SHARDS: Argument = Argument::NumberOr("shards", 1, 64, "16");

/// The most bytes of a write group.
const GROUP_BYTES: Argument = Argument::NumberOr("group-bytes", 1, 16777216, "1048576");

/// The most bytes of a batch; its header alone has 12.
const BATCH_BYTES: Argument = Argument::NumberOr("batch-bytes", 12, MAX_SIZE, "16777216");

/// The sequence number before that of the first batch. The greatest is `2^56 - 1`.
const LAST: Argument = Argument::NumberOr("last", 0, 72057594037927935, "0");

/// The number of the log, if it has one.
const NUMBER: Argument = Argument::Number("number", 1, 4294967295);

/// Whether the log goes on after what it recovers.
const RESUME: Argument = Argument::Flag("resume");

/// Which ends of the log its recovery accepts: with `point` any; with `tail` that of a whole log, and of one whose
/// last write was cut off; with `absolute` that of a whole log alone.
const MODE: Argument = Argument::Word("mode", "point");

/// Over how many logs a run goes, or recovery, if that is said; it is one otherwise.
const LOGS: Argument = Argument::Number("logs", 1, 16);

/// From which length on a log is full, if the run has several. The greatest is `2^40`.
const LOG_BYTES: Argument = Argument::NumberOr("log-bytes", 1, 1099511627776, "67108864");

/// How many column families there are: those with the numbers below this one.
const FAMILIES: Argument = Argument::NumberOr("families", 1, MAX_FAMILIES as u64, "1");

const RUN: [Argument; 12] = [
    PIPELINED,
    TABLE,
    SHARDS,
    GROUP_BYTES,
    BATCH_BYTES,
    LAST,
    NUMBER,
    RESUME,
    MODE,
    LOGS,
    LOG_BYTES,
    FAMILIES,
];

const RECOVER: [Argument; 3] = [NUMBER, MODE, LOGS];

const REPLAY: [Argument; 5] = [PIPELINED, GROUP_BYTES, BATCH_BYTES, LAST, FAMILIES];

const GENERATE: [Argument; 7] = [
    PIPELINED,
    TABLE,
    SHARDS,
    FAMILIES,
    Argument::Placed("SEED", 0, 2147483647),
    Argument::Placed("CLIENTS", 1, MAX_CLIENTS as u64),
    Argument::Placed("BATCHES", 1, 100000),
];

/// The whole command.
pub fn writepath<'a>(alloc: Global) -> Result<Command<'a>, AllocError>
    ensures { IfOk result (λ command. app_of command ≡ clap_words.writepath) }
{
    let with_run = with_command(program(alloc), command_of(alloc, "run", &RUN))?;
    let with_recover = with_command(with_run, command_of(alloc, "recover", &RECOVER))?;
    let with_replay = with_command(with_recover, command_of(alloc, "replay", &REPLAY))?;
    with_command(with_replay, command_of(alloc, "gen", &GENERATE))
}

/// The command with another command below it, if there was memory to make that one.
fn with_command<'a>(
    command: Command<'a>,
    made: Result<Command<'a>, AllocError>,
) -> Result<Command<'a>, AllocError>
    ensures { IfOk result (λ r. IsOkAnd made.entry (λ below. AddsSubcommand command.entry below r)) }
{
    command.subcommand(made?)
}

/// The program without its commands: it requires one, and has no help, since every refusal has the same text.
fn program<'a>(alloc: Global) -> Command<'a>
    ensures { app_of result ≡ clap_words.program }
{
    Command::new(alloc, "writepath")
        .subcommand_required(true)
        .disable_help_flag(true)
        .disable_help_subcommand(true)
}

/// The command of this name, with these arguments in their order.
fn command_of<'a>(
    alloc: Global,
    name: &'a str,
    arguments: &[Argument],
) -> Result<Command<'a>, AllocError>
    ensures app { IfOk result (λ command. app_of command
        ≡ fold (λ a x. with_rule a (clap_words.listed_rule x)) (new_app name.entry.now) arguments.now) }
    ensures local { IfOk result (λ command. (out-Command command).has_globals ≡ false) }
{
    let mut command = Command::new(alloc, name);
    // The command has the arguments so far.
    for argument in arguments {
        command = command.arg(arg_of(alloc, argument))?;
    }
    Ok(command)
}

/// What clap makes of an argument.
fn arg_of<'a>(alloc: Global, argument: &Argument) -> Arg<'a>
    ensures rule { rule_of result ≡ clap_words.listed_rule argument.now }
    ensures local { result.global ≡ false }
{
    match *argument {
        Argument::Flag(name) => flag(alloc, name),
        Argument::Number(name, least, most) => number(alloc, name, least, most),
        Argument::NumberOr(name, least, most, digits) => number_or(
            alloc, name, least, most, digits,
        ),
        Argument::Word(name, word) => word_or(alloc, name, word),
        Argument::Placed(name, least, most) => placed(alloc, name, least, most),
    }
}

/// A flag `--name`, which takes no value.
fn flag<'a>(alloc: Global, name: &'a str) -> Arg<'a>
    ensures rule { rule_of result ≡ clap_words.option_rule (record { name = name.entry.now; kind = no_value }) }
    ensures local { result.global ≡ false }
{
    Arg::new(alloc, name).long(name).action(ArgAction::SetTrue)
}

/// An option `--name` that takes a whole number from `least` to `most`, and has no default.
fn number<'a>(alloc: Global, name: &'a str, least: u64, most: u64) -> Arg<'a>
    ensures rule { rule_of result
        ≡ clap_words.option_rule (record { name = name.entry.now; kind = number_within least most None }) }
    ensures local { result.global ≡ false }
{
    Arg::new(alloc, name)
        .long(name)
        .value_parser(ValueParser::unsigned(least, most))
}

/// An option `--name` that takes a whole number from `least` to `most`, and is that of `digits` unless it is given.
fn number_or<'a>(alloc: Global, name: &'a str, least: u64, most: u64, digits: &'a str) -> Arg<'a>
    ensures rule { rule_of result ≡ clap_words.option_rule
        (record { name = name.entry.now; kind = number_within least most (Some digits.entry.now) }) }
    ensures local { result.global ≡ false }
{
    number(alloc, name, least, most).default_value(digits)
}

/// An option `--name` that takes a word, and is this one unless it is given. The matches may have any word as its
/// value.
fn word_or<'a>(alloc: Global, name: &'a str, word: &'a str) -> Arg<'a>
    ensures rule { rule_of result
        ≡ clap_words.option_rule (record { name = name.entry.now; kind = word_among [] word.entry.now }) }
    ensures local { result.global ≡ false }
{
    Arg::new(alloc, name).long(name).default_value(word)
}

/// A word in a fixed place, which may not be left out: a whole number from `least` to `most`.
fn placed<'a>(alloc: Global, name: &'a str, least: u64, most: u64) -> Arg<'a>
    ensures rule { rule_of result
        ≡ clap_words.place_rule (record { name = name.entry.now; least = least; most = most }) }
    ensures local { result.global ≡ false }
{
    Arg::new(alloc, name)
        .required(true)
        .value_parser(ValueParser::unsigned(least, most))
}
