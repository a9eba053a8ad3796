//! The command of `clap` that reads the words.

ghost use Rattle.std.specs.Prelude.{◌≡◌, IfOk, IsOkAnd, fold, false};
ghost use Rattle.clap.specs.Words.{AddsSubcommand, app_of, new_app, rule_of, with_rule};
ghost use Rattle.clap.specs.declared.builder.command.Command.TheViews.{out-Command};
ghost use Rattle.list_words.specs.Definition as clap_words;

use clap::builder::ValueParser;
use clap::{Arg, ArgAction, Command};
use std::alloc::{AllocError, Global};

/// An option of a command, or its word in a place of its own; each with what the help says of it.
#[derive(Clone, Copy)]
enum Argument {
    /// A flag `--name`.
    Flag(&'static str, &'static str),
    /// An option `--name`, with the least and the most whole number that it takes.
    Number(&'static str, u64, u64, &'static str),
    /// The same, with the digits that it has unless it is given.
    NumberOr(&'static str, u64, u64, &'static str, &'static str),
    /// An option `--name` that takes any word.
    Word(&'static str, &'static str),
    /// The same, with the word that it has unless it is given.
    WordOr(&'static str, &'static str, &'static str),
    /// A word in a place of its own, which may not be left out.
    Place(&'static str, &'static str),
}

const LOG: Argument = Argument::Place("LOG", "The log's file");

const NUMBER: Argument = Argument::Number(
    "number",
    1,
    4294967295,
    "The number that the log's headers have: that of the file's name, if RocksDB recycles logs",
);

const FROM: Argument = Argument::NumberOr(
    "from",
    0,
    u64::MAX,
    "0",
    "Only records with this sequence or a later one",
);

const TO: Argument = Argument::NumberOr(
    "to",
    0,
    u64::MAX,
    "18446744073709551615",
    "Only records with this sequence or an earlier one",
);

const KEY: Argument = Argument::Word(
    "key",
    "Only operations about this key: hexadecimal digits, - if it is empty, or with --text a text",
);

const TEXT: Argument = Argument::Flag(
    "text",
    "Keys and values as text, with \\xff for a byte that can't be printed",
);

const JSON: Argument = Argument::Flag("json", "Each line as an object of JSON");

const SUMMARY: Argument = Argument::Flag("summary", "Counts in place of records");

const MODE: Argument = Argument::WordOr(
    "mode",
    "point",
    "Which ends are accepted: point (any), tail (a whole log's, or an incomplete last write), absolute (a whole log's)",
);

const LIST: [Argument; 8] = [LOG, NUMBER, FROM, TO, KEY, TEXT, JSON, SUMMARY];

const STATE: [Argument; 5] = [LOG, NUMBER, MODE, TEXT, JSON];

/// What the commands do, for their help.
const LIST_SHOWS: &str = "Shows the log's records, up to its end or to damage";

const SCAN_SHOWS: &str = "Shows the log's records, also after damage";

const STATE_SHOWS: &str = "Shows the map that the log recovers";

/// The whole command.
pub fn wzlog<'a>(alloc: Global) -> Result<Command<'a>, AllocError>
    ensures { IfOk result (λ command. app_of command ≡ clap_words.wzlog) }
{
    let with_list = with_command(program(alloc), command_of(alloc, "list", LIST_SHOWS, &LIST))?;
    let with_scan = with_command(with_list, command_of(alloc, "scan", SCAN_SHOWS, &LIST))?;
    with_command(with_scan, command_of(alloc, "state", STATE_SHOWS, &STATE))
}

/// The command with another command below it, if there was memory to make that one.
fn with_command<'a>(
    command: Command<'a>,
    made: Result<Command<'a>, AllocError>,
) -> Result<Command<'a>, AllocError>
    ensures { IfOk result (λ r. IsOkAnd made.entry (λ below. AddsSubcommand command.entry below r)) }
{
    command.subcommand(made?)
}

/// The program without its commands. It requires one.
fn program<'a>(alloc: Global) -> Command<'a>
    ensures { app_of result ≡ clap_words.program }
{
    Command::new(alloc, "wzlog")
        .about("Shows write-ahead logs of RocksDB and LevelDB. It changes nothing.")
        .version("0.1.0")
        .subcommand_required(true)
        .disable_help_subcommand(true)
}

/// The command of this name, with these arguments in their order.
fn command_of<'a>(
    alloc: Global,
    name: &'a str,
    about: &'a str,
    arguments: &[Argument],
) -> Result<Command<'a>, AllocError>
    ensures app { IfOk result (λ command. app_of command
        ≡ fold (λ a x. with_rule a (clap_words.listed_rule x)) (new_app name.entry.now) arguments.now) }
    ensures local { IfOk result (λ command. (out-Command command).has_globals ≡ false) }
{
    let mut command = shown(alloc, name, about);
    // The command has the arguments so far.
    for argument in arguments {
        command = command.arg(arg_of(alloc, argument))?;
    }
    Ok(command)
}

/// The command of this name without arguments, and what its help says that it does.
fn shown<'a>(alloc: Global, name: &'a str, about: &'a str) -> Command<'a>
    ensures app { app_of result ≡ new_app name.entry.now }
    ensures local { (out-Command result).has_globals ≡ false }
{
    Command::new(alloc, name).about(about)
}

/// What clap makes of an argument.
fn arg_of<'a>(alloc: Global, argument: &Argument) -> Arg<'a>
    ensures rule { rule_of result ≡ clap_words.listed_rule argument.now }
    ensures local { result.global ≡ false }
{
    match *argument {
        Argument::Flag(name, help) => flag(alloc, name, help),
        Argument::Number(name, least, most, help) => number(alloc, name, help, least, most),
        Argument::NumberOr(name, least, most, digits, help) => number_or(
            alloc, name, help, least, most, digits,
        ),
        Argument::Word(name, help) => option(alloc, name, help),
        Argument::WordOr(name, word, help) => word_or(alloc, name, help, word),
        Argument::Place(name, help) => place(alloc, name, help),
    }
}

/// An option `--name`, which takes any word.
fn option<'a>(alloc: Global, name: &'a str, help: &'a str) -> Arg<'a>
    ensures rule { rule_of result ≡ clap_words.named_rule name.entry.now }
    ensures local { result.global ≡ false }
{
    Arg::new(alloc, name).long(name).help(help)
}

/// A flag `--name`, which takes no value.
fn flag<'a>(alloc: Global, name: &'a str, help: &'a str) -> Arg<'a>
    ensures rule { rule_of result ≡ clap_words.flag name.entry.now }
    ensures local { result.global ≡ false }
{
    option(alloc, name, help).action(ArgAction::SetTrue)
}

/// An option `--name` that takes a whole number from `least` to `most`, and has no default.
fn number<'a>(alloc: Global, name: &'a str, help: &'a str, least: u64, most: u64) -> Arg<'a>
    ensures rule { rule_of result ≡ clap_words.number name.entry.now least most }
    ensures local { result.global ≡ false }
{
    option(alloc, name, help).value_parser(ValueParser::unsigned(least, most))
}

/// An option `--name` that takes a whole number from `least` to `most`, and is that of `digits` unless it is given.
fn number_or<'a>(
    alloc: Global,
    name: &'a str,
    help: &'a str,
    least: u64,
    most: u64,
    digits: &'a str,
) -> Arg<'a>
    ensures rule { rule_of result
        ≡ clap_words.with_default digits.entry.now (clap_words.number name.entry.now least most) }
    ensures local { result.global ≡ false }
{
    number(alloc, name, help, least, most).default_value(digits)
}

/// An option `--name` that takes any word, and is this one unless it is given.
fn word_or<'a>(alloc: Global, name: &'a str, help: &'a str, word: &'a str) -> Arg<'a>
    ensures rule { rule_of result
        ≡ clap_words.with_default word.entry.now (clap_words.named_rule name.entry.now) }
    ensures local { result.global ≡ false }
{
    option(alloc, name, help).default_value(word)
}

/// A word in a place of its own, which may not be left out.
fn place<'a>(alloc: Global, name: &'a str, help: &'a str) -> Arg<'a>
    ensures rule { rule_of result ≡ clap_words.place name.entry.now }
    ensures local { result.global ≡ false }
{
    Arg::new(alloc, name).required(true).help(help)
}
