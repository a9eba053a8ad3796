//! What the words of a call ask for.

ghost use Rattle.std.specs.Prelude.{◌≡◌, ◌≢◌, IfOk, IfErr, Some, None, option_map};
ghost use Rattle.clap.specs.Words.{first_of, found_of, kind_of, rows_of};
ghost use Rattle.list_words.specs.declared.invocation.WordsError.TheVariants.{NoMemory};
ghost use Rattle.list_words.specs.Texts as texts;
ghost use Rattle.list_words.specs.Asked as asked_words;
ghost use Rattle.list_words.specs.Asked.{asked_of, shown_asked, texts_in};

use crate::definition;
use clap::ArgMatches;
use clap::error::ErrorKind;
use list_text::Form;
use log_recovery::Mode;
use std::alloc::{AllocError, Global};

/// What `list` and `scan` are asked for.
#[derive(Clone, Copy)]
pub struct ListWords<'a> {
    /// The path of the log.
    pub log: &'a str,
    /// The number of the log, if it is said.
    pub number: Option<u32>,
    /// The sequences whose records are shown: from the first to the second.
    pub from: u64,
    pub to: u64,
    /// The key whose operations are shown, as it is spelled, if it isn't all of them.
    pub key: Option<&'a str>,
    pub form: Form,
    /// Whether counts are shown in place of records.
    pub summary: bool,
    /// Whether reading goes on after damage.
    pub scan: bool,
}

/// What `state` is asked for.
#[derive(Clone, Copy)]
pub struct StateWords<'a> {
    /// The path of the log.
    pub log: &'a str,
    /// The number of the log, if it is said.
    pub number: Option<u32>,
    /// Which ends of the log are accepted.
    pub mode: Mode,
    pub form: Form,
}

/// What the words ask for.
#[derive(Clone, Copy)]
pub enum Invocation<'a> {
    List(ListWords<'a>),
    State(StateWords<'a>),
}

impl<'a> Invocation<'a> {
    /// The path of the log.
    pub fn log(self) -> &'a str
        ensures { result.now ≡ asked_words.log_of self.entry }
    {
        match self {
            Invocation::List(words) => words.log,
            Invocation::State(words) => words.log,
        }
    }
}

/// Why the words ask for nothing.
#[derive(Drop)]
pub enum WordsError {
    /// `clap` doesn't take them, or they ask for its help; it has a text for that.
    Refused(clap::Error),
    /// The mode has no such name.
    NoMode,
    /// There was no memory to read them.
    NoMemory,
}

impl From<AllocError> for WordsError {
    ghost from_gives = { λ _ e. e ≡ NoMemory };

    fn from(_: AllocError) -> WordsError {
        WordsError::NoMemory
    }
}

impl From<clap::Error> for WordsError {
    ghost from_gives = { λ error e. e ≡ asked_words.refusal_of (kind_of error) error };

    fn from(error: clap::Error) -> WordsError {
        match error.kind() {
            ErrorKind::OutOfMemory => WordsError::NoMemory,
            _ => WordsError::Refused(error),
        }
    }
}

/// What the words ask for. The first is the program's name, and the command follows it.
pub fn read_words<'a>(alloc: Global, words: &'a [String]) -> Result<Invocation<'a>, WordsError>
    // The command, the path, the flags, the numbers and the words are those that clap's own definition finds.
    ensures ok { IfOk result (λ asked. asked_of words.now ≡ Some (shown_asked asked)) }
    // Only words of which nothing can be made are refused. The one other error is want of memory.
    ensures refused { IfErr result (λ e. e ≢ NoMemory → asked_of words.now ≡ None) }
    // Each refusal has its cause: clap's error is of a kind that clap's definition gives for these words, so that its
    // help is never said to be a wrong mode; and a mode is missed only where the word of `--mode` is the name of none.
    ensures why { IfErr result (λ e. asked_words.IsRefusedFor e (asked_words.texts_of words.now)) }
{
    let matches = definition::wzlog(alloc)?.try_get_matches_from(words)?;
    let (command, options) = matches.subcommand().ok_or(WordsError::NoMode)?;
    invocation_by(command, options).ok_or(WordsError::NoMode)
}

fn invocation_by<'a>(command: &str, options: &ArgMatches<'a>) -> Option<Invocation<'a>>
    ensures { option_map shown_asked result
        ≡ asked_words.asked_by command.now (texts_in (rows_of (found_of options.now))) }
{
    match command {
        "list" => Some(Invocation::List(list_by(options, false)?)),
        "scan" => Some(Invocation::List(list_by(options, true)?)),
        "state" => Some(Invocation::State(state_by(options)?)),
        _ => None,
    }
}

fn list_by<'a>(options: &ArgMatches<'a>, scan: bool) -> Option<ListWords<'a>>
    ensures { option_map asked_words.shown_list result
        ≡ asked_words.list_by scan (texts_in (rows_of (found_of options.now))) }
{
    Some(ListWords {
        log: text_in("LOG", options)?,
        number: log_number_in(options),
        from: number_in("from", options)?,
        to: number_in("to", options)?,
        key: text_in("key", options),
        form: form_in(options)?,
        summary: flag_in("summary", options)?,
        scan,
    })
}

fn state_by<'a>(options: &ArgMatches<'a>) -> Option<StateWords<'a>>
    ensures { option_map asked_words.shown_state result
        ≡ asked_words.state_by (texts_in (rows_of (found_of options.now))) }
{
    Some(StateWords {
        log: text_in("LOG", options)?,
        number: log_number_in(options),
        mode: mode_of(text_in("mode", options)?)?,
        form: form_in(options)?,
    })
}

/// The form in which the log is shown, by the matches.
fn form_in(options: &ArgMatches<'_>) -> Option<Form>
    ensures { result ≡ asked_words.form_in (texts_in (rows_of (found_of options.now))) }
{
    Some(Form {
        json: flag_in("json", options)?,
        text: flag_in("text", options)?,
    })
}

/// The text that the matches have for an option, or for the word in its place.
fn text_in<'a>(id: &str, options: &ArgMatches<'a>) -> Option<&'a str>
    ensures { option_map (λ s. s.now) result ≡ first_of id.now (rows_of (found_of options.now)) }
{
    options.get_str(id)
}

/// Whether a flag is given, by the matches.
fn flag_in(id: &str, options: &ArgMatches<'_>) -> Option<bool>
    ensures { result ≡ texts.flag_in id.now (texts_in (rows_of (found_of options.now))) }
{
    options.get_one::<bool>(id)
}

/// The number that the matches have for an option.
fn number_in(id: &str, options: &ArgMatches<'_>) -> Option<u64>
    ensures { result ≡ texts.number_in id.now (texts_in (rows_of (found_of options.now))) }
{
    options.get_one::<u64>(id)
}

/// The number of the log that the matches have, if it is said.
fn log_number_in(options: &ArgMatches<'_>) -> Option<u32>
    ensures { result ≡ texts.log_number_in (texts_in (rows_of (found_of options.now))) }
{
    options.get_one::<u32>("number")
}

/// The mode of this name.
fn mode_of(name: &str) -> Option<Mode>
    ensures { result ≡ asked_words.mode_of name.now }
{
    match name {
        "point" => Some(Mode::Point),
        "tail" => Some(Mode::Tail),
        "absolute" => Some(Mode::Absolute),
        _ => None,
    }
}
