//! A script with a schedule after it: the events of the write path's core, one a line.
//!
//! The script's lines are those that `parser` describes. After them comes the line `schedule`, and after that a line
//! for each event: its word and the number of a client of the script, as in `link 1`. The words are `link`, `elect`,
//! `build`, `log`, `fault`, `boundary`, `second`, `next`, `launch`, `insert`, `finish`, `publish`, `exit`, `complete`,
//! `read`, `stall`, `leave`, `unstall` and `since`. Empty lines and comments are passed over there too.

ghost use Rattle.std.specs.Prelude.{◌≡◌, ◌+◌, ◌≤◌, ◌==◌, [], Ok, Err, length, if◌then◌else◌, IfOk, IfErr, OnOk, drop, option_copied};
ghost use Rattle.model_core.specs.Schedule as model;
ghost use Rattle.model_base.specs.Script.{words_of};
ghost use Rattle.model_base.specs.declared.script.ScriptFault.TheVariants.{Form};
ghost use Rattle.run_scripts.specs.Languages.{HasCommandsOf};
ghost use Rattle.run_scripts.specs.Scripts.{commands_of, FitsBatches, script_len, HasClientsCommands};
ghost use Rattle.run_scripts.specs.ScriptLines.{Reads};
ghost use Rattle.run_scripts.specs.ScriptWords.{parts_of};
ghost use Rattle.run_scripts.specs.Schedules.{draft_of, schedule_of, event_named, line_added, event_added, IsScheduleFaultOf};
ghost use Rattle.run_scripts.specs.ReplayLanguage.{replay_grammar, event_words};

use crate::language::Language;
use crate::lines::{LineError, are_plain, is_passed_over};
use crate::numbers::number_of;
use crate::parser::add_said;
use crate::script::{Script, ScriptError};
use crate::words::split_once;
use model_base::{MAX_CLIENTS, ScriptFault, TEXT_LIMIT};
use model_core::Event;
use std::alloc::Global;

/// A script, and the events of its schedule in order.
#[derive(Debug, Drop)]
pub struct Schedule {
    pub script: Script,
    pub events: Vec<Event>,
}

/// What was read so far: the script, and the events once the line `schedule` has come.
#[derive(Drop)]
struct Draft {
    script: Script,
    events: Option<Vec<Event>>,
}

/// Parses a script of 1 to 64 clients and its schedule. Faults come in the same order as in
/// [`parse_clients`](crate::parse_clients). Where the line `schedule` is missing, the fault is `schedule`, and it
/// comes after all others.
pub fn parse_schedule(alloc: Global, text: &[u8]) -> Result<Schedule, ScriptError>
    // What is read is what the definition of a script with a schedule says.
    ensures schedule { IfOk result (λ s. model.schedule_of replay_grammar event_words text.now
        ≡ Ok (schedule_of s)) }
    // A text is refused for its first fault only, as by `parse_clients`.
    ensures fault { IfErr result (IsScheduleFaultOf
        (model.schedule_of replay_grammar event_words text.now)) }

    // The script has at least one client, all that each client adds fits into one batch, whatever the outcome of its
    // commits, no command is about the write controller's tokens, and the words of the commands are short.
    ensures clients { IfOk result (λ s. (1 ≤ length s.script.clients.items)
        × (length s.script.clients.items ≤ MAX_CLIENTS)) }
    ensures fits { IfOk result (λ s. FitsBatches s.script) }
    ensures commands { IfOk result (λ s. HasClientsCommands s.script) }
{
    if text.len() > TEXT_LIMIT {
        return Err(ScriptError::Fault {
            line: 0,
            kind: ScriptFault::Long,
        });
    }
    let Draft { script, events } = read_lines(alloc, text)?;
    if script.clients.is_empty() {
        return Err(ScriptError::Fault {
            line: 0,
            kind: ScriptFault::NoClient,
        });
    }
    match events {
        Some(events) => Ok(Schedule { script, events }),
        None => Err(ScriptError::Fault {
            line: 0,
            kind: ScriptFault::NoSchedule,
        }),
    }
}

/// Reads all lines of a text, whatever its length.
fn read_lines(alloc: Global, text: &[u8]) -> Result<Draft, ScriptError>
    ensures draft { IfOk result (λ d. model.lines_read replay_grammar event_words text.now
        ≡ Ok (draft_of d)) }
    ensures fault { IfErr result (IsScheduleFaultOf
        (model.lines_read replay_grammar event_words text.now)) }
    ensures few { IfOk result (λ d. length d.script.clients.items ≤ MAX_CLIENTS) }
    ensures small { IfOk result (λ d. script_len d.script ≤ length text.now + 1) }
    ensures commands { IfOk result (λ d. HasCommandsOf Language.Replay d.script) }
{
    let mut draft = Draft {
        script: Script {
            clients: Vec::new(alloc),
        },
        events: None,
    };
    let mut number: u64 = 0;
    let mut rest = Some(text);
    while let Some(lines) = rest {
        let (line, behind) = split_once(lines, b'\n');
        number += 1;
        if let Err(error) = add_line(alloc, &mut draft, line) {
            return Err(error.at_line(number));
        }
        rest = behind;
    }
    Ok(draft)
}

/// Reads one more line. After an error the draft is not used.
fn add_line(alloc: Global, draft: &mut Draft, line: &[u8]) -> Result<(), LineError>
    requires few { length draft.old.script.clients.items ≤ MAX_CLIENTS }
    ensures draft { Reads (λ _. draft_of draft.new) (line_added (draft_of draft.old) line.now) result }
    ensures few { OnOk result (length draft.new.script.clients.items ≤ MAX_CLIENTS) }
    ensures len { OnOk result
        (script_len draft.new.script ≤ script_len draft.old.script + length line.now + 1) }
    ensures commands { HasCommandsOf Language.Replay draft.old.script
        → OnOk result (HasCommandsOf Language.Replay draft.new.script) }
{
    if is_passed_over(line) {
        return Ok(());
    }
    match &mut draft.events {
        Some(events) => add_event(events, draft.script.clients.len(), line),
        None if begins_schedule(line) => {
            draft.events = Some(no_events(alloc, line)?);
            Ok(())
        }
        None => add_said(alloc, Language::Replay, &mut draft.script, line),
    }
}

/// Whether a line's first word is `schedule`.
fn begins_schedule(line: &[u8]) -> bool
    ensures { result ≡ model.begins_schedule line.now }
{
    are_plain(line) && split_once(line, b' ').0 == b"schedule".as_slice()
}

/// The events at the beginning of a schedule, which are none. The first word of the line is `schedule`, and it may
/// have no other.
fn no_events(alloc: Global, line: &[u8]) -> Result<Vec<Event>, LineError>
    ensures events { IfOk result (λ events. (events.items ≡ []) × (length (words_of line.now) ≡ 1)) }
    ensures fault { Reads (λ _. tt {0}) (if length (words_of line.now) == 1 then Ok (tt {0}) else Err Form) result }
{
    if split_once(line, b' ').1.is_some() {
        return Err(LineError::FORM);
    }
    Ok(Vec::new(alloc))
}

/// Reads one more event of a script with this many clients.
fn add_event(events: &mut Vec<Event>, clients: usize, line: &[u8]) -> Result<(), LineError>
    requires { clients ≤ MAX_CLIENTS }
    ensures { Reads (λ _. events.new.items) (event_added clients events.old.items line.now) result }
{
    let event = read_event(clients, line)?;
    events.push(event)?;
    Ok(())
}

/// Reads a line of a schedule for a script with this many clients.
fn read_event(clients: usize, line: &[u8]) -> Result<Event, LineError>
    requires { clients ≤ MAX_CLIENTS }
    ensures { Reads (λ event. event) (model.event_of clients event_words line.now) result }
{
    if !are_plain(line) {
        return Err(LineError::Fault(ScriptFault::Byte));
    }
    let (word, rest) = split_once(line, b' ');
    let client = client_alone(clients, rest);
    let Some(event) = event_named(word, client.unwrap_or(0)) else {
        return Err(LineError::Fault(ScriptFault::Word));
    };
    if client.is_none() {
        return Err(LineError::FORM);
    }
    Ok(event)
}

/// The one word that is left of a line, as the number of one of `clients` clients.
fn client_alone(clients: usize, rest: Option<&[u8]>) -> Option<u32>
    requires { clients ≤ MAX_CLIENTS }
    ensures { result ≡ model.client_alone clients (parts_of 32 (option_copied rest.entry)) }
{
    let (word, behind) = split_once(rest?, b' ');
    if behind.is_some() {
        return None;
    }
    let number = number_of(word)?;
    if number == 0 || number > clients as u64 {
        return None;
    }
    Some(number as u32)
}

/// The event of this client that a word names, if it names one.
fn event_named(word: &[u8], client: u32) -> Option<Event>
    ensures { result ≡ event_named event_words word.now client }
{
    if word == b"link".as_slice() {
        return Some(Event::Link(client));
    }
    if word == b"elect".as_slice() {
        return Some(Event::Elect(client));
    }
    if word == b"build".as_slice() {
        return Some(Event::Build(client));
    }
    if word == b"log".as_slice() {
        return Some(Event::Log(client));
    }
    if word == b"fault".as_slice() {
        return Some(Event::Fault(client));
    }
    applied_event_named(word, client)
}

/// The event of this client that a word names, if it is one of those by which a group goes into the table and its
/// leader leaves, or one of `other_event_named`.
fn applied_event_named(word: &[u8], client: u32) -> Option<Event>
    ensures { result ≡ event_named (drop 5 event_words) word.now client }
{
    if word == b"launch".as_slice() {
        return Some(Event::Launch(client));
    }
    if word == b"insert".as_slice() {
        return Some(Event::Insert(client));
    }
    if word == b"finish".as_slice() {
        return Some(Event::Finish(client));
    }
    if word == b"publish".as_slice() {
        return Some(Event::Publish(client));
    }
    if word == b"exit".as_slice() {
        return Some(Event::Exit(client));
    }
    other_event_named(word, client)
}

/// The event of this client that a word names, if it is that of a follower that is done, that of a read, one that only
/// a pipelined path has, or one of `stall_event_named`.
fn other_event_named(word: &[u8], client: u32) -> Option<Event>
    ensures { result ≡ event_named (drop 10 event_words) word.now client }
{
    if word == b"complete".as_slice() {
        return Some(Event::Complete(client));
    }
    if word == b"read".as_slice() {
        return Some(Event::Read(client));
    }
    if word == b"boundary".as_slice() {
        return Some(Event::Boundary(client));
    }
    if word == b"second".as_slice() {
        return Some(Event::Second(client));
    }
    if word == b"next".as_slice() {
        return Some(Event::Next(client));
    }
    stall_event_named(word, client)
}

/// The event of this client that a word names, if it is one of a leader that stalls writes, or of one that reads the
/// log. A writer that leaves is told of one stop.
fn stall_event_named(word: &[u8], client: u32) -> Option<Event>
    ensures { result ≡ event_named (drop 15 event_words) word.now client }
{
    if word == b"stall".as_slice() {
        return Some(Event::Stall(client));
    }
    if word == b"leave".as_slice() {
        return Some(Event::Leave {
            client,
            stops: 1,
            delays: 0,
        });
    }
    if word == b"unstall".as_slice() {
        return Some(Event::Unstall(client));
    }
    if word == b"since".as_slice() {
        return Some(Event::Since(client));
    }
    None
}
