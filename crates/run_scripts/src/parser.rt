//! All lines of a script.
//!
//! A script is lines that end with a line feed; the last one may be without it. Empty lines and lines that begin with
//! `#` are passed over whole. The other lines are words of 1 to 1024 printing characters, with one space between them:
//!
//! - `client N` begins the section of client N: 1, then 2, and so on;
//! - `put K V`, `del K`, `sdel K` and `note T` add a value, a deletion, a single deletion and log data to its batch;
//! - `clear` empties the batch;
//! - `commit` writes the batch, and after it there may be `sync`, `nolog` and `noslow`, any of them, in this order;
//! - `get K` reads a key, `many K K ..` one key or more at one sequence, and `scan LO HI` the keys from LO on and
//!   below HI;
//! - `fput F K V`, `fdel F K`, `fsdel F K`, `fget F K`, `fmany F K F K ..` and `fscan F LO HI` are the same for keys of
//!   the family with the number F, which is below 2^32. The others are about the default family, whose number is 0;
//! - `updates S` reads the log's records from the sequence S on;
//! - `stop` and `slow R` take the write controller's stop token and its delay token, at R bytes a second, and `unstop`
//!   and `unslow` give them back.
//!
//! A number is decimal digits without a sign or a leading zero, and below 2^64.
//!
//! A script that [`parse_clients`] reads may have all of these lines, and one that
//! [`parse_schedule`](crate::parse_schedule) reads may have all but those of the tokens.

ghost use Rattle.std.specs.Prelude.{◌≡◌, ◌+◌, ◌≤◌, Ok, length, IfOk, IfErr, OnOk};
ghost use Rattle.model_base.specs.Script as model;
ghost use Rattle.model_base.specs.Script.{script_of, whole_grammar, lines_read};
ghost use Rattle.run_command_list.specs.Views.{command_of, HasShortWords};
ghost use Rattle.run_scripts.specs.Languages.{grammar_of, IsCommandOf, HasCommandsOf};
ghost use Rattle.run_scripts.specs.Scripts.{commands_of, IsFaultOf, FitsBatches, script_len, line_len};
ghost use Rattle.run_scripts.specs.ScriptLines.{Reads, said_added, line_added};

use crate::language::Language;
use crate::lines::{Line, LineError, is_passed_over, read_line};
use crate::script::{Script, ScriptError};
use crate::words::split_once;
use model_base::{MAX_CLIENTS, ScriptFault, TEXT_LIMIT};
use run_command_list::{CommandList, CommandView};
use std::alloc::Global;

/// Parses a script of 1 to 64 clients, which may have every line. The fault is that of the first line that has one,
/// and within a line the first kind in the order byte, word, form, client, clients. Two faults are of the whole text:
/// that it is too long comes before all others, and that it has no client comes after all others.
pub fn parse_clients(alloc: Global, text: &[u8]) -> Result<Script, ScriptError>
    // What is read is what the definition of a script says, in its whole grammar.
    ensures script { IfOk result (λ s. script_of whole_grammar text.now ≡ Ok (commands_of s)) }
    // A text is refused for its first fault only, with the fault's line and kind. The one other error is want of
    // memory.
    ensures fault { IfErr result (IsFaultOf (script_of whole_grammar text.now)) }
    ensures clients { IfOk result (λ s. (1 ≤ length s.clients.items) × (length s.clients.items ≤ MAX_CLIENTS)) }

    // All that a client adds fits into one batch, whatever the outcome of its commits.
    ensures fits { IfOk result FitsBatches }

    // The words of the commands are short.
    ensures commands { IfOk result (HasCommandsOf Language.Whole) }
{
    read_script(alloc, Language::Whole, text)
}

/// Reads a script in a language.
fn read_script(alloc: Global, language: Language, text: &[u8]) -> Result<Script, ScriptError>
    ensures script { IfOk result (λ s. script_of (grammar_of language) text.now ≡ Ok (commands_of s)) }
    ensures fault { IfErr result (IsFaultOf (script_of (grammar_of language) text.now)) }
    ensures clients { IfOk result
        (λ s. (1 ≤ length s.clients.items) × (length s.clients.items ≤ MAX_CLIENTS)) }
    ensures fits { IfOk result FitsBatches }
    ensures commands { IfOk result (HasCommandsOf language) }
{
    if text.len() > TEXT_LIMIT {
        return Err(ScriptError::Fault {
            line: 0,
            kind: ScriptFault::Long,
        });
    }
    let script = read_lines(alloc, language, text)?;
    if script.clients.is_empty() {
        return Err(ScriptError::Fault {
            line: 0,
            kind: ScriptFault::NoClient,
        });
    }
    Ok(script)
}

/// Reads all lines of a text, whatever its length.
fn read_lines(alloc: Global, language: Language, text: &[u8]) -> Result<Script, ScriptError>
    ensures script { IfOk result (λ s. lines_read (grammar_of language) text.now ≡ Ok (commands_of s)) }
    ensures fault { IfErr result (IsFaultOf (lines_read (grammar_of language) text.now)) }
    ensures few { IfOk result (λ s. length s.clients.items ≤ MAX_CLIENTS) }
    ensures small { IfOk result (λ s. script_len s ≤ length text.now + 1) }
    ensures commands { IfOk result (HasCommandsOf language) }
{
    let mut script = Script {
        clients: Vec::new(alloc),
    };
    let mut number: u64 = 0;
    let mut rest = Some(text);
    while let Some(lines) = rest {
        let (line, behind) = split_once(lines, b'\n');
        number += 1;
        if let Err(error) = add_line(alloc, language, &mut script, line) {
            return Err(error.at_line(number));
        }
        rest = behind;
    }
    Ok(script)
}

/// Reads one more line. After an error the script is not used.
fn add_line(
    alloc: Global,
    language: Language,
    script: &mut Script,
    line: &[u8],
) -> Result<(), LineError>
    ensures script { Reads (λ _. commands_of script.new)
        (line_added (grammar_of language) (commands_of script.old) line.now) result }
    ensures few { length script.old.clients.items ≤ MAX_CLIENTS
        → OnOk result (length script.new.clients.items ≤ MAX_CLIENTS) }
    ensures len { OnOk result
        (script_len script.new ≤ script_len script.old + length line.now + 1) }
    ensures commands { HasCommandsOf language script.old → OnOk result (HasCommandsOf language script.new) }
{
    if is_passed_over(line) {
        return Ok(());
    }
    add_said(alloc, language, script, line)
}

/// Reads one more line, which is not passed over. After an error the script is not used.
pub fn add_said(
    alloc: Global,
    language: Language,
    script: &mut Script,
    line: &[u8],
) -> Result<(), LineError>
    ensures script { Reads (λ _. commands_of script.new)
        (said_added (grammar_of language) (commands_of script.old) line.now) result }
    ensures few { length script.old.clients.items ≤ MAX_CLIENTS
        → OnOk result (length script.new.clients.items ≤ MAX_CLIENTS) }
    ensures len { OnOk result
        (script_len script.new ≤ script_len script.old + length line.now + 1) }
    ensures commands { HasCommandsOf language script.old → OnOk result (HasCommandsOf language script.new) }
{
    match read_line(alloc, language, line)? {
        Line::Section(number) => add_section(alloc, script, number),
        Line::Command(command) => add_command(script, command),
        Line::Many(keys) => {
            let keys = keys.keys();
            add_command(script, CommandView::Many { keys })
        }
    }
}

/// Begins the section of a client, after those of the others.
fn add_section(alloc: Global, script: &mut Script, number: u64) -> Result<(), LineError>
    ensures script { Reads (λ _. commands_of script.new)
        (model.with_section MAX_CLIENTS (commands_of script.old) number) result }
    ensures few { length script.old.clients.items ≤ MAX_CLIENTS
        → OnOk result (length script.new.clients.items ≤ MAX_CLIENTS) }
    ensures len { OnOk result (script_len script.new ≡ script_len script.old) }
    ensures commands { (language : Language) → HasCommandsOf language script.old
        → OnOk result (HasCommandsOf language script.new) }
{
    if number != script.clients.len() as u64 + 1 {
        return Err(LineError::Fault(ScriptFault::Client));
    }
    if number == u64::from(MAX_CLIENTS) + 1 {
        return Err(LineError::Fault(ScriptFault::Clients));
    }
    script.clients.push(CommandList::new(alloc))?;
    Ok(())
}

/// Adds a command to those of the last client.
fn add_command(script: &mut Script, command: CommandView<'_>) -> Result<(), LineError>
    requires { HasShortWords command }
    ensures script { Reads (λ _. commands_of script.new)
        (model.with_command (commands_of script.old) (command_of command.entry)) result }
    ensures few { OnOk result (length script.new.clients.items ≡ length script.old.clients.items) }
    ensures len { OnOk result (script_len script.new ≡ script_len script.old + line_len (command_of command.entry)) }
    ensures commands { (language : Language) → HasCommandsOf language script.old
        → IsCommandOf language (command_of command.entry) → OnOk result (HasCommandsOf language script.new) }
{
    let Some(commands) = script.clients.last_mut() else {
        return Err(LineError::Fault(ScriptFault::Client));
    };
    commands.push(command)?;
    Ok(())
}
