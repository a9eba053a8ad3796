//! Reads the script from its source.

ghost use Rattle.std.specs.Prelude.{◌≡◌, ◌+◌, ◌-◌, ◌≤◌, ◌<◌, ℕ, [], length, vec_len, Some, None, IfOk, IfErr, OnOk, IfSome};
ghost use Rattle.program_call.specs.Reading.{HasRead, IsReadError, HasScript, IsScriptError, HasSchedule, IsScheduleError, CountStays};

use base_devices::Source;
use model_base::{ScriptFault, TEXT_LIMIT};
use run_scripts::{Schedule, Script, ScriptError, parse_clients, parse_schedule};
use std::alloc::Global;

/// The most bytes that one call of the source asks for.
const PIECE: usize = 16_384;

/// Why no script was read.
#[derive(Clone, Copy)]
pub enum ReadError {
    /// The source failed; `count` is its count of faults.
    Fault { count: u64 },
    /// The text is not a script: its first fault, and the number of its line, or 0 for the whole text.
    Script { line: u64, kind: ScriptFault },
    NoMemory,
}

/// Reads a text to its end, or to one byte past the limit of a script.
fn read_text<S: Source>(alloc: Global, source: &mut S) -> Result<Vec<u8>, ReadError>
    ensures text { IfOk result (λ text. HasRead (S.left source.old) (S.left source.new) text.items) }
    ensures error { IfErr result (IsReadError (S.faults source.old) (S.faults source.new)) }
    ensures later { S.faults source.old ≤ S.faults source.new }
    ensures worked { OnOk result (S.faults source.new ≡ S.faults source.old) }
    ensures counted { IfErr result (CountStays (S.faults source.old) (S.faults source.new)) }
{
    let mut text = Vec::new(alloc);
    let mut piece = [0; PIECE];
    // The text is what was read so far, at most one byte past the limit.
    while text.len() <= TEXT_LIMIT {
        let room = (TEXT_LIMIT + 1 - text.len()).min(PIECE);
        let Ok(n) = source.read(&mut piece[..room]) else {
            return Err(ReadError::Fault {
                count: source.faults(),
            });
        };
        if n == 0 {
            return Ok(text);
        }
        if text.extend_from_slice(&piece[..n]).is_err() {
            return Err(ReadError::NoMemory);
        }
    }
    Ok(text)
}

/// Reads a script of 1 to 64 clients.
pub fn read_script<S: Source>(alloc: Global, source: &mut S) -> Result<Script, ReadError>
    ensures script { IfOk result (HasScript (S.left source.old) (S.left source.new)) }
    ensures error { IfErr result (IsScriptError (S.left source.old) (S.faults source.old) (S.faults source.new)) }
    ensures later { S.faults source.old ≤ S.faults source.new }
    ensures worked { OnOk result (S.faults source.new ≡ S.faults source.old) }
    ensures counted { IfErr result (CountStays (S.faults source.old) (S.faults source.new)) }
{
    let text = read_text(alloc, source)?;
    match parse_clients(alloc, &text) {
        Ok(script) => Ok(script),
        Err(ScriptError::Fault { line, kind }) => Err(ReadError::Script { line, kind }),
        Err(ScriptError::NoMemory) => Err(ReadError::NoMemory),
    }
}

/// Reads a script and its schedule.
pub fn read_schedule<S: Source>(alloc: Global, source: &mut S) -> Result<Schedule, ReadError>
    ensures schedule { IfOk result (HasSchedule (S.left source.old) (S.left source.new)) }
    ensures error { IfErr result (IsScheduleError (S.left source.old) (S.faults source.old) (S.faults source.new)) }
    ensures later { S.faults source.old ≤ S.faults source.new }
    ensures worked { OnOk result (S.faults source.new ≡ S.faults source.old) }
    ensures counted { IfErr result (CountStays (S.faults source.old) (S.faults source.new)) }
{
    let text = read_text(alloc, source)?;
    match parse_schedule(alloc, &text) {
        Ok(schedule) => Ok(schedule),
        Err(ScriptError::Fault { line: at, kind }) => Err(ReadError::Script { line: at, kind }),
        Err(ScriptError::NoMemory) => Err(ReadError::NoMemory),
    }
}
