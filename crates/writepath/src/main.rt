//! The program `writepath LOGPATH COMMAND [OPTIONS]`: the top call over files, the standard streams and the system's
//! clock.
#![tactic(auto)]

ghost use Rattle.std.specs.Prelude.{◌≡◌, IfOk, vec_len};

use base_devices::{FileDisk, RealClock, StdSink, StdSource};
use program_call::{EndedMany, run_many};
use std::alloc::AllocError;
use std::env;
use std::io::{self, ErrorKind};
use std::process::ExitCode;

/// The exit status where there is no memory for the arguments or for the logs' paths.
const OUT_OF_MEMORY: u8 = 6;

/// How many logs there may be.
const LOGS: usize = 16;

fn main(rt: HostRuntime) -> ExitCode {
    let (path, words) = match arguments(&rt) {
        Ok(arguments) => arguments,
        Err(error) if error.kind() == ErrorKind::OutOfMemory => {
            return ExitCode::from(OUT_OF_MEMORY);
        }
        // Arguments that aren't text can't be lawful words.
        Err(_) => (String::new(rt.alloc()), Vec::new(rt.alloc())),
    };
    let mut source = StdSource::new(&rt);
    let mut sink = StdSink::new(&rt);
    let Ok(disks) = disks_for(&rt, path.as_str(), &words) else {
        return ExitCode::from(OUT_OF_MEMORY);
    };
    let clock = RealClock::new(&rt);
    let EndedMany { status, disks: _ } = run_many(
        &rt,
        rt.alloc(),
        &words,
        &mut source,
        disks,
        &mut sink,
        clock,
    );
    ExitCode::from(status)
}

/// The logs as disks: the file at the path, and those at the path with `.2` to `.16` after it. This touches none of
/// them.
fn disks_for<'a>(
    rt: &'a HostRuntime,
    path: &str,
    words: &[String],
) -> Result<Vec<FileDisk<&'a HostRuntime>>, AllocError>
    ensures { IfOk result (λ disks. vec_len disks ≡ LOGS) }
{
    let mut disks = Vec::with_capacity(rt.alloc(), LOGS)?;
    for before in 0..LOGS {
        let file = match before {
            0 => format!(in rt.alloc(); "{path}")?,
            _ => format!(in rt.alloc(); "{path}.{}", before + 1)?,
        };
        disks.push_reserved(disk_for(rt, file, words));
    }
    Ok(disks)
}

/// A log as a disk: for `recover` one that is only read, and else one that locks the file at its first call.
fn disk_for<'a>(rt: &'a HostRuntime, path: String, words: &[String]) -> FileDisk<&'a HostRuntime> {
    match words.get(1) {
        Some(command) if command.as_str() == "recover" => FileDisk::to_read(rt, path),
        _ => FileDisk::new(rt, path),
    }
}

/// The log's path, and the words of the call: the program's name, and all words after the path.
fn arguments(rt: &HostRuntime) -> io::Result<(String, Vec<String>)> {
    let mut path = String::new(rt.alloc());
    let mut words = Vec::new(rt.alloc());
    for (at, word) in env::args(rt)?.enumerate() {
        if at == 1 {
            path = word;
        } else {
            words.push(word)?;
        }
    }
    Ok((path, words))
}
