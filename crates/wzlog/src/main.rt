//! The program `wzlog COMMAND LOG [OPTIONS]`: the call over a file, the standard streams and the system's clock. It
//! opens the log for reading, takes no lock, and changes nothing.
#![tactic(auto)]

mod output;

use base_devices::{FileDisk, RealClock, Sink, StdSink};
use list_call::{Status, Watched, say, say_after, show_log};
use list_words::{Invocation, WordsError, read_words};
use output::Output;
use std::alloc::AllocError;
use std::cell::Cell;
use std::io::{self, ErrorKind, IsTerminal};
use std::process::ExitCode;
use std::{env, fs};

fn main(rt: HostRuntime) -> ExitCode {
    let mut errors = StdSink::new(rt.stderr());
    let words = match arguments(&rt) {
        Ok(words) => words,
        Err(error) if error.kind() == ErrorKind::OutOfMemory => return out_of_memory(&mut errors),
        Err(_) => {
            say(&mut errors, "the words of the call are no text");
            return ExitCode::from(Status::Words.code());
        }
    };
    match read_words(rt.alloc(), &words) {
        Ok(asked) => match show(&rt, asked, &mut errors) {
            Ok(status) => ExitCode::from(status.code()),
            Err(AllocError) => out_of_memory(&mut errors),
        },
        Err(why) => refuse(&rt, why, &mut errors),
    }
}

/// Shows what is asked for, and says what kept it from being shown, if something did.
fn show<E: Sink>(
    rt: &HostRuntime,
    asked: Invocation<'_>,
    errors: &mut E,
) -> Result<Status, AllocError> {
    let path = asked.log();
    let disk = FileDisk::to_read(rt, format!(in rt.alloc(); "{path}")?);
    let terminal = match may_say(rt, asked) {
        true => Some(StdSink::new(rt.stderr())),
        false => None,
    };
    let mut file = Watched::new(disk, RealClock::new(rt), terminal, len_of(rt, path));
    let is_closed = Cell::new(false);
    let mut sink = StdSink::new(Output::new(rt, &is_closed));
    let page = page(rt)?;
    let answer = show_log(rt.alloc(), asked, &mut file, &mut sink, errors);
    file.clear();
    say_after(answer, &page, &mut file, errors);
    match answer.status {
        Status::Disk => say(errors, why_not(rt, path)),
        // The usual end of `| head` needs no word.
        Status::Sink if is_closed.get() => {}
        Status::Sink => say(errors, "standard output failed"),
        Status::Memory => say(errors, "out of memory"),
        Status::Done | Status::Words | Status::Damage => {}
    }
    Ok(answer.status)
}

/// Whether it may be said how far reading is: on a terminal, if it isn't the one to which lines are written meanwhile.
fn may_say(rt: &HostRuntime, asked: Invocation<'_>) -> bool {
    let is_quiet = match asked {
        Invocation::List(words) => words.summary,
        Invocation::State(_) => true,
    };
    rt.stderr().is_terminal() && (is_quiet || !rt.stdout().is_terminal())
}

/// How many bytes the file has, or 0 if that isn't known.
fn len_of(rt: &HostRuntime, path: &str) -> u64 {
    match fs::metadata(rt, path) {
        Ok(metadata) => metadata.len(),
        Err(_) => 0,
    }
}

/// Where the page is that says more of an end: in the folder that WOLZENN_PAGES names, or in `docs`, if it is there.
/// Otherwise this is its name.
fn page(rt: &HostRuntime) -> Result<String, AllocError> {
    match env::var(rt, "WOLZENN_PAGES") {
        Ok(folder) if !folder.is_empty() => format!(in rt.alloc(); "{folder}/RECOVERY.md"),
        _ => String::from_str(
            rt.alloc(),
            match fs::metadata(rt, "docs/RECOVERY.md") {
                Ok(_) => "docs/RECOVERY.md",
                Err(_) => "RECOVERY",
            },
        ),
    }
}

/// Why the file can't be read, as far as that can be seen afterwards.
fn why_not(rt: &HostRuntime, path: &str) -> &'static str {
    match fs::metadata(rt, path) {
        Err(error) => match error.kind() {
            ErrorKind::NotFound => "there is no such file",
            ErrorKind::PermissionDenied => "a folder of the path may not be searched",
            _ => "the file can't be looked at",
        },
        Ok(metadata) if metadata.is_dir() =>
            "that is a folder; a log is a file in it, such as 000012.log",
        Ok(metadata) if !metadata.is_file() =>
            "that is no regular file: make one of what comes by a pipe",
        Ok(_) => match fs::open(rt, path) {
            Err(error) if error.kind() == ErrorKind::PermissionDenied => "the file may not be read",
            _ => "the disk failed, or the file has become shorter, while it was read",
        },
    }
}

/// Says why the words ask for nothing: clap's own sentences, or its help, which isn't a refusal. Only help goes to
/// standard output. If a sentence can't be said, that changes no status.
fn refuse<E: Sink>(rt: &HostRuntime, why: WordsError, errors: &mut E) -> ExitCode {
    match why {
        WordsError::Refused(error) => {
            let status = match error.print(rt) {
                _ if error.use_stderr() => Status::Words,
                Ok(()) => Status::Done,
                Err(_) => Status::Sink,
            };
            ExitCode::from(status.code())
        }
        WordsError::NoMode => {
            say(errors, "--mode is point, tail or absolute");
            ExitCode::from(Status::Words.code())
        }
        WordsError::NoMemory => out_of_memory(errors),
    }
}

fn out_of_memory<E: Sink>(errors: &mut E) -> ExitCode {
    say(errors, "out of memory");
    ExitCode::from(Status::Memory.code())
}

/// The words of the call: the program's name, and those after it.
fn arguments(rt: &HostRuntime) -> io::Result<Vec<String>> {
    let mut words = Vec::new(rt.alloc());
    for word in env::args(rt)? {
        words.push(word)?;
    }
    Ok(words)
}
