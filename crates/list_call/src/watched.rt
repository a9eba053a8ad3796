//! How far reading is, if it takes long.

ghost use Rattle.std.specs.Prelude.{◌≡◌};

use crate::sentences::{put, put_number};
use base_devices::{Clock, Failed, ReadAt, Sink};

/// After how many microseconds it is first said how far reading is.
const FIRST: u64 = 2_000_000;

/// How many microseconds come between that and the next time.
const AGAIN: u64 = 500_000;

/// A mebibyte.
const MIB: u64 = 1 << 20;

/// A file that is read, and a terminal on which it is said how far, as soon as it takes longer than two seconds. All of
/// it is the file's: what it holds, what it answers, and its count of faults. Nothing is said if no terminal is
/// given.
#[derive(Drop)]
pub struct Watched<R: Drop, C: Drop, E: Drop> {
    file: R,
    clock: C,
    terminal: Option<E>,
    /// How many bytes the file has.
    len: u64,
    /// When it is said next, if reading has begun.
    next: Option<u64>,
    is_said: bool,
}

impl<R: Drop, C: Drop, E: Drop> Watched<R, C, E> {
    /// The file, of which nothing was read yet.
    pub fn new(file: R, clock: C, terminal: Option<E>, len: u64) -> Self {
        Watched {
            file,
            clock,
            terminal,
            len,
            next: None,
            is_said: false,
        }
    }
}

impl<R: Drop, C: Clock + Drop, E: Sink + Drop> Watched<R, C, E> {
    /// Says that reading is at this place, if it is time to.
    fn look(&mut self, at: u64)
        ensures { self.new.file ≡ self.old.file }
    {
        if self.terminal.is_none() {
            return;
        }
        let now = self.clock.now();
        let next = self.next.unwrap_or(now.saturating_add(FIRST));
        self.next = Some(next);
        if now < next {
            return;
        }
        self.next = Some(now.saturating_add(AGAIN));
        self.is_said = true;
        if let Some(terminal) = &mut self.terminal {
            put(terminal, "\r\x1b[Kwzlog: ");
            put_number(terminal, at / MIB);
            put(terminal, " of ");
            put_number(terminal, self.len / MIB);
            put(terminal, " MiB are read\r");
        }
    }

    /// Takes back what was said, so that a sentence can follow.
    pub fn clear(&mut self) {
        if self.is_said {
            self.is_said = false;
            if let Some(terminal) = &mut self.terminal {
                put(terminal, "\r\x1b[K");
            }
        }
    }
}

impl<R: ReadAt + Drop, C: Clock + Drop, E: Sink + Drop> ReadAt for Watched<R, C, E> {
    ghost held = { λ w. R.held w.file };

    ghost failures = { λ w. R.failures w.file };

    ghost only_reads = { λ a b. R.only_reads a.file b.file };

    ghost reads_none = { λ w. R.reads_none w.file };

    ghost reads_on = { λ a b c first second. R.reads_on a.file b.file c.file first second };

    ghost reads_keep = { λ a b only. R.reads_keep a.file b.file only };

    ghost reads_count = { λ a b only. R.reads_count a.file b.file only };

    fn failure_count(&self) -> u64 {
        self.file.failure_count()
    }

    /// One read of the file, after a look at the clock.
    fn read_at(&mut self, at: u64, buf: &mut [u8]) -> Result<usize, Failed> {
        self.look(at);
        self.file.read_at(at, buf)
    }
}
