//! Calls of a disk as values, so that a test of them is a table.

use crate::checks::check;
use base_devices::{Disk, Failed};
use std::process::Abort;

/// A call of a disk.
#[derive(Clone, Copy)]
pub(crate) enum Call {
    Len,
    Read(u64),
    Append(&'static [u8]),
    Rewind,
    /// Asks for the length first, and fails where it is below this place.
    Cut(u64),
    Sync,
}

/// A call, and what it should answer.
pub(crate) type Row = (Call, Result<u64, Failed>);

/// Makes a call, and answers its number, or 0 where it has none. What is read goes into `buf`.
pub(crate) fn made<D: Disk>(disk: &mut D, call: Call, buf: &mut [u8]) -> Result<u64, Failed> {
    match call {
        Call::Len => disk.len(),
        Call::Read(at) => Ok(disk.read(at, buf)? as u64),
        Call::Append(piece) => {
            disk.append(piece)?;
            Ok(0)
        }
        Call::Rewind => {
            disk.rewind()?;
            Ok(0)
        }
        Call::Cut(at) => {
            if at > disk.len()? {
                return Err(Failed);
            }
            disk.cut(at)?;
            Ok(0)
        }
        Call::Sync => {
            disk.sync()?;
            Ok(0)
        }
    }
}

/// Makes one call after another, and compares what each answers.
pub(crate) fn check_calls<D: Disk>(rt: &impl Abort, disk: &mut D, rows: &[Row], buf: &mut [u8]) {
    for (row, (call, wanted)) in rows.iter().enumerate() {
        check(rt, row, &made(disk, *call, buf), wanted);
    }
}
