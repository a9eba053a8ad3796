//! A file as a disk, in cases that the program doesn't have: a sync before there is a file, an append of nothing, a
//! length and reads at other places after appends, a call after one that failed, and a disk to read that is written to.

use crate::calls::{Call, Row, check_calls};
use crate::checks::check;
use base_devices::{Disk, Failed, FileDisk};
use std::process::Abort;
use std::test::Fail;
use std::{env, fs, io, process};

// A name that no other process gives to a file.
fn own_name(rt: &HostRuntime, name: &str) -> io::Result<String> {
    let id = process::id(rt.process());
    Ok(format!(in rt.alloc(); "tests_devices-{id}-{name}")?)
}

// A path in the system's folder for temporary files, which no other process has.
fn path_of(rt: &HostRuntime, name: &str) -> io::Result<String> {
    let name = own_name(rt, name)?;
    let path = env::temp_dir(rt)?.join(rt.alloc(), name.as_str())?;
    Ok(String::from_str(rt.alloc(), path.as_str())?)
}

// What a file holds. The file is removed.
fn taken(rt: &HostRuntime, name: &str) -> io::Result<Vec<u8>> {
    let path = path_of(rt, name)?;
    let left = fs::read(rt, path.as_str())?;
    fs::remove_file(rt, path.as_str())?;
    Ok(left)
}

// Compares what a file holds, and removes the file.
fn check_taken(rt: &HostRuntime, abort: &impl Abort, name: &str, wanted: &[u8]) -> io::Result<()> {
    let left = taken(rt, name)?;
    check(abort, 0, &left.as_slice(), &wanted);
    Ok(())
}

// Calls of a disk whose file doesn't exist at first. The read makes none.
const FIRST: [Row; 8] = [
    (Call::Read(0), Err(Failed)),
    (Call::Sync, Ok(0)),
    (Call::Len, Ok(0)),
    (Call::Read(0), Ok(0)),
    (Call::Append(b"ab"), Ok(0)),
    (Call::Append(b""), Ok(0)),
    (Call::Append(b"cde"), Ok(0)),
    (Call::Sync, Ok(0)),
];

// Calls of a second disk, while the first one has the lock.
const LOCKED: [Row; 6] = [
    (Call::Len, Err(Failed)),
    (Call::Read(0), Err(Failed)),
    (Call::Append(b"f"), Err(Failed)),
    (Call::Rewind, Err(Failed)),
    (Call::Cut(0), Err(Failed)),
    (Call::Sync, Err(Failed)),
];

// Calls of a disk that only reads, at the same time. It asks for no lock, and changes nothing.
const READING: [Row; 7] = [
    (Call::Read(3), Ok(2)),
    (Call::Append(b""), Err(Failed)),
    (Call::Append(b"f"), Err(Failed)),
    (Call::Rewind, Err(Failed)),
    (Call::Cut(5), Err(Failed)),
    (Call::Sync, Err(Failed)),
    (Call::Len, Ok(5)),
];

// Calls of the second disk after that.
const SECOND: [Row; 6] = [
    (Call::Append(b"f"), Ok(0)),
    (Call::Len, Ok(6)),
    (Call::Read(0), Ok(4)),
    (Call::Read(3), Ok(3)),
    (Call::Read(6), Ok(0)),
    (Call::Read(u64::MAX), Ok(0)),
];

// The calls of two disks to write and one to read, on one file. The second one goes on once the first one is dropped.
fn check_disks<D: Disk + Drop>(rt: &impl Abort, mut disk: D, mut again: D, mut reader: D) {
    let mut buf = [0; 4];
    check_calls(rt, &mut disk, &FIRST, &mut buf);
    check_calls(rt, &mut again, &LOCKED, &mut buf);
    check_calls(rt, &mut reader, &READING, &mut buf);
    drop(disk);
    check_calls(rt, &mut again, &SECOND, &mut buf);
    check(rt, 0, &(buf, again.faults()), &(*b"defd", 6));
}

#[test]
fn file_is_a_disk(rt: HostRuntime) -> Result<(), Fail> {
    let path = path_of(&rt, "log")?;
    let disk = FileDisk::new(rt, path.clone()?);
    let again = FileDisk::new(rt, path.clone()?);
    check_disks(&rt, disk, again, FileDisk::to_read(rt, path));
    check_taken(&rt, &rt, "log", b"abcdef")?;
    Ok(())
}

// Calls on a file that doesn't exist. None of a disk to read makes it, nor does a first read of another one.
const NO_FILE: [Row; 3] = [
    (Call::Len, Ok(0)),
    (Call::Read(0), Err(Failed)),
    (Call::Append(b"a"), Err(Failed)),
];

const NOT_MADE: [Row; 1] = [(Call::Read(0), Err(Failed))];

// The calls after that: the file is made, and written again from its start, in part, whole and past its end, and cut to
// a part, to its length and to nothing.
const AGAIN: [Row; 24] = [
    (Call::Rewind, Ok(0)),
    (Call::Cut(0), Ok(0)),
    (Call::Append(b"abcdef"), Ok(0)),
    (Call::Rewind, Ok(0)),
    (Call::Append(b"xy"), Ok(0)),
    (Call::Len, Ok(6)),
    (Call::Sync, Ok(0)),
    (Call::Read(0), Ok(4)),
    (Call::Cut(4), Ok(0)),
    (Call::Append(b"z"), Ok(0)),
    (Call::Len, Ok(5)),
    (Call::Cut(5), Ok(0)),
    (Call::Rewind, Ok(0)),
    (Call::Append(b"12345"), Ok(0)),
    (Call::Len, Ok(5)),
    (Call::Rewind, Ok(0)),
    (Call::Append(b"wvutsr"), Ok(0)),
    (Call::Len, Ok(6)),
    (Call::Cut(0), Ok(0)),
    (Call::Len, Ok(0)),
    (Call::Append(b"ABCDE"), Ok(0)),
    (Call::Rewind, Ok(0)),
    (Call::Append(b"fg"), Ok(0)),
    (Call::Sync, Ok(0)),
];

// Calls of another disk on that file. Its place is the file's end at first.
const LATER: [Row; 5] = [
    (Call::Len, Ok(5)),
    (Call::Append(b"!"), Ok(0)),
    (Call::Cut(6), Ok(0)),
    (Call::Read(2), Ok(4)),
    (Call::Read(6), Ok(0)),
];

#[test]
fn file_is_written_again_and_cut(rt: HostRuntime) -> Result<(), Fail> {
    let path = path_of(&rt, "again")?;
    let mut buf = [0; 4];
    check_calls(
        &rt,
        &mut FileDisk::to_read(rt, path.clone()?),
        &NO_FILE,
        &mut buf,
    );
    let mut disk = FileDisk::new(rt, path.clone()?);
    check_calls(&rt, &mut disk, &NOT_MADE, &mut buf);
    assert!(&rt; taken(&rt, "again").is_err());
    check_calls(&rt, &mut disk, &AGAIN, &mut buf);
    // A cut makes no file longer.
    check(&rt, 0, &(disk.cut(6), disk.faults()), &(Err(Failed), 2));
    check(&rt, 1, &buf, b"xycd");
    drop(disk);
    check_calls(&rt, &mut FileDisk::new(rt, path), &LATER, &mut buf);
    check(&rt, 2, &buf, b"CDE!");
    check_taken(&rt, &rt, "again", b"fgCDE!")?;
    Ok(())
}

// Calls of a disk in a folder that doesn't exist.
const NOWHERE: [Row; 4] = [
    (Call::Len, Err(Failed)),
    (Call::Rewind, Err(Failed)),
    (Call::Append(b"a"), Err(Failed)),
    (Call::Sync, Err(Failed)),
];

#[test]
fn file_without_a_folder(rt: HostRuntime) -> Result<(), Fail> {
    let mut disk = FileDisk::new(rt, path_of(&rt, "folder/log")?);
    check_calls(&rt, &mut disk, &NOWHERE, &mut []);
    check(&rt, 0, &(disk.cut(0), disk.faults()), &(Err(Failed), 5));
    Ok(())
}

// Calls of a disk that only reads, before another program writes to the file, and after the file has become longer and
// shorter. It reads as far as the file went when it was last asked for its length. A file that has become shorter
// keeps its length there, so that a read of what is gone fails.
const BEFORE: [Row; 1] = [(Call::Len, Ok(3))];

const LONGER: [Row; 3] = [
    (Call::Read(1), Ok(2)),
    (Call::Len, Ok(5)),
    (Call::Read(1), Ok(4)),
];

const SHORTER: [Row; 2] = [(Call::Read(0), Err(Failed)), (Call::Len, Ok(5))];

// Writes a file as another program does.
fn write(rt: &HostRuntime, name: &str, bytes: &[u8]) -> io::Result<()> {
    fs::write(rt, path_of(rt, name)?.as_str(), bytes)
}

#[test]
fn file_that_changes_while_it_is_read(rt: HostRuntime) -> Result<(), Fail> {
    let mut buf = [0; 4];
    write(&rt, "changing", b"abc")?;
    let mut disk = FileDisk::to_read(rt, path_of(&rt, "changing")?);
    check_calls(&rt, &mut disk, &BEFORE, &mut buf);
    write(&rt, "changing", b"abcde")?;
    check_calls(&rt, &mut disk, &LONGER, &mut buf);
    write(&rt, "changing", b"a")?;
    check_calls(&rt, &mut disk, &SHORTER, &mut buf);
    check_taken(&rt, &rt, "changing", b"a")?;
    Ok(())
}
