//! A file of the system, opened at its first call.

ghost use Rattle.std.specs.Prelude.{◌≡◌, ◌+◌, ◌^◌, ◌<◌, ◌≤◌, length, drop, true, false, IfOk, OnOk};

use std::fs::{File, OpenOptions};
use std::io::{self, ErrorKind};
use std::os::fd::AsRawFd;
use std::os::unix::fs::FileExt;
use std::path::Path;
use std::rt::Files;

/// The most bytes that a file may have.
const MAX_LEN: u64 = (1 << 63) - 1;

/// The number of standard error, the last of the standard streams.
const LAST_STREAM: i32 = 2;

/// What a file is opened for.
#[derive(Drop)]
pub(crate) enum Access {
    Read,
    Write,
}

/// A file of the system. It has `len` bytes; a failed append may have left more after them. The next append writes at
/// `place`.
#[derive(Drop)]
pub(crate) struct SystemFile<R: Drop> {
    runtime: R,
    path: String,
    access: Access,
    /// The open file. With the access `Write` it is locked.
    file: Option<File>,
    /// Whether its length was measured.
    measured: bool,
    /// Where the count of added bytes begins: the file's length when it was measured, or 0 once the file was rewound
    /// or cut.
    start: u64,
    place: u64,
    len: u64,
    /// Whether an append wrote to it, or tried to.
    appended: bool,
    /// Whether its entry in its folder is safe.
    entry_synced: bool,
    /// Whether a sync of its bytes failed.
    sync_failed: bool,
    ghost unmeasured: { measured ≡ false → len ≡ 0 },
    ghost counted: { start ≤ place },
    ghost placed: { place ≤ len },
    ghost small: { len < 2 ^ 63 },
}

impl<R: Files<File = File> + Drop> SystemFile<R> {
    ghost use Rattle.base_devices.specs.Disk.{GrowsBy};
    ghost use Rattle.base_devices.specs.FileDisk.{added_to};

    /// The file at this path. This touches nothing yet.
    pub(crate) fn new(runtime: R, path: String, access: Access) -> Self
        ensures { added_to result ≡ 0 }
    {
        SystemFile {
            runtime,
            path,
            access,
            file: None,
            measured: false,
            start: 0,
            place: 0,
            len: 0,
            appended: false,
            entry_synced: false,
            sync_failed: false,
        }
    }

    /// How many bytes the file has. One that is only read and isn't there has none.
    pub(crate) fn len(&mut self) -> io::Result<u64>
        ensures small { IfOk result (λ n. n < 2 ^ 63) }
        ensures adds_none { added_to self.new ≡ added_to self.old }
    {
        if let Err(error) = self.open(true) {
            return match self.access {
                Access::Read if error.kind() == ErrorKind::NotFound => Ok(0),
                _ => Err(error),
            };
        }
        match self.access {
            Access::Read => self.measure_growth(),
            Access::Write => Ok(self.len),
        }
    }

    /// How many bytes the open file has by now, since another program may append to it meanwhile. Reads go that far
    /// from then on. A file that was truncated keeps its length here, so that a read of what is gone fails.
    fn measure_growth(&mut self) -> io::Result<u64>
        requires measured { self.old.measured ≡ true }
        ensures small { IfOk result (λ n. n < 2 ^ 63) }
        ensures adds_none { added_to self.new ≡ added_to self.old }
    {
        let len = len_of(self.opened()?)?;
        self.len = self.len.max(len);
        Ok(self.len)
    }

    /// Copies the content from a place on to the start of the buffer. It makes no file.
    pub(crate) fn read(&mut self, at: u64, buf: &mut [u8]) -> io::Result<usize>
        ensures at_most { IfOk result (λ n. n ≤ length buf.new) }
        ensures rest { IfOk result (λ n. drop n buf.new ≡ drop n buf.old) }
        ensures small { IfOk result (λ n. 0 < n → at + n < 2 ^ 63) }
        ensures adds_none { added_to self.new ≡ added_to self.old }
    {
        self.open(false)?;
        let rest = self.len.saturating_sub(at);
        let n = rest.min(buf.len() as u64) as usize;
        self.opened()?.read_exact_at(&mut buf[..n], at)?;
        Ok(n)
    }

    /// Writes all of the piece at the place, and moves the place to the piece's end.
    pub(crate) fn append(&mut self, piece: &[u8]) -> io::Result<()>
        ensures added { GrowsBy (added_to self.old) (added_to self.new) (length piece.now) result }
    {
        self.open_to_change()?;
        let more = piece.len() as u64;
        if more > MAX_LEN - self.place {
            return Err(io::Error::from(ErrorKind::FileTooLarge));
        }
        self.appended = true;
        self.opened()?.write_all_at(piece, self.place)?;
        self.place += more;
        self.len = self.len.max(self.place);
        Ok(())
    }

    /// Sets the place to the start.
    pub(crate) fn rewind(&mut self) -> io::Result<()>
        ensures counted { OnOk result (added_to self.new ≡ 0) }
    {
        self.open_to_change()?;
        self.start = 0;
        self.place = 0;
        Ok(())
    }

    /// Cuts the file to its first `at` bytes, and sets the place to their end. It is an error if the file has fewer
    /// bytes. What a failed append left after the content is cut off too.
    pub(crate) fn cut(&mut self, at: u64) -> io::Result<()>
        ensures counted { OnOk result (added_to self.new ≡ at) }
    {
        self.open_to_change()?;
        if at > self.len {
            return Err(io::Error::from(ErrorKind::InvalidInput));
        }
        self.opened()?.set_len(at)?;
        self.start = 0;
        self.place = at;
        self.len = at;
        Ok(())
    }

    /// Makes the content safe, and also the entry in the folder, if it isn't safe yet.
    pub(crate) fn sync(&mut self) -> io::Result<()>
        ensures adds_none { added_to self.new ≡ added_to self.old }
    {
        self.open_to_change()?;
        if self.sync_failed {
            return Err(io::Error::from(ErrorKind::Other));
        }
        let synced = self.opened()?.sync_data();
        self.sync_failed = synced.is_err();
        synced?;
        self.sync_entry()
    }

    /// Makes the entry in the folder safe, if it isn't yet. If the folder may not be read nothing can make it safe.
    /// That is an error only after an append: without one there is nothing new that needs the entry. The next call
    /// tries again.
    fn sync_entry(&mut self) -> io::Result<()>
        ensures adds_none { added_to self.new ≡ added_to self.old }
    {
        if self.entry_synced {
            return Ok(());
        }
        match self.open_folder() {
            Err(error) if error.kind() == ErrorKind::PermissionDenied && !self.appended => Ok(()),
            folder => {
                folder?.sync_all()?;
                self.entry_synced = true;
                Ok(())
            }
        }
    }

    /// Opens the file to change it, if it isn't open yet, and makes it if there is none. It is an error if the access
    /// is `Read`.
    fn open_to_change(&mut self) -> io::Result<()>
        ensures ready { OnOk result (self.new.measured ≡ true) }
        ensures adds_none { added_to self.new ≡ added_to self.old }
    {
        match self.access {
            Access::Read => Err(io::Error::from(ErrorKind::PermissionDenied)),
            Access::Write => self.open(true),
        }
    }

    /// Opens the file, if it isn't open yet, and finds out its length. If `makes` and the access is `Write`, it makes
    /// the file if there is none.
    fn open(&mut self, makes: bool) -> io::Result<()>
        ensures ready { OnOk result (self.new.measured ≡ true) }
        ensures adds_none { added_to self.new ≡ added_to self.old }
    {
        if self.measured {
            return Ok(());
        }
        let file = self.open_as_asked(makes)?;
        let len = len_of(&file)?;
        self.file = Some(file);
        self.measured = true;
        self.start = len;
        self.place = len;
        self.len = len;
        Ok(())
    }

    /// Opens the file as its access says. With `Write` the file is locked from then on: no other program that asks for
    /// the lock gets it.
    fn open_as_asked(&self, makes: bool) -> io::Result<File> {
        match self.access {
            Access::Read => self.open_with(OpenOptions::new().read(true)),
            Access::Write => {
                let file = self.open_with(OpenOptions::new().read(true).write(true).create(makes))?;
                file.try_lock()?;
                Ok(file)
            }
        }
    }

    /// Opens the file. If the path leads to something that is no regular file, it isn't opened, since opening it may
    /// wait for another program. If the caller has closed a standard stream, the system may give the stream's number
    /// to the file, and what is meant for the stream would get into the file. Then the file takes a higher number.
    fn open_with(&self, options: &OpenOptions) -> io::Result<File> {
        match self.runtime.metadata(self.path.as_str()) {
            Ok(found) if !found.is_file() => return Err(no_file()),
            _ => {}
        }
        let file = options.open(&self.runtime, self.path.as_str())?;
        if file.as_raw_fd() > LAST_STREAM {
            Ok(file)
        } else {
            file.try_clone()
        }
    }

    /// The open file.
    fn opened(&self) -> io::Result<&File> {
        self.file
            .as_ref()
            .ok_or(io::Error::from(ErrorKind::NotFound))
    }

    /// Opens the folder that the file lies in. If the path is a link, that is the folder of the file that the link
    /// leads to. Finding it takes memory, and this fails if there is none.
    fn open_folder(&self) -> io::Result<File> {
        let path = self.path.as_str();
        if !self.runtime.symlink_metadata(path)?.is_symlink() {
            return File::open(&self.runtime, folder_of(path));
        }
        let whole = self.runtime.canonicalize(*self.path.allocator(), path)?;
        File::open(&self.runtime, folder_of(whole.as_str()))
    }
}

/// The folder of a path. A path without one is its own folder: the root, or the empty path, at which there is nothing.
fn folder_of(path: &str) -> &str {
    match Path::new(path).parent() {
        Some(folder) if folder.as_str() == "" => ".",
        Some(folder) => folder.as_str(),
        None => path,
    }
}

/// How many bytes an open file has. It is an error if it is no regular file.
fn len_of(file: &File) -> io::Result<u64>
    ensures { IfOk result (λ n. n < 2 ^ 63) }
{
    let found = file.metadata()?;
    if !found.is_file() {
        return Err(no_file());
    }
    if found.len() > MAX_LEN {
        return Err(io::Error::from(ErrorKind::FileTooLarge));
    }
    Ok(found.len())
}

/// The error for a path that leads to a folder, a pipe, a socket or a device.
fn no_file() -> io::Error {
    io::Error::from(ErrorKind::InvalidInput)
}
