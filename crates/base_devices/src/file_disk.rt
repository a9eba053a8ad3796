//! A file as a disk.

ghost use Rattle.std.specs.Prelude.{◌≡◌, MatchResult, IsErr};
ghost use Rattle.base_devices.specs.Faults.{HasCause};

use crate::failed::count_fault;
use crate::system_file::{Access, SystemFile};
use crate::{Disk, Failed};
use std::fs::File;
use std::io;
use std::rt::Files;

/// A file of the system as a disk. It tells nothing of its content. Each error of the system is a fault.
///
/// Making one touches nothing. The first call opens the file, finds out its length and keeps count of it from then on.
/// If one of this can't be done the call fails, and the next call tries again. Each call fails if the path is that of
/// a folder, a pipe, a socket or a device, or of nothing where no file can be made; none of them waits there for
/// another program.
///
/// A disk that [`FileDisk::new`] makes relies on being the only writer of the file. Its first call opens the file for
/// reading and writing, and makes it if there is none; only `read` makes none, and fails there. Before it looks at the
/// length or reads a byte it takes the exclusive lock of `flock`, which it keeps until it is dropped. It fails if
/// another one has the lock. So the calls of a second such disk on the file fail until the first one is dropped, and
/// then it finds all that the first one did. A program that doesn't ask for the lock isn't kept out.
///
/// A disk that [`FileDisk::to_read`] makes opens the file for reading, without a lock, and makes none. Where there is
/// none, its length is 0, and a read fails. It may read while another program writes: it keeps to the length that the
/// file had at its first call, or at the last call of `len`, which measures it anew. A read fails where the file has
/// become too short for that. `append`, `rewind`, `cut` and `sync` fail, and do nothing.
///
/// An append writes at the place, over the bytes there, also those that a failed append may have left. It does so in
/// one call of the system, unless that call takes only a part. `cut` is the system's `ftruncate`, and fails if the
/// file has fewer bytes.
///
/// `sync` is the system's `fdatasync`: it makes the file's bytes and its length safe, also the length that a cut left;
/// before it a crash may bring back what was cut off. The first sync also syncs the folder that the file lies in, since
/// the file's entry there may be new. If the path is a link, this is the folder of the file, not of the link. If that
/// folder may not be read, nothing can make the entry safe. Then a sync fails as soon as this disk has appended
/// something, or tried to; before that the sync of the bytes is enough, and the next sync tries again. Once a sync of
/// the bytes has failed, each later one fails too: the system may have dropped what it couldn't write, and then a sync
/// that works shows nothing.
///
/// The file never gets the number of a standard stream, also where the caller has closed one: so what is meant for the
/// stream can't get into the file.
#[derive(Drop)]
pub struct FileDisk<R: Drop> {
    file: SystemFile<R>,
    faults: u64,
}

impl<R: Files<File = File> + Drop> FileDisk<R> {
    ghost use Rattle.base_devices.specs.FileDisk.{file_added, file_faults};

    /// The file at this path as a disk that is read and written. This touches nothing yet.
    pub fn new(runtime: R, path: String) -> Self
        ensures added { file_added result ≡ 0 }
        ensures faults { file_faults result ≡ 0 }
    {
        FileDisk {
            file: SystemFile::new(runtime, path, Access::Write),
            faults: 0,
        }
    }

    /// The file at this path as a disk that is only read. This touches nothing yet.
    pub fn to_read(runtime: R, path: String) -> Self
        ensures added { file_added result ≡ 0 }
        ensures faults { file_faults result ≡ 0 }
    {
        FileDisk {
            file: SystemFile::new(runtime, path, Access::Read),
            faults: 0,
        }
    }

    /// Counts a fault if a call of the file failed.
    fn answer<T: Drop>(&mut self, done: io::Result<T>) -> Result<T, Failed>
        ensures answer { MatchResult done (λ answer. result ≡ Ok answer) (λ _. IsErr result) }
        ensures added { file_added self.new ≡ file_added self.old }
        ensures cause { HasCause (file_faults self.old) (file_faults self.new) result }
    {
        match done {
            Ok(answer) => Ok(answer),
            Err(_) => Err(count_fault(&mut self.faults)),
        }
    }
}

impl<R: Files<File = File> + Drop> Disk for FileDisk<R> {
    ghost use Rattle.std.specs.Prelude.{None, ⊤};
    ghost use Rattle.base_devices.specs.FileDisk.{file_added, file_faults, file_added_is_small};

    ghost told = { λ _. None };

    ghost added = { file_added };

    // It tells nothing of crashes, so a crash might have left anything.
    ghost moment = { λ _. 0 };

    ghost from = { λ _. 0 };

    ghost since = { λ _ _ _. ⊤ };

    ghost faults = { file_faults };

    ghost is_disk = { λ _. tt };

    ghost added_small = { file_added_is_small };

    ghost counts_now = { λ _ _ _ _ _. tt };

    ghost only_now = { λ _ _ _ _. tt };

    fn faults(&self) -> u64 {
        self.faults
    }

    fn len(&mut self) -> Result<u64, Failed> {
        let done = self.file.len();
        self.answer(done)
    }

    fn read(&mut self, at: u64, buf: &mut [u8]) -> Result<usize, Failed> {
        let done = self.file.read(at, buf);
        self.answer(done)
    }

    fn append(&mut self, piece: &[u8]) -> Result<(), Failed> {
        let done = self.file.append(piece);
        self.answer(done)
    }

    fn rewind(&mut self) -> Result<(), Failed> {
        let done = self.file.rewind();
        self.answer(done)
    }

    fn cut(&mut self, at: u64) -> Result<(), Failed> {
        let done = self.file.cut(at);
        self.answer(done)
    }

    fn sync(&mut self) -> Result<(), Failed> {
        let done = self.file.sync();
        self.answer(done)
    }
}
