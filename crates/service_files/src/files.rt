//! The files of a proxy, as its threads reach them.
ghost use Rattle.std.specs.Prelude.{◌≤◌, ◌+◌, IfOk, length};

use crate::reading::read_up_to;
use crate::{control_file, journal};
use std::alloc::Global;
use std::fs::{File, Files};
use std::io::ErrorKind;
use std::net::Net;
use std::os::unix::net::UnixListener;
use std::{fs, io};

/// The files of a proxy. All its threads share this: it names no type of a file or a socket of its own, as `Files` and `Net` do.
pub trait ProxyFiles {
    /// The bytes of a regular file; of one that has more than `most` the first `most` + 1, by which a caller tells that it has more.
    ///
    /// # Errors
    ///
    /// What the system says, and want of memory; `InvalidInput` where there is no regular file, as a pipe, for which a read would wait.
    fn read_file(&self, alloc: Global, path: &str, most: usize) -> Result<Vec<u8>, io::Error>
        ensures bound { IfOk result (λ bytes. length bytes.items ≤ most + 1) };

    /// Whether the file to which each call is written can be written to; where there is none it is made. It waits for no reader of a
    /// pipe.
    ///
    /// # Errors
    ///
    /// What the system says, as where there is a folder, or the file's own folder is missing.
    fn open_journal(&self, path: &str) -> Result<(), io::Error>;

    /// Writes blocks behind what a file has; where there is none it is made. It is opened each time, so that it may be moved away at any
    /// time. They begin on a line of their own: a line feed goes before them where a regular file's last line has no end, and elsewhere
    /// where `torn` says so of what was written last. `torn` is set anew. A pipe without a reader is not waited for, and one whose reader
    /// pauses for a second at most.
    ///
    /// # Errors
    ///
    /// What the system says. Of a regular file what was written is taken back, unless it cannot be or somebody else wrote behind it; to
    /// another file a part may have been written.
    fn append_to_journal(
        &self,
        path: &str,
        blocks: &[u8],
        torn: &mut bool,
    ) -> Result<(), io::Error>;

    /// Listens at a file, to which the owner alone may connect from the moment at which it is there. A socket that was left there, so
    /// that nobody answers, is taken away first. Any other file stays.
    ///
    /// # Errors
    ///
    /// What the system says; `AddrInUse` where somebody answers at this socket, or there is another file.
    fn listen_at(&self, path: &str) -> Result<UnixListener, io::Error>;

    /// Takes a file away, if there is one and it can be.
    fn take_file_away(&self, path: &str);
}

impl<R: Files<File = File> + Net> ProxyFiles for R {
    fn read_file(&self, alloc: Global, path: &str, most: usize) -> Result<Vec<u8>, io::Error> {
        if !fs::metadata(self, path)?.is_file() {
            return Err(io::Error::from(ErrorKind::InvalidInput));
        }
        let mut file = File::open(self, path)?;
        read_up_to(alloc, &mut file, most.saturating_add(1))
    }

    fn open_journal(&self, path: &str) -> Result<(), io::Error> {
        journal::open(self, path)?;
        Ok(())
    }

    fn append_to_journal(
        &self,
        path: &str,
        blocks: &[u8],
        torn: &mut bool,
    ) -> Result<(), io::Error> {
        let mut file = journal::open(self, path)?;
        if file.metadata()?.is_file() {
            journal::append_to_regular(&mut file, blocks)
        } else {
            journal::append_to_other(&mut file, blocks, torn)
        }
    }

    fn listen_at(&self, path: &str) -> Result<UnixListener, io::Error> {
        control_file::take_stale_away(self, path)?;
        control_file::listen(self, path)
    }

    fn take_file_away(&self, path: &str) {
        let _ = fs::remove_file(self, path);
    }
}
