//! The file to which each call is written at its end.
use crate::system::last_error;
use libc::net;
use libc::types::pollfd;
use std::fs::{File, Files, OpenOptions};
use std::io;
use std::io::{ErrorKind, Write};
use std::os::fd::AsRawFd;
use std::os::unix::fs::{FileExt, FileTypeExt};

/// How long one wait for room in a pipe is, in milliseconds.
const ONE_WAIT: i32 = 50;

/// How often room is waited for while blocks are written: a second in all.
const MOST_WAITS: usize = 20;

/// Opens the file, and makes it where there is none. A pipe with a name is opened for reading, too, so that this waits for no reader, and
/// then for writing alone: what is written while nobody else reads it would be lost, and so is refused.
pub(crate) fn open<R: Files<File = File>>(rt: &R, path: &str) -> io::Result<File> {
    let mut options = OpenOptions::new();
    options.read(true).append(true).create(true);
    let file = options.open(rt, path)?;
    if !file.metadata()?.file_type().is_fifo() {
        return Ok(file);
    }
    let mut options = OpenOptions::new();
    options.append(true);
    let alone = options.open(rt, path)?;
    drop(file);
    Ok(alone)
}

/// Waits until there is room in a pipe, or nobody reads it, for a moment at most.
fn wait_for_room(file: &File) {
    let mut asked = [pollfd {
        fd: file.as_raw_fd(),
        events: net::POLLOUT,
        revents: 0,
    }];
    let _ = net::poll(&mut asked, ONE_WAIT);
}

/// Writes bytes, and counts those that were written. Where a pipe has no room it is waited for, for a second in all.
fn write_all(file: &mut File, bytes: &[u8], written: &mut u64) -> io::Result<()> {
    let mut rest = bytes;
    let mut waits = 0;
    for _ in 0..=bytes.len().saturating_add(MOST_WAITS) {
        if rest.is_empty() {
            return Ok(());
        }
        match file.write(rest) {
            Ok(0) => return Err(io::Error::from(ErrorKind::WriteZero)),
            Ok(count) => {
                *written = written.saturating_add(count as u64);
                rest = rest.get(count..).unwrap_or(b"");
            }
            Err(error) => match error.kind() {
                ErrorKind::WouldBlock | ErrorKind::Interrupted if waits < MOST_WAITS => {
                    waits += 1;
                    wait_for_room(file);
                }
                _ => return Err(error),
            },
        }
    }
    Err(io::Error::from(ErrorKind::TimedOut))
}

/// Whether the last of so many bytes of a file is no line feed. A file that is not read counts as if it were none.
fn is_torn(file: &File, len: u64) -> bool {
    let mut last = [0u8; 1];
    match len.checked_sub(1) {
        Some(at) => !(matches!(file.read_at(&mut last, at), Ok(1)) && last[0] == b'\n'),
        None => false,
    }
}

/// What goes before blocks behind what was written last.
fn front_of(torn: bool) -> &'static [u8] {
    if torn { b"\n" } else { b"" }
}

/// Cuts a file back to the length that it had before so many bytes were written, unless somebody else wrote behind them.
fn take_back(file: &File, before: u64, written: u64) {
    if let Ok(metadata) = file.metadata() {
        if before.checked_add(written) == Some(metadata.len()) {
            let _ = file.set_len(before);
        }
    }
}

/// Writes blocks behind what a regular file has, on a line of their own, or takes back what was written of them.
pub(crate) fn append_to_regular(file: &mut File, blocks: &[u8]) -> io::Result<()> {
    let before = file.metadata()?.len();
    let mut written = 0;
    let front = front_of(is_torn(file, before));
    let mut outcome = write_all(file, front, &mut written);
    if outcome.is_ok() {
        outcome = write_all(file, blocks, &mut written);
    }
    if outcome.is_err() {
        take_back(file, before, written);
    }
    outcome
}

/// Writes blocks to a file that is none of the disk's, on a line of their own. `torn` says whether what was written last has no line feed
/// at its end.
pub(crate) fn append_to_other(file: &mut File, blocks: &[u8], torn: &mut bool) -> io::Result<()> {
    if os::set_nonblocking(file.as_raw_fd(), true) < 0 {
        return Err(last_error());
    }
    let mut written = 0;
    write_all(file, front_of(*torn), &mut written)?;
    if written > 0 {
        *torn = false;
    }
    written = 0;
    let outcome = write_all(file, blocks, &mut written);
    if written > 0 {
        *torn = ends_in_a_line(blocks, written);
    }
    outcome
}

/// Whether the first so many bytes of blocks end within a line.
fn ends_in_a_line(blocks: &[u8], count: u64) -> bool {
    let part = match usize::try_from(count) {
        Ok(count) => blocks.get(..count).unwrap_or(blocks),
        Err(_) => blocks,
    };
    !part.ends_with(b"\n")
}
