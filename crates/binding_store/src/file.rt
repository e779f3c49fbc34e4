//! The file of a store before a database is opened over it.
use crate::fault::StoreFault;
use std::alloc::Global;
use std::fs::{File, OpenOptions};
use std::io::{ErrorKind, Read, Write};
use std::os::unix::fs::OpenOptionsExt;
use std::{fs, io};

/// The form of a store, SQLite's user version: another one is refused.
const VERSION: u32 = 1;

/// How long the header of a database is.
const HEADER: usize = 100;

/// What each database begins with.
const MAGIC: &[u8] = b"SQLite format 3\0";

/// How long a page of a new file is.
const PAGE: usize = 4_096;

/// The first bytes of a database without a table, of which all others are 0 up to the end of its one page: pages of 4,096 bytes, a log
/// beside the file, schema format 4, UTF-8, the user version 1, and an empty leaf of the list of tables.
const BLANK: &[u8] =
    b"SQLite format 3\0\x10\0\x02\x02\0\x40\x20\x20\0\0\0\x01\0\0\0\x01\0\0\0\0\0\0\0\0\0\0\0\x01\0\0\0\x04\0\0\0\0\0\0\0\0\0\0\0\x01\0\0\0\x01\0\0\0\0\0\0\0\0\0\0\0\0\0\0\0\0\0\0\0\0\0\0\0\0\0\0\0\0\0\0\0\x01\0\x2e\x76\x88\x0d\0\0\0\0\x10\0";

/// The user version of a database that begins with this header; None where it is the header of none.
fn version_in(header: &[u8; HEADER]) -> Option<u32> {
    if !header.starts_with(MAGIC) {
        return None;
    }
    Some(u32::from_be_bytes([header[60], header[61], header[62], header[63]]))
}

/// The header of a file, if it has one.
fn read_header(file: &mut File) -> io::Result<Option<[u8; HEADER]>> {
    let mut header = [0; HEADER];
    match file.read_exact(&mut header) {
        Ok(()) => Ok(Some(header)),
        Err(error) if error.kind() == ErrorKind::UnexpectedEof => Ok(None),
        Err(error) => Err(error),
    }
}

/// Whether a file that may be read and written begins as a store does.
fn check_header(file: &mut File) -> Result<(), StoreFault> {
    let Some(header) = read_header(file)? else {
        return Err(StoreFault::NoDatabase);
    };
    match version_in(&header) {
        None => Err(StoreFault::NoDatabase),
        Some(VERSION) => Ok(()),
        Some(other) => Err(StoreFault::Version(other)),
    }
}

/// Writes a database without a table to a new file that its owner alone may read and write, up to the disk.
fn write_blank(rt: &HostRuntime, path: &str) -> io::Result<()> {
    let mut file = OpenOptions::new()
        .write(true)
        .create_new(true)
        .mode(0o600)
        .open(rt, path)?;
    file.write_all(BLANK)?;
    let zeros = [0; PAGE];
    file.write_all(zeros.get(BLANK.len()..).unwrap_or(&[]))?;
    file.sync_all()
}

/// Takes away the log of a file that is not there any more: it would be taken for that of the new one.
fn remove_log(rt: &HostRuntime, alloc: Global, path: &str) -> Result<(), StoreFault> {
    let log = format!(in alloc; "{path}-wal")?;
    match fs::remove_file(rt, log.as_str()) {
        Ok(()) => Ok(()),
        Err(error) if error.kind() == ErrorKind::NotFound => Ok(()),
        Err(error) => Err(StoreFault::File(error)),
    }
}

/// Makes the file of a store, whole or not at all: beside its place at first.
fn make(rt: &HostRuntime, alloc: Global, path: &str) -> Result<(), StoreFault> {
    remove_log(rt, alloc, path)?;
    let beside = format!(in alloc; "{path}.new")?;
    let _ = fs::remove_file(rt, beside.as_str());
    write_blank(rt, beside.as_str())?;
    fs::rename(rt, beside.as_str(), path)?;
    Ok(())
}

/// Makes the file of a store where there is none, and looks at it where there is one: it has to be a database of this form, and such that
/// it may be read and written.
pub(crate) fn make_or_check(rt: &HostRuntime, alloc: Global, path: &str) -> Result<(), StoreFault> {
    match OpenOptions::new().read(true).write(true).open(rt, path) {
        Ok(mut file) => check_header(&mut file),
        Err(error) if error.kind() == ErrorKind::NotFound => make(rt, alloc, path),
        Err(error) => Err(StoreFault::File(error)),
    }
}
