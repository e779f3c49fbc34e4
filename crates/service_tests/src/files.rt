//! The files of a service: what is read, and the control socket.
use crate::holds::holds;
use service_files::ProxyFiles;
use std::alloc::Global;
use std::fs::Files;
use std::io::{ErrorKind, PipeReader, PipeWriter};
use std::os::fd::AsRawFd;
use std::os::unix::fs::PermissionsExt;
use std::os::unix::net::UnixListener;
use std::{fs, io};

/// A file in the folder in which the test runs.
const FILE: &str = "daemon_parts_test_file";

/// The file of a socket there.
const SOCKET: &str = "daemon_parts_test_socket";

/// How many bytes of a file are read, if at most so many are asked for and one more.
fn read_of<R: ProxyFiles>(rt: &R, alloc: Global, path: &str, most: usize) -> Option<usize> {
    match rt.read_file(alloc, path, most) {
        Ok(bytes) => Some(bytes.len()),
        Err(_) => None,
    }
}

/// Whether a pipe is refused, to which nobody writes.
fn refuses_a_pipe<R: ProxyFiles + Files>(rt: &R, alloc: Global) -> io::Result<bool> {
    let (reader, _writer): (PipeReader, PipeWriter) = rt.pipe()?;
    let fd = reader.as_raw_fd();
    let path = format!(in alloc; "/proc/self/fd/{fd}")?;
    Ok(read_of(rt, alloc, path.as_str(), 10).is_none())
}

#[test]
fn a_file_is_read_up_to_a_limit(rt: HostRuntime) {
    let alloc = rt.alloc();
    let written = fs::write(&rt, FILE, b"0123456789").is_ok();
    holds(&rt, written, "a file of ten bytes");
    for (most, count) in [(20, 10), (10, 10), (9, 10), (4, 5), (0, 1)] {
        let read = read_of(&rt, alloc, FILE, most);
        holds(&rt, read == Some(count), "the limit and one more");
    }
    let _ = fs::remove_file(&rt, FILE);
    let missed = read_of(&rt, alloc, FILE, 10).is_none();
    holds(&rt, missed, "no file");
    let folder = read_of(&rt, alloc, "/proc/self", 10).is_none();
    holds(&rt, folder, "a folder");
    let device = read_of(&rt, alloc, "/dev/zero", 10).is_none();
    holds(&rt, device, "a device");
    let pipe = refuses_a_pipe(&rt, alloc).unwrap_or(false);
    holds(&rt, pipe, "a pipe");
}

/// The mode of a file, without its kind.
fn mode_of<R: Files>(rt: &R, path: &str) -> u32 {
    match fs::symlink_metadata(rt, path) {
        Ok(metadata) => metadata.permissions().mode() & 0o777,
        Err(_) => 0,
    }
}

/// Why nobody can listen here, if nobody can.
fn refused<R: ProxyFiles>(rt: &R, path: &str) -> Option<ErrorKind> {
    match rt.listen_at(path) {
        Ok(_) => None,
        Err(error) => Some(error.kind()),
    }
}

/// Whether one listens, to whom the owner alone may connect, and no other one as long as this one does.
fn listens_alone<R: ProxyFiles + Files>(rt: &R) -> bool {
    let listener: UnixListener = match rt.listen_at(SOCKET) {
        Ok(listener) => listener,
        Err(_) => return false,
    };
    let mode = mode_of(rt, SOCKET);
    let second = refused(rt, SOCKET);
    let third = refused(rt, SOCKET);
    drop(listener);
    mode == 0o600 && second == Some(ErrorKind::AddrInUse) && third == second
}

#[test]
fn a_control_socket_is_of_one_proxy(rt: HostRuntime) {
    rt.take_file_away(SOCKET);
    holds(&rt, listens_alone(&rt), "the first one");
    holds(&rt, mode_of(&rt, SOCKET) == 0o600, "what it left");
    holds(&rt, listens_alone(&rt), "the next one");
    rt.take_file_away(SOCKET);
    holds(&rt, mode_of(&rt, SOCKET) == 0, "it is taken away");
    let written = fs::write(&rt, FILE, b"mine").is_ok();
    holds(&rt, written, "another file");
    let other = refused(&rt, FILE);
    holds(&rt, other == Some(ErrorKind::AddrInUse), "it is no socket");
    let kept = read_of(&rt, rt.alloc(), FILE, 10);
    holds(&rt, kept == Some(4), "it stays");
    rt.take_file_away(FILE);
    let missed = refused(&rt, "no_such_folder/socket");
    holds(&rt, missed == Some(ErrorKind::NotFound), "no folder");
}
