//! The file at which a proxy is spoken to.
ghost use Rattle.std.specs.Prelude.{◌≤◌, IfOk};

use crate::system::last_error;
use libc::net;
use std::fs::Files;
use std::io::ErrorKind;
use std::net::Net;
use std::os::fd::{AsFd, AsRawFd};
use std::os::unix::fs::FileTypeExt;
use std::os::unix::net::{SocketAddr, UnixListener};
use std::{fs, io};

/// Only the owner may connect to the control socket.
const OWNER_ALONE: u32 = 0o600;

/// As many connections may wait as the system allows.
const BACKLOG: i32 = -1;

/// How many bytes an address of a socket has in memory, and where the path begins in it.
const ADDRESS_SIZE: usize = 128;

const PATH_AT: usize = 2;

/// How many bytes of a path an address holds, with the zero that ends it.
const PATH_SIZE: usize = 108;

/// Whether a socket lies at this path.
fn has_socket<R: Files>(rt: &R, path: &str) -> bool {
    match fs::symlink_metadata(rt, path) {
        Ok(metadata) => metadata.file_type().is_socket(),
        Err(_) => false,
    }
}

/// The address of a socket at this path, as the system reads it, and its length.
fn address_of(path: &[u8]) -> io::Result<([u8; ADDRESS_SIZE], u32)>
    ensures fits { IfOk result (λ address. address.1 ≤ 128) }
{
    let mut address = [0u8; ADDRESS_SIZE];
    if path.len() >= PATH_SIZE {
        return Err(io::Error::from(ErrorKind::InvalidInput));
    }
    let end = PATH_AT + path.len();
    address[..PATH_AT].copy_from_slice(&(net::AF_UNIX as u16).to_ne_bytes());
    address[PATH_AT..end].copy_from_slice(path);
    Ok((address, end as u32 + 1))
}

/// Connects to the socket at this path, without waiting for room where many wait already.
fn connect<R: Net>(rt: &R, path: &str) -> io::Result<()> {
    let (address, len) = address_of(path.as_bytes())?;
    let socket = rt.unix_socket()?;
    let fd = socket.as_raw_fd();
    if os::set_nonblocking(fd, true) < 0 || unsafe { net::connect(fd, &address, len) } < 0 {
        return Err(last_error());
    }
    Ok(())
}

/// Takes a socket away at which nobody answers.
///
/// # Errors
///
/// `AddrInUse` where somebody does; what the system says where that cannot be told.
pub(crate) fn take_stale_away<R: Files + Net>(rt: &R, path: &str) -> io::Result<()> {
    if !has_socket(rt, path) {
        return Ok(());
    }
    match connect(rt, path) {
        Ok(()) => Err(io::Error::from(ErrorKind::AddrInUse)),
        Err(error) => match error.kind() {
            ErrorKind::ConnectionRefused => fs::remove_file(rt, path),
            _ => Err(error),
        },
    }
}

/// Listens at a file that is made. The system gives the file the mode of the socket that it is bound to, so that has it before; and nobody
/// can connect before the socket listens.
pub(crate) fn listen<R: Files + Net>(rt: &R, path: &str) -> io::Result<UnixListener> {
    let address = SocketAddr::from_pathname(path)?;
    let socket = rt.unix_socket()?;
    if libc::fchmod(socket.as_raw_fd(), OWNER_ALONE) < 0 {
        return Err(last_error());
    }
    rt.bind_unix(socket.as_fd(), &address)?;
    if net::listen(socket.as_raw_fd(), BACKLOG) < 0 {
        let error = last_error();
        let _ = fs::remove_file(rt, path);
        return Err(error);
    }
    Ok(UnixListener::from(socket))
}
