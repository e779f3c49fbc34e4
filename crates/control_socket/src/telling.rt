//! The other end of a control socket: who tells a program what to do.
ghost use Rattle.std.specs.Prelude.{◌<◌, IfSome, length};

use libc::net;
use std::io;
use std::io::{ErrorKind, Read, Write};
use std::net::{Net, Shutdown};
use std::os::fd::AsRawFd;
use std::os::unix::net::UnixStream;
use std::time::{Clock, Duration, Instant};

/// Where the path stands in an address of a Unix socket, behind the family.
const PATH_AT: usize = 2;

/// How many bytes a path has at most there, with the zero that ends it.
const MOST_PATH: usize = 108;

/// The address of a Unix socket with this path, as the system takes it: the family, the path and a zero. None where it has no room for the
/// path, or the path has a zero itself.
fn address_of(path: &str) -> Option<[u8; net::_SS_SIZE]>
    ensures { IfSome result (λ _. length path.now < MOST_PATH) }
{
    let path = path.as_bytes();
    if path.len() >= MOST_PATH || path.contains(&0) {
        return None;
    }
    let mut address = [0u8; net::_SS_SIZE];
    address[..PATH_AT].copy_from_slice(&(net::AF_UNIX as u16).to_ne_bytes());
    address[PATH_AT..PATH_AT + path.len()].copy_from_slice(path);
    Some(address)
}

/// When a telling has to be over.
#[derive(Clone, Copy)]
struct Limit {
    began: Instant,
    limit: Duration,
}

impl Limit {
    /// What is left of the time.
    ///
    /// # Errors
    ///
    /// `TimedOut` where nothing is, and what the system says where the clock cannot be read.
    fn left<R: Clock>(&self, rt: &R) -> io::Result<Duration> {
        let left = self.limit.saturating_sub(self.began.elapsed(rt)?);
        if left.is_zero() {
            return Err(io::Error::from(ErrorKind::TimedOut));
        }
        Ok(left)
    }
}

/// What a call of the system ended with, by its limit of time: the system says that it would have to wait.
fn timed<T>(ended: io::Result<T>) -> io::Result<T> {
    match ended {
        Err(error) if error.kind() == ErrorKind::WouldBlock => {
            Err(io::Error::from(ErrorKind::TimedOut))
        }
        ended => ended,
    }
}

/// Connects within the time: a listener that takes nobody in would else hold who connects once its queue is full.
fn connect<R: Net + Clock>(rt: &R, path: &str, limit: Limit) -> io::Result<UnixStream> {
    let Some(address) = address_of(path) else {
        return Err(io::Error::from(ErrorKind::InvalidInput));
    };
    let stream = UnixStream::from(rt.unix_socket()?);
    stream.set_write_timeout(Some(limit.left(rt)?))?;
    let length = (PATH_AT + path.len() + 1) as u32;
    if unsafe { net::connect(stream.as_raw_fd(), &address, length) } == 0 {
        return Ok(stream);
    }
    timed(Err(io::Error::from_raw_os_error(os::errno())))
}

/// Writes all of this within the time.
fn write_within<R: Clock>(
    rt: &R,
    stream: &mut UnixStream,
    bytes: &[u8],
    limit: Limit,
) -> io::Result<()> {
    stream.set_write_timeout(Some(limit.left(rt)?))?;
    timed(stream.write_all(bytes))
}

/// Reads once within the time, and says whether the other end has closed.
fn read_within<R: Clock>(
    rt: &R,
    stream: &mut UnixStream,
    answer: &mut Vec<u8>,
    limit: Limit,
) -> io::Result<bool> {
    let mut buffer = [0u8; 4_096];
    stream.set_read_timeout(Some(limit.left(rt)?))?;
    let count = match stream.read(&mut buffer) {
        Ok(count) => count,
        Err(error) if error.kind() == ErrorKind::Interrupted => return Ok(false),
        Err(error) => return timed(Err(error)),
    };
    if let Some(bytes) = buffer.get(..count) {
        answer.extend_from_slice(bytes)?;
    }
    Ok(count == 0)
}

/// Writes a line to the control socket at this path, and appends all that comes back, until the other end closes, to `answer`. All of it
/// together takes no longer than `limit`, but for the last call of the system, which its clock may let go a few milliseconds later. A
/// proxy that had no memory for its answer closes without one: then nothing is appended.
///
/// # Errors
///
/// `TimedOut` where the time is over; what came until then is in `answer`. What the system says where the connection, the write or a read
/// fails, and want of memory for the answer.
pub fn tell<R: Net + Clock>(
    rt: &R,
    path: &str,
    line: &[u8],
    limit: Duration,
    answer: &mut Vec<u8>,
) -> Result<(), io::Error> {
    let began = Instant::now(rt)?;
    let limit = Limit { began, limit };
    let mut stream = connect(rt, path, limit)?;
    write_within(rt, &mut stream, line, limit)?;
    write_within(rt, &mut stream, b"\n", limit)?;
    stream.shutdown(Shutdown::Write)?;
    for _ in 0..u64::MAX {
        if read_within(rt, &mut stream, answer, limit)? {
            return Ok(());
        }
    }
    Ok(())
}
