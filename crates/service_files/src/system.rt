//! What the system says of a call that failed.
use std::io;

/// The error of the call of the system that failed last in this thread.
pub(crate) fn last_error() -> io::Error {
    io::Error::from_raw_os_error(os::errno())
}
