//! Why a proxy does not serve.
ghost use Rattle.std.specs.Prelude.{◌≡◌};
ghost use Rattle.serve_command.specs.Faults.{exit_status};
ghost use Rattle.serve_command.specs.inner.Faults.{IsSystemFault};

use proxy_config::SetupFault;
use std::alloc::AllocError;
use std::io;
use std::io::ErrorKind;
use thiserror::Error;

/// Why a proxy does not serve, or serves no longer, with the words that a program prints. The causes are looked for in this
/// order, but for want of memory, which may come before any of them.
#[derive(Clone, Copy, Debug, PartialEq, Eq, Error)]
pub enum ServeFault {
    /// The configuration has more bytes than are read.
    #[error("too long")]
    TooLong,
    /// The first malformed line of the configuration, counted from 1; a missing one has the number that it would have.
    #[error("line {0}: malformed")]
    Line(usize),
    /// A growth was refused before the first turn or after the last, a worker's thread could not be made, or the system had no memory for
    /// a call on the socket or standard output.
    #[error("want of memory")]
    NoMemory,
    /// The address could not be bound, a receive failed, or standard output could not be written.
    #[error("socket fault")]
    Socket,
}

impl ServeFault {
    /// The exit status of a program that ends with it: 1 for a refused configuration, 3 for want of memory, 5 for a socket.
    pub fn status(self) -> u8
        ensures { result ≡ exit_status self }
    {
        match self {
            ServeFault::TooLong | ServeFault::Line(_) => 1,
            ServeFault::NoMemory => 3,
            ServeFault::Socket => 5,
        }
    }
}

impl From<AllocError> for ServeFault {
    ghost use Rattle.serve_command.specs.declared.fault.ServeFault.TheVariants as fault;

    ghost from_gives = { λ _ given. given ≡ fault.NoMemory };

    fn from(_refused: AllocError) -> ServeFault {
        ServeFault::NoMemory
    }
}

impl From<SetupFault> for ServeFault {
    ghost use Rattle.serve_command.specs.inner.Faults.{fault_read};

    ghost from_gives = { λ read given. given ≡ fault_read read };

    fn from(read: SetupFault) -> ServeFault {
        match read {
            SetupFault::Line(number) => ServeFault::Line(number),
            SetupFault::NoMemory => ServeFault::NoMemory,
        }
    }
}

/// The fault of a call to the system.
pub(crate) fn of_system(error: io::Error) -> ServeFault
    ensures { IsSystemFault result }
{
    match error.kind() {
        ErrorKind::OutOfMemory => ServeFault::NoMemory,
        _ => ServeFault::Socket,
    }
}
