//! Why a text is not replayed.
ghost use Rattle.std.specs.Prelude.{◌≡◌};
ghost use Rattle.fork_program.specs.FaultView.{exit_status};

use crate::script::ScriptFault;
use fork_context::NewFault;
use std::alloc::AllocError;
use thiserror::Error;

/// Why a text is refused, with the words that the program prints.
#[derive(Clone, Copy, Debug, PartialEq, Eq, Error)]
pub enum ProgFault {
    /// The first malformed line, from 1.
    #[error("line {0}: malformed")]
    Line(u32),
    /// The targets are no fork.
    #[error("setup: {0:?}")]
    New(NewFault),
    /// The text has more bytes than are read.
    #[error("too long")]
    TooLong,
    /// Workers met a full context: together they have more events than it takes.
    #[error("stopped")]
    Stopped,
    /// Workers left a history that is not that of what they were given.
    #[error("torn")]
    Torn,
    /// A growth was refused.
    #[error("want of memory")]
    NoMemory,
}

impl From<AllocError> for ProgFault {
    ghost use Rattle.fork_program.specs.declared.fault.ProgFault.TheVariants as prog;

    ghost from_gives = { λ _ fault. fault ≡ prog.NoMemory };

    fn from(_refused: AllocError) -> ProgFault {
        ProgFault::NoMemory
    }
}

impl From<ScriptFault> for ProgFault {
    ghost use Rattle.fork_program.specs.inner.FaultView.{fault_read};

    ghost from_gives = { λ read fault. fault ≡ fault_read read };

    fn from(read: ScriptFault) -> ProgFault {
        match read {
            ScriptFault::Line(number) => ProgFault::Line(number),
            ScriptFault::NoMemory => ProgFault::NoMemory,
        }
    }
}

impl From<NewFault> for ProgFault {
    ghost use Rattle.fork_program.specs.FaultView.{fault_set_up};

    ghost from_gives = { λ setup fault. fault ≡ fault_set_up setup };

    fn from(setup: NewFault) -> ProgFault {
        match setup {
            NewFault::NoMemory => ProgFault::NoMemory,
            other => ProgFault::New(other),
        }
    }
}

/// Why the program ends without its output, with the line that it prints.
#[derive(Clone, Copy, Debug, PartialEq, Eq, Error)]
pub enum Fault {
    /// The arguments are no command.
    #[error("usage: forkproxy [replay | drive | check | serve TURNS]")]
    Usage,
    /// Standard input could not be read.
    #[error("read fault")]
    Read,
    /// Standard output could not be written.
    #[error("write fault")]
    Write,
    /// The text was refused.
    #[error(transparent)]
    Text(ProgFault),
}

impl Fault {
    /// The exit status: 1 for a refused text, 2 for usage, 3 for want of memory, 5 for reading and writing.
    pub fn status(self) -> u8
        ensures { result ≡ exit_status self }
    {
        match self {
            Fault::Usage => 2,
            Fault::Read | Fault::Write => 5,
            Fault::Text(ProgFault::NoMemory) => 3,
            Fault::Text(_) => 1,
        }
    }
}

impl From<AllocError> for Fault {
    ghost use Rattle.fork_program.specs.declared.fault.ProgFault.TheVariants as prog;
    ghost use Rattle.fork_program.specs.declared.fault.Fault.TheVariants as fault;

    ghost from_gives = { λ _ failed. failed ≡ fault.Text prog.NoMemory };

    fn from(_refused: AllocError) -> Fault {
        Fault::Text(ProgFault::NoMemory)
    }
}

impl From<ProgFault> for Fault {
    ghost use Rattle.fork_program.specs.declared.fault.Fault.TheVariants as fault;

    ghost from_gives = { λ refused failed. failed ≡ fault.Text refused };

    fn from(fault: ProgFault) -> Fault {
        Fault::Text(fault)
    }
}
