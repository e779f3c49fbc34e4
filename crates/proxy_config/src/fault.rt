//! Why a text sets up no proxy.
ghost use Rattle.std.specs.Prelude.{◌≡◌};

use std::alloc::AllocError;
use thiserror::Error;

/// Why a text sets up no proxy.
#[derive(Clone, Copy, Debug, PartialEq, Eq, Error)]
pub enum SetupFault {
    /// The first malformed line, counted from 1; a missing one has the number that it would have.
    #[error("line {0}: malformed")]
    Line(usize),
    /// A growth was refused.
    #[error("want of memory")]
    NoMemory,
}

impl From<AllocError> for SetupFault {
    ghost use Rattle.proxy_config.specs.declared.fault.SetupFault.TheVariants as fault;

    ghost from_gives = { λ _ given. given ≡ fault.NoMemory };

    fn from(_refused: AllocError) -> SetupFault {
        SetupFault::NoMemory
    }
}
