//! Why a text lists no users.
ghost use Rattle.std.specs.Prelude.{◌≡◌};

use std::alloc::AllocError;
use thiserror::Error;

/// Why a text lists no users.
#[derive(Clone, Copy, Debug, PartialEq, Eq, Error)]
pub enum UserFault {
    /// The first malformed line, counted from 1.
    #[error("line {0}: malformed")]
    Line(usize),
    /// A growth was refused.
    #[error("want of memory")]
    NoMemory,
}

impl From<AllocError> for UserFault {
    ghost use Rattle.sip_digest.specs.declared.user_fault.UserFault.TheVariants as fault;

    ghost from_gives = { λ _ given. given ≡ fault.NoMemory };

    fn from(_refused: AllocError) -> UserFault {
        UserFault::NoMemory
    }
}
