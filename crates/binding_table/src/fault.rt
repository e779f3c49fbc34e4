//! Why a change of a user's bindings is not prepared.
ghost use Rattle.std.specs.Prelude.{◌≡◌};

use std::alloc::AllocError;
use thiserror::Error;

/// Why a change of a user's bindings is not prepared, in the order in which the causes are looked for.
#[derive(Clone, Copy, Debug, PartialEq, Eq, Error)]
pub enum ChangeFault {
    /// Another change of this user's bindings was prepared, and is neither made nor given up.
    #[error("another change of this user is under way")]
    Busy,
    /// A growth was refused.
    #[error("want of memory")]
    NoMemory,
    /// There would be more bindings in all than there may be.
    #[error("too many bindings in all")]
    Full,
}

impl From<AllocError> for ChangeFault {
    ghost use Rattle.binding_table.specs.declared.fault.ChangeFault.TheVariants as fault;

    ghost from_gives = { λ _ given. given ≡ fault.NoMemory };

    fn from(_refused: AllocError) -> ChangeFault {
        ChangeFault::NoMemory
    }
}
