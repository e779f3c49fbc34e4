//! Why a call does not take a message.
use std::alloc::AllocError;
use thiserror::Error;

/// Why a call does not take a message.
#[derive(Clone, Copy, PartialEq, Eq, Debug, Error)]
pub enum TakeFault {
    /// The message belongs to no transaction of the call (RFC 3261 sections 17.1.3 and 17.2.3).
    #[error("the message belongs to no transaction of the call")]
    Stray,
    /// The book takes no more events that change nothing.
    #[error("the book takes no more events that change nothing")]
    Full,
    /// The allocator refused.
    #[error("out of memory")]
    NoMemory,
}

impl From<AllocError> for TakeFault {
    ghost use Rattle.std.specs.Prelude.{◌≡◌};
    ghost use Rattle.fork_call.specs.declared.fault.TakeFault.TheVariants as faults;

    ghost from_gives = { λ _ e. e ≡ faults.NoMemory };

    fn from(_e: AllocError) -> TakeFault {
        TakeFault::NoMemory
    }
}
