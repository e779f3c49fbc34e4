//! Why a text is no SIP URI.

ghost use Rattle.std.specs.Prelude.{◌≡◌};
ghost use Rattle.sip_uri.specs.declared.fault.UriFault.TheVariants.{NoMemory};

use std::alloc::{AllocError, AllocFailed};
use thiserror::Error;

/// Why a text is no SIP URI, or no list of contacts.
#[derive(Clone, Copy, Debug, PartialEq, Eq, Error)]
pub enum UriFault {
    /// The text does not begin with `sip:`, in any case.
    #[error("the URI does not begin with sip:")]
    NotSip,
    /// The host is no host name, IPv4 address or address in square brackets.
    #[error("the host is no host name, IPv4 address or address in square brackets")]
    BadHost,
    /// The port is no number from 1 to 65535 in one to five digits.
    #[error("the port is no number from 1 to 65535")]
    BadPort,
    /// A byte that stands in no URI, an empty user or an empty part of a parameter; of contacts a
    /// quote or bracket that is not closed, or an empty item.
    #[error("a byte or a part stands where the grammar has none")]
    BadText,
    /// The allocator refused.
    #[error("out of memory")]
    NoMemory,
}

impl From<AllocError> for UriFault {
    ghost from_gives = { λ _ e. e ≡ NoMemory };

    fn from(_e: AllocError) -> UriFault {
        UriFault::NoMemory
    }
}

impl<T: Drop> From<AllocFailed<T>> for UriFault {
    ghost from_gives = { λ _ e. e ≡ NoMemory };

    fn from(_e: AllocFailed<T>) -> UriFault {
        UriFault::NoMemory
    }
}
