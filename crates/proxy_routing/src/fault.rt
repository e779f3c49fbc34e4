//! Why a call is not opened.
ghost use Rattle.std.specs.Prelude.{◌≡◌};
ghost use Rattle.proxy_routing.specs.Refusing.{status_of_fault};

use std::alloc::AllocError;
use thiserror::Error;

/// Why a call is not opened, in the order in which the causes are looked for.
#[derive(Clone, Copy, PartialEq, Eq, Debug, Error)]
pub enum RequestRejection {
    /// The request cannot be routed as it stands (RFC 3261 section 16.3 step 1): 400.
    #[error("the request cannot be routed as it stands")]
    BadRequest,
    /// The Request-URI has another scheme (section 16.3 step 2): 416.
    #[error("the Request-URI has another scheme")]
    Scheme,
    /// No more proxy may pass it on (section 16.3 step 3): 483.
    #[error("no more proxy may pass the request on")]
    Hops,
    /// The request passed the proxy before (section 16.3 step 4): 482.
    #[error("the request passed the proxy before")]
    Loop,
    /// The request asks the proxy for an extension (section 16.3 step 5): 420.
    #[error("the request asks for an extension")]
    Extension,
    /// The domain has no target for the request (section 16.5): 480.
    #[error("the domain has no target for it")]
    NoTarget,
    /// One of the targets has no hop that the proxy can send to (section 16.6 step 7): 500.
    #[error("a target has no next hop")]
    NoHop,
    /// The allocator refused.
    #[error("out of memory")]
    NoMemory,
}

impl RequestRejection {
    /// The status that the request is answered with (RFC 3261 section 21); None for want of memory.
    pub fn status(self) -> Option<u16>
        ensures { result ≡ status_of_fault self }
    {
        match self {
            RequestRejection::BadRequest => Some(400),
            RequestRejection::Scheme => Some(416),
            RequestRejection::Hops => Some(483),
            RequestRejection::Loop => Some(482),
            RequestRejection::Extension => Some(420),
            RequestRejection::NoTarget => Some(480),
            RequestRejection::NoHop => Some(500),
            RequestRejection::NoMemory => None,
        }
    }
}

impl From<AllocError> for RequestRejection {
    ghost use Rattle.proxy_routing.specs.declared.fault.RequestRejection.TheVariants as faults;

    ghost from_gives = { λ _ e. e ≡ faults.NoMemory };

    fn from(_e: AllocError) -> RequestRejection {
        RequestRejection::NoMemory
    }
}
