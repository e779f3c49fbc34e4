//! The statuses of the proxy's own responses.

ghost use Rattle.std.specs.Prelude.{◌≡◌};
ghost use Rattle.sip_build.specs.declared.responses.OwnStatus.{OwnStatus};
ghost use Rattle.sip_build.specs.Generated.{code_of, gets_tag, reason_of};

use sip_text::Message;
use std::alloc::Allocator;

/// A status that the proxy answers of its own (RFC 3261 section 21).
#[derive(Clone, Copy, Debug, PartialEq, Eq)]
pub enum OwnStatus {
    /// 100
    Trying,
    /// 200
    Okay,
    /// 400
    BadRequest,
    /// 401
    Unauthorized,
    /// 403
    Forbidden,
    /// 404
    NotFound,
    /// 407
    ProxyAuthenticationRequired,
    /// 408
    RequestTimeout,
    /// 416
    UnsupportedUriScheme,
    /// 420
    BadExtension,
    /// 423
    IntervalTooBrief,
    /// 480
    TemporarilyUnavailable,
    /// 481
    CallDoesNotExist,
    /// 482
    LoopDetected,
    /// 483
    TooManyHops,
    /// 500
    ServerInternalError,
    /// 503
    ServiceUnavailable,
}

impl OwnStatus {
    /// The status code.
    pub fn code(self) -> u16
        ensures { result ≡ code_of self }
    {
        match self {
            OwnStatus::Trying => 100,
            OwnStatus::Okay => 200,
            OwnStatus::BadRequest => 400,
            OwnStatus::Unauthorized => 401,
            OwnStatus::Forbidden => 403,
            OwnStatus::NotFound => 404,
            OwnStatus::ProxyAuthenticationRequired => 407,
            OwnStatus::RequestTimeout => 408,
            OwnStatus::UnsupportedUriScheme => 416,
            OwnStatus::BadExtension => 420,
            OwnStatus::IntervalTooBrief => 423,
            OwnStatus::TemporarilyUnavailable => 480,
            OwnStatus::CallDoesNotExist => 481,
            OwnStatus::LoopDetected => 482,
            OwnStatus::TooManyHops => 483,
            OwnStatus::ServerInternalError => 500,
            OwnStatus::ServiceUnavailable => 503,
        }
    }

    /// The reason that stands behind the code.
    pub fn reason(self) -> &'static [u8]
        ensures { result.now ≡ reason_of self }
    {
        match self {
            OwnStatus::Trying => b"Trying",
            OwnStatus::Okay => b"OK",
            OwnStatus::BadRequest => b"Bad Request",
            OwnStatus::Unauthorized => b"Unauthorized",
            OwnStatus::Forbidden => b"Forbidden",
            OwnStatus::NotFound => b"Not Found",
            OwnStatus::ProxyAuthenticationRequired => b"Proxy Authentication Required",
            OwnStatus::RequestTimeout => b"Request Timeout",
            OwnStatus::UnsupportedUriScheme => b"Unsupported URI Scheme",
            OwnStatus::BadExtension => b"Bad Extension",
            OwnStatus::IntervalTooBrief => b"Interval Too Brief",
            OwnStatus::TemporarilyUnavailable => b"Temporarily Unavailable",
            OwnStatus::CallDoesNotExist => b"Call/Transaction Does Not Exist",
            OwnStatus::LoopDetected => b"Loop Detected",
            OwnStatus::TooManyHops => b"Too Many Hops",
            OwnStatus::ServerInternalError => b"Server Internal Error",
            OwnStatus::ServiceUnavailable => b"Service Unavailable",
        }
    }
}

/// Whether a response of that status to a request has the proxy's own tag added to its To: where the To has none, but for a
/// 100 (RFC 3261 section 8.2.6.2).
pub fn has_tag_added<A: Allocator>(status: OwnStatus, message: &Message<A>) -> bool
    ensures { result ≡ gets_tag status message.now }
{
    match status {
        OwnStatus::Trying => false,
        _ => message.to_tag().is_none(),
    }
}
