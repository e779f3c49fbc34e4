//! What a request is for.
ghost use Rattle.std.specs.Prelude.{◌≡◌};
ghost use Rattle.proxy_dispatch.specs.Purpose.{is_answered, purpose_by, purpose_of};

use sip_text::{Message, Method};
use std::alloc::Allocator;

/// What a request is for.
#[derive(Clone, Copy, PartialEq, Eq, Debug)]
pub(crate) enum RequestKind {
    /// The request acknowledges an answer (RFC 3261 section 17.1.1.3).
    Ack,
    /// The request cancels another one (RFC 3261 section 9).
    Cancel,
    /// The request opens a call.
    Opening,
}

/// What a request of that method is for.
fn purpose_by(method: Method) -> RequestKind
    ensures { result ≡ purpose_by method }
{
    match method {
        Method::Ack => RequestKind::Ack,
        Method::Cancel => RequestKind::Cancel,
        Method::Invite | Method::Options | Method::Other => RequestKind::Opening,
    }
}

/// What a request is for; None for a response.
pub(crate) fn purpose_of<A: Allocator>(message: &Message<A>) -> Option<RequestKind>
    ensures { result ≡ purpose_of message.now.start }
{
    match message.known_method() {
        Some(method) => Some(purpose_by(method)),
        None => None,
    }
}

/// Whether the proxy answers a message of this purpose: a request other than an ACK.
pub(crate) fn is_answered(purpose: Option<RequestKind>) -> bool
    ensures { result ≡ is_answered purpose }
{
    match purpose {
        None | Some(RequestKind::Ack) => false,
        Some(RequestKind::Cancel | RequestKind::Opening) => true,
    }
}
