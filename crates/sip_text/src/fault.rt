//! Why a text is no message.

ghost use Rattle.std.specs.Prelude.{◌≡◌};
ghost use Rattle.sip_text.specs.declared.fault.ReadFault.TheVariants.{NoMemory};

use crate::message::Message;
use crate::needed::MandatoryHeader;
use std::alloc::{AllocError, AllocFailed, Allocator};
use thiserror::Error;

/// Why a text is no message (RFC 3261 sections 7 and 25.1).
#[derive(Drop, Error)]
#[derive_where(Debug)]
pub enum ReadFault<A: Allocator> {
    /// The first line is neither a request line nor a status line.
    #[error("the first line is neither a request line nor a status line")]
    StartLine,
    /// A header line is malformed, or the empty line is missing.
    #[error("a header line is malformed, or the empty line is missing")]
    HeaderLine,
    /// The first header field that every message has and this one lacks.
    #[error("a header field that every message has is missing")]
    Missing(MandatoryHeader),
    /// The version begins with `SIP/` and isn't `SIP/2.0`.
    #[error("the version is not SIP/2.0")]
    Version,
    /// The status is outside 100 to 699.
    #[error("the status is outside 100 to 699")]
    Status,
    /// Fewer bytes stand behind the empty line than Content-Length says. The message is the same
    /// with an empty body and each Content-Length `0`.
    #[error("the body is shorter than Content-Length says")]
    ShortBody(#[derive_where(skip)] Message<A>),
    /// The CSeq is no number below 2^31, space and a method, or not the request's method.
    #[error("the CSeq is malformed, or names another method")]
    CSeq,
    /// A Content-Length isn't one to nine digits, or two differ.
    #[error("the Content-Length is malformed, or two differ")]
    Length,
    /// The allocator refused.
    #[error("out of memory")]
    NoMemory,
}

impl<A: Allocator> From<AllocError> for ReadFault<A> {
    ghost from_gives = { λ _ e. e ≡ NoMemory };

    fn from(_e: AllocError) -> ReadFault<A> {
        ReadFault::NoMemory
    }
}

impl<A: Allocator, T: Drop> From<AllocFailed<T>> for ReadFault<A> {
    ghost from_gives = { λ _ e. e ≡ NoMemory };

    fn from(_e: AllocFailed<T>) -> ReadFault<A> {
        ReadFault::NoMemory
    }
}
