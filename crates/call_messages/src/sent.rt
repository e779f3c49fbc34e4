//! What a call sends.
use fork_call::{Cause, Datagram};
use sip_uri::Hop;
use std::alloc::Allocator;

/// A datagram that a call sends.
#[derive(Clone, Copy)]
pub struct Sent {
    pub cause: Cause,
    pub to: Hop,
    pub text: &'static [u8],
}

/// Whether a datagram is this one.
pub fn is_sent<A: Allocator>(datagram: &Datagram<A>, wanted: &Sent) -> bool {
    datagram.cause == wanted.cause
        && datagram.to == wanted.to
        && datagram.bytes.as_slice() == wanted.text
}
