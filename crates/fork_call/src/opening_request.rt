//! Requests that are to open calls, as they were received.
use sip_text::Message;
use sip_uri::Hop;
use std::alloc::Allocator;

/// A request that is to open a call, as it was received, with the allocator that the call gets.
#[derive(Drop)]
pub struct OpeningRequest<A: Allocator> {
    /// The allocator of all that the call keeps.
    pub alloc: A,
    pub request: Message<A>,
    /// The address and the port that the request came from.
    pub source: Hop,
    /// When it came, in milliseconds.
    pub now: u64,
}
