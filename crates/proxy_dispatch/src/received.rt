//! Datagrams and messages as they were received.
use sip_text::Message;
use sip_uri::Hop;
use sip_via::TopVia;
use std::alloc::Allocator;

/// A datagram as it was received.
#[derive(Clone, Copy)]
pub struct Received<'a> {
    /// The bytes of the datagram.
    pub bytes: &'a [u8],
    /// The address and the port that it came from.
    pub source: Hop,
    /// When it came, in milliseconds.
    pub now: u64,
}

/// A message as it was received, with the allocator for what it opens.
#[derive(Drop)]
pub struct ReceivedMessage<A: Allocator> {
    pub alloc: A,
    pub message: Message<A>,
    /// The address and the port that it came from.
    pub source: Hop,
    /// When it came, in milliseconds.
    pub now: u64,
}

/// A request as it was received, with what was read of its top Via value.
#[derive(Drop)]
pub(crate) struct ReadRequest<A: Allocator> {
    pub alloc: A,
    pub message: Message<A>,
    pub top: TopVia<A>,
    /// The address and the port that it came from.
    pub source: Hop,
    /// When it came, in milliseconds.
    pub now: u64,
}
