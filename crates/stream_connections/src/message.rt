//! A message that waits to be written.
use sip_uri::Hop;
use std::alloc::{Allocator, Global};
use std::marker::Model;

/// A message that waits to be written to a connection, of one byte at least, and the hop that it is for.
#[derive(Drop)]
pub struct QueuedMessage<A: Allocator = Global> {
    pub bytes: Vec<u8, A>,
    pub to: Hop,
}

impl<A: Allocator> Model for QueuedMessage<A> {
    ghost use Rattle.std.specs.Prelude.{◌<◌, length};
    ghost use Rattle.stream_connections.specs.Queued as queued;

    ghost Value = { queued.Queued };

    ghost view = { λ m. record { bytes = m.bytes.items; to = m.to } };

    ghost invariant = { λ m. 0 < length m.bytes.items };
}
