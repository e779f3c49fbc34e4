//! What came of a step of a call.
use crate::datagram::Datagram;
use std::alloc::{Allocator, Global};

/// What comes of one step of a call: the one thing that was due is done.
#[derive(Drop)]
#[derive_where(Debug)]
pub enum Step<A: Allocator = Global> {
    /// A datagram is to be sent.
    Send(Datagram<A>),
    /// Something was done by which nothing is sent.
    Did,
    /// Nothing was to be done.
    Idle,
}
