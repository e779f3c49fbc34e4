//! A port in memory.

use fork_call::{Datagram, Port};
use sip_uri::Hop;
use std::alloc::{Allocator, Global};

/// A port that keeps what was sent last.
#[derive(Drop)]
pub struct Outbox {
    to: Option<Hop>,
    bytes: Vec<u8>,
    failures: u64,
}

impl Port for Outbox {
    ghost count = { λ outbox. outbox.failures };

    fn send<A: Allocator>(&mut self, datagram: &Datagram<A>) -> bool {
        self.to = Some(datagram.to);
        self.bytes.clear();
        self.bytes.extend_from_slice(&datagram.bytes).is_ok()
    }

    fn failures(&self) -> u64 {
        self.failures
    }
}

impl Outbox {
    /// Nothing was sent.
    pub fn new(alloc: Global) -> Outbox {
        Outbox {
            to: None,
            bytes: Vec::new(alloc),
            failures: 0,
        }
    }

    /// Whether this was sent last, to that hop.
    pub fn has_sent(&self, to: Hop, bytes: &[u8]) -> bool {
        self.to == Some(to) && self.bytes.as_slice() == bytes
    }

    /// Where it was sent last, if anything was.
    pub fn to(&self) -> Option<Hop> {
        self.to
    }

    /// What was sent last.
    pub fn bytes(&self) -> &[u8] {
        &self.bytes
    }

    /// Whether nothing was sent.
    pub fn is_empty(&self) -> bool {
        self.to.is_none()
    }
}
