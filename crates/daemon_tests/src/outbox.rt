//! Where the datagrams of a test go.
use fork_call::{Datagram, Port};
use std::alloc::{Allocator, Global};

/// A port that keeps what was sent last.
#[derive(Drop)]
pub struct Outbox {
    bytes: Vec<u8>,
    failures: u64,
}

impl Port for Outbox {
    ghost count = { λ outbox. outbox.failures };

    fn send<A: Allocator>(&mut self, datagram: &Datagram<A>) -> bool {
        self.bytes.clear();
        self.bytes.extend_from_slice(&datagram.bytes).is_ok()
    }

    fn failures(&self) -> u64 {
        self.failures
    }
}

impl Outbox {
    /// Nothing was sent.
    pub fn new(alloc: Global) -> Outbox {
        Outbox {
            bytes: Vec::new(alloc),
            failures: 0,
        }
    }

    /// What was sent last.
    pub fn bytes(&self) -> &[u8] {
        &self.bytes
    }
}
