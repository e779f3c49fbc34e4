//! Where the datagrams of a service without sockets go.
use fork_call::{Cause, Datagram, Port};
use sip_uri::Hop;
use std::alloc::{Allocator, Global};

/// A datagram that was sent.
#[derive(Drop)]
pub struct Sent {
    pub to: Hop,
    pub cause: Cause,
    pub bytes: Vec<u8>,
}

/// A port that keeps what is sent, in order, and refuses what goes to one address.
#[derive(Drop)]
pub struct Outgoing {
    alloc: Global,
    sent: Vec<Sent>,
    /// Where nothing can be sent to.
    refused: Option<Hop>,
    failures: u64,
}

impl Port for Outgoing {
    ghost count = { λ port. port.failures };

    fn send<A: Allocator>(&mut self, datagram: &Datagram<A>) -> bool {
        if self.refused == Some(datagram.to) {
            self.failures = self.failures.saturating_add(1);
            return false;
        }
        match Vec::from_slice(self.alloc, &datagram.bytes) {
            Ok(bytes) => {
                let to = datagram.to;
                let cause = datagram.cause;
                self.sent.push(Sent { to, cause, bytes }).is_ok()
            }
            Err(_) => false,
        }
    }

    fn failures(&self) -> u64 {
        self.failures
    }
}

impl Outgoing {
    /// Nothing was sent.
    pub fn new(alloc: Global) -> Outgoing {
        Outgoing {
            alloc,
            sent: Vec::new(alloc),
            refused: None,
            failures: 0,
        }
    }

    /// Refuses what goes to this address from now on.
    pub fn refuse(&mut self, hop: Option<Hop>) {
        self.refused = hop;
    }

    /// All that was sent.
    pub fn sent(&self) -> &[Sent] {
        &self.sent
    }
}
