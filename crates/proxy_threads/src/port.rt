//! The socket of a proxy: where it receives, and the way of datagrams to it.
ghost use Rattle.std.specs.Prelude.{◌≡◌};
ghost use Rattle.sip_uri.specs.declared.hop.Transport.TheVariants.{Udp};

use fork_call::{Cause, Datagram, Port, Setup};
use sip_uri::Hop;
use sockets::{SendOutcome, Socket};
use std::alloc::Allocator;

/// The address that a setup names: where its proxy receives.
pub fn own_of<A: Allocator>(setup: &Setup<A>) -> Hop
    ensures { result ≡ record { addr = setup.now.own.addr; port = setup.now.own.port; transport = Udp } }
{
    let own = setup.own();
    Hop::over_udp(own.addr, own.port)
}

/// What counts the sends of a thread.
pub trait SendCounter {
    /// Counts a send of a datagram that has this cause, and of which this became.
    fn count(&self, cause: Cause, outcome: SendOutcome);
}

/// A thread's way to the socket of its proxy. Each send is counted; those that the system refused are its failures.
#[derive(Drop)]
pub struct SocketPort<'a, C: SendCounter + Drop> {
    socket: &'a Socket,
    counter: C,
    failures: u64,
}

impl<'a, C: SendCounter + Drop> SocketPort<'a, C> {
    /// A way by which nothing was sent yet.
    pub fn new(socket: &'a Socket, counter: C) -> SocketPort<'a, C> {
        SocketPort {
            socket,
            counter,
            failures: 0,
        }
    }
}

impl<'a, C: SendCounter + Drop> Port for SocketPort<'a, C> {
    ghost count = { λ port. port.failures };

    fn send<A: Allocator>(&mut self, datagram: &Datagram<A>) -> bool {
        let outcome = self.socket.send(datagram.bytes.as_slice(), datagram.to);
        self.counter.count(datagram.cause, outcome);
        if outcome == SendOutcome::Refused {
            self.failures = self.failures.saturating_add(1);
        }
        outcome == SendOutcome::Whole
    }

    fn failures(&self) -> u64 {
        self.failures
    }
}
