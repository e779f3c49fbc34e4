//! The way of datagrams to the socket.
use crate::holds::holds;
use fork_call::{Cause, Datagram, Port};
use proxy_threads::{SendCounter, SocketPort};
use sip_uri::Hop;
use sockets::{SendOutcome, Socket, SocketWaits};
use std::alloc::Global;
use std::net::Net;
use std::sync::atomic::{AtomicU64, Ordering};

/// Where the socket of the test is.
const OWN: [u8; 4] = [127, 0, 0, 1];

const PORT: u16 = 47_441;

/// An address to which the system sends no single datagram.
const EVERYBODY: [u8; 4] = [255, 255, 255, 255];

/// What was counted of answers: those that the system took, and those that it refused.
#[derive(Drop)]
struct Answers {
    taken: AtomicU64,
    refused: AtomicU64,
}

impl SendCounter for &Answers {
    fn count(&self, cause: Cause, outcome: SendOutcome) {
        match (cause, outcome) {
            (Cause::Answer, SendOutcome::Whole) => {
                self.taken.fetch_add(1, Ordering::SeqCst);
            }
            (Cause::Answer, SendOutcome::Refused) => {
                self.refused.fetch_add(1, Ordering::SeqCst);
            }
            _ => {}
        }
    }
}

/// An answer to this address.
fn answer_to(alloc: Global, addr: [u8; 4]) -> Option<Datagram> {
    Some(Datagram {
        to: Hop::over_udp(addr, PORT),
        bytes: Vec::from_slice(alloc, b"answer").ok()?,
        cause: Cause::Answer,
    })
}

/// Whether an answer goes out, and one that the system refuses is counted as a failure.
fn is_counted<R: Net>(rt: &R, alloc: Global) -> Option<bool> {
    let answers = Answers {
        taken: AtomicU64::new(0),
        refused: AtomicU64::new(0),
    };
    let own = answer_to(alloc, OWN)?;
    let refused = answer_to(alloc, EVERYBODY)?;
    let socket = Socket::bind(rt, own.to, SocketWaits::InCalls).ok()?;
    let mut port = SocketPort::new(&socket, &answers);
    let mut buffer = [0u8; 16];
    let is_sent = port.send(&own) && port.failures() == 0;
    let comes = matches!(socket.receive(&mut buffer), Ok(Some((6, _))));
    let is_lost = !port.send(&refused) && port.failures() == 1;
    let taken = answers.taken.load(Ordering::SeqCst);
    Some(is_sent && comes && is_lost && taken == 1 && answers.refused.load(Ordering::SeqCst) == 1)
}

#[test]
fn what_is_sent_is_counted(rt: HostRuntime) {
    holds(
        &rt,
        is_counted(&rt, rt.alloc()) == Some(true),
        "one goes out, one is refused",
    );
}
