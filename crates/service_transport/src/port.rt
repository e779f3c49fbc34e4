//! The way of a thread's datagrams and messages to the sockets of its proxy, and what is counted of them.
use crate::listening::ProxySockets;
use crate::transport::ServiceTransport;
use call_table::{Epoch, ThreadClock};
use fork_call::{Cause, Datagram, Port};
use metrics::{Count, DatagramCounts, SentCounts, StreamCounts};
use proxy_threads::SendCounter;
use sip_uri::{Hop, Transport};
use sockets::SendOutcome;
use std::alloc::Allocator;
use std::sync::Wait;
use std::time::Clock;
use stream_sockets::ConnectionSockets;

/// Counts what is sent, by its cause, and what is not.
#[derive(Clone, Copy)]
pub(crate) struct CauseCounter<'a> {
    counts: &'a DatagramCounts,
    streams: &'a StreamCounts,
    sent: &'a SentCounts,
}

/// The counter of datagrams with this cause.
fn count_of(sent: &SentCounts, cause: Cause) -> &Count {
    match cause {
        Cause::Request(_) => &sent.requests,
        Cause::Cancel(_) => &sent.cancels,
        Cause::Ack(_) => &sent.acks,
        Cause::Answer | Cause::CancelOk => &sent.answers,
    }
}

impl SendCounter for CauseCounter<'_> {
    fn count(&self, cause: Cause, outcome: SendOutcome) {
        match outcome {
            SendOutcome::Whole => count_of(self.sent, cause).add(1),
            SendOutcome::Lost => self.counts.lost.add(1),
            SendOutcome::Refused => self.counts.unsent.add(1),
        }
    }
}

impl<'a> CauseCounter<'a> {
    /// What is sent is counted in `sent`, what is not in `counts`, and what goes by connections in `streams`, too.
    pub(crate) fn new(
        counts: &'a DatagramCounts,
        streams: &'a StreamCounts,
        sent: &'a SentCounts,
    ) -> CauseCounter<'a> {
        CauseCounter {
            counts,
            streams,
            sent,
        }
    }

    /// Counts a message that was handed to a connection.
    fn count_stream(&self, outcome: SendOutcome) {
        if outcome == SendOutcome::Whole {
            self.streams.sent.add(1);
        } else {
            self.streams.unsent.add(1);
        }
    }
}

/// A thread's way to the sockets of its proxy: by the transport of its hop a datagram goes by the UDP socket, or a message by the connection
/// with its peer. Each send is counted; those that were refused are its failures.
#[derive(Drop)]
pub struct ServicePort<'a, R> {
    rt: &'a R,
    sockets: &'a ProxySockets,
    epoch: Epoch,
    counter: CauseCounter<'a>,
    failures: u64,
}

impl<'a, R: Wait + ConnectionSockets + Clock> ServicePort<'a, R> {
    /// A way by which nothing was sent yet.
    pub(crate) fn new(
        rt: &'a R,
        sockets: &'a ProxySockets,
        epoch: Epoch,
        counter: CauseCounter<'a>,
    ) -> ServicePort<'a, R> {
        ServicePort {
            rt,
            sockets,
            epoch,
            counter,
            failures: 0,
        }
    }

    /// Sends a message by a connection, if there may be any.
    pub(crate) fn send_by_stream(&self, bytes: &[u8], to: Hop) -> SendOutcome {
        let Some(streams) = &self.sockets.streams else {
            return SendOutcome::Refused;
        };
        let now = ThreadClock::new(self.epoch).micros(self.rt) / 1_000;
        let (outcome, is_begun) = streams.send(self.rt, bytes, to, now);
        if is_begun {
            self.counter.streams.begun.add(1);
        }
        self.counter.count_stream(outcome);
        outcome
    }

    /// Sends by the transport of a hop.
    fn send_to(&self, bytes: &[u8], to: Hop) -> SendOutcome {
        match to.transport {
            Transport::Udp => self.sockets.udp.send(bytes, to),
            Transport::Tcp | Transport::Back(_) => self.send_by_stream(bytes, to),
        }
    }
}

impl<'a, R: Wait + ConnectionSockets + Clock> Port for ServicePort<'a, R> {
    ghost count = { λ port. port.failures };

    fn send<A: Allocator>(&mut self, datagram: &Datagram<A>) -> bool {
        let outcome = self.send_to(datagram.bytes.as_slice(), datagram.to);
        self.counter.count(datagram.cause, outcome);
        if outcome == SendOutcome::Refused {
            self.failures = self.failures.saturating_add(1);
        }
        outcome == SendOutcome::Whole
    }

    fn failures(&self) -> u64 {
        self.failures
    }
}

impl ServiceTransport {
    /// The way to the sockets of a thread that handles and answers requests.
    pub fn answering_port<'a, R: Wait + ConnectionSockets + Clock>(
        &'a self,
        rt: &'a R,
        sockets: &'a ProxySockets,
    ) -> ServicePort<'a, R> {
        let counts = self.service.counts();
        let counter = CauseCounter::new(&counts.datagrams, &counts.streams, &counts.datagrams.sent);
        ServicePort::new(rt, sockets, self.epoch, counter)
    }
}
