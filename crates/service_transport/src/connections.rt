//! The thread of connections: it takes them, reads what comes by them, cuts it into messages, and handles each as a worker does. So what comes of
//! one call is handled in order, whichever transport it came by.
use crate::listening::ProxySockets;
use crate::transport::ServiceTransport;
use crate::worker::DatagramWorker;
use metrics::StreamCounts;
use service_admission::{ServiceState, SourceLimits};
use sip_framing::Frame;
use sip_uri::{Hop, Transport};
use sockets::datagram_buffer;
use std::alloc::Global;
use std::collections::BTreeMap;
use std::ops::Bound;
use std::sync::Wait;
use std::time::Clock;
use stream_connections::{MOST_WAITING, ReceivedStream};
use stream_sockets::{
    Accepted, Connection, ConnectionSockets, LISTENER, StreamFront, StreamRead, Streams,
};

/// How many messages of one connection are handled before others have their turn, and how many connections are taken.
const MOST_OF_ONE: u32 = 64;

/// How many connections have their turn before the poll is asked again.
const MOST_TURNS: u32 = 1_024;

/// How long the thread waits at most where nothing comes, in milliseconds.
const LONGEST_WAIT: u64 = 500;

/// How long what waits is given at the end, in milliseconds.
const LAST_WAIT: u64 = 200;

/// How long the thread waits at a time at the end, in milliseconds.
const LAST_STEP: u64 = 10;

/// Why a connection is closed.
#[derive(Clone, Copy, PartialEq, Eq)]
pub(crate) enum ClosedBy {
    Peer,
    Failure,
    Slowness,
    Unreadable,
    Silence,
    Stop,
}

/// What is left of what stands at the front of a connection.
#[derive(Clone, Copy, PartialEq, Eq)]
enum HandedOut {
    /// Nothing that is whole.
    All,
    /// There may be more.
    Part,
    /// What stands there cannot be read.
    Fault,
}

/// What becomes of a connection behind its turn.
#[derive(Clone, Copy, PartialEq, Eq)]
enum Turn {
    /// There may be more to read.
    More,
    /// Nothing more is there.
    Rests,
    Ends(ClosedBy),
}

/// The thread of connections: what it works for, and what it keeps from one turn to the next.
#[derive(Drop)]
pub(crate) struct ConnectionWorker<'a, R> {
    pub(crate) alloc: Global,
    pub(crate) streams: &'a Streams,
    counts: &'a StreamCounts,
    pub(crate) worker: DatagramWorker<'a, R>,
    limits: Option<SourceLimits<Global>>,
    /// The numbers of those that may have more to read, and of the listener where more may wait there.
    readable: BTreeMap<u64, ()>,
    /// Which of those had its turn last; None where the first one is next.
    last_turn: Option<u64>,
    buffer: Vec<u8>,
    /// The second at which all were looked at last.
    pub(crate) swept: u64,
}

impl<'a, R: Wait + ConnectionSockets + Clock> ConnectionWorker<'a, R> {
    /// Counts a connection that is closed.
    fn count_closed(&self, closed_by: ClosedBy) {
        let count = match closed_by {
            ClosedBy::Peer => &self.counts.ended,
            ClosedBy::Failure => &self.counts.failed,
            ClosedBy::Slowness => &self.counts.slow,
            ClosedBy::Unreadable => &self.counts.unreadable,
            ClosedBy::Silence => &self.counts.idle,
            ClosedBy::Stop => &self.counts.stopped,
        };
        count.add(1);
    }

    /// Sends a response that waited at a connection that has ended once more: over a new one to the port that the request's top Via value
    /// names (RFC 3261 section 18.2.2). One that did not go back is not sent again.
    fn send_again(&self, bytes: &[u8], to: Hop) {
        let Transport::Back(port) = to.transport else {
            self.counts.unsent.add(1);
            return;
        };
        let addr = to.addr;
        let hop = Hop {
            addr,
            port,
            transport: Transport::Tcp,
        };
        // (where it is refused, that is counted there)
        let _ = self.worker.port.send_by_stream(bytes, hop);
    }

    /// Tells the calls of what waited at a connection that has ended.
    fn fail_unsent(&mut self, rt: &R, connection: &Connection) {
        for _ in 0..MOST_WAITING {
            let Some(message) = connection.take_unsent(rt) else {
                return;
            };
            let bytes = message.bytes.as_slice();
            let now = self.worker.millis(rt);
            let service = self.worker.service;
            if service.fail_unsent(rt, &mut self.worker.port, bytes, now) {
                self.counts.unsent.add(1);
            } else {
                self.send_again(bytes, message.to);
            }
        }
    }

    /// Closes a connection, and tells the calls of what it did not bring.
    pub(crate) fn close(&mut self, rt: &R, number: u64, closed_by: ClosedBy) {
        let _ = self.readable.remove(&number);
        let Some(connection) = self.streams.close(rt, number) else {
            return;
        };
        self.count_closed(closed_by);
        self.fail_unsent(rt, &connection);
    }

    /// Closes a connection as the proxy ends: no call hears of what is left.
    pub(crate) fn close_at_end(&mut self, rt: &R, number: u64) {
        if self.streams.close(rt, number).is_some() {
            self.count_closed(ClosedBy::Stop);
        }
    }

    /// Takes what came of a socket: the connection goes on with what waits to be written, and is read when its turn comes.
    fn note(&mut self, rt: &R, number: u64, is_writable: bool, is_readable: bool) {
        if number == LISTENER {
            self.note_listener();
            return;
        }
        let Some(connection) = self.streams.get(rt, number) else {
            return;
        };
        let now = self.worker.millis(rt);
        if is_writable && !connection.flush(rt, now) {
            self.close(rt, number, ClosedBy::Failure);
        } else if is_readable && self.readable.insert(number, ()).is_err() {
            self.close(rt, number, ClosedBy::Failure);
        }
    }

    /// Looks at the listener again: where the system refused a connection that waits, it does not tell of it a second time.
    pub(crate) fn note_listener(&mut self) {
        let _ = self.readable.insert(LISTENER, ());
    }

    /// Takes connections that wait at the listener, so many at most.
    fn accept(&mut self, rt: &R, front: &StreamFront) {
        for _ in 0..MOST_OF_ONE {
            let now = self.worker.millis(rt);
            match self.streams.accept(rt, front, now) {
                Accepted::Kept => self.counts.accepted.add(1),
                Accepted::Refused => self.counts.refused.add(1),
                Accepted::Nothing | Accepted::Failed => {
                    let _ = self.readable.remove(&LISTENER);
                    return;
                }
            }
        }
    }

    /// Handles a message of a connection, if its source may send one more.
    fn take_message(&mut self, rt: &R, bytes: &[u8], source: Hop) {
        self.counts.received.add(1);
        if self.worker.admits(rt, &mut self.limits, source) {
            self.worker.take_message(rt, bytes, source);
        }
    }

    /// Handles what stands at the front of what has come by a connection, one message after another, so many at most. A keep-alive is
    /// answered (RFC 5626 section 3.5.1).
    fn hand_out(
        &mut self,
        rt: &R,
        received: &mut ReceivedStream,
        connection: &Connection,
    ) -> HandedOut {
        for _ in 0..MOST_OF_ONE {
            let now = self.worker.millis(rt);
            match received.first() {
                Frame::More => return HandedOut::All,
                Frame::Blank => received.pass(2, now),
                Frame::Ping => {
                    let _ = connection.send(rt, b"\r\n", connection.peer(), now);
                    self.counts.pings.add(1);
                    received.pass(4, now);
                }
                Frame::Whole(count) => {
                    self.take_message(rt, received.front(count), connection.peer());
                    received.pass(count, now);
                }
                Frame::Broken | Frame::NoLength | Frame::TooLong => return HandedOut::Fault,
            }
        }
        HandedOut::Part
    }

    /// Reads once, and handles what has come whole.
    fn read(&mut self, rt: &R, received: &mut ReceivedStream, connection: &Connection) -> Turn {
        let count = match connection.read(rt, self.buffer.as_mut_slice()) {
            StreamRead::Nothing => return Turn::Rests,
            StreamRead::End if connection.is_given_up(rt) => {
                return Turn::Ends(ClosedBy::Failure);
            }
            StreamRead::End => return Turn::Ends(ClosedBy::Peer),
            StreamRead::Bytes(count) => count.min(self.buffer.len()),
        };
        let now = self.worker.millis(rt);
        if received
            .receive(&self.buffer.as_slice()[..count], now)
            .is_err()
        {
            return Turn::Ends(ClosedBy::Failure);
        }
        match self.hand_out(rt, received, connection) {
            HandedOut::All | HandedOut::Part => Turn::More,
            HandedOut::Fault => Turn::Ends(ClosedBy::Unreadable),
        }
    }

    /// The turn of one connection: what has come before is handled first, and only then is it read.
    fn turn_of(&mut self, rt: &R, connection: &Connection) -> Turn {
        let mut guard = connection.received().lock(rt);
        let received = &mut *guard;
        match self.hand_out(rt, received, connection) {
            HandedOut::All => self.read(rt, received, connection),
            HandedOut::Part => Turn::More,
            HandedOut::Fault => Turn::Ends(ClosedBy::Unreadable),
        }
    }

    /// The turn of the connection of a number, or of the listener.
    fn turn(&mut self, rt: &R, front: &StreamFront, number: u64) {
        if number == LISTENER {
            self.accept(rt, front);
            return;
        }
        let turn = match self.streams.get(rt, number) {
            Some(connection) => self.turn_of(rt, &connection),
            None => Turn::Rests,
        };
        match turn {
            Turn::More => {}
            Turn::Rests => {
                let _ = self.readable.remove(&number);
            }
            Turn::Ends(closed_by) => self.close(rt, number, closed_by),
        }
    }

    /// The first of those that may have more to read behind this number, or the first of all.
    fn next_readable(&self, after: Option<u64>) -> Option<u64> {
        let lower = match &after {
            Some(number) => Bound::Excluded(number),
            None => Bound::Unbounded,
        };
        let (number, _) = self.readable.range((lower, Bound::Unbounded)).next()?;
        Some(*number)
    }

    /// The connections that may have more to read have one turn each, in the order of their numbers: so many of them, and the others in the
    /// next round.
    fn round(&mut self, rt: &R, front: &StreamFront) {
        for _ in 0..MOST_TURNS {
            let Some(number) = self.next_readable(self.last_turn) else {
                self.last_turn = None;
                return;
            };
            self.turn(rt, front, number);
            self.last_turn = Some(number);
        }
    }

    /// Waits until something comes, not at all where there is more to read already, and notes it.
    fn wait(&mut self, rt: &R, front: &mut StreamFront, longest: u64) {
        let longest = if self.readable.is_empty() { longest } else { 0 };
        front.wait(
            longest,
            |number, is_writable, is_readable| self.note(rt, number, is_writable, is_readable),
        );
    }

    /// Takes connections and what comes by them until the proxy has ended. Once it drains, who connects is refused by the system.
    fn run_until_end(&mut self, rt: &R, front: &mut StreamFront) {
        for _ in rt.forever() {
            if self.worker.service.is_in(ServiceState::Ended) {
                return;
            }
            if front.is_listening() && self.worker.service.is_in(ServiceState::Draining) {
                front.stop_listening();
            }
            self.wait(rt, front, LONGEST_WAIT);
            self.round(rt, front);
            self.sweep(rt);
        }
        unreachable!()
    }

    /// Gives what waits 200 ms at the end, and closes all.
    fn finish(&mut self, rt: &R, front: &mut StreamFront) {
        front.stop_listening();
        for _ in 0..LAST_WAIT / LAST_STEP {
            if !self.has_waiting(rt) {
                break;
            }
            self.readable.clear();
            self.wait(rt, front, LAST_STEP);
        }
        self.close_all(rt);
    }
}

impl ServiceTransport {
    /// Takes connections and what comes by them, until the end.
    pub fn serve_connections<R: Wait + ConnectionSockets + Clock>(
        &self,
        rt: &R,
        sockets: &ProxySockets,
        mut front: StreamFront,
    ) {
        let Some(streams) = &sockets.streams else {
            return;
        };
        let Ok(buffer) = datagram_buffer(self.alloc) else {
            self.service.end();
            return;
        };
        let mut worker = ConnectionWorker {
            alloc: self.alloc,
            streams,
            counts: &self.service.counts().streams,
            worker: DatagramWorker::new(rt, self, sockets),
            limits: self.receiving.own_limits(),
            readable: BTreeMap::new(self.alloc),
            last_turn: None,
            buffer,
            swept: 0,
        };
        worker.run_until_end(rt, &mut front);
        worker.finish(rt, &mut front);
    }
}
