//! One connection, as threads share it.
use crate::line::Line;
pub use crate::line::StreamRead;
use mio::net::TcpStream;
use mio::{Interest, Registry, Token};
use sip_uri::Hop;
use sockets::SendOutcome;
use std::alloc::Global;
use std::io;
use std::sync::{Mutex, Wait};
use stream_connections::{ClosingCause, QueuedMessage, ReceivedStream, closing_cause};

/// One connection: its socket with what waits to be written, which all threads use, and what has come, which one thread takes.
#[derive(Drop)]
pub struct Connection {
    peer: Hop,
    line: Mutex<Line>,
    received: Mutex<ReceivedStream>,
}

impl Connection {
    /// A connection with a peer, which may be open already.
    pub(crate) fn new(
        alloc: Global,
        stream: TcpStream,
        peer: Hop,
        is_open: bool,
        now: u64,
    ) -> Connection {
        // what is written waits for no more that might be written later
        let _ = stream.set_nodelay(true);
        Connection {
            peer,
            line: Mutex::new(Line::new(alloc, stream, is_open, now)),
            received: Mutex::new(ReceivedStream::new(alloc, now)),
        }
    }

    /// Its peer.
    pub fn peer(&self) -> Hop {
        self.peer
    }

    /// What has come by it and was not handed out yet: for the thread that reads it.
    pub fn received(&self) -> &Mutex<ReceivedStream> {
        &self.received
    }

    /// Has a poll tell of it by its number.
    pub(crate) fn register<R: Wait>(
        &self,
        rt: &R,
        registry: &Registry,
        number: u64,
    ) -> io::Result<()> {
        let mut line = self.line.lock(rt);
        let interests = Interest::READABLE | Interest::WRITABLE;
        registry.register(&mut line.stream, Token(number as usize), interests)
    }

    /// Sends a message for a hop, or has it wait.
    pub fn send<R: Wait>(&self, rt: &R, bytes: &[u8], to: Hop, now: u64) -> SendOutcome {
        self.line.lock(rt).send(bytes, to, now)
    }

    /// Goes on with what waits. False where the connection has failed.
    pub fn flush<R: Wait>(&self, rt: &R, now: u64) -> bool {
        self.line.lock(rt).flush(now)
    }

    /// Reads once, without waiting.
    pub fn read<R: Wait>(&self, rt: &R, buffer: &mut [u8]) -> StreamRead {
        self.line.lock(rt).read(buffer)
    }

    /// Whether it was given up by a thread that wrote.
    pub fn is_given_up<R: Wait>(&self, rt: &R) -> bool {
        self.line.lock(rt).is_closed()
    }

    /// Gives it up: it is read and written no more.
    pub fn give_up<R: Wait>(&self, rt: &R) {
        self.line.lock(rt).give_up();
    }

    /// Whether something waits to be written.
    pub fn has_waiting<R: Wait>(&self, rt: &R) -> bool {
        self.line.lock(rt).has_waiting()
    }

    /// Takes the first message that was not written whole, once the connection has ended.
    pub fn take_unsent<R: Wait>(&self, rt: &R) -> Option<QueuedMessage> {
        self.line.lock(rt).take_unsent()
    }

    /// Why it is to be closed at this moment, where it may be silent for so many milliseconds.
    pub fn closing_cause<R: Wait>(
        &self,
        rt: &R,
        longest_silence: u64,
        now: u64,
    ) -> Option<ClosingCause> {
        let received = self.received.lock(rt).times();
        let sent = self.line.lock(rt).times();
        closing_cause(received, sent, longest_silence, now)
    }
}
