//! What threads that write share of a connection.
ghost use Rattle.std.specs.Prelude.{◌≡◌, ◌<◌, length};

use mio::net::TcpStream;
use sip_uri::Hop;
use sockets::SendOutcome;
use std::alloc::Global;
use std::io::{ErrorKind, Read, Write};
use std::net::Shutdown;
use stream_connections::{MOST_WAITING, QueuedMessage, SendQueue, SentTimes};

/// How often a read is tried again that a signal has ended.
const TRIES: u32 = 8;

/// What came of a read.
#[derive(Clone, Copy, Debug, PartialEq, Eq)]
pub enum StreamRead {
    /// So many bytes.
    Bytes(usize),
    /// Nothing waits.
    Nothing,
    /// The peer sends no more, or the connection has failed.
    End,
}

/// What became of bytes that were handed to the system.
#[derive(Clone, Copy, Debug, PartialEq, Eq)]
enum Written {
    /// It took so many.
    Bytes(usize),
    /// It has no room.
    NoRoom,
    Failed,
}

/// A connection's socket, and what waits to be written to it.
#[derive(Drop)]
pub(crate) struct Line {
    pub(crate) stream: TcpStream,
    queue: SendQueue,
    is_closed: bool,
}

/// Hands bytes to the system.
fn write(mut stream: &TcpStream, bytes: &[u8]) -> Written {
    match stream.write(bytes) {
        Ok(0) => Written::Failed,
        Ok(count) => Written::Bytes(count.min(bytes.len())),
        Err(error) => match error.kind() {
            ErrorKind::WouldBlock | ErrorKind::Interrupted => Written::NoRoom,
            _ => Written::Failed,
        },
    }
}

impl Line {
    /// That of a connection that is there from this moment on, and may be open already.
    pub(crate) fn new(alloc: Global, stream: TcpStream, is_open: bool, now: u64) -> Line {
        Line {
            stream,
            queue: SendQueue::new(alloc, is_open, now),
            is_closed: false,
        }
    }

    /// Gives the connection up: whoever reads it comes to its end, and closes it.
    pub(crate) fn give_up(&mut self) {
        self.is_closed = true;
        let _ = self.stream.shutdown(Shutdown::Both);
    }

    /// Whether it was given up.
    pub(crate) fn is_closed(&self) -> bool {
        self.is_closed
    }

    /// Has a message wait of which so many bytes were written.
    fn wait(&mut self, bytes: &[u8], written: usize, to: Hop, now: u64) -> SendOutcome
        requires { 0 < length bytes.now }
    {
        if self.queue.enqueue(bytes, to, now).is_err() {
            // the peer would read another message as the rest of this one
            if written > 0 {
                self.give_up();
            }
            return SendOutcome::Refused;
        }
        if written > 0 {
            self.wrote(written, now);
        }
        SendOutcome::Whole
    }

    /// Notes that so many bytes were written of what was to be written next.
    fn wrote(&mut self, count: usize, now: u64) {
        let len = match self.queue.next() {
            Some(rest) => rest.len(),
            None => return,
        };
        let count = count.min(len);
        if count > 0 {
            self.queue.wrote(count, now);
        }
    }

    /// Sends a message, or has it wait behind those that wait. One that finds no room is refused, and so is one at a connection that was given
    /// up.
    pub(crate) fn send(&mut self, bytes: &[u8], to: Hop, now: u64) -> SendOutcome {
        if bytes.is_empty() {
            return SendOutcome::Whole;
        }
        if self.is_closed {
            return SendOutcome::Refused;
        }
        if !self.queue.is_free() {
            return self.wait(bytes, 0, to, now);
        }
        match write(&self.stream, bytes) {
            Written::Bytes(count) if count >= bytes.len() => SendOutcome::Whole,
            Written::Bytes(count) => self.wait(bytes, count, to, now),
            Written::NoRoom => self.wait(bytes, 0, to, now),
            Written::Failed => {
                self.give_up();
                SendOutcome::Refused
            }
        }
    }

    /// Whether a connection that was begun is open: the system tells of its failure once, and of its peer once it is open.
    fn opens(&mut self, now: u64) -> bool {
        if !matches!(self.stream.take_error(), Ok(None)) {
            return false;
        }
        if self.stream.peer_addr().is_ok() {
            self.queue.open(now);
        }
        true
    }

    /// Goes on with what waits, as far as the system has room. False where the connection has failed.
    pub(crate) fn flush(&mut self, now: u64) -> bool {
        if self.is_closed {
            return false;
        }
        if !self.queue.is_open() && !self.opens(now) {
            return false;
        }
        if !self.queue.is_open() {
            return true;
        }
        for _ in 0..MOST_WAITING {
            let written = match self.queue.next() {
                Some(rest) => write(&self.stream, rest),
                None => return true,
            };
            match written {
                Written::Bytes(count) => self.wrote(count, now),
                Written::NoRoom => return true,
                Written::Failed => return false,
            }
        }
        true
    }

    /// Reads once, without waiting.
    pub(crate) fn read(&mut self, buffer: &mut [u8]) -> StreamRead {
        if self.is_closed {
            return StreamRead::End;
        }
        for _ in 0..TRIES {
            match self.stream.read(buffer) {
                Ok(0) => return StreamRead::End,
                Ok(count) => return StreamRead::Bytes(count.min(buffer.len())),
                Err(error) => match error.kind() {
                    ErrorKind::WouldBlock => return StreamRead::Nothing,
                    ErrorKind::Interrupted => {}
                    _ => return StreamRead::End,
                },
            }
        }
        StreamRead::Nothing
    }

    /// When something was written last, and whether something waits.
    pub(crate) fn times(&self) -> SentTimes {
        self.queue.times()
    }

    /// Whether something waits to be written.
    pub(crate) fn has_waiting(&self) -> bool {
        self.queue.left() > 0
    }

    /// Takes the first message that was not written whole.
    pub(crate) fn take_unsent(&mut self) -> Option<QueuedMessage> {
        self.queue.take_unsent()
    }
}
