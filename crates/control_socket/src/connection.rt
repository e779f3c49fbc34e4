//! A client of the control socket, and its connection.
use crate::answer::ClientAnswer;
use crate::client::{Client, ClientTurn};
use libc::net;
use sockets::Polled;
use std::io;
use std::io::{ErrorKind, Read, Write};
use std::net::Shutdown;
use std::os::fd::AsRawFd;
use std::os::unix::net::UnixStream;

/// How many bytes are read of a client at a time.
const MOST_READ: usize = 512;

/// A client, and its connection: no call of the system waits for it.
#[derive(Drop)]
pub(crate) struct Connection {
    stream: UnixStream,
    client: Client,
}

/// Whether a call of the system may be tried again: it would have had to wait, or a signal ended it.
fn is_passing(error: &io::Error) -> bool {
    matches!(error.kind(), ErrorKind::WouldBlock | ErrorKind::Interrupted)
}

impl Connection {
    /// Takes a client in.
    ///
    /// # Errors
    ///
    /// What the system says where it cannot be kept from waiting for the client.
    pub(crate) fn new(stream: UnixStream, deadline: u64) -> io::Result<Connection> {
        stream.set_nonblocking(true)?;
        Ok(Connection {
            stream,
            client: Client::new(deadline),
        })
    }

    /// The client.
    pub(crate) fn client(&self) -> &Client {
        &self.client
    }

    /// Answers it, with this moment as the end of its time, if it does not wait for the end.
    pub(crate) fn reply(&mut self, answer: ClientAnswer, deadline: Option<u64>) {
        self.client.reply(answer, deadline);
    }

    /// Reads once what it has written, and says whether its connection stands.
    pub(crate) fn read(&mut self) -> bool {
        let mut buffer = [0u8; MOST_READ];
        match self.stream.read(&mut buffer) {
            Ok(0) => {
                self.client.close();
                true
            }
            Ok(count) => {
                self.client.feed(buffer.get(..count).unwrap_or(b""));
                true
            }
            Err(error) => is_passing(&error),
        }
    }

    /// Writes once of its answer, and says whether its connection stands. Behind all of the answer the client reads that there is no more.
    pub(crate) fn write(&mut self) -> bool {
        match self.stream.write(self.client.next()) {
            Ok(count) => self.client.advance(count),
            Err(error) => return is_passing(&error),
        }
        if self.client.deadline().is_some() && self.client.is_answered() {
            return self.stream.shutdown(Shutdown::Write).is_ok();
        }
        true
    }
}

impl Polled for Connection {
    fn descriptor(&self) -> i32 {
        self.stream.as_raw_fd()
    }

    fn events(&self) -> i16 {
        match self.client.turn(0) {
            ClientTurn::Read => net::POLLIN,
            ClientTurn::Write => net::POLLOUT,
            ClientTurn::Obey(_) | ClientTurn::Wait | ClientTurn::Close => 0,
        }
    }

    fn rest(&self, now: u64) -> Option<u64> {
        self.client.rest(now)
    }

    fn deadline(&self) -> Option<u64> {
        self.client.deadline()
    }
}
