//! One scraper, and its connection.
use crate::page::Page;
use http_server::{Config, Connection};
use libc::net;
use sockets::Polled;
use std::alloc::Global;
use std::hash::RandomState;
use std::io;
use std::io::ErrorKind;
use std::net::TcpStream;
use std::os::fd::AsRawFd;

/// A scraper, its connection, which no call of the system waits for, and the counters that it is answered by, once its request has begun.
#[derive(Drop)]
pub(crate) struct Scraper {
    stream: TcpStream,
    connection: Connection,
    text: Option<Vec<u8>>,
    /// The moment at which its time is over, in milliseconds.
    deadline: u64,
}

/// Whether a connection stands of which a call of the system ended so: it would have had to wait, or a signal ended it.
fn stands(ended: io::Result<usize>) -> bool {
    match ended {
        Ok(_) => true,
        Err(error) => matches!(error.kind(), ErrorKind::WouldBlock | ErrorKind::Interrupted),
    }
}

impl Scraper {
    /// Takes a scraper in, whose time is over at this moment.
    ///
    /// # Errors
    ///
    /// What the system says where it cannot be kept from waiting for the scraper.
    pub(crate) fn new(
        alloc: Global,
        keys: RandomState,
        stream: TcpStream,
        deadline: u64,
    ) -> io::Result<Scraper> {
        stream.set_nonblocking(true)?;
        Ok(Scraper {
            stream,
            connection: Connection::new(alloc, keys, Config::default()),
            text: None,
            deadline,
        })
    }

    /// Whether its time is over.
    pub(crate) fn is_late(&self, now: u64) -> bool {
        self.deadline <= now
    }

    /// Whether it has no counters yet to be answered by.
    pub(crate) fn needs_text(&self) -> bool {
        self.text.is_none()
    }

    /// It is answered by these counters.
    pub(crate) fn set_text(&mut self, text: Vec<u8>) {
        self.text = Some(text);
    }

    /// Answers what has come.
    fn answer(&mut self) {
        let text = match &self.text {
            Some(text) => text.as_slice(),
            None => b"",
        };
        let mut page = Page { text };
        self.connection.advance(&mut page);
    }

    /// Reads or writes once, answers what came, and says whether the connection stands.
    pub(crate) fn take_turn(&mut self) -> bool {
        let moved = if self.connection.wants_write() {
            self.connection.write_to(&mut self.stream)
        } else {
            self.connection.read_from(&mut self.stream)
        };
        if !stands(moved) {
            return false;
        }
        self.answer();
        !self.connection.is_done()
    }
}

impl Polled for Scraper {
    fn descriptor(&self) -> i32 {
        self.stream.as_raw_fd()
    }

    fn events(&self) -> i16 {
        if self.connection.wants_write() {
            net::POLLOUT
        } else {
            net::POLLIN
        }
    }

    fn rest(&self, now: u64) -> Option<u64> {
        Some(self.deadline.saturating_sub(now))
    }

    fn deadline(&self) -> Option<u64> {
        Some(self.deadline)
    }
}
