//! The sockets that scrapers come by.
use std::hash::RandomState;
use std::io;
use std::net::{Net, TcpListener, TcpStream};
use std::random::RandomSource;

/// The sockets that scrapers come by. Threads may share this: it names no type of a socket of its own, as `Net` does.
pub trait PageSockets {
    /// Listens at an address with a port.
    ///
    /// # Errors
    ///
    /// What the system says, and a text that is no address with a port.
    fn listen_on(&self, address: &str) -> io::Result<TcpListener>;

    /// Keys by which no scraper can choose header fields that are slow to tell apart.
    ///
    /// # Errors
    ///
    /// What the system says.
    fn keys(&self) -> io::Result<RandomState>;
}

impl<R: Net<Listener = TcpListener, Stream = TcpStream> + RandomSource> PageSockets for R {
    fn listen_on(&self, address: &str) -> io::Result<TcpListener> {
        TcpListener::bind(self, address)
    }

    fn keys(&self) -> io::Result<RandomState> {
        RandomState::new(self)
    }
}
