//! How a connection is begun.
use crate::address::socket_address;
use mio::net::TcpStream;
use sip_uri::Hop;
use std::io;
use std::net::Net;

/// The connections that a proxy begins. Threads may share this: it names no type of a socket of its own, as `Net` does.
pub trait ConnectionSockets {
    /// Begins a connection with the address and the port of a hop; the call does not wait until it is open.
    ///
    /// # Errors
    ///
    /// What the system says.
    fn begin_connection(&self, hop: Hop) -> io::Result<TcpStream>;
}

impl<R: Net> ConnectionSockets for R {
    fn begin_connection(&self, hop: Hop) -> io::Result<TcpStream> {
        TcpStream::connect(self, socket_address(hop))
    }
}
