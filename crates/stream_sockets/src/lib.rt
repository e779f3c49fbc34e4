//! The sockets of connections (RFC 3261 section 18): a listener, connections that peers open and that the proxy opens, and what is read of them
//! and written to them without waiting. What of a connection is a value stands in `stream_connections`.
#![tactic(auto)]

mod address;
mod begun;
mod connection;
mod limits;
mod line;
mod streams;

pub use begun::ConnectionSockets;
pub use connection::{Connection, StreamRead};
pub use limits::StreamLimits;
pub use streams::{Accepted, LISTENER, StreamFront, Streams};
