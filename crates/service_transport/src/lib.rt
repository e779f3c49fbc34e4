//! The transport of a service (RFC 3261 section 18): its sockets, the workers that receive datagrams, the thread that takes connections and what
//! comes by them, the one that keeps the time of calls, and by which socket each of them sends. What is done with a message is
//! `proxy_service`'s.
#![tactic(auto)]

mod connections;
mod idle;
mod listening;
mod port;
mod receiving;
mod sweeping;
mod timer;
mod transport;
mod worker;

pub use listening::{BoundSockets, ProxySockets, bound_all};
pub use port::ServicePort;
pub use transport::ServiceTransport;
