//! The sockets of a proxy: the UDP socket that its threads share, and what is told of it; and sockets that one thread waits for together, one by which
//! clients come, and those of the clients that have come.
#![tactic(auto)]

mod client;
mod listening;
mod sharing;
mod socket;
mod wait;

pub use client::{Polled, place_of_first};
pub use listening::{datagram_buffer, print_listening};
pub use sharing::is_shared;
pub use socket::{SendOutcome, Socket, SocketWaits};
pub use wait::{MOST_CLIENTS, PolledEvents, is_gone, wait_for};
