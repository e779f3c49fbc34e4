//! Connections without their sockets (RFC 3261 section 18, RFC 5626 section 3.5.1): what a peer has sent and is handed out message by message,
//! what waits to be written to it, when a connection is to be closed, and the table of all of them. Moments are in milliseconds and come in.
#![tactic(auto)]

mod law;
mod lifetime;
mod message;
mod queue;
mod received;
mod sources;
mod table;

pub use law::{pieces_are_of_the_stream, what_is_written_is_a_front};
pub use lifetime::{ClosingCause, ReceivedTimes, SendingState, SentTimes, closing_cause};
pub use message::QueuedMessage;
pub use queue::{MOST_WAITING, QueueFault, SendQueue};
pub use received::{MOST_MESSAGE, ReceivedStream};
pub use sources::SourceCounts;
pub use table::{ConnectionTable, Opener, Refusal, TableFault, peer_number};
