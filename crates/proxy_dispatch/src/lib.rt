//! What becomes of a datagram that a proxy receives (RFC 3261 sections 11, 16.2, 16.7, 16.10, 16.11, 17.1.3, 17.2.3 and
//! 18): a request goes to the server transaction that it belongs to, opens a call where it is admitted, or is answered with
//! a status of the proxy's own; a response goes to the client transaction of its branch, or is dropped; an ACK that is for no
//! call is absorbed or goes on. Begin with `handle`.
#![tactic(auto)]

mod acks;
mod admission;
mod answers;
mod asking;
mod calls;
mod datagrams;
mod delivery;
mod outcome;
mod purpose;
mod received;
mod registers;
mod requests;
mod responses;

pub use admission::{Admission, Decision, Opener, Unlimited};
pub use calls::{ReadBranch, SharedCalls};
pub use datagrams::{Handled, handle, handle_message};
pub use received::{Received, ReceivedMessage};
