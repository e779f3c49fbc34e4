//! The four transaction machines of SIP (RFC 3261 section 17, with RFC 6026), client and server, of
//! an INVITE and of any other request, over UDP or over TCP: each is fed events and moments, and says
//! what to send, as a retransmission or an ACK, and what to pass up to the proxy core. A machine
//! holds no message and no clock.
#![tactic(auto)]

mod event;
mod invite_client;
mod invite_server;
mod laws;
mod machine;
mod other_client;
mod other_server;
mod timers;

pub use event::{TxEvent, TxOut, TxPass, TxSend};
pub use invite_client::{InviteClient, InviteClientState};
pub use invite_server::{InviteServer, InviteServerState};
pub use laws::acts_when_due;
pub use other_client::{OtherClient, OtherClientState};
pub use other_server::{OtherServer, OtherServerState};
pub use timers::{Reliability, T1, T1_TIMES_64, T2, T4, TIMER_D};
